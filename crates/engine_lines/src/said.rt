//! What an evaluation answers.
ghost use Rattle.std.specs.Prelude.{◌≡◌, ◌++◌, ◌∷◌, [], OnOk};

use guard_syntax::Verdict;
use std::alloc::{AllocError, Global};

/// The line of a part, and the verdict that it says.
#[derive(Clone, Copy)]
pub struct Said {
    pub line: u64,
    pub verdict: Verdict,
}

/// The lines that one is going to cite, in order, and the verdict that follows from them.
#[derive(Drop)]
pub struct Cited {
    pub lines: Vec<u64>,
    pub verdict: Verdict,
}

/// The lines of conditions for candidates, in order, and the verdict of each.
#[derive(Drop)]
pub struct Judged {
    pub lines: Vec<u64>,
    pub verdicts: Vec<Verdict>,
}

impl Judged {
    /// None so far. It takes no memory.
    pub fn new(alloc: Global) -> Judged
        ensures lines { result.lines.items ≡ [] }
        ensures verdicts { result.verdicts.items ≡ [] }
    {
        Judged {
            lines: Vec::new(alloc),
            verdicts: Vec::new(alloc),
        }
    }

    /// One candidate more.
    pub fn note(&mut self, said: Said) -> Result<(), AllocError>
        ensures lines { OnOk result (self.new.lines.items ≡ self.old.lines.items ++ said.line ∷ []) }
        ensures verdicts { OnOk result (self.new.verdicts.items ≡ self.old.verdicts.items ++ said.verdict ∷ []) }
    {
        self.lines.push(said.line)?;
        self.verdicts.push(said.verdict)?;
        Ok(())
    }
}
