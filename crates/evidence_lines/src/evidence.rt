//! Lines of evidence by their numbers.
ghost use Rattle.std.specs.Prelude.{◌≡◌, ◌++◌, ◌∷◌, ◌^◌, ◌<◌, ◌≤◌, ◌↔◌, [], length, take, IfOk, IsOk, IsSome, OnErr};
ghost use Rattle.evidence_lines.specs.Lines.{line_of};
ghost use Rattle.evidence_lines.specs.code.Said.{kind_at, outcome_at, place_at, verdict_at};

use crate::held::Held;
use crate::line::{Line, LineKind, LinePlace, Outcome};
use crate::version::Version;
use guard_syntax::Verdict;
use std::alloc::{AllocError, Global};
use std::marker::Model;

/// Lines of evidence, the first of which has the number 1, and the version by which they are meant. Contracts see both.
#[derive(Drop)]
pub struct Evidence {
    version: Version,
    held: Held,
}

impl Model for Evidence {
    ghost use Rattle.evidence_lines.specs.Versioned.{Versioned};
    ghost use Rattle.evidence_lines.specs.code.Held.{IsHeld, see_lines};

    ghost Value = { Versioned };

    ghost view = { λ e. record { version = e.version; lines = see_lines e.held } };

    ghost invariant = { λ e. IsHeld e.held };
}

/// The first lines of evidence. Contracts see a list.
#[derive(Drop)]
pub struct LineList<'a> {
    held: &'a Held,
    count: u64,
}

impl<'a> Model for LineList<'a> {
    ghost use Rattle.std.specs.Prelude.{List, take};
    ghost use Rattle.evidence_lines.specs.declared.line.Line.{Line};
    ghost use Rattle.evidence_lines.specs.code.Held.{IsFront, see_lines};

    ghost Value = { List Line };

    ghost view = { λ l. take l.count (see_lines l.held.now) };

    ghost invariant = { λ l. IsFront l.held.now l.count };
}

impl<'a> LineList<'a> {
    /// The line of a number. It takes no memory.
    pub fn get(&self, number: u64) -> Option<Line<'a>>
        ensures line { result ≡ line_of self.entry.now number }
        ensures some { IsSome result ↔ ((1 ≤ number) × (number ≤ length self.entry.now)) }
    {
        if number == 0 || number > self.count {
            return None;
        }
        self.held.line((number - 1) as usize)
    }

    /// The kind of the line of a number. Nothing else of the line is looked at.
    pub fn kind_at(&self, number: u64) -> Option<LineKind>
        ensures { result ≡ kind_at self.now number }
    {
        if number == 0 || number > self.count {
            return None;
        }
        self.held.kind((number - 1) as usize)
    }

    /// Where the line of a number stands, and its kind. Neither what it cites nor what it says is looked at.
    pub fn place_at(&self, number: u64) -> Option<LinePlace>
        ensures { result ≡ place_at self.now number }
    {
        if number == 0 || number > self.count {
            return None;
        }
        self.held.place((number - 1) as usize)
    }

    /// What the line of a number says. Neither where it stands nor what it cites is looked at.
    pub fn outcome_at(&self, number: u64) -> Option<Outcome<'a>>
        ensures { result ≡ outcome_at self.entry.now number }
    {
        if number == 0 || number > self.count {
            return None;
        }
        self.held.outcome((number - 1) as usize)
    }

    /// The verdict that the line of a number says, if it says one. Nothing else of the line is looked at.
    pub fn verdict_at(&self, number: u64) -> Option<Verdict>
        ensures { result ≡ verdict_at self.now number }
    {
        if number == 0 || number > self.count {
            return None;
        }
        self.held.verdict((number - 1) as usize)
    }

    /// How many lines there are. It takes no memory.
    pub fn len(&self) -> u64
        ensures count { result ≡ length self.now }
        ensures small { result < 2 ^ 63 }
    {
        self.count
    }
}

impl Evidence {
    /// No lines, of a version. It takes no memory.
    pub fn new(alloc: Global, version: Version) -> Evidence
        ensures version { result.version ≡ version }
        ensures lines { result.lines ≡ [] }
    {
        Evidence {
            version,
            held: Held::new(alloc),
        }
    }

    /// No lines yet, and room for so many. It takes no memory for none.
    pub fn with_room(alloc: Global, version: Version, lines: usize) -> Result<Evidence, AllocError>
        ensures version { IfOk result (λ e. e.version ≡ version) }
        ensures lines { IfOk result (λ e. e.lines ≡ []) }
        ensures none { lines ≡ 0 → IsOk result }
    {
        let held = Held::with_room(alloc, lines)?;
        Ok(Evidence { version, held })
    }

    /// The version. It takes no memory.
    pub fn version(&self) -> Version
        ensures { result ≡ self.now.version }
    {
        self.version
    }

    /// Adds a line behind the others, and answers its number.
    pub fn push(&mut self, line: Line<'_>) -> Result<u64, AllocError>
        ensures added { IfOk result (λ number. (self.new.lines ≡ self.old.lines ++ line.entry ∷ []) × (number ≡ length self.new.lines)) }
        ensures version { self.new.version ≡ self.old.version }
        ensures kept { OnErr result (self.new ≡ self.old) }
    {
        self.held.push(line)?;
        Ok(self.held.lines.len() as u64)
    }

    /// The lines. It takes no memory.
    pub fn lines(&self) -> LineList<'_>
        ensures { result ≡ self.entry.now.lines }
    {
        LineList {
            held: &self.held,
            count: self.held.lines.len() as u64,
        }
    }

    /// The first lines, as many as `count`. It takes no memory.
    pub fn first(&self, count: u64) -> LineList<'_>
        requires { count ≤ length self.now.lines }
        ensures { result ≡ take count self.entry.now.lines }
    {
        LineList {
            held: &self.held,
            count,
        }
    }

    /// The line of a number. It takes no memory.
    pub fn get(&self, number: u64) -> Option<Line<'_>>
        ensures line { result ≡ line_of self.entry.now.lines number }
        ensures some { IsSome result ↔ ((1 ≤ number) × (number ≤ length self.entry.now.lines)) }
    {
        self.lines().get(number)
    }

    /// How many lines there are. It takes no memory.
    pub fn len(&self) -> u64
        ensures count { result ≡ length self.now.lines }
        ensures small { result < 2 ^ 63 }
    {
        self.held.lines.len() as u64
    }
}
