//! What makes patterns of texts.
ghost use Rattle.std.specs.Prelude.{◌≡◌, ◌≤◌, ℕ, nat_eq, true, List, IfOk, IsErrOf, IsNone, IsSome, OnOk};
ghost use Rattle.std.specs.List.{list_any};
ghost use Rattle.guard_io.specs.Outside.{FaultCounted, one_more};
ghost use Rattle.rule_meaning.specs.PatternMatch.{counted, pattern_in};

use pattern_books::Pattern;
use regex::{Error, Regex};
use std::alloc::Global;

/// Why a pattern was not made.
#[derive(Clone, Copy)]
pub enum PatternFault {
    /// The text is no pattern, or nests deeper than 250 levels.
    Syntax,
    /// The pattern takes too much room.
    TooLarge,
    Memory,
}

/// A maker of patterns, with a count of faults for each text. One counter may serve as the count of every text. A maker that
/// refuses only patterns has a count that stays for every other text, as that of `RegexMaker` does.
pub trait PatternMaker {
    ghost faults: { Self → List ℕ → ℕ };

    /// The pattern of a text.
    fn make(&mut self, alloc: Global, text: &str) -> Result<Pattern, PatternFault>
        ensures made { IfOk result (λ pattern. pattern ≡ text.now) }
        ensures read { OnOk result (IsSome (pattern_in text.now)) }
        ensures syntax { IsErrOf result PatternFault.Syntax → IsNone (pattern_in text.now) }
        ensures too_large { IsErrOf result PatternFault.TooLarge
            → FaultCounted (faults self.old text.now) (faults self.new text.now) }
        ensures kept { (other : List ℕ) → faults self.old other ≤ faults self.new other };
}

/// The pattern that the crate of regular expressions reads from a text.
fn read_pattern(alloc: Global, text: &str) -> Result<Pattern, PatternFault>
    ensures made { IfOk result (λ pattern. pattern ≡ text.now) }
    ensures read { OnOk result (IsSome (pattern_in text.now)) }
    ensures syntax { IsErrOf result PatternFault.Syntax → IsNone (pattern_in text.now) }
    ensures large { IsErrOf result PatternFault.TooLarge → IsSome (pattern_in text.now) }
{
    match Regex::new(alloc, text) {
        Ok(regex) => Ok(Pattern::of(regex)),
        Err(Error::Syntax(_)) => Err(PatternFault::Syntax),
        Err(Error::CompiledTooBig) => Err(PatternFault::TooLarge),
        Err(Error::Internal) => unreachable!(),
        Err(Error::OutOfMemory) => Err(PatternFault::Memory),
    }
}

/// Makes patterns by the crate of regular expressions; it counts the patterns that were too large. A text that is no
/// pattern is never counted.
#[derive(Drop)]
pub struct RegexMaker {
    pub faults: u64,
}

impl PatternMaker for RegexMaker {
    ghost faults = { λ maker text. counted maker.faults text };

    fn make(&mut self, alloc: Global, text: &str) -> Result<Pattern, PatternFault>
        ensures made { IfOk result (λ pattern. pattern ≡ text.now) }
        ensures read { OnOk result (IsSome (pattern_in text.now)) }
        ensures syntax { IsErrOf result PatternFault.Syntax → IsNone (pattern_in text.now) }
        ensures large { IsErrOf result PatternFault.TooLarge → IsSome (pattern_in text.now) }
        ensures too_large { IsErrOf result PatternFault.TooLarge
            → FaultCounted (counted self.old.faults text.now) (counted self.new.faults text.now) }
        ensures kept { (other : List ℕ) → counted self.old.faults other ≤ counted self.new.faults other }
    {
        let made = read_pattern(alloc, text);
        if let Err(PatternFault::TooLarge) = made {
            self.faults = self.faults.saturating_add(1);
        }
        made
    }
}

/// Answers that a pattern is too large at the calls of these numbers, from 0, and else makes patterns as `RegexMaker` does.
#[derive(Drop)]
pub struct ScriptMaker {
    pub failing: Vec<u64>,
    pub calls: u64,
    pub faults: u64,
}

impl PatternMaker for ScriptMaker {
    ghost faults = { λ maker text. maker.faults };

    fn make(&mut self, alloc: Global, text: &str) -> Result<Pattern, PatternFault>
        ensures made { IfOk result (λ pattern. pattern ≡ text.now) }
        ensures read { OnOk result (IsSome (pattern_in text.now)) }
        ensures syntax { IsErrOf result PatternFault.Syntax → IsNone (pattern_in text.now) }
        ensures too_large { IsErrOf result PatternFault.TooLarge → self.new.faults ≡ one_more self.old.faults }
        ensures kept { (other : List ℕ) → self.old.faults ≤ self.new.faults }
        ensures planned { list_any (λ n. nat_eq n self.old.calls) self.old.failing.items ≡ true
            → IsErrOf result PatternFault.TooLarge }
        ensures calls { self.new.calls ≡ one_more self.old.calls }
        ensures failing { self.new.failing.items ≡ self.old.failing.items }
    {
        let call = self.calls;
        self.calls = self.calls.saturating_add(1);
        if self.failing.contains(&call) {
            self.faults = self.faults.saturating_add(1);
            return Err(PatternFault::TooLarge);
        }
        let made = read_pattern(alloc, text);
        if let Err(PatternFault::TooLarge) = made {
            self.faults = self.faults.saturating_add(1);
        }
        made
    }
}
