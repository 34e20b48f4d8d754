//! The patterns of rules, which are made.
ghost use Rattle.std.specs.Prelude.{◌≤◌, ℕ, List, MatchResult, length};
ghost use Rattle.doc_values.specs.Limits.{rules_limit};
ghost use Rattle.rule_names.specs.code.Files.{file_of};
ghost use Rattle.value_store.specs.code.Books.{IsBookOf};
ghost use Rattle.guard_ends.specs.Order.{AreRead};
ghost use Rattle.guard_inputs.specs.code.Stops.{AreNotMade};

use crate::refused::refused_at;
use crate::stop::Stop;
use guard_ends::{RefusalKind, Which};
use rule_names::RuleFile;
use std::alloc::Global;
use value_compare::{BookRefusal, PatternBook, PatternMaker, pattern_book};

/// Makes the patterns of rules with this text, in the order of their places.
pub fn make_patterns<M: PatternMaker>(
    alloc: Global,
    rules: &RuleFile,
    text: &str,
    maker: &mut M,
) -> Result<PatternBook, Stop>
    requires { length text.now ≤ rules_limit }
    ensures made { MatchResult result
        (λ book. AreRead (file_of rules.now) × IsBookOf (file_of rules.now) book)
        (AreNotMade text.now (file_of rules.now) (M.faults maker.old) (M.faults maker.new)) }
    ensures kept { (other : List ℕ) → M.faults maker.old other ≤ M.faults maker.new other }
{
    match pattern_book(alloc, rules, maker) {
        Ok(book) => Ok(book),
        Err(BookRefusal::BadPattern(at)) => Err(Stop::Refused(refused_at(
            Which::Rules,
            RefusalKind::BadPattern,
            at,
            text.as_bytes(),
        ))),
        Err(BookRefusal::PatternRefused(_)) => Err(Stop::Unmade),
        Err(BookRefusal::NoMemory) => Err(Stop::Memory),
    }
}
