//! `parse-tree`: rules are loaded and read, whatever their names, and out takes the canonical text of their syntax.
ghost use Rattle.std.specs.Prelude.{◌≡◌, ◌≤◌, ℕ, List, length};
ghost use Rattle.doc_values.specs.Limits.{rules_limit};
ghost use Rattle.guard_ends.specs.Order.{OfSyntax, Printing};
ghost use Rattle.guard_inputs.specs.code.Stops.{NoneRose, Rose};
ghost use Rattle.guard_run.specs.code.Outcome.{IsOutcome, IsOutcomeAt};

use crate::done::Done;
use crate::passed::passed;
use guard_ends::Which;
use guard_inputs::{Stop, load_text, syntax_of};
use guard_io::Files;
use rule_printer::print_rules;
use std::alloc::Global;

/// Writes the rules of a name in their canonical text.
pub(crate) fn run_parse_tree<F: Files>(
    alloc: Global,
    rules: &str,
    files: &mut F,
) -> Result<Done, Stop>
    ensures outcome { IsOutcome (OfSyntax (F.content files.old) rules.now) (Rose (F.faults files.old) (F.faults files.new)) NoneRose result }
    ensures contents { (other : List ℕ) → F.content files.new other ≡ F.content files.old other }
    ensures kept { (other : List ℕ) → F.faults files.old other ≤ F.faults files.new other }
{
    let text = load_text(alloc, Which::Rules, rules, files)?;
    print_text(alloc, text.as_str())
}

/// Writes the text of rules, which is no longer than they may be, in its canonical form.
fn print_text(alloc: Global, text: &str) -> Result<Done, Stop>
    requires { length text.now ≤ rules_limit }
    ensures { IsOutcomeAt (Printing text.now) result }
{
    let raw = syntax_of(alloc, text)?;
    let printed = print_rules(alloc, &raw)?;
    Ok(passed(printed))
}
