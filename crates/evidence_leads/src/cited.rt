//! What lines that are cited say: whether one says FAIL, the rows that one gives, and the value of a frame.
ghost use Rattle.std.specs.Prelude.{◌≡◌, Some, true};
ghost use Rattle.guard_syntax.specs.code.Seen.{see_opt_conds};
ghost use Rattle.rule_meaning.specs.Roots.{root_ref};
ghost use Rattle.rule_meaning.specs.StoreModel.{StoreModel, is_known_ref};
ghost use Rattle.evidence_truth.specs.code.LineFails.{behind_conds, is_failing, rows_cited, rows_in, rows_of_line};
ghost use Rattle.evidence_leads.specs.code.Leads.{AreGrounded, current_ref, is_some_fail};

use evidence_lines::{LineList, Outcome, Rows};
use evidence_lookups::lookup::value_of;
use guard_syntax::{Conds, Origin, Ref, Verdict};

/// Whether the line of a number says FAIL. No more of it is looked at than its verdict.
pub fn is_failing(lines: &LineList<'_>, number: u64) -> bool
    ensures { (known : StoreModel) → result ≡ is_failing known lines.now number }
{
    is_some_fail(lines.verdict_at(number))
}

/// Whether a verdict is there, and is FAIL.
fn is_some_fail(verdict: Option<Verdict>) -> bool
    ensures { result ≡ is_some_fail verdict }
{
    match verdict {
        Some(Verdict::Fail) => true,
        Some(Verdict::Pass) => false,
        Some(Verdict::Skip) => false,
        None => false,
    }
}

/// The rows that the line of a number says; none where it says no rows.
pub(crate) fn rows_of_line<'b>(lines: &'b LineList<'_>, number: u64) -> Rows<'b>
    ensures { (known : StoreModel) → result ≡ rows_of_line known lines.entry.now number }
{
    match lines.outcome_at(number) {
        Some(outcome) => rows_in(outcome),
        None => Rows::new(&[]),
    }
}

/// The rows of what a line says.
fn rows_in(outcome: Outcome<'_>) -> Rows<'_>
    ensures { result ≡ rows_in outcome.entry }
{
    match outcome {
        Outcome::Rows(rows) => rows,
        Outcome::Value(_) => Rows::new(&[]),
        Outcome::Verdict(_) => Rows::new(&[]),
    }
}

/// The rows of the cite of an index; none where there is no such cite.
pub(crate) fn rows_cited<'b>(lines: &'b LineList<'_>, cites: &[u64], index: usize) -> Rows<'b>
    ensures { (known : StoreModel) → result ≡ rows_cited known lines.entry.now cites.now index }
{
    match cites.get(index) {
        Some(cite) => rows_of_line(lines, *cite),
        None => Rows::new(&[]),
    }
}

/// The cites of a type block behind that of its conditions, if it has some.
pub(crate) fn behind_conds<'c>(conditions: &Option<Conds>, cites: &'c [u64]) -> &'c [u64]
    ensures { result.now ≡ behind_conds (see_opt_conds conditions.now) cites.entry.now }
{
    match conditions {
        None => cites,
        Some(_) => match cites {
            [] => cites,
            [_, rest @ ..] => rest,
        },
    }
}

/// The value of a frame, and the root of the template where there is none.
pub(crate) fn current_ref(lines: &LineList<'_>, frame: Option<u64>) -> Ref
    ensures value { (known : StoreModel) → result ≡ current_ref known lines.now frame }
    ensures known { (known : StoreModel) → AreGrounded known lines.now → is_known_ref known result ≡ true }
{
    match frame {
        Some(frame) => value_or_root(lines, frame),
        None => root(),
    }
}

/// The value of a frame, and the root where there is none.
fn value_or_root(lines: &LineList<'_>, frame: u64) -> Ref
    ensures { (known : StoreModel) → result ≡ current_ref known lines.now (Some frame) }
{
    value_of(lines, frame).unwrap_or(root())
}

/// The root of the template.
fn root() -> Ref
    ensures { result ≡ root_ref }
{
    Ref {
        origin: Origin::Template,
        node: 0,
        key: false,
    }
}
