//! Lines of verdicts of tests.
ghost use Rattle.std.specs.Prelude.{◌≡◌, ◌&&◌, true, List, Option, ℕ, IfOk, MatchBool, MatchOption, if◌then◌else◌};
ghost use Rattle.std.specs.List.{list_all, list_any};
ghost use Rattle.guard_syntax.specs.code.Seen.{see_opt_expr, see_query, see_step};
ghost use Rattle.guard_syntax.specs.Syntax.{more_steps, no_steps, test};
ghost use Rattle.guard_syntax.specs.declared.row.Row.{Row};
ghost use Rattle.rule_meaning.specs.StoreModel.{is_known};
ghost use Rattle.evidence_rules.specs.Follows.{FollowsTest, GivesRight};
ghost use Rattle.rule_meaning.specs.Keys.{passes};
ghost use Rattle.rule_meaning.specs.SetTests as asked;
ghost use Rattle.rule_meaning.specs.Verdicts as judged;
ghost use Rattle.rule_meaning.specs.Verdicts.{set_verdict, test_verdict};
ghost use Rattle.evidence_lookups.specs.code.Grounds.{known_of, lines_of};
ghost use Rattle.evidence_rows.specs.code.TestedRows.{holds_for};

use crate::one_cite::expr_cited;
use evidence_lines::Rows;
use evidence_lookups::cited_rows::given_by_query;
use evidence_lookups::expression_lines::is_found;
use evidence_lookups::line_context::{LineContext, SitedLine};
use guard_syntax::{Expr, Op, Query, Row, Step, StepForm, Verdict};
use query_steps::{RowTest, row_passes};
use std::alloc::AllocError;
use value_compare::Matchers;

/// What a test asks.
#[derive(Clone, Copy)]
pub struct AskedTest<'p> {
    pub any: bool,
    pub left: &'p Query,
    pub op: Op,
    pub not: bool,
    pub right: &'p Option<Expr>,
}

/// Whether the line of a test follows, from the rows of its left side and of its right side, if it has one.
pub fn test_follows(
    context: &LineContext<'_, '_, '_>,
    line: SitedLine<'_>,
    asks: AskedTest<'_>,
    verdict: Verdict,
) -> Result<bool, AllocError>
    ensures { (n : ℕ) → (message : Option (List ℕ)) → IfOk result (λ follows. MatchBool follows
        (FollowsTest (known_of context.now) (lines_of context.now) line.entry.frame (test n asks.entry.any (see_query asks.entry.left.now) asks.entry.op asks.entry.not (see_opt_expr asks.entry.right.now) message) line.entry.cites.now verdict)
        (FollowsTest (known_of context.now) (lines_of context.now) line.entry.frame (test n asks.entry.any (see_query asks.entry.left.now) asks.entry.op asks.entry.not (see_opt_expr asks.entry.right.now) message) line.entry.cites.now verdict → ⊥)) }
{
    let Some((first, others)) = line.cites.split_first() else {
        return Ok(false);
    };
    let Some(lefts) = given_by_query(context, line.frame, asks.left, *first) else {
        return Ok(false);
    };
    let Some(rights) = given_at_right(context, line.frame, asks.right, others) else {
        return Ok(false);
    };
    let lefts = lefts.gather(context.alloc)?;
    let rights = rights.gather(context.alloc)?;
    let said = test_of_rows(context, asks, lefts.as_slice(), rights.as_slice())?;
    Ok(verdict == said)
}

/// The rows of the right side of a test: of its one cite, if it has one.
fn given_at_right<'b>(
    context: &'b LineContext<'_, '_, '_>,
    frame: u64,
    right: &Option<Expr>,
    cites: &[u64],
) -> Option<Rows<'b>>
    ensures { MatchOption result
        ((rows : List Row) → GivesRight (known_of context.entry.now) (lines_of context.entry.now) frame (see_opt_expr right.now) cites.now rows → ⊥)
        (λ rows. GivesRight (known_of context.entry.now) (lines_of context.entry.now) frame (see_opt_expr right.now) cites.now rows) }
{
    match right {
        Some(expr) => expr_cited(context, frame, expr, cites),
        None => match cites {
            [] => Some(Rows::new(&[])),
            _ => None,
        },
    }
}

/// The verdict of a test on rows. `empty` on a set looks at the rows together, any other test at each row, and is SKIP where
/// there is none.
fn test_of_rows(
    context: &LineContext<'_, '_, '_>,
    asks: AskedTest<'_>,
    lefts: &[Row],
    rights: &[Row],
) -> Result<Verdict, AllocError>
    requires lefts { list_all (is_known (known_of context.now)) lefts.now ≡ true }
    requires rights { list_all (is_known (known_of context.now)) rights.now ≡ true }
    ensures { IfOk result (λ v. v ≡ (if asked.is_empty_test asks.entry.op && asked.is_set (see_query asks.entry.left.now)
        then set_verdict asks.entry.not lefts.now
        else test_verdict asks.entry.any (passes (known_of context.now) asks.entry.op asks.entry.not rights.now) lefts.now)) }
{
    if is_set_test(asks.op, asks.left) {
        return Ok(verdict_of_set(asks.not, lefts));
    }
    if lefts.is_empty() {
        return Ok(Verdict::Skip);
    }
    let mut matchers = Matchers::new(context.alloc, context.book);
    let holds = holds_of_rows(&mut matchers, context, asks, lefts, rights)?;
    Ok(pass_if(holds))
}

/// Whether a test asks if a set is empty.
fn is_set_test(op: Op, left: &Query) -> bool
    ensures { result ≡ (asked.is_empty_test op && asked.is_set (see_query left.now)) }
{
    match op {
        Op::Empty => is_set(left),
        _ => false,
    }
}

/// Whether the rows of a query are a set: it ends in a filter or a key filter, or is a variable alone.
fn is_set(query: &Query) -> bool
    ensures { result ≡ asked.is_set (see_query query.now) }
{
    match query.steps.as_slice() {
        [] => false,
        [step] => is_filtering(step) || is_variable(step),
        [.., last] => is_filtering(last),
    }
}

/// Whether a step is a filter or a key filter.
fn is_filtering(step: &Step) -> bool
    ensures { result ≡ asked.is_filtering (see_step step.now) }
{
    match &step.form {
        StepForm::Filter(_, _) => true,
        StepForm::Keys { .. } => true,
        _ => false,
    }
}

/// Whether a step is a variable.
fn is_variable(step: &Step) -> bool
    ensures { result ≡ asked.is_lone_variable (more_steps (see_step step.now) no_steps) }
{
    match &step.form {
        StepForm::Var(_) => true,
        _ => false,
    }
}

/// The verdict of a test whether a set is empty: it is where no row was found.
fn verdict_of_set(not: bool, rows: &[Row]) -> Verdict
    ensures { result ≡ set_verdict not rows.now }
{
    if not {
        pass_if(one_is_found(rows))
    } else {
        pass_if(!one_is_found(rows))
    }
}

/// Whether something was found at one of the rows.
fn one_is_found(rows: &[Row]) -> bool
    ensures { result ≡ list_any judged.is_found rows.now }
{
    for row in rows {
        if is_found(row) {
            return true;
        }
    }
    false
}

/// Whether a test on left rows against right rows holds: with `some` one left row that passes is enough.
fn holds_of_rows(
    matchers: &mut Matchers<'_>,
    context: &LineContext<'_, '_, '_>,
    asks: AskedTest<'_>,
    lefts: &[Row],
    rights: &[Row],
) -> Result<bool, AllocError>
    requires book { matchers.old.book.now ≡ context.now.book.now }
    requires lefts { list_all (is_known (known_of context.now)) lefts.now ≡ true }
    requires rights { list_all (is_known (known_of context.now)) rights.now ≡ true }
    ensures { IfOk result (λ p. p ≡ holds_for asks.entry.any (passes (known_of context.now) asks.entry.op asks.entry.not rights.now) lefts.now) }
{
    let any = asks.any;
    let test = RowTest {
        op: asks.op,
        not: asks.not,
        rights,
    };
    for left in lefts {
        // With `some` a row that passes decides, else a row that fails.
        let passes = row_passes(matchers, test, left, context.store)?;
        if passes == any {
            return Ok(any);
        }
    }
    Ok(!any)
}

/// PASS where something holds.
fn pass_if(holds: bool) -> Verdict
    ensures { result ≡ judged.pass_if holds }
{
    if holds { Verdict::Pass } else { Verdict::Fail }
}
