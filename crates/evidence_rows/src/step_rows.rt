//! Lines of the rows of steps.
ghost use Rattle.std.specs.Prelude.{◌≡◌, ◌++◌, ℕ, List, Option, Some, true, false, IfOk, MatchBool, MatchOption};
ghost use Rattle.std.specs.List.{list_all};
ghost use Rattle.guard_syntax.specs.Named.{Named};
ghost use Rattle.guard_syntax.specs.code.Seen.{see_conds, see_query, see_step};
ghost use Rattle.guard_syntax.specs.Syntax.{filter};
ghost use Rattle.guard_syntax.specs.declared.row.Row as row;
ghost use Rattle.rule_names.specs.Pieces.{OfStep, piece_at};
ghost use Rattle.rule_meaning.specs.StoreModel.{is_known};
ghost use Rattle.evidence_rules.specs.Follows.{FollowsAtStep, FollowsCapture, FollowsFilter, FollowsStep, GivesBefore, GivesFurther, IsLater};
ghost use Rattle.rule_meaning.specs.Places.{is_filter, step_in, steps_in};
ghost use Rattle.evidence_lookups.specs.code.Grounds.{file_in, known_of, lines_of};

use crate::due_rows::{IndexedStep, are_due, verdicts_due};
use crate::one_cite::{expr_cited, variable_cited};
use crate::row_equality::same_rows;
use evidence_lines::{LineKind, Rows};
use evidence_lookups::cited_rows::given_by_step;
use evidence_lookups::line_context::{LineContext, SitedLine};
use evidence_lookups::lookup::value_of;
use guard_syntax::{Conds, Query, Row, Step, StepForm};
use query_steps::{StepInput, captured};
use std::alloc::AllocError;

/// Whether a line of the rows of a step follows: those that it gives, or the keys that it captures.
pub(crate) fn step_follows(
    context: &LineContext<'_, '_, '_>,
    line: SitedLine<'_>,
    query: &Query,
    index: usize,
    rows: &[Row],
) -> Result<bool, AllocError>
    requires placed { piece_at (file_in context.now) line.site ≡ Some (OfStep (see_query query.now) index) }
    ensures follows { IfOk result (λ follows. MatchBool follows
        (FollowsAtStep (known_of context.now) (lines_of context.now) line.entry.frame line.entry.site line.entry.kind (see_query query.now) index (step_in (steps_in (see_query query.now)) index) line.entry.cites.now rows.now)
        (FollowsAtStep (known_of context.now) (lines_of context.now) line.entry.frame line.entry.site line.entry.kind (see_query query.now) index (step_in (steps_in (see_query query.now)) index) line.entry.cites.now rows.now → ⊥)) }
    ensures known { IfOk result (λ follows. follows ≡ true → list_all (is_known (known_of context.now)) rows.now ≡ true) }
{
    let Some(step) = query.steps.get(index) else {
        return Ok(false);
    };
    let at = IndexedStep { query, index, step };
    match &step.form {
        StepForm::Filter(_, conditions) => match line.kind {
            LineKind::Filter => filter_follows(context, line, at, conditions, rows),
            LineKind::Capture => capture_follows(context, line, step, rows),
            _ => Ok(false),
        },
        StepForm::Keys { .. } => match line.kind {
            LineKind::Keys => other_follows(context, line, at, rows),
            LineKind::Capture => capture_follows(context, line, step, rows),
            _ => Ok(false),
        },
        _ => match line.kind {
            LineKind::Step => other_follows(context, line, at, rows),
            _ => Ok(false),
        },
    }
}

/// Whether the rows of a step that is no filter follow.
fn other_follows(
    context: &LineContext<'_, '_, '_>,
    line: SitedLine<'_>,
    at: IndexedStep<'_>,
    rows: &[Row],
) -> Result<bool, AllocError>
    requires placed { piece_at (file_in context.now) line.site ≡ Some (OfStep (see_query at.query.now) at.index) }
    requires step { step_in (steps_in (see_query at.query.now)) at.index ≡ Some (see_step at.step.now) }
    requires other { is_filter (see_step at.step.now) ≡ false }
    ensures follows { IfOk result (λ follows. MatchBool follows
        (FollowsStep (known_of context.now) (lines_of context.now) line.entry.frame line.entry.site (see_query at.entry.query.now) at.entry.index (see_step at.entry.step.now) line.entry.cites.now rows.now)
        (FollowsStep (known_of context.now) (lines_of context.now) line.entry.frame line.entry.site (see_query at.entry.query.now) at.entry.index (see_step at.entry.step.now) line.entry.cites.now rows.now → ⊥)) }
    ensures known { IfOk result (λ follows. follows ≡ true → list_all (is_known (known_of context.now)) rows.now ≡ true) }
{
    let Some(current) = value_of(&context.lines, line.frame) else {
        return Ok(false);
    };
    let Some((before, last)) = rows_before(context, line, at.query, at.index) else {
        return Ok(false);
    };
    let Some(further) = rows_further(context, line.frame, at.step, last) else {
        return Ok(false);
    };
    let before = before.gather(context.alloc)?;
    let further = further.gather(context.alloc)?;
    let input = StepInput {
        current,
        before: before.as_slice(),
        further: further.as_slice(),
        verdicts: &[],
    };
    are_due(context, line.site, at, input, rows)
}

/// Whether the rows of the filter of an index, which has these conditions, follow: none stands at the start of a query.
fn filter_follows(
    context: &LineContext<'_, '_, '_>,
    line: SitedLine<'_>,
    at: IndexedStep<'_>,
    conditions: &Conds,
    rows: &[Row],
) -> Result<bool, AllocError>
    requires placed { piece_at (file_in context.now) line.site ≡ Some (OfStep (see_query at.query.now) at.index) }
    requires filter { (n : ℕ) × (capture : Option Named) × (step_in (steps_in (see_query at.query.now)) at.index ≡ Some (filter n capture (see_conds conditions.now))) }
    ensures follows { IfOk result (λ follows. MatchBool follows
        (IsLater at.entry.index × FollowsFilter (known_of context.now) (lines_of context.now) line.entry.frame line.entry.site (see_query at.entry.query.now) at.entry.index (see_conds conditions.now) line.entry.cites.now rows.now)
        (IsLater at.entry.index × FollowsFilter (known_of context.now) (lines_of context.now) line.entry.frame line.entry.site (see_query at.entry.query.now) at.entry.index (see_conds conditions.now) line.entry.cites.now rows.now → ⊥)) }
    ensures known { IfOk result (λ follows. follows ≡ true → list_all (is_known (known_of context.now)) rows.now ≡ true) }
{
    let index = at.index;
    if index == 0 {
        return Ok(false);
    }
    let Some(current) = value_of(&context.lines, line.frame) else {
        return Ok(false);
    };
    let Some((before, last)) = rows_before(context, line, at.query, index) else {
        return Ok(false);
    };
    let before = before.gather(context.alloc)?;
    let judges = SitedLine {
        frame: line.frame,
        site: line.site,
        kind: line.kind,
        cites: last,
    };
    let Some(verdicts) = verdicts_due(context, judges, at, conditions, before.as_slice())? else {
        return Ok(false);
    };
    let input = StepInput {
        current,
        before: before.as_slice(),
        further: &[],
        verdicts: &verdicts,
    };
    are_due(context, line.site, at, input, rows)
}

/// Whether the keys that a filter or key filter captures follow.
fn capture_follows(
    context: &LineContext<'_, '_, '_>,
    line: SitedLine<'_>,
    step: &Step,
    rows: &[Row],
) -> Result<bool, AllocError>
    ensures follows { IfOk result (λ follows. MatchBool follows
        (FollowsCapture (known_of context.now) (lines_of context.now) line.entry.frame (see_step step.now) line.entry.cites.now rows.now)
        (FollowsCapture (known_of context.now) (lines_of context.now) line.entry.frame (see_step step.now) line.entry.cites.now rows.now → ⊥)) }
    ensures known { IfOk result (λ follows. follows ≡ true → list_all (is_known (known_of context.now)) rows.now ≡ true) }
{
    let [number] = line.cites else {
        return Ok(false);
    };
    let Some(kept) = given_by_step(context, line.frame, step, *number) else {
        return Ok(false);
    };
    let kept = kept.gather(context.alloc)?;
    let due = captured(context.alloc, kept.as_slice(), context.store)?;
    Ok(same_rows(rows, &due))
}

/// The rows of the step before the one of an index, which the first number cites, and the numbers behind it. A start has
/// no rows before it, and no number.
fn rows_before<'b>(
    context: &'b LineContext<'_, '_, '_>,
    line: SitedLine<'b>,
    query: &Query,
    index: usize,
) -> Option<(Rows<'b>, &'b [u64])>
    ensures { MatchOption result
        ((first last : List ℕ) → (rows : List row.Row) → line.entry.cites.now ≡ first ++ last → GivesBefore (known_of context.entry.now) (lines_of context.entry.now) line.entry.frame (see_query query.now) index first rows → ⊥)
        (λ found. (first : List ℕ) × (line.entry.cites.now ≡ first ++ found.1.now) × GivesBefore (known_of context.entry.now) (lines_of context.entry.now) line.entry.frame (see_query query.now) index first found.0) }
{
    let cites = line.cites;
    if index == 0 {
        return Some((Rows::new(&[]), cites));
    }
    let [number, last @ ..] = cites else {
        return None;
    };
    let Some(step) = query.steps.get(index - 1) else {
        return None;
    };
    let Some(rows) = given_by_step(context, line.frame, step, *number) else {
        return None;
    };
    Some((rows, last))
}

/// The rows of what a step names further: of a variable, or of the right side of a key filter.
fn rows_further<'b>(
    context: &'b LineContext<'_, '_, '_>,
    frame: u64,
    step: &Step,
    cites: &[u64],
) -> Option<Rows<'b>>
    ensures { MatchOption result
        ((rows : List row.Row) → GivesFurther (known_of context.entry.now) (lines_of context.entry.now) frame (see_step step.now) cites.now rows → ⊥)
        (λ rows. GivesFurther (known_of context.entry.now) (lines_of context.entry.now) frame (see_step step.now) cites.now rows) }
{
    match &step.form {
        StepForm::Var(_) => variable_cited(context, frame, step.site, cites),
        StepForm::Splice(_) => variable_cited(context, frame, step.site, cites),
        StepForm::Keys { right, .. } => expr_cited(context, frame, right, cites),
        StepForm::Filter(..) => None,
        _ => match cites {
            [] => Some(Rows::new(&[])),
            _ => None,
        },
    }
}
