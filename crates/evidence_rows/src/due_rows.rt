//! What a step gives that a line is about, and whether the line says so: where the step stands was found by its site.
ghost use Rattle.std.specs.Prelude.{◌≡◌, ◌<◌, true, length, List, Some, [], IfOk, MatchBool, MatchOption};
ghost use Rattle.std.specs.List.{list_all};
ghost use Rattle.guard_syntax.specs.code.Seen.{see_conds, see_query};
ghost use Rattle.guard_syntax.specs.declared.row.Verdict as judged;
ghost use Rattle.guard_syntax.specs.declared.syntax.Query.{out-Query};
ghost use Rattle.rule_names.specs.Pieces.{OfStep, piece_at};
ghost use Rattle.rule_meaning.specs.Places.{IsFilterAt, IsStartAt, candidates_at, placed_in, rows_at_step, steps_in};
ghost use Rattle.rule_meaning.specs.StoreModel.{is_known, is_known_ref};
ghost use Rattle.evidence_rules.specs.Follows.{SayEach, SaysCandidate};
ghost use Rattle.query_steps.specs.code.Placed.{see_place};
ghost use Rattle.evidence_lookups.specs.code.Grounds.{file_in, known_of, lines_of};

use crate::row_equality::same_rows;
use crate::tried_candidates::tried_verdicts;
use evidence_lookups::line_context::{LineContext, SitedLine};
use guard_syntax::{Conds, Query, Row, Step, Verdict};
use query_steps::{StepInput, StepPlace, placed_candidates, placed_step};
use std::alloc::AllocError;

/// The step of an index of a query.
#[derive(Clone, Copy)]
pub(crate) struct IndexedStep<'q> {
    pub query: &'q Query,
    pub index: usize,
    pub step: &'q Step,
    pub ghost within: { index < length (out-Query query.now).steps.items },
}

/// Whether rows are those that the step of a site gives.
pub(crate) fn are_due(
    context: &LineContext<'_, '_, '_>,
    site: u32,
    at: IndexedStep<'_>,
    input: StepInput<'_>,
    rows: &[Row],
) -> Result<bool, AllocError>
    requires placed { piece_at (file_in context.now) site ≡ Some (OfStep (see_query at.query.now) at.index) }
    requires start { IsStartAt (file_in context.now) site → input.before.now ≡ [] }
    requires verdicts { length input.verdicts.now ≡ length (candidates_at (known_of context.now) site input.before.now) }
    requires current { is_known_ref (known_of context.now) input.current ≡ true }
    requires before { list_all (is_known (known_of context.now)) input.before.now ≡ true }
    requires further { list_all (is_known (known_of context.now)) input.further.now ≡ true }
    ensures due { IfOk result (λ due. MatchBool due
        (rows.now ≡ rows_at_step (known_of context.now) site input.entry.current input.entry.before.now input.entry.further.now input.entry.verdicts.now)
        (rows.now ≡ rows_at_step (known_of context.now) site input.entry.current input.entry.before.now input.entry.further.now input.entry.verdicts.now → ⊥)) }
    ensures known { IfOk result (λ due. due ≡ true → list_all (is_known (known_of context.now)) rows.now ≡ true) }
{
    let due = placed_step(
        context.alloc,
        place_of(at),
        input,
        context.store,
        context.book,
    )?;
    Ok(same_rows(rows, &due))
}

/// The verdicts of the conditions of a filter, the step of a line's site, for the values that it tries behind these rows, if
/// the line cites one line for each, in order.
pub(crate) fn verdicts_due(
    context: &LineContext<'_, '_, '_>,
    line: SitedLine<'_>,
    at: IndexedStep<'_>,
    conditions: &Conds,
    before: &[Row],
) -> Result<Option<Vec<Verdict>>, AllocError>
    requires placed { piece_at (file_in context.now) line.site ≡ Some (OfStep (see_query at.query.now) at.index) }
    requires filter { IsFilterAt (file_in context.now) line.site }
    requires known { list_all (is_known (known_of context.now)) before.now ≡ true }
    ensures { IfOk result (λ said. MatchOption said
        ((verdicts : List judged.Verdict) → SayEach (known_of context.now) (lines_of context.now) (SaysCandidate (known_of context.now) (lines_of context.now) line.entry.frame line.entry.site (see_conds conditions.now)) (candidates_at (known_of context.now) line.entry.site before.now) line.entry.cites.now verdicts → ⊥)
        (λ verdicts. SayEach (known_of context.now) (lines_of context.now) (SaysCandidate (known_of context.now) (lines_of context.now) line.entry.frame line.entry.site (see_conds conditions.now)) (candidates_at (known_of context.now) line.entry.site before.now) line.entry.cites.now verdicts.items)) }
{
    let tried = placed_candidates(context.alloc, place_of(at), before, context.store)?;
    tried_verdicts(context.alloc, &context.lines, line, conditions, &tried)
}

/// Where a step stands among the steps of its query.
fn place_of(at: IndexedStep<'_>) -> StepPlace<'_>
    ensures { see_place result ≡ placed_in (steps_in (see_query at.entry.query.now)) at.entry.index }
{
    StepPlace {
        steps: at.query.steps.as_slice(),
        index: at.index,
    }
}
