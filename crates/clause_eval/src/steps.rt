//! Lines of the steps of queries.
ghost use Rattle.std.specs.Prelude.{◌≡◌, ◌<◌, length, IfOk, None, true};
ghost use Rattle.std.specs.List.{list_all};
ghost use Rattle.guard_syntax.specs.code.Seen.{see_conds, see_query};
ghost use Rattle.guard_syntax.specs.declared.syntax.Query.{out-Query};
ghost use Rattle.query_steps.specs.code.Placed.{FiltersAt, candidates_of_place, see_place};
ghost use Rattle.rule_meaning.specs.Places.{step_at};
ghost use Rattle.rule_meaning.specs.StoreModel.{is_known, is_known_ref};
ghost use Rattle.value_store.specs.code.Stores.{see_store};
ghost use Rattle.engine_states.specs.code.Answers.{AnswersCandidates, AnswersFilter, AnswersStepBehind, GivesBeforeSite, GivesStepBefore, IsFilterWith, LacksStep, StandsUpTo};
ghost use Rattle.engine_states.specs.code.States.{IsWhole};
ghost use Rattle.engine_lines.specs.code.Lines.{see_lines};

use crate::names::variable;
use crate::rows::expression;
use crate::verdicts::conditions;
use engine_lines::{EngineLines, Judged, SitedStep};
use evidence_lines::{LineKind, Rows};
use guard_syntax::{Conds, Query, Ref, StepForm};
use query_steps::{StepPlace, placed_candidates};
use std::alloc::{AllocError, Global};
use value_compare::Store;

/// The line of a step that has none yet, behind that of the step before it.
#[cycle(evaluation)]
pub(crate) fn step<'t>(
    engine: &mut EngineLines<'t, '_>,
    frame: u64,
    query: &'t Query,
    index: usize,
    before: Option<u64>,
) -> Result<u64, AllocError>
    requires whole { IsWhole (see_lines engine.old) }
    requires stands { StandsUpTo (see_lines engine.old) frame (see_query query.now) index }
    requires index { index < length (out-Query query.now).steps.items }
    requires new { LacksStep (see_lines engine.old) frame (see_query query.now) index }
    requires before { GivesStepBefore (see_lines engine.old) frame (see_query query.now) index before }
    ensures { IfOk result (λ number. AnswersStepBehind (see_lines engine.old) (see_lines engine.new) frame (see_query query.now) index before number) }
{
    let step = &query.steps[index];
    let steps = query.steps.as_slice();
    let sited = SitedStep {
        frame,
        site: step.site,
        place: StepPlace { steps, index },
    };
    match &step.form {
        StepForm::Filter(_, conds) => match before {
            Some(before) => filter(engine, sited, conds, before),
            None => unreachable!(),
        },
        StepForm::Keys { right, .. } => {
            let further = expression(engine, frame, right)?;
            engine.add_step(LineKind::Keys, sited, before, Some(further))
        }
        StepForm::Var(_) => {
            let further = variable(engine, frame, step.site)?;
            engine.add_step(LineKind::Step, sited, before, Some(further))
        }
        StepForm::Splice(_) => {
            let further = variable(engine, frame, step.site)?;
            engine.add_step(LineKind::Step, sited, before, Some(further))
        }
        _ => engine.add_step(LineKind::Step, sited, before, None),
    }
}

/// The line of a filter: its conditions are judged for each candidate in a frame of its own.
#[cycle(evaluation)]
fn filter<'t>(
    engine: &mut EngineLines<'t, '_>,
    step: SitedStep<'t>,
    conds: &'t Conds,
    before: u64,
) -> Result<u64, AllocError>
    requires whole { IsWhole (see_lines engine.old) }
    requires stands { IsFilterWith (see_lines engine.old) step.frame step.site (see_conds conds.now) }
    requires new { (see_lines engine.old).parts step.frame step.site ≡ None }
    requires before { GivesBeforeSite (see_lines engine.old) step.frame step.site before }
    requires place { step_at (see_lines engine.old).known.file step.site ≡ see_place step.place }
    ensures { IfOk result (λ number. AnswersFilter (see_lines engine.old) (see_lines engine.new) step.entry.frame step.entry.site before number) }
{
    let said = engine.rows_said(before);
    let tried = candidates(engine.alloc, step.place, said, &engine.store)?;
    let judged = judge_candidates(engine, step.frame, step.site, conds, &tried)?;
    engine.add_filter(step, before, judged)
}

/// The lines of the conditions of a filter for its candidates, each in a frame of its own.
#[cycle(evaluation)]
fn judge_candidates<'t>(
    engine: &mut EngineLines<'t, '_>,
    frame: u64,
    site: u32,
    conds: &'t Conds,
    tried: &[Ref],
) -> Result<Judged, AllocError>
    requires whole { IsWhole (see_lines engine.old) }
    requires stands { IsFilterWith (see_lines engine.old) frame site (see_conds conds.now) }
    requires known { list_all (is_known_ref (see_lines engine.old).known) tried.now ≡ true }
    ensures { IfOk result (λ judged. AnswersCandidates (see_lines engine.old) (see_lines engine.new) frame site (see_conds conds.now) tried.now judged.lines.items judged.verdicts.items) }
{
    let mut judged = Judged::new(engine.alloc);
    for candidate in tried {
        let inner = engine.enter_scope(Some(frame), site, *candidate)?;
        let said = conditions(engine, inner, conds)?;
        judged.note(said)?;
    }
    Ok(judged)
}

/// The candidates of a filter, by its place and the rows that the line before it says.
fn candidates(
    alloc: Global,
    place: StepPlace<'_>,
    before: Rows<'_>,
    store: &Store<'_, '_>,
) -> Result<Vec<Ref>, AllocError>
    requires filter { FiltersAt (see_place place) }
    requires known { list_all (is_known (see_store store.now)) before ≡ true }
    ensures candidates { IfOk result (λ refs. refs.items ≡ candidates_of_place (see_store store.now) (see_place place.entry) before.entry) }
    ensures known { IfOk result (λ refs. list_all (is_known_ref (see_store store.now)) refs.items ≡ true) }
{
    let rows = before.gather(alloc)?;
    placed_candidates(alloc, place, rows.as_slice(), store)
}
