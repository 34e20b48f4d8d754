//! Steps where they stand in their queries.
ghost use Rattle.std.specs.Prelude.{◌≡◌, ◌<◌, true, false, not, suc, is_some, length, map, [], IfOk, IsOk};
ghost use Rattle.std.specs.List.{list_all};
ghost use Rattle.guard_syntax.specs.code.Seen.{see_step, step_list};
ghost use Rattle.value_store.specs.code.Books.{IsBookOf};
ghost use Rattle.value_store.specs.code.Stores.{see_store};
ghost use Rattle.rule_meaning.specs.Places.{is_after_key, is_filter, is_key, step_in};
ghost use Rattle.rule_meaning.specs.StoreModel.{is_known, is_known_ref};
ghost use Rattle.query_steps.specs.code.Placed.{FiltersAt, StartsAt, candidates_of_place, rows_of_place, see_place};

use crate::context::StepContext;
use crate::filters::{filter_candidates, kept_rows};
use crate::step_place::StepPlace;
use crate::steps::{ReadyStep, rows_of_step};
use guard_syntax::{Ref, Row, Step, StepForm, Verdict};
use std::alloc::{AllocError, Global};
use value_compare::{PatternBook, Store};

/// What a step begins from: the current value, at which a start begins, and the rows before any other step. `further` are
/// the rows of the variable that the step names or of a key filter's right side, `verdicts` those of a filter's candidates
/// in order; other steps have none.
#[derive(Clone, Copy)]
pub struct StepInput<'r> {
    pub current: Ref,
    pub before: &'r [Row],
    pub further: &'r [Row],
    pub verdicts: &'r [Verdict],
}

/// The values that a filter tries behind these rows, in order. Where there are none, no memory is taken.
pub fn placed_candidates(
    alloc: Global,
    place: StepPlace<'_>,
    before: &[Row],
    store: &Store<'_, '_>,
) -> Result<Vec<Ref>, AllocError>
    requires filter { FiltersAt (see_place place) }
    requires known { list_all (is_known (see_store store.now)) before.now ≡ true }
    ensures candidates { IfOk result (λ refs. refs.items ≡ candidates_of_place (see_store store.now) (see_place place.entry) before.now) }
    ensures known { IfOk result (λ refs. list_all (is_known_ref (see_store store.now)) refs.items ≡ true) }
    ensures no_memory { candidates_of_place (see_store store.now) (see_place place.entry) before.now ≡ [] → IsOk result }
{
    filter_candidates(alloc, is_after_key(place.steps, place.index), before, store)
}

/// What a step gives. The book was made of the store's file. Behind no rows a step that is no start takes no memory.
pub fn placed_step(
    alloc: Global,
    place: StepPlace<'_>,
    input: StepInput<'_>,
    store: &Store<'_, '_>,
    book: &PatternBook,
) -> Result<Vec<Row>, AllocError>
    requires start { StartsAt (see_place place) → input.before.now ≡ [] }
    requires verdicts { length input.verdicts.now ≡ length (candidates_of_place (see_store store.now) (see_place place) input.before.now) }
    requires book { IsBookOf (see_store store.now).file book.now }
    requires current { is_known_ref (see_store store.now) input.current ≡ true }
    requires before { list_all (is_known (see_store store.now)) input.before.now ≡ true }
    requires further { list_all (is_known (see_store store.now)) input.further.now ≡ true }
    ensures rows { IfOk result (λ given. given.items ≡ rows_of_place (see_store store.now) (see_place place.entry) input.entry.current input.entry.before.now input.entry.further.now input.entry.verdicts.now) }
    ensures known { IfOk result (λ given. list_all (is_known (see_store store.now)) given.items ≡ true) }
    ensures no_memory { (StartsAt (see_place place.entry) → ⊥) → input.entry.before.now ≡ [] → IsOk result }
{
    let context = StepContext { alloc, store, book };
    let steps = place.steps;
    let index = place.index;
    let step = &steps[index];
    let last = is_last(steps, index);
    let ready = ReadyStep {
        step,
        last,
        further: input.further,
    };
    if index == 0 {
        let start = Row::Found(input.current);
        return rows_of_step(context, ready, &[start]);
    }
    if is_filter(step) {
        let after_key = is_after_key(steps, index);
        return kept_rows(alloc, after_key, input.before, input.verdicts, store);
    }
    rows_of_step(context, ready, input.before)
}

/// Whether the step before the one of an index is a key step.
fn is_after_key(steps: &[Step], index: usize) -> bool
    requires { index < length steps.now }
    ensures { result ≡ is_after_key (step_list (map see_step steps.now)) index }
{
    if index == 0 {
        return false;
    }
    is_key(&steps[index - 1])
}

/// Whether no step stands behind the one of an index.
fn is_last(steps: &[Step], index: usize) -> bool
    requires { index < length steps.now }
    ensures { result ≡ not (is_some (step_in (step_list (map see_step steps.now)) (suc index))) }
{
    index + 1 == steps.len()
}

/// Whether a step is a name or a quoted key.
fn is_key(step: &Step) -> bool
    ensures { result ≡ is_key (see_step step.now) }
{
    match &step.form {
        StepForm::Key(_) => true,
        _ => false,
    }
}

/// Whether a step is a filter.
fn is_filter(step: &Step) -> bool
    ensures { result ≡ is_filter (see_step step.now) }
{
    match &step.form {
        StepForm::Filter(..) => true,
        _ => false,
    }
}
