//! Steps and type blocks by their sites in a rule file.
ghost use Rattle.std.specs.Prelude.{◌≡◌, ◌<◌, true, false, length, Some, [], IfOk, IsOk};
ghost use Rattle.std.specs.List.{list_all};
ghost use Rattle.rule_names.specs.code.Files.{file_of};
ghost use Rattle.value_store.specs.code.Books.{IsBookOf};
ghost use Rattle.rule_meaning.specs.StoreModel.{is_known, is_known_ref};
ghost use Rattle.value_store.specs.code.Stores.{see_store};
ghost use Rattle.query_steps.specs.code.Memory.{has_resources};
ghost use Rattle.query_steps.specs.code.Placed.{see_place};
ghost use Rattle.rule_meaning.specs.Places.{IsFilterAt, IsStartAt, IsStepAt, IsTypeAt, candidates_at, rows_at_step, rows_at_type, step_at, type_at};

use crate::places::{StepInput, placed_candidates, placed_step};
use crate::resources::type_rows;
use crate::step_place::StepPlace;
use guard_syntax::{Part, Ref, Row, Verdict};
use rule_names::{Piece, RuleFile};
use std::alloc::{AllocError, Global};
use value_compare::{PatternBook, Store};

/// The values that the filter of a site tries behind these rows, in order. The file is the store's. Where there are none,
/// no memory is taken.
pub fn candidates(
    alloc: Global,
    file: &RuleFile,
    site: u32,
    before: &[Row],
    store: &Store<'_, '_>,
) -> Result<Vec<Ref>, AllocError>
    requires site { site < length (file_of file.now).places }
    requires filter { IsFilterAt (file_of file.now) site }
    requires file { (see_store store.now).file ≡ file_of file.now }
    requires known { list_all (is_known (see_store store.now)) before.now ≡ true }
    ensures candidates { IfOk result (λ refs. refs.items ≡ candidates_at (see_store store.now) site before.now) }
    ensures known { IfOk result (λ refs. list_all (is_known_ref (see_store store.now)) refs.items ≡ true) }
    ensures no_memory { candidates_at (see_store store.now) site before.now ≡ [] → IsOk result }
{
    placed_candidates(alloc, place_of(file, site), before, store)
}

/// What the step of a site gives for the rows before it, with a current value, at which a start begins: it has no rows
/// before it. `rows` are those of the variable that the step names or of a key filter's right side, `verdicts` those of a
/// filter's candidates in order; other steps have none. The file is the store's, and the book was made of it. Behind no rows
/// a step that is no start takes no memory.
pub fn step(
    alloc: Global,
    file: &RuleFile,
    site: u32,
    current: Ref,
    before: &[Row],
    rows: &[Row],
    verdicts: &[Verdict],
    store: &Store<'_, '_>,
    book: &PatternBook,
) -> Result<Vec<Row>, AllocError>
    requires site { site < length (file_of file.now).places }
    requires step { IsStepAt (file_of file.now) site }
    requires start { IsStartAt (file_of file.now) site → before.now ≡ [] }
    requires verdicts { length verdicts.now ≡ length (candidates_at (see_store store.now) site before.now) }
    requires file { (see_store store.now).file ≡ file_of file.now }
    requires book { IsBookOf (file_of file.now) book.now }
    requires current { is_known_ref (see_store store.now) current ≡ true }
    requires before { list_all (is_known (see_store store.now)) before.now ≡ true }
    requires rows { list_all (is_known (see_store store.now)) rows.now ≡ true }
    ensures rows { IfOk result (λ given. given.items ≡ rows_at_step (see_store store.now) site current before.now rows.now verdicts.now) }
    ensures known { IfOk result (λ given. list_all (is_known (see_store store.now)) given.items ≡ true) }
    ensures no_memory { (IsStartAt (file_of file.now) site → ⊥) → before.now ≡ [] → IsOk result }
{
    let input = StepInput {
        current,
        before,
        further: rows,
        verdicts,
    };
    placed_step(alloc, place_of(file, site), input, store, book)
}

/// The rows of the type block of a site, with a current value. The file is the store's. Where the value has no map
/// `Resources`, no memory is taken.
pub fn kinds(
    alloc: Global,
    file: &RuleFile,
    site: u32,
    current: Ref,
    store: &Store<'_, '_>,
) -> Result<Vec<Row>, AllocError>
    requires site { site < length (file_of file.now).places }
    requires kinds { IsTypeAt (file_of file.now) site }
    requires file { (see_store store.now).file ≡ file_of file.now }
    requires current { is_known_ref (see_store store.now) current ≡ true }
    ensures rows { IfOk result (λ rows. rows.items ≡ rows_at_type (see_store store.now) site current) }
    ensures known { IfOk result (λ rows. list_all (is_known (see_store store.now)) rows.items ≡ true) }
    ensures no_memory { has_resources (see_store store.now) current ≡ false → IsOk result }
{
    type_rows(alloc, type_name(file, site), current, store)
}

/// Where the step of a site stands.
fn place_of(file: &RuleFile, site: u32) -> StepPlace<'_>
    requires site { site < length (file_of file.now).places }
    requires step { IsStepAt (file_of file.now) site }
    ensures { step_at (file_of file.entry.now) site ≡ see_place result }
{
    let Piece::Step { query, index } = file.piece(site) else {
        unreachable!()
    };
    StepPlace {
        steps: query.steps.as_slice(),
        index,
    }
}

/// The name of the type block of a site.
fn type_name(file: &RuleFile, site: u32) -> &str
    requires site { site < length (file_of file.now).places }
    requires kinds { IsTypeAt (file_of file.now) site }
    ensures { type_at (file_of file.entry.now) site ≡ Some result.now }
{
    let Piece::Part(part) = file.piece(site) else {
        unreachable!()
    };
    let Part::Kinds { name, .. } = part else {
        unreachable!()
    };
    name.as_str()
}
