//! Filters: which values they try, and which of these they keep.
ghost use Rattle.std.specs.Prelude.{◌≡◌, ◌≤◌, ◌++◌, ◌∷◌, [], List, true, drop, length, if◌then◌else◌, IfOk, IsOk, OnOk};
ghost use Rattle.std.specs.List.{list_all};
ghost use Rattle.guard_syntax.specs.declared.row.Ref.{Ref};
ghost use Rattle.rule_meaning.specs.StoreModel.{is_known, is_known_ref};
ghost use Rattle.value_store.specs.code.Stores.{see_store};
ghost use Rattle.rule_meaning.specs.Filters.{candidates_by, candidates_in, candidates_of, filtered, kept};
ghost use Rattle.rule_meaning.specs.Verdicts.{is_pass};

use crate::reached::{inside_of, kind_of};
use crate::steps::push_if;
use doc_values::Kind;
use guard_syntax::{Ref, Row, Verdict};
use std::alloc::{AllocError, Global};
use value_compare::Store;

/// How a filter looks at a value: whether the step before it is a key step, and where the value stands.
#[derive(Clone, Copy)]
struct FilterView<'f, 't, 's> {
    after_key: bool,
    store: &'f Store<'t, 's>,
}

/// The values that a filter behind these rows tries, in order; `after_key` is whether the step before it is a key step. A
/// missing row has none. Where there are no such values, no memory is taken.
pub fn filter_candidates(
    alloc: Global,
    after_key: bool,
    before: &[Row],
    store: &Store<'_, '_>,
) -> Result<Vec<Ref>, AllocError>
    requires known { list_all (is_known (see_store store.now)) before.now ≡ true }
    ensures candidates { IfOk result (λ refs. refs.items ≡ candidates_in (see_store store.now) after_key before.now) }
    ensures known { IfOk result (λ refs. list_all (is_known_ref (see_store store.now)) refs.items ≡ true) }
    ensures no_memory { candidates_in (see_store store.now) after_key before.now ≡ [] → IsOk result }
{
    let view = FilterView { after_key, store };
    let mut refs = Vec::new(alloc);
    for row in before {
        if let Row::Found(value) = row {
            push_candidates(alloc, view, *value, &mut refs)?;
        }
    }
    Ok(refs)
}

/// Whether a filter tries what stands in a value, and not the value itself.
fn is_looked_into(kind: Kind, after_key: bool) -> bool
    ensures { (value : Ref) (inside : List Ref) → candidates_by kind after_key value inside ≡ (if result then inside else value ∷ []) }
{
    match kind {
        Kind::List => true,
        Kind::Map => after_key,
        _ => false,
    }
}

/// Adds the values that a filter tries at a value that was found.
fn push_candidates(
    alloc: Global,
    view: FilterView<'_, '_, '_>,
    value: Ref,
    refs: &mut Vec<Ref>,
) -> Result<(), AllocError>
    requires { is_known_ref (see_store view.store.now) value ≡ true }
    ensures candidates { OnOk result (refs.new.items
        ≡ refs.old.items ++ candidates_of (see_store view.entry.store.now) view.entry.after_key value) }
    ensures known { OnOk result (list_all (is_known_ref (see_store view.entry.store.now))
        (candidates_of (see_store view.entry.store.now) view.entry.after_key value) ≡ true) }
    ensures no_memory { candidates_of (see_store view.entry.store.now) view.entry.after_key value ≡ [] → IsOk result }
{
    if is_looked_into(kind_of(value, view.store), view.after_key) {
        let inside = inside_of(alloc, value, view.store)?;
        refs.extend_from_slice(&inside)?;
        return Ok(());
    }
    refs.push(value)?;
    Ok(())
}

/// What a filter keeps of these rows, given the verdict of each candidate in order. A missing row stays in its place. Behind
/// no rows it takes no memory.
pub fn kept_rows(
    alloc: Global,
    after_key: bool,
    before: &[Row],
    verdicts: &[Verdict],
    store: &Store<'_, '_>,
) -> Result<Vec<Row>, AllocError>
    requires known { list_all (is_known (see_store store.now)) before.now ≡ true }
    requires verdicts { length verdicts.now ≡ length (candidates_in (see_store store.now) after_key before.now) }
    ensures rows { IfOk result (λ rows. rows.items ≡ filtered (see_store store.now) after_key before.now verdicts.now) }
    ensures known { IfOk result (λ rows. list_all (is_known (see_store store.now)) rows.items ≡ true) }
    ensures no_memory { before.now ≡ [] → IsOk result }
{
    let view = FilterView { after_key, store };
    let mut rows = Vec::new(alloc);
    let mut left = verdicts;
    for row in before {
        match row {
            Row::Found(value) => {
                left = push_kept(alloc, view, *value, left, &mut rows)?;
            }
            Row::Missing { .. } | Row::Unmade { .. } => rows.push(*row)?,
        }
    }
    Ok(rows)
}

/// Adds what a filter keeps of what it tries at a value, by the first verdicts, and answers the others.
fn push_kept<'v>(
    alloc: Global,
    view: FilterView<'_, '_, '_>,
    value: Ref,
    verdicts: &'v [Verdict],
    rows: &mut Vec<Row>,
) -> Result<&'v [Verdict], AllocError>
    requires value { is_known_ref (see_store view.store.now) value ≡ true }
    requires verdicts { length (candidates_of (see_store view.store.now) view.after_key value) ≤ length verdicts.now }
    ensures rows { OnOk result (rows.new.items
        ≡ rows.old.items ++ kept (candidates_of (see_store view.entry.store.now) view.entry.after_key value) verdicts.entry.now) }
    ensures known { OnOk result (list_all (is_known_ref (see_store view.entry.store.now))
        (candidates_of (see_store view.entry.store.now) view.entry.after_key value) ≡ true) }
    ensures left { IfOk result (λ left. left.now
        ≡ drop (length (candidates_of (see_store view.entry.store.now) view.entry.after_key value)) verdicts.entry.now) }
{
    if is_looked_into(kind_of(value, view.store), view.after_key) {
        let tried = inside_of(alloc, value, view.store)?;
        push_judged(&tried, verdicts, rows)?;
        return Ok(&verdicts[tried.len()..]);
    }
    push_if(is_pass(verdicts[0]), value, rows)?;
    Ok(&verdicts[1..])
}

/// Adds the values that are kept, by their verdicts, of which there may be more.
fn push_judged(tried: &[Ref], verdicts: &[Verdict], rows: &mut Vec<Row>) -> Result<(), AllocError>
    requires { length tried.now ≤ length verdicts.now }
    ensures { OnOk result (rows.new.items ≡ rows.old.items ++ kept tried.now verdicts.now) }
{
    for index in 0..tried.len() {
        push_if(is_pass(verdicts[index]), tried[index], rows)?;
    }
    Ok(())
}

/// Whether a candidate with this verdict is kept.
fn is_pass(verdict: Verdict) -> bool
    ensures { result ≡ is_pass verdict }
{
    match verdict {
        Verdict::Pass => true,
        Verdict::Fail | Verdict::Skip => false,
    }
}
