//! Steps other than filters, each on every row in order.
ghost use Rattle.std.specs.Prelude.{◌≡◌, ◌++◌, ◌∷◌, [], true, if◌then◌else◌, option_and_then, map, filter, None, Some, IfOk, IsOk, MatchOption, OnOk};
ghost use Rattle.std.specs.List.{flat_map, list_all};
ghost use Rattle.guard_syntax.specs.code.Seen.{see_step};
ghost use Rattle.guard_syntax.specs.declared.row.Row.TheVariants.{Found};
ghost use Rattle.value_store.specs.code.Books.{IsBookOf};
ghost use Rattle.rule_meaning.specs.StoreModel.{is_known, is_known_ref, meant};
ghost use Rattle.value_store.specs.code.Stores.{see_store};
ghost use Rattle.rule_meaning.specs.Keys.{keys_by, passes};
ghost use Rattle.rule_meaning.specs.Reached.{entry, inside, key_of, value_for};
ghost use Rattle.rule_meaning.specs.Steps.{each_inside, every_by, found_or_missing, found_step, items_by, key_in, on_found, splice_row};

use crate::context::StepContext;
use crate::keys::{RowTest, row_passes};
use crate::reached::{entries_of, entry_of, inside_of, item_of, key_of, kind_of, text_at};
use doc_values::Kind;
use guard_syntax::{Ref, Row, Step, StepForm};
use std::alloc::{AllocError, Global};
use value_compare::{Matchers, Store};

/// A step other than a filter, with what it reads beside the values before it.
#[derive(Clone, Copy)]
pub struct ReadyStep<'q> {
    pub step: &'q Step,
    /// Whether it is its query's last.
    pub last: bool,
    /// The rows of the variable that it names, or of a key filter's right side.
    pub further: &'q [Row],
}

/// A value that a step looks into: the step by its site, and whether it is its query's last.
#[derive(Clone, Copy)]
struct SteppedValue {
    value: Ref,
    site: u32,
    last: bool,
}

/// What a step other than a filter gives for the rows before it; a start has one, the current value. A missing row stays in
/// its place. A filter gives nothing for a value here: it has its rows by `kept_rows`. Behind no rows no memory is taken.
pub fn rows_of_step(
    context: StepContext<'_, '_, '_>,
    ready: ReadyStep<'_>,
    before: &[Row],
) -> Result<Vec<Row>, AllocError>
    requires before { list_all (is_known (see_store context.store.now)) before.now ≡ true }
    requires further { list_all (is_known (see_store context.store.now)) ready.further.now ≡ true }
    ensures rows { IfOk result (λ given. given.items
        ≡ flat_map (on_found (found_step (see_store context.entry.store.now) ready.entry.last
        ready.entry.further.now (see_step ready.entry.step.now))) before.now) }
    ensures known { IfOk result (λ given. list_all (is_known (see_store context.entry.store.now)) given.items ≡ true) }
    ensures no_memory { before.now ≡ [] → IsOk result }
{
    let mut given = Vec::new(context.alloc);
    given.reserve(before.len())?;
    for row in before {
        push_row(context, ready, row, &mut given)?;
    }
    Ok(given)
}

/// Adds what a step gives for a row.
fn push_row(
    context: StepContext<'_, '_, '_>,
    ready: ReadyStep<'_>,
    row: &Row,
    into: &mut Vec<Row>,
) -> Result<(), AllocError>
    requires { list_all (is_known (see_store context.store.now)) ready.further.now ≡ true }
    ensures { OnOk result (into.new.items ≡ into.old.items
        ++ on_found (found_step (see_store context.entry.store.now) ready.entry.last
        ready.entry.further.now (see_step ready.entry.step.now)) row.now) }
{
    match row {
        Row::Found(value) => push_step(context, ready, *value, into),
        Row::Missing { .. } | Row::Unmade { .. } => push_one(*row, into),
    }
}

/// Adds a row.
pub(crate) fn push_one(row: Row, into: &mut Vec<Row>) -> Result<(), AllocError>
    ensures { OnOk result (into.new.items ≡ into.old.items ++ row ∷ []) }
{
    into.push(row)?;
    Ok(())
}

/// Adds what a step gives for a value.
fn push_step(
    context: StepContext<'_, '_, '_>,
    ready: ReadyStep<'_>,
    value: Ref,
    into: &mut Vec<Row>,
) -> Result<(), AllocError>
    requires { list_all (is_known (see_store context.store.now)) ready.further.now ≡ true }
    ensures { OnOk result (into.new.items ≡ into.old.items
        ++ found_step (see_store context.entry.store.now) ready.entry.last
        ready.entry.further.now (see_step ready.entry.step.now) value) }
{
    let store = context.store;
    let site = ready.step.site;
    let at = SteppedValue {
        value,
        site,
        last: ready.last,
    };
    match &ready.step.form {
        StepForm::This => push_each(&[value], into),
        StepForm::Var(_) => into.extend_from_slice(ready.further),
        StepForm::Key(name) => {
            let found = entry_of(value, name.as_str(), store);
            push_found(site, value, found, into)
        }
        StepForm::Index(index) => {
            let found = item_of(value, *index, store);
            push_found(site, value, found, into)
        }
        StepForm::Every => push_every(context.alloc, at, store, into),
        StepForm::Items => push_items(context.alloc, at, store, into),
        StepForm::Splice(_) => push_spliced(site, value, ready.further, store, into),
        StepForm::Filter(..) => Ok(()),
        StepForm::Keys { op, not, .. } => {
            let test = RowTest {
                op: *op,
                not: *not,
                rights: ready.further,
            };
            push_keyed(context, test, site, value, into)
        }
    }
}

/// Adds values that were found.
fn push_each(values: &[Ref], into: &mut Vec<Row>) -> Result<(), AllocError>
    ensures { OnOk result (into.new.items ≡ into.old.items ++ map Found values.now) }
{
    for value in values {
        into.push(Row::Found(*value))?;
    }
    Ok(())
}

/// Adds what was found, or else that the step of a site found nothing at a value.
fn push_found(
    site: u32,
    value: Ref,
    found: Option<Ref>,
    into: &mut Vec<Row>,
) -> Result<(), AllocError>
    ensures { OnOk result (into.new.items ≡ into.old.items ++ found_or_missing site value found ∷ []) }
{
    match found {
        Some(found) => push_one(Row::Found(found), into),
        None => push_one(Row::Missing { value, step: site }, into),
    }
}

/// `.*` at a value.
fn push_every(
    alloc: Global,
    at: SteppedValue,
    store: &Store<'_, '_>,
    into: &mut Vec<Row>,
) -> Result<(), AllocError>
    ensures { OnOk result (into.new.items ≡ into.old.items
        ++ every_by (value_for (see_store store.now) at.value).kind at.last at.site at.value (inside (see_store store.now) at.value)) }
{
    match kind_of(at.value, store) {
        Kind::List | Kind::Map => push_inside(alloc, at, store, into),
        _ => push_each(&[at.value], into),
    }
}

/// `[*]` at a value.
fn push_items(
    alloc: Global,
    at: SteppedValue,
    store: &Store<'_, '_>,
    into: &mut Vec<Row>,
) -> Result<(), AllocError>
    ensures { OnOk result (into.new.items ≡ into.old.items
        ++ items_by (value_for (see_store store.now) at.value).kind at.last at.site at.value (inside (see_store store.now) at.value)) }
{
    match kind_of(at.value, store) {
        Kind::List => push_inside(alloc, at, store, into),
        _ => push_each(&[at.value], into),
    }
}

/// Adds what stands in a value; where nothing does, a step before the last has a missing row.
fn push_inside(
    alloc: Global,
    at: SteppedValue,
    store: &Store<'_, '_>,
    into: &mut Vec<Row>,
) -> Result<(), AllocError>
    ensures { OnOk result (into.new.items ≡ into.old.items
        ++ each_inside at.last at.site at.value (inside (see_store store.now) at.value)) }
{
    let value = at.value;
    let values = inside_of(alloc, value, store)?;
    if values.is_empty() && !at.last {
        return push_found(at.site, value, None, into);
    }
    into.reserve(values.len())?;
    push_each(&values, into)
}

/// `.%x` at a value: a key step for each row of the variable.
fn push_spliced(
    site: u32,
    value: Ref,
    rows: &[Row],
    store: &Store<'_, '_>,
    into: &mut Vec<Row>,
) -> Result<(), AllocError>
    ensures { OnOk result (into.new.items ≡ into.old.items ++ map (splice_row (see_store store.now) site value) rows.now) }
{
    for row in rows {
        let found = spliced(value, row, store);
        push_found(site, value, found, into)?;
    }
    Ok(())
}

/// The entry of a value with the key that a row stands for.
fn spliced(value: Ref, row: &Row, store: &Store<'_, '_>) -> Option<Ref>
    ensures { result ≡ option_and_then (entry (see_store store.now) value) (key_in (meant (see_store store.now) row.now)) }
{
    let name = text_of(row, store)?;
    entry_of(value, name, store)
}

/// The text that a row stands for.
fn text_of<'v, 's>(row: &Row, store: &'v Store<'_, 's>) -> Option<&'v str>
    ensures { MatchOption result (key_in (meant (see_store store.entry.now) row.now) ≡ None)
        (λ text. key_in (meant (see_store store.entry.now) row.now) ≡ Some text.now) }
{
    match row {
        Row::Found(value) => text_at(*value, store),
        Row::Missing { .. } | Row::Unmade { .. } => None,
    }
}

/// `[ keys op right ]` at a value.
fn push_keyed(
    context: StepContext<'_, '_, '_>,
    test: RowTest<'_>,
    site: u32,
    value: Ref,
    into: &mut Vec<Row>,
) -> Result<(), AllocError>
    requires { list_all (is_known (see_store context.store.now)) test.rights.now ≡ true }
    ensures { OnOk result (into.new.items ≡ into.old.items
        ++ keys_by (value_for (see_store context.entry.store.now) value).kind (see_store context.entry.store.now)
        test.entry.op test.entry.not test.entry.rights.now site value (inside (see_store context.entry.store.now) value)) }
{
    let store = context.store;
    match kind_of(value, store) {
        Kind::Map => {
            let entries = entries_of(context.alloc, value, store)?;
            let mut matchers = Matchers::new(context.alloc, context.book);
            push_passing(&mut matchers, test, &entries, store, into)
        }
        _ => push_found(site, value, None, into),
    }
}

/// Adds the entries whose keys pass a test.
fn push_passing(
    matchers: &mut Matchers<'_>,
    test: RowTest<'_>,
    entries: &[Ref],
    store: &Store<'_, '_>,
    into: &mut Vec<Row>,
) -> Result<(), AllocError>
    requires rights { list_all (is_known (see_store store.now)) test.rights.now ≡ true }
    requires keys { list_all (λ r. is_known_ref (see_store store.now) (key_of r)) entries.now ≡ true }
    requires book { IsBookOf (see_store store.now).file matchers.old.book.now }
    ensures { OnOk result (into.new.items ≡ into.old.items
        ++ map Found (filter (λ r. passes (see_store store.now) test.entry.op test.entry.not test.entry.rights.now (Found (key_of r))) entries.now)) }
{
    for entry in entries {
        let key = Row::Found(key_of(*entry));
        let passes = row_passes(matchers, test, &key, store)?;
        push_if(passes, *entry, into)?;
    }
    Ok(())
}

/// Adds a value that was found, where it passes.
pub(crate) fn push_if(passes: bool, value: Ref, into: &mut Vec<Row>) -> Result<(), AllocError>
    ensures { OnOk result (into.new.items ≡ into.old.items ++ (if passes then Found value ∷ [] else [])) }
{
    if passes {
        return push_one(Row::Found(value), into);
    }
    Ok(())
}
