//! Type blocks: the resources of a type.
ghost use Rattle.std.specs.Prelude.{◌≡◌, false, true, map, IfOk, IsOk};
ghost use Rattle.std.specs.List.{filter, list_all};
ghost use Rattle.rule_meaning.specs.StoreModel.{is_known, is_known_ref};
ghost use Rattle.value_store.specs.code.Stores.{see_store};
ghost use Rattle.rule_meaning.specs.Kinds.{has_type, is_name, rows_of_type};
ghost use Rattle.rule_meaning.specs.Reached.{value_for};
ghost use Rattle.query_steps.specs.code.Memory.{has_resources};

use crate::reached::{entry_of, inside_of, kind_of, text_at};
use crate::steps::push_if;
use doc_values::Kind;
use guard_syntax::{Ref, Row};
use std::alloc::{AllocError, Global};
use value_compare::Store;

/// The rows of a type block: the entries of the `Resources` map of the current value that are maps whose `Type` is the
/// name. Where it has no such map, no memory is taken.
pub fn type_rows(
    alloc: Global,
    name: &str,
    current: Ref,
    store: &Store<'_, '_>,
) -> Result<Vec<Row>, AllocError>
    requires known { is_known_ref (see_store store.now) current ≡ true }
    ensures rows { IfOk result (λ rows. rows.items ≡ rows_of_type (see_store store.now) name.now current) }
    ensures known { IfOk result (λ rows. list_all (is_known (see_store store.now)) rows.items ≡ true) }
    ensures no_memory { has_resources (see_store store.now) current ≡ false → IsOk result }
{
    let Some(resources) = entry_of(current, "Resources", store) else {
        return Ok(Vec::new(alloc));
    };
    match kind_of(resources, store) {
        Kind::Map => {}
        _ => return Ok(Vec::new(alloc)),
    }
    let values = inside_of(alloc, resources, store)?;
    typed_rows(alloc, &values, name, store)
}

/// The values that are of a type, as rows.
fn typed_rows(
    alloc: Global,
    values: &[Ref],
    name: &str,
    store: &Store<'_, '_>,
) -> Result<Vec<Row>, AllocError>
    ensures { IfOk result (λ rows. rows.items ≡ map Row.Found (filter (has_type (see_store store.now) name.now) values.now)) }
{
    let mut rows = Vec::new(alloc);
    for value in values {
        push_if(has_type(*value, name, store), *value, &mut rows)?;
    }
    Ok(rows)
}

/// Whether a value is a map whose `Type` is the name.
fn has_type(value: Ref, name: &str, store: &Store<'_, '_>) -> bool
    ensures { result ≡ has_type (see_store store.now) name.now value }
{
    match entry_of(value, "Type", store) {
        None => false,
        Some(found) => is_text(found, name, store),
    }
}

/// Whether a value is this text.
fn is_text(value: Ref, text: &str, store: &Store<'_, '_>) -> bool
    ensures { result ≡ is_name text.now (value_for (see_store store.now) value) }
{
    match text_at(value, store) {
        None => false,
        Some(found) => found == text,
    }
}
