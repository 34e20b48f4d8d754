//! What is reached from a value: values in the same tree.
ghost use Rattle.std.specs.Prelude.{◌≡◌, ◌+◌, [], true, false, map, None, Some, IfOk, IfSome, IsOk, MatchOption};
ghost use Rattle.std.specs.List.{list_all};
ghost use Rattle.doc_values.specs.Places.{kids_at};
ghost use Rattle.doc_values.specs.Tree.{Nil, holds_values, is_map};
ghost use Rattle.rule_meaning.specs.StoreModel.{is_known_ref, stands_for};
ghost use Rattle.value_store.specs.code.Stores.{see_store};
ghost use Rattle.query_steps.specs.code.Nodes.{IsNodeOf};
ghost use Rattle.rule_meaning.specs.Reached.{entry, inside, item, key_of, node_beside, numbers, value_for};
ghost use Rattle.rule_meaning.specs.Steps.{key_in};

use doc_values::{Cursor, Kind};
use guard_syntax::Ref;
use std::alloc::{AllocError, Global};
use value_compare::{Store, View};

/// The node of a value; a key has none, and nothing stands in it.
pub(crate) fn node_of<'v, 's>(value: Ref, store: &'v Store<'_, 's>) -> Option<Cursor<'v, 's>>
    ensures { MatchOption result
        ((holds_values (value_for (see_store store.entry.now) value).kind ≡ false) × ((value_for (see_store store.entry.now) value).contents ≡ Nil))
        (λ node. IsNodeOf (see_store store.entry.now) value node) }
{
    match store.view(value)? {
        View::At(node) => Some(node),
        View::Key(_) => None,
    }
}

/// A node of the tree that a value stands in.
pub(crate) fn beside(value: Ref, node: u32) -> Ref
    ensures { result ≡ node_beside value node }
{
    Ref {
        origin: value.origin,
        node,
        key: false,
    }
}

/// The key of the same node.
pub(crate) fn key_of(value: Ref) -> Ref
    ensures { result ≡ key_of value }
{
    Ref {
        origin: value.origin,
        node: value.node,
        key: true,
    }
}

/// What a value is; a key is a text.
pub(crate) fn kind_of(value: Ref, store: &Store<'_, '_>) -> Kind
    ensures { result ≡ (value_for (see_store store.now) value).kind }
{
    match store.view(value) {
        Some(View::At(node)) => node.kind(),
        Some(View::Key(_)) => Kind::Text,
        None => Kind::Null,
    }
}

/// The text that a value is; a key is one.
pub(crate) fn text_at<'v, 's>(value: Ref, store: &'v Store<'_, 's>) -> Option<&'v str>
    ensures { MatchOption result (key_in (stands_for (see_store store.entry.now) value) ≡ None)
        (λ text. key_in (stands_for (see_store store.entry.now) value) ≡ Some text.now) }
{
    match store.view(value) {
        None => None,
        Some(View::Key(text)) => Some(text),
        Some(View::At(node)) => match node.kind() {
            Kind::Text => Some(node.text()),
            _ => None,
        },
    }
}

/// What stands in a value, in order: the items of a list and the values of a map. Where nothing does, no memory is taken.
pub(crate) fn inside_of(
    alloc: Global,
    value: Ref,
    store: &Store<'_, '_>,
) -> Result<Vec<Ref>, AllocError>
    ensures inside { IfOk result (λ refs. refs.items ≡ inside (see_store store.now) value) }
    ensures known { IfOk result (λ refs. list_all (is_known_ref (see_store store.now)) refs.items ≡ true) }
    ensures no_memory { inside (see_store store.now) value ≡ [] → IsOk result }
{
    match node_of(value, store) {
        None => Ok(Vec::new(alloc)),
        Some(node) => inside_node(alloc, value, node),
    }
}

/// The values of a map, in order. Each has a key.
pub(crate) fn entries_of(
    alloc: Global,
    value: Ref,
    store: &Store<'_, '_>,
) -> Result<Vec<Ref>, AllocError>
    requires map { is_map (value_for (see_store store.now) value).kind ≡ true }
    ensures inside { IfOk result (λ refs. refs.items ≡ inside (see_store store.now) value) }
    ensures keys { IfOk result (λ refs. list_all (λ r. is_known_ref (see_store store.now) (key_of r)) refs.items ≡ true) }
{
    match node_of(value, store) {
        None => unreachable!(),
        Some(node) => {
            // The entries of a map have keys in a tree, as `len` says.
            let _nodes = node.doc.len();
            inside_node(alloc, value, node)
        }
    }
}

/// What stands in the node of a value, in order.
fn inside_node(alloc: Global, value: Ref, node: Cursor<'_, '_>) -> Result<Vec<Ref>, AllocError>
    ensures inside { IfOk result (λ refs. refs.items ≡ map (node_beside value) (numbers (node.entry.id + 1) (kids_at node.entry.doc.now node.entry.id))) }
    ensures no_memory { map (node_beside value) (numbers (node.entry.id + 1) (kids_at node.entry.doc.now node.entry.id)) ≡ [] → IsOk result }
{
    let mut refs = Vec::new(alloc);
    refs.reserve(node.len())?;
    for i in 0..node.len() {
        refs.push(beside(value, node.child(i).id))?;
    }
    Ok(refs)
}

/// The entry of a value with a key; a value that is no map has none.
pub(crate) fn entry_of(value: Ref, key: &str, store: &Store<'_, '_>) -> Option<Ref>
    ensures entry { result ≡ entry (see_store store.now) value key.now }
    ensures known { IfSome result (λ r. is_known_ref (see_store store.now) r ≡ true) }
{
    let node = node_of(value, store)?;
    match node.kind() {
        Kind::Map => match node.get(key) {
            None => None,
            Some(found) => Some(beside(value, found.id)),
        },
        _ => None,
    }
}

/// The item of a value at an index; a value that is no list has none.
pub(crate) fn item_of(value: Ref, index: u32, store: &Store<'_, '_>) -> Option<Ref>
    ensures item { result ≡ item (see_store store.now) value index }
    ensures known { IfSome result (λ r. is_known_ref (see_store store.now) r ≡ true) }
{
    let node = node_of(value, store)?;
    match node.kind() {
        Kind::List => {}
        _ => return None,
    }
    let index = index as usize;
    if index >= node.len() {
        return None;
    }
    Some(beside(value, node.child(index).id))
}
