//! The elements of a template, their types and their properties.
ghost use Rattle.std.specs.Prelude.{◌≡◌, ◌++◌, not, codes, false, true, IfOk, IfSome, MatchOption, OnOk, None, Some, flat_map, option_copied, option_map, if◌then◌else◌};
ghost use Rattle.rule_generator.specs.GeneratedRules.{elements as the_elements, entries_in, entry as the_entry, is_plain as is_plain_by, items_or_itself, spellable_text as the_text, type_of as the_type};
ghost use Rattle.rule_generator.specs.code.PropertyMaps.{has_entry};
ghost use Rattle.rule_generator.specs.code.Seen.{see, values_seen};
ghost use Rattle.doc_values.specs.Places.{label_at};
ghost use Rattle.doc_values.specs.Tree as tree;
ghost use Rattle.doc_values.specs.Tree.{key_is};
ghost use Rattle.rule_meaning.specs.Values.{values_in};
ghost use Rattle.rule_meaning.specs.Values as values;
ghost use Rattle.rule_spelling.specs.Spelling.{ends_in_backslash as ends_so};

use doc_values::{Cursor, Doc, Kind};
use std::alloc::{AllocError, Global};

/// Where the properties of an element mostly stand: behind its type.
const USUAL_PLACE: usize = 1;

/// The entry of a key in a map.
pub(crate) fn entry<'t, 's>(node: &Cursor<'t, 's>, key: &str) -> Option<Cursor<'t, 's>>
    ensures { option_map see result ≡ the_entry key.now (see node.now) }
{
    match node.kind() {
        Kind::Map => node.get(key),
        _ => None,
    }
}

/// The entry of a key in a map, which is tried at a place first: maps that are alike have a key at the same place.
fn entry_near<'t, 's>(node: &Cursor<'t, 's>, key: &str, place: usize) -> Option<Cursor<'t, 's>>
    ensures { option_map see result ≡ the_entry key.now (see node.now) }
{
    match entry_at(node, key, place) {
        Some(value) => Some(value),
        None => entry(node, key),
    }
}

/// The entry of a key in a map, if it stands at a place.
fn entry_at<'t, 's>(node: &Cursor<'t, 's>, key: &str, place: usize) -> Option<Cursor<'t, 's>>
    ensures { IfSome result (λ c. the_entry key.now (see node.now) ≡ Some (see c)) }
{
    if !is_map(node.kind()) || node.len() <= place {
        return None;
    }
    // The keys of a map are distinct: the length of the tree says so to the proof.
    let _nodes = node.doc.len();
    let value = node.child(place);
    if !has_key(&value, key) {
        return None;
    }
    Some(value)
}

/// Whether an entry has a key.
fn has_key(entry: &Cursor<'_, '_>, key: &str) -> bool
    ensures { result ≡ key_is (label_at entry.now.doc.now entry.now.id).key key.now }
{
    match entry.key() {
        Some(found) => found == key,
        None => false,
    }
}

/// The properties of an element.
pub(crate) fn properties<'t, 's>(element: &Cursor<'t, 's>) -> Option<Cursor<'t, 's>>
    ensures { option_map see result ≡ the_entry (codes "Properties") (see element.now) }
{
    entry_near(element, "Properties", USUAL_PLACE)
}

/// The entry of a key in a map, if its value has a spelling. The key is tried at a place first.
pub(crate) fn plain_entry<'t, 's>(
    map: &Cursor<'t, 's>,
    key: &str,
    place: usize,
) -> Option<Cursor<'t, 's>>
    ensures { MatchOption result (has_entry key.now (see map.now) ≡ false)
        (λ c. (the_entry key.now (see map.now) ≡ Some (see c)) × (is_plain_by (see c).kind (see c).text ≡ true)) }
{
    let Some(value) = entry_near(map, key, place) else {
        return None;
    };
    if !is_plain(&value) {
        return None;
    }
    Some(value)
}

/// Whether a value is null, a truth value, a number, or a text that has a spelling.
fn is_plain(value: &Cursor<'_, '_>) -> bool
    ensures { result ≡ is_plain_by (see value.now).kind (see value.now).text }
{
    match value.kind() {
        Kind::Null => true,
        Kind::Truth(_) => true,
        Kind::Whole(_) => true,
        Kind::Fraction(_) => true,
        Kind::Text => !ends_in_backslash(value.text()),
        _ => false,
    }
}

/// The type of an element that counts.
pub(crate) fn type_of<'t>(element: &Cursor<'t, '_>) -> Option<&'t str>
    ensures { option_copied result ≡ the_type (see element.now) }
{
    match entry(element, "Type") {
        Some(found) => spellable_text(&found),
        None => None,
    }
}

/// The text of a value that is one and has a spelling.
fn spellable_text<'t>(node: &Cursor<'t, '_>) -> Option<&'t str>
    ensures { option_copied result ≡ the_text (see node.now) }
{
    match node.kind() {
        Kind::Text => spellable(node.text()),
        _ => None,
    }
}

/// A text that has a spelling.
fn spellable(text: &str) -> Option<&str>
    ensures { option_copied result ≡ (if not (ends_so text.now) then Some text.now else None) }
{
    if ends_in_backslash(text) {
        return None;
    }
    Some(text)
}

/// Whether the last byte of a text is a backslash, so that the text has no spelling.
pub(crate) fn ends_in_backslash(text: &str) -> bool
    ensures { result ≡ ends_so text.now }
{
    match text.as_bytes().last() {
        Some(byte) => *byte == b'\\',
        None => false,
    }
}

/// The elements of a template.
pub(crate) fn elements<'t, 's>(
    alloc: Global,
    doc: &'t Doc<'s>,
) -> Result<Vec<Cursor<'t, 's>>, AllocError>
    ensures { IfOk result (λ all. values_seen all.items ≡ the_elements doc.entry.now) }
{
    // A tree has a root: its length says so to the proof.
    let _nodes = doc.len();
    let root = doc.cursor(0);
    match entry(&root, "Resources") {
        Some(resources) => elements_in(alloc, &resources),
        None => Ok(Vec::new(alloc)),
    }
}

/// The elements of what stands in a map.
fn elements_in<'t, 's>(
    alloc: Global,
    resources: &Cursor<'t, 's>,
) -> Result<Vec<Cursor<'t, 's>>, AllocError>
    ensures { IfOk result (λ all. values_seen all.items ≡ flat_map items_or_itself (values_in (entries_in (Some (see resources.now))))) }
{
    let mut all = Vec::new(alloc);
    if !is_map(resources.kind()) {
        return Ok(all);
    }
    for i in 0..resources.len() {
        push_items(&mut all, &resources.child(i))?;
    }
    Ok(all)
}

/// Appends the items of a list, and any other value itself.
fn push_items<'t, 's>(
    all: &mut Vec<Cursor<'t, 's>>,
    node: &Cursor<'t, 's>,
) -> Result<(), AllocError>
    ensures { OnOk result (values_seen all.new.items ≡ values_seen all.old.items ++ items_or_itself (see node.now)) }
{
    if !is_list(node.kind()) {
        all.push(*node)?;
        return Ok(());
    }
    for i in 0..node.len() {
        all.push(node.child(i))?;
    }
    Ok(())
}

pub(crate) fn is_map(kind: Kind) -> bool
    ensures { result ≡ tree.is_map kind }
{
    match kind {
        Kind::Map => true,
        _ => false,
    }
}

fn is_list(kind: Kind) -> bool
    ensures { result ≡ values.is_list kind }
{
    match kind {
        Kind::List => true,
        _ => false,
    }
}
