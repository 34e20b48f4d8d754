//! Literals. They lead back to themselves through brackets alone.
ghost use Rattle.std.specs.Prelude.{◌≡◌, ◌++◌, OnOk, codes, option_map, string_bytes, if◌then◌else◌};
ghost use Rattle.doc_values.specs.Places.{label_at, kids_at};
ghost use Rattle.rule_words.specs.WordText.{entries_text, entry_key, items_text, literal_text, range_text};
ghost use Rattle.rule_words.specs.code.Appended.{node_text};

use crate::words::push_between;
use doc_values::{Cursor, Doc, Kind, Range};
use rule_spelling::{push_number, push_quoted, push_scalar};
use std::alloc::AllocError;

fn opening_end(bound_in: bool) -> &'static str
    ensures { result.now ≡ (if bound_in then codes "[" else codes "(") }
{
    if bound_in { "[" } else { "(" }
}

fn closing_end(bound_in: bool) -> &'static str
    ensures { result.now ≡ (if bound_in then codes "]" else codes ")") }
{
    if bound_in { "]" } else { ")" }
}

/// Appends a range.
fn push_range(out: &mut String, range: Range) -> Result<(), AllocError>
    ensures { OnOk result (string_bytes out.new ≡ string_bytes out.old ++ range_text range) }
{
    out.push_str("r")?;
    out.push_str(opening_end(range.low_in))?;
    push_number(out, range.low)?;
    out.push_str(",")?;
    push_number(out, range.high)?;
    out.push_str(closing_end(range.high_in))
}

/// Appends the key of an entry; an item has none.
fn push_entry_key(out: &mut String, key: Option<&str>) -> Result<(), AllocError>
    ensures { OnOk result (string_bytes out.new ≡ string_bytes out.old ++ entry_key (option_map (λ k. k.now) key.entry)) }
{
    match key {
        Some(text) => {
            push_quoted(out, text)?;
            out.push_str(": ")
        }
        None => Ok(()),
    }
}

/// Appends the value at a node.
#[cycle(literal)]
fn push_value(out: &mut String, node: Cursor<'_, '_>) -> Result<(), AllocError>
    ensures { OnOk result (string_bytes out.new ≡ string_bytes out.old ++ node_text node.entry.doc.now node.entry.id) }
{
    match node.kind() {
        Kind::List => {
            out.push_str("[")?;
            push_items(out, node)?;
            out.push_str("]")
        }
        Kind::Map => {
            out.push_str("{")?;
            push_entries(out, node)?;
            out.push_str("}")
        }
        Kind::Limits(range) => push_range(out, range),
        _ => push_scalar(out, node),
    }
}

/// Appends the items of a list.
#[cycle(literal)]
fn push_items(out: &mut String, list: Cursor<'_, '_>) -> Result<(), AllocError>
    ensures { OnOk result (string_bytes out.new ≡ string_bytes out.old ++ items_text (kids_at list.entry.doc.now list.entry.id)) }
{
    for i in 0..list.len() {
        push_between(out, i, ", ")?;
        push_value(out, list.child(i))?;
    }
    Ok(())
}

/// Appends the entries of a map.
#[cycle(literal)]
fn push_entries(out: &mut String, map: Cursor<'_, '_>) -> Result<(), AllocError>
    ensures { OnOk result (string_bytes out.new ≡ string_bytes out.old ++ entries_text (kids_at map.entry.doc.now map.entry.id)) }
{
    for i in 0..map.len() {
        push_between(out, i, ", ")?;
        let entry = map.child(i);
        push_entry_key(out, entry.key())?;
        push_value(out, entry)?;
    }
    Ok(())
}

/// Appends a literal.
pub fn push_literal(out: &mut String, tree: &Doc<'_>) -> Result<(), AllocError>
    ensures { OnOk result (string_bytes out.new ≡ string_bytes out.old ++ literal_text tree.now) }
{
    if tree.len() == 0 {
        return Ok(());
    }
    push_value(out, tree.cursor(0))
}
