//! Paths of the nodes of a tree.
ghost use Rattle.std.specs.Prelude.{◌≡◌, ◌++◌, OnOk};
ghost use Rattle.std.specs.List.{flat_map};
ghost use Rattle.doc_values.specs.Tree.{IsTree};
ghost use Rattle.report_text.specs.Paths.{ToEntry, ToItem, key_byte, path_of, path_text, step_text};

use crate::spelling::{is_control, push_hex, push_number};
use doc_values::Cursor;
use std::alloc::AllocError;

/// Appends the path of a node: the step down to each node on the way from the root.
pub(crate) fn push_path(line: &mut Vec<u8>, node: Cursor<'_, '_>) -> Result<(), AllocError>
    requires { IsTree node.doc.now }
    ensures { OnOk result (line.new.items ≡ line.old.items ++ path_text (path_of node.entry.doc.now node.entry.id)) }
{
    let Some(parent) = node.parent() else {
        return Ok(());
    };
    push_path(line, parent)?;
    match node.key() {
        Some(key) => push_key(line, key),
        None => match node.index() {
            Some(index) => push_index(line, index),
            // What stands in a node of a tree is an entry of a map or an item of a list.
            None => unreachable!(),
        },
    }
}

/// Appends the step down to the entry of a key.
fn push_key(line: &mut Vec<u8>, key: &str) -> Result<(), AllocError>
    ensures { OnOk result (line.new.items ≡ line.old.items ++ step_text (ToEntry key.now)) }
{
    line.push(b'/')?;
    push_key_text(line, key)
}

/// Appends a key as it stands in a path.
pub fn push_key_text(line: &mut Vec<u8>, key: &str) -> Result<(), AllocError>
    ensures { OnOk result (line.new.items ≡ line.old.items ++ flat_map key_byte key.now) }
{
    for byte in key.as_bytes() {
        push_key_byte(line, *byte)?;
    }
    Ok(())
}

/// Appends a byte of a key. The signs of paths and control bytes are escaped.
fn push_key_byte(line: &mut Vec<u8>, byte: u8) -> Result<(), AllocError>
    ensures { OnOk result (line.new.items ≡ line.old.items ++ key_byte byte) }
{
    if byte == b'~' {
        return line.extend_from_slice(b"~0");
    }
    if byte == b'/' {
        return line.extend_from_slice(b"~1");
    }
    if is_control(byte) {
        line.extend_from_slice(b"~x")?;
        return push_hex(line, byte);
    }
    line.push(byte)?;
    Ok(())
}

/// Appends the step down to the item at an index.
fn push_index(line: &mut Vec<u8>, index: u32) -> Result<(), AllocError>
    ensures { OnOk result (line.new.items ≡ line.old.items ++ step_text (ToItem index)) }
{
    line.push(b'/')?;
    push_number(line, index)
}
