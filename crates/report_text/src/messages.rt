//! The message of a part.
ghost use Rattle.std.specs.Prelude.{◌≡◌, ◌≤◌, ◌++◌, ◌-◌, length, OnOk};
ghost use Rattle.std.specs.List.{prefix_len, suffix_len};
ghost use Rattle.report_text.specs.Messages.{is_white, without_front, without_end, trimmed, quoted, quoted_byte};

use crate::spelling::{is_control, push_hex};
use std::alloc::AllocError;

/// Appends a message in quotes, without white space at both ends.
pub(crate) fn push_quoted(line: &mut Vec<u8>, message: &str) -> Result<(), AllocError>
    ensures { OnOk result (line.new.items ≡ line.old.items ++ quoted message.now) }
{
    line.push(b'"')?;
    for byte in trimmed(message.as_bytes()) {
        push_quoted_byte(line, *byte)?;
    }
    line.push(b'"')?;
    Ok(())
}

/// Appends a byte of a message. Quotes, backslashes and control bytes are escaped.
fn push_quoted_byte(line: &mut Vec<u8>, byte: u8) -> Result<(), AllocError>
    ensures { OnOk result (line.new.items ≡ line.old.items ++ quoted_byte byte) }
{
    if byte == b'"' {
        return line.extend_from_slice(b"\\\"");
    }
    if byte == b'\\' {
        return line.extend_from_slice(b"\\\\");
    }
    if is_control(byte) {
        line.extend_from_slice(b"\\u00")?;
        return push_hex(line, byte);
    }
    line.push(byte)?;
    Ok(())
}

/// A text without white space at both ends.
fn trimmed(text: &[u8]) -> &[u8]
    ensures { result.now ≡ trimmed text.entry.now }
{
    without_end(without_front(text))
}

/// A text without white space at its front.
fn without_front(text: &[u8]) -> &[u8]
    ensures { result.now ≡ without_front text.entry.now }
{
    &text[white_len(text)..]
}

/// How many bytes of white space stand at the front of a text.
fn white_len(text: &[u8]) -> usize
    ensures len { result ≡ prefix_len is_white text.now }
    ensures within { result ≤ length text.now }
{
    for i in 0..text.len() {
        if !is_white(text[i]) {
            return i;
        }
    }
    text.len()
}

/// A text without white space at its end.
fn without_end(text: &[u8]) -> &[u8]
    ensures { result.now ≡ without_end text.entry.now }
{
    &text[..end_of(text)]
}

/// Where the white space at the end of a text begins.
fn end_of(text: &[u8]) -> usize
    ensures end { result ≡ length text.now - suffix_len is_white text.now }
    ensures within { result ≤ length text.now }
{
    let mut end = text.len();
    while end > 0 {
        if !is_white(text[end - 1]) {
            return end;
        }
        end -= 1;
    }
    0
}

/// Whether a byte is a space, a tab, CR or LF.
fn is_white(byte: u8) -> bool
    ensures { result ≡ is_white byte }
{
    byte == b' ' || byte == b'\t' || byte == b'\r' || byte == b'\n'
}
