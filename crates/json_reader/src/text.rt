//! Texts between quotation marks.
ghost use Rattle.std.specs.Prelude.{ℕ, ◌≡◌, ◌-◌, ◌<◌, ◌≤◌, ◌⊎◌, length, true, false, IsErrOf, MatchResult, take, drop, slice_index, string_bytes};
ghost use Rattle.std.specs.Cow.{cow_str_bytes};
ghost use Rattle.doc_values.specs.Limits.{template_limit};
ghost use Rattle.json_reader.specs.code.Memory.{HasEscape};
ghost use Rattle.json_reader.specs.Json.{is_unescaped, Each};
ghost use Rattle.json_reader.specs.code.Steps.{Reaches, Fails, IsTextAt, Unclosed, is_mark};

use crate::escape::escape_at;
use crate::refusal::JsonRefusal;
use byte_lanes::first_control_or;
use std::alloc::Global;
use std::borrow::CowStr;

/// The place behind the bytes from a place on that stand for themselves.
fn plain_end(bytes: &[u8], at: usize) -> usize
    requires { at ≤ length bytes.now }
    ensures from { at ≤ result }
    ensures within { result ≤ length bytes.now }
    ensures plain { Each is_unescaped (take (result - at) (drop at bytes.now)) }
    ensures most { result < length bytes.now → is_unescaped (slice_index bytes.now result) ≡ false }
{
    first_control_or(bytes, at, b'"', b'\\')
}

/// Whether a byte ends a run of bytes that stand for themselves, and may stand in a text.
fn is_mark(byte: u8) -> bool
    ensures { result ≡ is_mark byte }
{
    byte == b'"' || byte == b'\\'
}

/// The place of the quotation mark or backslash behind bytes that stand for themselves; else the place of a byte that
/// belongs in no text, or the end.
fn run_end(bytes: &[u8], at: usize) -> Result<usize, usize>
    requires within { at ≤ length bytes.now }
    ensures { MatchResult result (λ end. (at ≤ end) × (end < length bytes.now) × Reaches bytes.now at (take (end - at) (drop at bytes.now)) end × (is_mark (slice_index bytes.now end) ≡ true)) (λ j. Fails bytes.now at j) }
{
    let end = plain_end(bytes, at);
    if end == bytes.len() {
        return Err(end);
    }
    if !is_mark(bytes[end]) {
        return Err(end);
    }
    Ok(end)
}

/// The text from the place behind a quotation mark up to the one that ends it, and the place behind that. It is borrowed
/// where it has no escapes.
pub(crate) fn text_at<'s>(
    alloc: Global,
    text: &'s str,
    start: usize,
) -> Result<(CowStr<'s>, usize), JsonRefusal>
    requires inside { 0 < start }
    requires within { start ≤ length text.now }
    requires small { length text.now ≤ template_limit }
    requires quote { slice_index text.now (start - 1) ≡ 34 }
    ensures text { MatchResult result (λ r. IsTextAt text.now start (cow_str_bytes r.0) r.1) (λ e. (e ≡ JsonRefusal.NoMemory) ⊎ ((j : ℕ) × (e ≡ JsonRefusal.Syntax j) × Unclosed text.now start j)) }
    ensures memory { IsErrOf result JsonRefusal.NoMemory → HasEscape text.now }
{
    let bytes = text.as_bytes();
    match run_end(bytes, start) {
        Err(stop) => Err(JsonRefusal::Syntax(stop as u32)),
        Ok(end) => {
            if bytes[end] == b'"' {
                return Ok((CowStr::Borrowed(&text[start..end]), end + 1));
            }
            match decoded_at(alloc, text, start) {
                Ok((decoded, end)) => Ok((CowStr::Owned(decoded), end)),
                Err(refusal) => Err(refusal),
            }
        }
    }
}

/// The same for a text with escapes.
fn decoded_at(alloc: Global, text: &str, start: usize) -> Result<(String, usize), JsonRefusal>
    requires inside { 0 < start }
    requires within { start ≤ length text.now }
    requires small { length text.now ≤ template_limit }
    requires quote { slice_index text.now (start - 1) ≡ 34 }
    ensures { MatchResult result (λ r. IsTextAt text.now start (string_bytes r.0) r.1) (λ e. (e ≡ JsonRefusal.NoMemory) ⊎ ((j : ℕ) × (e ≡ JsonRefusal.Syntax j) × Unclosed text.now start j)) }
{
    let bytes = text.as_bytes();
    let mut decoded = String::new(alloc);
    let mut at = start;
    while at < bytes.len() {
        match run_end(bytes, at) {
            Err(stop) => return Err(JsonRefusal::Syntax(stop as u32)),
            Ok(end) => {
                decoded.push_str(&text[at..end])?;
                if bytes[end] == b'"' {
                    return Ok((decoded, end + 1));
                }
                match escape_at(bytes, end) {
                    Err(stop) => return Err(JsonRefusal::Syntax(stop as u32)),
                    Ok((c, behind)) => {
                        decoded.push(c)?;
                        at = behind;
                    }
                }
            }
        }
    }
    Err(JsonRefusal::Syntax(bytes.len() as u32))
}
