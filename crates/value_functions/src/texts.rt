//! What is read from texts.
ghost use Rattle.std.specs.Prelude.{◌≡◌, ℤ, pos, IfOk, MatchOption, Some, length, slice_range};
ghost use Rattle.std.specs.Str.{IsCharBoundary};
ghost use Rattle.doc_values.specs.Tree.{Forest};
ghost use Rattle.rule_meaning.specs.Functions.{IsGiven, IsParsed, IsPart, IsUnescaped, text_tree, truth_in};

use crate::trees::text_tree;
use doc_values::{Doc, TEMPLATE_LIMIT};
use json_reader::{JsonRefusal, read_json};
use percent_encoding::{DecodeError, percent_decode};
use std::alloc::{AllocError, Global};

/// The truth value of `true` and `false`, in any ASCII case.
pub(crate) fn truth_in(text: &str) -> Option<bool>
    ensures { result ≡ truth_in text.now }
{
    if text.eq_ignore_ascii_case("true") {
        Some(true)
    } else if text.eq_ignore_ascii_case("false") {
        Some(false)
    } else {
        None
    }
}

/// The tree of a JSON text of at most 8 MiB.
pub(crate) fn parsed(alloc: Global, text: &str) -> Result<Option<Doc<'static>>, AllocError>
    ensures { IfOk result (IsGiven (IsParsed text.now)) }
{
    if TEMPLATE_LIMIT < text.len() {
        return Ok(None);
    }
    match read_json(alloc, text) {
        Ok(doc) => Ok(Some(doc.detach(alloc)?)),
        Err(refusal) => match refusal {
            JsonRefusal::NoMemory => Err(AllocError),
            _ => Ok(None),
        },
    }
}

/// The text with its percent escapes decoded, if that is UTF-8.
pub(crate) fn unescaped(alloc: Global, text: &str) -> Result<Option<Doc<'static>>, AllocError>
    ensures { IfOk result (IsGiven (IsUnescaped text.now)) }
{
    match percent_decode(text.as_bytes()).decode_utf8(alloc) {
        Ok(decoded) => Ok(Some(text_tree(alloc, decoded.into_owned(alloc)?)?)),
        Err(DecodeError::OutOfMemory) => Err(AllocError),
        Err(_) => Ok(None),
    }
}

/// The bytes from one index up to another, if both stand between characters.
fn part_of(text: &str, from: i64, to: i64) -> Option<&str>
    ensures { MatchOption result
        ((tree : Forest) → IsPart (Some from) (Some to) text.now tree → ⊥)
        (λ part. IsPart (Some from) (Some to) text.now (text_tree part.now)) }
{
    if from < 0 || to < from {
        return None;
    }
    let (from, to) = (from as usize, to as usize);
    if !text.is_char_boundary(from) {
        return None;
    }
    if !text.is_char_boundary(to) {
        return None;
    }
    Some(&text[from..to])
}

/// The same for two indexes that may not be there.
pub(crate) fn part(
    alloc: Global,
    from: Option<i64>,
    to: Option<i64>,
    text: &str,
) -> Result<Option<Doc<'static>>, AllocError>
    ensures { IfOk result (IsGiven (IsPart from to text.now)) }
{
    let (Some(from), Some(to)) = (from, to) else {
        return Ok(None);
    };
    match part_of(text, from, to) {
        None => Ok(None),
        Some(part) => Ok(Some(text_tree(alloc, String::from_str(alloc, part)?)?)),
    }
}
