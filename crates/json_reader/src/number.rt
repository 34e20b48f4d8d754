//! Numbers.
ghost use Rattle.std.specs.Prelude.{◌≡◌, ◌<◌, ◌≤◌, length, take, true, Some, None, IsErrOf, MatchResult, slice_index};
ghost use Rattle.doc_values.specs.Limits.{template_limit};
ghost use Rattle.decimals.specs.Number.{is_digit};
ghost use Rattle.json_reader.specs.code.Numbers.{first_part, part_next, by_exponent, by_point, completes, run_parts};
ghost use Rattle.json_reader.specs.code.Reading.{begins_number};
ghost use Rattle.json_reader.specs.code.Steps.{Number, NoNumber, IsPlain, kind_of};

use crate::refusal::JsonRefusal;
use doc_values::{Kind, Num, read_number};

/// What the last byte of a number text that may go on is.
#[derive(Clone, Copy)]
pub(crate) enum NumberPart {
    Minus,
    Zero,
    Whole,
    Point,
    Fraction,
    Exponent,
    Sign,
    Power,
}

fn is_digit(byte: u8) -> bool
    ensures { result ≡ is_digit byte }
{
    byte >= b'0' && byte <= b'9'
}

/// The part that the first byte of a number text begins.
fn first_part(byte: u8) -> NumberPart
    ensures { result ≡ first_part byte }
{
    if byte == b'-' {
        NumberPart::Minus
    } else if byte == b'0' {
        NumberPart::Zero
    } else {
        NumberPart::Whole
    }
}

/// The part that a byte behind digits begins if it is an `e`.
fn by_exponent(byte: u8) -> Option<NumberPart>
    ensures { result ≡ by_exponent byte }
{
    if byte == b'e' || byte == b'E' {
        Some(NumberPart::Exponent)
    } else {
        None
    }
}

/// The part that a byte behind whole digits begins if it is a point or an `e`.
fn by_point(byte: u8) -> Option<NumberPart>
    ensures { result ≡ by_point byte }
{
    if byte == b'.' {
        Some(NumberPart::Point)
    } else {
        by_exponent(byte)
    }
}

/// The part that a byte goes on with behind a part, if a number text may go on so.
fn part_next(part: NumberPart, byte: u8) -> Option<NumberPart>
    ensures { result ≡ part_next part byte }
{
    let digit = is_digit(byte);
    match part {
        NumberPart::Minus if byte == b'0' => Some(NumberPart::Zero),
        NumberPart::Exponent if byte == b'+' || byte == b'-' => Some(NumberPart::Sign),
        NumberPart::Minus | NumberPart::Whole if digit => Some(NumberPart::Whole),
        NumberPart::Point | NumberPart::Fraction if digit => Some(NumberPart::Fraction),
        NumberPart::Exponent | NumberPart::Sign | NumberPart::Power if digit => {
            Some(NumberPart::Power)
        }
        NumberPart::Zero | NumberPart::Whole => by_point(byte),
        NumberPart::Fraction => by_exponent(byte),
        _ => None,
    }
}

/// Whether a number text may end behind a part.
fn completes(part: NumberPart) -> bool
    ensures { result ≡ completes part }
{
    matches!(
        part,
        NumberPart::Zero | NumberPart::Whole | NumberPart::Fraction | NumberPart::Power
    )
}

/// How many bytes in front go on with a number text behind a part, and the part of the last of them.
fn number_run(bytes: &[u8], first: NumberPart) -> (usize, NumberPart)
    ensures within { result.0 ≤ length bytes.now }
    ensures run { run_parts (Some first) (take result.0 bytes.now) ≡ Some result.1 }
    ensures most { result.0 < length bytes.now → part_next result.1 (slice_index bytes.now result.0) ≡ None }
{
    let mut part = first;
    for (i, byte) in bytes.iter().enumerate() {
        match part_next(part, *byte) {
            None => return (i, part),
            Some(next) => part = next,
        }
    }
    (bytes.len(), part)
}

/// The kind of a number.
fn kind_of(number: Num) -> Kind
    ensures { result ≡ kind_of number }
{
    match number {
        Num::Whole(whole) => Kind::Whole(whole),
        Num::Fraction(decimal) => Kind::Fraction(decimal),
    }
}

/// The number at a place, and the place behind it; a refusal where its bytes are no number text, or it is out of range.
pub(crate) fn number_at(text: &str, at: usize) -> Result<(Kind, usize), JsonRefusal>
    requires within { at < length text.now }
    requires small { length text.now ≤ template_limit }
    requires begins { begins_number (slice_index text.now at) ≡ true }
    ensures number { MatchResult result (λ r. (at < r.1) × (r.1 ≤ length text.now) × IsPlain r.0 × Number text.now at r.0 r.1) (λ e. NoNumber text.now at e) }
    ensures no_memory { ¬ IsErrOf result JsonRefusal.NoMemory }
{
    let bytes = text.as_bytes();
    let (len, part) = number_run(&bytes[at + 1..], first_part(bytes[at]));
    let end = at + 1 + len;
    match read_number(&text[at..end]) {
        Some(number) => Ok((kind_of(number), end)),
        None => {
            if completes(part) {
                Err(JsonRefusal::NumberRange(at as u32))
            } else {
                Err(JsonRefusal::Syntax(end as u32))
            }
        }
    }
}
