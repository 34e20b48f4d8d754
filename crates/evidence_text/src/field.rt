//! Numbers, values and rows, each read from the bytes of its field.
ghost use Rattle.std.specs.Prelude.{◌≡◌, ◌+◌, ◌++◌, ◌∷◌, ◌<◌, [], ℕ, IfSome, List, MatchOption, length, option_map};
ghost use Rattle.std.specs.List.{position};
ghost use Rattle.evidence_text.specs.code.Reading.{count_in, cut, digits_in, is_at, is_none_sign, literal_in, made_in, missing_in, node_in, place_in, ref_in, row_in, verdict_in};

use byte_lanes::first_control_or;
use guard_syntax::{Origin, Ref, Row, Verdict};

/// The index of the first separator. Fields and what they are made of have few bytes, so these are looked at one by one.
fn index_of(bytes: &[u8], separator: u8) -> Option<usize>
    ensures first { result ≡ position (is_at separator) bytes.now }
    ensures within { IfSome result (λ at. at < length bytes.now) }
{
    bytes.iter().position(|byte| *byte == separator)
}

/// The bytes in front of the first separator, and those behind it.
pub(crate) fn cut(bytes: &[u8], separator: u8) -> Option<(&[u8], &[u8])>
    ensures parts { option_map (λ p. (p.0.now, p.1.now)) result ≡ cut separator bytes.entry.now }
    ensures shorter { IfSome result (λ p. length p.0.now + length p.1.now + 1 ≡ length bytes.entry.now) }
{
    let at = index_of(bytes, separator)?;
    Some((&bytes[..at], &bytes[at + 1..]))
}

/// The index of the first newline, found a block of bytes at a time: a line is long, and has no other control character.
fn index_of_newline(bytes: &[u8]) -> Option<usize>
    ensures first { result ≡ position (is_at 10) bytes.now }
    ensures within { IfSome result (λ at. at < length bytes.now) }
{
    let at = first_control_or(bytes, 0, b'\n', b'\n');
    match bytes.get(at) {
        Some(b'\n') => Some(at),
        // There is no newline, or a line in front of it that is refused.
        _ => index_of(bytes, b'\n'),
    }
}

/// The bytes in front of the first newline, and those behind it.
pub(crate) fn cut_line(bytes: &[u8]) -> Option<(&[u8], &[u8])>
    ensures parts { option_map (λ p. (p.0.now, p.1.now)) result ≡ cut 10 bytes.entry.now }
    ensures shorter { IfSome result (λ p. length p.0.now + length p.1.now + 1 ≡ length bytes.entry.now) }
{
    let at = index_of_newline(bytes)?;
    Some((&bytes[..at], &bytes[at + 1..]))
}

/// Whether the bytes are the sign of a field that holds nothing.
pub(crate) fn is_none_sign(bytes: &[u8]) -> bool
    ensures { result ≡ is_none_sign bytes.now }
{
    bytes == b"-".as_slice()
}

/// The number of digits, if they are digits and it is below 2^64.
fn number_of(digits: &[u8]) -> Option<u64>
    ensures { result ≡ digits_in digits.now }
{
    let mut number: u64 = 0;
    for digit in digits {
        if !digit.is_ascii_digit() {
            return None;
        }
        number = number
            .checked_mul(10)?
            .checked_add(u64::from(*digit - b'0'))?;
    }
    Some(number)
}

/// A number below 2^64, as it is spelled: a `0` stands first only where it is the only digit.
pub(crate) fn read_count(bytes: &[u8]) -> Option<u64>
    ensures { result ≡ count_in bytes.now }
{
    match bytes {
        [] => None,
        [b'0', _, ..] => None,
        digits => number_of(digits),
    }
}

/// A number below 2^32, as it is spelled.
pub(crate) fn read_place(bytes: &[u8]) -> Option<u32>
    ensures { result ≡ place_in bytes.now }
{
    u32::try_from(read_count(bytes)?).ok()
}

/// The bytes in front of the sign of a key, if it stands last.
fn before_key(bytes: &[u8]) -> Option<&[u8]>
    ensures { MatchOption result
        ((node : List ℕ) → node ++ 107 ∷ [] ≡ bytes.entry.now → ⊥)
        (λ node. node.now ++ 107 ∷ [] ≡ bytes.entry.now) }
{
    match bytes {
        [node @ .., b'k'] => Some(node),
        _ => None,
    }
}

/// A node of trees of this origin, and whether its key is meant.
fn read_node(origin: Origin, bytes: &[u8]) -> Option<Ref>
    ensures { result ≡ node_in origin bytes.now }
{
    match before_key(bytes) {
        Some(node) => Some(Ref {
            origin,
            node: read_place(node)?,
            key: true,
        }),
        None => Some(Ref {
            origin,
            node: read_place(bytes)?,
            key: false,
        }),
    }
}

/// A value behind the sign of a literal.
fn read_literal(bytes: &[u8]) -> Option<Ref>
    ensures { result ≡ literal_in (cut 46 bytes.now) }
{
    let Some((site, node)) = cut(bytes, b'.') else {
        return None;
    };
    let Some(site) = read_place(site) else {
        return None;
    };
    read_node(Origin::Literal(site), node)
}

/// A value behind the sign of what a call made.
fn read_made(bytes: &[u8]) -> Option<Ref>
    ensures { result ≡ made_in (cut 46 bytes.now) }
{
    let Some((line, rest)) = cut(bytes, b'.') else {
        return None;
    };
    let Some((row, node)) = cut(rest, b'.') else {
        return None;
    };
    let Some(line) = read_count(line) else {
        return None;
    };
    let Some(row) = read_count(row) else {
        return None;
    };
    read_node(Origin::Made { line, row }, node)
}

/// A value, as it is spelled.
pub(crate) fn read_ref(bytes: &[u8]) -> Option<Ref>
    ensures { result ≡ ref_in bytes.now }
{
    match bytes {
        [b'd', rest @ ..] => read_node(Origin::Template, rest),
        [b'l', rest @ ..] => read_literal(rest),
        [b'c', rest @ ..] => read_made(rest),
        _ => None,
    }
}

/// A row behind the sign of a missing value.
fn read_missing(bytes: &[u8]) -> Option<Row>
    ensures { result ≡ missing_in (cut 58 bytes.now) }
{
    let Some((step, value)) = cut(bytes, b':') else {
        return None;
    };
    let Some(step) = read_place(step) else {
        return None;
    };
    let Some(value) = read_ref(value) else {
        return None;
    };
    Some(Row::Missing { value, step })
}

/// A row, as it is spelled.
pub(crate) fn read_row(bytes: &[u8]) -> Option<Row>
    ensures { result ≡ row_in bytes.now }
{
    match bytes {
        [b'm', rest @ ..] => read_missing(rest),
        [b'u', rest @ ..] => Some(Row::Unmade {
            call: read_place(rest)?,
        }),
        _ => Some(Row::Found(read_ref(bytes)?)),
    }
}

/// A verdict, as it is spelled.
pub(crate) fn read_verdict(bytes: &[u8]) -> Option<Verdict>
    ensures { result ≡ verdict_in bytes.now }
{
    match bytes {
        b"P" => Some(Verdict::Pass),
        b"F" => Some(Verdict::Fail),
        b"S" => Some(Verdict::Skip),
        _ => None,
    }
}
