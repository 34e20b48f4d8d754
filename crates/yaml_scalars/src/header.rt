//! Headers of block scalars: a digit and a sign behind the indicator, white space and a comment.
ghost use Rattle.std.specs.Prelude.{ℕ, ◌≡◌, ◌+◌, ◌<◌, ◌≤◌, length, drop, true, false, None, MatchOption};
ghost use Rattle.yaml_scalars.specs.Block.{with_sign, with_digit, begins_digit, header, return_behind, header_fault};
ghost use Rattle.yaml_scalars.specs.code.Walk.{line_at};
ghost use Rattle.yaml_scalars.specs.code.BlockSteps.{header_seen};

use crate::lines::ends_line;

/// What is kept of the line breaks at the end of a block scalar.
#[derive(Clone, Copy)]
pub(crate) enum Chomp {
    /// One, if there is one.
    Clip,
    /// None.
    Strip,
    /// All.
    Keep,
}

/// The header of a block scalar, up to a place.
#[derive(Clone, Copy)]
pub(crate) struct Header {
    pub(crate) digit: Option<u8>,
    pub(crate) chomp: Chomp,
    /// The place behind what was read of it.
    pub(crate) end: usize,
}

/// The header with the sign at its end, if there is one.
fn with_sign(bytes: &[u8], header: Header) -> Header
    requires { header.end ≤ length bytes.now }
    ensures seen { header_seen bytes.now result ≡ with_sign (header_seen bytes.now header) (line_at (drop header.end bytes.now)) }
    ensures within { (header.end ≤ result.end) × (result.end ≤ length bytes.now) }
    ensures line { header.end + length (line_at (drop header.end bytes.now)) ≡ result.end + length (line_at (drop result.end bytes.now)) }
{
    if ends_line(bytes, header.end) {
        return header;
    }
    let chomp = match bytes[header.end] {
        b'-' => Chomp::Strip,
        b'+' => Chomp::Keep,
        _ => return header,
    };
    Header {
        digit: header.digit,
        chomp,
        end: header.end + 1,
    }
}

/// Whether a digit from 1 to 9 stands at a place.
fn begins_digit(bytes: &[u8], at: usize) -> bool
    requires { at ≤ length bytes.now }
    ensures { result ≡ begins_digit (line_at (drop at bytes.now)) }
{
    if ends_line(bytes, at) {
        return false;
    }
    b'1' <= bytes[at] && bytes[at] <= b'9'
}

/// The header with the digit at its end, if there is one.
fn with_digit(bytes: &[u8], header: Header) -> Header
    requires { header.end ≤ length bytes.now }
    ensures seen { header_seen bytes.now result ≡ with_digit (header_seen bytes.now header) (line_at (drop header.end bytes.now)) }
    ensures within { (header.end ≤ result.end) × (result.end ≤ length bytes.now) }
    ensures line { header.end + length (line_at (drop header.end bytes.now)) ≡ result.end + length (line_at (drop result.end bytes.now)) }
{
    if !begins_digit(bytes, header.end) {
        return header;
    }
    let digit = bytes[header.end] - b'0';
    Header {
        digit: Some(digit),
        chomp: header.chomp,
        end: header.end + 1,
    }
}

/// The digit and the sign of the header behind an indicator, in any order.
pub(crate) fn header_at(bytes: &[u8], start: usize) -> Header
    requires { start ≤ length bytes.now }
    ensures seen { header_seen bytes.now result ≡ header (line_at (drop start bytes.now)) }
    ensures within { (start ≤ result.end) × (result.end ≤ length bytes.now) }
    ensures line { start + length (line_at (drop start bytes.now)) ≡ result.end + length (line_at (drop result.end bytes.now)) }
{
    let none = Header {
        digit: None,
        chomp: Chomp::Clip,
        end: start,
    };
    if begins_digit(bytes, start) {
        let digit = with_digit(bytes, none);
        return with_sign(bytes, digit);
    }
    let sign = with_sign(bytes, none);
    with_digit(bytes, sign)
}

/// The place behind the first carriage return that a line has from a place on, if it has one.
pub(crate) fn return_behind(bytes: &[u8], start: usize) -> Option<usize>
    requires { start ≤ length bytes.now }
    ensures is { result ≡ return_behind start (line_at (drop start bytes.now)) }
    ensures within { MatchOption result (Unit {0}) (λ place. place ≤ length bytes.now) }
{
    for i in start..bytes.len() {
        if ends_line(bytes, i) {
            return None;
        }
        if bytes[i] == b'\r' {
            return Some(i + 1);
        }
    }
    None
}

/// The place of the byte that shows that something else than white space and a comment stands behind a header.
pub(crate) fn header_fault(bytes: &[u8], start: usize) -> Option<usize>
    requires { start ≤ length bytes.now }
    ensures is { result ≡ header_fault false start (line_at (drop start bytes.now)) }
    ensures within { MatchOption result (Unit {0}) (λ place. place ≤ length bytes.now) }
{
    let mut white = false;
    for i in start..bytes.len() {
        if ends_line(bytes, i) {
            return None;
        }
        match bytes[i] {
            b' ' | b'\t' => white = true,
            b'\r' => return Some(i + 1),
            b'#' if white => return return_behind(bytes, i + 1),
            _ => return Some(i),
        }
    }
    None
}
