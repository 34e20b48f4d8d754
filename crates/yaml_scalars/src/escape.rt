//! Escapes in double quotes.
ghost use Rattle.std.specs.Prelude.{ℕ, ◌≡◌, ◌+◌, ◌-◌, ◌*◌, ◌^◌, ◌<◌, ◌≤◌, ◌⊎◌, length, drop, slice_index, true, false, Some, None, IfSome, MatchResult};
ghost use Rattle.yaml_scalars.specs.Quoted.{is_hex, hex, digits, Number, Short, is_high, is_low, is_character, least, greatest, may_go_on, of_digits, of_low, of_pair, of_unit, letter, escape};
ghost use Rattle.yaml_scalars.specs.code.QuotedSteps.{IsMeaning, Ends};
ghost use Rattle.yaml_scalars.specs.code.Walk.{line_at};

use crate::lines::ends_line;

/// What a byte of a quoted scalar means where it does not stand for itself.
#[derive(Clone, Copy)]
pub(crate) enum Meaning {
    /// The scalar ends.
    Closes,
    /// With so many bytes behind it, a character.
    Is(usize, char),
    /// The line is joined to the next one.
    Joins,
    /// A carriage return stands so many bytes behind it.
    Returns(usize),
    /// No scalar goes on like this, as the byte shows that stands so many bytes behind it.
    Wrong(usize),
}

/// What a number by hexadecimal digits is to be.
#[derive(Clone, Copy)]
pub enum Wanted {
    Character,
    /// A unit of UTF-16 that is no low surrogate.
    FirstUnit,
    /// A low surrogate.
    SecondUnit,
}

fn is_hex(byte: u8) -> bool
    ensures is { result ≡ is_hex byte }
    ensures ascii { result ≡ true → byte < 128 }
{
    matches!(byte, b'0'..=b'9' | b'A'..=b'F' | b'a'..=b'f')
}

/// What a hexadecimal digit is worth.
fn hex(byte: u8) -> u8
    requires { is_hex byte ≡ true }
    ensures worth { result ≡ hex byte }
    ensures small { result < 16 }
{
    if byte <= b'9' {
        byte - b'0'
    } else if byte <= b'F' {
        byte - b'A' + 10
    } else {
        byte - b'a' + 10
    }
}

fn is_high(unit: u32) -> bool
    ensures { result ≡ is_high unit }
{
    0xd800 <= unit && unit < 0xdc00
}

fn is_low(unit: u32) -> bool
    ensures { result ≡ is_low unit }
{
    0xdc00 <= unit && unit < 0xe000
}

fn is_character(number: u32) -> bool
    ensures { result ≡ is_character number }
{
    !is_high(number) && !is_low(number) && number <= 0x10ffff
}

/// The least number that so many more digits make of one.
fn least(number: u32, left: usize) -> u32
    requires few { left ≤ 8 }
    requires small { number < 16 ^ (8 - left) }
    ensures { result ≡ least left number }
{
    let mut value = number;
    for _ in 0..left {
        value *= 16;
    }
    value
}

/// The greatest number that so many more digits make of one.
fn greatest(number: u32, left: usize) -> u32
    requires few { left ≤ 8 }
    requires small { number < 16 ^ (8 - left) }
    ensures { result ≡ greatest left number }
{
    let mut value = number;
    for _ in 0..left {
        value = value * 16 + 15;
    }
    value
}

/// Whether so many more digits make of a number one that is wanted.
fn may_go_on(wanted: Wanted, number: u32, left: usize) -> bool
    requires few { left ≤ 8 }
    requires small { number < 16 ^ (8 - left) }
    ensures { result ≡ may_go_on wanted left number }
{
    match wanted {
        Wanted::Character => is_character(least(number, left)),
        Wanted::FirstUnit => !is_low(least(number, left)),
        Wanted::SecondUnit => is_low(greatest(number, left)),
    }
}

/// The number that so many hexadecimal digits at a place spell, or how many of them stand before the byte from which
/// none goes on that is wanted.
fn digits_at(bytes: &[u8], at: usize, count: usize, wanted: Wanted) -> Result<u32, usize>
    requires within { at ≤ length bytes.now }
    requires some { 0 < count }
    requires few { count ≤ 8 }
    ensures number { (c : ℕ) → MatchResult result (λ n. digits wanted count 0 c (drop at bytes.now) ≡ Number n) (λ found. digits wanted count 0 c (drop at bytes.now) ≡ Short (c + found)) }
    ensures right { MatchResult result (λ n. (may_go_on wanted 0 n ≡ true) × (n < 16 ^ count)) (λ _. Unit {0}) }
    ensures end { MatchResult result (λ _. (at + count ≤ length bytes.now) × (0 < count → slice_index bytes.now (at + count - 1) < 128)) (λ found. found < count) }
{
    let mut number = 0;
    for i in 0..count {
        if at + i == bytes.len() {
            return Err(i);
        }
        if !is_hex(bytes[at + i]) {
            return Err(i);
        }
        number = number * 16 + hex(bytes[at + i]) as u32;
        if !may_go_on(wanted, number, count - i - 1) {
            return Err(i);
        }
    }
    Ok(number)
}

/// A number as a character, by an escape of so many bytes behind the backslash.
fn character(taken: usize, number: u32) -> Meaning
    requires { is_character number ≡ true }
    ensures { result ≡ Meaning.Is taken number }
{
    match char::from_u32(number) {
        Some(character) => Meaning::Is(taken, character),
        None => unreachable!(),
    }
}

/// A character by so many digits, behind the letter of the escape.
fn number_at(bytes: &[u8], at: usize, count: usize) -> Meaning
    requires within { at < length bytes.now }
    requires some { 0 < count }
    requires few { count ≤ 8 }
    ensures is { IsMeaning (of_digits (count + 1) (digits Wanted.Character count 0 1 (drop (at + 1) bytes.now))) result }
    ensures ends { Ends bytes.now at result }
{
    match digits_at(bytes, at + 1, count, Wanted::Character) {
        Ok(number) => character(count + 1, number),
        Err(found) => Meaning::Wrong(found + 2),
    }
}

/// The character of two surrogates, by the digits of the low one. The place is that behind the first backslash.
fn low_at(bytes: &[u8], at: usize, high: u32) -> Meaning
    requires within { at + 7 ≤ length bytes.now }
    requires high { is_high high ≡ true }
    ensures is { IsMeaning (of_low high (digits Wanted.SecondUnit 4 0 7 (drop (at + 7) bytes.now))) result }
    ensures ends { Ends bytes.now at result }
{
    match digits_at(bytes, at + 7, 4, Wanted::SecondUnit) {
        Ok(low) => character(11, 0x10000 + (high - 0xd800) * 0x400 + (low - 0xdc00)),
        Err(found) => Meaning::Wrong(found + 8),
    }
}

/// The character of two surrogates, behind the first of them.
fn pair_at(bytes: &[u8], at: usize, high: u32) -> Meaning
    requires within { at + 5 ≤ length bytes.now }
    requires high { is_high high ≡ true }
    ensures is { IsMeaning (of_pair high (drop (at + 5) bytes.now)) result }
    ensures ends { Ends bytes.now at result }
{
    if at + 5 == bytes.len() || bytes[at + 5] != b'\\' {
        return Meaning::Wrong(6);
    }
    if at + 6 == bytes.len() || bytes[at + 6] != b'u' {
        return Meaning::Wrong(7);
    }
    low_at(bytes, at, high)
}

/// The character of one unit of UTF-16 or of two.
fn unit_at(bytes: &[u8], at: usize) -> Meaning
    requires within { at < length bytes.now }
    ensures is { IsMeaning (of_unit (digits Wanted.FirstUnit 4 0 1 (drop (at + 1) bytes.now)) (drop (at + 5) bytes.now)) result }
    ensures ends { Ends bytes.now at result }
{
    match digits_at(bytes, at + 1, 4, Wanted::FirstUnit) {
        Ok(unit) => {
            if is_high(unit) {
                return pair_at(bytes, at, unit);
            }
            character(5, unit)
        }
        Err(found) => Meaning::Wrong(found + 2),
    }
}

/// The character of a letter behind a backslash.
fn letter(byte: u8) -> Option<char>
    ensures is { result ≡ letter byte }
    ensures ascii { IfSome result (λ _. byte < 128) }
{
    match byte {
        b'0' => Some('\0'),
        b'a' => Some('\u{7}'),
        b'b' => Some('\u{8}'),
        b't' | b'\t' => Some('\t'),
        b'n' => Some('\n'),
        b'v' => Some('\u{b}'),
        b'f' => Some('\u{c}'),
        b'r' => Some('\r'),
        b'e' => Some('\u{1b}'),
        b' ' => Some(' '),
        b'"' => Some('"'),
        b'/' => Some('/'),
        b'\\' => Some('\\'),
        b'N' => Some('\u{85}'),
        b'_' => Some('\u{a0}'),
        b'L' => Some('\u{2028}'),
        b'P' => Some('\u{2029}'),
        _ => None,
    }
}

/// What stands behind a backslash, at a place that ends no line.
fn behind_backslash(bytes: &[u8], at: usize) -> Meaning
    requires within { at < length bytes.now }
    ensures is { IsMeaning (escape (drop at bytes.now)) result }
    ensures ends { Ends bytes.now at result }
{
    match bytes[at] {
        b'\r' => Meaning::Returns(1),
        b'x' => number_at(bytes, at, 2),
        b'u' => unit_at(bytes, at),
        b'U' => number_at(bytes, at, 8),
        byte => match letter(byte) {
            Some(character) => Meaning::Is(1, character),
            None => Meaning::Wrong(1),
        },
    }
}

/// What an escape means, behind its backslash.
pub(crate) fn escape_at(bytes: &[u8], at: usize) -> Meaning
    requires within { at ≤ length bytes.now }
    ensures is { IsMeaning (escape (line_at (drop at bytes.now))) result }
    ensures ends { Ends bytes.now at result }
{
    if ends_line(bytes, at) {
        return Meaning::Joins;
    }
    behind_backslash(bytes, at)
}
