//! Numbers from their text.
ghost use Rattle.std.specs.Prelude.{◌≡◌, ℕ, ◌+◌, ◌-◌, ◌*◌, ◌^◌, ◌%◌, ◌<◌, ◌≤◌, min, length, Option, IfSome, IsNone, MatchOption, Bool, true, false, ℤ, pos, ◌-ℤ◌, ◌≤ℤ◌, unsigned_abs, FitsSigned};
ghost use mir.Syntax.{w64};
ghost use Rattle.decimals.specs.Decimal.{Decimal, IsNormal};
ghost use Rattle.decimals.specs.Number.{IsNumber, is_digit, AreDigits, number, number_behind, signed, scaled, IsDecimalOf, IsValue};
ghost use Rattle.decimals.specs.code.Reading.{digits, behind, minus_of, behind_minus, behind_sign, point_of, fraction_of, behind_fraction, is_mark, mark_of, down_of, power_of, behind_power, read, is_whole, is_filled, is_nil, is_number, cap, IsHeld};
ghost use Rattle.decimals.specs.declared.decimal.Num.{Num};

use crate::decimal::{Decimal, LIMIT, Num};
use std::marker::Model;

/// No exponent from here on leads into the range of decimals.
const CAP: u128 = 1000000000000000000000000000000;

/// A number text in parts: whether a minus stands in front of the number and of the exponent, and the digits before
/// the point, behind it, and of the exponent.
#[derive(Drop)]
struct Parts<'t> {
    minus: bool,
    whole: &'t [u8],
    fraction: &'t [u8],
    down: bool,
    power: &'t [u8],
}

impl<'t> Model for Parts<'t> {
    ghost use Rattle.decimals.specs.Number.{Parts};
    ghost use Rattle.decimals.specs.code.Reading.{parts_code};

    ghost Value = { Parts };

    ghost coded = { parts_code };

    ghost view = { λ p. record { minus = p.minus; whole = p.whole.now; fraction = p.fraction.now; down = p.down; power = p.power.now } };
}

/// Digits that a mark announces, and what stands behind them.
#[derive(Drop)]
struct Piece<'t> {
    there: bool,
    down: bool,
    digits: &'t [u8],
    rest: &'t [u8],
}

fn is_digit(byte: u8) -> bool
    ensures { result ≡ is_digit byte }
{
    b'0' <= byte && byte <= b'9'
}

/// The digits in front, and what stands behind them.
fn split_digits(bytes: &[u8]) -> (&[u8], &[u8])
    ensures front { result.0.now ≡ digits bytes.now }
    ensures rest { result.1.now ≡ behind bytes.now }
{
    let mut end = 0;
    while end < bytes.len() {
        if !is_digit(bytes[end]) {
            return bytes.split_at(end);
        }
        end += 1;
    }
    bytes.split_at(end)
}

/// Whether a minus stands in front, and what stands behind it.
fn split_minus(bytes: &[u8]) -> (bool, &[u8])
    ensures there { result.0 ≡ minus_of bytes.now }
    ensures rest { result.1.now ≡ behind_minus bytes.now }
{
    match bytes.split_first() {
        None => (false, bytes),
        Some((first, rest)) => {
            if *first == b'-' {
                (true, rest)
            } else {
                (false, bytes)
            }
        }
    }
}

/// What stands behind a plus or a minus.
fn skip_sign(bytes: &[u8]) -> &[u8]
    ensures { result.now ≡ behind_sign bytes.now }
{
    match bytes.split_first() {
        None => bytes,
        Some((first, rest)) => {
            if *first == b'-' || *first == b'+' {
                rest
            } else {
                bytes
            }
        }
    }
}

/// The fraction in front.
fn split_fraction(bytes: &[u8]) -> Piece
    ensures there { result.there ≡ point_of bytes.now }
    ensures digits { result.digits.now ≡ fraction_of bytes.now }
    ensures rest { result.rest.now ≡ behind_fraction bytes.now }
{
    match bytes.split_first() {
        None => Piece {
            there: false,
            down: false,
            digits: bytes,
            rest: bytes,
        },
        Some((first, rest)) => {
            if *first == b'.' {
                let (digits, rest) = split_digits(rest);
                Piece {
                    there: true,
                    down: false,
                    digits,
                    rest,
                }
            } else {
                Piece {
                    there: false,
                    down: false,
                    digits: &bytes[..0],
                    rest: bytes,
                }
            }
        }
    }
}

fn is_mark(byte: u8) -> bool
    ensures { result ≡ is_mark byte }
{
    byte == b'e' || byte == b'E'
}

/// The exponent in front.
fn split_power(bytes: &[u8]) -> Piece
    ensures there { result.there ≡ mark_of bytes.now }
    ensures down { result.down ≡ down_of bytes.now }
    ensures digits { result.digits.now ≡ power_of bytes.now }
    ensures rest { result.rest.now ≡ behind_power bytes.now }
{
    match bytes.split_first() {
        None => Piece {
            there: false,
            down: false,
            digits: bytes,
            rest: bytes,
        },
        Some((first, rest)) => {
            if is_mark(*first) {
                let (down, _) = split_minus(rest);
                let (digits, rest) = split_digits(skip_sign(rest));
                Piece {
                    there: true,
                    down,
                    digits,
                    rest,
                }
            } else {
                Piece {
                    there: false,
                    down: false,
                    digits: &bytes[..0],
                    rest: bytes,
                }
            }
        }
    }
}

/// Whether digits are a whole part: there are some, and no zero stands in front of others.
fn is_whole(digits: &[u8]) -> bool
    ensures { result ≡ is_whole digits.now }
{
    match digits.split_first() {
        None => false,
        Some((first, rest)) => rest.is_empty() || *first != b'0',
    }
}

/// Whether digits stand where a mark announces them.
fn is_filled(there: bool, digits: &[u8]) -> bool
    ensures { result ≡ is_filled there digits.now }
{
    !there || !digits.is_empty()
}

/// Whether nothing stands there.
fn is_nil(bytes: &[u8]) -> bool
    ensures { result ≡ is_nil bytes.now }
{
    bytes.is_empty()
}

/// The parts of a number text.
fn parts_of(bytes: &[u8]) -> Option<Parts>
    ensures { MatchOption result (is_number bytes.now ≡ false) (λ p. (is_number bytes.now ≡ true) × (p ≡ read bytes.now)) }
{
    let (minus, rest) = split_minus(bytes);
    let (whole, rest) = split_digits(rest);
    let fraction = split_fraction(rest);
    let power = split_power(fraction.rest);
    if !is_whole(whole) {
        return None;
    }
    if !is_filled(fraction.there, fraction.digits) {
        return None;
    }
    if !is_filled(power.there, power.digits) {
        return None;
    }
    if !is_nil(power.rest) {
        return None;
    }
    Some(Parts {
        minus,
        whole,
        fraction: fraction.digits,
        down: power.down,
        power: power.digits,
    })
}

/// The number that digits spell, or 10^30 if it is more.
fn capped_number(digits: &[u8]) -> u128
    ensures { result ≡ cap (number digits.now) }
{
    let mut n = 0;
    for byte in digits {
        n = capped_step(n, *byte);
    }
    n
}

/// A number with one digit more.
fn capped_step(n: u128, byte: u8) -> u128
    requires { n ≤ 10 ^ 30 }
    ensures { result ≡ cap (n * 10 + (byte - 48)) }
{
    (n * 10 + byte.saturating_sub(b'0') as u128).min(CAP)
}

/// A number with its sign.
fn signed(minus: bool, size: i128) -> i128
    requires low { pos 0 ≤ℤ size }
    ensures { result ≡ signed minus (unsigned_abs size) }
{
    if minus { -size } else { size }
}

/// The whole number of digits, if 64 bits with a sign hold it.
fn whole_number(minus: bool, digits: &[u8]) -> Option<i64>
    ensures { MatchOption result (FitsSigned w64 (signed minus (number digits.now)) → ⊥) (λ n. (n ≡ signed minus (number digits.now)) × FitsSigned w64 n) }
{
    match i64::try_from(signed(minus, capped_number(digits) as i128)) {
        Ok(n) => Some(n),
        Err(_) => None,
    }
}

/// The digits of a number without the zeros at its end, capped at 10^18, and how many zeros these are.
#[derive(Clone, Copy)]
struct Significant {
    kept: u64,
    zeros: u128,
    ghost small: { kept ≤ 10 ^ 18 },
}

/// The number of digits, then zeros, then a digit that is no zero, capped at 10^18.
fn grown(kept: u64, zeros: u128, digit: u8) -> u64
    requires small { kept ≤ 10 ^ 18 }
    requires digit { digit < 10 }
    ensures { result ≡ min (kept * 10 ^ (zeros + 1) + digit) (10 ^ 18) }
{
    if kept == 0 {
        return digit as u64;
    }
    if 18 <= zeros {
        return LIMIT;
    }
    let moved = kept as u128 * 10u128.pow(zeros as u32 + 1);
    (moved + digit as u128).min(LIMIT as u128) as u64
}

/// A digit more.
fn with_digit(held: Significant, digit: u8) -> Significant
    requires digit { digit < 10 }
    requires few { held.zeros < 2 ^ 100 }
    ensures held { (m : ℕ) → IsHeld m held.kept held.zeros → IsHeld (m * 10 + digit) result.kept result.zeros }
    ensures few { result.zeros ≤ held.zeros + 1 }
{
    if digit == 0 {
        return Significant {
            kept: held.kept,
            zeros: held.zeros + 1,
        };
    }
    Significant {
        kept: grown(held.kept, held.zeros, digit),
        zeros: 0,
    }
}

/// Digits more.
fn with_digits(held: Significant, digits: &[u8]) -> Significant
    requires digits { AreDigits digits.now }
    requires few { held.zeros < 2 ^ 65 }
    ensures held { (m : ℕ) → IsHeld m held.kept held.zeros → IsHeld (number_behind m digits.now) result.kept result.zeros }
    ensures few { result.zeros ≤ held.zeros + length digits.now }
{
    let mut now = held;
    for byte in digits {
        now = with_digit(now, *byte - b'0');
    }
    now
}

/// Units with their sign.
fn signed_units(minus: bool, size: u64) -> i64
    requires { size < 10 ^ 18 }
    ensures { result ≡ signed minus size }
{
    if minus { -(size as i64) } else { size as i64 }
}

/// A number times 10 to the `up` less `down`, if it is in the range of decimals.
fn shifted(minus: bool, kept: u64, up: u128, down: u128) -> Option<Decimal>
    requires small { kept ≤ 10 ^ 18 }
    requires last { kept < 10 ^ 18 → kept % 10 ≡ 0 → ⊥ }
    ensures { MatchOption result (IsNormal (scaled minus kept (pos up -ℤ pos down)) → ⊥) (λ d. (d ≡ scaled minus kept (pos up -ℤ pos down)) × IsNormal d) }
{
    if LIMIT <= kept {
        return None;
    }
    if down <= up {
        raised(minus, kept, up - down)
    } else {
        lowered(minus, kept, down - up)
    }
}

/// A number times a power of 10, if it is in the range of decimals.
fn raised(minus: bool, kept: u64, by: u128) -> Option<Decimal>
    requires some { 0 < kept }
    requires small { kept < 10 ^ 18 }
    ensures { MatchOption result (10 ^ 18 ≤ kept * 10 ^ by) (λ d. (d ≡ scaled minus kept (pos by)) × IsNormal d) }
{
    if 18 <= by {
        return None;
    }
    let units = kept as u128 * 10u128.pow(by as u32);
    if LIMIT as u128 <= units {
        return None;
    }
    Some(Decimal::of(signed_units(minus, units as u64), 0))
}

/// A number through a power of 10, if it is in the range of decimals.
fn lowered(minus: bool, kept: u64, by: u128) -> Option<Decimal>
    requires some { 0 < by }
    requires small { kept < 10 ^ 18 }
    requires last { kept % 10 ≡ 0 → ⊥ }
    ensures { MatchOption result (18 < by) (λ d. (d ≡ record { units = signed minus kept; scale = by }) × IsNormal d) }
{
    if 18 < by {
        return None;
    }
    Some(Decimal::of(signed_units(minus, kept), by as u8))
}

/// The decimal of a number text, if it is in range.
fn decimal_of(parts: &Parts) -> Option<Decimal>
    requires whole { AreDigits parts.now.whole }
    requires fraction { AreDigits parts.now.fraction }
    ensures { MatchOption result ((d : Decimal) → IsDecimalOf parts.now d → IsNormal d → ⊥) (λ d. IsDecimalOf parts.now d × IsNormal d) }
{
    let none = Significant { kept: 0, zeros: 0 };
    let held = with_digits(with_digits(none, parts.whole), parts.fraction);
    if held.kept == 0 {
        return Some(Decimal::of(0, 0));
    }
    let behind = parts.fraction.len() as u128;
    let power = capped_number(parts.power);
    if parts.down {
        shifted(parts.minus, held.kept, held.zeros, behind + power)
    } else {
        shifted(parts.minus, held.kept, held.zeros + power, behind)
    }
}

/// What the parts of a number text are worth, if it is in range.
fn value_of(parts: &Parts) -> Option<Num>
    requires whole { AreDigits parts.now.whole }
    requires fraction { AreDigits parts.now.fraction }
    ensures { MatchOption result ((n : Num) → IsValue parts.now n → ⊥) (λ n. IsValue parts.now n) }
{
    if is_nil(parts.fraction) && is_nil(parts.power) {
        return match whole_number(parts.minus, parts.whole) {
            None => None,
            Some(n) => Some(Num::Whole(n)),
        };
    }
    match decimal_of(parts) {
        None => None,
        Some(d) => Some(Num::Fraction(d)),
    }
}

/// The number that a text spells by the grammar of RFC 8259, section 6. Without fraction and exponent it is a whole
/// number, else a decimal. None where the text is no number or the number is out of range. Takes time linear in the text.
pub fn read_number(text: &str) -> Option<Num>
    ensures { MatchOption result ((n : Num) → IsNumber text.now n → ⊥) (λ n. IsNumber text.now n) }
{
    match parts_of(text.as_bytes()) {
        None => None,
        Some(parts) => value_of(&parts),
    }
}
