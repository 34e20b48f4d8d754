//! How many bytes a number text has.
ghost use Rattle.std.specs.Prelude.{◌≡◌, ◌≤◌, ◌<◌, ◌+◌, Bool, length};
ghost use Rattle.decimals.specs.Number.{is_digit};
ghost use Rattle.guard_lexer.specs.code.Reach.{run, with_digits, signed_reach, power_reach, digits_reach, fraction_reach, whole_reach, plain_reach, behind_minus, minus_reach, numeral_reach};

use crate::byte::{is_digit, is_exponent, is_plus_minus};

/// The length of the digits in front.
fn digits_len(bytes: &[u8]) -> usize
    ensures reach { result ≡ run is_digit bytes.now }
    ensures within { result ≤ length bytes.now }
{
    for (at, byte) in bytes.iter().enumerate() {
        if !is_digit(*byte) {
            return at;
        }
    }
    bytes.len()
}

/// So many bytes more than the digits in front, or 0 where there are none.
fn with_digits(before: usize, bytes: &[u8]) -> usize
    requires { before ≤ 2 }
    ensures reach { result ≡ with_digits before bytes.now }
    ensures within { result ≤ before + length bytes.now }
{
    let digits = digits_len(bytes);
    if digits == 0 { 0 } else { before + digits }
}

fn signed_len(bytes: &[u8]) -> usize
    ensures reach { result ≡ signed_reach bytes.now }
    ensures within { result ≤ 1 + length bytes.now }
{
    match bytes.split_first() {
        None => 0,
        Some((first, rest)) => {
            if is_plus_minus(*first) {
                with_digits(2, rest)
            } else {
                with_digits(1, bytes)
            }
        }
    }
}

/// The length of the exponent in front, or 0.
fn power_len(bytes: &[u8]) -> usize
    ensures reach { result ≡ power_reach bytes.now }
    ensures within { result ≤ length bytes.now }
{
    match bytes.split_first() {
        None => 0,
        Some((first, rest)) => {
            if is_exponent(*first) {
                signed_len(rest)
            } else {
                0
            }
        }
    }
}

/// The length of the digits in front and of an exponent behind them.
fn digits_power_len(bytes: &[u8]) -> usize
    ensures reach { result ≡ digits_reach bytes.now }
    ensures within { result ≤ length bytes.now }
{
    let digits = digits_len(bytes);
    let power = power_len(bytes.split_at(digits).1);
    digits + power
}

/// The length of the fraction and the exponent in front, or 0.
fn fraction_len(bytes: &[u8]) -> usize
    ensures reach { result ≡ fraction_reach bytes.now }
    ensures within { result ≤ length bytes.now }
{
    match bytes.split_first() {
        None => 0,
        Some((first, rest)) => {
            if *first == b'.' && digits_len(rest) != 0 {
                digits_power_len(rest) + 1
            } else {
                power_len(bytes)
            }
        }
    }
}

/// The length of the digits in front, of which a leading zero is the only one.
fn whole_len(bytes: &[u8]) -> usize
    ensures reach { result ≡ whole_reach bytes.now }
    ensures within { result ≤ length bytes.now }
{
    match bytes.split_first() {
        None => 0,
        Some((first, _)) => { if *first == b'0' { 1 } else { digits_len(bytes) } }
    }
}

/// The length of the number without a sign in front, or 0.
fn plain_len(bytes: &[u8]) -> usize
    ensures reach { result ≡ plain_reach bytes.now }
    ensures within { result ≤ length bytes.now }
{
    let whole = whole_len(bytes);
    if whole == 0 {
        return 0;
    }
    let fraction = fraction_len(bytes.split_at(whole).1);
    whole + fraction
}

fn behind_minus(len: usize) -> usize
    requires { len < 18446744073709551615 }
    ensures reach { result ≡ behind_minus len }
    ensures within { result ≤ len + 1 }
{
    if len == 0 { 0 } else { len + 1 }
}

/// The length of the number in front, or 0.
fn minus_len(bytes: &[u8]) -> usize
    ensures reach { result ≡ minus_reach bytes.now }
    ensures within { result ≤ length bytes.now }
{
    match bytes.split_first() {
        None => 0,
        Some((first, rest)) => {
            if *first == b'-' {
                behind_minus(plain_len(rest))
            } else {
                plain_len(bytes)
            }
        }
    }
}

/// The length of the number in front, or 0; right behind a dot that of the whole number without a sign.
pub fn numeral_len(bytes: &[u8], dot: bool) -> usize
    ensures reach { result ≡ numeral_reach dot bytes.now }
    ensures within { result ≤ length bytes.now }
{
    if dot {
        whole_len(bytes)
    } else {
        minus_len(bytes)
    }
}
