//! How many bytes a name, a text, a note or a gap has.
ghost use Rattle.std.specs.Prelude.{◌≡◌, ◌≤◌, ◌==◌, ◌||◌, ◌+◌, Bool, false, length, Option, IfSome};
ghost use Rattle.guard_lexer.specs.Bytes.{is_word};
ghost use Rattle.guard_lexer.specs.code.Reach.{run, in_name, typed, name_step, colon_step, second_step, var_reach, closing, note_end, goes, into, gap_reach};

use crate::byte::{is_blank, is_letter, is_word};

/// The length of the letters, digits and `_` in front.
fn word_len(bytes: &[u8]) -> usize
    ensures reach { result ≡ run is_word bytes.now }
    ensures within { result ≤ length bytes.now }
{
    for (at, byte) in bytes.iter().enumerate() {
        if !is_word(*byte) {
            return at;
        }
    }
    bytes.len()
}

/// The length of a `%` and the name behind it, of which the bytes are those behind the `%`; 0 where no name is there.
pub fn var_len(bytes: &[u8]) -> usize
    ensures reach { result ≡ var_reach bytes.now }
    ensures within { result ≤ length bytes.now + 1 }
{
    match bytes.split_first() {
        None => 0,
        Some((first, rest)) => {
            if is_letter(*first) {
                word_len(rest) + 2
            } else {
                0
            }
        }
    }
}

fn second_step(first: u8, second: u8, rest: &[u8]) -> usize
    ensures { result ≡ second_step first second rest.now }
{
    match rest.split_first() {
        None => 0,
        Some((third, _)) => {
            if first == b':' && second == b':' && is_letter(*third) {
                3
            } else {
                0
            }
        }
    }
}

fn colon_step(first: u8, rest: &[u8]) -> usize
    ensures { result ≡ colon_step first rest.now }
{
    match rest.split_first() {
        None => 0,
        Some((second, rest)) => second_step(first, *second, rest),
    }
}

/// The length of the next byte of a name, or of its next `::` and letter, or 0.
fn name_step(bytes: &[u8]) -> usize
    ensures { result ≡ name_step bytes.now }
{
    match bytes.split_first() {
        None => 0,
        Some((first, rest)) => {
            if is_word(*first) {
                1
            } else {
                colon_step(*first, rest)
            }
        }
    }
}

fn was_typed(typed: bool, step: usize) -> bool
    ensures { result ≡ (typed || (step == 3)) }
{
    typed || step == 3
}

/// The length of the rest of a name, or of names joined by `::`, and whether there is a `::`.
pub fn name_len(bytes: &[u8]) -> (usize, bool)
    ensures reach { result.0 ≡ in_name bytes.now }
    ensures typed { result.1 ≡ typed bytes.now }
    ensures within { result.0 ≤ length bytes.now }
{
    let mut at = 0;
    let mut typed = false;
    while at < bytes.len() {
        let step = name_step(bytes.split_at(at).1);
        if step == 0 {
            return (at, typed);
        }
        typed = was_typed(typed, step);
        at += step;
    }
    (at, typed)
}

/// The length up to the closing quote and with it. A backslash before the quote makes it no end.
pub fn closing_len(bytes: &[u8], quote: u8) -> Option<usize>
    ensures reach { result ≡ closing quote false bytes.now }
    ensures within { IfSome result (λ n. n ≤ length bytes.now) }
{
    let mut behind = false;
    for (at, byte) in bytes.iter().enumerate() {
        if *byte == quote && !behind {
            return Some(at + 1);
        }
        behind = *byte == b'\\';
    }
    None
}

/// The length up to the first `>>` and with it.
pub fn note_len(bytes: &[u8]) -> Option<usize>
    ensures reach { result ≡ note_end false bytes.now }
    ensures within { IfSome result (λ n. n ≤ length bytes.now) }
{
    let mut behind = false;
    for (at, byte) in bytes.iter().enumerate() {
        if *byte == b'>' && behind {
            return Some(at + 1);
        }
        behind = *byte == b'>';
    }
    None
}

/// Whether a byte goes on with a gap, inside a comment or not.
fn goes(inside: bool, byte: u8) -> bool
    ensures { result ≡ goes inside byte }
{
    inside || is_blank(byte)
}

/// Whether a comment goes on behind a byte of a gap.
fn into(inside: bool, byte: u8) -> bool
    ensures { result ≡ into inside byte }
{
    if inside { byte != b'\n' } else { byte == b'#' }
}

/// The length of the white space and comments in front.
pub fn gap_len(bytes: &[u8]) -> usize
    ensures reach { result ≡ gap_reach false bytes.now }
    ensures within { result ≤ length bytes.now }
{
    let mut inside = false;
    for (at, byte) in bytes.iter().enumerate() {
        if !goes(inside, *byte) {
            return at;
        }
        inside = into(inside, *byte);
    }
    bytes.len()
}
