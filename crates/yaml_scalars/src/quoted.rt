//! Quoted scalars.
ghost use Rattle.std.specs.Prelude.{ℕ, Bool, List, ◌≡◌, ◌+◌, ◌-◌, ◌<◌, ◌≤◌, ◌≤ℤ◌, ◌⊎◌, ◌||◌, ◌&&◌, ◌++◌, ◌∷◌, [], suc, if◌then◌else◌, length, drop, slice_index, string_bytes, nat_lt, pos, negsuc, IfOk, true, false, not};
ghost use Rattle.yaml_scalars.specs.code.Limits.{text_limit};
ghost use Rattle.byte_lanes.specs.code.Members.{holds};
ghost use Rattle.yaml_scalars.specs.Lines.{Outcome, is_mark};
ghost use Rattle.yaml_scalars.specs.Quoted.{piece, Closes, gap};
ghost use Rattle.yaml_scalars.specs.code.QuotedSteps.{IsMeaning, Ends, is_special, from, past, below, GoesOn, Steps, IsRead};
ghost use Rattle.yaml_scalars.specs.Scalar.{IsEndOf, Answers, begins_quoted, quoted_scalar};
ghost use Rattle.yaml_scalars.specs.code.Walk.{line_at, has_break};

use crate::escape::{Meaning, escape_at};
use crate::lines::{
    ends_line, is_blank, is_cut_mark, is_mark, next_line, push_fold, push_newlines, whites,
};
use crate::plain_line::begins_with;
use crate::scalar::{Scalar, ScalarRefusal, Setting};
use crate::trim::trim_end;
use byte_lanes::{ByteSet, first_special};
use doc_values::Kind;
use std::alloc::{AllocError, Global};
use std::borrow::CowStr;

/// How the text between two quotes is read.
#[derive(Drop)]
struct QuotedStyle {
    quote: u8,
    one_line: bool,
    /// The bytes that do not stand for themselves.
    specials: ByteSet,
}

/// How reading goes on.
enum Step {
    /// At a place.
    Further(usize),
    /// Not at all: the scalar ends before a place.
    Closed(usize),
}

/// The bytes that end a run of bytes that stand for themselves between these quotes.
fn specials(quote: u8) -> ByteSet
    ensures { (b : ℕ) → holds result b ≡ is_special quote b }
{
    if quote == b'"' {
        ByteSet::of(b"\n\r\"\\")
    } else {
        ByteSet::of(b"\n\r'")
    }
}

/// Whether the line that begins at a place is a mark of another document: a longer text could make a line of a mark that
/// ends with the text.
fn opens_document(bytes: &[u8], line: usize) -> bool
    requires { line ≤ length bytes.now }
    ensures { result ≡ (is_mark (line_at (drop line bytes.now)) && (has_break (drop line bytes.now) || nat_lt 3 (length (line_at (drop line bytes.now))))) }
{
    is_mark(bytes, line) && bytes.len() - line > 3
}

/// Appends what the breaks between two lines stand for.
fn push_gap(decoded: &mut String, joined: bool, blanks: usize) -> Result<(), AllocError>
    ensures { IfOk result (λ _. string_bytes decoded.new ≡ string_bytes decoded.old ++ gap joined blanks) }
{
    if joined {
        push_newlines(decoded, blanks)
    } else {
        push_fold(decoded, blanks)
    }
}

/// Goes on where a line begins: behind its white space, if it has more.
fn read_below(
    bytes: &[u8],
    start: usize,
    joined: bool,
    decoded: &mut String,
) -> Result<usize, ScalarRefusal>
    requires inside { 0 < start }
    requires within { start ≤ length bytes.now }
    requires small { length bytes.now ≤ text_limit }
    requires feed { slice_index bytes.now (start - 1) ≡ 10 }
    ensures { (quote : ℕ) → GoesOn (below quote bytes.now start (string_bytes decoded.old) joined 0) quote false bytes.now (start - 1) (string_bytes decoded.new) result }
{
    let mut line = start;
    let mut blanks = 0;
    while is_blank(bytes, line) {
        match next_line(bytes, line) {
            None => return Err(ScalarRefusal::Syntax(bytes.len() as u32)),
            Some(next) => {
                line = next;
                blanks += 1;
            }
        }
    }
    if opens_document(bytes, line) {
        return Err(ScalarRefusal::ManyDocuments(line as u32));
    }
    if is_cut_mark(bytes, line) {
        return Err(ScalarRefusal::Syntax(line as u32 + 3));
    }
    push_gap(decoded, joined, blanks)?;
    Ok(line + whites(bytes, line))
}

/// Goes on where a line ends.
fn read_break(
    bytes: &[u8],
    end: usize,
    one_line: bool,
    joined: bool,
    decoded: &mut String,
) -> Result<usize, ScalarRefusal>
    requires within { end ≤ length bytes.now }
    requires small { length bytes.now ≤ text_limit }
    requires over { line_at (drop end bytes.now) ≡ [] }
    ensures { (quote : ℕ) → GoesOn (past quote one_line bytes.now end joined (string_bytes decoded.old)) quote one_line bytes.now end (string_bytes decoded.new) result }
{
    if one_line {
        return Err(ScalarRefusal::Syntax(end as u32));
    }
    match next_line(bytes, end) {
        None => Err(ScalarRefusal::Syntax(bytes.len() as u32)),
        Some(next) => read_below(bytes, next, joined, decoded),
    }
}

/// What a byte means that may not stand for itself.
fn meaning_at(bytes: &[u8], at: usize, quote: u8) -> Meaning
    requires within { at < length bytes.now }
    requires quote { (quote ≡ 34) ⊎ (quote ≡ 39) }
    requires special { is_special quote (slice_index bytes.now at) ≡ true }
    requires inside { line_at (drop at bytes.now) ≡ slice_index bytes.now at ∷ line_at (drop (at + 1) bytes.now) }
    ensures is { IsMeaning (piece quote (slice_index bytes.now at) (line_at (drop (at + 1) bytes.now))) result }
    ensures ends { Ends bytes.now (at + 1) result }
{
    match bytes[at] {
        b'\\' => escape_at(bytes, at + 1),
        b'"' => Meaning::Closes,
        b'\'' if begins_with(bytes, at + 1, b'\'') => Meaning::Is(1, '\''),
        b'\'' => Meaning::Closes,
        _ => Meaning::Returns(0),
    }
}

/// Where a break could stand, a carriage return shows its fault in the byte behind it.
fn return_fault(at: usize, one_line: bool) -> ScalarRefusal
    requires { at ≤ 8388620 }
    ensures { result ≡ ScalarRefusal.Syntax (if one_line then at else suc at) }
{
    ScalarRefusal::Syntax(if one_line { at as u32 } else { at as u32 + 1 })
}

/// Whether the closing quote stands at a place where a run ends.
fn closes(bytes: &[u8], stop: usize, quote: u8) -> bool
    requires within { stop ≤ length bytes.now }
    requires quote { (quote ≡ 34) ⊎ (quote ≡ 39) }
    ensures { result ≡ true → (stop < length bytes.now) × (slice_index bytes.now stop ≡ quote) × (piece quote quote (line_at (drop (stop + 1) bytes.now)) ≡ Closes) }
{
    if stop == bytes.len() || bytes[stop] != quote {
        return false;
    }
    quote == b'"' || !begins_with(bytes, stop + 1, quote)
}

/// A step to a place.
fn further(place: Result<usize, ScalarRefusal>) -> Result<Step, ScalarRefusal>
    ensures { (o : Outcome) (quote : ℕ) (one_line : Bool) (bytes : List ℕ) (at : ℕ) (text : List ℕ) → GoesOn o quote one_line bytes at text place → Steps o quote one_line bytes at text result }
{
    match place {
        Ok(place) => Ok(Step::Further(place)),
        Err(refusal) => Err(refusal),
    }
}

/// Reads a run of bytes that stand for themselves, and what ends it.
fn read_piece(
    text: &str,
    at: usize,
    style: &QuotedStyle,
    decoded: &mut String,
) -> Result<Step, ScalarRefusal>
    requires inside { 0 < at }
    requires within { at ≤ length text.now }
    requires small { length text.now ≤ text_limit }
    requires ascii { slice_index text.now (at - 1) < 128 }
    requires quote { (style.now.quote ≡ 34) ⊎ (style.now.quote ≡ 39) }
    requires specials { (b : ℕ) → holds style.now.specials b ≡ is_special style.now.quote b }
    ensures { Steps (from style.now.quote style.now.one_line text.now at (string_bytes decoded.old)) style.now.quote style.now.one_line text.now at (string_bytes decoded.new) result }
{
    let bytes = text.as_bytes();
    let stop = first_special(bytes, at, &style.specials);
    if ends_line(bytes, stop) {
        decoded.push_str(&text[at..trim_end(bytes, at, stop)])?;
        return further(read_break(bytes, stop, style.one_line, false, decoded));
    }
    decoded.push_str(&text[at..stop])?;
    match meaning_at(bytes, stop, style.quote) {
        Meaning::Closes => Ok(Step::Closed(stop + 1)),
        Meaning::Is(taken, character) => {
            decoded.push(character)?;
            Ok(Step::Further(stop + 1 + taken))
        }
        Meaning::Joins => further(read_break(bytes, stop + 1, style.one_line, true, decoded)),
        Meaning::Returns(behind) => Err(return_fault(stop + behind, style.one_line)),
        Meaning::Wrong(behind) => Err(ScalarRefusal::Syntax((stop + behind) as u32)),
    }
}

/// The text from a place on, and the place behind its closing quote.
fn decoded_from(
    alloc: Global,
    text: &str,
    start: usize,
    style: &QuotedStyle,
) -> Result<(String, usize), ScalarRefusal>
    requires inside { 0 < start }
    requires within { start ≤ length text.now }
    requires small { length text.now ≤ text_limit }
    requires ascii { slice_index text.now (start - 1) < 128 }
    requires quote { (style.now.quote ≡ 34) ⊎ (style.now.quote ≡ 39) }
    requires specials { (b : ℕ) → holds style.now.specials b ≡ is_special style.now.quote b }
    ensures { IsRead (from style.now.quote style.now.one_line text.now start []) text.now start result }
{
    let mut decoded = String::new(alloc);
    let mut at = start;
    while at < text.len() {
        match read_piece(text, at, style, &mut decoded) {
            Err(refusal) => return Err(refusal),
            Ok(step) => match step {
                Step::Further(place) => at = place,
                Step::Closed(end) => return Ok((decoded, end)),
            },
        }
    }
    Err(ScalarRefusal::Syntax(text.len() as u32))
}

/// The quoted scalar that begins at a place.
pub(crate) fn read_quoted<'s>(
    alloc: Global,
    text: &'s str,
    at: usize,
    setting: Setting,
) -> Result<Scalar<'s>, ScalarRefusal>
    requires within { at < length text.now }
    requires small { length text.now ≤ text_limit }
    requires quoted { begins_quoted (drop at text.now) ≡ true }
    ensures answer { Answers false (quoted_scalar setting text.now at) result }
    ensures end { IfOk result (λ s. IsEndOf text.now at s.end) }
{
    let bytes = text.as_bytes();
    let quote = bytes[at];
    let style = QuotedStyle {
        quote,
        one_line: setting.one_line,
        specials: specials(quote),
    };
    let stop = first_special(bytes, at + 1, &style.specials);
    if closes(bytes, stop, quote) {
        return Ok(Scalar {
            kind: Kind::Text,
            text: CowStr::Borrowed(&text[at + 1..stop]),
            end: stop + 1,
        });
    }
    match decoded_from(alloc, text, at + 1, &style) {
        Err(refusal) => Err(refusal),
        Ok((decoded, end)) => Ok(Scalar {
            kind: Kind::Text,
            text: CowStr::Owned(decoded),
            end,
        }),
    }
}
