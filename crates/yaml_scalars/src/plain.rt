//! Plain scalars.
ghost use Rattle.std.specs.Prelude.{ℕ, List, ◌≡◌, ◌+◌, ◌-◌, ◌<◌, ◌≤◌, ◌≤ℤ◌, length, drop, take, pos, negsuc, slice_index, IfOk, IfErr, IsErrOf, true, false, not, ◌&&◌, ◌||◌, string_bytes, Option, Some, None};
ghost use Rattle.std.specs.Str.{IsCharBoundary};
ghost use Rattle.std.specs.Cow.{cow_str_bytes};
ghost use Rattle.yaml_scalars.specs.code.Limits.{text_limit};
ghost use Rattle.yaml_scalars.specs.Lines.{Stands, is_mark, is_cut_mark};
ghost use Rattle.yaml_scalars.specs.code.Walk.{line_at};
ghost use Rattle.yaml_scalars.specs.Plain.{plain_len, joined, content_end, ends_on};
ghost use Rattle.yaml_scalars.specs.code.PlainSteps.{from, rest, LiesBehind, IsRefusal};
ghost use Rattle.yaml_scalars.specs.Scalar.{IsEndOf, Answers, HasKind, is_first_column, plain_scalar};
ghost use Rattle.yaml_scalars.specs.code.Memory.{fills_line};

use crate::kind::plain_kind;
use crate::lines::{is_cut_mark, is_first_column, is_mark, next_line, push_fold};
use crate::plain_line::{
    Below, Why, begins_plain, below_at, ends_at_once, plain_end, return_shown, why_at, wrong_begin,
};
use crate::scalar::{Scalar, ScalarRefusal, Setting};
use crate::trim::trim_end;
use doc_values::Kind;
use std::alloc::Global;
use std::borrow::CowStr;

/// A line that a plain scalar goes on over: where its content begins, and how many blank lines stand above it.
#[derive(Clone, Copy)]
pub(crate) struct FurtherLine {
    begin: usize,
    blanks: usize,
}

/// A plain scalar as far as it was read, and the line that it goes on over.
#[derive(Drop)]
pub(crate) struct Reading {
    text: String,
    end: usize,
    next: Option<FurtherLine>,
}

/// The scalar with a text and an end.
fn scalar<'s>(text: CowStr<'s>, end: usize, setting: Setting) -> Scalar<'s>
    ensures text { cow_str_bytes result.text ≡ cow_str_bytes text.entry }
    ensures end { result.end ≡ end }
    ensures kind { HasKind (not setting.one_line) (cow_str_bytes text.entry) result.kind }
{
    let kind = if setting.one_line {
        Kind::Text
    } else {
        plain_kind(text.as_str())
    };
    Scalar { kind, text, end }
}

/// The line that a scalar goes on over below the line of a place, if it adds to the scalar.
fn next_content(bytes: &[u8], place: usize, setting: Setting) -> Option<FurtherLine>
    requires { place ≤ length bytes.now }
    ensures rest { (t : List ℕ) (e : ℕ) → from setting bytes.now place t e 0 ≡ rest setting bytes.now result t e }
    ensures behind { LiesBehind bytes.now place result }
{
    let mut blanks = 0;
    let mut line = place;
    while let Some(start) = next_line(bytes, line) {
        match below_at(bytes, start, setting) {
            Below::Outside => return None,
            Below::Blank => {
                blanks += 1;
                line = start;
            }
            Below::Further(skip) => {
                let begin = start + skip;
                if setting.flow && ends_at_once(bytes, begin) {
                    return None;
                }
                return Some(FurtherLine { begin, blanks });
            }
        }
    }
    None
}

/// Appends the content of a further line, folded, which ends before a place with its white space.
fn push_content(
    text: &str,
    line: FurtherLine,
    stop: usize,
    flow: bool,
    reading: &mut Reading,
) -> Result<(), ScalarRefusal>
    requires begin { LiesBehind text.now 0 (Some line) }
    requires order { stop ≡ line.begin + plain_len flow false (line_at (drop line.begin text.now)) }
    requires within { stop ≤ length text.now }
    requires edge { stop < length text.now → slice_index text.now stop < 128 }
    ensures text { IfOk result (λ _. string_bytes reading.new.text ≡ joined flow (line_at (drop line.begin text.now)) (string_bytes reading.old.text) line.blanks) }
    ensures end { IfOk result (λ _. reading.new.end ≡ content_end flow (line_at (drop line.begin text.now)) line.begin) }
    ensures edge { (at : ℕ) → at < line.begin → IfOk result (λ _. IsEndOf text.now at reading.new.end) }
    ensures next { reading.new.next ≡ reading.old.next }
    ensures err { IfErr result (λ e. e ≡ ScalarRefusal.NoMemory) }
{
    let end = trim_end(text.as_bytes(), line.begin, stop);
    push_fold(&mut reading.text, line.blanks)?;
    reading.text.push_str(&text[line.begin..end])?;
    reading.end = end;
    Ok(())
}

/// Ends a scalar on a further line, in flow.
fn end_on(
    text: &str,
    line: FurtherLine,
    stop: usize,
    flow: bool,
    reading: &mut Reading,
) -> Result<(), ScalarRefusal>
    requires begin { LiesBehind text.now 0 (Some line) }
    requires order { stop ≡ line.begin + plain_len flow false (line_at (drop line.begin text.now)) }
    requires within { stop ≤ length text.now }
    requires edge { stop < length text.now → slice_index text.now stop < 128 }
    ensures ok { IfOk result (λ _. ends_on flow (line_at (drop line.begin text.now)) line.begin (string_bytes reading.old.text) reading.old.end line.blanks ≡ Stands (string_bytes reading.new.text) reading.new.end) }
    ensures next { IfOk result (λ _. reading.new.next ≡ None) }
    ensures edge { (at : ℕ) → at < line.begin → IsEndOf text.now at reading.old.end → IfOk result (λ _. IsEndOf text.now at reading.new.end) }
    ensures err { IfErr result (λ e. e ≡ ScalarRefusal.NoMemory) }
{
    reading.next = None;
    if stop == line.begin {
        return Ok(());
    }
    push_content(text, line, stop, flow, reading)
}

/// Adds a further line to a scalar.
fn add_line(
    text: &str,
    line: FurtherLine,
    reading: &mut Reading,
    setting: Setting,
) -> Result<(), ScalarRefusal>
    requires small { length text.now ≤ text_limit }
    requires begin { LiesBehind text.now 0 (Some line) }
    ensures ok { IfOk result (λ _. rest setting text.now (Some line) (string_bytes reading.old.text) reading.old.end ≡ rest setting text.now reading.new.next (string_bytes reading.new.text) reading.new.end) }
    ensures next { IfOk result (λ _. LiesBehind text.now line.begin reading.new.next) }
    ensures edge { (at : ℕ) → at < line.begin → IsEndOf text.now at reading.old.end → IfOk result (λ _. IsEndOf text.now at reading.new.end) }
    ensures err { IfErr result (λ e. IsRefusal (rest setting text.now (Some line) (string_bytes reading.old.text) reading.old.end) e) }
{
    let bytes = text.as_bytes();
    let stop = plain_end(bytes, line.begin, setting.flow);
    match why_at(bytes, stop) {
        Why::Return => {
            let shown = return_shown(bytes, line.begin, stop, setting.flow);
            Err(ScalarRefusal::Syntax(shown as u32))
        }
        Why::Break => {
            push_content(text, line, stop, setting.flow, reading)?;
            reading.next = next_content(bytes, stop, setting);
            Ok(())
        }
        Why::Comment => {
            reading.next = None;
            push_content(text, line, stop, setting.flow, reading)
        }
        Why::Colon if !setting.flow => Err(ScalarRefusal::Syntax(stop as u32 + 1)),
        Why::Colon => end_on(text, line, stop, setting.flow, reading),
        Why::Mark => end_on(text, line, stop, setting.flow, reading),
    }
}

/// Reads a scalar over its further lines.
fn read_lines(
    text: &str,
    reading: Reading,
    setting: Setting,
) -> Result<(String, usize), ScalarRefusal>
    requires small { length text.now ≤ text_limit }
    requires next { LiesBehind text.now 0 reading.next }
    ensures ok { IfOk result (λ r. rest setting text.now reading.next (string_bytes reading.text) reading.end ≡ Stands (string_bytes r.0) r.1) }
    ensures edge { (at : ℕ) → LiesBehind text.now at reading.next → IsEndOf text.now at reading.end → IfOk result (λ r. IsEndOf text.now at r.1) }
    ensures err { IfErr result (λ e. IsRefusal (rest setting text.now reading.next (string_bytes reading.text) reading.end) e) }
{
    let mut reading = reading;
    while let Some(line) = reading.next {
        match add_line(text, line, &mut reading, setting) {
            Ok(()) => {}
            Err(refusal) => return Err(refusal),
        }
    }
    Ok((reading.text, reading.end))
}

/// The scalar whose first line ends at a place, where it may go on over further lines.
fn goes_on<'s>(
    alloc: Global,
    text: &'s str,
    at: usize,
    end: usize,
    setting: Setting,
) -> Result<Scalar<'s>, ScalarRefusal>
    requires small { length text.now ≤ text_limit }
    requires boundary { IsCharBoundary text.now at }
    requires end { IsEndOf text.now at end }
    ensures answer { Answers (not setting.one_line) (from setting text.now at (take (end - at) (drop at text.now)) end 0) result }
    ensures end { IfOk result (λ s. IsEndOf text.now at s.end) }
{
    let first = &text[at..end];
    match next_content(text.as_bytes(), at, setting) {
        None => Ok(scalar(CowStr::Borrowed(first), end, setting)),
        Some(line) => {
            let reading = Reading {
                text: String::from_str(alloc, first)?,
                end,
                next: Some(line),
            };
            match read_lines(text, reading, setting) {
                Ok((text, end)) => Ok(scalar(CowStr::Owned(text), end, setting)),
                Err(refusal) => Err(refusal),
            }
        }
    }
}

/// Whether a mark between documents begins at a place, at the first column of a line, or its bytes and a carriage return.
fn is_mark_at(bytes: &[u8], at: usize) -> bool
    requires { at ≤ length bytes.now }
    ensures { result ≡ (is_first_column bytes.now at && (is_mark (line_at (drop at bytes.now)) || is_cut_mark (line_at (drop at bytes.now)))) }
{
    is_first_column(bytes, at) && (is_mark(bytes, at) || is_cut_mark(bytes, at))
}

/// The plain scalar that begins at a place. It takes memory only where it may go on over further lines.
pub(crate) fn read_plain<'s>(
    alloc: Global,
    text: &'s str,
    at: usize,
    setting: Setting,
) -> Result<Scalar<'s>, ScalarRefusal>
    requires within { at < length text.now }
    requires small { length text.now ≤ text_limit }
    requires boundary { IsCharBoundary text.now at }
    requires low { negsuc 0 ≤ℤ setting.parent }
    requires high { setting.parent ≤ℤ pos text_limit }
    ensures answer { Answers (not setting.one_line) (plain_scalar setting text.now at) result }
    ensures end { IfOk result (λ s. IsEndOf text.now at s.end) }
    ensures memory { IsErrOf result ScalarRefusal.NoMemory → fills_line setting (line_at (drop at text.now)) ≡ true }
{
    let bytes = text.as_bytes();
    if is_mark_at(bytes, at) {
        return Err(ScalarRefusal::Syntax(at as u32 + 3));
    }
    if !begins_plain(bytes, at, setting.flow) {
        return Err(ScalarRefusal::Syntax(wrong_begin(bytes, at) as u32));
    }
    let stop = plain_end(bytes, at, setting.flow);
    let end = trim_end(bytes, at, stop);
    match why_at(bytes, stop) {
        Why::Return => Err(ScalarRefusal::Syntax(stop as u32 + 1)),
        Why::Break if !setting.one_line => goes_on(alloc, text, at, end, setting),
        _ => Ok(scalar(CowStr::Borrowed(&text[at..end]), end, setting)),
    }
}
