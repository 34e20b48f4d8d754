//! Block scalars.
ghost use Rattle.std.specs.Prelude.{ℕ, ◌≡◌, ◌⊎◌, ◌+◌, ◌-◌, ◌<◌, ◌≤◌, ◌≤ℤ◌, ◌++◌, Bool, List, [], None, Some, length, drop, slice_index, pos, negsuc, IfOk, IsErrOf, true, false, not, MatchOption, string_bytes};
ghost use Rattle.std.specs.Str.{IsCharBoundary};
ghost use Rattle.std.specs.Cow.{cow_str_bytes};
ghost use Rattle.yaml_scalars.specs.code.Limits.{text_limit};
ghost use Rattle.yaml_scalars.specs.Lines.{is_blank, lines};
ghost use Rattle.yaml_scalars.specs.Block.{is_content, taken_off, joint, ending, inner_of, widest, mark_len, may_end, shown, base_of, by_digit};
ghost use Rattle.yaml_scalars.specs.Plain.{above_of};
ghost use Rattle.yaml_scalars.specs.code.Walk.{line_at, has_break, behind};
ghost use Rattle.yaml_scalars.specs.code.BlockSteps.{chomp_seen, last_seen, inner_seen, wide_at, content_from, blank_from, text_more, last_more, count_more};
ghost use Rattle.yaml_scalars.specs.Scalar.{IsEndOf, Answers, block_scalar};

use crate::header::{Chomp, Header, header_at, header_fault, return_behind};
use crate::lines::{
    ends_line, is_blank, is_mark, is_white, line_end, next_line, push_fold, push_newlines, spaces,
    whites,
};
use crate::scalar::{Scalar, ScalarRefusal, Setting};
use doc_values::Kind;
use std::alloc::{AllocError, Global};
use std::borrow::CowStr;

/// What stands above the lines of a block scalar.
#[derive(Clone, Copy)]
struct Opening {
    folded: bool,
    header: Header,
}

/// How the lines of a block scalar become its text.
#[derive(Clone, Copy)]
struct Style {
    folded: bool,
    chomp: Chomp,
    /// The indentation of the content.
    inner: usize,
}

/// The last line of a block scalar that is not empty.
#[derive(Clone, Copy)]
struct Last {
    /// Whether it begins with white space.
    white: bool,
    /// Whether it has a break.
    broken: bool,
}

/// What is read of a block scalar.
#[derive(Drop)]
struct Reading {
    text: String,
    last: Option<Last>,
    /// The breaks of the empty lines since.
    empties: usize,
}

/// The indentation of the content, by its lines.
#[derive(Clone, Copy)]
enum Inner {
    /// There are only blank lines.
    Nothing,
    /// A blank line is too wide, which this place shows.
    Wide(usize),
    Indented(usize),
}

/// Whether the line at a place belongs to content of an indentation.
fn is_content(bytes: &[u8], start: usize, inner: usize) -> bool
    requires { start ≤ length bytes.now }
    ensures { result ≡ is_content inner (line_at (drop start bytes.now)) }
{
    if is_mark(bytes, start) {
        return false;
    }
    if is_blank(bytes, start) {
        return true;
    }
    inner <= spaces(bytes, start)
}

/// Where a line of the content goes on behind its indentation: at its end, if it is blank and has less.
fn content_start(text: &str, start: usize, inner: usize) -> usize
    requires within { start ≤ length text.now }
    requires content { is_content inner (line_at (drop start text.now)) ≡ true }
    requires boundary { IsCharBoundary text.now start }
    ensures part { line_at (drop result text.now) ≡ taken_off inner (line_at (drop start text.now)) }
    ensures line { start + length (line_at (drop start text.now)) ≡ result + length (line_at (drop result text.now)) }
    ensures within { (start ≤ result) × (result ≤ length text.now) }
    ensures boundary { IsCharBoundary text.now result }
{
    let bytes = text.as_bytes();
    if inner <= spaces(bytes, start) {
        return start + inner;
    }
    line_end(bytes, start)
}

/// Appends what joins a line to the last one that is not empty.
fn push_joint(
    text: &mut String,
    folded: bool,
    last: Option<Last>,
    white: bool,
    empties: usize,
) -> Result<(), AllocError>
    requires { empties ≤ 8388610 }
    ensures { IfOk result (λ _. string_bytes text.new ≡ string_bytes text.old ++ joint folded (last_seen last) white empties) }
{
    match last {
        None => push_newlines(text, empties),
        Some(line) => {
            if folded && !line.white && !white {
                return push_fold(text, empties);
            }
            push_newlines(text, empties + 1)
        }
    }
}

/// Appends the line breaks that are kept at the end.
fn push_ending(
    text: &mut String,
    chomp: Chomp,
    last: Option<Last>,
    empties: usize,
) -> Result<(), AllocError>
    requires { empties ≤ 8388610 }
    ensures { IfOk result (λ _. string_bytes text.new ≡ string_bytes text.old ++ ending (chomp_seen chomp) (last_seen last) empties) }
{
    match chomp {
        Chomp::Strip => Ok(()),
        Chomp::Clip => match last {
            None => Ok(()),
            Some(line) => {
                if line.broken {
                    return push_newlines(text, 1);
                }
                Ok(())
            }
        },
        Chomp::Keep => match last {
            None => push_newlines(text, empties),
            Some(line) => {
                if line.broken {
                    return push_newlines(text, empties + 1);
                }
                push_newlines(text, empties)
            }
        },
    }
}

/// Adds a line of the content, which begins behind its indentation.
fn add_line(
    text: &str,
    begin: usize,
    broken: bool,
    folded: bool,
    reading: &mut Reading,
) -> Result<(), AllocError>
    requires begin { IsCharBoundary text.now begin }
    requires few { reading.old.empties ≤ text_limit }
    ensures text { IfOk result (λ _. string_bytes reading.new.text ≡ text_more folded (last_seen reading.old.last) reading.old.empties (string_bytes reading.old.text) (line_at (drop begin text.now))) }
    ensures last { IfOk result (λ _. last_seen reading.new.last ≡ last_more (last_seen reading.old.last) broken (line_at (drop begin text.now))) }
    ensures empties { IfOk result (λ _. reading.new.empties ≡ count_more reading.old.empties broken (line_at (drop begin text.now))) }
    ensures few { IfOk result (λ _. reading.new.empties ≤ reading.old.empties + 1) }
{
    let bytes = text.as_bytes();
    let end = line_end(bytes, begin);
    if begin == end {
        if broken {
            reading.empties += 1;
        }
        return Ok(());
    }
    let white = is_white(bytes[begin]);
    push_joint(
        &mut reading.text,
        folded,
        reading.last,
        white,
        reading.empties,
    )?;
    reading.text.push_str(&text[begin..end])?;
    reading.last = Some(Last { white, broken });
    reading.empties = 0;
    Ok(())
}

/// The scalar that ends before a place, with what was read of it.
fn finish<'s>(reading: Reading, chomp: Chomp, end: usize) -> Result<Scalar<'s>, AllocError>
    requires { reading.empties ≤ 8388610 }
    ensures text { IfOk result (λ s. cow_str_bytes s.text ≡ string_bytes reading.text ++ ending (chomp_seen chomp) (last_seen reading.last) reading.empties) }
    ensures end { IfOk result (λ s. s.end ≡ end) }
    ensures kind { IfOk result (λ s. s.kind ≡ Kind.Text) }
{
    let mut text = reading.text;
    push_ending(&mut text, chomp, reading.last, reading.empties)?;
    Ok(Scalar {
        kind: Kind::Text,
        text: CowStr::Owned(text),
        end,
    })
}

/// Reads the scalar whose content begins with the line at a place.
fn read_content<'s>(
    alloc: Global,
    text: &'s str,
    start: usize,
    style: Style,
) -> Result<Scalar<'s>, ScalarRefusal>
    requires within { start ≤ length text.now }
    requires small { length text.now ≤ text_limit }
    requires boundary { IsCharBoundary text.now start }
    ensures answer { Answers false (content_from style text.now start [] None 0) result }
    ensures end { IfOk result (λ s. (start ≤ s.end) × (s.end ≤ length text.now) × IsCharBoundary text.now s.end) }
{
    let bytes = text.as_bytes();
    let mut reading = Reading {
        text: String::new(alloc),
        last: None,
        empties: 0,
    };
    let mut place = start;
    while place <= bytes.len() {
        if !is_content(bytes, place, style.inner) {
            return Ok(finish(reading, style.chomp, place)?);
        }
        if let Some(fault) = return_behind(bytes, place) {
            return Err(ScalarRefusal::Syntax(fault as u32));
        }
        let begin = content_start(text, place, style.inner);
        match next_line(bytes, place) {
            None => {
                add_line(text, begin, false, style.folded, &mut reading)?;
                return Ok(finish(reading, style.chomp, bytes.len())?);
            }
            Some(behind) => {
                add_line(text, begin, true, style.folded, &mut reading)?;
                place = behind;
            }
        }
    }
    unreachable!()
}

/// Reads the scalar that has nothing but the blank lines from a place on.
fn read_blanks<'s>(
    alloc: Global,
    text: &'s str,
    start: usize,
    chomp: Chomp,
) -> Result<Scalar<'s>, ScalarRefusal>
    requires within { start ≤ length text.now }
    requires small { length text.now ≤ text_limit }
    requires boundary { IsCharBoundary text.now start }
    ensures answer { Answers false (blank_from chomp text.now start 0) result }
    ensures end { IfOk result (λ s. (start ≤ s.end) × (s.end ≤ length text.now) × IsCharBoundary text.now s.end) }
{
    let bytes = text.as_bytes();
    let mut reading = Reading {
        text: String::new(alloc),
        last: None,
        empties: 0,
    };
    let mut place = start;
    while place <= bytes.len() {
        if !is_blank(bytes, place) {
            return Ok(finish(reading, chomp, place)?);
        }
        match next_line(bytes, place) {
            None => return Ok(finish(reading, chomp, bytes.len())?),
            Some(behind) => {
                reading.empties += 1;
                place = behind;
            }
        }
    }
    unreachable!()
}

/// How many bytes at a place are those of a mark between documents.
fn mark_len(bytes: &[u8], start: usize) -> usize
    requires { start ≤ length bytes.now }
    ensures count { result ≡ mark_len (line_at (drop start bytes.now)) }
    ensures within { start + result ≤ length bytes.now }
{
    if start == bytes.len() {
        return 0;
    }
    let first = bytes[start];
    if first != b'-' && first != b'.' {
        return 0;
    }
    if start + 1 == bytes.len() || bytes[start + 1] != first {
        return 1;
    }
    if start + 2 == bytes.len() || bytes[start + 2] != first {
        return 2;
    }
    3
}

/// Whether a line may end behind so many bytes of a mark.
fn may_end(mark: usize) -> bool
    ensures { result ≡ may_end mark }
{
    mark == 0 || mark == 3
}

/// The place of the byte that shows that a line is neither blank nor a mark.
fn shown(bytes: &[u8], start: usize) -> usize
    requires { start ≤ length bytes.now }
    ensures place { result ≡ start + shown (line_at (drop start bytes.now)) }
    ensures within { result ≤ length bytes.now }
{
    let mark = mark_len(bytes, start);
    let place = start + whites(bytes, start) + mark;
    if ends_line(bytes, place) {
        return place;
    }
    if bytes[place] == b'\r' && may_end(mark) {
        return place + 1;
    }
    place
}

/// The indentation of content whose first line that is not blank is at a place, below blank lines so wide.
fn inner_by(bytes: &[u8], start: usize, above: usize, wide: usize) -> Inner
    requires within { start ≤ length bytes.now }
    requires line { is_blank (line_at (drop start bytes.now)) ≡ false }
    ensures seen { inner_seen result ≡ inner_of above wide (lines start (drop start bytes.now)) }
    ensures within { wide_at result ≤ length bytes.now }
{
    if is_mark(bytes, start) {
        return Inner::Nothing;
    }
    let indent = spaces(bytes, start);
    if indent < above {
        return Inner::Nothing;
    }
    if indent < wide {
        return Inner::Wide(shown(bytes, start));
    }
    Inner::Indented(indent)
}

fn widest(a: usize, b: usize) -> usize
    ensures { result ≡ widest a b }
{
    if a < b {
        return b;
    }
    a
}

/// The indentation of the content that begins with the line at a place.
fn inner_at(bytes: &[u8], start: usize, above: usize) -> Inner
    requires { start ≤ length bytes.now }
    ensures seen { inner_seen result ≡ inner_of above 0 (lines start (drop start bytes.now)) }
    ensures within { wide_at result ≤ length bytes.now }
{
    let mut wide = 0;
    let mut place = start;
    while place <= bytes.len() {
        if !is_blank(bytes, place) {
            return inner_by(bytes, place, above, wide);
        }
        wide = widest(wide, spaces(bytes, place));
        match next_line(bytes, place) {
            None => return Inner::Nothing,
            Some(behind) => place = behind,
        }
    }
    unreachable!()
}

/// The indentation from which a digit counts.
fn base(parent: i32) -> usize
    requires low { negsuc 0 ≤ℤ parent }
    requires high { parent ≤ℤ pos text_limit }
    ensures is { result ≡ base_of parent }
    ensures within { result ≤ text_limit }
{
    if parent < 0 {
        return 0;
    }
    parent as usize
}

/// The least indentation above that of the parent.
fn above(parent: i32) -> usize
    requires low { negsuc 0 ≤ℤ parent }
    requires high { parent ≤ℤ pos text_limit }
    ensures { result ≡ above_of parent }
{
    (parent + 1) as usize
}

/// Reads the scalar that opens like this and whose further lines begin at a place.
fn read_lines<'s>(
    alloc: Global,
    text: &'s str,
    start: usize,
    opening: Opening,
    parent: i32,
) -> Result<Scalar<'s>, ScalarRefusal>
    requires within { start ≤ length text.now }
    requires small { length text.now ≤ text_limit }
    requires boundary { IsCharBoundary text.now start }
    requires low { negsuc 0 ≤ℤ parent }
    requires high { parent ≤ℤ pos text_limit }
    ensures answer { Answers false (by_digit opening.folded parent (chomp_seen opening.header.chomp) (length text.now) opening.header.digit (lines start (drop start text.now))) result }
    ensures end { IfOk result (λ s. (start ≤ s.end) × (s.end ≤ length text.now) × IsCharBoundary text.now s.end) }
{
    let folded = opening.folded;
    let chomp = opening.header.chomp;
    if let Some(digit) = opening.header.digit {
        let inner = base(parent) + digit as usize;
        return read_content(
            alloc,
            text,
            start,
            Style {
                folded,
                chomp,
                inner,
            },
        );
    }
    match inner_at(text.as_bytes(), start, above(parent)) {
        Inner::Nothing => read_blanks(alloc, text, start, chomp),
        Inner::Wide(fault) => Err(ScalarRefusal::Syntax(fault as u32)),
        Inner::Indented(inner) => read_content(
            alloc,
            text,
            start,
            Style {
                folded,
                chomp,
                inner,
            },
        ),
    }
}

/// The block scalar that begins at a place. It takes memory only where a line stands below.
pub(crate) fn read_block<'s>(
    alloc: Global,
    text: &'s str,
    at: usize,
    setting: Setting,
) -> Result<Scalar<'s>, ScalarRefusal>
    requires within { at < length text.now }
    requires small { length text.now ≤ text_limit }
    requires boundary { IsCharBoundary text.now at }
    requires indicator { (slice_index text.now at ≡ 124) ⊎ (slice_index text.now at ≡ 62) }
    requires low { negsuc 0 ≤ℤ setting.parent }
    requires high { setting.parent ≤ℤ pos text_limit }
    ensures answer { Answers false (block_scalar setting text.now at) result }
    ensures end { IfOk result (λ s. IsEndOf text.now at s.end) }
    ensures memory { IsErrOf result ScalarRefusal.NoMemory → has_break (drop at text.now) ≡ true }
{
    let bytes = text.as_bytes();
    let header = header_at(bytes, at + 1);
    if let Some(fault) = header_fault(bytes, header.end) {
        return Err(ScalarRefusal::Syntax(fault as u32));
    }
    match next_line(bytes, at) {
        None => Err(ScalarRefusal::Syntax(bytes.len() as u32)),
        Some(start) => {
            let opening = Opening {
                folded: bytes[at] == b'>',
                header,
            };
            read_lines(alloc, text, start, opening, setting.parent)
        }
    }
}
