//! What a line has of a plain scalar.
ghost use Rattle.std.specs.Prelude.{ℕ, ◌≡◌, ◌+◌, ◌-◌, ◌<◌, ◌≤◌, ◌||◌, length, take, drop, slice_index, true, false, not};
ghost use Rattle.std.specs.Str.{IsCharBoundary};
ghost use Rattle.yaml_scalars.specs.Lines.{begins_with, indent, lead, is_white, trimmed};
ghost use Rattle.yaml_scalars.specs.code.Walk.{line_at};
ghost use Rattle.yaml_scalars.specs.Plain.{is_flow_mark, is_indicator, is_doubtful, is_unsafe, begins_plain, wrong_begin, plain_len, why, return_shown, content_at, below, above_of};
ghost use Rattle.yaml_scalars.specs.code.PlainSteps.{stops_at, EndsAtOnce};

use crate::lines::{ends_line, is_blank, is_mark, is_white, spaces, whites};
use crate::scalar::Setting;

/// Why a plain scalar ends on its line.
#[derive(Clone, Copy)]
pub enum Why {
    Break,
    Return,
    Colon,
    Comment,
    Mark,
}

/// What a line below is for a plain scalar; of a further line, how many bytes stand before its content.
#[derive(Clone, Copy)]
pub enum Below {
    Blank,
    Outside,
    Further(usize),
}

fn is_flow_mark(byte: u8) -> bool
    ensures { result ≡ is_flow_mark byte }
{
    matches!(byte, b',' | b'[' | b']' | b'{' | b'}')
}

fn is_indicator(byte: u8) -> bool
    ensures { result ≡ is_indicator byte }
{
    is_flow_mark(byte)
        || matches!(
            byte,
            b'#' | b'&' | b'*' | b'!' | b'|' | b'>' | b'\'' | b'"' | b'%' | b'@' | b'`'
        )
}

fn is_doubtful(byte: u8) -> bool
    ensures { result ≡ is_doubtful byte }
{
    matches!(byte, b'-' | b'?' | b':')
}

/// Whether white space, the line's end or in flow one of its marks stands at a place.
fn is_unsafe(bytes: &[u8], at: usize, flow: bool) -> bool
    requires { at ≤ length bytes.now }
    ensures { result ≡ is_unsafe flow (line_at (drop at bytes.now)) }
{
    ends_line(bytes, at) || is_white(bytes[at]) || (flow && is_flow_mark(bytes[at]))
}

/// Whether a byte stands at a place that makes content of - ? : before it.
fn is_safe(bytes: &[u8], at: usize, flow: bool) -> bool
    requires { at ≤ length bytes.now }
    ensures { result ≡ not (is_unsafe flow (line_at (drop at bytes.now)) || begins_with 13 (line_at (drop at bytes.now))) }
{
    !is_unsafe(bytes, at, flow) && bytes[at] != b'\r'
}

/// Whether a plain scalar begins at a place.
pub(crate) fn begins_plain(bytes: &[u8], at: usize, flow: bool) -> bool
    requires { at < length bytes.now }
    ensures { result ≡ begins_plain flow (line_at (drop at bytes.now)) }
{
    if ends_line(bytes, at) {
        return false;
    }
    let first = bytes[at];
    if is_white(first) || is_indicator(first) || first == b'\r' {
        return false;
    }
    !is_doubtful(first) || is_safe(bytes, at + 1, flow)
}

/// The place that shows that no plain scalar begins.
pub(crate) fn wrong_begin(bytes: &[u8], at: usize) -> usize
    requires { at < length bytes.now }
    ensures place { result ≡ wrong_begin at (line_at (drop at bytes.now)) }
    ensures within { result ≤ at + 1 }
{
    if !ends_line(bytes, at) && is_doubtful(bytes[at]) {
        at + 1
    } else {
        at
    }
}

/// Whether a plain scalar ends before a place, behind white space or not.
fn stops_at(bytes: &[u8], at: usize, flow: bool, white: bool) -> bool
    requires { at < length bytes.now }
    ensures { result ≡ stops_at flow white (drop at bytes.now) }
{
    match bytes[at] {
        b'\n' | b'\r' => true,
        b':' => is_unsafe(bytes, at + 1, flow),
        b'#' => white,
        byte => flow && is_flow_mark(byte),
    }
}

/// Whether a byte stands at a place that ends a plain scalar in flow, and is no break.
pub(crate) fn ends_at_once(bytes: &[u8], at: usize) -> bool
    requires { at ≤ length bytes.now }
    ensures { result ≡ true → EndsAtOnce (line_at (drop at bytes.now)) }
{
    if at == bytes.len() {
        return false;
    }
    match bytes[at] {
        b':' => is_unsafe(bytes, at + 1, true),
        byte => is_flow_mark(byte),
    }
}

/// Where a plain scalar ends on the line of a place, white space before it counted.
pub(crate) fn plain_end(bytes: &[u8], start: usize, flow: bool) -> usize
    requires { start ≤ length bytes.now }
    ensures end { result ≡ start + plain_len flow false (line_at (drop start bytes.now)) }
    ensures within { result ≤ length bytes.now }
    ensures edge { result < length bytes.now → slice_index bytes.now result < 128 }
{
    let mut white = false;
    for i in start..bytes.len() {
        if stops_at(bytes, i, flow, white) {
            return i;
        }
        white = is_white(bytes[i]);
    }
    bytes.len()
}

/// Why a plain scalar ends at a place.
pub(crate) fn why_at(bytes: &[u8], stop: usize) -> Why
    requires { stop ≤ length bytes.now }
    ensures { result ≡ why (line_at (drop stop bytes.now)) }
{
    if ends_line(bytes, stop) {
        return Why::Break;
    }
    match bytes[stop] {
        b'\r' => Why::Return,
        b':' => Why::Colon,
        b'#' => Why::Comment,
        _ => Why::Mark,
    }
}

/// The place at which a carriage return shows that a further line fails, whose content begins at a place: behind it,
/// where a line feed could stand, or at it, where a line feed would make the line a key.
pub(crate) fn return_shown(bytes: &[u8], begin: usize, stop: usize, flow: bool) -> usize
    requires order { stop ≡ begin + plain_len flow false (line_at (drop begin bytes.now)) }
    requires within { stop ≤ length bytes.now }
    ensures place { result ≡ return_shown flow (line_at (drop begin bytes.now)) begin }
    ensures end { result ≤ stop + 1 }
{
    if !flow && begin < stop && bytes[stop - 1] == b':' {
        return stop;
    }
    stop + 1
}

/// The least indentation of a further line in block.
fn above_of(setting: Setting) -> usize
    ensures { result ≡ above_of setting.parent }
{
    if setting.parent < 0 {
        0
    } else {
        setting.parent as usize + 1
    }
}

/// Whether a line has a byte at a place, which begins no break.
pub(crate) fn begins_with(bytes: &[u8], at: usize, byte: u8) -> bool
    requires within { at ≤ length bytes.now }
    requires inside { (byte ≡ 10 → ⊥) × (byte ≡ 13 → ⊥) }
    ensures is { result ≡ begins_with byte (line_at (drop at bytes.now)) }
    ensures here { result ≡ true → (at < length bytes.now) × (slice_index bytes.now at ≡ byte) }
{
    at < bytes.len() && bytes[at] == byte
}

/// What the byte behind the white space of a line makes of it.
fn content_at(bytes: &[u8], at: usize, skip: usize) -> Below
    requires { at ≤ length bytes.now }
    ensures { result ≡ content_at skip (line_at (drop at bytes.now)) }
{
    if begins_with(bytes, at, b'#') {
        Below::Outside
    } else {
        Below::Further(skip)
    }
}

/// What the line that begins at a place is for a plain scalar.
pub(crate) fn below_at(bytes: &[u8], start: usize, setting: Setting) -> Below
    requires { start ≤ length bytes.now }
    ensures { result ≡ below setting (line_at (drop start bytes.now)) }
{
    if is_blank(bytes, start) {
        return Below::Blank;
    }
    if is_mark(bytes, start) {
        return Below::Outside;
    }
    if setting.flow {
        let skip = whites(bytes, start);
        return content_at(bytes, start + skip, skip);
    }
    let skip = spaces(bytes, start);
    if skip < above_of(setting) {
        return Below::Outside;
    }
    if begins_with(bytes, start + skip, b'\t') {
        return Below::Outside;
    }
    content_at(bytes, start + skip, skip)
}
