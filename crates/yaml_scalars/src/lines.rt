//! Lines of a text, by places in it, for this reader and those above it. A line runs up to its break or to the text's
//! end; a break is a line feed, or a carriage return and a line feed (YAML 1.2.2, section 5.4). Places are byte offsets.
ghost use Rattle.std.specs.Prelude.{ℕ, ◌≡◌, ◌+◌, ◌<◌, ◌≤◌, ◌∷◌, [], ◌++◌, ◌-◌, length, drop, slice_index, true, false, IfOk, MatchOption, string_bytes};
ghost use Rattle.yaml_scalars.specs.Lines.{begins_with, is_space, is_white, lead, is_blank, is_end, is_mark, is_cut_mark, newlines, fold, lines};
ghost use Rattle.yaml_scalars.specs.Scalar.{begins_order_mark, is_first_column};
ghost use Rattle.yaml_scalars.specs.code.Walk.{ends_line, begins_mark, line_at, has_break, behind};

use std::alloc::AllocError;

/// Whether a line ends at a place: a break or the text's end is there.
pub fn ends_line(bytes: &[u8], at: usize) -> bool
    requires { at ≤ length bytes.now }
    ensures is { result ≡ ends_line (drop at bytes.now) }
    ensures over { result ≡ true → line_at (drop at bytes.now) ≡ [] }
    ensures more { result ≡ false → (at < length bytes.now) × (line_at (drop at bytes.now) ≡ slice_index bytes.now at ∷ line_at (drop (at + 1) bytes.now)) }
{
    if at == bytes.len() {
        return true;
    }
    match bytes[at] {
        b'\n' => true,
        b'\r' => at + 1 < bytes.len() && bytes[at + 1] == b'\n',
        _ => false,
    }
}

/// Where the line of a place ends.
pub fn line_end(bytes: &[u8], start: usize) -> usize
    requires { start ≤ length bytes.now }
    ensures end { result ≡ start + length (line_at (drop start bytes.now)) }
    ensures within { result ≤ length bytes.now }
{
    for i in start..bytes.len() {
        if ends_line(bytes, i) {
            return i;
        }
    }
    bytes.len()
}

/// Where the line below that of a place begins, if there is one.
pub fn next_line(bytes: &[u8], start: usize) -> Option<usize>
    requires { start ≤ length bytes.now }
    ensures { MatchOption result ((behind start (drop start bytes.now) ≡ []) × (has_break (drop start bytes.now) ≡ false)) (λ next. (has_break (drop start bytes.now) ≡ true) × (start < next) × (next ≤ length bytes.now) × (slice_index bytes.now (next - 1) ≡ 10) × (behind start (drop start bytes.now) ≡ lines next (drop next bytes.now))) }
{
    for i in start..bytes.len() {
        if bytes[i] == b'\n' {
            return Some(i + 1);
        }
    }
    None
}

/// How many spaces stand at a place.
pub fn spaces(bytes: &[u8], start: usize) -> usize
    requires { start ≤ length bytes.now }
    ensures count { result ≡ lead is_space (line_at (drop start bytes.now)) }
    ensures within { start + result ≤ length bytes.now }
{
    for i in start..bytes.len() {
        if bytes[i] != b' ' {
            return i - start;
        }
    }
    bytes.len() - start
}

pub fn is_white(byte: u8) -> bool
    ensures { result ≡ is_white byte }
{
    byte == b' ' || byte == b'\t'
}

/// How many spaces and tabs stand at a place.
pub fn whites(bytes: &[u8], start: usize) -> usize
    requires { start ≤ length bytes.now }
    ensures count { result ≡ lead is_white (line_at (drop start bytes.now)) }
    ensures within { start + result ≤ length bytes.now }
{
    for i in start..bytes.len() {
        if !is_white(bytes[i]) {
            return i - start;
        }
    }
    bytes.len() - start
}

/// Whether only white space stands from a place to the line's end.
pub fn is_blank(bytes: &[u8], start: usize) -> bool
    requires { start ≤ length bytes.now }
    ensures { result ≡ is_blank (line_at (drop start bytes.now)) }
{
    for i in start..bytes.len() {
        if ends_line(bytes, i) {
            return true;
        }
        if !is_white(bytes[i]) {
            return false;
        }
    }
    true
}

/// Whether white space or the line's end stands at a place.
pub fn is_end(bytes: &[u8], at: usize) -> bool
    requires { at ≤ length bytes.now }
    ensures { result ≡ is_end (line_at (drop at bytes.now)) }
{
    ends_line(bytes, at) || is_white(bytes[at])
}

/// Whether the line that begins at a place has the three bytes of a mark in front.
fn begins_mark(bytes: &[u8], start: usize) -> bool
    requires { start ≤ length bytes.now }
    ensures is { result ≡ begins_mark (line_at (drop start bytes.now)) }
    ensures within { result ≡ true → start + 3 ≤ length bytes.now }
{
    if bytes.len() - start < 3 {
        return false;
    }
    let first = bytes[start];
    if first != b'-' && first != b'.' {
        return false;
    }
    if bytes[start + 1] != first {
        return false;
    }
    bytes[start + 2] == first
}

/// Whether the line that begins at a place is a mark between documents.
pub fn is_mark(bytes: &[u8], start: usize) -> bool
    requires { start ≤ length bytes.now }
    ensures { result ≡ is_mark (line_at (drop start bytes.now)) }
{
    begins_mark(bytes, start) && is_end(bytes, start + 3)
}

/// Whether a carriage return stands at a place that is in no break.
fn is_return(bytes: &[u8], at: usize) -> bool
    requires { at ≤ length bytes.now }
    ensures { result ≡ begins_with 13 (line_at (drop at bytes.now)) }
{
    !ends_line(bytes, at) && bytes[at] == b'\r'
}

/// Whether the line that begins at a place has the bytes of a mark and then a carriage return, which a line feed would
/// make a mark.
pub(crate) fn is_cut_mark(bytes: &[u8], start: usize) -> bool
    requires { start ≤ length bytes.now }
    ensures { result ≡ is_cut_mark (line_at (drop start bytes.now)) }
{
    begins_mark(bytes, start) && is_return(bytes, start + 3)
}

fn begins_order_mark(bytes: &[u8]) -> bool
    ensures { result ≡ begins_order_mark bytes.now }
{
    bytes.len() >= 3 && bytes[0] == 239 && bytes[1] == 187 && bytes[2] == 191
}

/// Whether a place is the first column of a line.
pub fn is_first_column(bytes: &[u8], at: usize) -> bool
    requires { at ≤ length bytes.now }
    ensures { result ≡ is_first_column bytes.now at }
{
    at == 0 || (at == 3 && begins_order_mark(bytes)) || bytes[at - 1] == b'\n'
}

/// Appends newlines.
pub(crate) fn push_newlines(text: &mut String, count: usize) -> Result<(), AllocError>
    ensures { IfOk result (λ _. string_bytes text.new ≡ string_bytes text.old ++ newlines count) }
{
    let mut left = count;
    while left > 0 {
        text.push_str("\n")?;
        left -= 1;
    }
    Ok(())
}

/// Appends what the breaks between two lines fold to, with so many blank lines between.
pub(crate) fn push_fold(text: &mut String, blanks: usize) -> Result<(), AllocError>
    ensures { IfOk result (λ _. string_bytes text.new ≡ string_bytes text.old ++ fold blanks) }
{
    if blanks == 0 {
        text.push_str(" ")?;
        return Ok(());
    }
    push_newlines(text, blanks)
}
