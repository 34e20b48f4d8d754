//! What a place has ahead, behind white space, comments and breaks.
ghost use Rattle.std.specs.Prelude.{◌≡◌, ◌≤◌, ◌<◌, ◌+◌, ◌||◌, ℕ, slice_index, nat_lt, nat_eq, true, false, length, drop};
ghost use Rattle.std.specs.Str.{IsCharBoundary};
ghost use Rattle.yaml_scalars.specs.code.Limits.{text_limit};
ghost use Rattle.yaml_scalars.specs.Lines.{lines, begins_with, is_end, is_mark, lead};
ghost use Rattle.yaml_scalars.specs.Plain.{is_flow_mark, is_unsafe};
ghost use Rattle.yaml_scalars.specs.code.Walk.{line_at};
ghost use Rattle.yaml_grammar.specs.Ahead.{is_letter, is_name, begins_letter, ends_tag, tag_token, other_token, block_token, tab_token, token_of, token_at, mark_of, has_return, is_passed, is_tabbed, content_ahead, line_ahead, rest_ahead, ahead};
ghost use Rattle.yaml_grammar.specs.code.Steps.{IsSeen};

use yaml_grammar::{Ahead, Token};
use yaml_scalars::lines::{
    ends_line, is_blank, is_end, is_first_column, is_mark, is_white, next_line, spaces, whites,
};

/// Whether a byte is one of the marks of flow: `, [ ] { }`.
fn is_flow_mark(byte: u8) -> bool
    ensures { result ≡ is_flow_mark byte }
{
    matches!(byte, b',' | b'[' | b']' | b'{' | b'}')
}

/// Whether what stands at a place may follow the colon of a plain key.
fn is_loose(bytes: &[u8], at: usize) -> bool
    requires { at ≤ length bytes.now }
    ensures { result ≡ is_unsafe true (line_at (drop at bytes.now)) }
{
    if ends_line(bytes, at) {
        return true;
    }
    let byte = bytes[at];
    is_white(byte) || is_flow_mark(byte)
}

fn is_letter(byte: u8) -> bool
    ensures { result ≡ is_letter byte }
{
    (65 <= byte && byte < 91) || (97 <= byte && byte < 123)
}

/// Whether a byte may stand in a tag's name.
fn is_name(byte: u8) -> bool
    ensures { result ≡ is_name byte }
{
    is_letter(byte) || (48 <= byte && byte < 58)
}

/// How many letters and digits stand at a place.
pub fn name_len(bytes: &[u8], start: usize) -> usize
    requires { start ≤ length bytes.now }
    ensures count { result ≡ lead is_name (line_at (drop start bytes.now)) }
    ensures within { start + result ≤ length bytes.now }
{
    for i in start..bytes.len() {
        if !is_name(bytes[i]) {
            return i - start;
        }
    }
    bytes.len() - start
}

/// Whether a letter stands at a place.
fn begins_letter(bytes: &[u8], at: usize) -> bool
    requires { at ≤ length bytes.now }
    ensures { result ≡ begins_letter (line_at (drop at bytes.now)) }
{
    !ends_line(bytes, at) && is_letter(bytes[at])
}

/// Whether a byte ends an entry between brackets: `, ] }`.
fn ends_entry(byte: u8) -> bool
    ensures { result ≡ (nat_eq byte 44 || (nat_eq byte 93 || nat_eq byte 125)) }
{
    matches!(byte, b',' | b']' | b'}')
}

/// Whether what stands at a place may follow a tag's name.
fn ends_tag(bytes: &[u8], flow: bool, at: usize) -> bool
    requires { at ≤ length bytes.now }
    ensures { result ≡ ends_tag flow (line_at (drop at bytes.now)) }
{
    if is_end(bytes, at) {
        return true;
    }
    flow && ends_entry(bytes[at])
}

/// The token of a `!` by what stands behind it.
fn tag_token(bytes: &[u8], flow: bool, start: usize) -> Token
    requires { start ≤ length bytes.now }
    ensures is { result ≡ tag_token flow (line_at (drop start bytes.now)) }
    ensures within { (len : ℕ) → result ≡ Token.Tag len → start + len ≤ length bytes.now }
{
    if !begins_letter(bytes, start) {
        return Token::NoTag;
    }
    let len = name_len(bytes, start);
    if !ends_tag(bytes, flow, start + len) {
        return Token::NoTag;
    }
    Token::Tag { len }
}

/// The token of a byte that no other rule has.
fn other_token(byte: u8) -> Token
    ensures is { result ≡ other_token byte }
    ensures no_tag { (len : ℕ) → result ≡ Token.Tag len → ⊥ }
{
    match byte {
        b'&' | b'*' => Token::Anchor,
        b'%' => Token::Percent,
        b'#' | b'\r' => Token::Stray,
        _ => Token::Other,
    }
}

/// The token of a byte outside of flow that is no bracket.
fn block_token(bytes: &[u8], at: usize) -> Token
    requires { at < length bytes.now }
    ensures within { (len : ℕ) → result ≡ Token.Tag len → at + len < length bytes.now }
    ensures is { result ≡ block_token (slice_index bytes.now at) (line_at (drop (at + 1) bytes.now)) }
{
    match bytes[at] {
        b'-' if is_end(bytes, at + 1) => Token::Dash,
        b':' if is_end(bytes, at + 1) => Token::Point { loose: true },
        b'!' => tag_token(bytes, false, at + 1),
        byte => other_token(byte),
    }
}

/// The token of a byte.
fn token_of(bytes: &[u8], at: usize, flow: bool) -> Token
    requires { at ≤ length bytes.now }
    ensures is { result ≡ token_of flow (line_at (drop at bytes.now)) }
    ensures within { (len : ℕ) → result ≡ Token.Tag len → at + len < length bytes.now }
{
    if ends_line(bytes, at) {
        return Token::Other;
    }
    match bytes[at] {
        b'[' => Token::Opens { map: false },
        b'{' => Token::Opens { map: true },
        b']' if flow => Token::Closes { map: false },
        b'}' if flow => Token::Closes { map: true },
        b',' if flow => Token::Comma,
        b':' if flow => Token::Point {
            loose: is_loose(bytes, at + 1),
        },
        b'!' if flow => tag_token(bytes, true, at + 1),
        byte if flow => other_token(byte),
        _ => block_token(bytes, at),
    }
}

/// Whether the line of a place has a carriage return that is in no break.
fn has_return(bytes: &[u8], start: usize) -> bool
    requires { start ≤ length bytes.now }
    ensures { result ≡ has_return (line_at (drop start bytes.now)) }
{
    for i in start..bytes.len() {
        if ends_line(bytes, i) {
            return false;
        }
        if bytes[i] == b'\r' {
            return true;
        }
    }
    false
}

/// Whether a comment may begin behind so much white space: at a line's start, or behind some.
fn may_comment(fresh: bool, white: usize) -> bool
    ensures { result ≡ (fresh || nat_lt 0 white) }
{
    fresh || white > 0
}

/// Whether the rest of a line is passed over: white space, or a comment.
fn is_passed(bytes: &[u8], start: usize, fresh: bool) -> bool
    requires { start ≤ length bytes.now }
    ensures { result ≡ is_passed fresh (line_at (drop start bytes.now)) }
{
    if is_blank(bytes, start) {
        return true;
    }
    let white = whites(bytes, start);
    if !may_comment(fresh, white) {
        return false;
    }
    if !begins_comment(bytes, start + white) {
        return false;
    }
    !has_return(bytes, start)
}

/// Whether a `#` stands at a place.
fn begins_comment(bytes: &[u8], at: usize) -> bool
    requires { at ≤ length bytes.now }
    ensures { result ≡ begins_with 35 (line_at (drop at bytes.now)) }
{
    !ends_line(bytes, at) && bytes[at] == b'#'
}

fn token_at(token: Token, fresh: bool, column: usize, at: usize) -> Ahead
    requires small { at ≤ text_limit }
    requires within { (len : ℕ) → token ≡ Token.Tag len → len ≤ text_limit }
    ensures { result ≡ token_at token fresh column at }
{
    let len = match token {
        Token::End
        | Token::NoTag
        | Token::Anchor
        | Token::Percent
        | Token::Tabbed
        | Token::Stray
        | Token::Other => 0,
        Token::Dashes | Token::Dots => 3,
        Token::Tag { len } => len + 1,
        Token::Dash
        | Token::Opens { .. }
        | Token::Closes { .. }
        | Token::Comma
        | Token::Point { .. } => 1,
    };
    Ahead {
        token,
        fresh,
        column,
        at,
        behind: at + len,
    }
}

/// The mark that begins a line.
fn mark_ahead(bytes: &[u8], start: usize) -> Ahead
    requires small { length bytes.now ≤ text_limit }
    requires mark { is_mark (line_at (drop start bytes.now)) ≡ true }
    requires within { start < length bytes.now }
    ensures { result ≡ token_at (mark_of (line_at (drop start bytes.now))) true 0 start }
{
    if bytes[start] == b'-' {
        return token_at(Token::Dashes, true, 0, start);
    }
    token_at(Token::Dots, true, 0, start)
}

/// Whether a tab stands in the white space in front of a line outside of flow.
fn is_tabbed(bytes: &[u8], flow: bool, start: usize) -> bool
    requires { start ≤ length bytes.now }
    ensures { result ≡ is_tabbed flow (line_at (drop start bytes.now)) }
{
    if flow {
        return false;
    }
    spaces(bytes, start) < whites(bytes, start)
}

/// What a tab in the white space in front of a line is, by the place behind that white space.
fn tab_token(bytes: &[u8], at: usize) -> Token
    requires { at ≤ length bytes.now }
    ensures { result ≡ tab_token (line_at (drop at bytes.now)) }
{
    if ends_line(bytes, at) {
        return Token::Tabbed;
    }
    match bytes[at] {
        b'#' | b'\r' => Token::Stray,
        _ => Token::Tabbed,
    }
}

/// What a line has behind the white space in front.
fn content_ahead(bytes: &[u8], flow: bool, start: usize) -> Ahead
    requires small { length bytes.now ≤ text_limit }
    requires within { start ≤ length bytes.now }
    ensures { result ≡ content_ahead flow start (line_at (drop start bytes.now)) }
{
    if is_tabbed(bytes, flow, start) {
        let column = spaces(bytes, start);
        let token = tab_token(bytes, start + whites(bytes, start));
        return token_at(token, true, column, start + column);
    }
    let column = whites(bytes, start);
    let at = start + column;
    token_at(token_of(bytes, at, flow), true, column, at)
}

/// What is ahead of a line's start.
fn line_ahead(bytes: &[u8], flow: bool, start: usize) -> Ahead
    requires small { length bytes.now ≤ text_limit }
    requires within { start ≤ length bytes.now }
    ensures { result ≡ line_ahead flow (length bytes.now) (lines start (drop start bytes.now)) }
{
    let mut at = start;
    while at <= bytes.len() {
        if is_mark(bytes, at) {
            return mark_ahead(bytes, at);
        }
        if !is_passed(bytes, at, true) {
            return content_ahead(bytes, flow, at);
        }
        match next_line(bytes, at) {
            Some(next) => at = next,
            None => return token_at(Token::End, true, 0, bytes.len()),
        }
    }
    unreachable!()
}

/// What is ahead of a place inside a line.
fn rest_ahead(bytes: &[u8], flow: bool, start: usize) -> Ahead
    requires small { length bytes.now ≤ text_limit }
    requires within { start ≤ length bytes.now }
    ensures { result ≡ rest_ahead flow (length bytes.now) (lines start (drop start bytes.now)) }
{
    if !is_passed(bytes, start, false) {
        let white = whites(bytes, start);
        let at = start + white;
        return token_at(token_of(bytes, at, flow), false, white, at);
    }
    match next_line(bytes, start) {
        Some(next) => line_ahead(bytes, flow, next),
        None => token_at(Token::End, true, 0, bytes.len()),
    }
}

/// What a place of bytes has ahead, in flow or outside of it.
pub fn bytes_ahead(bytes: &[u8], flow: bool, at: usize) -> Ahead
    requires small { length bytes.now ≤ text_limit }
    requires within { at ≤ length bytes.now }
    ensures { result ≡ ahead bytes.now flow at }
{
    if is_first_column(bytes, at) {
        return line_ahead(bytes, flow, at);
    }
    rest_ahead(bytes, flow, at)
}

/// What a place of a text has ahead.
pub fn look(text: &str, flow: bool, at: usize) -> Ahead
    requires small { length text.now ≤ text_limit }
    requires boundary { IsCharBoundary text.now at }
    ensures { IsSeen text.now flow at result }
{
    bytes_ahead(text.as_bytes(), flow, at)
}
