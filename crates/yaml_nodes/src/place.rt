//! At which place a text shows that it is no document.
ghost use Rattle.std.specs.Prelude.{◌≡◌, ◌≤◌, ◌<◌, ◌+◌, ◌||◌, true, suc, nat_lt, length, drop, slice_index};
ghost use Rattle.std.specs.Str.{IsCharBoundary};
ghost use Rattle.yaml_scalars.specs.code.Limits.{text_limit};
ghost use Rattle.yaml_scalars.specs.Block.{same, widest};
ghost use Rattle.yaml_scalars.specs.code.Walk.{has_break};
ghost use Rattle.yaml_scalars.specs.Lines.{begins_with};
ghost use Rattle.yaml_grammar.specs.code.AheadSeen.{first_return};
ghost use Rattle.yaml_grammar.specs.code.Steps.{is_dash, is_open};
ghost use Rattle.yaml_grammar.specs.code.StopPlaces.{is_stray, run_width, byte_width, token_width, is_hidden, width, past_return, told_place, within, last_told, flow_place, dash_place, ends_in_dots, root_place, failed_place, refused_place, colon_place, ends_in_dash, torn_place, torn_stop};

use crate::ahead::name_len;
use crate::node::offset;
use crate::sign::is_ending;
use yaml_grammar::{Ahead, Stop, Token};
use yaml_scalars::ScalarRefusal;
use yaml_scalars::lines::whites;

/// Whether a token is a stray carriage return, or a comment that has one.
fn is_stray(token: Token) -> bool
    ensures { result ≡ is_stray token }
{
    match token {
        Token::Stray => true,
        _ => false,
    }
}

/// How many bytes there are from a place through the first carriage return, or through the last byte.
fn return_len(bytes: &[u8], start: usize) -> usize
    requires { start ≤ length bytes.now }
    ensures count { result ≡ first_return (drop start bytes.now) }
    ensures within { start + result ≤ length bytes.now }
{
    for i in start..bytes.len() {
        if bytes[i] == b'\r' {
            return i + 1 - start;
        }
    }
    bytes.len() - start
}

/// Whether a byte stands at a place.
pub fn has_byte(bytes: &[u8], at: usize, byte: u8) -> bool
    requires { at ≤ length bytes.now }
    ensures { result ≡ begins_with byte (drop at bytes.now) }
{
    at < bytes.len() && bytes[at] == byte
}

/// How many times the byte at a place stands there, three at most.
fn run_len(bytes: &[u8], at: usize) -> usize
    requires { at < length bytes.now }
    ensures count { result ≡ suc (same (slice_index bytes.now at) 2 (drop (at + 1) bytes.now)) }
    ensures within { at + result ≤ length bytes.now }
{
    let byte = bytes[at];
    if !has_byte(bytes, at + 1, byte) {
        return 1;
    }
    if !has_byte(bytes, at + 2, byte) {
        return 2;
    }
    3
}

/// The same, and one more behind the three bytes of a mark, if a carriage return stands there.
fn run_width(bytes: &[u8], at: usize, len: usize) -> usize
    requires within { at + len ≤ length bytes.now }
    requires some { at < length bytes.now }
    ensures is { result ≡ run_width len (drop (at + 1) bytes.now) }
    ensures within { result ≤ len + 1 }
{
    if len == 3 && has_byte(bytes, at + 3, b'\r') {
        return 4;
    }
    len
}

/// How many bytes from a token's first one, which stands at a place, stand before one that shows what it is.
fn byte_width(bytes: &[u8], at: usize) -> usize
    requires small { length bytes.now ≤ text_limit }
    requires within { at < length bytes.now }
    ensures is { result ≡ byte_width (slice_index bytes.now at) (drop (at + 1) bytes.now) }
    ensures within { at + result ≤ length bytes.now + 1 }
{
    match bytes[at] {
        b'!' => name_len(bytes, at + 1) + 1,
        b'-' | b'.' => run_width(bytes, at, run_len(bytes, at)),
        b':' | b'\r' => 1,
        _ => 0,
    }
}

/// The same where the text may end at the place.
fn token_width(bytes: &[u8], at: usize) -> usize
    requires small { length bytes.now ≤ text_limit }
    requires within { at ≤ length bytes.now }
    ensures is { result ≡ token_width (drop at bytes.now) }
    ensures within { at + result ≤ length bytes.now + 1 }
{
    if at == bytes.len() {
        return 0;
    }
    byte_width(bytes, at)
}

/// Whether a stray carriage return is looked for behind white space, or in a comment.
fn is_hidden(next: Ahead) -> bool
    ensures { result ≡ is_hidden next }
{
    is_stray(next.token) && (next.fresh || next.column > 0)
}

/// The same by the token.
fn width(bytes: &[u8], next: Ahead) -> usize
    requires small { length bytes.now ≤ text_limit }
    requires within { next.at ≤ length bytes.now }
    ensures is { result ≡ width next (drop next.at bytes.now) }
    ensures within { next.at + result ≤ length bytes.now + 1 }
{
    if is_hidden(next) {
        return return_len(bytes, next.at);
    }
    token_width(bytes, next.at)
}

/// A place, behind a carriage return the next one, or the text's length.
fn past_return(bytes: &[u8], place: usize) -> usize
    ensures is { result ≡ past_return bytes.now place }
    ensures within { result ≤ length bytes.now }
{
    if place >= bytes.len() {
        return bytes.len();
    }
    if bytes[place] == b'\r' {
        return place + 1;
    }
    place
}

/// A place at which a text shows what it has ahead, or its length.
pub fn told_place(text: &str, next: Ahead) -> u32
    requires small { length text.now ≤ text_limit }
    requires within { next.at ≤ length text.now }
    ensures { result ≡ told_place text.now next }
{
    if is_ending(next.token) {
        return offset(text.len());
    }
    let bytes = text.as_bytes();
    offset(past_return(bytes, next.at + width(bytes, next)))
}

/// A place, or that of the text's last byte where it is the length.
pub fn within(text: &str, place: u32) -> u32
    requires small { length text.now ≤ text_limit }
    ensures { result ≡ within text.now place }
{
    let size = offset(text.len());
    if place < size {
        return place;
    }
    if size == 0 {
        return 0;
    }
    size - 1
}

/// A place at which a text shows what it has ahead, or that of its last byte.
pub fn last_told(text: &str, next: Ahead) -> u32
    requires small { length text.now ≤ text_limit }
    requires within { next.at ≤ length text.now }
    ensures { result ≡ last_told text.now next }
{
    within(text, told_place(text, next))
}

/// Between brackets: a place at which a text shows what it has ahead; but where something is ahead, that of its last byte for its
/// length.
pub fn flow_place(text: &str, next: Ahead) -> u32
    requires small { length text.now ≤ text_limit }
    requires within { next.at ≤ length text.now }
    ensures { result ≡ flow_place text.now next }
{
    if is_ending(next.token) {
        return told_place(text, next);
    }
    last_told(text, next)
}

/// Whether a token is a dash.
pub fn is_dash(token: Token) -> bool
    ensures { result ≡ is_dash token }
{
    match token {
        Token::Dash => true,
        _ => false,
    }
}

/// The same; where a `-` ends the text, its length.
pub fn dash_place(text: &str, next: Ahead) -> u32
    requires small { length text.now ≤ text_limit }
    requires within { next.at ≤ length text.now }
    ensures { result ≡ dash_place text.now next }
{
    if is_dash(next.token) && next.behind == text.len() {
        return offset(text.len());
    }
    last_told(text, next)
}

/// Whether the text ends in one or two dots that begin a line at a token.
fn ends_in_dots(text: &str, next: Ahead) -> bool
    requires within { next.at ≤ length text.now }
    ensures { result ≡ ends_in_dots text.now next }
{
    let rest = &text.as_bytes()[next.at..];
    next.column == 0 && (rest == ".".as_bytes() || rest == "..".as_bytes())
}

/// Behind the root: a place at which a text shows what it has ahead, or that of its last byte; where it ends in dots that may
/// end the document, its length.
pub fn root_place(text: &str, next: Ahead) -> u32
    requires small { length text.now ≤ text_limit }
    requires within { next.at ≤ length text.now }
    ensures { result ≡ root_place text.now next }
{
    if ends_in_dots(text, next) {
        return offset(text.len());
    }
    last_told(text, next)
}

/// The place of the two that is further.
fn further(first: usize, second: usize) -> usize
    ensures { result ≡ widest first second }
{
    if first < second {
        return second;
    }
    first
}

/// Where a scalar fails at a token: the place where it does, and not before one that shows what is ahead; the text's length
/// where it does at the text's end.
fn failed_place(text: &str, next: Ahead, at: u32) -> u32
    requires small { length text.now ≤ text_limit }
    requires within { next.at ≤ length text.now }
    ensures { result ≡ failed_place text.now next at }
{
    if at >= offset(text.len()) {
        return offset(text.len());
    }
    let bytes = text.as_bytes();
    let told = next.at + width(bytes, next);
    within(text, offset(past_return(bytes, further(told, at as usize))))
}

/// The same by the refusal; the text's length where it says no place.
pub fn refused_place(text: &str, next: Ahead, refusal: ScalarRefusal) -> u32
    requires small { length text.now ≤ text_limit }
    requires within { next.at ≤ length text.now }
    ensures { result ≡ refused_place text.now next refusal }
{
    match refusal {
        ScalarRefusal::Syntax(at) => failed_place(text, next, at),
        ScalarRefusal::NoMemory => offset(text.len()),
        ScalarRefusal::ManyDocuments(_) => offset(text.len()),
    }
}

/// Whether there is a line feed at a place or behind it.
fn has_break(bytes: &[u8], start: usize) -> bool
    requires { start ≤ length bytes.now }
    ensures { result ≡ has_break (drop start bytes.now) }
{
    for i in start..bytes.len() {
        if bytes[i] == b'\n' {
            return true;
        }
    }
    false
}

/// Whether `|` or `>` stands at a place.
pub fn begins_block(bytes: &[u8], at: usize) -> bool
    requires { at ≤ length bytes.now }
    ensures is { result ≡ (begins_with 124 (drop at bytes.now) || begins_with 62 (drop at bytes.now)) }
    ensures some { result ≡ true → 0 < length bytes.now }
{
    has_byte(bytes, at, b'|') || has_byte(bytes, at, b'>')
}

/// Whether the text ends in a `-` on a line below the one of `|` or `>` at a token.
fn ends_in_dash(text: &str, next: Ahead) -> bool
    requires within { next.at ≤ length text.now }
    ensures { result ≡ ends_in_dash text.now next }
{
    let bytes = text.as_bytes();
    if !begins_block(bytes, next.at) {
        return false;
    }
    has_byte(bytes, bytes.len() - 1, b'-') && has_break(bytes, next.at)
}

/// The place where a block scalar fails at a token; that of the last byte where it is a dash below a wide blank line, since only
/// a line `---` could come of it.
fn torn_place(text: &str, next: Ahead, place: u32) -> u32
    requires small { length text.now ≤ text_limit }
    requires within { next.at ≤ length text.now }
    ensures { result ≡ torn_place text.now next place }
{
    if place == offset(text.len()) && ends_in_dash(text, next) {
        return offset(text.len() - 1);
    }
    place
}

/// The same by why reading stops.
pub fn torn_stop(text: &str, next: Ahead, stop: Stop) -> Stop
    requires small { length text.now ≤ text_limit }
    requires within { next.at ≤ length text.now }
    ensures { result ≡ torn_stop text.now next stop }
{
    match stop {
        Stop::Unread(place) => Stop::Unread(torn_place(text, next, place)),
        _ => stop,
    }
}

/// Behind a key that no colon follows: the first byte that is no white space, the line's end among them; behind a colon the
/// next.
pub fn colon_place(text: &str, end: usize) -> u32
    requires small { length text.now ≤ text_limit }
    requires boundary { IsCharBoundary text.now end }
    ensures { result ≡ colon_place text.now end }
{
    let bytes = text.as_bytes();
    let place = end + whites(bytes, end);
    if has_byte(bytes, place, b':') {
        return offset(past_return(bytes, place + 1));
    }
    offset(past_return(bytes, place))
}
