//! A colon that ends the text behind a scalar.
ghost use Rattle.std.specs.Prelude.{◌≡◌, ◌≤◌, ◌<◌, ◌+◌, ◌||◌, ◌&&◌, length, drop, slice_index};
ghost use Rattle.std.specs.Str.{IsCharBoundary};
ghost use Rattle.yaml_scalars.specs.code.Limits.{text_limit};
ghost use Rattle.yaml_scalars.specs.Lines.{begins_break, is_white};
ghost use Rattle.yaml_grammar.specs.code.Points.{gap, is_plain, is_last_point, is_pointed};

use yaml_grammar::{Ahead, Token};
use yaml_nodes::ahead::look;
use yaml_nodes::place::has_byte;

/// Whether white space stands at a place, or a break begins there.
fn is_gap(bytes: &[u8], at: usize) -> bool
    requires { at < length bytes.now }
    ensures { result ≡ (is_white (slice_index bytes.now at) || begins_break (slice_index bytes.now at) (drop (at + 1) bytes.now)) }
{
    match bytes[at] {
        b' ' | b'\t' | b'\n' => true,
        b'\r' => has_byte(bytes, at + 1, b'\n'),
        _ => false,
    }
}

/// How many bytes of white space and of breaks stand from a place on.
fn gap_len(bytes: &[u8], start: usize) -> usize
    requires { start ≤ length bytes.now }
    ensures count { result ≡ gap (drop start bytes.now) }
    ensures within { start + result ≤ length bytes.now }
{
    for i in start..bytes.len() {
        if !is_gap(bytes, i) {
            return i - start;
        }
    }
    bytes.len() - start
}

/// Whether a plain scalar stands at the place of a scalar.
fn is_plain(bytes: &[u8], at: usize, flow: bool) -> bool
    requires { at < length bytes.now }
    ensures { result ≡ is_plain flow (drop at bytes.now) }
{
    match bytes[at] {
        b'"' | b'\'' => false,
        b'|' | b'>' => flow,
        _ => true,
    }
}

/// Whether what is ahead behind a node is a colon that ends the text, outside of brackets one on the node's own line.
fn is_last_point(text: &str, flow: bool, next: Ahead) -> bool
    ensures { result ≡ is_last_point text.now flow next }
{
    match next.token {
        Token::Point { loose: _ } => next.behind == text.len() && (flow || !next.fresh),
        _ => false,
    }
}

/// Whether the scalar from one place to another is a plain one that goes on where a letter stands behind the colon that ends the
/// text.
pub(crate) fn is_pointed(text: &str, flow: bool, at: usize, end: usize) -> bool
    requires small { length text.now ≤ text_limit }
    requires within { at < length text.now }
    requires boundary { IsCharBoundary text.now end }
    ensures { result ≡ is_pointed text.now flow at end }
{
    let bytes = text.as_bytes();
    if !is_plain(bytes, at, flow) {
        return false;
    }
    let next = look(text, flow, end);
    if !is_last_point(text, flow, next) {
        return false;
    }
    !flow || end + gap_len(bytes, end) == next.at
}
