//! A scalar behind `!GetAtt` that breaks off where a list of two would be one collection too many.
ghost use Rattle.std.specs.Prelude.{◌≡◌, ◌≤◌, ◌<◌, ◌+◌, ◌&&◌, not, length, drop, nat_eq, slice_index};
ghost use Rattle.yaml_scalars.specs.Scalar.{begins_block};
ghost use Rattle.yaml_scalars.specs.code.Limits.{text_limit};
ghost use Rattle.yaml_laws.specs.code.Dots.{begins_digits, spells_dot};
ghost use Rattle.yaml_grammar.specs.Nodes.{setting_of};
ghost use Rattle.yaml_grammar.specs.code.Splits.{shows_dot, has_dot, is_split, split_place, split_stop};
ghost use Rattle.yaml_grammar.specs.code.Steps.{IsBehind};

use yaml_grammar::{Ahead, Form, Stop};
use yaml_nodes::node::follows_get_att;
use yaml_nodes::place::{begins_block, has_byte, within};

/// How many collections may stand in each other.
const DEPTH: u32 = 128;

/// Whether these bytes stand at a place, and then e or E.
fn begins_digits(digits: &[u8], bytes: &[u8], start: usize) -> bool
    requires { start ≤ length bytes.now }
    ensures { result ≡ begins_digits digits.now (drop start bytes.now) }
{
    for i in 0..digits.len() {
        if !has_byte(bytes, start + i, digits[i]) {
            return false;
        }
    }
    let end = start + digits.len();
    has_byte(bytes, end, b'e') || has_byte(bytes, end, b'E')
}

/// Whether the escape of a dot stands at a place, behind its backslash.
fn spells_dot(bytes: &[u8], start: usize) -> bool
    requires { start ≤ length bytes.now }
    ensures { result ≡ spells_dot (drop start bytes.now) }
{
    begins_digits("x2".as_bytes(), bytes, start)
        || begins_digits("u002".as_bytes(), bytes, start)
        || begins_digits("U0000002".as_bytes(), bytes, start)
}

/// Whether a dot stands at a place, or, where there are escapes, the escape of one.
fn shows_dot(bytes: &[u8], at: usize, escapes: bool) -> bool
    requires { at < length bytes.now }
    ensures { result ≡ shows_dot escapes (slice_index bytes.now at) (drop (at + 1) bytes.now) }
{
    if bytes[at] == b'.' {
        return true;
    }
    escapes && bytes[at] == b'\\' && spells_dot(bytes, at + 1)
}

/// Whether the byte behind this one is passed over: this one is a backslash, and not passed over itself.
fn passes_next(escapes: bool, over: bool, byte: u8) -> bool
    ensures { result ≡ (escapes && (not over && nat_eq byte 92)) }
{
    escapes && !over && byte == b'\\'
}

/// Whether a scalar that begins at a place has a dot so far.
fn has_dot(bytes: &[u8], start: usize) -> bool
    requires { start ≤ length bytes.now }
    ensures { result ≡ has_dot (drop start bytes.now) }
{
    let escapes = has_byte(bytes, start, b'"');
    let mut over = false;
    for i in start..bytes.len() {
        if !over && shows_dot(bytes, i, escapes) {
            return true;
        }
        over = passes_next(escapes, over, bytes[i]);
    }
    false
}

/// Whether a block scalar begins at a place, by what a node stands in there.
fn begins_block_scalar(bytes: &[u8], form: Form, at: usize) -> bool
    requires { at ≤ length bytes.now }
    ensures { result ≡ begins_block (setting_of form) (drop at bytes.now) }
{
    match form {
        Form::Flow { map: _ } => false,
        Form::FlowTagged { at: _ } => false,
        Form::Root => begins_block(bytes, at),
        Form::Items { column: _ } => begins_block(bytes, at),
        Form::Entries { column: _ } => begins_block(bytes, at),
        Form::Tagged { .. } => begins_block(bytes, at),
    }
}

/// Whether the scalar at a token would be split where so many collections are open, and there is no room for that: it is no block
/// scalar, stands behind `!GetAtt`, and has a dot so far.
pub fn is_split(text: &str, at: usize, form: Form, next: Ahead, depth: u32) -> bool
    requires within { at ≤ length text.now }
    requires behind { IsBehind form at }
    requires ahead { next.at ≤ length text.now }
    ensures { result ≡ is_split text.now depth form at next.at }
{
    let bytes = text.as_bytes();
    depth >= DEPTH
        && follows_get_att(bytes, form, at)
        && !begins_block_scalar(bytes, form, next.at)
        && has_dot(bytes, next.at)
}

/// The place where reading stops, or that of the text's last byte for its length, where the scalar that runs out there would be
/// split.
fn split_place(text: &str, split: bool, place: u32) -> u32
    requires small { length text.now ≤ text_limit }
    ensures { result ≡ split_place text.now split place }
{
    if split {
        return within(text, place);
    }
    place
}

/// The same by why reading stops.
pub fn split_stop(text: &str, split: bool, stop: Stop) -> Stop
    requires small { length text.now ≤ text_limit }
    ensures { result ≡ split_stop text.now split stop }
{
    match stop {
        Stop::Unread(place) => Stop::Unread(split_place(text, split, place)),
        _ => stop,
    }
}
