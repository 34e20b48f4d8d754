//! What stands between brackets: one token at a time, what it adds to the tree, and what may follow it.
ghost use Rattle.std.specs.Prelude.{◌≡◌, ℕ, Bool, ◌<◌, ◌≤◌, ◌||◌, length, drop, true, false, None, MatchOption};
ghost use Rattle.std.specs.Str.{IsCharBoundary};
ghost use Rattle.yaml_scalars.specs.code.Limits.{text_limit};
ghost use Rattle.doc_values.specs.Unfinished.{AwaitsValue, MayEnd};
ghost use Rattle.yaml_scalars.specs.Scalar.{begins_quoted};
ghost use Rattle.yaml_grammar.specs.Flow.{may_miss, may_tag, ends_key, IsColon};
ghost use Rattle.yaml_grammar.specs.Nodes.{node_sign, is_tagged, is_marked, starts_scalar};
ghost use Rattle.yaml_grammar.specs.code.FlowReads.{EntryRead, FlowNodeRead, FlowScalarRead, FlowValueRead, KeyRead, TailRead};
ghost use Rattle.yaml_grammar.specs.code.Rest.{top};
ghost use Rattle.yaml_grammar.specs.code.Steps.{stack, has_keys, IsSeen, IsFlow, IsBehind, Open, Opened, Closed, is_flow_ending};

use crate::point::is_pointed;
use crate::split::{is_split, split_stop};
use doc_values::DocBuilder;
use std::alloc::Global;
use yaml_grammar::{Ahead, Form, Position, Stage, Stop, Token};
use yaml_nodes::ahead::look;
use yaml_nodes::form::Site;
use yaml_nodes::node::{
    TagMap, as_key, begin, begin_tag, find_scalar, has_keys, innermost, offset, starts_scalar,
    take_null, take_scalar,
};
use yaml_nodes::place::flow_place;
use yaml_nodes::sign::{is_marked, is_tagged, node_sign};
use yaml_scalars::Scalar;

/// The innermost collection ends.
fn close(next: Ahead, forms: &mut Vec<Form>, builder: &mut DocBuilder) -> Result<Position, Stop>
    requires form { (map : Bool) × (top (stack forms.old.items) ≡ Form.Flow map) }
    requires awaited { MayEnd builder.old }
    ensures { Closed next.behind (stack forms.old.items) builder.old (stack forms.new.items) builder.new result }
{
    let Some(_) = forms.pop() else { unreachable!() };
    match builder.end() {
        Ok(()) => Ok(Position {
            stage: Stage::After,
            at: next.behind,
        }),
        Err(_) => Err(Stop::NoMemory),
    }
}

/// Whether a token closes a collection of this form.
fn closes(token: Token, map: bool) -> bool
    ensures yes { result ≡ true → token ≡ Token.Closes map }
    ensures no { result ≡ false → token ≡ Token.Closes map → ⊥ }
{
    match token {
        Token::Closes { map: form } => form == map,
        _ => false,
    }
}

/// A map or a list begins.
pub(crate) fn open(
    map: bool,
    next: Ahead,
    forms: &mut Vec<Form>,
    builder: &mut DocBuilder,
) -> Result<Position, Stop>
    requires small { next.at ≤ text_limit }
    requires awaited { AwaitsValue builder.old }
    ensures { Opened map next (stack forms.old.items) builder.old (stack forms.new.items) builder.new result }
{
    match begin(Form::Flow { map }, next, forms, builder) {
        Ok(()) => Ok(Position {
            stage: Stage::Entry,
            at: next.behind,
        }),
        Err(refusal) => Err(refusal),
    }
}

/// The map of a tag begins.
fn tag<'s>(
    alloc: Global,
    text: &'s str,
    site: Site,
    forms: &mut Vec<Form>,
    builder: &mut DocBuilder<'s>,
) -> Result<Position, Stop>
    requires small { length text.now ≤ text_limit }
    requires seen { IsSeen text.now true site.at site.next }
    requires tag { (len : ℕ) × (site.next.token ≡ Token.Tag len) }
    requires form { top (stack forms.old.items) ≡ site.form }
    requires takes { may_tag site.form ≡ true }
    requires open { Open (stack forms.old.items) builder.old }
    requires awaited { AwaitsValue builder.old }
    requires boundary { IsCharBoundary text.now site.at }
    requires behind { IsBehind site.form site.at }
    ensures { FlowValueRead text.now site.form site.at site.next (stack forms.old.items) builder.old (stack forms.new.items) builder.new result }
{
    let map = TagMap {
        form: Form::FlowTagged { at: site.next.at },
        next: site.next,
    };
    begin_tag(alloc, text, map, forms, builder)
}

/// A scalar; over a colon that ends the text a plain one goes on with a letter behind it.
fn scalar_there<'s>(
    alloc: Global,
    text: &'s str,
    site: Site,
    forms: &[Form],
    builder: &mut DocBuilder<'s>,
) -> Result<Position, Stop>
    requires small { length text.now ≤ text_limit }
    requires seen { IsSeen text.now true site.at site.next }
    requires starts { starts_scalar site.next.token ≡ true }
    requires unsigned { node_sign (is_tagged site.form) site.next.at site.next.token ≡ None }
    requires there { may_miss site.form ≡ true → is_flow_ending site.next.token ≡ false }
    requires form { top (stack forms.now) ≡ site.form }
    requires flow { IsFlow site.form }
    requires behind { IsBehind site.form site.at }
    requires open { Open (stack forms.now) builder.old }
    requires awaited { AwaitsValue builder.old }
    requires boundary { IsCharBoundary text.now site.at }
    ensures { FlowScalarRead text.now site.form site.at site.next (stack forms.now) builder.old builder.new result }
{
    let position = match take_scalar(alloc, text, site, builder) {
        Ok(position) => position,
        Err(stop) => return Err(stop),
    };
    if is_pointed(text, true, site.next.at, position.at) {
        return Err(Stop::Unread(offset(text.len())));
    }
    Ok(position)
}

/// The same; but the last byte is answered for the length where the scalar would be split, and there is no room for that.
fn scalar<'s>(
    alloc: Global,
    text: &'s str,
    site: Site,
    forms: &[Form],
    builder: &mut DocBuilder<'s>,
) -> Result<Position, Stop>
    requires small { length text.now ≤ text_limit }
    requires seen { IsSeen text.now true site.at site.next }
    requires starts { starts_scalar site.next.token ≡ true }
    requires unsigned { node_sign (is_tagged site.form) site.next.at site.next.token ≡ None }
    requires there { may_miss site.form ≡ true → is_flow_ending site.next.token ≡ false }
    requires form { top (stack forms.now) ≡ site.form }
    requires flow { IsFlow site.form }
    requires behind { IsBehind site.form site.at }
    requires open { Open (stack forms.now) builder.old }
    requires awaited { AwaitsValue builder.old }
    requires boundary { IsCharBoundary text.now site.at }
    ensures { FlowValueRead text.now site.form site.at site.next (stack forms.now) builder.old (stack forms.now) builder.new result }
{
    let depth = builder.depth();
    match scalar_there(alloc, text, site, forms, builder) {
        Ok(position) => Ok(position),
        Err(stop) => {
            let split = is_split(text, site.at, site.form, site.next, depth);
            Err(split_stop(text, split, stop))
        }
    }
}

/// A node in brackets, or behind a tag there.
fn node<'s>(
    alloc: Global,
    text: &'s str,
    site: Site,
    forms: &mut Vec<Form>,
    builder: &mut DocBuilder<'s>,
) -> Result<Position, Stop>
    requires small { length text.now ≤ text_limit }
    requires seen { IsSeen text.now true site.at site.next }
    requires there { may_miss site.form ≡ true → is_flow_ending site.next.token ≡ false }
    requires form { top (stack forms.old.items) ≡ site.form }
    requires flow { IsFlow site.form }
    requires behind { IsBehind site.form site.at }
    requires open { Open (stack forms.old.items) builder.old }
    requires awaited { AwaitsValue builder.old }
    requires boundary { IsCharBoundary text.now site.at }
    ensures { FlowValueRead text.now site.form site.at site.next (stack forms.old.items) builder.old (stack forms.new.items) builder.new result }
{
    match node_sign(is_tagged(site.form), site.next) {
        Some(refusal) => return Err(refusal),
        None => {}
    }
    match site.next.token {
        Token::Opens { map } => open(map, site.next, forms, builder),
        Token::Tag { .. } => tag(alloc, text, site, forms, builder),
        _ => {
            if !starts_scalar(site.next.token) {
                return Err(Stop::Unread(flow_place(text, site.next)));
            }
            scalar(alloc, text, site, forms, builder)
        }
    }
}

/// Whether a quote stands at a place.
fn is_quoted(bytes: &[u8], at: usize) -> bool
    requires { at < length bytes.now }
    ensures { result ≡ begins_quoted (drop at bytes.now) }
{
    matches!(bytes[at], b'"' | b'\'')
}

/// Whether a colon may follow a key: a loose one, or behind a quote any.
fn may_follow(loose: bool, quoted: bool) -> bool
    ensures { result ≡ (loose || quoted) }
{
    loose || quoted
}

/// Whether a key without a colon ends before a token.
fn ends_key(token: Token) -> bool
    ensures { result ≡ ends_key token }
{
    match token {
        Token::Comma | Token::Dashes | Token::Dots => true,
        Token::Closes { map } => map,
        _ => false,
    }
}

/// Whether a token ends a node, or a sign stands there behind it.
fn is_flow_ending(token: Token) -> bool
    ensures { result ≡ is_flow_ending token }
{
    match token {
        Token::Comma | Token::Dashes | Token::Dots => true,
        Token::Closes { map: _ } => true,
        _ => false,
    }
}

/// Where the value of a key stands whose end is at a place: behind a colon, or there where none is.
fn colon(text: &str, end: usize, quoted: bool) -> Option<usize>
    requires small { length text.now ≤ text_limit }
    requires boundary { IsCharBoundary text.now end }
    ensures { MatchOption result ((p : ℕ) → IsColon text.now quoted end p → ⊥) (λ p. IsColon text.now quoted end p × IsCharBoundary text.now p × (end ≤ p)) }
{
    let next = look(text, true, end);
    if ends_key(next.token) {
        return Some(end);
    }
    match next.token {
        Token::Point { loose } => {
            if may_follow(loose, quoted) {
                Some(next.behind)
            } else {
                None
            }
        }
        _ => None,
    }
}

/// A key of a map.
fn key<'s>(
    alloc: Global,
    text: &'s str,
    site: Site,
    forms: &[Form],
    builder: &mut DocBuilder<'s>,
) -> Result<Position, Stop>
    requires small { length text.now ≤ text_limit }
    requires seen { IsSeen text.now true site.at site.next }
    requires there { site.next.token ≡ Token.Closes true → ⊥ }
    requires unmarked { is_marked site.next.token ≡ false }
    requires form { top (stack forms.now) ≡ site.form }
    requires map { site.form ≡ Form.Flow true }
    requires open { Open (stack forms.now) builder.old }
    requires awaited { builder.old.key ≡ None }
    requires boundary { IsCharBoundary text.now site.at }
    ensures { KeyRead text.now site.at site.next (stack forms.now) builder.old (stack forms.now) builder.new result }
{
    match node_sign(false, site.next) {
        Some(refusal) => return Err(refusal),
        None => {}
    }
    if !starts_scalar(site.next.token) {
        return Err(Stop::Unread(flow_place(text, site.next)));
    }
    let scalar = match find_scalar(alloc, text, site.next, as_key(true)) {
        Ok(scalar) => scalar,
        Err(refusal) => return Err(refusal),
    };
    let Scalar {
        kind: _,
        text: words,
        end,
    } = scalar;
    match builder.key(words, offset(site.next.at)) {
        Ok(()) => {}
        Err(refusal) => return Err(Stop::from(refusal)),
    }
    match colon(text, end, is_quoted(text.as_bytes(), site.next.at)) {
        Some(place) => Ok(Position {
            stage: Stage::Value,
            at: place,
        }),
        None => Err(Stop::Unread(flow_place(text, look(text, true, end)))),
    }
}

/// An entry or the closing bracket.
pub fn entry<'s>(
    alloc: Global,
    text: &'s str,
    site: Site,
    forms: &mut Vec<Form>,
    builder: &mut DocBuilder<'s>,
) -> Result<Position, Stop>
    requires small { length text.now ≤ text_limit }
    requires seen { IsSeen text.now true site.at site.next }
    requires boundary { IsCharBoundary text.now site.at }
    requires form { top (stack forms.old.items) ≡ site.form }
    requires flow { site.form ≡ Form.Flow (has_keys site.form) }
    requires open { Open (stack forms.old.items) builder.old }
    requires awaited { builder.old.key ≡ None }
    ensures { EntryRead text.now site.form site.at (stack forms.old.items) builder.old (stack forms.new.items) builder.new result }
{
    let map = has_keys(site.form);
    if closes(site.next.token, map) {
        return close(site.next, forms, builder);
    }
    if is_marked(site.next.token) {
        return Err(Stop::ManyDocuments(offset(site.next.at)));
    }
    if map {
        key(alloc, text, site, forms, builder)
    } else {
        node(alloc, text, site, forms, builder)
    }
}

/// The value of a key, or of a tag.
pub fn value<'s>(
    alloc: Global,
    text: &'s str,
    site: Site,
    forms: &mut Vec<Form>,
    builder: &mut DocBuilder<'s>,
) -> Result<Position, Stop>
    requires small { length text.now ≤ text_limit }
    requires seen { IsSeen text.now true site.at site.next }
    requires boundary { IsCharBoundary text.now site.at }
    requires form { top (stack forms.old.items) ≡ site.form }
    requires flow { IsFlow site.form }
    requires behind { IsBehind site.form site.at }
    requires misses { may_miss site.form ≡ true }
    requires open { Open (stack forms.old.items) builder.old }
    requires awaited { AwaitsValue builder.old }
    ensures { FlowNodeRead text.now site.form site.at (stack forms.old.items) builder.old (stack forms.new.items) builder.new result }
{
    if is_flow_ending(site.next.token) {
        return take_null(site.at, site.at, builder);
    }
    node(alloc, text, site, forms, builder)
}

/// What follows a complete node of a collection.
pub fn after(
    text: &str,
    at: usize,
    map: bool,
    forms: &mut Vec<Form>,
    builder: &mut DocBuilder,
) -> Result<Position, Stop>
    requires small { length text.now ≤ text_limit }
    requires boundary { IsCharBoundary text.now at }
    requires form { top (stack forms.old.items) ≡ Form.Flow map }
    requires open { Open (stack forms.old.items) builder.old }
    requires awaited { builder.old.key ≡ None }
    ensures { TailRead text.now at (stack forms.old.items) builder.old (stack forms.new.items) builder.new result }
{
    let next = look(text, true, at);
    if closes(next.token, map) {
        return close(next, forms, builder);
    }
    if is_marked(next.token) {
        return Err(Stop::ManyDocuments(offset(next.at)));
    }
    match next.token {
        Token::Comma => Ok(Position {
            stage: Stage::Entry,
            at: next.behind,
        }),
        _ => Err(Stop::Unread(flow_place(text, next))),
    }
}

/// What follows a complete node behind a tag, whose map ends with it.
pub fn after_tag(
    text: &str,
    at: usize,
    place: usize,
    forms: &mut Vec<Form>,
    builder: &mut DocBuilder,
) -> Result<Position, Stop>
    requires small { length text.now ≤ text_limit }
    requires boundary { IsCharBoundary text.now at }
    requires form { top (stack forms.old.items) ≡ Form.FlowTagged place }
    requires open { Open (stack forms.old.items) builder.old }
    requires awaited { builder.old.key ≡ None }
    ensures { TailRead text.now at (stack forms.old.items) builder.old (stack forms.new.items) builder.new result }
{
    let Some(_) = forms.pop() else { unreachable!() };
    match builder.end() {
        Ok(()) => {}
        Err(_) => return Err(Stop::NoMemory),
    }
    match innermost(forms) {
        Form::Flow { map } => after(text, at, map, forms, builder),
        _ => unreachable!(),
    }
}
