//! Block sequences and block mappings: which node stands where one is awaited, and what may follow a complete one.
ghost use Rattle.std.specs.Prelude.{◌≡◌, List, ◌≤◌, length, true, false, None};
ghost use Rattle.std.specs.Str.{IsCharBoundary};
ghost use Rattle.yaml_scalars.specs.code.Limits.{text_limit};
ghost use Rattle.yaml_grammar.specs.Ahead.{ahead};
ghost use Rattle.yaml_grammar.specs.Nodes.{starts_scalar, is_tagged};
ghost use Rattle.yaml_grammar.specs.Blocks.{block_sign, takes_scalar, takes_mapping};
ghost use Rattle.yaml_grammar.specs.code.Reads.{LineRead, ValueRead};
ghost use Rattle.yaml_grammar.specs.code.StepReads.{EndRead};
ghost use Rattle.yaml_grammar.specs.code.Rest.{top};
ghost use Rattle.yaml_grammar.specs.Yaml.{text_start};
ghost use Rattle.yaml_grammar.specs.code.Steps.{stack, IsSeen, IsBlock, NoKey, Open, Fits, Awaited, IsCalm, NoNode, is_ending, ends_before};

use doc_values::DocBuilder;
use std::alloc::Global;
use yaml_grammar::{Form, Position, Stage, Stop, Token};
use yaml_nodes::ahead::look;
use yaml_nodes::form::{Site, is_entry_column};
use yaml_nodes::node::{find_key, innermost, offset, take_null};
use yaml_nodes::place::{last_told, root_place};
use yaml_nodes::sign::{end_sign, is_document_end, is_tagged};
use yaml_steps::absent::{late_dash, missing};
use yaml_steps::closings::{end_all, end_before};
use yaml_steps::entries::{entry, item};
use yaml_steps::openings::{brackets, mapping, scalar_there, sequence, tag};
use yaml_steps::split::{is_split, split_stop};
use yaml_steps::takes::{block_sign, takes_mapping, takes_scalar, takes_sequence, takes_tag};

/// A scalar where no key stands; but the last byte is answered for the length where it would be split, and there is no room for
/// that.
fn scalar<'s>(
    alloc: Global,
    text: &'s str,
    site: Site,
    builder: &mut DocBuilder<'s>,
) -> Result<Position, Stop>
    requires small { length text.now ≤ text_limit }
    requires awaited { (fs : List Form) × Awaited text.now fs builder.old site.form site.at site.next }
    requires starts { starts_scalar site.next.token ≡ true }
    requires takes { takes_scalar site.form site.next ≡ true }
    requires no_key { takes_mapping site.form site.next ≡ true → NoKey text.now site.next }
    ensures { (fs : List Form) → Awaited text.now fs builder.old site.form site.at site.next → ValueRead text.now site.form site.at site.next fs builder.old fs builder.new result }
{
    let depth = builder.depth();
    match scalar_there(alloc, text, site, builder) {
        Ok(position) => Ok(position),
        Err(stop) => {
            let split = is_split(text, site.at, site.form, site.next, depth);
            Err(split_stop(text, split, stop))
        }
    }
}

/// A mapping or a scalar.
fn content<'s>(
    alloc: Global,
    text: &'s str,
    site: Site,
    forms: &mut Vec<Form>,
    builder: &mut DocBuilder<'s>,
) -> Result<Position, Stop>
    requires small { length text.now ≤ text_limit }
    requires awaited { Awaited text.now (stack forms.old.items) builder.old site.form site.at site.next }
    requires starts { starts_scalar site.next.token ≡ true }
    requires takes { takes_scalar site.form site.next ≡ true }
    ensures { ValueRead text.now site.form site.at site.next (stack forms.old.items) builder.old (stack forms.new.items) builder.new result }
{
    if !takes_mapping(site.form, site.next) {
        return scalar(alloc, text, site, builder);
    }
    match find_key(alloc, text, site.next) {
        Err(refusal) => Err(refusal),
        Ok(None) => scalar(alloc, text, site, builder),
        Ok(Some(key)) => mapping(text, site, key, forms, builder),
    }
}

/// Behind a tag without a node another tag, which is the sign where a key may begin.
fn tag_again(
    text: &str,
    site: Site,
    len: usize,
    forms: &mut Vec<Form>,
    builder: &mut DocBuilder,
) -> Result<Position, Stop>
    requires small { length text.now ≤ text_limit }
    requires awaited { Awaited text.now (stack forms.old.items) builder.old site.form site.at site.next }
    requires tag { site.next.token ≡ Token.Tag len }
    requires tagged { is_tagged site.form ≡ true }
    requires none { NoNode site.form site.next }
    requires unsigned { block_sign site.form site.next ≡ None }
    ensures { ValueRead text.now site.form site.at site.next (stack forms.old.items) builder.old (stack forms.new.items) builder.new result }
{
    match take_null(site.at, site.at, builder) {
        Err(refusal) => return Err(refusal),
        Ok(_) => {}
    }
    match end_before(site.next, forms, builder) {
        Err(refusal) => return Err(refusal),
        Ok(()) => {}
    }
    if is_entry_column(innermost(forms), site.next) {
        return Err(Stop::Tag(offset(site.next.at)));
    }
    Err(Stop::Unread(last_told(text, site.next)))
}

/// A tag where none begins a node.
fn late_tag(
    text: &str,
    site: Site,
    len: usize,
    forms: &mut Vec<Form>,
    builder: &mut DocBuilder,
) -> Result<Position, Stop>
    requires small { length text.now ≤ text_limit }
    requires awaited { Awaited text.now (stack forms.old.items) builder.old site.form site.at site.next }
    requires tag { site.next.token ≡ Token.Tag len }
    requires none { NoNode site.form site.next }
    requires unsigned { block_sign site.form site.next ≡ None }
    ensures { ValueRead text.now site.form site.at site.next (stack forms.old.items) builder.old (stack forms.new.items) builder.new result }
{
    if is_tagged(site.form) {
        tag_again(text, site, len, forms, builder)
    } else {
        missing(text, site, builder)
    }
}

/// A node, or that none stands there, by the token ahead.
fn node_at<'s>(
    alloc: Global,
    text: &'s str,
    site: Site,
    forms: &mut Vec<Form>,
    builder: &mut DocBuilder<'s>,
) -> Result<Position, Stop>
    requires small { length text.now ≤ text_limit }
    requires awaited { Awaited text.now (stack forms.old.items) builder.old site.form site.at site.next }
    requires unsigned { block_sign site.form site.next ≡ None }
    ensures { ValueRead text.now site.form site.at site.next (stack forms.old.items) builder.old (stack forms.new.items) builder.new result }
{
    match site.next.token {
        Token::Dash => {
            if takes_sequence(site.form, site.next) {
                sequence(text, site, forms, builder)
            } else {
                late_dash(text, site, builder)
            }
        }
        Token::Tag { len } => {
            if takes_tag(site.form, site.next) {
                tag(alloc, text, site, forms, builder)
            } else {
                late_tag(text, site, len, forms, builder)
            }
        }
        Token::Opens { map } => {
            if takes_scalar(site.form, site.next) {
                brackets(text, site, map, forms, builder)
            } else {
                missing(text, site, builder)
            }
        }
        Token::Other | Token::Point { .. } => {
            if takes_scalar(site.form, site.next) {
                content(alloc, text, site, forms, builder)
            } else {
                missing(text, site, builder)
            }
        }
        _ => missing(text, site, builder),
    }
}

/// The root, or the value behind `-` or a key.
pub(crate) fn node<'s>(
    alloc: Global,
    text: &'s str,
    site: Site,
    forms: &mut Vec<Form>,
    builder: &mut DocBuilder<'s>,
) -> Result<Position, Stop>
    requires small { length text.now ≤ text_limit }
    requires seen { IsSeen text.now false site.at site.next }
    requires boundary { IsCharBoundary text.now site.at }
    requires form { top (stack forms.old.items) ≡ site.form }
    requires block { IsBlock site.form }
    requires fits { Fits text.now Stage.Value (stack forms.old.items) builder.old site.at }
    ensures { ValueRead text.now site.form site.at (ahead text.now false site.at) (stack forms.old.items) builder.old (stack forms.new.items) builder.new result }
{
    match block_sign(site.form, site.next) {
        Some(refusal) => Err(refusal),
        None => node_at(alloc, text, site, forms, builder),
    }
}

/// Another entry of the innermost block.
fn head<'s>(
    alloc: Global,
    text: &'s str,
    site: Site,
    forms: &[Form],
    builder: &mut DocBuilder<'s>,
) -> Result<Position, Stop>
    requires small { length text.now ≤ text_limit }
    requires seen { IsSeen text.now false site.at site.next }
    requires told { is_ending site.next.token ≡ false }
    requires fresh { site.next.fresh ≡ true }
    requires form { top (stack forms.now) ≡ site.form }
    requires block { IsBlock site.form }
    requires stays { ends_before site.form site.next ≡ false }
    requires open { Open (stack forms.now) builder.old }
    requires awaited { builder.old.key ≡ None }
    requires boundary { IsCharBoundary text.now site.at }
    requires behind { text_start text.now ≤ site.at }
    ensures { LineRead text.now site.at site.next (stack forms.now) builder.old (stack forms.now) builder.new result }
{
    match site.form {
        Form::Items { column } => {
            if site.next.column != column {
                return Err(Stop::Unread(last_told(text, site.next)));
            }
            item(text, site, forms, builder)
        }
        Form::Entries { column } => {
            if site.next.column != column {
                return Err(Stop::Unread(last_told(text, site.next)));
            }
            entry(alloc, text, site, forms, builder)
        }
        Form::Root => Err(Stop::Unread(root_place(text, site.next))),
        Form::Flow { map: _ } => unreachable!(),
        Form::FlowTagged { at: _ } => unreachable!(),
        Form::Tagged { .. } => unreachable!(),
    }
}

/// A line behind a complete node.
fn line<'s>(
    alloc: Global,
    text: &'s str,
    site: Site,
    forms: &mut Vec<Form>,
    builder: &mut DocBuilder<'s>,
) -> Result<Position, Stop>
    requires small { length text.now ≤ text_limit }
    requires seen { IsSeen text.now false site.at site.next }
    requires told { is_ending site.next.token ≡ false }
    requires form { top (stack forms.old.items) ≡ site.form }
    requires block { IsBlock (top (stack forms.old.items)) }
    requires open { Open (stack forms.old.items) builder.old }
    requires awaited { builder.old.key ≡ None }
    requires boundary { IsCharBoundary text.now site.at }
    requires behind { text_start text.now ≤ site.at }
    ensures { LineRead text.now site.at site.next (stack forms.old.items) builder.old (stack forms.new.items) builder.new result }
{
    if !site.next.fresh {
        return Err(Stop::Unread(last_told(text, site.next)));
    }
    match end_before(site.next, forms, builder) {
        Err(refusal) => Err(refusal),
        Ok(()) => {
            let below = Site {
                at: site.at,
                form: innermost(forms),
                next: site.next,
            };
            head(alloc, text, below, forms, builder)
        }
    }
}

/// What follows a complete node outside of flow.
pub(crate) fn after<'s>(
    alloc: Global,
    text: &'s str,
    at: usize,
    forms: &mut Vec<Form>,
    builder: &mut DocBuilder<'s>,
) -> Result<Position, Stop>
    requires small { length text.now ≤ text_limit }
    requires boundary { IsCharBoundary text.now at }
    requires behind { text_start text.now ≤ at }
    requires block { IsBlock (top (stack forms.old.items)) }
    requires open { Open (stack forms.old.items) builder.old }
    requires calm { IsCalm text.now builder.old at }
    requires awaited { builder.old.key ≡ None }
    ensures { EndRead text.now at (stack forms.old.items) builder.old (stack forms.new.items) builder.new result }
{
    let next = look(text, false, at);
    if is_document_end(text, at, next) {
        return end_all(at, forms, builder);
    }
    match end_sign(text, at, next) {
        Some(refusal) => return Err(refusal),
        None => {}
    }
    match next.token {
        Token::Dots => Err(Stop::Unread(last_told(text, look(text, false, next.behind)))),
        _ => {
            let site = Site {
                at,
                form: innermost(forms),
                next,
            };
            line(alloc, text, site, forms, builder)
        }
    }
}
