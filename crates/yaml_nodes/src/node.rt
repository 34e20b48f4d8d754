//! What nodes are made of: scalars, missing nodes, keys outside of flow, and collections that begin.
ghost use Rattle.std.specs.Prelude.{◌≡◌, ℕ, ◌+◌, ◌<◌, ◌≤◌, ◌≤ℤ◌, length, [], true, false, Some, None, Err, MatchOption, IfOk, ◌||◌, pos, negsuc};
ghost use Rattle.std.specs.Cow.{cow_str_bytes};
ghost use Rattle.std.specs.List.{position_or_len, before_first, after_first};
ghost use Rattle.std.specs.Str.{IsCharBoundary, bytes_eq};
ghost use Rattle.yaml_scalars.specs.code.Limits.{text_limit};
ghost use Rattle.doc_values.specs.Tree.{has_text};
ghost use Rattle.doc_values.specs.Unfinished.{with_value, AwaitsValue};
ghost use Rattle.yaml_grammar.specs.Ahead.{ahead};
ghost use Rattle.yaml_grammar.specs.Nodes.{below, tag_name, tag_key, get_att, follows_get_att, is_dot, is_cut, ref_text, condition_text, setting_of, as_key, starts_scalar};
ghost use Rattle.yaml_grammar.specs.code.Steps.{stack, has_keys, IsSmall, IsBehind, Finds, FindsKey, leaf_text, Paired, Holds, Begun, TagBegun, Completes};
ghost use Rattle.yaml_grammar.specs.code.Rest.{top};
ghost use Rattle.yaml_grammar.specs.code.Twins.{FailedAt, TornAt};

use crate::ahead::look;
use crate::form::Site;
use crate::place::{refused_place, torn_stop};
use doc_values::{DocBuilder, Kind};
use std::alloc::{AllocError, Global};
use std::borrow::CowStr;
use yaml_grammar::{Ahead, Form, Key, Position, Stage, Stop, Token, of_scalar};
use yaml_scalars::{Scalar, Setting, read_scalar};

/// How a scalar becomes a value.
#[derive(Clone, Copy)]
struct ScalarMode {
    /// How it stands.
    setting: Setting,
    /// Whether a text is cut at its first dot.
    cuts: bool,
}

/// The map of a tag.
#[derive(Clone, Copy)]
pub struct TagMap {
    /// What its value stands in.
    pub form: Form,
    /// The tag.
    pub next: Ahead,
}

/// The indentation of the parent of a block's nodes.
fn parent(column: usize) -> i32
    requires { column ≤ text_limit }
    ensures { result ≡ pos column }
{
    column as i32
}

/// The indentation above which this is the least.
fn below(above: usize) -> i32
    requires { above ≤ 8388610 }
    ensures is { result ≡ below above }
    ensures low { negsuc 0 ≤ℤ result }
    ensures high { result ≤ℤ pos text_limit }
{
    if above == 0 {
        return -1;
    }
    parent(above - 1)
}

/// How a node stands.
fn setting_of(form: Form) -> Setting
    requires { IsSmall form }
    ensures is { result ≡ setting_of form }
    ensures low { negsuc 0 ≤ℤ result.parent }
    ensures high { result.parent ≤ℤ pos text_limit }
{
    match form {
        Form::Root => Setting {
            parent: -1,
            flow: false,
            one_line: false,
        },
        Form::Flow { map: _ } => Setting {
            parent: -1,
            flow: true,
            one_line: false,
        },
        Form::FlowTagged { at: _ } => Setting {
            parent: -1,
            flow: true,
            one_line: false,
        },
        Form::Items { column } => Setting {
            parent: parent(column),
            flow: false,
            one_line: false,
        },
        Form::Entries { column } => Setting {
            parent: parent(column),
            flow: false,
            one_line: false,
        },
        Form::Tagged {
            at: _,
            above,
            shares: _,
        } => Setting {
            parent: below(above),
            flow: false,
            one_line: false,
        },
    }
}

/// How a key stands, in flow or outside of it.
pub fn as_key(flow: bool) -> Setting
    ensures { result ≡ as_key flow }
{
    Setting {
        parent: -1,
        flow,
        one_line: true,
    }
}

/// Whether the entries of a form have keys.
pub fn has_keys(form: Form) -> bool
    ensures { result ≡ has_keys form }
{
    match form {
        Form::Flow { map } => map,
        Form::FlowTagged { at: _ } => true,
        Form::Entries { column: _ } => true,
        Form::Tagged { .. } => true,
        Form::Root => false,
        Form::Items { column: _ } => false,
    }
}

/// A collection of a form begins at a token.
pub fn begin(
    form: Form,
    next: Ahead,
    forms: &mut Vec<Form>,
    builder: &mut DocBuilder,
) -> Result<(), Stop>
    requires small { next.at ≤ text_limit }
    requires awaited { AwaitsValue builder.old }
    ensures { Begun form next (stack forms.old.items) builder.old (stack forms.new.items) builder.new result }
{
    match builder.begin(has_keys(form), offset(next.at)) {
        Err(refused) => Err(Stop::from(refused)),
        Ok(()) => match forms.push(form) {
            Err(_) => Err(Stop::NoMemory),
            Ok(()) => Ok(()),
        },
    }
}

/// What the innermost of the open collections is.
pub fn innermost(forms: &[Form]) -> Form
    ensures { result ≡ top (stack forms.now) }
{
    match forms.last() {
        None => Form::Root,
        Some(form) => *form,
    }
}

/// An offset in a text of at most 8 MiB.
pub fn offset(i: usize) -> u32
    requires { i ≤ text_limit }
    ensures { result ≡ i }
{
    i as u32
}

/// Whether a scalar may begin where this token is seen.
pub fn starts_scalar(token: Token) -> bool
    ensures { result ≡ starts_scalar token }
{
    match token {
        Token::Other => true,
        Token::Point { .. } => true,
        _ => false,
    }
}

/// The scalar at a token.
pub fn find_scalar<'s>(
    alloc: Global,
    text: &'s str,
    next: Ahead,
    setting: Setting,
) -> Result<Scalar<'s>, Stop>
    requires small { length text.now ≤ text_limit }
    requires boundary { IsCharBoundary text.now next.at }
    requires starts { starts_scalar next.token ≡ true }
    requires low { negsuc 0 ≤ℤ setting.parent }
    requires high { setting.parent ≤ℤ pos text_limit }
    ensures finds { Finds text.now setting next result }
    ensures place { (q : ℕ) → result ≡ Err (Stop.Unread q) → FailedAt text.now setting next q }
{
    if next.at == text.len() {
        return Err(Stop::Unread(offset(text.len())));
    }
    match read_scalar(alloc, text, next.at, setting) {
        Ok(scalar) => Ok(scalar),
        Err(refusal) => Err(of_scalar(refusal, refused_place(text, next, refusal))),
    }
}

/// The text that a value of a kind keeps.
fn kept_text<'s>(kind: &Kind, text: CowStr<'s>) -> CowStr<'s>
    requires { has_text kind.now ≡ true → kind.now ≡ Kind.Text }
    ensures { cow_str_bytes result ≡ leaf_text kind.now (cow_str_bytes text.entry) }
{
    match kind {
        Kind::Text => text,
        _ => CowStr::Borrowed(""),
    }
}

/// The part of a text before its first dot and the part behind it, if it has one.
fn split_dot(text: &str) -> Option<(&str, &str)>
    ensures { MatchOption result ((position_or_len is_dot text.now < length text.now) → ⊥) (λ p. (position_or_len is_dot text.now < length text.now) × (p.0.now ≡ before_first is_dot text.now) × (p.1.now ≡ after_first is_dot text.now)) }
{
    text.split_once('.')
}

/// A text of its own.
fn copied(alloc: Global, text: &str) -> Result<CowStr<'static>, AllocError>
    ensures { IfOk result (λ copy. cow_str_bytes copy ≡ text.now) }
{
    let mut copy = String::new(alloc);
    copy.push_str(text)?;
    Ok(CowStr::Owned(copy))
}

/// The two parts of a scalar that is cut at a dot, or none.
fn parts<'s>(
    alloc: Global,
    cuts: bool,
    kind: &Kind,
    text: &CowStr<'s>,
) -> Result<Option<(CowStr<'s>, CowStr<'s>)>, AllocError>
    ensures { IfOk result (λ parts. MatchOption parts (is_cut cuts kind.now (cow_str_bytes text.now) ≡ false) (λ p. (is_cut cuts kind.now (cow_str_bytes text.now) ≡ true) × (cow_str_bytes p.0 ≡ before_first is_dot (cow_str_bytes text.now)) × (cow_str_bytes p.1 ≡ after_first is_dot (cow_str_bytes text.now)))) }
{
    if !cuts {
        return Ok(None);
    }
    match kind {
        Kind::Text => {}
        _ => return Ok(None),
    }
    match text {
        CowStr::Borrowed(words) => match split_dot(words) {
            None => Ok(None),
            Some((first, second)) => {
                Ok(Some((CowStr::Borrowed(first), CowStr::Borrowed(second))))
            }
        },
        CowStr::Owned(words) => match split_dot(words) {
            None => Ok(None),
            Some((first, second)) => Ok(Some((copied(alloc, first)?, copied(alloc, second)?))),
        },
    }
}

/// Two texts become a list.
fn take_pair<'s>(
    first: CowStr<'s>,
    second: CowStr<'s>,
    place: usize,
    end: usize,
    builder: &mut DocBuilder<'s>,
) -> Result<Position, Stop>
    requires small { place ≤ text_limit }
    requires awaited { AwaitsValue builder.old }
    ensures { Paired (cow_str_bytes first.entry) (cow_str_bytes second.entry) place end builder.old builder.new result }
{
    match builder.begin(false, offset(place)) {
        Ok(()) => {}
        Err(refused) => return Err(Stop::from(refused)),
    }
    match builder.scalar(Kind::Text, first, offset(place)) {
        Ok(()) => {}
        Err(_) => return Err(Stop::NoMemory),
    }
    match builder.scalar(Kind::Text, second, offset(place)) {
        Ok(()) => {}
        Err(_) => return Err(Stop::NoMemory),
    }
    match builder.end() {
        Ok(()) => Ok(Position {
            stage: Stage::After,
            at: end,
        }),
        Err(_) => Err(Stop::NoMemory),
    }
}

/// The scalar at a token becomes a value, or where it is cut a list of two.
fn take_cut<'s>(
    alloc: Global,
    text: &'s str,
    next: Ahead,
    mode: ScalarMode,
    builder: &mut DocBuilder<'s>,
) -> Result<Position, Stop>
    requires small { length text.now ≤ text_limit }
    requires boundary { IsCharBoundary text.now next.at }
    requires starts { starts_scalar next.token ≡ true }
    requires low { negsuc 0 ≤ℤ mode.setting.parent }
    requires high { mode.setting.parent ≤ℤ pos text_limit }
    requires awaited { AwaitsValue builder.old }
    ensures holds { Holds text.now mode.setting mode.cuts next builder.old builder.new result }
    ensures place { (q : ℕ) → result ≡ Err (Stop.Unread q) → FailedAt text.now mode.setting next q }
{
    let scalar = match find_scalar(alloc, text, next, mode.setting) {
        Ok(scalar) => scalar,
        Err(refusal) => return Err(refusal),
    };
    let Scalar {
        kind,
        text: words,
        end,
    } = scalar;
    match parts(alloc, mode.cuts, &kind, &words) {
        Err(_) => return Err(Stop::NoMemory),
        Ok(Some((first, second))) => return take_pair(first, second, next.at, end, builder),
        Ok(None) => {}
    }
    let content = kept_text(&kind, words);
    match builder.scalar(kind, content, offset(next.at)) {
        Ok(()) => Ok(Position {
            stage: Stage::After,
            at: end,
        }),
        Err(_) => Err(Stop::NoMemory),
    }
}

/// The scalar at a token becomes the value that is awaited at a place, by what a node stands in there.
pub fn take_scalar<'s>(
    alloc: Global,
    text: &'s str,
    site: Site,
    builder: &mut DocBuilder<'s>,
) -> Result<Position, Stop>
    requires small { length text.now ≤ text_limit }
    requires within { site.at ≤ length text.now }
    requires boundary { IsCharBoundary text.now site.next.at }
    requires starts { starts_scalar site.next.token ≡ true }
    requires form { IsSmall site.form }
    requires behind { IsBehind site.form site.at }
    requires awaited { AwaitsValue builder.old }
    ensures holds { Holds text.now (setting_of site.form) (follows_get_att text.now site.form site.at) site.next builder.old builder.new result }
    ensures place { (q : ℕ) → result ≡ Err (Stop.Unread q) → FailedAt text.now (setting_of site.form) site.next q }
{
    let mode = ScalarMode {
        setting: setting_of(site.form),
        cuts: follows_get_att(text.as_bytes(), site.form, site.at),
    };
    take_cut(alloc, text, site.next, mode, builder)
}

/// The same outside of flow, where a block scalar may break off at a dash.
pub fn take_block_scalar<'s>(
    alloc: Global,
    text: &'s str,
    site: Site,
    builder: &mut DocBuilder<'s>,
) -> Result<Position, Stop>
    requires small { length text.now ≤ text_limit }
    requires within { site.at ≤ length text.now }
    requires boundary { IsCharBoundary text.now site.next.at }
    requires starts { starts_scalar site.next.token ≡ true }
    requires form { IsSmall site.form }
    requires behind { IsBehind site.form site.at }
    requires awaited { AwaitsValue builder.old }
    ensures holds { Holds text.now (setting_of site.form) (follows_get_att text.now site.form site.at) site.next builder.old builder.new result }
    ensures place { (q : ℕ) → result ≡ Err (Stop.Unread q) → TornAt text.now (setting_of site.form) site.next q }
{
    match take_scalar(alloc, text, site, builder) {
        Ok(position) => Ok(position),
        Err(stop) => Err(torn_stop(text, site.next, stop)),
    }
}

/// Null becomes a value, where a node is missing.
pub fn take_null(place: usize, at: usize, builder: &mut DocBuilder) -> Result<Position, Stop>
    requires small { place ≤ text_limit }
    requires awaited { AwaitsValue builder.old }
    ensures { Completes at (with_value Kind.Null [] place builder.old) builder.new result }
{
    match builder.scalar(Kind::Null, CowStr::Borrowed(""), offset(place)) {
        Ok(()) => Ok(Position {
            stage: Stage::After,
            at,
        }),
        Err(_) => Err(Stop::NoMemory),
    }
}

/// The place behind the colon of a key outside of flow whose end is at a place, if there is one.
pub fn colon_behind(text: &str, end: usize) -> Option<usize>
    requires small { length text.now ≤ text_limit }
    requires boundary { IsCharBoundary text.now end }
    ensures { MatchOption result (((ahead text.now false end).fresh ≡ false) → ((ahead text.now false end).token ≡ Token.Point true) → ⊥) (λ p. ((ahead text.now false end).fresh ≡ false) × ((ahead text.now false end).token ≡ Token.Point true) × (p ≡ (ahead text.now false end).behind) × IsCharBoundary text.now p × (end ≤ p)) }
{
    let next = look(text, false, end);
    if next.fresh {
        return None;
    }
    match next.token {
        Token::Point { loose: true } => Some(next.behind),
        _ => None,
    }
}

/// The key that stands at a token outside of flow with its colon, if one does.
pub fn find_key<'s>(alloc: Global, text: &'s str, next: Ahead) -> Result<Option<Key<'s>>, Stop>
    requires small { length text.now ≤ text_limit }
    requires boundary { IsCharBoundary text.now next.at }
    requires starts { starts_scalar next.token ≡ true }
    ensures { FindsKey text.now next result }
{
    let scalar = match find_scalar(alloc, text, next, as_key(false)) {
        Ok(scalar) => scalar,
        Err(Stop::NoMemory) => return Err(Stop::NoMemory),
        Err(_) => return Ok(None),
    };
    let Scalar {
        kind: _,
        text: words,
        end,
    } = scalar;
    let Some(behind) = colon_behind(text, end) else {
        return Ok(None);
    };
    Ok(Some(Key {
        text: words,
        behind,
    }))
}

/// Whether a name is the key of its own tag.
fn is_key_itself(name: &str) -> bool
    ensures { result ≡ (bytes_eq name.now ref_text || bytes_eq name.now condition_text) }
{
    name == "Ref" || name == "Condition"
}

/// Whether the tag from one place to another is `!GetAtt`.
fn is_get_att(bytes: &[u8], at: usize, behind: usize) -> bool
    requires order { at < behind }
    requires within { behind ≤ length bytes.now }
    ensures { result ≡ bytes_eq (tag_name bytes.now at behind) get_att }
{
    &bytes[at + 1..behind] == "GetAtt".as_bytes()
}

/// Whether a place is that behind `!GetAtt`, by what a node stands in there.
pub fn follows_get_att(bytes: &[u8], form: Form, at: usize) -> bool
    requires within { at ≤ length bytes.now }
    requires behind { IsBehind form at }
    ensures { result ≡ follows_get_att bytes.now form at }
{
    match form {
        Form::Tagged { at: place, .. } => is_get_att(bytes, place, at),
        Form::FlowTagged { at: place } => is_get_att(bytes, place, at),
        Form::Root => false,
        Form::Flow { map: _ } => false,
        Form::Items { column: _ } => false,
        Form::Entries { column: _ } => false,
    }
}

/// The key that the tag from one place to another stands for.
fn tag_key<'s>(
    alloc: Global,
    text: &'s str,
    at: usize,
    behind: usize,
) -> Result<CowStr<'s>, AllocError>
    requires order { at < behind }
    requires first { IsCharBoundary text.now (at + 1) }
    requires last { IsCharBoundary text.now behind }
    ensures { IfOk result (λ key. cow_str_bytes key ≡ tag_key (tag_name text.now at behind)) }
{
    let name = &text[at + 1..behind];
    if is_key_itself(name) {
        return Ok(CowStr::Borrowed(name));
    }
    let mut key = String::new(alloc);
    key.push_str("Fn::")?;
    key.push_str(name)?;
    Ok(CowStr::Owned(key))
}

/// The map of a tag begins, and its value is awaited behind the tag's name.
pub fn begin_tag<'s>(
    alloc: Global,
    text: &'s str,
    map: TagMap,
    forms: &mut Vec<Form>,
    builder: &mut DocBuilder<'s>,
) -> Result<Position, Stop>
    requires small { map.next.at ≤ text_limit }
    requires order { map.next.at < map.next.behind }
    requires first { IsCharBoundary text.now (map.next.at + 1) }
    requires last { IsCharBoundary text.now map.next.behind }
    requires keys { has_keys map.form ≡ true }
    requires awaited { AwaitsValue builder.old }
    ensures { TagBegun text.now map.form map.next (stack forms.old.items) builder.old (stack forms.new.items) builder.new result }
{
    let key = match tag_key(alloc, text, map.next.at, map.next.behind) {
        Ok(key) => key,
        Err(_) => return Err(Stop::NoMemory),
    };
    match begin(map.form, map.next, forms, builder) {
        Err(refusal) => Err(refusal),
        Ok(()) => match builder.key(key, offset(map.next.at)) {
            Ok(()) => Ok(Position {
                stage: Stage::Value,
                at: map.next.behind,
            }),
            Err(_) => Err(Stop::NoMemory),
        },
    }
}
