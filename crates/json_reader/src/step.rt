//! One token at a time: what it adds to the tree, and what is awaited behind it.
ghost use Rattle.std.specs.Prelude.{◌≡◌, ◌+◌, ◌<◌, ◌≤◌, length, [], true, false, None, IsErrOf, MatchResult, slice_index, ℕ};
ghost use Rattle.doc_values.specs.Limits.{template_limit};
ghost use Rattle.json_reader.specs.Json.{is_space};
ghost use Rattle.json_reader.specs.code.Reading.{AtValue, AtKeyOrEnd, AtItemOrEnd, AtKey, AtColon, After, InString, InWord, begins_number, after_next, class_of};
ghost use Rattle.json_reader.specs.code.Memory.{begins, HasEscape};
ghost use Rattle.json_reader.specs.declared.bytes.Class.TheVariants.{Comma};
ghost use Rattle.json_reader.specs.code.Steps.{Gives, Leads, Fits, Number, IsRooted, IsPlain, form_of, open_next, end_next, phase_of};

use crate::bytes::{Class, byte_class};
use crate::number::number_at;
use crate::refusal::JsonRefusal;
use crate::stage::{Position, Stage};
use crate::text::text_at;
use doc_values::{DocBuilder, Kind};
use std::alloc::Global;
use std::borrow::CowStr;

/// An offset in a text of at most 8 MiB.
fn offset(i: usize) -> u32
    requires { i ≤ template_limit }
    ensures { result ≡ i }
{
    i as u32
}

/// The token that begins at a place, whatever is awaited.
pub(crate) fn step<'s>(
    alloc: Global,
    text: &'s str,
    position: Position,
    builder: &mut DocBuilder<'s>,
) -> Result<Position, JsonRefusal>
    requires within { position.at < length text.now }
    requires token { is_space (slice_index text.now position.at) ≡ false }
    requires small { length text.now ≤ template_limit }
    requires fits { Fits position.stage builder.old }
    ensures gives { Gives text.now position.at (phase_of position.stage) builder.old builder.new result }
    ensures memory { IsErrOf result JsonRefusal.NoMemory → begins (class_of (slice_index text.now position.at)) ≡ true }
{
    let at = position.at;
    match position.stage {
        Stage::Value => value_step(alloc, text, at, builder),
        Stage::KeyOrEnd => key_or_end_step(alloc, text, at, builder),
        Stage::ItemOrEnd => item_or_end_step(alloc, text, at, builder),
        Stage::Key => next_key_step(alloc, text, at, builder),
        Stage::Colon => colon_step(text, at, builder),
        Stage::After => after_step(text, at, builder),
    }
}

/// Where a value is awaited.
fn value_step<'s>(
    alloc: Global,
    text: &'s str,
    at: usize,
    builder: &mut DocBuilder<'s>,
) -> Result<Position, JsonRefusal>
    requires within { at < length text.now }
    requires token { is_space (slice_index text.now at) ≡ false }
    requires small { length text.now ≤ template_limit }
    requires fits { Fits Stage.Value builder.old }
    ensures gives { Gives text.now at AtValue builder.old builder.new result }
    ensures memory { IsErrOf result JsonRefusal.NoMemory → begins (class_of (slice_index text.now at)) ≡ true }
{
    let bytes = text.as_bytes();
    match byte_class(bytes[at]) {
        Class::Quote => text_step(alloc, text, at, builder),
        Class::Open => open_step(at, true, builder),
        Class::OpenList => open_step(at, false, builder),
        Class::LetterN => word_step(bytes, at, b"ull", Kind::Null, builder),
        Class::LetterT => word_step(bytes, at, b"rue", Kind::Truth(true), builder),
        Class::LetterF => word_step(bytes, at, b"alse", Kind::Truth(false), builder),
        Class::Minus | Class::Zero | Class::Digit => number_step(text, at, builder),
        _ => Err(JsonRefusal::Syntax(offset(at))),
    }
}

/// Behind the opening bracket of a map.
fn key_or_end_step<'s>(
    alloc: Global,
    text: &'s str,
    at: usize,
    builder: &mut DocBuilder<'s>,
) -> Result<Position, JsonRefusal>
    requires within { at < length text.now }
    requires token { is_space (slice_index text.now at) ≡ false }
    requires small { length text.now ≤ template_limit }
    requires fits { Fits Stage.KeyOrEnd builder.old }
    ensures gives { Gives text.now at AtKeyOrEnd builder.old builder.new result }
    ensures memory { IsErrOf result JsonRefusal.NoMemory → begins (class_of (slice_index text.now at)) ≡ true }
{
    match byte_class(text.as_bytes()[at]) {
        Class::Quote => key_step(alloc, text, at, builder),
        Class::Close => end_step(at, true, builder),
        _ => Err(JsonRefusal::Syntax(offset(at))),
    }
}

/// Behind the opening bracket of a list.
fn item_or_end_step<'s>(
    alloc: Global,
    text: &'s str,
    at: usize,
    builder: &mut DocBuilder<'s>,
) -> Result<Position, JsonRefusal>
    requires within { at < length text.now }
    requires token { is_space (slice_index text.now at) ≡ false }
    requires small { length text.now ≤ template_limit }
    requires fits { Fits Stage.ItemOrEnd builder.old }
    ensures gives { Gives text.now at AtItemOrEnd builder.old builder.new result }
    ensures memory { IsErrOf result JsonRefusal.NoMemory → begins (class_of (slice_index text.now at)) ≡ true }
{
    match byte_class(text.as_bytes()[at]) {
        Class::CloseList => end_step(at, false, builder),
        _ => value_step(alloc, text, at, builder),
    }
}

/// Behind a comma in a map.
fn next_key_step<'s>(
    alloc: Global,
    text: &'s str,
    at: usize,
    builder: &mut DocBuilder<'s>,
) -> Result<Position, JsonRefusal>
    requires within { at < length text.now }
    requires token { is_space (slice_index text.now at) ≡ false }
    requires small { length text.now ≤ template_limit }
    requires fits { Fits Stage.Key builder.old }
    ensures gives { Gives text.now at AtKey builder.old builder.new result }
    ensures memory { IsErrOf result JsonRefusal.NoMemory → begins (class_of (slice_index text.now at)) ≡ true }
{
    match byte_class(text.as_bytes()[at]) {
        Class::Quote => key_step(alloc, text, at, builder),
        _ => Err(JsonRefusal::Syntax(offset(at))),
    }
}

/// Behind a key.
fn colon_step(text: &str, at: usize, builder: &DocBuilder) -> Result<Position, JsonRefusal>
    requires within { at < length text.now }
    requires token { is_space (slice_index text.now at) ≡ false }
    requires small { length text.now ≤ template_limit }
    requires fits { Fits Stage.Colon builder.now }
    ensures gives { Gives text.now at AtColon builder.now builder.now result }
    ensures no_memory { ¬ IsErrOf result JsonRefusal.NoMemory }
{
    match byte_class(text.as_bytes()[at]) {
        Class::Colon => Ok(Position {
            at: at + 1,
            stage: Stage::Value,
        }),
        _ => Err(JsonRefusal::Syntax(offset(at))),
    }
}

/// Behind a value.
fn after_step(text: &str, at: usize, builder: &mut DocBuilder) -> Result<Position, JsonRefusal>
    requires within { at < length text.now }
    requires token { is_space (slice_index text.now at) ≡ false }
    requires small { length text.now ≤ template_limit }
    requires fits { Fits Stage.After builder.old }
    ensures gives { Gives text.now at After builder.old builder.new result }
    ensures no_memory { ¬ IsErrOf result JsonRefusal.NoMemory }
{
    match byte_class(text.as_bytes()[at]) {
        Class::Comma => comma_step(at, builder),
        Class::Close => end_step(at, true, builder),
        Class::CloseList => end_step(at, false, builder),
        _ => Err(JsonRefusal::Syntax(offset(at))),
    }
}

/// A text is a value.
fn text_step<'s>(
    alloc: Global,
    text: &'s str,
    at: usize,
    builder: &mut DocBuilder<'s>,
) -> Result<Position, JsonRefusal>
    requires within { at < length text.now }
    requires small { length text.now ≤ template_limit }
    requires quote { slice_index text.now at ≡ 34 }
    requires fits { Fits Stage.Value builder.old }
    ensures { Gives text.now (at + 1) (InString false [] [] at) builder.old builder.new result }
{
    match text_at(alloc, text, at + 1) {
        Err(refusal) => Err(refusal),
        Ok((content, end)) => {
            builder.scalar(Kind::Text, content, offset(at))?;
            Ok(Position {
                at: end,
                stage: Stage::After,
            })
        }
    }
}

/// A text is a key.
fn key_step<'s>(
    alloc: Global,
    text: &'s str,
    at: usize,
    builder: &mut DocBuilder<'s>,
) -> Result<Position, JsonRefusal>
    requires within { at < length text.now }
    requires small { length text.now ≤ template_limit }
    requires quote { slice_index text.now at ≡ 34 }
    requires fits { Fits Stage.Key builder.old }
    ensures gives { Gives text.now (at + 1) (InString true [] [] at) builder.old builder.new result }
    ensures memory { IsErrOf result JsonRefusal.NoMemory → HasEscape text.now }
{
    match text_at(alloc, text, at + 1) {
        Err(refusal) => Err(refusal),
        Ok((content, end)) => match builder.key(content, offset(at)) {
            Ok(()) => Ok(Position {
                at: end,
                stage: Stage::Colon,
            }),
            Err(refusal) => Err(JsonRefusal::from(refusal)),
        },
    }
}

/// The number at a place is a value.
fn number_step(text: &str, at: usize, builder: &mut DocBuilder) -> Result<Position, JsonRefusal>
    requires within { at < length text.now }
    requires small { length text.now ≤ template_limit }
    requires begins { begins_number (slice_index text.now at) ≡ true }
    requires fits { Fits Stage.Value builder.old }
    ensures gives { Gives text.now at AtValue builder.old builder.new result }
    ensures memory { IsErrOf result JsonRefusal.NoMemory → (kind : Kind) × (end : ℕ) × Number text.now at kind end }
{
    match number_at(text, at) {
        Err(refusal) => Err(refusal),
        Ok((kind, end)) => {
            builder.scalar(kind, CowStr::Borrowed(""), offset(at))?;
            Ok(Position {
                at: end,
                stage: Stage::After,
            })
        }
    }
}

/// A literal name whose first byte stands at a place is a value.
fn word_step(
    bytes: &[u8],
    at: usize,
    rest: &[u8],
    kind: Kind,
    builder: &mut DocBuilder,
) -> Result<Position, JsonRefusal>
    requires within { at < length bytes.now }
    requires small { length bytes.now ≤ template_limit }
    requires some { 0 < length rest.now }
    requires plain { IsPlain kind }
    requires fits { Fits Stage.Value builder.old }
    ensures { Gives bytes.now (at + 1) (InWord rest.now kind at) builder.old builder.new result }
{
    for (i, byte) in rest.iter().enumerate() {
        let place = at + 1 + i;
        if place == bytes.len() {
            return Err(JsonRefusal::Syntax(offset(place)));
        }
        if bytes[place] != *byte {
            return Err(JsonRefusal::Syntax(offset(place)));
        }
    }
    builder.scalar(kind, CowStr::Borrowed(""), offset(at))?;
    Ok(Position {
        at: at + 1 + rest.len(),
        stage: Stage::After,
    })
}

/// A map or a list begins.
fn open_step(at: usize, map: bool, builder: &mut DocBuilder) -> Result<Position, JsonRefusal>
    requires small { at < template_limit }
    requires fits { Fits Stage.Value builder.old }
    ensures leads { Leads at (open_next map at builder.old) (JsonRefusal.TooDeep at) builder.new result }
    ensures no_memory_where_deep { length builder.old.outer ≡ 128 → IsErrOf result (JsonRefusal.TooDeep at) }
{
    builder.begin(map, offset(at))?;
    Ok(Position {
        at: at + 1,
        stage: if map {
            Stage::KeyOrEnd
        } else {
            Stage::ItemOrEnd
        },
    })
}

/// Whether the innermost open collection is a map, if one is open.
fn innermost_is_map(builder: &DocBuilder) -> Option<bool>
    ensures { result ≡ form_of builder.now.outer }
{
    match builder.innermost() {
        None => None,
        Some(Kind::Map) => Some(true),
        Some(_) => Some(false),
    }
}

/// The innermost collection ends, if it is of this form.
fn end_step(at: usize, map: bool, builder: &mut DocBuilder) -> Result<Position, JsonRefusal>
    requires small { at < template_limit }
    requires rooted { IsRooted builder.old.outer }
    requires key { builder.old.key ≡ None }
    ensures leads { Leads at (end_next map builder.old) (JsonRefusal.Syntax at) builder.new result }
    ensures no_memory { ¬ IsErrOf result JsonRefusal.NoMemory }
{
    match innermost_is_map(builder) {
        None => Err(JsonRefusal::Syntax(offset(at))),
        Some(form) => {
            if form != map {
                return Err(JsonRefusal::Syntax(offset(at)));
            }
            builder.end()?;
            Ok(Position {
                at: at + 1,
                stage: Stage::After,
            })
        }
    }
}

/// Another entry comes, if a collection is open.
fn comma_step(at: usize, builder: &DocBuilder) -> Result<Position, JsonRefusal>
    requires small { at < template_limit }
    requires fits { Fits Stage.After builder.now }
    ensures leads { Leads at (after_next builder.now Comma) (JsonRefusal.Syntax at) builder.now result }
    ensures no_memory { ¬ IsErrOf result JsonRefusal.NoMemory }
{
    match innermost_is_map(builder) {
        None => Err(JsonRefusal::Syntax(offset(at))),
        Some(true) => Ok(Position {
            at: at + 1,
            stage: Stage::Key,
        }),
        Some(false) => Ok(Position {
            at: at + 1,
            stage: Stage::Value,
        }),
    }
}
