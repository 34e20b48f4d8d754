//! Literals, which grow in an unfinished tree as they are read.
ghost use Rattle.std.specs.Prelude.{◌≡◌, ◌+◌, ◌<◌, ◌≤◌, ℕ, length, List, Option, Some, None, IfOk, IfErr, OnOk, string_bytes, false, true};
ghost use Rattle.std.specs.Cow.{cow_str_bytes};
ghost use Rattle.doc_values.specs.Tree.{Nil};
ghost use Rattle.doc_values.specs.Unfinished.{AwaitsValue, MayEnd, open_kind, with_open, with_end};
ghost use Rattle.literal_parser.specs.Lexemes.{Lexeme};
ghost use Rattle.literal_parser.specs.code.TokenClasses.{wants};
ghost use Rattle.literal_parser.specs.code.Parser as spec;
ghost use Rattle.literal_parser.specs.Literal.{constant_kind, scalar_text, is_mixed as spec_is_mixed};
ghost use Rattle.literal_parser.specs.code.LiteralReading.{bounds, literal_of};
ghost use Rattle.literal_parser.specs.code.Reads.{Reads, itself, state_of, source};
ghost use Rattle.literal_parser.specs.code.LiteralReads.{Puts, IsOpen, IsLevel, with_tree, with_all, kind_of, number_kind, is_quoted, scalar_at, range_at, list_at, map_at, node_at, items_at, more_items_at, entry_at, entries_at, more_entries_at};

use crate::cursor::Halt;
use crate::keyword::Keyword;
use crate::token_class::{TokenClass, TokenTest};
use crate::token_cursor::{Cursor, Tokens};
use doc_values::{BuildRefusal, Doc, DocBuilder, Kind, Num, Range};
use std::alloc::{AllocError, Global};
use std::borrow::CowStr;

/// A literal with at most so many brackets in each other.
#[tactic(auto, using(crate::proofs::LiteralSteps::literal_unread))]
pub fn literal(
    alloc: Global,
    tokens: Tokens<'_>,
    cursor: &mut Cursor,
    depth: usize,
) -> Result<Doc<'static>, Halt>
    requires room { depth ≤ 128 }
    ensures { Reads itself (literal_of (source tokens.entry) tokens.entry.turns depth (state_of cursor.old) cursor.old.seen) result cursor.new }
{
    let mut builder: DocBuilder<'static> = DocBuilder::new(alloc);
    node(alloc, tokens, cursor, &mut builder, depth)?;
    Ok(builder.finish())
}

/// One value with what stands in it.
#[cycle(literal)]
#[tactic(auto, unfolding(crate::specs::code::LiteralReading::node, crate::specs::code::LiteralReading::bounded, crate::specs::code::Parser::choose, crate::specs::code::Parser::choose_pair))]
fn node(
    alloc: Global,
    tokens: Tokens<'_>,
    cursor: &mut Cursor,
    builder: &mut DocBuilder<'static>,
    depth: usize,
) -> Result<(), Halt>
    requires awaited { AwaitsValue builder.old }
    requires room { length builder.old.outer + depth ≤ 128 }
    ensures reads { Puts (with_tree builder.old) (node_at tokens.entry depth builder.old.key (state_of cursor.old) cursor.old.seen) result builder.new cursor.new }
    ensures level { OnOk result (IsLevel builder.old builder.new) }
{
    if cursor.sees(tokens, TokenTest::Scalar) {
        return scalar(alloc, tokens, cursor, builder);
    }
    if cursor.sees(tokens, TokenTest::LBracket) {
        return list(alloc, tokens, cursor, builder, depth);
    }
    if cursor.sees(tokens, TokenTest::LBrace) {
        return map(alloc, tokens, cursor, builder, depth);
    }
    if !cursor.sees(tokens, TokenTest::R) {
        return Err(Halt::Dead(cursor.seen));
    }
    if depth == 0 {
        return Err(Halt::Dead(cursor.seen));
    }
    if !cursor.sees_range(tokens) {
        return Err(Halt::Dead(cursor.seen));
    }
    range(tokens, cursor, builder)
}

/// A value of one token.
#[tactic(auto, using(crate::proofs::Takes::has_none))]
fn scalar(
    alloc: Global,
    tokens: Tokens<'_>,
    cursor: &mut Cursor,
    builder: &mut DocBuilder<'static>,
) -> Result<(), Halt>
    requires awaited { AwaitsValue builder.old }
    ensures reads { Puts (with_tree builder.old) (scalar_at tokens.entry builder.old.key (state_of cursor.old) cursor.old.seen) result builder.new cursor.new }
    ensures level { OnOk result (IsLevel builder.old builder.new) }
{
    let at = cursor.at;
    cursor.takes(tokens, TokenTest::Scalar)?;
    let text = scalar_text(alloc, tokens, at)?;
    let kind = kind_of(tokens.shape(at), tokens.number(at));
    match builder.scalar(kind, text, tokens.from(at)) {
        Ok(()) => Ok(()),
        Err(_) => Err(Halt::NoMemory),
    }
}

/// What a number is as a value.
fn number_kind(number: Num) -> Kind
    ensures { result ≡ number_kind number }
{
    match number {
        Num::Whole(n) => Kind::Whole(n),
        Num::Fraction(d) => Kind::Fraction(d),
    }
}

/// What a keyword is as a value.
fn constant_kind(keyword: Keyword) -> Kind
    ensures { result ≡ constant_kind keyword }
{
    match keyword {
        Keyword::True => Kind::Truth(true),
        Keyword::False => Kind::Truth(false),
        _ => Kind::Null,
    }
}

/// The kind of a value of one token, by its shape and its number.
fn kind_of(shape: TokenClass, number: Num) -> Kind
    ensures { result ≡ kind_of shape number }
{
    match shape {
        TokenClass::Str => Kind::Text,
        TokenClass::Pat => Kind::Pattern,
        TokenClass::Index(_) | TokenClass::Whole | TokenClass::Fraction => number_kind(number),
        TokenClass::Reserved(keyword) => constant_kind(keyword),
        _ => Kind::Null,
    }
}

/// Whether a value of one token has a text.
fn is_quoted(shape: TokenClass) -> bool
    ensures { result ≡ is_quoted shape }
{
    matches!(shape, TokenClass::Str | TokenClass::Pat)
}

/// The text of a value of one token.
fn scalar_text(alloc: Global, tokens: Tokens<'_>, at: usize) -> Result<CowStr<'static>, AllocError>
    ensures { IfOk result (λ t. cow_str_bytes t ≡ scalar_text (source tokens.entry at).word) }
{
    if !is_quoted(tokens.shape(at)) {
        return Ok(CowStr::Borrowed(""));
    }
    match tokens.text(alloc, at) {
        Ok(text) => Ok(CowStr::Owned(text.into_string())),
        Err(e) => Err(e),
    }
}

/// The bounds of a range.
#[tactic(auto, unfolding(crate::specs::code::LiteralReading::bounds))]
fn limits(tokens: Tokens<'_>, cursor: &mut Cursor) -> Result<Range, Halt>
    ensures { Reads itself (bounds (source tokens.entry) (state_of cursor.old) cursor.old.seen) result cursor.new }
{
    let low_in = cursor.has_square(tokens, TokenTest::OpeningEnd)?;
    let low = cursor.has_number(tokens)?;
    cursor.takes(tokens, TokenTest::Comma)?;
    let high = cursor.has_number(tokens)?;
    let high_in = cursor.has_square(tokens, TokenTest::ClosingEnd)?;
    Ok(Range {
        low,
        high,
        low_in,
        high_in,
    })
}

/// A range.
#[tactic(auto, using(crate::proofs::LiteralSteps::range_failed, crate::proofs::LiteralSteps::range_unread))]
fn range(
    tokens: Tokens<'_>,
    cursor: &mut Cursor,
    builder: &mut DocBuilder<'static>,
) -> Result<(), Halt>
    requires awaited { AwaitsValue builder.old }
    ensures reads { Puts (with_tree builder.old) (range_at tokens.entry builder.old.key (state_of cursor.old) cursor.old.seen) result builder.new cursor.new }
    ensures level { OnOk result (IsLevel builder.old builder.new) }
{
    let from = tokens.from(cursor.at);
    cursor.takes(tokens, TokenTest::R)?;
    let limits = limits(tokens, cursor)?;
    cursor.note_range(is_mixed(&limits), from);
    match builder.scalar(Kind::Limits(limits), CowStr::Borrowed(""), from) {
        Ok(()) => Ok(()),
        Err(_) => Err(Halt::NoMemory),
    }
}

/// Whether one bound is a whole number and the other a decimal.
fn is_mixed(limits: &Range) -> bool
    ensures { result ≡ spec_is_mixed limits.now }
{
    match limits.low {
        Num::Whole(_) => matches!(limits.high, Num::Fraction(_)),
        Num::Fraction(_) => matches!(limits.high, Num::Whole(_)),
    }
}

/// A list or a map begins.
fn begun(builder: &mut DocBuilder<'static>, map: bool, at: u32) -> Result<(), Halt>
    requires awaited { AwaitsValue builder.old }
    requires room { length builder.old.outer < 128 }
    ensures ok { OnOk result (builder.new ≡ with_open (open_kind map) at builder.old) }
    ensures refused { IfErr result (λ e. e ≡ Halt.NoMemory) }
{
    match builder.begin(map, at) {
        Ok(()) => Ok(()),
        Err(BuildRefusal::TooDeep(_)) => unreachable!(),
        Err(_) => Err(Halt::NoMemory),
    }
}

/// The innermost list or map ends.
fn ended(builder: &mut DocBuilder<'static>)
    requires awaited { MayEnd builder.old }
    ensures { builder.new ≡ with_end builder.old }
{
    match builder.end() {
        Ok(()) => {}
        Err(_) => unreachable!(),
    }
}

/// A list.
#[cycle(literal)]
fn list(
    alloc: Global,
    tokens: Tokens<'_>,
    cursor: &mut Cursor,
    builder: &mut DocBuilder<'static>,
    depth: usize,
) -> Result<(), Halt>
    requires awaited { AwaitsValue builder.old }
    requires room { length builder.old.outer + depth ≤ 128 }
    ensures reads { Puts (with_tree builder.old) (list_at tokens.entry depth builder.old.key (state_of cursor.old) cursor.old.seen) result builder.new cursor.new }
    ensures level { OnOk result (IsLevel builder.old builder.new) }
{
    let from = tokens.from(cursor.at);
    cursor.takes(tokens, TokenTest::LBracket)?;
    if depth == 0 {
        return Err(Halt::Dead(cursor.seen));
    }
    begun(builder, false, from)?;
    items(alloc, tokens, cursor, builder, depth - 1)?;
    cursor.takes(tokens, TokenTest::RBracket)?;
    ended(builder);
    Ok(())
}

/// What stands in a list.
#[cycle(literal)]
#[tactic(auto, unfolding(crate::specs::code::LiteralReading::items_of, crate::specs::code::Parser::choose))]
fn items(
    alloc: Global,
    tokens: Tokens<'_>,
    cursor: &mut Cursor,
    builder: &mut DocBuilder<'static>,
    depth: usize,
) -> Result<(), Halt>
    requires opened { IsOpen false builder.old }
    requires room { length builder.old.outer + depth ≤ 128 }
    ensures reads { Puts (with_all builder.old) (items_at tokens.entry depth (state_of cursor.old) cursor.old.seen) result builder.new cursor.new }
    ensures level { OnOk result (IsLevel builder.old builder.new) }
{
    if cursor.sees(tokens, TokenTest::RBracket) {
        return Ok(());
    }
    node(alloc, tokens, cursor, builder, depth)?;
    more_items(alloc, tokens, cursor, builder, depth)?;
    Ok(())
}

/// What stands behind an item of a list.
#[cycle(literal)]
#[tactic(auto, unfolding(crate::specs::code::LiteralReading::more_items, crate::specs::code::Parser::choose))]
fn more_items(
    alloc: Global,
    tokens: Tokens<'_>,
    cursor: &mut Cursor,
    builder: &mut DocBuilder<'static>,
    depth: usize,
) -> Result<(), Halt>
    requires opened { IsOpen false builder.old }
    requires room { length builder.old.outer + depth ≤ 128 }
    ensures reads { Puts (with_all builder.old) (more_items_at tokens.entry depth tokens.entry.turns (state_of cursor.old) cursor.old.seen) result builder.new cursor.new }
    ensures level { OnOk result (IsLevel builder.old builder.new) }
{
    for _turn in 0..tokens.turns {
        if !cursor.sees(tokens, TokenTest::Comma) {
            return Ok(());
        }
        cursor.takes(tokens, TokenTest::Comma)?;
        node(alloc, tokens, cursor, builder, depth)?;
    }
    Err(Halt::Dead(cursor.seen))
}

/// A map.
#[cycle(literal)]
fn map(
    alloc: Global,
    tokens: Tokens<'_>,
    cursor: &mut Cursor,
    builder: &mut DocBuilder<'static>,
    depth: usize,
) -> Result<(), Halt>
    requires awaited { AwaitsValue builder.old }
    requires room { length builder.old.outer + depth ≤ 128 }
    ensures reads { Puts (with_tree builder.old) (map_at tokens.entry depth builder.old.key (state_of cursor.old) cursor.old.seen) result builder.new cursor.new }
    ensures level { OnOk result (IsLevel builder.old builder.new) }
{
    let from = tokens.from(cursor.at);
    cursor.takes(tokens, TokenTest::LBrace)?;
    if depth == 0 {
        return Err(Halt::Dead(cursor.seen));
    }
    begun(builder, true, from)?;
    entries(alloc, tokens, cursor, builder, depth - 1)?;
    cursor.takes(tokens, TokenTest::RBrace)?;
    ended(builder);
    Ok(())
}

/// What stands in a map.
#[cycle(literal)]
#[tactic(auto, unfolding(crate::specs::code::LiteralReading::entries_of, crate::specs::code::Parser::choose))]
fn entries(
    alloc: Global,
    tokens: Tokens<'_>,
    cursor: &mut Cursor,
    builder: &mut DocBuilder<'static>,
    depth: usize,
) -> Result<(), Halt>
    requires opened { IsOpen true builder.old }
    requires none { builder.old.done ≡ Nil }
    requires room { length builder.old.outer + depth ≤ 128 }
    ensures reads { Puts (with_all builder.old) (entries_at tokens.entry depth (state_of cursor.old) cursor.old.seen) result builder.new cursor.new }
    ensures level { OnOk result (IsLevel builder.old builder.new) }
{
    if cursor.sees(tokens, TokenTest::RBrace) {
        return Ok(());
    }
    entry(alloc, tokens, cursor, builder, depth)?;
    more_entries(alloc, tokens, cursor, builder, depth)?;
    Ok(())
}

/// What stands behind an entry of a map.
#[cycle(literal)]
#[tactic(auto, unfolding(crate::specs::code::LiteralReading::more_entries, crate::specs::code::Parser::choose))]
fn more_entries(
    alloc: Global,
    tokens: Tokens<'_>,
    cursor: &mut Cursor,
    builder: &mut DocBuilder<'static>,
    depth: usize,
) -> Result<(), Halt>
    requires opened { IsOpen true builder.old }
    requires room { length builder.old.outer + depth ≤ 128 }
    ensures reads { Puts (with_all builder.old) (more_entries_at tokens.entry depth tokens.entry.turns builder.old.done (state_of cursor.old) cursor.old.seen) result builder.new cursor.new }
    ensures level { OnOk result (IsLevel builder.old builder.new) }
{
    for _turn in 0..tokens.turns {
        if !cursor.sees(tokens, TokenTest::Comma) {
            return Ok(());
        }
        cursor.takes(tokens, TokenTest::Comma)?;
        entry(alloc, tokens, cursor, builder, depth)?;
    }
    Err(Halt::Dead(cursor.seen))
}

/// An entry of a map, whose key no entry before has.
#[cycle(literal)]
#[tactic(auto, unfolding(crate::specs::code::LiteralReading::entry, crate::specs::code::LiteralReading::valued))]
fn entry(
    alloc: Global,
    tokens: Tokens<'_>,
    cursor: &mut Cursor,
    builder: &mut DocBuilder<'static>,
    depth: usize,
) -> Result<(), Halt>
    requires opened { IsOpen true builder.old }
    requires room { length builder.old.outer + depth ≤ 128 }
    ensures reads { Puts (with_tree builder.old) (entry_at tokens.entry depth builder.old.done (state_of cursor.old) cursor.old.seen) result builder.new cursor.new }
    ensures level { OnOk result (IsLevel builder.old builder.new) }
{
    let from = tokens.from(cursor.at);
    let key = cursor.has_text(alloc, tokens, TokenTest::Key)?;
    match builder.key(CowStr::Owned(key.into_string()), from) {
        Ok(()) => {}
        Err(BuildRefusal::DuplicateKey(_)) => return Err(Halt::Dead(cursor.seen)),
        Err(_) => unreachable!(),
    }
    cursor.takes(tokens, TokenTest::Colon)?;
    node(alloc, tokens, cursor, builder, depth)?;
    Ok(())
}
