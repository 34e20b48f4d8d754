//! What the text of a token means.
ghost use Rattle.std.specs.Prelude.{◌≡◌, ◌≤◌, ◌<◌, ◌+◌, ◌-◌, ◌==◌, ◌&&◌, ℕ, List, length, slice_index, map, take, drop, slice_range, string_bytes, IfOk};
ghost use Rattle.decimals.specs.declared.decimal.Num.{Num};
ghost use Rattle.guard_lexer.specs.declared.token.Token.{Token};
ghost use Rattle.guard_lexer.specs.Bytes.{is_white};
ghost use Rattle.literal_parser.specs.Lexemes.{lexeme_of, word_of, name_word, keyword_in, keyword_of, text_within, note_within, front_trimmed, back_trimmed};
ghost use Rattle.literal_parser.specs.Forms.{text_in, text_of, number_in, keyword_operator, mark_operator};
ghost use Rattle.literal_parser.specs.code.Cuts.{IsCut, IsEdged, IsFramed, IsTokenIn, AreTokensIn};
ghost use Rattle.literal_parser.specs.code.TokenClasses.{spelling, shape_in, shape_of, name_shape, whole_shape, shape_operator, shape_sign, shape_index};

use crate::keyword::{KEYWORDS, Keyword};
use crate::token_class::TokenClass;
use doc_values::Num;
use guard_lexer::{Mark, Token, TokenKind};
use guard_syntax::{Op, Text};
use std::alloc::{AllocError, Global};

/// The keyword that is written so, among those of a table.
fn keyword_among(rows: &[(&str, Keyword)], name: &str) -> Option<Keyword>
    ensures { result ≡ keyword_in (map spelling rows.now) name.now }
{
    for row in rows {
        if name == row.0 {
            return Some(row.1);
        }
    }
    None
}

/// The keyword of a name.
#[tactic(auto, unfolding(crate::specs::Lexemes::keyword_of))]
fn keyword_of(name: &str) -> Option<Keyword>
    ensures { result ≡ keyword_of name.now }
{
    keyword_among(&KEYWORDS, name)
}

/// What a name that is no keyword is to the grammar.
fn plain_shape(name: &str) -> TokenClass
    ensures { result ≡ name_shape name.now }
{
    match name {
        "r" => TokenClass::R,
        "default" => TokenClass::Default,
        _ => TokenClass::Name,
    }
}

fn name_shape(name: &str) -> TokenClass
    ensures { result ≡ shape_in (name_word (keyword_of name.now) name.now) }
{
    match keyword_of(name) {
        Some(keyword) => TokenClass::Reserved(keyword),
        None => plain_shape(name),
    }
}

fn whole_shape(n: i64) -> TokenClass
    ensures { result ≡ whole_shape n }
{
    match u32::try_from(n) {
        Ok(index) => TokenClass::Index(index),
        Err(_) => TokenClass::Whole,
    }
}

/// The part of a text that a token is.
fn part_of(text: &str, token: Token) -> &str
    requires { IsCut text.now token.from token.to }
    ensures { result.now ≡ slice_range text.now token.from token.to }
{
    &text[token.from as usize..token.to as usize]
}

/// What a token of a text is to the grammar.
fn shape_of(text: &str, token: Token) -> TokenClass
    requires { IsTokenIn text.now token }
    ensures { result ≡ shape_of (lexeme_of text.now token) }
{
    match token.kind {
        TokenKind::Name => name_shape(part_of(text, token)),
        TokenKind::TypeName => TokenClass::TypeName,
        TokenKind::Var => TokenClass::Var,
        TokenKind::Str => TokenClass::Str,
        TokenKind::Pat => TokenClass::Pat,
        TokenKind::Whole(n) => whole_shape(n),
        TokenKind::Fraction(_) => TokenClass::Fraction,
        TokenKind::Note => TokenClass::Note,
        TokenKind::Mark(mark) => TokenClass::Sign(mark),
    }
}

/// What each token of a text is to the grammar.
pub fn shapes_of(alloc: Global, text: &str, tokens: &[Token]) -> Result<Vec<TokenClass>, AllocError>
    requires { AreTokensIn text.now tokens.now }
    ensures { IfOk result (λ shapes. shapes.items ≡ map (λ (t : Token). shape_of (lexeme_of text.now t)) tokens.now) }
{
    let mut shapes = Vec::with_capacity(alloc, tokens.len())?;
    for token in tokens {
        match shapes.push(shape_of(text, *token)) {
            Ok(()) => {}
            Err(_) => unreachable!(),
        }
    }
    Ok(shapes)
}

/// Whether a backslash and a quote stand at a place.
fn is_escape(bytes: &[u8], at: usize, quote: u8) -> bool
    requires { at + 1 < length bytes.now }
    ensures { result ≡ (slice_index bytes.now at == 92 && slice_index bytes.now (at + 1) == quote) }
{
    if bytes[at] != b'\\' {
        return false;
    }
    bytes[at + 1] == quote
}

/// A text or pattern, with its quotes, as it is meant.
fn unquoted(alloc: Global, part: &str) -> Result<String, AllocError>
    requires { IsEdged part.now }
    ensures { IfOk result (λ text. string_bytes text ≡ text_within part.now) }
{
    let bytes = part.as_bytes();
    let mut text = String::new(alloc);
    let quote = bytes[0];
    let mut start = 1;
    let mut at = 1;
    while at + 1 < bytes.len() {
        if is_escape(bytes, at, quote) {
            text.push_str(&part[start..at])?;
            start = at + 1;
            at += 2;
        } else {
            at += 1;
        }
    }
    text.push_str(&part[start..at])?;
    Ok(text)
}

fn is_white(byte: u8) -> bool
    ensures { result ≡ is_white byte }
{
    byte == b' ' || byte == b'\t' || byte == b'\n' || byte == b'\r'
}

/// How much white space is in front.
fn white_len(bytes: &[u8]) -> usize
    ensures rest { drop result bytes.now ≡ front_trimmed bytes.now }
    ensures within { result ≤ length bytes.now }
    ensures last { 0 < result → slice_index bytes.now (result - 1) < 128 }
{
    for (at, byte) in bytes.iter().enumerate() {
        if !is_white(*byte) {
            return at;
        }
    }
    bytes.len()
}

/// How much is left without the white space at the end.
fn solid_len(bytes: &[u8]) -> usize
    ensures front { take result bytes.now ≡ back_trimmed bytes.now }
    ensures within { result ≤ length bytes.now }
    ensures next { result < length bytes.now → slice_index bytes.now result < 128 }
{
    let mut len = bytes.len();
    while len > 0 && is_white(bytes[len - 1]) {
        len -= 1;
    }
    len
}

fn front_trimmed(text: &str) -> &str
    ensures { result.now ≡ front_trimmed text.now }
{
    &text[white_len(text.as_bytes())..]
}

fn back_trimmed(text: &str) -> &str
    ensures { result.now ≡ back_trimmed text.now }
{
    &text[..solid_len(text.as_bytes())]
}

/// What a note says: what stands between its signs, without white space at both ends.
fn note_of(alloc: Global, part: &str) -> Result<String, AllocError>
    requires { IsFramed part.now }
    ensures { IfOk result (λ text. string_bytes text ≡ note_within part.now) }
{
    let within = &part[2..part.len() - 2];
    String::from_str(alloc, back_trimmed(front_trimmed(within)))
}

/// The name of a variable, behind its `%`.
fn variable_of(part: &str) -> &str
    requires { IsEdged part.now }
    ensures { result.now ≡ slice_range part.now 1 (length part.now) }
{
    &part[1..part.len()]
}

/// What a token of a text says.
fn meant(alloc: Global, text: &str, token: Token) -> Result<String, AllocError>
    requires { IsTokenIn text.now token }
    ensures { IfOk result (λ said. string_bytes said ≡ text_of (lexeme_of text.now token)) }
{
    match token.kind {
        TokenKind::Name => String::from_str(alloc, part_of(text, token)),
        TokenKind::TypeName => String::from_str(alloc, part_of(text, token)),
        TokenKind::Var => String::from_str(alloc, variable_of(part_of(text, token))),
        TokenKind::Str | TokenKind::Pat => unquoted(alloc, part_of(text, token)),
        TokenKind::Note => note_of(alloc, part_of(text, token)),
        _ => Ok(String::new(alloc)),
    }
}

/// What a token of a text says: a name, a variable without its `%`, a text, a pattern or a note as it is meant.
pub(crate) fn text_of(alloc: Global, text: &str, token: Token) -> Result<Text, AllocError>
    requires { IsTokenIn text.now token }
    ensures { IfOk result (λ found. found ≡ text_of (lexeme_of text.now token)) }
{
    Ok(Text::new(meant(alloc, text, token)?))
}

/// The number of a token of a text; 0 where it is none.
pub(crate) fn number_of(kind: TokenKind) -> Num
    ensures { (part : List ℕ) → result ≡ number_in (word_of kind part) }
{
    match kind {
        TokenKind::Whole(n) => Num::Whole(n),
        TokenKind::Fraction(d) => Num::Fraction(d),
        _ => Num::Whole(0),
    }
}

/// The operator of a keyword.
fn keyword_operator(keyword: Keyword) -> Op
    ensures { result ≡ keyword_operator keyword }
{
    match keyword {
        Keyword::In => Op::Within,
        Keyword::Empty => Op::Empty,
        Keyword::IsString => Op::IsString,
        Keyword::IsList => Op::IsList,
        Keyword::IsStruct => Op::IsStruct,
        Keyword::IsBool => Op::IsBool,
        Keyword::IsInt => Op::IsInt,
        Keyword::IsFloat => Op::IsFloat,
        Keyword::IsNull => Op::IsNull,
        _ => Op::Exists,
    }
}

/// The operator of a keyword's shape; `exists` where it is of another.
pub(crate) fn operator_of(shape: TokenClass) -> Op
    ensures { result ≡ shape_operator shape }
{
    match shape {
        TokenClass::Reserved(keyword) => keyword_operator(keyword),
        _ => Op::Exists,
    }
}

/// The operator of a mark, and whether it is negated.
fn mark_operator(mark: Mark) -> (Op, bool)
    ensures { result ≡ mark_operator mark }
{
    match mark {
        Mark::Differs => (Op::Eq, true),
        Mark::Less => (Op::Lt, false),
        Mark::LessEq => (Op::Le, false),
        Mark::Greater => (Op::Gt, false),
        Mark::GreaterEq => (Op::Ge, false),
        _ => (Op::Eq, false),
    }
}

/// The operator of a mark's shape, and whether it is negated; `==` where it is of another.
pub(crate) fn sign_of(shape: TokenClass) -> (Op, bool)
    ensures { result ≡ shape_sign shape }
{
    match shape {
        TokenClass::Sign(mark) => mark_operator(mark),
        _ => (Op::Eq, false),
    }
}

/// The index of its shape; 0 where it is of another.
pub(crate) fn index_of(shape: TokenClass) -> u32
    ensures { result ≡ shape_index shape }
{
    match shape {
        TokenClass::Index(index) => index,
        _ => 0,
    }
}
