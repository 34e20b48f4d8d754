//! The token in front of bytes, by the class of their first byte.
ghost use Rattle.std.specs.Prelude.{◌≡◌, ◌+◌, ◌<◌, ◌^◌, ◌==◌, ◌&&◌, ℕ, Bool, true, false, List, [], ◌∷◌, length, Option, MatchOption, IsAscii};
ghost use Rattle.decimals.specs.Number.{IsNumber};
ghost use Rattle.decimals.specs.declared.decimal.Num.{Num};
ghost use Rattle.guard_lexer.specs.Bytes.{is_letter};
ghost use Rattle.guard_lexer.specs.Lexes.{IsUnclosed};
ghost use Rattle.guard_lexer.specs.code.Reach.{is_blank, is_quote, sign_reach, single_reach};
ghost use Rattle.guard_lexer.specs.code.Firsts.{IsFirst, word_kind, number_kind, quote_kind, begins_word, BeginsNumeral, IsSingle, IsDouble, IsOther};

use crate::byte::{begins_numeral, is_letter, is_quote, is_word};
use crate::extent::{closing_len, name_len, note_len, var_len};
use crate::numeral::numeral_len;
use crate::token::{LexRefusal, Mark, Token, TokenKind};
use doc_values::{Num, read_number};

/// The token of a kind at a place, with so many bytes.
fn token(kind: TokenKind, at: u32, len: usize) -> Token
    requires { at + len < 2 ^ 32 }
    ensures kind { result.kind ≡ kind }
    ensures from { result.from ≡ at }
    ensures to { result.to ≡ at + len }
{
    Token {
        kind,
        from: at,
        to: at + len as u32,
    }
}

fn word_kind(typed: bool) -> TokenKind
    ensures { result ≡ word_kind typed }
{
    if typed {
        TokenKind::TypeName
    } else {
        TokenKind::Name
    }
}

/// The token that a letter begins.
fn word_at(first: u8, rest: &[u8], at: u32) -> Token
    requires letter { is_letter first ≡ true }
    requires room { at + (length rest.now + 1) < 2 ^ 32 }
    ensures { (dot : Bool) → IsFirst dot at (first ∷ rest.now) (Ok result) }
{
    let (len, typed) = name_len(rest);
    let kind = word_kind(typed);
    token(kind, at, len + 1)
}

/// The token that `%` begins.
fn var_at(rest: &[u8], at: u32) -> Result<Token, LexRefusal>
    requires room { at + (length rest.now + 1) < 2 ^ 32 }
    ensures { (dot : Bool) → IsFirst dot at (37 ∷ rest.now) result }
{
    let len = var_len(rest);
    if len == 0 {
        return Err(LexRefusal::BadByte(at));
    }
    Ok(token(TokenKind::Var, at, len))
}

fn quote_kind(quote: u8) -> TokenKind
    ensures { result ≡ quote_kind quote }
{
    if quote == b'/' {
        TokenKind::Pat
    } else {
        TokenKind::Str
    }
}

/// The token that a quote or a slash begins.
fn quoted_at(first: u8, rest: &[u8], at: u32) -> Result<Token, LexRefusal>
    requires quote { is_quote first ≡ true }
    requires room { at + (length rest.now + 1) < 2 ^ 32 }
    ensures { (dot : Bool) → IsFirst dot at (first ∷ rest.now) result }
{
    let Some(len) = closing_len(rest, first) else {
        return Err(LexRefusal::Unclosed(at));
    };
    let kind = quote_kind(first);
    Ok(token(kind, at, len + 1))
}

/// The token that `<<` begins; the bytes are those behind it.
fn note_at(rest: &[u8], at: u32) -> Result<Token, LexRefusal>
    requires room { at + (length rest.now + 2) < 2 ^ 32 }
    ensures { (dot : Bool) → IsFirst dot at (60 ∷ 60 ∷ rest.now) result }
{
    let Some(len) = note_len(rest) else {
        return Err(LexRefusal::Unclosed(at));
    };
    Ok(token(TokenKind::Note, at, len + 2))
}

/// The mark of one byte.
fn single(byte: u8) -> Option<Mark>
    ensures { IsSingle byte result }
{
    match byte {
        b'{' => Some(Mark::LBrace),
        b'}' => Some(Mark::RBrace),
        b'(' => Some(Mark::LParen),
        b')' => Some(Mark::RParen),
        b'[' => Some(Mark::LBracket),
        b']' => Some(Mark::RBracket),
        b',' => Some(Mark::Comma),
        b'|' => Some(Mark::Bar),
        b'.' => Some(Mark::Dot),
        b'*' => Some(Mark::Star),
        b':' => Some(Mark::Colon),
        b'=' => Some(Mark::Equals),
        b'!' => Some(Mark::Bang),
        b'<' => Some(Mark::Less),
        b'>' => Some(Mark::Greater),
        _ => None,
    }
}

/// The mark of a byte and `=`.
fn double(byte: u8) -> Option<Mark>
    ensures { IsDouble byte result }
{
    match byte {
        b':' => Some(Mark::Define),
        b'=' => Some(Mark::Same),
        b'!' => Some(Mark::Differs),
        b'<' => Some(Mark::LessEq),
        b'>' => Some(Mark::GreaterEq),
        _ => None,
    }
}

fn is_note(first: u8, second: u8) -> bool
    ensures { result ≡ (first == 60 && second == 60) }
{
    first == b'<' && second == b'<'
}

/// The mark of one byte where no other token begins with it.
fn single_at(first: u8, at: u32) -> Result<Token, LexRefusal>
    requires other { IsOther first }
    requires room { at + 1 < 2 ^ 32 }
    ensures { (dot : Bool) (rest : List ℕ) → sign_reach first rest ≡ single_reach first → (IsUnclosed (first ∷ rest) → ⊥) → IsFirst dot at (first ∷ rest) result }
{
    match single(first) {
        None => Err(LexRefusal::BadByte(at)),
        Some(mark) => Ok(token(TokenKind::Mark(mark), at, 1)),
    }
}

/// The mark that a byte and `=` begin; the bytes are those behind them.
fn equals_at(first: u8, at: u32) -> Result<Token, LexRefusal>
    requires other { IsOther first }
    requires room { at + 2 < 2 ^ 32 }
    ensures { (dot : Bool) (rest : List ℕ) → IsFirst dot at (first ∷ 61 ∷ rest) result }
{
    match double(first) {
        None => single_at(first, at),
        Some(mark) => Ok(token(TokenKind::Mark(mark), at, 2)),
    }
}

/// The mark or note that a byte begins.
fn sign_at(first: u8, rest: &[u8], at: u32) -> Result<Token, LexRefusal>
    requires other { IsOther first }
    requires room { at + (length rest.now + 1) < 2 ^ 32 }
    ensures { (dot : Bool) → IsFirst dot at (first ∷ rest.now) result }
{
    match parted(rest) {
        None => single_at(first, at),
        Some((second, behind)) => pair_at(first, second, behind, at),
    }
}

/// The first byte, and what stands behind it.
pub fn parted(bytes: &[u8]) -> Option<(u8, &[u8])>
    ensures { MatchOption result (bytes.now ≡ []) (λ p. bytes.now ≡ p.0 ∷ p.1.now) }
{
    match bytes.split_first() {
        None => None,
        Some((first, rest)) => Some((*first, rest)),
    }
}

/// The mark or note that two bytes begin; the bytes are those behind them.
fn pair_at(first: u8, second: u8, behind: &[u8], at: u32) -> Result<Token, LexRefusal>
    requires other { IsOther first }
    requires room { at + (length behind.now + 2) < 2 ^ 32 }
    ensures { (dot : Bool) → IsFirst dot at (first ∷ second ∷ behind.now) result }
{
    if is_note(first, second) {
        return note_at(behind, at);
    }
    if second == b'=' {
        return equals_at(first, at);
    }
    single_at(first, at)
}

fn number_kind(num: Num) -> TokenKind
    ensures { result ≡ number_kind num }
{
    match num {
        Num::Whole(n) => TokenKind::Whole(n),
        Num::Fraction(decimal) => TokenKind::Fraction(decimal),
    }
}

/// The number of a text.
fn number_of(bytes: &[u8]) -> Option<Num>
    requires { IsAscii bytes.now }
    ensures { MatchOption result ((n : Num) → IsNumber bytes.now n → ⊥) (λ n. IsNumber bytes.now n) }
{
    match str::from_utf8(bytes) {
        Ok(text) => read_number(text),
        Err(_) => None,
    }
}

fn begins_word(bytes: &[u8]) -> bool
    ensures { result ≡ begins_word bytes.now }
{
    match bytes.split_first() {
        None => false,
        Some((first, _)) => is_word(*first),
    }
}

/// The token that a digit or a minus begins.
fn number_at(bytes: &[u8], at: u32, dot: bool) -> Result<Token, LexRefusal>
    requires front { BeginsNumeral bytes.now }
    requires room { at + length bytes.now < 2 ^ 32 }
    ensures { IsFirst dot at bytes.now result }
{
    let len = numeral_len(bytes, dot);
    if len == 0 {
        return Err(LexRefusal::BadByte(at));
    }
    let (text, rest) = bytes.split_at(len);
    let Some(num) = number_of(text) else {
        return Err(LexRefusal::NumberRange(at));
    };
    if begins_word(rest) {
        return Err(LexRefusal::BadByte(at + len as u32));
    }
    let kind = number_kind(num);
    Ok(token(kind, at, len))
}

/// The token in front of bytes that begin with no white space and no comment, at a place, right behind a dot or not; or
/// why there is none.
pub fn first_token(
    bytes: &[u8],
    first: u8,
    rest: &[u8],
    at: u32,
    dot: bool,
) -> Result<Token, LexRefusal>
    requires front { bytes.now ≡ first ∷ rest.now }
    requires solid { is_blank first ≡ false }
    requires room { at + (length rest.now + 1) < 2 ^ 32 }
    ensures { IsFirst dot at (first ∷ rest.now) result }
{
    if is_letter(first) {
        return Ok(word_at(first, rest, at));
    }
    if begins_numeral(first) {
        return number_at(bytes, at, dot);
    }
    if first == b'%' {
        return var_at(rest, at);
    }
    if is_quote(first) {
        return quoted_at(first, rest, at);
    }
    sign_at(first, rest, at)
}
