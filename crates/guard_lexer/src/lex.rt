//! The tokens of a text, one after the other.
ghost use Rattle.std.specs.Prelude.{◌≡◌, ◌⊎◌, ◌+◌, ◌<◌, ◌≤◌, ◌^◌, ℕ, false, List, [], ◌∷◌, length, drop, Option, Some, None, Result, IfOk, IfErr, MatchOption, MatchResult};
ghost use Rattle.doc_values.specs.Limits.{rules_limit};
ghost use Rattle.guard_lexer.specs.Lexes.{Starts, Reads, IsTokenList, IsRefused, is_dot};
ghost use Rattle.guard_lexer.specs.code.Memory.{HasToken, BeginsToken};
ghost use Rattle.guard_lexer.specs.code.Firsts.{IsNext};

use crate::extent::gap_len;
use crate::first::{first_token, parted};
use crate::token::{LexRefusal, Mark, Token, TokenKind};
use std::alloc::Global;

/// The bytes behind this one, where it comes first.
fn behind(bytes: &[u8], byte: u8) -> Option<&[u8]>
    ensures { MatchOption result ((rest : List ℕ) → bytes.now ≡ byte ∷ rest → ⊥) (λ rest. bytes.now ≡ byte ∷ rest.now) }
{
    match parted(bytes) {
        None => None,
        Some((first, rest)) => { if first == byte { Some(rest) } else { None } }
    }
}

/// The length of the byte order mark in front.
fn mark_len(bytes: &[u8]) -> usize
    ensures starts { Starts bytes.now result (drop result bytes.now) }
    ensures within { result ≤ length bytes.now }
    ensures small { result ≤ 3 }
{
    let Some(second) = behind(bytes, 0xef) else {
        return 0;
    };
    let Some(third) = behind(second, 0xbb) else {
        return 0;
    };
    let Some(_) = behind(third, 0xbf) else {
        return 0;
    };
    3
}

fn is_dot(token: &Token) -> bool
    ensures { result ≡ is_dot token.now.kind }
{
    matches!(token.kind, TokenKind::Mark(Mark::Dot))
}

/// The token behind a gap, or none where nothing is.
fn next_token(bytes: &[u8], at: u32, dot: bool) -> Result<Option<Token>, LexRefusal>
    requires room { at + length bytes.now < 2 ^ 32 }
    ensures { IsNext dot at bytes.now result }
{
    let gap = gap_len(bytes);
    let solid = bytes.split_at(gap).1;
    let place = at + gap as u32;
    match parted(solid) {
        None => Ok(None),
        Some((first, rest)) => match first_token(solid, first, rest, place, dot) {
            Ok(token) => Ok(Some(token)),
            Err(refusal) => Err(refusal),
        },
    }
}

/// The tokens of bytes, the first of which stands at a place.
fn read_from(alloc: Global, bytes: &[u8], start: u32) -> Result<Vec<Token>, LexRefusal>
    requires room { start + length bytes.now < 2 ^ 32 }
    ensures tokens { IfOk result (λ v. Reads false start bytes.now v.items None) }
    ensures refusal { IfErr result (λ r. (r ≡ LexRefusal.NoMemory) ⊎ ((ts : List Token) × Reads false start bytes.now ts (Some r))) }
    ensures memory { IfErr result (λ r. r ≡ LexRefusal.NoMemory → HasToken start bytes.now) }
{
    let mut found = Vec::new(alloc);
    let mut at = start;
    let mut dot = false;
    'tokens: loop {
        let passed = (at - start) as usize;
        let rest = bytes.split_at(passed).1;
        let next = next_token(rest, at, dot);
        let token = match next {
            Err(refusal) => return Err(refusal),
            Ok(None) => return Ok(found),
            Ok(Some(token)) => token,
        };
        let to = token.to;
        let behind_dot = is_dot(&token);
        match found.push(token) {
            Ok(()) => {}
            Err(_) => return Err(LexRefusal::NoMemory),
        }
        at = to;
        dot = behind_dot;
    }
}

/// The tokens of a text of at most 1 MiB (1,048,576 bytes), in order. Places are byte offsets; a byte order mark at the
/// start is passed over and counts in them. Takes time linear in the text, but that it reads the digits of a number and
/// the bytes of a name a few times. Each token takes memory, and nothing else does.
pub fn tokens(alloc: Global, text: &str) -> Result<Vec<Token>, LexRefusal>
    requires room { length text.now ≤ rules_limit }
    ensures tokens { IfOk result (λ v. IsTokenList text.now v.items) }
    ensures refusal { IfErr result (λ r. (r ≡ LexRefusal.NoMemory) ⊎ IsRefused text.now r) }
    ensures memory { IfErr result (λ r. r ≡ LexRefusal.NoMemory → BeginsToken text.now) }
    ensures only_tokens { (ts : List Token) → IsTokenList text.now ts → MatchResult result (λ v. v.items ≡ ts) (λ r. r ≡ LexRefusal.NoMemory) }
    ensures only_refusal { (q : LexRefusal) → IsRefused text.now q → MatchResult result (λ _. ⊥) (λ r. (r ≡ LexRefusal.NoMemory) ⊎ (r ≡ q)) }
{
    let bytes = text.as_bytes();
    let start = mark_len(bytes);
    let rest = bytes.split_at(start).1;
    read_from(alloc, rest, start as u32)
}
