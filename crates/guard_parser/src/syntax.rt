//! The syntax of a rule file.
ghost use Rattle.std.specs.Prelude.{◌≡◌, ◌≤◌, ◌<◌, ℕ, List, length, IfOk, IfErr, IsErrOf, Option};
ghost use Rattle.doc_values.specs.Limits.{rules_limit};
ghost use Rattle.guard_lexer.specs.Lexes.{IsTokenList};
ghost use Rattle.guard_lexer.specs.declared.token.Token.{Token};
ghost use Rattle.guard_syntax.specs.Syntax.{File};
ghost use Rattle.guard_syntax.specs.code.Seen.{see_file};
ghost use Rattle.guard_syntax.specs.code.Queries.{QueriesBegin};
ghost use Rattle.guard_syntax.specs.Sites.{upto, sites_file};
ghost use Rattle.guard_parser.specs.declared.refusal.ParseRefusal.TheVariants.{NestTooDeep};
ghost use Rattle.guard_parser.specs.File.{Rules, IsSpelled, IsShallow, IsTooDeep, IsDeadEnd, IsRefused};

use crate::nest::{MOST_OPEN, first_too_deep};
use crate::read_file::whole_file;
use crate::refusal::ParseRefusal;
use doc_values::RULES_LIMIT;
use guard_lexer::Token;
use guard_syntax::{Places, RawFile};
use literal_parser::{Cursor, Halt, Tokens, shapes_of};
use std::alloc::Global;

/// No rule file has more tokens.
const MOST_TOKENS: usize = RULES_LIMIT;

/// The file that tokens spell, in which no more brackets are open at once than the depth.
fn file(alloc: Global, tokens: Tokens<'_>, depth: usize) -> Result<RawFile, ParseRefusal>
    requires turns { rules_limit < tokens.turns }
    requires deep { depth ≡ 128 }
    requires shallow { IsShallow tokens.text.now tokens.items.now }
    ensures ok { IfOk result (λ f. Rules tokens.entry.text.now tokens.entry.items.now (see_file f)) }
    ensures refusal { IfErr result (λ r. IsRefused tokens.entry.text.now tokens.entry.items.now r) }
    ensures few { (at : ℕ) → IsErrOf result (NestTooDeep at) → ⊥ }
{
    let mut cursor = Cursor {
        at: 0,
        seen: 0,
        places: Vec::new(alloc),
        mixed: None,
    };
    let found = match whole_file(alloc, tokens, &mut cursor, depth) {
        Ok(found) => found,
        Err(Halt::Dead(last)) => return Err(ParseRefusal::Syntax(tokens.from(last))),
        Err(Halt::NoMemory) => return Err(ParseRefusal::NoMemory),
    };
    match cursor.mixed {
        Some(place) => Err(ParseRefusal::BadRange(place)),
        None => Ok(RawFile {
            lets: found.lets,
            rules: found.rules,
            loose: found.loose,
            places: Places::new(cursor.places),
        }),
    }
}

/// The syntax that the tokens of a text spell. The tokens are those of the text.
pub fn parse(alloc: Global, text: &str, tokens: &[Token]) -> Result<RawFile, ParseRefusal>
    requires short { length text.now ≤ rules_limit }
    requires tokens { IsTokenList text.now tokens.now }
    ensures ok { IfOk result (λ f. Rules text.now tokens.now (see_file f)) }
    ensures refusal { IfErr result (λ r. IsRefused text.now tokens.now r) }
    ensures nest { (at : ℕ) → IsTooDeep text.now tokens.now at → IsErrOf result (NestTooDeep at) }
{
    match first_too_deep(tokens) {
        Some(at) => return Err(ParseRefusal::NestTooDeep(at)),
        None => {}
    }
    let shapes = match shapes_of(alloc, text, tokens) {
        Ok(shapes) => shapes,
        Err(_) => return Err(ParseRefusal::NoMemory),
    };
    let tokens = Tokens {
        text,
        items: tokens,
        shapes: &shapes,
        turns: MOST_TOKENS + 1,
    };
    file(alloc, tokens, MOST_OPEN)
}

/// Tokens spell one file at most, with one first range whose bounds are of two kinds or none.
pub fn one_syntax()
    ensures { (text : List ℕ) (tokens : List Token) (f g : File) (p q : Option ℕ) → IsSpelled text tokens f p → IsSpelled text tokens g q → (f ≡ g) × (p ≡ q) }
{}

/// The sites of a file are the numbers from 0 on in the order in which its parts begin, and each has a place.
pub fn sites_in_order()
    ensures { (text : List ℕ) (tokens : List Token) (f : File) (p : Option ℕ) → IsSpelled text tokens f p → sites_file f ≡ upto 0 (length f.places) }
{}

/// Each query of a file has a first step, and it is `this`, a variable or a key.
pub fn queries_begin()
    ensures { (text : List ℕ) (tokens : List Token) (f : File) (p : Option ℕ) → IsSpelled text tokens f p → QueriesBegin f }
{}

/// The tokens of a text have one dead end at most.
pub fn one_dead_end()
    ensures { (text : List ℕ) (tokens : List Token) (a b : ℕ) → IsDeadEnd text tokens a → IsDeadEnd text tokens b → a ≡ b }
{}
