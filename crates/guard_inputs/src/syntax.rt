//! Rules as tokens and syntax, whatever their names.
ghost use Rattle.std.specs.Prelude.{◌≤◌, MatchResult, length};
ghost use Rattle.doc_values.specs.Limits.{rules_limit};
ghost use Rattle.guard_lexer.specs.Lexes as lex;
ghost use Rattle.guard_syntax.specs.code.Seen.{see_file};
ghost use Rattle.guard_ends.specs.Inputs.{IsSyntax, RefusesUnnamed};
ghost use Rattle.guard_inputs.specs.code.Stops.{IsNotRead};

use crate::refused::{lex_kind, parse_kind};
use crate::stop::{Stop, unread_at};
use guard_ends::Which;
use guard_lexer::{Token, tokens};
use guard_parser::parse;
use guard_syntax::RawFile;
use std::alloc::Global;

/// The syntax of a text, which is no longer than rules may be.
pub fn syntax_of(alloc: Global, text: &str) -> Result<RawFile, Stop>
    requires { length text.now ≤ rules_limit }
    ensures { MatchResult result (λ raw. IsSyntax text.now (see_file raw)) (IsNotRead RefusesUnnamed text.now) }
{
    match tokens(alloc, text) {
        Ok(found) => syntax_of_tokens(alloc, text, &found),
        Err(refusal) => Err(unread_at(Which::Rules, lex_kind(refusal), text)),
    }
}

/// The syntax of the tokens of a text.
fn syntax_of_tokens(alloc: Global, text: &str, tokens: &[Token]) -> Result<RawFile, Stop>
    requires short { length text.now ≤ rules_limit }
    requires tokens { lex.IsTokenList text.now tokens.now }
    ensures { MatchResult result (λ raw. IsSyntax text.now (see_file raw)) (IsNotRead RefusesUnnamed text.now) }
{
    match parse(alloc, text, tokens) {
        Ok(raw) => Ok(raw),
        Err(refusal) => Err(unread_at(Which::Rules, parse_kind(refusal), text)),
    }
}
