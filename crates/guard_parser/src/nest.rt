//! How many brackets are open at once.
ghost use Rattle.std.specs.Prelude.{◌≡◌, ◌≤◌, ℕ, List, MatchOption};
ghost use Rattle.literal_parser.specs.Lexemes.{lexeme_of};
ghost use Rattle.literal_parser.specs.Forms.{form, is_opening, is_closing};
ghost use Rattle.literal_parser.specs.Brackets.{open_behind};
ghost use Rattle.guard_parser.specs.File.{IsShallow, IsTooDeep};

use guard_lexer::{Mark, Token, TokenKind};

/// So many brackets may be open at once.
pub(crate) const MOST_OPEN: usize = 128;

fn is_opening(token: &Token) -> bool
    ensures { (text : List ℕ) → result ≡ is_opening (form (lexeme_of text token.now)) }
{
    matches!(
        token.kind,
        TokenKind::Mark(Mark::LBrace | Mark::LParen | Mark::LBracket)
    )
}

fn is_closing(token: &Token) -> bool
    ensures { (text : List ℕ) → result ≡ is_closing (form (lexeme_of text token.now)) }
{
    matches!(
        token.kind,
        TokenKind::Mark(Mark::RBrace | Mark::RParen | Mark::RBracket)
    )
}

/// How many brackets are open behind a token, given how many are before it.
fn open_behind(token: &Token, before: usize) -> usize
    requires few { before ≤ 128 }
    ensures { (text : List ℕ) → result ≡ open_behind (form (lexeme_of text token.now)) before }
{
    if is_opening(token) {
        return before + 1;
    }
    if is_closing(token) {
        return before.saturating_sub(1);
    }
    before
}

/// The byte offset of the first bracket that opens while as many are open as may be.
pub(crate) fn first_too_deep(tokens: &[Token]) -> Option<u32>
    ensures { (text : List ℕ) → MatchOption result (IsShallow text tokens.now) (λ at. IsTooDeep text tokens.now at) }
{
    let mut depth = 0;
    for token in tokens {
        if depth == MOST_OPEN && is_opening(token) {
            return Some(token.from);
        }
        depth = open_behind(token, depth);
    }
    None
}
