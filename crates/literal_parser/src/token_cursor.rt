//! The tokens of a text, and how far they have been read.
ghost use Rattle.std.specs.Prelude.{◌≡◌, ◌≤◌, ◌^◌, ℕ, length, map};
ghost use Rattle.literal_parser.specs.Lexemes.{lexeme_of};
ghost use Rattle.literal_parser.specs.code.Cuts.{AreTokensIn};
ghost use Rattle.literal_parser.specs.code.TokenClasses.{shape_of};
ghost use Rattle.guard_lexer.specs.declared.token.Token.{Token};

use crate::token_class::TokenClass;
use guard_lexer::Token;

/// The tokens of a text, the shape of each, and how many turns a list may take.
#[derive(Clone, Copy)]
pub struct Tokens<'t> {
    pub text: &'t str,
    pub items: &'t [Token],
    pub shapes: &'t [TokenClass],
    pub turns: usize,
    pub ghost small: { length text.now ≤ 2 ^ 20 },
    pub ghost short: { length items.now ≤ 2 ^ 20 },
    pub ghost cut: { AreTokensIn text.now items.now },
    pub ghost shaped: { shapes.now ≡ map (λ (t : Token). shape_of (lexeme_of text.now t)) items.now },
}

/// How far the tokens have been read: the number of the next one and of the furthest that was looked at; the byte offset
/// of each site so far, and that of the first range so far with bounds of two kinds.
#[derive(Drop)]
pub struct Cursor {
    pub at: usize,
    pub seen: usize,
    pub places: Vec<u32>,
    pub mixed: Option<u32>,
    pub ghost small: { at ≤ 2 ^ 20 },
}
