//! The tokens of a rule file. `tokens` answers exactly the tokens of a text, each the longest that begins at its place
//! with nothing but white space and comments between them, or the first thing in the text that is no token. The crate
//! stands on the numbers of located values, and knows no keyword and no grammar.
#![tactic(auto)]

mod byte;
mod extent;
mod first;
mod lex;
mod numeral;
mod token;

pub use lex::tokens;
pub use token::{LexRefusal, Mark, Token, TokenKind};
