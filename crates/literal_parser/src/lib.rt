//! The tokens of a rule file as its grammar sees them, and the literals among them. `shapes_of` says of each token what it
//! is to the grammar; a `Cursor` takes tokens one after the other, each step as a step of the grammar of `specs/Parser`; and
//! `literal` reads a value, whose lexemes `specs/Literal` gives. The crate stands on the tokens of a text and on located
//! values, and knows no rule, no query and no file.
#![tactic(auto)]

mod cursor;
mod keyword;
mod lexeme;
pub mod literal;
mod token_class;
mod token_cursor;

pub use cursor::Halt;
pub use keyword::Keyword;
pub use lexeme::shapes_of;
pub use token_class::{TokenClass, TokenTest};
pub use token_cursor::{Cursor, Tokens};
