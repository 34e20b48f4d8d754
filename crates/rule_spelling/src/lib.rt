//! How values are spelled in the language of rules: texts, patterns and numbers are appended to a text exactly as the
//! definitions spell them. What is spelled so is read as what was meant, and pieces of a text that do not run into one
//! another are its tokens: that is what the laws say, which do nothing. The crate stands on the tokens of rule files and
//! on located values, and knows no grammar beyond literals.
#![tactic(auto)]

mod laws;
mod number;
mod quote;
mod scalar;

pub use laws::{
    apart_pieces_fit, bytes_apart, meant_words, note_word, number_words, pieces_are_lexemes,
    pieces_are_tokens, pieces_joined, spelled_words,
};
pub use number::{push_decimal, push_number};
pub use quote::{push_pattern, push_quoted};
pub use scalar::push_scalar;
