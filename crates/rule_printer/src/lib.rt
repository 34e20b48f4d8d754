//! The canonical text of a rule file: `print_rules` answers exactly the text of its syntax, one line for each item of the
//! file and of a body, in order of site. The crate stands on the types of rule files and on how words, names and literals
//! are written, and knows no meaning of rules. What a law says is that the text is what its tokens spell.
#![tactic(auto)]

mod blocks;
mod conditions;
mod laws;
mod lets;
mod print;
mod printed;

pub use laws::text_in_pieces;
pub use print::print_rules;
pub use printed::{rules_have_spelling, text_has_tokens};
