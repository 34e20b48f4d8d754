//! The syntax of a rule file: its tokens are read into the types of a rule file, or the first token is named with which
//! no rule file goes on. The crate stands on the tokens of a text and the parts and literals among them, and on the
//! types of the syntax, and knows no meaning of rules.
#![tactic(auto)]

mod nest;
mod read_file;
mod refusal;
mod syntax;

pub use refusal::ParseRefusal;
pub use syntax::{one_dead_end, one_syntax, parse, queries_begin, sites_in_order};
