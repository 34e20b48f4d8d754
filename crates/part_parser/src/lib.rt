//! The parts of a rule file: bodies and the parts in them, conditions, queries, expressions and lets are read from the
//! tokens into the types of the syntax, or the last token is named that was looked at where nothing is read. The crate
//! stands on the tokens of a text and the literals among them, and knows no rule and no file.
#![tactic(auto)]

mod items;
mod lead;
mod leaf_rules;
mod read;
mod read_condition;
mod read_query;

pub use items::add;
pub use read::{body, disj, let_of};
pub use read_condition::opt_conds;
