//! Patterns, and the texts of a rule file that are read as patterns. A `Pattern` is what the crate of regular expressions
//! reads from a text; a `PatternBook` holds patterns by their texts; `written_texts` lists the texts of a file that are read
//! as patterns, in the order of their places. The crate makes no pattern from a text, and tests no row.
#![tactic(auto)]

pub mod book;
pub mod pattern;
pub mod replacer;
mod sought;
pub mod written;

pub use book::PatternBook;
pub use pattern::Pattern;
pub use replacer::Replacer;
