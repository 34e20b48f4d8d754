//! Tests on one row: whether values are equal, ordered or members of others, and the patterns of a rule file, made once.
//! The tables speak of located trees; the crate knows neither queries nor verdicts.
#![tactic(auto)]

mod equal;
pub mod make_book;
pub mod maker;
pub mod matchers;
mod members;
pub mod row_tests;

pub use make_book::{BookRefusal, pattern_book};
pub use maker::{PatternFault, PatternMaker, RegexMaker, ScriptMaker};
pub use matchers::Matchers;
pub use pattern_books::{Pattern, PatternBook, Replacer};
pub use row_tests::row_test;
pub use value_store::{MadeTrees, Store, View};
