//! The functions of the rule language: from lists of rows to new trees and rows that stay as they are. The table of
//! functions is `rule_meaning`'s `specs/Functions`, and each contract is its line. What a function gives for one value is
//! found by `value_functions`. The crate knows neither queries nor scopes; where a function does not apply to a value, it
//! answers with the site of its call.
#![tactic(auto)]

pub mod calls;
mod changing;
pub mod functions;
pub mod made;
pub mod replace;

pub use calls::call;
pub use functions::{count, join, substring};
pub use made::Made;
pub use replace::regex_replace;
