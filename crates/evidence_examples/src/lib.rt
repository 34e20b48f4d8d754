//! Worked examples of evidence: calls that do nothing, whose contracts are the examples. Each is over a file of rules, a
//! template and lines that are written down in `specs/`; the lines follow, each from those before it, and some others do
//! not. No program calls them.
#![tactic(auto)]

mod called;
mod decided;
mod failing;
mod kinds;
mod remembered;

pub use called::call_with_parameters;
pub use decided::decided_condition;
pub use failing::failing_rule;
pub use kinds::other_kinds;
pub use remembered::remembered_variable;
