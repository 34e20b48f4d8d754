//! The test of the names of a rule file: `resolve` makes a `RuleFile` exactly where each name is given as it must be, and
//! else answers the first fault. What that means is defined in `rule_names`; faults of single names are found by
//! `name_faults`, rules and variables that reach themselves by `reference_cycles`; what each use means is noted by
//! `name_resolution`. Here are the table of Depths, the order of rules, and the order of the tests.
#![tactic(auto)]

mod deep;
mod depths;
mod measure;
pub mod refusal;
pub mod resolver;

pub use refusal::NameRefusal;
pub use resolver::resolve;
pub use rule_names::{Bind, NameKind, Piece, RuleFile};
