//! The meaning of rules, as definitions: when two values are equal or ordered, what a test says of a row, what functions
//! answer, what each step of a query gives, what rows and verdicts expressions and parts have in an environment, what
//! names mean, and what a part that is FAIL fails by. `specs/` is to be read by whoever wants to know what a verdict says;
//! the crate has no code but the answer of a comparison. It stands on located trees, on the types of rule files, on the
//! definitions of names, and on those of JSON and of regular expressions for functions and patterns.
#![tactic(auto)]

pub mod answer;

pub use answer::PairAnswer;
