//! How words, names and literals are written in the canonical text of rules, and how queries begin there: each is appended
//! to a text exactly as the definitions spell it. The crate stands on the types of rule files and on how values are spelled,
//! and knows no condition, no block and no file.
#![tactic(auto)]

pub mod literals;
pub mod names;
pub mod starts;
pub mod words;
