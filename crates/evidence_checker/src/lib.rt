//! The judge of evidence: whether each line of evidence follows from the lines before it. What those say is looked up
//! (`evidence_lookups`); nothing is evaluated but the one step, test or function that the line is about.
#![tactic(auto)]

mod bodies;
mod judge;
mod line;
mod parts;
mod reference_lines;
mod stops;
mod verdicts;

pub use judge::{Answer, check};
