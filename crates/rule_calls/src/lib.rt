//! Evaluates all rules of a file over a template, and gives the evidence of it: each rule without parameters has its line, and so
//! have the parts outside rules, the evidence is accepted in version 2, and it is lean. What goes over lines of evidence (`evidence_lookups`)
//! can go over these: the crate makes the `LineContext` of them. It stands on the engine that evaluates the parts of rules
//! (`clause_eval`); what evidence is for, and what a report is, it does not know.
#![tactic(auto)]

mod context;
pub mod evaluation;
mod ranked;
mod reported;

pub use context::{judged_lines, line_context};
pub use evaluation::{Evaluation, evaluate};
