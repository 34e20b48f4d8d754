//! The report on a template from evidence that was accepted: verdicts are those of `rule` lines, the cites of lines that say
//! FAIL are followed, and no rule is evaluated. The crate stands on the law that lines tell entries
//! (`evidence_truth`), on the look-ups of lines, on `report_text`, which writes what it is given, and on the definition of the
//! report (`guard_ends`); of evaluators it knows nothing.
#![tactic(auto)]

mod count;
pub mod drill;
mod laws;
pub mod report;
mod rule_lines;
mod tally;
pub mod verdict_lines;
mod write;

pub use drill::write_drill;
pub use report::{count_fails, write_report};
pub use verdict_lines::verdicts_told;
