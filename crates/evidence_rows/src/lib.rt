//! Lines of evidence that say rows, and lines of tests: whether one follows from the lines before it, by the one step, test
//! or function that it is about, taken on the rows of the lines that it names. What those say is looked up
//! (`evidence_lookups`). What calls make, and the literals of the rules, are kept in the store of trees here too.
#![tactic(auto)]

pub mod calls;
mod due_rows;
pub mod literals;
mod one_cite;
mod row_equality;
pub mod rows;
mod step_rows;
pub mod test_lines;
mod tried_candidates;
