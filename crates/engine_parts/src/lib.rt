//! What the engine that evaluates rules is made of and what knows no engine: which verdict follows from those of tests,
//! parts and rules, and the tables in which the lines of parts are found again.
#![tactic(auto)]

pub mod frame_lines;
pub mod judging;
pub mod site_lines;
