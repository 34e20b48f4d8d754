//! How a call of the program ends, as definitions: what words ask for, which bytes are rules, a template, parameters, tests and
//! evidence and why others are refused, the report on data, what is said of evidence, of a drill and of tests, the line of each
//! refusal and of each fault, and by all of them the end of a call, with what the standard output takes and what the standard
//! error takes.
//! `specs/` is to be read by whoever wants to know what the program promises; the crate has no code but the types of an end,
//! its exit status, and the format of a template, of parameters or of tests by the name.
#![tactic(auto)]

pub mod ends;
pub mod format;

pub use ends::{End, Pipe, Refusal, RefusalKind, Which};
pub use format::{Format, format_of};
