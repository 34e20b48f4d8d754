//! The top call of the program `guard`: it judges a template, alone or with parameters, by rules, and prints the verdicts and
//! what each that is FAIL fails by; it judges evidence for such verdicts; it tests rules by what is expected of them; and it
//! writes rules: those that it generates of a template, and those that it reads, in one spelling.
//!
//! The call `guard` does the program's work over any files and any sinks. Its contract is the program's promise: the
//! words and the contents of the files decide the end, what the standard output takes and what the standard error takes,
//! and in place of that end come only counted faults of the files, of the maker of patterns and of the sinks, and want of
//! memory. It stands on the reader of words, on what loads, reads and refuses inputs (`guard_inputs`), on the texts of a
//! drill, on the evaluator, on the reader and the judge of evidence, on the report of it, on what is said of tests, on what
//! generates and prints rules, on located trees and on the traits of files, sinks and makers of patterns. It knows nothing of
//! the system: the program hands it the words, the real files and streams and the crate of regular expressions, and a run over
//! tables of cases hands it files and sinks in memory.
//!
//! The whole language is read and evaluated.
#![tactic(auto)]

mod check;
mod done;
mod drill;
mod evidence;
mod job;
mod over_files;
mod parse_tree;
mod passed;
mod report;
mod rulegen;
mod test;
mod top_call;
mod validate;
mod verdicts;
mod work;
mod write;

pub use guard_ends::{End, Format, Pipe, Refusal, RefusalKind, Which};
pub use top_call::guard;
