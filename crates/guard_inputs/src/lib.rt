//! The inputs of the program `guard`: rules, a template, parameters and tests, which are loaded, read, or refused.
//!
//! A file is loaded by its name, no further than one byte past its limit, and tested for UTF-8. Rules are read as tokens, syntax
//! and names; templates, parameters and tests in their format. Then parameters are merged into the template, cases are found in
//! tests, and the patterns of rules are made. What is refused has its line on err with it, which is made while the text is at
//! hand. Nothing is evaluated or judged here, and nothing is written: the order of work is that of `guard_run`.
#![tactic(auto)]

mod cases;
mod inputs;
mod line;
mod load;
mod merge;
mod params;
mod patterns;
mod prepare;
mod refused;
mod rules;
mod stop;
mod syntax;
mod tests;
mod tree;
mod written;

pub use cases::read_tests;
pub use inputs::{DataText, Inputs, Ready, Rules, Sources};
pub use line::rejected_text;
pub use load::{load_bytes, load_data, load_text};
pub use params::{join, load_params};
pub use patterns::make_patterns;
pub use prepare::{load_sources, read_template};
pub use refused::{Refused, not_evidence, text_too_long};
pub use rules::read_rules;
pub use stop::Stop;
pub use syntax::syntax_of;
pub use tests::{ReadyTests, Tests};
pub use tree::read_tree;
pub use written::Written;
