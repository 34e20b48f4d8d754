//! The report's text: the lines of verdicts, and those of entries under a rule that fails, with the path and the place of
//! what is shown and the message of the part. The crate writes what it is given, and knows nothing of how verdicts come.
#![tactic(auto)]

pub mod entries;
pub mod entry;
pub mod lined;
mod messages;
pub mod paths;
pub mod put;
pub mod rules;
mod spelling;
pub mod texts;

pub use entries::{write_entry, write_entry_over};
pub use entry::{Entry, Shown, Word};
pub use lined::Lined;
pub use paths::push_key_text;
pub use put::ReportFault;
pub use rules::{push_rule_line, verdict_word, write_rules};
pub use texts::{LinedParams, LinedTexts, Params, Texts};
