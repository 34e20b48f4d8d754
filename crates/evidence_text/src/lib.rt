//! The text of evidence: lines are printed, and read from bytes. `specs/Spelling` has the one text of a line, and `specs/Text`
//! says which bytes are evidence, and where other bytes first fail to be. Which fields a line has is told by
//! `evidence_lines/specs/Shapes`, and the first line of each version by `evidence_lines/specs/Headers`.
#![tactic(auto)]

mod field;
pub mod kind;
pub mod laws;
pub mod print;
pub mod read;
pub mod refusal;

pub use kind::kind_name;
pub use laws::one_text;
pub use print::print_line;
pub use read::read_evidence;
pub use refusal::EvidenceRefusal;
