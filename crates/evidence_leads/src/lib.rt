//! What a line of evidence that says FAIL fails by, one level down: its leads, which are entries of the report or further lines
//! that say FAIL. The cites of the line and the rows that they say are gone over, by the part of its site; no line behind is
//! followed, nothing is written, and of the rest of a report nothing is known. The crate stands on the definition of what a
//! line fails by (`evidence_truth`), on the look-ups of lines, on the one test of rows, and on the entries of `report_text`.
#![tactic(auto)]

mod cited;
mod lead;
mod leads;
mod rows;
mod shown;

pub use cited::is_failing;
pub use lead::Lead;
pub use leads::leads_of;
