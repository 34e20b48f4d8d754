//! Tests files: which verdicts are expected of the rules of a file over which inputs. `read_cases` gives the cases that the
//! tree of a tests file is, or refuses it at the first value that has not the shape, or that names no rule; `write_case`
//! says of a case that was judged which verdicts differ from what is expected. The crate stands on located values, on
//! sinks, on rule files and on the texts of the report, and knows nothing of how rules are judged.
#![tactic(auto)]

pub mod case;
mod cases;
pub mod laws;
pub mod place;
mod places;
pub mod read;
pub mod refusal;
mod rule_sites;
mod shape;
mod verdicts;
pub mod write;

pub use case::{Case, Expectation};
pub use laws::one_answer;
pub use read::read_cases;
pub use refusal::TestRefusal;
pub use report_text::ReportFault as CaseFault;
pub use write::{Agreement, JudgedCase, write_case, write_summary};
