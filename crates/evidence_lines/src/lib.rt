//! Evidence: lines that each say one value, the rows of one expression or one verdict, and cite the lines that they rest
//! on. The crate holds such lines with their version. `specs/Shapes` says which fields a line has, and `specs/Headers` has the
//! first line of each version. It knows no rules and no templates, so it does not ask whether a line follows from those that
//! it cites; and it does not say how lines are written down.
#![tactic(auto)]

pub mod evidence;
mod gathered;
mod held;
pub mod line;
mod node_rows;
mod remembered;
pub mod version;

pub use evidence::{Evidence, LineList};
pub use gathered::Gathered;
pub use line::{Cites, Line, LineKind, LinePlace, Outcome, Rows, Sort};
pub use version::Version;
