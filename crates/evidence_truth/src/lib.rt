//! The laws that accepted evidence is true, that its lines tell what rules fail by, and that they speak of values that exist:
//! calls that do nothing, whose contracts are the laws. They are over what evidence is and what rules mean, and know nothing of how evidence is judged.
#![tactic(auto)]

pub mod laws;

pub use laws::{entries_told, lines_known, lines_true};
