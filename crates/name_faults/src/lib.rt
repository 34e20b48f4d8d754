//! Faults of single names: `first_faults` finds the first name that its scope has already, or the first rule of a name that a
//! rule has already, and the first use that names nothing, or what it may not. It answers these faults exactly, or that there
//! are none. The crate stands on the names of scopes (`name_scopes`) and the definitions in `rule_names`; it knows nothing of
//! what names lead to.
#![tactic(auto)]

mod calls;
mod duplicates;
pub mod found;
mod rule_arities;
pub mod uses;

pub use found::Found;
pub use uses::first_faults;
