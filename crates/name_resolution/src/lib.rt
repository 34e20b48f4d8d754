//! What names mean, by site: `resolution_of` answers what each use of a variable and each reference and call means, and
//! `homes_of` in which scope each part stands. Each answers exactly the table of its definition in `rule_names`. The crate
//! stands on the names of scopes (`name_scopes`), and does not know whether names are well given: a use that names nothing
//! means nothing.
#![tactic(auto)]

pub mod homes;
pub mod resolution;

pub use homes::homes_of;
pub use resolution::resolution_of;
