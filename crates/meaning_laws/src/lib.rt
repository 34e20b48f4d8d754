//! Laws over the meaning of rules and of functions, which `rule_meaning` defines: calls that do nothing, whose contracts are
//! the laws. Only other laws cite them.
#![tactic(auto)]

pub mod function_laws;
pub mod location_laws;

pub use function_laws::{one_answer, refused_is_pattern};
pub use location_laws::{
    failing_has_entries, one_failing_over_locations, one_meaning_over_locations,
    unfoldings_suffice_over_locations,
};
