//! Laws over the end of a call of `guard`, which `guard_ends` defines: it has one end, data that are accepted are
//! judged, evidence that is accepted is true, a drill is judged, tests pass exactly where they are met, rules are
//! written where there are some, and those that are generated are met. They are calls that do
//! nothing, whose contracts are the laws; no program calls them.
#![tactic(auto)]

mod laws;

pub use laws::{
    accepted_is_checked, accepted_is_generated, accepted_is_judged, accepted_is_printed,
    accepted_is_tested, accepted_is_true, drill_is_judged, drill_is_read, evidence_is_beside,
    following_is_accepted, generated_are_met, only_drill, only_end, tests_are_met,
    written_is_accepted,
};
