//! Steps of queries: what each gives for the rows before it, which values a filter tries, the keys that a capture binds,
//! and the rows of a type block. The meaning of whole queries and parts is defined here too; the crate gives one step.
#![tactic(auto)]

pub mod context;
pub mod filters;
pub mod keys;
pub mod location_laws;
pub mod places;
mod reached;
pub mod resources;
pub mod seen;
pub mod sites;
pub mod step_place;
pub mod steps;

pub use context::StepContext;
pub use filters::{filter_candidates, kept_rows};
pub use keys::{RowTest, captured, row_passes};
pub use location_laws::one_answer_over_locations;
pub use places::{StepInput, placed_candidates, placed_step};
pub use resources::type_rows;
pub use seen::{
    seen_answers, seen_as_before, seen_filters, seen_functions, seen_steps, seen_values,
};
pub use sites::{candidates, kinds, step};
pub use step_place::StepPlace;
pub use steps::{ReadyStep, rows_of_step};
