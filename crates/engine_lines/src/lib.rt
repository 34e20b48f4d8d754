//! The lines that an evaluation of rules writes: a line for each part that is evaluated in a frame, which is found again where
//! the part is asked for once more, and how one is added that follows from those it cites. Which lines are needed, and in which
//! order, the crates above find.
#![tactic(auto)]

mod adds;
mod begin;
mod calls;
pub mod engine;
pub mod frames;
pub mod lines;
mod literals;
pub mod place;
pub mod said;

pub use adds::{behind, cited};
pub use engine::EngineLines;
pub use place::{Place, SitedStep};
pub use said::{Cited, Judged, Said};
