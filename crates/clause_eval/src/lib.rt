//! The engine that evaluates rules and writes the evidence of it: a line for each part that is evaluated in a frame, which is
//! found again where the part is asked for once more. The lines, and the tables by which they are found, are those of
//! `engine_lines`; which lines are needed, and in which order they are made, is found here.
#![tactic(auto)]

mod begin;
mod blocks;
mod by_site;
pub mod engine;
pub mod frames;
pub mod lines;
mod names;
mod rows;
mod rules;
mod steps;
mod verdicts;

pub use engine::Engine;
