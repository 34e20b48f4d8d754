//! The steps of the reader of YAML documents that stand by themselves: between brackets all of them; outside of brackets what
//! begins, what is missing, a further entry, and what ends. With them stand where nodes of a block may begin and where a block
//! ends, and what is asked of a text's end: where it cuts a scalar short, and where it is a carriage return. Which step is taken
//! where is said by `yaml_blocks`.
#![tactic(auto)]

pub mod absent;
pub mod agreement;
pub mod closings;
pub mod ending;
pub mod entries;
pub mod flow;
pub mod openings;
mod point;
pub mod returned;
pub mod root;
pub mod split;
pub mod takes;
