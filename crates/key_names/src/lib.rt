//! The names of keys, each kept once and known by a number: sixteen slots that a hash of the name chooses, and behind them,
//! where all are taken, an ordered map. The crate stands on nothing but the library of the language.
#![tactic(auto)]

pub mod name_slots;
pub mod names;
pub mod text_numbers;

pub use names::Names;
