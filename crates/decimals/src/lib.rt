//! Numbers: decimals in their one form, ranges, and the number that a text spells. The crate stands on nothing but the
//! library of the language.
#![tactic(auto)]

pub mod decimal;
mod number;

pub use decimal::{Decimal, Num, Range};
pub use number::read_number;
