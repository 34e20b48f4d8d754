//! Laws over the canonical text of a rule file: calls that do nothing, whose contracts are the laws. No program calls them.
//! `specs/code/Unplaced` says which syntaxes are the same in all but places, `Shown` there how the lexemes of a text go with
//! the pieces that it is spelled by.
#![tactic(auto)]

mod reading;
mod texts;

pub use reading::{
    one_printed, pieces_are_read, printed_is_read, printed_is_spelled, words_are_read,
};
pub use texts::same_text;
