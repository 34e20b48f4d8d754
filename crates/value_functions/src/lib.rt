//! What the functions of the rule language give for one value: a text in another case, cut or decoded, the tree of a JSON
//! text, the number or the truth value that a value is or spells, a value as it is printed. `given` is any of them, as a
//! `Change` says which; new trees of one value are made here, and the texts and whole numbers that rows stand for are looked
//! up. The table of functions is `rule_meaning`'s `specs/Functions`. The crate stands on the store of trees, and knows no
//! pattern, no query and no call.
#![tactic(auto)]

pub mod change;
mod numbers;
mod printed;
mod texts;
pub mod trees;
pub mod values;

pub use change::{Change, given};
pub use trees::{plain_tree, text_tree};
pub use values::{single_text, single_whole, text_of, texts_in};
