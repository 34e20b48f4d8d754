//! Located values: trees of nulls, truth values, numbers, texts, lists and maps, each with the byte offset where it
//! begins, and numbers themselves. A `DocBuilder` makes exactly the tree of its events, a `Cursor` answers exactly
//! what stands at a node of that tree. Two maps are merged into one, and a part of a tree is copied. The crate stands
//! on nothing but the library of the language, and knows no format that trees are read from.
#![tactic(auto)]

mod arena;
pub mod builder;
mod content;
pub mod cursor;
pub mod doc;
pub mod kind;
pub mod limits;
mod node;
pub mod position;
mod uses;
mod wide;

pub use builder::{BuildRefusal, DocBuilder};
pub use cursor::Cursor;
pub use decimals::{Decimal, Num, Range, read_number};
pub use doc::Doc;
pub use doc::merge::MergeRefusal;
pub use kind::Kind;
pub use limits::{EVIDENCE_LIMIT, RULES_LIMIT, TEMPLATE_LIMIT};
pub use position::place_of;
