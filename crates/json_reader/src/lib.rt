//! JSON texts by RFC 8259, read into located values. `read_json` gives a tree exactly where the text is a JSON text that
//! stands for this tree: `specs/Json` says which bytes spell which tree, and nothing of how they are read. Where it refuses,
//! `specs/Refusals` says of what JSON texts begin with which refusal comes, and at which place. Reading goes over the bytes
//! once; texts and keys without escapes are borrowed from them. The crate stands on `doc_values`, which makes the tree, and
//! on `byte_lanes`, which finds where runs of bytes end. It does not know where the text came from or what the tree is for.
#![tactic(auto)]

mod bytes;
mod escape;
mod number;
mod read;
mod refusal;
mod stage;
mod step;
mod text;

pub use read::{one_refusal, one_tree, place_within, read_json, refused_apart};
pub use refusal::JsonRefusal;
