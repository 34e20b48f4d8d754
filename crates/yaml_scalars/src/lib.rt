//! Scalars of YAML 1.2.2 in a profile: plain, quoted and block scalars with their folding, and the kinds of plain ones.
//! `read_scalar` reads the scalar that begins at a place in a setting: `specs/Scalar` says which one stands there, over
//! the text's lines, and nothing of how it is read. Reading goes over the bytes once; a text that stands on one line
//! without escapes is borrowed. The crate stands on `doc_values` for numbers and kinds, and knows no collections.
#![tactic(auto)]

mod block;
mod escape;
mod header;
mod kind;
pub mod lines;
mod plain;
pub mod plain_line;
mod quoted;
mod read;
mod scalar;
mod trim;

pub use escape::Wanted;
pub use kind::{one_kind, plain_kind};
pub use plain_line::{Below, Why};
pub use read::read_scalar;
pub use scalar::{Scalar, ScalarRefusal, Setting};
