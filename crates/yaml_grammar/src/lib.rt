//! The grammar of YAML documents, YAML 1.2.2 in a profile: what a place has ahead, nodes in flow and in blocks, documents,
//! the signs at which reading breaks off and the places at which a text shows that it is no document. The definitions are in
//! `specs/`; here are the small types that they speak of, and why a text is refused. What holds of the grammar alone, and not
//! of a reader, is in `proofs/`; the reader is `yaml_blocks`.
#![tactic(auto)]

pub mod ahead;
pub mod form;
pub mod key;
pub mod refusal;
pub mod stage;
pub mod stop;

pub use ahead::{Ahead, Token};
pub use form::Form;
pub use key::Key;
pub use refusal::YamlRefusal;
pub use stage::{Position, Stage};
pub use stop::{Stop, of_scalar, refusal_of};
