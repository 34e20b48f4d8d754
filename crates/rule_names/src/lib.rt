//! The names of a rule file: what it means that they are given as they must be, which part has which site, in which scope
//! it stands, what each use of a name means, how deep each part is, and in which order rules are judged. A `RuleFile` is a
//! file of which all that holds, with these look-ups by site; its public fields are bound by its ghost fields, so that
//! nobody makes one without the proofs. The crate stands on the types of rule files, and knows neither their grammar nor
//! their meaning; `name_table` tests names and makes the file.
#![tactic(auto)]

pub mod bind;
pub mod binder;
pub mod file;
pub mod find;
pub mod laws;
pub mod name_kind;
pub mod piece;
pub mod piece_table;
pub mod siblings;

pub use bind::{Bind, Link};
pub use binder::Binder;
pub use file::RuleFile;
pub use laws::settled_depths;
pub use name_kind::NameKind;
pub use piece::Piece;
pub use piece_table::PieceTable;
