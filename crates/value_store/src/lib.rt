//! What references into values stand for, and what is said of values without patterns: what they are, their order, whether
//! numbers lie in ranges, and tests without a right side. `Store` holds the trees that references point into; `View` is a
//! value of a tree, or a key. The crate makes no pattern and looks for none.
#![tactic(auto)]

pub mod literals;
pub mod made;
pub mod order;
pub mod range;
pub mod store;
pub mod unary;
pub mod view;

pub use made::MadeTrees;
pub use store::Store;
pub use view::View;
