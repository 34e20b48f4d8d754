//! Keys of block mappings.

use std::borrow::CowStr;

/// A key outside of flow.
#[derive(Drop)]
pub struct Key<'s> {
    pub text: CowStr<'s>,
    /// The place behind its colon.
    pub behind: usize,
}
