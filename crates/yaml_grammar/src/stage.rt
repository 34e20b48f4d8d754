//! Where reading stands.

/// What may stand at a place.
#[derive(Clone, Copy)]
pub enum Stage {
    /// An entry in brackets or the closing one: behind the opening one, or behind a comma.
    Entry,
    /// A node: the root, or the value behind `-` or a key.
    Value,
    /// What follows a complete node.
    After,
    /// Nothing: the document has ended.
    Whole,
}

/// A stage and a byte offset.
#[derive(Clone, Copy)]
pub struct Position {
    pub stage: Stage,
    pub at: usize,
}
