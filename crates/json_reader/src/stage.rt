//! Where reading stands between two tokens.

/// What is awaited between two tokens.
#[derive(Clone, Copy)]
pub(crate) enum Stage {
    /// A value: at the top, behind a colon, or behind a comma in a list.
    Value,
    /// A key or the closing bracket, behind the opening bracket of a map.
    KeyOrEnd,
    /// A value or the closing bracket, behind the opening bracket of a list.
    ItemOrEnd,
    /// A key, behind a comma in a map.
    Key,
    /// A colon, behind a key.
    Colon,
    /// A comma, a closing bracket or the end of the text, behind a value.
    After,
}

/// A place in the text, and what is awaited there.
#[derive(Clone, Copy)]
pub(crate) struct Position {
    pub(crate) at: usize,
    pub(crate) stage: Stage,
}
