//! What a place has ahead, behind white space, comments and breaks.

/// A token of a document, but for scalars.
#[derive(Clone, Copy)]
pub enum Token {
    /// The text's end.
    End,
    /// A line that begins with `---`.
    Dashes,
    /// A line that begins with `...`.
    Dots,
    /// A `-` outside of flow, before white space or the line's end.
    Dash,
    /// A short tag, with so many bytes in its name.
    Tag { len: usize },
    /// A `!` that opens no short tag.
    NoTag,
    /// An opening bracket, of a map or of a list.
    Opens { map: bool },
    /// A closing bracket, of a map or of a list.
    Closes { map: bool },
    Comma,
    /// A colon. It is loose where what follows it may follow that of a plain key.
    Point { loose: bool },
    /// A `&` or `*`, which begins an anchor or an alias.
    Anchor,
    Percent,
    /// A tab in the white space in front of a line's content, outside of flow.
    Tabbed,
    /// No content: a comment or white space that a carriage return stands in, outside of a break.
    Stray,
    /// Anything else: a scalar may begin there, or nothing may.
    Other,
}

/// What is ahead of a place.
#[derive(Clone, Copy)]
pub struct Ahead {
    pub token: Token,
    /// Whether it begins a line.
    pub fresh: bool,
    /// Its column where it begins a line; else how much white space stands between the place and it.
    pub column: usize,
    /// The byte offset of its first byte.
    pub at: usize,
    /// The byte offset behind it.
    pub behind: usize,
}
