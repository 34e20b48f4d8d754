//! Why a text is refused.
use std::alloc::AllocError;
use thiserror::Error;

/// Why a text is refused as a document.
#[derive(Clone, Copy, Debug, Error)]
pub enum YamlRefusal {
    /// The text is no document of the profile, and none of the refusals below counts: no document begins with the bytes up to
    /// and with the one at this place, or the text ends too early, and this is its length.
    #[error("the text is not YAML in the part that is read")]
    Syntax(u32),
    /// A tab in the white space in front of a line's content; its place.
    #[error("a tab stands in the indentation")]
    Tab(u32),
    /// An anchor or an alias: a `&` or `*` where a node or a key may begin; its place.
    #[error("an anchor or an alias, which are not read")]
    Anchor(u32),
    /// A tag that is no short one where a node or a key may begin, or there behind a tag another, with nothing but white
    /// space, breaks and comments between; the place of its `!`.
    #[error("a tag that is no short one, or a second tag")]
    Tag(u32),
    /// A line in front of the document that begins with `%`; the place of that.
    #[error("a directive, which is not read")]
    Directive(u32),
    /// A line `---` or `...` that neither begins nor ends the document, or that has content on it; its place, also between
    /// brackets and in quotes. Or content behind the line `...`; the place of its first byte.
    #[error("a further document")]
    ManyDocuments(u32),
    /// A key that an entry of the same map has already, with or without its colon; the place of its first byte.
    #[error("a key comes again")]
    DuplicateKey(u32),
    /// A collection in 128 others; the place of its first byte. A block mapping begins with its first key and the colon.
    #[error("a collection is too deep")]
    TooDeep(u32),
    /// The allocator gave no memory.
    #[error("out of memory")]
    NoMemory,
}
