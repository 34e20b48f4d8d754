//! Why tokens spell no rule file.
use thiserror::Error;

/// Why tokens spell no rule file, with a byte offset in its text.
#[derive(Clone, Copy, Debug, Error)]
pub enum ParseRefusal {
    /// A bracket opens while 128 are open: the first such bracket.
    #[error("a bracket inside 128 others")]
    NestTooDeep(u32),
    /// No rule file begins with the tokens up to this one and with it; the text's length where more had to come.
    #[error("no rule file goes on so")]
    Syntax(u32),
    /// A range with a whole and a decimal bound in what is else a rule file: the first such range.
    #[error("a range with bounds of two kinds")]
    BadRange(u32),
    /// The allocator gave no memory.
    #[error("out of memory")]
    NoMemory,
}
