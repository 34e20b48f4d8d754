//! Tokens, and why a text has none.
use doc_values::Decimal;
use thiserror::Error;

/// A token: its kind, the byte offset of its first byte, and that behind its last.
#[derive(Clone, Copy)]
pub struct Token {
    pub kind: TokenKind,
    pub from: u32,
    pub to: u32,
}

/// What a token is. Names, texts, patterns and notes are read from the bytes of their span.
#[derive(Clone, Copy)]
pub enum TokenKind {
    Name,
    /// Names joined by `::`.
    TypeName,
    /// `%` and a name.
    Var,
    /// A text in quotes, which are in its span.
    Str,
    /// A pattern between slashes, which are in its span.
    Pat,
    Whole(i64),
    Fraction(Decimal),
    /// A text between `<<` and `>>`, which are in its span.
    Note,
    Mark(Mark),
}

/// A mark of one or two bytes.
#[derive(Clone, Copy)]
pub enum Mark {
    LBrace,
    RBrace,
    LParen,
    RParen,
    LBracket,
    RBracket,
    Comma,
    Bar,
    Dot,
    Star,
    Colon,
    Equals,
    /// `:=`
    Define,
    /// `==`
    Same,
    /// `!=`
    Differs,
    Bang,
    Less,
    LessEq,
    Greater,
    GreaterEq,
}

/// Why a text is no list of tokens, with a byte offset.
#[derive(Clone, Copy, Debug, Error)]
pub enum LexRefusal {
    /// A text, pattern or note without its end, at its opening quote, slash or `<<`.
    #[error("a text, pattern or note without its end")]
    Unclosed(u32),
    /// A byte that begins no token, or that stands directly behind a number.
    #[error("a byte that begins no token")]
    BadByte(u32),
    /// A number out of range, at its first byte.
    #[error("a number out of range")]
    NumberRange(u32),
    /// The allocator gave no memory.
    #[error("out of memory")]
    NoMemory,
}
