//! Scalars, where they stand, and why one is refused.
use doc_values::Kind;
use std::alloc::AllocError;
use std::borrow::CowStr;
use thiserror::Error;

/// What a scalar stands in.
#[derive(Clone, Copy)]
pub struct Setting {
    /// The indentation of the parent, -1 at the top.
    pub parent: i32,
    /// Whether the scalar stands between flow brackets.
    pub flow: bool,
    /// Whether the scalar is a key, which stands on one line and is not typed.
    pub one_line: bool,
}

/// A scalar that was read.
#[derive(Drop)]
pub struct Scalar<'s> {
    /// The kind of a plain scalar that is no key, by its text; else `Text`.
    pub kind: Kind,
    /// The text, folded and decoded.
    pub text: CowStr<'s>,
    /// The byte offset behind the scalar.
    pub end: usize,
}

/// Why no scalar is read.
#[derive(Clone, Copy, Debug, PartialEq, Eq, Error)]
pub enum ScalarRefusal {
    /// No text that agrees up to and with this byte offset has a scalar there, or the text ends too early, where it is
    /// the length.
    #[error("no scalar goes on like this")]
    Syntax(u32),
    /// A mark between documents at this byte offset, inside quotation marks.
    #[error("another document begins inside a scalar")]
    ManyDocuments(u32),
    /// The allocator gave no memory.
    #[error("out of memory")]
    NoMemory,
}

impl From<AllocError> for ScalarRefusal {
    ghost use Rattle.std.specs.Prelude.{◌≡◌};
    ghost use Rattle.yaml_scalars.specs.declared.scalar.ScalarRefusal.TheVariants.{NoMemory};

    ghost from_gives = { λ _ e. e ≡ NoMemory };

    fn from(_: AllocError) -> ScalarRefusal {
        ScalarRefusal::NoMemory
    }
}
