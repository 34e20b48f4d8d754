//! Why a text is refused.
use doc_values::BuildRefusal;
use std::alloc::AllocError;
use thiserror::Error;

/// Why a text is refused.
#[derive(Clone, Copy, Debug, Error)]
pub enum JsonRefusal {
    /// No text of JSON's grammar, whatever its keys, numbers and depth, begins with the bytes up to and with this place,
    /// the least such one; where there is none the text ends too early, and it is its length. It comes where none of the
    /// refusals below counts.
    #[error("no JSON text goes on like this")]
    Syntax(u32),
    /// A complete key that an entry of the same map has already, after decoding; the place of its opening quotation mark.
    #[error("a key comes again")]
    DuplicateKey(u32),
    /// A complete number text beyond the range, whatever stands behind it; the place of its first byte.
    #[error("a number is out of range")]
    NumberRange(u32),
    /// A collection in 128 others; the place of its opening bracket.
    #[error("a collection is too deep")]
    TooDeep(u32),
    /// The allocator gave no memory, or the tree has more nodes than can be counted.
    #[error("out of memory")]
    NoMemory,
}

impl From<BuildRefusal> for JsonRefusal {
    ghost use Rattle.std.specs.Prelude.{◌≡◌};
    ghost use Rattle.json_reader.specs.code.Refused.{refusal_of};

    ghost from_gives = { λ r e. e ≡ refusal_of r };

    fn from(refusal: BuildRefusal) -> JsonRefusal {
        match refusal {
            BuildRefusal::NoMemory => JsonRefusal::NoMemory,
            BuildRefusal::TooDeep(at) => JsonRefusal::TooDeep(at),
            BuildRefusal::DuplicateKey(at) => JsonRefusal::DuplicateKey(at),
        }
    }
}

impl From<AllocError> for JsonRefusal {
    ghost use Rattle.std.specs.Prelude.{◌≡◌};
    ghost use Rattle.json_reader.specs.declared.refusal.JsonRefusal.TheVariants.{NoMemory};

    ghost from_gives = { λ _ e. e ≡ NoMemory };

    fn from(_: AllocError) -> JsonRefusal {
        JsonRefusal::NoMemory
    }
}
