//! Why no rules are generated.
ghost use Rattle.std.specs.Prelude.{◌≡◌};
ghost use Rattle.rule_generator.specs.declared.refusal.GenerateRefusal.TheVariants.{NoMemory};

use std::alloc::AllocError;
use thiserror::Error;

/// Why no rules are generated.
#[derive(Clone, Copy, Debug, Error)]
pub enum GenerateRefusal {
    /// The text has more bytes than rules may have.
    #[error("the text is too long")]
    TooLong,
    /// The allocator gave no memory.
    #[error("out of memory")]
    NoMemory,
}

impl From<AllocError> for GenerateRefusal {
    ghost from_gives = { λ _ e. e ≡ NoMemory };

    fn from(_: AllocError) -> GenerateRefusal {
        GenerateRefusal::NoMemory
    }
}
