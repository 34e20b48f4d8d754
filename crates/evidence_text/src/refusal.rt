//! Why bytes are no evidence.
use std::alloc::AllocError;
use thiserror::Error;

/// Why bytes are no evidence.
#[derive(Clone, Copy, Debug, Error)]
pub enum EvidenceRefusal {
    /// The number of the first line that is not in the format. The header is 0, and the line behind it 1.
    #[error("a line that is none of evidence")]
    Syntax(u64),
    /// The allocator gave no memory.
    #[error("out of memory")]
    NoMemory,
}

impl From<AllocError> for EvidenceRefusal {
    ghost use Rattle.std.specs.Prelude.{◌≡◌};
    ghost use Rattle.evidence_text.specs.declared.refusal.EvidenceRefusal.TheVariants.{NoMemory};

    ghost from_gives = { λ _ e. e ≡ NoMemory };

    fn from(_: AllocError) -> EvidenceRefusal {
        EvidenceRefusal::NoMemory
    }
}
