//! Why a tests file is refused.
ghost use Rattle.std.specs.Prelude.{◌≡◌};
ghost use Rattle.guard_testfile.specs.declared.refusal.TestRefusal.TheVariants.{NoMemory};

use std::alloc::AllocError;

/// Why a tests file is refused, with the byte offset of the value that it is about.
#[derive(Drop)]
pub enum TestRefusal {
    /// The first value in document order that is not as it has to be where it stands.
    TestShape(u32),
    /// The first value in document order whose key is the name of no rule that is reported; the key as it stands in a path.
    NoSuchRule { name: String, at: u32 },
    NoMemory,
}

impl From<AllocError> for TestRefusal {
    ghost from_gives = { λ _ e. e ≡ NoMemory };

    fn from(_error: AllocError) -> TestRefusal {
        TestRefusal::NoMemory
    }
}
