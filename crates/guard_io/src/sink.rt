ghost use Rattle.std.specs.Prelude.{◌≡◌, ◌≤◌, ◌++◌, ℕ, List, Option, Some, [], IsErrOf, IsOk, IsSome, OnOk, OnErr};
ghost use Rattle.std.specs.Option.{ForSome};
ghost use Rattle.guard_io.specs.Outside.{FaultCounted, IsPrefix};

/// Why a piece was not taken.
#[derive(Clone, Copy)]
pub enum SinkFault {
    /// It could not be written; a fault was counted.
    Failed,
    /// Memory was wanting.
    Memory,
}

/// What takes bytes. It may tell which it holds, and it counts its faults.
pub trait Sink {
    // The bytes that it holds, where they are told.
    ghost told: { Self → Option (List ℕ) };

    // The faults that were counted.
    ghost faults: { Self → ℕ };

    /// Appends the whole piece, or a front of it and an error.
    fn put(&mut self, bytes: &[u8]) -> Result<(), SinkFault>
        ensures ok { OnOk result (ForSome (told self.old) (λ held.
            told self.new ≡ Some (held ++ bytes.now))) }
        ensures err { OnErr result (ForSome (told self.old) (λ held. (front : List ℕ)
            × IsPrefix front bytes.now × (told self.new ≡ Some (held ++ front)))) }
        ensures tells { IsSome (told self.old) → IsSome (told self.new) }
        ensures failed { IsErrOf result SinkFault.Failed → FaultCounted (faults self.old) (faults self.new) }
        ensures kept { faults self.old ≤ faults self.new }
        ensures empty { bytes.now ≡ [] → IsOk result }
        ensures nothing { bytes.now ≡ []
            → (told self.new ≡ told self.old) × (faults self.new ≡ faults self.old) };
}
