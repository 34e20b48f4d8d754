ghost use Rattle.std.specs.Prelude.{◌≡◌, ◌≤◌, ◌++◌, ℕ, List, Option, length, take, IsErrOf, OnOk, OnErr};
ghost use Rattle.std.specs.Option.{ForSome};
ghost use Rattle.guard_io.specs.Outside.{FaultCounted, IsPrefix};

/// Why a file was not loaded.
#[derive(Clone, Copy)]
pub enum LoadFault {
    /// The file is missing or could not be read; a fault was counted.
    Failed,
    /// Memory was wanting.
    Memory,
}

/// Files by name. They may tell their contents, and they count the faults of each name; one
/// counter may serve as the count of every name.
pub trait Files {
    // The content of a name, where it is told.
    ghost content: { Self → List ℕ → Option (List ℕ) };

    // The faults that were counted for a name.
    ghost faults: { Self → List ℕ → ℕ };

    /// Appends the first `most` bytes of the file of this name, or all of them if there are fewer.
    fn load(&mut self, name: &str, most: u64, into: &mut Vec<u8>) -> Result<(), LoadFault>
        ensures ok { OnOk result (ForSome (content self.old name.now) (λ bytes.
            into.new.items ≡ into.old.items ++ take most bytes)) }
        ensures err { OnErr result (ForSome (content self.old name.now) (λ bytes. (front : List ℕ)
            × IsPrefix front (take most bytes) × (into.new.items ≡ into.old.items ++ front))) }
        // Told or not, nothing that was there is lost, and no more comes than was asked for.
        ensures held { (more : List ℕ) × (into.new.items ≡ into.old.items ++ more)
            × (length more ≤ most) }
        ensures failed { IsErrOf result LoadFault.Failed
            → FaultCounted (faults self.old name.now) (faults self.new name.now) }
        ensures same { (other : List ℕ) → content self.new other ≡ content self.old other }
        ensures kept { (other : List ℕ) → faults self.old other ≤ faults self.new other };
}
