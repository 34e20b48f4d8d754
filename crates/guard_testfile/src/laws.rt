//! The law of the definitions, for proofs of other crates. The body does nothing; a law is kept by a contract.
ghost use Rattle.std.specs.Prelude.{◌≡◌, ◌⊎◌, ℕ};
ghost use Rattle.doc_values.specs.Tree.{Forest};
ghost use Rattle.guard_syntax.specs.Syntax.{File};
ghost use Rattle.guard_testfile.specs.Refusals.{BreaksShape, IsTestsFile, NamesNoRule};

/// The law that a tree has one answer: it is a tests file for a rule file, or it is refused at one value for one reason, and
/// no two of these.
pub fn one_answer()
    ensures answered { (file : File) → (tree : Forest)
        → IsTestsFile file tree ⊎ (((n : ℕ) × BreaksShape tree n) ⊎ ((n : ℕ) × NamesNoRule file tree n)) }
    ensures shape { (tree : Forest) → (n m : ℕ) → BreaksShape tree n → BreaksShape tree m → n ≡ m }
    ensures names { (file : File) → (tree : Forest) → (n m : ℕ) → NamesNoRule file tree n → NamesNoRule file tree m → n ≡ m }
    ensures apart { (file : File) → (tree : Forest) → (n m : ℕ) → BreaksShape tree n → NamesNoRule file tree m → ⊥ }
    ensures shaped { (file : File) → (tree : Forest) → (n : ℕ) → IsTestsFile file tree → BreaksShape tree n → ⊥ }
    ensures named { (file : File) → (tree : Forest) → (n : ℕ) → IsTestsFile file tree → NamesNoRule file tree n → ⊥ }
{}
