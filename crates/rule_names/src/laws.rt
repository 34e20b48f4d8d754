//! Laws of the definitions, for proofs of other crates. The bodies do nothing; a law is kept by a contract.
ghost use Rattle.std.specs.Prelude.{◌≡◌};
ghost use Rattle.guard_syntax.specs.Syntax.{File};
ghost use Rattle.rule_names.specs.Depths.{deepened, depths_of};

/// The law that the Depths of a file are settled: names that are followed once more change nothing.
pub fn settled_depths()
    ensures { (f : File) → deepened f (depths_of f) ≡ depths_of f }
{}
