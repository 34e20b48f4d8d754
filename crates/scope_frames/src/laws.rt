//! Laws of cells, for proofs of other crates. The bodies do nothing; a law is kept by a contract.
ghost use Rattle.std.specs.Prelude.{◌≡◌, ℕ};
ghost use Rattle.rule_names.specs.code.Files.{file_of};
ghost use Rattle.rule_names.specs.declared.bind.Bind.{Bind};
ghost use Rattle.scope_frames.specs.code.Cells.{slot_of};
ghost use Rattle.scope_frames.specs.code.Frames.{AreEntered, StandsFor};
ghost use Rattle.scope_frames.specs.code.Scoping.{IsGivenIn, up_of};

use crate::frames::Frames;

/// The law that a cell tells the name that it is for: two names of one scope, used as many scopes further in, that have the
/// same slot in a frame of the scope, are the same.
pub fn cells_tell_names(frames: &Frames<'_>)
    requires { AreEntered (file_of frames.now.file.now) frames.now.entered.keys }
    ensures { (number scope : ℕ) (b c : Bind) → StandsFor (file_of frames.now.file.now) frames.now.entered.keys number scope → IsGivenIn (file_of frames.now.file.now) scope b → IsGivenIn (file_of frames.now.file.now) scope c → up_of b ≡ up_of c → slot_of (file_of frames.now.file.now) frames.now.entered.keys number b ≡ slot_of (file_of frames.now.file.now) frames.now.entered.keys number c → b ≡ c }
{}
