//! Frames that are entered.
ghost use Rattle.std.specs.Prelude.{◌≡◌, ◌<◌, ◌≤◌, ◌++◌, ◌∷◌, ◌⊎◌, ℕ, [], length, IfOk, OnErr, OnOk, Some, option_map, slice_get, true};
ghost use Rattle.rule_names.specs.code.Files.{file_of};
ghost use Rattle.scope_frames.specs.code.Entering.{Enters};
ghost use Rattle.scope_frames.specs.code.Filled.{AreEmpty};
ghost use Rattle.scope_frames.specs.code.Frames.{AreEntered, MayEnter};
ghost use Rattle.scope_frames.specs.code.Seen.{cells_in};

use crate::frame::Frame;
use crate::frames::Frames;
use guard_syntax::Ref;
use indexmap::{IndexMap, IndexSet};
use rule_names::RuleFile;
use std::alloc::{AllocError, Global};

impl<'t> Frames<'t> {
    /// No frame, and no cell. It takes no memory.
    pub fn new(alloc: Global, file: &'t RuleFile) -> Frames<'t>
        ensures file { result.file.now ≡ file.entry.now }
        ensures frames { result.entered.keys ≡ [] }
        ensures cells { cells_in result ≡ [] }
    {
        Frames {
            alloc,
            file,
            entered: IndexSet::new(alloc),
            cells: IndexMap::new(alloc),
        }
    }

    /// The number of the frame with these arguments. One that is entered for the first time comes behind the others, and
    /// each of its cells is empty. Any other cell stays as it is.
    pub fn enter(&mut self, parent: Option<u64>, site: u32, current: Ref) -> Result<u64, AllocError>
        requires { MayEnter (file_of self.old.file.now) self.old.entered.keys parent site }
        ensures file { self.new.file.now ≡ self.old.file.now }
        ensures cells { cells_in self.new ≡ cells_in self.old }
        ensures empty { IfOk result (λ number. length self.old.entered.keys ≤ number → AreEmpty (cells_in self.new) number) }
        ensures entered { IfOk result (λ number. Enters self.old.entered.keys (record { parent = parent; site = site; current = current }) number self.new.entered.keys) }
        ensures sound { AreEntered (file_of self.old.file.now) self.old.entered.keys → AreEntered (file_of self.old.file.now) self.new.entered.keys }
        ensures err { OnErr result (self.new.entered.keys ≡ self.old.entered.keys) }
    {
        let frame = Frame {
            parent,
            site,
            current,
        };
        insert(&mut self.entered, frame)
    }

    /// The current value of a frame.
    pub fn current(&self, frame: u64) -> Ref
        requires { frame < length self.now.entered.keys }
        ensures { option_map (λ f. f.current) (slice_get self.now.entered.keys frame) ≡ Some result }
    {
        self.entered.as_slice()[frame as usize].current
    }
}

/// The number that a frame has among frames: behind the others where it is not there.
fn insert(frames: &mut IndexSet<Frame>, frame: Frame) -> Result<u64, AllocError>
    ensures there { IfOk result (λ number. slice_get frames.new.keys number ≡ Some frame) }
    ensures alone { IfOk result (λ number. (n : ℕ) → slice_get frames.new.keys n ≡ Some frame → n ≡ number) }
    ensures frames { OnOk result ((frames.new.keys ≡ frames.old.keys) ⊎ (frames.new.keys ≡ frames.old.keys ++ frame ∷ [])) }
    ensures err { OnErr result (frames.new.keys ≡ frames.old.keys) }
{
    let (number, _) = frames.insert_full(frame)?;
    Ok(number as u64)
}
