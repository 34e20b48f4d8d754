//! Frames that are entered, each with its line.
ghost use Rattle.std.specs.Prelude.{◌≡◌, ◌<◌, IfOk, IsErr, None, OnErr, OnOk, Some, false, length, option_map, slice_get, true};
ghost use Rattle.rule_meaning.specs.Roots.{root_ref};
ghost use Rattle.scope_frames.specs.code.Frames.{MayEnter};
ghost use Rattle.engine_states.specs.code.Entered.{Enters, MayHaveValue};
ghost use Rattle.engine_states.specs.code.States.{IsWhole};
ghost use Rattle.clause_eval.specs.code.Engines.{see_engine};

use crate::engine::Engine;
use guard_syntax::Ref;
use std::alloc::AllocError;

impl<'t, 's> Engine<'t, 's> {
    /// The frame of the file. After want of memory the answer is that there is none, here and in each later call.
    pub fn enter_file(&mut self) -> Result<u64, AllocError>
        requires { self.old.lines.spent ≡ false → IsWhole (see_engine self.old) }
        ensures entered { IfOk result (λ number. Enters (see_engine self.old) (see_engine self.new) None 0 root_ref number) }
        ensures spent { self.old.lines.spent ≡ true → IsErr result }
        ensures ok { OnOk result (self.new.lines.spent ≡ false) }
        ensures err { OnErr result (self.new.lines.spent ≡ true) }
    {
        self.lines.enter_file()
    }

    /// The frame of a scope with a current value, in the frame around it. One that is entered for the first time has its
    /// line behind the others. After want of memory the answer is that there is none, here and in each later call.
    pub fn enter(&mut self, parent: Option<u64>, site: u32, current: Ref) -> Result<u64, AllocError>
        requires whole { self.old.lines.spent ≡ false → IsWhole (see_engine self.old) }
        requires scope { self.old.lines.spent ≡ false → MayEnter (see_engine self.old).known.file (see_engine self.old).frames parent site }
        requires value { self.old.lines.spent ≡ false → MayHaveValue (see_engine self.old) parent site current }
        ensures entered { IfOk result (λ number. Enters (see_engine self.old) (see_engine self.new) parent site current number) }
        ensures spent { self.old.lines.spent ≡ true → IsErr result }
        ensures ok { OnOk result (self.new.lines.spent ≡ false) }
        ensures err { OnErr result (self.new.lines.spent ≡ true) }
    {
        self.lines.enter(parent, site, current)
    }

    /// The current value of a frame.
    pub fn current(&self, frame: u64) -> Ref
        requires { frame < length (see_engine self.now).frames }
        ensures { option_map (λ f. f.current) (slice_get (see_engine self.now).frames frame) ≡ Some result }
    {
        self.lines.current(frame)
    }
}
