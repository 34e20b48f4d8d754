//! Frames that are entered, each with its line.
ghost use Rattle.std.specs.Prelude.{◌≡◌, ◌<◌, IfOk, IsErr, None, OnErr, OnOk, Some, false, length, option_map, slice_get, true};
ghost use Rattle.rule_meaning.specs.Roots.{root_ref};
ghost use Rattle.scope_frames.specs.code.Frames.{MayEnter};
ghost use Rattle.engine_states.specs.code.Entered.{Enters, IsFramed, IsLineFor, MayHaveValue};
ghost use Rattle.engine_states.specs.code.States.{IsWhole};
ghost use Rattle.engine_lines.specs.code.Lines.{see_lines};

use crate::engine::EngineLines;
use evidence_lines::{Cites, Line, LineKind, Outcome};
use guard_syntax::{Origin, Ref};
use std::alloc::AllocError;

impl<'t, 's> EngineLines<'t, 's> {
    /// The frame of the file. After want of memory the answer is that there is none, here and in each later call.
    pub fn enter_file(&mut self) -> Result<u64, AllocError>
        requires { self.old.spent ≡ false → IsWhole (see_lines self.old) }
        ensures entered { IfOk result (λ number. Enters (see_lines self.old) (see_lines self.new) None 0 root_ref number) }
        ensures spent { self.old.spent ≡ true → IsErr result }
        ensures ok { OnOk result (self.new.spent ≡ false) }
        ensures err { OnErr result (self.new.spent ≡ true) }
    {
        if self.spent {
            return Err(AllocError);
        }
        let entered = self.enter_root();
        self.spent = entered.is_err();
        entered
    }

    /// The frame of a scope with a current value, in the frame around it. One that is entered for the first time has its
    /// line behind the others. After want of memory the answer is that there is none, here and in each later call.
    pub fn enter(&mut self, parent: Option<u64>, site: u32, current: Ref) -> Result<u64, AllocError>
        requires whole { self.old.spent ≡ false → IsWhole (see_lines self.old) }
        requires scope { self.old.spent ≡ false → MayEnter (see_lines self.old).known.file (see_lines self.old).frames parent site }
        requires value { self.old.spent ≡ false → MayHaveValue (see_lines self.old) parent site current }
        ensures entered { IfOk result (λ number. Enters (see_lines self.old) (see_lines self.new) parent site current number) }
        ensures spent { self.old.spent ≡ true → IsErr result }
        ensures ok { OnOk result (self.new.spent ≡ false) }
        ensures err { OnErr result (self.new.spent ≡ true) }
    {
        if self.spent {
            return Err(AllocError);
        }
        let entered = self.enter_scope(parent, site, current);
        self.spent = entered.is_err();
        entered
    }

    /// Enters the frame of the file.
    pub fn enter_root(&mut self) -> Result<u64, AllocError>
        requires { IsWhole (see_lines self.old) }
        ensures { IfOk result (λ number. Enters (see_lines self.old) (see_lines self.new) None 0 root_ref number) }
    {
        // A tree has a root, as `len` says: the current value of the file is known.
        let _nodes = self.store.doc.len();
        self.enter_scope(None, 0, root())
    }

    /// Enters the frame of a scope with a current value, in the frame around it.
    pub fn enter_scope(
        &mut self,
        parent: Option<u64>,
        site: u32,
        current: Ref,
    ) -> Result<u64, AllocError>
        requires whole { IsWhole (see_lines self.old) }
        requires scope { MayEnter (see_lines self.old).known.file (see_lines self.old).frames parent site }
        requires value { MayHaveValue (see_lines self.old) parent site current }
        ensures { IfOk result (λ number. Enters (see_lines self.old) (see_lines self.new) parent site current number) }
    {
        let number = self.frames.enter(parent, site, current)?;
        if number < self.framed.len() as u64 {
            return Ok(number);
        }
        let first = self.first_site(site);
        self.parts.add_frame(first)?;
        let line = self.frame_line(parent, site, current);
        let line = self.add_line(line)?;
        self.framed.push(line)?;
        Ok(number)
    }

    /// The current value of a frame.
    pub fn current(&self, frame: u64) -> Ref
        requires { frame < length (see_lines self.now).frames }
        ensures { option_map (λ f. f.current) (slice_get (see_lines self.now).frames frame) ≡ Some result }
    {
        self.frames.current(frame)
    }

    /// A site in front of the parts of the scope that is entered at a site: a called body stands behind its rule.
    fn first_site(&self, site: u32) -> u32 {
        match self.file.target(site) {
            Some(rule) => rule,
            None => site,
        }
    }

    /// The line of a frame. It takes no memory.
    fn frame_line(&self, parent: Option<u64>, site: u32, current: Ref) -> Line<'static>
        requires { IsFramed self.now.framed.items parent }
        ensures { IsLineFor self.now.framed.items parent site current result }
    {
        let cites = Cites::new(&[]);
        let outcome = Outcome::Value(current);
        match parent {
            None => Line {
                kind: LineKind::File,
                frame: None,
                site: None,
                cites,
                outcome,
            },
            Some(parent) => Line {
                kind: LineKind::Frame,
                frame: Some(self.line_of_frame(parent)),
                site: Some(site),
                cites,
                outcome,
            },
        }
    }
}

/// The root of the template, which is the current value of the file.
fn root() -> Ref
    ensures { result ≡ root_ref }
{
    Ref {
        origin: Origin::Template,
        node: 0,
        key: false,
    }
}
