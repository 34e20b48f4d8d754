//! Cells: which one the use of a name leads to, and what fills it.
ghost use Rattle.std.specs.Prelude.{◌≡◌, ◌++◌, ◌∷◌, [], IsSome, MatchOption, None, OnErr, OnOk, Some, map};
ghost use Rattle.guard_syntax.specs.code.Seen.{expr_list, see_expr};
ghost use Rattle.rule_names.specs.EnclosingScopes.{home_of};
ghost use Rattle.rule_names.specs.code.Files.{file_of};
ghost use Rattle.rule_names.specs.Resolution.{bind_of};
ghost use Rattle.scope_frames.specs.code.Cells.{HasCell, arg_site, arg_site_at, cell_of, slot_of};
ghost use Rattle.scope_frames.specs.code.Filled.{Filled, filled_at};
ghost use Rattle.scope_frames.specs.code.Frames.{AreEntered, StandsFor};
ghost use Rattle.scope_frames.specs.code.Scoping.{up_of};
ghost use Rattle.scope_frames.specs.code.Seen.{cells_in};
ghost use Rattle.scope_frames.specs.declared.cell.Cell.{Cell};

use crate::cell::Cell;
use crate::frame::Frame;
use crate::frames::Frames;
use crate::outwards::{frame_at, outwards};
use crate::remembered::Remembered;
use guard_syntax::{Expr, Part, Row};
use rule_names::siblings::HasSite;
use rule_names::{Bind, Piece, RuleFile};
use std::alloc::AllocError;

impl<'t> Frames<'t> {
    /// The cell of the variable that is used at a site, in a frame of the scope in which the site stands: it is one of the
    /// frame of the scope that gives the name.
    pub fn lookup(&self, frame: u64, site: u32) -> Cell
        requires sound { AreEntered (file_of self.now.file.now) self.now.entered.keys }
        requires used { IsSome (bind_of (file_of self.now.file.now) site) }
        requires home { StandsFor (file_of self.now.file.now) self.now.entered.keys frame (home_of (file_of self.now.file.now) site) }
        ensures cell { cell_of (file_of self.now.file.now) self.now.entered.keys frame site ≡ Some result }
        ensures has { HasCell (file_of self.now.file.now) self.now.entered.keys result }
    {
        let Some(bind) = self.file.bind(site) else {
            unreachable!()
        };
        let Some(frame) = outwards(self.file, self.entered.as_slice(), up_of(bind), frame) else {
            unreachable!()
        };
        let Some(slot) = slot_of(self.file, self.entered.as_slice(), frame, bind) else {
            unreachable!()
        };
        Cell { frame, slot }
    }

    /// What fills a cell: the line of the evidence that gives the rows of its name, and these. It is None exactly where the
    /// cell is empty. It takes no memory.
    pub fn rows(&self, cell: Cell) -> Option<(u64, &[Row])>
        ensures { MatchOption result (filled_at (cells_in self.entry.now) cell ≡ None)
            (λ r. filled_at (cells_in self.entry.now) cell ≡ Some (record { cell = cell; line = r.0; rows = r.1.now })) }
    {
        match self.cells.get(&cell) {
            Some(remembered) => Some((remembered.line, remembered.rows.as_slice())),
            None => None,
        }
    }

    /// Fills an empty cell of a frame. A filled cell keeps its line and its rows, and any other stays as it is.
    pub fn fill(&mut self, cell: Cell, line: u64, rows: &[Row]) -> Result<(), AllocError>
        requires has { HasCell (file_of self.old.file.now) self.old.entered.keys cell }
        requires empty { filled_at (cells_in self.old) cell ≡ None }
        ensures file { self.new.file.now ≡ self.old.file.now }
        ensures frames { self.new.entered.keys ≡ self.old.entered.keys }
        ensures ok { OnOk result (cells_in self.new ≡ cells_in self.old ++ record { cell = cell; line = line; rows = rows.now } ∷ []) }
        ensures err { OnErr result (cells_in self.new ≡ cells_in self.old) }
        ensures filled { OnOk result (filled_at (cells_in self.new) cell ≡ Some (record { cell = cell; line = line; rows = rows.now })) }
        ensures kept { (other : Cell) (it : Filled) → filled_at (cells_in self.old) other ≡ Some it → filled_at (cells_in self.new) other ≡ Some it }
    {
        let rows = rows.to_vec(self.alloc)?;
        self.cells.insert(cell, Remembered { line, rows })?;
        Ok(())
    }
}

/// How many scopes outwards a name is given.
fn up_of(bind: Bind) -> u32
    ensures { result ≡ up_of bind }
{
    match bind {
        Bind::Value { up, .. } => up,
        Bind::Capture { up, .. } => up,
        Bind::Param { up, .. } => up,
    }
}

/// The site of what gives a name, in a frame of its scope.
fn slot_of(file: &RuleFile, frames: &[Frame], number: u64, bind: Bind) -> Option<u32>
    ensures { result ≡ slot_of (file_of file.now) frames.now number bind }
{
    match bind {
        Bind::Value { site, .. } => Some(site),
        Bind::Capture { step, .. } => Some(step),
        Bind::Param { index, .. } => {
            let frame = frame_at(frames, number)?;
            arg_site(file, frame.site, index)
        }
    }
}

/// The site of the argument of an index in the call of a site.
fn arg_site(file: &RuleFile, site: u32, index: u32) -> Option<u32>
    ensures { result ≡ arg_site_at (file_of file.now) site index }
{
    match file.find(site) {
        Some(Piece::Part(Part::Call { args, .. })) => site_among(args, index),
        _ => None,
    }
}

/// The site of the argument of an index.
fn site_among(args: &[Expr], index: u32) -> Option<u32>
    ensures { result ≡ arg_site index (expr_list (map see_expr args.now)) }
{
    match args.get(index as usize) {
        Some(arg) => Some(arg.site()),
        None => None,
    }
}
