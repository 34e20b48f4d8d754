//! The frames of an evaluation, and their cells.
ghost use Rattle.std.specs.Prelude.{length};
ghost use Rattle.scope_frames.specs.code.Filled.{AreOfFrames};

use crate::cell::Cell;
use crate::frame::Frame;
use crate::remembered::Remembered;
use indexmap::{IndexMap, IndexSet};
use rule_names::RuleFile;
use std::alloc::Global;

/// The frames that were entered, numbered from 0 in the order in which they were first entered, and the cells that are
/// filled, each of a frame that was entered.
#[derive(Drop)]
pub struct Frames<'t> {
    pub alloc: Global,
    pub file: &'t RuleFile,
    pub entered: IndexSet<Frame>,
    /// What fills cells: it has no memory before the first is filled.
    pub cells: IndexMap<Cell, Remembered>,
    pub ghost cells_of: { AreOfFrames (length entered.keys) cells.entries },
}
