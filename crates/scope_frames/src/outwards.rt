//! The frames around a frame.
ghost use Rattle.std.specs.Prelude.{◌≡◌, is_some, slice_get, suc};
ghost use Rattle.rule_names.specs.code.Files.{file_of};
ghost use Rattle.evidence_rules.specs.CitedLines.{args_at};
ghost use Rattle.scope_frames.specs.code.Frames.{outer_by, outer_of, outwards, root_of};

use crate::frame::Frame;
use guard_syntax::Part;
use rule_names::{Piece, RuleFile};

/// The frame so many frames further out.
pub(crate) fn outwards(file: &RuleFile, frames: &[Frame], up: u32, frame: u64) -> Option<u64>
    ensures { result ≡ outwards (file_of file.now) frames.now up frame }
{
    let mut at = frame;
    let mut left = up;
    while left > 0 {
        let Some(outer) = outer(file, frames, at) else {
            return None;
        };
        at = outer;
        left -= 1;
    }
    Some(at)
}

/// The frame around a frame: its parent; around a called body it is that of the file.
fn outer(file: &RuleFile, frames: &[Frame], number: u64) -> Option<u64>
    ensures { result ≡ outer_of (file_of file.now) frames.now number }
{
    let frame = frame_at(frames, number)?;
    around(file, frames, number, frame.site, frame.parent)
}

/// The frame around a frame with this site and parent.
fn around(
    file: &RuleFile,
    frames: &[Frame],
    number: u64,
    site: u32,
    parent: Option<u64>,
) -> Option<u64>
    ensures { result ≡ outer_by (file_of file.now) frames.now number parent (args_at (file_of file.now) site) }
{
    let parent = parent?;
    if is_call(file, site) {
        return root(frames, number);
    }
    Some(parent)
}

/// Whether the part of a site is the call of a rule.
fn is_call(file: &RuleFile, site: u32) -> bool
    ensures { result ≡ is_some (args_at (file_of file.now) site) }
{
    match file.find(site) {
        Some(Piece::Part(Part::Call { .. })) => true,
        _ => false,
    }
}

/// The frame without a parent to which a frame comes by parents, each of which has a lesser number.
fn root(frames: &[Frame], number: u64) -> Option<u64>
    ensures { result ≡ root_of frames.now (suc number) number }
{
    let mut at = number;
    let mut left = number;
    loop {
        let Some(frame) = frame_at(frames, at) else {
            return None;
        };
        let Some(parent) = frame.parent else {
            return Some(at);
        };
        if left == 0 {
            return None;
        }
        at = parent;
        left -= 1;
    }
}

/// The frame of a number.
pub(crate) fn frame_at(frames: &[Frame], number: u64) -> Option<Frame>
    ensures { result ≡ slice_get frames.now number }
{
    frames.get(number as usize).copied()
}
