//! What stops the work of a call.
ghost use Rattle.std.specs.Prelude.{◌≡◌, ◌≤◌, length};
ghost use Rattle.doc_values.specs.Limits.{template_limit};
ghost use Rattle.guard_inputs.specs.code.Stops.{IsPlaced};
ghost use Rattle.guard_inputs.specs.declared.stop.Stop.TheVariants.{Memory};

use crate::refused::{Refused, refused_at};
use guard_ends::{RefusalKind, Which};
use std::alloc::AllocError;

/// What stops the work of a call before it is done.
#[derive(Drop)]
pub enum Stop {
    /// The words ask for nothing.
    Usage,
    /// A file is refused.
    Refused(Refused),
    /// A file was not read.
    Unread(Which),
    /// A pattern of the rules was not made.
    Unmade,
    /// Memory was wanting.
    Memory,
}

impl From<AllocError> for Stop {
    ghost from_gives = { λ _ stop. stop ≡ Memory };

    fn from(_error: AllocError) -> Stop {
        Stop::Memory
    }
}

/// What comes of a refusal of a text, by its kind and its place; of want of memory where it has none.
pub(crate) fn unread_at(which: Which, placed: Option<(RefusalKind, u32)>, text: &str) -> Stop
    requires { length text.now ≤ template_limit }
    ensures { IsPlaced which placed text.now result }
{
    match placed {
        Some((kind, at)) => Stop::Refused(refused_at(which, kind, at, text.as_bytes())),
        None => Stop::Memory,
    }
}
