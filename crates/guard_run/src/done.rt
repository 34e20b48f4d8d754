//! Work that is done.
ghost use Rattle.std.specs.Prelude.{◌≡◌, true};
ghost use Rattle.guard_ends.specs.End.{is_reported};

use guard_ends::End;
use guard_inputs::Written;

/// How a call ends whose work is done, what out takes then, and what err takes behind that.
#[derive(Drop)]
pub(crate) struct Done {
    pub how: End,
    pub out: Written,
    pub err: Written,
    pub ghost reported: { is_reported how ≡ true },
}
