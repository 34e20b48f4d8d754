//! Work that is done by writing a text.
ghost use Rattle.std.specs.Prelude.{◌≡◌, string_bytes};
ghost use Rattle.guard_ends.specs.Order.{written};
ghost use Rattle.guard_run.specs.code.Outcome.{ended};

use crate::done::Done;
use guard_ends::End;
use guard_inputs::Written;

/// What is done where out takes a text, and nothing is judged.
pub(crate) fn passed(text: String) -> Done
    ensures { ended result ≡ written (string_bytes text) }
{
    Done {
        how: End::Passed,
        out: Written::Long(text.into_bytes()),
        err: Written::Nothing,
    }
}
