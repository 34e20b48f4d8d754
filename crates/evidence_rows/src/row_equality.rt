//! Whether lists of rows are the same.
ghost use Rattle.std.specs.Prelude.{◌≡◌, MatchBool};

use guard_syntax::Row;

/// Whether rows are the same, in the same order.
pub(crate) fn same_rows(rows: &[Row], due: &[Row]) -> bool
    ensures { MatchBool result (rows.now ≡ due.now) (rows.now ≡ due.now → ⊥) }
{
    rows == due
}
