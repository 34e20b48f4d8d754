//! What is made of one value after another.
ghost use Rattle.std.specs.Prelude.{◌≡◌, IfOk, None};
ghost use Rattle.rule_meaning.specs.Functions.{IsGiven};
ghost use Rattle.value_store.specs.code.Views.{see_view};
ghost use Rattle.value_functions.specs.code.Gives.{gives};
ghost use Rattle.guard_builtins.specs.code.Seen.{ByFunction, ByNothing, Changing, changes};

use doc_values::Doc;
use std::alloc::{AllocError, Global};
use value_functions::{Change, given};
use value_store::View;

/// What is made of one value after another.
pub(crate) trait ValueChange {
    ghost changing: { Self → Changing };

    /// The tree that is given for a value, if the change applies.
    fn given(
        &mut self,
        alloc: Global,
        value: View<'_, '_>,
    ) -> Result<Option<Doc<'static>>, AllocError>
        ensures given { IfOk result (IsGiven (changes (changing self.old) (see_view value.entry))) }
        ensures kept { changing self.new ≡ changing self.old };
}

impl ValueChange for Change {
    ghost changing = { λ change. ByFunction change };

    fn given(
        &mut self,
        alloc: Global,
        value: View<'_, '_>,
    ) -> Result<Option<Doc<'static>>, AllocError>
        ensures given { IfOk result (IsGiven (gives self.old (see_view value.entry))) }
        ensures kept { self.new ≡ self.old }
    {
        given(alloc, *self, value)
    }
}

/// The change of no value.
#[derive(Clone, Copy)]
pub(crate) struct NoChange;

impl ValueChange for NoChange {
    ghost changing = { λ change. ByNothing };

    fn given(
        &mut self,
        _alloc: Global,
        _value: View<'_, '_>,
    ) -> Result<Option<Doc<'static>>, AllocError>
        ensures { IfOk result (λ tree. tree ≡ None) }
    {
        Ok(None)
    }
}
