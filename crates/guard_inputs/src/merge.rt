//! One map out of two.
ghost use Rattle.std.specs.Prelude.{◌+◌, ◌<◌, ◌^◌, MatchResult};
ghost use Rattle.doc_values.specs.Tree.{size};
ghost use Rattle.guard_inputs.specs.code.Merging.{IsMergeRefused, IsMerged};

use doc_values::{Doc, MergeRefusal};

/// The map of the entries of both, which together have no more nodes than there are numbers for nodes.
pub(crate) fn merge_docs<'s>(first: Doc<'s>, second: Doc<'s>) -> Result<Doc<'s>, MergeRefusal>
    requires { size first + size second < 2 ^ 32 }
    ensures { MatchResult result (IsMerged first.entry second.entry) (IsMergeRefused first.entry second.entry) }
{
    first.merge(second)
}
