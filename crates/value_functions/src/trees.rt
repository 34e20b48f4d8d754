//! New trees of one value.
ghost use Rattle.std.specs.Prelude.{◌≡◌, [], false, IfOk, string_bytes};
ghost use Rattle.std.specs.Cow.{cow_str_bytes};
ghost use Rattle.doc_values.specs.Tree.{has_text, holds_values};
ghost use Rattle.rule_meaning.specs.Functions.{lone, text_tree};

use doc_values::{Doc, DocBuilder, Kind};
use std::alloc::{AllocError, Global};
use std::borrow::CowStr;

/// The new tree of a text.
pub fn text_tree(alloc: Global, text: String) -> Result<Doc<'static>, AllocError>
    ensures { IfOk result (λ tree. tree ≡ text_tree (string_bytes text)) }
{
    tree(alloc, Kind::Text, CowStr::Owned(text))
}

/// The new tree of a value without a text in which nothing stands.
pub fn plain_tree(alloc: Global, kind: Kind) -> Result<Doc<'static>, AllocError>
    requires plain { holds_values kind ≡ false }
    requires text { has_text kind ≡ false }
    ensures { IfOk result (λ tree. tree ≡ lone kind []) }
{
    tree(alloc, kind, CowStr::Borrowed(""))
}

fn tree(alloc: Global, kind: Kind, text: CowStr<'static>) -> Result<Doc<'static>, AllocError>
    requires plain { holds_values kind ≡ false }
    requires text { has_text kind ≡ false → cow_str_bytes text ≡ [] }
    ensures { IfOk result (λ tree. tree ≡ lone kind (cow_str_bytes text.entry)) }
{
    let mut builder: DocBuilder<'static> = DocBuilder::new(alloc);
    match builder.scalar(kind, text, 0) {
        Ok(()) => Ok(builder.finish()),
        Err(_) => Err(AllocError),
    }
}
