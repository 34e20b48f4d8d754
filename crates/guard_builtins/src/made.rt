//! What calls answer.
ghost use Rattle.std.specs.Prelude.{◌≡◌, ◌∷◌, [], false, true, IfOk, IfSome, map};
ghost use Rattle.std.specs.List.{list_all};
ghost use Rattle.rule_meaning.specs.Functions.{new_or_missing};
ghost use Rattle.rule_meaning.specs.Values.{has_pattern};
ghost use Rattle.guard_builtins.specs.code.Seen.{is_plain, see_made};

use doc_values::Doc;
use guard_syntax::Row;
use std::alloc::{AllocError, Global};

/// A row of a call's answer.
#[derive(Drop)]
pub enum Made {
    /// A new tree. The places in one that was read from a text are those in that text; any other has the place 0.
    Tree(Doc<'static>),
    /// A row that is no new value: a missing one of the first argument, or that the call does not apply.
    Kept(Row),
}

/// A new tree, or that the call of a site does not apply.
pub(crate) fn new_or_missing(site: u32, tree: Option<Doc<'static>>) -> Made
    ensures row { see_made result ≡ new_or_missing site tree.entry }
    ensures plain { IfSome tree.entry (λ t. has_pattern t ≡ false) → is_plain result ≡ true }
{
    match tree {
        Some(tree) => Made::Tree(tree),
        None => Made::Kept(Row::Unmade { call: site }),
    }
}

/// An answer of one row.
pub(crate) fn one_row(alloc: Global, row: Made) -> Result<Vec<Made>, AllocError>
    ensures rows { IfOk result (λ made. map see_made made.items ≡ see_made row ∷ []) }
    ensures plain { is_plain row ≡ true → IfOk result (λ made. list_all is_plain made.items ≡ true) }
{
    let mut made = Vec::new(alloc);
    made.push(row)?;
    Ok(made)
}
