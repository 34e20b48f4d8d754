//! The literals of a rule file, kept where rows stand for their values.
ghost use Rattle.std.specs.Prelude.{◌≡◌, Some, IfSome, OnOk};
ghost use Rattle.guard_syntax.specs.code.Seen.{see_expr};
ghost use Rattle.rule_names.specs.code.Files.{file_of};
ghost use Rattle.rule_meaning.specs.StoreModel.{literal_at, tree_of_expr};

use doc_values::Doc;
use guard_syntax::Expr;
use rule_names::{Piece, PieceTable};
use std::alloc::AllocError;
use value_store::Store;

/// Keeps the literals of a store's rules in it, so that none is looked for again wherever a row stands for its value.
pub fn keep_literals<'t>(
    store: &mut Store<'t, '_>,
    pieces: &PieceTable<'t>,
) -> Result<(), AllocError>
    requires { pieces.now.file.now ≡ store.old.file.now }
    ensures doc { OnOk result (store.new.doc.now ≡ store.old.doc.now) }
    ensures file { OnOk result (store.new.file.now ≡ store.old.file.now) }
    ensures made { OnOk result (store.new.made ≡ store.old.made) }
{
    // No file has more sites than a `u32` counts.
    let Ok(count) = u32::try_from(pieces.file.raw.places.as_slice().len()) else {
        return Err(AllocError);
    };
    for site in 0..count {
        if let Some(tree) = literal_of(pieces, site) {
            store.keep_literal(site, tree)?;
        }
    }
    Ok(())
}

/// The tree of the literal of a site. Other sites have none.
fn literal_of<'t>(pieces: &PieceTable<'t>, site: u32) -> Option<&'t Doc<'static>>
    ensures { IfSome result (λ tree. literal_at (file_of pieces.entry.now.file.now) site ≡ Some tree.now) }
{
    match pieces.find(site) {
        Some(Piece::Expr(expr)) => tree_of(expr),
        _ => None,
    }
}

/// The tree of an expression that is a literal.
fn tree_of(expr: &Expr) -> Option<&Doc<'static>>
    ensures { IfSome result (λ tree. tree_of_expr (see_expr expr.entry.now) ≡ Some tree.now) }
{
    match expr {
        Expr::Literal { tree, .. } => Some(tree),
        _ => None,
    }
}
