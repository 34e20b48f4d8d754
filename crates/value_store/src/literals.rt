//! The literals of a rule file.
ghost use Rattle.std.specs.Prelude.{◌≡◌, ℕ, List, true, None, Some, MatchOption, IfSome};
ghost use Rattle.guard_syntax.specs.code.Seen.{see_expr, see_file};
ghost use Rattle.rule_names.specs.code.Seen.{see_piece};
ghost use Rattle.value_store.specs.code.Books.{IsBookOf};
ghost use Rattle.value_store.specs.code.BookCovers.{holds_in};
ghost use Rattle.rule_meaning.specs.StoreModel.{literal_at, tree_of_expr, tree_of_piece};

use doc_values::Doc;
use guard_syntax::Expr;
use rule_names::{Piece, PieceTable, RuleFile};

/// The tree of the literal of a site. Other sites, and numbers that are no site, have none.
pub(crate) fn literal(file: &RuleFile, site: u32) -> Option<&Doc<'static>>
    ensures tree { MatchOption result (literal_at (see_file file.entry.now.raw) site ≡ None) (λ tree. literal_at (see_file file.entry.now.raw) site ≡ Some tree.now) }
    ensures held { (book : List (List ℕ)) → IsBookOf (see_file file.entry.now.raw) book → IfSome result (λ tree. holds_in book tree.now ≡ true) }
{
    match file.find(site) {
        Some(piece) => literal_of(piece),
        None => None,
    }
}

/// The same, from the table of the parts of a file.
pub fn literal_in<'f>(table: &PieceTable<'f>, site: u32) -> Option<&'f Doc<'static>>
    ensures { MatchOption result
        (literal_at (see_file table.entry.now.file.now.raw) site ≡ None)
        (λ tree. literal_at (see_file table.entry.now.file.now.raw) site ≡ Some tree.now) }
{
    match table.find(site) {
        Some(piece) => literal_of(piece),
        None => None,
    }
}

/// The tree of a part that is a literal.
fn literal_of<'f>(piece: Piece<'f>) -> Option<&'f Doc<'static>>
    ensures { MatchOption result (tree_of_piece (see_piece piece.entry) ≡ None) (λ tree. tree_of_piece (see_piece piece.entry) ≡ Some tree.now) }
{
    match piece {
        Piece::Expr(expr) => tree_of(expr),
        _ => None,
    }
}

/// The tree of an expression that is a literal.
fn tree_of(expr: &Expr) -> Option<&Doc<'static>>
    ensures { MatchOption result (tree_of_expr (see_expr expr.entry.now) ≡ None) (λ tree. tree_of_expr (see_expr expr.entry.now) ≡ Some tree.now) }
{
    match expr {
        Expr::Literal { tree, .. } => Some(tree),
        _ => None,
    }
}
