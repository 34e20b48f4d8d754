//! Lines of rows of expressions that stand alone: literals, and what a query found.
ghost use Rattle.std.specs.Prelude.{◌≡◌, List, [], ◌∷◌, true, Some, filter, slice_get, MatchBool};
ghost use Rattle.std.specs.List.{list_all};
ghost use Rattle.guard_syntax.specs.code.Seen.{see_expr, see_query};
ghost use Rattle.guard_syntax.specs.declared.row.Row.TheVariants.{Found};
ghost use Rattle.rule_names.specs.Pieces.{OfExpr, piece_at};
ghost use Rattle.rule_meaning.specs.StoreModel.{Made, is_known};
ghost use Rattle.evidence_rules.specs.Follows.{FollowsAtExpr};
ghost use Rattle.rule_meaning.specs.Roots.{literal_ref};
ghost use Rattle.rule_meaning.specs.Verdicts.{is_found};
ghost use Rattle.evidence_lookups.specs.code.FoundRows.{AreFoundBy};
ghost use Rattle.evidence_lookups.specs.code.Grounds.{file_in, known_of, lines_of};

use crate::cited_rows::given_by_query;
use crate::line_context::{LineContext, SitedLine};
use evidence_lines::{LineKind, Rows};
use guard_syntax::{Expr, Origin, Query, Ref, Row};

/// Whether a line of the rows of a literal or of a `some` query follows.
pub fn expr_follows(
    context: &LineContext<'_, '_, '_>,
    line: SitedLine<'_>,
    expr: &Expr,
    rows: &[Row],
) -> bool
    requires other { line.kind ≡ LineKind.Fn → ⊥ }
    requires placed { piece_at (file_in context.now) line.site ≡ Some (OfExpr (see_expr expr.now)) }
    ensures follows { MatchBool result
        (FollowsAtExpr (known_of context.now) (lines_of context.now) line.entry.frame line.entry.site line.entry.kind (see_expr expr.now) line.entry.cites.now rows.now [])
        ((more : List Made) → FollowsAtExpr (known_of context.now) (lines_of context.now) line.entry.frame line.entry.site line.entry.kind (see_expr expr.now) line.entry.cites.now rows.now more → ⊥) }
    ensures known { result ≡ true → list_all (is_known (known_of context.now)) rows.now ≡ true }
{
    match expr {
        Expr::Literal { tree, .. } => {
            // A tree has a root, as `len` says.
            let _nodes = tree.len();
            match line.kind {
                LineKind::Literal => is_literal(line.site, line.cites, rows),
                _ => false,
            }
        }
        Expr::Found { query, .. } => match line.kind {
            LineKind::Found => is_found_by(context, line.frame, query, line.cites, rows),
            _ => false,
        },
        Expr::Function { .. } => false,
        Expr::Query(_) => false,
    }
}

/// Whether the line of a literal cites nothing and says its root.
fn is_literal(site: u32, cites: &[u64], rows: &[Row]) -> bool
    ensures { MatchBool result
        ((cites.now ≡ []) × (rows.now ≡ Found (literal_ref site) ∷ []))
        ((cites.now ≡ []) × (rows.now ≡ Found (literal_ref site) ∷ []) → ⊥) }
{
    match rows {
        [Row::Found(value)] => cites.is_empty() && *value == root_of_literal(site),
        _ => false,
    }
}

/// The root of the literal of a site.
fn root_of_literal(site: u32) -> Ref
    ensures { result ≡ literal_ref site }
{
    Ref {
        origin: Origin::Literal(site),
        node: 0,
        key: false,
    }
}

/// Whether a line of a `some` query cites one line, which gives the rows of the query, and says those at which something
/// was found.
fn is_found_by(
    context: &LineContext<'_, '_, '_>,
    frame: u64,
    query: &Query,
    cites: &[u64],
    rows: &[Row],
) -> bool
    ensures { MatchBool result
        (AreFoundBy (known_of context.now) (lines_of context.now) frame (see_query query.now) cites.now rows.now)
        (AreFoundBy (known_of context.now) (lines_of context.now) frame (see_query query.now) cites.now rows.now → ⊥) }
{
    let [cite] = cites else {
        return false;
    };
    match given_by_query(context, frame, query, *cite) {
        Some(all) => are_found(&all, rows),
        None => false,
    }
}

/// Whether rows are those of others at which something was found, in order.
fn are_found(all: &Rows<'_>, rows: &[Row]) -> bool
    ensures { MatchBool result (rows.now ≡ filter is_found all.now) (rows.now ≡ filter is_found all.now → ⊥) }
{
    let mut next = 0;
    for index in 0..all.len() {
        let Some(row) = all.get(index) else {
            unreachable!()
        };
        if is_found(&row) {
            if !stands_at(rows, next, &row) {
                return false;
            }
            next += 1;
        }
    }
    next == rows.len()
}

/// Whether a row stands at an index.
pub fn stands_at(rows: &[Row], at: usize, row: &Row) -> bool
    ensures { MatchBool result (slice_get rows.now at ≡ Some row.now) (slice_get rows.now at ≡ Some row.now → ⊥) }
{
    match rows.get(at) {
        Some(said) => said == row,
        None => false,
    }
}

/// Whether something was found at a row.
pub fn is_found(row: &Row) -> bool
    ensures { result ≡ is_found row.now }
{
    matches!(row, Row::Found(_))
}
