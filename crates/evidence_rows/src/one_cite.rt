//! Rows that one cited line gives.
ghost use Rattle.std.specs.Prelude.{List, MatchOption};
ghost use Rattle.guard_syntax.specs.code.Seen.{see_expr};
ghost use Rattle.guard_syntax.specs.declared.row.Row.{Row};
ghost use Rattle.evidence_rules.specs.CitedLines.{GivesExpr, GivesVariable};
ghost use Rattle.evidence_lookups.specs.code.Grounds.{file_in, lines_of};
ghost use Rattle.evidence_rows.specs.code.OneCite.{GivesAlone};

use evidence_lines::Rows;
use evidence_lookups::cited_rows::{given_by_expr, given_by_variable};
use evidence_lookups::line_context::LineContext;
use guard_syntax::Expr;

/// Of the variable that is used at a site.
pub(crate) fn variable_cited<'b>(
    context: &'b LineContext<'_, '_, '_>,
    frame: u64,
    site: u32,
    cites: &[u64],
) -> Option<Rows<'b>>
    ensures { MatchOption result
        ((rows : List Row) → GivesAlone (GivesVariable (file_in context.entry.now) (lines_of context.entry.now) frame site) cites.now rows → ⊥)
        (λ rows. GivesAlone (GivesVariable (file_in context.entry.now) (lines_of context.entry.now) frame site) cites.now rows) }
{
    match cites {
        [number] => given_by_variable(context, frame, site, *number),
        _ => None,
    }
}

/// Of an expression.
pub(crate) fn expr_cited<'b>(
    context: &'b LineContext<'_, '_, '_>,
    frame: u64,
    expr: &Expr,
    cites: &[u64],
) -> Option<Rows<'b>>
    ensures { MatchOption result
        ((rows : List Row) → GivesAlone (GivesExpr (file_in context.entry.now) (lines_of context.entry.now) frame (see_expr expr.now)) cites.now rows → ⊥)
        (λ rows. GivesAlone (GivesExpr (file_in context.entry.now) (lines_of context.entry.now) frame (see_expr expr.now)) cites.now rows) }
{
    match cites {
        [number] => given_by_expr(context, frame, expr, *number),
        _ => None,
    }
}
