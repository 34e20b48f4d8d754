//! Lines of rows.
ghost use Rattle.std.specs.Prelude.{◌≡◌, List, [], Some, true, IfOk, MatchBool};
ghost use Rattle.std.specs.List.{list_all};
ghost use Rattle.guard_syntax.specs.code.Seen.{see_part};
ghost use Rattle.rule_names.specs.Pieces.{OfPart, piece_at};
ghost use Rattle.rule_meaning.specs.StoreModel.{Made, is_known};
ghost use Rattle.evidence_rules.specs.Follows.{FollowsRows};
ghost use Rattle.evidence_lookups.specs.code.Grounds.{file_in, known_of, lines_of};

use crate::row_equality::same_rows;
use crate::step_rows::step_follows;
use evidence_lines::LineKind;
use evidence_lookups::expression_lines::expr_follows;
use evidence_lookups::line_context::{LineContext, SitedLine};
use evidence_lookups::lookup::value_of;
use guard_syntax::{Part, Row};
use query_steps::kinds;
use rule_names::Piece;
use std::alloc::AllocError;

/// Whether a line of rows follows, of any kind but that of a call.
pub fn rows_follow(
    context: &LineContext<'_, '_, '_>,
    line: SitedLine<'_>,
    rows: &[Row],
) -> Result<bool, AllocError>
    requires other { line.kind ≡ LineKind.Fn → ⊥ }
    ensures follows { IfOk result (λ follows. MatchBool follows
        (FollowsRows (known_of context.now) (lines_of context.now) line.entry.frame line.entry.site line.entry.kind (piece_at (file_in context.now) line.entry.site) line.entry.cites.now rows.now [])
        ((more : List Made) → FollowsRows (known_of context.now) (lines_of context.now) line.entry.frame line.entry.site line.entry.kind (piece_at (file_in context.now) line.entry.site) line.entry.cites.now rows.now more → ⊥)) }
    ensures known { IfOk result (λ follows. follows ≡ true → list_all (is_known (known_of context.now)) rows.now ≡ true) }
{
    match context.find(line.site) {
        Some(Piece::Expr(expr)) => Ok(expr_follows(context, line, expr, rows)),
        Some(Piece::Step { query, index }) => step_follows(context, line, query, index, rows),
        Some(Piece::Part(part)) => types_follow(context, line, part, rows),
        _ => Ok(false),
    }
}

/// Whether a line of the rows of a part follows: only a type block has rows.
fn types_follow(
    context: &LineContext<'_, '_, '_>,
    line: SitedLine<'_>,
    part: &Part,
    rows: &[Row],
) -> Result<bool, AllocError>
    requires placed { piece_at (file_in context.now) line.site ≡ Some (OfPart (see_part part.now)) }
    ensures follows { IfOk result (λ follows. MatchBool follows
        (FollowsRows (known_of context.now) (lines_of context.now) line.entry.frame line.entry.site line.entry.kind (Some (OfPart (see_part part.now))) line.entry.cites.now rows.now [])
        ((more : List Made) → FollowsRows (known_of context.now) (lines_of context.now) line.entry.frame line.entry.site line.entry.kind (Some (OfPart (see_part part.now))) line.entry.cites.now rows.now more → ⊥)) }
    ensures known { IfOk result (λ follows. follows ≡ true → list_all (is_known (known_of context.now)) rows.now ≡ true) }
{
    match line.kind {
        LineKind::Types => {}
        _ => return Ok(false),
    }
    match part {
        Part::Kinds { .. } => {}
        _ => return Ok(false),
    }
    let [] = line.cites else {
        return Ok(false);
    };
    let Some(current) = value_of(&context.lines, line.frame) else {
        return Ok(false);
    };
    let due = kinds(
        context.alloc,
        context.store.file,
        line.site,
        current,
        context.store,
    )?;
    Ok(same_rows(rows, &due))
}
