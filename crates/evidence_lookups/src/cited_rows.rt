//! Which rows the line of a number gives for a step, a query, an expression or a variable in a frame.
ghost use Rattle.std.specs.Prelude.{◌≡◌, List, MatchOption};
ghost use Rattle.evidence_lines.specs.declared.line.Line.{Line};
ghost use Rattle.guard_syntax.specs.code.Seen.{see_expr, see_query, see_step};
ghost use Rattle.guard_syntax.specs.Syntax.{File};
ghost use Rattle.guard_syntax.specs.declared.row.Row.{Row};
ghost use Rattle.rule_names.specs.Pieces.{piece_at};
ghost use Rattle.evidence_lookups.specs.code.Grounds.{file_in, lines_of};
ghost use Rattle.evidence_rules.specs.CitedLines.{GivesArgument, GivesExpr, GivesPiece, GivesQuery, GivesStep, GivesVariable, kind_of_step};

use crate::frames::{args_at, outwards};
use crate::line_context::LineContext;
use crate::lookup::rows_said;
use evidence_lines::{LineKind, Rows};
use guard_syntax::{Expr, Query, Step, StepForm};
use rule_names::{Bind, Piece};

/// Of a query up to a step.
pub fn given_by_step<'b>(
    context: &'b LineContext<'_, '_, '_>,
    frame: u64,
    step: &Step,
    number: u64,
) -> Option<Rows<'b>>
    ensures { MatchOption result ((rows : List Row) → GivesStep (file_in context.entry.now) (lines_of context.entry.now) frame (see_step step.now) number rows → ⊥)
        (λ rows. GivesStep (file_in context.entry.now) (lines_of context.entry.now) frame (see_step step.now) number rows) }
{
    rows_said(&context.lines, number, kind_of_step(step), frame, step.site)
}

/// The kind of a step's line.
fn kind_of_step(step: &Step) -> LineKind
    ensures { (f : File) → (ls : List Line) → result ≡ kind_of_step f ls (see_step step.now) }
{
    match step.form {
        StepForm::Filter(_, _) => LineKind::Filter,
        StepForm::Keys { .. } => LineKind::Keys,
        _ => LineKind::Step,
    }
}

/// Of a whole query.
pub fn given_by_query<'b>(
    context: &'b LineContext<'_, '_, '_>,
    frame: u64,
    query: &Query,
    number: u64,
) -> Option<Rows<'b>>
    ensures { MatchOption result ((rows : List Row) → GivesQuery (file_in context.entry.now) (lines_of context.entry.now) frame (see_query query.now) number rows → ⊥)
        (λ rows. GivesQuery (file_in context.entry.now) (lines_of context.entry.now) frame (see_query query.now) number rows) }
{
    match query.steps.last() {
        Some(step) => given_by_step(context, frame, step, number),
        None => None,
    }
}

/// Of an expression.
pub fn given_by_expr<'b>(
    context: &'b LineContext<'_, '_, '_>,
    frame: u64,
    expr: &Expr,
    number: u64,
) -> Option<Rows<'b>>
    ensures { MatchOption result ((rows : List Row) → GivesExpr (file_in context.entry.now) (lines_of context.entry.now) frame (see_expr expr.now) number rows → ⊥)
        (λ rows. GivesExpr (file_in context.entry.now) (lines_of context.entry.now) frame (see_expr expr.now) number rows) }
{
    match expr {
        Expr::Literal { site, .. } => rows_said(
            &context.lines,
            number,
            LineKind::Literal,
            frame,
            *site,
        ),
        Expr::Function { site, .. } => rows_said(
            &context.lines,
            number,
            LineKind::Fn,
            frame,
            *site,
        ),
        Expr::Query(query) => given_by_query(context, frame, query, number),
        Expr::Found { site, .. } => rows_said(
            &context.lines,
            number,
            LineKind::Found,
            frame,
            *site,
        ),
    }
}

/// Of the variable that is used at a site.
pub fn given_by_variable<'b>(
    context: &'b LineContext<'_, '_, '_>,
    frame: u64,
    site: u32,
    number: u64,
) -> Option<Rows<'b>>
    ensures { MatchOption result ((rows : List Row) → GivesVariable (file_in context.entry.now) (lines_of context.entry.now) frame site number rows → ⊥)
        (λ rows. GivesVariable (file_in context.entry.now) (lines_of context.entry.now) frame site number rows) }
{
    let Some(bind) = context.store.file.bind(site) else {
        return None;
    };
    match bind {
        Bind::Value { up, site } => match outwards(context, up, frame) {
            Some(at) => given_by_piece(context, at, site, number),
            None => None,
        },
        Bind::Capture { up, step } => match outwards(context, up, frame) {
            Some(at) => rows_said(&context.lines, number, LineKind::Capture, at, step),
            None => None,
        },
        Bind::Param { up, index } => match outwards(context, up, frame) {
            Some(at) => given_by_argument(context, at, index, number),
            None => None,
        },
    }
}

/// Of the expression of a let, by its site.
fn given_by_piece<'b>(
    context: &'b LineContext<'_, '_, '_>,
    frame: u64,
    site: u32,
    number: u64,
) -> Option<Rows<'b>>
    ensures { MatchOption result ((rows : List Row) → GivesPiece (file_in context.entry.now) (lines_of context.entry.now) frame (piece_at (file_in context.entry.now) site) number rows → ⊥)
        (λ rows. GivesPiece (file_in context.entry.now) (lines_of context.entry.now) frame (piece_at (file_in context.entry.now) site) number rows) }
{
    match context.find(site) {
        Some(Piece::Expr(expr)) => given_by_expr(context, frame, expr, number),
        Some(Piece::Query(query)) => given_by_query(context, frame, query, number),
        _ => None,
    }
}

/// Of the argument of an index, in the frame in which the call stands.
fn given_by_argument<'b>(
    context: &'b LineContext<'_, '_, '_>,
    frame: u64,
    index: u32,
    number: u64,
) -> Option<Rows<'b>>
    ensures { MatchOption result ((rows : List Row) → GivesArgument (file_in context.entry.now) (lines_of context.entry.now) frame index number rows → ⊥)
        (λ rows. GivesArgument (file_in context.entry.now) (lines_of context.entry.now) frame index number rows) }
{
    let Some(place) = context.lines.place_at(frame) else {
        return None;
    };
    match place.kind {
        LineKind::Frame => {}
        _ => return None,
    }
    let Some(caller) = place.frame else {
        return None;
    };
    let Some(site) = place.site else {
        return None;
    };
    let Some(args) = args_at(context, site) else {
        return None;
    };
    let Some(arg) = args.get(index as usize) else {
        return None;
    };
    given_by_expr(context, caller, arg, number)
}
