//! Lines of rows: of expressions, and of queries.
ghost use Rattle.std.specs.Prelude.{◌<◌, ◌≤◌, ℕ, length, map, suc, IfOk};
ghost use Rattle.evidence_lines.specs.declared.line.LineKind.TheVariants as kind;
ghost use Rattle.guard_syntax.specs.code.Seen.{expr_list, see_expr, see_query};
ghost use Rattle.guard_syntax.specs.Syntax as syntax;
ghost use Rattle.guard_syntax.specs.declared.syntax.Query.{out-Query};
ghost use Rattle.rule_names.specs.Pieces.{OfExpr};
ghost use Rattle.engine_states.specs.code.Answers.{AnswersExpr, AnswersQuery, AnswersRows, AnswersStepAt, GivesStepBefore, IsCall, LacksStep, StandsIn, StandsUpTo};
ghost use Rattle.engine_states.specs.code.Inside.{expr_sited, query_sited};
ghost use Rattle.engine_states.specs.code.States.{IsWhole};
ghost use Rattle.engine_lines.specs.code.Lines.{see_lines};

use crate::steps::step;
use engine_lines::EngineLines;
use guard_syntax::{Expr, Query};
use std::alloc::AllocError;

/// The line that gives the rows of an expression in a frame.
#[cycle(evaluation)]
pub(crate) fn expression<'t>(
    engine: &mut EngineLines<'t, '_>,
    frame: u64,
    expr: &'t Expr,
) -> Result<u64, AllocError>
    requires whole { IsWhole (see_lines engine.old) }
    requires stands { StandsIn (see_lines engine.old) frame (expr_sited (see_expr expr.now)) }
    ensures { IfOk result (λ number. AnswersExpr (see_lines engine.old) (see_lines engine.new) frame (see_expr expr.now) number) }
{
    match expr {
        Expr::Literal { site, tree } => engine.literal(frame, *site, tree),
        Expr::Function { site, args, .. } => function(engine, frame, *site, args),
        Expr::Query(query) => self::query(engine, frame, query),
        Expr::Found { site, query } => found_query(engine, frame, *site, query),
    }
}

/// The line of `some` and a query: the rows at which something was found.
#[cycle(evaluation)]
fn found_query<'t>(
    engine: &mut EngineLines<'t, '_>,
    frame: u64,
    site: u32,
    query: &'t Query,
) -> Result<u64, AllocError>
    requires whole { IsWhole (see_lines engine.old) }
    requires stands { StandsIn (see_lines engine.old) frame (site, OfExpr (syntax.found site (see_query query.now))) }
    ensures { IfOk result (λ number. AnswersRows (see_lines engine.old) (see_lines engine.new) frame kind.Found site number) }
{
    if let Some(line) = engine.found(frame, site) {
        return Ok(line);
    }
    let line = self::query(engine, frame, query)?;
    engine.add_found(frame, site, line)
}

/// The line of the call of a function, behind those of its arguments.
#[cycle(evaluation)]
fn function<'t>(
    engine: &mut EngineLines<'t, '_>,
    frame: u64,
    site: u32,
    args: &'t [Expr],
) -> Result<u64, AllocError>
    requires whole { IsWhole (see_lines engine.old) }
    requires stands { IsCall (see_lines engine.old) frame site (expr_list (map see_expr args.now)) }
    ensures { IfOk result (λ number. AnswersRows (see_lines engine.old) (see_lines engine.new) frame kind.Fn site number) }
{
    if let Some(line) = engine.found(frame, site) {
        return Ok(line);
    }
    let mut cites = Vec::new(engine.alloc);
    for arg in args {
        cites.push(expression(engine, frame, arg)?)?;
    }
    engine.add_call(frame, site, cites)
}

/// The line of the last step of a query.
#[cycle(evaluation)]
pub(crate) fn query<'t>(
    engine: &mut EngineLines<'t, '_>,
    frame: u64,
    query: &'t Query,
) -> Result<u64, AllocError>
    requires whole { IsWhole (see_lines engine.old) }
    requires stands { StandsIn (see_lines engine.old) frame (query_sited (see_query query.now)) }
    ensures { IfOk result (λ number. AnswersQuery (see_lines engine.old) (see_lines engine.new) frame (see_query query.now) number) }
{
    steps(engine, frame, query, query.steps.len() - 1)
}

/// The line of the step of an index. The steps before it are gone through in a loop, from the first that has no line.
#[cycle(evaluation)]
pub(crate) fn steps<'t>(
    engine: &mut EngineLines<'t, '_>,
    frame: u64,
    query: &'t Query,
    last: usize,
) -> Result<u64, AllocError>
    requires whole { IsWhole (see_lines engine.old) }
    requires stands { StandsUpTo (see_lines engine.old) frame (see_query query.now) last }
    requires last { last < length (out-Query query.now).steps.items }
    ensures { IfOk result (λ number. AnswersStepAt (see_lines engine.old) (see_lines engine.new) frame (see_query query.now) last number) }
{
    let (first, before) = begun(engine, frame, query, last);
    let mut line = before;
    for index in first..last + 1 {
        line = Some(step(engine, frame, query, index, line)?);
    }
    let Some(line) = line else { unreachable!() };
    Ok(line)
}

/// The first step, up to an index, behind the last that has a line, and that line.
fn begun(
    engine: &EngineLines<'_, '_>,
    frame: u64,
    query: &Query,
    last: usize,
) -> (usize, Option<u64>)
    requires whole { IsWhole (see_lines engine.now) }
    requires stands { StandsUpTo (see_lines engine.now) frame (see_query query.now) last }
    requires last { last < length (out-Query query.now).steps.items }
    ensures before { GivesStepBefore (see_lines engine.now) frame (see_query query.now) result.0 result.1 }
    ensures first { result.0 ≤ suc last }
    ensures new { (i : ℕ) → result.0 ≤ i → i ≤ last → LacksStep (see_lines engine.now) frame (see_query query.now) i }
{
    let mut index = last + 1;
    while index > 0 {
        if let Some(line) = engine.found(frame, query.steps[index - 1].site) {
            return (index, Some(line));
        }
        index -= 1;
    }
    (0, None)
}
