//! Lines of what variables mean.
ghost use Rattle.std.specs.Prelude.{◌≡◌, ℕ, IfOk};
ghost use Rattle.guard_syntax.specs.Syntax as syntax;
ghost use Rattle.guard_syntax.specs.code.Seen.{see_expr};
ghost use Rattle.rule_names.specs.code.Files.{file_of};
ghost use Rattle.engine_states.specs.code.Answers.{AnswersArgument, AnswersCapture, AnswersPiece, AnswersVariable, IsArgumentOf, IsCapturing, IsLetValue, IsParameter, IsUse, argument_bound};
ghost use Rattle.engine_states.specs.code.States.{IsWhole};
ghost use Rattle.engine_lines.specs.code.Lines.{see_lines};

use crate::rows;
use engine_lines::EngineLines;
use guard_syntax::{Expr, Part};
use rule_names::{Bind, Piece, RuleFile};
use scope_frames::Frame;
use std::alloc::AllocError;

/// The line of what the variable means that is used at a site.
#[cycle(evaluation)]
pub(crate) fn variable(
    engine: &mut EngineLines<'_, '_>,
    frame: u64,
    site: u32,
) -> Result<u64, AllocError>
    requires whole { IsWhole (see_lines engine.old) }
    requires used { IsUse (see_lines engine.old) frame site }
    ensures { IfOk result (λ number. AnswersVariable (see_lines engine.old) (see_lines engine.new) frame site number) }
{
    let Some(bind) = engine.file.bind(site) else {
        unreachable!()
    };
    let cell = engine.frames.lookup(frame, site);
    match bind {
        Bind::Value { site: value, .. } => self::value(engine, cell.frame, value),
        Bind::Capture { step, .. } => capture(engine, cell.frame, step),
        Bind::Param { index, .. } => argument(engine, cell.frame, index),
    }
}

/// The line of the expression of a let, by its site.
#[cycle(evaluation)]
pub(crate) fn value(
    engine: &mut EngineLines<'_, '_>,
    frame: u64,
    site: u32,
) -> Result<u64, AllocError>
    requires whole { IsWhole (see_lines engine.old) }
    requires stands { IsLetValue (see_lines engine.old) frame site }
    ensures { IfOk result (λ number. AnswersPiece (see_lines engine.old) (see_lines engine.new) frame site number) }
{
    let file = engine.file;
    let Some(piece) = file.find(site) else {
        unreachable!()
    };
    match piece {
        Piece::Expr(expr) => rows::expression(engine, frame, expr),
        Piece::Query(query) => rows::query(engine, frame, query),
        _ => unreachable!(),
    }
}

/// The line of what a step captures, by its site.
#[cycle(evaluation)]
fn capture(engine: &mut EngineLines<'_, '_>, frame: u64, site: u32) -> Result<u64, AllocError>
    requires whole { IsWhole (see_lines engine.old) }
    requires stands { IsCapturing (see_lines engine.old) frame site }
    ensures { IfOk result (λ number. AnswersCapture (see_lines engine.old) (see_lines engine.new) frame site number) }
{
    if let Some(line) = engine.found_beside(frame, site) {
        return Ok(line);
    }
    let file = engine.file;
    let Some(piece) = file.find(site) else {
        unreachable!()
    };
    match piece {
        Piece::Step { query, index } => {
            let line = rows::steps(engine, frame, query, index)?;
            engine.add_capture(frame, site, line)
        }
        _ => unreachable!(),
    }
}

/// The line of the argument of an index, in the frame in which the call stands.
#[cycle(evaluation)]
fn argument(engine: &mut EngineLines<'_, '_>, frame: u64, index: u32) -> Result<u64, AllocError>
    requires whole { IsWhole (see_lines engine.old) }
    requires stands { IsParameter (see_lines engine.old) frame index }
    ensures { IfOk result (λ number. AnswersArgument (see_lines engine.old) (see_lines engine.new) frame (argument_bound (see_lines engine.old) frame index) index number) }
{
    let entered = engine.frames.entered.as_slice();
    let (caller, expr) = argument_given(engine.file, entered, frame, index);
    rows::expression(engine, caller, expr)
}

/// The argument of an index of the call that a frame is of, behind the frame in which the call stands.
fn argument_given<'t>(
    file: &'t RuleFile,
    entered: &[Frame],
    frame: u64,
    index: u32,
) -> (u64, &'t Expr)
    requires { (caller : ℕ) × (e : syntax.Expr) × IsArgumentOf (file_of file.now) entered.now frame index caller e }
    ensures { (caller : ℕ) (e : syntax.Expr) → IsArgumentOf (file_of file.entry.now) entered.now frame index caller e → (caller ≡ result.0) × (e ≡ see_expr result.1.now) }
{
    let called = entered[frame as usize];
    let Some(caller) = called.parent else {
        unreachable!()
    };
    let Some(piece) = file.find(called.site) else {
        unreachable!()
    };
    let Piece::Part(part) = piece else {
        unreachable!()
    };
    match part {
        Part::Call { args, .. } => (caller, &args[index as usize]),
        Part::Block { .. } => unreachable!(),
        Part::When { .. } => unreachable!(),
        Part::Kinds { .. } => unreachable!(),
        Part::Test { .. } => unreachable!(),
        Part::Refer { .. } => unreachable!(),
    }
}
