//! Lines of parts that have others in them, of tests and of references.
ghost use Rattle.std.specs.Prelude.{◌≡◌, IfOk, true};
ghost use Rattle.std.specs.List.{list_all};
ghost use Rattle.evidence_lines.specs.declared.line.LineKind.TheVariants as kind;
ghost use Rattle.guard_syntax.specs.Syntax.{OptConds};
ghost use Rattle.guard_syntax.specs.code.Seen.{see_body, see_conds, see_opt_conds, see_opt_expr, see_part, see_query};
ghost use Rattle.rule_names.specs.ReferenceGraph.{part_site};
ghost use Rattle.rule_meaning.specs.StoreModel.{is_known};
ghost use Rattle.engine_states.specs.code.Answers.{AnswersBodies, AnswersBody, AnswersTyped, AnswersVerdict, IsBlock, IsBodyIn, IsBodyOfRows, IsGuarded, IsKinds, IsRuleCall, IsTest};
ghost use Rattle.engine_states.specs.code.States.{IsWhole};
ghost use Rattle.engine_lines.specs.code.Lines.{see_lines};

use crate::rows::{expression, query};
use crate::verdicts::{conditions, conjunction};
use engine_lines::{Cited, EngineLines, Said, behind, cited};
use engine_parts::judging::{exchange, is_decided, is_pass, joined};
use evidence_lines::LineKind;
use guard_syntax::{Body, Conds, Expr, Part, Query, Ref, Row, Verdict};
use std::alloc::AllocError;

/// How a block begins: its site, whether one row for which its body is PASS is enough, and the query of its rows.
#[derive(Clone, Copy)]
pub(crate) struct BlockHead<'t> {
    pub site: u32,
    pub any: bool,
    pub query: &'t Query,
}

/// The line of a test, which has none yet.
#[cycle(evaluation)]
pub(crate) fn test<'t>(
    engine: &mut EngineLines<'t, '_>,
    frame: u64,
    part: &'t Part,
    left: &'t Query,
    right: &'t Option<Expr>,
) -> Result<Said, AllocError>
    requires whole { IsWhole (see_lines engine.old) }
    requires stands { IsTest (see_lines engine.old) frame (see_part part.now) (see_query left.now) (see_opt_expr right.now) }
    requires new { (see_lines engine.old).parts frame (part_site (see_part part.now)) ≡ None }
    ensures { IfOk result (λ said. AnswersVerdict (see_lines engine.old) (see_lines engine.new) frame kind.Test (part_site (see_part part.now)) said.line said.verdict) }
{
    let lefts = query(engine, frame, left)?;
    match right {
        Some(expr) => {
            let rights = expression(engine, frame, expr)?;
            engine.add_test(frame, part, lefts, Some(rights))
        }
        None => engine.add_test(frame, part, lefts, None),
    }
}

/// The line of the call of a rule, which has none yet: its body is judged in a frame of its own.
#[cycle(evaluation)]
pub(crate) fn call(
    engine: &mut EngineLines<'_, '_>,
    frame: u64,
    site: u32,
    not: bool,
) -> Result<Said, AllocError>
    requires whole { IsWhole (see_lines engine.old) }
    requires stands { IsRuleCall (see_lines engine.old) frame site not }
    requires new { (see_lines engine.old).parts frame site ≡ None }
    ensures { IfOk result (λ said. AnswersVerdict (see_lines engine.old) (see_lines engine.new) frame kind.Call site said.line said.verdict) }
{
    let body = engine.called_body(site);
    let current = engine.current(frame);
    let inner = engine.enter_scope(Some(frame), site, current)?;
    let said = conjunction(engine, inner, body.site, &body.parts, None)?;
    let lines = cited(engine.alloc, Some(said.line), None)?;
    let verdict = exchange(not, said.verdict);
    engine.add_verdict(frame, site, LineKind::Call, Cited { lines, verdict })
}

/// The line of a `when` block, which has none yet.
#[cycle(evaluation)]
pub(crate) fn guarded<'t>(
    engine: &mut EngineLines<'t, '_>,
    frame: u64,
    site: u32,
    cond: &'t Conds,
    body: &'t Body,
) -> Result<Said, AllocError>
    requires whole { IsWhole (see_lines engine.old) }
    requires stands { IsGuarded (see_lines engine.old) frame site (see_conds cond.now) (see_body body.now) }
    requires new { (see_lines engine.old).parts frame site ≡ None }
    ensures { IfOk result (λ said. AnswersVerdict (see_lines engine.old) (see_lines engine.new) frame kind.When site said.line said.verdict) }
{
    let conditions = conditions(engine, frame, cond)?;
    if !is_pass(conditions.verdict) {
        let lines = cited(engine.alloc, Some(conditions.line), None)?;
        let verdict = Verdict::Skip;
        return engine.add_verdict(frame, site, LineKind::When, Cited { lines, verdict });
    }
    let current = engine.current(frame);
    let said = body_at(engine, frame, body, current)?;
    let cites = cited(engine.alloc, Some(conditions.line), Some(said.line))?;
    let when = Cited {
        lines: cites,
        verdict: said.verdict,
    };
    engine.add_verdict(frame, site, LineKind::When, when)
}

/// The line of a block, which has none yet.
#[cycle(evaluation)]
pub(crate) fn block<'t>(
    engine: &mut EngineLines<'t, '_>,
    frame: u64,
    head: BlockHead<'t>,
    body: &'t Body,
) -> Result<Said, AllocError>
    requires whole { IsWhole (see_lines engine.old) }
    requires stands { IsBlock (see_lines engine.old) frame head.site head.any (see_query head.query.now) (see_body body.now) }
    requires new { (see_lines engine.old).parts frame head.site ≡ None }
    ensures { IfOk result (λ said. AnswersVerdict (see_lines engine.old) (see_lines engine.new) frame kind.Block head.entry.site said.line said.verdict) }
{
    let line = query(engine, frame, head.query)?;
    let rows = engine.rows_said(line).to_vec(engine.alloc)?;
    let cited = bodies(engine, frame, head.any, body, &rows)?;
    let verdict = cited.verdict;
    let lines = behind(engine.alloc, line, cited.lines)?;
    engine.add_verdict(frame, head.site, LineKind::Block, Cited { lines, verdict })
}

/// The line of a type block, which has none yet.
#[cycle(evaluation)]
pub(crate) fn kinds<'t>(
    engine: &mut EngineLines<'t, '_>,
    frame: u64,
    site: u32,
    cond: &'t Option<Conds>,
    body: &'t Body,
) -> Result<Said, AllocError>
    requires whole { IsWhole (see_lines engine.old) }
    requires stands { IsKinds (see_lines engine.old) frame site (see_opt_conds cond.now) (see_body body.now) }
    requires new { (see_lines engine.old).parts frame site ≡ None }
    ensures { IfOk result (λ said. AnswersVerdict (see_lines engine.old) (see_lines engine.new) frame kind.Kinds site said.line said.verdict) }
{
    let Some(cond) = cond else {
        let cited = typed(engine, frame, site, body)?;
        return engine.add_verdict(frame, site, LineKind::Kinds, cited);
    };
    let conditions = conditions(engine, frame, cond)?;
    if !is_pass(conditions.verdict) {
        let lines = cited(engine.alloc, Some(conditions.line), None)?;
        let verdict = Verdict::Skip;
        return engine.add_verdict(frame, site, LineKind::Kinds, Cited { lines, verdict });
    }
    let typed = typed(engine, frame, site, body)?;
    let verdict = typed.verdict;
    let cites = behind(engine.alloc, conditions.line, typed.lines)?;
    let kinds = Cited {
        lines: cites,
        verdict,
    };
    engine.add_verdict(frame, site, LineKind::Kinds, kinds)
}

/// The lines of what a type block guards: of its rows, and of its body on them.
#[cycle(evaluation)]
fn typed<'t>(
    engine: &mut EngineLines<'t, '_>,
    frame: u64,
    site: u32,
    body: &'t Body,
) -> Result<Cited, AllocError>
    requires whole { IsWhole (see_lines engine.old) }
    requires stands { (conditions : OptConds) × IsKinds (see_lines engine.old) frame site conditions (see_body body.now) }
    ensures { IfOk result (λ cited. AnswersTyped (see_lines engine.old) (see_lines engine.new) frame site (see_body body.now) cited.lines.items cited.verdict) }
{
    let line = engine.types(frame, site)?;
    let rows = engine.rows_said(line).to_vec(engine.alloc)?;
    let cited = bodies(engine, frame, false, body, &rows)?;
    let verdict = cited.verdict;
    let lines = behind(engine.alloc, line, cited.lines)?;
    Ok(Cited { lines, verdict })
}

/// The lines of a body on rows, one for each at which something was found, up to the one that decides.
#[cycle(evaluation)]
fn bodies<'t>(
    engine: &mut EngineLines<'t, '_>,
    frame: u64,
    any: bool,
    body: &'t Body,
    rows: &[Row],
) -> Result<Cited, AllocError>
    requires whole { IsWhole (see_lines engine.old) }
    requires stands { IsBodyOfRows (see_lines engine.old) frame (see_body body.now) }
    requires known { list_all (is_known (see_lines engine.old).known) rows.now ≡ true }
    ensures { IfOk result (λ cited. AnswersBodies (see_lines engine.old) (see_lines engine.new) frame any (see_body body.now) rows.now cited.lines.items cited.verdict) }
{
    let mut lines = Vec::new(engine.alloc);
    let mut verdict = Verdict::Skip;
    for row in rows {
        let Row::Found(value) = row else {
            verdict = joined(any, verdict, Verdict::Fail);
            continue;
        };
        if is_decided(any, verdict) {
            continue;
        }
        let said = body_at(engine, frame, body, *value)?;
        lines.push(said.line)?;
        verdict = joined(any, verdict, said.verdict);
    }
    Ok(Cited { lines, verdict })
}

/// The line of a body in a frame of its own, where a value is current.
#[cycle(evaluation)]
pub(crate) fn body_at<'t>(
    engine: &mut EngineLines<'t, '_>,
    frame: u64,
    body: &'t Body,
    value: Ref,
) -> Result<Said, AllocError>
    requires whole { IsWhole (see_lines engine.old) }
    requires stands { IsBodyIn (see_lines engine.old) frame (see_body body.now) value }
    ensures { IfOk result (λ said. AnswersBody (see_lines engine.old) (see_lines engine.new) frame (see_body body.now) value said.line said.verdict) }
{
    let inner = engine.enter_scope(Some(frame), body.site, value)?;
    conjunction(engine, inner, body.site, &body.parts, None)
}
