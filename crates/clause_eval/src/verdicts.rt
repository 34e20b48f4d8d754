//! Lines of verdicts: of bodies and conditions, and of their parts.
ghost use Rattle.std.specs.Prelude.{map, IfOk};
ghost use Rattle.evidence_lines.specs.declared.line.LineKind.TheVariants as kind;
ghost use Rattle.guard_syntax.specs.code.Seen.{disj_list, see_conds, see_disj, see_part};
ghost use Rattle.rule_names.specs.Pieces.{OfPart};
ghost use Rattle.rule_names.specs.ReferenceGraph.{disj_site, part_site};
ghost use Rattle.evidence_rules.specs.Follows.{conds_site};
ghost use Rattle.engine_states.specs.code.Answers.{AnswersDisjs, AnswersParts, AnswersVerdict, IsConjunction, StandsIn, parts_of};
ghost use Rattle.engine_states.specs.code.Inside.{conds_sited, disj_sited};
ghost use Rattle.engine_states.specs.code.Kinds.{kind_of_part};
ghost use Rattle.engine_states.specs.code.States.{IsWhole};
ghost use Rattle.engine_lines.specs.code.Lines.{see_lines};

use crate::blocks::{BlockHead, block, call, guarded, kinds, test};
use engine_lines::{Cited, EngineLines, Said};
use engine_parts::judging::{both, either, is_stop, site_of};
use evidence_lines::LineKind;
use guard_syntax::{Conds, Disj, Part, Verdict};
use std::alloc::AllocError;

/// The line of conditions.
#[cycle(evaluation)]
pub(crate) fn conditions<'t>(
    engine: &mut EngineLines<'t, '_>,
    frame: u64,
    conds: &'t Conds,
) -> Result<Said, AllocError>
    requires whole { IsWhole (see_lines engine.old) }
    requires stands { StandsIn (see_lines engine.old) frame (conds_sited (see_conds conds.now)) }
    ensures { IfOk result (λ said. AnswersVerdict (see_lines engine.old) (see_lines engine.new) frame kind.Conj (conds_site (see_conds conds.now)) said.line said.verdict) }
{
    conjunction(engine, frame, conds.site, &conds.parts, Some(Verdict::Fail))
}

/// The line of a body, of conditions or of the parts outside rules: its disjunctions have lines up to the one that
/// decides, if one does.
#[cycle(evaluation)]
pub(crate) fn conjunction<'t>(
    engine: &mut EngineLines<'t, '_>,
    frame: u64,
    site: u32,
    disjs: &'t [Disj],
    stop: Option<Verdict>,
) -> Result<Said, AllocError>
    requires whole { IsWhole (see_lines engine.old) }
    requires stands { IsConjunction (see_lines engine.old) frame site (disj_list (map see_disj disjs.now)) stop }
    ensures { IfOk result (λ said. AnswersVerdict (see_lines engine.old) (see_lines engine.new) frame kind.Conj site said.line said.verdict) }
{
    if let Some(line) = engine.found(frame, site) {
        return Ok(engine.said(line));
    }
    let cited = disjunctions(engine, frame, site, disjs, stop)?;
    engine.add_verdict(frame, site, LineKind::Conj, cited)
}

/// The lines of disjunctions, in order, up to the first that decides.
#[cycle(evaluation)]
fn disjunctions<'t>(
    engine: &mut EngineLines<'t, '_>,
    frame: u64,
    site: u32,
    disjs: &'t [Disj],
    stop: Option<Verdict>,
) -> Result<Cited, AllocError>
    requires whole { IsWhole (see_lines engine.old) }
    requires stands { IsConjunction (see_lines engine.old) frame site (disj_list (map see_disj disjs.now)) stop }
    ensures { IfOk result (λ cited. AnswersDisjs (see_lines engine.old) (see_lines engine.new) frame site stop (disj_list (map see_disj disjs.now)) cited.lines.items cited.verdict) }
{
    let mut lines = Vec::new(engine.alloc);
    let mut verdict = Verdict::Skip;
    for disj in disjs {
        let said = disjunction(engine, frame, disj)?;
        lines.push(said.line)?;
        verdict = both(verdict, said.verdict);
        if is_stop(stop, said.verdict) {
            return Ok(Cited { lines, verdict });
        }
    }
    Ok(Cited { lines, verdict })
}

/// The line of a disjunction.
#[cycle(evaluation)]
fn disjunction<'t>(
    engine: &mut EngineLines<'t, '_>,
    frame: u64,
    disj: &'t Disj,
) -> Result<Said, AllocError>
    requires whole { IsWhole (see_lines engine.old) }
    requires stands { StandsIn (see_lines engine.old) frame (disj_sited (see_disj disj.now)) }
    ensures { IfOk result (λ said. AnswersVerdict (see_lines engine.old) (see_lines engine.new) frame kind.Disj (disj_site (see_disj disj.now)) said.line said.verdict) }
{
    if let Some(line) = engine.found(frame, disj.site) {
        return Ok(engine.said(line));
    }
    let cited = alternatives(engine, frame, disj)?;
    engine.add_verdict(frame, disj.site, LineKind::Disj, cited)
}

/// The lines of the parts of a disjunction, in order, up to the first that is PASS.
#[cycle(evaluation)]
fn alternatives<'t>(
    engine: &mut EngineLines<'t, '_>,
    frame: u64,
    disj: &'t Disj,
) -> Result<Cited, AllocError>
    requires whole { IsWhole (see_lines engine.old) }
    requires stands { StandsIn (see_lines engine.old) frame (disj_sited (see_disj disj.now)) }
    ensures { IfOk result (λ cited. AnswersParts (see_lines engine.old) (see_lines engine.new) frame (disj_site (see_disj disj.now)) (parts_of (see_disj disj.now)) cited.lines.items cited.verdict) }
{
    let mut lines = Vec::new(engine.alloc);
    let mut verdict = Verdict::Skip;
    for part in &disj.parts {
        let said = self::part(engine, frame, part)?;
        lines.push(said.line)?;
        verdict = either(verdict, said.verdict);
        if is_stop(Some(Verdict::Pass), said.verdict) {
            return Ok(Cited { lines, verdict });
        }
    }
    Ok(Cited { lines, verdict })
}

/// The line of a part.
#[cycle(evaluation)]
fn part<'t>(
    engine: &mut EngineLines<'t, '_>,
    frame: u64,
    part: &'t Part,
) -> Result<Said, AllocError>
    requires whole { IsWhole (see_lines engine.old) }
    requires stands { StandsIn (see_lines engine.old) frame (part_site (see_part part.now), OfPart (see_part part.now)) }
    ensures { IfOk result (λ said. AnswersVerdict (see_lines engine.old) (see_lines engine.new) frame (kind_of_part (see_part part.now)) (part_site (see_part part.now)) said.line said.verdict) }
{
    if let Some(line) = engine.found(frame, site_of(part)) {
        return Ok(engine.said(line));
    }
    match part {
        Part::Test { left, right, .. } => test(engine, frame, part, left, right),
        Part::Refer { site, not, .. } => engine.reference(frame, *site, *not),
        Part::Call { site, not, .. } => call(engine, frame, *site, *not),
        Part::When { site, cond, body } => guarded(engine, frame, *site, cond, body),
        Part::Block {
            site,
            any,
            head,
            body,
        } => {
            let head = BlockHead {
                site: *site,
                any: *any,
                query: head,
            };
            block(engine, frame, head, body)
        }
        Part::Kinds {
            site,
            cond,
            body,
            ..
        } => kinds(engine, frame, *site, cond, body),
    }
}
