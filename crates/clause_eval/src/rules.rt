//! Lines of rules without parameters, and of the parts outside rules: they are judged one after another, in the frame of the
//! file.
ghost use Rattle.std.specs.Prelude.{◌≡◌, IfOk, IsErr, None, OnErr, OnOk, false, true};
ghost use Rattle.guard_syntax.specs.code.Seen.{see_rule};
ghost use Rattle.engine_states.specs.code.Ruling.{IsFileFrame, IsReady, Judges, MayJudge, MayJudgeLoose, Rests};
ghost use Rattle.engine_states.specs.code.States.{IsWhole};
ghost use Rattle.engine_lines.specs.code.Lines.{see_lines};
ghost use Rattle.clause_eval.specs.code.Engines.{see_engine};

use crate::blocks::body_at;
use crate::engine::Engine;
use crate::verdicts::{conditions, conjunction};
use engine_lines::{Cited, EngineLines};
use engine_parts::judging::is_pass;
use guard_syntax::{Rule, Verdict};
use std::alloc::AllocError;

impl<'t, 's> Engine<'t, 's> {
    /// The verdict of a rule without parameters: its line is added behind those of its conditions and of its body, if it has
    /// none yet. The rules that it refers to were judged before. After want of memory the answer is that there is none, here
    /// and in each later call.
    pub fn judge_rule(&mut self, rule: &'t Rule) -> Result<Verdict, AllocError>
        requires rests { self.old.lines.spent ≡ false → Rests (see_engine self.old) }
        requires rule { self.old.lines.spent ≡ false → MayJudge (see_engine self.old) (see_rule rule.now) }
        ensures judges { IfOk result (λ verdict. Judges (see_engine self.old) (see_engine self.new) rule.now.site verdict) }
        ensures spent { self.old.lines.spent ≡ true → IsErr result }
        ensures ok { OnOk result (self.new.lines.spent ≡ false) }
        ensures err { OnErr result (self.new.lines.spent ≡ true) }
    {
        if self.lines.spent {
            return Err(AllocError);
        }
        let verdict = judged(&mut self.lines, rule);
        self.lines.spent = verdict.is_err();
        verdict
    }

    /// The verdict of the parts outside rules, once all rules were judged. After want of memory the answer is that there is
    /// none, here and in each later call.
    pub fn judge_loose(&mut self) -> Result<Verdict, AllocError>
        requires rests { self.old.lines.spent ≡ false → Rests (see_engine self.old) }
        requires loose { self.old.lines.spent ≡ false → MayJudgeLoose (see_engine self.old) }
        ensures judges { IfOk result (λ verdict. Judges (see_engine self.old) (see_engine self.new) 0 verdict) }
        ensures spent { self.old.lines.spent ≡ true → IsErr result }
        ensures ok { OnOk result (self.new.lines.spent ≡ false) }
        ensures err { OnErr result (self.new.lines.spent ≡ true) }
    {
        if self.lines.spent {
            return Err(AllocError);
        }
        let verdict = judged_loose(&mut self.lines);
        self.lines.spent = verdict.is_err();
        verdict
    }
}

/// Judges a rule without parameters.
fn judged<'t>(engine: &mut EngineLines<'t, '_>, rule: &'t Rule) -> Result<Verdict, AllocError>
    requires rests { Rests (see_lines engine.old) }
    requires rule { MayJudge (see_lines engine.old) (see_rule rule.now) }
    ensures { IfOk result (λ verdict. Judges (see_lines engine.old) (see_lines engine.new) rule.now.site verdict) }
{
    if let Some(line) = engine.found_rule(rule.site) {
        return Ok(engine.verdict_said(line));
    }
    let frame = engine.enter_root()?;
    let cited = rule_cites(engine, frame, rule)?;
    let verdict = cited.verdict;
    engine.add_rule(frame, rule.site, cited.lines, verdict)?;
    Ok(verdict)
}

/// Judges the parts outside rules.
fn judged_loose(engine: &mut EngineLines<'_, '_>) -> Result<Verdict, AllocError>
    requires rests { Rests (see_lines engine.old) }
    requires loose { MayJudgeLoose (see_lines engine.old) }
    ensures { IfOk result (λ verdict. Judges (see_lines engine.old) (see_lines engine.new) 0 verdict) }
{
    if let Some(line) = engine.found_rule(0) {
        return Ok(engine.verdict_said(line));
    }
    let frame = engine.enter_root()?;
    let cited = loose_cites(engine, frame)?;
    let verdict = cited.verdict;
    engine.add_rule(frame, 0, cited.lines, verdict)?;
    Ok(verdict)
}

/// The lines of the conditions of a rule and of its body.
fn rule_cites<'t>(
    engine: &mut EngineLines<'t, '_>,
    frame: u64,
    rule: &'t Rule,
) -> Result<Cited, AllocError>
    requires whole { IsWhole (see_lines engine.old) }
    requires frame { IsFileFrame (see_lines engine.old) frame }
    requires rule { MayJudge (see_lines engine.old) (see_rule rule.now) }
    requires new { (see_lines engine.old).rules rule.now.site ≡ None }
    ensures { IfOk result (λ cited. IsReady (see_lines engine.old) (see_lines engine.new) frame rule.now.site cited.lines.items cited.verdict) }
{
    let Some(cond) = &rule.cond else {
        return rule_body(engine, frame, rule);
    };
    let conditions = conditions(engine, frame, cond)?;
    let mut lines = Vec::new(engine.alloc);
    lines.push(conditions.line)?;
    if !is_pass(conditions.verdict) {
        let verdict = Verdict::Skip;
        return Ok(Cited { lines, verdict });
    }
    let current = engine.current(frame);
    let said = body_at(engine, frame, &rule.body, current)?;
    lines.push(said.line)?;
    Ok(Cited {
        lines,
        verdict: said.verdict,
    })
}

/// The line of the body of a rule without conditions.
fn rule_body<'t>(
    engine: &mut EngineLines<'t, '_>,
    frame: u64,
    rule: &'t Rule,
) -> Result<Cited, AllocError>
    requires whole { IsWhole (see_lines engine.old) }
    requires frame { IsFileFrame (see_lines engine.old) frame }
    requires rule { MayJudge (see_lines engine.old) (see_rule rule.now) }
    requires new { (see_lines engine.old).rules rule.now.site ≡ None }
    requires none { rule.now.cond ≡ None }
    ensures { IfOk result (λ cited. IsReady (see_lines engine.old) (see_lines engine.new) frame rule.now.site cited.lines.items cited.verdict) }
{
    let current = engine.current(frame);
    let said = body_at(engine, frame, &rule.body, current)?;
    let mut lines = Vec::new(engine.alloc);
    lines.push(said.line)?;
    Ok(Cited {
        lines,
        verdict: said.verdict,
    })
}

/// The line of the parts outside rules.
fn loose_cites(engine: &mut EngineLines<'_, '_>, frame: u64) -> Result<Cited, AllocError>
    requires whole { IsWhole (see_lines engine.old) }
    requires frame { IsFileFrame (see_lines engine.old) frame }
    requires loose { MayJudgeLoose (see_lines engine.old) }
    requires new { (see_lines engine.old).rules 0 ≡ None }
    ensures { IfOk result (λ cited. IsReady (see_lines engine.old) (see_lines engine.new) frame 0 cited.lines.items cited.verdict) }
{
    let file = engine.file;
    let said = conjunction(engine, frame, 0, &file.raw().loose, None)?;
    let mut lines = Vec::new(engine.alloc);
    lines.push(said.line)?;
    Ok(Cited {
        lines,
        verdict: said.verdict,
    })
}
