//! The verdicts that are reported.
ghost use Rattle.std.specs.Prelude.{IfOk};
ghost use Rattle.clause_eval.specs.code.Engines.{see_engine};
ghost use Rattle.rule_calls.specs.code.Reported.{AreVerdicts, reported_sites, rule_sites};
ghost use Rattle.rule_calls.specs.code.Turns.{AreAllJudged, IsJudgedWhole};

use clause_eval::Engine;
use guard_syntax::Verdict;
use std::alloc::{AllocError, Global};

/// The verdicts of the rules without parameters, by their sites in the order of the file, and behind them that of the parts
/// outside rules, by the site 0, if there are some.
pub(crate) fn reported_verdicts(
    alloc: Global,
    engine: &Engine<'_, '_>,
) -> Result<Vec<(u32, Verdict)>, AllocError>
    requires { IsJudgedWhole (see_engine engine.now) }
    ensures { IfOk result (λ verdicts. AreVerdicts (see_engine engine.now).lines (reported_sites (see_engine engine.now).known.file) verdicts.items) }
{
    let mut verdicts = rule_verdicts(alloc, engine)?;
    if engine.lines.file.raw().loose.as_slice().is_empty() {
        return Ok(verdicts);
    }
    let Some(line) = engine.found_rule(0) else {
        unreachable!()
    };
    verdicts.push((0, engine.verdict_said(line)))?;
    Ok(verdicts)
}

/// The verdicts of the rules without parameters.
fn rule_verdicts(alloc: Global, engine: &Engine<'_, '_>) -> Result<Vec<(u32, Verdict)>, AllocError>
    requires { AreAllJudged (see_engine engine.now) }
    ensures { IfOk result (λ verdicts. AreVerdicts (see_engine engine.now).lines (rule_sites (see_engine engine.now).known.file.rules) verdicts.items) }
{
    let mut verdicts = Vec::new(alloc);
    for rule in &engine.lines.file.raw().rules {
        if !rule.params.as_slice().is_empty() {
            continue;
        }
        let Some(line) = engine.found_rule(rule.site) else {
            unreachable!()
        };
        verdicts.push((rule.site, engine.verdict_said(line)))?;
    }
    Ok(verdicts)
}
