//! All rules in turn.
ghost use Rattle.std.specs.Prelude.{◌≡◌, [], IfOk, OnOk, false};
ghost use Rattle.evidence_lines.specs.declared.version.Version.TheVariants.{Two};
ghost use Rattle.rule_names.specs.code.Files.{file_of};
ghost use Rattle.rule_meaning.specs.Values.{has_pattern};
ghost use Rattle.value_store.specs.code.Books.{IsBookOf};
ghost use Rattle.value_store.specs.code.Stores.{see_store};
ghost use Rattle.evidence_rules.specs.Follows.{Accepts, nothing_made};
ghost use Rattle.evidence_rules.specs.code.Judgement.{FollowTo};
ghost use Rattle.evidence_rules.specs.Lean.{IsLean};
ghost use Rattle.engine_states.specs.code.Ruling.{Rests};
ghost use Rattle.engine_states.specs.code.States.{Grows};
ghost use Rattle.clause_eval.specs.code.Engines.{see_engine};
ghost use Rattle.rule_calls.specs.code.Ends.{AreOfEngine};
ghost use Rattle.rule_calls.specs.code.Ranks.{AreRanked};
ghost use Rattle.rule_calls.specs.code.Reported.{AreVerdicts, reported_sites};
ghost use Rattle.rule_calls.specs.code.Turns.{AreAllJudged, IsJudgedWhole};

use crate::ranked::{Ranked, rules_by_depth};
use crate::reported::reported_verdicts;
use clause_eval::Engine;
use doc_values::Doc;
use evidence_lines::Evidence;
use guard_syntax::Verdict;
use rule_names::RuleFile;
use std::alloc::{AllocError, Global};
use value_compare::{PatternBook, Store};

/// The rules of a file, evaluated over a template.
#[derive(Drop)]
pub struct Evaluation<'t, 's> {
    /// A line for each part that was evaluated.
    pub evidence: Evidence,
    /// The template and the file, with the trees that the calls of functions made.
    pub store: Store<'t, 's>,
    /// The verdict of each rule that is reported, by its site, in the order of the file; behind them that of the parts outside
    /// rules, by the site 0, if there are some.
    pub verdicts: Vec<(u32, Verdict)>,
    pub ghost version: { evidence.version ≡ Two },
}

/// Evaluates all rules of a file over a template, with the patterns of the file. After want of memory nothing is left of it.
pub fn evaluate<'t, 's>(
    alloc: Global,
    file: &'t RuleFile,
    doc: &'t Doc<'s>,
    book: &'t PatternBook,
) -> Result<Evaluation<'t, 's>, AllocError>
    requires plain { has_pattern doc.now ≡ false }
    requires book { IsBookOf (file_of file.now) book.now }
    ensures accepted { IfOk result (λ e. Accepts Two doc.entry.now (file_of file.entry.now) e.evidence.lines) }
    ensures lean { IfOk result (λ e. IsLean e.evidence.lines) }
    ensures template { IfOk result (λ e. (see_store e.store).template ≡ doc.entry.now) }
    ensures file { IfOk result (λ e. (see_store e.store).file ≡ file_of file.entry.now) }
    ensures follow { IfOk result (λ e. FollowTo Two (nothing_made doc.entry.now (file_of file.entry.now)) [] e.evidence.lines (see_store e.store)) }
    ensures verdicts { IfOk result (λ e. AreVerdicts e.evidence.lines (reported_sites (file_of file.entry.now)) e.verdicts.items) }
    ensures whole { IfOk result (λ e. AreOfEngine (see_store e.store) e.evidence.lines) }
{
    let mut engine = Engine::new(alloc, file, doc, book);
    judge_file(&mut engine)?;
    let verdicts = reported_verdicts(alloc, &engine)?;
    let (evidence, store) = engine.finish();
    Ok(Evaluation {
        evidence,
        store,
        verdicts,
    })
}

/// Judges the rules of the engine's file, and then the parts outside rules.
fn judge_file(engine: &mut Engine<'_, '_>) -> Result<(), AllocError>
    requires { Rests (see_engine engine.old) }
    ensures judged { OnOk result (IsJudgedWhole (see_engine engine.new)) }
    ensures grows { OnOk result (Grows (see_engine engine.old) (see_engine engine.new)) }
{
    let ranked = rules_by_depth(engine.lines.alloc, engine.lines.file)?;
    judge_rules(engine, &ranked)?;
    judge_outside(engine)
}

/// Judges rules, one after another.
fn judge_rules<'t>(engine: &mut Engine<'t, '_>, ranked: &[Ranked<'t>]) -> Result<(), AllocError>
    requires rests { Rests (see_engine engine.old) }
    requires ranked { AreRanked (see_engine engine.old).known.file ranked.now }
    ensures judged { OnOk result (AreAllJudged (see_engine engine.new)) }
    ensures grows { OnOk result (Grows (see_engine engine.old) (see_engine engine.new)) }
{
    for it in ranked {
        engine.judge_rule(it.rule)?;
    }
    Ok(())
}

/// Judges the parts outside rules, if there are some.
fn judge_outside(engine: &mut Engine<'_, '_>) -> Result<(), AllocError>
    requires { AreAllJudged (see_engine engine.old) }
    ensures judged { OnOk result (IsJudgedWhole (see_engine engine.new)) }
    ensures grows { OnOk result (Grows (see_engine engine.old) (see_engine engine.new)) }
{
    let file = engine.lines.file;
    if file.raw().loose.as_slice().is_empty() {
        return Ok(());
    }
    engine.judge_loose()?;
    Ok(())
}
