//! Parts by their sites: the rows of an expression, the verdict of a conjunction, and the line of a rule by those that it cites.
ghost use Rattle.std.specs.Prelude.{◌≡◌, ℕ, IfOk, IsErr, OnErr, OnOk, false, true};
ghost use Rattle.evidence_lines.specs.declared.line.LineKind.TheVariants as kind;
ghost use Rattle.evidence_lines.specs.declared.line.Outcome.TheVariants as says;
ghost use Rattle.guard_syntax.specs.declared.row.Verdict.{Verdict};
ghost use Rattle.rule_names.specs.Pieces.{piece_at};
ghost use Rattle.rule_names.specs.code.Files.{file_of};
ghost use Rattle.engine_states.specs.code.Adding.{Added, Adds};
ghost use Rattle.engine_states.specs.code.Answers.{AnswersPiece, AnswersVerdict, IsConjunctionAt, IsLetValue};
ghost use Rattle.engine_states.specs.code.Ruling.{IsRuledBy, has_conditions};
ghost use Rattle.engine_states.specs.code.States.{IsWhole};
ghost use Rattle.engine_lines.specs.code.Lines.{see_lines};
ghost use Rattle.clause_eval.specs.code.Engines.{see_engine};

use crate::engine::Engine;
use crate::names::value;
use crate::verdicts::conjunction;
use engine_lines::{EngineLines, Said};
use guard_syntax::Verdict;
use rule_names::{Piece, RuleFile};
use std::alloc::AllocError;

impl<'t, 's> Engine<'t, 's> {
    /// The line that gives the rows of the expression of a site, in a frame of the scope in which it stands. The rules that
    /// it can reach have their lines. No line of a rule is added, and each line that is added is named by a later one but
    /// for the one that is answered. After want of memory the answer is that there is none, here and in each later call.
    pub fn rows(&mut self, frame: u64, site: u32) -> Result<u64, AllocError>
        requires whole { self.old.lines.spent ≡ false → IsWhole (see_engine self.old) }
        requires stands { self.old.lines.spent ≡ false → IsLetValue (see_engine self.old) frame site }
        ensures answers { IfOk result (λ number. AnswersPiece (see_engine self.old) (see_engine self.new) frame site number) }
        ensures spent { self.old.lines.spent ≡ true → IsErr result }
        ensures ok { OnOk result (self.new.lines.spent ≡ false) }
        ensures err { OnErr result (self.new.lines.spent ≡ true) }
    {
        if self.lines.spent {
            return Err(AllocError);
        }
        let line = value(&mut self.lines, frame, site);
        self.lines.spent = line.is_err();
        line
    }

    /// The verdict of the body or of the conditions of a site, or at the site 0 that of the parts outside rules, and the line
    /// that says it, in a frame of the scope in which their parts stand. The rules that they can reach have their lines.
    /// No line of a rule is added, and each line that is added is named by a later one but for the one that is answered.
    /// After want of memory the answer is that there is none, here and in each later call.
    pub fn conj(&mut self, frame: u64, site: u32) -> Result<(Verdict, u64), AllocError>
        requires whole { self.old.lines.spent ≡ false → IsWhole (see_engine self.old) }
        requires stands { self.old.lines.spent ≡ false → IsConjunctionAt (see_engine self.old) frame site }
        ensures answers { IfOk result (λ said. AnswersVerdict (see_engine self.old) (see_engine self.new) frame kind.Conj site said.1 said.0) }
        ensures spent { self.old.lines.spent ≡ true → IsErr result }
        ensures ok { OnOk result (self.new.lines.spent ≡ false) }
        ensures err { OnErr result (self.new.lines.spent ≡ true) }
    {
        if self.lines.spent {
            return Err(AllocError);
        }
        let said = conjunction_at(&mut self.lines, frame, site);
        self.lines.spent = said.is_err();
        let said = said?;
        Ok((said.verdict, said.line))
    }

    /// Adds the line of a rule without parameters, or at the site 0 that of the parts outside rules, by the lines that it
    /// cites, with which it follows in the frame of the file, and answers its verdict. Nothing is evaluated. After want of
    /// memory the answer is that there is none, here and in each later call.
    pub fn rule(&mut self, frame: u64, site: u32, cites: &[u64]) -> Result<Verdict, AllocError>
        requires whole { self.old.lines.spent ≡ false → IsWhole (see_engine self.old) }
        requires follows { self.old.lines.spent ≡ false → (verdict : Verdict) × Adds (see_engine self.old) frame site kind.Rule cites.now (says.Verdict verdict) }
        ensures added { IfOk result (λ verdict. (number : ℕ) × Added (see_engine self.old) (see_engine self.new) frame site kind.Rule cites.now (says.Verdict verdict) number) }
        ensures spent { self.old.lines.spent ≡ true → IsErr result }
        ensures ok { OnOk result (self.new.lines.spent ≡ false) }
        ensures err { OnErr result (self.new.lines.spent ≡ true) }
    {
        if self.lines.spent {
            return Err(AllocError);
        }
        let verdict = rule_by(&mut self.lines, frame, site, cites);
        self.lines.spent = verdict.is_err();
        verdict
    }
}

/// The line of the body or of the conditions of a site, or of the parts outside rules.
fn conjunction_at(
    engine: &mut EngineLines<'_, '_>,
    frame: u64,
    site: u32,
) -> Result<Said, AllocError>
    requires whole { IsWhole (see_lines engine.old) }
    requires stands { IsConjunctionAt (see_lines engine.old) frame site }
    ensures { IfOk result (λ said. AnswersVerdict (see_lines engine.old) (see_lines engine.new) frame kind.Conj site said.line said.verdict) }
{
    let file = engine.file;
    let Some(piece) = file.find(site) else {
        unreachable!()
    };
    match piece {
        Piece::Body(body) => conjunction(engine, frame, site, &body.parts, None),
        Piece::Conds(conds) => {
            conjunction(engine, frame, site, &conds.parts, Some(Verdict::Fail))
        }
        Piece::File => conjunction(engine, frame, site, &file.raw().loose, None),
        _ => unreachable!(),
    }
}

/// Adds the line of a rule by the lines that it cites.
fn rule_by(
    engine: &mut EngineLines<'_, '_>,
    frame: u64,
    site: u32,
    cites: &[u64],
) -> Result<Verdict, AllocError>
    requires whole { IsWhole (see_lines engine.old) }
    requires follows { (verdict : Verdict) × Adds (see_lines engine.old) frame site kind.Rule cites.now (says.Verdict verdict) }
    ensures { IfOk result (λ verdict. (number : ℕ) × Added (see_lines engine.old) (see_lines engine.new) frame site kind.Rule cites.now (says.Verdict verdict) number) }
{
    let verdict = ruled(engine, site, cites);
    let lines = Vec::from_slice(engine.alloc, cites)?;
    engine.add_rule(frame, site, lines, verdict)?;
    Ok(verdict)
}

/// The verdict of a rule by the lines that its line cites: the last of them says it, but where conditions alone are
/// cited, which are not PASS, it is SKIP.
fn ruled(engine: &EngineLines<'_, '_>, site: u32, cites: &[u64]) -> Verdict
    requires { (verdict : Verdict) × IsRuledBy engine.now.evidence.lines (has_conditions (piece_at (file_of engine.now.file.now) site)) cites.now verdict }
    ensures { (verdict : Verdict) → IsRuledBy engine.now.evidence.lines (has_conditions (piece_at (file_of engine.now.file.now) site)) cites.now verdict → result ≡ verdict }
{
    if cites.len() == 2 {
        return engine.verdict_said(cites[1]);
    }
    if has_conditions(engine.file, site) {
        return Verdict::Skip;
    }
    engine.verdict_said(cites[0])
}

/// Whether a site is that of a rule with conditions.
fn has_conditions(file: &RuleFile, site: u32) -> bool
    ensures { result ≡ has_conditions (piece_at (file_of file.now) site) }
{
    match file.find(site) {
        Some(Piece::Rule(rule)) => match &rule.cond {
            Some(_) => true,
            None => false,
        },
        _ => false,
    }
}
