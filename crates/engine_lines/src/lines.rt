//! The lines of an evaluation: what they say, and how one is added.
ghost use Rattle.std.specs.Prelude.{◌≡◌, ◌++◌, ◌∷◌, ◌<◌, ℕ, [], length, List, Some, None, IfOk, slice_get, suc};
ghost use Rattle.evidence_lines.specs.declared.version.Version.TheVariants.{Two};
ghost use Rattle.evidence_lines.specs.declared.line.LineKind.{LineKind};
ghost use Rattle.evidence_lines.specs.declared.line.LineKind.TheVariants as kind;
ghost use Rattle.evidence_lines.specs.declared.line.Outcome.TheVariants as says;
ghost use Rattle.guard_syntax.specs.declared.row.Row.{Row};
ghost use Rattle.guard_syntax.specs.declared.row.Verdict.{Verdict};
ghost use Rattle.rule_names.specs.Pieces.{piece_at};
ghost use Rattle.value_store.specs.code.Stores.{see_store};
ghost use Rattle.evidence_rules.specs.CitedLines.{IsLine};
ghost use Rattle.evidence_rules.specs.Follows.{Follows};
ghost use Rattle.engine_states.specs.code.Adding.{Added, Adds, line_for};
ghost use Rattle.engine_states.specs.code.Kinds.{kind_beside, own_kind};
ghost use Rattle.engine_states.specs.code.States.{FollowUp, IsWhole};
ghost use Rattle.engine_lines.specs.code.Lines.{see_lines};

use crate::engine::EngineLines;
use crate::place::Place;
use evidence_lines::{Cites, Line, LineKind, Outcome, Rows};
use guard_syntax::Verdict;
use std::alloc::AllocError;

impl<'t, 's> EngineLines<'t, 's> {
    /// The line of a frame.
    pub fn line_of_frame(&self, frame: u64) -> u64
        requires { frame < length self.now.framed.items }
        ensures { slice_get self.now.framed.items frame ≡ Some result }
    {
        self.framed.as_slice()[frame as usize]
    }

    /// The line of the part of a site in a frame, if it was evaluated there.
    pub fn found(&self, frame: u64, site: u32) -> Option<u64>
        ensures { result ≡ (see_lines self.now).parts frame site }
    {
        self.parts.get(frame, site)
    }

    /// The line of what the step of a site captures in a frame, or of the rows of the type block of a site.
    pub fn found_beside(&self, frame: u64, site: u32) -> Option<u64>
        ensures { result ≡ (see_lines self.now).beside frame site }
    {
        match self.beside.get(&Place { frame, site }) {
            Some(line) => Some(*line),
            None => None,
        }
    }

    /// The line of the rule of a site, if it was judged.
    pub fn found_rule(&self, site: u32) -> Option<u64>
        ensures { result ≡ (see_lines self.now).rules site }
    {
        self.rules.get(site)
    }

    /// The rows that a line says.
    pub fn rows_said(&self, line: u64) -> Rows<'_>
        requires { (of : LineKind) × (frame site : ℕ) × (rows : List Row) × IsLine self.now.evidence.lines line of frame site (says.Rows rows) }
        ensures { (of : LineKind) (frame site : ℕ) (rows : List Row) → IsLine self.entry.now.evidence.lines line of frame site (says.Rows rows) → result ≡ rows }
    {
        let Some(line) = self.evidence.get(line) else {
            unreachable!()
        };
        match line.outcome {
            Outcome::Rows(rows) => rows,
            Outcome::Value(_) | Outcome::Verdict(_) => unreachable!(),
        }
    }

    /// The verdict that a line says.
    pub fn verdict_said(&self, line: u64) -> Verdict
        requires { (of : LineKind) × (frame site : ℕ) × (verdict : Verdict) × IsLine self.now.evidence.lines line of frame site (says.Verdict verdict) }
        ensures { (of : LineKind) (frame site : ℕ) (verdict : Verdict) → IsLine self.now.evidence.lines line of frame site (says.Verdict verdict) → result ≡ verdict }
    {
        let Some(line) = self.evidence.get(line) else {
            unreachable!()
        };
        match line.outcome {
            Outcome::Verdict(verdict) => verdict,
            Outcome::Value(_) | Outcome::Rows(_) => unreachable!(),
        }
    }

    /// Adds the line of the part at a place, which has none yet, and answers its number.
    pub fn add(
        &mut self,
        place: Place,
        kind: LineKind,
        cites: Vec<u64>,
        outcome: Outcome<'_>,
    ) -> Result<u64, AllocError>
        requires whole { IsWhole (see_lines self.old) }
        requires kind { own_kind (piece_at (see_lines self.old).known.file place.site) ≡ Some kind }
        requires adds { Adds (see_lines self.old) place.frame place.site kind cites.items outcome }
        requires new { (see_lines self.old).parts place.frame place.site ≡ None }
        ensures { IfOk result (λ number. Added (see_lines self.old) (see_lines self.new) place.frame place.site kind cites.items outcome.entry number) }
    {
        let line = self.line_in(place, kind, &cites, outcome);
        let number = self.add_line(line)?;
        self.parts.set(place.frame, place.site, number)?;
        Ok(number)
    }

    /// Adds the line of what the step at a place captures, or of the rows of the type block there, which has none yet, and
    /// answers its number.
    pub fn add_beside(
        &mut self,
        place: Place,
        kind: LineKind,
        cites: Vec<u64>,
        outcome: Outcome<'_>,
    ) -> Result<u64, AllocError>
        requires whole { IsWhole (see_lines self.old) }
        requires kind { kind_beside (piece_at (see_lines self.old).known.file place.site) ≡ Some kind }
        requires adds { Adds (see_lines self.old) place.frame place.site kind cites.items outcome }
        requires new { (see_lines self.old).beside place.frame place.site ≡ None }
        ensures { IfOk result (λ number. Added (see_lines self.old) (see_lines self.new) place.frame place.site kind cites.items outcome.entry number) }
    {
        let line = self.line_in(place, kind, &cites, outcome);
        let number = self.add_line(line)?;
        self.beside.insert(place, number)?;
        Ok(number)
    }

    /// Adds the line of the rule of a site, which has none yet, and answers its number.
    pub fn add_rule(
        &mut self,
        frame: u64,
        site: u32,
        cites: Vec<u64>,
        verdict: Verdict,
    ) -> Result<u64, AllocError>
        requires whole { IsWhole (see_lines self.old) }
        requires adds { Adds (see_lines self.old) frame site kind.Rule cites.items (says.Verdict verdict) }
        requires new { (see_lines self.old).rules site ≡ None }
        ensures { IfOk result (λ number. Added (see_lines self.old) (see_lines self.new) frame site kind.Rule cites.items (says.Verdict verdict) number) }
    {
        let outcome = Outcome::Verdict(verdict);
        let line = self.line_in(Place { frame, site }, LineKind::Rule, &cites, outcome);
        let number = self.add_line(line)?;
        self.rules.set(site, number)?;
        Ok(number)
    }

    /// The line of a place. It takes no memory.
    pub(crate) fn line_in<'a>(
        &self,
        place: Place,
        kind: LineKind,
        cites: &'a [u64],
        outcome: Outcome<'a>,
    ) -> Line<'a>
        requires { place.frame < length self.now.framed.items }
        ensures { (at : ℕ) → slice_get self.now.framed.items place.frame ≡ Some at → result ≡ line_for at place.site kind cites.entry.now outcome.entry }
    {
        Line {
            kind,
            frame: Some(self.line_of_frame(place.frame)),
            site: Some(place.site),
            cites: Cites::new(cites),
            outcome,
        }
    }

    /// Adds a line that follows behind the others.
    pub(crate) fn add_line(&mut self, line: Line<'_>) -> Result<u64, AllocError>
        requires before { FollowUp (see_store self.old.store) self.old.evidence.lines }
        requires follows { Follows Two (see_store self.old.store) self.old.evidence.lines line [] }
        ensures added { IfOk result (λ number. (self.new.evidence.lines ≡ self.old.evidence.lines ++ line.entry ∷ []) × (number ≡ suc (length self.old.evidence.lines))) }
        ensures store { see_store self.new.store ≡ see_store self.old.store }
        ensures frames { self.new.frames.entered.keys ≡ self.old.frames.entered.keys }
        ensures framed { self.new.framed.items ≡ self.old.framed.items }
        ensures parts { self.new.parts ≡ self.old.parts }
        ensures beside { self.new.beside ≡ self.old.beside }
        ensures rules { self.new.rules ≡ self.old.rules }
    {
        self.evidence.push(line)
    }
}
