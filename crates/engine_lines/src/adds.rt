//! Lines that are made of others which are there.
ghost use Rattle.std.specs.Prelude.{◌≡◌, ◌<◌, ◌∷◌, ℕ, List, [], None, Some, IfOk, IsSome, OnOk, length, true};
ghost use Rattle.std.specs.List.{list_all};
ghost use Rattle.evidence_lines.specs.declared.line.LineKind.{LineKind};
ghost use Rattle.evidence_lines.specs.declared.line.LineKind.TheVariants as kind;
ghost use Rattle.evidence_lines.specs.declared.line.Outcome.TheVariants as says;
ghost use Rattle.guard_syntax.specs.Syntax.{OptConds};
ghost use Rattle.guard_syntax.specs.Syntax as syntax;
ghost use Rattle.guard_syntax.specs.code.Seen.{see_body, see_part};
ghost use Rattle.rule_names.specs.code.Files.{file_of};
ghost use Rattle.guard_syntax.specs.declared.row.Row.{Row};
ghost use Rattle.guard_syntax.specs.declared.row.Verdict.{Verdict};
ghost use Rattle.query_steps.specs.code.Placed.{see_place};
ghost use Rattle.rule_meaning.specs.Places.{step_at};
ghost use Rattle.rule_meaning.specs.StoreModel.{is_known};
ghost use Rattle.value_store.specs.code.Stores.{see_store};
ghost use Rattle.rule_names.specs.ReferenceGraph.{part_site};
ghost use Rattle.rule_names.specs.Pieces.{piece_at};
ghost use Rattle.evidence_rules.specs.CitedLines.{IsLine, called_body};
ghost use Rattle.engine_states.specs.code.Adding.{Added, Adds};
ghost use Rattle.engine_states.specs.code.Answers.{Answers, AnswersVerdict, AreJudged, GivesAsked, GivesStepAt, HasRows, HasSides, IsCapturing, IsKinds, IsReference, IsSomeTest, IsStepWith, IsTestVerdict, above, both_cites};
ghost use Rattle.engine_states.specs.code.Kinds.{own_kind};
ghost use Rattle.engine_states.specs.code.States.{IsWhole};
ghost use Rattle.engine_lines.specs.code.Lines.{see_lines};

use crate::engine::EngineLines;
use crate::place::{Place, SitedStep};
use crate::said::{Cited, Judged, Said};
use engine_parts::judging::{
    found_rows, is_set_test, refer_to, site_of, verdict_of_set, verdict_of_test,
};
use evidence_lines::{LineKind, Outcome, Rows};
use guard_syntax::{Body, Part, Row, Verdict};
use query_steps::{RowTest, StepContext, StepInput, captured, kinds, placed_step};
use rule_names::Piece;
use std::alloc::{AllocError, Global};

impl<'t, 's> EngineLines<'t, 's> {
    /// A line with the verdict that it says.
    pub fn said(&self, line: u64) -> Said
        requires { (of : LineKind) × (frame site : ℕ) × (verdict : Verdict) × IsLine self.now.evidence.lines line of frame site (says.Verdict verdict) }
        ensures line { result.line ≡ line }
        ensures verdict { (of : LineKind) (frame site : ℕ) (verdict : Verdict) → IsLine self.now.evidence.lines line of frame site (says.Verdict verdict) → result.verdict ≡ verdict }
    {
        Said {
            line,
            verdict: self.verdict_said(line),
        }
    }

    /// Adds the line of a part that has none yet, with what it cites and the verdict that follows from that.
    pub fn add_verdict(
        &mut self,
        frame: u64,
        site: u32,
        kind: LineKind,
        cited: Cited,
    ) -> Result<Said, AllocError>
        requires whole { IsWhole (see_lines self.old) }
        requires kind { own_kind (piece_at (see_lines self.old).known.file site) ≡ Some kind }
        requires adds { Adds (see_lines self.old) frame site kind cited.lines.items (says.Verdict cited.verdict) }
        requires new { (see_lines self.old).parts frame site ≡ None }
        ensures { IfOk result (λ said. Added (see_lines self.old) (see_lines self.new) frame site kind cited.lines.items (says.Verdict cited.verdict) said.line × (said.verdict ≡ cited.verdict)) }
    {
        let verdict = cited.verdict;
        let place = Place { frame, site };
        let line = self.add(place, kind, cited.lines, Outcome::Verdict(verdict))?;
        Ok(Said { line, verdict })
    }

    /// The line of a reference, which has none yet: that of the rule is there.
    pub fn reference(&mut self, frame: u64, site: u32, not: bool) -> Result<Said, AllocError>
        requires whole { IsWhole (see_lines self.old) }
        requires stands { IsReference (see_lines self.old) frame site not }
        requires new { (see_lines self.old).parts frame site ≡ None }
        ensures { IfOk result (λ said. AnswersVerdict (see_lines self.old) (see_lines self.new) frame kind.Refer site said.line said.verdict) }
    {
        let Some(target) = self.file.target(site) else {
            unreachable!()
        };
        let Some(rule) = self.found_rule(target) else {
            unreachable!()
        };
        let verdict = refer_to(not, self.verdict_said(rule));
        let mut lines = Vec::new(self.alloc);
        lines.push(rule)?;
        self.add_verdict(frame, site, LineKind::Refer, Cited { lines, verdict })
    }

    /// Adds the line of a step that is no filter: by the rows of the step before it, and by those of what it names further.
    pub fn add_step(
        &mut self,
        kind: LineKind,
        step: SitedStep<'_>,
        before: Option<u64>,
        further: Option<u64>,
    ) -> Result<u64, AllocError>
        requires whole { IsWhole (see_lines self.old) }
        requires step { IsStepWith (see_lines self.old) step.frame step.site kind before further }
        requires new { (see_lines self.old).parts step.frame step.site ≡ None }
        requires place { step_at (see_lines self.old).known.file step.site ≡ see_place step.place }
        ensures { IfOk result (λ number. (rows : List Row) × Added (see_lines self.old) (see_lines self.new) step.entry.frame step.entry.site kind (both_cites before further) (says.Rows rows) number) }
    {
        let rows = {
            let earlier = self.rows_of(before).gather(self.alloc)?;
            let later = self.rows_of(further).gather(self.alloc)?;
            let input = StepInput {
                current: self.current(step.frame),
                before: earlier.as_slice(),
                further: later.as_slice(),
                verdicts: &[],
            };
            placed_step(self.alloc, step.place, input, &self.store, self.book)?
        };
        let cites = cited(self.alloc, before, further)?;
        let at = Place {
            frame: step.frame,
            site: step.site,
        };
        self.add(at, kind, cites, Outcome::Rows(Rows::new(&rows)))
    }

    /// The rows that a line says, if there is one.
    fn rows_of(&self, line: Option<u64>) -> Rows<'_>
        requires { (rows : List Row) × HasRows self.now.evidence.lines line rows }
        ensures { (rows : List Row) → HasRows self.entry.now.evidence.lines line rows → result ≡ rows }
    {
        match line {
            Some(line) => self.rows_said(line),
            None => Rows::new(&[]),
        }
    }

    /// Adds the line of a filter, of which the conditions were judged for each candidate.
    pub fn add_filter(
        &mut self,
        step: SitedStep<'_>,
        before: u64,
        judged: Judged,
    ) -> Result<u64, AllocError>
        requires whole { IsWhole (see_lines self.old) }
        requires judged { AreJudged (see_lines self.old) step.frame step.site before judged.lines.items judged.verdicts.items }
        requires new { (see_lines self.old).parts step.frame step.site ≡ None }
        requires place { step_at (see_lines self.old).known.file step.site ≡ see_place step.place }
        ensures { IfOk result (λ number. (rows : List Row) × Added (see_lines self.old) (see_lines self.new) step.entry.frame step.entry.site kind.Filter (before ∷ judged.lines.items) (says.Rows rows) number) }
    {
        let rows = {
            let said = self.rows_said(before).gather(self.alloc)?;
            let input = StepInput {
                current: self.current(step.frame),
                before: said.as_slice(),
                further: &[],
                verdicts: &judged.verdicts,
            };
            placed_step(self.alloc, step.place, input, &self.store, self.book)?
        };
        let mut cites = Vec::new(self.alloc);
        cites.push(before)?;
        cites.extend_from_slice(&judged.lines)?;
        let at = Place {
            frame: step.frame,
            site: step.site,
        };
        let outcome = Outcome::Rows(Rows::new(&rows));
        self.add(at, LineKind::Filter, cites, outcome)
    }

    /// Adds the line of what a step captures, behind the line of the step.
    pub fn add_capture(&mut self, frame: u64, site: u32, line: u64) -> Result<u64, AllocError>
        requires whole { IsWhole (see_lines self.old) }
        requires stands { IsCapturing (see_lines self.old) frame site }
        requires step { GivesStepAt (see_lines self.old) frame site line }
        requires new { (see_lines self.old).beside frame site ≡ None }
        ensures { IfOk result (λ number. (rows : List Row) × Added (see_lines self.old) (see_lines self.new) frame site kind.Capture (line ∷ []) (says.Rows rows) number) }
    {
        let rows = {
            let said = self.rows_said(line).gather(self.alloc)?;
            captured(self.alloc, said.as_slice(), &self.store)?
        };
        let mut cites = Vec::new(self.alloc);
        cites.push(line)?;
        self.add_beside(
            Place { frame, site },
            LineKind::Capture,
            cites,
            Outcome::Rows(Rows::new(&rows)),
        )
    }

    /// Adds the line of `some` and a query, behind the line of the query.
    pub fn add_found(&mut self, frame: u64, site: u32, line: u64) -> Result<u64, AllocError>
        requires whole { IsWhole (see_lines self.old) }
        requires query { GivesAsked (see_lines self.old) frame site line }
        requires new { (see_lines self.old).parts frame site ≡ None }
        ensures { IfOk result (λ number. (rows : List Row) × Added (see_lines self.old) (see_lines self.new) frame site kind.Found (line ∷ []) (says.Rows rows) number) }
    {
        let rows = {
            let said = self.rows_said(line).gather(self.alloc)?;
            found_rows(self.alloc, said.as_slice())?
        };
        let mut cites = Vec::new(self.alloc);
        cites.push(line)?;
        self.add(
            Place { frame, site },
            LineKind::Found,
            cites,
            Outcome::Rows(Rows::new(&rows)),
        )
    }

    /// Adds the line of a test, by those of its sides.
    pub fn add_test(
        &mut self,
        frame: u64,
        part: &Part,
        left: u64,
        right: Option<u64>,
    ) -> Result<Said, AllocError>
        requires whole { IsWhole (see_lines self.old) }
        requires sides { HasSides (see_lines self.old) frame (see_part part.now) left right }
        requires new { (see_lines self.old).parts frame (part_site (see_part part.now)) ≡ None }
        ensures { IfOk result (λ said. Added (see_lines self.old) (see_lines self.new) frame (part_site (see_part part.now)) kind.Test (both_cites (Some left) right) (says.Verdict said.verdict) said.line) }
    {
        let verdict = {
            let lefts = self.rows_said(left).gather(self.alloc)?;
            let rights = self.rows_of(right).gather(self.alloc)?;
            self.judge(part, lefts.as_slice(), rights.as_slice())?
        };
        let lines = cited(self.alloc, Some(left), right)?;
        self.add_verdict(
            frame,
            site_of(part),
            LineKind::Test,
            Cited { lines, verdict },
        )
    }

    /// The verdict of a test on the rows of its sides.
    fn judge(&self, test: &Part, lefts: &[Row], rights: &[Row]) -> Result<Verdict, AllocError>
        requires test { IsSomeTest (see_part test.now) }
        requires lefts { list_all (is_known (see_store self.now.store)) lefts.now ≡ true }
        requires rights { list_all (is_known (see_store self.now.store)) rights.now ≡ true }
        ensures { IfOk result (λ verdict. IsTestVerdict (see_store self.now.store) (see_part test.now) lefts.now rights.now verdict) }
    {
        let Part::Test {
            any,
            left,
            op,
            not,
            ..
        } = test
        else {
            unreachable!()
        };
        if is_set_test(*op, left) {
            return Ok(verdict_of_set(*not, lefts));
        }
        let context = StepContext {
            alloc: self.alloc,
            store: &self.store,
            book: self.book,
        };
        let asked = RowTest {
            op: *op,
            not: *not,
            rights,
        };
        verdict_of_test(context, *any, asked, lefts)
    }

    /// The line of the rows of a type block.
    pub fn types(&mut self, frame: u64, site: u32) -> Result<u64, AllocError>
        requires whole { IsWhole (see_lines self.old) }
        requires stands { (conditions : OptConds) × (b : syntax.Body) × IsKinds (see_lines self.old) frame site conditions b }
        ensures said { IfOk result (λ number. Answers (see_lines self.old) (see_lines self.new) (above (see_lines self.old) frame site) frame number
            (λ at. (rows : List Row) × IsLine (see_lines self.new).lines number kind.Types at site (says.Rows rows))) }
        ensures parts { OnOk result ((n m : ℕ) → (see_lines self.new).parts n m ≡ (see_lines self.old).parts n m) }
    {
        if let Some(line) = self.found_beside(frame, site) {
            return Ok(line);
        }
        let rows = kinds(
            self.alloc,
            self.file,
            site,
            self.current(frame),
            &self.store,
        )?;
        self.add_beside(
            Place { frame, site },
            LineKind::Types,
            Vec::new(self.alloc),
            Outcome::Rows(Rows::new(&rows)),
        )
    }

    /// The body of the rule that the call of a site names.
    pub fn called_body(&self, site: u32) -> &'t Body
        requires { IsSome (called_body (file_of self.now.file.now) site) }
        ensures { called_body (file_of self.entry.now.file.now) site ≡ Some (see_body result.now) }
    {
        let file = self.file;
        let Some(target) = file.target(site) else {
            unreachable!()
        };
        match file.find(target) {
            Some(Piece::Rule(rule)) => &rule.body,
            _ => unreachable!(),
        }
    }
}

/// The lines that are cited, behind one more.
pub fn behind(alloc: Global, first: u64, lines: Vec<u64>) -> Result<Vec<u64>, AllocError>
    ensures { IfOk result (λ all. all.items ≡ first ∷ lines.items) }
{
    let mut all = Vec::new(alloc);
    all.push(first)?;
    let mut rest = lines;
    all.append(&mut rest)?;
    Ok(all)
}

/// The lines that are cited, of two that may not be there.
pub fn cited(alloc: Global, first: Option<u64>, second: Option<u64>) -> Result<Vec<u64>, AllocError>
    ensures { IfOk result (λ cites. cites.items ≡ both_cites first second) }
{
    let mut cites = Vec::new(alloc);
    if let Some(line) = first {
        cites.push(line)?;
    }
    if let Some(line) = second {
        cites.push(line)?;
    }
    Ok(cites)
}
