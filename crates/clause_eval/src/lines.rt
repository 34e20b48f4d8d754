//! The lines of an engine: how one is found, and what it says.
ghost use Rattle.std.specs.Prelude.{◌≡◌, ◌<◌, ℕ, length, List, Some, slice_get};
ghost use Rattle.evidence_lines.specs.declared.line.LineKind.{LineKind};
ghost use Rattle.evidence_lines.specs.declared.line.Outcome.TheVariants as says;
ghost use Rattle.guard_syntax.specs.declared.row.Row.{Row};
ghost use Rattle.guard_syntax.specs.declared.row.Verdict.{Verdict};
ghost use Rattle.evidence_rules.specs.CitedLines.{IsLine};
ghost use Rattle.clause_eval.specs.code.Engines.{see_engine};

use crate::engine::Engine;
use evidence_lines::Rows;
use guard_syntax::Verdict;

impl<'t, 's> Engine<'t, 's> {
    /// The line of a frame.
    pub fn line_of_frame(&self, frame: u64) -> u64
        requires { frame < length self.now.lines.framed.items }
        ensures { slice_get self.now.lines.framed.items frame ≡ Some result }
    {
        self.lines.line_of_frame(frame)
    }

    /// The line of the part of a site in a frame, if it was evaluated there.
    pub fn found(&self, frame: u64, site: u32) -> Option<u64>
        ensures { result ≡ (see_engine self.now).parts frame site }
    {
        self.lines.found(frame, site)
    }

    /// The line of what the step of a site captures in a frame, or of the rows of the type block of a site.
    pub fn found_beside(&self, frame: u64, site: u32) -> Option<u64>
        ensures { result ≡ (see_engine self.now).beside frame site }
    {
        self.lines.found_beside(frame, site)
    }

    /// The line of the rule of a site, if it was judged.
    pub fn found_rule(&self, site: u32) -> Option<u64>
        ensures { result ≡ (see_engine self.now).rules site }
    {
        self.lines.found_rule(site)
    }

    /// The rows that a line says.
    pub fn rows_said(&self, line: u64) -> Rows<'_>
        requires { (of : LineKind) × (frame site : ℕ) × (rows : List Row) × IsLine self.now.lines.evidence.lines line of frame site (says.Rows rows) }
        ensures { (of : LineKind) (frame site : ℕ) (rows : List Row) → IsLine self.entry.now.lines.evidence.lines line of frame site (says.Rows rows) → result ≡ rows }
    {
        self.lines.rows_said(line)
    }

    /// The verdict that a line says.
    pub fn verdict_said(&self, line: u64) -> Verdict
        requires { (of : LineKind) × (frame site : ℕ) × (verdict : Verdict) × IsLine self.now.lines.evidence.lines line of frame site (says.Verdict verdict) }
        ensures { (of : LineKind) (frame site : ℕ) (verdict : Verdict) → IsLine self.now.lines.evidence.lines line of frame site (says.Verdict verdict) → result ≡ verdict }
    {
        self.lines.verdict_said(line)
    }
}
