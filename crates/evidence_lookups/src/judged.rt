//! What the `rule` lines say, by their sites.
ghost use Rattle.std.specs.Prelude.{◌≡◌, ◌++◌, ◌∷◌, ◌<◌, ℕ, List, [], IfOk, None, Some, length, slice_index_or};
ghost use Rattle.evidence_lines.specs.Shapes.{HasShape};
ghost use Rattle.evidence_lines.specs.code.Said.{kind_at};
ghost use Rattle.evidence_lines.specs.declared.line.Line.{Line};
ghost use Rattle.evidence_lookups.specs.code.JudgedSites.{AreJudged, is_rule};

use evidence_lines::{Line, LineKind, LineList, Outcome};
use guard_syntax::Verdict;
use std::alloc::{AllocError, Global};

/// The verdicts of the `rule` lines so far, by their sites. No two of the lines have one site.
#[derive(Drop)]
pub struct Judged {
    pub of: Vec<Option<Verdict>>,
}

impl Judged {
    /// No verdicts yet, for so many sites.
    pub fn new(alloc: Global, sites: usize) -> Result<Judged, AllocError>
        ensures judged { IfOk result (λ judged. AreJudged [] judged.of.items) }
        ensures sites { IfOk result (λ judged. length judged.of.items ≡ sites) }
    {
        Ok(Judged {
            of: vec![in alloc; None; sites]?,
        })
    }

    /// The verdict of a site, if a `rule` line has it.
    pub fn verdict(&self, site: u32) -> Option<Verdict>
        ensures { result ≡ slice_index_or self.now.of.items site None }
    {
        match self.of.get(site as usize) {
            Some(verdict) => *verdict,
            None => None,
        }
    }

    /// Notes the verdict of a line of a rule; other lines change nothing.
    pub fn note(&mut self, line: &Line<'_>)
        requires shape { HasShape line.now }
        requires site { (site : ℕ) → line.now.site ≡ Some site → site < length self.old.of.items }
        ensures judged { (lines : List Line) → AreJudged lines self.old.of.items → AreJudged (lines ++ line.now ∷ []) self.new.of.items }
        ensures sites { length self.new.of.items ≡ length self.old.of.items }
    {
        match line.kind {
            LineKind::Rule => {}
            _ => return,
        }
        let Some(site) = line.site else {
            return;
        };
        match &line.outcome {
            Outcome::Verdict(verdict) => self.of[site as usize] = Some(*verdict),
            Outcome::Value(_) | Outcome::Rows(_) => {}
        }
    }
}

/// Whether the line of a number is that of a rule. Of the line no more is looked at than its kind.
pub fn is_rule_line(lines: &LineList<'_>, number: u64) -> bool
    ensures { result ≡ is_rule (kind_at lines.now number) }
{
    match lines.kind_at(number) {
        Some(LineKind::Rule) => true,
        _ => false,
    }
}
