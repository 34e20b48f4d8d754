//! Verdicts that are said in the frame of a value.
ghost use Rattle.std.specs.Prelude.{◌≡◌, ℕ, MatchOption};
ghost use Rattle.evidence_lines.specs.declared.line.LineKind.TheVariants as kind;
ghost use Rattle.evidence_lines.specs.declared.line.Outcome.TheVariants as says;
ghost use Rattle.guard_syntax.specs.declared.row.Verdict.{Verdict};
ghost use Rattle.evidence_rules.specs.CitedLines.{IsLine};

use crate::lookup::{is_frame, verdict_said};
use evidence_lines::{LineKind, LineList};
use guard_syntax::{Ref, Verdict};

/// A frame of a site, in a frame, with a value.
#[derive(Clone, Copy)]
pub struct ValueFrame {
    pub frame: u64,
    pub site: u32,
    pub value: Ref,
}

/// The verdict that the `conj` line of a number says of a site, where it stands in such a frame.
pub fn framed_verdict(
    lines: &LineList<'_>,
    number: u64,
    within: ValueFrame,
    site: u32,
) -> Option<Verdict>
    ensures { MatchOption result
        ((at : ℕ) → (verdict : Verdict) → IsLine lines.now at kind.Frame within.frame within.site (says.Value within.value) → IsLine lines.now number kind.Conj at site (says.Verdict verdict) → ⊥)
        (λ verdict. (at : ℕ) × IsLine lines.now at kind.Frame within.frame within.site (says.Value within.value) × IsLine lines.now number kind.Conj at site (says.Verdict verdict)) }
{
    let Some(place) = lines.place_at(number) else {
        return None;
    };
    let Some(at) = place.frame else {
        return None;
    };
    if is_frame(lines, at, within.frame, within.site, within.value) {
        verdict_said(lines, number, LineKind::Conj, at, site)
    } else {
        None
    }
}
