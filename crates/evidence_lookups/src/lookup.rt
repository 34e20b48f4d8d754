//! Lines by their numbers, their kind, frame and site.
ghost use Rattle.std.specs.Prelude.{◌≡◌, List, MatchBool, MatchOption};
ghost use Rattle.evidence_lines.specs.Lines.{line_of};
ghost use Rattle.evidence_lines.specs.declared.line.LineKind.TheVariants as kind;
ghost use Rattle.evidence_lines.specs.declared.line.Outcome.{Outcome};
ghost use Rattle.evidence_lines.specs.declared.line.Outcome.TheVariants as says;
ghost use Rattle.guard_syntax.specs.declared.row.Row.{Row};
ghost use Rattle.guard_syntax.specs.declared.row.Verdict.{Verdict};
ghost use Rattle.evidence_rules.specs.CitedLines.{IsLine, value_of};
ghost use Rattle.evidence_lookups.specs.code.Places.{HasPlace};

use evidence_lines::{Line, LineKind, LineList, LinePlace, Outcome, Rows};
use guard_syntax::{Ref, Verdict};

/// The line of a number.
pub fn line_of<'b>(lines: &'b LineList<'_>, number: u64) -> Option<Line<'b>>
    ensures { result ≡ line_of lines.entry.now number }
{
    lines.get(number)
}

/// What the line of a number says, where it is of this kind, in this frame and of this site.
pub fn said<'b>(
    lines: &'b LineList<'_>,
    number: u64,
    kind: LineKind,
    frame: u64,
    site: u32,
) -> Option<Outcome<'b>>
    ensures { MatchOption result ((outcome : Outcome) → IsLine lines.entry.now number kind frame site outcome → ⊥)
        (λ outcome. IsLine lines.entry.now number kind frame site outcome) }
{
    let Some(place) = lines.place_at(number) else {
        return None;
    };
    if is_placed(place, kind, frame, site) {
        lines.outcome_at(number)
    } else {
        None
    }
}

/// Whether a place is of this kind, in this frame and of this site.
fn is_placed(place: LinePlace, kind: LineKind, frame: u64, site: u32) -> bool
    ensures { MatchBool result (HasPlace place kind frame site) (HasPlace place kind frame site → ⊥) }
{
    if place.kind != kind {
        return false;
    }
    match (place.frame, place.site) {
        (Some(its_frame), Some(its_site)) => its_frame == frame && its_site == site,
        _ => false,
    }
}

/// The rows that it says.
pub fn rows_said<'b>(
    lines: &'b LineList<'_>,
    number: u64,
    kind: LineKind,
    frame: u64,
    site: u32,
) -> Option<Rows<'b>>
    ensures { MatchOption result ((rows : List Row) → IsLine lines.entry.now number kind frame site (says.Rows rows) → ⊥)
        (λ rows. IsLine lines.entry.now number kind frame site (says.Rows rows)) }
{
    match said(lines, number, kind, frame, site) {
        Some(outcome) => rows_of(outcome),
        None => None,
    }
}

/// The rows of an outcome.
fn rows_of(outcome: Outcome<'_>) -> Option<Rows<'_>>
    ensures { MatchOption result ((rows : List Row) → outcome.entry ≡ says.Rows rows → ⊥)
        (λ rows. outcome.entry ≡ says.Rows rows) }
{
    match outcome {
        Outcome::Rows(rows) => Some(rows),
        Outcome::Value(_) | Outcome::Verdict(_) => None,
    }
}

/// The verdict that it says.
pub fn verdict_said(
    lines: &LineList<'_>,
    number: u64,
    kind: LineKind,
    frame: u64,
    site: u32,
) -> Option<Verdict>
    ensures { MatchOption result ((verdict : Verdict) → IsLine lines.now number kind frame site (says.Verdict verdict) → ⊥)
        (λ verdict. IsLine lines.now number kind frame site (says.Verdict verdict)) }
{
    let Some(place) = lines.place_at(number) else {
        return None;
    };
    if is_placed(place, kind, frame, site) {
        lines.verdict_at(number)
    } else {
        None
    }
}

/// Whether the line of a number is a frame of this site in this frame, with this value.
pub(crate) fn is_frame(lines: &LineList<'_>, number: u64, frame: u64, site: u32, value: Ref) -> bool
    ensures { MatchBool result (IsLine lines.now number kind.Frame frame site (says.Value value))
        (IsLine lines.now number kind.Frame frame site (says.Value value) → ⊥) }
{
    match said(lines, number, LineKind::Frame, frame, site) {
        Some(Outcome::Value(said)) => said == value,
        _ => false,
    }
}

/// The value of a frame.
pub fn value_of(lines: &LineList<'_>, frame: u64) -> Option<Ref>
    ensures { result ≡ value_of lines.now frame }
{
    match lines.outcome_at(frame) {
        Some(Outcome::Value(value)) => Some(value),
        _ => None,
    }
}
