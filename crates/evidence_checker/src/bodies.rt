//! Verdicts of bodies: in a frame of any value, and on rows.
ghost use Rattle.std.specs.Prelude.{◌≡◌, List, [], ◌∷◌, ℕ, MatchBool, MatchOption};
ghost use Rattle.evidence_lines.specs.declared.line.LineKind.TheVariants as kind;
ghost use Rattle.evidence_lines.specs.declared.line.Outcome.TheVariants as says;
ghost use Rattle.guard_syntax.specs.Syntax.{Body};
ghost use Rattle.guard_syntax.specs.declared.row.Ref.{Ref};
ghost use Rattle.guard_syntax.specs.declared.row.Verdict.{Verdict};
ghost use Rattle.evidence_rules.specs.CitedLines.{IsLine, body_site};
ghost use Rattle.evidence_rules.specs.Follows.{FollowsBody, FollowsRowsOf, SaysBody, block_stop};
ghost use Rattle.rule_meaning.specs.StoreModel.{StoreModel};
ghost use Rattle.rule_meaning.specs.Verdicts.{block_verdict, conjunction, disjunction};
ghost use Rattle.evidence_checker.specs.code.FirstCites.{SaysRow};

use crate::stops::{block_stop, is_stop};
use evidence_lines::{LineKind, LineList, Outcome, Rows, Version};
use evidence_lookups::body_frames::{ValueFrame, framed_verdict};
use evidence_lookups::lookup::{said, verdict_said};
use guard_syntax::{Row, Verdict};

/// Whether the verdict of the body of a site, in a frame of this one, follows from the one line that is cited.
pub(crate) fn body_follows(
    lines: &LineList<'_>,
    frame: u64,
    body: u32,
    cites: &[u64],
    verdict: Verdict,
) -> bool
    ensures { (known : StoreModel) → (b : Body) → body ≡ body_site b → MatchBool result
        (FollowsBody known lines.now frame b cites.now verdict)
        (FollowsBody known lines.now frame b cites.now verdict → ⊥) }
{
    match cites {
        [number] => {
            match said_within(lines, *number, frame, body, body) {
                Some(said) => verdict == said,
                None => false,
            }
        }
        _ => false,
    }
}

/// The verdict that the `conj` line of a number says of a site, where its frame is one of a scope's site in a frame, with
/// any value.
pub(crate) fn said_within(
    lines: &LineList<'_>,
    number: u64,
    frame: u64,
    scope: u32,
    site: u32,
) -> Option<Verdict>
    ensures { MatchOption result
        ((at : ℕ) → (value : Ref) → (verdict : Verdict) → IsLine lines.now at kind.Frame frame scope (says.Value value) → IsLine lines.now number kind.Conj at site (says.Verdict verdict) → ⊥)
        (λ verdict. (at : ℕ) × (value : Ref) × IsLine lines.now at kind.Frame frame scope (says.Value value) × IsLine lines.now number kind.Conj at site (says.Verdict verdict)) }
{
    let Some(place) = lines.place_at(number) else {
        return None;
    };
    let Some(at) = place.frame else {
        return None;
    };
    if is_frame_at(lines, at, frame, scope) {
        verdict_said(lines, number, LineKind::Conj, at, site)
    } else {
        None
    }
}

/// Whether the line of a number is a frame of a site in a frame, with any value.
fn is_frame_at(lines: &LineList<'_>, number: u64, frame: u64, site: u32) -> bool
    ensures { MatchBool result
        ((value : Ref) × IsLine lines.now number kind.Frame frame site (says.Value value))
        ((value : Ref) → IsLine lines.now number kind.Frame frame site (says.Value value) → ⊥) }
{
    match said(lines, number, LineKind::Frame, frame, site) {
        Some(Outcome::Value(_)) => true,
        _ => false,
    }
}

/// A body that is judged on rows, in a frame of a row's value for each: with `any` one of them has to hold, else each.
#[derive(Clone, Copy)]
pub(crate) struct RowsBody {
    pub frame: u64,
    pub site: u32,
    pub any: bool,
    pub version: Version,
}

/// Whether the verdict of a body on rows follows. A row that was found has one cite, up to the row that decides where
/// evidence of this version stops there.
pub(crate) fn body_follows_on(
    lines: &LineList<'_>,
    body: RowsBody,
    rows: &Rows<'_>,
    cites: &[u64],
    verdict: Verdict,
) -> bool
    ensures { (known : StoreModel) → (b : Body) → body.site ≡ body_site b → MatchBool result
        (FollowsRowsOf known lines.now body.frame body.any (block_stop body.any body.version) b rows.now cites.now verdict)
        (FollowsRowsOf known lines.now body.frame body.any (block_stop body.any body.version) b rows.now cites.now verdict → ⊥) }
{
    let stop = block_stop(body.any, body.version);
    let mut before = Verdict::Skip;
    let mut left = cites;
    for index in 0..rows.len() {
        let Some(row) = rows.get(index) else {
            unreachable!()
        };
        let Some(judged) = judged_row(lines, body.frame, body.site, &row, left) else {
            return false;
        };
        before = joined(body.any, before, judged.verdict);
        left = judged.left;
        if is_stop(stop, judged.verdict) {
            // The rows behind, found or not, change nothing.
            return ends_with(left, before, verdict);
        }
    }
    ends_with(left, before, verdict)
}

/// Whether no cite is left, and the verdict is the one that was said.
pub(crate) fn ends_with(cites: &[u64], said: Verdict, verdict: Verdict) -> bool
    ensures { MatchBool result ((cites.now ≡ []) × (verdict ≡ said)) ((cites.now ≡ []) × (verdict ≡ said) → ⊥) }
{
    match cites {
        [] => verdict == said,
        _ => false,
    }
}

/// The verdict of a body on a row, and the cites behind its own.
#[derive(Clone, Copy)]
struct JudgedRow<'c> {
    verdict: Verdict,
    left: &'c [u64],
}

/// What the first cite says of a row that was found; any other row is FAIL, and has no cite.
fn judged_row<'c>(
    lines: &LineList<'_>,
    frame: u64,
    body: u32,
    row: &Row,
    cites: &'c [u64],
) -> Option<JudgedRow<'c>>
    ensures { (known : StoreModel) → (b : Body) → body ≡ body_site b → MatchOption result
        ((verdict : Verdict) → (left : List ℕ) → SaysRow (SaysBody known lines.now frame b) row.now cites.entry.now verdict left → ⊥)
        (λ judged. SaysRow (SaysBody known lines.now frame b) row.now cites.entry.now judged.verdict judged.left.now) }
{
    let Row::Found(value) = row else {
        return Some(JudgedRow {
            verdict: Verdict::Fail,
            left: cites,
        });
    };
    let Some((first, left)) = cites.split_first() else {
        return None;
    };
    let within = ValueFrame {
        frame,
        site: body,
        value: *value,
    };
    let Some(verdict) = framed_verdict(lines, *first, within, body) else {
        return None;
    };
    Some(JudgedRow { verdict, left })
}

/// The verdict of a block with one row more.
fn joined(any: bool, before: Verdict, row: Verdict) -> Verdict
    ensures { result ≡ block_verdict any (before ∷ row ∷ []) }
{
    if any {
        either(before, row)
    } else {
        both(before, row)
    }
}

/// The conjunction of two verdicts.
pub(crate) fn both(before: Verdict, row: Verdict) -> Verdict
    ensures { result ≡ conjunction (before ∷ row ∷ []) }
{
    match before {
        Verdict::Fail => Verdict::Fail,
        Verdict::Skip => row,
        Verdict::Pass => match row {
            Verdict::Fail => Verdict::Fail,
            _ => Verdict::Pass,
        },
    }
}

/// The disjunction of two verdicts.
pub(crate) fn either(before: Verdict, row: Verdict) -> Verdict
    ensures { result ≡ disjunction (before ∷ row ∷ []) }
{
    match before {
        Verdict::Pass => Verdict::Pass,
        Verdict::Skip => row,
        Verdict::Fail => match row {
            Verdict::Pass => Verdict::Pass,
            _ => Verdict::Fail,
        },
    }
}
