//! Lines of verdicts of references to rules and of calls.
ghost use Rattle.std.specs.Prelude.{◌≡◌, Option, List, ℕ, MatchBool, MatchOption};
ghost use Rattle.evidence_lines.specs.declared.line.LineKind.TheVariants as kind;
ghost use Rattle.evidence_lines.specs.declared.line.Outcome.TheVariants as says;
ghost use Rattle.guard_syntax.specs.Syntax.{Exprs, call, refer};
ghost use Rattle.guard_syntax.specs.declared.row.Verdict.{Verdict};
ghost use Rattle.evidence_rules.specs.CitedLines.{IsLine};
ghost use Rattle.evidence_rules.specs.Follows.{FollowsCall, FollowsRefer};
ghost use Rattle.rule_meaning.specs.Verdicts as judged;
ghost use Rattle.evidence_lookups.specs.code.Grounds.{known_of, lines_of};

use crate::bodies::said_within;
use evidence_lines::{LineKind, LineList};
use evidence_lookups::frames::called_body;
use evidence_lookups::line_context::{LineContext, SitedLine};
use evidence_lookups::lookup::verdict_said;
use guard_syntax::Verdict;

/// Whether the line of a reference follows, from the line of the rule that is named.
pub(crate) fn reference_follows(
    context: &LineContext<'_, '_, '_>,
    line: SitedLine<'_>,
    not: bool,
    verdict: Verdict,
) -> bool
    ensures { (n : ℕ) → (name : List ℕ) → (message : Option (List ℕ)) → MatchBool result
        (FollowsRefer (known_of context.now) (lines_of context.now) line.entry.site (refer n not name message) line.entry.cites.now verdict)
        (FollowsRefer (known_of context.now) (lines_of context.now) line.entry.site (refer n not name message) line.entry.cites.now verdict → ⊥) }
{
    let Some(rule) = context.store.file.target(line.site) else {
        return false;
    };
    match line.cites {
        [number] => {
            match rule_said(&context.lines, *number, rule) {
                Some(said) => verdict == referred(not, said),
                None => false,
            }
        }
        _ => false,
    }
}

/// The verdict that the `rule` line of a number says of a site, in whatever frame.
fn rule_said(lines: &LineList<'_>, number: u64, site: u32) -> Option<Verdict>
    ensures { MatchOption result
        ((at : ℕ) → (verdict : Verdict) → IsLine lines.now number kind.Rule at site (says.Verdict verdict) → ⊥)
        (λ verdict. (at : ℕ) × IsLine lines.now number kind.Rule at site (says.Verdict verdict)) }
{
    let Some(place) = lines.place_at(number) else {
        return None;
    };
    let Some(frame) = place.frame else {
        return None;
    };
    verdict_said(lines, number, LineKind::Rule, frame, site)
}

/// Whether the line of a call follows, from the line of the called body in the frame of the call.
pub(crate) fn call_follows(
    context: &LineContext<'_, '_, '_>,
    line: SitedLine<'_>,
    not: bool,
    verdict: Verdict,
) -> bool
    ensures { (n : ℕ) → (name : List ℕ) → (args : Exprs) → (message : Option (List ℕ)) → MatchBool result
        (FollowsCall (known_of context.now) (lines_of context.now) line.entry.frame line.entry.site (call n not name args message) line.entry.cites.now verdict)
        (FollowsCall (known_of context.now) (lines_of context.now) line.entry.frame line.entry.site (call n not name args message) line.entry.cites.now verdict → ⊥) }
{
    let Some(body) = called_body(context, line.site) else {
        return false;
    };
    match line.cites {
        [number] => {
            match said_within(&context.lines, *number, line.frame, line.site, body.site) {
                Some(said) => verdict == exchanged(not, said),
                None => false,
            }
        }
        _ => false,
    }
}

/// The verdict of a reference: PASS where its rule is PASS and else FAIL; with `not` the opposite.
fn referred(not: bool, rule: Verdict) -> Verdict
    ensures { result ≡ judged.referred not rule }
{
    match (not, rule) {
        (false, Verdict::Pass) => Verdict::Pass,
        (false, _) => Verdict::Fail,
        (true, Verdict::Pass) => Verdict::Fail,
        (true, _) => Verdict::Pass,
    }
}

/// The verdict of a call: that of the called body; with `not` PASS and FAIL are exchanged.
fn exchanged(not: bool, called: Verdict) -> Verdict
    ensures { result ≡ judged.exchanged not called }
{
    match (not, called) {
        (true, Verdict::Pass) => Verdict::Fail,
        (true, Verdict::Fail) => Verdict::Pass,
        (true, Verdict::Skip) => Verdict::Skip,
        (false, _) => called,
    }
}
