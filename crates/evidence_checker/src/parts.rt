//! Lines of verdicts of single parts and of rules.
ghost use Rattle.std.specs.Prelude.{◌≡◌, List, ℕ, IfOk, MatchBool, MatchOption};
ghost use Rattle.evidence_lines.specs.declared.line.Line.{Line};
ghost use Rattle.guard_syntax.specs.code.Seen.{see_opt_conds, see_part, see_query, see_rule};
ghost use Rattle.guard_syntax.specs.Syntax as sx;
ghost use Rattle.guard_syntax.specs.declared.row.Verdict.{Verdict};
ghost use Rattle.evidence_rules.specs.CitedLines.{body_site};
ghost use Rattle.evidence_rules.specs.Follows.{FollowsAtPart, FollowsBlock, FollowsBody, FollowsRule, FollowsTyped, UnderSome, block_stop, kind_of_part};
ghost use Rattle.rule_meaning.specs.StoreModel.{StoreModel};
ghost use Rattle.evidence_lookups.specs.code.Grounds.{known_of, lines_of, version_of};
ghost use Rattle.evidence_checker.specs.code.FirstCites.{IsSomeGuard, opt_conds_site};

use crate::bodies::{RowsBody, body_follows, body_follows_on, ends_with};
use crate::reference_lines::{call_follows, reference_follows};
use evidence_lines::{LineKind, LineList, Version};
use evidence_lookups::cited_rows::given_by_query;
use evidence_lookups::line_context::{LineContext, SitedLine};
use evidence_lookups::lookup::{rows_said, verdict_said};
use evidence_rows::test_lines::{AskedTest, test_follows};
use guard_syntax::{Conds, Part, Query, Rule, Verdict};
use std::alloc::AllocError;

/// Whether a line of the verdict of a part follows: a test, a reference, a call, a `when` block, a block or a type block.
pub(crate) fn part_follows(
    context: &LineContext<'_, '_, '_>,
    line: SitedLine<'_>,
    part: &Part,
    verdict: Verdict,
) -> Result<bool, AllocError>
    ensures { IfOk result (λ follows. MatchBool follows
        (FollowsAtPart (version_of context.now) (known_of context.now) (lines_of context.now) line.entry.frame line.entry.site line.entry.kind (see_part part.now) line.entry.cites.now verdict)
        (FollowsAtPart (version_of context.now) (known_of context.now) (lines_of context.now) line.entry.frame line.entry.site line.entry.kind (see_part part.now) line.entry.cites.now verdict → ⊥)) }
{
    if line.kind != kind_of_part(part) {
        return Ok(false);
    }
    match part {
        Part::Block {
            any,
            head,
            body,
            ..
        } => {
            let on_rows = RowsBody {
                frame: line.frame,
                site: body.site,
                any: *any,
                version: context.version,
            };
            Ok(block_follows(context, head, on_rows, line.cites, verdict))
        }
        Part::When { cond, body, .. } => {
            let guarded = GuardedBody {
                cond: Some(cond.site),
                body: body.site,
            };
            Ok(guarded_follows(&context.lines, line.frame, guarded, line.cites, verdict))
        }
        Part::Kinds { cond, body, .. } => {
            let cond = conds_site(cond);
            let guarded = GuardedBody {
                cond,
                body: body.site,
            };
            Ok(kinds_follows(&context.lines, line, guarded, verdict))
        }
        Part::Test {
            any,
            left,
            op,
            not,
            right,
            ..
        } => {
            let asked = AskedTest {
                any: *any,
                left,
                op: *op,
                not: *not,
                right,
            };
            test_follows(context, line, asked, verdict)
        }
        Part::Refer { not, .. } => { Ok(reference_follows(context, line, *not, verdict)) }
        Part::Call { not, .. } => { Ok(call_follows(context, line, *not, verdict)) }
    }
}

/// The kind of a part's line.
fn kind_of_part(part: &Part) -> LineKind
    ensures { (known : StoreModel) → (ls : List Line) → result ≡ kind_of_part known ls (see_part part.now) }
{
    match part {
        Part::Block { .. } => LineKind::Block,
        Part::When { .. } => LineKind::When,
        Part::Kinds { .. } => LineKind::Kinds,
        Part::Test { .. } => LineKind::Test,
        Part::Refer { .. } => LineKind::Refer,
        Part::Call { .. } => LineKind::Call,
    }
}

/// Whether the line of a block follows.
fn block_follows(
    context: &LineContext<'_, '_, '_>,
    head: &Query,
    body: RowsBody,
    cites: &[u64],
    verdict: Verdict,
) -> bool
    ensures { (b : sx.Body) → body.site ≡ body_site b → MatchBool result
        (FollowsBlock (known_of context.now) (lines_of context.now) body.frame body.any (block_stop body.any body.version) (see_query head.now) b cites.now verdict)
        (FollowsBlock (known_of context.now) (lines_of context.now) body.frame body.any (block_stop body.any body.version) (see_query head.now) b cites.now verdict → ⊥) }
{
    let Some((first, others)) = cites.split_first() else {
        return false;
    };
    match given_by_query(context, body.frame, head, *first) {
        Some(rows) => body_follows_on(&context.lines, body, &rows, others, verdict),
        None => false,
    }
}

/// A body under conditions, if there are some, by their sites.
#[derive(Clone, Copy)]
struct GuardedBody {
    cond: Option<u32>,
    body: u32,
}

/// Whether a verdict follows that a body has under conditions: of a `when` block, or of a rule.
fn guarded_follows(
    lines: &LineList<'_>,
    frame: u64,
    guarded: GuardedBody,
    cites: &[u64],
    verdict: Verdict,
) -> bool
    ensures { (known : StoreModel) → (conds : sx.OptConds) → (b : sx.Body) → guarded.cond ≡ opt_conds_site conds → guarded.body ≡ body_site b → MatchBool result
        (UnderSome known lines.now frame conds (FollowsBody known lines.now frame b) cites.now verdict)
        (UnderSome known lines.now frame conds (FollowsBody known lines.now frame b) cites.now verdict → ⊥) }
{
    let Some(guard) = conditions(lines, frame, guarded.cond, cites) else {
        return false;
    };
    match guard.said {
        Verdict::Pass => body_follows(lines, frame, guarded.body, guard.left, verdict),
        _ => ends_with(guard.left, Verdict::Skip, verdict),
    }
}

/// Whether the line of a type block follows.
fn kinds_follows(
    lines: &LineList<'_>,
    line: SitedLine<'_>,
    guarded: GuardedBody,
    verdict: Verdict,
) -> bool
    ensures { (known : StoreModel) → (conds : sx.OptConds) → (b : sx.Body) → guarded.cond ≡ opt_conds_site conds → guarded.body ≡ body_site b → MatchBool result
        (UnderSome known lines.now line.entry.frame conds (FollowsTyped known lines.now line.entry.frame line.entry.site b) line.entry.cites.now verdict)
        (UnderSome known lines.now line.entry.frame conds (FollowsTyped known lines.now line.entry.frame line.entry.site b) line.entry.cites.now verdict → ⊥) }
{
    let Some(guard) = conditions(lines, line.frame, guarded.cond, line.cites) else {
        return false;
    };
    match guard.said {
        Verdict::Pass => typed_follows(lines, line, guarded.body, guard.left, verdict),
        _ => ends_with(guard.left, Verdict::Skip, verdict),
    }
}

/// Whether the verdict of a type block's body on its rows follows, from the cites behind that of its conditions.
fn typed_follows(
    lines: &LineList<'_>,
    line: SitedLine<'_>,
    body: u32,
    cites: &[u64],
    verdict: Verdict,
) -> bool
    ensures { (known : StoreModel) → (b : sx.Body) → body ≡ body_site b → MatchBool result
        (FollowsTyped known lines.now line.entry.frame line.entry.site b cites.now verdict)
        (FollowsTyped known lines.now line.entry.frame line.entry.site b cites.now verdict → ⊥) }
{
    let Some((first, others)) = cites.split_first() else {
        return false;
    };
    // Nothing decides a type block, in either version.
    let on_rows = RowsBody {
        frame: line.frame,
        site: body,
        any: false,
        version: Version::One,
    };
    match rows_said(lines, *first, LineKind::Types, line.frame, line.site) {
        Some(rows) => body_follows_on(lines, on_rows, &rows, others, verdict),
        None => false,
    }
}

/// Whether the verdict of a rule follows: it has no parameters.
pub(crate) fn rule_follows(
    lines: &LineList<'_>,
    frame: u64,
    rule: &Rule,
    cites: &[u64],
    verdict: Verdict,
) -> bool
    ensures { (known : StoreModel) → MatchBool result
        (FollowsRule known lines.now frame (see_rule rule.now) cites.now verdict)
        (FollowsRule known lines.now frame (see_rule rule.now) cites.now verdict → ⊥) }
{
    if !rule.params.as_slice().is_empty() {
        return false;
    }
    let cond = conds_site(&rule.cond);
    let guarded = GuardedBody {
        cond,
        body: rule.body.site,
    };
    guarded_follows(lines, frame, guarded, cites, verdict)
}

/// The site of conditions, if there are some.
fn conds_site(cond: &Option<Conds>) -> Option<u32>
    ensures { result ≡ opt_conds_site (see_opt_conds cond.now) }
{
    match cond {
        Some(cond) => Some(cond.site),
        None => None,
    }
}

/// What the line of conditions says, and the cites behind it.
#[derive(Clone, Copy)]
pub(crate) struct Guard<'c> {
    pub said: Verdict,
    pub left: &'c [u64],
}

/// The line of the conditions of a site: the first cite. Without conditions they count as PASS, and all cites are left.
fn conditions<'c>(
    lines: &LineList<'_>,
    frame: u64,
    cond: Option<u32>,
    cites: &'c [u64],
) -> Option<Guard<'c>>
    ensures { (conds : sx.OptConds) → cond ≡ opt_conds_site conds → MatchOption result
        ((said : Verdict) → (left : List ℕ) → IsSomeGuard lines.now frame conds cites.entry.now said left → ⊥)
        (λ guard. IsSomeGuard lines.now frame conds cites.entry.now guard.said guard.left.now) }
{
    let Some(site) = cond else {
        return Some(Guard {
            said: Verdict::Pass,
            left: cites,
        });
    };
    let Some((first, left)) = cites.split_first() else {
        return None;
    };
    let Some(said) = verdict_said(lines, *first, LineKind::Conj, frame, site) else {
        return None;
    };
    Some(Guard { said, left })
}
