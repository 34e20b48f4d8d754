//! Lines of verdicts, of whatever kind.
ghost use Rattle.std.specs.Prelude.{◌≡◌, [], List, Some, map, IfOk, MatchBool, MatchOption};
ghost use Rattle.evidence_lines.specs.declared.line.LineKind.TheVariants as kind;
ghost use Rattle.evidence_lines.specs.declared.line.Outcome.TheVariants as says;
ghost use Rattle.guard_syntax.specs.declared.row.Verdict.{Verdict};
ghost use Rattle.guard_syntax.specs.code.Seen.{disj_list, part_list, see_disj, see_part};
ghost use Rattle.rule_names.specs.Pieces.{piece_at};
ghost use Rattle.rule_names.specs.code.Seen.{see_piece};
ghost use Rattle.rule_names.specs.ReferenceGraph.{part_site};
ghost use Rattle.evidence_rules.specs.CitedLines.{IsLine};
ghost use Rattle.evidence_rules.specs.Follows.{FollowsConj, FollowsDisj, FollowsLoose, FollowsVerdict, SayDisjs, SayParts, SaysVerdict, kind_of_part};
ghost use Rattle.rule_meaning.specs.StoreModel.{StoreModel};
ghost use Rattle.rule_meaning.specs.Verdicts.{conjunction, disjunction};
ghost use Rattle.evidence_lookups.specs.code.Grounds.{file_in, known_of, lines_of, version_of};

use crate::bodies::{both, either};
use crate::parts::{part_follows, rule_follows};
use crate::stops::{conds_stop, disj_stop, is_stop};
use evidence_lines::{LineKind, LineList};
use evidence_lookups::frames::is_file_frame;
use evidence_lookups::line_context::{LineContext, SitedLine};
use evidence_lookups::lookup::verdict_said;
use guard_syntax::{Disj, Part, Verdict};
use rule_names::Piece;
use std::alloc::AllocError;

/// Whether a line of a verdict follows.
pub(crate) fn verdict_follows(
    context: &LineContext<'_, '_, '_>,
    line: SitedLine<'_>,
    verdict: Verdict,
) -> Result<bool, AllocError>
    ensures { IfOk result (λ follows. MatchBool follows
        (FollowsVerdict (version_of context.now) (known_of context.now) (lines_of context.now) line.entry.frame line.entry.site line.entry.kind (piece_at (file_in context.now) line.entry.site) line.entry.cites.now verdict)
        (FollowsVerdict (version_of context.now) (known_of context.now) (lines_of context.now) line.entry.frame line.entry.site line.entry.kind (piece_at (file_in context.now) line.entry.site) line.entry.cites.now verdict → ⊥)) }
{
    let Some(piece) = context.find(line.site) else {
        return Ok(false);
    };
    match line.kind {
        LineKind::Rule => Ok(rule_line_follows(context, line, piece, verdict)),
        LineKind::Conj => Ok(conj_line_follows(context, line, piece, verdict)),
        LineKind::Disj => Ok(disj_line_follows(context, line, piece, verdict)),
        _ => match piece {
            Piece::Part(part) => part_follows(context, line, part, verdict),
            _ => Ok(false),
        },
    }
}

/// Whether a `rule` line follows: of a rule, or of the parts outside rules, which have the file's site. It is the first of
/// its site, in the frame of the file.
fn rule_line_follows(
    context: &LineContext<'_, '_, '_>,
    line: SitedLine<'_>,
    piece: Piece<'_>,
    verdict: Verdict,
) -> bool
    ensures { MatchBool result
        (FollowsVerdict (version_of context.now) (known_of context.now) (lines_of context.now) line.entry.frame line.entry.site kind.Rule (Some (see_piece piece.entry)) line.entry.cites.now verdict)
        (FollowsVerdict (version_of context.now) (known_of context.now) (lines_of context.now) line.entry.frame line.entry.site kind.Rule (Some (see_piece piece.entry)) line.entry.cites.now verdict → ⊥) }
{
    let new = context.judged.verdict(line.site).is_none();
    if !new {
        return false;
    }
    if !is_file_frame(context, line.frame) {
        return false;
    }
    let loose = &context.store.file.raw.loose;
    match piece {
        Piece::Rule(rule) => rule_follows(&context.lines, line.frame, rule, line.cites, verdict),
        Piece::File => loose_follows(&context.lines, line.frame, loose, line.cites, verdict),
        _ => false,
    }
}

/// Whether a `conj` line follows: of a body, of conditions, or of the parts outside rules.
fn conj_line_follows(
    context: &LineContext<'_, '_, '_>,
    line: SitedLine<'_>,
    piece: Piece<'_>,
    verdict: Verdict,
) -> bool
    ensures { MatchBool result
        (FollowsVerdict (version_of context.now) (known_of context.now) (lines_of context.now) line.entry.frame line.entry.site kind.Conj (Some (see_piece piece.entry)) line.entry.cites.now verdict)
        (FollowsVerdict (version_of context.now) (known_of context.now) (lines_of context.now) line.entry.frame line.entry.site kind.Conj (Some (see_piece piece.entry)) line.entry.cites.now verdict → ⊥) }
{
    let lines = &context.lines;
    match piece {
        Piece::Body(body) => conj_follows(lines, line, None, &body.parts, verdict),
        Piece::Conds(conds) => {
            let stop = conds_stop(context.version);
            conj_follows(lines, line, stop, &conds.parts, verdict)
        }
        Piece::File => {
            let loose = &context.store.file.raw.loose;
            conj_follows(lines, line, None, loose, verdict)
        }
        _ => false,
    }
}

/// Whether a `disj` line follows.
fn disj_line_follows(
    context: &LineContext<'_, '_, '_>,
    line: SitedLine<'_>,
    piece: Piece<'_>,
    verdict: Verdict,
) -> bool
    ensures { MatchBool result
        (FollowsVerdict (version_of context.now) (known_of context.now) (lines_of context.now) line.entry.frame line.entry.site kind.Disj (Some (see_piece piece.entry)) line.entry.cites.now verdict)
        (FollowsVerdict (version_of context.now) (known_of context.now) (lines_of context.now) line.entry.frame line.entry.site kind.Disj (Some (see_piece piece.entry)) line.entry.cites.now verdict → ⊥) }
{
    match piece {
        Piece::Disj(disj) => {
            let stop = disj_stop(context.version);
            disj_follows(&context.lines, line, stop, disj, verdict)
        }
        _ => false,
    }
}

/// Whether a line of the parts outside rules has the verdict of their conjunction, which it cites.
fn loose_follows(
    lines: &LineList<'_>,
    frame: u64,
    loose: &[Disj],
    cites: &[u64],
    verdict: Verdict,
) -> bool
    ensures { (known : StoreModel) → MatchBool result
        (FollowsLoose known lines.now frame (disj_list (map see_disj loose.now)) cites.now verdict)
        (FollowsLoose known lines.now frame (disj_list (map see_disj loose.now)) cites.now verdict → ⊥) }
{
    if loose.is_empty() {
        return false;
    }
    match cites {
        [cite] => is_said(lines, *cite, frame, verdict),
        _ => false,
    }
}

/// Whether the `conj` line of the parts outside rules says a verdict.
fn is_said(lines: &LineList<'_>, number: u64, frame: u64, verdict: Verdict) -> bool
    ensures { MatchBool result
        (IsLine lines.now number kind.Conj frame 0 (says.Verdict verdict))
        (IsLine lines.now number kind.Conj frame 0 (says.Verdict verdict) → ⊥) }
{
    match verdict_said(lines, number, LineKind::Conj, frame, 0) {
        Some(said) => said == verdict,
        None => false,
    }
}

/// Whether a verdict is the conjunction of what cited lines say of disjunctions, up to the one that decides.
fn conj_follows(
    lines: &LineList<'_>,
    line: SitedLine<'_>,
    stop: Option<Verdict>,
    disjs: &[Disj],
    verdict: Verdict,
) -> bool
    ensures { (known : StoreModel) → MatchBool result
        (FollowsConj known lines.now line.entry.frame stop (disj_list (map see_disj disjs.now)) line.entry.cites.now verdict)
        (FollowsConj known lines.now line.entry.frame stop (disj_list (map see_disj disjs.now)) line.entry.cites.now verdict → ⊥) }
{
    match conjunction_said(lines, line.frame, stop, disjs, line.cites) {
        Some(said) => said == verdict,
        None => false,
    }
}

/// Whether a verdict is the disjunction of what cited lines say of the parts of a disjunction, up to the one that decides.
fn disj_follows(
    lines: &LineList<'_>,
    line: SitedLine<'_>,
    stop: Option<Verdict>,
    disj: &Disj,
    verdict: Verdict,
) -> bool
    ensures { (known : StoreModel) → MatchBool result
        (FollowsDisj known lines.now line.entry.frame stop (see_disj disj.now) line.entry.cites.now verdict)
        (FollowsDisj known lines.now line.entry.frame stop (see_disj disj.now) line.entry.cites.now verdict → ⊥) }
{
    match disjunction_said(lines, line.frame, stop, &disj.parts, line.cites) {
        Some(said) => said == verdict,
        None => false,
    }
}

/// The conjunction of what cited lines say of disjunctions, one line for each up to the one that decides.
fn conjunction_said(
    lines: &LineList<'_>,
    frame: u64,
    stop: Option<Verdict>,
    disjs: &[Disj],
    cites: &[u64],
) -> Option<Verdict>
    ensures { (known : StoreModel) → MatchOption result
        ((verdicts : List Verdict) → SayDisjs known lines.now frame stop (disj_list (map see_disj disjs.now)) cites.now verdicts → ⊥)
        (λ verdict. (verdicts : List Verdict) × SayDisjs known lines.now frame stop (disj_list (map see_disj disjs.now)) cites.now verdicts × (verdict ≡ conjunction verdicts)) }
{
    let mut verdict = Verdict::Skip;
    let mut left = cites;
    for disj in disjs {
        let (cite, others) = left.split_first()?;
        let said = verdict_said(lines, *cite, LineKind::Disj, frame, disj.site)?;
        verdict = both(verdict, said);
        left = others;
        if is_stop(stop, said) {
            return at_end(left, verdict);
        }
    }
    at_end(left, verdict)
}

/// The disjunction of what cited lines say of parts, one line for each up to the one that decides.
fn disjunction_said(
    lines: &LineList<'_>,
    frame: u64,
    stop: Option<Verdict>,
    parts: &[Part],
    cites: &[u64],
) -> Option<Verdict>
    ensures { (known : StoreModel) → MatchOption result
        ((verdicts : List Verdict) → SayParts known lines.now frame stop (part_list (map see_part parts.now)) cites.now verdicts → ⊥)
        (λ verdict. (verdicts : List Verdict) × SayParts known lines.now frame stop (part_list (map see_part parts.now)) cites.now verdicts × (verdict ≡ disjunction verdicts)) }
{
    let mut verdict = Verdict::Skip;
    let mut left = cites;
    for part in parts {
        let (cite, others) = left.split_first()?;
        let said = said_of_part(lines, *cite, frame, part)?;
        verdict = either(verdict, said);
        left = others;
        if is_stop(stop, said) {
            return at_end(left, verdict);
        }
    }
    at_end(left, verdict)
}

/// The verdict, where no cite is left.
fn at_end(left: &[u64], verdict: Verdict) -> Option<Verdict>
    ensures { MatchOption result (left.now ≡ [] → ⊥) (λ said. (left.now ≡ []) × (said ≡ verdict)) }
{
    match left {
        [] => Some(verdict),
        _ => None,
    }
}

/// The verdict that the line of a number says of a part, where it is of the part's kind.
fn said_of_part(lines: &LineList<'_>, number: u64, frame: u64, part: &Part) -> Option<Verdict>
    ensures { (known : StoreModel) → MatchOption result
        ((verdict : Verdict) → SaysVerdict known lines.now (kind_of_part known lines.now (see_part part.now)) frame (part_site (see_part part.now)) number verdict → ⊥)
        (λ verdict. SaysVerdict known lines.now (kind_of_part known lines.now (see_part part.now)) frame (part_site (see_part part.now)) number verdict) }
{
    match part {
        Part::Block { site, .. } => verdict_said(lines, number, LineKind::Block, frame, *site),
        Part::When { site, .. } => verdict_said(lines, number, LineKind::When, frame, *site),
        Part::Kinds { site, .. } => verdict_said(lines, number, LineKind::Kinds, frame, *site),
        Part::Test { site, .. } => verdict_said(lines, number, LineKind::Test, frame, *site),
        Part::Refer { site, .. } => verdict_said(lines, number, LineKind::Refer, frame, *site),
        Part::Call { site, .. } => verdict_said(lines, number, LineKind::Call, frame, *site),
    }
}
