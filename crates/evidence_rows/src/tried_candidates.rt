//! The verdicts of what a filter tries.
ghost use Rattle.std.specs.Prelude.{◌≡◌, List, IfOk, MatchOption};
ghost use Rattle.guard_syntax.specs.code.Seen.{see_conds};
ghost use Rattle.guard_syntax.specs.declared.row.Verdict as row;
ghost use Rattle.rule_meaning.specs.StoreModel.{StoreModel};
ghost use Rattle.evidence_rules.specs.Follows.{SayEach, SaysCandidate};

use evidence_lines::LineList;
use evidence_lookups::body_frames::{ValueFrame, framed_verdict};
use evidence_lookups::line_context::SitedLine;
use guard_syntax::{Conds, Ref, Verdict};
use std::alloc::{AllocError, Global};

/// The verdict of the conditions of a line's filter for each value, if the line cites one line for each, in order.
pub(crate) fn tried_verdicts(
    alloc: Global,
    lines: &LineList<'_>,
    line: SitedLine<'_>,
    conditions: &Conds,
    values: &[Ref],
) -> Result<Option<Vec<Verdict>>, AllocError>
    ensures { (known : StoreModel) → IfOk result (λ said. MatchOption said
        ((verdicts : List row.Verdict) → SayEach known lines.now (SaysCandidate known lines.now line.entry.frame line.entry.site (see_conds conditions.now)) values.now line.entry.cites.now verdicts → ⊥)
        (λ verdicts. SayEach known lines.now (SaysCandidate known lines.now line.entry.frame line.entry.site (see_conds conditions.now)) values.now line.entry.cites.now verdicts.items)) }
{
    let cites = line.cites;
    let mut verdicts = Vec::new(alloc);
    if values.len() != cites.len() {
        return Ok(None);
    }
    for (i, value) in values.iter().enumerate() {
        let within = ValueFrame {
            frame: line.frame,
            site: line.site,
            value: *value,
        };
        let Some(verdict) = framed_verdict(lines, cites[i], within, conditions.site) else {
            return Ok(None);
        };
        verdicts.push(verdict)?;
    }
    Ok(Some(verdicts))
}
