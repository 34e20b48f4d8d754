//! The `rule` lines of evidence, by their sites.
ghost use Rattle.std.specs.Prelude.{◌≡◌, None, IfOk, length, slice_index_or};
ghost use Rattle.evidence_report.specs.code.RuleTables.{AreRuleLines, rule_line, ruled_by, ruled_site, with_line};

use evidence_lines::{Line, LineKind, LineList, Outcome};
use evidence_lookups::judged::is_rule_line;
use evidence_lookups::lookup::line_of;
use guard_syntax::Verdict;
use std::alloc::{AllocError, Global};

/// A `rule` line: its site, its number, and the verdict that it says.
#[derive(Clone, Copy)]
pub(crate) struct RuleLine {
    pub site: u32,
    pub number: u64,
    pub verdict: Verdict,
}

/// The `rule` lines by their sites, of which there are so many; none where a site has none.
pub(crate) fn rule_lines(
    alloc: Global,
    lines: &LineList<'_>,
    sites: usize,
) -> Result<Vec<Option<RuleLine>>, AllocError>
    ensures lines { IfOk result (λ table. AreRuleLines lines.now table.items) }
    ensures sites { IfOk result (λ table. length table.items ≡ sites) }
{
    let mut table = vec![in alloc; None; sites]?;
    for before in 0..lines.len() {
        note(&mut table, rule_line(lines, before + 1));
    }
    Ok(table)
}

/// Notes a line at its site, where the table has it.
fn note(table: &mut Vec<Option<RuleLine>>, line: Option<RuleLine>)
    ensures { table.new.items ≡ with_line table.old.items line }
{
    if let Some(line) = line {
        let site = line.site as usize;
        if site < table.len() {
            table[site] = Some(line);
        }
    }
}

/// The line of a number, where it is a `rule` line that says a verdict.
fn rule_line(lines: &LineList<'_>, number: u64) -> Option<RuleLine>
    ensures { result ≡ rule_line lines.now number }
{
    if !is_rule_line(lines, number) {
        return None;
    }
    let line = line_of(lines, number)?;
    let site = ruled_site(&line)?;
    ruled_by(site, number, &line.outcome)
}

/// The site of a `rule` line in a frame.
fn ruled_site(line: &Line<'_>) -> Option<u32>
    ensures { result ≡ ruled_site line.now.kind line.now.frame line.now.site }
{
    match line.kind {
        LineKind::Rule => match line.frame {
            Some(_) => line.site,
            None => None,
        },
        _ => None,
    }
}

/// The line of a site and a number, by the verdict that it says.
fn ruled_by(site: u32, number: u64, outcome: &Outcome<'_>) -> Option<RuleLine>
    ensures { result ≡ ruled_by site number outcome.now }
{
    match outcome {
        Outcome::Verdict(verdict) => Some(RuleLine {
            site,
            number,
            verdict: *verdict,
        }),
        Outcome::Value(_) => None,
        Outcome::Rows(_) => None,
    }
}

/// The line that a table has at a site.
pub(crate) fn line_at(table: &[Option<RuleLine>], site: u32) -> Option<RuleLine>
    ensures { result ≡ slice_index_or table.now site None }
{
    match table.get(site as usize) {
        Some(line) => *line,
        None => None,
    }
}
