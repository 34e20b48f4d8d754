//! How many entries lines fail by: a count for each line, made of those of the lines before. So a line that many lead to is
//! counted once.
ghost use Rattle.std.specs.Prelude.{◌≡◌, suc, List, map, IfOk, length};
ghost use Rattle.std.specs.List.{flat_map};
ghost use Rattle.evidence_lines.specs.declared.line.Line.{Line};
ghost use Rattle.evidence_lookups.specs.code.Grounds.{known_of, lines_of};
ghost use Rattle.evidence_truth.specs.code.LineFails.{line_fails};
ghost use Rattle.rule_meaning.specs.Seeing.{call_at};
ghost use Rattle.rule_meaning.specs.StoreModel.{StoreModel};
ghost use Rattle.evidence_report.specs.code.Counts.{AreCounts, count_of, counted};
ghost use Rattle.evidence_leads.specs.code.Leads.{AreBelow, CitesFall, IsBelow, entries_behind, see_lead};

use evidence_leads::{Lead, is_failing, leads_of};
use evidence_lookups::line_context::LineContext;
use std::alloc::{AllocError, Global};

/// How many entries each line fails by that says FAIL, in the order of the lines, a count standing still at the last of 64
/// bits; of other lines the count is 0. Lines that are led to often are counted once, so entries may be many where lines are
/// few.
pub(crate) fn count_lines(
    alloc: Global,
    context: &LineContext<'_, '_, '_>,
) -> Result<Vec<u64>, AllocError>
    requires { CitesFall (lines_of context.now) }
    ensures all { IfOk result (λ counts. length counts.items ≡ length (lines_of context.now)) }
    ensures counts { IfOk result (λ counts. AreCounts (known_of context.now) (lines_of context.now) counts.items) }
{
    let mut counts = Vec::new(alloc);
    for _before in 0..context.lines.len() {
        let count = count_next(alloc, context, &counts)?;
        counts.push(count)?;
    }
    Ok(counts)
}

/// How many entries the line behind those that are counted fails by; 0 where it does not say FAIL.
fn count_next(
    alloc: Global,
    context: &LineContext<'_, '_, '_>,
    counts: &[u64],
) -> Result<u64, AllocError>
    requires falls { CitesFall (lines_of context.now) }
    requires counts { AreCounts (known_of context.now) (lines_of context.now) counts.now }
    ensures { IfOk result (λ n. n ≡ count_of (known_of context.now) (lines_of context.now) (suc (length counts.now))) }
{
    let number = counts.len() as u64 + 1;
    if !is_failing(&context.lines, number) {
        return Ok(0);
    }
    let leads = leads_of(alloc, context, number)?;
    Ok(count_leads(&leads, counts))
}

/// How many entries stand behind leads to lines that are counted.
fn count_leads(leads: &[Lead], counts: &[u64]) -> u64
    ensures { (known : StoreModel) → (lines : List Line) → AreCounts known lines counts.now
        → AreBelow known lines (suc (length counts.now)) (map (see_lead known) leads.now)
        → result ≡ counted (flat_map (entries_behind (λ c. line_fails known lines c c)) (map (see_lead known) leads.now)) }
{
    let mut count: u64 = 0;
    for lead in leads {
        count = count.saturating_add(count_lead(lead, counts));
    }
    count
}

/// How many entries stand behind a lead to a line that is counted.
fn count_lead(lead: &Lead, counts: &[u64]) -> u64
    ensures { (known : StoreModel) → (lines : List Line) → AreCounts known lines counts.now
        → IsBelow known lines (suc (length counts.now)) (see_lead known lead.now)
        → result ≡ counted (entries_behind (λ c. line_fails known lines c c) (see_lead known lead.now)) }
{
    match lead {
        Lead::Entry(_) => 1,
        Lead::Line(number) => count_at(counts, *number),
    }
}

/// The count of the line of a number; 0 where it is not counted.
pub(crate) fn count_at(counts: &[u64], number: u64) -> u64
    ensures { result ≡ call_at counts.now number }
{
    if number == 0 {
        return 0;
    }
    match counts.get((number - 1) as usize) {
        Some(count) => *count,
        None => 0,
    }
}
