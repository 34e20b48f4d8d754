//! The report of what evidence says: the lines of each verdict and the total line, and the number of entries.
ghost use Rattle.std.specs.Prelude.{◌≡◌, ◌≤◌, List, IsErrOf, IsSome, OnOk, OnErr, IfOk, length, map};
ghost use Rattle.std.specs.List.{flat_map};
ghost use Rattle.evidence_lines.specs.declared.line.Line.{Line};
ghost use Rattle.guard_io.specs.Outside.{FaultCounted};
ghost use Rattle.rule_meaning.specs.FunctionMeaning.{IsAnswering};
ghost use Rattle.rule_meaning.specs.Locations.{Answers};
ghost use Rattle.rule_meaning.specs.Seeing.{world_of};
ghost use Rattle.rule_meaning.specs.StoreModel.{StoreModel};
ghost use Rattle.evidence_lookups.specs.code.Grounds.{known_of, lines_of};
ghost use Rattle.report_text.specs.RuleLines.{rule_line};
ghost use Rattle.report_text.specs.code.SeenTexts.{see_lined};
ghost use Rattle.guard_ends.specs.Drill.{fail_count};
ghost use Rattle.guard_ends.specs.Report as reports;
ghost use Rattle.guard_ends.specs.Reported.{reported};
ghost use Rattle.evidence_report.specs.code.Counts.{AreCounts, counted};
ghost use Rattle.evidence_leads.specs.code.Leads.{CitesFall};
ghost use Rattle.evidence_report.specs.code.RuleEntries.{IsAccepted};
ghost use Rattle.evidence_report.specs.code.RuleTables.{IsRuleLine};
ghost use Rattle.evidence_report.specs.code.VerdictLines.{AreSaid, see_verdict, verdicts_in};
ghost use Rattle.evidence_report.specs.code.Written.{Takes, TakesFront, Writes};

use crate::count::{count_at, count_lines};
use crate::tally::total_line;
use crate::verdict_lines::{VerdictLine, verdict_lines};
use crate::write::write_line;
use evidence_lookups::line_context::LineContext;
use guard_io::Sink;
use guard_syntax::Verdict;
use report_text::put::put;
use report_text::{LinedTexts, ReportFault, push_rule_line};
use std::alloc::{AllocError, Global};

/// Writes the report on a template by evidence that was accepted: the line of each verdict, under that the lines of what it
/// fails by, and last the total line; and answers how many entries there are, up to the most that 64 bits hold. The store holds
/// the trees of the lines' calls; the texts are those from which its file and its data tree were read. After an error the sink
/// has taken a front of the report; `Failed` comes only where its count of faults rose.
pub fn write_report<S: Sink>(
    alloc: Global,
    context: &LineContext<'_, '_, '_>,
    texts: &LinedTexts<'_>,
    sink: &mut S,
) -> Result<u64, ReportFault>
    requires { IsAccepted context.now.version (known_of context.now) (lines_of context.now) }
    ensures ok { (answers : Answers) → IsAnswering (world_of (known_of context.now) answers)
        → OnOk result (Takes (S.told sink.old) (reports.report (world_of (known_of context.now) answers) (see_lined texts.now)) (S.told sink.new)) }
    ensures err { (answers : Answers) → IsAnswering (world_of (known_of context.now) answers)
        → OnErr result (TakesFront (S.told sink.old) (reports.report (world_of (known_of context.now) answers) (see_lined texts.now)) (S.told sink.new)) }
    ensures count { (answers : Answers) → IsAnswering (world_of (known_of context.now) answers)
        → IfOk result (λ n. n ≡ fail_count (reported (world_of (known_of context.now) answers))) }
    ensures tells { IsSome (S.told sink.old) → IsSome (S.told sink.new) }
    ensures failed { IsErrOf result ReportFault.Failed → FaultCounted (S.faults sink.old) (S.faults sink.new) }
    ensures kept { S.faults sink.old ≤ S.faults sink.new }
{
    let Ok(all) = verdict_lines(alloc, context) else {
        return Err(ReportFault::Memory);
    };
    let Ok(entries) = count_entries(alloc, context, &all) else {
        return Err(ReportFault::Memory);
    };
    write_verdicts(alloc, context, texts, &all, sink)?;
    write_total(alloc, &all, sink)?;
    Ok(entries)
}

/// How many entries there are in the report on a template by evidence that was accepted, up to the most that 64 bits hold. The
/// store holds the trees of the lines' calls.
pub fn count_fails(alloc: Global, context: &LineContext<'_, '_, '_>) -> Result<u64, AllocError>
    requires { IsAccepted context.now.version (known_of context.now) (lines_of context.now) }
    ensures { (answers : Answers) → IsAnswering (world_of (known_of context.now) answers)
        → IfOk result (λ n. n ≡ fail_count (reported (world_of (known_of context.now) answers))) }
{
    let all = verdict_lines(alloc, context)?;
    count_entries(alloc, context, &all)
}

/// How many entries stand under all verdicts.
pub(crate) fn count_entries(
    alloc: Global,
    context: &LineContext<'_, '_, '_>,
    all: &[VerdictLine<'_>],
) -> Result<u64, AllocError>
    requires falls { CitesFall (lines_of context.now) }
    requires said { AreSaid (lines_of context.now) all.now }
    ensures { IfOk result (λ n. n ≡ fail_count (map (see_verdict (known_of context.now) (lines_of context.now)) all.now)) }
{
    let counts = count_lines(alloc, context)?;
    Ok(sum_of(&counts, all))
}

/// How many entries stand under verdicts, by the counts of all lines.
fn sum_of(counts: &[u64], all: &[VerdictLine<'_>]) -> u64
    ensures { (known : StoreModel) → (lines : List Line) → AreCounts known lines counts.now → length counts.now ≡ length lines
        → AreSaid lines all.now → result ≡ fail_count (map (see_verdict known lines) all.now) }
{
    let mut sum: u64 = 0;
    for listed in all {
        sum = sum.saturating_add(count_under(counts, listed));
    }
    sum
}

/// How many entries stand under a verdict.
fn count_under(counts: &[u64], listed: &VerdictLine<'_>) -> u64
    ensures { (known : StoreModel) → (lines : List Line) → AreCounts known lines counts.now → length counts.now ≡ length lines
        → IsRuleLine lines listed.now.line → result ≡ counted (see_verdict known lines listed.now).fails }
{
    match listed.line.verdict {
        Verdict::Fail => count_at(counts, listed.line.number),
        Verdict::Pass => 0,
        Verdict::Skip => 0,
    }
}

/// Writes the lines of all verdicts, in order.
fn write_verdicts<S: Sink>(
    alloc: Global,
    context: &LineContext<'_, '_, '_>,
    texts: &LinedTexts<'_>,
    all: &[VerdictLine<'_>],
    sink: &mut S,
) -> Result<(), ReportFault>
    requires { CitesFall (lines_of context.now) }
    ensures { Writes (S.told sink.old) (S.told sink.new) (S.faults sink.old) (S.faults sink.new)
        (flat_map (reports.lines_of (known_of context.now).file (known_of context.now).template (see_lined texts.now)) (map (see_verdict (known_of context.now) (lines_of context.now)) all.now)) result }
{
    for listed in all {
        write_verdict(alloc, context, texts, listed, sink)?;
    }
    Ok(())
}

/// Writes the line of a verdict, and the lines of what it fails by.
fn write_verdict<S: Sink>(
    alloc: Global,
    context: &LineContext<'_, '_, '_>,
    texts: &LinedTexts<'_>,
    listed: &VerdictLine<'_>,
    sink: &mut S,
) -> Result<(), ReportFault>
    requires { CitesFall (lines_of context.now) }
    ensures { Writes (S.told sink.old) (S.told sink.new) (S.faults sink.old) (S.faults sink.new)
        (reports.lines_of (known_of context.now).file (known_of context.now).template (see_lined texts.now) (see_verdict (known_of context.now) (lines_of context.now) listed.now)) result }
{
    write_heading(alloc, listed, sink)?;
    match listed.line.verdict {
        Verdict::Fail => write_line(alloc, context, texts, listed.line.number, sink),
        Verdict::Pass => Ok(()),
        Verdict::Skip => Ok(()),
    }
}

/// Writes the line of a verdict alone.
fn write_heading<S: Sink>(
    alloc: Global,
    listed: &VerdictLine<'_>,
    sink: &mut S,
) -> Result<(), ReportFault>
    ensures { Writes (S.told sink.old) (S.told sink.new) (S.faults sink.old) (S.faults sink.new) (rule_line listed.now.name.now listed.now.line.verdict) result }
{
    let mut line = Vec::new(alloc);
    match push_rule_line(&mut line, listed.name, listed.line.verdict) {
        Ok(()) => put(&line, sink),
        Err(_) => Err(ReportFault::Memory),
    }
}

/// Writes the total line.
fn write_total<S: Sink>(
    alloc: Global,
    all: &[VerdictLine<'_>],
    sink: &mut S,
) -> Result<(), ReportFault>
    ensures { Writes (S.told sink.old) (S.told sink.new) (S.faults sink.old) (S.faults sink.new) (reports.total_line (verdicts_in all.now)) result }
{
    match total_line(alloc, all) {
        Ok(line) => put(line.as_bytes(), sink),
        Err(_) => Err(ReportFault::Memory),
    }
}
