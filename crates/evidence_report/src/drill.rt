//! The report of a drill from what evidence says: the line of each verdict, and how many entries there are.
ghost use Rattle.std.specs.Prelude.{◌≡◌, ◌≤◌, ◌++◌, IsErrOf, IsSome, OnOk, OnErr, IfOk, codes, decimal};
ghost use Rattle.std.specs.List.{flat_map};
ghost use Rattle.guard_io.specs.Outside.{FaultCounted};
ghost use Rattle.rule_meaning.specs.FunctionMeaning.{IsAnswering};
ghost use Rattle.rule_meaning.specs.Locations.{Answers};
ghost use Rattle.rule_meaning.specs.Seeing.{world_of};
ghost use Rattle.evidence_lookups.specs.code.Grounds.{known_of, lines_of};
ghost use Rattle.report_text.specs.Texts.{Texts};
ghost use Rattle.guard_ends.specs.Drill.{drill_report};
ghost use Rattle.guard_ends.specs.Report as reports;
ghost use Rattle.evidence_report.specs.code.RuleEntries.{IsAccepted};
ghost use Rattle.evidence_report.specs.code.VerdictLines.{heading, verdicts_in};
ghost use Rattle.evidence_report.specs.code.Written.{Takes, TakesFront};

use crate::report::count_entries;
use crate::tally::total_line;
use crate::verdict_lines::{VerdictLine, verdict_lines};
use evidence_lookups::line_context::LineContext;
use guard_io::Sink;
use report_text::put::put;
use report_text::{ReportFault, push_rule_line};
use std::alloc::{AllocError, Global};

/// Writes the report of a drill of so many resources by evidence that was accepted: its first line, the line of each verdict,
/// how many entries there are, up to the most that 64 bits hold, and the total line. It tells no place, so there are no texts. The
/// store holds the trees of the lines' calls. After an error the sink has taken a front of the report; `Failed` comes only where
/// its count of faults rose.
pub fn write_drill<S: Sink>(
    alloc: Global,
    context: &LineContext<'_, '_, '_>,
    count: u32,
    sink: &mut S,
) -> Result<(), ReportFault>
    requires { IsAccepted context.now.version (known_of context.now) (lines_of context.now) }
    ensures ok { (answers : Answers) (texts : Texts) → IsAnswering (world_of (known_of context.now) answers)
        → OnOk result (Takes (S.told sink.old) (drill_report count (world_of (known_of context.now) answers) texts) (S.told sink.new)) }
    ensures err { (answers : Answers) (texts : Texts) → IsAnswering (world_of (known_of context.now) answers)
        → OnErr result (TakesFront (S.told sink.old) (drill_report count (world_of (known_of context.now) answers) texts) (S.told sink.new)) }
    ensures tells { IsSome (S.told sink.old) → IsSome (S.told sink.new) }
    ensures failed { IsErrOf result ReportFault.Failed → FaultCounted (S.faults sink.old) (S.faults sink.new) }
    ensures kept { S.faults sink.old ≤ S.faults sink.new }
{
    match drill_text(alloc, context, count) {
        Ok(text) => put(&text, sink),
        Err(_) => Err(ReportFault::Memory),
    }
}

/// The report of a drill of so many resources.
fn drill_text(
    alloc: Global,
    context: &LineContext<'_, '_, '_>,
    count: u32,
) -> Result<Vec<u8>, AllocError>
    requires { IsAccepted context.now.version (known_of context.now) (lines_of context.now) }
    ensures { (answers : Answers) (texts : Texts) → IsAnswering (world_of (known_of context.now) answers)
        → IfOk result (λ text. text.items ≡ drill_report count (world_of (known_of context.now) answers) texts) }
{
    let all = verdict_lines(alloc, context)?;
    let entries = count_entries(alloc, context, &all)?;
    text_of(alloc, count, entries, &all)
}

/// The report of a drill of so many resources, by its verdicts and how many entries there are.
fn text_of(
    alloc: Global,
    count: u32,
    entries: u64,
    all: &[VerdictLine<'_>],
) -> Result<Vec<u8>, AllocError>
    ensures { IfOk result (λ text. text.items ≡ (codes "drill " ++ decimal count ++ codes "\n") ++ flat_map heading all.now
        ++ (codes "fails " ++ decimal entries ++ codes "\n") ++ reports.total_line (verdicts_in all.now)) }
{
    let mut text = Vec::new(alloc);
    push_count(alloc, &mut text, "drill", count as u64)?;
    push_headings(&mut text, all)?;
    push_count(alloc, &mut text, "fails", entries)?;
    text.extend_from_slice(total_line(alloc, all)?.as_bytes())?;
    Ok(text)
}

/// Appends a line that says how many there are of something.
fn push_count(alloc: Global, text: &mut Vec<u8>, word: &str, count: u64) -> Result<(), AllocError>
    ensures { OnOk result (text.new.items ≡ text.old.items ++ (word.now ++ codes " " ++ decimal count ++ codes "\n")) }
{
    text.extend_from_slice(format!(in alloc; "{word} {count}\n")?.as_bytes())?;
    Ok(())
}

/// Appends the line of each verdict.
fn push_headings(text: &mut Vec<u8>, all: &[VerdictLine<'_>]) -> Result<(), AllocError>
    ensures { OnOk result (text.new.items ≡ text.old.items ++ flat_map heading all.now) }
{
    for listed in all {
        push_rule_line(text, listed.name, listed.line.verdict)?;
    }
    Ok(())
}
