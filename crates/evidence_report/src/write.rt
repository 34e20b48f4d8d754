//! Writing what lines fail by.
ghost use Rattle.evidence_lookups.specs.code.Grounds.{known_of, lines_of};
ghost use Rattle.evidence_truth.specs.code.LineFails.{line_fails};
ghost use Rattle.report_text.specs.code.SeenTexts.{see_lined};
ghost use Rattle.evidence_leads.specs.code.Leads.{CitesFall, IsShown, entries_behind, see_lead};
ghost use Rattle.evidence_report.specs.code.Written.{Writes, entry_lines};

use evidence_leads::{Lead, leads_of};
use evidence_lookups::line_context::LineContext;
use guard_io::Sink;
use report_text::{LinedTexts, ReportFault, write_entry_over};
use std::alloc::Global;

/// Writes the lines of the entries by which the line of a number fails. After an error the sink has taken a front of them.
#[cycle(write)]
pub(crate) fn write_line<S: Sink>(
    alloc: Global,
    context: &LineContext<'_, '_, '_>,
    texts: &LinedTexts<'_>,
    number: u64,
    sink: &mut S,
) -> Result<(), ReportFault>
    requires { CitesFall (lines_of context.now) }
    ensures { Writes (S.told sink.old) (S.told sink.new) (S.faults sink.old) (S.faults sink.new)
        (entry_lines (known_of context.now) (see_lined texts.now) (line_fails (known_of context.now) (lines_of context.now) number number)) result }
{
    let Ok(leads) = leads_of(alloc, context, number) else {
        return Err(ReportFault::Memory);
    };
    for lead in leads.as_slice() {
        write_lead(alloc, context, texts, lead, sink)?;
    }
    Ok(())
}

/// Writes the lines of the entries behind a lead.
#[cycle(write)]
fn write_lead<S: Sink>(
    alloc: Global,
    context: &LineContext<'_, '_, '_>,
    texts: &LinedTexts<'_>,
    lead: &Lead,
    sink: &mut S,
) -> Result<(), ReportFault>
    requires falls { CitesFall (lines_of context.now) }
    requires shown { IsShown (known_of context.now) lead.now }
    ensures { Writes (S.told sink.old) (S.told sink.new) (S.faults sink.old) (S.faults sink.new)
        (entry_lines (known_of context.now) (see_lined texts.now)
        (entries_behind (λ c. line_fails (known_of context.now) (lines_of context.now) c c) (see_lead (known_of context.now) lead.now))) result }
{
    match lead {
        Lead::Entry(entry) => write_entry_over(alloc, texts, context.store, entry, sink),
        Lead::Line(number) => write_line(alloc, context, texts, *number, sink),
    }
}
