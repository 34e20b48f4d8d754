//! What is said of cases that were judged.
ghost use Rattle.std.specs.Prelude.{◌≡◌, ◌≤◌, ◌++◌, ◌∷◌, [], ℕ, List, Some, IsErrOf, IsSome, OnOk, OnErr, IfOk, codes, decimal, length, string_bytes};
ghost use Rattle.std.specs.List.{flat_map};
ghost use Rattle.std.specs.Option.{ForSome};
ghost use Rattle.guard_io.specs.Outside.{FaultCounted, IsPrefix};
ghost use Rattle.report_text.specs.RuleLines.{reported_names, verdict_word};
ghost use Rattle.rule_names.specs.code.Files.{file_of};
ghost use Rattle.guard_testfile.specs.Texts.{case_text, difference, difference_line, is_same, summary_line, verdict_under};
ghost use Rattle.guard_testfile.specs.code.RuleSites.{name_of_site};
ghost use Rattle.guard_testfile.specs.code.Seen.{see_expectation};
ghost use Rattle.guard_testfile.specs.code.Written.{agreement_of, agreement_word, case_differences};

use crate::case::{Case, Expectation};
use crate::verdicts::Verdicts;
use guard_io::Sink;
use guard_syntax::Verdict;
use report_text::put::put;
use report_text::{ReportFault, verdict_word};
use rule_names::{Piece, RuleFile};
use std::alloc::{AllocError, Global};

/// Whether the verdicts of a case are those that it expects.
#[derive(Clone, Copy)]
pub enum Agreement {
    AsExpected,
    Different,
}

/// A case that was judged.
#[derive(Clone, Copy)]
pub struct JudgedCase<'a> {
    /// The number under which it is told.
    pub number: u64,
    pub case: &'a Case,
    /// The verdict of each rule that is reported, in the order of the report.
    pub got: &'a [Verdict],
}

/// Writes what is said of a case, and answers whether it is as expected: the line of the case, and under that a line for each
/// verdict that differs. After an error the sink has taken a front of these lines; `Failed` comes only where its count of
/// faults rose.
pub fn write_case<S: Sink>(
    alloc: Global,
    file: &RuleFile,
    judged: JudgedCase<'_>,
    sink: &mut S,
) -> Result<Agreement, ReportFault>
    requires { length judged.got.now ≡ length (reported_names (file_of file.now)) }
    ensures agreement { IfOk result (λ agreement. agreement ≡ agreement_of (case_differences (file_of file.now) judged.entry.got.now judged.entry.case.now)) }
    ensures ok { OnOk result (ForSome (S.told sink.old) (λ held.
        S.told sink.new ≡ Some (held ++ case_text judged.entry.number (case_differences (file_of file.now) judged.entry.got.now judged.entry.case.now)))) }
    ensures err { OnErr result (ForSome (S.told sink.old) (λ held. (front : List ℕ)
        × IsPrefix front (case_text judged.entry.number (case_differences (file_of file.now) judged.entry.got.now judged.entry.case.now)) × (S.told sink.new ≡ Some (held ++ front)))) }
    ensures tells { IsSome (S.told sink.old) → IsSome (S.told sink.new) }
    ensures failed { IsErrOf result ReportFault.Failed → FaultCounted (S.faults sink.old) (S.faults sink.new) }
    ensures kept { S.faults sink.old ≤ S.faults sink.new }
{
    let Ok(lines) = difference_lines(alloc, file, judged.case, judged.got) else {
        return Err(ReportFault::Memory);
    };
    let agreement = agreement_by(&lines);
    let Ok(text) = text_of(alloc, judged.number, agreement, &lines) else {
        return Err(ReportFault::Memory);
    };
    match put(&text, sink) {
        Ok(()) => Ok(agreement),
        Err(fault) => Err(fault),
    }
}

/// Writes the last line: how many cases there are, and how many are wrong. After an error the sink has taken a front of it;
/// `Failed` comes only where its count of faults rose.
pub fn write_summary<S: Sink>(
    alloc: Global,
    cases: u64,
    wrong: u64,
    sink: &mut S,
) -> Result<(), ReportFault>
    ensures ok { OnOk result (ForSome (S.told sink.old) (λ held. S.told sink.new ≡ Some (held ++ summary_line cases wrong))) }
    ensures err { OnErr result (ForSome (S.told sink.old) (λ held. (front : List ℕ)
        × IsPrefix front (summary_line cases wrong) × (S.told sink.new ≡ Some (held ++ front)))) }
    ensures tells { IsSome (S.told sink.old) → IsSome (S.told sink.new) }
    ensures failed { IsErrOf result ReportFault.Failed → FaultCounted (S.faults sink.old) (S.faults sink.new) }
    ensures kept { S.faults sink.old ≤ S.faults sink.new }
{
    match summary_of(alloc, cases, wrong) {
        Ok(line) => put(line.as_bytes(), sink),
        Err(_) => Err(ReportFault::Memory),
    }
}

/// The last line.
fn summary_of(alloc: Global, cases: u64, wrong: u64) -> Result<String, AllocError>
    ensures { IfOk result (λ line. string_bytes line ≡ summary_line cases wrong) }
{
    let line = format!(in alloc; "cases {cases} wrong {wrong}\n")?;
    Ok(line)
}

/// The line of a case, and the lines under it.
fn text_of(
    alloc: Global,
    number: u64,
    agreement: Agreement,
    lines: &[u8],
) -> Result<Vec<u8>, AllocError>
    ensures { IfOk result (λ text. text.items ≡ codes "case " ++ decimal number ++ codes " " ++ agreement_word agreement ++ codes "\n" ++ lines.now) }
{
    let word = agreement_word(agreement);
    let mut text = format!(in alloc; "case {number} {word}\n")?.into_bytes();
    text.extend_from_slice(lines)?;
    Ok(text)
}

/// The word that is printed for a case.
fn agreement_word(agreement: Agreement) -> &'static str
    ensures { result.now ≡ agreement_word agreement }
{
    match agreement {
        Agreement::AsExpected => "ok",
        Agreement::Different => "wrong",
    }
}

/// Whether a case is as expected, by the lines of what differs.
fn agreement_by(lines: &[u8]) -> Agreement
    ensures same { lines.now ≡ [] → result ≡ Agreement.AsExpected }
    ensures other { (byte : ℕ) → (rest : List ℕ) → lines.now ≡ byte ∷ rest → result ≡ Agreement.Different }
{
    if lines.is_empty() {
        return Agreement::AsExpected;
    }
    Agreement::Different
}

/// The lines of what differs of a case.
fn difference_lines(
    alloc: Global,
    file: &RuleFile,
    case: &Case,
    got: &[Verdict],
) -> Result<Vec<u8>, AllocError>
    requires { length got.now ≡ length (reported_names (file_of file.now)) }
    ensures { IfOk result (λ lines. lines.items ≡ flat_map difference_line (case_differences (file_of file.now) got.now case.now)) }
{
    let verdicts = Verdicts::new(alloc, file, got)?;
    let mut lines = Vec::new(alloc);
    for wanted in &case.wanted {
        push_difference(&mut lines, &verdicts, *wanted)?;
    }
    Ok(lines)
}

/// Appends the line of an expectation, if it is not met.
fn push_difference(
    lines: &mut Vec<u8>,
    verdicts: &Verdicts<'_>,
    wanted: Expectation,
) -> Result<(), AllocError>
    ensures { OnOk result (lines.new.items ≡ lines.old.items
        ++ flat_map difference_line (difference (see_expectation (file_of verdicts.now.file.now) wanted)
        (verdict_under (reported_names (file_of verdicts.now.file.now)) verdicts.now.listed.now (name_of_site (file_of verdicts.now.file.now) wanted.site)))) }
{
    let rule = name_of(verdicts.file, wanted.site);
    let Some(got) = verdicts.under(rule) else {
        return Ok(());
    };
    if is_same(wanted.verdict, got) {
        return Ok(());
    }
    push_line(lines, rule, wanted.verdict, got)
}

/// Appends the line of a verdict that differs from what is expected of a rule.
fn push_line(
    lines: &mut Vec<u8>,
    rule: &str,
    expected: Verdict,
    got: Verdict,
) -> Result<(), AllocError>
    ensures { OnOk result (lines.new.items ≡ lines.old.items ++ difference_line (record { rule = rule.now; expected = expected; got = got })) }
{
    let expected = verdict_word(expected);
    let got = verdict_word(got);
    let line = format!(in *lines.allocator(); "  {rule} expected {expected} got {got}\n")?;
    lines.extend_from_slice(line.as_bytes())
}

/// The name of the rule of a site.
fn name_of(file: &RuleFile, site: u32) -> &str
    ensures { result.now ≡ name_of_site (file_of file.entry.now) site }
{
    match file.find(site) {
        Some(Piece::Rule(rule)) => rule.name.as_str(),
        _ => "default",
    }
}

fn is_same(one: Verdict, other: Verdict) -> bool
    ensures { result ≡ is_same one other }
{
    match one {
        Verdict::Pass => matches!(other, Verdict::Pass),
        Verdict::Fail => matches!(other, Verdict::Fail),
        Verdict::Skip => matches!(other, Verdict::Skip),
    }
}
