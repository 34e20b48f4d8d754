//! The lines of the verdicts of a rule file.
ghost use Rattle.std.specs.Prelude.{◌≡◌, ◌≤◌, ◌++◌, ℕ, List, Some, IsErrOf, IsSome, OnOk, OnErr, IfOk, drop, length, map};
ghost use Rattle.std.specs.Option.{ForSome};
ghost use Rattle.std.specs.List.{flat_map};
ghost use Rattle.guard_io.specs.Outside.{FaultCounted, IsPrefix};
ghost use Rattle.guard_syntax.specs.code.Seen.{disj_list, see_disj, see_rule};
ghost use Rattle.rule_names.specs.code.Files.{file_of};
ghost use Rattle.report_text.specs.RuleLines.{name_of_loose, name_of_rule, reported_names, rule_line, rule_lines, verdict_word};

use crate::put::{ReportFault, put};
use guard_io::Sink;
use guard_syntax::{Disj, Rule, Verdict};
use rule_names::RuleFile;
use std::alloc::{AllocError, Global};

/// Writes the line `rule <name> <verdict>` of each rule without parameters in the order of the file, and last that of
/// `default`, where parts stand outside rules. There is one verdict for each. After an error the sink has taken a front
/// of these lines; `Failed` comes only where its count of faults rose.
pub fn write_rules<S: Sink>(
    alloc: Global,
    file: &RuleFile,
    verdicts: &[Verdict],
    sink: &mut S,
) -> Result<(), ReportFault>
    requires { length verdicts.now ≡ length (reported_names (file_of file.now)) }
    ensures ok { OnOk result (ForSome (S.told sink.old) (λ held.
        S.told sink.new ≡ Some (held ++ rule_lines (reported_names (file_of file.now)) verdicts.now))) }
    ensures err { OnErr result (ForSome (S.told sink.old) (λ held. (front : List ℕ)
        × IsPrefix front (rule_lines (reported_names (file_of file.now)) verdicts.now) × (S.told sink.new ≡ Some (held ++ front)))) }
    ensures tells { IsSome (S.told sink.old) → IsSome (S.told sink.new) }
    ensures failed { IsErrOf result ReportFault.Failed → FaultCounted (S.faults sink.old) (S.faults sink.new) }
    ensures kept { S.faults sink.old ≤ S.faults sink.new }
{
    let raw = file.raw();
    match lines_of(alloc, &raw.rules, &raw.loose, verdicts) {
        Ok(lines) => put(&lines, sink),
        Err(_) => Err(ReportFault::Memory),
    }
}

/// The lines of verdicts, of which there is one for each name that is reported of these rules and the parts outside.
fn lines_of(
    alloc: Global,
    rules: &[Rule],
    loose: &[Disj],
    verdicts: &[Verdict],
) -> Result<Vec<u8>, AllocError>
    requires { length verdicts.now
        ≡ length (flat_map name_of_rule (map see_rule rules.now) ++ name_of_loose (disj_list (map see_disj loose.now))) }
    ensures { IfOk result (λ lines. lines.items
        ≡ rule_lines (flat_map name_of_rule (map see_rule rules.now) ++ name_of_loose (disj_list (map see_disj loose.now))) verdicts.now) }
{
    let mut lines = Vec::new(alloc);
    let mut left = verdicts;
    for rule in rules {
        left = push_rule(&mut lines, rule, left)?;
    }
    push_loose(&mut lines, loose, left)?;
    Ok(lines)
}

/// Appends the line of a rule, where it is reported, and gives the verdicts behind its own.
fn push_rule<'v>(
    lines: &mut Vec<u8>,
    rule: &Rule,
    verdicts: &'v [Verdict],
) -> Result<&'v [Verdict], AllocError>
    requires { length (name_of_rule (see_rule rule.now)) ≤ length verdicts.now }
    ensures line { OnOk result (lines.new.items ≡ lines.old.items ++ rule_lines (name_of_rule (see_rule rule.now)) verdicts.entry.now) }
    ensures left { IfOk result (λ left. left.now ≡ drop (length (name_of_rule (see_rule rule.now))) verdicts.entry.now) }
{
    if !rule.params.as_slice().is_empty() {
        return Ok(verdicts);
    }
    push_rule_line(lines, rule.name.as_str(), verdicts[0])?;
    Ok(&verdicts[1..])
}

/// Appends the line `default`, where there are parts outside rules.
fn push_loose(lines: &mut Vec<u8>, loose: &[Disj], verdicts: &[Verdict]) -> Result<(), AllocError>
    requires { length (name_of_loose (disj_list (map see_disj loose.now))) ≤ length verdicts.now }
    ensures { OnOk result (lines.new.items ≡ lines.old.items
        ++ rule_lines (name_of_loose (disj_list (map see_disj loose.now))) verdicts.now) }
{
    if loose.is_empty() {
        return Ok(());
    }
    push_rule_line(lines, "default", verdicts[0])
}

/// Appends the line of a verdict under its name.
pub fn push_rule_line(lines: &mut Vec<u8>, name: &str, verdict: Verdict) -> Result<(), AllocError>
    ensures { OnOk result (lines.new.items ≡ lines.old.items ++ rule_line name.now verdict) }
{
    lines.extend_from_slice(b"rule ")?;
    lines.extend_from_slice(name.as_bytes())?;
    lines.push(b' ')?;
    lines.extend_from_slice(verdict_word(verdict).as_bytes())?;
    lines.push(b'\n')?;
    Ok(())
}

/// The word that is printed for a verdict.
pub fn verdict_word(verdict: Verdict) -> &'static str
    ensures { result.now ≡ verdict_word verdict }
{
    match verdict {
        Verdict::Pass => "PASS",
        Verdict::Fail => "FAIL",
        Verdict::Skip => "SKIP",
    }
}
