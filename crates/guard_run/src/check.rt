//! `check`: evidence is loaded and read, and judged line by line for inputs. Nothing is evaluated.
ghost use Rattle.std.specs.Prelude.{◌≡◌, ◌≤◌, ℕ, List, [], length, IfOk, MatchResult};
ghost use Rattle.doc_values.specs.Limits.{evidence_limit};
ghost use Rattle.rule_names.specs.code.Files.{file_of};
ghost use Rattle.report_text.specs.RuleLines.{reported_names};
ghost use Rattle.guard_ends.specs.Check.{accepted_text, rejected_text};
ghost use Rattle.guard_ends.specs.Inputs.{IsProof, RefusesProof};
ghost use Rattle.guard_ends.specs.Order.{Ending, IsChecked, OfEvidence};
ghost use Rattle.guard_inputs.specs.code.Inputs.{inputs_of};
ghost use Rattle.guard_inputs.specs.code.Stops.{IsNotRead, NoneRose, Rose};
ghost use Rattle.guard_run.specs.code.Outcome.{IsOutcome, IsOutcomeAt, ended};

use crate::done::Done;
use evidence_checker::{Answer, check};
use evidence_lines::Evidence;
use evidence_text::{EvidenceRefusal, read_evidence};
use guard_ends::{End, Which};
use guard_inputs::{Ready, Stop, Written, load_bytes, not_evidence, rejected_text};
use guard_io::{CleanSink, Files};
use guard_syntax::Verdict;
use report_text::{ReportFault, write_rules};
use rule_names::RuleFile;
use std::alloc::{AllocError, Global};

/// Judges evidence of this name, for inputs.
pub(crate) fn check_evidence<F: Files>(
    alloc: Global,
    ready: &Ready<'_, '_>,
    name: &str,
    files: &mut F,
) -> Result<Done, Stop>
    ensures outcome { IsOutcome (OfEvidence (F.content files.old) name.now (inputs_of ready.now.inputs.now))
        (Rose (F.faults files.old) (F.faults files.new)) NoneRose result }
    ensures contents { (other : List ℕ) → F.content files.new other ≡ F.content files.old other }
    ensures kept { (other : List ℕ) → F.faults files.old other ≤ F.faults files.new other }
{
    let bytes = load_bytes(alloc, Which::Proof, name, files)?;
    let evidence = lines_of(alloc, bytes)?;
    check_lines(alloc, ready, &evidence)
}

/// The lines of the bytes of evidence, which are no more than it may have.
fn lines_of(alloc: Global, bytes: Vec<u8>) -> Result<Evidence, Stop>
    requires { length bytes.items ≤ evidence_limit }
    ensures { MatchResult result (IsProof bytes.items) (IsNotRead RefusesProof bytes.items) }
{
    match read_evidence(alloc, &bytes) {
        Ok(evidence) => Ok(evidence),
        Err(EvidenceRefusal::Syntax(number)) => Err(Stop::Refused(not_evidence(number))),
        Err(EvidenceRefusal::NoMemory) => Err(Stop::Memory),
    }
}

/// Judges lines of evidence.
fn check_lines(alloc: Global, ready: &Ready<'_, '_>, evidence: &Evidence) -> Result<Done, Stop>
    ensures { IsOutcomeAt (Ending (IsChecked (file_of ready.now.inputs.now.rules.now) ready.now.inputs.now.tree evidence.now)) result }
{
    let rules = ready.inputs.rules;
    let answer = check(alloc, rules, &ready.inputs.tree, &ready.book, evidence)?;
    match answer {
        Answer::Accepted(verdicts) => {
            let text = accepted_text(alloc, rules, &verdicts)?;
            Ok(Done {
                how: End::Accepted,
                out: Written::Long(text),
                err: Written::Nothing,
            })
        }
        Answer::Rejected(number) => Ok(rejected(number)),
    }
}

/// What is done with evidence that is rejected at the line of this number. It wants no memory.
fn rejected(number: u64) -> Done
    ensures { ended result ≡ record { how = End.Rejected number; out = rejected_text number; err = [] } }
{
    Done {
        how: End::Rejected(number),
        out: Written::Short(rejected_text(number)),
        err: Written::Nothing,
    }
}

/// What is written of evidence that is accepted, by the verdicts that it says.
fn accepted_text(
    alloc: Global,
    rules: &RuleFile,
    verdicts: &[Verdict],
) -> Result<Vec<u8>, AllocError>
    requires { length verdicts.now ≡ length (reported_names (file_of rules.now)) }
    ensures { IfOk result (λ text. text.items ≡ accepted_text (file_of rules.now) verdicts.now) }
{
    let mut text = CleanSink {
        bytes: Vec::from_slice(alloc, b"accepted\n")?,
    };
    match write_rules(alloc, rules, verdicts, &mut text) {
        Ok(()) => Ok(text.bytes),
        // The sink in memory has no faults.
        Err(ReportFault::Failed) => unreachable!(),
        Err(ReportFault::Memory) => Err(AllocError),
    }
}
