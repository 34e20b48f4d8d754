//! `validate --evidence`: inputs are judged, and the evidence of it is what out takes; the report goes to err.
ghost use Rattle.std.specs.Prelude.{◌≡◌, All, IfOk, if◌then◌else◌};
ghost use Rattle.evidence_lines.specs.Shapes.{HasShape};
ghost use Rattle.evidence_lines.specs.declared.version.Version.TheVariants.{Two};
ghost use Rattle.evidence_text.specs.Text.{IsEvidence};
ghost use Rattle.rule_names.specs.code.Files.{file_of};
ghost use Rattle.value_store.specs.code.Stores.{see_store};
ghost use Rattle.evidence_rules.specs.Follows.{Accepts};
ghost use Rattle.evidence_rules.specs.Lean.{IsLean};
ghost use Rattle.rule_calls.specs.code.Ends.{AreOfEngine};
ghost use Rattle.guard_ends.specs.Order.{Ending, IsJudgedBy};
ghost use Rattle.guard_ends.specs.Report.{report};
ghost use Rattle.guard_inputs.specs.code.Inputs.{inputs_of};
ghost use Rattle.guard_inputs.specs.code.Refusals.{bytes_of};
ghost use Rattle.guard_run.specs.code.Outcome.{IsOutcomeAt};

use crate::done::Done;
use crate::report::{Form, Judgement, judgement_of};
use evidence_lines::Evidence;
use evidence_text::print_line;
use guard_ends::End;
use guard_inputs::{Ready, Stop, Written};
use query_steps::one_answer_over_locations;
use rule_calls::{Evaluation, evaluate};
use std::alloc::{AllocError, Global};

/// Judges inputs, and gives the evidence and the report.
pub(crate) fn report_with_evidence(alloc: Global, ready: &Ready<'_, '_>) -> Result<Done, Stop>
    ensures { IsOutcomeAt (Ending (IsJudgedBy report (inputs_of ready.now.inputs.now))) result }
{
    let inputs = ready.inputs;
    let evaluation = evaluate(alloc, inputs.rules, &inputs.tree, &ready.book)?;
    evidence_with_report(alloc, ready, &evaluation)
}

/// The evidence and the report, by the evaluation of the rules.
fn evidence_with_report(
    alloc: Global,
    ready: &Ready<'_, '_>,
    evaluation: &Evaluation<'_, '_>,
) -> Result<Done, Stop>
    requires accepted { Accepts Two ready.now.inputs.now.tree (file_of ready.now.inputs.now.rules.now) evaluation.now.evidence.lines }
    requires lean { IsLean evaluation.now.evidence.lines }
    requires template { (see_store evaluation.now.store).template ≡ ready.now.inputs.now.tree }
    requires file { (see_store evaluation.now.store).file ≡ file_of ready.now.inputs.now.rules.now }
    requires whole { AreOfEngine (see_store evaluation.now.store) evaluation.now.evidence.lines }
    ensures { IsOutcomeAt (Ending (IsJudgedBy report (inputs_of ready.now.inputs.now))) result }
{
    one_answer_over_locations();
    let judgement = judgement_of(alloc, ready, evaluation, Form::Entries)?;
    let evidence = evidence_text(alloc, &evaluation.evidence)?;
    Ok(done_with(judgement, evidence))
}

/// What is done where inputs were judged and there is evidence of it: the end is a failure if a reported verdict is FAIL.
fn done_with(judgement: Judgement, evidence: Vec<u8>) -> Done
    ensures how { result.how ≡ if judgement.failed then End.Failed else End.Passed }
    ensures out { bytes_of result.out ≡ evidence.items }
    ensures err { bytes_of result.err ≡ judgement.report.items }
{
    let Judgement { failed, report } = judgement;
    let how = if failed { End::Failed } else { End::Passed };
    Done {
        how,
        out: Written::Long(evidence),
        err: Written::Long(report),
    }
}

/// The text of evidence whose lines have the fields of their kinds.
fn evidence_text(alloc: Global, evidence: &Evidence) -> Result<Vec<u8>, AllocError>
    requires { All HasShape evidence.now.lines }
    ensures { IfOk result (λ text. IsEvidence text.items evidence.now.version evidence.now.lines) }
{
    let mut text = Vec::from_slice(alloc, evidence.version().header().as_bytes())?;
    for before in 0..evidence.len() {
        let Some(line) = evidence.get(before + 1) else {
            // Each of these numbers has its line.
            unreachable!()
        };
        print_line(alloc, &line, &mut text)?;
    }
    Ok(text)
}
