//! Inputs are judged, and the report is made: `validate`, and a drill.
ghost use Rattle.std.specs.Prelude.{◌≡◌, [], if◌then◌else◌};
ghost use Rattle.guard_ends.specs.Order.{Ending, IsJudged};
ghost use Rattle.guard_inputs.specs.code.Inputs.{inputs_of};
ghost use Rattle.guard_inputs.specs.code.Refusals.{bytes_of};
ghost use Rattle.guard_run.specs.code.Forms.{report_in};
ghost use Rattle.guard_run.specs.code.Outcome.{IsOutcomeAt};

use crate::done::Done;
use crate::report::{Form, Judgement, judge};
use guard_ends::End;
use guard_inputs::{Ready, Stop, Written};
use query_steps::one_answer_over_locations;
use std::alloc::Global;

/// Judges inputs, and reports on them in a form.
pub(crate) fn report_on(alloc: Global, ready: &Ready<'_, '_>, form: Form) -> Result<Done, Stop>
    ensures { IsOutcomeAt (Ending (IsJudged (report_in form) (inputs_of ready.now.inputs.now))) result }
{
    one_answer_over_locations();
    let judgement = judge(alloc, ready, form)?;
    Ok(done_by(judgement))
}

/// What is done where inputs were judged: the end is a failure if a reported verdict is FAIL.
fn done_by(judgement: Judgement) -> Done
    ensures how { result.how ≡ if judgement.failed then End.Failed else End.Passed }
    ensures out { bytes_of result.out ≡ judgement.report.items }
    ensures err { bytes_of result.err ≡ [] }
{
    let Judgement { failed, report } = judgement;
    let how = if failed { End::Failed } else { End::Passed };
    Done {
        how,
        out: Written::Long(report),
        err: Written::Nothing,
    }
}
