//! What is asked for over files: they are loaded and read, stage after stage, and then it is done.
ghost use Rattle.std.specs.Prelude.{◌≡◌, ◌≤◌, ◌<◌, ◌^◌, ℕ, List, None};
ghost use Rattle.doc_values.specs.Tree.{size};
ghost use Rattle.guard_ends.specs.Order.{WithParams};
ghost use Rattle.guard_inputs.specs.code.Inputs.{inputs_of};
ghost use Rattle.guard_inputs.specs.code.Joined.{name_in};
ghost use Rattle.guard_inputs.specs.code.Stops.{NoneRose, Rose};
ghost use Rattle.guard_run.specs.code.Jobs.{Doing, WorkOfJob};
ghost use Rattle.guard_run.specs.code.Outcome.{IsOutcome, IsOutcomeBy};
ghost use Rattle.guard_run.specs.code.Stages.{JoiningInputs, ReadingSources, WithPatterns};

use crate::check::check_evidence;
use crate::done::Done;
use crate::evidence::report_with_evidence;
use crate::job::{Job, Task};
use crate::report::Form;
use crate::validate::report_on;
use guard_ends::Which;
use guard_inputs::{
    Inputs, Ready, Sources, Stop, join, load_params, load_sources, make_patterns, read_template,
};
use guard_io::Files;
use std::alloc::Global;
use value_compare::PatternMaker;

/// Does a job.
pub(crate) fn run_over_files<F: Files, M: PatternMaker>(
    alloc: Global,
    job: &Job<'_>,
    files: &mut F,
    maker: &mut M,
) -> Result<Done, Stop>
    ensures outcome { IsOutcomeBy (WorkOfJob job.now (F.content files.old))
        (record { files = F.faults files.old; patterns = M.faults maker.old })
        (record { files = F.faults files.new; patterns = M.faults maker.new }) result }
    ensures contents { (other : List ℕ) → F.content files.new other ≡ F.content files.old other }
    ensures kept { (other : List ℕ) → F.faults files.old other ≤ F.faults files.new other }
    ensures maker_kept { (text : List ℕ) → M.faults maker.old text ≤ M.faults maker.new text }
{
    let sources = load_sources(alloc, job.rules, Which::Template, job.template, files)?;
    run_over_sources(alloc, &sources, job, files, maker)
}

/// Does a job over its rules and the text of its template.
fn run_over_sources<F: Files, M: PatternMaker>(
    alloc: Global,
    sources: &Sources,
    job: &Job<'_>,
    files: &mut F,
    maker: &mut M,
) -> Result<Done, Stop>
    ensures outcome { IsOutcome (ReadingSources sources.now (WithParams (F.content files.old) (name_in job.now.params)) (Doing job.now.task (F.content files.old)))
        (Rose (F.faults files.old) (F.faults files.new)) (Rose (M.faults maker.old) (M.faults maker.new)) result }
    ensures contents { (other : List ℕ) → F.content files.new other ≡ F.content files.old other }
    ensures kept { (other : List ℕ) → F.faults files.old other ≤ F.faults files.new other }
    ensures maker_kept { (text : List ℕ) → M.faults maker.old text ≤ M.faults maker.new text }
{
    let template = read_template(alloc, sources)?;
    run_over_template(alloc, template, job, files, maker)
}

/// Does a job over its rules and its template.
fn run_over_template<F: Files, M: PatternMaker>(
    alloc: Global,
    template: Inputs<'_>,
    job: &Job<'_>,
    files: &mut F,
    maker: &mut M,
) -> Result<Done, Stop>
    requires alone { (inputs_of template).texts.params ≡ None }
    requires small { size template.tree < 2 ^ 31 }
    ensures outcome { IsOutcome (JoiningInputs (WithParams (F.content files.old) (name_in job.now.params)) (inputs_of template.entry) (Doing job.now.task (F.content files.old)))
        (Rose (F.faults files.old) (F.faults files.new)) (Rose (M.faults maker.old) (M.faults maker.new)) result }
    ensures contents { (other : List ℕ) → F.content files.new other ≡ F.content files.old other }
    ensures kept { (other : List ℕ) → F.faults files.old other ≤ F.faults files.new other }
    ensures maker_kept { (text : List ℕ) → M.faults maker.old text ≤ M.faults maker.new text }
{
    let params = load_params(alloc, job.params, files)?;
    let inputs = join(alloc, template, &params)?;
    run_over_inputs(alloc, &inputs, &job.task, files, maker)
}

/// Does a task over inputs, whose patterns are made.
fn run_over_inputs<F: Files, M: PatternMaker>(
    alloc: Global,
    inputs: &Inputs<'_>,
    task: &Task<'_>,
    files: &mut F,
    maker: &mut M,
) -> Result<Done, Stop>
    ensures outcome { IsOutcome (WithPatterns (Doing task.now (F.content files.old)) (inputs_of inputs.now))
        (Rose (F.faults files.old) (F.faults files.new)) (Rose (M.faults maker.old) (M.faults maker.new)) result }
    ensures contents { (other : List ℕ) → F.content files.new other ≡ F.content files.old other }
    ensures kept { (other : List ℕ) → F.faults files.old other ≤ F.faults files.new other }
    ensures maker_kept { (text : List ℕ) → M.faults maker.old text ≤ M.faults maker.new text }
{
    let book = make_patterns(alloc, inputs.rules, inputs.texts.rules, maker)?;
    let ready = Ready { inputs, book };
    run_task(alloc, &ready, task, files)
}

/// Does a task, an arm for each.
fn run_task<F: Files>(
    alloc: Global,
    ready: &Ready<'_, '_>,
    task: &Task<'_>,
    files: &mut F,
) -> Result<Done, Stop>
    ensures outcome { IsOutcome (Doing task.now (F.content files.old) (inputs_of ready.now.inputs.now))
        (Rose (F.faults files.old) (F.faults files.new)) NoneRose result }
    ensures contents { (other : List ℕ) → F.content files.new other ≡ F.content files.old other }
    ensures kept { (other : List ℕ) → F.faults files.old other ≤ F.faults files.new other }
{
    match task {
        Task::Report => report_on(alloc, ready, Form::Entries),
        Task::Evidence => report_with_evidence(alloc, ready),
        Task::Check { proof } => check_evidence(alloc, ready, proof, files),
    }
}
