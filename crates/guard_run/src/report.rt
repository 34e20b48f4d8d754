//! Inputs are judged: the rules are evaluated over the data tree, and the report is made of the evidence.
ghost use Rattle.std.specs.Prelude.{◌≡◌, IfOk};
ghost use Rattle.std.specs.List.{list_any};
ghost use Rattle.evidence_lines.specs.declared.version.Version.TheVariants.{Two};
ghost use Rattle.rule_names.specs.code.Files.{file_of};
ghost use Rattle.rule_meaning.specs.FunctionMeaning.{IsAnswering};
ghost use Rattle.rule_meaning.specs.Locations.{Answers};
ghost use Rattle.rule_meaning.specs.Seeing.{world_of};
ghost use Rattle.rule_meaning.specs.Verdicts.{is_fail};
ghost use Rattle.evidence_rules.specs.Follows.{Accepts};
ghost use Rattle.evidence_lookups.specs.code.Grounds.{known_of, lines_of};
ghost use Rattle.value_store.specs.code.Stores.{see_store};
ghost use Rattle.report_text.specs.Texts.{Texts};
ghost use Rattle.report_text.specs.code.SeenTexts.{see_lined, see_texts};
ghost use Rattle.evidence_report.specs.code.RuleEntries.{IsAccepted};
ghost use Rattle.rule_calls.specs.code.Ends.{AreOfEngine};
ghost use Rattle.guard_ends.specs.Drill.{drill_report};
ghost use Rattle.guard_ends.specs.Report as reports;
ghost use Rattle.guard_ends.specs.Reported.{verdicts_of, world_over};
ghost use Rattle.guard_run.specs.code.Forms.{report_in};

use evidence_lookups::line_context::LineContext;
use evidence_lookups::tables::FileTables;
use evidence_report::{verdicts_told, write_drill, write_report};
use guard_inputs::{Inputs, Ready};
use guard_io::CleanSink;
use guard_syntax::Verdict;
use report_text::{LinedTexts, ReportFault};
use rule_calls::{Evaluation, evaluate, judged_lines, line_context};
use std::alloc::{AllocError, Global};

/// What a report shows of what rules fail by.
#[derive(Clone, Copy)]
pub(crate) enum Form {
    /// A line for each entry, under the line of its verdict.
    Entries,
    /// How many entries there are, in a drill of so many resources.
    Drill { count: u32 },
}

/// Inputs that were judged.
#[derive(Drop)]
pub(crate) struct Judgement {
    /// Whether a reported verdict is FAIL.
    pub failed: bool,
    /// The text of the report.
    pub report: Vec<u8>,
}

/// Judges inputs, and makes the report on them in a form.
pub(crate) fn judge(
    alloc: Global,
    ready: &Ready<'_, '_>,
    form: Form,
) -> Result<Judgement, AllocError>
    ensures report { (answers : Answers) → IsAnswering (world_over (file_of ready.now.inputs.now.rules.now) ready.now.inputs.now.tree answers)
        → IfOk result (λ j. j.report.items ≡ report_in form (world_over (file_of ready.now.inputs.now.rules.now) ready.now.inputs.now.tree answers)
        (see_texts ready.now.inputs.now.texts)) }
    ensures failed { (answers : Answers) → IsAnswering (world_over (file_of ready.now.inputs.now.rules.now) ready.now.inputs.now.tree answers)
        → IfOk result (λ j. j.failed ≡ list_any is_fail (verdicts_of (world_over (file_of ready.now.inputs.now.rules.now) ready.now.inputs.now.tree answers))) }
{
    let inputs = ready.inputs;
    let evaluation = evaluate(alloc, inputs.rules, &inputs.tree, &ready.book)?;
    judgement_of(alloc, ready, &evaluation, form)
}

/// Judges inputs by the evaluation of their rules, and makes the report on them in a form.
pub(crate) fn judgement_of(
    alloc: Global,
    ready: &Ready<'_, '_>,
    evaluation: &Evaluation<'_, '_>,
    form: Form,
) -> Result<Judgement, AllocError>
    requires accepted { Accepts Two ready.now.inputs.now.tree (file_of ready.now.inputs.now.rules.now) evaluation.now.evidence.lines }
    requires template { (see_store evaluation.now.store).template ≡ ready.now.inputs.now.tree }
    requires file { (see_store evaluation.now.store).file ≡ file_of ready.now.inputs.now.rules.now }
    requires whole { AreOfEngine (see_store evaluation.now.store) evaluation.now.evidence.lines }
    ensures report { (answers : Answers) → IsAnswering (world_over (file_of ready.now.inputs.now.rules.now) ready.now.inputs.now.tree answers)
        → IfOk result (λ j. j.report.items ≡ report_in form (world_over (file_of ready.now.inputs.now.rules.now) ready.now.inputs.now.tree answers)
        (see_texts ready.now.inputs.now.texts)) }
    ensures failed { (answers : Answers) → IsAnswering (world_over (file_of ready.now.inputs.now.rules.now) ready.now.inputs.now.tree answers)
        → IfOk result (λ j. j.failed ≡ list_any is_fail (verdicts_of (world_over (file_of ready.now.inputs.now.rules.now) ready.now.inputs.now.tree answers))) }
{
    let inputs = ready.inputs;
    let tables = FileTables::new(alloc, evaluation.store.file)?;
    let judged = judged_lines(alloc, evaluation)?;
    let context = line_context(alloc, evaluation, &ready.book, &tables, &judged);
    judgement_by(alloc, &context, inputs, form)
}

/// Judges inputs by lines that were accepted, and makes the report on them in a form.
fn judgement_by(
    alloc: Global,
    context: &LineContext<'_, '_, '_>,
    inputs: &Inputs<'_>,
    form: Form,
) -> Result<Judgement, AllocError>
    requires { IsAccepted context.now.version (known_of context.now) (lines_of context.now) }
    ensures report { (answers : Answers) → IsAnswering (world_of (known_of context.now) answers)
        → IfOk result (λ j. j.report.items ≡ report_in form (world_of (known_of context.now) answers) (see_texts inputs.now.texts)) }
    ensures failed { (answers : Answers) → IsAnswering (world_of (known_of context.now) answers)
        → IfOk result (λ j. j.failed ≡ list_any is_fail (verdicts_of (world_of (known_of context.now) answers))) }
{
    let failed = is_failed(alloc, context)?;
    let report = report_by(alloc, context, inputs, form)?;
    Ok(Judgement { failed, report })
}

/// Whether a reported verdict is FAIL, by lines that were accepted.
fn is_failed(alloc: Global, context: &LineContext<'_, '_, '_>) -> Result<bool, AllocError>
    requires { IsAccepted context.now.version (known_of context.now) (lines_of context.now) }
    ensures { (answers : Answers) → IsAnswering (world_of (known_of context.now) answers)
        → IfOk result (λ failed. failed ≡ list_any is_fail (verdicts_of (world_of (known_of context.now) answers))) }
{
    let verdicts = verdicts_told(alloc, context)?;
    Ok(one_is_fail(&verdicts))
}

/// Whether one of the verdicts is FAIL.
fn one_is_fail(verdicts: &[Verdict]) -> bool
    ensures { result ≡ list_any is_fail verdicts.now }
{
    verdicts.iter().any(|verdict| is_fail(*verdict))
}

/// Whether a verdict is FAIL.
fn is_fail(verdict: Verdict) -> bool
    ensures { result ≡ is_fail verdict }
{
    match verdict {
        Verdict::Pass => false,
        Verdict::Fail => true,
        Verdict::Skip => false,
    }
}

/// The report in a form, by lines that were accepted.
fn report_by(
    alloc: Global,
    context: &LineContext<'_, '_, '_>,
    inputs: &Inputs<'_>,
    form: Form,
) -> Result<Vec<u8>, AllocError>
    requires { IsAccepted context.now.version (known_of context.now) (lines_of context.now) }
    ensures { (answers : Answers) → IsAnswering (world_of (known_of context.now) answers)
        → IfOk result (λ report. report.items ≡ report_in form (world_of (known_of context.now) answers) (see_texts inputs.now.texts)) }
{
    match form {
        Form::Entries => whole_report(alloc, context, inputs),
        Form::Drill { count } => drill_report(alloc, context, count),
    }
}

/// The report of `validate`. The lines of the texts are found once, and not anew for each entry.
fn whole_report(
    alloc: Global,
    context: &LineContext<'_, '_, '_>,
    inputs: &Inputs<'_>,
) -> Result<Vec<u8>, AllocError>
    requires { IsAccepted context.now.version (known_of context.now) (lines_of context.now) }
    ensures { (answers : Answers) → IsAnswering (world_of (known_of context.now) answers)
        → IfOk result (λ report. report.items ≡ reports.report (world_of (known_of context.now) answers) (see_texts inputs.now.texts)) }
{
    let texts = LinedTexts::new(alloc, &inputs.texts)?;
    report_over(alloc, context, &texts)
}

/// The report of `validate`, by these texts.
fn report_over(
    alloc: Global,
    context: &LineContext<'_, '_, '_>,
    texts: &LinedTexts<'_>,
) -> Result<Vec<u8>, AllocError>
    requires { IsAccepted context.now.version (known_of context.now) (lines_of context.now) }
    ensures { (answers : Answers) → IsAnswering (world_of (known_of context.now) answers)
        → IfOk result (λ report. report.items ≡ reports.report (world_of (known_of context.now) answers) (see_lined texts.now)) }
{
    let mut text = CleanSink {
        bytes: Vec::new(alloc),
    };
    match write_report(alloc, context, texts, &mut text) {
        Ok(_) => Ok(text.bytes),
        // The sink in memory has no faults.
        Err(ReportFault::Failed) => unreachable!(),
        Err(ReportFault::Memory) => Err(AllocError),
    }
}

/// The report of a drill of so many resources.
fn drill_report(
    alloc: Global,
    context: &LineContext<'_, '_, '_>,
    count: u32,
) -> Result<Vec<u8>, AllocError>
    requires { IsAccepted context.now.version (known_of context.now) (lines_of context.now) }
    ensures { (answers : Answers) → (texts : Texts) → IsAnswering (world_of (known_of context.now) answers)
        → IfOk result (λ report. report.items ≡ drill_report count (world_of (known_of context.now) answers) texts) }
{
    let mut text = CleanSink {
        bytes: Vec::new(alloc),
    };
    match write_drill(alloc, context, count, &mut text) {
        Ok(()) => Ok(text.bytes),
        // The sink in memory has no faults.
        Err(ReportFault::Failed) => unreachable!(),
        Err(ReportFault::Memory) => Err(AllocError),
    }
}
