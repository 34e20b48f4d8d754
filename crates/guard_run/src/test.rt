//! `test`: the cases of a tests file are judged by rules, each over its input, and out takes what differs from what they expect.
ghost use Rattle.std.specs.Prelude.{◌≡◌, ◌≤◌, ◌<◌, ℕ, List, IfOk, [], count_by};
ghost use Rattle.doc_values.specs.Places.{tree_at};
ghost use Rattle.doc_values.specs.Tree.{size};
ghost use Rattle.guard_testfile.specs.Texts.{Difference, is_wrong};
ghost use Rattle.guard_testfile.specs.code.Seen.{see_case};
ghost use Rattle.rule_meaning.specs.FunctionMeaning.{IsAnswering};
ghost use Rattle.rule_meaning.specs.Locations.{Answers};
ghost use Rattle.guard_ends.specs.Order.{Ending, IsTested, OfTests, how_tested};
ghost use Rattle.guard_ends.specs.Reported.{verdicts_of, world_over};
ghost use Rattle.guard_inputs.specs.code.Refusals.{bytes_of};
ghost use Rattle.guard_inputs.specs.code.Stops.{NoneRose, Rose};
ghost use Rattle.guard_inputs.specs.code.Tests.{cases_of, rules_of};
ghost use Rattle.guard_run.specs.code.Outcome.{IsOutcome, IsOutcomeAt, IsOutcomeBy};
ghost use Rattle.guard_run.specs.code.Tested.{AreSaid, IsSaid, Testing, TestingSources};

use crate::done::Done;
use crate::verdicts::verdicts_over;
use guard_ends::{End, Which};
use guard_inputs::{
    ReadyTests, Sources, Stop, Tests, Written, load_sources, make_patterns, read_tests,
};
use guard_io::{CleanSink, Files};
use guard_syntax::Verdict;
use guard_testfile::{Agreement, Case, JudgedCase, write_case, write_summary};
use query_steps::one_answer_over_locations;
use report_text::ReportFault;
use std::alloc::{AllocError, Global};
use value_compare::PatternMaker;

/// What is said of cases, and how many of them are wrong.
#[derive(Drop)]
struct Said {
    text: CleanSink,
    wrong: u64,
}

/// Tests the rules of a name by the tests of a name.
pub(crate) fn run_tests<F: Files, M: PatternMaker>(
    alloc: Global,
    rules: &str,
    tests: &str,
    files: &mut F,
    maker: &mut M,
) -> Result<Done, Stop>
    ensures outcome { IsOutcomeBy (OfTests (F.content files.old) rules.now tests.now)
        (record { files = F.faults files.old; patterns = M.faults maker.old })
        (record { files = F.faults files.new; patterns = M.faults maker.new }) result }
    ensures contents { (other : List ℕ) → F.content files.new other ≡ F.content files.old other }
    ensures kept { (other : List ℕ) → F.faults files.old other ≤ F.faults files.new other }
    ensures maker_kept { (text : List ℕ) → M.faults maker.old text ≤ M.faults maker.new text }
{
    let sources = load_sources(alloc, rules, Which::Tests, tests, files)?;
    test_sources(alloc, &sources, maker)
}

/// Tests the rules of sources by the tests beside them.
fn test_sources<M: PatternMaker>(
    alloc: Global,
    sources: &Sources,
    maker: &mut M,
) -> Result<Done, Stop>
    ensures outcome { IsOutcome (TestingSources sources.now) NoneRose (Rose (M.faults maker.old) (M.faults maker.new)) result }
    ensures maker_kept { (text : List ℕ) → M.faults maker.old text ≤ M.faults maker.new text }
{
    let tests = read_tests(alloc, sources)?;
    judge_tests(alloc, &tests, maker)
}

/// Makes the patterns of rules, and judges the cases of their tests.
fn judge_tests<M: PatternMaker>(
    alloc: Global,
    tests: &Tests<'_>,
    maker: &mut M,
) -> Result<Done, Stop>
    ensures outcome { IsOutcome (Testing tests.now) NoneRose (Rose (M.faults maker.old) (M.faults maker.new)) result }
    ensures maker_kept { (text : List ℕ) → M.faults maker.old text ≤ M.faults maker.new text }
{
    let rules = tests.rules;
    let book = make_patterns(alloc, &rules.file, rules.text.as_str(), maker)?;
    let ready = ReadyTests { tests, book };
    say_tests(alloc, &ready)
}

/// Judges all cases. What is said of them ends with how many there are, and how many of them are wrong.
fn say_tests(alloc: Global, ready: &ReadyTests<'_, '_>) -> Result<Done, Stop>
    ensures { IsOutcomeAt (Ending (IsTested (rules_of ready.now.tests.now) ready.now.tests.now.tree (cases_of ready.now.tests.now))) result }
{
    let Said { mut text, wrong } = say_cases(alloc, ready)?;
    match write_summary(alloc, ready.tests.cases.len() as u64, wrong, &mut text) {
        Ok(()) => Ok(done_by(text.bytes, wrong)),
        // The sink in memory has no faults.
        Err(ReportFault::Failed) => unreachable!(),
        Err(ReportFault::Memory) => Err(Stop::Memory),
    }
}

/// What is done where so many cases are wrong: the end is a failure if one is.
fn done_by(text: Vec<u8>, wrong: u64) -> Done
    ensures how { (found : List (List Difference)) → wrong ≡ count_by is_wrong found → result.how ≡ how_tested found }
    ensures out { bytes_of result.out ≡ text.items }
    ensures err { bytes_of result.err ≡ [] }
{
    let how = if wrong == 0 { End::Passed } else { End::Failed };
    Done {
        how,
        out: Written::Long(text),
        err: Written::Nothing,
    }
}

/// Judges the cases one after another, and says of each what differs.
fn say_cases(alloc: Global, ready: &ReadyTests<'_, '_>) -> Result<Said, AllocError>
    ensures { IfOk result (λ said. AreSaid (rules_of ready.now.tests.now) ready.now.tests.now.tree (cases_of ready.now.tests.now) said.text.bytes.items said.wrong) }
{
    let cases = ready.tests.cases.as_slice();
    let mut text = CleanSink {
        bytes: Vec::new(alloc),
    };
    let mut wrong = 0;
    for i in 0..cases.len() {
        if say_case(alloc, ready, &cases[i], i as u64 + 1, &mut text)? {
            wrong += 1;
        }
    }
    Ok(Said { text, wrong })
}

/// Judges the case of a number, and says of it what differs. Answers whether something does.
fn say_case(
    alloc: Global,
    ready: &ReadyTests<'_, '_>,
    case: &Case,
    number: u64,
    text: &mut CleanSink,
) -> Result<bool, AllocError>
    requires { case.now.input < size ready.now.tests.now.tree }
    ensures { IfOk result (IsSaid (rules_of ready.now.tests.now) ready.now.tests.now.tree
        (see_case (rules_of ready.now.tests.now) case.now) number text.old.bytes.items text.new.bytes.items) }
{
    one_answer_over_locations();
    let got = verdicts_at(alloc, ready, case.input)?;
    let judged = JudgedCase {
        number,
        case,
        got: &got,
    };
    match write_case(alloc, &ready.tests.rules.file, judged, text) {
        Ok(Agreement::AsExpected) => Ok(false),
        Ok(Agreement::Different) => Ok(true),
        // The sink in memory has no faults.
        Err(ReportFault::Failed) => unreachable!(),
        Err(ReportFault::Memory) => Err(AllocError),
    }
}

/// The verdicts over the input with a number. It is copied, and the copy is gone behind it.
fn verdicts_at(
    alloc: Global,
    ready: &ReadyTests<'_, '_>,
    input: u32,
) -> Result<Vec<Verdict>, AllocError>
    requires { input < size ready.now.tests.now.tree }
    ensures { (answers : Answers) → IsAnswering (world_over (rules_of ready.now.tests.now) (tree_at ready.now.tests.now.tree input) answers)
        → IfOk result (λ verdicts. verdicts.items ≡ verdicts_of (world_over (rules_of ready.now.tests.now) (tree_at ready.now.tests.now.tree input) answers)) }
{
    let tree = ready.tests.tree.cursor(input).copy()?;
    verdicts_over(alloc, &ready.tests.rules.file, &tree, &ready.book)
}
