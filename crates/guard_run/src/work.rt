//! The work of a call before anything is written: the words, and then the command that they ask for.
ghost use Rattle.std.specs.Prelude.{◌≡◌, ◌≤◌, ℕ, List, map, string_bytes};
ghost use Rattle.guard_words.specs.Request.{asked, drill};
ghost use Rattle.guard_ends.specs.Order.{ComesTo, WorkOf};
ghost use Rattle.guard_run.specs.code.Outcome.{IsOutcomeBy};

use crate::done::Done;
use crate::drill::run_drill;
use crate::job::{Job, Task, judging, name_in};
use crate::over_files::run_over_files;
use crate::parse_tree::run_parse_tree;
use crate::rulegen::run_rulegen;
use crate::test::run_tests;
use guard_inputs::Stop;
use guard_io::Files;
use guard_words::{Request, WordsRefusal, read_words};
use std::alloc::Global;
use value_compare::PatternMaker;

/// What comes of the words.
pub(crate) fn outcome_of<F: Files, M: PatternMaker>(
    alloc: Global,
    words: &[String],
    files: &mut F,
    maker: &mut M,
) -> Result<Done, Stop>
    ensures outcome { IsOutcomeBy (ComesTo (map string_bytes words.now) (F.content files.old))
        (record { files = F.faults files.old; patterns = M.faults maker.old })
        (record { files = F.faults files.new; patterns = M.faults maker.new }) result }
    ensures contents { (other : List ℕ) → F.content files.new other ≡ F.content files.old other }
    ensures kept { (other : List ℕ) → F.faults files.old other ≤ F.faults files.new other }
    ensures maker_kept { (text : List ℕ) → M.faults maker.old text ≤ M.faults maker.new text }
{
    match read_words(alloc, words) {
        Ok(request) => run(alloc, &request, files, maker),
        Err(WordsRefusal::Usage) => Err(Stop::Usage),
        Err(WordsRefusal::NoMemory) => Err(Stop::Memory),
    }
}

/// What comes of a request, an arm for each command.
fn run<F: Files, M: PatternMaker>(
    alloc: Global,
    request: &Request,
    files: &mut F,
    maker: &mut M,
) -> Result<Done, Stop>
    requires { (count : ℕ) → asked request.now ≡ drill count → count ≤ 100000 }
    ensures outcome { IsOutcomeBy (WorkOf (asked request.now) (F.content files.old))
        (record { files = F.faults files.old; patterns = M.faults maker.old })
        (record { files = F.faults files.new; patterns = M.faults maker.new }) result }
    ensures contents { (other : List ℕ) → F.content files.new other ≡ F.content files.old other }
    ensures kept { (other : List ℕ) → F.faults files.old other ≤ F.faults files.new other }
    ensures maker_kept { (text : List ℕ) → M.faults maker.old text ≤ M.faults maker.new text }
{
    match request {
        Request::Validate {
            rules,
            template,
            params,
            evidence,
        } => {
            let job = Job {
                rules: rules.as_str(),
                template: template.as_str(),
                params: name_in(params),
                task: judging(*evidence),
            };
            run_over_files(alloc, &job, files, maker)
        }
        Request::Check {
            rules,
            template,
            params,
            proof,
        } => {
            let job = Job {
                rules: rules.as_str(),
                template: template.as_str(),
                params: name_in(params),
                task: Task::Check {
                    proof: proof.as_str(),
                },
            };
            run_over_files(alloc, &job, files, maker)
        }
        Request::Drill { count } => run_drill(alloc, *count),
        Request::Test { rules, tests } => {
            run_tests(alloc, rules.as_str(), tests.as_str(), files, maker)
        }
        Request::Rulegen { template } => run_rulegen(alloc, template.as_str(), files),
        Request::Tree { rules } => run_parse_tree(alloc, rules.as_str(), files),
    }
}
