//! `drill`: a template that is made is judged by rules that are always the same. No file is loaded, and no pattern is made.
ghost use Rattle.std.specs.Prelude.{◌≤◌, MatchResult};
ghost use Rattle.guard_ends.specs.Drill.{drill_report, drill_rules};
ghost use Rattle.guard_ends.specs.Inputs.{RefusesRules};
ghost use Rattle.guard_ends.specs.Order.{Alone, Ending, IsJudged, OfDrill};
ghost use Rattle.guard_inputs.specs.code.Inputs.{inputs_of};
ghost use Rattle.guard_inputs.specs.code.Stops.{IsNotRead};
ghost use Rattle.guard_run.specs.code.Drilled.{AreOfDrill};
ghost use Rattle.guard_run.specs.code.Outcome.{IsOutcomeAt};
ghost use Rattle.guard_run.specs.code.Stages.{ReadingSources, WithPatterns};

use crate::done::Done;
use crate::report::Form;
use crate::validate::report_on;
use guard_drill::{DRILL_RULES, drill_template};
use guard_ends::Format;
use guard_inputs::{
    DataText, Inputs, Ready, Sources, Stop, make_patterns, read_rules, read_template,
};
use std::alloc::Global;
use value_compare::{Pattern, PatternFault, PatternMaker};

/// Makes no pattern: it is not asked for one, since the rules of a drill have none.
#[derive(Drop)]
struct Unasked;

impl PatternMaker for Unasked {
    ghost faults = { λ maker text. 0 };

    fn make(&mut self, _alloc: Global, _text: &str) -> Result<Pattern, PatternFault> {
        Err(PatternFault::Memory)
    }
}

/// Judges the template of a drill of so many resources by the rules of a drill.
pub(crate) fn run_drill(alloc: Global, count: u32) -> Result<Done, Stop>
    requires { count ≤ 100000 }
    ensures { IsOutcomeAt (OfDrill count) result }
{
    let sources = drill_sources(alloc, count)?;
    judge_sources(alloc, &sources, count)
}

/// Judges the template of sources by their rules, and reports on it as on a drill of so many resources.
fn judge_sources(alloc: Global, sources: &Sources, count: u32) -> Result<Done, Stop>
    ensures { IsOutcomeAt (ReadingSources sources.now Alone (λ inputs. Ending (IsJudged (drill_report count) inputs))) result }
{
    let inputs = read_template(alloc, sources)?;
    judge_inputs(alloc, &inputs, count)
}

/// Judges inputs, and reports on them as on a drill of so many resources.
fn judge_inputs(alloc: Global, inputs: &Inputs<'_>, count: u32) -> Result<Done, Stop>
    ensures { IsOutcomeAt (WithPatterns (λ inputs. Ending (IsJudged (drill_report count) inputs)) (inputs_of inputs.now)) result }
{
    let book = make_patterns(alloc, inputs.rules, inputs.texts.rules, &mut Unasked)?;
    let ready = Ready { inputs, book };
    report_on(alloc, &ready, Form::Drill { count })
}

/// The rules of a drill, and the text of its template.
fn drill_sources(alloc: Global, count: u32) -> Result<Sources, Stop>
    requires { count ≤ 100000 }
    ensures { MatchResult result (AreOfDrill count) (IsNotRead RefusesRules drill_rules) }
{
    let source = String::from_str(alloc, DRILL_RULES)?;
    let rules = read_rules(alloc, source)?;
    let template = drill_template(alloc, count)?;
    Ok(Sources {
        rules,
        beside: DataText {
            text: template,
            format: Format::Json,
        },
    })
}
