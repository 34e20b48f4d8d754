//! `rulegen`: a template is loaded and read, and out takes the rules that are generated of it.
ghost use Rattle.std.specs.Prelude.{◌≡◌, ◌≤◌, ℕ, List, string_bytes};
ghost use Rattle.guard_ends.specs.Inputs.{AreGenerated, RefusesGenerated};
ghost use Rattle.guard_ends.specs.Order.{Ending, Generating, OfTemplate, Reading, written};
ghost use Rattle.guard_inputs.specs.code.Stops.{NoneRose, Rose};
ghost use Rattle.guard_run.specs.code.Outcome.{IsOutcome, IsOutcomeAt};

use crate::done::Done;
use crate::passed::passed;
use doc_values::Doc;
use guard_ends::Which;
use guard_inputs::{DataText, Stop, load_data, read_tree, text_too_long};
use guard_io::Files;
use rule_generator::{GenerateRefusal, generate};
use std::alloc::Global;

/// Generates rules of the template of a name.
pub(crate) fn run_rulegen<F: Files>(
    alloc: Global,
    template: &str,
    files: &mut F,
) -> Result<Done, Stop>
    ensures outcome { IsOutcome (OfTemplate (F.content files.old) template.now) (Rose (F.faults files.old) (F.faults files.new)) NoneRose result }
    ensures contents { (other : List ℕ) → F.content files.new other ≡ F.content files.old other }
    ensures kept { (other : List ℕ) → F.faults files.old other ≤ F.faults files.new other }
{
    let text = load_data(alloc, Which::Template, template, files)?;
    generate_of(alloc, &text)
}

/// Generates rules of the text of a template.
fn generate_of(alloc: Global, template: &DataText) -> Result<Done, Stop>
    ensures { IsOutcomeAt (Generating template.now.format (string_bytes template.now.text)) result }
{
    let tree = read_tree(
        alloc,
        Which::Template,
        template.format,
        template.text.as_str(),
    )?;
    write_generated(alloc, &tree)
}

/// Generates rules of a tree, and writes their text.
fn write_generated(alloc: Global, tree: &Doc<'_>) -> Result<Done, Stop>
    ensures { (bytes : List ℕ) → IsOutcomeAt (Reading (λ _. RefusesGenerated tree.now) (λ _. AreGenerated tree.now) bytes
        (λ text. Ending (λ e. e ≡ written text))) result }
{
    match generate(alloc, tree) {
        Ok(text) => Ok(passed(text)),
        Err(GenerateRefusal::TooLong) => Err(Stop::Refused(text_too_long())),
        Err(GenerateRefusal::NoMemory) => Err(Stop::Memory),
    }
}
