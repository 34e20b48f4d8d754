//! Rules are loaded and read, and what is read beside them is loaded; a template becomes the inputs of a judgement.
ghost use Rattle.std.specs.Prelude.{◌≡◌, ◌≤◌, ◌<◌, ◌^◌, ℕ, List, IfOk, MatchResult, string_bytes};
ghost use Rattle.doc_values.specs.Limits.{template_limit};
ghost use Rattle.doc_values.specs.Tree.{size};
ghost use Rattle.guard_ends.specs.Inputs.{RefusesData};
ghost use Rattle.guard_ends.specs.Order.{LoadingTexts, Refusing};
ghost use Rattle.guard_inputs.specs.code.Inputs.{AreAlone, AreLoaded};
ghost use Rattle.guard_inputs.specs.code.Loading.{RefusesText, limit_of};
ghost use Rattle.guard_inputs.specs.code.Stops.{IsNotRead, IsStop, NoneRose, Rose};

use crate::inputs::{Inputs, Sources};
use crate::load::load_data;
use crate::rules::load_rules;
use crate::stop::Stop;
use crate::tree::read_tree;
use guard_ends::Which;
use guard_io::Files;
use report_text::Texts;
use std::alloc::Global;

/// Loads rules and reads them, and loads the file of this name that is read beside them.
pub fn load_sources<F: Files>(
    alloc: Global,
    rules: &str,
    beside: Which,
    name: &str,
    files: &mut F,
) -> Result<Sources, Stop>
    requires { limit_of beside ≡ template_limit }
    ensures loaded { MatchResult result
        (AreLoaded (F.content files.old) rules.now name.now)
        (IsStop (LoadingTexts beside (F.content files.old) rules.now name.now (λ source read. Refusing (RefusesText beside)))
        (Rose (F.faults files.old) (F.faults files.new)) NoneRose) }
    ensures contents { (other : List ℕ) → F.content files.new other ≡ F.content files.old other }
    ensures kept { (other : List ℕ) → F.faults files.old other ≤ F.faults files.new other }
{
    let rules = load_rules(alloc, rules, files)?;
    let beside = load_data(alloc, beside, name, files)?;
    Ok(Sources { rules, beside })
}

/// Reads the template of sources: the inputs without parameters.
pub fn read_template(alloc: Global, sources: &Sources) -> Result<Inputs<'_>, Stop>
    ensures read { MatchResult result (AreAlone sources.entry.now)
        (IsNotRead (RefusesData Which.Template sources.entry.now.beside.format) (string_bytes sources.entry.now.beside.text)) }
    ensures small { IfOk result (λ inputs. size inputs.tree < 2 ^ 31) }
{
    let template = sources.beside.text.as_str();
    let tree = read_tree(alloc, Which::Template, sources.beside.format, template)?;
    Ok(Inputs {
        rules: &sources.rules.file,
        tree,
        texts: Texts {
            rules: sources.rules.text.as_str(),
            template,
            params: None,
        },
    })
}
