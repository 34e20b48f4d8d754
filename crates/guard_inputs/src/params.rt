//! Parameters: where they are asked for they are loaded, read, and merged into the template.
ghost use Rattle.std.specs.Prelude.{◌≡◌, ◌≤◌, ◌<◌, ◌^◌, ℕ, List, MatchResult, false, length};
ghost use Rattle.doc_values.specs.Limits.{template_limit};
ghost use Rattle.doc_values.specs.Tree.{Forest, size};
ghost use Rattle.rule_meaning.specs.Values.{has_pattern};
ghost use Rattle.guard_ends.specs.Order.{Merging};
ghost use Rattle.guard_inputs.specs.code.Inputs.{inputs_of};
ghost use Rattle.guard_inputs.specs.code.Joined.{AreJoined, AreMerged, AreParams, IsJoinedWith, JoiningParams, LoadingParams, Nowhere, ReadingParams, WithLoaded, name_in};
ghost use Rattle.guard_inputs.specs.code.Merging.{IsMergeRefused};
ghost use Rattle.guard_inputs.specs.code.Stops.{IsStop, NoneRose, Rose};

use crate::inputs::{DataText, Inputs};
use crate::load::load_data;
use crate::merge::merge_docs;
use crate::refused::data_at;
use crate::stop::Stop;
use crate::tree::read_tree;
use doc_values::{Doc, MergeRefusal};
use guard_ends::{RefusalKind, Which};
use guard_io::Files;
use report_text::{Params, Texts};
use std::alloc::Global;

/// Loads the parameters of this name, if there is one.
pub fn load_params<F: Files>(
    alloc: Global,
    name: Option<&str>,
    files: &mut F,
) -> Result<Option<DataText>, Stop>
    ensures loaded { MatchResult result (AreParams (F.content files.old) (name_in name.entry))
        (IsStop (LoadingParams (F.content files.old) (name_in name.entry)) (Rose (F.faults files.old) (F.faults files.new)) NoneRose) }
    ensures contents { (other : List ℕ) → F.content files.new other ≡ F.content files.old other }
    ensures kept { (other : List ℕ) → F.faults files.old other ≤ F.faults files.new other }
{
    let Some(name) = name else {
        return Ok(None);
    };
    let params = load_data(alloc, Which::Params, name, files)?;
    Ok(Some(params))
}

/// Reads the parameters, if there are some, and merges them into the template.
pub fn join<'t>(
    alloc: Global,
    template: Inputs<'t>,
    params: &'t Option<DataText>,
) -> Result<Inputs<'t>, Stop>
    requires { size template.tree < 2 ^ 31 }
    ensures { MatchResult result (AreJoined params.entry.now (inputs_of template.entry))
        (IsStop (JoiningParams (WithLoaded params.entry.now) (inputs_of template.entry) Nowhere) NoneRose NoneRose) }
{
    match params {
        None => Ok(template),
        Some(params) => join_params(alloc, template, params),
    }
}

/// Reads parameters, and merges them into the template.
fn join_params<'t>(
    alloc: Global,
    template: Inputs<'t>,
    params: &'t DataText,
) -> Result<Inputs<'t>, Stop>
    requires { size template.tree < 2 ^ 31 }
    ensures { MatchResult result (IsJoinedWith params.entry.now (inputs_of template.entry))
        (IsStop (JoiningParams (ReadingParams params.entry.now) (inputs_of template.entry) Nowhere) NoneRose NoneRose) }
{
    let text = params.text.as_str();
    let tree = read_tree(alloc, Which::Params, params.format, text)?;
    merge_params(template, tree, text)
}

/// Merges parameters of this text and this tree into the template.
fn merge_params<'t>(template: Inputs<'t>, tree: Doc<'t>, text: &'t str) -> Result<Inputs<'t>, Stop>
    requires short { length text.now ≤ template_limit }
    requires plain { has_pattern tree ≡ false }
    requires first { size template.tree < 2 ^ 31 }
    requires second { size tree < 2 ^ 31 }
    ensures { MatchResult result (AreMerged text.entry.now tree.entry (inputs_of template.entry))
        (IsStop (JoiningParams (Merging text.entry.now tree.entry) (inputs_of template.entry) Nowhere) NoneRose NoneRose) }
{
    let Inputs {
        rules,
        tree: first,
        texts,
    } = template;
    let nodes = first.len();
    match merge_docs(first, tree) {
        Ok(tree) => Ok(Inputs {
            rules,
            tree,
            texts: Texts {
                rules: texts.rules,
                template: texts.template,
                params: Some(Params { text, first: nodes }),
            },
        }),
        Err(refusal) => Err(not_merged(refusal, texts.template, text)),
    }
}

/// What stops the work where a template and parameters of these texts are not merged.
fn not_merged(refusal: MergeRefusal, template: &str, params: &str) -> Stop
    requires template { length template.now ≤ template_limit }
    requires params { length params.now ≤ template_limit }
    ensures { (first second : Forest) → IsMergeRefused first second refusal
        → IsStop (Merging params.now second template.now first Nowhere) NoneRose NoneRose result }
{
    match refusal {
        MergeRefusal::FirstNotMap(at) => {
            Stop::Refused(data_at(Which::Template, RefusalKind::NotAMap, at, template))
        }
        MergeRefusal::SecondNotMap(at) => {
            Stop::Refused(data_at(Which::Params, RefusalKind::NotAMap, at, params))
        }
        MergeRefusal::SharedKey(at) => {
            Stop::Refused(data_at(Which::Params, RefusalKind::SharedKey, at, params))
        }
        MergeRefusal::NoMemory => Stop::Memory,
    }
}
