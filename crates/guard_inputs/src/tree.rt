//! Templates, parameters and tests, which are read in the format that is asked for.
ghost use Rattle.std.specs.Prelude.{◌≤◌, ◌<◌, ◌^◌, IfOk, MatchResult, length};
ghost use Rattle.doc_values.specs.Limits.{template_limit};
ghost use Rattle.doc_values.specs.Tree.{size};
ghost use Rattle.guard_ends.specs.Inputs.{IsTemplate, RefusesData};
ghost use Rattle.guard_inputs.specs.code.Stops.{IsNotRead};

use crate::refused::{json_kind, yaml_refused};
use crate::stop::{Stop, unread_at};
use doc_values::Doc;
use guard_ends::{Format, Which};
use json_reader::read_json;
use std::alloc::Global;
use yaml_blocks::read_yaml;

/// The tree of the text of one of these files in a format. The text is no longer than a template may be, so the tree has fewer
/// nodes than half the numbers that there are for nodes.
pub fn read_tree(alloc: Global, which: Which, format: Format, text: &str) -> Result<Doc<'_>, Stop>
    requires { length text.now ≤ template_limit }
    ensures read { MatchResult result (λ tree. IsTemplate format text.entry.now tree)
        (IsNotRead (RefusesData which format) text.entry.now) }
    ensures small { IfOk result (λ tree. size tree < 2 ^ 31) }
{
    match format {
        Format::Json => read_as_json(alloc, which, text),
        Format::Yaml => read_as_yaml(alloc, which, text),
    }
}

/// The tree of a text of YAML.
fn read_as_yaml(alloc: Global, which: Which, text: &str) -> Result<Doc<'_>, Stop>
    requires { length text.now ≤ template_limit }
    ensures read { MatchResult result (λ tree. IsTemplate Format.Yaml text.entry.now tree)
        (IsNotRead (RefusesData which Format.Yaml) text.entry.now) }
    ensures small { IfOk result (λ tree. size tree < 2 ^ 31) }
{
    match read_yaml(alloc, text) {
        Ok(tree) => Ok(tree),
        Err(refusal) => match yaml_refused(which, refusal, text) {
            Some(refused) => Err(Stop::Refused(refused)),
            None => Err(Stop::Memory),
        },
    }
}

/// The tree of a text of JSON.
fn read_as_json(alloc: Global, which: Which, text: &str) -> Result<Doc<'_>, Stop>
    requires { length text.now ≤ template_limit }
    ensures read { MatchResult result (λ tree. IsTemplate Format.Json text.entry.now tree)
        (IsNotRead (RefusesData which Format.Json) text.entry.now) }
    ensures small { IfOk result (λ tree. size tree < 2 ^ 31) }
{
    match read_json(alloc, text) {
        Ok(tree) => Ok(tree),
        Err(refusal) => Err(unread_at(which, json_kind(refusal), text)),
    }
}
