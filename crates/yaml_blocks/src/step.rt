//! One token of a document at a time, by where reading stands.
ghost use Rattle.std.specs.Prelude.{◌≡◌, ◌≤◌, length, false, true};
ghost use Rattle.std.specs.Str.{IsCharBoundary};
ghost use Rattle.yaml_scalars.specs.code.Limits.{text_limit};
ghost use Rattle.yaml_grammar.specs.code.StepReads.{StepRead};
ghost use Rattle.yaml_grammar.specs.code.Steps.{stack, IsBlock, IsFlow, Fits};
ghost use Rattle.yaml_grammar.specs.Yaml.{text_start};

use crate::block;
use doc_values::DocBuilder;
use std::alloc::Global;
use yaml_grammar::{Form, Position, Stage, Stop};
use yaml_nodes::ahead::look;
use yaml_nodes::form::Site;
use yaml_nodes::node::innermost;
use yaml_steps::flow;

/// An entry between brackets, or the closing one.
fn entry<'s>(
    alloc: Global,
    text: &'s str,
    at: usize,
    forms: &mut Vec<Form>,
    builder: &mut DocBuilder<'s>,
) -> Result<Position, Stop>
    requires small { length text.now ≤ text_limit }
    requires boundary { IsCharBoundary text.now at }
    requires fits { Fits text.now Stage.Entry (stack forms.old.items) builder.old at }
    ensures { StepRead text.now Stage.Entry at (stack forms.old.items) builder.old (stack forms.new.items) builder.new result }
{
    match innermost(forms) {
        Form::Flow { map } => {
            let site = Site {
                at,
                form: Form::Flow { map },
                next: look(text, true, at),
            };
            flow::entry(alloc, text, site, forms, builder)
        }
        _ => unreachable!(),
    }
}

/// Whether a node in a form stands in flow.
fn is_flow(form: Form) -> bool
    ensures yes { result ≡ true → IsFlow form }
    ensures no { result ≡ false → IsBlock form }
{
    match form {
        Form::Flow { map: _ } => true,
        Form::FlowTagged { at: _ } => true,
        Form::Root => false,
        Form::Items { column: _ } => false,
        Form::Entries { column: _ } => false,
        Form::Tagged { .. } => false,
    }
}

/// A node where one is awaited.
fn value<'s>(
    alloc: Global,
    text: &'s str,
    at: usize,
    forms: &mut Vec<Form>,
    builder: &mut DocBuilder<'s>,
) -> Result<Position, Stop>
    requires small { length text.now ≤ text_limit }
    requires boundary { IsCharBoundary text.now at }
    requires fits { Fits text.now Stage.Value (stack forms.old.items) builder.old at }
    ensures { StepRead text.now Stage.Value at (stack forms.old.items) builder.old (stack forms.new.items) builder.new result }
{
    let form = innermost(forms);
    if is_flow(form) {
        let next = look(text, true, at);
        return flow::value(alloc, text, Site { at, form, next }, forms, builder);
    }
    let next = look(text, false, at);
    block::node(alloc, text, Site { at, form, next }, forms, builder)
}

/// What follows a complete node.
fn after<'s>(
    alloc: Global,
    text: &'s str,
    at: usize,
    forms: &mut Vec<Form>,
    builder: &mut DocBuilder<'s>,
) -> Result<Position, Stop>
    requires small { length text.now ≤ text_limit }
    requires boundary { IsCharBoundary text.now at }
    requires behind { text_start text.now ≤ at }
    requires fits { Fits text.now Stage.After (stack forms.old.items) builder.old at }
    ensures { StepRead text.now Stage.After at (stack forms.old.items) builder.old (stack forms.new.items) builder.new result }
{
    match innermost(forms) {
        Form::Flow { map } => flow::after(text, at, map, forms, builder),
        Form::FlowTagged { at: place } => flow::after_tag(text, at, place, forms, builder),
        _ => block::after(alloc, text, at, forms, builder),
    }
}

/// The next token.
pub(crate) fn step<'s>(
    alloc: Global,
    text: &'s str,
    position: Position,
    forms: &mut Vec<Form>,
    builder: &mut DocBuilder<'s>,
) -> Result<Position, Stop>
    requires small { length text.now ≤ text_limit }
    requires boundary { IsCharBoundary text.now position.at }
    requires behind { text_start text.now ≤ position.at }
    requires open { position.stage ≡ Stage.Whole → ⊥ }
    requires fits { Fits text.now position.stage (stack forms.old.items) builder.old position.at }
    ensures { StepRead text.now position.stage position.at (stack forms.old.items) builder.old (stack forms.new.items) builder.new result }
{
    match position.stage {
        Stage::Entry => entry(alloc, text, position.at, forms, builder),
        Stage::Value => value(alloc, text, position.at, forms, builder),
        Stage::After => after(alloc, text, position.at, forms, builder),
        Stage::Whole => unreachable!(),
    }
}
