//! Collections outside of brackets end: before a line, or with the document.
ghost use Rattle.std.specs.Prelude.{◌≡◌, ℕ, List, ◌+◌, ◌*◌, false, None, IfOk};
ghost use Rattle.std.specs.Str.{IsCharBoundary};
ghost use Rattle.yaml_grammar.specs.Ahead.{ahead};
ghost use Rattle.yaml_grammar.specs.code.Rest.{top, Ends};
ghost use Rattle.yaml_grammar.specs.Yaml.{IsEnd};
ghost use Rattle.yaml_grammar.specs.code.Twins.{Popped};
ghost use Rattle.yaml_grammar.specs.code.Steps.{stack, IsBlock, Open, Gives, Ended};

use crate::takes::ends_before;
use doc_values::DocBuilder;
use yaml_grammar::{Ahead, Form, Position, Stage, Stop};
use yaml_nodes::node::innermost;

/// The collections end that end before the line of a token.
pub fn end_before(next: Ahead, forms: &mut Vec<Form>, builder: &mut DocBuilder) -> Result<(), Stop>
    requires open { Open (stack forms.old.items) builder.old }
    requires block { IsBlock (top (stack forms.old.items)) }
    requires awaited { builder.old.key ≡ None }
    ensures ended { (text : List ℕ) (i : ℕ) → next ≡ ahead text false i → Ended text (stack forms.old.items) builder.old next i (stack forms.new.items) builder.new result }
    ensures popped { IfOk result (λ done. Popped next (stack forms.old.items) builder.old (stack forms.new.items) builder.new) }
{
    while ends_before(innermost(forms), next) {
        let Some(_) = forms.pop() else { unreachable!() };
        match builder.end() {
            Ok(()) => {}
            Err(_) => return Err(Stop::NoMemory),
        }
    }
    Ok(())
}

/// All collections end with the document.
pub fn end_all(at: usize, forms: &mut Vec<Form>, builder: &mut DocBuilder) -> Result<Position, Stop>
    requires block { IsBlock (top (stack forms.old.items)) }
    requires open { Open (stack forms.old.items) builder.old }
    requires awaited { builder.old.key ≡ None }
    ensures gives { (other : List ℕ) → IsEnd other at → IsCharBoundary other at → Gives other (Ends other (stack forms.old.items) builder.old.outer builder.old.done at) (2 * at + 2) (stack forms.new.items) builder.new result }
    ensures whole { IfOk result (λ p. p.stage ≡ Stage.Whole) }
{
    while let Some(_) = forms.pop() {
        match builder.end() {
            Ok(()) => {}
            Err(_) => return Err(Stop::NoMemory),
        }
    }
    Ok(Position {
        stage: Stage::Whole,
        at,
    })
}
