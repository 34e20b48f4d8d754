//! A whole text, and what its trees and refusals have in common.
ghost use Rattle.std.specs.Prelude.{◌≡◌, ◌≤◌, ◌<◌, ◌^◌, None, length, IfErr, IfOk, IsErrOf, MatchResult};
ghost use Rattle.doc_values.specs.Limits.{template_limit};
ghost use Rattle.doc_values.specs.Tree.{Forest, size};
ghost use Rattle.doc_values.specs.Unfinished.{IsComplete, start};
ghost use Rattle.json_reader.specs.code.Memory.{HasBeginning};
ghost use Rattle.json_reader.specs.code.Reading.{mark_stop};
ghost use Rattle.json_reader.specs.Json.{Json};
ghost use Rattle.json_reader.specs.Refusals.{IsRefused, place_of_refusal};

use crate::bytes::{front_len, mark_stop, space_end};
use crate::refusal::JsonRefusal;
use crate::stage::{Position, Stage};
use crate::step::step;
use doc_values::{Doc, DocBuilder};
use std::alloc::Global;

/// The tree of a JSON text of at most 8 MiB, in which each value has the offset of its first byte. Each refusal but
/// `NoMemory`, which says nothing of the text, has the place of its cause. A text in which no byte may begin a value takes
/// no memory.
pub fn read_json<'s>(alloc: Global, text: &'s str) -> Result<Doc<'s>, JsonRefusal>
    requires { length text.now ≤ template_limit }
    ensures answer { MatchResult result (λ d. Json text.now d) (λ e. (e ≡ JsonRefusal.NoMemory → ⊥) → IsRefused text.now e) }
    ensures small { IfOk result (λ d. size d < 2 ^ 31) }
    ensures memory { IsErrOf result JsonRefusal.NoMemory → HasBeginning text.now }
{
    match mark_stop(text.as_bytes()) {
        Some(stop) => return Err(JsonRefusal::Syntax(stop)),
        None => {}
    }
    let mut builder = DocBuilder::new(alloc);
    match read_tokens(alloc, text, &mut builder) {
        Ok(()) => Ok(builder.finish()),
        Err(refusal) => Err(refusal),
    }
}

/// Reads the tokens of a text, and adds to the tree what they say.
fn read_tokens<'s>(
    alloc: Global,
    text: &'s str,
    builder: &mut DocBuilder<'s>,
) -> Result<(), JsonRefusal>
    requires small { length text.now ≤ template_limit }
    requires unmarked { mark_stop text.now ≡ None }
    requires begun { builder.old ≡ start }
    ensures complete { IfOk result (λ _. IsComplete builder.new) }
    ensures tree { IfOk result (λ _. Json text.now builder.new.done) }
    ensures refusal { IfErr result (λ e. (e ≡ JsonRefusal.NoMemory → ⊥) → IsRefused text.now e) }
    ensures memory { IsErrOf result JsonRefusal.NoMemory → HasBeginning text.now }
{
    let bytes = text.as_bytes();
    let mut position = Position {
        at: space_end(bytes, front_len(bytes)),
        stage: Stage::Value,
    };
    while position.at < text.len() {
        match step(alloc, text, position, builder) {
            Err(refusal) => return Err(refusal),
            Ok(next) => {
                position = Position {
                    at: space_end(bytes, next.at),
                    stage: next.stage,
                }
            }
        }
    }
    match position.stage {
        Stage::After => {
            if builder.depth() == 0 {
                Ok(())
            } else {
                Err(JsonRefusal::Syntax(text.len() as u32))
            }
        }
        _ => Err(JsonRefusal::Syntax(text.len() as u32)),
    }
}

/// A text stands for one tree at most, so that a caller may speak of its tree. The call itself does nothing.
pub fn one_tree(text: &str)
    ensures { (a b : Forest) → Json text.now a → Json text.now b → a ≡ b }
{}

/// A text has one refusal at most, so that a caller may speak of its refusal. The call itself does nothing.
pub fn one_refusal(text: &str)
    ensures { (d e : JsonRefusal) → IsRefused text.now d → IsRefused text.now e → d ≡ e }
{}

/// A text that is refused stands for no tree. The call itself does nothing.
pub fn refused_apart(text: &str)
    ensures { (e : JsonRefusal) (tree : Forest) → IsRefused text.now e → Json text.now tree → ⊥ }
{}

/// A text is refused at a place in it, or at its end. The call itself does nothing.
pub fn place_within(text: &str)
    ensures { (e : JsonRefusal) → IsRefused text.now e → place_of_refusal e ≤ length text.now }
{}
