//! How queries begin.
ghost use Rattle.std.specs.Prelude.{◌≡◌, ◌++◌, ℕ, List, MatchOption, OnOk, map, string_bytes};
ghost use Rattle.guard_syntax.specs.Syntax as sx;
ghost use Rattle.guard_syntax.specs.code.Seen.{see_query, see_step, step_list};
ghost use Rattle.rule_spelling.specs.Spelling.{quoted};
ghost use Rattle.rule_words.specs.WordText.{head_text, is_bracketed};
ghost use Rattle.rule_words.specs.code.Appended.{is_r, space_in};

use guard_syntax::{Query, Step, StepForm};
use std::alloc::AllocError;

/// Whether a step is the name `r` as a key.
fn is_r(step: &Step) -> bool
    ensures { result ≡ is_r (see_step step.now) }
{
    match &step.form {
        StepForm::Key(name) => name.as_str() == "r",
        _ => false,
    }
}

/// Whether a step begins with a bracket.
fn is_bracketed(step: &Step) -> bool
    ensures { result ≡ is_bracketed (see_step step.now) }
{
    matches!(
        &step.form,
        StepForm::Items | StepForm::Filter(_, _) | StepForm::Keys { .. }
    )
}

/// Appends the space behind the first step of an expression, where a range would begin without it.
pub fn push_space_within(out: &mut String, steps: &[Step]) -> Result<(), AllocError>
    ensures { OnOk result (string_bytes out.new ≡ string_bytes out.old ++ space_in (step_list (map see_step steps.now))) }
{
    if steps.len() < 2 {
        return Ok(());
    }
    if is_r(&steps[0]) && is_bracketed(&steps[1]) {
        out.push_str(" ")
    } else {
        Ok(())
    }
}

/// The key that alone is the head of a block.
pub fn lone_key(head: &Query) -> Option<&str>
    ensures { MatchOption result ((text : List ℕ) → head_text (see_query head.entry.now) text ≡ text) (λ key. (text : List ℕ) → head_text (see_query head.entry.now) text ≡ quoted key.now) }
{
    let steps = head.steps.as_slice();
    if steps.len() != 1 {
        return None;
    }
    key_of(&steps[0])
}

/// The key that a step is.
fn key_of(step: &Step) -> Option<&str>
    ensures { MatchOption result ((n : ℕ) (text : List ℕ) → head_text (sx.query n (sx.more_steps (see_step step.entry.now) sx.no_steps)) text ≡ text) (λ key. (n : ℕ) (text : List ℕ) → head_text (sx.query n (sx.more_steps (see_step step.entry.now) sx.no_steps)) text ≡ quoted key.now) }
{
    match &step.form {
        StepForm::Key(name) => Some(name.as_str()),
        _ => None,
    }
}
