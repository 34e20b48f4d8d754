//! Bodies and blocks. They lead back to themselves through braces alone.
ghost use Rattle.std.specs.Prelude.{◌≡◌, ◌++◌, IfOk, OnOk, codes, map, string_bytes};
ghost use Rattle.guard_syntax.specs.code.Seen.{part_list, see_body, see_disj, see_opt_conds, see_part, see_query};
ghost use Rattle.rule_words.specs.WordText.{head_text};
ghost use Rattle.rule_printer.specs.RuleText.{body_text, disj_line, opt_conds_text, part_text, parts_text, query_text, within};

use crate::conditions::{push_cond, push_conds, push_query};
use crate::lets::{push_lets, push_lets_before};
use guard_syntax::{Body, Conds, Disj, Part, Query};
use rule_spelling::push_quoted;
use rule_words::starts::lone_key;
use rule_words::words::{push_between, push_word_if};
use std::alloc::{AllocError, Global};

/// A margin of two spaces more.
fn within(alloc: Global, margin: &str) -> Result<String, AllocError>
    ensures { IfOk result (λ inner. string_bytes inner ≡ within margin.now) }
{
    let mut inner = String::from_str(alloc, margin)?;
    inner.push_str("  ")?;
    Ok(inner)
}

/// Appends the head of a block.
fn push_head(out: &mut String, head: &Query) -> Result<(), AllocError>
    ensures { OnOk result (string_bytes out.new ≡ string_bytes out.old ++ head_text (see_query head.now) (query_text (see_query head.now))) }
{
    match lone_key(head) {
        Some(key) => push_quoted(out, key),
        None => push_query(out, head),
    }
}

/// Appends ` when ` and conditions, if there are some.
pub(crate) fn push_when(out: &mut String, cond: &Option<Conds>) -> Result<(), AllocError>
    ensures { OnOk result (string_bytes out.new ≡ string_bytes out.old ++ opt_conds_text (see_opt_conds cond.now)) }
{
    match cond {
        Some(conds) => {
            out.push_str(" when ")?;
            push_conds(out, conds)
        }
        None => Ok(()),
    }
}

/// Appends the end of a body.
fn push_end(out: &mut String, margin: &str) -> Result<(), AllocError>
    ensures { OnOk result (string_bytes out.new ≡ string_bytes out.old ++ (margin.now ++ codes "}")) }
{
    out.push_str(margin)?;
    out.push_str("}")
}

/// Appends a body: its lets and its disjunctions in order of site, each on lines of its own.
#[cycle(bodies)]
pub(crate) fn push_body(
    alloc: Global,
    out: &mut String,
    margin: &str,
    body: &Body,
) -> Result<(), AllocError>
    ensures { OnOk result (string_bytes out.new ≡ string_bytes out.old ++ body_text margin.now (see_body body.now)) }
{
    let inner = within(alloc, margin)?;
    let lets = body.lets.as_slice();
    let disjs = body.parts.as_slice();
    out.push_str(" {\n")?;
    let mut next = 0;
    for disj in disjs {
        next = push_lets_before(out, &inner, lets, next, disj.site)?;
        push_disj(alloc, out, &inner, disj)?;
    }
    push_lets(out, &inner, lets, next)?;
    push_end(out, margin)
}

/// Appends the line of a disjunction; a block in it goes on over further lines.
#[cycle(bodies)]
pub(crate) fn push_disj(
    alloc: Global,
    out: &mut String,
    margin: &str,
    disj: &Disj,
) -> Result<(), AllocError>
    ensures { OnOk result (string_bytes out.new ≡ string_bytes out.old ++ (disj_line margin.now (see_disj disj.now)).1) }
{
    out.push_str(margin)?;
    push_parts(alloc, out, margin, &disj.parts)?;
    out.push_str("\n")
}

/// Appends parts that are joined by `or`.
#[cycle(bodies)]
fn push_parts(
    alloc: Global,
    out: &mut String,
    margin: &str,
    parts: &[Part],
) -> Result<(), AllocError>
    ensures { OnOk result (string_bytes out.new ≡ string_bytes out.old ++ parts_text margin.now (part_list (map see_part parts.now))) }
{
    for (i, part) in parts.iter().enumerate() {
        push_between(out, i, " or ")?;
        push_part(alloc, out, margin, part)?;
    }
    Ok(())
}

/// Appends a part.
#[cycle(bodies)]
fn push_part(alloc: Global, out: &mut String, margin: &str, part: &Part) -> Result<(), AllocError>
    ensures { OnOk result (string_bytes out.new ≡ string_bytes out.old ++ part_text margin.now (see_part part.now)) }
{
    match part {
        Part::Block {
            any,
            head,
            body,
            ..
        } => {
            push_word_if(out, *any, "some ")?;
            push_head(out, head)?;
            push_body(alloc, out, margin, body)
        }
        Part::When { cond, body, .. } => {
            out.push_str("when ")?;
            push_conds(out, cond)?;
            push_body(alloc, out, margin, body)
        }
        Part::Kinds {
            name,
            cond,
            body,
            ..
        } => {
            out.push_str(name.as_str())?;
            push_when(out, cond)?;
            push_body(alloc, out, margin, body)
        }
        _ => push_cond(out, part),
    }
}
