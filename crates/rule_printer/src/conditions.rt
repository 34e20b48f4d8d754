//! Conditions, queries and expressions. They lead back to themselves through brackets alone.
ghost use Rattle.std.specs.Prelude.{◌≡◌, ◌++◌, ℕ, OnOk, codes, drop, map, string_bytes};
ghost use Rattle.guard_syntax.specs.Syntax as sx;
ghost use Rattle.guard_syntax.specs.code.Seen.{expr_list, part_list, see_conds, see_expr, see_opt_expr, see_part, see_query, see_step, step_list};
ghost use Rattle.rule_printer.specs.RuleText.{alternatives_text, asked_text, cond_text, conds_text, expr_text, exprs_text, opt_expr_text, query_text, steps_text};
ghost use Rattle.rule_printer.specs.code.Printing.{step_in};

use guard_syntax::{Conds, Expr, Part, Query, Step, StepForm};
use rule_words::literals::push_literal;
use rule_words::names::{
    push_dotted_key, push_first_key, push_function_name, push_keys_test, push_opened,
};
use rule_words::starts::push_space_within;
use rule_words::words::{
    push_between, push_index, push_note, push_rule_name, push_signed, push_spaced_operator,
    push_word_if,
};
use std::alloc::AllocError;

/// Appends conditions.
#[cycle(conditions)]
pub(crate) fn push_conds(out: &mut String, conds: &Conds) -> Result<(), AllocError>
    ensures { OnOk result (string_bytes out.new ≡ string_bytes out.old ++ conds_text (see_conds conds.now)) }
{
    let disjs = conds.parts.as_slice();
    for (i, disj) in disjs.iter().enumerate() {
        push_between(out, i, " ")?;
        push_alternatives(out, &disj.parts)?;
    }
    Ok(())
}

/// Appends parts that are joined by `or`, none of which is a block.
#[cycle(conditions)]
fn push_alternatives(out: &mut String, parts: &[Part]) -> Result<(), AllocError>
    ensures { OnOk result (string_bytes out.new ≡ string_bytes out.old ++ alternatives_text (part_list (map see_part parts.now))) }
{
    for (i, part) in parts.iter().enumerate() {
        push_between(out, i, " or ")?;
        push_cond(out, part)?;
    }
    Ok(())
}

/// Appends a test, a reference or a call. Blocks are no conditions.
#[cycle(conditions)]
pub(crate) fn push_cond(out: &mut String, part: &Part) -> Result<(), AllocError>
    ensures { OnOk result (string_bytes out.new ≡ string_bytes out.old ++ cond_text (see_part part.now)) }
{
    match part {
        Part::Test {
            any,
            left,
            op,
            not,
            right,
            note,
            ..
        } => {
            push_word_if(out, *any, "some ")?;
            push_query(out, left)?;
            push_spaced_operator(out, *op, *not)?;
            push_right(out, right)?;
            push_note(out, note)
        }
        Part::Refer {
            not,
            name,
            note,
            ..
        } => {
            push_rule_name(out, *not, name.as_str())?;
            push_note(out, note)
        }
        Part::Call {
            not,
            name,
            args,
            note,
            ..
        } => {
            push_rule_name(out, *not, name.as_str())?;
            push_arguments(out, args)?;
            push_note(out, note)
        }
        _ => Ok(()),
    }
}

/// Appends the right side of a test, if it has one.
#[cycle(conditions)]
fn push_right(out: &mut String, right: &Option<Expr>) -> Result<(), AllocError>
    ensures { OnOk result (string_bytes out.new ≡ string_bytes out.old ++ opt_expr_text (see_opt_expr right.now)) }
{
    match right {
        Some(expr) => {
            out.push_str(" ")?;
            push_expr(out, expr)
        }
        None => Ok(()),
    }
}

/// Appends a query.
#[cycle(conditions)]
pub(crate) fn push_query(out: &mut String, query: &Query) -> Result<(), AllocError>
    ensures { OnOk result (string_bytes out.new ≡ string_bytes out.old ++ query_text (see_query query.now)) }
{
    let steps = query.steps.as_slice();
    if steps.is_empty() {
        return Ok(());
    }
    push_step(out, true, &steps[0])?;
    push_steps(out, steps, 1)
}

/// Appends a query that is an expression.
#[cycle(conditions)]
fn push_asked(out: &mut String, query: &Query) -> Result<(), AllocError>
    ensures { OnOk result (string_bytes out.new ≡ string_bytes out.old ++ asked_text (see_query query.now)) }
{
    let steps = query.steps.as_slice();
    if steps.is_empty() {
        return Ok(());
    }
    push_step(out, true, &steps[0])?;
    push_space_within(out, steps)?;
    push_steps(out, steps, 1)
}

/// Appends the steps from an index on.
#[cycle(conditions)]
fn push_steps(out: &mut String, steps: &[Step], from: usize) -> Result<(), AllocError>
    ensures { OnOk result (string_bytes out.new ≡ string_bytes out.old ++ steps_text (step_list (map see_step (drop from steps.now)))) }
{
    for i in from..steps.len() {
        push_step(out, false, &steps[i])?;
    }
    Ok(())
}

/// Appends a key that is a step of a query, the first or a further one.
fn push_key(out: &mut String, first: bool, key: &str) -> Result<(), AllocError>
    ensures { (n : ℕ) → OnOk result (string_bytes out.new ≡ string_bytes out.old ++ step_in first (sx.key n key.now)) }
{
    if first {
        push_first_key(out, key)
    } else {
        push_dotted_key(out, key)
    }
}

/// Appends a step, the first of its query or a further one.
#[cycle(conditions)]
fn push_step(out: &mut String, first: bool, step: &Step) -> Result<(), AllocError>
    ensures { OnOk result (string_bytes out.new ≡ string_bytes out.old ++ step_in first (see_step step.now)) }
{
    match &step.form {
        StepForm::This => out.push_str("this"),
        StepForm::Var(name) => push_signed(out, "%", name.as_str()),
        StepForm::Key(name) => push_key(out, first, name.as_str()),
        StepForm::Index(index) => push_index(out, *index),
        StepForm::Every => out.push_str(".*"),
        StepForm::Items => out.push_str("[*]"),
        StepForm::Splice(name) => push_signed(out, ".%", name.as_str()),
        StepForm::Filter(capture, conds) => {
            push_opened(out, capture)?;
            push_conds(out, conds)?;
            out.push_str(" ]")
        }
        StepForm::Keys {
            capture,
            op,
            not,
            right,
        } => {
            push_keys_test(out, capture, *op, *not)?;
            push_expr(out, right)?;
            out.push_str(" ]")
        }
    }
}

/// Appends an expression.
#[cycle(conditions)]
pub(crate) fn push_expr(out: &mut String, expr: &Expr) -> Result<(), AllocError>
    ensures { OnOk result (string_bytes out.new ≡ string_bytes out.old ++ expr_text (see_expr expr.now)) }
{
    match expr {
        Expr::Literal { tree, .. } => push_literal(out, tree),
        Expr::Function { name, args, .. } => {
            push_function_name(out, name.as_str())?;
            push_arguments(out, args)
        }
        Expr::Query(query) => push_asked(out, query),
        Expr::Found { query, .. } => {
            out.push_str("some ")?;
            push_query(out, query)
        }
    }
}

/// Appends arguments, in their parentheses.
#[cycle(conditions)]
fn push_arguments(out: &mut String, exprs: &[Expr]) -> Result<(), AllocError>
    ensures { OnOk result (string_bytes out.new ≡ ((string_bytes out.old ++ codes "(") ++ exprs_text (expr_list (map see_expr exprs.now))) ++ codes ")") }
{
    out.push_str("(")?;
    for (i, expr) in exprs.iter().enumerate() {
        push_between(out, i, ", ")?;
        push_expr(out, expr)?;
    }
    out.push_str(")")
}
