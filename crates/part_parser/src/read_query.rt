//! Queries and expressions. They lead back to conditions and to themselves through brackets alone, each time one level
//! of depth less.
ghost use Rattle.std.specs.Prelude.{◌≡◌, ◌≤◌, []};
ghost use Rattle.guard_syntax.specs.code.Seen.{see_conds, see_query, see_step, see_expr};
ghost use Rattle.literal_parser.specs.code.Reads.{Reads, state_of};
ghost use Rattle.part_parser.specs.code.GrammarReads.{see_exprs, see_key_test, see_steps, applied_at, arguments_at, closed_exprs_at, expr_at, filter_at, key_test_at, query_at, some_steps_at, step_at, value_at};

use crate::items::add;
use crate::lead::{ExprForm, expr_form};
use crate::leaf_rules::{
    all_items, capture, dotted, keys_operator, numbered_item, start_step, tree_expr,
};
use crate::read_condition::conds;
use guard_syntax::{Conds, Expr, Op, Query, Step, StepForm};
use literal_parser::{Cursor, Halt, TokenTest, Tokens};
use std::alloc::Global;

/// The right side of a let.
#[tactic(auto, unfolding(crate::specs::code::Reading::value_of, crate::specs::code::Reading::found_expr, literal_parser::specs::code::Parser::choose, literal_parser::specs::code::Parser::choose_next))]
pub(crate) fn value(
    alloc: Global,
    tokens: Tokens<'_>,
    cursor: &mut Cursor,
    depth: usize,
) -> Result<Expr, Halt>
    requires room { depth ≤ 128 }
    ensures { Reads see_expr (value_at tokens.entry depth (state_of cursor.old) cursor.old.seen) result cursor.new }
{
    if !cursor.sees(tokens, TokenTest::Some) || cursor.sees_next(tokens, TokenTest::LParen) {
        return expr(alloc, tokens, cursor, depth);
    }
    let site = cursor.opens(tokens)?;
    cursor.takes(tokens, TokenTest::Some)?;
    let query = query(alloc, tokens, cursor, depth)?;
    Ok(Expr::Found { site, query })
}

/// A query: its start and its steps.
#[cycle(conditions)]
#[tactic(auto, unfolding(crate::specs::code::Reading::query_of))]
pub(crate) fn query(
    alloc: Global,
    tokens: Tokens<'_>,
    cursor: &mut Cursor,
    depth: usize,
) -> Result<Query, Halt>
    requires room { depth ≤ 128 }
    ensures { Reads see_query (query_at tokens.entry depth (state_of cursor.old) cursor.old.seen) result cursor.new }
{
    let site = cursor.opens(tokens)?;
    let mut steps = Vec::new(alloc);
    add_steps(alloc, tokens, cursor, depth, &mut steps)?;
    Ok(Query { site, steps })
}

/// The start of a query and its steps.
#[cycle(conditions)]
#[tactic(auto, unfolding(crate::specs::code::Reading::start_step, crate::specs::code::Reading::steps, literal_parser::specs::code::Parser::choose))]
fn add_steps(
    alloc: Global,
    tokens: Tokens<'_>,
    cursor: &mut Cursor,
    depth: usize,
    found: &mut Vec<Step>,
) -> Result<(), Halt>
    requires room { depth ≤ 128 }
    requires none { found.old.items ≡ [] }
    ensures { Reads (λ _. see_steps found.new) (some_steps_at tokens.entry depth (state_of cursor.old) cursor.old.seen) result cursor.new }
{
    add(found, start_step(alloc, tokens, cursor))?;
    for _turn in 0..tokens.turns {
        if !cursor.sees(tokens, TokenTest::Step) {
            return Ok(());
        }
        add(found, step(alloc, tokens, cursor, depth))?;
    }
    Err(Halt::Dead(cursor.seen))
}

/// A step of a query, behind a dot or in brackets.
#[cycle(conditions)]
#[tactic(auto, unfolding(crate::specs::code::Reading::step, crate::specs::code::Reading::dotted, crate::specs::code::Reading::bracketed, crate::specs::code::Reading::keyed, crate::specs::code::Reading::filtered, literal_parser::specs::code::Parser::choose))]
fn step(alloc: Global, tokens: Tokens<'_>, cursor: &mut Cursor, depth: usize) -> Result<Step, Halt>
    requires room { depth ≤ 128 }
    ensures { Reads see_step (step_at tokens.entry depth (state_of cursor.old) cursor.old.seen) result cursor.new }
{
    let site = cursor.opens(tokens)?;
    if cursor.sees(tokens, TokenTest::Dot) {
        return dotted(alloc, tokens, cursor, site);
    }
    cursor.takes(tokens, TokenTest::LBracket)?;
    if cursor.sees(tokens, TokenTest::Star) {
        return all_items(tokens, cursor, site);
    }
    if cursor.sees(tokens, TokenTest::Index) {
        return numbered_item(tokens, cursor, site);
    }
    let capture = capture(alloc, tokens, cursor)?;
    if cursor.sees(tokens, TokenTest::Keys) {
        let ((op, not), right) = key_test(alloc, tokens, cursor, depth)?;
        return Ok(Step {
            site,
            form: StepForm::Keys {
                capture,
                op,
                not,
                right,
            },
        });
    }
    let conds = filter(alloc, tokens, cursor, depth)?;
    Ok(Step {
        site,
        form: StepForm::Filter(capture, conds),
    })
}

/// The test of a filter on keys, up to its bracket.
#[cycle(conditions)]
fn key_test(
    alloc: Global,
    tokens: Tokens<'_>,
    cursor: &mut Cursor,
    depth: usize,
) -> Result<((Op, bool), Expr), Halt>
    requires room { depth ≤ 128 }
    ensures { Reads see_key_test (key_test_at tokens.entry depth (state_of cursor.old) cursor.old.seen) result cursor.new }
{
    cursor.takes(tokens, TokenTest::Keys)?;
    let operator = keys_operator(tokens, cursor)?;
    if depth == 0 {
        return Err(Halt::Dead(cursor.seen));
    }
    let right = expr(alloc, tokens, cursor, depth - 1)?;
    cursor.takes(tokens, TokenTest::RBracket)?;
    Ok((operator, right))
}

/// The conditions of a filter, up to its bracket.
#[cycle(conditions)]
fn filter(
    alloc: Global,
    tokens: Tokens<'_>,
    cursor: &mut Cursor,
    depth: usize,
) -> Result<Conds, Halt>
    requires room { depth ≤ 128 }
    ensures { Reads see_conds (filter_at tokens.entry depth (state_of cursor.old) cursor.old.seen) result cursor.new }
{
    if depth == 0 {
        return Err(Halt::Dead(cursor.seen));
    }
    let conds = conds(alloc, tokens, cursor, depth - 1)?;
    cursor.takes(tokens, TokenTest::RBracket)?;
    Ok(conds)
}

/// An expression: a literal, a function or a query.
#[cycle(conditions)]
#[tactic(auto, unfolding(crate::specs::code::Reading::asked_expr))]
pub(crate) fn expr(
    alloc: Global,
    tokens: Tokens<'_>,
    cursor: &mut Cursor,
    depth: usize,
) -> Result<Expr, Halt>
    requires room { depth ≤ 128 }
    ensures { Reads see_expr (expr_at tokens.entry depth (state_of cursor.old) cursor.old.seen) result cursor.new }
{
    match expr_form(tokens, cursor) {
        ExprForm::Word => {
            if depth == 0 {
                return Err(Halt::Dead(cursor.seen));
            }
            applied(alloc, tokens, cursor, depth)
        }
        ExprForm::Literal => tree_expr(alloc, tokens, cursor, depth),
        ExprForm::Function => applied(alloc, tokens, cursor, depth),
        ExprForm::Query => Ok(Expr::Query(query(alloc, tokens, cursor, depth)?)),
    }
}

/// A function and its arguments.
#[cycle(conditions)]
#[tactic(auto, unfolding(crate::specs::code::Reading::applied))]
fn applied(
    alloc: Global,
    tokens: Tokens<'_>,
    cursor: &mut Cursor,
    depth: usize,
) -> Result<Expr, Halt>
    requires room { depth ≤ 128 }
    ensures { Reads see_expr (applied_at tokens.entry depth (state_of cursor.old) cursor.old.seen) result cursor.new }
{
    let site = cursor.opens(tokens)?;
    let name = cursor.has_text(alloc, tokens, TokenTest::AnyName)?;
    let args = exprs(alloc, tokens, cursor, depth)?;
    Ok(Expr::Function { site, name, args })
}

/// Arguments, in parentheses.
#[cycle(conditions)]
pub(crate) fn exprs(
    alloc: Global,
    tokens: Tokens<'_>,
    cursor: &mut Cursor,
    depth: usize,
) -> Result<Vec<Expr>, Halt>
    requires room { depth ≤ 128 }
    ensures { Reads see_exprs (arguments_at tokens.entry depth (state_of cursor.old) cursor.old.seen) result cursor.new }
{
    cursor.takes(tokens, TokenTest::LParen)?;
    if depth == 0 {
        return Err(Halt::Dead(cursor.seen));
    }
    let mut found = Vec::new(alloc);
    add_exprs(alloc, tokens, cursor, depth - 1, &mut found)?;
    Ok(found)
}

/// One expression or more, up to their parenthesis.
#[cycle(conditions)]
#[tactic(auto, unfolding(crate::specs::code::Reading::exprs_of, crate::specs::code::Reading::more_exprs_of, literal_parser::specs::code::Parser::choose))]
fn add_exprs(
    alloc: Global,
    tokens: Tokens<'_>,
    cursor: &mut Cursor,
    depth: usize,
    found: &mut Vec<Expr>,
) -> Result<(), Halt>
    requires room { depth ≤ 128 }
    requires none { found.old.items ≡ [] }
    ensures { Reads (λ _. see_exprs found.new) (closed_exprs_at tokens.entry depth (state_of cursor.old) cursor.old.seen) result cursor.new }
{
    // So many items may stand behind the first.
    let mut left = tokens.turns;
    'items: loop {
        add(found, expr(alloc, tokens, cursor, depth))?;
        if left == 0 {
            return Err(Halt::Dead(cursor.seen));
        }
        left -= 1;
        if !cursor.sees(tokens, TokenTest::Comma) {
            return cursor.takes(tokens, TokenTest::RParen);
        }
        cursor.takes(tokens, TokenTest::Comma)?;
    }
}
