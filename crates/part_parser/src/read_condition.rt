//! Conditions, and the tests and the names of rules in them and in bodies. They recur through brackets alone, each time one
//! level of depth less.
ghost use Rattle.std.specs.Prelude.{◌≡◌, ◌≤◌, []};
ghost use Rattle.guard_syntax.specs.code.Seen.{see_conds, see_disj, see_part, see_query, see_opt_conds, see_opt_expr};
ghost use Rattle.literal_parser.specs.code.Reads.{Reads, state_of};
ghost use Rattle.part_parser.specs.code.GrammarReads.{see_disjs, see_parts, alternatives_at, cond_part_at, conds_at, some_conditions_at, some_disjs_at, named_at, opt_conds_at, right_at, tested_at};

use crate::items::add;
use crate::lead::{Lead, lead_of};
use crate::leaf_rules::{is_binary, note, operator};
use crate::read_query::{expr, exprs, query};
use guard_syntax::{Conds, Disj, Expr, Op, Part, Query, Text};
use literal_parser::{Cursor, Halt, TokenTest, Tokens};
use std::alloc::Global;

/// How a test begins, or a block.
#[derive(Drop)]
pub(crate) struct QueryHead {
    pub(crate) site: u32,
    /// Whether any value of the query has to pass, or each.
    pub(crate) any: bool,
    pub(crate) query: Query,
}

/// How a condition begins that names a rule.
#[derive(Drop)]
pub(crate) struct RuleHead {
    pub(crate) site: u32,
    pub(crate) not: bool,
    pub(crate) name: Text,
}

/// `when` and conditions, or nothing.
#[tactic(auto, unfolding(crate::specs::code::Reading::opt_conds, literal_parser::specs::code::Parser::choose))]
pub fn opt_conds(
    alloc: Global,
    tokens: Tokens<'_>,
    cursor: &mut Cursor,
    depth: usize,
) -> Result<Option<Conds>, Halt>
    requires room { depth ≤ 128 }
    ensures { Reads see_opt_conds (opt_conds_at tokens.entry depth (state_of cursor.old) cursor.old.seen) result cursor.new }
{
    if !cursor.sees(tokens, TokenTest::When) {
        return Ok(None);
    }
    cursor.takes(tokens, TokenTest::When)?;
    let found = conds(alloc, tokens, cursor, depth)?;
    Ok(Some(found))
}

/// Conditions: all have to hold.
#[cycle(conditions)]
#[tactic(auto, unfolding(crate::specs::code::Reading::conds_of))]
pub(crate) fn conds(
    alloc: Global,
    tokens: Tokens<'_>,
    cursor: &mut Cursor,
    depth: usize,
) -> Result<Conds, Halt>
    requires room { depth ≤ 128 }
    ensures { Reads see_conds (conds_at tokens.entry depth (state_of cursor.old) cursor.old.seen) result cursor.new }
{
    let site = cursor.opens(tokens)?;
    let mut parts = Vec::new(alloc);
    add_disjs(alloc, tokens, cursor, depth, &mut parts)?;
    Ok(Conds { site, parts })
}

/// Conditions joined by `or`, one time or more, one behind the other.
#[cycle(conditions)]
#[tactic(auto, unfolding(crate::specs::code::Reading::disjs, literal_parser::specs::code::Parser::choose))]
fn add_disjs(
    alloc: Global,
    tokens: Tokens<'_>,
    cursor: &mut Cursor,
    depth: usize,
    found: &mut Vec<Disj>,
) -> Result<(), Halt>
    requires room { depth ≤ 128 }
    requires none { found.old.items ≡ [] }
    ensures { Reads (λ _. see_disjs found.new) (some_disjs_at tokens.entry depth (state_of cursor.old) cursor.old.seen) result cursor.new }
{
    // So many items may stand behind the first.
    let mut left = tokens.turns;
    'items: loop {
        add(found, alternatives(alloc, tokens, cursor, depth))?;
        if left == 0 {
            return Err(Halt::Dead(cursor.seen));
        }
        left -= 1;
        if !cursor.sees(tokens, TokenTest::Cond) {
            return Ok(());
        }
    }
}

/// Conditions joined by `or`.
#[cycle(conditions)]
#[tactic(auto, unfolding(crate::specs::code::Reading::disj_of))]
fn alternatives(
    alloc: Global,
    tokens: Tokens<'_>,
    cursor: &mut Cursor,
    depth: usize,
) -> Result<Disj, Halt>
    requires room { depth ≤ 128 }
    ensures { Reads see_disj (alternatives_at tokens.entry depth (state_of cursor.old) cursor.old.seen) result cursor.new }
{
    let site = cursor.opens(tokens)?;
    let mut parts = Vec::new(alloc);
    add_conditions(alloc, tokens, cursor, depth, &mut parts)?;
    Ok(Disj { site, parts })
}

/// One condition or more, with `or` between them.
#[cycle(conditions)]
#[tactic(auto, unfolding(crate::specs::code::Reading::ors, literal_parser::specs::code::Parser::choose))]
fn add_conditions(
    alloc: Global,
    tokens: Tokens<'_>,
    cursor: &mut Cursor,
    depth: usize,
    found: &mut Vec<Part>,
) -> Result<(), Halt>
    requires room { depth ≤ 128 }
    requires none { found.old.items ≡ [] }
    ensures { Reads (λ _. see_parts found.new) (some_conditions_at tokens.entry depth (state_of cursor.old) cursor.old.seen) result cursor.new }
{
    // So many items may stand behind the first.
    let mut left = tokens.turns;
    'items: loop {
        add(found, condition(alloc, tokens, cursor, depth))?;
        if left == 0 {
            return Err(Halt::Dead(cursor.seen));
        }
        left -= 1;
        if !cursor.sees(tokens, TokenTest::Or) {
            return Ok(());
        }
        cursor.takes(tokens, TokenTest::Or)?;
    }
}

/// A condition: a test, or the name of a rule.
#[cycle(conditions)]
#[tactic(auto, unfolding(crate::specs::code::Reading::cond_part))]
fn condition(
    alloc: Global,
    tokens: Tokens<'_>,
    cursor: &mut Cursor,
    depth: usize,
) -> Result<Part, Halt>
    requires room { depth ≤ 128 }
    ensures { Reads see_part (cond_part_at tokens.entry depth (state_of cursor.old) cursor.old.seen) result cursor.new }
{
    let site = cursor.opens(tokens)?;
    match lead_of(tokens, cursor, TokenTest::CondLead)? {
        Lead::Query { any } => {
            let query = query(alloc, tokens, cursor, depth)?;
            tested(alloc, tokens, cursor, depth, QueryHead { site, any, query })
        }
        Lead::Rule { not } => {
            let name = cursor.has_text(alloc, tokens, TokenTest::Name)?;
            ruled(alloc, tokens, cursor, depth, RuleHead { site, not, name })
        }
    }
}

/// A test of the values of a query.
#[cycle(conditions)]
#[tactic(auto, unfolding(crate::specs::code::Reading::tested))]
pub(crate) fn tested(
    alloc: Global,
    tokens: Tokens<'_>,
    cursor: &mut Cursor,
    depth: usize,
    head: QueryHead,
) -> Result<Part, Halt>
    requires room { depth ≤ 128 }
    ensures { Reads see_part (tested_at tokens.entry depth head.site head.any (see_query head.query) (state_of cursor.old) cursor.old.seen) result cursor.new }
{
    let (op, not) = operator(tokens, cursor)?;
    let right = right(alloc, tokens, cursor, depth, op)?;
    let note = note(alloc, tokens, cursor)?;
    Ok(Part::Test {
        site: head.site,
        any: head.any,
        left: head.query,
        op,
        not,
        right,
        note,
    })
}

/// What stands at the right of a test, where its operator has a right side.
#[cycle(conditions)]
#[tactic(auto, unfolding(crate::specs::code::Reading::right))]
fn right(
    alloc: Global,
    tokens: Tokens<'_>,
    cursor: &mut Cursor,
    depth: usize,
    op: Op,
) -> Result<Option<Expr>, Halt>
    requires room { depth ≤ 128 }
    ensures { Reads see_opt_expr (right_at tokens.entry depth op (state_of cursor.old) cursor.old.seen) result cursor.new }
{
    if !is_binary(op) {
        return Ok(None);
    }
    let found = expr(alloc, tokens, cursor, depth)?;
    Ok(Some(found))
}

/// What stands behind the name of a rule: arguments, or none, and a note.
#[cycle(conditions)]
#[tactic(auto, unfolding(crate::specs::code::Reading::called, crate::specs::code::Reading::referred, literal_parser::specs::code::Parser::choose))]
pub(crate) fn ruled(
    alloc: Global,
    tokens: Tokens<'_>,
    cursor: &mut Cursor,
    depth: usize,
    head: RuleHead,
) -> Result<Part, Halt>
    requires room { depth ≤ 128 }
    ensures { Reads see_part (named_at tokens.entry depth head.site head.not head.name (state_of cursor.old) cursor.old.seen) result cursor.new }
{
    if cursor.sees(tokens, TokenTest::LParen) {
        let args = exprs(alloc, tokens, cursor, depth)?;
        let note = note(alloc, tokens, cursor)?;
        return Ok(Part::Call {
            site: head.site,
            not: head.not,
            name: head.name,
            args,
            note,
        });
    }
    let note = note(alloc, tokens, cursor)?;
    Ok(Part::Refer {
        site: head.site,
        not: head.not,
        name: head.name,
        note,
    })
}
