//! Bodies and their parts, and lets. Bodies recur through brackets alone, each time one level of depth less; of conditions
//! no body is a part.
ghost use Rattle.std.specs.Prelude.{◌≡◌, ◌≤◌, []};
ghost use Rattle.guard_syntax.specs.code.Seen.{see_body, see_disj, see_let, see_part, see_query};
ghost use Rattle.literal_parser.specs.code.Reads.{Reads, state_of};
ghost use Rattle.part_parser.specs.code.GrammarReads.{see_items, see_parts, closed_items_at, disj_at, full_part_at, guarded_at, inner_body_at, judged_at, kinds_at, let_at, some_parts_at};

use crate::items::{BodyItems, add};
use crate::lead::{Lead, lead_of};
use crate::read_condition::{QueryHead, RuleHead, conds, opt_conds, ruled, tested};
use crate::read_query::{query, value};
use guard_syntax::{Body, Disj, Let, Part};
use literal_parser::{Cursor, Halt, TokenTest, Tokens};
use std::alloc::Global;

/// `let name = value`
#[tactic(auto, unfolding(crate::specs::code::Reading::let_of))]
pub fn let_of(
    alloc: Global,
    tokens: Tokens<'_>,
    cursor: &mut Cursor,
    depth: usize,
) -> Result<Let, Halt>
    requires room { depth ≤ 128 }
    ensures { Reads see_let (let_at tokens.entry depth (state_of cursor.old) cursor.old.seen) result cursor.new }
{
    let site = cursor.opens(tokens)?;
    cursor.takes(tokens, TokenTest::Let)?;
    let name = cursor.has_name(alloc, tokens, TokenTest::Name)?;
    cursor.takes(tokens, TokenTest::Assign)?;
    let value = value(alloc, tokens, cursor, depth)?;
    Ok(Let { site, name, value })
}

/// A body, one bracket deeper.
#[cycle(bodies)]
#[tactic(auto, unfolding(crate::specs::code::Reading::body_of))]
pub fn body(
    alloc: Global,
    tokens: Tokens<'_>,
    cursor: &mut Cursor,
    depth: usize,
) -> Result<Body, Halt>
    requires room { depth ≤ 128 }
    ensures { Reads see_body (inner_body_at tokens.entry depth (state_of cursor.old) cursor.old.seen) result cursor.new }
{
    if depth == 0 {
        return Err(Halt::Dead(cursor.seen));
    }
    let site = cursor.opens(tokens)?;
    cursor.takes(tokens, TokenTest::LBrace)?;
    let mut found = BodyItems {
        lets: Vec::new(alloc),
        parts: Vec::new(alloc),
    };
    add_items(alloc, tokens, cursor, depth - 1, &mut found)?;
    Ok(Body {
        site,
        lets: found.lets,
        parts: found.parts,
    })
}

/// The lets and the parts of a body, up to its brace.
#[cycle(bodies)]
#[tactic(auto, unfolding(crate::specs::code::Reading::body_items, literal_parser::specs::code::Parser::choose))]
fn add_items(
    alloc: Global,
    tokens: Tokens<'_>,
    cursor: &mut Cursor,
    depth: usize,
    found: &mut BodyItems,
) -> Result<(), Halt>
    requires room { depth ≤ 128 }
    requires no_lets { found.old.lets.items ≡ [] }
    requires no_parts { found.old.parts.items ≡ [] }
    ensures { Reads (λ _. see_items found.new.lets found.new.parts) (closed_items_at tokens.entry depth (state_of cursor.old) cursor.old.seen) result cursor.new }
{
    for _turn in 0..tokens.turns {
        if cursor.sees(tokens, TokenTest::Let) {
            add(&mut found.lets, let_of(alloc, tokens, cursor, depth))?;
            continue;
        }
        if !cursor.sees(tokens, TokenTest::Part) {
            if found.parts.is_empty() {
                return Err(Halt::Dead(cursor.seen));
            }
            return cursor.takes(tokens, TokenTest::RBrace);
        }
        add(&mut found.parts, disj(alloc, tokens, cursor, depth))?;
    }
    Err(Halt::Dead(cursor.seen))
}

/// Parts joined by `or`.
#[cycle(bodies)]
#[tactic(auto, unfolding(crate::specs::code::Reading::disj_of))]
pub fn disj(
    alloc: Global,
    tokens: Tokens<'_>,
    cursor: &mut Cursor,
    depth: usize,
) -> Result<Disj, Halt>
    requires room { depth ≤ 128 }
    ensures { Reads see_disj (disj_at tokens.entry depth (state_of cursor.old) cursor.old.seen) result cursor.new }
{
    let site = cursor.opens(tokens)?;
    let mut parts = Vec::new(alloc);
    add_parts(alloc, tokens, cursor, depth, &mut parts)?;
    Ok(Disj { site, parts })
}

/// One part or more, with `or` between them.
#[cycle(bodies)]
#[tactic(auto, unfolding(crate::specs::code::Reading::ors, literal_parser::specs::code::Parser::choose))]
fn add_parts(
    alloc: Global,
    tokens: Tokens<'_>,
    cursor: &mut Cursor,
    depth: usize,
    found: &mut Vec<Part>,
) -> Result<(), Halt>
    requires room { depth ≤ 128 }
    requires none { found.old.items ≡ [] }
    ensures { Reads (λ _. see_parts found.new) (some_parts_at tokens.entry depth (state_of cursor.old) cursor.old.seen) result cursor.new }
{
    // So many items may stand behind the first.
    let mut left = tokens.turns;
    'items: loop {
        add(found, part(alloc, tokens, cursor, depth))?;
        if left == 0 {
            return Err(Halt::Dead(cursor.seen));
        }
        left -= 1;
        if !cursor.sees(tokens, TokenTest::Or) {
            return Ok(());
        }
        cursor.takes(tokens, TokenTest::Or)?;
    }
}

/// A part of a body. Where no bracket more may open, a word that needs one goes no further.
#[cycle(bodies)]
#[tactic(auto, unfolding(crate::specs::code::Reading::full_part, literal_parser::specs::code::Parser::choose))]
fn part(alloc: Global, tokens: Tokens<'_>, cursor: &mut Cursor, depth: usize) -> Result<Part, Halt>
    requires room { depth ≤ 128 }
    ensures { Reads see_part (full_part_at tokens.entry depth (state_of cursor.old) cursor.old.seen) result cursor.new }
{
    let site = cursor.opens(tokens)?;
    if cursor.sees(tokens, TokenTest::When) {
        if depth == 0 {
            return Err(Halt::Dead(cursor.seen));
        }
        return guarded(alloc, tokens, cursor, depth, site);
    }
    if cursor.sees(tokens, TokenTest::TypeName) {
        if depth == 0 {
            return Err(Halt::Dead(cursor.seen));
        }
        return kinds(alloc, tokens, cursor, depth, site);
    }
    match lead_of(tokens, cursor, TokenTest::PartLead)? {
        Lead::Query { any } => {
            let query = query(alloc, tokens, cursor, depth)?;
            judged(alloc, tokens, cursor, depth, QueryHead { site, any, query })
        }
        Lead::Rule { not } => {
            let name = cursor.has_text(alloc, tokens, TokenTest::Name)?;
            ruled(alloc, tokens, cursor, depth, RuleHead { site, not, name })
        }
    }
}

/// `when`, conditions and a body.
#[cycle(bodies)]
#[tactic(auto, unfolding(crate::specs::code::Reading::guarded_part))]
fn guarded(
    alloc: Global,
    tokens: Tokens<'_>,
    cursor: &mut Cursor,
    depth: usize,
    site: u32,
) -> Result<Part, Halt>
    requires room { depth ≤ 128 }
    ensures { Reads see_part (guarded_at tokens.entry depth site (state_of cursor.old) cursor.old.seen) result cursor.new }
{
    cursor.takes(tokens, TokenTest::When)?;
    let cond = conds(alloc, tokens, cursor, depth)?;
    let body = body(alloc, tokens, cursor, depth)?;
    Ok(Part::When { site, cond, body })
}

/// The name of a type and a body, with conditions or without.
#[cycle(bodies)]
#[tactic(auto, unfolding(crate::specs::code::Reading::kinds_part))]
fn kinds(
    alloc: Global,
    tokens: Tokens<'_>,
    cursor: &mut Cursor,
    depth: usize,
    site: u32,
) -> Result<Part, Halt>
    requires room { depth ≤ 128 }
    ensures { Reads see_part (kinds_at tokens.entry depth site (state_of cursor.old) cursor.old.seen) result cursor.new }
{
    let name = cursor.has_text(alloc, tokens, TokenTest::TypeName)?;
    let cond = opt_conds(alloc, tokens, cursor, depth)?;
    let body = body(alloc, tokens, cursor, depth)?;
    Ok(Part::Kinds {
        site,
        name,
        cond,
        body,
    })
}

/// What stands behind a query: the body of a block, or a test.
#[cycle(bodies)]
#[tactic(auto, unfolding(crate::specs::code::Reading::judged, literal_parser::specs::code::Parser::choose))]
fn judged(
    alloc: Global,
    tokens: Tokens<'_>,
    cursor: &mut Cursor,
    depth: usize,
    head: QueryHead,
) -> Result<Part, Halt>
    requires room { depth ≤ 128 }
    ensures { Reads see_part (judged_at tokens.entry depth head.site head.any (see_query head.query) (state_of cursor.old) cursor.old.seen) result cursor.new }
{
    if !cursor.sees(tokens, TokenTest::LBrace) {
        return tested(alloc, tokens, cursor, depth, head);
    }
    let body = body(alloc, tokens, cursor, depth)?;
    Ok(Part::Block {
        site: head.site,
        any: head.any,
        head: head.query,
        body,
    })
}
