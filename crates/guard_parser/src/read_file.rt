//! The grammar of a file: its lets, its rules and its parts.
ghost use Rattle.std.specs.Prelude.{◌≡◌, ◌≤◌, []};
ghost use Rattle.guard_syntax.specs.code.Seen.{see_rule};
ghost use Rattle.literal_parser.specs.code.Reads.{Reads, state_of};
ghost use Rattle.guard_parser.specs.code.FileReads.{see_head, see_file_items, closed_names_at, params_at, head_at, rule_at, items_at, whole_file_at};

use guard_syntax::{Conds, Disj, Let, Name, Names, Rule};
use literal_parser::{Cursor, Halt, TokenTest, Tokens};
use part_parser::{add, body, disj, let_of, opt_conds};
use std::alloc::Global;

/// The lets, the rules and the parts of a file.
#[derive(Drop)]
pub(crate) struct FileItems {
    pub(crate) lets: Vec<Let>,
    pub(crate) rules: Vec<Rule>,
    pub(crate) loose: Vec<Disj>,
}

/// The parameters of a rule.
#[tactic(auto, unfolding(crate::specs::code::FileReading::params))]
fn params(alloc: Global, tokens: Tokens<'_>, cursor: &mut Cursor) -> Result<Vec<Name>, Halt>
    ensures { Reads (λ v. v.items) (params_at tokens.entry (state_of cursor.old) cursor.old.seen) result cursor.new }
{
    cursor.takes(tokens, TokenTest::LParen)?;
    let mut found = Vec::new(alloc);
    add_names(alloc, tokens, cursor, &mut found)?;
    Ok(found)
}

/// One name or more, up to their parenthesis.
#[tactic(auto, unfolding(crate::specs::code::FileReading::names, literal_parser::specs::code::Parser::choose))]
fn add_names(
    alloc: Global,
    tokens: Tokens<'_>,
    cursor: &mut Cursor,
    found: &mut Vec<Name>,
) -> Result<(), Halt>
    requires none { found.old.items ≡ [] }
    ensures { Reads (λ _. found.new.items) (closed_names_at tokens.entry (state_of cursor.old) cursor.old.seen) result cursor.new }
{
    // So many items may stand behind the first.
    let mut left = tokens.turns;
    'items: loop {
        add(found, cursor.has_name(alloc, tokens, TokenTest::Name))?;
        if left == 0 {
            return Err(Halt::Dead(cursor.seen));
        }
        left -= 1;
        if !cursor.sees(tokens, TokenTest::Comma) {
            return cursor.takes(tokens, TokenTest::RParen);
        }
        cursor.takes(tokens, TokenTest::Comma)?;
    }
}

/// The parameters of a rule, or its conditions.
#[tactic(auto, unfolding(crate::specs::code::FileReading::head, literal_parser::specs::code::Parser::choose))]
fn head(
    alloc: Global,
    tokens: Tokens<'_>,
    cursor: &mut Cursor,
    depth: usize,
) -> Result<(Names, Option<Conds>), Halt>
    requires room { depth ≤ 128 }
    ensures { Reads see_head (head_at tokens.entry depth (state_of cursor.old) cursor.old.seen) result cursor.new }
{
    if cursor.sees(tokens, TokenTest::LParen) {
        let params = params(alloc, tokens, cursor)?;
        return Ok((Names::new(params), None));
    }
    let cond = opt_conds(alloc, tokens, cursor, depth)?;
    Ok((Names::new(Vec::new(alloc)), cond))
}

/// A rule.
#[tactic(auto, unfolding(crate::specs::code::FileReading::rule_of))]
fn rule(alloc: Global, tokens: Tokens<'_>, cursor: &mut Cursor, depth: usize) -> Result<Rule, Halt>
    requires room { depth ≤ 128 }
    ensures { Reads see_rule (rule_at tokens.entry depth (state_of cursor.old) cursor.old.seen) result cursor.new }
{
    let site = cursor.opens(tokens)?;
    cursor.takes(tokens, TokenTest::Rule)?;
    let name = cursor.has_name(alloc, tokens, TokenTest::RuleName)?;
    let (params, cond) = head(alloc, tokens, cursor, depth)?;
    let body = body(alloc, tokens, cursor, depth)?;
    Ok(Rule {
        site,
        name,
        params,
        cond,
        body,
    })
}

/// The lets, the rules and the parts of a file, up to what begins none.
#[tactic(auto, unfolding(crate::specs::code::FileReading::file_items, literal_parser::specs::code::Parser::choose))]
fn add_items(
    alloc: Global,
    tokens: Tokens<'_>,
    cursor: &mut Cursor,
    depth: usize,
    found: &mut FileItems,
) -> Result<(), Halt>
    requires room { depth ≤ 128 }
    requires no_lets { found.old.lets.items ≡ [] }
    requires no_rules { found.old.rules.items ≡ [] }
    requires no_parts { found.old.loose.items ≡ [] }
    ensures { Reads (λ _. see_file_items found.new) (items_at tokens.entry depth tokens.entry.turns (state_of cursor.old) cursor.old.seen) result cursor.new }
{
    for _turn in 0..tokens.turns {
        if cursor.sees(tokens, TokenTest::Let) {
            add(&mut found.lets, let_of(alloc, tokens, cursor, depth))?;
            continue;
        }
        if cursor.sees(tokens, TokenTest::Rule) {
            add(&mut found.rules, rule(alloc, tokens, cursor, depth))?;
            continue;
        }
        if !cursor.sees(tokens, TokenTest::Part) {
            return Ok(());
        }
        add(&mut found.loose, disj(alloc, tokens, cursor, depth))?;
    }
    Err(Halt::Dead(cursor.seen))
}

/// The contents of a file, with its site before them and nothing behind them.
#[tactic(auto, unfolding(crate::specs::code::FileReading::whole_file, crate::specs::code::FileReading::contents, literal_parser::specs::code::Parser::choose))]
pub(crate) fn whole_file(
    alloc: Global,
    tokens: Tokens<'_>,
    cursor: &mut Cursor,
    depth: usize,
) -> Result<FileItems, Halt>
    requires room { depth ≤ 128 }
    ensures { Reads see_file_items (whole_file_at tokens.entry depth (state_of cursor.old) cursor.old.seen) result cursor.new }
{
    cursor.opens(tokens)?;
    let mut found = FileItems {
        lets: Vec::new(alloc),
        rules: Vec::new(alloc),
        loose: Vec::new(alloc),
    };
    add_items(alloc, tokens, cursor, depth, &mut found)?;
    if cursor.sees_end(tokens) {
        return Ok(found);
    }
    Err(Halt::Dead(cursor.seen))
}
