//! The scope in which each part of a rule file stands, noted at the part's site. `home` is the site of the scope around.
ghost use Rattle.std.specs.Prelude.{◌≡◌, map};
ghost use Rattle.guard_syntax.specs.code.Seen.{see_file, see_let, see_rule, see_body, see_conds, see_opt_conds, see_disj, see_part, see_query, see_step, see_expr, see_opt_expr, let_list, disj_list, part_list, expr_list};
ghost use Rattle.rule_names.specs.EnclosingScopes.{with_home, with_homes, homes_in, homes_rules, homes_body, homes_lets, homes_conds, homes_opt_conds, homes_disjs, homes_parts, homes_part, homes_query, homes_step, homes_expr, homes_opt_expr, homes_exprs};

use guard_syntax::{Body, Conds, Disj, Expr, Let, Part, Query, RawFile, Rule, Step, StepForm};
use rule_names::siblings::HasSite;

/// Notes the scope of the part of a site. A site that the table does not have changes nothing.
fn note(table: &mut [u32], site: u32, home: u32)
    ensures { table.new ≡ with_home table.old (site, home) }
{
    let index = site as usize;
    if index < table.len() {
        table[index] = home;
    }
}

/// Notes a body and what is in it, whose scope it is.
#[cycle(homes)]
fn in_body(home: u32, body: &Body, table: &mut [u32])
    ensures { table.new ≡ with_homes table.old (homes_body home (see_body body.now)) }
{
    note(table, body.site, home);
    in_lets(body.site, &body.lets, table);
    in_disjs(body.site, &body.parts, table);
}

/// Notes lets and their expressions.
#[cycle(homes)]
fn in_lets(home: u32, lets: &[Let], table: &mut [u32])
    ensures { table.new ≡ with_homes table.old (homes_lets home (let_list (map see_let lets.now))) }
{
    for given in lets {
        note(table, given.site, home);
        in_expr(home, &given.value, table);
    }
}

/// Notes conditions and what is in them.
#[cycle(homes)]
fn in_conds(home: u32, conds: &Conds, table: &mut [u32])
    ensures { table.new ≡ with_homes table.old (homes_conds home (see_conds conds.now)) }
{
    note(table, conds.site, home);
    in_disjs(home, &conds.parts, table);
}

/// Notes conditions, if there are any.
#[cycle(homes)]
fn in_opt_conds(home: u32, conds: &Option<Conds>, table: &mut [u32])
    ensures { table.new ≡ with_homes table.old (homes_opt_conds home (see_opt_conds conds.now)) }
{
    match conds {
        Some(conds) => in_conds(home, conds, table),
        None => {}
    }
}

/// Notes disjunctions and their parts.
#[cycle(homes)]
fn in_disjs(home: u32, disjs: &[Disj], table: &mut [u32])
    ensures { table.new ≡ with_homes table.old (homes_disjs home (disj_list (map see_disj disjs.now))) }
{
    for disj in disjs {
        note(table, disj.site, home);
        in_parts(home, &disj.parts, table);
    }
}

/// Notes parts that are joined by `or`.
#[cycle(homes)]
fn in_parts(home: u32, parts: &[Part], table: &mut [u32])
    ensures { table.new ≡ with_homes table.old (homes_parts home (part_list (map see_part parts.now))) }
{
    for part in parts {
        in_part(home, part, table);
    }
}

/// Notes a part and what is in it.
#[cycle(homes)]
fn in_part(home: u32, part: &Part, table: &mut [u32])
    ensures { table.new ≡ with_homes table.old (homes_part home (see_part part.now)) }
{
    note(table, part.site(), home);
    match part {
        Part::Block { head, body, .. } => {
            in_query(home, head, table);
            in_body(home, body, table)
        }
        Part::When { cond, body, .. } => {
            in_conds(home, cond, table);
            in_body(home, body, table)
        }
        Part::Kinds { cond, body, .. } => {
            in_opt_conds(home, cond, table);
            in_body(home, body, table)
        }
        Part::Test { left, right, .. } => {
            in_query(home, left, table);
            in_opt_expr(home, right, table)
        }
        Part::Refer { .. } => {}
        Part::Call { args, .. } => in_exprs(home, args, table),
    }
}

/// Notes a query and its steps.
#[cycle(homes)]
fn in_query(home: u32, query: &Query, table: &mut [u32])
    ensures { table.new ≡ with_homes table.old (homes_query home (see_query query.now)) }
{
    note(table, query.site, home);
    for step in &query.steps {
        in_step(home, step, table);
    }
}

/// Notes a step and what is in it. The step of a filter is the scope of its conditions.
#[cycle(homes)]
fn in_step(home: u32, step: &Step, table: &mut [u32])
    ensures { table.new ≡ with_homes table.old (homes_step home (see_step step.now)) }
{
    note(table, step.site, home);
    match &step.form {
        StepForm::Filter(_, conds) => in_conds(step.site, conds, table),
        StepForm::Keys { right, .. } => in_expr(home, right, table),
        StepForm::This => {}
        StepForm::Var(_) => {}
        StepForm::Key(_) => {}
        StepForm::Index(_) => {}
        StepForm::Every => {}
        StepForm::Items => {}
        StepForm::Splice(_) => {}
    }
}

/// Notes an expression and what is in it.
#[cycle(homes)]
fn in_expr(home: u32, expr: &Expr, table: &mut [u32])
    ensures { table.new ≡ with_homes table.old (homes_expr home (see_expr expr.now)) }
{
    match expr {
        Expr::Literal { site, .. } => note(table, *site, home),
        Expr::Function { site, args, .. } => {
            note(table, *site, home);
            in_exprs(home, args, table)
        }
        Expr::Query(query) => in_query(home, query, table),
        Expr::Found { site, query } => {
            note(table, *site, home);
            in_query(home, query, table)
        }
    }
}

/// Notes the right side of a test, if it has one.
#[cycle(homes)]
fn in_opt_expr(home: u32, expr: &Option<Expr>, table: &mut [u32])
    ensures { table.new ≡ with_homes table.old (homes_opt_expr home (see_opt_expr expr.now)) }
{
    match expr {
        Some(expr) => in_expr(home, expr, table),
        None => {}
    }
}

/// Notes arguments.
#[cycle(homes)]
fn in_exprs(home: u32, exprs: &[Expr], table: &mut [u32])
    ensures { table.new ≡ with_homes table.old (homes_exprs home (expr_list (map see_expr exprs.now))) }
{
    for expr in exprs {
        in_expr(home, expr, table);
    }
}

/// Notes rules, their conditions and their bodies.
fn in_rules(home: u32, rules: &[Rule], table: &mut [u32])
    ensures { table.new ≡ with_homes table.old (homes_rules home (map see_rule rules.now)) }
{
    for rule in rules {
        note(table, rule.site, home);
        in_opt_conds(home, &rule.cond, table);
        in_body(home, &rule.body, table);
    }
}

/// Notes what is in a file, whose own site is 0.
pub(crate) fn in_file(file: &RawFile, table: &mut [u32])
    ensures { table.new ≡ with_homes table.old (homes_in (see_file file.now)) }
{
    in_lets(0, &file.lets, table);
    in_rules(0, &file.rules, table);
    in_disjs(0, &file.loose, table);
}
