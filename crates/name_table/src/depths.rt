//! The Depths of the parts of a file, in one walk over them. It notes the Depth of each site that has one.
#![tactic(auto)]

ghost use Rattle.std.specs.Prelude.{map};
ghost use Rattle.guard_syntax.specs.code.Seen.{see_rule, see_let, see_body, see_conds, see_opt_conds, see_disj, see_part, see_query, see_form, see_step, see_expr, see_opt_expr, let_list, disj_list, part_list, expr_list};
ghost use Rattle.rule_names.specs.Depths.{depth_body, depth_lets, depth_conds, depth_opt_conds, depth_disjs, depth_disj, depth_parts, depth_part, depth_query, depth_step, depth_expr, depth_opt_expr, depth_exprs, depth_rule};
ghost use Rattle.rule_names.specs.code.Forms.{pieces_form};
ghost use Rattle.name_table.specs.code.Measured.{Measured};
ghost use Rattle.name_table.specs.code.Measures.{file_of, known_of, depth_rules, depth_items};
ghost use Rattle.rule_names.specs.Pieces.{pieces_body, pieces_lets, pieces_conds, pieces_opt_conds, pieces_disjs, pieces_disj, pieces_parts, pieces_part, pieces_query, pieces_expr, pieces_opt_expr, pieces_exprs, pieces_rule, pieces_rules, pieces_file};

use crate::measure::{Measure, deeper, deeper_by, larger, note};
use guard_syntax::{Body, Conds, Disj, Expr, Let, Part, Query, Rule, Step, StepForm};

/// The Depth of a body, which adds nothing of its own.
#[cycle(depths)]
fn of_body(measure: &Measure<'_>, body: &Body, table: &mut [u8]) -> u8
    ensures { Measured (file_of measure.now) (known_of measure.now) (pieces_body (see_body body.now)) (depth_body (file_of measure.now) (known_of measure.now) (see_body body.now)) table.old table.new result }
{
    let lets = of_lets(measure, &body.lets, table);
    let parts = of_disjs(measure, &body.parts, table);
    larger(lets, parts)
}

/// The greatest Depth of lets, which count as their expressions.
#[cycle(depths)]
fn of_lets(measure: &Measure<'_>, lets: &[Let], table: &mut [u8]) -> u8
    ensures { Measured (file_of measure.now) (known_of measure.now) (pieces_lets (let_list (map see_let lets.now))) (depth_lets (file_of measure.now) (known_of measure.now) (let_list (map see_let lets.now))) table.old table.new result }
{
    let mut depth = 0;
    for given in lets {
        depth = larger(depth, of_expr(measure, &given.value, table));
    }
    depth
}

/// The Depth of conditions, which add nothing of their own.
#[cycle(depths)]
fn of_conds(measure: &Measure<'_>, conds: &Conds, table: &mut [u8]) -> u8
    ensures { Measured (file_of measure.now) (known_of measure.now) (pieces_conds (see_conds conds.now)) (depth_conds (file_of measure.now) (known_of measure.now) (see_conds conds.now)) table.old table.new result }
{
    of_disjs(measure, &conds.parts, table)
}

/// The Depth of conditions, if there are any.
#[cycle(depths)]
fn of_opt_conds(measure: &Measure<'_>, conds: &Option<Conds>, table: &mut [u8]) -> u8
    ensures { Measured (file_of measure.now) (known_of measure.now) (pieces_opt_conds (see_opt_conds conds.now)) (depth_opt_conds (file_of measure.now) (known_of measure.now) (see_opt_conds conds.now)) table.old table.new result }
{
    match conds {
        Some(conds) => of_conds(measure, conds, table),
        None => 0,
    }
}

/// The greatest Depth of disjunctions.
#[cycle(depths)]
fn of_disjs(measure: &Measure<'_>, disjs: &[Disj], table: &mut [u8]) -> u8
    ensures { Measured (file_of measure.now) (known_of measure.now) (pieces_disjs (disj_list (map see_disj disjs.now))) (depth_disjs (file_of measure.now) (known_of measure.now) (disj_list (map see_disj disjs.now))) table.old table.new result }
{
    let mut depth = 0;
    for disj in disjs {
        depth = larger(depth, of_disj(measure, disj, table));
    }
    depth
}

/// The Depth of a disjunction, which adds nothing of its own.
#[cycle(depths)]
pub(crate) fn of_disj(measure: &Measure<'_>, disj: &Disj, table: &mut [u8]) -> u8
    ensures { Measured (file_of measure.now) (known_of measure.now) (pieces_disj (see_disj disj.now)) (depth_disj (file_of measure.now) (known_of measure.now) (see_disj disj.now)) table.old table.new result }
{
    of_parts(measure, &disj.parts, table)
}

/// The greatest Depth of parts that are joined by `or`.
#[cycle(depths)]
fn of_parts(measure: &Measure<'_>, parts: &[Part], table: &mut [u8]) -> u8
    ensures { Measured (file_of measure.now) (known_of measure.now) (pieces_parts (part_list (map see_part parts.now))) (depth_parts (file_of measure.now) (known_of measure.now) (part_list (map see_part parts.now))) table.old table.new result }
{
    let mut depth = 0;
    for part in parts {
        depth = larger(depth, of_part(measure, part, table));
    }
    depth
}

/// The Depth of a part: 1 more than the greatest of what it consists of.
#[cycle(depths)]
fn of_part(measure: &Measure<'_>, part: &Part, table: &mut [u8]) -> u8
    ensures { Measured (file_of measure.now) (known_of measure.now) (pieces_part (see_part part.now)) (depth_part (file_of measure.now) (known_of measure.now) (see_part part.now)) table.old table.new result }
{
    match part {
        Part::Block { head, body, .. } => {
            let head = of_query(measure, head, table);
            let body = of_body(measure, body, table);
            deeper(larger(head, body))
        }
        Part::When { cond, body, .. } => {
            let cond = of_conds(measure, cond, table);
            let body = of_body(measure, body, table);
            deeper(larger(cond, body))
        }
        Part::Kinds { cond, body, .. } => {
            let cond = of_opt_conds(measure, cond, table);
            let body = of_body(measure, body, table);
            deeper(larger(cond, body))
        }
        Part::Test { left, right, .. } => {
            let left = of_query(measure, left, table);
            let right = of_opt_expr(measure, right, table);
            deeper(larger(left, right))
        }
        Part::Refer { site, .. } => deeper(measure.target(*site)),
        Part::Call { site, args, .. } => {
            let args = of_exprs(measure, args, table);
            deeper_by(measure.target(*site), args)
        }
    }
}

/// The Depth of a query. A step has that of the query up to it.
#[cycle(depths)]
fn of_query(measure: &Measure<'_>, query: &Query, table: &mut [u8]) -> u8
    ensures { Measured (file_of measure.now) (known_of measure.now) (pieces_query (see_query query.now)) (depth_query (file_of measure.now) (known_of measure.now) (see_query query.now)) table.old table.new result }
{
    let mut depth = 0;
    for step in &query.steps {
        depth = larger(depth, of_step(measure, step, table));
        note(table, step.site, deeper(depth));
    }
    let whole = deeper(depth);
    note(table, query.site, whole);
    whole
}

/// The Depth that a step gives its query. The use of a variable counts 1 more than what it means.
#[cycle(depths)]
fn of_step(measure: &Measure<'_>, step: &Step, table: &mut [u8]) -> u8
    ensures { Measured (file_of measure.now) (known_of measure.now) (pieces_form (see_form step.now.form)) (depth_step (file_of measure.now) (known_of measure.now) (see_step step.now)) table.old table.new result }
{
    match &step.form {
        StepForm::Var(_) => deeper(measure.bound(step.site)),
        StepForm::Splice(_) => deeper(measure.bound(step.site)),
        StepForm::Filter(_, conds) => of_conds(measure, conds, table),
        StepForm::Keys { right, .. } => of_expr(measure, right, table),
        StepForm::This => 0,
        StepForm::Key(_) => 0,
        StepForm::Index(_) => 0,
        StepForm::Every => 0,
        StepForm::Items => 0,
    }
}

/// The Depth of an expression.
#[cycle(depths)]
pub(crate) fn of_expr(measure: &Measure<'_>, expr: &Expr, table: &mut [u8]) -> u8
    ensures { Measured (file_of measure.now) (known_of measure.now) (pieces_expr (see_expr expr.now)) (depth_expr (file_of measure.now) (known_of measure.now) (see_expr expr.now)) table.old table.new result }
{
    match expr {
        Expr::Literal { site, .. } => {
            note(table, *site, 1);
            1
        }
        Expr::Function { site, args, .. } => {
            let depth = deeper(of_exprs(measure, args, table));
            note(table, *site, depth);
            depth
        }
        Expr::Query(query) => of_query(measure, query, table),
        Expr::Found { site, query } => {
            let depth = deeper(of_query(measure, query, table));
            note(table, *site, depth);
            depth
        }
    }
}

/// The Depth of the right side of a test, if it has one.
#[cycle(depths)]
fn of_opt_expr(measure: &Measure<'_>, expr: &Option<Expr>, table: &mut [u8]) -> u8
    ensures { Measured (file_of measure.now) (known_of measure.now) (pieces_opt_expr (see_opt_expr expr.now)) (depth_opt_expr (file_of measure.now) (known_of measure.now) (see_opt_expr expr.now)) table.old table.new result }
{
    match expr {
        Some(expr) => of_expr(measure, expr, table),
        None => 0,
    }
}

/// The greatest Depth of arguments.
#[cycle(depths)]
fn of_exprs(measure: &Measure<'_>, exprs: &[Expr], table: &mut [u8]) -> u8
    ensures { Measured (file_of measure.now) (known_of measure.now) (pieces_exprs (expr_list (map see_expr exprs.now))) (depth_exprs (file_of measure.now) (known_of measure.now) (expr_list (map see_expr exprs.now))) table.old table.new result }
{
    let mut depth = 0;
    for expr in exprs {
        depth = larger(depth, of_expr(measure, expr, table));
    }
    depth
}

/// The Depth of a rule.
pub(crate) fn of_rule(measure: &Measure<'_>, rule: &Rule, table: &mut [u8]) -> u8
    ensures { Measured (file_of measure.now) (known_of measure.now) (pieces_rule (see_rule rule.now)) (depth_rule (file_of measure.now) (known_of measure.now) (see_rule rule.now)) table.old table.new result }
{
    let cond = of_opt_conds(measure, &rule.cond, table);
    let body = of_body(measure, &rule.body, table);
    let depth = deeper(larger(cond, body));
    note(table, rule.site, depth);
    depth
}

/// The greatest Depth of rules.
fn of_rules(measure: &Measure<'_>, rules: &[Rule], table: &mut [u8]) -> u8
    ensures { Measured (file_of measure.now) (known_of measure.now) (pieces_rules (map see_rule rules.now)) (depth_rules (file_of measure.now) (known_of measure.now) (map see_rule rules.now)) table.old table.new result }
{
    let mut depth = 0;
    for rule in rules {
        depth = larger(depth, of_rule(measure, rule, table));
    }
    depth
}

/// The greatest Depth of what stands in a file.
pub(crate) fn of_file(measure: &Measure<'_>, table: &mut [u8]) -> u8
    ensures { Measured (file_of measure.now) (known_of measure.now) (pieces_file (file_of measure.now)) (depth_items (file_of measure.now) (known_of measure.now)) table.old table.new result }
{
    let file = measure.file;
    let lets = of_lets(measure, &file.lets, table);
    let rules = of_rules(measure, &file.rules, table);
    let loose = of_disjs(measure, &file.loose, table);
    larger(lets, larger(rules, loose))
}
