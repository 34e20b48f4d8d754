//! The edges of each part of a rule file, in the order in which the parts stand.
ghost use Rattle.std.specs.Prelude.{◌≡◌, ◌++◌, IfOk, map};
ghost use Rattle.guard_syntax.specs.code.Seen.{see_file, see_let, see_rule, see_body, see_conds, see_opt_conds, see_disj, see_part, see_query, see_step, see_expr, see_opt_expr, let_list, disj_list, part_list, expr_list};
ghost use Rattle.reference_cycles.specs.code.RuleIndexes.{rules_of};
ghost use Rattle.reference_cycles.specs.code.FileEdges.{items_edges};
ghost use Rattle.reference_cycles.specs.code.FilterEdges.{edges_of_filter};
ghost use Rattle.name_scopes.specs.code.ScopeChains.{visible_in};
ghost use Rattle.rule_names.specs.ReferenceGraph.{edges_of_rules, edges_of_rule, edges_of_body, edges_of_lets, edges_of_conds, edges_of_opt_conds, edges_of_disjs, edges_of_parts, edges_of_part, edges_of_query, edges_of_step, edges_of_expr, edges_of_opt_expr, edges_of_exprs};

use crate::edges::leads::{
    Edge, to_disjs, to_exprs, to_last, to_opt_conds, to_parts, to_site, to_values,
};
use crate::edges::parts::from_part;
use crate::edges::rule_index::RuleIndex;
use crate::edges::uses::{from_capture, to_before, to_variable};
use guard_syntax::{
    Body, Conds, Disj, Expr, Let, Name, Part, Query, RawFile, Rule, Step, StepForm,
};
use name_scopes::binders::Binders;
use name_scopes::scope_chain::ScopeChain;
use name_scopes::scopes::{body_names, filter_names};
use rule_names::siblings::HasSite;
use std::alloc::AllocError;

/// Adds the edges of a body, which is a scope with parameters.
#[cycle(edges)]
fn in_body<'f>(
    rule_index: &RuleIndex<'f>,
    params: &'f [Name],
    body: &'f Body,
    outer: &ScopeChain<'f, '_>,
    edges: &mut Vec<Edge>,
) -> Result<(), AllocError>
    ensures { IfOk result (λ _. edges.new.items ≡ edges.old.items ++ edges_of_body (rules_of rule_index.now) rule_index.now.count (visible_in outer.now) params.entry.now (see_body body.entry.now)) }
{
    to_values(body.site as u64, &body.lets, edges)?;
    to_disjs(body.site as u64, &body.parts, edges)?;
    let own = Binders::new(
        rule_index.alloc,
        body_names(rule_index.alloc, params, body)?,
    )?;
    let inner = ScopeChain::inside(&own, &*outer);
    in_lets(rule_index, &body.lets, &inner, edges)?;
    in_disjs(rule_index, &body.parts, &inner, edges)
}

/// Adds the edges of lets.
#[cycle(edges)]
fn in_lets<'f>(
    rule_index: &RuleIndex<'f>,
    lets: &'f [Let],
    chain: &ScopeChain<'f, '_>,
    edges: &mut Vec<Edge>,
) -> Result<(), AllocError>
    ensures { IfOk result (λ _. edges.new.items ≡ edges.old.items ++ edges_of_lets (rules_of rule_index.now) rule_index.now.count (visible_in chain.now) (let_list (map see_let lets.entry.now))) }
{
    for given in lets {
        to_site(
            rule_index.variable_node(given.site),
            given.value.site(),
            edges,
        )?;
        in_expr(rule_index, &given.value, chain, edges)?;
    }
    Ok(())
}

/// Adds the edges of conditions.
#[cycle(edges)]
fn in_conds<'f>(
    rule_index: &RuleIndex<'f>,
    conds: &'f Conds,
    chain: &ScopeChain<'f, '_>,
    edges: &mut Vec<Edge>,
) -> Result<(), AllocError>
    ensures { IfOk result (λ _. edges.new.items ≡ edges.old.items ++ edges_of_conds (rules_of rule_index.now) rule_index.now.count (visible_in chain.now) (see_conds conds.entry.now)) }
{
    to_disjs(conds.site as u64, &conds.parts, edges)?;
    in_disjs(rule_index, &conds.parts, chain, edges)
}

/// Adds the edges of conditions, if there are any.
#[cycle(edges)]
fn in_opt_conds<'f>(
    rule_index: &RuleIndex<'f>,
    conds: &'f Option<Conds>,
    chain: &ScopeChain<'f, '_>,
    edges: &mut Vec<Edge>,
) -> Result<(), AllocError>
    ensures { IfOk result (λ _. edges.new.items ≡ edges.old.items ++ edges_of_opt_conds (rules_of rule_index.now) rule_index.now.count (visible_in chain.now) (see_opt_conds conds.entry.now)) }
{
    match conds {
        Some(conds) => in_conds(rule_index, conds, chain, edges),
        None => Ok(()),
    }
}

/// Adds the edges of disjunctions.
#[cycle(edges)]
fn in_disjs<'f>(
    rule_index: &RuleIndex<'f>,
    disjs: &'f [Disj],
    chain: &ScopeChain<'f, '_>,
    edges: &mut Vec<Edge>,
) -> Result<(), AllocError>
    ensures { IfOk result (λ _. edges.new.items ≡ edges.old.items ++ edges_of_disjs (rules_of rule_index.now) rule_index.now.count (visible_in chain.now) (disj_list (map see_disj disjs.entry.now))) }
{
    for disj in disjs {
        to_parts(disj.site as u64, &disj.parts, edges)?;
        in_parts(rule_index, &disj.parts, chain, edges)?;
    }
    Ok(())
}

/// Adds the edges of parts that are joined by `or`.
#[cycle(edges)]
fn in_parts<'f>(
    rule_index: &RuleIndex<'f>,
    parts: &'f [Part],
    chain: &ScopeChain<'f, '_>,
    edges: &mut Vec<Edge>,
) -> Result<(), AllocError>
    ensures { IfOk result (λ _. edges.new.items ≡ edges.old.items ++ edges_of_parts (rules_of rule_index.now) rule_index.now.count (visible_in chain.now) (part_list (map see_part parts.entry.now))) }
{
    for part in parts {
        in_part(rule_index, part, chain, edges)?;
    }
    Ok(())
}

/// Adds the edges of a part.
#[cycle(edges)]
fn in_part<'f>(
    rule_index: &RuleIndex<'f>,
    part: &'f Part,
    chain: &ScopeChain<'f, '_>,
    edges: &mut Vec<Edge>,
) -> Result<(), AllocError>
    ensures { IfOk result (λ _. edges.new.items ≡ edges.old.items ++ edges_of_part (rules_of rule_index.now) rule_index.now.count (visible_in chain.now) (see_part part.entry.now)) }
{
    from_part(rule_index, part, edges)?;
    match part {
        Part::Block { head, body, .. } => {
            in_query(rule_index, head, chain, edges)?;
            in_body(rule_index, &[], body, chain, edges)
        }
        Part::When { cond, body, .. } => {
            in_conds(rule_index, cond, chain, edges)?;
            in_body(rule_index, &[], body, chain, edges)
        }
        Part::Kinds { cond, body, .. } => {
            in_opt_conds(rule_index, cond, chain, edges)?;
            in_body(rule_index, &[], body, chain, edges)
        }
        Part::Test { left, right, .. } => {
            in_query(rule_index, left, chain, edges)?;
            in_opt_expr(rule_index, right, chain, edges)
        }
        Part::Refer { .. } => Ok(()),
        Part::Call { args, .. } => in_exprs(rule_index, args, chain, edges),
    }
}

/// Adds the edges of a query.
#[cycle(edges)]
fn in_query<'f>(
    rule_index: &RuleIndex<'f>,
    query: &'f Query,
    chain: &ScopeChain<'f, '_>,
    edges: &mut Vec<Edge>,
) -> Result<(), AllocError>
    ensures { IfOk result (λ _. edges.new.items ≡ edges.old.items ++ edges_of_query (rules_of rule_index.now) rule_index.now.count (visible_in chain.now) (see_query query.entry.now)) }
{
    to_last(query.site, &query.steps, edges)?;
    let mut before = None;
    for step in &query.steps {
        to_before(rule_index, step.site, before, edges)?;
        in_step(rule_index, step, chain, edges)?;
        before = Some(step.site);
    }
    Ok(())
}

/// Adds the edges of a step.
#[cycle(edges)]
fn in_step<'f>(
    rule_index: &RuleIndex<'f>,
    step: &'f Step,
    chain: &ScopeChain<'f, '_>,
    edges: &mut Vec<Edge>,
) -> Result<(), AllocError>
    ensures { IfOk result (λ _. edges.new.items ≡ edges.old.items ++ edges_of_step (rules_of rule_index.now) rule_index.now.count (visible_in chain.now) (see_step step.entry.now)) }
{
    match &step.form {
        StepForm::Var(name) => to_variable(rule_index, step.site, name.as_str(), chain, edges),
        StepForm::Splice(name) => to_variable(rule_index, step.site, name.as_str(), chain, edges),
        StepForm::Filter(capture, conds) => {
            from_capture(rule_index, step.site, capture, edges)?;
            in_filter(rule_index, step.site, conds, chain, edges)
        }
        StepForm::Keys { capture, right, .. } => {
            from_capture(rule_index, step.site, capture, edges)?;
            to_site(step.site as u64, right.site(), edges)?;
            in_expr(rule_index, right, chain, edges)
        }
        StepForm::This
        | StepForm::Key(_)
        | StepForm::Index(_)
        | StepForm::Every
        | StepForm::Items => Ok(()),
    }
}

/// Adds the edges of the step of a filter, whose conditions are a scope.
#[cycle(edges)]
fn in_filter<'f>(
    rule_index: &RuleIndex<'f>,
    site: u32,
    conds: &'f Conds,
    outer: &ScopeChain<'f, '_>,
    edges: &mut Vec<Edge>,
) -> Result<(), AllocError>
    ensures { IfOk result (λ _. edges.new.items ≡ edges.old.items ++ edges_of_filter (rules_of rule_index.now) rule_index.now.count (visible_in outer.now) site (see_conds conds.entry.now)) }
{
    to_site(site as u64, conds.site, edges)?;
    let own = Binders::new(rule_index.alloc, filter_names(rule_index.alloc, conds)?)?;
    let inner = ScopeChain::inside(&own, &*outer);
    in_conds(rule_index, conds, &inner, edges)
}

/// Adds the edges of an expression.
#[cycle(edges)]
fn in_expr<'f>(
    rule_index: &RuleIndex<'f>,
    expr: &'f Expr,
    chain: &ScopeChain<'f, '_>,
    edges: &mut Vec<Edge>,
) -> Result<(), AllocError>
    ensures { IfOk result (λ _. edges.new.items ≡ edges.old.items ++ edges_of_expr (rules_of rule_index.now) rule_index.now.count (visible_in chain.now) (see_expr expr.entry.now)) }
{
    match expr {
        Expr::Literal { .. } => Ok(()),
        Expr::Function { site, args, .. } => {
            to_exprs(*site as u64, args, edges)?;
            in_exprs(rule_index, args, chain, edges)
        }
        Expr::Query(query) => in_query(rule_index, query, chain, edges),
        Expr::Found { site, query } => {
            to_site(*site as u64, query.site, edges)?;
            in_query(rule_index, query, chain, edges)
        }
    }
}

/// Adds the edges of the right side of a test, if it has one.
#[cycle(edges)]
fn in_opt_expr<'f>(
    rule_index: &RuleIndex<'f>,
    expr: &'f Option<Expr>,
    chain: &ScopeChain<'f, '_>,
    edges: &mut Vec<Edge>,
) -> Result<(), AllocError>
    ensures { IfOk result (λ _. edges.new.items ≡ edges.old.items ++ edges_of_opt_expr (rules_of rule_index.now) rule_index.now.count (visible_in chain.now) (see_opt_expr expr.entry.now)) }
{
    match expr {
        Some(expr) => in_expr(rule_index, expr, chain, edges),
        None => Ok(()),
    }
}

/// Adds the edges of arguments.
#[cycle(edges)]
fn in_exprs<'f>(
    rule_index: &RuleIndex<'f>,
    exprs: &'f [Expr],
    chain: &ScopeChain<'f, '_>,
    edges: &mut Vec<Edge>,
) -> Result<(), AllocError>
    ensures { IfOk result (λ _. edges.new.items ≡ edges.old.items ++ edges_of_exprs (rules_of rule_index.now) rule_index.now.count (visible_in chain.now) (expr_list (map see_expr exprs.entry.now))) }
{
    for expr in exprs {
        in_expr(rule_index, expr, chain, edges)?;
    }
    Ok(())
}

/// Adds the edges of a rule.
fn in_rule<'f>(
    rule_index: &RuleIndex<'f>,
    rule: &'f Rule,
    chain: &ScopeChain<'f, '_>,
    edges: &mut Vec<Edge>,
) -> Result<(), AllocError>
    ensures { IfOk result (λ _. edges.new.items ≡ edges.old.items ++ edges_of_rule (rules_of rule_index.now) rule_index.now.count (visible_in chain.now) (see_rule rule.entry.now)) }
{
    let name = rule_index.rule_node(rule.site);
    to_opt_conds(name, &rule.cond, edges)?;
    to_site(name, rule.body.site, edges)?;
    in_opt_conds(rule_index, &rule.cond, chain, edges)?;
    in_body(rule_index, rule.params.as_slice(), &rule.body, chain, edges)
}

/// Adds the edges of rules.
fn in_rules<'f>(
    rule_index: &RuleIndex<'f>,
    rules: &'f [Rule],
    chain: &ScopeChain<'f, '_>,
    edges: &mut Vec<Edge>,
) -> Result<(), AllocError>
    ensures { IfOk result (λ _. edges.new.items ≡ edges.old.items ++ edges_of_rules (rules_of rule_index.now) rule_index.now.count (visible_in chain.now) (map see_rule rules.entry.now)) }
{
    for rule in rules {
        in_rule(rule_index, rule, chain, edges)?;
    }
    Ok(())
}

/// Adds the edges of what stands in a file.
pub(crate) fn in_file<'f>(
    rule_index: &RuleIndex<'f>,
    file: &'f RawFile,
    chain: &ScopeChain<'f, '_>,
    edges: &mut Vec<Edge>,
) -> Result<(), AllocError>
    ensures { IfOk result (λ _. edges.new.items ≡ edges.old.items ++ items_edges (rules_of rule_index.now) rule_index.now.count (visible_in chain.now) (see_file file.entry.now)) }
{
    in_lets(rule_index, &file.lets, chain, edges)?;
    in_rules(rule_index, &file.rules, chain, edges)?;
    in_disjs(rule_index, &file.loose, chain, edges)
}
