//! Edges from one node to the parts in it.
ghost use Rattle.std.specs.Prelude.{◌≡◌, ◌++◌, ◌∷◌, [], IfOk, map};
ghost use Rattle.guard_syntax.specs.code.Seen.{see_let, see_opt_conds, see_disj, see_part, see_step, see_expr, see_opt_expr, let_list, disj_list, part_list, step_list, expr_list};
ghost use Rattle.rule_names.specs.ReferenceGraph.{to_each, to_last, value_sites, disj_sites, part_sites, expr_sites, opt_conds_site, opt_expr_site};

use guard_syntax::{Conds, Disj, Expr, Let, Part, Step};
use rule_names::siblings::HasSite;
use std::alloc::AllocError;

/// From one node to another. Nodes of names are above all sites, and may be more than a `u32` counts.
pub(crate) type Edge = (u64, u64);

/// Adds the edge to the part of a site.
pub(crate) fn to_site(from: u64, site: u32, edges: &mut Vec<Edge>) -> Result<(), AllocError>
    ensures { IfOk result (λ _. edges.new.items ≡ edges.old.items ++ to_each from (site ∷ [])) }
{
    edges.push((from, site as u64))?;
    Ok(())
}

/// Adds the edges to the expressions of lets.
pub(crate) fn to_values(from: u64, lets: &[Let], edges: &mut Vec<Edge>) -> Result<(), AllocError>
    ensures { IfOk result (λ _. edges.new.items ≡ edges.old.items ++ to_each from (value_sites (let_list (map see_let lets.now)))) }
{
    for given in lets {
        edges.push((from, given.value.site() as u64))?;
    }
    Ok(())
}

/// Adds the edge to conditions, if there are any.
pub(crate) fn to_opt_conds(
    from: u64,
    conds: &Option<Conds>,
    edges: &mut Vec<Edge>,
) -> Result<(), AllocError>
    ensures { IfOk result (λ _. edges.new.items ≡ edges.old.items ++ to_each from (opt_conds_site (see_opt_conds conds.now))) }
{
    match conds {
        Some(conds) => to_site(from, conds.site, edges),
        None => Ok(()),
    }
}

/// Adds the edges to disjunctions.
pub(crate) fn to_disjs(from: u64, disjs: &[Disj], edges: &mut Vec<Edge>) -> Result<(), AllocError>
    ensures { IfOk result (λ _. edges.new.items ≡ edges.old.items ++ to_each from (disj_sites (disj_list (map see_disj disjs.now)))) }
{
    for disj in disjs {
        edges.push((from, disj.site as u64))?;
    }
    Ok(())
}

/// Adds the edges to parts that are joined by `or`.
pub(crate) fn to_parts(from: u64, parts: &[Part], edges: &mut Vec<Edge>) -> Result<(), AllocError>
    ensures { IfOk result (λ _. edges.new.items ≡ edges.old.items ++ to_each from (part_sites (part_list (map see_part parts.now)))) }
{
    for part in parts {
        edges.push((from, part.site() as u64))?;
    }
    Ok(())
}

/// Adds the edge from a query to its last step.
pub(crate) fn to_last(query: u32, steps: &[Step], edges: &mut Vec<Edge>) -> Result<(), AllocError>
    ensures { IfOk result (λ _. edges.new.items ≡ edges.old.items ++ to_last query (step_list (map see_step steps.now))) }
{
    match steps.last() {
        Some(step) => to_site(query as u64, step.site, edges),
        None => Ok(()),
    }
}

/// Adds the edge to the right side of a test, if it has one.
pub(crate) fn to_opt_expr(
    from: u64,
    expr: &Option<Expr>,
    edges: &mut Vec<Edge>,
) -> Result<(), AllocError>
    ensures { IfOk result (λ _. edges.new.items ≡ edges.old.items ++ to_each from (opt_expr_site (see_opt_expr expr.now))) }
{
    match expr {
        Some(expr) => to_site(from, expr.site(), edges),
        None => Ok(()),
    }
}

/// Adds the edges to arguments.
pub(crate) fn to_exprs(from: u64, exprs: &[Expr], edges: &mut Vec<Edge>) -> Result<(), AllocError>
    ensures { IfOk result (λ _. edges.new.items ≡ edges.old.items ++ to_each from (expr_sites (expr_list (map see_expr exprs.now)))) }
{
    for expr in exprs {
        edges.push((from, expr.site() as u64))?;
    }
    Ok(())
}
