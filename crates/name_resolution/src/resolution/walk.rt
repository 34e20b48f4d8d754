//! What the uses in each part of a rule file mean, in the order in which the parts stand.
ghost use Rattle.std.specs.Prelude.{◌≡◌, ◌++◌, ◌∷◌, IfOk, map};
ghost use Rattle.guard_syntax.specs.code.Seen.{see_let, see_rule, see_body, see_conds, see_opt_conds, see_disj, see_part, see_query, see_step, see_expr, see_opt_expr, let_list, disj_list, part_list, expr_list};
ghost use Rattle.rule_names.specs.Resolution.{links_rules, links_body, links_lets, links_conds, links_opt_conds, links_disjs, links_parts, links_part, links_query, links_step, links_expr, links_opt_expr, links_exprs};
ghost use Rattle.name_scopes.specs.code.ScopeChains.{scopes_in};
ghost use Rattle.rule_names.specs.Scopes.{given_conds};
ghost use Rattle.name_resolution.specs.code.FileLinks.{items_links};
ghost use Rattle.name_resolution.specs.code.Sources.{file_in};

use crate::resolution::sources::Sources;
use crate::resolution::uses::{Linked, link_rule, link_variable};
use guard_syntax::{Body, Conds, Disj, Expr, Let, Name, Part, Query, Rule, Step, StepForm};
use name_scopes::binders::Binders;
use name_scopes::scope_chain::ScopeChain;
use name_scopes::scopes::{body_names, filter_names};
use std::alloc::AllocError;

/// Links the uses in a body, which is a scope with parameters.
#[cycle(links)]
fn in_body<'f>(
    sources: &Sources<'f>,
    params: &'f [Name],
    body: &'f Body,
    outer: &ScopeChain<'f, '_>,
    links: &mut Vec<Linked>,
) -> Result<(), AllocError>
    ensures { IfOk result (λ _. links.new.items ≡ links.old.items ++ links_body (file_in sources.now) (scopes_in outer.now) params.entry.now (see_body body.entry.now)) }
{
    let own = Binders::new(sources.alloc, body_names(sources.alloc, params, body)?)?;
    let inner = ScopeChain::inside(&own, &*outer);
    in_lets(sources, &body.lets, &inner, links)?;
    in_disjs(sources, &body.parts, &inner, links)
}

/// Links the uses in lets.
#[cycle(links)]
fn in_lets<'f>(
    sources: &Sources<'f>,
    lets: &'f [Let],
    chain: &ScopeChain<'f, '_>,
    links: &mut Vec<Linked>,
) -> Result<(), AllocError>
    ensures { IfOk result (λ _. links.new.items ≡ links.old.items ++ links_lets (file_in sources.now) (scopes_in chain.now) (let_list (map see_let lets.entry.now))) }
{
    for given in lets {
        in_expr(sources, &given.value, chain, links)?;
    }
    Ok(())
}

/// Links the uses in conditions, if there are any.
#[cycle(links)]
fn in_opt_conds<'f>(
    sources: &Sources<'f>,
    conds: &'f Option<Conds>,
    chain: &ScopeChain<'f, '_>,
    links: &mut Vec<Linked>,
) -> Result<(), AllocError>
    ensures { IfOk result (λ _. links.new.items ≡ links.old.items ++ links_opt_conds (file_in sources.now) (scopes_in chain.now) (see_opt_conds conds.entry.now)) }
{
    match conds {
        Some(conds) => in_disjs(sources, &conds.parts, chain, links),
        None => Ok(()),
    }
}

/// Links the uses in disjunctions.
#[cycle(links)]
fn in_disjs<'f>(
    sources: &Sources<'f>,
    disjs: &'f [Disj],
    chain: &ScopeChain<'f, '_>,
    links: &mut Vec<Linked>,
) -> Result<(), AllocError>
    ensures { IfOk result (λ _. links.new.items ≡ links.old.items ++ links_disjs (file_in sources.now) (scopes_in chain.now) (disj_list (map see_disj disjs.entry.now))) }
{
    for disj in disjs {
        in_parts(sources, &disj.parts, chain, links)?;
    }
    Ok(())
}

/// Links the uses in parts that are joined by `or`.
#[cycle(links)]
fn in_parts<'f>(
    sources: &Sources<'f>,
    parts: &'f [Part],
    chain: &ScopeChain<'f, '_>,
    links: &mut Vec<Linked>,
) -> Result<(), AllocError>
    ensures { IfOk result (λ _. links.new.items ≡ links.old.items ++ links_parts (file_in sources.now) (scopes_in chain.now) (part_list (map see_part parts.entry.now))) }
{
    for part in parts {
        in_part(sources, part, chain, links)?;
    }
    Ok(())
}

/// Links the uses in a part.
#[cycle(links)]
fn in_part<'f>(
    sources: &Sources<'f>,
    part: &'f Part,
    chain: &ScopeChain<'f, '_>,
    links: &mut Vec<Linked>,
) -> Result<(), AllocError>
    ensures { IfOk result (λ _. links.new.items ≡ links.old.items ++ links_part (file_in sources.now) (scopes_in chain.now) (see_part part.entry.now)) }
{
    match part {
        Part::Block { head, body, .. } => {
            in_query(sources, head, chain, links)?;
            in_body(sources, &[], body, chain, links)
        }
        Part::When { cond, body, .. } => {
            in_disjs(sources, &cond.parts, chain, links)?;
            in_body(sources, &[], body, chain, links)
        }
        Part::Kinds { cond, body, .. } => {
            in_opt_conds(sources, cond, chain, links)?;
            in_body(sources, &[], body, chain, links)
        }
        Part::Test { left, right, .. } => {
            in_query(sources, left, chain, links)?;
            in_opt_expr(sources, right, chain, links)
        }
        Part::Refer { site, name, .. } => link_rule(sources, *site, name.as_str(), links),
        Part::Call {
            site,
            name,
            args,
            ..
        } => {
            link_rule(sources, *site, name.as_str(), links)?;
            in_exprs(sources, args, chain, links)
        }
    }
}

/// Links the uses in a query.
#[cycle(links)]
fn in_query<'f>(
    sources: &Sources<'f>,
    query: &'f Query,
    chain: &ScopeChain<'f, '_>,
    links: &mut Vec<Linked>,
) -> Result<(), AllocError>
    ensures { IfOk result (λ _. links.new.items ≡ links.old.items ++ links_query (file_in sources.now) (scopes_in chain.now) (see_query query.entry.now)) }
{
    for step in &query.steps {
        in_step(sources, step, chain, links)?;
    }
    Ok(())
}

/// Links the uses in a step.
#[cycle(links)]
fn in_step<'f>(
    sources: &Sources<'f>,
    step: &'f Step,
    chain: &ScopeChain<'f, '_>,
    links: &mut Vec<Linked>,
) -> Result<(), AllocError>
    ensures { IfOk result (λ _. links.new.items ≡ links.old.items ++ links_step (file_in sources.now) (scopes_in chain.now) (see_step step.entry.now)) }
{
    match &step.form {
        StepForm::Var(name) => link_variable(sources, step.site, name.as_str(), chain, links),
        StepForm::Splice(name) => link_variable(sources, step.site, name.as_str(), chain, links),
        StepForm::Filter(_, conds) => in_filter(sources, conds, chain, links),
        StepForm::Keys { right, .. } => in_expr(sources, right, chain, links),
        StepForm::This
        | StepForm::Key(_)
        | StepForm::Index(_)
        | StepForm::Every
        | StepForm::Items => Ok(()),
    }
}

/// Links the uses in the conditions of a filter, which are a scope.
#[cycle(links)]
fn in_filter<'f>(
    sources: &Sources<'f>,
    conds: &'f Conds,
    outer: &ScopeChain<'f, '_>,
    links: &mut Vec<Linked>,
) -> Result<(), AllocError>
    ensures { IfOk result (λ _. links.new.items ≡ links.old.items ++ links_conds (file_in sources.now) (given_conds (see_conds conds.entry.now) ∷ scopes_in outer.now) (see_conds conds.entry.now)) }
{
    let own = Binders::new(sources.alloc, filter_names(sources.alloc, conds)?)?;
    let inner = ScopeChain::inside(&own, &*outer);
    in_disjs(sources, &conds.parts, &inner, links)
}

/// Links the uses in an expression.
#[cycle(links)]
fn in_expr<'f>(
    sources: &Sources<'f>,
    expr: &'f Expr,
    chain: &ScopeChain<'f, '_>,
    links: &mut Vec<Linked>,
) -> Result<(), AllocError>
    ensures { IfOk result (λ _. links.new.items ≡ links.old.items ++ links_expr (file_in sources.now) (scopes_in chain.now) (see_expr expr.entry.now)) }
{
    match expr {
        Expr::Literal { .. } => Ok(()),
        Expr::Function { args, .. } => in_exprs(sources, args, chain, links),
        Expr::Query(query) => in_query(sources, query, chain, links),
        Expr::Found { query, .. } => in_query(sources, query, chain, links),
    }
}

/// Links the uses in the right side of a test, if it has one.
#[cycle(links)]
fn in_opt_expr<'f>(
    sources: &Sources<'f>,
    expr: &'f Option<Expr>,
    chain: &ScopeChain<'f, '_>,
    links: &mut Vec<Linked>,
) -> Result<(), AllocError>
    ensures { IfOk result (λ _. links.new.items ≡ links.old.items ++ links_opt_expr (file_in sources.now) (scopes_in chain.now) (see_opt_expr expr.entry.now)) }
{
    match expr {
        Some(expr) => in_expr(sources, expr, chain, links),
        None => Ok(()),
    }
}

/// Links the uses in arguments.
#[cycle(links)]
fn in_exprs<'f>(
    sources: &Sources<'f>,
    exprs: &'f [Expr],
    chain: &ScopeChain<'f, '_>,
    links: &mut Vec<Linked>,
) -> Result<(), AllocError>
    ensures { IfOk result (λ _. links.new.items ≡ links.old.items ++ links_exprs (file_in sources.now) (scopes_in chain.now) (expr_list (map see_expr exprs.entry.now))) }
{
    for expr in exprs {
        in_expr(sources, expr, chain, links)?;
    }
    Ok(())
}

/// Links the uses in rules.
fn in_rules<'f>(
    sources: &Sources<'f>,
    rules: &'f [Rule],
    chain: &ScopeChain<'f, '_>,
    links: &mut Vec<Linked>,
) -> Result<(), AllocError>
    ensures { IfOk result (λ _. links.new.items ≡ links.old.items ++ links_rules (file_in sources.now) (scopes_in chain.now) (map see_rule rules.entry.now)) }
{
    for rule in rules {
        in_opt_conds(sources, &rule.cond, chain, links)?;
        in_body(sources, rule.params.as_slice(), &rule.body, chain, links)?;
    }
    Ok(())
}

/// Links the uses in a file, whose names are those of the scope around its items.
pub(crate) fn in_file<'f>(
    sources: &Sources<'f>,
    chain: &ScopeChain<'f, '_>,
    links: &mut Vec<Linked>,
) -> Result<(), AllocError>
    ensures { IfOk result (λ _. links.new.items ≡ links.old.items ++ items_links (file_in sources.now) (scopes_in chain.now)) }
{
    let file = sources.file;
    in_lets(sources, &file.lets, chain, links)?;
    in_rules(sources, &file.rules, chain, links)?;
    in_disjs(sources, &file.loose, chain, links)
}
