//! Names that are given, and names that are used. The walk goes over the syntax once, with the first of the faults until now,
//! and with the scopes around a part, which lie on the stack.
ghost use Rattle.std.specs.Prelude.{◌≡◌, [], ◌∷◌, IfOk, map};
ghost use Rattle.guard_syntax.specs.code.Seen.{see_file, see_let, see_rule, see_body, see_conds, see_opt_conds, see_disj, see_part, see_query, see_step, see_expr, see_opt_expr, let_list, disj_list, part_list, expr_list};
ghost use Rattle.rule_names.specs.Duplicates.{duplicates};
ghost use Rattle.rule_names.specs.Faults.{first_of};
ghost use Rattle.rule_names.specs.Scopes.{given_file};
ghost use Rattle.rule_names.specs.Uses.{wrong_uses};
ghost use Rattle.name_faults.specs.code.Found.{see_found, found_scopes};
ghost use Rattle.name_faults.specs.code.FoundParts.{in_rules, in_body, in_filter, in_lets, in_opt_conds, in_disjs, in_parts, in_part, in_query, in_step, in_expr, in_opt_expr, in_exprs, in_items};
ghost use Rattle.name_scopes.specs.code.Seen.{see_best, see_given};
ghost use Rattle.name_scopes.specs.code.ScopeChains.{visible_in};
ghost use Rattle.name_faults.specs.code.RuleArities.{rules_of, places_of};

use crate::calls::{wrong_call, wrong_function, wrong_reference, wrong_variable};
use crate::duplicates::{duplicate_rule, enter};
use crate::found::Found;
use crate::rule_arities::Walk;
use guard_syntax::{
    Body, Conds, Disj, Expr, Let, Name, Part, Query, RawFile, Rule, Step, StepForm,
};
use name_scopes::binders::Binders;
use name_scopes::fault::Wrong;
use name_scopes::scope_chain::ScopeChain;
use name_scopes::scopes::{body_names, file_names, filter_names};
use std::alloc::{AllocError, Global};

/// The first of the faults until now and those in a body, which is a scope with parameters.
#[cycle(uses)]
fn in_body<'f>(
    walk: &Walk<'f>,
    body: &'f Body,
    params: &'f [Name],
    scope: &ScopeChain<'f, '_>,
    best: Found<'f>,
) -> Result<Found<'f>, AllocError>
    ensures { IfOk result (λ found. see_found found ≡ in_body (rules_of walk.now) (places_of walk.now) (visible_in scope.now) (see_found best.entry) params.entry.now (see_body body.entry.now)) }
{
    let names = body_names(walk.alloc, params, body)?;
    let (own, best) = enter(walk.alloc, names, best)?;
    let inner = ScopeChain::inside(&own, &*scope);
    let best = in_lets(walk, &body.lets, &inner, best)?;
    in_disjs(walk, &body.parts, &inner, best)
}

/// The first of the faults until now and those in lets.
#[cycle(uses)]
fn in_lets<'f>(
    walk: &Walk<'f>,
    lets: &'f [Let],
    scope: &ScopeChain<'f, '_>,
    mut best: Found<'f>,
) -> Result<Found<'f>, AllocError>
    ensures { IfOk result (λ found. see_found found ≡ in_lets (rules_of walk.now) (places_of walk.now) (visible_in scope.now) (see_found best.entry) (let_list (map see_let lets.entry.now))) }
{
    for given in lets {
        best = in_expr(walk, &given.value, scope, best)?;
    }
    Ok(best)
}

/// The first of the faults until now and those in conditions, if there are any.
#[cycle(uses)]
fn in_opt_conds<'f>(
    walk: &Walk<'f>,
    conds: &'f Option<Conds>,
    scope: &ScopeChain<'f, '_>,
    best: Found<'f>,
) -> Result<Found<'f>, AllocError>
    ensures { IfOk result (λ found. see_found found ≡ in_opt_conds (rules_of walk.now) (places_of walk.now) (visible_in scope.now) (see_found best.entry) (see_opt_conds conds.entry.now)) }
{
    match conds {
        Some(conds) => in_disjs(walk, &conds.parts, scope, best),
        None => Ok(best),
    }
}

/// The first of the faults until now and those in a filter, whose conditions are a scope.
#[cycle(uses)]
fn in_filter<'f>(
    walk: &Walk<'f>,
    conds: &'f Conds,
    scope: &ScopeChain<'f, '_>,
    best: Found<'f>,
) -> Result<Found<'f>, AllocError>
    ensures { IfOk result (λ found. see_found found ≡ in_filter (rules_of walk.now) (places_of walk.now) (visible_in scope.now) (see_found best.entry) (see_conds conds.entry.now)) }
{
    let names = filter_names(walk.alloc, conds)?;
    let (own, best) = enter(walk.alloc, names, best)?;
    let inner = ScopeChain::inside(&own, &*scope);
    in_disjs(walk, &conds.parts, &inner, best)
}

/// The first of the faults until now and those in disjunctions.
#[cycle(uses)]
fn in_disjs<'f>(
    walk: &Walk<'f>,
    disjs: &'f [Disj],
    scope: &ScopeChain<'f, '_>,
    mut best: Found<'f>,
) -> Result<Found<'f>, AllocError>
    ensures { IfOk result (λ found. see_found found ≡ in_disjs (rules_of walk.now) (places_of walk.now) (visible_in scope.now) (see_found best.entry) (disj_list (map see_disj disjs.entry.now))) }
{
    for disj in disjs {
        best = in_parts(walk, &disj.parts, scope, best)?;
    }
    Ok(best)
}

/// The first of the faults until now and those in parts that are joined by `or`.
#[cycle(uses)]
fn in_parts<'f>(
    walk: &Walk<'f>,
    parts: &'f [Part],
    scope: &ScopeChain<'f, '_>,
    mut best: Found<'f>,
) -> Result<Found<'f>, AllocError>
    ensures { IfOk result (λ found. see_found found ≡ in_parts (rules_of walk.now) (places_of walk.now) (visible_in scope.now) (see_found best.entry) (part_list (map see_part parts.entry.now))) }
{
    for part in parts {
        best = in_part(walk, part, scope, best)?;
    }
    Ok(best)
}

/// The first of the faults until now and those in a part.
#[cycle(uses)]
fn in_part<'f>(
    walk: &Walk<'f>,
    part: &'f Part,
    scope: &ScopeChain<'f, '_>,
    best: Found<'f>,
) -> Result<Found<'f>, AllocError>
    ensures { IfOk result (λ found. see_found found ≡ in_part (rules_of walk.now) (places_of walk.now) (visible_in scope.now) (see_found best.entry) (see_part part.entry.now)) }
{
    match part {
        Part::Block { head, body, .. } => {
            let best = in_query(walk, head, scope, best)?;
            in_body(walk, body, &[], scope, best)
        }
        Part::When { cond, body, .. } => {
            let best = in_disjs(walk, &cond.parts, scope, best)?;
            in_body(walk, body, &[], scope, best)
        }
        Part::Kinds { cond, body, .. } => {
            let best = in_opt_conds(walk, cond, scope, best)?;
            in_body(walk, body, &[], scope, best)
        }
        Part::Test { left, right, .. } => {
            let best = in_query(walk, left, scope, best)?;
            in_opt_expr(walk, right, scope, best)
        }
        Part::Refer { site, name, .. } => Ok(Found {
            again: best.again,
            wrong: wrong_reference(walk, name, *site, best.wrong),
        }),
        Part::Call {
            site,
            name,
            args,
            ..
        } => {
            let called = Found {
                again: best.again,
                wrong: wrong_call(walk, name, args, *site, best.wrong),
            };
            in_exprs(walk, args, scope, called)
        }
    }
}

/// The first of the faults until now and those in a query.
#[cycle(uses)]
fn in_query<'f>(
    walk: &Walk<'f>,
    query: &'f Query,
    scope: &ScopeChain<'f, '_>,
    mut best: Found<'f>,
) -> Result<Found<'f>, AllocError>
    ensures { IfOk result (λ found. see_found found ≡ in_query (rules_of walk.now) (places_of walk.now) (visible_in scope.now) (see_found best.entry) (see_query query.entry.now)) }
{
    for step in &query.steps {
        best = in_step(walk, step, scope, best)?;
    }
    Ok(best)
}

/// The first of the faults until now and those in a step.
#[cycle(uses)]
fn in_step<'f>(
    walk: &Walk<'f>,
    step: &'f Step,
    scope: &ScopeChain<'f, '_>,
    best: Found<'f>,
) -> Result<Found<'f>, AllocError>
    ensures { IfOk result (λ found. see_found found ≡ in_step (rules_of walk.now) (places_of walk.now) (visible_in scope.now) (see_found best.entry) (see_step step.entry.now)) }
{
    match &step.form {
        StepForm::Var(name) => {
            let at = walk.place(step.site);
            Ok(Found {
                again: best.again,
                wrong: wrong_variable(scope, name.as_str(), at, best.wrong),
            })
        }
        StepForm::Splice(name) => Ok(Found {
            again: best.again,
            wrong: wrong_variable(scope, name.as_str(), name.at(), best.wrong),
        }),
        StepForm::Filter(_, conds) => in_filter(walk, conds, scope, best),
        StepForm::Keys { right, .. } => in_expr(walk, right, scope, best),
        StepForm::This => Ok(best),
        StepForm::Key(_) => Ok(best),
        StepForm::Index(_) => Ok(best),
        StepForm::Every => Ok(best),
        StepForm::Items => Ok(best),
    }
}

/// The first of the faults until now and those in an expression.
#[cycle(uses)]
fn in_expr<'f>(
    walk: &Walk<'f>,
    expr: &'f Expr,
    scope: &ScopeChain<'f, '_>,
    best: Found<'f>,
) -> Result<Found<'f>, AllocError>
    ensures { IfOk result (λ found. see_found found ≡ in_expr (rules_of walk.now) (places_of walk.now) (visible_in scope.now) (see_found best.entry) (see_expr expr.entry.now)) }
{
    match expr {
        Expr::Literal { .. } => Ok(best),
        Expr::Function { site, name, args } => {
            let called = Found {
                again: best.again,
                wrong: wrong_function(walk, name, args, *site, best.wrong),
            };
            in_exprs(walk, args, scope, called)
        }
        Expr::Query(query) => in_query(walk, query, scope, best),
        Expr::Found { query, .. } => in_query(walk, query, scope, best),
    }
}

/// The first of the faults until now and those in the right side of a test, if there is one.
#[cycle(uses)]
fn in_opt_expr<'f>(
    walk: &Walk<'f>,
    expr: &'f Option<Expr>,
    scope: &ScopeChain<'f, '_>,
    best: Found<'f>,
) -> Result<Found<'f>, AllocError>
    ensures { IfOk result (λ found. see_found found ≡ in_opt_expr (rules_of walk.now) (places_of walk.now) (visible_in scope.now) (see_found best.entry) (see_opt_expr expr.entry.now)) }
{
    match expr {
        Some(expr) => in_expr(walk, expr, scope, best),
        None => Ok(best),
    }
}

/// The first of the faults until now and those in arguments.
#[cycle(uses)]
fn in_exprs<'f>(
    walk: &Walk<'f>,
    exprs: &'f [Expr],
    scope: &ScopeChain<'f, '_>,
    mut best: Found<'f>,
) -> Result<Found<'f>, AllocError>
    ensures { IfOk result (λ found. see_found found ≡ in_exprs (rules_of walk.now) (places_of walk.now) (visible_in scope.now) (see_found best.entry) (expr_list (map see_expr exprs.entry.now))) }
{
    for expr in exprs {
        best = in_expr(walk, expr, scope, best)?;
    }
    Ok(best)
}

/// The first of the faults until now and those in rules.
fn in_rules<'f>(
    walk: &Walk<'f>,
    rules: &'f [Rule],
    scope: &ScopeChain<'f, '_>,
    mut best: Found<'f>,
) -> Result<Found<'f>, AllocError>
    ensures { IfOk result (λ found. see_found found ≡ in_rules (rules_of walk.now) (places_of walk.now) (visible_in scope.now) (see_found best.entry) (map see_rule rules.entry.now)) }
{
    for rule in rules {
        best = in_opt_conds(walk, &rule.cond, scope, best)?;
        best = in_body(walk, &rule.body, rule.params.as_slice(), scope, best)?;
    }
    Ok(best)
}

/// The first of the faults until now and those in what stands in a file, whose names are known.
fn in_items<'f>(
    walk: &Walk<'f>,
    own: &Binders<'f>,
    best: Found<'f>,
) -> Result<Found<'f>, AllocError>
    requires { see_given own.now.names.items ≡ given_file (see_file walk.now.file.now) }
    ensures { IfOk result (λ found. see_found found ≡ in_items (see_file walk.now.file.now) (see_found best.entry)) }
{
    let file = walk.file;
    let scope = ScopeChain::outermost(own);
    let best = in_lets(walk, &file.lets, &scope, best)?;
    let best = in_rules(walk, &file.rules, &scope, best)?;
    in_disjs(walk, &file.loose, &scope, best)
}

/// The first fault of a name that a scope of a file has twice, behind one of its rules, and of a name that is used.
fn in_scopes<'f>(
    alloc: Global,
    file: &'f RawFile,
    again: Option<Wrong<'f>>,
) -> Result<Found<'f>, AllocError>
    ensures { IfOk result (λ found. see_found found ≡ found_scopes (see_file file.entry.now) (see_best again.entry)) }
{
    let names = file_names(alloc, file)?;
    let (own, best) = enter(alloc, names, Found { again, wrong: None })?;
    let walk = Walk::new(alloc, file)?;
    in_items(&walk, &own, best)
}

/// The first name of a file that is given twice, and the first that is used wrongly.
pub fn first_faults<'f>(alloc: Global, file: &'f RawFile) -> Result<Found<'f>, AllocError>
    ensures again { IfOk result (λ found. see_best found.again ≡ first_of (duplicates (see_file file.entry.now))) }
    ensures wrong { IfOk result (λ found. see_best found.wrong ≡ first_of (wrong_uses (see_file file.entry.now))) }
{
    let again = duplicate_rule(alloc, &file.rules)?;
    in_scopes(alloc, file, again)
}
