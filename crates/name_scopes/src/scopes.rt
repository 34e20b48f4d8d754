//! The names that scopes have, and what gives them: the file, each body and each filter is a scope. Lets and parts of a body are gathered
//! apart, since the syntax keeps them apart, and merged by place.
ghost use Rattle.std.specs.Prelude.{◌≡◌, ◌++◌, IfOk, map};
ghost use Rattle.guard_syntax.specs.code.Seen.{see_file, see_let, see_rule, see_body, see_conds, see_opt_conds, see_disj, see_part, see_step, see_expr, see_opt_expr, let_list, disj_list, part_list, step_list, expr_list};
ghost use Rattle.rule_names.specs.Scopes.{given_file, given_body, given_params, given_lets, given_conds, given_opt_conds, given_disjs, given_parts, given_part, given_steps, given_step, given_expr, given_opt_expr, given_exprs, given_rules, capture_if, by_place};
ghost use Rattle.name_scopes.specs.code.Seen.{see_given};

use guard_syntax::{Body, Conds, Disj, Expr, Let, Name, Part, RawFile, Rule, Step, StepForm};
use rule_names::Binder;
use std::alloc::{AllocError, Global};

/// A name of a scope.
#[derive(Clone, Copy)]
pub struct Given<'f> {
    pub name: &'f Name,
    pub by: Binder,
}

/// Adds the capture of the step of a site, if it has one.
fn gather_capture<'f>(
    site: u32,
    capture: &'f Option<Name>,
    names: &mut Vec<Given<'f>>,
) -> Result<(), AllocError>
    ensures { IfOk result (λ _. see_given names.new.items ≡ see_given names.old.items ++ capture_if site capture.entry.now) }
{
    match capture {
        Some(name) => {
            names.push(Given {
                name,
                by: Binder::Capture(site),
            })?;
            Ok(())
        }
        None => Ok(()),
    }
}

/// Adds the names that steps give.
#[cycle(asked)]
fn gather_steps<'f>(steps: &'f [Step], names: &mut Vec<Given<'f>>) -> Result<(), AllocError>
    ensures { IfOk result (λ _. see_given names.new.items ≡ see_given names.old.items ++ given_steps (step_list (map see_step steps.entry.now))) }
{
    for step in steps {
        gather_step(step, names)?;
    }
    Ok(())
}

/// Adds the names that a step gives. What stands in the conditions of a filter belongs to the filter.
#[cycle(asked)]
fn gather_step<'f>(step: &'f Step, names: &mut Vec<Given<'f>>) -> Result<(), AllocError>
    ensures { IfOk result (λ _. see_given names.new.items ≡ see_given names.old.items ++ given_step (see_step step.entry.now)) }
{
    match &step.form {
        StepForm::Filter(capture, _) => gather_capture(step.site, capture, names),
        StepForm::Keys { capture, right, .. } => {
            gather_capture(step.site, capture, names)?;
            gather_expr(right, names)
        }
        StepForm::This
        | StepForm::Var(_)
        | StepForm::Key(_)
        | StepForm::Index(_)
        | StepForm::Every
        | StepForm::Items
        | StepForm::Splice(_) => Ok(()),
    }
}

/// Adds the names that an expression gives.
#[cycle(asked)]
fn gather_expr<'f>(expr: &'f Expr, names: &mut Vec<Given<'f>>) -> Result<(), AllocError>
    ensures { IfOk result (λ _. see_given names.new.items ≡ see_given names.old.items ++ given_expr (see_expr expr.entry.now)) }
{
    match expr {
        Expr::Literal { .. } => Ok(()),
        Expr::Function { args, .. } => gather_exprs(args, names),
        Expr::Query(query) => gather_steps(&query.steps, names),
        Expr::Found { query, .. } => gather_steps(&query.steps, names),
    }
}

/// Adds the names that arguments give.
#[cycle(asked)]
fn gather_exprs<'f>(exprs: &'f [Expr], names: &mut Vec<Given<'f>>) -> Result<(), AllocError>
    ensures { IfOk result (λ _. see_given names.new.items ≡ see_given names.old.items ++ given_exprs (expr_list (map see_expr exprs.entry.now))) }
{
    for expr in exprs {
        gather_expr(expr, names)?;
    }
    Ok(())
}

/// Adds the names that the right side of a test gives, if it has one.
fn gather_side<'f>(side: &'f Option<Expr>, names: &mut Vec<Given<'f>>) -> Result<(), AllocError>
    ensures { IfOk result (λ _. see_given names.new.items ≡ see_given names.old.items ++ given_opt_expr (see_opt_expr side.entry.now)) }
{
    match side {
        Some(expr) => gather_expr(expr, names),
        None => Ok(()),
    }
}

/// Adds the names of lets, and those that their values give.
fn gather_lets<'f>(lets: &'f [Let], names: &mut Vec<Given<'f>>) -> Result<(), AllocError>
    ensures { IfOk result (λ _. see_given names.new.items ≡ see_given names.old.items ++ given_lets (let_list (map see_let lets.entry.now))) }
{
    for given in lets {
        names.push(Given {
            name: &given.name,
            by: Binder::Let(given.site),
        })?;
        gather_expr(&given.value, names)?;
    }
    Ok(())
}

/// Adds the names that conditions give, if there are any.
#[cycle(joined)]
fn gather_some_conds<'f>(
    conds: &'f Option<Conds>,
    names: &mut Vec<Given<'f>>,
) -> Result<(), AllocError>
    ensures { IfOk result (λ _. see_given names.new.items ≡ see_given names.old.items ++ given_opt_conds (see_opt_conds conds.entry.now)) }
{
    match conds {
        Some(conds) => gather_disjs(&conds.parts, names),
        None => Ok(()),
    }
}

/// Adds the names that disjunctions give.
#[cycle(joined)]
fn gather_disjs<'f>(disjs: &'f [Disj], names: &mut Vec<Given<'f>>) -> Result<(), AllocError>
    ensures { IfOk result (λ _. see_given names.new.items ≡ see_given names.old.items ++ given_disjs (disj_list (map see_disj disjs.entry.now))) }
{
    for disj in disjs {
        gather_parts(&disj.parts, names)?;
    }
    Ok(())
}

/// Adds the names that parts give.
#[cycle(joined)]
fn gather_parts<'f>(parts: &'f [Part], names: &mut Vec<Given<'f>>) -> Result<(), AllocError>
    ensures { IfOk result (λ _. see_given names.new.items ≡ see_given names.old.items ++ given_parts (part_list (map see_part parts.entry.now))) }
{
    for part in parts {
        gather_part(part, names)?;
    }
    Ok(())
}

/// Adds the names that a part gives. What stands in its body belongs to the body.
#[cycle(joined)]
fn gather_part<'f>(part: &'f Part, names: &mut Vec<Given<'f>>) -> Result<(), AllocError>
    ensures { IfOk result (λ _. see_given names.new.items ≡ see_given names.old.items ++ given_part (see_part part.entry.now)) }
{
    match part {
        Part::Block { head, .. } => gather_steps(&head.steps, names),
        Part::When { cond, .. } => gather_disjs(&cond.parts, names),
        Part::Kinds { cond, .. } => gather_some_conds(cond, names),
        Part::Test { left, right, .. } => {
            gather_steps(&left.steps, names)?;
            gather_side(right, names)
        }
        Part::Refer { .. } => Ok(()),
        Part::Call { args, .. } => gather_exprs(args, names),
    }
}

/// Adds the names that the conditions of rules give.
fn gather_rules<'f>(rules: &'f [Rule], names: &mut Vec<Given<'f>>) -> Result<(), AllocError>
    ensures { IfOk result (λ _. see_given names.new.items ≡ see_given names.old.items ++ given_rules (map see_rule rules.entry.now)) }
{
    for rule in rules {
        gather_some_conds(&rule.cond, names)?;
    }
    Ok(())
}

/// Adds the parameters of a rule.
fn add_params<'f>(params: &'f [Name], names: &mut Vec<Given<'f>>) -> Result<(), AllocError>
    ensures { IfOk result (λ _. see_given names.new.items ≡ see_given names.old.items ++ given_params 0 params.entry.now) }
{
    for (index, name) in params.iter().enumerate() {
        names.push(Given {
            name,
            by: Binder::Param(index),
        })?;
    }
    Ok(())
}

/// Adds names of two lists, each in order of place, in order of place.
fn merge<'f>(
    first: &[Given<'f>],
    second: &[Given<'f>],
    names: &mut Vec<Given<'f>>,
) -> Result<(), AllocError>
    ensures { IfOk result (λ _. see_given names.new.items ≡ see_given names.old.items ++ by_place (see_given first.now) (see_given second.now)) }
{
    let mut left = 0;
    let mut right = 0;
    while left < first.len() && right < second.len() {
        if second[right].name.at() < first[left].name.at() {
            names.push(second[right])?;
            right += 1;
        } else {
            names.push(first[left])?;
            left += 1;
        }
    }
    names.extend_from_slice(&first[left..])?;
    names.extend_from_slice(&second[right..])?;
    Ok(())
}

/// The names of a body's scope, in order of place; the parameters are those of the rule whose body it is.
pub fn body_names<'f>(
    alloc: Global,
    params: &'f [Name],
    body: &'f Body,
) -> Result<Vec<Given<'f>>, AllocError>
    ensures { IfOk result (λ names. see_given names.items ≡ given_body params.entry.now (see_body body.entry.now)) }
{
    let mut lets: Vec<Given<'f>> = Vec::new(alloc);
    gather_lets(&body.lets, &mut lets)?;
    let mut parts: Vec<Given<'f>> = Vec::new(alloc);
    gather_disjs(&body.parts, &mut parts)?;
    let mut names: Vec<Given<'f>> = Vec::new(alloc);
    add_params(params, &mut names)?;
    merge(&lets, &parts, &mut names)?;
    Ok(names)
}

/// The names of the scope of a filter with these conditions, in order of place.
pub fn filter_names<'f>(alloc: Global, conds: &'f Conds) -> Result<Vec<Given<'f>>, AllocError>
    ensures { IfOk result (λ names. see_given names.items ≡ given_conds (see_conds conds.entry.now)) }
{
    let mut names: Vec<Given<'f>> = Vec::new(alloc);
    gather_disjs(&conds.parts, &mut names)?;
    Ok(names)
}

/// The names that stand in rules' conditions and in parts outside rules, in order of place.
fn item_names<'f>(alloc: Global, file: &'f RawFile) -> Result<Vec<Given<'f>>, AllocError>
    ensures { IfOk result (λ names. see_given names.items ≡ by_place (given_rules (see_file file.entry.now).rules) (given_disjs (see_file file.entry.now).loose)) }
{
    let mut rules: Vec<Given<'f>> = Vec::new(alloc);
    gather_rules(&file.rules, &mut rules)?;
    let mut loose: Vec<Given<'f>> = Vec::new(alloc);
    gather_disjs(&file.loose, &mut loose)?;
    let mut names: Vec<Given<'f>> = Vec::new(alloc);
    merge(&rules, &loose, &mut names)?;
    Ok(names)
}

/// The names of the file's scope, in order of place.
pub fn file_names<'f>(alloc: Global, file: &'f RawFile) -> Result<Vec<Given<'f>>, AllocError>
    ensures { IfOk result (λ names. see_given names.items ≡ given_file (see_file file.entry.now)) }
{
    let mut lets: Vec<Given<'f>> = Vec::new(alloc);
    gather_lets(&file.lets, &mut lets)?;
    let items = item_names(alloc, file)?;
    let mut names: Vec<Given<'f>> = Vec::new(alloc);
    merge(&lets, &items, &mut names)?;
    Ok(names)
}
