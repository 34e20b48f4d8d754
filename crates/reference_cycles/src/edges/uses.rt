//! Edges from uses to the names that they mean, and from a capture to its step.
ghost use Rattle.std.specs.Prelude.{◌≡◌, ◌++◌, IfOk};
ghost use Rattle.reference_cycles.specs.code.RuleIndexes.{rules_of};
ghost use Rattle.name_scopes.specs.code.ScopeChains.{visible_in};
ghost use Rattle.rule_names.specs.Uses.{rule_named};
ghost use Rattle.rule_names.specs.Scopes.{given_named};
ghost use Rattle.rule_names.specs.ReferenceGraph.{from_capture, to_before, to_binder, to_rule, to_variable};

use crate::edges::leads::Edge;
use crate::edges::rule_index::RuleIndex;
use guard_syntax::Name;
use name_scopes::scope_chain::{ScopeChain, binder};
use rule_names::Binder;
use std::alloc::AllocError;

/// Adds the edge from a reference or a call to its rule.
pub(crate) fn to_rule(
    rule_index: &RuleIndex,
    site: u32,
    name: &str,
    edges: &mut Vec<Edge>,
) -> Result<(), AllocError>
    ensures { IfOk result (λ _. edges.new.items ≡ edges.old.items ++ to_rule (rules_of rule_index.now) rule_index.now.count site (rule_named (rules_of rule_index.now) name.now)) }
{
    if let Some(rule) = rule_index.rule(name) {
        edges.push((site as u64, rule_index.rule_node(rule)))?;
    }
    Ok(())
}

/// Adds the edge from the use of a variable to what gives it.
fn to_binder(
    rule_index: &RuleIndex,
    site: u32,
    binder: Binder,
    edges: &mut Vec<Edge>,
) -> Result<(), AllocError>
    ensures { IfOk result (λ _. edges.new.items ≡ edges.old.items ++ to_binder (rules_of rule_index.now) rule_index.now.count site binder) }
{
    match binder {
        Binder::Let(given) => edges.push((site as u64, rule_index.variable_node(given)))?,
        Binder::Capture(step) => edges.push((site as u64, rule_index.variable_node(step)))?,
        Binder::Param(_) => {}
    }
    Ok(())
}

/// Adds the edge from the use of a variable to its let or capture.
pub(crate) fn to_variable(
    rule_index: &RuleIndex,
    site: u32,
    name: &str,
    chain: &ScopeChain,
    edges: &mut Vec<Edge>,
) -> Result<(), AllocError>
    ensures { IfOk result (λ _. edges.new.items ≡ edges.old.items ++ to_variable (rules_of rule_index.now) rule_index.now.count site (given_named (visible_in chain.now) name.now)) }
{
    match binder(chain, name) {
        Some(binder) => to_binder(rule_index, site, binder, edges),
        None => Ok(()),
    }
}

/// Adds the edge from the name of a capture to its step.
pub(crate) fn from_capture(
    rule_index: &RuleIndex,
    site: u32,
    capture: &Option<Name>,
    edges: &mut Vec<Edge>,
) -> Result<(), AllocError>
    ensures { IfOk result (λ _. edges.new.items ≡ edges.old.items ++ from_capture (rules_of rule_index.now) rule_index.now.count site capture.now) }
{
    if capture.is_some() {
        edges.push((rule_index.variable_node(site), site as u64))?;
    }
    Ok(())
}

/// Adds the edge from a step to the one before it.
pub(crate) fn to_before(
    rule_index: &RuleIndex,
    site: u32,
    before: Option<u32>,
    edges: &mut Vec<Edge>,
) -> Result<(), AllocError>
    ensures { IfOk result (λ _. edges.new.items ≡ edges.old.items ++ to_before (rules_of rule_index.now) rule_index.now.count site before) }
{
    if let Some(before) = before {
        edges.push((site as u64, before as u64))?;
    }
    Ok(())
}
