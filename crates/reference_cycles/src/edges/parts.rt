//! Edges from a part itself: to the parts in it, and to the rule that it names.
ghost use Rattle.std.specs.Prelude.{◌≡◌, ◌++◌, IfOk};
ghost use Rattle.guard_syntax.specs.code.Seen.{see_part};
ghost use Rattle.reference_cycles.specs.code.OwnEdges.{own_edges};
ghost use Rattle.reference_cycles.specs.code.RuleIndexes.{rules_of};

use crate::edges::leads::{Edge, to_exprs, to_opt_conds, to_opt_expr, to_site};
use crate::edges::rule_index::RuleIndex;
use crate::edges::uses::to_rule;
use guard_syntax::Part;
use std::alloc::AllocError;

/// Adds the edges from a part, but none from what is in it.
pub(crate) fn from_part(
    rule_index: &RuleIndex,
    part: &Part,
    edges: &mut Vec<Edge>,
) -> Result<(), AllocError>
    ensures { IfOk result (λ _. edges.new.items ≡ edges.old.items ++ own_edges (rules_of rule_index.now) rule_index.now.count (see_part part.now)) }
{
    match part {
        Part::Block {
            site,
            head,
            body,
            ..
        } => {
            to_site(*site as u64, head.site, edges)?;
            to_site(*site as u64, body.site, edges)
        }
        Part::When { site, cond, body } => {
            to_site(*site as u64, cond.site, edges)?;
            to_site(*site as u64, body.site, edges)
        }
        Part::Kinds {
            site,
            cond,
            body,
            ..
        } => {
            to_opt_conds(*site as u64, cond, edges)?;
            to_site(*site as u64, body.site, edges)
        }
        Part::Test {
            site,
            left,
            right,
            ..
        } => {
            to_site(*site as u64, left.site, edges)?;
            to_opt_expr(*site as u64, right, edges)
        }
        Part::Refer { site, name, .. } => to_rule(rule_index, *site, name.as_str(), edges),
        Part::Call {
            site,
            name,
            args,
            ..
        } => {
            to_rule(rule_index, *site, name.as_str(), edges)?;
            to_exprs(*site as u64, args, edges)
        }
    }
}
