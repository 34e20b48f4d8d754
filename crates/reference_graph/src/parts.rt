//! Nodes below a number stand for parts, the others for names: where a name is used in what it stands for.
ghost use Rattle.std.specs.Prelude.{◌≡◌, ◌<◌, ◌≤◌, ◌↔◌, ℕ, [], IfOk, IsTrue, MatchOption, length, slice_index_or};
ghost use Rattle.std.specs.List.{All};
ghost use Rattle.rule_names.specs.code.Marks.{IsMarked};
ghost use Rattle.reference_graph.specs.code.Subgraphs.{IsLeast, IsPartUse, Leads, NoneBelow};

use crate::graph::Graph;
use crate::reach::reached;
use crate::reversal::reversed;
use crate::subgraph::subgraph_below;
use std::alloc::{AllocError, Global};

/// Whether one of some nodes is a name that is a node or is marked.
fn leads(targets: &[u32], count: u32, node: u32, users: &[bool]) -> bool
    requires { All (λ a. a < length users.now) targets.now }
    ensures { IsTrue result ↔ Leads users.now count node targets.now }
{
    for target in targets {
        if *target < count {
            continue;
        }
        if *target == node {
            return true;
        }
        if users[*target as usize] {
            return true;
        }
    }
    false
}

/// The first of the parts with a mark that leads to a name which is a node or has the other mark.
fn first_leading(
    graph: &Graph,
    count: u32,
    node: u32,
    inside: &[bool],
    users: &[bool],
) -> Option<u32>
    requires count { count ≤ length graph.now }
    requires inside { length inside.now ≡ length graph.now }
    requires users { length users.now ≡ length graph.now }
    ensures { MatchOption result (NoneBelow (λ part. IsMarked inside.now part × Leads users.now count node (slice_index_or graph.now part [])) count)
        (λ found. IsLeast (λ part. IsMarked inside.now part × Leads users.now count node (slice_index_or graph.now part [])) count found) }
{
    for part in 0..count {
        if !inside[part as usize] {
            continue;
        }
        if leads(graph.targets(part), count, node, users) {
            return Some(part);
        }
    }
    None
}

/// The first part that is reached from a node through parts alone, and leads to a name that is this node or reaches it.
pub fn first_part_use(
    alloc: Global,
    graph: &Graph,
    count: u32,
    node: u32,
) -> Result<Option<u32>, AllocError>
    requires count { count ≤ length graph.now }
    requires node { node < length graph.now }
    ensures { IfOk result (λ found. MatchOption found (NoneBelow (λ part. IsPartUse count graph.now node part) count)
        (λ part. IsLeast (λ k. IsPartUse count graph.now node k) count part)) }
{
    let subgraph = subgraph_below(alloc, graph, count)?;
    let inside = reached(alloc, &subgraph, node)?;
    let back = reversed(alloc, graph)?;
    let users = reached(alloc, &back, node)?;
    Ok(first_leading(graph, count, node, inside.as_slice(), users.as_slice()))
}
