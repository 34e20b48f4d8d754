//! Nodes that reach themselves.
ghost use Rattle.std.specs.Prelude.{◌≡◌, ◌<◌, ◌≤◌, ◌↔◌, ℕ, IfOk, IsTrue, MatchOption, length};
ghost use Rattle.rule_names.specs.Graphs.{IsFirstOnCycle, NoneOnCycle, Reaches};
ghost use Rattle.rule_names.specs.code.Marks.{IsMarked};
ghost use Rattle.reference_graph.specs.code.Ordering.{IsWalkOutcome};

use crate::graph::Graph;
use crate::ordering::WalkOutcome;
use crate::reach::reached;
use std::alloc::{AllocError, Global};

/// Whether a node reaches itself.
fn reaches_itself(alloc: Global, graph: &Graph, node: u32) -> Result<bool, AllocError>
    requires { node < length graph.now }
    ensures { IfOk result (λ does. IsTrue does ↔ Reaches graph.now node node) }
{
    let marks = reached(alloc, graph, node)?;
    Ok(marks[node as usize])
}

/// The least node from one on up to another that reaches itself, where it is known that the marked ones do not.
fn first_unmarked_on_cycle(
    alloc: Global,
    graph: &Graph,
    low: u32,
    high: u32,
    marks: &[bool],
) -> Result<Option<u32>, AllocError>
    requires within { high ≤ length graph.now }
    requires marks { length marks.now ≡ length graph.now }
    requires known { (a : ℕ) → IsMarked marks.now a → Reaches graph.now a a → ⊥ }
    ensures { IfOk result (λ found. MatchOption found (NoneOnCycle graph.now low high) (λ a. IsFirstOnCycle graph.now low high a)) }
{
    for node in low..high {
        if marks[node as usize] {
            continue;
        }
        if reaches_itself(alloc, graph, node)? {
            return Ok(Some(node));
        }
    }
    Ok(None)
}

/// The least node from low up to high, without it, that reaches itself. Where the walk over the whole graph met no cycle
/// there is nothing to look for; else it walks once from each node that it tries, but from none that was done before.
pub fn first_on_cycle(
    alloc: Global,
    graph: &Graph,
    walk: &WalkOutcome,
    low: u32,
    high: u32,
) -> Result<Option<u32>, AllocError>
    requires within { high ≤ length graph.now }
    requires walk { IsWalkOutcome graph.now walk.now }
    ensures { IfOk result (λ found. MatchOption found (NoneOnCycle graph.now low high) (λ a. IsFirstOnCycle graph.now low high a)) }
{
    match walk {
        WalkOutcome::Ordered(_) => Ok(None),
        WalkOutcome::Cycle(done) => first_unmarked_on_cycle(alloc, graph, low, high, done),
    }
}
