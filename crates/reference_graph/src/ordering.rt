//! An order in which each node stands behind all that it names, if no node reaches itself.
ghost use Rattle.std.specs.Prelude.{◌≡◌, ◌<◌, ℕ, [], IfOk, MatchOption, MatchBool, length};
ghost use Rattle.std.specs.List.{All, Contains};
ghost use Rattle.rule_names.specs.Graphs.{HasCycle, Reaches};
ghost use Rattle.rule_names.specs.code.Marks.{IsMarked};
ghost use Rattle.reference_graph.specs.code.Ordering.{AreMarkedFrom, IsFirstUnmarked, IsSettled, IsWalked, IsWalkOutcome, Begins, Finishes, nodes_on, work_left};

use crate::graph::Graph;
use crate::reach::no_marks;
use std::alloc::{AllocError, Global};

/// A node on a path, and the index of the first of its targets that is not known to be done.
#[derive(Clone, Copy)]
pub(crate) struct Stop {
    pub(crate) node: u32,
    pub(crate) next: usize,
}

/// How far a walk has come: the nodes that it has begun and those that are done; the path of those that are begun and not
/// done, each of which reaches the next; and the done ones in order.
#[derive(Drop)]
pub(crate) struct Walk {
    pub(crate) begun: Vec<bool>,
    pub(crate) done: Vec<bool>,
    pub(crate) path: Vec<Stop>,
    pub(crate) order: Vec<u32>,
}

/// What a walk over a whole graph ends with: an order of all nodes, or where it met a cycle the marks of the nodes that
/// were done before, none of which reaches itself.
#[derive(Drop)]
pub enum WalkOutcome {
    Ordered(Vec<u32>),
    Cycle(Vec<bool>),
}

/// A walk that has begun nowhere.
fn no_walk(alloc: Global, graph: &Graph) -> Result<Walk, AllocError>
    ensures walked { IfOk result (λ walk. IsWalked graph.now walk) }
    ensures idle { IfOk result (λ walk. walk.path.items ≡ []) }
{
    Ok(Walk {
        begun: no_marks(alloc, graph)?,
        done: no_marks(alloc, graph)?,
        path: Vec::new(alloc),
        order: Vec::with_capacity(alloc, graph.count() as usize)?,
    })
}

/// The index of the first node from an index on that is not marked.
fn first_unmarked(nodes: &[u32], low: usize, marks: &[bool]) -> Option<usize>
    requires { All (λ a. a < length marks.now) nodes.now }
    ensures { MatchOption result (AreMarkedFrom marks.now nodes.now low) (λ i. IsFirstUnmarked marks.now nodes.now low i) }
{
    for index in low..nodes.len() {
        if !marks[nodes[index] as usize] {
            return Some(index);
        }
    }
    None
}

/// Puts a node behind those that are done.
fn finish(walk: &mut Walk, node: u32) -> Result<(), AllocError>
    requires { node < length walk.old.done.items }
    ensures { IfOk result (λ _. Finishes node walk.old walk.new) }
{
    walk.done[node as usize] = true;
    walk.order.push(node)?;
    Ok(())
}

/// Begins a node that the whole path leads to. One that names nothing is done at once; any other is put on the path.
fn begin(graph: &Graph, node: u32, walk: &mut Walk) -> Result<(), AllocError>
    requires node { node < length graph.now }
    requires new { IsMarked walk.old.begun.items node → ⊥ }
    requires walked { IsWalked graph.now walk.old }
    requires leads { (a : ℕ) → Contains (nodes_on walk.old.path.items) a → Reaches graph.now a node }
    ensures { IfOk result (λ _. IsWalked graph.now walk.new × Begins node walk.old walk.new × (work_left walk.new < work_left walk.old)) }
{
    walk.begun[node as usize] = true;
    if graph.targets(node).is_empty() {
        return finish(walk, node);
    }
    walk.path.push(Stop { node, next: 0 })?;
    Ok(())
}

/// Goes down from a node until it and all that it reaches are done, or until it meets a cycle; whether all are done.
fn visit(graph: &Graph, root: u32, walk: &mut Walk) -> Result<bool, AllocError>
    requires root { root < length graph.now }
    requires new { IsMarked walk.old.begun.items root → ⊥ }
    requires walked { IsWalked graph.now walk.old }
    requires idle { walk.old.path.items ≡ [] }
    ensures { IfOk result (λ ended. MatchBool ended
        (IsWalked graph.now walk.new × (walk.new.path.items ≡ []) × Begins root walk.old walk.new)
        (IsSettled graph.now walk.new.done.items walk.new.order.items × HasCycle graph.now)) }
{
    begin(graph, root, walk)?;
    while let Some(stop) = walk.path.pop() {
        let targets = graph.targets(stop.node);
        let Some(index) = first_unmarked(targets, stop.next, walk.done.as_slice()) else {
            finish(walk, stop.node)?;
            continue;
        };
        let target = targets[index];
        if walk.begun[target as usize] {
            return Ok(false);
        }
        walk.path.push(Stop {
            node: stop.node,
            next: index,
        })?;
        begin(graph, target, walk)?;
    }
    Ok(true)
}

/// Walks depth-first from node 0 upwards, the targets of a node in their order, until all is done or it meets a cycle.
pub fn walk_all(alloc: Global, graph: &Graph) -> Result<WalkOutcome, AllocError>
    ensures { IfOk result (λ walk. IsWalkOutcome graph.now walk) }
{
    let mut walk = no_walk(alloc, graph)?;
    for root in 0..graph.count() {
        if walk.begun[root as usize] {
            continue;
        }
        let ended = visit(graph, root, &mut walk)?;
        if !ended {
            return Ok(WalkOutcome::Cycle(walk.done));
        }
    }
    Ok(WalkOutcome::Ordered(walk.order))
}
