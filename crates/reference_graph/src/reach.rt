//! The nodes that a node reaches.
ghost use Rattle.std.specs.Prelude.{◌≡◌, ◌<◌, ℕ, false, length, IfOk, ◌↔◌, replicate};
ghost use Rattle.std.specs.List.{All};
ghost use Rattle.std.specs.Result.{OnOk};
ghost use Rattle.rule_names.specs.Graphs.{Reaches};
ghost use Rattle.rule_names.specs.code.Marks.{IsMarked, Marks};

use crate::graph::Graph;
use std::alloc::{AllocError, Global};

/// No mark at any node.
pub(crate) fn no_marks(alloc: Global, graph: &Graph) -> Result<Vec<bool>, AllocError>
    ensures { IfOk result (λ marks. marks.items ≡ replicate (length graph.now) false) }
{
    Ok(vec![in alloc; false; graph.count() as usize]?)
}

/// Marks what is not marked yet of some nodes, and puts it on the pending nodes.
fn mark(targets: &[u32], marks: &mut Vec<bool>, pending: &mut Vec<u32>) -> Result<(), AllocError>
    requires within { All (λ b. b < length marks.old.items) targets.now }
    requires marked { All (IsMarked marks.old.items) pending.old.items }
    ensures marks { OnOk result (Marks targets.now marks.old.items pending.old.items marks.new.items pending.new.items) }
{
    for target in targets {
        let index = *target as usize;
        if !marks[index] {
            marks[index] = true;
            pending.push(*target)?;
        }
    }
    Ok(())
}

/// Which nodes a node reaches, in one step or more. Each node is looked at once.
pub fn reached(alloc: Global, graph: &Graph, from: u32) -> Result<Vec<bool>, AllocError>
    requires { from < length graph.now }
    ensures each { IfOk result (λ marks. length marks.items ≡ length graph.now) }
    ensures reached { IfOk result (λ marks. (b : ℕ) → IsMarked marks.items b ↔ Reaches graph.now from b) }
{
    let mut marks = no_marks(alloc, graph)?;
    let mut pending = Vec::new(alloc);
    mark(graph.targets(from), &mut marks, &mut pending)?;
    while let Some(node) = pending.pop() {
        mark(graph.targets(node), &mut marks, &mut pending)?;
    }
    Ok(marks)
}
