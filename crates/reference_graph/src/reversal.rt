//! The graph in which each node names those that named it.
ghost use Rattle.std.specs.Prelude.{◌≡◌, ◌<◌, ℕ, IfOk, length};
ghost use Rattle.std.specs.List.{All};
ghost use Rattle.std.specs.Result.{OnOk};
ghost use Rattle.rule_names.specs.Graphs.{IsReverse};
ghost use Rattle.rule_names.specs.code.Marks.{NamesMore};

use crate::builder::GraphBuilder;
use crate::graph::Graph;
use std::alloc::{AllocError, Global};

/// Adds a node to those that each of some nodes names.
fn add_to_each(back: &mut GraphBuilder, targets: &[u32], node: u32) -> Result<(), AllocError>
    requires node { node < length back.old }
    requires within { All (λ b. b < length back.old) targets.now }
    ensures { OnOk result (NamesMore back.old targets.now node back.new) }
{
    for target in targets {
        back.add(*target, node)?;
    }
    Ok(())
}

/// The graph turned round. Each list of names is in the order of the nodes.
pub fn reversed(alloc: Global, graph: &Graph) -> Result<Graph, AllocError>
    ensures { IfOk result (λ back. IsReverse graph.now back) }
{
    let mut back = GraphBuilder::new(alloc, graph.count());
    for node in 0..graph.count() {
        add_to_each(&mut back, graph.targets(node), node)?;
    }
    back.build(alloc)
}
