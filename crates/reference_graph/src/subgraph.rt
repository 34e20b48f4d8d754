//! The graph that is left where only the nodes below a number are named.
ghost use Rattle.std.specs.Prelude.{◌≡◌, ◌<◌, IfOk, length};
ghost use Rattle.std.specs.List.{All};
ghost use Rattle.std.specs.Result.{OnOk};
ghost use Rattle.reference_graph.specs.code.Subgraphs.{IsSubgraph, NamesBelow};

use crate::builder::GraphBuilder;
use crate::graph::Graph;
use std::alloc::{AllocError, Global};

/// Adds those of some nodes that are below a number to the nodes that a node names.
fn add_below(
    subgraph: &mut GraphBuilder,
    node: u32,
    targets: &[u32],
    bound: u32,
) -> Result<(), AllocError>
    requires node { node < length subgraph.old }
    requires within { All (λ b. b < length subgraph.old) targets.now }
    ensures { OnOk result (NamesBelow subgraph.old node targets.now bound subgraph.new) }
{
    for target in targets {
        if *target >= bound {
            continue;
        }
        subgraph.add(node, *target)?;
    }
    Ok(())
}

/// The same nodes, each of which names those that it named below a number.
pub fn subgraph_below(alloc: Global, graph: &Graph, bound: u32) -> Result<Graph, AllocError>
    ensures { IfOk result (λ subgraph. IsSubgraph graph.now bound subgraph) }
{
    let mut subgraph = GraphBuilder::new(alloc, graph.count());
    for node in 0..graph.count() {
        add_below(&mut subgraph, node, graph.targets(node), bound)?;
    }
    subgraph.build(alloc)
}
