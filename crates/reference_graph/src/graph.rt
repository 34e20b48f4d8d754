//! Graphs: for each node the nodes that it names.
ghost use Rattle.std.specs.Prelude.{◌≡◌, ◌<◌, ℕ, List, [], length, slice_index_or};
ghost use Rattle.rule_names.specs.Graphs.{IsGraph};
ghost use Rattle.reference_graph.specs.code.Layout.{IsLaidOut, rows_of};

use std::marker::Model;

/// The nodes from 0 on, and for each of them the nodes that it names, in the order in which they were added. A
/// `GraphBuilder` makes it.
#[derive(Drop)]
pub struct Graph {
    /// Where the targets of each node begin, and behind that of the last node where they end.
    pub(crate) starts: Vec<u32>,
    /// The targets of all nodes, one node's behind the other's.
    pub(crate) targets: Vec<u32>,
}

impl Model for Graph {
    ghost Value = { List (List ℕ) };

    ghost view = { λ g. rows_of g.starts.items g.targets.items };

    ghost invariant = { λ g. IsGraph (rows_of g.starts.items g.targets.items) × IsLaidOut g.starts.items g.targets.items };
}

impl Graph {
    /// How many nodes there are.
    pub fn count(&self) -> u32
        ensures count { result ≡ length self.now }
        ensures graph { IsGraph self.now }
    {
        (self.starts.len() - 1) as u32
    }

    /// The nodes that a node names.
    pub fn targets(&self, node: u32) -> &[u32]
        requires { node < length self.now }
        ensures targets { result.now ≡ slice_index_or self.now node [] }
        ensures graph { IsGraph self.now }
    {
        let node = node as usize;
        let start = self.starts[node] as usize;
        let end = self.starts[node + 1] as usize;
        &self.targets.as_slice()[start..end]
    }
}
