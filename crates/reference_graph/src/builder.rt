//! Graphs that are made edge by edge.
ghost use Rattle.std.specs.Prelude.{◌≡◌, ◌<◌, ◌++◌, ◌∷◌, ℕ, List, [], IfOk, length, replicate, slice_index_or, slice_set};
ghost use Rattle.std.specs.Result.{OnOk, OnErr};
ghost use Rattle.rule_names.specs.ReferenceGraph.{with_edges};
ghost use Rattle.reference_graph.specs.code.Layout.{IsBuilt};

use crate::graph::Graph;
use crate::layout::{ends_of, lay_out};
use std::alloc::{AllocError, Global};
use std::marker::Model;

/// The edges of a graph that is being made, in the order in which they were added.
#[derive(Drop)]
pub struct GraphBuilder {
    /// How many nodes there are.
    count: u32,
    edges: Vec<(u32, u32)>,
}

impl Model for GraphBuilder {
    ghost Value = { List (List ℕ) };

    ghost view = { λ b. with_edges (replicate b.count []) b.edges.items };

    ghost invariant = { λ b. IsBuilt b.count b.edges.items };
}

impl GraphBuilder {
    /// Nodes that name nothing yet.
    pub fn new(alloc: Global, count: u32) -> GraphBuilder
        ensures { result ≡ replicate count [] }
    {
        GraphBuilder {
            count,
            edges: Vec::new(alloc),
        }
    }

    /// How many nodes there are.
    pub fn count(&self) -> u32
        ensures { result ≡ length self.now }
    {
        self.count
    }

    /// Adds a node to those that a node names.
    pub fn add(&mut self, from: u32, to: u32) -> Result<(), AllocError>
        requires from { from < length self.old }
        requires to { to < length self.old }
        ensures added { OnOk result (self.new ≡ slice_set self.old from (slice_index_or self.old from [] ++ to ∷ [])) }
        ensures kept { OnErr result (self.new ≡ self.old) }
    {
        self.edges.push((from, to))?;
        Ok(())
    }

    /// The graph of all edges that were added.
    pub fn build(&self, alloc: Global) -> Result<Graph, AllocError>
        ensures { IfOk result (λ g. g ≡ self.now) }
    {
        let mut starts = ends_of(alloc, self.count, &self.edges)?;
        let targets = lay_out(alloc, self.count, &self.edges, &mut starts)?;
        Ok(Graph { starts, targets })
    }
}
