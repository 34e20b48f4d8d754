//! Which part of a rule file leads to which. The edges are gathered in the order in which their parts stand, and then make
//! up the graph.
ghost use Rattle.std.specs.Prelude.{◌≡◌, ◌++◌, IfOk, length};
ghost use Rattle.std.specs.Result.{OnOk};
ghost use Rattle.guard_syntax.specs.code.Seen.{see_file};
ghost use Rattle.name_scopes.specs.code.Seen.{see_given};
ghost use Rattle.reference_cycles.specs.code.RuleIndexes.{rules_of};
ghost use Rattle.rule_names.specs.Scopes.{given_file};
ghost use Rattle.rule_names.specs.ReferenceGraph.{graph_of, with_edge, with_edges, edges_of_file};

mod leads;
mod parts;
mod rule_index;
mod uses;
mod walk;

use guard_syntax::RawFile;
use leads::Edge;
use name_scopes::binders::Binders;
use name_scopes::scope_chain::ScopeChain;
use name_scopes::scopes::file_names;
use reference_graph::{Graph, GraphBuilder};
use rule_index::RuleIndex;
use std::alloc::{AllocError, Global};
use walk::in_file;

/// The edges of a file, in the order in which their parts stand.
fn edges_of(alloc: Global, file: &RawFile, count: u32) -> Result<Vec<Edge>, AllocError>
    requires { length (see_file file.now).places ≡ count }
    ensures { IfOk result (λ edges. edges.items ≡ edges_of_file (see_file file.now)) }
{
    let rule_index = RuleIndex::new(alloc, &file.rules, count)?;
    let own = Binders::new(alloc, file_names(alloc, file)?)?;
    edges_among(&rule_index, file, &own)
}

/// The same, where the rules and the names of the file are known.
fn edges_among<'f>(
    rule_index: &RuleIndex<'f>,
    file: &'f RawFile,
    own: &Binders<'f>,
) -> Result<Vec<Edge>, AllocError>
    requires rules { rules_of rule_index.now ≡ (see_file file.now).rules }
    requires count { rule_index.now.count ≡ length (see_file file.now).places }
    requires names { see_given own.now.names.items ≡ given_file (see_file file.now) }
    ensures { IfOk result (λ edges. edges.items ≡ edges_of_file (see_file file.entry.now)) }
{
    let chain = ScopeChain::outermost(own);
    let mut edges: Vec<Edge> = Vec::new(rule_index.alloc);
    in_file(rule_index, file, &chain, &mut edges)?;
    Ok(edges)
}

/// Adds an edge to a graph that has both its nodes.
fn add_edge(graph: &mut GraphBuilder, edge: Edge) -> Result<(), AllocError>
    ensures { OnOk result (graph.new ≡ with_edge graph.old edge) }
{
    let (from, to) = edge;
    let count = graph.count() as u64;
    if from < count && to < count {
        return graph.add(from as u32, to as u32);
    }
    Ok(())
}

/// Adds edges to a graph, in turn.
fn add_edges(graph: &mut GraphBuilder, edges: &[Edge]) -> Result<(), AllocError>
    ensures { OnOk result (graph.new ≡ with_edges graph.old edges.now) }
{
    for edge in edges {
        add_edge(graph, *edge)?;
    }
    Ok(())
}

/// The graph of a file: its parts and names, and which of them leads to which.
pub fn graph_of(alloc: Global, file: &RawFile) -> Result<Graph, AllocError>
    ensures { IfOk result (λ graph. graph ≡ graph_of (see_file file.now)) }
{
    // No file has so many sites that their nodes are more than a `u32` counts.
    let Ok(count) = u32::try_from(file.places.as_slice().len()) else {
        return Err(AllocError);
    };
    let Some(nodes) = count.checked_mul(3) else {
        return Err(AllocError);
    };
    let mut graph = GraphBuilder::new(alloc, nodes);
    // The edges are let go before the graph is laid out.
    {
        let edges = edges_of(alloc, file, count)?;
        add_edges(&mut graph, &edges)?;
    }
    graph.build(alloc)
}
