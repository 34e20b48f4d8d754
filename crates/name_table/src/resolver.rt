//! Names are tested.
ghost use Rattle.std.specs.Prelude.{◌≡◌, ◌<◌, ◌↔◌, ℕ, false, slice_index_or, IfOk, MatchResult};
ghost use Rattle.std.specs.List.{All, Contains};
ghost use Rattle.guard_syntax.specs.code.Queries.{QueriesBegin};
ghost use Rattle.guard_syntax.specs.code.Seen.{see_file};
ghost use Rattle.reference_graph.specs.code.Ordering.{IsWalkOutcome};
ghost use Rattle.rule_names.specs.code.Files.{file_of};
ghost use Rattle.rule_names.specs.Cycles.{IsAcyclic};
ghost use Rattle.rule_names.specs.Graphs.{IsOrder};
ghost use Rattle.rule_names.specs.code.Marks.{IsMarked};
ghost use Rattle.rule_names.specs.code.Order.{AreRulesInOrder, IsOrderOf, plain_sites};
ghost use Rattle.rule_names.specs.Pieces.{AreInOrder};
ghost use Rattle.rule_names.specs.ReferenceGraph.{graph_of};
ghost use Rattle.name_table.specs.code.Picked.{ArePicked};
ghost use Rattle.name_table.specs.code.Refused.{IsNameRefusal};
ghost use Rattle.name_table.specs.code.Tables.{AreTablesOf, IsTested};

use crate::deep::{depths_of, first_deep};
use crate::refusal::{NameRefusal, refuse};
use guard_syntax::RawFile;
use name_faults::uses::first_faults;
use name_resolution::homes::homes_of;
use name_resolution::resolution::resolution_of;
use reference_cycles::cycles::first_cycle;
use reference_cycles::edges::graph_of;
use reference_graph::{WalkOutcome, walk_all};
use rule_names::{Link, RuleFile};
use std::alloc::{AllocError, Global};

/// The sites of the rules without parameters.
fn plain_sites(alloc: Global, file: &RawFile) -> Result<Vec<u32>, AllocError>
    ensures { IfOk result (λ sites. sites.items ≡ plain_sites (see_file file.now).rules) }
{
    let mut sites = Vec::new(alloc);
    for rule in &file.rules {
        if rule.params.as_slice().is_empty() {
            sites.push(rule.site)?;
        }
    }
    Ok(sites)
}

/// Marks at some of the numbers below one.
fn marks_at(alloc: Global, count: usize, sites: &[u32]) -> Result<Vec<bool>, AllocError>
    requires { All (λ site. site < count) sites.now }
    ensures { IfOk result (λ marks. (site : ℕ) → IsMarked marks.items site ↔ Contains sites.now site) }
{
    let mut marks = vec![in alloc; false; count]?;
    for site in sites {
        marks[*site as usize] = true;
    }
    Ok(marks)
}

/// Whether a site is marked.
fn is_marked(marks: &[bool], site: usize) -> bool
    ensures { result ≡ slice_index_or marks.now site false }
{
    marks.get(site).copied().unwrap_or(false)
}

/// The marked sites whose rules' nodes are among some nodes, in the order of these.
fn picked(
    alloc: Global,
    count: usize,
    marks: &[bool],
    nodes: &[u32],
) -> Result<Vec<u32>, AllocError>
    ensures { IfOk result (λ sites. ArePicked count marks.now nodes.now sites.items) }
{
    let mut sites = Vec::new(alloc);
    for node in nodes {
        let node = *node as usize;
        if node >= count && is_marked(marks, node - count) {
            sites.push((node - count) as u32)?;
        }
    }
    Ok(sites)
}

/// The sites of the rules without parameters, none in front of a rule that it reaches, by the nodes of the file's graph in
/// order.
fn rules_in_order(alloc: Global, file: &RawFile, nodes: &[u32]) -> Result<Vec<u32>, AllocError>
    requires sites { AreInOrder (see_file file.now) }
    requires nodes { IsOrder (graph_of (see_file file.now)) nodes.now }
    ensures { IfOk result (λ sites. AreRulesInOrder (see_file file.now) sites.items) }
{
    let count = file.places.as_slice().len();
    let plain = plain_sites(alloc, file)?;
    let marks = marks_at(alloc, count, &plain)?;
    picked(alloc, count, &marks, nodes)
}

/// The same, and then 0 if parts stand outside rules.
fn judged_sites(alloc: Global, file: &RawFile, nodes: &[u32]) -> Result<Vec<u32>, AllocError>
    requires sites { AreInOrder (see_file file.now) }
    requires nodes { IsOrder (graph_of (see_file file.now)) nodes.now }
    ensures { IfOk result (λ sites. IsOrderOf (see_file file.now) sites.items) }
{
    let mut sites = rules_in_order(alloc, file, nodes)?;
    if file.loose.is_empty() {
        return Ok(sites);
    }
    sites.push(0)?;
    Ok(sites)
}

/// The tables of a file whose names are as they must be.
#[derive(Drop)]
struct Tables {
    homes: Vec<u32>,
    links: Vec<Option<Link>>,
    depths: Vec<u8>,
    judged: Vec<u32>,
}

/// The nodes of the graph of a file without cycles of names, each behind all that it names, as the walk over it has them.
fn ordered_nodes(file: &RawFile, walk: WalkOutcome) -> Vec<u32>
    requires sites { AreInOrder (see_file file.now) }
    requires walk { IsWalkOutcome (graph_of (see_file file.now)) walk }
    requires acyclic { IsAcyclic (see_file file.now) }
    ensures { IsOrder (graph_of (see_file file.now)) result.items }
{
    match walk {
        WalkOutcome::Ordered(nodes) => nodes,
        // Each cycle has a name on it.
        WalkOutcome::Cycle(_) => unreachable!(),
    }
}

/// Tests single names, and whether one reaches itself. The nodes of the file's graph, each behind all that it names, are of
/// use to the order of its rules.
fn tested_nodes(alloc: Global, file: &RawFile) -> Result<Vec<u32>, NameRefusal>
    requires sites { AreInOrder (see_file file.now) }
    ensures { MatchResult result (λ nodes. IsTested (see_file file.now) nodes.items) (λ refusal. IsNameRefusal (see_file file.now) refusal) }
{
    let faults = first_faults(alloc, file)?;
    if let Some(wrong) = faults.again {
        return Err(refuse(alloc, wrong));
    }
    if let Some(wrong) = faults.wrong {
        return Err(refuse(alloc, wrong));
    }
    let graph = graph_of(alloc, file)?;
    let walk = walk_all(alloc, &graph)?;
    if let Some(wrong) = first_cycle(alloc, file, &graph, &walk)? {
        return Err(refuse(alloc, wrong));
    }
    Ok(ordered_nodes(file, walk))
}

/// Tests the names of a file, and makes its tables.
fn tables_of(alloc: Global, file: &RawFile) -> Result<Tables, NameRefusal>
    requires sites { AreInOrder (see_file file.now) }
    ensures { MatchResult result (λ tables. AreTablesOf (see_file file.now) tables) (λ refusal. IsNameRefusal (see_file file.now) refusal) }
{
    // There are three nodes for each site: they are let go before the tables are made.
    let judged = {
        let nodes = tested_nodes(alloc, file)?;
        judged_sites(alloc, file, &nodes)?
    };
    let links = resolution_of(alloc, file)?;
    let depths = depths_of(alloc, file, &links)?;
    if let Some(wrong) = first_deep(file, &links, &depths) {
        return Err(refuse(alloc, wrong));
    }
    let homes = homes_of(alloc, file)?;
    Ok(Tables {
        homes,
        links,
        depths,
        judged,
    })
}

/// Tests the names of a rule file, and gives the file with its parts by their sites. The file is dropped on a refusal.
pub fn resolve(alloc: Global, raw: RawFile) -> Result<RuleFile, NameRefusal>
    requires sites { AreInOrder (see_file raw) }
    requires begins { QueriesBegin (see_file raw) }
    ensures { MatchResult result (λ f. file_of f ≡ see_file raw) (λ refusal. IsNameRefusal (see_file raw) refusal) }
{
    let tables = tables_of(alloc, &raw)?;
    Ok(RuleFile {
        raw,
        homes: tables.homes,
        links: tables.links,
        depths: tables.depths,
        judged: tables.judged,
    })
}
