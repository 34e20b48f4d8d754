//! Rows that are values at nodes of the template: of a run of them evidence holds the numbers of the nodes. A row takes 48
//! bytes and a node 4, and the long runs are mostly such rows: what a query finds of the resources of a template.
ghost use Rattle.std.specs.Prelude.{◌≡◌, ◌++◌, List, ℕ, IfOk, IfSome, OnOk, length, map, true};
ghost use Rattle.std.specs.List.{list_all};
ghost use Rattle.evidence_lines.specs.code.Held.{HasRows, IsCut, IsRun, cut_run, cut_span, outcome_at};
ghost use Rattle.evidence_lines.specs.code.RowsSeen.{is_node_row, node_of, node_row};
ghost use Rattle.evidence_lines.specs.declared.held.RunForm.TheVariants as held_as;
ghost use Rattle.evidence_lines.specs.declared.held.Span.{Span};
ghost use Rattle.evidence_lines.specs.declared.line.Outcome.TheVariants as says;
ghost use Rattle.guard_syntax.specs.declared.row.Row as declared;

use crate::held::{HeldSaid, SaidForm, Span, add_items, held_span, hold_long, span_behind};
use crate::remembered::{remember_run, slot_of};
use guard_syntax::{Origin, Ref, Row};
use std::alloc::{AllocError, Global};

/// The row that is the value at a node of the template.
pub(crate) fn node_row(node: u32) -> Row
    ensures { result ≡ node_row node }
{
    Row::Found(Ref {
        origin: Origin::Template,
        node,
        key: false,
    })
}

/// Whether a row is the value at some node of the template.
fn is_node_row(row: Row) -> bool
    ensures { result ≡ is_node_row row }
{
    match row {
        Row::Found(value) => match value.origin {
            Origin::Template => !value.key,
            _ => false,
        },
        _ => false,
    }
}

/// The node of its value.
fn node_of(row: Row) -> u32
    ensures { result ≡ node_of row }
{
    match row {
        Row::Found(value) => value.node,
        _ => 0,
    }
}

/// The rows that are the values at nodes of the template.
pub(crate) fn rows_of_nodes(alloc: Global, nodes: &[u32]) -> Result<Vec<Row>, AllocError>
    ensures { IfOk result (λ rows. rows.items ≡ map node_row nodes.now) }
{
    nodes.iter().map(|node| node_row(*node)).collect(alloc)
}

/// Whether each of some rows is the value at a node of the template.
pub(crate) fn are_node_rows(rows: &[Row]) -> bool
    ensures { result ≡ list_all is_node_row rows.now }
{
    rows.iter().all(|row| is_node_row(*row))
}

/// The nodes of a span.
pub(crate) fn nodes_of(nodes: &[u32], span: Span) -> &[u32]
    requires { IsCut (length nodes.now) span }
    ensures { result.now ≡ cut_span nodes.entry.now span }
{
    let start = span.start as usize;
    &nodes[start..start + span.count as usize]
}

/// Whether the values of rows are at these nodes.
fn are_at(nodes: &[u32], rows: &[Row]) -> bool
    ensures { result ≡ true → nodes.now ≡ map node_of rows.now }
{
    nodes.len() == rows.len()
        && nodes
            .iter()
            .zip(rows)
            .all(|(node, row)| *node == node_of(*row))
}

/// The number of a span of nodes that are held and are those of rows.
fn shared_nodes(nodes: &[u32], spans: &[Span], runs: &[u32], rows: &[Row]) -> Option<u32>
    ensures { IfSome result (λ at. IsRun (length nodes.now) spans.now held_as.More at × (cut_run nodes.now spans.now held_as.More at ≡ map node_of rows.now)) }
{
    let Some(at) = runs.get(slot_of(rows)) else {
        return None;
    };
    let Some(span) = held_span(nodes.len(), spans, *at) else {
        return None;
    };
    if are_at(nodes_of(nodes, span), rows) {
        Some(*at)
    } else {
        None
    }
}

/// Adds the nodes of rows behind the others.
fn push_nodes(into: &mut Vec<u32>, rows: &[Row]) -> Result<(), AllocError>
    ensures more { (more : List ℕ) × (into.new.items ≡ into.old.items ++ more) }
    ensures added { OnOk result (into.new.items ≡ into.old.items ++ map node_of rows.now) }
{
    for row in rows {
        into.push(node_of(*row))?;
    }
    Ok(())
}

/// Adds the nodes of rows behind the others, and answers where they are.
fn add_nodes(into: &mut Vec<u32>, rows: &[Row]) -> Result<Span, AllocError>
    ensures more { (more : List ℕ) × (into.new.items ≡ into.old.items ++ more) }
    ensures held { IfOk result (λ span. IsCut (length into.new.items) span × (cut_span into.new.items span ≡ map node_of rows.now)) }
{
    let span = span_behind(into.len(), rows.len())?;
    push_nodes(into, rows)?;
    Ok(span)
}

/// Holds rows that are all values at nodes of the template. Runs of rows have the same slots, so the span that is found may be
/// one of rows; the nodes at it are compared all the same.
pub(crate) fn hold_node_rows(
    nodes: &mut Vec<u32>,
    spans: &mut Vec<Span>,
    runs: &mut Vec<u32>,
    rows: &[Row],
) -> Result<HeldSaid, AllocError>
    requires { list_all is_node_row rows.now ≡ true }
    ensures more { (more : List ℕ) × (nodes.new.items ≡ nodes.old.items ++ more) }
    ensures spans { (more : List Span) × (spans.new.items ≡ spans.old.items ++ more) }
    ensures held { (others : List declared.Row) → IfOk result (λ said. HasRows (length others) (length nodes.new.items) spans.new.items said.form said.at
        × (outcome_at others nodes.new.items spans.new.items said.form said.at ≡ says.Rows rows.now)) }
{
    if let Some(at) = shared_nodes(nodes, spans, runs, rows) {
        return Ok(HeldSaid {
            form: SaidForm::NodeRows,
            at,
        });
    }
    let span = add_nodes(nodes, rows)?;
    let at = hold_long(spans, span)?;
    remember_run(runs, rows, at)?;
    Ok(HeldSaid {
        form: SaidForm::NodeRows,
        at,
    })
}

/// Holds the values at nodes of the template: so rows come that are borrowed from evidence. They are not looked
/// for among the runs that were said before: lines are seldom copied from evidence to evidence.
pub(crate) fn hold_nodes(
    into: &mut Vec<u32>,
    spans: &mut Vec<Span>,
    nodes: &[u32],
) -> Result<HeldSaid, AllocError>
    ensures more { (more : List ℕ) × (into.new.items ≡ into.old.items ++ more) }
    ensures spans { (more : List Span) × (spans.new.items ≡ spans.old.items ++ more) }
    ensures held { (others : List declared.Row) → IfOk result (λ said. HasRows (length others) (length into.new.items) spans.new.items said.form said.at
        × (outcome_at others into.new.items spans.new.items said.form said.at ≡ says.Rows (map node_row nodes.now))) }
{
    let span = add_items(into, nodes)?;
    Ok(HeldSaid {
        form: SaidForm::NodeRows,
        at: hold_long(spans, span)?,
    })
}
