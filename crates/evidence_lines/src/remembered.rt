//! Where rows stand that were said before. A literal has one value, which is said at each of its evaluations, and rules ask
//! for the same rows of the same queries; a row takes 48 bytes, so these are held once.
ghost use Rattle.std.specs.Prelude.{◌≡◌, ◌<◌, ◌^◌, IfSome, length, true};
ghost use Rattle.evidence_lines.specs.code.Held.{IsCut, IsRun, cut_run, cut_span, span_of};
ghost use Rattle.evidence_lines.specs.declared.held.RunForm.TheVariants as held_as;

use crate::held::{Span, held_span, is_long, rows_of};
use guard_syntax::{Origin, Ref, Row};
use std::alloc::{AllocError, Global};

/// Where rows may stand that were said before. Nothing has to be true of it: rows are only shared with those that stand
/// there and were seen to be the same, so a place that is overwritten, or that was never written, costs memory alone.
#[derive(Drop)]
pub(crate) struct Remembered {
    /// For the site of a literal the index of a row.
    pub literals: Vec<u32>,
    /// For the slot of a long run the number of its span.
    pub runs: Vec<u32>,
}

/// Values are remembered of the literals at so many sites, which take 4 bytes each. There is a bound since evidence that is
/// read may name any site, and one line would take as much memory as its site is great.
const REMEMBERED: u32 = 1 << 16;

/// So many long runs are remembered, each in its slot: a run whose slot another one took since is held again, which costs
/// memory alone, and the slots take no more however many runs there are.
const RUNS: usize = 1 << 10;

impl Remembered {
    /// Nothing. It takes no memory.
    pub(crate) fn new(alloc: Global) -> Remembered {
        Remembered {
            literals: Vec::new(alloc),
            runs: Vec::new(alloc),
        }
    }
}

/// The site of the literal that a row is a value of.
fn literal_of(row: &Row) -> Option<u32> {
    match row {
        Row::Found(
            Ref {
                origin: Origin::Literal(site),
                ..
            },
        ) => Some(*site),
        _ => None,
    }
}

/// The index of a row that is held and is the only one of these, if they are a value of a literal.
pub(crate) fn shared_row(held: &[Row], literals: &[u32], rows: &[Row]) -> Option<u32>
    ensures { IfSome result (λ at. IsCut (length held.now) (span_of at 1) × (cut_span held.now (span_of at 1) ≡ rows.now)) }
{
    let [row] = rows else {
        return None;
    };
    let Some(site) = literal_of(row) else {
        return None;
    };
    let Some(at) = literals.get(site as usize) else {
        return None;
    };
    match held.get(*at as usize) {
        Some(other) if other == row => Some(*at),
        _ => None,
    }
}

/// Remembers where the value of a literal is held.
pub(crate) fn remember(literals: &mut Vec<u32>, rows: &[Row], at: u32) -> Result<(), AllocError> {
    let [row] = rows else {
        return Ok(());
    };
    let Some(site) = literal_of(row) else {
        return Ok(());
    };
    if site >= REMEMBERED {
        return Ok(());
    }
    // An index that was never written is that of the first row, which is compared as any other.
    let site = site as usize;
    if site >= literals.len() {
        literals.resize(site + 1, 0)?;
    }
    if let Some(place) = literals.get_mut(site) {
        *place = at;
    }
    Ok(())
}

/// Whether rows are the same, in the same order.
fn same_rows(rows: &[Row], others: &[Row]) -> bool
    ensures { result ≡ true → rows.now ≡ others.now }
{
    rows == others
}

/// Where a run of rows is remembered: by the node of its first row, and by how many they are. Queries that find the same rows
/// agree in both, and those from different nodes mostly differ, so no more of the rows is looked at.
pub(crate) fn slot_of(rows: &[Row]) -> usize
    ensures { result < 2 ^ 10 }
{
    match rows {
        [Row::Found(first), ..] => rows.len().wrapping_add(first.node as usize) % RUNS,
        _ => rows.len() % RUNS,
    }
}

/// The number of a span of rows that are held and are these, if they are a long run.
pub(crate) fn shared_run(held: &[Row], spans: &[Span], runs: &[u32], rows: &[Row]) -> Option<u32>
    ensures { IfSome result (λ at. IsRun (length held.now) spans.now held_as.More at × (cut_run held.now spans.now held_as.More at ≡ rows.now)) }
{
    if !is_long(rows) {
        return None;
    }
    let Some(at) = runs.get(slot_of(rows)) else {
        return None;
    };
    let Some(span) = held_span(held.len(), spans, *at) else {
        return None;
    };
    if same_rows(rows_of(held, span), rows) {
        Some(*at)
    } else {
        None
    }
}

/// Remembers the number of the span of a long run. The slots take memory with the first such run.
pub(crate) fn remember_run(runs: &mut Vec<u32>, rows: &[Row], at: u32) -> Result<(), AllocError> {
    if !is_long(rows) {
        return Ok(());
    }
    if runs.is_empty() {
        runs.resize(RUNS, 0)?;
    }
    if let Some(place) = runs.get_mut(slot_of(rows)) {
        *place = at;
    }
    Ok(())
}
