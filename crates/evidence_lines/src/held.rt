//! Lines as evidence holds them: each in a few numbers, what they cite and the rows that they say behind one another.
ghost use Rattle.std.specs.Prelude.{◌≡◌, ◌++◌, ◌∷◌, [], List, ℕ, IfOk, IfSome, IsOk, OnErr, OnOk, length, nat_lt, option_and_then, option_map, slice_get};
ghost use Rattle.evidence_lines.specs.code.Held.{HasPlace, HasRows, HasSpan, IsCut, IsHeld, IsRun, cut_run, cut_span, frame_at, node_ref, outcome_at, rows_form, see_lines, site_at, span_at, span_of, value_in};
ghost use Rattle.evidence_lines.specs.code.Said.{place_of, said_verdict};
ghost use Rattle.evidence_lines.specs.declared.held.Place.{Place};
ghost use Rattle.evidence_lines.specs.declared.held.RunForm.TheVariants as held_as;
ghost use Rattle.evidence_lines.specs.declared.held.Span.{Span};
ghost use Rattle.evidence_lines.specs.declared.line.Outcome.TheVariants as says;
ghost use Rattle.guard_syntax.specs.declared.row.Row as declared;

use crate::line::{Cites, Line, LineKind, LinePlace, Outcome, Rows, RowsForm};
use crate::node_rows::{are_node_rows, hold_node_rows, hold_nodes, nodes_of};
use crate::remembered::{Remembered, remember, remember_run, shared_row, shared_run};
use guard_syntax::{Origin, Ref, Row, Verdict};
use std::alloc::{AllocError, Global};
use std::slice;

/// Neighbours in a vector: the index of the first, and how many they are.
#[derive(Clone, Copy)]
pub(crate) struct Span {
    pub start: u32,
    pub count: u32,
}

/// How a run of neighbours is held.
#[derive(Clone, Copy)]
pub(crate) enum RunForm {
    /// No items.
    None,
    /// One, by its index.
    One,
    /// Two, by the index of the first.
    Two,
    /// More, by the number of their span.
    More,
}

/// How the place of a line is held.
#[derive(Clone, Copy)]
pub(crate) enum PlaceForm {
    /// It has neither frame nor site.
    None,
    /// Its frame and its site.
    Here,
    /// It stands beside the lines, at the number that is held for its frame.
    Beside,
}

/// What a line says, but for its rows. A form with a verdict or a run in it would take a byte more.
#[derive(Clone, Copy)]
pub(crate) enum SaidForm {
    /// The value at a node of the template, whose number is held.
    Node,
    /// The key of it.
    Key,
    /// The value of its row.
    Value,
    /// One row: the value at a node of the template, whose number is held.
    NodeRow,
    /// The key of it.
    KeyRow,
    /// Rows, of which there are none.
    NoRows,
    Row,
    TwoRows,
    /// More rows.
    Rows,
    /// More, all of them values at nodes of the template: the span is one of nodes.
    NodeRows,
    Pass,
    Fail,
    Skip,
}

/// A line as it is held, with the small fields first: so it takes 20 bytes.
#[derive(Clone, Copy)]
pub(crate) struct HeldLine {
    pub kind: LineKind,
    pub place: PlaceForm,
    pub cites: RunForm,
    pub said: SaidForm,
    pub frame: u32,
    pub site: u32,
    pub cites_at: u32,
    pub said_at: u32,
}

/// A frame and a site that are held whole.
#[derive(Clone, Copy)]
pub(crate) struct Place {
    pub frame: Option<u64>,
    pub site: Option<u32>,
}

/// Lines, and what they share.
#[derive(Drop)]
pub(crate) struct Held {
    pub lines: Vec<HeldLine>,
    pub cites: Vec<u64>,
    pub cite_spans: Vec<Span>,
    pub rows: Vec<Row>,
    /// In place of rows that are the values at them.
    pub nodes: Vec<u32>,
    /// Of rows and of nodes.
    pub row_spans: Vec<Span>,
    pub places: Vec<Place>,
    pub remembered: Remembered,
}

/// How a place is held, with its numbers.
#[derive(Clone, Copy)]
struct HeldPlace {
    form: PlaceForm,
    frame: u32,
    site: u32,
}

/// How a run is held, with its number.
#[derive(Clone, Copy)]
struct HeldRun {
    form: RunForm,
    at: u32,
}

/// How what a line says is held, with its number.
#[derive(Clone, Copy)]
pub(crate) struct HeldSaid {
    pub form: SaidForm,
    pub at: u32,
}

impl Held {
    /// No lines. It takes no memory.
    pub(crate) fn new(alloc: Global) -> Held
        ensures lines { see_lines result ≡ [] }
        ensures held { IsHeld result }
    {
        Held {
            lines: Vec::new(alloc),
            cites: Vec::new(alloc),
            cite_spans: Vec::new(alloc),
            rows: Vec::new(alloc),
            nodes: Vec::new(alloc),
            row_spans: Vec::new(alloc),
            places: Vec::new(alloc),
            remembered: Remembered::new(alloc),
        }
    }

    /// No lines, and room for so many.
    pub(crate) fn with_room(alloc: Global, lines: usize) -> Result<Held, AllocError>
        ensures lines { IfOk result (λ held. see_lines held ≡ []) }
        ensures held { IfOk result IsHeld }
        ensures none { lines ≡ 0 → IsOk result }
    {
        Ok(Held {
            lines: Vec::with_capacity(alloc, lines)?,
            cites: Vec::new(alloc),
            cite_spans: Vec::new(alloc),
            rows: Vec::new(alloc),
            nodes: Vec::new(alloc),
            row_spans: Vec::new(alloc),
            places: Vec::new(alloc),
            remembered: Remembered::new(alloc),
        })
    }

    /// The line at an index. It takes no memory.
    pub(crate) fn line(&self, index: usize) -> Option<Line<'_>>
        requires { IsHeld self.now }
        ensures { result ≡ slice_get (see_lines self.entry.now) index }
    {
        let Some(held) = self.lines.get(index) else {
            return None;
        };
        Some(Line {
            kind: held.kind,
            frame: frame_at(&self.places, held.place, held.frame),
            site: site_at(&self.places, held.place, held.frame, held.site),
            cites: Cites::new(cites_at(&self.cites, &self.cite_spans, held.cites, held.cites_at)),
            outcome: outcome_at(
                &self.rows,
                &self.nodes,
                &self.row_spans,
                held.said,
                held.said_at,
            ),
        })
    }

    /// The kind of the line at an index.
    pub(crate) fn kind(&self, index: usize) -> Option<LineKind>
        ensures { result ≡ option_map (λ l. l.kind) (slice_get (see_lines self.now) index) }
    {
        match self.lines.get(index) {
            Some(held) => Some(held.kind),
            None => None,
        }
    }

    /// Where the line at an index stands, and its kind.
    pub(crate) fn place(&self, index: usize) -> Option<LinePlace>
        ensures { result ≡ option_map place_of (slice_get (see_lines self.now) index) }
    {
        let Some(held) = self.lines.get(index) else {
            return None;
        };
        Some(LinePlace {
            kind: held.kind,
            frame: frame_at(&self.places, held.place, held.frame),
            site: site_at(&self.places, held.place, held.frame, held.site),
        })
    }

    /// What the line at an index says.
    pub(crate) fn outcome(&self, index: usize) -> Option<Outcome<'_>>
        requires { IsHeld self.now }
        ensures { result ≡ option_map (λ l. l.outcome) (slice_get (see_lines self.entry.now) index) }
    {
        let Some(held) = self.lines.get(index) else {
            return None;
        };
        Some(outcome_at(
            &self.rows,
            &self.nodes,
            &self.row_spans,
            held.said,
            held.said_at,
        ))
    }

    /// The verdict that the line at an index says, if it says one.
    pub(crate) fn verdict(&self, index: usize) -> Option<Verdict>
        ensures { result ≡ option_and_then (λ l. said_verdict l.outcome) (slice_get (see_lines self.now) index) }
    {
        match self.lines.get(index) {
            Some(held) => verdict_in(held.said),
            None => None,
        }
    }

    /// Adds a line behind the others. Where memory is wanting, what was added of it belongs to no line.
    pub(crate) fn push(&mut self, line: Line<'_>) -> Result<(), AllocError>
        requires { IsHeld self.old }
        ensures held { IsHeld self.new }
        ensures added { OnOk result (see_lines self.new ≡ see_lines self.old ++ line.entry ∷ []) }
        ensures kept { OnErr result (see_lines self.new ≡ see_lines self.old) }
    {
        let cites = hold_cites(&mut self.cites, &mut self.cite_spans, line.cites.as_slice())?;
        let said = hold_outcome(
            &mut self.rows,
            &mut self.nodes,
            &mut self.row_spans,
            &mut self.remembered,
            line.outcome,
        )?;
        let place = hold_place(&mut self.places, line.frame, line.site)?;
        self.lines.push(HeldLine {
            kind: line.kind,
            place: place.form,
            cites: cites.form,
            said: said.form,
            frame: place.frame,
            site: place.site,
            cites_at: cites.at,
            said_at: said.at,
        })?;
        Ok(())
    }
}

/// The span of a run.
fn span_at(spans: &[Span], form: RunForm, at: u32) -> Span
    ensures { result ≡ span_at spans.now form at }
{
    match form {
        RunForm::None => span_of(at, 0),
        RunForm::One => span_of(at, 1),
        RunForm::Two => span_of(at, 2),
        RunForm::More => match spans.get(at as usize) {
            Some(span) => *span,
            None => span_of(0, 0),
        },
    }
}

pub(crate) fn span_of(start: u32, count: u32) -> Span
    ensures { result ≡ span_of start count }
{
    Span { start, count }
}

/// The cites of a span.
fn cited(cites: &[u64], span: Span) -> &[u64]
    requires { IsCut (length cites.now) span }
    ensures { result.now ≡ cut_span cites.entry.now span }
{
    let start = span.start as usize;
    &cites[start..start + span.count as usize]
}

/// The rows of a span.
pub(crate) fn rows_of(rows: &[Row], span: Span) -> &[Row]
    requires { IsCut (length rows.now) span }
    ensures { result.now ≡ cut_span rows.entry.now span }
{
    let start = span.start as usize;
    &rows[start..start + span.count as usize]
}

/// The cites of a run.
fn cites_at<'a>(cites: &'a [u64], spans: &[Span], form: RunForm, at: u32) -> &'a [u64]
    requires { IsRun (length cites.now) spans.now form at }
    ensures { result.now ≡ cut_run cites.entry.now spans.now form at }
{
    cited(cites, span_at(spans, form, at))
}

/// The rows of a run.
fn rows_at<'a>(rows: &'a [Row], spans: &[Span], form: RunForm, at: u32) -> &'a [Row]
    requires { IsRun (length rows.now) spans.now form at }
    ensures { result.now ≡ cut_run rows.entry.now spans.now form at }
{
    rows_of(rows, span_at(spans, form, at))
}

/// The frame of a place.
fn frame_at(places: &[Place], form: PlaceForm, frame: u32) -> Option<u64>
    ensures { result ≡ frame_at places.now form frame }
{
    match form {
        PlaceForm::None => None,
        PlaceForm::Here => Some(u64::from(frame)),
        PlaceForm::Beside => match places.get(frame as usize) {
            Some(place) => place.frame,
            None => None,
        },
    }
}

/// The site of a place.
fn site_at(places: &[Place], form: PlaceForm, frame: u32, site: u32) -> Option<u32>
    ensures { result ≡ site_at places.now form frame site }
{
    match form {
        PlaceForm::None => None,
        PlaceForm::Here => Some(site),
        PlaceForm::Beside => match places.get(frame as usize) {
            Some(place) => place.site,
            None => None,
        },
    }
}

/// What is said, by its form.
fn outcome_at<'a>(
    rows: &'a [Row],
    nodes: &'a [u32],
    spans: &[Span],
    form: SaidForm,
    at: u32,
) -> Outcome<'a>
    requires { HasRows (length rows.now) (length nodes.now) spans.now form at }
    ensures { result ≡ outcome_at rows.entry.now nodes.entry.now spans.now form at }
{
    match form {
        SaidForm::Node => Outcome::Value(node_ref(false, at)),
        SaidForm::Key => Outcome::Value(node_ref(true, at)),
        SaidForm::Value => Outcome::Value(value_in(rows_at(rows, spans, RunForm::One, at))),
        SaidForm::NodeRow => Outcome::Rows(Rows::one(Row::Found(node_ref(false, at)))),
        SaidForm::KeyRow => Outcome::Rows(Rows::one(Row::Found(node_ref(true, at)))),
        SaidForm::NoRows => Outcome::Rows(Rows::new(rows_at(rows, spans, RunForm::None, at))),
        SaidForm::Row => Outcome::Rows(Rows::new(rows_at(rows, spans, RunForm::One, at))),
        SaidForm::TwoRows => Outcome::Rows(Rows::new(rows_at(rows, spans, RunForm::Two, at))),
        SaidForm::Rows => Outcome::Rows(Rows::new(rows_at(rows, spans, RunForm::More, at))),
        SaidForm::NodeRows => Outcome::Rows(Rows::nodes(nodes_of(
            nodes,
            span_at(spans, RunForm::More, at),
        ))),
        SaidForm::Pass => Outcome::Verdict(Verdict::Pass),
        SaidForm::Fail => Outcome::Verdict(Verdict::Fail),
        SaidForm::Skip => Outcome::Verdict(Verdict::Skip),
    }
}

/// The verdict of a form.
fn verdict_in(form: SaidForm) -> Option<Verdict>
    ensures { (rows : List declared.Row) (nodes : List ℕ) (spans : List Span) (at : ℕ) → result ≡ said_verdict (outcome_at rows nodes spans form at) }
{
    match form {
        SaidForm::Node
        | SaidForm::Key
        | SaidForm::Value
        | SaidForm::NodeRow
        | SaidForm::KeyRow
        | SaidForm::NoRows
        | SaidForm::Row
        | SaidForm::TwoRows
        | SaidForm::Rows
        | SaidForm::NodeRows => None,
        SaidForm::Pass => Some(Verdict::Pass),
        SaidForm::Fail => Some(Verdict::Fail),
        SaidForm::Skip => Some(Verdict::Skip),
    }
}

/// The value at a node of the template, or its key.
fn node_ref(key: bool, node: u32) -> Ref
    ensures { result ≡ node_ref key node }
{
    Ref {
        origin: Origin::Template,
        node,
        key,
    }
}

/// The value of the only row.
fn value_in(rows: &[Row]) -> Ref
    ensures { result ≡ value_in rows.now }
{
    match rows {
        [Row::Found(value)] => *value,
        _ => node_ref(false, 0),
    }
}

/// The span of so many items that are added behind so many others.
pub(crate) fn span_behind(others: usize, items: usize) -> Result<Span, AllocError>
    ensures start { IfOk result (λ span. span.start ≡ others) }
    ensures count { IfOk result (λ span. span.count ≡ items) }
{
    // Items whose numbers do not fit take more memory than there is.
    let Ok(start) = u32::try_from(others) else {
        return Err(AllocError);
    };
    let Ok(count) = u32::try_from(items) else {
        return Err(AllocError);
    };
    Ok(Span { start, count })
}

/// Adds items behind the others, and answers where they are.
pub(crate) fn add_items<T: Copy>(into: &mut Vec<T>, items: &[T]) -> Result<Span, AllocError>
    ensures more { (more : List T) × (into.new.items ≡ into.old.items ++ more) }
    ensures held { IfOk result (λ span. IsCut (length into.new.items) span × (cut_span into.new.items span ≡ items.now)) }
    ensures count { IfOk result (λ span. span.count ≡ length items.now) }
{
    let span = span_behind(into.len(), items.len())?;
    into.extend_from_slice(items)?;
    Ok(span)
}

/// Holds a span as a run: that of a few items in place, any other beside the lines.
fn hold_span(into: &mut Vec<Span>, span: Span) -> Result<HeldRun, AllocError>
    ensures more { (more : List Span) × (into.new.items ≡ into.old.items ++ more) }
    ensures held { IfOk result (λ run. HasSpan (length into.new.items) run.form run.at × (span_at into.new.items run.form run.at ≡ span)) }
{
    let at = span.start;
    match span.count {
        0 => Ok(HeldRun {
            form: RunForm::None,
            at,
        }),
        1 => Ok(HeldRun {
            form: RunForm::One,
            at,
        }),
        2 => Ok(HeldRun {
            form: RunForm::Two,
            at,
        }),
        _ => Ok(HeldRun {
            form: RunForm::More,
            at: hold_long(into, span)?,
        }),
    }
}

/// Holds a span beside the lines, and answers its number.
pub(crate) fn hold_long(into: &mut Vec<Span>, span: Span) -> Result<u32, AllocError>
    ensures more { (more : List Span) × (into.new.items ≡ into.old.items ++ more) }
    ensures held { IfOk result (λ at. HasSpan (length into.new.items) held_as.More at × (span_at into.new.items held_as.More at ≡ span)) }
{
    // So many spans take more memory than there is.
    let Ok(at) = u32::try_from(into.len()) else {
        return Err(AllocError);
    };
    into.push(span)?;
    Ok(at)
}

/// Holds the cites of a line.
fn hold_cites(
    into: &mut Vec<u64>,
    spans: &mut Vec<Span>,
    cites: &[u64],
) -> Result<HeldRun, AllocError>
    ensures more { (more : List ℕ) × (into.new.items ≡ into.old.items ++ more) }
    ensures spans { (more : List Span) × (spans.new.items ≡ spans.old.items ++ more) }
    ensures held { IfOk result (λ run. IsRun (length into.new.items) spans.new.items run.form run.at × (cut_run into.new.items spans.new.items run.form run.at ≡ cites.now)) }
{
    let span = add_items(into, cites)?;
    hold_span(spans, span)
}

/// Whether rows are a run whose span stands beside the lines. A line tells one or two by its form and the index of the
/// first, so it is from three on that a run has a number, by which nodes can stand for it, and by which it is said again.
pub(crate) fn is_long(rows: &[Row]) -> bool
    ensures { result ≡ nat_lt 2 (length rows.now) }
{
    rows.len() > 2
}

/// The form of a line that says a run of rows.
fn rows_form(form: RunForm) -> SaidForm
    ensures { result ≡ rows_form form }
{
    match form {
        RunForm::None => SaidForm::NoRows,
        RunForm::One => SaidForm::Row,
        RunForm::Two => SaidForm::TwoRows,
        RunForm::More => SaidForm::Rows,
    }
}

/// A span, where it lies within so many items.
fn within(span: Span, many: usize) -> Option<Span>
    ensures { IfSome result (λ inside. (inside ≡ span) × IsCut many inside) }
{
    if span.start as usize + span.count as usize <= many {
        Some(span)
    } else {
        None
    }
}

/// The span of a number, where there is one and it lies within so many items.
pub(crate) fn held_span(many: usize, spans: &[Span], at: u32) -> Option<Span>
    ensures { IfSome result (λ span. IsRun many spans.now held_as.More at × (span_at spans.now held_as.More at ≡ span)) }
{
    match spans.get(at as usize) {
        Some(span) => within(*span, many),
        None => None,
    }
}

/// Holds an only row in place, if it is a value of the template.
fn in_place(rows: &[Row]) -> Option<HeldSaid>
    ensures { IfSome result (λ said. (held : List declared.Row) (nodes : List ℕ) (spans : List Span)
        → HasRows (length held) (length nodes) spans said.form said.at × (outcome_at held nodes spans said.form said.at ≡ says.Rows rows.now)) }
{
    let [Row::Found(value)] = rows else {
        return None;
    };
    match value.origin {
        Origin::Template => Some(HeldSaid {
            form: if value.key {
                SaidForm::KeyRow
            } else {
                SaidForm::NodeRow
            },
            at: value.node,
        }),
        _ => None,
    }
}

/// Holds rows: an only row that is a value of the template in place. A literal has one value, which is said wherever its
/// expression is evaluated, and rules ask for the same rows of the same queries: so these are held once.
fn hold_any_rows(
    into: &mut Vec<Row>,
    spans: &mut Vec<Span>,
    remembered: &mut Remembered,
    rows: &[Row],
) -> Result<HeldSaid, AllocError>
    ensures more { (more : List declared.Row) × (into.new.items ≡ into.old.items ++ more) }
    ensures spans { (more : List Span) × (spans.new.items ≡ spans.old.items ++ more) }
    ensures held { (nodes : List ℕ) → IfOk result (λ said. HasRows (length into.new.items) (length nodes) spans.new.items said.form said.at
        × (outcome_at into.new.items nodes spans.new.items said.form said.at ≡ says.Rows rows.now)) }
{
    if let Some(said) = in_place(rows) {
        return Ok(said);
    }
    if let Some(at) = shared_row(into, &remembered.literals, rows) {
        return Ok(HeldSaid {
            form: SaidForm::Row,
            at,
        });
    }
    if let Some(at) = shared_run(into, spans, &remembered.runs, rows) {
        return Ok(HeldSaid {
            form: SaidForm::Rows,
            at,
        });
    }
    let span = add_items(into, rows)?;
    remember(&mut remembered.literals, rows, span.start)?;
    let run = hold_span(spans, span)?;
    remember_run(&mut remembered.runs, rows, run.at)?;
    Ok(HeldSaid {
        form: rows_form(run.form),
        at: run.at,
    })
}

/// Holds the rows of a line: more than two that are all values at nodes of the template by the numbers of the nodes.
fn hold_rows(
    into: &mut Vec<Row>,
    nodes: &mut Vec<u32>,
    spans: &mut Vec<Span>,
    remembered: &mut Remembered,
    rows: &[Row],
) -> Result<HeldSaid, AllocError>
    ensures more { (more : List declared.Row) × (into.new.items ≡ into.old.items ++ more) }
    ensures nodes { (more : List ℕ) × (nodes.new.items ≡ nodes.old.items ++ more) }
    ensures spans { (more : List Span) × (spans.new.items ≡ spans.old.items ++ more) }
    ensures held { IfOk result (λ said. HasRows (length into.new.items) (length nodes.new.items) spans.new.items said.form said.at
        × (outcome_at into.new.items nodes.new.items spans.new.items said.form said.at ≡ says.Rows rows.now)) }
{
    if is_long(rows) && are_node_rows(rows) {
        hold_node_rows(nodes, spans, &mut remembered.runs, rows)
    } else {
        hold_any_rows(into, spans, remembered, rows)
    }
}

/// Holds what a line says.
fn hold_outcome(
    into: &mut Vec<Row>,
    nodes: &mut Vec<u32>,
    spans: &mut Vec<Span>,
    remembered: &mut Remembered,
    outcome: Outcome<'_>,
) -> Result<HeldSaid, AllocError>
    ensures more { (more : List declared.Row) × (into.new.items ≡ into.old.items ++ more) }
    ensures nodes { (more : List ℕ) × (nodes.new.items ≡ nodes.old.items ++ more) }
    ensures spans { (more : List Span) × (spans.new.items ≡ spans.old.items ++ more) }
    ensures held { IfOk result (λ said. HasRows (length into.new.items) (length nodes.new.items) spans.new.items said.form said.at
        × (outcome_at into.new.items nodes.new.items spans.new.items said.form said.at ≡ outcome.entry)) }
{
    match outcome {
        Outcome::Value(value) => hold_value(into, value),
        Outcome::Rows(rows) => match rows.form {
            RowsForm::Slice(items) => hold_rows(into, nodes, spans, remembered, items),
            RowsForm::One(row) => {
                hold_rows(into, nodes, spans, remembered, slice::from_ref(&row))
            }
            RowsForm::Nodes(others) => hold_nodes(nodes, spans, others),
        },
        Outcome::Verdict(verdict) => Ok(hold_verdict(verdict)),
    }
}

/// Holds a value: one of the template in place, any other as a row.
fn hold_value(into: &mut Vec<Row>, value: Ref) -> Result<HeldSaid, AllocError>
    ensures more { (more : List declared.Row) × (into.new.items ≡ into.old.items ++ more) }
    ensures held { (nodes : List ℕ) (spans : List Span) → IfOk result (λ said. HasRows (length into.new.items) (length nodes) spans said.form said.at
        × (outcome_at into.new.items nodes spans said.form said.at ≡ says.Value value)) }
{
    match value.origin {
        Origin::Template => Ok(HeldSaid {
            form: if value.key {
                SaidForm::Key
            } else {
                SaidForm::Node
            },
            at: value.node,
        }),
        _ => {
            let span = add_items(into, &[Row::Found(value)])?;
            Ok(HeldSaid {
                form: SaidForm::Value,
                at: span.start,
            })
        }
    }
}

/// Holds a verdict.
fn hold_verdict(verdict: Verdict) -> HeldSaid
    ensures { (many others : ℕ) (rows : List declared.Row) (nodes : List ℕ) (spans : List Span) → HasRows many others spans result.form result.at
        × (outcome_at rows nodes spans result.form result.at ≡ says.Verdict verdict) }
{
    HeldSaid {
        form: match verdict {
            Verdict::Pass => SaidForm::Pass,
            Verdict::Fail => SaidForm::Fail,
            Verdict::Skip => SaidForm::Skip,
        },
        at: 0,
    }
}

/// Holds the place of a line: in it where its numbers have 32 bits, else beside the lines.
fn hold_place(
    into: &mut Vec<Place>,
    frame: Option<u64>,
    site: Option<u32>,
) -> Result<HeldPlace, AllocError>
    ensures more { (more : List Place) × (into.new.items ≡ into.old.items ++ more) }
    ensures held { IfOk result (λ held. HasPlace (length into.new.items) held.form held.frame
        × (frame_at into.new.items held.form held.frame ≡ frame) × (site_at into.new.items held.form held.frame held.site ≡ site)) }
{
    match (frame, site) {
        (None, None) => Ok(HeldPlace {
            form: PlaceForm::None,
            frame: 0,
            site: 0,
        }),
        (Some(number), Some(here)) => match u32::try_from(number) {
            Ok(number) => Ok(HeldPlace {
                form: PlaceForm::Here,
                frame: number,
                site: here,
            }),
            Err(_) => hold_beside(into, Place { frame, site }),
        },
        _ => hold_beside(into, Place { frame, site }),
    }
}

/// Holds a place beside the lines.
fn hold_beside(into: &mut Vec<Place>, place: Place) -> Result<HeldPlace, AllocError>
    ensures more { (more : List Place) × (into.new.items ≡ into.old.items ++ more) }
    ensures held { IfOk result (λ held. HasPlace (length into.new.items) held.form held.frame
        × (frame_at into.new.items held.form held.frame ≡ place.frame) × (site_at into.new.items held.form held.frame held.site ≡ place.site)) }
{
    // So many places take more memory than there is.
    let Ok(frame) = u32::try_from(into.len()) else {
        return Err(AllocError);
    };
    into.push(place)?;
    Ok(HeldPlace {
        form: PlaceForm::Beside,
        frame,
        site: 0,
    })
}
