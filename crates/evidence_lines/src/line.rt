//! A line of evidence.
ghost use Rattle.std.specs.Prelude.{◌≡◌, ◌∷◌, [], IfOk, length, map, slice_get};
ghost use Rattle.evidence_lines.specs.code.RowsSeen.{node_row};
ghost use Rattle.evidence_lines.specs.Shapes.{is_placed, may_cite, sort_of};

use crate::gathered::Gathered;
use crate::node_rows::{node_row, rows_of_nodes};
use guard_syntax::{Ref, Row, Verdict};
use std::alloc::{AllocError, Global};
use std::marker::Model;
use std::slice;

/// What a line is about.
#[derive(Clone, Copy, PartialEq)]
pub enum LineKind {
    /// The template's root, in the frame of the file.
    File,
    /// The value of a body, a filter's candidate or a called body: later lines name this line as their frame.
    Frame,
    /// The rows of a literal.
    Literal,
    /// The rows of a `some` query.
    Found,
    /// The rows of a function call.
    Fn,
    /// The rows of a query up to a step that is neither a filter nor a key filter.
    Step,
    /// The rows of a query up to a filter.
    Filter,
    /// The rows of a query up to a key filter.
    Keys,
    /// The keys that a filter or key filter captures.
    Capture,
    /// The rows of a type block.
    Types,
    /// The verdict of a test.
    Test,
    /// The verdict of a reference to a rule.
    Refer,
    /// The verdict of a call of a rule.
    Call,
    /// The verdict of parts joined by `or`.
    Disj,
    /// The verdict of a body, of conditions or of the parts outside rules.
    Conj,
    /// The verdict of a `when` block.
    When,
    /// The verdict of a block.
    Block,
    /// The verdict of a type block.
    Kinds,
    /// The verdict of a rule, or of `default`.
    Rule,
}

/// What a line can say.
#[derive(Clone, Copy)]
pub enum Sort {
    Value,
    Rows,
    Verdict,
}

impl LineKind {
    /// What a line of the kind says.
    pub fn sort(self) -> Sort
        ensures { result ≡ sort_of self }
    {
        match self {
            LineKind::File | LineKind::Frame => Sort::Value,
            LineKind::Literal
            | LineKind::Found
            | LineKind::Fn
            | LineKind::Step
            | LineKind::Filter
            | LineKind::Keys
            | LineKind::Capture
            | LineKind::Types => Sort::Rows,
            LineKind::Test
            | LineKind::Refer
            | LineKind::Call
            | LineKind::Disj
            | LineKind::Conj
            | LineKind::When
            | LineKind::Block
            | LineKind::Kinds
            | LineKind::Rule => Sort::Verdict,
        }
    }

    /// Whether a line of the kind has a frame and a site.
    pub fn is_placed(self) -> bool
        ensures { result ≡ is_placed self }
    {
        self != LineKind::File
    }

    /// Whether a line of the kind may cite others.
    pub fn may_cite(self) -> bool
        ensures { result ≡ may_cite self }
    {
        match self {
            LineKind::File | LineKind::Frame | LineKind::Literal | LineKind::Types => false,
            _ => true,
        }
    }
}

/// The numbers of lines that a line cites, in order. Contracts see a list.
#[derive(Drop)]
pub struct Cites<'a> {
    items: &'a [u64],
}

impl<'a> Model for Cites<'a> {
    ghost use Rattle.std.specs.Prelude.{ℕ, List};

    ghost Value = { List ℕ };

    ghost view = { λ c. c.items.now };
}

impl<'a> Cites<'a> {
    /// The numbers of a slice.
    pub fn new(items: &'a [u64]) -> Cites<'a>
        ensures { result ≡ items.entry.now }
    {
        Cites { items }
    }

    /// The numbers themselves.
    pub fn as_slice(&self) -> &'a [u64]
        ensures { result.now ≡ self.entry.now }
    {
        self.items
    }
}

/// Where the rows that a line says stand.
#[derive(Clone, Copy)]
pub(crate) enum RowsForm<'a> {
    /// In a slice.
    Slice(&'a [Row]),
    /// Here: it is one.
    One(Row),
    /// Nowhere: they are the values at these nodes of the template.
    Nodes(&'a [u32]),
}

/// The rows that a line says, in order. Contracts see a list.
#[derive(Drop)]
pub struct Rows<'a> {
    pub(crate) form: RowsForm<'a>,
}

impl<'a> Model for Rows<'a> {
    ghost use Rattle.std.specs.Prelude.{List};
    ghost use Rattle.evidence_lines.specs.code.RowsSeen.{see_rows};
    ghost use Rattle.guard_syntax.specs.declared.row.Row.{Row};

    ghost Value = { List Row };

    ghost view = { λ r. see_rows r.form };
}

impl<'a> Rows<'a> {
    /// The rows of a slice.
    pub fn new(items: &'a [Row]) -> Rows<'a>
        ensures { result ≡ items.entry.now }
    {
        Rows {
            form: RowsForm::Slice(items),
        }
    }

    /// One row, which is held here: it borrows from nothing.
    pub fn one(row: Row) -> Rows<'a>
        ensures { result ≡ row ∷ [] }
    {
        Rows {
            form: RowsForm::One(row),
        }
    }

    /// The values at nodes of the template, in their order.
    pub(crate) fn nodes(nodes: &'a [u32]) -> Rows<'a>
        ensures { result ≡ map node_row nodes.entry.now }
    {
        Rows {
            form: RowsForm::Nodes(nodes),
        }
    }

    /// How many they are. It takes no memory.
    pub fn len(&self) -> usize
        ensures { result ≡ length self.now }
    {
        match &self.form {
            RowsForm::Slice(items) => items.len(),
            RowsForm::One(_) => 1,
            RowsForm::Nodes(nodes) => nodes.len(),
        }
    }

    /// The row at an index. It takes no memory.
    pub fn get(&self, index: usize) -> Option<Row>
        ensures { result ≡ slice_get self.now index }
    {
        match &self.form {
            RowsForm::Slice(items) => items.get(index).copied(),
            RowsForm::One(row) => slice::from_ref(row).get(index).copied(),
            RowsForm::Nodes(nodes) => match nodes.get(index) {
                Some(node) => Some(node_row(*node)),
                None => None,
            },
        }
    }

    /// The rows side by side. Memory is taken only where they stand nowhere: those of a run of more than two values of the
    /// template, of which evidence holds the nodes.
    pub fn gather(&self, alloc: Global) -> Result<Gathered<'a>, AllocError>
        ensures { IfOk result (λ rows. rows ≡ self.entry.now) }
    {
        match &self.form {
            RowsForm::Slice(items) => Ok(Gathered::slice(items)),
            RowsForm::One(row) => Ok(Gathered::one(*row)),
            RowsForm::Nodes(nodes) => Ok(Gathered::made(rows_of_nodes(alloc, nodes)?)),
        }
    }

    /// The rows in a vector of their own.
    pub fn to_vec(&self, alloc: Global) -> Result<Vec<Row>, AllocError>
        ensures { IfOk result (λ rows. rows.items ≡ self.now) }
    {
        match &self.form {
            RowsForm::Slice(items) => copies(alloc, items),
            RowsForm::One(row) => copies(alloc, slice::from_ref(row)),
            RowsForm::Nodes(nodes) => rows_of_nodes(alloc, nodes),
        }
    }
}

/// Rows in a vector of their own.
fn copies(alloc: Global, rows: &[Row]) -> Result<Vec<Row>, AllocError>
    ensures { IfOk result (λ made. made.items ≡ rows.now) }
{
    let mut made = Vec::new(alloc);
    made.extend_from_slice(rows)?;
    Ok(made)
}

/// What a line says.
#[derive(Drop)]
pub enum Outcome<'a> {
    /// The current value of a frame.
    Value(Ref),
    Rows(Rows<'a>),
    Verdict(Verdict),
}

/// A line of evidence, which borrows what it cites and the rows that it says. Lines are numbered from 1; a frame is the
/// number of the line of kind `File` or `Frame` that names it, and a site that of a part of the rule file.
#[derive(Drop)]
pub struct Line<'a> {
    pub kind: LineKind,
    pub frame: Option<u64>,
    pub site: Option<u32>,
    pub cites: Cites<'a>,
    pub outcome: Outcome<'a>,
}

/// Where a line stands: its kind, its frame and its site.
#[derive(Clone, Copy)]
pub struct LinePlace {
    pub kind: LineKind,
    pub frame: Option<u64>,
    pub site: Option<u32>,
}
