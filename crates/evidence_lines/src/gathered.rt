//! Rows side by side, for callers that want a slice. Most rows stand in one already and are borrowed. Only where evidence holds
//! nodes in place of rows a vector is made for them, and what borrows from nobody has to be owned: so it is owned here.
ghost use Rattle.std.specs.Prelude.{◌≡◌, ◌∷◌, []};

use guard_syntax::Row;
use std::marker::Model;
use std::slice;

/// Where rows stand side by side.
#[derive(Drop)]
pub(crate) enum GatheredForm<'a> {
    /// In a slice.
    Slice(&'a [Row]),
    /// Here: it is one.
    One(Row),
    /// In a vector that was made for them.
    Made(Vec<Row>),
}

/// The rows that a line says, side by side. Contracts see a list.
#[derive(Drop)]
pub struct Gathered<'a> {
    form: GatheredForm<'a>,
}

impl<'a> Model for Gathered<'a> {
    ghost use Rattle.std.specs.Prelude.{List};
    ghost use Rattle.evidence_lines.specs.code.RowsSeen.{see_gathered};
    ghost use Rattle.guard_syntax.specs.declared.row.Row.{Row};

    ghost Value = { List Row };

    ghost view = { λ g. see_gathered g.form };
}

impl<'a> Gathered<'a> {
    /// The rows of a slice.
    pub(crate) fn slice(items: &'a [Row]) -> Gathered<'a>
        ensures { result ≡ items.entry.now }
    {
        Gathered {
            form: GatheredForm::Slice(items),
        }
    }

    /// One row.
    pub(crate) fn one(row: Row) -> Gathered<'a>
        ensures { result ≡ row ∷ [] }
    {
        Gathered {
            form: GatheredForm::One(row),
        }
    }

    /// The rows of a vector.
    pub(crate) fn made(rows: Vec<Row>) -> Gathered<'a>
        ensures { result ≡ rows.items }
    {
        Gathered {
            form: GatheredForm::Made(rows),
        }
    }

    /// The rows themselves.
    pub fn as_slice(&self) -> &[Row]
        ensures { result.now ≡ self.entry.now }
    {
        match &self.form {
            GatheredForm::Slice(items) => items,
            GatheredForm::One(row) => slice::from_ref(row),
            GatheredForm::Made(rows) => rows,
        }
    }
}
