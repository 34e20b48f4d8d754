//! The parts of a rule file that have a site.
use guard_syntax::{Body, Conds, Disj, Expr, Let, Part, Query, Rule};

/// A part of a rule file, by its site.
#[derive(Clone, Copy)]
pub enum Piece<'f> {
    File,
    Let(&'f Let),
    Rule(&'f Rule),
    Body(&'f Body),
    Conds(&'f Conds),
    Disj(&'f Disj),
    Part(&'f Part),
    Query(&'f Query),
    /// A step: its query, and its index there from 0.
    Step { query: &'f Query, index: usize },
    /// A literal, a function call, or `some` and a query.
    Expr(&'f Expr),
}
