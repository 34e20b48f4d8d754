//! What fills a cell.
use guard_syntax::Row;

/// The line of the evidence that gives the rows of a name, and these rows.
#[derive(Drop)]
pub struct Remembered {
    pub line: u64,
    pub rows: Vec<Row>,
}
