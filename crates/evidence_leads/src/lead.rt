//! What a line that says FAIL leads to.
use report_text::Entry;

/// An entry of the line's own, or an earlier line that says FAIL, by its number.
#[derive(Clone, Copy)]
pub enum Lead {
    Entry(Entry),
    Line(u64),
}
