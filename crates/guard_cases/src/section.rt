//! Sections: a table cut at its headings.
ghost use Rattle.std.specs.Prelude.{◌≤◌, length};
ghost use Rattle.std.specs.Iterator.{at_most};

use crate::refusal::{Misfit, TableRefusal};

/// What a line begins with that is a heading.
const MARK: &[u8] = b"@@ ";

/// A heading with what stands behind it.
#[derive(Clone, Copy)]
pub struct Section<'t> {
    /// The number of the heading's line, from 1.
    pub line: u64,
    /// The heading's line, without the mark and the newline.
    pub heading: &'t [u8],
    /// What stands behind that line, up to the next heading.
    pub text: &'t [u8],
}

impl Section<'_> {
    /// The refusal of a table whose heading does not fit.
    pub fn unfit(&self, misfit: Misfit) -> TableRefusal {
        TableRefusal::Unfit {
            line: self.line,
            misfit,
        }
    }

    /// Refuses a text behind a heading that takes none, at its first line that is not empty.
    pub fn refuse_text(&self) -> Result<(), TableRefusal> {
        match self.text.iter().position(|byte| *byte != b'\n') {
            None => Ok(()),
            Some(empty) => Err(TableRefusal::Unfit {
                line: self.line.saturating_add(1).saturating_add(empty as u64),
                misfit: Misfit::Text,
            }),
        }
    }
}

/// The sections of a table, in order.
#[derive(Drop)]
pub struct Sections<'t> {
    /// What is left of the table: nothing, or a heading and what follows.
    rest: &'t [u8],
    /// The number of the line that it begins with.
    line: u64,
}

impl<'t> Sections<'t> {
    /// Those of a whole table, whose note in front of the first heading is passed over.
    pub fn new(table: &'t [u8]) -> Sections<'t> {
        let (note, rest) = table.split_at(heading_at(table));
        Sections {
            rest,
            line: newlines(note).saturating_add(1),
        }
    }
}

impl<'t> Iterator for Sections<'t> {
    type Item = Section<'t>;

    ghost remaining = { λ s. at_most (length s.rest.now) };

    fn next(&mut self) -> Option<Section<'t>> {
        let behind = self.rest.strip_prefix(MARK)?;
        let (heading, behind) = cut_line(behind);
        let (text, rest) = behind.split_at(heading_at(behind));
        let line = self.line;
        self.rest = rest;
        self.line = line.saturating_add(1).saturating_add(newlines(text));
        Some(Section {
            line,
            heading,
            text,
        })
    }
}

/// Where the first line that is a heading begins, or where the bytes end.
fn heading_at(bytes: &[u8]) -> usize
    ensures { result ≤ length bytes.now }
{
    let mut before = b'\n';
    for (at, byte) in bytes.iter().enumerate() {
        if before == b'\n' && bytes[at..].starts_with(MARK) {
            return at;
        }
        before = *byte;
    }
    bytes.len()
}

/// The first line, without its newline, and what stands behind it.
fn cut_line(bytes: &[u8]) -> (&[u8], &[u8])
    ensures { length result.1.now ≤ length bytes.now }
{
    match bytes.iter().position(|byte| *byte == b'\n') {
        Some(at) => (&bytes[..at], &bytes[at + 1..]),
        None => (bytes, &[]),
    }
}

/// How many newlines there are.
fn newlines(bytes: &[u8]) -> u64 {
    bytes.iter().filter(|byte| **byte == b'\n').count() as u64
}

/// How many lines there are. The last may end without a newline.
pub fn lines_in(bytes: &[u8]) -> u64 {
    match bytes.last() {
        None | Some(b'\n') => newlines(bytes),
        Some(_) => newlines(bytes).saturating_add(1),
    }
}
