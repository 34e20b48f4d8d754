//! A case of a table: a call, the files that it may load, and what is wanted of it.
use crate::heading::{Heading, Source};
use std::alloc::{AllocError, Global};

/// A piece of a file. The pieces of one name stand in the file in order.
#[derive(Clone, Copy)]
pub struct Piece<'t> {
    pub name: &'t str,
    pub content: Content<'t>,
}

/// What a piece of a file is.
#[derive(Clone, Copy)]
pub enum Content<'t> {
    /// This text, so many times.
    Text { text: &'t [u8], times: u64 },
    /// What out took in the case before.
    Out,
}

/// What out is to take: lines, without the newline of the last.
#[derive(Clone, Copy)]
pub enum WantedOut<'t> {
    /// These lines.
    Whole(&'t [u8]),
    /// These lines, and among them any that begin with two spaces.
    Verdicts(&'t [u8]),
    /// Evidence: lines behind this header, which the next case may have as a file.
    Evidence { header: &'static [u8] },
}

/// A call and what is wanted of it.
#[derive(Drop)]
pub struct Case<'t> {
    pub name: &'t str,
    /// The words, parted by one space each; none: no words.
    pub words: Option<&'t str>,
    pub pieces: Vec<Piece<'t>>,
    pub status: u8,
    pub out: WantedOut<'t>,
    /// The lines that err is to take, without the newline of the last.
    pub err: &'t [u8],
}

impl<'t> Case<'t> {
    /// A case of which only the name is known.
    pub fn new(alloc: Global, name: &'t str) -> Case<'t> {
        Case {
            name,
            words: None,
            pieces: Vec::new(alloc),
            status: 0,
            out: WantedOut::Whole(b""),
            err: b"",
        }
    }

    /// Adds what a part of it says.
    pub fn add(&mut self, heading: Heading<'t>, text: &'t [u8]) -> Result<(), AllocError> {
        match heading {
            Heading::Case(name) => self.name = name,
            Heading::Guard(words) => self.words = words,
            Heading::File { name, source } => {
                let content = content_of(source, text);
                self.pieces.push(Piece { name, content })?;
            }
            Heading::Status(status) => self.status = status,
            Heading::Out => self.out = WantedOut::Whole(without_ends(text)),
            Heading::Verdicts => self.out = WantedOut::Verdicts(without_ends(text)),
            Heading::Evidence => {
                self.out = WantedOut::Evidence {
                    header: b"guard-evidence 2",
                };
            }
            Heading::Err => self.err = without_ends(text),
        }
        Ok(())
    }
}

/// The piece of a file that a text is; the newline in front of the next heading is none of it.
fn content_of(source: Source, text: &[u8]) -> Content<'_> {
    match source {
        Source::Out => Content::Out,
        Source::Text { times } => Content::Text {
            text: text.strip_suffix(b"\n").unwrap_or(text),
            times,
        },
    }
}

/// A text without the newlines at its end.
fn without_ends(text: &[u8]) -> &[u8] {
    match text.iter().rposition(|byte| *byte != b'\n') {
        Some(last) => &text[..last + 1],
        None => &[],
    }
}
