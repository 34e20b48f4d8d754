//! What came of a call, held against what is wanted.
use crate::case::{Case, WantedOut};
use crate::run::Ran;
use std::alloc::{AllocError, Global};
use std::borrow::CowSlice;

/// What the lines of entries in a report begin with.
const ENTRY_MARK: &[u8] = b"  ";

/// Something in which a call differs from what is wanted.
#[derive(Clone, Copy)]
pub enum Difference<'a> {
    Status {
        wanted: u8,
        came: u8,
    },
    /// The wanted lines are given without the newline of the last.
    Lines {
        sink: &'static str,
        wanted: &'a [u8],
        came: &'a [u8],
    },
}

impl Difference<'_> {
    /// Appends what was wanted and what came.
    pub fn append(&self, lines: &mut Vec<u8>) -> Result<(), AllocError> {
        let alloc = *lines.allocator();
        match self {
            Difference::Status { wanted, came } => append(
                lines,
                format!(in alloc; "wanted status {wanted}\ncame status {came}\n")?,
            ),
            Difference::Lines { sink, wanted, came } => {
                append(lines, format!(in alloc; "wanted {sink}\n")?)?;
                append_text(lines, wanted)?;
                let note = note_on_end(came);
                append(lines, format!(in alloc; "came {sink}{note}\n")?)?;
                append_text(lines, came)
            }
        }
    }
}

/// What is said of a text whose last line has no newline.
fn note_on_end(text: &[u8]) -> &'static str {
    match text.last() {
        None | Some(b'\n') => "",
        Some(_) => ", without a newline at the end",
    }
}

/// Appends lines.
pub fn append(lines: &mut Vec<u8>, more: String) -> Result<(), AllocError> {
    lines.extend_from_slice(more.as_bytes())
}

/// Appends a text, with a newline behind its last line.
fn append_text(lines: &mut Vec<u8>, text: &[u8]) -> Result<(), AllocError> {
    lines.extend_from_slice(text)?;
    match text.last() {
        None | Some(b'\n') => Ok(()),
        Some(_) => lines.extend_from_slice(b"\n"),
    }
}

/// In what a call differs, if in anything: the status, what out took of which the lines of entries may be left out, and
/// what err took.
pub fn differences<'a>(
    case: &Case<'a>,
    ran: &'a Ran,
    judged_out: &'a [u8],
) -> [Option<Difference<'a>>; 3] {
    let (sink, wanted_out) = match case.out {
        WantedOut::Whole(lines) => ("out", lines),
        WantedOut::Verdicts(lines) => ("verdicts", lines),
        WantedOut::Evidence { header } => ("evidence", header),
    };
    [
        status_difference(case.status, ran.status),
        lines_difference(sink, wanted_out, judged_out),
        lines_difference("err", case.err, &ran.err),
    ]
}

fn status_difference<'a>(wanted: u8, came: u8) -> Option<Difference<'a>> {
    if came == wanted {
        None
    } else {
        Some(Difference::Status { wanted, came })
    }
}

fn lines_difference<'a>(
    sink: &'static str,
    wanted: &'a [u8],
    came: &'a [u8],
) -> Option<Difference<'a>> {
    if took(came, wanted) {
        None
    } else {
        Some(Difference::Lines { sink, wanted, came })
    }
}

/// Whether a sink took these lines, given without the newline of the last, and nothing else.
fn took(came: &[u8], wanted: &[u8]) -> bool {
    match came {
        [] => wanted.is_empty(),
        [lines @ .., b'\n'] => !lines.is_empty() && lines == wanted,
        _ => false,
    }
}

/// What is compared of what out took.
pub fn judged_out<'a>(
    alloc: Global,
    wanted: WantedOut<'_>,
    out: &'a [u8],
) -> Result<CowSlice<'a, u8>, AllocError> {
    match wanted {
        WantedOut::Whole(_) => Ok(CowSlice::Borrowed(out)),
        WantedOut::Verdicts(_) => Ok(CowSlice::Owned(without_entries(alloc, out)?)),
        WantedOut::Evidence { .. } => Ok(CowSlice::Borrowed(first_line(out))),
    }
}

/// The first line, with its newline.
fn first_line(text: &[u8]) -> &[u8] {
    match text.iter().position(|byte| *byte == b'\n') {
        Some(at) => &text[..=at],
        None => text,
    }
}

/// A report without the lines of entries.
fn without_entries(alloc: Global, report: &[u8]) -> Result<Vec<u8>, AllocError> {
    let mut left = Vec::new(alloc);
    for line in report.split_inclusive(|byte| *byte == b'\n') {
        if !line.starts_with(ENTRY_MARK) {
            left.extend_from_slice(line)?;
        }
    }
    Ok(left)
}
