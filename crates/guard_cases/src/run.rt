//! A case run: the top call over files and sinks in memory.
use crate::case::{Case, Content, Piece};
use guard_io::{CleanSink, MemFiles};
use guard_run::guard;
use std::alloc::{AllocError, Global};
use value_compare::RegexMaker;

/// What came of a call.
#[derive(Drop)]
pub struct Ran {
    pub status: u8,
    pub out: Vec<u8>,
    pub err: Vec<u8>,
}

/// Runs the call of a case. What out took in the case before may be one of its files.
pub fn run_case(alloc: Global, case: &Case<'_>, before: &[u8]) -> Result<Ran, AllocError> {
    let words = words_of(alloc, case.words)?;
    let mut files = MemFiles {
        names: files_of(alloc, &case.pieces, before)?,
        failing: Vec::new(alloc),
        calls: 0,
        faults: 0,
    };
    let mut maker = RegexMaker { faults: 0 };
    let mut out = empty_sink(alloc);
    let mut err = empty_sink(alloc);
    let end = guard(alloc, &words, &mut files, &mut maker, &mut out, &mut err);
    Ok(Ran {
        status: end.status(),
        out: out.bytes,
        err: err.bytes,
    })
}

fn empty_sink(alloc: Global) -> CleanSink {
    CleanSink {
        bytes: Vec::new(alloc),
    }
}

/// The words of a call, which one space each parts.
fn words_of(alloc: Global, words: Option<&str>) -> Result<Vec<String>, AllocError> {
    let mut owned = Vec::new(alloc);
    if let Some(words) = words {
        for word in words.split(' ') {
            owned.push(String::from_str(alloc, word)?)?;
        }
    }
    Ok(owned)
}

/// The files of a call, put together of their pieces.
fn files_of(
    alloc: Global,
    pieces: &[Piece<'_>],
    before: &[u8],
) -> Result<Vec<(String, Vec<u8>)>, AllocError> {
    let mut files = Vec::new(alloc);
    for piece in pieces {
        let at = place_of(alloc, &mut files, piece.name)?;
        if let Some((_, bytes)) = files.get_mut(at) {
            append(bytes, piece.content, before)?;
        }
    }
    Ok(files)
}

/// The place of the file of this name, which is put behind the others if it is not there.
fn place_of(
    alloc: Global,
    files: &mut Vec<(String, Vec<u8>)>,
    name: &str,
) -> Result<usize, AllocError> {
    match files.iter().position(|file| file.0.as_str() == name) {
        Some(at) => Ok(at),
        None => {
            files.push((String::from_str(alloc, name)?, Vec::new(alloc)))?;
            Ok(files.len() - 1)
        }
    }
}

/// Appends a piece to a file.
fn append(file: &mut Vec<u8>, content: Content<'_>, before: &[u8]) -> Result<(), AllocError> {
    match content {
        Content::Out => file.extend_from_slice(before),
        Content::Text { text, times: 1 } => file.extend_from_slice(text),
        Content::Text { text, times } => append_times(file, text, times),
    }
}

/// Appends a text so many times. It is doubled for each digit of the number in the binary system, so that a short text
/// costs no more than a long one.
fn append_times(file: &mut Vec<u8>, text: &[u8], times: u64) -> Result<(), AllocError> {
    let mut doubled = Vec::from_slice(*file.allocator(), text)?;
    let mut left = times;
    'doublings: while left > 1 {
        if left % 2 == 1 {
            file.extend_from_slice(&doubled)?;
        }
        let half = Vec::from_slice(*file.allocator(), &doubled)?;
        doubled.extend_from_slice(&half)?;
        left /= 2;
    }
    if left == 1 {
        file.extend_from_slice(&doubled)?;
    }
    Ok(())
}
