//! A heading: the line that begins a part of a table, read as what the part is.
use crate::refusal::Misfit;
use std::str;

/// Where the content of a file comes from.
#[derive(Clone, Copy)]
pub enum Source {
    /// The text behind the heading, this many times.
    Text { times: u64 },
    /// What out took in the case before.
    Out,
}

/// What a part of a table is.
#[derive(Clone, Copy)]
pub enum Heading<'t> {
    /// A case with this name begins.
    Case(&'t str),
    /// The words of the call, parted by one space each; none: no words.
    Guard(Option<&'t str>),
    /// A file that the call may load.
    File { name: &'t str, source: Source },
    /// The status that is wanted.
    Status(u8),
    /// What out is to take.
    Out,
    /// What is left of what out is to take, without the lines of entries.
    Verdicts,
    /// Out is to take evidence, whatever its lines are.
    Evidence,
    /// What err is to take.
    Err,
}

/// Reads the line of a heading, without the mark in front.
pub fn read_heading(line: &[u8]) -> Result<Heading<'_>, Misfit> {
    let Ok(line) = str::from_utf8(line) else {
        return Err(Misfit::Heading);
    };
    match first_word(line) {
        ("case", name) => Ok(Heading::Case(named(name)?)),
        ("guard", words) => Ok(Heading::Guard(words)),
        ("file", rest) => read_file(named(rest)?),
        ("status", number) => read_status(number),
        ("out", None) => Ok(Heading::Out),
        ("verdicts", None) => Ok(Heading::Verdicts),
        ("evidence", None) => Ok(Heading::Evidence),
        ("err", None) => Ok(Heading::Err),
        _ => Err(Misfit::Heading),
    }
}

/// The text up to the first space, and what stands behind that space.
fn first_word(text: &str) -> (&str, Option<&str>) {
    match text.split_once(' ') {
        Some((word, rest)) => (word, Some(rest)),
        None => (text, None),
    }
}

/// A name that is there and not empty.
fn named(name: Option<&str>) -> Result<&str, Misfit> {
    match name {
        Some(name) if !name.is_empty() => Ok(name),
        _ => Err(Misfit::Name),
    }
}

/// A file: its name alone, or with where its content comes from.
fn read_file(rest: &str) -> Result<Heading<'_>, Misfit> {
    let (name, how) = first_word(rest);
    let name = named(Some(name))?;
    let source = match how {
        None => Source::Text { times: 1 },
        Some("from out") => Source::Out,
        Some(how) => read_times(how)?,
    };
    Ok(Heading::File { name, source })
}

/// How many times a text is to stand in a file, behind a sign for it.
fn read_times(how: &str) -> Result<Source, Misfit> {
    match first_word(how) {
        ("x", Some(count)) => match read_number(count) {
            Some(times) => Ok(Source::Text { times }),
            None => Err(Misfit::Number),
        },
        _ => Err(Misfit::Heading),
    }
}

fn read_status<'t>(number: Option<&str>) -> Result<Heading<'t>, Misfit> {
    match number.and_then(read_number).map(u8::try_from) {
        Some(Ok(status)) => Ok(Heading::Status(status)),
        _ => Err(Misfit::Number),
    }
}

/// A decimal number without leading zeros.
fn read_number(text: &str) -> Option<u64> {
    let digits = text.as_bytes();
    if !digits.iter().all(u8::is_ascii_digit) || digits.starts_with(b"0") && digits.len() > 1 {
        return None;
    }
    text.parse().ok()
}
