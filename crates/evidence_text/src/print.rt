//! Evidence, printed.
ghost use Rattle.std.specs.Prelude.{◌≡◌, ◌++◌, ◌∷◌, [], All, IfOk, IfSome, OnErr, OnOk, decimal, drop};
ghost use Rattle.std.specs.List.{flat_map};
ghost use Rattle.evidence_lines.specs.Shapes.{HasShape, IsBounded, IsCount, IsOriginBounded, IsOutcomeBounded, IsPlace, IsRefBounded, IsRowBounded};
ghost use Rattle.evidence_text.specs.Spelling.{fields_text, further_text, key_text, line_text, list_text, missing_text, optional_text, origin_text, outcome_text, part_text, ref_text, row_text, verdict_text};

use crate::kind::kind_name;
use evidence_lines::{Line, Outcome, Rows};
use guard_syntax::{Origin, Ref, Row, Verdict};
use itoa::Buffer;
use std::alloc::{AllocError, Global};

/// Appends the text of a line, with its newline. On a refusal nothing is appended. That the numbers are below their bounds
/// is known of every line that the code has, and said here for who reads the text again.
pub fn print_line(alloc: Global, line: &Line<'_>, into: &mut Vec<u8>) -> Result<(), AllocError>
    requires { HasShape line.now }
    ensures printed { OnOk result (into.new.items ≡ into.old.items ++ line_text line.now) }
    ensures bounded { OnOk result (IsBounded line.now) }
    ensures kept { OnErr result (into.new.items ≡ into.old.items) }
{
    let text = text_of(alloc, line)?;
    into.extend_from_slice(&text)
}

/// The text of a line, with its newline.
fn text_of(alloc: Global, line: &Line<'_>) -> Result<Vec<u8>, AllocError>
    ensures printed { IfOk result (λ text. text.items ≡ line_text line.now) }
    ensures bounded { OnOk result (IsBounded line.now) }
{
    let mut text = Vec::new(alloc);
    push_fields(&mut text, line)?;
    text.push(b'\n')?;
    Ok(text)
}

fn push_fields(text: &mut Vec<u8>, line: &Line<'_>) -> Result<(), AllocError>
    ensures printed { OnOk result (text.new.items ≡ text.old.items ++ fields_text line.now) }
    ensures bounded { OnOk result (IsBounded line.now) }
{
    text.extend_from_slice(kind_name(line.kind).as_bytes())?;
    text.push(b' ')?;
    push_frame(text, line.frame)?;
    text.push(b' ')?;
    push_site(text, line.site)?;
    text.push(b' ')?;
    push_cites(text, line.cites.as_slice())?;
    text.push(b' ')?;
    push_outcome(text, &line.outcome)
}

/// Appends the number of a frame, or `-` for none.
fn push_frame(text: &mut Vec<u8>, frame: Option<u64>) -> Result<(), AllocError>
    ensures printed { OnOk result (text.new.items ≡ text.old.items ++ optional_text frame) }
    ensures bounded { OnOk result (IfSome frame IsCount) }
{
    match frame {
        None => {
            text.push(b'-')?;
            Ok(())
        }
        Some(frame) => push_number(text, frame),
    }
}

/// Appends a site, or `-` for none.
fn push_site(text: &mut Vec<u8>, site: Option<u32>) -> Result<(), AllocError>
    ensures printed { OnOk result (text.new.items ≡ text.old.items ++ optional_text site) }
    ensures bounded { OnOk result (IfSome site IsPlace) }
{
    match site {
        None => {
            text.push(b'-')?;
            Ok(())
        }
        Some(site) => push_place(text, site),
    }
}

/// Appends a number.
fn push_number(text: &mut Vec<u8>, number: u64) -> Result<(), AllocError>
    ensures printed { OnOk result (text.new.items ≡ text.old.items ++ decimal number) }
    ensures bounded { IsCount number }
{
    let mut digits = Buffer::new();
    text.extend_from_slice(digits.format(number).as_bytes())
}

/// Appends a site or a node.
fn push_place(text: &mut Vec<u8>, place: u32) -> Result<(), AllocError>
    ensures printed { OnOk result (text.new.items ≡ text.old.items ++ decimal place) }
    ensures bounded { IsPlace place }
{
    let mut digits = Buffer::new();
    text.extend_from_slice(digits.format(place).as_bytes())
}

/// Appends the numbers of cited lines, with commas between them, or `-` for none.
fn push_cites(text: &mut Vec<u8>, cites: &[u64]) -> Result<(), AllocError>
    ensures printed { OnOk result (text.new.items ≡ text.old.items ++ list_text decimal cites.now) }
    ensures bounded { OnOk result (All IsCount cites.now) }
{
    match cites {
        [] => {
            text.push(b'-')?;
            Ok(())
        }
        [first, others @ ..] => {
            push_number(text, *first)?;
            push_further_cites(text, others)
        }
    }
}

/// Appends a comma and a number, for each.
fn push_further_cites(text: &mut Vec<u8>, cites: &[u64]) -> Result<(), AllocError>
    ensures printed { OnOk result (text.new.items ≡ text.old.items ++ flat_map (further_text decimal) cites.now) }
    ensures bounded { OnOk result (All IsCount cites.now) }
{
    for cite in cites {
        text.push(b',')?;
        push_number(text, *cite)?;
    }
    Ok(())
}

/// Appends what a line says.
fn push_outcome(text: &mut Vec<u8>, outcome: &Outcome<'_>) -> Result<(), AllocError>
    ensures printed { OnOk result (text.new.items ≡ text.old.items ++ outcome_text outcome.now) }
    ensures bounded { OnOk result (IsOutcomeBounded outcome.now) }
{
    match outcome {
        Outcome::Value(value) => push_ref(text, *value),
        Outcome::Rows(rows) => push_rows(text, rows),
        Outcome::Verdict(verdict) => {
            text.push(verdict_sign(*verdict))?;
            Ok(())
        }
    }
}

fn verdict_sign(verdict: Verdict) -> u8
    ensures { result ∷ [] ≡ verdict_text verdict }
{
    match verdict {
        Verdict::Pass => b'P',
        Verdict::Fail => b'F',
        Verdict::Skip => b'S',
    }
}

/// Appends rows, with commas between them, or `-` for none.
fn push_rows(text: &mut Vec<u8>, rows: &Rows<'_>) -> Result<(), AllocError>
    ensures printed { OnOk result (text.new.items ≡ text.old.items ++ list_text row_text rows.now) }
    ensures bounded { OnOk result (All IsRowBounded rows.now) }
{
    let Some(first) = rows.get(0) else {
        text.push(b'-')?;
        return Ok(());
    };
    push_row(text, first)?;
    push_further_rows(text, rows)
}

/// Appends a comma and a row, for each row behind the first.
fn push_further_rows(text: &mut Vec<u8>, rows: &Rows<'_>) -> Result<(), AllocError>
    ensures printed { OnOk result (text.new.items ≡ text.old.items ++ flat_map (further_text row_text) (drop 1 rows.now)) }
    ensures bounded { OnOk result (All IsRowBounded (drop 1 rows.now)) }
{
    for index in 1..rows.len() {
        let Some(row) = rows.get(index) else {
            unreachable!()
        };
        text.push(b',')?;
        push_row(text, row)?;
    }
    Ok(())
}

/// Appends a row.
fn push_row(text: &mut Vec<u8>, row: Row) -> Result<(), AllocError>
    ensures printed { OnOk result (text.new.items ≡ text.old.items ++ row_text row) }
    ensures bounded { OnOk result (IsRowBounded row) }
{
    match row {
        Row::Found(value) => push_ref(text, value),
        Row::Missing { value, step } => push_missing(text, value, step),
        Row::Unmade { call } => push_signed_place(text, b'u', call),
    }
}

/// Appends a step and the value at which it found nothing.
fn push_missing(text: &mut Vec<u8>, value: Ref, step: u32) -> Result<(), AllocError>
    ensures printed { OnOk result (text.new.items ≡ text.old.items ++ missing_text value step) }
    ensures bounded { OnOk result (IsRefBounded value × IsPlace step) }
{
    push_signed_place(text, b'm', step)?;
    text.push(b':')?;
    push_ref(text, value)
}

/// Appends a sign and a site.
fn push_signed_place(text: &mut Vec<u8>, sign: u8, place: u32) -> Result<(), AllocError>
    ensures printed { OnOk result (text.new.items ≡ text.old.items ++ sign ∷ decimal place) }
    ensures bounded { OnOk result (IsPlace place) }
{
    text.push(sign)?;
    push_place(text, place)
}

/// Appends a value.
fn push_ref(text: &mut Vec<u8>, value: Ref) -> Result<(), AllocError>
    ensures printed { OnOk result (text.new.items ≡ text.old.items ++ ref_text value) }
    ensures bounded { OnOk result (IsRefBounded value) }
{
    push_origin(text, value.origin)?;
    push_place(text, value.node)?;
    push_key(text, value.key)
}

/// Appends the sign of a key, where one is meant.
fn push_key(text: &mut Vec<u8>, key: bool) -> Result<(), AllocError>
    ensures { OnOk result (text.new.items ≡ text.old.items ++ key_text key) }
{
    if !key {
        return Ok(());
    }
    text.push(b'k')?;
    Ok(())
}

/// Appends what stands before the node of a value.
fn push_origin(text: &mut Vec<u8>, origin: Origin) -> Result<(), AllocError>
    ensures printed { OnOk result (text.new.items ≡ text.old.items ++ origin_text origin) }
    ensures bounded { OnOk result (IsOriginBounded origin) }
{
    match origin {
        Origin::Template => {
            text.push(b'd')?;
            Ok(())
        }
        Origin::Literal(site) => {
            push_signed_place(text, b'l', site)?;
            text.push(b'.')?;
            Ok(())
        }
        Origin::Made { line, row } => {
            text.push(b'c')?;
            push_part(text, line)?;
            push_part(text, row)
        }
    }
}

/// Appends a number and the point behind it.
fn push_part(text: &mut Vec<u8>, number: u64) -> Result<(), AllocError>
    ensures printed { OnOk result (text.new.items ≡ text.old.items ++ part_text number) }
    ensures bounded { OnOk result (IsCount number) }
{
    push_number(text, number)?;
    text.push(b'.')?;
    Ok(())
}
