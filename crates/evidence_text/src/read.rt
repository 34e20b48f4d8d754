//! Evidence, read from its bytes.
ghost use Rattle.std.specs.Prelude.{◌≡◌, ◌≢◌, ◌⊎◌, ◌++◌, ◌∷◌, [], ℕ, List, None, Some, IfErr, IfOk, OnErr, MatchBool, MatchOption, MatchResult, option_map};
ghost use Rattle.evidence_lines.specs.Headers.{header};
ghost use Rattle.evidence_lines.specs.declared.line.Line.{Line};
ghost use Rattle.evidence_lines.specs.declared.version.Version.{Version};
ghost use Rattle.evidence_text.specs.code.Memory.{HasLine};
ghost use Rattle.evidence_text.specs.code.Reading.{cites_in, count_in, cut, if_placed, if_read, items_in, line_in, line_of_parts, list_in, outcome_in, parts_in, place_in, placed_in, row_in};
ghost use Rattle.evidence_text.specs.code.Seen.{fields_seen, placed_seen};
ghost use Rattle.evidence_text.specs.Text.{IsEvidence, IsFault, IsRefused};

use crate::field::{
    cut, cut_line, is_none_sign, read_count, read_place, read_ref, read_row, read_verdict,
};
use crate::kind::kind_named;
use crate::refusal::EvidenceRefusal;
use byte_lanes::count_byte;
use evidence_lines::{Cites, Evidence, Line, LineKind, Outcome, Rows, Sort, Version};
use guard_syntax::Row;
use std::alloc::{AllocError, Global};

/// The bytes of the fields of a line.
#[derive(Clone, Copy)]
struct Fields<'a> {
    kind: &'a [u8],
    frame: &'a [u8],
    site: &'a [u8],
    cites: &'a [u8],
    outcome: &'a [u8],
}

/// The fields that stand first.
#[derive(Clone, Copy)]
struct Placed {
    kind: LineKind,
    frame: Option<u64>,
    site: Option<u32>,
}

/// The bytes between the first four spaces and around them.
fn fields_of(bytes: &[u8]) -> Option<Fields<'_>>
    ensures { option_map fields_seen result ≡ parts_in bytes.entry.now }
{
    let Some((kind, rest)) = cut(bytes, b' ') else {
        return None;
    };
    let Some((frame, rest)) = cut(rest, b' ') else {
        return None;
    };
    let Some((site, rest)) = cut(rest, b' ') else {
        return None;
    };
    let Some((cites, outcome)) = cut(rest, b' ') else {
        return None;
    };
    Some(Fields {
        kind,
        frame,
        site,
        cites,
        outcome,
    })
}

/// The frame of a line, where its kind has one.
fn read_frame(placed: bool, bytes: &[u8]) -> Option<Option<u64>>
    ensures { result ≡ if_placed placed count_in bytes.now }
{
    if placed {
        return Some(Some(read_count(bytes)?));
    }
    if is_none_sign(bytes) {
        Some(None)
    } else {
        None
    }
}

/// The site of a line, where its kind has one.
fn read_site(placed: bool, bytes: &[u8]) -> Option<Option<u32>>
    ensures { result ≡ if_placed placed place_in bytes.now }
{
    if placed {
        return Some(Some(read_place(bytes)?));
    }
    if is_none_sign(bytes) {
        Some(None)
    } else {
        None
    }
}

fn read_placed(fields: &Fields<'_>) -> Option<Placed>
    ensures { option_map placed_seen result ≡ placed_in (fields_seen fields.now) }
{
    let Some(kind) = kind_named(fields.kind) else {
        return None;
    };
    let Some(frame) = read_frame(kind.is_placed(), fields.frame) else {
        return None;
    };
    let Some(site) = read_site(kind.is_placed(), fields.site) else {
        return None;
    };
    Some(Placed { kind, frame, site })
}

/// Room for what a line cites and for the rows that it says, which is used for each line again.
#[derive(Drop)]
struct Room {
    cites: Vec<u64>,
    rows: Vec<Row>,
}

/// Numbers with commas between them, in room for them.
fn read_counts(into: &mut Vec<u64>, bytes: &[u8]) -> Result<bool, AllocError>
    requires { into.old.items ≡ [] }
    ensures { IfOk result (λ read. if_read read into.new.items ≡ items_in count_in bytes.now) }
{
    let mut rest = bytes;
    'items: while let Some((item, after)) = cut(rest, b',') {
        let Some(count) = read_count(item) else {
            return Ok(false);
        };
        into.push(count)?;
        rest = after;
    }
    let Some(count) = read_count(rest) else {
        return Ok(false);
    };
    into.push(count)?;
    Ok(true)
}

/// Rows with commas between them, in room for them.
fn read_rows(into: &mut Vec<Row>, bytes: &[u8]) -> Result<bool, AllocError>
    requires { into.old.items ≡ [] }
    ensures { IfOk result (λ read. if_read read into.new.items ≡ items_in row_in bytes.now) }
{
    let mut rest = bytes;
    'items: while let Some((item, after)) = cut(rest, b',') {
        let Some(row) = read_row(item) else {
            return Ok(false);
        };
        into.push(row)?;
        rest = after;
    }
    let Some(row) = read_row(rest) else {
        return Ok(false);
    };
    into.push(row)?;
    Ok(true)
}

/// The numbers that a line cites, where its kind may cite some.
fn read_cites(into: &mut Vec<u64>, may_cite: bool, bytes: &[u8]) -> Result<bool, AllocError>
    ensures { IfOk result (λ read. if_read read into.new.items ≡ cites_in may_cite bytes.now) }
{
    into.clear();
    if is_none_sign(bytes) {
        return Ok(true);
    }
    if !may_cite {
        return Ok(false);
    }
    read_counts(into, bytes)
}

/// The rows that a line says.
fn read_list(into: &mut Vec<Row>, bytes: &[u8]) -> Result<bool, AllocError>
    ensures { IfOk result (λ read. if_read read into.new.items ≡ list_in row_in bytes.now) }
{
    into.clear();
    if is_none_sign(bytes) {
        return Ok(true);
    }
    read_rows(into, bytes)
}

/// What a line of this sort says, with room for its rows.
fn read_outcome<'a>(
    into: &'a mut Vec<Row>,
    sort: Sort,
    bytes: &[u8],
) -> Result<Option<Outcome<'a>>, AllocError>
    ensures { IfOk result (λ o. o ≡ outcome_in sort bytes.now) }
{
    match sort {
        Sort::Value => Ok(read_ref(bytes).map(|value| Outcome::Value(value))),
        Sort::Rows => {
            if read_list(into, bytes)? {
                Ok(Some(Outcome::Rows(Rows::new(into))))
            } else {
                Ok(None)
            }
        }
        Sort::Verdict => Ok(read_verdict(bytes).map(|verdict| Outcome::Verdict(verdict))),
    }
}

/// Adds a line, from its bytes without the newline, if they are one.
fn add_line(evidence: &mut Evidence, room: &mut Room, bytes: &[u8]) -> Result<bool, AllocError>
    ensures added { IfOk result (λ added. MatchBool added
        ((l : Line) × (line_in bytes.now ≡ Some l) × (evidence.new.lines ≡ evidence.old.lines ++ l ∷ []))
        (line_in bytes.now ≡ None)) }
    ensures version { evidence.new.version ≡ evidence.old.version }
{
    match fields_of(bytes) {
        None => Ok(false),
        Some(fields) => add_fields(evidence, room, &fields),
    }
}

fn add_fields(
    evidence: &mut Evidence,
    room: &mut Room,
    fields: &Fields<'_>,
) -> Result<bool, AllocError>
    ensures added { IfOk result (λ added. MatchBool added
        ((l : Line) × (line_of_parts (fields_seen fields.now) ≡ Some l) × (evidence.new.lines ≡ evidence.old.lines ++ l ∷ []))
        (line_of_parts (fields_seen fields.now) ≡ None)) }
    ensures version { evidence.new.version ≡ evidence.old.version }
{
    let Some(placed) = read_placed(fields) else {
        return Ok(false);
    };
    if !read_cites(&mut room.cites, placed.kind.may_cite(), fields.cites)? {
        return Ok(false);
    }
    let Some(outcome) = read_outcome(&mut room.rows, placed.kind.sort(), fields.outcome)? else {
        return Ok(false);
    };
    evidence.push(Line {
        kind: placed.kind,
        frame: placed.frame,
        site: placed.site,
        cites: Cites::new(&room.cites),
        outcome,
    })?;
    Ok(true)
}

/// The bytes behind the header of a version, if they begin with it.
fn behind_header(version: Version, bytes: &[u8]) -> Option<&[u8]>
    ensures { MatchOption result
        ((rest : List ℕ) → header version ++ rest ≡ bytes.entry.now → ⊥)
        (λ rest. header version ++ rest.now ≡ bytes.entry.now) }
{
    bytes.strip_prefix(version.header().as_bytes())
}

/// No lines, and room for as many as the bytes can hold. The shortest has 11 bytes with its newline, so that a text of
/// newlines alone takes no more room than one of lines.
fn room_for_lines(alloc: Global, version: Version, bytes: &[u8]) -> Result<Evidence, AllocError>
    ensures version { IfOk result (λ e. e.version ≡ version) }
    ensures empty { IfOk result (λ e. e.lines ≡ []) }
    ensures memory { OnErr result (cut 10 bytes.now ≢ None) }
{
    let lines = count_byte(bytes, b'\n').min(bytes.len() / 11);
    Evidence::with_room(alloc, version, lines)
}

/// The lines of bytes that stand behind the header of a version.
fn read_lines(alloc: Global, version: Version, bytes: &[u8]) -> Result<Evidence, EvidenceRefusal>
    ensures lines { IfOk result (λ e. IsEvidence (header version ++ bytes.now) e.version e.lines) }
    ensures refusal { IfErr result (λ r. IsRefused (header version ++ bytes.now) r) }
    ensures memory { IfErr result (λ r. r ≡ EvidenceRefusal.NoMemory → HasLine (header version ++ bytes.now)) }
{
    let mut evidence = room_for_lines(alloc, version, bytes)?;
    let mut room = Room {
        cites: Vec::new(alloc),
        rows: Vec::new(alloc),
    };
    let mut number: u64 = 0;
    let mut rest = bytes;
    'lines: while !rest.is_empty() {
        number += 1;
        let Some((line, after)) = cut_line(rest) else {
            return Err(EvidenceRefusal::Syntax(number));
        };
        let added = add_line(&mut evidence, &mut room, line)?;
        if !added {
            return Err(EvidenceRefusal::Syntax(number));
        }
        rest = after;
    }
    Ok(evidence)
}

fn read_text(alloc: Global, bytes: &[u8]) -> Result<Evidence, EvidenceRefusal>
    ensures lines { IfOk result (λ e. IsEvidence bytes.now e.version e.lines) }
    ensures refusal { IfErr result (λ r. IsRefused bytes.now r) }
    ensures memory { IfErr result (λ r. r ≡ EvidenceRefusal.NoMemory → HasLine bytes.now) }
{
    match behind_header(Version::One, bytes) {
        Some(rest) => read_lines(alloc, Version::One, rest),
        None => match behind_header(Version::Two, bytes) {
            Some(rest) => read_lines(alloc, Version::Two, rest),
            None => Err(EvidenceRefusal::Syntax(0)),
        },
    }
}

/// The version and the lines of evidence. `Syntax` has the number of the first line that is not in the format, where the
/// header is 0 and a last line without its newline is not in the format. The bytes are gone over a few times, each line by
/// itself. Lines with their newlines take memory, and nothing else does.
pub fn read_evidence(alloc: Global, bytes: &[u8]) -> Result<Evidence, EvidenceRefusal>
    ensures lines { IfOk result (λ e. IsEvidence bytes.now e.version e.lines) }
    ensures refusal { IfErr result (λ r. IsRefused bytes.now r) }
    ensures memory { IfErr result (λ r. r ≡ EvidenceRefusal.NoMemory → HasLine bytes.now) }
    ensures only_lines { (v : Version) (ls : List Line) → IsEvidence bytes.now v ls
        → MatchResult result (λ e. (e.version ≡ v) × (e.lines ≡ ls)) (λ r. r ≡ EvidenceRefusal.NoMemory) }
    ensures only_refusal { (n : ℕ) → IsFault bytes.now n
        → MatchResult result (λ _. ⊥) (λ r. (r ≡ EvidenceRefusal.NoMemory) ⊎ (r ≡ EvidenceRefusal.Syntax n)) }
{
    read_text(alloc, bytes)
}
