//! Files are loaded: each by its name, and no further than one byte past its limit.
ghost use Rattle.std.specs.Prelude.{◌≡◌, ◌≤◌, ◌<◌, ◌^◌, ℕ, List, MatchResult, length, string_bytes};
ghost use Rattle.doc_values.specs.Limits.{template_limit};
ghost use Rattle.guard_ends.specs.Order.{IsContent};
ghost use Rattle.guard_inputs.specs.code.Inputs.{IsLoaded};
ghost use Rattle.guard_inputs.specs.code.Loading.{IsNotLoaded, RefusesLength, RefusesText, limit_of};

use crate::inputs::DataText;
use crate::refused::{not_text, too_long};
use crate::stop::Stop;
use doc_values::{EVIDENCE_LIMIT, RULES_LIMIT, TEMPLATE_LIMIT};
use guard_ends::{Which, format_of};
use guard_io::{Files, LoadFault};
use std::alloc::Global;

/// How many bytes a file may have.
fn limit_of(which: Which) -> u64
    ensures limit { result ≡ limit_of which }
    ensures small { result < 2 ^ 32 }
{
    match which {
        Which::Rules => RULES_LIMIT as u64,
        Which::Template => TEMPLATE_LIMIT as u64,
        Which::Params => TEMPLATE_LIMIT as u64,
        Which::Proof => EVIDENCE_LIMIT as u64,
        Which::Tests => TEMPLATE_LIMIT as u64,
    }
}

/// The bytes of a file. It asks for one byte more than there may be, to see whether there are more.
pub fn load_bytes<F: Files>(
    alloc: Global,
    which: Which,
    name: &str,
    files: &mut F,
) -> Result<Vec<u8>, Stop>
    ensures loaded { MatchResult result
        (λ bytes. IsContent (F.content files.old name.now) bytes.items × (length bytes.items ≤ limit_of which))
        (IsNotLoaded which (F.content files.old) name.now (RefusesLength which) (F.faults files.old) (F.faults files.new)) }
    ensures contents { (other : List ℕ) → F.content files.new other ≡ F.content files.old other }
    ensures kept { (other : List ℕ) → F.faults files.old other ≤ F.faults files.new other }
{
    let limit = limit_of(which);
    let mut bytes = Vec::new(alloc);
    match files.load(name, limit + 1, &mut bytes) {
        Ok(()) => {}
        Err(LoadFault::Failed) => return Err(Stop::Unread(which)),
        Err(LoadFault::Memory) => return Err(Stop::Memory),
    }
    if bytes.len() as u64 > limit {
        return Err(Stop::Refused(too_long(which)));
    }
    Ok(bytes)
}

/// The text of a file.
pub fn load_text<F: Files>(
    alloc: Global,
    which: Which,
    name: &str,
    files: &mut F,
) -> Result<String, Stop>
    ensures loaded { MatchResult result
        (λ text. IsContent (F.content files.old name.now) (string_bytes text) × (length (string_bytes text) ≤ limit_of which))
        (IsNotLoaded which (F.content files.old) name.now (RefusesText which) (F.faults files.old) (F.faults files.new)) }
    ensures contents { (other : List ℕ) → F.content files.new other ≡ F.content files.old other }
    ensures kept { (other : List ℕ) → F.faults files.old other ≤ F.faults files.new other }
{
    let bytes = load_bytes(alloc, which, name, files)?;
    match String::from_utf8(bytes) {
        Ok(text) => Ok(text),
        Err(_) => Err(Stop::Refused(not_text(which))),
    }
}

/// The text of a template, of parameters or of tests, whose format its name says.
pub fn load_data<F: Files>(
    alloc: Global,
    which: Which,
    name: &str,
    files: &mut F,
) -> Result<DataText, Stop>
    requires { limit_of which ≡ template_limit }
    ensures loaded { MatchResult result (IsLoaded (F.content files.old) name.now)
        (IsNotLoaded which (F.content files.old) name.now (RefusesText which) (F.faults files.old) (F.faults files.new)) }
    ensures contents { (other : List ℕ) → F.content files.new other ≡ F.content files.old other }
    ensures kept { (other : List ℕ) → F.faults files.old other ≤ F.faults files.new other }
{
    let text = load_text(alloc, which, name, files)?;
    Ok(DataText {
        text,
        format: format_of(name),
    })
}
