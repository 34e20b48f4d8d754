//! Values that hold none.
ghost use Rattle.std.specs.Prelude.{◌≡◌, ◌++◌, OnOk, string_bytes};
ghost use Rattle.doc_values.specs.Places.{label_at};
ghost use Rattle.rule_meaning.specs.Functions.{truth_text};
ghost use Rattle.rule_spelling.specs.Spelling.{scalar_text};

use crate::number::push_number;
use crate::quote::{push_pattern, push_quoted};
use doc_values::{Cursor, Kind, Num};
use std::alloc::AllocError;

/// Appends a text, a pattern, a number, a truth value or null.
pub fn push_scalar(out: &mut String, node: Cursor<'_, '_>) -> Result<(), AllocError>
    ensures { OnOk result (string_bytes out.new ≡ string_bytes out.old ++ scalar_text (label_at node.entry.doc.now node.entry.id)) }
{
    match node.kind() {
        Kind::Text => push_quoted(out, node.text()),
        Kind::Pattern => push_pattern(out, node.text()),
        Kind::Whole(n) => push_number(out, Num::Whole(n)),
        Kind::Fraction(decimal) => push_number(out, Num::Fraction(decimal)),
        Kind::Truth(truth) => out.push_str(truth_text(truth)),
        _ => out.push_str("null"),
    }
}

fn truth_text(truth: bool) -> &'static str
    ensures { result.now ≡ truth_text truth }
{
    if truth { "true" } else { "false" }
}
