//! The text of one rule.
ghost use Rattle.std.specs.Prelude.{◌≡◌, ◌++◌, OnOk, codes, decimal, string_bytes};
ghost use Rattle.std.specs.List.{join_by};
ghost use Rattle.rule_generator.specs.GeneratedRules.{key_line, let_line, rule_line, rule_text, value_text};
ghost use Rattle.rule_generator.specs.code.Seen.{values_seen};
ghost use Rattle.rule_generator.specs.code.SeenKeys.{key_seen, keys_seen};
ghost use Rattle.rule_spelling.specs.Spelling.{quoted};

use crate::kept::Kept;
use doc_values::Cursor;
use itoa::Buffer;
use rule_spelling::{push_quoted, push_scalar};
use std::alloc::AllocError;

/// Appends the rule of a number, for a type and the keys that are kept for its elements.
pub(crate) fn push_rule(
    out: &mut String,
    number: u64,
    name: &str,
    keys: &[Kept<'_, '_>],
) -> Result<(), AllocError>
    ensures { OnOk result (string_bytes out.new ≡ string_bytes out.old ++ rule_text number (record { type = name.now; keys = keys_seen keys.now })) }
{
    push_let(out, number, name)?;
    push_head(out, number)?;
    for key in keys {
        push_key(out, number, key)?;
    }
    out.push_str("}\n")
}

/// Appends the line of the variable.
fn push_let(out: &mut String, number: u64, name: &str) -> Result<(), AllocError>
    ensures { OnOk result (string_bytes out.new ≡ string_bytes out.old ++ let_line number name.now) }
{
    out.push_str("let t")?;
    push_count(out, number)?;
    out.push_str(" = Resources.*[ Type == ")?;
    push_quoted(out, name)?;
    out.push_str(" ]\n")
}

/// Appends the line that begins the rule.
fn push_head(out: &mut String, number: u64) -> Result<(), AllocError>
    ensures { OnOk result (string_bytes out.new ≡ string_bytes out.old ++ rule_line number) }
{
    out.push_str("rule t")?;
    push_count(out, number)?;
    out.push_str(" when %t")?;
    push_count(out, number)?;
    out.push_str(" !empty {\n")
}

/// Appends the line of a key that is kept for the elements of a type.
fn push_key(out: &mut String, number: u64, kept: &Kept<'_, '_>) -> Result<(), AllocError>
    ensures { OnOk result (string_bytes out.new ≡ string_bytes out.old ++ key_line number (key_seen kept.now)) }
{
    push_key_head(out, number, kept.key)?;
    push_values(out, &kept.values)?;
    out.push_str("]\n")
}

/// Appends what stands in front of the values of a key.
fn push_key_head(out: &mut String, number: u64, key: &str) -> Result<(), AllocError>
    ensures { OnOk result (string_bytes out.new ≡ string_bytes out.old ++ (codes "  %t" ++ decimal number ++ codes ".Properties." ++ quoted key.now ++ codes " IN [")) }
{
    out.push_str("  %t")?;
    push_count(out, number)?;
    out.push_str(".Properties.")?;
    push_quoted(out, key)?;
    out.push_str(" IN [")
}

/// Appends values, with a comma and a space between each two.
fn push_values(out: &mut String, values: &[Cursor<'_, '_>]) -> Result<(), AllocError>
    ensures { OnOk result (string_bytes out.new ≡ string_bytes out.old ++ join_by value_text (codes ", ") (values_seen values.now)) }
{
    let Some((first, rest)) = values.split_first() else {
        return Ok(());
    };
    push_scalar(out, *first)?;
    for value in rest {
        out.push_str(", ")?;
        push_scalar(out, *value)?;
    }
    Ok(())
}

/// Appends a number in decimal.
fn push_count(out: &mut String, number: u64) -> Result<(), AllocError>
    ensures { OnOk result (string_bytes out.new ≡ string_bytes out.old ++ decimal number) }
{
    let mut buffer = Buffer::new();
    out.push_str(buffer.format(number))
}
