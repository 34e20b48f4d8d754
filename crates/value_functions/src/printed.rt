//! Numbers and truth values as they are printed.
ghost use Rattle.std.specs.Prelude.{◌≡◌, ◌++◌, ◌-◌, ◌<◌, ◌≤◌, ℕ, IfOk, IsAscii, OnOk, length, replicate, string_bytes};
ghost use Rattle.std.specs.Fmt.{signed_decimal};
ghost use Rattle.std.specs.Int.{is_negative};
ghost use Rattle.decimals.specs.Number.{minus_text};
ghost use Rattle.rule_meaning.specs.Functions.{decimal_text, filled, scaled_text, truth_text, with_point};

use doc_values::Decimal;
use itoa::Buffer;
use std::alloc::{AllocError, Global};

pub(crate) fn truth_text(truth: bool) -> &'static str
    ensures { result.now ≡ truth_text truth }
{
    if truth { "true" } else { "false" }
}

/// A decimal: its sign, its digits, and a point before those that stand behind it.
pub(crate) fn decimal_text(alloc: Global, decimal: Decimal) -> Result<String, AllocError>
    ensures { IfOk result (λ text. string_bytes text ≡ decimal_text decimal) }
{
    let units = decimal.units();
    let mut buffer = Buffer::new();
    let digits = buffer.format(units.unsigned_abs());
    let mut text = String::from_str(alloc, minus_text(units))?;
    push_scaled(alloc, &mut text, decimal.scale() as usize, digits)?;
    Ok(text)
}

fn minus_text(units: i64) -> &'static str
    ensures { result.now ≡ minus_text (is_negative units) }
{
    if units < 0 { "-" } else { "" }
}

/// Adds digits with a point before so many at their end, with zeros in front so that one digit stands before the point.
fn push_scaled(
    alloc: Global,
    text: &mut String,
    scale: usize,
    digits: &str,
) -> Result<(), AllocError>
    requires ascii { IsAscii digits.now }
    requires small { scale < 256 }
    ensures { OnOk result (string_bytes text.new ≡ string_bytes text.old ++ scaled_text scale digits.now) }
{
    if scale == 0 {
        return text.push_str(digits);
    }
    let filled = filled(alloc, scale + 1, digits)?;
    push_with_point(text, scale, &filled)
}

/// Digits with zeros in front, so that there are at least so many.
fn filled(alloc: Global, least: usize, digits: &str) -> Result<String, AllocError>
    ensures { IfOk result (λ text. string_bytes text ≡ filled least digits.now) }
{
    let mut text = "0".repeat(alloc, least.saturating_sub(digits.len()))?;
    text.push_str(digits)?;
    Ok(text)
}

/// Adds digits with a point before so many at their end.
fn push_with_point(text: &mut String, scale: usize, digits: &str) -> Result<(), AllocError>
    requires ascii { IsAscii digits.now }
    requires enough { scale ≤ length digits.now }
    ensures { OnOk result (string_bytes text.new ≡ string_bytes text.old ++ with_point scale digits.now) }
{
    let (whole, fraction) = digits.split_at(digits.len() - scale);
    text.push_str(whole)?;
    text.push('.')?;
    text.push_str(fraction)
}

pub(crate) fn whole_text(alloc: Global, n: i64) -> Result<String, AllocError>
    ensures { IfOk result (λ text. string_bytes text ≡ signed_decimal n) }
{
    let mut buffer = Buffer::new();
    String::from_str(alloc, buffer.format(n))
}
