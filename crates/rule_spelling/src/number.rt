//! Numbers.
ghost use Rattle.std.specs.Prelude.{◌≡◌, ◌++◌, ◌<◌, ◌≤◌, IsAscii, OnOk, length, replicate, string_bytes};
ghost use Rattle.std.specs.Fmt.{signed_decimal};
ghost use Rattle.std.specs.Int.{is_negative};
ghost use Rattle.decimals.specs.Number.{minus_text};
ghost use Rattle.rule_meaning.specs.Functions.{decimal_text, scaled_text};
ghost use Rattle.rule_spelling.specs.Spelling.{number_text, point_zero};

use doc_values::{Decimal, Num};
use itoa::Buffer;
use std::alloc::AllocError;

/// Appends a number: a whole number in decimal; a decimal with a point, so that it is read as one.
pub fn push_number(out: &mut String, number: Num) -> Result<(), AllocError>
    ensures { OnOk result (string_bytes out.new ≡ string_bytes out.old ++ number_text number) }
{
    match number {
        Num::Whole(n) => push_whole(out, n),
        Num::Fraction(decimal) => {
            push_decimal(out, decimal)?;
            out.push_str(point_zero(decimal.scale()))
        }
    }
}

/// Appends a decimal as it is printed: its sign, its digits, and a point before those that stand behind it.
pub fn push_decimal(out: &mut String, decimal: Decimal) -> Result<(), AllocError>
    ensures { OnOk result (string_bytes out.new ≡ string_bytes out.old ++ decimal_text decimal) }
{
    let units = decimal.units();
    let mut buffer = Buffer::new();
    let digits = buffer.format(units.unsigned_abs());
    out.push_str(minus_text(units))?;
    push_scaled(out, decimal.scale() as usize, digits)
}

fn push_whole(out: &mut String, n: i64) -> Result<(), AllocError>
    ensures { OnOk result (string_bytes out.new ≡ string_bytes out.old ++ signed_decimal n) }
{
    let mut buffer = Buffer::new();
    out.push_str(buffer.format(n))
}

fn minus_text(units: i64) -> &'static str
    ensures { result.now ≡ minus_text (is_negative units) }
{
    if units < 0 { "-" } else { "" }
}

/// What stands behind a decimal without digits behind a point.
fn point_zero(scale: u8) -> &'static str
    ensures { result.now ≡ point_zero scale }
{
    if scale == 0 { ".0" } else { "" }
}

/// Appends digits with a point before so many at their end, with zeros in front so that one digit stands before the point.
fn push_scaled(out: &mut String, scale: usize, digits: &str) -> Result<(), AllocError>
    requires ascii { IsAscii digits.now }
    requires small { scale < 256 }
    ensures { OnOk result (string_bytes out.new ≡ string_bytes out.old ++ scaled_text scale digits.now) }
{
    if scale == 0 {
        return out.push_str(digits);
    }
    if digits.len() <= scale {
        out.push_str("0.")?;
        push_zeros(out, scale - digits.len())?;
        return out.push_str(digits);
    }
    let (whole, fraction) = digits.split_at(digits.len() - scale);
    out.push_str(whole)?;
    out.push('.')?;
    out.push_str(fraction)
}

fn push_zeros(out: &mut String, count: usize) -> Result<(), AllocError>
    ensures { OnOk result (string_bytes out.new ≡ string_bytes out.old ++ replicate count 48) }
{
    for _ in 0..count {
        out.push('0')?;
    }
    Ok(())
}
