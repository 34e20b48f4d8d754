//! The template.
ghost use Rattle.std.specs.Prelude.{◌≡◌, ◌++◌, string_bytes, IfOk, OnOk};
ghost use Rattle.guard_drill.specs.DrillTexts.{resource, separator, template_text, type_letter};

use std::alloc::{AllocError, Global};

/// The text of a template in JSON with so many resources, named `R0`, `R1` and so on: those with an even number have the
/// type `T::A` and the others `T::B`, and each has its number modulo 7 as the property `N`.
pub fn drill_template(alloc: Global, count: u32) -> Result<String, AllocError>
    ensures { IfOk result (λ text. string_bytes text ≡ template_text count) }
{
    let mut text = String::from_str(alloc, "{\"Resources\":{")?;
    for number in 0..count {
        push_separator(&mut text, number)?;
        push_resource(&mut text, number)?;
    }
    text.push_str("}}")?;
    Ok(text)
}

/// Appends the comma before the resource of a number, where it is not the first.
fn push_separator(text: &mut String, number: u32) -> Result<(), AllocError>
    ensures { OnOk result (string_bytes text.new ≡ string_bytes text.old ++ separator number) }
{
    match number {
        0 => Ok(()),
        _ => text.push_str(","),
    }
}

/// Appends the resource of a number.
fn push_resource(text: &mut String, number: u32) -> Result<(), AllocError>
    ensures { OnOk result (string_bytes text.new ≡ string_bytes text.old ++ resource number) }
{
    let letter = type_letter(number);
    let remainder = number % 7;
    write!(
        text,
        "\"R{number}\":{{\"Type\":\"T::{letter}\",\"Properties\":{{\"N\":{remainder}}}}}"
    )
}

/// The type of the resource of a number.
fn type_letter(number: u32) -> &'static str
    ensures { result.now ≡ type_letter number }
{
    if number % 2 == 0 { "A" } else { "B" }
}
