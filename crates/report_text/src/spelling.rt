//! How bytes and places are spelled.
ghost use Rattle.std.specs.Prelude.{◌≡◌, ◌++◌, ◌<◌, decimal, OnOk};
ghost use Rattle.std.specs.Char.{digit_char};
ghost use Rattle.report_text.specs.Spelling.{is_control, hex_pair, place_text};

use crate::lined::Lined;
use itoa::Buffer;
use std::alloc::AllocError;

/// Whether a byte is below 20 hex, or 7f.
pub(crate) fn is_control(byte: u8) -> bool
    ensures { result ≡ is_control byte }
{
    byte < 32 || byte == 127
}

/// The lower-case hexadecimal digit of a number below 16.
fn hex_digit(digit: u8) -> u8
    requires { digit < 16 }
    ensures { result ≡ digit_char digit }
{
    if digit < 10 {
        b'0' + digit
    } else {
        b'a' + (digit - 10)
    }
}

/// Appends the two lower-case hexadecimal digits of a byte.
pub(crate) fn push_hex(line: &mut Vec<u8>, byte: u8) -> Result<(), AllocError>
    ensures { OnOk result (line.new.items ≡ line.old.items ++ hex_pair byte) }
{
    line.push(hex_digit(byte / 16))?;
    line.push(hex_digit(byte % 16))?;
    Ok(())
}

/// Appends a number in decimal.
pub(crate) fn push_number(line: &mut Vec<u8>, number: u32) -> Result<(), AllocError>
    ensures { OnOk result (line.new.items ≡ line.old.items ++ decimal number) }
{
    let mut digits = Buffer::new();
    line.extend_from_slice(digits.format(number).as_bytes())
}

/// Appends the line and the column of a byte offset, those of the end where it is past the text.
pub(crate) fn push_place(line: &mut Vec<u8>, text: &Lined<'_>, at: u32) -> Result<(), AllocError>
    ensures { OnOk result (line.new.items ≡ line.old.items ++ place_text text.now.text.now at) }
{
    let (row, column) = text.place(at);
    push_number(line, row)?;
    line.push(b':')?;
    push_number(line, column)
}
