//! Classes of bytes.
ghost use Rattle.std.specs.Prelude.{◌≡◌};
ghost use Rattle.decimals.specs.Number.{is_digit};
ghost use Rattle.decimals.specs.code.Reading.{is_mark};
ghost use Rattle.guard_lexer.specs.Bytes.{is_letter, is_word, is_white};
ghost use Rattle.guard_lexer.specs.code.Reach.{is_blank, is_quote, begins_numeral, is_plus_minus};

/// An ASCII letter or `_`.
pub fn is_letter(byte: u8) -> bool
    ensures { result ≡ is_letter byte }
{
    b'a' <= byte && byte <= b'z' || b'A' <= byte && byte <= b'Z' || byte == b'_'
}

pub fn is_digit(byte: u8) -> bool
    ensures { result ≡ is_digit byte }
{
    b'0' <= byte && byte <= b'9'
}

/// A letter, a digit or `_`.
pub fn is_word(byte: u8) -> bool
    ensures { result ≡ is_word byte }
{
    is_letter(byte) || is_digit(byte)
}

/// White space, or the `#` of a comment.
pub fn is_blank(byte: u8) -> bool
    ensures { result ≡ is_blank byte }
{
    byte == b' ' || byte == b'\t' || byte == b'\n' || byte == b'\r' || byte == b'#'
}

/// What encloses a text or a pattern.
pub fn is_quote(byte: u8) -> bool
    ensures { result ≡ is_quote byte }
{
    byte == b'"' || byte == b'\'' || byte == b'/'
}

pub fn begins_numeral(byte: u8) -> bool
    ensures { result ≡ begins_numeral byte }
{
    is_digit(byte) || byte == b'-'
}

/// The letter of an exponent.
pub fn is_exponent(byte: u8) -> bool
    ensures { result ≡ is_mark byte }
{
    byte == b'e' || byte == b'E'
}

pub fn is_plus_minus(byte: u8) -> bool
    ensures { result ≡ is_plus_minus byte }
{
    byte == b'-' || byte == b'+'
}
