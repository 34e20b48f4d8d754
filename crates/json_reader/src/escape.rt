//! Escapes in texts.
ghost use Rattle.std.specs.Prelude.{◌≡◌, ◌+◌, ◌-◌, ◌<◌, ◌≤◌, length, true, false, Option, Some, None, MatchOption, MatchResult, encode_utf8, slice_index};
ghost use Rattle.std.specs.Char.{IsScalar};
ghost use Rattle.json_reader.specs.Json.{short_escape, is_hex, hex, is_unit, unit, is_high, is_low, opens_unit, escape};
ghost use Rattle.json_reader.specs.code.Reading.{may_escape};
ghost use Rattle.json_reader.specs.code.Steps.{Reaches, Fails, escape_two, escape_six, escape_twelve};

/// The character of a letter behind a backslash.
fn short_escape(byte: u8) -> Option<char>
    ensures { result ≡ short_escape byte }
{
    match byte {
        b'"' => Some('"'),
        b'\\' => Some('\\'),
        b'/' => Some('/'),
        b'b' => Some('\u{8}'),
        b'f' => Some('\u{c}'),
        b'n' => Some('\n'),
        b'r' => Some('\r'),
        b't' => Some('\t'),
        _ => None,
    }
}

fn is_hex(byte: u8) -> bool
    ensures { result ≡ is_hex byte }
{
    matches!(byte, b'0'..=b'9' | b'A'..=b'F' | b'a'..=b'f')
}

/// What a hexadecimal digit is worth.
fn hex(byte: u8) -> u8
    ensures { result ≡ hex byte }
{
    if byte <= b'9' {
        byte.saturating_sub(48)
    } else if byte <= b'F' {
        byte.saturating_sub(55)
    } else {
        byte.saturating_sub(87)
    }
}

/// The number that four hexadecimal digits spell.
fn unit(a: u8, b: u8, c: u8, d: u8) -> Option<u32>
    ensures { MatchOption result (is_unit a b c d ≡ false) (λ n. (is_unit a b c d ≡ true) × (n ≡ unit a b c d)) }
{
    if is_hex(a) && is_hex(b) && is_hex(c) && is_hex(d) {
        Some(hex(a) as u32 * 4096 + hex(b) as u32 * 256 + hex(c) as u32 * 16 + hex(d) as u32)
    } else {
        None
    }
}

/// Whether digits begin a high surrogate.
fn is_high(a: u8, b: u8) -> bool
    ensures { result ≡ is_high a b }
{
    hex(a) == 13 && 8 <= hex(b) && hex(b) < 12
}

/// Whether digits begin a low surrogate.
fn is_low(a: u8, b: u8) -> bool
    ensures { result ≡ is_low a b }
{
    hex(a) == 13 && 12 <= hex(b)
}

/// Whether a backslash and a `u` stand here.
fn opens_unit(x: u8, y: u8) -> bool
    ensures { result ≡ opens_unit x y }
{
    x == b'\\' && y == b'u'
}

/// A number that is no surrogate is a character.
fn character(n: u32) -> Option<char>
    requires { IsScalar n }
    ensures { result ≡ Some n }
{
    char::from_u32(n)
}

/// The character of a backslash and a letter.
fn escape_of_two(bytes: &[u8]) -> Option<char>
    requires { length bytes.now ≡ 2 }
    ensures { result ≡ escape_two bytes.now }
{
    if bytes[0] == b'\\' {
        short_escape(bytes[1])
    } else {
        None
    }
}

/// The character of one unit.
fn escape_of_six(bytes: &[u8]) -> Option<char>
    requires { length bytes.now ≡ 6 }
    ensures { result ≡ escape_six bytes.now }
{
    if !opens_unit(bytes[0], bytes[1]) {
        return None;
    }
    match unit(bytes[2], bytes[3], bytes[4], bytes[5]) {
        None => None,
        Some(n) => {
            if is_high(bytes[2], bytes[3]) || is_low(bytes[2], bytes[3]) {
                return None;
            }
            character(n)
        }
    }
}

/// The character of two surrogates.
fn escape_of_twelve(bytes: &[u8]) -> Option<char>
    requires { length bytes.now ≡ 12 }
    ensures { result ≡ escape_twelve bytes.now }
{
    if !opens_unit(bytes[0], bytes[1]) {
        return None;
    }
    match unit(bytes[2], bytes[3], bytes[4], bytes[5]) {
        None => None,
        Some(high) => {
            if !is_high(bytes[2], bytes[3]) || !opens_unit(bytes[6], bytes[7]) {
                return None;
            }
            match unit(bytes[8], bytes[9], bytes[10], bytes[11]) {
                None => None,
                Some(low) => {
                    if !is_low(bytes[8], bytes[9]) {
                        return None;
                    }
                    character(65536 + (high - 55296) * 1024 + (low - 56320))
                }
            }
        }
    }
}

/// The character that an escape spells.
fn escape(bytes: &[u8]) -> Option<char>
    ensures { result ≡ escape bytes.now }
{
    match bytes.len() {
        2 => escape_of_two(bytes),
        6 => escape_of_six(bytes),
        12 => escape_of_twelve(bytes),
        _ => None,
    }
}

/// Whether bytes behind a backslash may go on to an escape.
fn may_escape(bytes: &[u8]) -> bool
    ensures { result ≡ may_escape bytes.now }
{
    match bytes.len() {
        2 => bytes[1] == b'u',
        3 => is_hex(bytes[2]),
        4 => is_hex(bytes[3]) && !is_low(bytes[2], bytes[3]),
        5 => is_hex(bytes[4]),
        6 => is_hex(bytes[5]) && is_high(bytes[2], bytes[3]),
        7 => bytes[6] == b'\\',
        8 => bytes[7] == b'u',
        9 => is_hex(bytes[8]) && hex(bytes[8]) == 13,
        10 => is_hex(bytes[9]) && is_low(bytes[8], bytes[9]),
        11 => is_hex(bytes[10]),
        _ => false,
    }
}

/// The character that an escape at a place spells, and the place behind it; else the place where the bytes belong to no
/// escape, or their end.
pub(crate) fn escape_at(bytes: &[u8], at: usize) -> Result<(char, usize), usize>
    requires within { at < length bytes.now }
    requires backslash { slice_index bytes.now at ≡ 92 }
    ensures { MatchResult result (λ r. (at < r.1) × (r.1 ≤ length bytes.now) × (slice_index bytes.now (r.1 - 1) < 128) × Reaches bytes.now at (encode_utf8 r.0) r.1) (λ j. Fails bytes.now at j) }
{
    for end in at + 1..bytes.len() {
        let part = &bytes[at..end + 1];
        match escape(part) {
            Some(c) => return Ok((c, end + 1)),
            None => {
                if !may_escape(part) {
                    return Err(end);
                }
            }
        }
    }
    Err(bytes.len())
}
