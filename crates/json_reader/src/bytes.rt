//! Classes of bytes.
ghost use Rattle.std.specs.Prelude.{ℕ, ◌≡◌, ◌<◌, ◌≤◌, length, true, false, slice_index};
ghost use Rattle.json_reader.specs.Json.{is_space};
ghost use Rattle.json_reader.specs.code.Reading.{class_of, mark_len, mark_stop};

/// What a byte is, outside texts.
#[derive(Clone, Copy)]
pub(crate) enum Class {
    Space,
    Quote,
    Open,
    Close,
    OpenList,
    CloseList,
    Colon,
    Comma,
    Minus,
    Zero,
    Digit,
    LetterN,
    LetterT,
    LetterF,
    Other,
}

/// What a byte is, outside texts.
pub(crate) fn byte_class(byte: u8) -> Class
    ensures { result ≡ class_of byte }
{
    match byte {
        b' ' | b'\t' | b'\n' | b'\r' => Class::Space,
        b'"' => Class::Quote,
        b'{' => Class::Open,
        b'}' => Class::Close,
        b'[' => Class::OpenList,
        b']' => Class::CloseList,
        b'n' => Class::LetterN,
        b't' => Class::LetterT,
        b'f' => Class::LetterF,
        b':' => Class::Colon,
        b',' => Class::Comma,
        b'-' => Class::Minus,
        b'0' => Class::Zero,
        b'1'..=b'9' => Class::Digit,
        _ => Class::Other,
    }
}

fn is_space(byte: u8) -> bool
    ensures { result ≡ is_space byte }
{
    byte == b' ' || byte == b'\t' || byte == b'\n' || byte == b'\r'
}

/// The place behind the white space from a place on.
pub(crate) fn space_end(bytes: &[u8], at: usize) -> usize
    requires { at ≤ length bytes.now }
    ensures from { at ≤ result }
    ensures within { result ≤ length bytes.now }
    ensures space { (k : ℕ) → at ≤ k → k < result → is_space (slice_index bytes.now k) ≡ true }
    ensures most { result < length bytes.now → is_space (slice_index bytes.now result) ≡ false }
{
    let mut end = at;
    while end < bytes.len() {
        if !is_space(bytes[end]) {
            return end;
        }
        end += 1;
    }
    end
}

/// How many bytes of a byte order mark stand in front.
pub(crate) fn front_len(bytes: &[u8]) -> usize
    ensures { result ≡ mark_len bytes.now }
{
    if bytes.starts_with(b"\xef\xbb\xbf") {
        3
    } else {
        0
    }
}

/// The place where bytes that begin as a byte order mark does leave it.
pub(crate) fn mark_stop(bytes: &[u8]) -> Option<u32>
    ensures { result ≡ mark_stop bytes.now }
{
    if bytes.starts_with(b"\xef\xbb\xbf") {
        None
    } else if bytes.starts_with(b"\xef\xbb") {
        Some(2)
    } else if bytes.starts_with(b"\xef") {
        Some(1)
    } else {
        None
    }
}
