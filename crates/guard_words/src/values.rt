ghost use Rattle.std.specs.Prelude.{◌≡◌, is_some};
ghost use Rattle.std.specs.List.{list_all};
ghost use Rattle.std.specs.Char.{is_ascii_digit};
ghost use Rattle.guard_words.specs.Request.{is_file_name, is_numeral, count_in};

/// The greatest count that `drill` takes.
const MOST: u32 = 100_000;

/// A file's name is not empty, and not `-`, which elsewhere means the standard input.
pub(crate) fn is_file_name(text: &str) -> bool
    ensures { result ≡ is_file_name text.now }
{
    !text.is_empty() && text != "-"
}

/// The number of a count: `0`, or digits without a leading zero, of at most `MOST`.
pub(crate) fn count_of(text: &str) -> Option<u32>
    ensures { result ≡ count_in text.now }
{
    if !is_numeral(text) {
        return None;
    }
    let Ok(count) = text.parse::<u32>() else {
        return None;
    };
    if count <= MOST { Some(count) } else { None }
}

fn is_numeral(text: &str) -> bool
    ensures { result ≡ is_numeral text.now }
{
    match text.as_bytes() {
        [] => false,
        [b'0'] => true,
        [b'0', ..] => false,
        digits => has_digits_only(digits),
    }
}

fn has_digits_only(bytes: &[u8]) -> bool
    ensures { result ≡ list_all is_ascii_digit bytes.now }
{
    bytes.iter().all(|byte| byte.is_ascii_digit())
}
