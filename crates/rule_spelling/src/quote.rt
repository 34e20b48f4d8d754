//! Texts and patterns between their quotes.
ghost use Rattle.std.specs.Prelude.{◌≡◌, ◌++◌, ◌<◌, OnOk, string_bytes};
ghost use Rattle.rule_spelling.specs.Spelling.{enclosed, escaped, pattern_text, quoted};

use std::alloc::AllocError;

/// Appends a text in double quotes, with a backslash before each double quote in it.
pub fn push_quoted(out: &mut String, text: &str) -> Result<(), AllocError>
    ensures { OnOk result (string_bytes out.new ≡ string_bytes out.old ++ quoted text.now) }
{
    push_enclosed(out, text, '"')
}

/// Appends a pattern between slashes, with a backslash before each slash in it.
pub fn push_pattern(out: &mut String, text: &str) -> Result<(), AllocError>
    ensures { OnOk result (string_bytes out.new ≡ string_bytes out.old ++ pattern_text text.now) }
{
    push_enclosed(out, text, '/')
}

fn push_enclosed(out: &mut String, text: &str, quote: char) -> Result<(), AllocError>
    requires { quote < 128 }
    ensures { OnOk result (string_bytes out.new ≡ string_bytes out.old ++ enclosed quote text.now) }
{
    out.push(quote)?;
    push_escaped(out, text, quote)?;
    out.push(quote)
}

/// Appends a text with a backslash before each of these quotes in it.
fn push_escaped(out: &mut String, text: &str, quote: char) -> Result<(), AllocError>
    requires { quote < 128 }
    ensures { OnOk result (string_bytes out.new ≡ string_bytes out.old ++ escaped quote text.now) }
{
    let mut rest = text;
    while let Some((front, behind)) = rest.split_once(quote) {
        out.push_str(front)?;
        out.push('\\')?;
        out.push(quote)?;
        rest = behind;
    }
    out.push_str(rest)
}
