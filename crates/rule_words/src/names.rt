//! Names, and keys that are spelled as names.
ghost use Rattle.std.specs.Prelude.{◌≡◌, ◌++◌, OnOk, codes, is_some, string_bytes};
ghost use Rattle.std.specs.List.{list_all};
ghost use Rattle.decimals.specs.Number.{is_digit};
ghost use Rattle.guard_lexer.specs.Bytes.{is_letter, is_word};
ghost use Rattle.literal_parser.specs.Lexemes.{keyword_of};
ghost use Rattle.rule_words.specs.WordText.{capture_text, first_key_text, is_free_name, is_name, key_text, names_text, operator_text, params_text, space_behind};
ghost use Rattle.rule_words.specs.code.Appended.{is_among};

use crate::words::{push_between, push_operator};
use guard_syntax::{Name, Op};
use rule_spelling::push_quoted;
use std::alloc::AllocError;

/// How each keyword is written.
const KEYWORDS: [&str; 40] = [
    "let",
    "rule",
    "true",
    "True",
    "false",
    "False",
    "null",
    "NULL",
    "when",
    "WHEN",
    "some",
    "SOME",
    "or",
    "OR",
    "not",
    "NOT",
    "keys",
    "KEYS",
    "this",
    "THIS",
    "in",
    "IN",
    "exists",
    "EXISTS",
    "empty",
    "EMPTY",
    "is_string",
    "IS_STRING",
    "is_list",
    "IS_LIST",
    "is_struct",
    "IS_STRUCT",
    "is_bool",
    "IS_BOOL",
    "is_int",
    "IS_INT",
    "is_float",
    "IS_FLOAT",
    "is_null",
    "IS_NULL",
];

/// An ASCII letter or `_`.
fn is_letter(byte: u8) -> bool
    ensures { result ≡ is_letter byte }
{
    b'a' <= byte && byte <= b'z' || b'A' <= byte && byte <= b'Z' || byte == b'_'
}

fn is_digit(byte: u8) -> bool
    ensures { result ≡ is_digit byte }
{
    b'0' <= byte && byte <= b'9'
}

/// A letter, a digit or `_`.
fn is_word(byte: u8) -> bool
    ensures { result ≡ is_word byte }
{
    is_letter(byte) || is_digit(byte)
}

/// Letters, digits and `_`.
fn are_words(bytes: &[u8]) -> bool
    ensures { result ≡ list_all is_word bytes.now }
{
    bytes.iter().all(|byte| is_word(*byte))
}

/// A letter or `_`, then letters, digits and `_`.
fn is_name(text: &str) -> bool
    ensures { result ≡ is_name text.now }
{
    match text.as_bytes().split_first() {
        Some((first, others)) => is_letter(*first) && are_words(others),
        None => false,
    }
}

/// Whether a name is one of some words.
#[tactic(auto, unfolding(crate::specs::code::Appended::is_among))]
fn is_among(words: &[&str], name: &str) -> bool
    ensures { result ≡ is_among words.now name.now }
{
    words.iter().any(|word| name == *word)
}

/// Whether a name is a keyword.
fn is_keyword(name: &str) -> bool
    ensures { result ≡ is_some (keyword_of name.now) }
{
    is_among(&KEYWORDS, name)
}

/// Whether a text is a name and no keyword.
fn is_free_name(text: &str) -> bool
    ensures { result ≡ is_free_name text.now }
{
    is_name(text) && !is_keyword(text)
}

/// Appends a key behind a dot, with the dot.
pub fn push_dotted_key(out: &mut String, key: &str) -> Result<(), AllocError>
    ensures { OnOk result (string_bytes out.new ≡ string_bytes out.old ++ (codes "." ++ key_text key.now)) }
{
    out.push_str(".")?;
    if is_name(key) {
        out.push_str(key)
    } else {
        push_quoted(out, key)
    }
}

/// Appends a key that begins a query.
pub fn push_first_key(out: &mut String, key: &str) -> Result<(), AllocError>
    ensures { OnOk result (string_bytes out.new ≡ string_bytes out.old ++ first_key_text key.now) }
{
    if is_free_name(key) {
        out.push_str(key)
    } else {
        push_quoted(out, key)
    }
}

/// Appends a space where a bracket behind a name would open a range.
fn push_space_behind(out: &mut String, name: &str) -> Result<(), AllocError>
    ensures { OnOk result (string_bytes out.new ≡ string_bytes out.old ++ space_behind name.now) }
{
    if name == "r" {
        out.push_str(" ")
    } else {
        Ok(())
    }
}

/// Appends the name of a function, with the space behind it where it needs one.
pub fn push_function_name(out: &mut String, name: &str) -> Result<(), AllocError>
    ensures { OnOk result (string_bytes out.new ≡ (string_bytes out.old ++ name.now) ++ space_behind name.now) }
{
    out.push_str(name)?;
    push_space_behind(out, name)
}

/// Appends the capture of a filter, if it has one.
fn push_capture(out: &mut String, capture: &Option<Name>) -> Result<(), AllocError>
    ensures { OnOk result (string_bytes out.new ≡ string_bytes out.old ++ capture_text capture.now) }
{
    match capture {
        Some(name) => {
            out.push_str(name.as_str())?;
            out.push_str(" | ")
        }
        None => Ok(()),
    }
}

/// Appends the bracket of a filter, and its capture if it has one.
pub fn push_opened(out: &mut String, capture: &Option<Name>) -> Result<(), AllocError>
    ensures { OnOk result (string_bytes out.new ≡ (string_bytes out.old ++ codes "[ ") ++ capture_text capture.now) }
{
    out.push_str("[ ")?;
    push_capture(out, capture)
}

/// Appends a filter on keys, up to its right side.
pub fn push_keys_test(
    out: &mut String,
    capture: &Option<Name>,
    op: Op,
    not: bool,
) -> Result<(), AllocError>
    ensures { OnOk result (string_bytes out.new ≡ ((((string_bytes out.old ++ codes "[ ") ++ capture_text capture.now) ++ codes "keys ") ++ operator_text op not) ++ codes " ") }
{
    push_opened(out, capture)?;
    out.push_str("keys ")?;
    push_operator(out, op, not)?;
    out.push_str(" ")
}

/// Appends names.
fn push_names(out: &mut String, names: &[Name]) -> Result<(), AllocError>
    ensures { OnOk result (string_bytes out.new ≡ string_bytes out.old ++ names_text names.now) }
{
    for (i, name) in names.iter().enumerate() {
        push_between(out, i, ", ")?;
        out.push_str(name.as_str())?;
    }
    Ok(())
}

/// Appends the parameters of a rule, if it has some.
pub fn push_params(out: &mut String, params: &[Name]) -> Result<(), AllocError>
    ensures { OnOk result (string_bytes out.new ≡ string_bytes out.old ++ params_text params.now) }
{
    if params.is_empty() {
        return Ok(());
    }
    out.push_str("(")?;
    push_names(out, params)?;
    out.push_str(")")
}
