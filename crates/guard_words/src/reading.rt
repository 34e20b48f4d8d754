ghost use Rattle.std.specs.Prelude.{◌≡◌, ◌||◌, not, [], List, ℕ, Option, Some, None, option_map, IfOk, OnErr, map, string_bytes, if◌then◌else◌};
ghost use Rattle.std.specs.List.{list_all, list_any};
ghost use Rattle.std.specs.Str.{bytes_eq};
ghost use Rattle.clap.specs.Lexer.{long_of, strip_byte, name_and_value};
ghost use Rattle.guard_words.specs.Request.{allows, is_given, is_complete, options_of, starts_with_hyphen, Use};
ghost use Rattle.guard_words.specs.code.Memory.{NamesCommand};
ghost use Rattle.guard_words.specs.code.Reading.{Awaited, parsed_in, uses_in, with_word, use_texts, awaited_text};

use crate::table::{Command, Kind, OptionRow};
use crate::values::{count_of, is_file_name};
use std::alloc::{AllocError, Global};

/// A use of an option: its name, and the value where one is given.
#[derive(Clone, Copy)]
pub(crate) struct OptionUse<'a> {
    name: &'a str,
    value: Option<&'a str>,
}

/// The command of the request that the words make, if they make one.
pub(crate) fn command_asked(alloc: Global, words: &[String]) -> Result<Option<Command>, AllocError>
    ensures command { IfOk result (λ o. o ≡ option_map (λ p. p.0) (parsed_in (map string_bytes words.now))) }
    ensures memory { OnErr result (NamesCommand (map string_bytes words.now)) }
{
    let Some((first, rest)) = words.split_first() else {
        return Ok(None);
    };
    let Some(command) = Command::named(first.as_str()) else {
        return Ok(None);
    };
    match uses(alloc, command, rest)? {
        None => Ok(None),
        Some(uses) => Ok(if_complete(command, &uses)),
    }
}

fn if_complete(command: Command, uses: &[OptionUse]) -> Option<Command>
    ensures { result ≡ (if is_complete (options_of command) (use_texts uses.now) then Some command else None) }
{
    if is_complete(command, uses) {
        Some(command)
    } else {
        None
    }
}

/// Whether each option is given that the command requires.
fn is_complete(command: Command, uses: &[OptionUse]) -> bool
    ensures { result ≡ is_complete (options_of command) (use_texts uses.now) }
{
    all_given(command.options(), uses)
}

fn all_given(rows: &[OptionRow], uses: &[OptionUse]) -> bool
    ensures { result ≡ list_all (λ o. not o.required || is_given o.name.now (use_texts uses.now)) rows.now }
{
    rows.iter()
        .all(|row| !row.required || is_given(uses, row.name))
}

fn is_given(uses: &[OptionUse], name: &str) -> bool
    ensures { result ≡ is_given name.now (use_texts uses.now) }
{
    any_named(uses, name)
}

fn any_named(uses: &[OptionUse], name: &str) -> bool
    ensures { result ≡ list_any (λ u. bytes_eq u.name.now name.now) uses.now }
{
    uses.iter().any(|u| u.name == name)
}

/// The uses of options that the words give, if they may stand so.
fn uses<'a>(
    alloc: Global,
    command: Command,
    words: &'a [String],
) -> Result<Option<Vec<OptionUse<'a>>>, AllocError>
    ensures { IfOk result (λ o. option_map (λ v. use_texts v.items) o
        ≡ uses_in (options_of command) (map string_bytes words.now) [] None) }
{
    let mut seen: Vec<OptionUse<'a>> = Vec::new(alloc);
    let mut awaits: Option<(&'a str, Kind)> = None;
    for word in words {
        if !take_word(command, &mut seen, &mut awaits, word.as_str())? {
            return Ok(None);
        }
    }
    if awaits.is_some() {
        return Ok(None);
    }
    Ok(Some(seen))
}

/// Reads one word more. The answer says whether it may stand there.
fn take_word<'a>(
    command: Command,
    seen: &mut Vec<OptionUse<'a>>,
    awaits: &mut Option<(&'a str, Kind)>,
    word: &'a str,
) -> Result<bool, AllocError>
    ensures { IfOk result (λ ok. (next : List Use → Option Awaited → Option (List Use)) →
        with_word (options_of command) (use_texts seen.old.items) (awaited_text awaits.old) word.now next
        ≡ (if ok then next (use_texts seen.new.items) (awaited_text awaits.new) else None)) }
{
    if let Some((name, kind)) = *awaits {
        if starts_with_hyphen(word) || !allows(kind, Some(word)) {
            return Ok(false);
        }
        seen.push(OptionUse {
            name,
            value: Some(word),
        })?;
        *awaits = None;
        return Ok(true);
    }
    let Some((name, value)) = long_of(word) else {
        return Ok(false);
    };
    if is_given(seen, name) {
        return Ok(false);
    }
    let Some(kind) = command.kind_of(name) else {
        return Ok(false);
    };
    if kind != Kind::Flag && value.is_none() {
        *awaits = Some((name, kind));
        return Ok(true);
    }
    if !allows(kind, value) {
        return Ok(false);
    }
    seen.push(OptionUse { name, value })?;
    Ok(true)
}

/// Whether an option of this kind may have the value, or none.
fn allows(kind: Kind, value: Option<&str>) -> bool
    ensures { result ≡ allows kind (option_map (λ s. s.now) value.entry) }
{
    match (kind, value) {
        (Kind::Flag, None) => true,
        (Kind::File, Some(text)) => is_file_name(text),
        (Kind::Count, Some(text)) => count_of(text).is_some(),
        _ => false,
    }
}

fn starts_with_hyphen(word: &str) -> bool
    ensures { result ≡ starts_with_hyphen word.now }
{
    match word.as_bytes() {
        [b'-', ..] => true,
        _ => false,
    }
}

/// The name, and the value if there is one, of a word `--name` or `--name=value`.
fn long_of(word: &str) -> Option<(&str, Option<&str>)>
    ensures { option_map (λ p. (p.0.now, option_map (λ s. s.now) p.1)) result ≡ long_of word.now }
{
    let rest = strip_hyphen(strip_hyphen(word)?)?;
    if rest.is_empty() {
        return None;
    }
    Some(split_value(rest))
}

fn strip_hyphen(word: &str) -> Option<&str>
    ensures { option_map (λ s. s.now) result ≡ strip_byte 45 word.now }
{
    word.strip_prefix('-')
}

fn split_value(text: &str) -> (&str, Option<&str>)
    ensures { (result.0.now, option_map (λ s. s.now) result.1) ≡ name_and_value text.now }
{
    match text.split_once('=') {
        Some((name, value)) => (name, Some(value)),
        None => (text, None),
    }
}
