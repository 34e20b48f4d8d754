ghost use Rattle.std.specs.Prelude.{◌≡◌, Some, None, IfOk, IsErrOf, is_some, map, option_map, string_bytes, codes, true, OnErr};
ghost use Rattle.guard_words.specs.Request.{AsksFor, Asked, asked, allows, requested, text_of, validate, check, drill};
ghost use Rattle.guard_words.specs.code.Memory.{NamesCommand};
ghost use Rattle.guard_words.specs.code.Reading.{parsed_in, IsFlagText, HasValues, flag_among};
ghost use Rattle.guard_words.specs.code.CommandLine.{guard_app};
ghost use Rattle.guard_words.specs.declared.table.Kind.TheVariants.{Count};
ghost use Rattle.clap.specs.Words.{subcommand_rows_of, subcommand_of, first_value, found_of, one_text};

use crate::command_line::command_line;
use crate::reading::command_asked;
use crate::table::Command;
use crate::values::count_of;
use clap::ArgMatches;
use clap::error::ErrorKind;
use std::alloc::{AllocError, Global};

/// What the words ask for. `rules`, `template`, `params`, `proof` and `tests` are names of files, as the words give them
/// behind `--rules`, `--data`, `--params`, `--proof` and `--tests`.
#[derive(Drop)]
pub enum Request {
    Validate {
        rules: String,
        template: String,
        params: Option<String>,
        evidence: bool,
    },
    Check {
        rules: String,
        template: String,
        params: Option<String>,
        proof: String,
    },
    Drill {
        count: u32,
    },
    Test {
        rules: String,
        tests: String,
    },
    Rulegen {
        template: String,
    },
    Tree {
        rules: String,
    },
}

/// Why there is no request.
#[derive(Clone, Copy)]
pub enum WordsRefusal {
    /// The words make no request.
    Usage,
    /// There was no memory to read them.
    NoMemory,
}

impl From<AllocError> for WordsRefusal {
    ghost use Rattle.guard_words.specs.declared.request.WordsRefusal.TheVariants.{NoMemory};

    ghost from_gives = { λ _ e. e ≡ NoMemory };

    fn from(_: AllocError) -> WordsRefusal {
        WordsRefusal::NoMemory
    }
}

/// Reads the words of a command line, without the program's own name.
///
/// `Usage` says that they make no request, `NoMemory` that there was no memory to tell. Words of which the first names no
/// command take none.
pub fn read_words(alloc: Global, words: &[String]) -> Result<Request, WordsRefusal>
    ensures ok { IfOk result (λ request. AsksFor (map string_bytes words.now) (asked request)) }
    ensures only { IfOk result (λ request. (other : Asked) → AsksFor (map string_bytes words.now) other → other ≡ asked request) }
    ensures usage { IsErrOf result WordsRefusal.Usage → (request : Asked) → ¬ AsksFor (map string_bytes words.now) request }
    ensures memory { IsErrOf result WordsRefusal.NoMemory → NamesCommand (map string_bytes words.now) }
{
    let Some(command) = command_asked(alloc, words)? else {
        return Err(WordsRefusal::Usage);
    };
    let matches = parse(alloc, words)?;
    let Some((_, options)) = matches.subcommand() else {
        unreachable!()
    };
    answer(alloc, command, options)
}

/// What `clap` reads in the words of a request.
fn parse<'a>(alloc: Global, words: &'a [String]) -> Result<ArgMatches<'a>, WordsRefusal>
    requires { is_some (parsed_in (map string_bytes words.now)) ≡ true }
    ensures matches { IfOk result (λ m. subcommand_rows_of m ≡ subcommand_of guard_app (map string_bytes words.entry.now)) }
    ensures only_memory { OnErr result (IsErrOf result WordsRefusal.NoMemory) }
{
    let command = command_line(alloc)?;
    match command.try_get_matches_from(words) {
        Ok(matches) => Ok(matches),
        Err(error) => match error.kind() {
            ErrorKind::OutOfMemory => Err(WordsRefusal::NoMemory),
            _ => unreachable!(),
        },
    }
}

/// The request of a command with these options.
fn answer(alloc: Global, command: Command, options: &ArgMatches) -> Result<Request, WordsRefusal>
    requires { HasValues command (found_of options.now) }
    ensures ok { IfOk result (λ request. asked request
        ≡ requested command (first_value (found_of options.now)) (flag_among (found_of options.now))) }
    ensures only_memory { OnErr result (IsErrOf result WordsRefusal.NoMemory) }
{
    match command {
        Command::Validate => validate(alloc, options),
        Command::Check => check(alloc, options),
        Command::Drill => Ok(drill(options)),
        Command::Test => test(alloc, options),
        Command::Rulegen => rulegen(alloc, options),
        Command::ParseTree => parse_tree(alloc, options),
    }
}

fn validate(alloc: Global, options: &ArgMatches) -> Result<Request, WordsRefusal>
    requires rules { is_some (first_value (found_of options.now) (codes "rules")) ≡ true }
    requires template { is_some (first_value (found_of options.now) (codes "data")) ≡ true }
    requires evidence { IsFlagText (one_text (found_of options.now) (codes "evidence")) }
    ensures ok { IfOk result (λ request. asked request
        ≡ requested Command.Validate (first_value (found_of options.now)) (flag_among (found_of options.now))) }
    ensures only_memory { OnErr result (IsErrOf result WordsRefusal.NoMemory) }
{
    Ok(Request::Validate {
        rules: value_of(alloc, options, "rules")?,
        template: value_of(alloc, options, "data")?,
        params: value_if_given(alloc, options, "params")?,
        evidence: options.get_flag("evidence"),
    })
}

fn check(alloc: Global, options: &ArgMatches) -> Result<Request, WordsRefusal>
    requires rules { is_some (first_value (found_of options.now) (codes "rules")) ≡ true }
    requires template { is_some (first_value (found_of options.now) (codes "data")) ≡ true }
    requires proof { is_some (first_value (found_of options.now) (codes "proof")) ≡ true }
    ensures ok { IfOk result (λ request. asked request
        ≡ requested Command.Check (first_value (found_of options.now)) (flag_among (found_of options.now))) }
    ensures only_memory { OnErr result (IsErrOf result WordsRefusal.NoMemory) }
{
    Ok(Request::Check {
        rules: value_of(alloc, options, "rules")?,
        template: value_of(alloc, options, "data")?,
        params: value_if_given(alloc, options, "params")?,
        proof: value_of(alloc, options, "proof")?,
    })
}

fn drill(options: &ArgMatches) -> Request
    requires count { allows Count (first_value (found_of options.now) (codes "count")) ≡ true }
    ensures { asked result
        ≡ requested Command.Drill (first_value (found_of options.now)) (flag_among (found_of options.now)) }
{
    let Some(text) = options.get_str("count") else {
        unreachable!()
    };
    let Some(count) = count_of(text) else {
        unreachable!()
    };
    Request::Drill { count }
}

fn test(alloc: Global, options: &ArgMatches) -> Result<Request, WordsRefusal>
    requires rules { is_some (first_value (found_of options.now) (codes "rules")) ≡ true }
    requires tests { is_some (first_value (found_of options.now) (codes "tests")) ≡ true }
    ensures ok { IfOk result (λ request. asked request
        ≡ requested Command.Test (first_value (found_of options.now)) (flag_among (found_of options.now))) }
    ensures only_memory { OnErr result (IsErrOf result WordsRefusal.NoMemory) }
{
    Ok(Request::Test {
        rules: value_of(alloc, options, "rules")?,
        tests: value_of(alloc, options, "tests")?,
    })
}

fn rulegen(alloc: Global, options: &ArgMatches) -> Result<Request, WordsRefusal>
    requires template { is_some (first_value (found_of options.now) (codes "data")) ≡ true }
    ensures ok { IfOk result (λ request. asked request
        ≡ requested Command.Rulegen (first_value (found_of options.now)) (flag_among (found_of options.now))) }
    ensures only_memory { OnErr result (IsErrOf result WordsRefusal.NoMemory) }
{
    Ok(Request::Rulegen {
        template: value_of(alloc, options, "data")?,
    })
}

fn parse_tree(alloc: Global, options: &ArgMatches) -> Result<Request, WordsRefusal>
    requires rules { is_some (first_value (found_of options.now) (codes "rules")) ≡ true }
    ensures ok { IfOk result (λ request. asked request
        ≡ requested Command.ParseTree (first_value (found_of options.now)) (flag_among (found_of options.now))) }
    ensures only_memory { OnErr result (IsErrOf result WordsRefusal.NoMemory) }
{
    Ok(Request::Tree {
        rules: value_of(alloc, options, "rules")?,
    })
}

/// A copy of the value of a required option.
fn value_of(alloc: Global, options: &ArgMatches, name: &str) -> Result<String, WordsRefusal>
    requires { is_some (first_value (found_of options.now) name.now) ≡ true }
    ensures ok { IfOk result (λ value. string_bytes value ≡ text_of (first_value (found_of options.now) name.now)) }
    ensures only_memory { OnErr result (IsErrOf result WordsRefusal.NoMemory) }
{
    let Some(value) = options.get_str(name) else {
        unreachable!()
    };
    Ok(String::from_str(alloc, value)?)
}

/// A copy of the value of an option that may be left out.
fn value_if_given(
    alloc: Global,
    options: &ArgMatches,
    name: &str,
) -> Result<Option<String>, WordsRefusal>
    ensures ok { IfOk result (λ value. option_map string_bytes value ≡ first_value (found_of options.now) name.now) }
    ensures only_memory { OnErr result (IsErrOf result WordsRefusal.NoMemory) }
{
    match options.get_str(name) {
        None => Ok(None),
        Some(value) => Ok(Some(String::from_str(alloc, value)?)),
    }
}
