ghost use Rattle.std.specs.Prelude.{◌≡◌, IfOk, false};
ghost use Rattle.clap.specs.Words.{app_of, rule_of};
ghost use Rattle.guard_words.specs.code.CommandLine.{StandsAs, guard_app, program, subcommand_app, rule_for};
ghost use Rattle.guard_words.specs.code.Reading.{row_text};

use crate::table::{Command, Kind, OptionRow};
use clap::{Arg, ArgAction};
use std::alloc::{AllocError, Global};

/// All commands.
const COMMANDS: [Command; 6] = [
    Command::Validate,
    Command::Check,
    Command::Drill,
    Command::Test,
    Command::Rulegen,
    Command::ParseTree,
];

/// The command line as `clap` is told of it.
pub(crate) fn command_line<'a>(alloc: Global) -> Result<clap::Command<'a>, AllocError>
    ensures app { IfOk result (λ c. app_of c ≡ guard_app) }
{
    let mut built: clap::Command<'a> = program(alloc);
    for command in &COMMANDS {
        let subcommand: clap::Command<'a> = subcommand_of(alloc, *command)?;
        built = built.subcommand(subcommand)?;
    }
    Ok(built)
}

/// The program's own part, before its subcommands.
fn program<'a>(alloc: Global) -> clap::Command<'a>
    ensures { app_of result ≡ program }
{
    clap::Command::new(alloc, "guard")
        .no_binary_name(true)
        .disable_help_flag(true)
        .disable_help_subcommand(true)
}

/// The subcommand of a command, with the options of its table.
fn subcommand_of<'a>(alloc: Global, command: Command) -> Result<clap::Command<'a>, AllocError>
    ensures { IfOk result (StandsAs (subcommand_app command).top) }
{
    let rows = command.options();
    let name: &'a str = command.name();
    let mut built = clap::Command::new(alloc, name);
    for row in rows {
        let argument: Arg<'a> = argument(alloc, *row);
        built = built.arg(argument)?;
    }
    Ok(built)
}

/// An option of a table.
fn argument<'a>(alloc: Global, row: OptionRow) -> Arg<'a>
    ensures rule { rule_of result ≡ rule_for (row_text row) }
    ensures local { result.global ≡ false }
{
    let argument = Arg::new(alloc, row.name)
        .long(row.name)
        .required(row.required);
    match row.kind {
        Kind::Flag => argument.action(ArgAction::SetTrue),
        Kind::File | Kind::Count => argument.action(ArgAction::Set),
    }
}
