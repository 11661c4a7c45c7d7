// What clap finds in the arguments of a simple command.
ghost use Rattle.std.specs.Prelude.{◌≡◌, List, ℕ, IfOk, true, map, option_map};
ghost use Rattle.std.specs.String.{string_bytes};
ghost use Rattle.clap.specs.Words.{app_of, rows_of, found_of, is_simple_and_free};
ghost use Rattle.pac_arguments.specs.Found.{plain_app, with_option, with_flag, with_operand, found_rows, option_number, is_set};

use crate::number::number_up_to;
use clap::error::ErrorKind;
use clap::{Arg, ArgAction, ArgMatches, Command};
use pac_base::NoMemory;
use std::alloc::Global;

/// A command of this name, with no arguments, no help and no version.
pub(crate) fn plain_app<'a>(alloc: Global, name: &'static str) -> Command<'a>
    ensures { app_of result ≡ plain_app name.entry.now }
{
    Command::new(alloc, name)
        .disable_help_flag(true)
        .disable_version_flag(true)
}

/// The command with an option more, `--name VALUE`.
pub(crate) fn with_option<'a>(
    alloc: Global,
    command: Command<'a>,
    name: &'static str,
) -> Result<Command<'a>, NoMemory>
    ensures { IfOk result (λ more. app_of more ≡ with_option name.entry.now (app_of command.entry)) }
{
    let option = Arg::new(alloc, name).long(name).action(ArgAction::Set);
    Ok(command.arg(option)?)
}

/// The command with a flag more, `--name`.
pub(crate) fn with_flag<'a>(
    alloc: Global,
    command: Command<'a>,
    name: &'static str,
) -> Result<Command<'a>, NoMemory>
    ensures { IfOk result (λ more. app_of more ≡ with_flag name.entry.now (app_of command.entry)) }
{
    let flag = Arg::new(alloc, name).long(name).action(ArgAction::SetTrue);
    Ok(command.arg(flag)?)
}

/// The command with an argument more that has to stand there.
pub(crate) fn with_operand<'a>(
    alloc: Global,
    command: Command<'a>,
    name: &'static str,
) -> Result<Command<'a>, NoMemory>
    ensures { IfOk result (λ more. app_of more ≡ with_operand name.entry.now (app_of command.entry)) }
{
    let operand = Arg::new(alloc, name).required(true).action(ArgAction::Set);
    Ok(command.arg(operand)?)
}

/// What clap finds in the arguments; the first is the command's name. `None`: clap refuses them.
pub(crate) fn find<'a>(
    command: Command<'a>,
    arguments: &'a [String],
) -> Result<Option<ArgMatches<'a>>, NoMemory>
    requires { is_simple_and_free (app_of command) ≡ true }
    ensures { IfOk result (λ matches. option_map (λ m. rows_of (found_of m)) matches ≡ found_rows (app_of command.entry) (map string_bytes arguments.entry.now)) }
{
    match command.try_get_matches_from(arguments) {
        Ok(matches) => Ok(Some(matches)),
        Err(error) => match error.kind() {
            ErrorKind::OutOfMemory => Err(NoMemory),
            _ => Ok(None),
        },
    }
}

/// The number of an option, from 1 on: that of its value, or the default where the option isn't there.
pub(crate) fn option_number(
    matches: &ArgMatches<'_>,
    id: &str,
    default: u32,
    most: u32,
) -> Option<u32>
    ensures { result ≡ option_number id.now default most (rows_of (found_of matches.now)) }
{
    match matches.get_str(id) {
        Some(text) => number_up_to(text.as_bytes(), most),
        None => Some(default),
    }
}

/// Whether a flag is there.
pub(crate) fn is_set(matches: &ArgMatches<'_>, id: &str) -> bool
    ensures { result ≡ is_set id.now (rows_of (found_of matches.now)) }
{
    match matches.get_str(id) {
        Some(text) => text == "true",
        None => false,
    }
}
