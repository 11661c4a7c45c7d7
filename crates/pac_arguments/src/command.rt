// What the arguments of the command line say is to be done.
ghost use Rattle.std.specs.Prelude.{◌≡◌, ◌∷◌, [], codes, true, false, IfOk, Some, None, map, option_map};
ghost use Rattle.std.specs.String.{string_bytes};
ghost use Rattle.clap.specs.Words.{rows_of, found_of};
ghost use Rattle.pac_arguments.specs.Found.{found_rows};
ghost use Rattle.pac_arguments.specs.Commands.{command_of, command_named, with_two, group_size_in, rows_in, workers_in, count_in, init_app, explain_app, replay_app, stress_app, init_said, run_said, recover_said, explain_said, replay_said, stress_said, lay_said, run_of, recover_of, replay_of, stress_of, lay_of};

use crate::found::{find, is_set, option_number, plain_app, with_flag, with_operand, with_option};
use crate::limits::{
    DEFAULT_GROUP_SIZE, DEFAULT_ROWS, DEFAULT_WORKERS, MAX_GROUP_SIZE, MAX_ROWS, MAX_STRESS,
    MAX_WORKERS,
};
use clap::ArgMatches;
use pac_base::NoMemory;
use std::alloc::Global;

/// What the program is to do: a command with its numbers. `rows` is the limit on the rows of a table.
#[derive(Clone, Copy, Debug, PartialEq, Eq)]
pub enum Command {
    /// `init`
    Init,
    /// `run [--batch N] [--rows N]`: groups of at most N replies, and the limit of rows.
    Run {
        group_size: u32,
        rows: u32,
    },
    /// `recover [--workers N] [--rows N]`
    Recover {
        workers: u32,
        rows: u32,
    },
    /// `explain [--text]`: whether the catalogue's text comes first.
    Explain {
        text: bool,
    },
    /// `replay [--workers N] [--rows N] [--images]`: whether the log of after-images is written in place of the tables.
    Replay {
        workers: u32,
        rows: u32,
        images: bool,
    },
    /// `stress N [--workers N]`: that many transactions.
    Stress {
        count: u32,
        workers: u32,
    },
    /// `lay [--workers N] [--rows N]`
    Lay {
        workers: u32,
        rows: u32,
    },
}

fn group_size_in(matches: &ArgMatches<'_>) -> Option<u32>
    ensures { result ≡ group_size_in (rows_of (found_of matches.now)) }
{
    option_number(matches, "batch", DEFAULT_GROUP_SIZE, MAX_GROUP_SIZE)
}

fn rows_in(matches: &ArgMatches<'_>) -> Option<u32>
    ensures { result ≡ rows_in (rows_of (found_of matches.now)) }
{
    option_number(matches, "rows", DEFAULT_ROWS, MAX_ROWS)
}

fn workers_in(matches: &ArgMatches<'_>) -> Option<u32>
    ensures { result ≡ workers_in (rows_of (found_of matches.now)) }
{
    option_number(matches, "workers", DEFAULT_WORKERS, MAX_WORKERS)
}

// The argument has to stand there, so no default is ever taken.
fn count_in(matches: &ArgMatches<'_>) -> Option<u32>
    ensures { result ≡ count_in (rows_of (found_of matches.now)) }
{
    option_number(matches, "count", 0, MAX_STRESS)
}

// What clap finds in the arguments of a command with two options.
fn find_two<'a>(
    alloc: Global,
    name: &'static str,
    first: &'static str,
    second: &'static str,
    arguments: &'a [String],
) -> Result<Option<ArgMatches<'a>>, NoMemory>
    ensures { IfOk result (λ matches. option_map (λ m. rows_of (found_of m)) matches ≡ found_rows (with_two name.entry.now first.entry.now second.entry.now) (map string_bytes arguments.entry.now)) }
{
    let command = with_option(alloc, plain_app(alloc, name), first)?;
    find(with_option(alloc, command, second)?, arguments)
}

fn find_init<'a>(alloc: Global, arguments: &'a [String]) -> Result<Option<ArgMatches<'a>>, NoMemory>
    ensures { IfOk result (λ matches. option_map (λ m. rows_of (found_of m)) matches ≡ found_rows init_app (map string_bytes arguments.entry.now)) }
{
    find(plain_app(alloc, "init"), arguments)
}

fn find_explain<'a>(
    alloc: Global,
    arguments: &'a [String],
) -> Result<Option<ArgMatches<'a>>, NoMemory>
    ensures { IfOk result (λ matches. option_map (λ m. rows_of (found_of m)) matches ≡ found_rows explain_app (map string_bytes arguments.entry.now)) }
{
    find(
        with_flag(alloc, plain_app(alloc, "explain"), "text")?,
        arguments,
    )
}

fn find_replay<'a>(
    alloc: Global,
    arguments: &'a [String],
) -> Result<Option<ArgMatches<'a>>, NoMemory>
    ensures { IfOk result (λ matches. option_map (λ m. rows_of (found_of m)) matches ≡ found_rows replay_app (map string_bytes arguments.entry.now)) }
{
    let with_workers = with_option(alloc, plain_app(alloc, "replay"), "workers")?;
    let command = with_option(alloc, with_workers, "rows")?;
    find(with_flag(alloc, command, "images")?, arguments)
}

fn find_stress<'a>(
    alloc: Global,
    arguments: &'a [String],
) -> Result<Option<ArgMatches<'a>>, NoMemory>
    ensures { IfOk result (λ matches. option_map (λ m. rows_of (found_of m)) matches ≡ found_rows stress_app (map string_bytes arguments.entry.now)) }
{
    let command = with_operand(alloc, plain_app(alloc, "stress"), "count")?;
    find(with_option(alloc, command, "workers")?, arguments)
}

fn init(alloc: Global, arguments: &[String]) -> Result<Option<Command>, NoMemory>
    ensures { IfOk result (λ command_of. command_of ≡ init_said (map string_bytes arguments.now)) }
{
    match find_init(alloc, arguments)? {
        Some(_) => Ok(Some(Command::Init)),
        None => Ok(None),
    }
}

fn run_of(matches: &ArgMatches<'_>) -> Option<Command>
    ensures { result ≡ run_of (rows_of (found_of matches.now)) }
{
    let group_size = group_size_in(matches)?;
    let rows = rows_in(matches)?;
    Some(Command::Run { group_size, rows })
}

fn run(alloc: Global, arguments: &[String]) -> Result<Option<Command>, NoMemory>
    ensures { IfOk result (λ command_of. command_of ≡ run_said (map string_bytes arguments.now)) }
{
    match find_two(alloc, "run", "batch", "rows", arguments)? {
        Some(matches) => Ok(run_of(&matches)),
        None => Ok(None),
    }
}

fn recover_of(matches: &ArgMatches<'_>) -> Option<Command>
    ensures { result ≡ recover_of (rows_of (found_of matches.now)) }
{
    let workers = workers_in(matches)?;
    let rows = rows_in(matches)?;
    Some(Command::Recover { workers, rows })
}

fn recover(alloc: Global, arguments: &[String]) -> Result<Option<Command>, NoMemory>
    ensures { IfOk result (λ command_of. command_of ≡ recover_said (map string_bytes arguments.now)) }
{
    match find_two(alloc, "recover", "workers", "rows", arguments)? {
        Some(matches) => Ok(recover_of(&matches)),
        None => Ok(None),
    }
}

fn explain(alloc: Global, arguments: &[String]) -> Result<Option<Command>, NoMemory>
    ensures { IfOk result (λ command_of. command_of ≡ explain_said (map string_bytes arguments.now)) }
{
    match find_explain(alloc, arguments)? {
        Some(matches) => Ok(Some(Command::Explain {
            text: is_set(&matches, "text"),
        })),
        None => Ok(None),
    }
}

fn replay_of(matches: &ArgMatches<'_>) -> Option<Command>
    ensures { result ≡ replay_of (rows_of (found_of matches.now)) }
{
    let workers = workers_in(matches)?;
    let rows = rows_in(matches)?;
    let images = is_set(matches, "images");
    Some(Command::Replay {
        workers,
        rows,
        images,
    })
}

fn replay(alloc: Global, arguments: &[String]) -> Result<Option<Command>, NoMemory>
    ensures { IfOk result (λ command_of. command_of ≡ replay_said (map string_bytes arguments.now)) }
{
    match find_replay(alloc, arguments)? {
        Some(matches) => Ok(replay_of(&matches)),
        None => Ok(None),
    }
}

fn stress_of(matches: &ArgMatches<'_>) -> Option<Command>
    ensures { result ≡ stress_of (rows_of (found_of matches.now)) }
{
    let count = count_in(matches)?;
    let workers = workers_in(matches)?;
    Some(Command::Stress { count, workers })
}

fn stress(alloc: Global, arguments: &[String]) -> Result<Option<Command>, NoMemory>
    ensures { IfOk result (λ command_of. command_of ≡ stress_said (map string_bytes arguments.now)) }
{
    match find_stress(alloc, arguments)? {
        Some(matches) => Ok(stress_of(&matches)),
        None => Ok(None),
    }
}

fn lay_of(matches: &ArgMatches<'_>) -> Option<Command>
    ensures { result ≡ lay_of (rows_of (found_of matches.now)) }
{
    let workers = workers_in(matches)?;
    let rows = rows_in(matches)?;
    Some(Command::Lay { workers, rows })
}

fn lay(alloc: Global, arguments: &[String]) -> Result<Option<Command>, NoMemory>
    ensures { IfOk result (λ command_of. command_of ≡ lay_said (map string_bytes arguments.now)) }
{
    match find_two(alloc, "lay", "workers", "rows", arguments)? {
        Some(matches) => Ok(lay_of(&matches)),
        None => Ok(None),
    }
}

// What the arguments say is to be done, where this is the first of them.
fn command_named(
    alloc: Global,
    name: &str,
    arguments: &[String],
) -> Result<Option<Command>, NoMemory>
    ensures { IfOk result (λ said. said ≡ command_named name.now (map string_bytes arguments.now)) }
{
    match name {
        "init" => init(alloc, arguments),
        "run" => run(alloc, arguments),
        "recover" => recover(alloc, arguments),
        "explain" => explain(alloc, arguments),
        "replay" => replay(alloc, arguments),
        "stress" => stress(alloc, arguments),
        "lay" => lay(alloc, arguments),
        _ => Ok(None),
    }
}

/// What the arguments after the program's name say is to be done; `None` where they are no command. An option's value is the
/// next argument, or stands after `=`, and a number is one to eight decimal digits, from 1 up to its limit.
///
/// # Errors
///
/// `NoMemory` alone: it is never reported as arguments that are no command.
pub fn parse_args(alloc: Global, arguments: &[String]) -> Result<Option<Command>, NoMemory>
    ensures { IfOk result (λ said. said ≡ command_of (map string_bytes arguments.now)) }
{
    match arguments {
        [] => Ok(None),
        [name, ..] => command_named(alloc, name.as_str(), arguments),
    }
}

/// What the arguments of some command lines say, by the definitions alone.
pub fn spelled_law()
    ensures both { command_of (codes "run" ∷ codes "--rows=2" ∷ []) ≡ command_of (codes "run" ∷ codes "--rows" ∷ codes "2" ∷ []) }
    ensures value { command_of (codes "run" ∷ codes "--rows=2" ∷ []) ≡ Some (Command.Run 64 2) }
    ensures none { command_of (codes "recover" ∷ []) ≡ Some (Command.Recover 4 1000000) }
    ensures again { command_of (codes "run" ∷ codes "--rows" ∷ codes "2" ∷ codes "--rows" ∷ codes "3" ∷ []) ≡ None }
    ensures count { command_of (codes "stress" ∷ codes "--workers=2" ∷ codes "8" ∷ []) ≡ Some (Command.Stress 8 2) }
    ensures missing { command_of (codes "stress" ∷ []) ≡ None }
    ensures help { command_of (codes "run" ∷ codes "--help" ∷ []) ≡ None }
    ensures init { command_of (codes "init" ∷ []) ≡ Some Command.Init }
    ensures more { command_of (codes "init" ∷ codes "here" ∷ []) ≡ None }
    ensures plain { command_of (codes "explain" ∷ []) ≡ Some (Command.Explain false) }
    ensures text { command_of (codes "explain" ∷ codes "--text" ∷ []) ≡ Some (Command.Explain true) }
    ensures replay { command_of (codes "replay" ∷ []) ≡ Some (Command.Replay 4 1000000 false) }
    ensures images { command_of (codes "replay" ∷ codes "--images" ∷ codes "--rows=2" ∷ []) ≡ Some (Command.Replay 4 2 true) }
    ensures lay { command_of (codes "lay" ∷ codes "--workers" ∷ codes "16" ∷ []) ≡ Some (Command.Lay 16 1000000) }
{}
