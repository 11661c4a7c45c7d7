//! The arguments of the command line.
//!
//! [`parse_args`] reads them: a [`Command`], which is one of seven commands with its numbers, or nothing where the arguments
//! are no command.
//!
//! ```
//! use pac_arguments::parse_args;
//!
//! let mut arguments = Vec::new(alloc);
//! arguments.push(String::from_str(alloc, "recover")?)?;
//! let command = parse_args(alloc, &arguments)?; // Some(Command::Recover { workers: 4, rows: 1_000_000 })
//! ```
//!
//! The first argument is the command's name. Those after it are parsed by `clap`, as a simple command of that name
//! without help and version: what is found and what is refused is what `clap` states of it (`specs/Found.antt`,
//! `specs/Commands.antt`). A number is one to eight decimal digits, from 1 to its limit (`specs/Numbers.antt`).
//! [`spelled_law`] says what some command lines mean, by the definitions alone.
#![tactic(auto)]

mod command;
mod found;
mod limits;
mod number;

pub use command::{Command, parse_args, spelled_law};
pub use limits::{MAX_GROUP_SIZE, MAX_ROWS, MAX_STRESS, MAX_WORKERS};
