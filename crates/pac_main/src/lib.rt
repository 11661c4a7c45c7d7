//! The program: its top call, generic over the outside.
//!
//! - [`pacman`]: does what the arguments of the command line say, and returns the exit status.
//! - [`init_command`], [`run_command`], [`explain_command`]: one command alone.
//! - [`refuse_arguments`]: the exit status for arguments that couldn't be read.
//! - [`recovery_is_exact`]: the law over a new store, any number of runs on it, each begun on what a crash or a kill left,
//!   and what is recovered after them. [`a_new_store_stands_for_none`], [`a_run_is_of_a_life`],
//!   [`runs_keep_what_is_acknowledged`] and [`recover_gives_what_is_acknowledged`] are its parts.
//!   [`cuts_and_kills_are_found`]: what a power cut or a kill leaves is what a run may begin on.
//! - [`a_log_gives_the_dump_of_its_script`]: the law over the two logs, that what `replay --images` writes of a script is a log of
//!   which `lay` writes the dump that `replay` writes of the script.
//!
//! ```
//! use pac_main::pacman;
//! use pac_outside::OpenGate;
//!
//! let status = pacman(rt, alloc, &arguments, input, output, errors, devices, &OpenGate);
//! ```
//!
//! Each command is a file of its own. `specs/` defines what the calls do: `Commands` (what the arguments mean, and
//! which commands run), `Init`, `Run`, `Recover`, `Replay`, `Record`, `Lay`, `Explained` and `Stress` (how each command ends,
//! by its status), `Streams` (what is observed of streams and devices) and `Stop` (the exit statuses and their lines).
#![tactic(auto)]

mod command;
mod execution;
mod explain;
mod explanation;
mod image_log;
mod init;
mod input;
mod laws;
mod laying;
mod line;
mod recording;
mod recover;
mod replay;
mod reporting;
mod run;
mod stop;
mod stress;

pub use command::pacman;
pub use explain::explain_command;
pub use init::init_command;
pub use laws::{
    a_log_gives_the_dump_of_its_script, a_new_store_stands_for_none, a_run_is_of_a_life,
    cuts_and_kills_are_found, recover_gives_what_is_acknowledged, recovery_is_exact,
    runs_keep_what_is_acknowledged,
};
pub use reporting::{ArgumentsError, refuse_arguments};
pub use run::run_command;
