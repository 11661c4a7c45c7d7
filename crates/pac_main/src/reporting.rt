// What is reported, and the status after it.
ghost use Rattle.std.specs.Prelude.{◌≡◌, ◌⊎◌, IsTrue, false};
ghost use Rattle.pac_main.specs.Streams.{observed, IsReported};
ghost use Rattle.pac_main.specs.Stop.{status_of, line_of, takes_memory, stop_of_arguments};

use crate::line::status_line;
use crate::stop::Stop;
use pac_outside::{Sink, write_all};
use pac_report::fault_text;
use std::alloc::Global;
use thiserror::Error;

/// Why the arguments of the command line name no command.
#[derive(Clone, Copy, Debug, PartialEq, Eq, Error)]
pub enum ArgumentsError {
    /// They are not the arguments of a command that runs, as where one of them is no text.
    #[error("no command")]
    Usage,
    /// There was no memory to read them.
    #[error("out of memory")]
    NoMemory,
}

impl From<ArgumentsError> for Stop {
    ghost from_gives = { λ error stop. stop ≡ stop_of_arguments error };

    fn from(error: ArgumentsError) -> Self {
        match error {
            ArgumentsError::Usage => Stop::Usage,
            ArgumentsError::NoMemory => Stop::NoMemory,
        }
    }
}

/// Reports what is wrong with the arguments of the command line, and answers the program's exit status. A
/// failing error sink doesn't change it.
pub fn refuse_arguments<E: Sink>(error: ArgumentsError, errors: &mut E) -> u8
    ensures status { result ≡ status_of (stop_of_arguments error) }
    ensures reported { IsReported (observed E.held E.faults errors.old errors.new) (line_of (stop_of_arguments error)) }
{
    report_text(&Stop::from(error), errors);
    Stop::from(error).status()
}

// Reports the stop's line, which is one text.
fn report_text<E: Sink>(stop: &Stop, errors: &mut E)
    requires { takes_memory stop.now ≡ false }
    ensures line { IsReported (observed E.held E.faults errors.old errors.new) (line_of stop.now) }
{
    if let Some(line) = status_line(stop).text() {
        let _ = write_all(errors, line);
    }
}

// Reports the stop's line, which is made, and answers that, or that there was no memory for the line.
fn report_made<E: Sink>(alloc: Global, stop: Stop, errors: &mut E) -> Stop
    ensures which { (result ≡ stop) ⊎ (result ≡ Stop.NoMemory) }
    ensures line { IsReported (observed E.held E.faults errors.old errors.new) (line_of result) }
{
    match fault_text(alloc, &status_line(&stop)) {
        Ok(line) => {
            let _ = write_all(errors, &line);
            stop
        }
        Err(_) => {
            report_text(&Stop::NoMemory, errors);
            Stop::NoMemory
        }
    }
}

/// Reports why the command stopped, and answers that, or that there was no memory for its line.
pub(crate) fn report<E: Sink>(alloc: Global, stop: Stop, errors: &mut E) -> Stop
    ensures which { (result ≡ stop) ⊎ ((result ≡ Stop.NoMemory) × IsTrue (takes_memory stop)) }
    ensures line { IsReported (observed E.held E.faults errors.old errors.new) (line_of result) }
{
    if stop.takes_memory() {
        report_made(alloc, stop, errors)
    } else {
        report_text(&stop, errors);
        stop
    }
}
