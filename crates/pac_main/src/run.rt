// The command `run`.
ghost use Rattle.std.specs.Prelude.{◌≡◌, ◌≢◌, ◌≤◌, ◌↔◌, ◌∷◌, ◌+◌, ℕ, []};
ghost use Rattle.pac_ops.specs.declared.limits.TheConstants.{MAX_TXNS};
ghost use Rattle.pac_outside.specs.Content.{GaveAtMost};
ghost use Rattle.pac_check.specs.declared.limits.TheConstants.{MAX_SAVED_ROWS};
ghost use Rattle.pac_main.specs.Commands.{AsksRun, IsRunOf};
ghost use Rattle.pac_main.specs.Run.{RunEnds};
ghost use Rattle.pac_main.specs.Stop.{line_of, status_of};
ghost use Rattle.pac_main.specs.Streams.{IsOneOf, IsReported, observed, observed_devices};
ghost use Rattle.pac_run.specs.declared.limits.TheConstants.{MAX_INPUT};
ghost use Rattle.pac_main.specs.declared.stop.Stop.{Stop as AStop};

use crate::reporting::{ArgumentsError, refuse_arguments, report};
use crate::stop::Stop;
use pac_arguments::{Command, parse_args};
use pac_base::NoMemory;
use pac_outside::{Devices, Disk, Sink, Source};
use pac_run::run;
use std::alloc::Global;

/// Does what the arguments `run [--batch N] [--rows N]` say, and answers the program's exit status: opens the store on the
/// devices, executes the request lines of the input one after another, and commits the transactions in groups of at most
/// `--batch` replies, or 64. The replies of a group are written once it is on the devices. No transaction leaves a table with
/// more rows than `--rows` says, or 1,000,000.
///
/// | status | comes | the error sink takes |
/// |---|---|---|
/// | 0 | else: a line `stop` or the input's end was met, and all replies are written | nothing |
/// | 1 | exactly where the arguments are not `run` with its options, unless there was no memory to read them | the usage |
/// | 3 | only where the active segment of the log doesn't begin as one, or the store is damaged: its first damage | `no store` or `damaged DEVICE AT KIND` |
/// | 4 | only where serial execution of the stored transactions aborts | `abort TXN OP REASON` |
/// | 5 | only where they end with a table that has more rows than the limit; the first | `rows TABLE ROWS LIMIT` |
/// | 6 | only where the input's count of faults rose; the open group is dropped | `input fault` |
/// | 7 | only where the output's count of faults rose | `output fault` |
/// | 8 | only where a device's count of faults rose | `disk fault` |
/// | 9 | where an allocation was refused | `no memory` |
/// | 10 | only where the log's segment has no room for a group, with which it would have that many bytes | `log full NEED` |
/// | 11 | only where more than 67,108,864 bytes are read before a line `stop`; the open group is dropped | `input too long` |
/// | 12 | only where a slot has no room for a checkpoint, with which it would have that many bytes | `checkpoint too large BYTES` |
///
/// Whatever the status, the output takes a prefix of the replies' text, and what it took was on the devices before. A failing
/// error sink changes no status.
pub fn run_command<I: Source, O: Sink, E: Sink, D: Disk>(
    alloc: Global,
    arguments: &[String],
    input: &mut I,
    output: &mut O,
    errors: &mut E,
    devices: &mut Devices<D>,
) -> u8
    ensures status { IsOneOf result (0 ∷ 1 ∷ 3 ∷ 4 ∷ 5 ∷ 6 ∷ 7 ∷ 8 ∷ 9 ∷ 10 ∷ 11 ∷ 12 ∷ []) }
    ensures usage { result ≢ 9 → (result ≡ 1) ↔ ¬ AsksRun arguments.now }
    ensures ends { (group_size limit : ℕ) → IsRunOf arguments.now group_size limit → RunEnds group_size limit result
        (observed I.left I.faults input.old input.new) (observed O.held O.faults output.old output.new) (observed E.held E.faults errors.old errors.new) (observed_devices D.known D.faults devices.old devices.new) }
    ensures quiet { result ≡ 0 → errors.new ≡ errors.old }
    ensures reported { result ≢ 0 → (stop : AStop) × (result ≡ status_of stop) × IsReported (observed E.held E.faults errors.old errors.new) (line_of stop) }
    ensures taken { GaveAtMost (MAX_INPUT + 1) (I.left input.old) (I.left input.new) }
    ensures unread { ¬ AsksRun arguments.now → input.new ≡ input.old }
    ensures silent { ¬ AsksRun arguments.now → output.new ≡ output.old }
    ensures unused { ¬ AsksRun arguments.now → devices.new ≡ devices.old }
{
    match parse_args(alloc, arguments) {
        Ok(Some(Command::Run { group_size, rows })) => {
            run_devices(alloc, group_size, rows, input, output, errors, devices)
        }
        Ok(_) => refuse_arguments(ArgumentsError::Usage, errors),
        Err(NoMemory) => refuse_arguments(ArgumentsError::NoMemory, errors),
    }
}

/// Runs the database over the devices, and reports why where it stops before its end.
pub(crate) fn run_devices<I: Source, O: Sink, E: Sink, D: Disk>(
    alloc: Global,
    group_size: u32,
    limit: u32,
    input: &mut I,
    output: &mut O,
    errors: &mut E,
    devices: &mut Devices<D>,
) -> u8
    requires some { 1 ≤ group_size }
    requires few { group_size ≤ MAX_TXNS }
    requires limit { limit ≤ MAX_SAVED_ROWS }
    ensures ends { RunEnds group_size limit result
        (observed I.left I.faults input.old input.new) (observed O.held O.faults output.old output.new) (observed E.held E.faults errors.old errors.new) (observed_devices D.known D.faults devices.old devices.new) }
    ensures quiet { result ≡ 0 → errors.new ≡ errors.old }
    ensures reported { result ≢ 0 → (stop : AStop) × (result ≡ status_of stop) × IsReported (observed E.held E.faults errors.old errors.new) (line_of stop) }
    ensures taken { GaveAtMost (MAX_INPUT + 1) (I.left input.old) (I.left input.new) }
{
    match run(alloc, group_size, u64::from(limit), input, output, devices) {
        Ok(()) => 0,
        Err(why) => report(alloc, Stop::from(why), errors).status(),
    }
}
