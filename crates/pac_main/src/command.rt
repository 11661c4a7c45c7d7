// The commands, by the arguments of the command line.
ghost use Rattle.std.specs.Prelude.{◌≡◌, ◌≢◌, ◌↔◌, ◌∷◌, ℕ, [], Bool, ◌+◌};
ghost use Rattle.pac_outside.specs.Content.{GaveAtMost};
ghost use Rattle.pac_main.specs.Commands.{AsksExplain, AsksRecover, AsksRun, AsksStress, IsExplain, IsInit, IsLay, IsRecording, IsRecover, IsReplay, IsRunOf, IsStress, NamesCommand};
ghost use Rattle.pac_main.specs.Explained.{ExplainEnds};
ghost use Rattle.pac_main.specs.Init.{InitEnds};
ghost use Rattle.pac_main.specs.Lay.{LayEnds};
ghost use Rattle.pac_main.specs.Record.{RecordEnds};
ghost use Rattle.pac_main.specs.Recover.{RecoverEnds};
ghost use Rattle.pac_main.specs.Replay.{ReplayEnds};
ghost use Rattle.pac_main.specs.Run.{RunEnds};
ghost use Rattle.pac_main.specs.Stop.{status_of, line_of};
ghost use Rattle.pac_main.specs.Streams.{IsOneOf, IsReported, observed, observed_devices};
ghost use Rattle.pac_main.specs.Stress.{StressEnds};
ghost use Rattle.pac_main.specs.declared.stop.Stop.{Stop as AStop};
ghost use Rattle.pac_run.specs.declared.limits.TheConstants.{MAX_INPUT};
ghost use Rattle.pac_syntax.specs.declared.limits.TheConstants.{MAX_CATALOGUE};

use crate::explain::explain_input;
use crate::init::init_input;
use crate::laying::lay_input;
use crate::recording::record_input;
use crate::recover::recover_devices;
use crate::replay::replay_input;
use crate::reporting::{ArgumentsError, refuse_arguments};
use crate::run::run_devices;
use crate::stress::stress_output;
use pac_arguments::{Command, parse_args};
use pac_base::NoMemory;
use pac_outside::{Devices, Disk, Gate, Sink, Source};
use std::alloc::Global;
use std::sync::Wait;
use std::thread::Threads;

/// Does what the arguments say, and answers the program's exit status.
///
/// - `replay [--workers N] [--rows N]` reads a script from the input, to its end or to 67,108,865 bytes, executes its
///   transactions by N workers, from 1 to 64, or 4, from no rows on, and writes the tables where none has more rows than
///   `--rows` says, or 1,000,000. What it writes doesn't depend on the workers: it is what serial execution gives. Time is near
///   linear in the script and in the operations that its transactions execute.
/// - `replay --images` goes through the same checks, and executes the transactions by one worker. In place of the tables it writes
///   the log of their after-images: the script up to its line `---` and that line's line feed, and then a list for each
///   transaction. A script without that line is written as it is. `lay` reads what it writes.
/// - `lay [--workers N] [--rows N]` reads such a log from the input, to its end or to 67,108,865 bytes, lays its lists over tables
///   without rows by N workers, from 1 to 64, or 4, and writes the tables where none has more rows than `--rows` says, or
///   1,000,000. It executes no procedure. What it writes doesn't depend on the workers.
/// - `explain` and `explain --text` do what [`crate::explain_command`] says.
/// - `init` does what [`crate::init_command`] says.
/// - `recover [--workers N] [--rows N]` reads the devices, executes the stored transactions after the newest slot over that
///   one's tables by N workers, from 1 to 64, or 4, and writes the tables where none has more rows than `--rows` says, or
///   1,000,000. What it writes doesn't depend on the workers. It reads no input, and no device is written or synced. It reads
///   the active segment of the log once, and holds the batches of 4,194,304 bytes of it in memory.
/// - `run [--batch N] [--rows N]` does what [`crate::run_command`] says.
/// - `stress N [--workers W]` makes N transactions of the stress test, from 1 to 100,000, over the catalogue of a bank,
///   executes them from no rows on, in batches of 64, by W workers, from 1 to 64, or 4, and writes a summary: how many
///   transactions and pieces there were, and how many rows each table ends with. What it writes doesn't depend on the workers.
///   It reads no input.
///
/// | status | comes | the error sink takes |
/// |---|---|---|
/// | 0 | else: the output took the dump of a replay, a recovery or a `lay`, or the log of after-images, or the explanation, or the summary, or all replies of a run; or the store is there | nothing |
/// | 1 | exactly where the arguments name no command, unless there was no memory to read them | `usage: pacman init, run, recover, explain, replay, stress or lay` |
/// | 2 | only where the input is no script or no log of after-images, or its catalogue is refused | its first fault: `catalogue AT KIND` where the catalogue's text isn't read, or isn't typed; `operations PROC COUNT` where its operations are too many: the first procedure at which they are, and how many; else, of `replay` alone, `script LINE AT KIND`: the first line that is refused, from 1 on, and its fault; or, of `lay` alone, `image AT KIND`: the first fault of the lists, whose first byte is at 0 |
/// | 3 | only where a device of a store that is to be made has a byte; the first of the two log devices, slot a and slot b | `not empty DEVICE LENGTH` |
/// | 3 | only where the active segment of a store that is to be recovered or run doesn't begin as one | `no store` |
/// | 3 | or where it is damaged: its first damage: of what slot a and slot b begin with, of the active segment, of the rest of the slots, and then of the newest slot's offset in the segment | `damaged DEVICE AT KIND` |
/// | 4 | only where serial execution of the transactions of a replay, or of those that are stored, aborts | `abort TXN OP REASON` |
/// | 5 | only where they, or the lists of a log of after-images, end with a table that has more rows than the limit; the first | `rows TABLE ROWS LIMIT` |
/// | 6 | only where the input's count of faults rose | `input fault` |
/// | 7 | only where the output's count of faults rose; the output took a prefix of its text | `output fault` |
/// | 8 | only where a device's count of faults rose | `disk fault` |
/// | 9 | where an allocation was refused | `no memory` |
/// | 10 | only where the log's segment has no room for a group of a run, with which it would have that many bytes | `log full NEED` |
/// | 11 | only where the input of a replay or of `lay` has more than 67,108,864 bytes, or more are read in a run before a line `stop` | `input too long` |
/// | 12 | only where a slot has no room for a checkpoint of a run, with which it would have that many bytes | `checkpoint too large BYTES` |
///
/// A failing error sink changes no status. One worker of a replay, a recovery or a stress test passes the gate before each
/// piece that it runs, several before each piece that is handed out to one of them.
pub fn pacman<RT: Threads + Wait + Sync, I: Source, O: Sink, E: Sink, D: Disk, G: Gate + Sync>(
    rt: &RT,
    alloc: Global,
    arguments: &[String],
    input: &mut I,
    output: &mut O,
    errors: &mut E,
    devices: &mut Devices<D>,
    gate: &G,
) -> u8
    ensures status { IsOneOf result (0 ∷ 1 ∷ 2 ∷ 3 ∷ 4 ∷ 5 ∷ 6 ∷ 7 ∷ 8 ∷ 9 ∷ 10 ∷ 11 ∷ 12 ∷ []) }

    // Each command ends so, by its status, but for `replay --images` and `lay`, which are tested; where the arguments name none, it is 1.
    ensures usage { result ≢ 9 → (result ≡ 1) ↔ ¬ NamesCommand arguments.now }
    ensures init { IsInit arguments.now → InitEnds result
        (observed I.left I.faults input.old input.new) (observed E.held E.faults errors.old errors.new) (observed_devices D.known D.faults devices.old devices.new) }
    ensures run { (group_size limit : ℕ) → IsRunOf arguments.now group_size limit → RunEnds group_size limit result
        (observed I.left I.faults input.old input.new) (observed O.held O.faults output.old output.new) (observed E.held E.faults errors.old errors.new) (observed_devices D.known D.faults devices.old devices.new) }
    ensures recover { (limit : ℕ) → IsRecover arguments.now limit → RecoverEnds limit result
        (observed_devices D.known D.faults devices.old devices.new) (observed O.held O.faults output.old output.new) (observed E.held E.faults errors.old errors.new) }
    ensures replay { (limit : ℕ) → IsReplay arguments.now limit → ReplayEnds limit result
        (observed I.left I.faults input.old input.new) (observed O.held O.faults output.old output.new) (observed E.held E.faults errors.old errors.new) }
    ensures recording { (limit : ℕ) → IsRecording arguments.now limit → RecordEnds limit result
        (observed I.left I.faults input.old input.new) (observed O.held O.faults output.old output.new) (observed E.held E.faults errors.old errors.new) }
    ensures lay { (limit : ℕ) → IsLay arguments.now limit → LayEnds limit result
        (observed I.left I.faults input.old input.new) (observed O.held O.faults output.old output.new) (observed E.held E.faults errors.old errors.new) }
    ensures stress { (count : ℕ) → IsStress arguments.now count → StressEnds count result (observed O.held O.faults output.old output.new) }
    ensures explain { (with_text : Bool) → IsExplain arguments.now with_text → ExplainEnds with_text result
        (observed I.left I.faults input.old input.new) (observed O.held O.faults output.old output.new) (observed E.held E.faults errors.old errors.new) }

    // But in a run, the output takes something with the statuses 0 and 7 alone. It takes nothing from `init`.
    ensures kept { ¬ AsksRun arguments.now → result ≢ 0 → result ≢ 7 → output.new ≡ output.old }
    ensures silent { IsInit arguments.now → output.new ≡ output.old }

    // The error sink takes the status's line.
    ensures quiet { result ≡ 0 → errors.new ≡ errors.old }
    ensures reported { result ≢ 0 → (stop : AStop) × (result ≡ status_of stop) × IsReported (observed E.held E.faults errors.old errors.new) (line_of stop) }

    // It reads at most one byte more than an input may have, where a catalogue is read at most one more than that may have, and
    // nothing where the arguments are wrong or ask for a recovery or a stress test. No other command calls a device.
    ensures taken { GaveAtMost (MAX_INPUT + 1) (I.left input.old) (I.left input.new) }
    ensures taken_by_init { IsInit arguments.now → GaveAtMost (MAX_CATALOGUE + 1) (I.left input.old) (I.left input.new) }
    ensures taken_by_explain { AsksExplain arguments.now → GaveAtMost (MAX_CATALOGUE + 1) (I.left input.old) (I.left input.new) }
    ensures unread { ¬ NamesCommand arguments.now → input.new ≡ input.old }
    ensures no_input { AsksRecover arguments.now → input.new ≡ input.old }
    ensures no_input_of_stress { AsksStress arguments.now → input.new ≡ input.old }
    ensures devices { ¬ IsInit arguments.now → ¬ AsksRun arguments.now → ¬ AsksRecover arguments.now → devices.new ≡ devices.old }
{
    match parse_args(alloc, arguments) {
        Ok(Some(Command::Init)) => init_input(alloc, input, errors, devices),
        Ok(Some(Command::Run { group_size, rows })) => {
            run_devices(alloc, group_size, rows, input, output, errors, devices)
        }
        Ok(Some(Command::Recover { workers, rows })) => {
            recover_devices(rt, alloc, workers, rows, output, errors, devices, gate)
        }
        Ok(Some(Command::Explain { text })) => explain_input(alloc, text, input, output, errors),
        Ok(
            Some(
                Command::Replay {
                    workers,
                    rows,
                    images,
                },
            ),
        ) => {
            if images {
                record_input(alloc, rows, input, output, errors)
            } else {
                replay_input(rt, alloc, workers, rows, input, output, errors, gate)
            }
        }
        Ok(Some(Command::Lay { workers, rows })) => {
            lay_input(rt, alloc, workers, rows, input, output, errors)
        }
        Ok(Some(Command::Stress { count, workers })) => {
            stress_output(rt, alloc, workers, count, output, errors, gate)
        }
        Ok(None) => refuse_arguments(ArgumentsError::Usage, errors),
        Err(NoMemory) => refuse_arguments(ArgumentsError::NoMemory, errors),
    }
}
