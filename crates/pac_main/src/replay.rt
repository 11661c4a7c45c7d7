// The command `replay`.
ghost use Rattle.std.specs.Prelude.{◌≡◌, ◌≢◌, ◌≤◌, ◌+◌, None, IfOk, IfErr, IfSome, OnOk, Ok, length};
ghost use Rattle.pac_outside.specs.Content.{GaveAtMost};
ghost use Rattle.pac_types.specs.OperationLimits.{HasFewOperations};
ghost use Rattle.pac_script.specs.BatchFits.{BatchesFit, BatchesHaveNumbers};
ghost use Rattle.pac_main.specs.Causes.{GivesNoScript, IsNoScript, IsUnread, ReplayStops, ScriptStops};
ghost use Rattle.pac_restore.specs.Batches.{RunOn};
ghost use Rattle.pac_run.specs.declared.limits.TheConstants.{MAX_INPUT};
ghost use Rattle.pac_main.specs.Replay.{IsDumpOf, IsReadAs, IsScriptOf, ReplayEnds, first_over_in, outcome};
ghost use Rattle.pac_main.specs.Stop.{line_of, status_of};
ghost use Rattle.pac_main.specs.Streams.{IsTaken, IsReported, observed};
ghost use Rattle.pac_main.specs.declared.stop.Stop.{Stop as AStop};

use crate::execution::executed;
use crate::input::InputError;
use crate::reporting::report;
use crate::stop::Stop;
use pac_outside::{Gate, Sink, Source, read_up_to, write_all};
use pac_report::dump;
use pac_restore::test_rows;
use pac_run::MAX_INPUT;
use pac_script::{Script, read_script};
use pac_tables::HashedRows;
use pac_types::Catalogue;
use std::alloc::Global;
use std::sync::Wait;
use std::thread::Threads;

/// All that the source holds.
pub(crate) fn read_whole<I: Source>(alloc: Global, input: &mut I) -> Result<Vec<u8>, InputError>
    ensures whole { IfOk result (λ text. IfSome (I.left input.old) (λ all. all ≡ text.items)) }
    ensures short { IfOk result (λ text. length text.items ≤ MAX_INPUT) }
    ensures stops { IfErr result (IsUnread (observed I.left I.faults input.old input.new)) }
    ensures taken { GaveAtMost (MAX_INPUT + 1) (I.left input.old) (I.left input.new) }
{
    let most = MAX_INPUT as usize;
    let text = read_up_to(alloc, input, most)?;
    if text.len() > most {
        return Err(InputError::TooLong);
    }
    Ok(text)
}

// The script that the source holds.
fn read_input<I: Source>(alloc: Global, input: &mut I) -> Result<Script, InputError>
    ensures ok { IfOk result (λ script. IsScriptOf script (I.left input.old)) }
    ensures operations { IfOk result (λ script. HasFewOperations script.catalogue.procs) }
    ensures fit { IfOk result (λ script. BatchesFit script.catalogue script.batches) }
    ensures small { IfOk result (λ script. BatchesHaveNumbers script.batches) }
    ensures runs { IfOk result (λ script. RunOn 0 script.batches) }
    ensures stops { IfErr result (GivesNoScript (observed I.left I.faults input.old input.new)) }
    ensures taken { GaveAtMost (MAX_INPUT + 1) (I.left input.old) (I.left input.new) }
{
    let text = read_whole(alloc, input)?;
    script_in(alloc, &text)
}

/// The script that a text is.
pub(crate) fn script_in(alloc: Global, text: &[u8]) -> Result<Script, InputError>
    requires short { length text.now ≤ MAX_INPUT }
    ensures ok { IfOk result (λ script. IsReadAs text.now (Ok script)) }
    ensures operations { IfOk result (λ script. HasFewOperations script.catalogue.procs) }
    ensures fit { IfOk result (λ script. BatchesFit script.catalogue script.batches) }
    ensures small { IfOk result (λ script. BatchesHaveNumbers script.batches) }
    ensures runs { IfOk result (λ script. RunOn 0 script.batches) }
    ensures stops { IfErr result (IsNoScript text.now) }
{
    Ok(read_script(alloc, text)?)
}

// The catalogue of a script, and the tables with which its transactions end, where these are within the limit.
fn finished<H: Threads + Wait + Sync, G: Gate + Sync>(
    rt: &H,
    alloc: Global,
    workers: u32,
    limit: u32,
    script: Script,
    gate: &G,
) -> Result<(Catalogue, HashedRows), Stop>
    requires workers { 1 ≤ workers }
    requires operations { HasFewOperations script.catalogue.procs }
    requires fit { BatchesFit script.catalogue script.batches }
    requires small { BatchesHaveNumbers script.batches }
    requires runs { RunOn 0 script.batches }
    ensures same { IfOk result (λ end. end.0 ≡ script.catalogue) }
    ensures ends { IfOk result (λ end. outcome script ≡ Ok end.1.rows) }
    ensures within { IfOk result (λ end. first_over_in limit script end.1.rows ≡ None) }
    ensures tables { IfOk result (λ end. end.1.tables ≡ length script.catalogue.tables) }
    ensures stops { IfErr result (ScriptStops limit script) }
{
    let Script { catalogue, batches } = script;
    let rows = executed(rt, alloc, workers, &catalogue, batches, gate)?;
    test_rows(&catalogue, &rows, u64::from(limit))?;
    Ok((catalogue, rows))
}

// Replays the script that the source holds and writes the dump.
fn replay<H: Threads + Wait + Sync, I: Source, O: Sink, G: Gate + Sync>(
    rt: &H,
    alloc: Global,
    workers: u32,
    limit: u32,
    input: &mut I,
    output: &mut O,
    gate: &G,
) -> Result<(), Stop>
    requires workers { 1 ≤ workers }
    ensures done { OnOk result (IsDumpOf limit (I.left input.old) (IsTaken (observed O.held O.faults output.old output.new))) }
    ensures stops { IfErr result (ReplayStops limit (IsDumpOf limit (I.left input.old)) (observed I.left I.faults input.old input.new) (observed O.held O.faults output.old output.new)) }
    ensures kept { IfErr result (λ stop. stop ≢ Stop.OutputFault → output.new ≡ output.old) }
    ensures taken { GaveAtMost (MAX_INPUT + 1) (I.left input.old) (I.left input.new) }
{
    let script = read_input(alloc, input)?;
    let (catalogue, rows) = finished(rt, alloc, workers, limit, script, gate)?;
    let text = dump(alloc, &catalogue, &rows)?;
    Ok(write_all(output, &text)?)
}

/// Replays the script that the input holds, by `workers` workers, and reports why where that stops before its end.
pub(crate) fn replay_input<H: Threads + Wait + Sync, I: Source, O: Sink, E: Sink, G: Gate + Sync>(
    rt: &H,
    alloc: Global,
    workers: u32,
    limit: u32,
    input: &mut I,
    output: &mut O,
    errors: &mut E,
    gate: &G,
) -> u8
    requires workers { 1 ≤ workers }
    ensures ends { ReplayEnds limit result
        (observed I.left I.faults input.old input.new) (observed O.held O.faults output.old output.new) (observed E.held E.faults errors.old errors.new) }
    ensures kept { result ≢ 0 → result ≢ 7 → output.new ≡ output.old }
    ensures quiet { result ≡ 0 → errors.new ≡ errors.old }
    ensures reported { result ≢ 0 → (stop : AStop) × (result ≡ status_of stop) × IsReported (observed E.held E.faults errors.old errors.new) (line_of stop) }
    ensures taken { GaveAtMost (MAX_INPUT + 1) (I.left input.old) (I.left input.new) }
{
    match replay(rt, alloc, workers, limit, input, output, gate) {
        Ok(()) => 0,
        Err(stop) => report(alloc, stop, errors).status(),
    }
}
