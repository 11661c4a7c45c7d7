// The command `replay --images`.
ghost use Rattle.std.specs.Prelude.{◌≡◌, ◌≢◌, ◌≤◌, ◌<◌, ◌+◌, ◌^◌, ℕ, Option, None, IfOk, IfErr, IfSome, OnOk, IsErrOf, Ok, Err, length};
ghost use Rattle.std.specs.FinMap.{empty};
ghost use Rattle.std.specs.List.{All, AllByRecursion};
ghost use Rattle.pac_value.specs.Growth.{Grew};
ghost use Rattle.pac_value.specs.State.{Tables};
ghost use Rattle.pac_ops.specs.declared.note.Note.{Note as ANote};
ghost use Rattle.pac_outside.specs.Content.{GaveAtMost};
ghost use Rattle.pac_types.specs.Execution.{serial};
ghost use Rattle.pac_types.specs.Fits.{FitsCatalogue, TxnFits};
ghost use Rattle.pac_types.specs.OperationLimits.{HasFewOperations};
ghost use Rattle.pac_entry.specs.Entries.{ChangeHasBytes};
ghost use Rattle.pac_script.specs.BatchFits.{BatchesFit, BatchesHaveNumbers};
ghost use Rattle.pac_script.specs.Script.{MarkOf};
ghost use Rattle.pac_restore.specs.Batches.{RunOn, txns_in};
ghost use Rattle.pac_tuple.specs.AfterImages.{all_after_images};
ghost use Rattle.pac_tuple.specs.Images.{AreTxnImages};
ghost use Rattle.pac_main.specs.Causes.{ReplayStops, ScriptStops};
ghost use Rattle.pac_main.specs.Record.{AreListsOf, IsLogOf, RecordEnds, catalogue_part, lists_bytes, lists_of, log_text};
ghost use Rattle.pac_main.specs.Replay.{first_over_in, outcome};
ghost use Rattle.pac_main.specs.Stop.{line_of, status_of};
ghost use Rattle.pac_main.specs.Streams.{IsReported, IsTaken, observed};
ghost use Rattle.pac_main.specs.declared.stop.Stop.{Stop as AStop};
ghost use Rattle.pac_run.specs.declared.limits.TheConstants.{MAX_INPUT};
ghost use Rattle.pac_serial.specs.declared.serial.AllError.TheVariants.{Abort as AbortOf};

use crate::replay::{read_whole, script_in};
use crate::reporting::report;
use crate::stop::Stop;
use pac_base::NoMemory;
use pac_ops::Batch;
use pac_outside::{Sink, Source, write_all};
use pac_restore::test_rows;
use pac_script::{Script, find_mark};
use pac_serial::{AllError, no_rows};
use pac_tables::HashedRows;
use pac_tuple::{Images, ImagesError, images_of, write_images};
use pac_types::Catalogue;
use std::alloc::Global;

// A text up to and with its line `---`, which begins there, and that line's line feed; or all of it.
fn catalogue_part(text: &[u8], mark: Option<usize>) -> &[u8]
    requires { IfSome mark (λ at. at + 3 ≤ length text.now) }
    ensures { result.now ≡ catalogue_part text.now mark }
{
    match mark {
        Some(at) if at + 3 < text.len() => &text[..at + 4],
        _ => text,
    }
}

// A copy of the text's part up to its line `---`.
fn begun(alloc: Global, text: &[u8]) -> Result<Vec<u8>, NoMemory>
    ensures { IfOk result (λ log. (mark : Option ℕ) × MarkOf text.now mark × (log.items ≡ catalogue_part text.now mark)) }
{
    let part = catalogue_part(text, find_mark(text));
    Ok(part.to_vec(alloc)?)
}

// Appends the bytes of all lists.
fn push_lists(out: &mut Vec<u8>, images: &Images) -> Result<(), NoMemory>
    ensures bytes { OnOk result (Grew out.old.items out.new.items (lists_bytes images.now)) }
    ensures lists { OnOk result (All AreTxnImages images.now) }
    ensures form { OnOk result (All (All ChangeHasBytes) images.now) }
{
    for at in 0..images.len() {
        write_images(images, at, out)?;
    }
    Ok(())
}

// Executes the transactions of a batch, and appends the after-images of each.
fn record_batch(
    alloc: Global,
    catalogue: &Catalogue,
    batch: &Batch,
    rows: &mut HashedRows,
    out: &mut Vec<u8>,
) -> Result<(), AllError>
    requires few { HasFewOperations catalogue.now.procs }
    requires fit { AllByRecursion (TxnFits catalogue.now) batch.now.txns }
    requires rows { FitsCatalogue catalogue.now rows.old.tables rows.old.rows }
    requires numbers { batch.now.first + length batch.now.txns < 2 ^ 64 }
    ensures ends { OnOk result (serial catalogue.now.procs batch.now.first batch.now.txns rows.old.rows ≡ Ok rows.new.rows) }
    ensures aborts { (note : ANote) → IsErrOf result (AbortOf note) → serial catalogue.now.procs batch.now.first batch.now.txns rows.old.rows ≡ Err note }
    ensures bytes { OnOk result (Grew out.old.items out.new.items (lists_bytes (all_after_images catalogue.now.procs batch.now.txns rows.old.rows))) }
    ensures lists { OnOk result (AreListsOf catalogue.now.tables (all_after_images catalogue.now.procs batch.now.txns rows.old.rows)) }
    ensures fits { FitsCatalogue catalogue.now rows.new.tables rows.new.rows }
    ensures tables { rows.new.tables ≡ rows.old.tables }
{
    match images_of(alloc, catalogue, batch, rows) {
        Ok(images) => Ok(push_lists(out, &images)?),
        Err(ImagesError::Abort { note, images: _ }) => Err(AllError::Abort(note)),
        Err(ImagesError::NoMemory) => Err(AllError::NoMemory),
    }
}

// Executes batches from no rows on, and appends the after-images of each transaction.
fn record_batches(
    alloc: Global,
    catalogue: &Catalogue,
    batches: &[Batch],
    out: &mut Vec<u8>,
) -> Result<HashedRows, AllError>
    requires few { HasFewOperations catalogue.now.procs }
    requires fit { BatchesFit catalogue.now batches.now }
    requires numbers { BatchesHaveNumbers batches.now }
    requires runs { RunOn 0 batches.now }
    ensures ends { IfOk result (λ rows. serial catalogue.now.procs 1 (txns_in batches.now) empty ≡ Ok rows.rows) }
    ensures aborts { (note : ANote) → IsErrOf result (AbortOf note) → serial catalogue.now.procs 1 (txns_in batches.now) empty ≡ Err note }
    ensures bytes { IfOk result (λ rows. Grew out.old.items out.new.items (lists_bytes (all_after_images catalogue.now.procs (txns_in batches.now) empty))) }
    ensures lists { IfOk result (λ rows. AreListsOf catalogue.now.tables (all_after_images catalogue.now.procs (txns_in batches.now) empty)) }
    ensures tables { IfOk result (λ rows. rows.tables ≡ length catalogue.now.tables) }
{
    let mut rows: HashedRows = no_rows(alloc, catalogue)?;
    for batch in batches {
        record_batch(alloc, catalogue, batch, &mut rows, out)?;
    }
    Ok(rows)
}

// The log of a text that is this script.
fn log_of(alloc: Global, limit: u32, text: &[u8], script: &Script) -> Result<Vec<u8>, Stop>
    requires operations { HasFewOperations script.now.catalogue.procs }
    requires fit { BatchesFit script.now.catalogue script.now.batches }
    requires small { BatchesHaveNumbers script.now.batches }
    requires runs { RunOn 0 script.now.batches }
    ensures log { IfOk result (λ log. (mark : Option ℕ) × MarkOf text.now mark × (log.items ≡ log_text text.now mark script.now)) }
    ensures ends { IfOk result (λ log. (tables : Tables) × (outcome script.now ≡ Ok tables) × (first_over_in limit script.now tables ≡ None)) }
    ensures lists { IfOk result (λ log. AreListsOf script.now.catalogue.tables (lists_of script.now)) }
    ensures stops { IfErr result (ScriptStops limit script.now) }
{
    let mut log = begun(alloc, text)?;
    let rows = record_batches(
        alloc,
        &script.catalogue,
        script.batches.as_slice(),
        &mut log,
    )?;
    test_rows(&script.catalogue, &rows, u64::from(limit))?;
    Ok(log)
}

// Makes the log of the script that the source holds, and writes it.
fn record_script<I: Source, O: Sink>(
    alloc: Global,
    limit: u32,
    input: &mut I,
    output: &mut O,
) -> Result<(), Stop>
    ensures done { OnOk result (IsLogOf limit (I.left input.old) (IsTaken (observed O.held O.faults output.old output.new))) }
    ensures stops { IfErr result (ReplayStops limit (IsLogOf limit (I.left input.old)) (observed I.left I.faults input.old input.new) (observed O.held O.faults output.old output.new)) }
    ensures kept { IfErr result (λ stop. stop ≢ Stop.OutputFault → output.new ≡ output.old) }
    ensures taken { GaveAtMost (MAX_INPUT + 1) (I.left input.old) (I.left input.new) }
{
    let text = read_whole(alloc, input)?;
    let script = script_in(alloc, &text)?;
    let log = log_of(alloc, limit, &text, &script)?;
    Ok(write_all(output, &log)?)
}

/// Makes the log of after-images of the script that the input holds, and reports why where that stops before its end.
pub(crate) fn record_input<I: Source, O: Sink, E: Sink>(
    alloc: Global,
    limit: u32,
    input: &mut I,
    output: &mut O,
    errors: &mut E,
) -> u8
    ensures ends { RecordEnds limit result
        (observed I.left I.faults input.old input.new) (observed O.held O.faults output.old output.new) (observed E.held E.faults errors.old errors.new) }
    ensures kept { result ≢ 0 → result ≢ 7 → output.new ≡ output.old }
    ensures quiet { result ≡ 0 → errors.new ≡ errors.old }
    ensures reported { result ≢ 0 → (stop : AStop) × (result ≡ status_of stop) × IsReported (observed E.held E.faults errors.old errors.new) (line_of stop) }
    ensures taken { GaveAtMost (MAX_INPUT + 1) (I.left input.old) (I.left input.new) }
{
    match record_script(alloc, limit, input, output) {
        Ok(()) => 0,
        Err(stop) => report(alloc, stop, errors).status(),
    }
}
