// Records the after-images of transactions while they are executed.
ghost use Rattle.std.specs.Prelude.{◌≡◌, ◌+◌, ◌^◌, ◌<◌, length, map};
ghost use Rattle.std.specs.List.{All, AllByRecursion};
ghost use Rattle.pac_ops.specs.Shapes.{RecordsFit};
ghost use Rattle.pac_types.specs.OperationLimits.{HasFewOperations};
ghost use Rattle.pac_types.specs.Fits.{shape, FitsCatalogue, TxnFits};
ghost use Rattle.pac_serial.specs.Outcomes.{ExecutesAll};
ghost use Rattle.pac_tuple.specs.AfterImages.{all_after_images};
ghost use Rattle.pac_tuple.specs.Laying.{tables_laid, AreLaidWithin};
ghost use Rattle.pac_tuple.specs.Recording.{without_images, OfImages};

use crate::images::{Images, TxnImages};
use pac_base::{NoMemory, listed};
use pac_ops::{Batch, Note};
use pac_serial::{ExecError, RunningTxn, exec_listed};
use pac_tables::Rows;
use pac_types::Catalogue;
use std::alloc::{AllocError, Global};

/// Why the after-images of a batch are not all listed.
#[derive(Drop)]
pub enum ImagesError {
    /// A transaction aborts. The images are those of the transactions before it: it has none.
    Abort { note: Note, images: Images },
    /// An allocation was refused.
    NoMemory,
}

impl From<NoMemory> for ImagesError {
    ghost use Rattle.std.specs.Prelude.{◌≡◌};
    ghost use Rattle.pac_tuple.specs.declared.recording.ImagesError.TheVariants.{NoMemory};

    ghost from_gives = { λ _ error. error ≡ NoMemory };

    fn from(_: NoMemory) -> Self {
        ImagesError::NoMemory
    }
}

impl From<AllocError> for ImagesError {
    ghost use Rattle.std.specs.Prelude.{◌≡◌};
    ghost use Rattle.pac_tuple.specs.declared.recording.ImagesError.TheVariants.{NoMemory};

    ghost from_gives = { λ _ error. error ≡ NoMemory };

    fn from(_: AllocError) -> Self {
        ImagesError::NoMemory
    }
}

/// Executes the transactions of a batch in order, without a limit on rows, up to the first that is refused, and lists the
/// after-images of each. It costs what executing them costs, and a copy of each row that a transaction leaves where it wrote.
///
/// # Errors
///
/// - `NoMemory` where an allocation was refused; and else
/// - `Abort` exactly where serial execution stops, with the transaction that aborts and the after-images of those before it.
///
/// The transactions before the one that is refused stay executed, and it changes nothing.
pub fn images_of<R: Rows>(
    alloc: Global,
    cat: &Catalogue,
    batch: &Batch,
    rows: &mut R,
) -> Result<Images, ImagesError>
    requires few { HasFewOperations cat.now.procs }
    requires fit { AllByRecursion (TxnFits cat.now) batch.now.txns }
    requires rows { FitsCatalogue cat.now (R.tables rows.old) (R.held rows.old) }
    requires numbers { batch.now.first + length batch.now.txns < 2 ^ 64 }
    // The tables are those of serial execution, which stops where this does.
    ensures does { ExecutesAll cat.now.procs batch.now.first batch.now.txns (R.held rows.old) (R.held rows.new) (without_images result) }
    // There is a list for each transaction that was executed: that of its after-images.
    ensures images { OfImages result (λ images. images ≡ all_after_images cat.now.procs batch.now.txns (R.held rows.old)) }
    // Laying them over the tables before gives the tables after.
    ensures laid { OfImages result (λ images. tables_laid (R.held rows.old) images ≡ R.held rows.new) }
    // They have keys and rows of their tables' types.
    ensures records { OfImages result (All (RecordsFit (map shape cat.now.tables))) }
    ensures within { OfImages result (AreLaidWithin (R.tables rows.new)) }
    ensures fits { FitsCatalogue cat.now (R.tables rows.new) (R.held rows.new) }
    ensures tables { R.tables rows.new ≡ R.tables rows.old }
{
    let txns = batch.txns.items();
    let mut running = RunningTxn::new(alloc);
    let mut images = Vec::with_capacity(alloc, txns.len())?;
    for (i, txn) in txns.iter().enumerate() {
        match exec_listed(cat, txn, None, rows, &mut running) {
            Ok(list) => images.push_reserved(TxnImages::of(list)),
            Err(ExecError::Abort { op, reason }) => {
                let note = Note {
                    txn: batch.first + i as u64,
                    op,
                    reason,
                };
                let images = listed(images);
                return Err(ImagesError::Abort { note, images });
            }
            Err(ExecError::NoMemory) => return Err(ImagesError::NoMemory),
            Err(ExecError::Full { .. }) => unreachable!(),
        }
    }
    Ok(listed(images))
}
