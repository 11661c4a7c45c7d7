// Executes transactions one after another.
ghost use Rattle.std.specs.Prelude.{◌≡◌, ◌+◌, ◌^◌, ◌<◌, length};
ghost use Rattle.std.specs.List.{AllByRecursion};
ghost use Rattle.pac_types.specs.OperationLimits.{HasFewOperations};
ghost use Rattle.pac_types.specs.Fits.{FitsCatalogue, TxnFits};
ghost use Rattle.pac_types.specs.Execution.{serial};
ghost use Rattle.pac_serial.specs.Outcomes.{ExecutesAll};

use crate::execute::{ExecError, exec_txn};
use crate::transaction::RunningTxn;
use pac_base::NoMemory;
use pac_ops::{Batch, Note};
use pac_tables::Rows;
use pac_types::Catalogue;
use std::alloc::Global;
use thiserror::Error;

/// Why the transactions of a batch are not all executed.
#[derive(Clone, Copy, Debug, PartialEq, Eq, Error)]
pub enum AllError {
    /// This transaction aborts.
    #[error("transaction {} aborts", .0.txn)]
    Abort(Note),
    /// An allocation was refused.
    #[error("out of memory")]
    NoMemory,
}

impl From<NoMemory> for AllError {
    ghost use Rattle.std.specs.Prelude.{◌≡◌};
    ghost use Rattle.pac_serial.specs.declared.serial.AllError.TheVariants.{NoMemory};

    ghost from_gives = { λ _ error. error ≡ NoMemory };

    fn from(_: NoMemory) -> Self {
        AllError::NoMemory
    }
}

/// Executes the transactions of a batch in order, without a limit on rows, up to the first that is refused. What one
/// transaction needs beside the rows serves them all.
///
/// # Errors
///
/// - `NoMemory` where an allocation was refused; and else
/// - `Abort` exactly where serial execution stops, with the transaction that aborts.
///
/// The transactions before the one that is refused stay executed, and it changes nothing.
pub fn exec_all<R: Rows>(
    alloc: Global,
    cat: &Catalogue,
    batch: &Batch,
    rows: &mut R,
) -> Result<(), AllError>
    requires few { HasFewOperations cat.now.procs }
    requires fit { AllByRecursion (TxnFits cat.now) batch.now.txns }
    requires rows { FitsCatalogue cat.now (R.tables rows.old) (R.held rows.old) }
    requires numbers { batch.now.first + length batch.now.txns < 2 ^ 64 }
    ensures does { ExecutesAll cat.now.procs batch.now.first batch.now.txns (R.held rows.old) (R.held rows.new) result }
    ensures fits { FitsCatalogue cat.now (R.tables rows.new) (R.held rows.new) }
    ensures tables { R.tables rows.new ≡ R.tables rows.old }
{
    let mut running = RunningTxn::new(alloc);
    for (i, txn) in batch.txns.items().iter().enumerate() {
        match exec_txn(cat, txn, None, rows, &mut running) {
            Ok(()) => {}
            Err(ExecError::Abort { op, reason }) => {
                return Err(AllError::Abort(Note {
                    txn: batch.first + i as u64,
                    op,
                    reason,
                }));
            }
            Err(ExecError::NoMemory) => return Err(AllError::NoMemory),
            Err(ExecError::Full { .. }) => unreachable!(),
        }
    }
    Ok(())
}
