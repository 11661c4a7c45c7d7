// What executes stored transactions.
ghost use Rattle.std.specs.Prelude.{◌≡◌, ◌+◌, ◌<◌, ◌^◌, IfOk, length};
ghost use Rattle.std.specs.List.{AllByRecursion};
ghost use Rattle.pac_types.specs.Execution.{serial};
ghost use Rattle.pac_types.specs.Fits.{FitsCatalogue, TxnFits};
ghost use Rattle.pac_types.specs.OperationLimits.{HasFewOperations};
ghost use Rattle.pac_restore.specs.Outcomes.{FitsReplayed, outcome_of};

use crate::Execution;
use pac_base::NoMemory;
use pac_ops::Batch;
use pac_tables::{JoinedRows, TableRows};
use pac_types::Catalogue;
use std::alloc::Global;

/// Executes stored transactions.
pub trait Executor {
    /// What a batch gives over tables.
    ///
    /// # Errors
    ///
    /// [`NoMemory`] where an allocation is refused.
    fn execute<T: TableRows>(
        &self,
        alloc: Global,
        cat: &Catalogue,
        batch: &Batch,
        tables: JoinedRows<T>,
    ) -> Result<Execution<T>, NoMemory>
        requires operations { HasFewOperations cat.now.procs }
        requires fit { AllByRecursion (TxnFits cat.now) batch.now.txns }
        requires fits { FitsCatalogue cat.now tables.tables tables.rows }
        requires few { batch.now.first + length batch.now.txns < 2 ^ 64 }
        ensures outcome { IfOk result (λ executed. outcome_of executed ≡ serial cat.now.procs batch.now.first batch.now.txns tables.rows) }
        ensures fits { IfOk result (λ executed. FitsReplayed cat.now executed) };
}
