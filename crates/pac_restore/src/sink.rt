// Who takes the batches of a log.
ghost use Rattle.std.specs.Prelude.{◌≡◌, ◌+◌, ◌<◌, ◌^◌, ◌∷◌, ◌++◌, [], ℕ, List, IfOk, length};
ghost use Rattle.std.specs.List.{AllByRecursion};
ghost use Rattle.pac_ops.specs.declared.batch.Batch.{Batch as ABatch};
ghost use Rattle.pac_types.specs.Fits.{TxnFits};
ghost use Rattle.pac_types.specs.OperationLimits.{HasFewOperations};
ghost use Rattle.pac_types.specs.Typing.{CatalogueState};
ghost use Rattle.pac_restore.specs.Batches.{RunOn, txns_in};
ghost use Rattle.pac_restore.specs.Outcomes.{FitsReplayed, outcome_of, then_serial};

use crate::{Execution, Executor};
use pac_base::NoMemory;
use pac_ops::Batch;
use pac_tables::TableRows;
use pac_types::Catalogue;
use std::alloc::Global;

/// Who takes the batches of a log as they are read, one after another.
pub(crate) trait BatchSink: Drop {
    // Whether batches may be taken of a log with this catalogue.
    ghost takes: { Self → CatalogueState → Type 0 };

    // From one state on, it may have come to another by these batches.
    ghost took: { Self → Self → List ABatch → Type 0 };

    /// Takes a batch.
    ///
    /// # Errors
    ///
    /// [`NoMemory`] where it finds no room.
    fn take(self, batch: Batch) -> Result<Self, NoMemory>
        requires fit { (catalogue : CatalogueState) × takes self catalogue × AllByRecursion (TxnFits catalogue) batch.txns }
        requires few { batch.first + length batch.txns < 2 ^ 64 }
        ensures took { IfOk result (λ after. (start : Self) (taken : List ABatch) → took start self taken → took start after (taken ++ batch ∷ [])) }
        ensures takes { IfOk result (λ after. (catalogue : CatalogueState) → takes self catalogue → takes after catalogue) };
}

/// Lets the batches go.
#[derive(Drop)]
pub(crate) struct Forgetting;

impl BatchSink for Forgetting {
    ghost takes = { λ _ _. Unit {0} };

    ghost took = { λ _ _ _. Unit {0} };

    fn take(self, batch: Batch) -> Result<Self, NoMemory> {
        let _forgotten = batch;
        Ok(self)
    }
}

/// Keeps the batches.
#[derive(Drop)]
pub(crate) struct Collecting {
    pub batches: Vec<Batch>,
}

impl BatchSink for Collecting {
    ghost takes = { λ _ _. Unit {0} };

    ghost took = { λ start now batches. now.batches.items ≡ start.batches.items ++ batches };

    fn take(self, batch: Batch) -> Result<Self, NoMemory> {
        let Collecting { mut batches } = self;
        batches.push(batch)?;
        Ok(Collecting { batches })
    }
}

/// Executes the batches over tables; those after one that aborts are let go.
#[derive(Drop)]
pub(crate) struct Executing<'a, T: TableRows, X: Executor> {
    pub alloc: Global,
    pub catalogue: &'a Catalogue,
    pub executor: &'a X,
    pub executed: Execution<T>,
}

impl<'a, T: TableRows, X: Executor> BatchSink for Executing<'a, T, X> {
    ghost takes = { λ sink catalogue. (sink.catalogue.now ≡ catalogue) × HasFewOperations catalogue.procs × FitsReplayed catalogue sink.executed };

    ghost took = { λ start now batches. (now.catalogue.now ≡ start.catalogue.now)
        × ((before : ℕ) → RunOn before batches → outcome_of now.executed ≡ then_serial start.catalogue.now.procs (before + 1) (txns_in batches) (outcome_of start.executed)) };

    fn take(self, batch: Batch) -> Result<Self, NoMemory> {
        let Executing {
            alloc,
            catalogue,
            executor,
            executed,
        } = self;
        let executed = with_batch(alloc, catalogue, executor, executed, &batch)?;
        Ok(Executing {
            alloc,
            catalogue,
            executor,
            executed,
        })
    }
}

// The same with one batch more, unless one before it aborts.
fn with_batch<T: TableRows, X: Executor>(
    alloc: Global,
    cat: &Catalogue,
    executor: &X,
    executed: Execution<T>,
    batch: &Batch,
) -> Result<Execution<T>, NoMemory>
    requires operations { HasFewOperations cat.now.procs }
    requires fit { AllByRecursion (TxnFits cat.now) batch.now.txns }
    requires fits { FitsReplayed cat.now executed }
    requires few { batch.now.first + length batch.now.txns < 2 ^ 64 }
    ensures outcome { IfOk result (λ after. outcome_of after ≡ then_serial cat.now.procs batch.now.first batch.now.txns (outcome_of executed)) }
    ensures fits { IfOk result (λ after. FitsReplayed cat.now after) }
{
    match executed {
        Execution::Aborted(note) => Ok(Execution::Aborted(note)),
        Execution::Tables(tables) => executor.execute(alloc, cat, batch, tables),
    }
}
