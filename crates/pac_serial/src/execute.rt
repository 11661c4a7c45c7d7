// Executes transactions.
ghost use Rattle.std.specs.Prelude.{◌≡◌, ◌∷◌, ◌≤◌, [], Ok, OnOk, OnErr, IfOk, length, map, slice_get};
ghost use Rattle.std.specs.FinMap.{empty};
ghost use Rattle.pac_ops.specs.declared.limits.TheConstants.{MAX_OPS};
ghost use Rattle.pac_ops.specs.Shapes.{ChangeFits, RecordsFit};
ghost use Rattle.pac_ops.specs.Transactions.{with_change, with_changes};
ghost use Rattle.pac_types.specs.Execution.{called_at, txn_meaning};
ghost use Rattle.pac_types.specs.OperationLimits.{HasFewOperations};
ghost use Rattle.pac_types.specs.Fits.{shape, FitsCatalogue, FitsCall, TxnFits};
ghost use Rattle.pac_serial.specs.Writes.{image_cell, cells_called, cells_written, after_images};
ghost use Rattle.pac_serial.specs.WriteSets.{as_changed, AreUnmade, ChangesAt};
ghost use Rattle.pac_serial.specs.Outcomes.{Executes, RunsAsMeant, limited};
ghost use Rattle.pac_serial.specs.Transactions.{RunsOver};

use crate::limit::over_limit;
use crate::operation::Halt;
use crate::spare::row_copy;
use crate::statement::exec_block;
use crate::transaction::RunningTxn;
use pac_base::NoMemory;
use pac_ops::{Change, Reason, Records, Txn};
use pac_tables::Rows;
use pac_types::{Catalogue, Table};
use pac_value::Value;
use std::alloc::Global;
use thiserror::Error;

/// What refuses a transaction. The tables are then as they were.
#[derive(Clone, Copy, Debug, PartialEq, Eq, Error)]
pub enum ExecError {
    /// The operation with this number aborts for this reason.
    #[error("operation {op} aborts: {}", .reason.name())]
    Abort { op: u16, reason: Reason },
    /// This table would have more rows than the limit; it is the first of those that would.
    #[error("table {table} would have more rows than the limit")]
    Full { table: u16 },
    /// An allocation was refused.
    #[error("out of memory")]
    NoMemory,
}

impl From<NoMemory> for ExecError {
    ghost use Rattle.std.specs.Prelude.{◌≡◌};
    ghost use Rattle.pac_serial.specs.declared.execute.ExecError.TheVariants.{NoMemory};

    ghost from_gives = { λ _ error. error ≡ NoMemory };

    fn from(_: NoMemory) -> Self {
        ExecError::NoMemory
    }
}

impl From<Halt> for ExecError {
    ghost use Rattle.std.specs.Prelude.{◌≡◌};
    ghost use Rattle.pac_serial.specs.Outcomes.{error_of};

    ghost from_gives = { λ halt error. error ≡ error_of halt };

    fn from(halt: Halt) -> Self {
        match halt {
            Halt::Abort { op, reason } => ExecError::Abort { op, reason },
            Halt::NoMemory => ExecError::NoMemory,
        }
    }
}

// Makes what the transaction has changed, where no table is over the limit then.
fn finish<R: Rows>(limit: Option<u64>, rows: &mut R, txn: &mut RunningTxn) -> Result<(), ExecError>
    requires { AreUnmade (R.tables rows.old) txn.old.write_set }
    ensures does { Executes (limited limit (R.tables rows.old) (Ok (as_changed (R.held rows.old) txn.old.write_set))) (R.held rows.old) (R.held rows.new) result }
    ensures made { OnOk result (R.held rows.new ≡ as_changed (R.held rows.old) txn.old.write_set) }
    ensures kept { OnErr result (R.held rows.new ≡ R.held rows.old) }
    ensures tables { R.tables rows.new ≡ R.tables rows.old }
{
    if let Some(limit) = limit {
        if let Some(table) = over_limit(rows, &txn.write_set, limit) {
            return Err(ExecError::Full { table });
        }
    }
    Ok(txn.write_set.commit(rows)?)
}

// Runs a call in a transaction that is made already. The rows stay as they are.
fn run_call<R: Rows>(
    cat: &Catalogue,
    proc: u16,
    args: &[Value],
    rows: &R,
    txn: &mut RunningTxn,
) -> Result<(), ExecError>
    requires few { HasFewOperations cat.now.procs }
    requires call { FitsCall cat.now.procs proc args.now }
    requires fits { FitsCatalogue cat.now (R.tables rows.now) (R.held rows.now) }
    ensures does { RunsAsMeant (called_at (slice_get cat.now.procs proc) args.now (R.held rows.now)) (as_changed (R.held rows.now) txn.new.write_set) result }
    ensures over { OnOk result (RunsOver cat.now.tables (R.tables rows.now) (R.held rows.now) txn.new.write_set) }
    ensures writes { OnOk result (ChangesAt (cells_called (slice_get cat.now.procs proc) args.now (R.held rows.now)) empty txn.new.write_set) }
{
    let proc = &cat.procs()[usize::from(proc)];
    txn.begin(args)?;
    exec_block(cat.tables(), rows, proc.body.as_slice(), txn)?;
    Ok(())
}

// Executes a call in a transaction that is made already.
fn exec_call<R: Rows>(
    cat: &Catalogue,
    proc: u16,
    args: &[Value],
    limit: Option<u64>,
    rows: &mut R,
    txn: &mut RunningTxn,
) -> Result<(), ExecError>
    requires few { HasFewOperations cat.now.procs }
    requires call { FitsCall cat.now.procs proc args.now }
    requires fits { FitsCatalogue cat.now (R.tables rows.old) (R.held rows.old) }
    ensures does { Executes (limited limit (R.tables rows.old) (called_at (slice_get cat.now.procs proc) args.now (R.held rows.old))) (R.held rows.old) (R.held rows.new) result }
    ensures fits { FitsCatalogue cat.now (R.tables rows.new) (R.held rows.new) }
    ensures tables { R.tables rows.new ≡ R.tables rows.old }
{
    run_call(cat, proc, args, rows, txn)?;
    finish(limit, rows, txn)
}

// Makes a change in a transaction.
fn make<R: Rows>(
    tables: &[Table],
    rows: &R,
    change: &Change,
    txn: &mut RunningTxn,
) -> Result<(), NoMemory>
    requires change { ChangeFits (map shape tables.now) change.now }
    requires over { RunsOver tables.now (R.tables rows.now) (R.held rows.now) txn.old.write_set }
    ensures made { OnOk result (as_changed (R.held rows.now) txn.new.write_set ≡ with_change (as_changed (R.held rows.now) txn.old.write_set) change.now) }
    ensures over { OnOk result (RunsOver tables.now (R.tables rows.now) (R.held rows.now) txn.new.write_set) }
    ensures writes { OnOk result (ChangesAt (image_cell change.now ∷ []) txn.old.write_set txn.new.write_set) }
{
    match change {
        Change::Put { table, key, row } => {
            let row = row_copy(txn.alloc, &mut txn.spare, row)?;
            txn.write_set.change(*table, *key, Some(row))
        }
        Change::Delete { table, key } => txn.write_set.change(*table, *key, None),
    }
}

// Makes the changes of records in a transaction that is made already. The rows stay as they are.
fn run_records<R: Rows>(
    cat: &Catalogue,
    records: &Records,
    rows: &R,
    txn: &mut RunningTxn,
) -> Result<(), ExecError>
    requires records { RecordsFit (map shape cat.now.tables) records.now }
    requires fits { FitsCatalogue cat.now (R.tables rows.now) (R.held rows.now) }
    ensures does { RunsAsMeant (Ok (with_changes (R.held rows.now) records.now)) (as_changed (R.held rows.now) txn.new.write_set) result }
    ensures over { OnOk result (RunsOver cat.now.tables (R.tables rows.now) (R.held rows.now) txn.new.write_set) }
    ensures writes { OnOk result (ChangesAt (map image_cell records.now) empty txn.new.write_set) }
    ensures few { length records.now ≤ MAX_OPS }
{
    let tables = cat.tables();
    let changes = records.items();
    txn.begin(&[])?;
    for change in changes {
        make(tables, rows, change, txn)?;
    }
    Ok(())
}

// Makes the changes of records, unless some table would be over the limit, in a transaction that is made already.
fn exec_records<R: Rows>(
    cat: &Catalogue,
    records: &Records,
    limit: Option<u64>,
    rows: &mut R,
    txn: &mut RunningTxn,
) -> Result<(), ExecError>
    requires records { RecordsFit (map shape cat.now.tables) records.now }
    requires fits { FitsCatalogue cat.now (R.tables rows.old) (R.held rows.old) }
    ensures does { Executes (limited limit (R.tables rows.old) (Ok (with_changes (R.held rows.old) records.now))) (R.held rows.old) (R.held rows.new) result }
    ensures fits { FitsCatalogue cat.now (R.tables rows.new) (R.held rows.new) }
    ensures tables { R.tables rows.new ≡ R.tables rows.old }
{
    run_records(cat, records, rows, txn)?;
    finish(limit, rows, txn)
}

/// Executes a call of one of the catalogue's procedures, unless some table would then have more rows than the limit. It
/// costs what its statements touch: no table is copied, and a cell is looked up among the call's own changes and in the
/// tables. A limit costs a look at the count of each table, and for one close to the limit a look-up of each cell that is changed.
///
/// # Errors
///
/// - `NoMemory` where an allocation was refused, whatever the call means; and else
/// - `Abort` exactly where the call aborts by its meaning.
/// - `Full` exactly where it ends with a table over the limit: the first of them.
///
/// Whatever refuses it, the tables are as they were.
pub fn exec<R: Rows>(
    alloc: Global,
    cat: &Catalogue,
    proc: u16,
    args: &[Value],
    limit: Option<u64>,
    rows: &mut R,
) -> Result<(), ExecError>
    requires few { HasFewOperations cat.now.procs }
    requires call { FitsCall cat.now.procs proc args.now }
    requires fits { FitsCatalogue cat.now (R.tables rows.old) (R.held rows.old) }
    ensures does { Executes (limited limit (R.tables rows.old) (called_at (slice_get cat.now.procs proc) args.now (R.held rows.old))) (R.held rows.old) (R.held rows.new) result }
    ensures fits { FitsCatalogue cat.now (R.tables rows.new) (R.held rows.new) }
    ensures tables { R.tables rows.new ≡ R.tables rows.old }
{
    exec_call(cat, proc, args, limit, rows, &mut RunningTxn::new(alloc))
}

/// Makes the changes of ad hoc records in their order, unless some table would then have more rows than the limit. The
/// rows that are put are copies. It costs what [`exec`] costs.
///
/// # Errors
///
/// - `NoMemory` where an allocation was refused; and else
/// - `Full` exactly where the changes leave a table over the limit: the first of them.
///
/// `Abort` never comes. Whatever refuses the records, the tables are as they were.
pub fn exec_adhoc<R: Rows>(
    alloc: Global,
    cat: &Catalogue,
    records: &Records,
    limit: Option<u64>,
    rows: &mut R,
) -> Result<(), ExecError>
    requires records { RecordsFit (map shape cat.now.tables) records.now }
    requires fits { FitsCatalogue cat.now (R.tables rows.old) (R.held rows.old) }
    ensures does { Executes (limited limit (R.tables rows.old) (Ok (with_changes (R.held rows.old) records.now))) (R.held rows.old) (R.held rows.new) result }
    ensures fits { FitsCatalogue cat.now (R.tables rows.new) (R.held rows.new) }
    ensures tables { R.tables rows.new ≡ R.tables rows.old }
{
    exec_records(cat, records, limit, rows, &mut RunningTxn::new(alloc))
}

/// Executes a transaction, unless some table would then have more rows than the limit. What it needs beside the rows was
/// made before, and serves the next transaction too: so it costs what [`exec`] and [`exec_adhoc`] cost, without that.
///
/// # Errors
///
/// As of [`exec`] for a call, and as of [`exec_adhoc`] for ad hoc records.
///
/// Whatever refuses it, the tables are as they were.
pub fn exec_txn<R: Rows>(
    cat: &Catalogue,
    txn: &Txn,
    limit: Option<u64>,
    rows: &mut R,
    running: &mut RunningTxn,
) -> Result<(), ExecError>
    requires few { HasFewOperations cat.now.procs }
    requires txn { TxnFits cat.now txn.now }
    requires fits { FitsCatalogue cat.now (R.tables rows.old) (R.held rows.old) }
    ensures does { Executes (limited limit (R.tables rows.old) (txn_meaning cat.now.procs txn.now (R.held rows.old))) (R.held rows.old) (R.held rows.new) result }
    ensures fits { FitsCatalogue cat.now (R.tables rows.new) (R.held rows.new) }
    ensures tables { R.tables rows.new ≡ R.tables rows.old }
{
    match txn {
        Txn::Call(call) => exec_call(cat, call.proc, call.args.items(), limit, rows, running),
        Txn::AdHoc { records } => exec_records(cat, records, limit, rows, running),
    }
}

// Runs a transaction. The rows stay as they are.
fn run_txn<R: Rows>(
    cat: &Catalogue,
    txn: &Txn,
    rows: &R,
    running: &mut RunningTxn,
) -> Result<(), ExecError>
    requires few { HasFewOperations cat.now.procs }
    requires txn { TxnFits cat.now txn.now }
    requires fits { FitsCatalogue cat.now (R.tables rows.now) (R.held rows.now) }
    ensures does { RunsAsMeant (txn_meaning cat.now.procs txn.now (R.held rows.now)) (as_changed (R.held rows.now) running.new.write_set) result }
    ensures over { OnOk result (RunsOver cat.now.tables (R.tables rows.now) (R.held rows.now) running.new.write_set) }
    ensures writes { OnOk result (ChangesAt (cells_written cat.now.procs txn.now (R.held rows.now)) empty running.new.write_set) }
    ensures few { OnOk result (length (cells_written cat.now.procs txn.now (R.held rows.now)) ≤ MAX_OPS) }
{
    match txn {
        Txn::Call(call) => run_call(cat, call.proc, call.args.items(), rows, running),
        Txn::AdHoc { records } => run_records(cat, records, rows, running),
    }
}

/// Executes a transaction as [`exec_txn`] does, and lists its after-images: the cells that its executed operations or its
/// records write, each once, ascending, each with the row that it leaves there, or with none, where it deletes. It costs what
/// [`exec_txn`] costs, and a copy of each of these rows.
///
/// # Errors
///
/// As of [`exec_txn`]. Whatever refuses it, the tables are as they were, and nothing is listed.
pub fn exec_listed<R: Rows>(
    cat: &Catalogue,
    txn: &Txn,
    limit: Option<u64>,
    rows: &mut R,
    running: &mut RunningTxn,
) -> Result<Vec<Change>, ExecError>
    requires few { HasFewOperations cat.now.procs }
    requires txn { TxnFits cat.now txn.now }
    requires fits { FitsCatalogue cat.now (R.tables rows.old) (R.held rows.old) }
    ensures does { Executes (limited limit (R.tables rows.old) (txn_meaning cat.now.procs txn.now (R.held rows.old))) (R.held rows.old) (R.held rows.new) result }
    // The list is that of its after-images, which fit the catalogue.
    ensures listed { IfOk result (λ images. images.items ≡ after_images cat.now.procs txn.now (R.held rows.old) (R.held rows.new)) }
    ensures records { IfOk result (λ images. RecordsFit (map shape cat.now.tables) images.items) }
    ensures few { IfOk result (λ images. length images.items ≤ MAX_OPS) }
    ensures fits { FitsCatalogue cat.now (R.tables rows.new) (R.held rows.new) }
    ensures tables { R.tables rows.new ≡ R.tables rows.old }
{
    run_txn(cat, txn, rows, running)?;
    let images = running.write_set.images(running.alloc)?;
    finish(limit, rows, running)?;
    Ok(images)
}
