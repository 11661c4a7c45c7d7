// Executes one transaction under a limit of rows.
ghost use Rattle.std.specs.Prelude.{◌≡◌, None as NoTable, Some as ATable, length};
ghost use Rattle.pac_types.specs.Execution.{first_over, txn_meaning};
ghost use Rattle.pac_types.specs.OperationLimits.{HasFewOperations};
ghost use Rattle.pac_types.specs.Fits.{FitsCatalogue, TxnFits};
ghost use Rattle.pac_serial.specs.Outcomes.{Executes, limited};

use pac_base::NoMemory;
use pac_ops::Txn;
use pac_serial::{ExecError, RunningTxn, exec_txn};
use pac_tables::OrderedRows;
use pac_types::Catalogue;

/// Executes a transaction, unless some table would then have more rows than the limit. Whatever refuses it, the tables are
/// as they were.
pub(crate) fn execute(
    cat: &Catalogue,
    txn: &Txn,
    limit: u64,
    rows: &mut OrderedRows,
    running: &mut RunningTxn,
) -> Result<(), ExecError>
    requires operations { HasFewOperations cat.now.procs }
    requires txn { TxnFits cat.now txn.now }
    requires fits { FitsCatalogue cat.now rows.old.tables rows.old.rows }
    requires within { first_over limit (length cat.now.tables) rows.old.rows ≡ NoTable }
    ensures does { Executes (limited (ATable limit) (length cat.now.tables) (txn_meaning cat.now.procs txn.now rows.old.rows)) rows.old.rows rows.new.rows result }
    ensures fits { FitsCatalogue cat.now rows.new.tables rows.new.rows }
    ensures within { first_over limit (length cat.now.tables) rows.new.rows ≡ NoTable }
{
    exec_txn(cat, txn, Some(limit), rows, running)
}
