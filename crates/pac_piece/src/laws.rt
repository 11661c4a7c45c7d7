// What holds of all work. Each law is a function that does nothing.
ghost use Rattle.std.specs.Prelude.{◌≡◌, ◌≤◌, ℕ, length, Some};
ghost use Rattle.std.specs.FinMap.{empty};
ghost use Rattle.pac_ops.specs.Shapes.{RowsFit};
ghost use Rattle.pac_ops.specs.Operations.{with_values};
ghost use Rattle.pac_plan.specs.Analysis.{HasBlockEdge};
ghost use Rattle.pac_plan.specs.Worlds.{txn_args};
ghost use Rattle.pac_plan.specs.Codes.{TxnFitsPlan, code_in};
ghost use Rattle.pac_tables.specs.Written.{written};
ghost use Rattle.pac_piece.specs.InPlace.{InPlaceIsApply};
ghost use Rattle.pac_piece.specs.Runnable.{IsRunnable, IsRunnableOn};
ghost use Rattle.pac_piece.specs.PieceLaws.{CodeMeansPiece, GivesAsMeant, SameByAccess, WorkMeansPiece, WritesWithinAccess};

use crate::Work;
use pac_ops::Txn;
use pac_plan::{Code, Plan, arguments_are_inputs, is_plan};
use pac_tables::Rows;
use pac_value::Env;

/// The value of work is what the piece means in its plan, on the inputs and the rows that the work has. It writes only at cells
/// that the piece's access modifies.
pub fn work_means_piece()
    ensures meaning { WorkMeansPiece }
    ensures within { WritesWithinAccess }
{}

/// What code leaves is what the piece means in its plan, on any values and rows. It depends on the values of the variables that its
/// operations use and on the rows of the piece's access alone: over other values of other variables, and over tables as over copies
/// of these rows, it leaves the same writes, values and note.
pub fn code_means_piece()
    ensures meaning { CodeMeansPiece }
    ensures by_access { SameByAccess }
{}

/// The values that a piece gives are those that the flat meaning of its operations gives, each as it stands at their end; no other
/// variable has one.
pub fn gives_as_meant()
    ensures { GivesAsMeant }
{}

/// What code leaves where it is run in place is the piece applied to the state of a replay, in its plan.
pub fn in_place_is_apply()
    ensures { InPlaceIsApply }
{}

/// In a block to which no edge leads the work of a transaction's piece is there with its arguments and copies of rows that fit: a law.
pub fn arguments_run(plan: &Plan, txn: &Txn, work: &Work)
    requires fits { TxnFitsPlan plan.now txn.now }
    requires entry { (from : ℕ) → ¬ HasBlockEdge plan.now from work.now.piece.block }
    requires code { work.now.code ≡ code_in plan.now work.now.piece.block txn.now }
    requires env { work.now.env ≡ with_values 0 (txn_args (Some txn.now)) empty }
    requires rows { RowsFit plan.now.tables (written empty work.now.rows) }
    ensures { IsRunnable work.now }
{
    is_plan(plan);
    arguments_are_inputs();
    let _txn = txn;
    let _piece = work.piece;
}

/// In a block to which no edge leads the code of a transaction's piece can be run with its arguments over tables whose rows fit: a
/// law.
pub fn arguments_run_on<R: Rows>(
    plan: &Plan,
    txn: &Txn,
    block: u16,
    code: &Code,
    env: &Env,
    rows: &R,
)
    requires fits { TxnFitsPlan plan.now txn.now }
    requires entry { (from : ℕ) → ¬ HasBlockEdge plan.now from block }
    requires code { code.now ≡ code_in plan.now block txn.now }
    requires env { env.now ≡ with_values 0 (txn_args (Some txn.now)) empty }
    requires rows { RowsFit plan.now.tables (R.held rows.now) }
    requires tables { length plan.now.tables ≤ R.tables rows.now }
    ensures { IsRunnableOn block code.now env.now (R.tables rows.now) (R.held rows.now) }
{
    is_plan(plan);
    arguments_are_inputs();
}
