// The work of a piece, and whether work is a piece's own.
ghost use Rattle.std.specs.Prelude.{◌≡◌, ◌↔◌, ◌<◌, IfOk, IsTrue, length};
ghost use Rattle.std.specs.List.{All};
ghost use Rattle.pac_plan.specs.Codes.{TxnFitsPlan};
ghost use Rattle.pac_core.specs.Takes.{IsWorkOver};

use crate::cells::{are_copies, copies};
use crate::kept_values::KeptValues;
use crate::passing::{code_of, finds, found, is_code_of};
use pac_base::{NoMemory, listed};
use pac_keys::PlanCode;
use pac_ops::{PieceId, Txn};
use pac_piece::Work;
use pac_plan::Shared;
use pac_tables::Rows;
use pac_value::Key;
use std::alloc::Global;

/// The work of a piece.
///
/// # Errors
///
/// [`NoMemory`] where it finds no room.
pub(crate) fn work_of<R: Rows>(
    alloc: Global,
    plan: &Shared<PlanCode>,
    piece: PieceId,
    txn: &Txn,
    kept: &KeptValues,
    cells: &[(u16, Key)],
    rows: &R,
) -> Result<Work, NoMemory>
    requires fits { TxnFitsPlan plan.now txn.now }
    requires block { piece.block < plan.now.blocks }
    requires cells { All (λ a. a.0 < R.tables rows.now) cells.now }
    ensures { IfOk result (IsWorkOver plan.now piece txn.now kept.now cells.now (R.held rows.now)) }
{
    let block = piece.block;
    let code = code_of(alloc, plan, txn, block)?;
    let env = found(alloc, plan, txn, block, kept)?;
    let rows = listed(copies(alloc, cells, rows)?);
    Ok(Work {
        piece,
        code,
        env,
        rows,
    })
}

/// Whether work is that of the piece. Takes no memory. What costs least is compared first.
pub(crate) fn is_work_of<R: Rows>(
    plan: &Shared<PlanCode>,
    piece: PieceId,
    txn: &Txn,
    kept: &KeptValues,
    cells: &[(u16, Key)],
    rows: &R,
    work: &Work,
) -> bool
    requires fits { TxnFitsPlan plan.now txn.now }
    requires block { piece.block < plan.now.blocks }
    requires cells { All (λ a. a.0 < R.tables rows.now) cells.now }
    ensures { IsTrue result ↔ IsWorkOver plan.now piece txn.now kept.now cells.now (R.held rows.now) work.now }
{
    let block = piece.block;
    work.piece == piece
        && finds(plan, txn, block, kept, &work.env)
        && are_copies(cells, rows, work.rows.as_slice())
        && is_code_of(plan, txn, block, work.code.get())
}
