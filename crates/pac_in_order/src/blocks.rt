// The pieces of one transaction.
ghost use Rattle.std.specs.Prelude.{◌≡◌, ◌≤◌, ◌<◌, OnErr, OnOk};
ghost use Rattle.pac_plan.specs.Codes.{TxnFitsPlan, code_in};
ghost use Rattle.pac_piece.specs.InPlace.{IsUndone, after_code};
ghost use Rattle.pac_piece.specs.Runnable.{IsRunnableOn};
ghost use Rattle.pac_in_order.specs.Lines.{IsFirstBlock};

use pac_base::NoMemory;
use pac_keys::PlanCode;
use pac_ops::{PieceId, Txn};
use pac_piece::InPlace;
use pac_tables::Rows;
use std::alloc::Global;

/// The first block from some number on in which a transaction has a piece. Takes no memory.
pub(crate) fn first_block(plan: &PlanCode, txn: &Txn, from: u16) -> Option<u16>
    requires { TxnFitsPlan plan.now txn.now }
    ensures { IsFirstBlock plan.now txn.now from result }
{
    for block in from..plan.plan().blocks() {
        if plan.has_piece(txn, block) {
            return Some(block);
        }
    }
    None
}

/// Runs the piece of a transaction in place. A procedure's code is lent by the plan, that of records is made for the piece.
///
/// # Errors
///
/// [`NoMemory`] where an allocation is refused. The piece is undone.
pub(crate) fn run_piece<R: Rows>(
    alloc: Global,
    plan: &PlanCode,
    txn: &Txn,
    piece: PieceId,
    place: &mut InPlace<R>,
) -> Result<(), NoMemory>
    requires fits { TxnFitsPlan plan.now txn.now }
    requires block { piece.block < plan.now.blocks }
    requires runs { IsRunnableOn piece.block (code_in plan.now piece.block txn.now) place.old.values place.old.count place.old.tables }
    ensures ok { OnOk result (place.new ≡ after_code piece.txn (code_in plan.now piece.block txn.now) place.old) }
    ensures err { OnErr result (IsUndone (code_in plan.now piece.block txn.now) place.old place.new) }
{
    match txn {
        Txn::Call(call) => {
            let code = plan.code(call.proc, piece.block);
            place.run(alloc, piece, code.get())
        }
        Txn::AdHoc { records } => {
            let code = plan.records(alloc, records.items(), piece.block)?;
            place.run(alloc, piece, code.get())
        }
    }
}
