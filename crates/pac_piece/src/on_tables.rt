// A piece that is run over tables on the spot.
ghost use Rattle.std.specs.Prelude.{IfOk};
ghost use Rattle.pac_tables.specs.Written.{AreWithin};
ghost use Rattle.pac_piece.specs.Runnable.{IsRunnableOn};
ghost use Rattle.pac_piece.specs.Values.{IsEndOver};

use crate::frame::{Frame, NotKept};
use crate::run_all::run_code;
use crate::source::Standing;
use pac_base::NoMemory;
use pac_ops::{Note, PieceId};
use pac_plan::Code;
use pac_tables::{Rows, Writes};
use pac_value::Env;
use std::alloc::Global;

/// What the code of a piece leaves.
#[derive(Drop)]
pub struct PieceOutcome {
    /// The rows that it wrote: one for each cell of its records, and of its operations that modify, were executed and left no
    /// note.
    pub writes: Writes,
    /// All values at its end: those that it began with, and those that its operations gave.
    pub values: Env,
    /// The least note that its operations left, if there is one.
    pub note: Option<Note>,
}

/// Runs a piece over tables as they stand: its operations in order, each over what those before it left. The tables stay as
/// they are, and the writes can be made in them. No row is copied but those that are written.
///
/// # Errors
///
/// [`NoMemory`] where an allocation is refused.
pub fn run_on<R: Rows>(
    alloc: Global,
    piece: PieceId,
    code: &Code,
    env: Env,
    rows: &R,
) -> Result<PieceOutcome, NoMemory>
    requires { IsRunnableOn piece.block code.now env (R.tables rows.now) (R.held rows.now) }
    ensures value { IfOk result (λ outcome. IsEndOver piece.txn code.now env (R.held rows.now) outcome.writes outcome.values outcome.note) }
    ensures within { IfOk result (λ outcome. AreWithin (R.tables rows.now) outcome.writes) }
{
    let Frame {
        env,
        outs: _,
        writes,
        note,
    } = run_code(alloc, piece.txn, code, env, NotKept {}, &Standing { rows })?;
    Ok(PieceOutcome {
        writes: Writes::of(writes),
        values: env,
        note,
    })
}
