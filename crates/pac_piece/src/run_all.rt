// The code of a piece: its operations or its records, in order.
ghost use Rattle.std.specs.Prelude.{IfOk, OnOk};
ghost use Rattle.pac_plan.specs.Codes.{code_ops};
ghost use Rattle.pac_piece.specs.Frames.{CanRun, IsFreshFrame, RunsTo, state_seen};
ghost use Rattle.pac_piece.specs.Records.{ChangesOne, ChangesAll};
ghost use Rattle.pac_piece.specs.Sources.{HaveTables};
ghost use Rattle.pac_piece.specs.Values.{CanRunCode, IsOutcomeOver, state_over};
ghost use Rattle.pac_tables.specs.Written.{IsOnce};

use crate::effects::OpEffect;
use crate::frame::{Frame, Outs};
use crate::run_op::{apply, run_op};
use crate::source::RowSource;
use pac_base::{Exact, NoMemory};
use pac_ops::{Change, FlatOp};
use pac_plan::Code;
use pac_value::Env;
use std::alloc::Global;

/// Runs code over its inputs and the rows of a source: what it leaves, and of what it gave so much as is kept. It takes memory for
/// what it writes and gives, not for what it reads.
pub(crate) fn run_code<S: RowSource, K: Outs + Drop>(
    alloc: Global,
    txn: u64,
    code: &Code,
    env: Env,
    outs: K,
    source: &S,
) -> Result<Frame<K>, NoMemory>
    requires can { CanRunCode code.now (state_over env (S.base source.now)) }
    requires there { HaveTables (S.There source.now) (code_ops code.now) }
    ensures { IfOk result (IsOutcomeOver K.Adds txn code.now env (S.base source.now) outs) }
{
    let mut frame = Frame {
        env,
        outs,
        writes: Vec::new(alloc),
        note: None,
    };
    match code {
        Code::Ops(ops) => run_all(alloc, txn, ops.as_slice(), source, &mut frame)?,
        Code::Records(records) => change_all(alloc, records.as_slice(), &mut frame)?,
    }
    Ok(frame)
}

// Runs operations one after another.
fn run_all<S: RowSource, K: Outs>(
    alloc: Global,
    txn: u64,
    ops: &[(u16, FlatOp)],
    source: &S,
    frame: &mut Frame<K>,
) -> Result<(), NoMemory>
    requires fresh { IsFreshFrame frame.old }
    requires can { CanRun ops.now (state_seen (S.base source.now) frame.old) }
    requires there { HaveTables (S.There source.now) ops.now }
    ensures { OnOk result (RunsTo K.Adds (S.base source.now) txn ops.now (state_seen (S.base source.now) frame.old) frame.old.outs frame.new) }
{
    for op in ops {
        run_op(alloc, txn, op, source, frame)?;
    }
    Ok(())
}

// Makes the changes of records one after another.
fn change_all<K: Outs>(
    alloc: Global,
    records: &[Change],
    frame: &mut Frame<K>,
) -> Result<(), NoMemory>
    requires { IsFreshFrame frame.old }
    ensures { OnOk result (ChangesAll K.Adds records.now frame.old frame.new) }
{
    for change in records {
        change_one(alloc, change, frame)?;
    }
    Ok(())
}

// Makes the change of one record.
fn change_one<K: Outs>(alloc: Global, change: &Change, frame: &mut Frame<K>) -> Result<(), NoMemory>
    requires { IsOnce frame.old.writes.items }
    ensures { OnOk result (ChangesOne K.Adds change.now frame.old frame.new) }
{
    match change {
        Change::Put { table, key, row } => {
            let row = row.copy(alloc)?;
            apply(
                Some((*table, *key)),
                OpEffect::Leaves { row: Some(row) },
                frame,
            )
        }
        Change::Delete { table, key } => {
            apply(Some((*table, *key)), OpEffect::Leaves { row: None }, frame)
        }
    }
}
