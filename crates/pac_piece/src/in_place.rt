// Tables over which pieces run in place.
ghost use Rattle.std.specs.Prelude.{◌≡◌, ◌<◌, ◌^◌, None, Some, OnErr, OnOk, length};
ghost use Rattle.std.specs.FinMap.{empty};
ghost use Rattle.pac_ops.specs.Operations.{with_values};
ghost use Rattle.pac_plan.specs.Codes.{code_ops};
ghost use Rattle.pac_plan.specs.Worlds.{txn_args};
ghost use Rattle.pac_piece.specs.InPlace.{IsAtRest, IsUndone, RunsHere, StopsHere, after_code, state_here};
ghost use Rattle.pac_piece.specs.Runnable.{IsRunnableOn};
ghost use Rattle.pac_piece.specs.Sources.{HaveTables};
ghost use Rattle.pac_piece.specs.Values.{CanRunCode};

use crate::frame::{Frame, NotKept};
use crate::ground::{Ground, settle, undo};
use crate::run_here::run_code_here;
use pac_base::NoMemory;
use pac_ops::{Note, PieceId, Txn};
use pac_plan::Code;
use pac_tables::Rows;
use pac_value::{Env, Value};
use std::alloc::Global;
use std::marker::Model;

/// Tables over which pieces run in place, one after another, with the values of the transaction that runs and the least note so
/// far. A row that is read or put costs one look-up, one that is set or deleted two, and no row is copied but those that are
/// written. Contracts see a `Place`.
#[derive(Drop)]
pub struct InPlace<R: Rows> {
    ground: Ground<R>,
}

impl<R: Rows> Model for InPlace<R> {
    ghost use Rattle.pac_piece.specs.InPlace.{IsAtRest, Place, place_code};

    ghost Value = { Place };

    ghost coded = { place_code };

    ghost view = { λ place. record { count = R.tables place.ground.rows; tables = R.held place.ground.rows; values = place.ground.frame.env; note = place.ground.frame.note } };

    ghost invariant = { λ place. IsAtRest place.ground };
}

impl<R: Rows> InPlace<R> {
    /// Tables, with no transaction begun and no note. Takes no memory.
    pub fn new(alloc: Global, rows: R) -> InPlace<R>
        ensures { result ≡ record { count = R.tables rows; tables = R.held rows; values = empty; note = None } }
    {
        InPlace {
            ground: Ground {
                rows,
                frame: Frame {
                    env: Env::new(alloc),
                    outs: NotKept {},
                    writes: Vec::new(alloc),
                    note: None,
                },
                olds: Vec::new(alloc),
            },
        }
    }

    /// A transaction begins: the values are its arguments.
    ///
    /// # Errors
    ///
    /// [`NoMemory`] where they find no room. Tables and note are as before.
    pub fn begin(&mut self, txn: &Txn) -> Result<(), NoMemory>
        ensures ok { OnOk result (self.new ≡ record self.old { values = with_values 0 (txn_args (Some txn.now)) empty }) }
        ensures err { OnErr result (self.new ≡ record self.old { values = self.new.values }) }
    {
        let values = &mut self.ground.frame.env;
        values.clear();
        match txn {
            Txn::Call(call) => set_numbered(values, call.args.items()),
            Txn::AdHoc { .. } => Ok(()),
        }
    }

    /// Runs a piece of the transaction that was begun: its operations in order, each over what those before it left.
    ///
    /// # Errors
    ///
    /// [`NoMemory`] where an allocation is refused. The piece is undone, which takes no memory: tables and note are as before. Of
    /// the values those may stand that its first operations gave; run again it gives the same.
    pub fn run(&mut self, alloc: Global, piece: PieceId, code: &Code) -> Result<(), NoMemory>
        requires { IsRunnableOn piece.block code.now self.old.values self.old.count self.old.tables }
        ensures ok { OnOk result (self.new ≡ after_code piece.txn code.now self.old) }
        ensures err { OnErr result (IsUndone code.now self.old self.new) }
    {
        run_piece(alloc, piece.txn, code, &mut self.ground)
    }

    /// The tables, as they stand.
    pub fn rows(&self) -> &R
        ensures rows { R.held result.now ≡ self.now.tables }
        ensures tables { R.tables result.now ≡ self.now.count }
    {
        &self.ground.rows
    }

    /// The least note so far. Takes no memory.
    pub fn note(&self) -> Option<Note>
        ensures { result ≡ self.now.note }
    {
        self.ground.frame.note
    }

    /// The tables and the least note.
    pub fn into_parts(self) -> (R, Option<Note>)
        ensures rows { R.held result.0 ≡ self.tables }
        ensures tables { R.tables result.0 ≡ self.count }
        ensures note { result.1 ≡ self.note }
    {
        let InPlace { ground } = self;
        let Ground {
            rows,
            frame,
            olds: _,
        } = ground;
        (rows, frame.note)
    }
}

// The values of the variables from number 0 on.
fn set_numbered(env: &mut Env, values: &[Value]) -> Result<(), NoMemory>
    requires few { length values.now < 2 ^ 16 }
    requires none { env.old ≡ empty }
    ensures { OnOk result (env.new ≡ with_values 0 values.now empty) }
{
    for i in 0..values.len() {
        env.set(i as u16, &values[i])?;
    }
    Ok(())
}

// Runs a piece, and undoes it where an allocation is refused.
fn run_piece<R: Rows>(
    alloc: Global,
    txn: u64,
    code: &Code,
    ground: &mut Ground<R>,
) -> Result<(), NoMemory>
    requires rest { IsAtRest ground.old }
    requires can { CanRunCode code.now (state_here R.held ground.old) }
    requires there { HaveTables (λ t. t < R.tables ground.old.rows) (code_ops code.now) }
    ensures rest { IsAtRest ground.new }
    ensures tables { R.tables ground.new.rows ≡ R.tables ground.old.rows }
    ensures ok { OnOk result (RunsHere R.held txn (code_ops code.now) ground.old ground.new) }
    ensures values { OnErr result (StopsHere R.held (code_ops code.now) ground.old ground.new) }
    ensures same { OnErr result ((R.held ground.new.rows ≡ R.held ground.old.rows) × (ground.new.frame.note ≡ ground.old.frame.note)) }
{
    let note = ground.frame.note;
    match run_code_here(alloc, txn, code, ground) {
        Ok(()) => {
            settle(ground);
            Ok(())
        }
        Err(NoMemory) => {
            undo(ground);
            ground.frame.note = note;
            Err(NoMemory)
        }
    }
}
