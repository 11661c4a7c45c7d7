// A plan with the code of its pieces at hand.
ghost use Rattle.std.specs.Prelude.{◌≡◌, ◌↔◌, ◌<◌, length, IfOk, IsTrue, slice_get, Some};
ghost use Rattle.pac_ops.specs.Shapes.{RecordsFit};
ghost use Rattle.pac_plan.specs.declared.code.Code.TheVariants.{Ops, Records};
ghost use Rattle.pac_plan.specs.Pieces.{access_of, has_ops};
ghost use Rattle.pac_plan.specs.PieceFits.{records_in};
ghost use Rattle.pac_plan.specs.Codes.{TxnFitsPlan, HasTxnInputs, piece_ops, proc_ops, are_bounded};
ghost use Rattle.pac_keys.specs.Interfaces.{IsInterfaceOf};
ghost use Rattle.pac_keys.specs.PlanCodes.{piece_code};

use crate::interface::Interface;
use crate::interfaces::interfaces;
use crate::piece_code::PieceCode;
use crate::plan_ops::PlanOps;
use crate::probe::all_bounded;
use crate::records::{are_records_in, has_record, record_touches, records_in};
use crate::touches::probed;
use crate::weight::has_weight;
use pac_base::{Listed, NoMemory, listed};
use pac_ops::{Change, Txn};
use pac_plan::{Access, Code, Plan, Shared, is_plan};
use pac_value::Env;
use std::alloc::Global;
use std::marker::Model;

/// What depends on a plan alone: the operations of each procedure in each block, what passes between its pieces, and whether
/// one of them is worth handing out. It is made once, and replays may share it. Contracts see it as its plan.
#[derive(Drop)]
pub struct PlanCode {
    ops: PlanOps,
    interfaces: Vec<Listed<Interface>>,
    has_weight: bool,
}

impl Model for PlanCode {
    ghost use Rattle.pac_plan.specs.declared.parts.PlanParts.{PlanParts};
    ghost use Rattle.pac_plan.specs.contracts.parts.PlanParts as coding;
    ghost use Rattle.pac_keys.specs.Interfaces.{AreInterfaces};

    ghost Value = { PlanParts };

    ghost coded = { coding.the_row.coded };

    ghost view = { λ code. code.ops };

    ghost invariant = { λ code. AreInterfaces code.ops code.interfaces.items };
}

impl PlanCode {
    /// The plan with its code. It takes time that grows with the number of blocks times that of all operations, and with
    /// the number of operations that a procedure has in one block times that of all that it has.
    ///
    /// # Errors
    ///
    /// [`NoMemory`] where what is collected finds no room.
    pub fn new(alloc: Global, plan: Plan) -> Result<PlanCode, NoMemory>
        ensures { IfOk result (λ code. code ≡ plan) }
    {
        let ops = PlanOps::new(alloc, plan)?;
        let interfaces = interfaces(alloc, &ops)?;
        let has_weight = has_weight(&ops);
        Ok(PlanCode {
            ops,
            interfaces,
            has_weight,
        })
    }

    /// The plan.
    pub fn plan(&self) -> &Plan
        ensures { result.now ≡ self.now }
    {
        self.ops.plan()
    }

    // What is kept of a procedure in a block.
    fn piece(&self, proc: u16, block: u16) -> &PieceCode
        requires proc { proc < length self.now.programs }
        requires block { block < self.now.blocks }
        ensures { result.now ≡ piece_code self.now proc block }
    {
        self.ops.piece(proc, block)
    }

    /// The values that pass between a procedure's operations in a block and those in others.
    pub fn interface(&self, proc: u16, block: u16) -> &Interface
        requires proc { proc < length self.now.programs }
        requires block { block < self.now.blocks }
        ensures { IsInterfaceOf self.now proc block result.now }
    {
        &self.interfaces[usize::from(proc)].as_slice()[usize::from(block)]
    }

    /// Whether a piece of some call weighs anything. An estimate, with no clause: nothing may rest on it.
    pub fn has_weight(&self) -> bool {
        self.has_weight
    }

    /// The code of a procedure in a block, to be shared.
    pub fn code(&self, proc: u16, block: u16) -> &Shared<Code>
        requires proc { proc < length self.now.programs }
        requires block { block < self.now.blocks }
        ensures { result.now ≡ Ops (proc_ops self.now proc block) }
    {
        &self.piece(proc, block).code
    }

    /// The code of records in a block: copies of those whose tables have it as their home.
    ///
    /// # Errors
    ///
    /// [`NoMemory`] where the code finds no room.
    pub fn records(
        &self,
        alloc: Global,
        records: &[Change],
        block: u16,
    ) -> Result<Shared<Code>, NoMemory>
        requires { RecordsFit self.now.tables records.now }
        ensures { IfOk result (λ code. code ≡ Records (records_in self.now block records.now)) }
    {
        let records = records_in(alloc, self.plan(), records, block)?;
        Shared::new(alloc, Code::Records(listed(records)))
    }

    /// Whether these are the records of the block, in their order. Takes no memory.
    pub fn are_records(&self, records: &[Change], block: u16, own: &[Change]) -> bool
        requires { RecordsFit self.now.tables records.now }
        ensures { IsTrue result ↔ (own.now ≡ records_in self.now block records.now) }
    {
        are_records_in(self.plan(), records, block, own)
    }

    /// Whether a transaction has a piece in a block. Takes no memory, and for an ad hoc transaction time that grows with
    /// the number of its records.
    pub fn has_piece(&self, txn: &Txn, block: u16) -> bool
        requires fits { TxnFitsPlan self.now txn.now }
        requires block { block < self.now.blocks }
        ensures { result ≡ has_ops (piece_ops self.now block txn.now) }
    {
        match txn {
            Txn::Call(call) => self.has_ops(call.proc, block),
            Txn::AdHoc { records } => has_record(self.plan(), records.items(), block),
        }
    }

    // Whether a procedure has an operation in a block.
    fn has_ops(&self, proc: u16, block: u16) -> bool
        requires proc { proc < length self.now.programs }
        requires block { block < self.now.blocks }
        ensures { result ≡ has_ops (proc_ops self.now proc block) }
    {
        !self.ops.ops(proc, block).is_empty()
    }

    /// Whether each key of a procedure's operations in a block is bounded: its variables are parameters, or are defined in
    /// other blocks. Takes no memory.
    pub fn is_bounded(&self, proc: u16, block: u16) -> bool
        requires proc { proc < length self.now.programs }
        requires block { block < self.now.blocks }
        ensures { result ≡ are_bounded (proc_ops self.now proc block) }
    {
        all_bounded(self.piece(proc, block).probes.as_slice())
    }

    /// The rows that a transaction's piece in a block may touch, over an environment that has the piece's inputs as the
    /// transaction leaves them. It takes time that grows with the number of the piece's table operations and their
    /// conditions, or with that of the transaction's records.
    ///
    /// # Errors
    ///
    /// [`NoMemory`] where the touches find no room.
    pub fn access(
        &self,
        alloc: Global,
        txn: &Txn,
        block: u16,
        env: &Env,
    ) -> Result<Access, NoMemory>
        requires fits { TxnFitsPlan self.now txn.now }
        requires block { block < self.now.blocks }
        requires inputs { HasTxnInputs self.now block txn.now env.now }
        ensures { IfOk result (λ access. access ≡ access_of (piece_ops self.now block txn.now) env.now) }
    {
        is_plan(self.plan());
        match txn {
            Txn::Call(call) => {
                let piece = self.piece(call.proc, block);
                probed(alloc, piece.probes.as_slice(), env)
            }
            Txn::AdHoc { records } => {
                let touches = record_touches(alloc, self.plan(), records.items(), block)?;
                Ok(Access::Keys(listed(touches)))
            }
        }
    }
}
