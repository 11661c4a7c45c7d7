// A plan with the code of its pieces.
ghost use Rattle.std.specs.Prelude.{◌≡◌, ◌<◌, length, IfOk};
ghost use Rattle.pac_plan.specs.declared.code.Code.TheVariants.{Ops};
ghost use Rattle.pac_plan.specs.Codes.{proc_ops};
ghost use Rattle.pac_keys.specs.PlanCodes.{piece_code};

use crate::piece_code::{PieceCode, PieceCodes, procs_of};
use pac_base::{Listed, NoMemory, listed};
use pac_ops::FlatOp;
use pac_plan::{Code, Plan, Shared};
use std::alloc::Global;
use std::marker::Model;

/// A plan, with the operations of each procedure in each block collected once. Contracts see the plan.
#[derive(Drop)]
pub(crate) struct PlanOps {
    plan: Plan,
    procs: Listed<PieceCodes>,
}

impl Model for PlanOps {
    ghost use Rattle.pac_plan.specs.declared.parts.PlanParts.{PlanParts};
    ghost use Rattle.pac_plan.specs.contracts.parts.PlanParts as coding;
    ghost use Rattle.pac_keys.specs.PlanCodes.{IsPlanCode};

    ghost Value = { PlanParts };

    ghost coded = { coding.the_row.coded };

    ghost view = { λ ops. ops.plan };

    ghost invariant = { λ ops. IsPlanCode ops.plan ops.procs };
}

impl PlanOps {
    /// The plan with its operations.
    pub(crate) fn new(alloc: Global, plan: Plan) -> Result<PlanOps, NoMemory>
        ensures { IfOk result (λ ops. ops ≡ plan) }
    {
        let procs = listed(procs_of(alloc, &plan)?);
        Ok(PlanOps { plan, procs })
    }

    /// The plan.
    pub(crate) fn plan(&self) -> &Plan
        ensures { result.now ≡ self.now }
    {
        &self.plan
    }

    /// What is kept of a procedure in a block.
    pub(crate) fn piece(&self, proc: u16, block: u16) -> &PieceCode
        requires proc { proc < length self.now.programs }
        requires block { block < self.now.blocks }
        ensures { result.now ≡ piece_code self.now proc block }
    {
        &self.procs.as_slice()[usize::from(proc)].as_slice()[usize::from(block)]
    }

    /// The operations of a procedure in a block.
    pub(crate) fn ops(&self, proc: u16, block: u16) -> &[(u16, FlatOp)]
        requires proc { proc < length self.now.programs }
        requires block { block < self.now.blocks }
        ensures { result.now ≡ proc_ops self.now proc block }
    {
        match self.piece(proc, block).code.get() {
            Code::Ops(ops) => ops.as_slice(),
            Code::Records(_) => unreachable!(),
        }
    }
}
