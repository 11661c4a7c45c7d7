// What is kept of a procedure in a block.
ghost use Rattle.std.specs.Prelude.{◌≡◌, ◌<◌, ◌≤◌, length, IfOk};
ghost use Rattle.pac_plan.specs.Codes.{proc_ops};
ghost use Rattle.pac_keys.specs.PlanCodes.{piece_code, ArePiecesOf, AreProcsOf};

use crate::probe::{Probe, probes};
use pac_base::{Exact, Listed, NoMemory, listed};
use pac_ops::FlatOp;
use pac_plan::{Code, Plan, Shared, is_plan};
use std::alloc::Global;

/// The operations of a procedure in a block, and what their access needs of them.
#[derive(Drop)]
pub(crate) struct PieceCode {
    pub(crate) code: Shared<Code>,
    pub(crate) probes: Listed<Probe>,
}

/// The pieces of a procedure, one for each block.
pub(crate) type PieceCodes = Listed<PieceCode>;

/// The pieces of each procedure.
pub(crate) fn procs_of(alloc: Global, plan: &Plan) -> Result<Vec<PieceCodes>, NoMemory>
    ensures size { IfOk result (λ procs. length procs.items ≡ length plan.now.programs) }
    ensures each { IfOk result (λ procs. AreProcsOf plan.now procs.items) }
{
    let mut procs = Vec::new(alloc);
    for proc in 0..plan.procs() {
        procs.push(listed(pieces_of(alloc, plan, proc)?))?;
    }
    Ok(procs)
}

// The pieces of a procedure.
fn pieces_of(alloc: Global, plan: &Plan, proc: u16) -> Result<Vec<PieceCode>, NoMemory>
    requires { proc < length plan.now.programs }
    ensures size { IfOk result (λ pieces. length pieces.items ≡ plan.now.blocks) }
    ensures each { IfOk result (λ pieces. ArePiecesOf plan.now proc pieces.items) }
{
    let mut pieces = Vec::new(alloc);
    for block in 0..plan.blocks() {
        pieces.push(piece_of(alloc, plan, proc, block)?)?;
    }
    Ok(pieces)
}

// A procedure in a block.
fn piece_of(alloc: Global, plan: &Plan, proc: u16, block: u16) -> Result<PieceCode, NoMemory>
    requires { proc < length plan.now.programs }
    ensures { IfOk result (λ piece. piece ≡ piece_code plan.now proc block) }
{
    let ops = ops_in(alloc, plan, proc, block)?;
    let probes = listed(probes(alloc, &ops)?);
    let code = Shared::new(alloc, Code::Ops(listed(ops)))?;
    Ok(PieceCode { code, probes })
}

// Copies of a procedure's operations in a block, with their numbers.
fn ops_in(alloc: Global, plan: &Plan, proc: u16, block: u16) -> Result<Vec<(u16, FlatOp)>, NoMemory>
    requires { proc < length plan.now.programs }
    ensures { IfOk result (λ ops. ops.items ≡ proc_ops plan.now proc block) }
{
    is_plan(plan);
    let ops = plan.program(proc).ops.as_slice();
    let mut found = Vec::new(alloc);
    for at in 0..ops.len() {
        let number = at as u16;
        if plan.block_of(proc, number) == block {
            found.push((number, ops[at].copy(alloc)?))?;
        }
    }
    Ok(found)
}
