// Collects the interfaces of a plan's procedures.
ghost use Rattle.std.specs.Prelude.{◌≡◌, ◌<◌, ◌==◌, ◌&&◌, not, length, filter, IfOk, OnOk};
ghost use Rattle.pac_ops.specs.Effects.{used_in, defined_in, is_var};
ghost use Rattle.pac_ops.specs.Uses.{defined_variable};
ghost use Rattle.pac_plan.specs.Codes.{proc_ops};
ghost use Rattle.pac_keys.specs.Interfaces.{AddsVars, AreInterfaces, AreInterfacesOf, AreOutputs, AreInputs, IsInterfaceOf, is_used_outside};

use crate::defines::{defines, is_var};
use crate::interface::Interface;
use crate::plan_ops::PlanOps;
use crate::uses::add_ops;
use pac_base::{Listed, NoMemory, listed};
use pac_ops::FlatOp;
use std::alloc::Global;

// Whether one of the operations uses the variable.
fn uses(ops: &[(u16, FlatOp)], var: u16) -> bool
    ensures { result ≡ used_in ops.now var }
{
    ops.iter().any(|op| op.1.uses(var))
}

// Whether the procedure's operations in a block other than this one use the variable.
fn is_used_in_other(code: &PlanOps, proc: u16, block: u16, other: u16, var: u16) -> bool
    requires proc { proc < length code.now.programs }
    requires other { other < code.now.blocks }
    ensures { result ≡ (not (other == block) && used_in (proc_ops code.now proc other) var) }
{
    other != block && uses(code.ops(proc, other), var)
}

// Whether its operations in another block use the variable.
fn is_used_outside(code: &PlanOps, proc: u16, block: u16, var: u16) -> bool
    requires { proc < length code.now.programs }
    ensures { result ≡ is_used_outside code.now proc block var }
{
    (0..code.plan().blocks()).any(|other| is_used_in_other(code, proc, block, other, var))
}

// The inputs of operations, ascending.
fn inputs_of(alloc: Global, ops: &[(u16, FlatOp)]) -> Result<Vec<u16>, NoMemory>
    ensures { IfOk result (λ vars. AreInputs ops.now vars.items) }
{
    let mut vars = Vec::new(alloc);
    add_ops(ops, &mut vars)?;
    vars.sort()?;
    vars.dedup();
    outer(alloc, ops, &vars)
}

// Those that the operations don't define.
fn outer(alloc: Global, ops: &[(u16, FlatOp)], vars: &[u16]) -> Result<Vec<u16>, NoMemory>
    ensures { IfOk result (λ outer. outer.items ≡ filter (λ x. not (defined_in ops.now x)) vars.now) }
{
    let outer = vars
        .iter()
        .copied()
        .filter(|var| !defines(ops, *var))
        .collect(alloc)?;
    Ok(outer)
}

// The outputs of a procedure's operations in a block, ascending.
fn outputs_of(alloc: Global, code: &PlanOps, proc: u16, block: u16) -> Result<Vec<u16>, NoMemory>
    requires proc { proc < length code.now.programs }
    requires block { block < code.now.blocks }
    ensures { IfOk result (λ vars. AreOutputs code.now proc block vars.items) }
{
    let mut vars = Vec::new(alloc);
    for op in code.ops(proc, block) {
        add_output(code, proc, block, op, &mut vars)?;
    }
    vars.sort()?;
    vars.dedup();
    Ok(vars)
}

// Adds the variable that an operation defines, if one in another block uses it.
fn add_output(
    code: &PlanOps,
    proc: u16,
    block: u16,
    op: &(u16, FlatOp),
    vars: &mut Vec<u16>,
) -> Result<(), NoMemory>
    requires { proc < length code.now.programs }
    ensures { OnOk result (AddsVars (λ x. is_var x (defined_variable op.now.1.kind) && is_used_outside code.now proc block x) vars.old.items vars.new.items) }
{
    if let Some(var) = op.1.kind.defined() {
        if is_used_outside(code, proc, block, var) {
            vars.push(var)?;
        }
    }
    Ok(())
}

/// The inputs and the outputs of each procedure in each block. It takes time that grows with the number of blocks times that of all operations,
/// and with the number of operations that a procedure has in one block times that of all that it has.
///
/// # Errors
///
/// [`NoMemory`] where the variables find no room.
pub(crate) fn interfaces(alloc: Global, code: &PlanOps) -> Result<Vec<Listed<Interface>>, NoMemory>
    ensures { IfOk result (λ interfaces. AreInterfaces code.now interfaces.items) }
{
    let mut interfaces = Vec::new(alloc);
    for proc in 0..code.plan().procs() {
        interfaces.push(listed(interfaces_of(alloc, code, proc)?))?;
    }
    Ok(interfaces)
}

// The interface of a procedure in each block.
fn interfaces_of(alloc: Global, code: &PlanOps, proc: u16) -> Result<Vec<Interface>, NoMemory>
    requires { proc < length code.now.programs }
    ensures size { IfOk result (λ interfaces. length interfaces.items ≡ code.now.blocks) }
    ensures each { IfOk result (λ interfaces. AreInterfacesOf code.now proc interfaces.items) }
{
    let mut interfaces = Vec::new(alloc);
    for block in 0..code.plan().blocks() {
        interfaces.push(interface_of(alloc, code, proc, block)?)?;
    }
    Ok(interfaces)
}

// The interface of a procedure in a block.
fn interface_of(alloc: Global, code: &PlanOps, proc: u16, block: u16) -> Result<Interface, NoMemory>
    requires proc { proc < length code.now.programs }
    requires block { block < code.now.blocks }
    ensures { IfOk result (IsInterfaceOf code.now proc block) }
{
    let inputs = listed(inputs_of(alloc, code.ops(proc, block))?);
    let outputs = listed(outputs_of(alloc, code, proc, block)?);
    Ok(Interface { inputs, outputs })
}
