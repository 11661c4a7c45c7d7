// Procedures by numbers.
ghost use Rattle.std.specs.Prelude.{◌≡◌, ◌≤◌, ◌+◌, ◌++◌, ◌^◌, IfOk, OnOk, length, map};
ghost use Rattle.std.specs.List.{flat_map};
ghost use Rattle.pac_base.specs.Refusals.{Reports};
ghost use Rattle.pac_types.specs.Numbering.{defined, variables};
ghost use Rattle.pac_types.specs.Checking.{ScopeState, checked_params, checked_proc};
ghost use Rattle.pac_syntax.specs.Limits.{IsProcWithinLimits};

use crate::checker::scope::Scope;
use crate::checker::statements::check_block;
use crate::checker::tables::{Tables, columns_of};
use crate::names::Names;
use crate::{Proc, TypeError};
use pac_base::listed;
use pac_syntax::{ColumnNode, ProcNode, StmtNode};
use pac_value::Name;
use std::alloc::{AllocError, Global};

// Adds the names of the variables that the statement defines.
#[cycle(names)]
fn add_name(names: &mut Vec<Name>, node: &StmtNode) -> Result<(), AllocError>
    ensures { OnOk result (names.new.items ≡ names.old.items ++ defined node.now) }
{
    match node {
        StmtNode::Let { name, value: _ } => names.push(name.name)?,
        StmtNode::Read {
            name,
            table: _,
            key: _,
            column: _,
            default: _,
        } => names.push(name.name)?,
        StmtNode::Has {
            name,
            table: _,
            key: _,
        } => names.push(name.name)?,
        StmtNode::If {
            test: _,
            first,
            second,
        } => {
            add_names(names, first.as_slice())?;
            add_names(names, second.as_slice())?;
        }
        StmtNode::For {
            name,
            from: _,
            to: _,
            body,
        } => {
            names.push(name.name)?;
            add_names(names, body.as_slice())?;
        }
        _ => {}
    }
    Ok(())
}

// Adds the names of the variables that the statements define.
#[cycle(names)]
fn add_names(names: &mut Vec<Name>, nodes: &[StmtNode]) -> Result<(), AllocError>
    ensures { OnOk result (names.new.items ≡ names.old.items ++ flat_map defined nodes.now) }
{
    for node in nodes {
        add_name(names, node)?;
    }
    Ok(())
}

// The names of the parameters, and then of the variables that the statements define.
fn variables_of(alloc: Global, node: &ProcNode) -> Result<Vec<Name>, AllocError>
    ensures { IfOk result (λ names. names.items ≡ variables node.now) }
{
    let mut names = crate::checker::tables::names_of(alloc, node.params.as_slice())?;
    add_names(&mut names, node.body.as_slice())?;
    Ok(names)
}

// The parameters are visible from here on.
fn check_params(scope: &mut Scope, nodes: &[ColumnNode]) -> Result<(), TypeError>
    requires { scope.old.next + length nodes.now ≤ 2 ^ 16 }
    ensures params { Reports (λ _. scope.new) result (checked_params nodes.now scope.old) }
    ensures next { OnOk result (scope.new.next ≡ scope.old.next + length nodes.now) }
{
    for node in nodes {
        scope.once(&node.name)?;
        scope.define(node.ty)?;
    }
    Ok(())
}

/// The procedure of a node over the tables.
pub(crate) fn check_proc(alloc: Global, tables: &Tables, node: &ProcNode) -> Result<Proc, TypeError>
    requires { IsProcWithinLimits node.now }
    ensures { Reports (λ proc. proc) result (checked_proc tables.now node.now) }
{
    let names = Names::of(alloc, variables_of(alloc, node)?)?;
    let mut scope = Scope::new(alloc, names);
    check_params(&mut scope, node.params.as_slice())?;
    let params = columns_of(alloc, node.params.as_slice())?;
    let body = check_block(alloc, tables, &mut scope, node.body.as_slice())?;
    Ok(Proc {
        name: node.name.name,
        params: listed(params),
        body: listed(body),
    })
}
