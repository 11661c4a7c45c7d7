// The checker of trees.
ghost use Rattle.std.specs.Prelude.{◌≡◌, ◌↔◌, All, IfOk, IsErrOf, map};
ghost use Rattle.pac_base.specs.Refusals.{Reports};
ghost use Rattle.pac_base.specs.declared.refusal.Refusal.TheVariants as error;
ghost use Rattle.pac_types.specs.declared.type_error.TypeFault.{TypeFault as AFault};
ghost use Rattle.pac_types.specs.Checking.{checked_procs};
ghost use Rattle.pac_types.specs.Typing.{CatalogueState, IsTyped, Types};
ghost use Rattle.pac_types.specs.Faults.{IsFirstTypeFault, Stands};
ghost use Rattle.pac_syntax.specs.Limits.{IsProcWithinLimits};
ghost use Rattle.pac_syntax.specs.Reading.{IsTree};

mod expressions;
mod procedures;
mod scope;
mod statements;
mod tables;

use crate::names::Names;
use crate::{Catalogue, Proc, TypeError};
use pac_base::listed;
use pac_syntax::{ProcNode, Tree};
use pac_value::Name;
use procedures::check_proc;
use std::alloc::{AllocError, Global};
use tables::Tables;

// The names of procedures.
fn names_of_procs(alloc: Global, nodes: &[ProcNode]) -> Result<Vec<Name>, AllocError>
    ensures { IfOk result (λ names. names.items ≡ map (λ node. node.name.name) nodes.now) }
{
    let mut names = Vec::with_capacity(alloc, nodes.len())?;
    for node in nodes {
        names.push(node.name.name)?;
    }
    Ok(names)
}

// The procedures of these nodes, which have these names, over the tables.
fn check_procs(
    alloc: Global,
    tables: &Tables,
    names: &Names,
    nodes: &[ProcNode],
) -> Result<Vec<Proc>, TypeError>
    requires { All IsProcWithinLimits nodes.now }
    ensures { Reports (λ procs. procs.items) result (checked_procs tables.now names.now 0 nodes.now) }
{
    let mut procs = Vec::with_capacity(alloc, nodes.len())?;
    for i in 0..nodes.len() {
        let node = &nodes[i];
        names.once(i, &node.name)?;
        procs.push(check_proc(alloc, tables, node)?)?;
    }
    Ok(procs)
}

/// The catalogue of a tree. Takes time and memory near linear in the tree's size, and more time where names were chosen
/// so that their hashes are equal.
///
/// # Errors
///
/// [`TypeError::Fault`] only where the tree isn't typed: its first fault, the one with the least offset. A name stands
/// twice in its space, or it isn't that of a table, of a column of its table or of a visible variable; a `put` has
/// another number of values than its table has columns; an expression hasn't the type that its position wants. Tables and
/// procedures have a space each, the columns of a table have one, and the parameters and variables of a procedure have
/// one together. A parameter is visible in the whole procedure, a variable after its statement, to the end of the
/// innermost block round it. [`TypeError::NoMemory`] may come instead, and also where the tree is typed.
pub fn check(alloc: Global, tree: Tree) -> Result<Catalogue, TypeError>
    requires { IsTree tree }
    ensures ok { IfOk result (λ catalogue. Types tree catalogue) }
    ensures one { IfOk result (λ catalogue. (other : CatalogueState) → Types tree other → other ≡ catalogue) }
    ensures typed { IsTyped tree ↔ ((fault : AFault) → ¬ Stands tree fault) }
    ensures only { IsTyped tree → (fault : AFault) → ¬ IsErrOf result (error.Fault fault) }
    ensures fault { (fault : AFault) → IsErrOf result (error.Fault fault) → IsFirstTypeFault tree fault }
{
    check_tree(alloc, tree)
}

// The same, without the laws of trees.
fn check_tree(alloc: Global, tree: Tree) -> Result<Catalogue, TypeError>
    requires { IsTree tree }
    ensures ok { IfOk result (λ catalogue. Types tree catalogue) }
    ensures fault { (fault : AFault) → IsErrOf result (error.Fault fault) → IsFirstTypeFault tree fault }
{
    let tables = Tables::of(alloc, tree.tables.as_slice())?;
    let names = Names::of(alloc, names_of_procs(alloc, tree.procs.as_slice())?)?;
    let procs = check_procs(alloc, &tables, &names, tree.procs.as_slice())?;
    let (tables, table_names) = tables.into_parts();
    Ok(Catalogue::of(listed(tables), listed(procs), table_names, names))
}
