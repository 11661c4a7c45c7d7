// Table operations, as far as accesses need them.
ghost use Rattle.std.specs.Prelude.{◌≡◌, IfOk};
ghost use Rattle.std.specs.Option.{option_map};
ghost use Rattle.std.specs.List.{filter_map, list_all};
ghost use Rattle.pac_keys.specs.declared.probe.Probe.{Probe as AProbe};
ghost use Rattle.pac_ops.specs.Effects.{target_of};
ghost use Rattle.pac_keys.specs.Probes.{probe_of, probes_of};

use crate::defines::{avoids, outer_conds};
use pac_base::{Exact, NoMemory};
use pac_ops::{Conds, FlatOp, OpKind};
use pac_value::Expr;
use std::alloc::Global;

/// What the access of a piece needs of a table operation.
#[derive(Drop)]
pub(crate) struct Probe {
    /// The conditions on variables from elsewhere.
    pub(crate) conds: Conds,
    pub(crate) table: u16,
    pub(crate) key: Expr,
    /// Whether the operation modifies its table.
    pub(crate) is_write: bool,
    /// Whether the key depends on nothing that the piece defines.
    pub(crate) is_bounded: bool,
}

/// The probes of operations, in their order. It takes time that grows with the square of their number.
pub(crate) fn probes(alloc: Global, ops: &[(u16, FlatOp)]) -> Result<Vec<Probe>, NoMemory>
    ensures { IfOk result (λ probes. probes.items ≡ probes_of ops.now) }
{
    let mut probes = Vec::new(alloc);
    for op in ops {
        if let Some(probe) = probe_of(alloc, ops, &op.1)? {
            probes.push(probe)?;
        }
    }
    Ok(probes)
}

/// Whether the key of each is bounded.
pub(crate) fn all_bounded(probes: &[Probe]) -> bool
    ensures { result ≡ list_all (λ (probe : AProbe). probe.is_bounded) probes.now }
{
    probes.iter().all(|probe| probe.is_bounded)
}

// The probe of an operation, where it accesses a table.
fn probe_of(alloc: Global, ops: &[(u16, FlatOp)], op: &FlatOp) -> Result<Option<Probe>, NoMemory>
    ensures { IfOk result (λ probe. probe ≡ probe_of ops.now op.now) }
{
    let Some((table, key)) = target(&op.kind) else {
        return Ok(None);
    };
    let conds = outer_conds(alloc, ops, op.conds.as_slice())?;
    Ok(Some(Probe {
        conds,
        table,
        key: key.copy(alloc)?,
        is_write: op.kind.modifies(),
        is_bounded: avoids(ops, key),
    }))
}

// The table and the key that an operation names.
fn target(kind: &OpKind) -> Option<(u16, &Expr)>
    ensures { option_map (λ named. (named.0, named.1.now)) result ≡ target_of kind.now }
{
    match kind {
        OpKind::Read { table, key, .. }
        | OpKind::Has { table, key, .. }
        | OpKind::Put { table, key, .. }
        | OpKind::SetCol { table, key, .. }
        | OpKind::Delete { table, key } => Some((*table, key)),
        OpKind::Let { .. } | OpKind::Cond { .. } | OpKind::AbortIf { .. } => None,
    }
}
