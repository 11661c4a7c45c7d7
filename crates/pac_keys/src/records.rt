// The records of ad hoc transactions.
ghost use Rattle.std.specs.Prelude.{◌≡◌, ◌↔◌, ◌<◌, IfOk, IsTrue, length, map};
ghost use Rattle.std.specs.List.{AllByRecursion};
ghost use Rattle.pac_ops.specs.Shapes.{RecordsFit};
ghost use Rattle.pac_plan.specs.PieceFits.{change_table, records_in};
ghost use Rattle.pac_keys.specs.Records.{change_key, change_touch, has_records};

use pac_base::{Exact, NoMemory, Same};
use pac_ops::Change;
use pac_plan::{Plan, Touch};
use pac_value::Key;
use std::alloc::Global;

/// The touches of the records of a block, each of which modifies.
pub(crate) fn record_touches(
    alloc: Global,
    plan: &Plan,
    records: &[Change],
    block: u16,
) -> Result<Vec<Touch>, NoMemory>
    requires { RecordsFit plan.now.tables records.now }
    ensures { IfOk result (λ touches. touches.items ≡ map change_touch (records_in plan.now block records.now)) }
{
    let mut touches = Vec::new(alloc);
    for change in records {
        if plan.home_of(table_of(change)) == block {
            touches.push(Touch {
                table: table_of(change),
                key: *key_of(change),
                is_write: true,
            })?;
        }
    }
    Ok(touches)
}

/// Copies of the records of a block.
pub(crate) fn records_in(
    alloc: Global,
    plan: &Plan,
    records: &[Change],
    block: u16,
) -> Result<Vec<Change>, NoMemory>
    requires { RecordsFit plan.now.tables records.now }
    ensures { IfOk result (λ found. found.items ≡ records_in plan.now block records.now) }
{
    let mut found = Vec::new(alloc);
    for change in records {
        if plan.home_of(table_of(change)) == block {
            found.push(change.copy(alloc)?)?;
        }
    }
    Ok(found)
}

/// Whether others are the records of a block, in their order.
pub(crate) fn are_records_in(plan: &Plan, records: &[Change], block: u16, own: &[Change]) -> bool
    requires { RecordsFit plan.now.tables records.now }
    ensures { IsTrue result ↔ (own.now ≡ records_in plan.now block records.now) }
{
    let mut at = 0;
    for change in records {
        if plan.home_of(table_of(change)) == block {
            if at == own.len() || !own[at].same(change) {
                return false;
            }
            at += 1;
        }
    }
    at == own.len()
}

/// Whether one of the records is of the block.
pub(crate) fn has_record(plan: &Plan, records: &[Change], block: u16) -> bool
    requires { RecordsFit plan.now.tables records.now }
    ensures { result ≡ has_records (records_in plan.now block records.now) }
{
    for change in records {
        if plan.home_of(table_of(change)) == block {
            return true;
        }
    }
    false
}

fn table_of(change: &Change) -> u16
    ensures { result ≡ change_table change.now }
{
    match change {
        Change::Put { table, .. } | Change::Delete { table, .. } => *table,
    }
}

fn key_of(change: &Change) -> &Key
    ensures { result.now ≡ change_key change.now }
{
    match change {
        Change::Put { key, .. } | Change::Delete { key, .. } => key,
    }
}
