// The accesses in their queues.
ghost use Rattle.std.specs.Prelude.{◌≡◌, ◌≤◌, ◌++◌, length, OnOk, IfOk, map};
ghost use Rattle.pac_plan.specs.NextPairs.{is_whole};
ghost use Rattle.pac_batch.specs.Queues.{any_whole, block_from, queued_all, queued_touch, queued_touches, rows_from};

use pac_base::NoMemory;
use pac_plan::{Access, Touch};
use pac_value::Key;
use std::alloc::Global;

/// An access in a queue. They are ordered by queue, then by access, then reads before modifications.
#[derive(Clone, Copy, Debug, PartialEq, Eq, PartialOrd, Ord)]
pub(crate) struct Queued {
    /// The table and the key of the row whose queue it is, none where it is that of the block.
    pub row: Option<(u16, Key)>,
    /// The position of the access.
    pub index: u32,
    /// Whether the access modifies the row, or any of the block.
    pub is_write: bool,
}

/// The accesses in their queues: in that of the block, if one of them is of the whole block, and then in those of rows, so that only
/// these are out of order.
pub(crate) fn in_queues(alloc: Global, accesses: &[Access]) -> Result<Vec<Queued>, NoMemory>
    requires { length accesses.now ≤ 4294967295 }
    ensures { IfOk result (λ queued. queued.items ≡ queued_all accesses.now) }
{
    let mut queued = Vec::with_capacity(alloc, accesses.len())?;
    if any_whole(accesses) {
        add_block(accesses, &mut queued)?;
    }
    add_rows(accesses, &mut queued)?;
    Ok(queued)
}

// Whether one of them is of the whole block.
fn any_whole(accesses: &[Access]) -> bool
    ensures { result ≡ any_whole accesses.now }
{
    accesses.iter().any(is_whole)
}

// Adds accesses in the queue of the block.
fn add_block(accesses: &[Access], queued: &mut Vec<Queued>) -> Result<(), NoMemory>
    requires { length accesses.now ≤ 4294967295 }
    ensures { OnOk result (queued.new.items ≡ queued.old.items ++ block_from 0 accesses.now) }
{
    for i in 0..accesses.len() {
        let is_whole = is_whole(&accesses[i]);
        queued.push(Queued {
            row: None,
            index: i as u32,
            is_write: is_whole,
        })?;
    }
    Ok(())
}

// Whether an access is of the whole block.
fn is_whole(access: &Access) -> bool
    ensures { result ≡ is_whole access.now }
{
    matches!(access, Access::Whole)
}

// Adds accesses in the queues of the rows that they touch.
fn add_rows(accesses: &[Access], queued: &mut Vec<Queued>) -> Result<(), NoMemory>
    requires { length accesses.now ≤ 4294967295 }
    ensures { OnOk result (queued.new.items ≡ queued.old.items ++ rows_from 0 accesses.now) }
{
    for i in 0..accesses.len() {
        add_access(&accesses[i], i as u32, queued)?;
    }
    Ok(())
}

// Adds an access in the queues of the rows that it touches.
fn add_access(access: &Access, index: u32, queued: &mut Vec<Queued>) -> Result<(), NoMemory>
    ensures { OnOk result (queued.new.items ≡ queued.old.items ++ queued_touches index access.now) }
{
    match access {
        Access::Keys(touches) => add_touches(touches.as_slice(), index, queued),
        Access::Whole => Ok(()),
    }
}

// Adds touches of an access.
fn add_touches(touches: &[Touch], index: u32, queued: &mut Vec<Queued>) -> Result<(), NoMemory>
    ensures { OnOk result (queued.new.items ≡ queued.old.items ++ map (queued_touch index) touches.now) }
{
    for touch in touches {
        queued.push(Queued {
            row: Some((touch.table, touch.key)),
            index,
            is_write: touch.is_write,
        })?;
    }
    Ok(())
}
