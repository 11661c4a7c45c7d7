// The transactions of the stress test in batches.
ghost use Rattle.std.specs.Prelude.{◌≡◌, ◌+◌, ◌≤◌, ◌<◌, ◌^◌, IfOk};
ghost use Rattle.pac_ops.specs.declared.limits.TheConstants.{MAX_TXNS};
ghost use Rattle.pac_stress.specs.StressBatches.{stress_batch, stress_batches, whole_batches};

use pac_base::{NoMemory, listed};
use pac_ops::{Batch, Batches, Txns};
use pac_script::stress_txn;
use std::alloc::Global;

// How many transactions a whole batch has.
const WHOLE: u32 = 64;

// A batch of `count` transactions, numbered from `first` on.
fn stress_batch(alloc: Global, first: u64, count: u32) -> Result<Batch, NoMemory>
    requires some { 1 ≤ count }
    requires few { count ≤ MAX_TXNS }
    requires numbers { first + count < 2 ^ 64 }
    ensures { IfOk result (λ batch. batch ≡ stress_batch first count) }
{
    let mut txns = Vec::with_capacity(alloc, count as usize)?;
    for i in 0..count {
        txns.push(stress_txn(alloc, first + u64::from(i))?)?;
    }
    Ok(Batch {
        first,
        txns: Txns::of(txns),
    })
}

// That many whole batches.
fn whole_batches(alloc: Global, count: u32) -> Result<Vec<Batch>, NoMemory>
    ensures { IfOk result (λ batches. batches.items ≡ whole_batches 0 count) }
{
    let mut batches = Vec::new(alloc);
    for k in 0..count {
        batches.push(stress_batch(alloc, u64::from(k) * 64 + 1, WHOLE)?)?;
    }
    Ok(batches)
}

/// The first transactions of the stress test, in batches of 64 that run on from the first one. The last batch has those that are
/// left.
///
/// # Errors
///
/// [`NoMemory`] where an allocation is refused.
pub fn stress_batches(alloc: Global, count: u32) -> Result<Batches, NoMemory>
    ensures { IfOk result (λ batches. batches ≡ stress_batches count) }
{
    let whole = count / WHOLE;
    let left = count % WHOLE;
    let mut batches = whole_batches(alloc, whole)?;
    if left > 0 {
        batches.push(stress_batch(alloc, u64::from(whole) * 64 + 1, left)?)?;
    }
    Ok(listed(batches))
}
