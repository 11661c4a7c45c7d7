// The pairs of accesses that their queues join.
ghost use Rattle.std.specs.Prelude.{◌≡◌, ◌<◌, ◌≤◌, ◌+◌, ◌*◌, ◌-◌, ◌↔◌, ℕ, length, OnOk, IfOk, IsTrue, Contains};
ghost use Rattle.std.specs.List.Sorted.{IsPermutation};
ghost use Rattle.pac_graph.specs.Groups.{ArePairsAscending};
ghost use Rattle.pac_batch.specs.Queues.{queued_all, entry, AreInOrder, AreJoinedAt, AreJoinedBelow, IsStart, IsPairOf, IsPairSince, ArePairsAdded};
ghost use Rattle.pac_batch.specs.NextLists.{AreNextPairs, count_touches};

use crate::queues::{Queued, in_queues};
use pac_base::NoMemory;
use pac_plan::{Access, Preds};
use std::alloc::Global;

/// The pairs of accesses that are next to each other, each once, ascending, by their positions: two that stand in one queue, of a
/// row or of the block, one of which modifies there, with no modification in that queue between them. Accesses that conflict are
/// joined by a chain of such pairs, so that waiting for these is waiting for all. There are at most twice as many as touches and
/// accesses together, and it takes the time of sorting the touches, and then the pairs.
///
/// # Errors
///
/// [`NoMemory`] where the touches or the pairs find no room.
pub fn queue_preds(alloc: Global, accesses: &[Access]) -> Result<Preds, NoMemory>
    requires { length accesses.now ≤ 4294967295 }
    ensures next { IfOk result (λ preds. AreNextPairs accesses.now preds) }
    ensures few { IfOk result (λ preds. length preds ≤ 2 * count_touches accesses.now + 2 * length accesses.now) }
{
    let queued = sorted_queues(alloc, accesses)?;
    let mut pairs = joined(alloc, &queued)?;
    order(&mut pairs);
    Ok(Preds::new(pairs))
}

// The accesses in their queues, queue by queue.
fn sorted_queues(alloc: Global, accesses: &[Access]) -> Result<Vec<Queued>, NoMemory>
    requires { length accesses.now ≤ 4294967295 }
    ensures moved { IfOk result (λ queued. IsPermutation (queued_all accesses.now) queued.items) }
    ensures order { IfOk result (λ queued. AreInOrder queued.items) }
{
    let mut queued = in_queues(alloc, accesses)?;
    queued.sort_unstable();
    Ok(queued)
}

// Sorts pairs, and keeps each once.
fn order(pairs: &mut Vec<(u32, u32)>)
    ensures ascending { ArePairsAscending pairs.new.items }
    ensures same { (i j : ℕ) → Contains pairs.new.items (i, j) ↔ Contains pairs.old.items (i, j) }
    ensures few { length pairs.new.items ≤ length pairs.old.items }
{
    pairs.sort_unstable();
    pairs.dedup();
}

// The pairs of entries that are next to each other, by their accesses, some perhaps more than once.
fn joined(alloc: Global, queued: &[Queued]) -> Result<Vec<(u32, u32)>, NoMemory>
    requires { AreInOrder queued.now }
    ensures pairs { IfOk result (λ pairs. (i j : ℕ) → Contains pairs.items (i, j) ↔ AreJoinedBelow queued.now (length queued.now) i j) }
    ensures few { IfOk result (λ pairs. length pairs.items ≤ 2 * length queued.now) }
{
    let mut pairs = Vec::new(alloc);
    let mut start = 0;
    for end in 0..queued.len() {
        start = join(queued, start, end, &mut pairs)?;
    }
    Ok(pairs)
}

// Adds the pairs of the entry at a position, and returns the start for the next one.
fn join(
    queued: &[Queued],
    start: usize,
    end: usize,
    pairs: &mut Vec<(u32, u32)>,
) -> Result<usize, NoMemory>
    requires order { AreInOrder queued.now }
    requires start { IsStart queued.now start end }
    requires inside { end < length queued.now }
    ensures start { IfOk result (λ next. IsStart queued.now next (end + 1)) }
    ensures pairs { OnOk result (ArePairsAdded pairs.old.items pairs.new.items (AreJoinedAt queued.now end)) }
    ensures few { IfOk result (λ next. length pairs.new.items + (end + 1 - next) ≤ length pairs.old.items + (end - start) + 2) }
{
    let first = queued[start];
    let last = queued[end];
    if !is_same_queue(&first, &last) {
        return Ok(end);
    }
    if last.is_write {
        add_since(queued, start, end, pairs)?;
        return Ok(end);
    }
    if first.is_write {
        add_pair(&first, &last, pairs)?;
    }
    Ok(start)
}

// Adds the pairs of an entry and of those before it from a start on.
fn add_since(
    queued: &[Queued],
    start: usize,
    end: usize,
    pairs: &mut Vec<(u32, u32)>,
) -> Result<(), NoMemory>
    requires within { start ≤ end }
    requires inside { end < length queued.now }
    ensures pairs { OnOk result (ArePairsAdded pairs.old.items pairs.new.items (IsPairSince queued.now start end end)) }
    ensures few { OnOk result (length pairs.new.items ≤ length pairs.old.items + (end - start)) }
{
    for p in start..end {
        add_pair(&queued[p], &queued[end], pairs)?;
    }
    Ok(())
}

// Adds the pair of the accesses of two entries, unless they are one.
fn add_pair(earlier: &Queued, later: &Queued, pairs: &mut Vec<(u32, u32)>) -> Result<(), NoMemory>
    ensures pairs { OnOk result (ArePairsAdded pairs.old.items pairs.new.items (IsPairOf earlier.now later.now)) }
    ensures few { OnOk result (length pairs.new.items ≤ length pairs.old.items + 1) }
{
    if earlier.index < later.index {
        pairs.push((earlier.index, later.index))?;
    }
    Ok(())
}

// Whether two entries stand in one queue.
fn is_same_queue(one: &Queued, other: &Queued) -> bool
    ensures { IsTrue result ↔ (one.now.row ≡ other.now.row) }
{
    one.row.cmp(&other.row).is_eq()
}
