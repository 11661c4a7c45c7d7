// Positions that are ready, of which the first is at hand.
ghost use Rattle.std.specs.Prelude.{◌≡◌, ◌<◌, ◌*◌, ◌+◌, ℕ, ◌≢◌, Bool, true, false, length, replicate, slice_set, slice_index, slice_index_or, position, count_by, IfOk};
ghost use Rattle.pac_sched.specs.ReadySets.{IsSettledAt};

use pac_base::NoMemory;
use std::alloc::Global;
use std::marker::Model;

/// A flag for each position. The first raised one is at hand; raising and lowering one takes time that grows with the logarithm
/// of their number. Contracts see the list of flags.
///
/// Node `k` of a binary tree has the children `2k` and `2k + 1`, the root is node 1, and the leaves, one for each flag, are the
/// last nodes. Each node keeps the first raised position below it, or the number of flags where there is none.
#[derive(Drop)]
pub(crate) struct ReadySet {
    flags: Vec<bool>,
    firsts: Vec<usize>,
    raised: usize,
}

impl Model for ReadySet {
    ghost use Rattle.std.specs.Prelude.{List, Bool};
    ghost use Rattle.pac_sched.specs.ReadySets.{IsFirstTree};

    ghost Value = { List Bool };

    ghost view = { λ set. set.flags.items };

    ghost invariant = { λ set. IsFirstTree set.flags.items set.firsts.items set.raised };
}

impl ReadySet {
    // No flags. Takes no memory.
    pub(crate) fn empty(alloc: Global) -> ReadySet
        ensures { result ≡ replicate 0 false }
    {
        ReadySet {
            flags: Vec::new(alloc),
            firsts: Vec::new(alloc),
            raised: 0,
        }
    }

    // That many flags, none of them raised.
    pub(crate) fn new(alloc: Global, len: usize) -> Result<ReadySet, NoMemory>
        ensures { IfOk result (λ set. set ≡ replicate len false) }
    {
        let flags = vec![in alloc; false; len]?;
        let firsts = vec![in alloc; len; 2 * flags.len()]?;
        Ok(ReadySet {
            flags,
            firsts,
            raised: 0,
        })
    }

    // How many flags are raised.
    pub(crate) fn raised(&self) -> usize
        ensures { result ≡ count_by (λ flag. flag) self.now }
    {
        self.raised
    }

    // The first raised flag's position.
    pub(crate) fn first(&self) -> Option<usize>
        ensures { result ≡ position (λ flag. flag) self.now }
    {
        let len = self.flags.len();
        if len == 0 {
            return None;
        }
        let first = self.firsts[1];
        if first < len { Some(first) } else { None }
    }

    // Raises a flag that is not.
    pub(crate) fn raise(&mut self, i: usize)
        requires inside { i < length self.old }
        requires lowered { slice_index_or self.old i true ≡ false }
        ensures { self.new ≡ slice_set self.old i true }
    {
        let len = self.flags.len();
        self.flags[i] = true;
        self.raised += 1;
        settle(&mut self.firsts, len, i, i);
    }

    // Lowers a raised flag.
    pub(crate) fn lower(&mut self, i: usize)
        requires inside { i < length self.old }
        requires raised { slice_index_or self.old i false ≡ true }
        ensures { self.new ≡ slice_set self.old i false }
    {
        let len = self.flags.len();
        self.flags[i] = false;
        self.raised -= 1;
        settle(&mut self.firsts, len, i, len);
    }
}

// Gives a leaf what it has now, and settles the nodes above it.
fn settle(firsts: &mut [usize], len: usize, i: usize, now: usize)
    requires len { length firsts.old ≡ 2 * len }
    requires inside { i < len }
    requires settled { (k : ℕ) → 0 < k → k < len → IsSettledAt firsts.old k }
    ensures len { length firsts.new ≡ 2 * len }
    ensures leaf { slice_index firsts.new (len + i) ≡ now }
    ensures leaves { (j : ℕ) → j < len → j ≢ i → slice_index firsts.new (len + j) ≡ slice_index firsts.old (len + j) }
    ensures settled { (k : ℕ) → 0 < k → k < len → IsSettledAt firsts.new k }
{
    firsts[len + i] = now;
    let mut node = (len + i) / 2;
    while node > 0 {
        let first = firsts[2 * node].min(firsts[2 * node + 1]);
        if firsts[node] == first {
            return;
        }
        firsts[node] = first;
        node /= 2;
    }
}
