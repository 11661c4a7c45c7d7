// Which pieces wait for a piece.
ghost use Rattle.std.specs.Prelude.{◌≡◌, ◌<◌, ◌≤◌, ◌+◌, ℕ, Bool, false, true, ◌&&◌, ◌||◌, ◌==◌, [], length, slice_index, slice_index_or, slice_set, cond, ◌-◌, nat_lt, All, IfOk};
ghost use Rattle.pac_sched.specs.Counts.{last_from, passing, leads};

use crate::ready_set::ReadySet;
use pac_base::NoMemory;
use std::alloc::Global;
use std::marker::Model;

/// Pairs of an earlier and a later position. Those of an earlier one are linked, from its last pair on. Contracts see the list of
/// pairs.
#[derive(Drop)]
pub(crate) struct Followers {
    pairs: Vec<(usize, usize)>,
    previous: Vec<Option<usize>>,
    last: Vec<Option<usize>>,
}

impl Model for Followers {
    ghost use Rattle.std.specs.Prelude.{List, ℕ};
    ghost use Rattle.std.specs.Coded.{coded×, coded_ℕ, coded_list};
    ghost use Rattle.pac_sched.specs.Counts.{AreLinked};

    ghost Value = { List (ℕ × ℕ) };

    ghost coded = { coded_list (coded× coded_ℕ coded_ℕ) };

    ghost view = { λ followers. followers.pairs.items };

    ghost invariant = { λ followers. AreLinked followers.pairs.items followers.previous.items followers.last.items };
}

impl Followers {
    // No pairs. Takes no memory.
    pub(crate) fn empty(alloc: Global) -> Followers
        ensures { result ≡ [] }
    {
        Followers {
            pairs: Vec::new(alloc),
            previous: Vec::new(alloc),
            last: Vec::new(alloc),
        }
    }

    // These pairs, the earlier positions of which are below a number.
    pub(crate) fn new(
        alloc: Global,
        len: usize,
        pairs: Vec<(usize, usize)>,
    ) -> Result<Followers, NoMemory>
        requires { All (λ pair. pair.0 < len) pairs.items }
        ensures { IfOk result (λ followers. followers ≡ pairs.items) }
    {
        let mut last = vec![in alloc; None; len]?;
        let mut previous = Vec::with_capacity(alloc, pairs.len())?;
        for k in 0..pairs.len() {
            let (earlier, _) = pairs[k];
            previous.push(last[earlier])?;
            last[earlier] = Some(k);
        }
        Ok(Followers {
            pairs,
            previous,
            last,
        })
    }

    // The pairs.
    pub(crate) fn pairs(&self) -> &[(usize, usize)]
        ensures { result.now ≡ self.now }
    {
        &self.pairs
    }

    // The last pair of an earlier position.
    fn last(&self, earlier: usize) -> Option<usize>
        ensures { result ≡ last_from self.now earlier (length self.now) }
    {
        if earlier < self.last.len() {
            self.last[earlier]
        } else {
            None
        }
    }

    // The pair before one that has the same earlier position.
    fn previous(&self, k: usize) -> Option<usize>
        requires { k < length self.now }
        ensures { (d : ℕ × ℕ) → result ≡ last_from self.now (slice_index_or self.now k d).0 k }
    {
        self.previous[k]
    }

    // The later position of a pair.
    fn later(&self, k: usize) -> usize
        requires { k < length self.now }
        ensures { (d : ℕ × ℕ) → result ≡ (slice_index_or self.now k d).1 }
    {
        let (_, later) = self.pairs[k];
        later
    }

    // Each later position of one that is finished waits for one less, and is ready where it waits for none.
    pub(crate) fn release(&self, finished: usize, waits: &mut [usize], ready: &mut ReadySet)
        requires len { length waits.old ≡ length ready.old }
        requires inside { All (λ pair. pair.1 < length ready.old) self.now }
        requires enough { (j : ℕ) → j < length ready.old → passing (leads finished j) self.now (length self.now) ≤ slice_index waits.old j }
        requires lowered { (j : ℕ) → j < length ready.old → 0 < slice_index waits.old j → slice_index_or ready.old j false ≡ false }
        ensures waits_len { length waits.new ≡ length waits.old }
        ensures ready_len { length ready.new ≡ length ready.old }
        ensures waits { (j : ℕ) → j < length ready.old → slice_index waits.new j + passing (leads finished j) self.now (length self.now) ≡ slice_index waits.old j }
        ensures ready { (j : ℕ) → j < length ready.old → slice_index_or ready.new j false ≡ (slice_index_or ready.old j false || (nat_lt 0 (passing (leads finished j) self.now (length self.now)) && slice_index waits.new j == 0)) }
    {
        let mut next = self.last(finished);
        while let Some(k) = next {
            release_one(self.later(k), waits, ready);
            next = self.previous(k);
        }
    }
}

// A position waits for one less, and is ready where it waits for none.
fn release_one(later: usize, waits: &mut [usize], ready: &mut ReadySet)
    requires len { length waits.old ≡ length ready.old }
    requires inside { later < length ready.old }
    requires waits { 0 < slice_index waits.old later }
    requires lowered { slice_index_or ready.old later true ≡ false }
    ensures waits { waits.new ≡ slice_set waits.old later (slice_index waits.old later - 1) }
    ensures ready { ready.new ≡ cond (slice_index waits.old later == 1) (slice_set ready.old later true) ready.old }
{
    waits[later] -= 1;
    if waits[later] == 0 {
        ready.raise(later);
    }
}
