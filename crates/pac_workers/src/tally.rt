// How many pieces each worker finished.
ghost use Rattle.std.specs.Prelude.{◌≡◌, ◌+◌, ◌^◌, ◌<◌, ◌↔◌, ℕ, [], IfOk, IsTrue, map, sum, vec_capacity, vec_len};
ghost use Rattle.atomic_table.specs.Seated.{TableId};

use pac_base::{Listed, NoMemory, listed};
use std::alloc::Global;
use std::marker::Brand;
use std::sync::ledger::{Book, Ledger, Share};

/// One replay: what was lent to it. Its ledger counts the pieces that workers finish.
pub(crate) trait Lent: Ledger {
    // what the twins that show its job have in common
    ghost pair: { TableId };

    // how many pieces there were, and how many of them weren't finished
    ghost size: { ℕ };

    ghost left: { ℕ };
}

impl Lent for Brand {
    ghost pair = { record { words = 0; slots = 0; views_name = 0; atom = 0; block = 0; offset = 0; slot_names = [] } };

    ghost size = { 0 };

    ghost left = { 0 };
}

/// The number of a worker, how many pieces it finished, and its part of the ledger, which has that number too.
#[derive(Drop)]
pub(crate) struct Tally<L: Ledger> {
    pub worker: u32,
    pub count: u64,
    share: Share<L>,
    ghost one_part: { share.parts ≡ 1 },
    ghost counted: { share.amount ≡ count },
}

impl<L: Ledger> Tally<L> {
    // Nothing is finished.
    fn new(worker: u32, share: Share<L>) -> Tally<L>
        requires { (share.parts ≡ 1) × (share.amount ≡ 0) }
    {
        Tally {
            worker,
            count: 0,
            share,
        }
    }

    /// Whether one more can be counted.
    pub fn has_room(&self) -> bool
        ensures { IsTrue result ↔ (self.now.count + 1 < 2 ^ 64) }
    {
        self.count < u64::MAX
    }

    /// Counts a piece, here and in the book of all.
    pub fn count_one(&mut self, book: &mut Book<L>)
        requires { self.old.count + 1 < 2 ^ 64 }
        ensures total { book.new.total ≡ book.old.total + 1 }
        ensures count { self.new.count ≡ self.old.count + 1 }
    {
        let Tally {
            worker: _,
            count,
            share,
        } = self;
        book.add(share, 1);
        *count += 1;
    }
}

/// A tally of nothing for each worker.
pub(crate) fn tallies_of<L: Ledger>(
    alloc: Global,
    workers: u32,
    rest: &mut Share<L>,
) -> Result<Vec<Tally<L>>, NoMemory>
    requires parts { workers + 1 ≡ rest.old.parts }
    requires amount { rest.old.amount ≡ 0 }
    ensures len { IfOk result (λ tallies. vec_len tallies ≡ workers) }
    ensures parts { IfOk result (λ tallies. rest.new.parts ≡ 1) }
    ensures amount { rest.new.amount ≡ 0 }
{
    let mut tallies = Vec::with_capacity(alloc, workers as usize)?;
    for worker in 0..workers {
        tallies.push(Tally::new(worker, rest.split_off(1, 0)))?;
    }
    Ok(tallies)
}

/// What each tally counts, in their order. Their parts of the ledger are put to the rest.
pub(crate) fn counts_of<L: Ledger>(
    room: Vec<u64>,
    tallies: Vec<Tally<L>>,
    rest: &mut Share<L>,
) -> Listed<u64>
    requires room { (vec_len room ≡ 0) × (vec_capacity room ≡ vec_len tallies) }
    requires rest { (rest.old.parts ≡ 1) × (rest.old.amount ≡ 0) }
    ensures counts { result ≡ map (λ tally. tally.count) tallies.items }
    ensures parts { rest.new.parts ≡ vec_len tallies + 1 }
    ensures amount { rest.new.amount ≡ sum result }
{
    let mut counts = room;
    for tally in tallies {
        let Tally {
            worker: _,
            count,
            share,
        } = tally;
        rest.merge(share);
        counts.push_reserved(count);
    }
    listed(counts)
}
