// Replaying by workers.
ghost use Rattle.std.specs.Prelude.{◌≡◌, ◌+◌, ◌<◌, ◌≤◌, List, false, true, IfOk, OnOk, length, map, sum, vec_capacity, vec_len};
ghost use Rattle.pac_ops.specs.declared.batch.Batch.{Batch as ABatch};
ghost use Rattle.pac_workers.specs.Twins.{IsShown};
ghost use Rattle.pac_workers.specs.Fed.{HasFed};
ghost use Rattle.pac_workers.specs.Shown.{IsFed, IsJobFed, Tells, TellsJob};

use crate::feed::Feed;
use crate::feeding::feed_all;
use crate::guarded::Guarded;
use crate::machine::{Loads, Machine};
use crate::tally::{Lent, Tally, counts_of, tallies_of};
use crate::twins::{Pair, Twin};
use crate::worker::{Monitor, run_worker};
use pac_base::{Listed, NoMemory};
use pac_ops::Gate;
use std::alloc::Global;
use std::marker::Brand;
use std::sync::ledger::{Blank, Share};
use std::sync::{Condvar, Mutex, Wait};
use std::thread;
use std::thread::{Threads, join_mut};

/// What a replay leaves.
#[derive(Drop)]
pub struct Replayed<M: Machine> {
    /// The machine, finished.
    pub machine: M,
    /// How many pieces each worker finished.
    pub tallies: Listed<u64>,
    /// How many were left by all workers, and were run after them.
    pub drained: u64,
}

/// Finishes a machine by `workers` workers. One of them is the caller's thread. One worker passes the gate before each piece that
/// it runs, several before each piece that is handed out to one of them: what is run on the spot, or drained after the workers,
/// doesn't pass it. Where a thread can't be started, its share is left to the others.
///
/// # Errors
///
/// [`NoMemory`] where an allocation is refused: for the tallies, or in the caller's thread after the workers. A worker that finds none
/// gives back what it took and ends.
pub fn replay<M: Machine + Send, G: Gate + Sync, H: Threads + Wait + Sync>(
    rt: &H,
    alloc: Global,
    workers: u32,
    machine: M,
    gate: &G,
) -> Result<Replayed<M>, NoMemory>
    requires closed { M.is_closed machine ≡ true }
    requires workers { 1 ≤ workers }
    ensures closed { IfOk result (λ r. M.is_closed r.machine ≡ true) }
    ensures finished { IfOk result (λ r. M.left r.machine ≡ 0) }
    ensures job { IfOk result (λ r. M.job r.machine ≡ M.job machine) }
    ensures tallies { IfOk result (λ r. length r.tallies ≡ workers) }
    ensures counted { IfOk result (λ r. sum r.tallies + r.drained ≡ M.left machine) }
{
    let (pair, mut mine, twin) = Pair::new(alloc, &machine)?;
    let blank = Blank::new(u64::from(workers) + 1);
    let (replayed, mut twin) = replay_as::<M, Brand, G, H>(
        rt, alloc, blank, workers, machine, twin, gate,
    )?;
    pair.show(&mut twin, &mut mine, &replayed.machine);
    Ok(replayed)
}

/// Finishes a machine by `workers` workers, while the caller's thread loads into it what a feed gives. The machine is closed once
/// the feed has no more. Afterwards its job is the one that was lent followed by the batches that the feed gave, and the tallies and what
/// was drained add up to the pieces that weren't finished at the call and those of these batches.
///
/// # Errors
///
/// [`NoMemory`] as [`replay`], and where a batch finds no room. The feed isn't asked any more then.
pub fn replay_feed<M: Loads + Send, F: Feed, G: Gate + Sync, H: Threads + Wait + Sync>(
    rt: &H,
    alloc: Global,
    workers: u32,
    machine: M,
    feed: &mut F,
    gate: &G,
) -> Result<Replayed<M>, NoMemory>
    requires open { M.is_closed machine ≡ false }
    requires workers { 1 ≤ workers }
    requires next { F.next_txn feed.old ≡ M.next_txn (M.job machine) }
    requires types { (F.params feed.old ≡ M.params (M.job machine)) × (F.tables feed.old ≡ M.tables (M.job machine)) }
    ensures given { (batches : List ABatch) × HasFed F.so_far F.gives feed.old batches feed.new }
    ensures closed { IfOk result (λ r. M.is_closed r.machine ≡ true) }
    ensures finished { IfOk result (λ r. M.left r.machine ≡ 0) }
    ensures job { IfOk result (λ r. IsJobFed (HasFed F.so_far F.gives) M.with_batch (M.job machine) feed.old feed.new (M.job r.machine)) }
    ensures tallies { IfOk result (λ r. length r.tallies ≡ workers) }
    ensures counted { IfOk result (λ r. sum r.tallies + r.drained + M.size (M.job machine) ≡ M.left machine + M.size (M.job r.machine)) }
    ensures over { OnOk result (F.is_over feed.new ≡ true) }
    ensures same_types { (F.params feed.new ≡ F.params feed.old) × (F.tables feed.new ≡ F.tables feed.old) }
{
    feed.gives_none();
    let (pair, mut mine, twin) = Pair::new(alloc, &machine)?;
    let blank = Blank::new(u64::from(workers) + 1);
    let (replayed, mut twin) = feed_as::<M, Brand, F, G, H>(
        rt, alloc, blank, workers, machine, twin, &pair, &mut mine, feed, gate,
    )?;
    pair.show(&mut twin, &mut mine, &replayed.machine);
    Ok(replayed)
}

// Finishes the machine that a ledger stands for. Its twin comes back.
fn replay_as<M: Machine + Send, L: Lent + Send + Sync, G: Gate + Sync, H: Threads + Wait + Sync>(
    rt: &H,
    alloc: Global,
    blank: Blank,
    workers: u32,
    machine: M,
    twin: Twin<M>,
    gate: &G,
) -> Result<(Replayed<M>, Twin<M>), NoMemory>
    requires name { blank.name ≡ L.name }
    requires parts { (blank.parts ≡ L.parts) × (workers + 1 ≡ L.parts) }
    requires twin { IsShown L.pair machine twin }
    requires left { (M.left machine ≡ L.left) × (M.size (M.job machine) ≡ L.size) }
    requires workers { 1 ≤ workers }
    ensures closed { IfOk result (λ r. M.is_closed r.0.machine ≡ true) }
    ensures finished { IfOk result (λ r. M.left r.0.machine ≡ 0) }
    ensures told { IfOk result (λ r. TellsJob M.job L.pair (M.job r.0.machine) r.1) }
    ensures tallies { IfOk result (λ r. length r.0.tallies ≡ workers) }
    ensures counted { IfOk result (λ r. sum r.0.tallies + r.0.drained + L.size ≡ M.size (M.job r.0.machine) + L.left) }
{
    let (book, mut rest) = blank.open::<L>();
    let room = Vec::with_capacity(alloc, workers as usize)?;
    let mut tallies = tallies_of(alloc, workers, &mut rest)?;
    let monitor = Monitor {
        guarded: Mutex::new(Guarded::new(machine, twin, false, book)),
        changed: Condvar::new(),
        workers,
    };
    run_workers(rt, alloc, &monitor, gate, tallies.as_mut_slice());
    settle(monitor, room, tallies, rest)
}

// The same, while the caller's thread loads what a feed gives.
fn feed_as<
    M: Loads + Send,
    L: Lent + Send + Sync,
    F: Feed,
    G: Gate + Sync,
    H: Threads + Wait + Sync,
>(
    rt: &H,
    alloc: Global,
    blank: Blank,
    workers: u32,
    machine: M,
    twin: Twin<M>,
    pair: &Pair<M>,
    mine: &mut Twin<M>,
    feed: &mut F,
    gate: &G,
) -> Result<(Replayed<M>, Twin<M>), NoMemory>
    requires name { blank.name ≡ L.name }
    requires parts { (blank.parts ≡ L.parts) × (workers + 1 ≡ L.parts) }
    requires twin { IsShown L.pair machine twin }
    requires left { (M.left machine ≡ L.left) × (M.size (M.job machine) ≡ L.size) }
    requires workers { 1 ≤ workers }
    requires pair { pair.now ≡ L.pair }
    requires mine { Tells M.job M.is_closed L.pair (M.job machine) false mine.old }
    requires next { F.next_txn feed.old ≡ M.next_txn (M.job machine) }
    requires types { (F.params feed.old ≡ M.params (M.job machine)) × (F.tables feed.old ≡ M.tables (M.job machine)) }
    ensures given { (batches : List ABatch) × HasFed F.so_far F.gives feed.old batches feed.new }
    ensures closed { IfOk result (λ r. M.is_closed r.0.machine ≡ true) }
    ensures finished { IfOk result (λ r. M.left r.0.machine ≡ 0) }
    ensures told { IfOk result (λ r. TellsJob M.job L.pair (M.job r.0.machine) r.1) }
    ensures fed { OnOk result (IsFed (HasFed F.so_far F.gives) M.job M.is_closed M.with_batch L.pair (M.job machine) true feed.old feed.new mine.new) }
    ensures tallies { IfOk result (λ r. length r.0.tallies ≡ workers) }
    ensures counted { IfOk result (λ r. sum r.0.tallies + r.0.drained + L.size ≡ M.size (M.job r.0.machine) + L.left) }
    ensures over { OnOk result (F.is_over feed.new ≡ true) }
    ensures same_types { (F.params feed.new ≡ F.params feed.old) × (F.tables feed.new ≡ F.tables feed.old) }
{
    feed.gives_none();
    let (book, mut rest) = blank.open::<L>();
    let room = Vec::with_capacity(alloc, workers as usize)?;
    let mut tallies = tallies_of(alloc, workers, &mut rest)?;
    let monitor = Monitor {
        guarded: Mutex::new(Guarded::new(machine, twin, true, book)),
        changed: Condvar::new(),
        workers,
    };
    run_fed(
        rt,
        alloc,
        &monitor,
        gate,
        tallies.as_mut_slice(),
        pair,
        mine,
        feed,
    )?;
    settle(monitor, room, tallies, rest)
}

// Workers run pieces, each with its tally, until all are finished or there is no memory.
fn run_workers<M: Machine + Send, L: Lent + Send + Sync, G: Gate + Sync, H: Threads + Wait + Sync>(
    rt: &H,
    alloc: Global,
    monitor: &Monitor<M, L>,
    gate: &G,
    tallies: &mut [Tally<L>],
)
    ensures { length tallies.new ≡ length tallies.old }
{
    if monitor.workers > 0 {
        thread::for_each_mut(
            rt,
            tallies,
            monitor.workers as usize,
            &|_, tally| run_worker(rt, alloc, monitor, gate, tally),
        );
    }
}

// The same, while this thread loads what a feed gives.
fn run_fed<
    M: Loads + Send,
    L: Lent + Send + Sync,
    F: Feed,
    G: Gate + Sync,
    H: Threads + Wait + Sync,
>(
    rt: &H,
    alloc: Global,
    monitor: &Monitor<M, L>,
    gate: &G,
    tallies: &mut [Tally<L>],
    pair: &Pair<M>,
    mine: &mut Twin<M>,
    feed: &mut F,
) -> Result<(), NoMemory>
    requires pair { pair.now ≡ L.pair }
    requires mine { (all : M) × Tells M.job M.is_closed L.pair all false mine.old × (F.next_txn feed.old ≡ M.next_txn all) × (F.params feed.old ≡ M.params all) × (F.tables feed.old ≡ M.tables all) }
    ensures len { length tallies.new ≡ length tallies.old }
    ensures given { (batches : List ABatch) × HasFed F.so_far F.gives feed.old batches feed.new }
    ensures fed { (all : M) → Tells M.job M.is_closed L.pair all false mine.old → OnOk result (IsFed (HasFed F.so_far F.gives) M.job M.is_closed M.with_batch L.pair all true feed.old feed.new mine.new) }
    ensures over { OnOk result (F.is_over feed.new ≡ true) }
    ensures types { (F.params feed.new ≡ F.params feed.old) × (F.tables feed.new ≡ F.tables feed.old) }
{
    let (_, fed) = join_mut(
        rt,
        &mut || run_workers(rt, alloc, monitor, gate, tallies),
        &mut || -> Result<(), NoMemory>
            requires pair { pair.now ≡ L.pair }
            requires mine { (all : M) × Tells M.job M.is_closed L.pair all false mine.now × (F.next_txn feed.now ≡ M.next_txn all) × (F.params feed.now ≡ M.params all) × (F.tables feed.now ≡ M.tables all) }
            ensures given { (batches : List ABatch) × HasFed F.so_far F.gives feed.entry.now batches feed.exit.now }
            ensures fed { (all : M) → Tells M.job M.is_closed L.pair all false mine.entry.now → OnOk result (IsFed (HasFed F.so_far F.gives) M.job M.is_closed M.with_batch L.pair all true feed.entry.now feed.exit.now mine.exit.now) }
            ensures over { OnOk result (F.is_over feed.exit.now ≡ true) }
            ensures types { (F.params feed.exit.now ≡ F.params feed.entry.now) × (F.tables feed.exit.now ≡ F.tables feed.entry.now) }
        { feed_all(rt, monitor, pair, mine, feed) },
    );
    fed
}

// What workers left is finished. The twin that lay beside the machine comes back too.
fn settle<M: Machine, L: Lent>(
    monitor: Monitor<M, L>,
    room: Vec<u64>,
    tallies: Vec<Tally<L>>,
    rest: Share<L>,
) -> Result<(Replayed<M>, Twin<M>), NoMemory>
    requires room { (vec_len room ≡ 0) × (vec_capacity room ≡ vec_len tallies) }
    requires rest { (rest.parts ≡ 1) × (rest.amount ≡ 0) }
    requires parts { vec_len tallies + 1 ≡ L.parts }
    ensures closed { IfOk result (λ r. M.is_closed r.0.machine ≡ true) }
    ensures finished { IfOk result (λ r. M.left r.0.machine ≡ 0) }
    ensures told { IfOk result (λ r. TellsJob M.job L.pair (M.job r.0.machine) r.1) }
    ensures tallies { IfOk result (λ r. r.0.tallies ≡ map (λ tally. tally.count) tallies.items) }
    ensures counted { IfOk result (λ r. sum r.0.tallies + r.0.drained + L.size ≡ M.size (M.job r.0.machine) + L.left) }
{
    let Monitor {
        guarded,
        changed: _,
        workers: _,
    } = monitor;
    let (mut machine, twin, mut book) = guarded.into_inner().into_parts();
    let mut rest = rest;
    let tallies = counts_of(room, tallies, &mut rest);
    book.audit(&mut rest);
    machine.close();
    machine.reclaim();
    let drained = machine.drain()?;
    let replayed = Replayed {
        machine,
        tallies,
        drained,
    };
    Ok((replayed, twin))
}
