// Feeding a machine while workers run its pieces.
ghost use Rattle.std.specs.Prelude.{◌≡◌, ◌+◌, ◌^◌, ◌<◌, List, false, true, length, OnOk};
ghost use Rattle.std.specs.List.{AllByRecursion};
ghost use Rattle.pac_ops.specs.declared.batch.Batch.{Batch as ABatch};
ghost use Rattle.pac_ops.specs.Shapes.{TxnFitsTypes};
ghost use Rattle.pac_workers.specs.Fed.{HasFed};
ghost use Rattle.pac_workers.specs.Shown.{IsFed, Tells, TellsMore};

use crate::feed::Feed;
use crate::guarded::Guarded;
use crate::machine::Loads;
use crate::tally::Lent;
use crate::twins::{Pair, Twin};
use crate::worker::Monitor;
use pac_base::NoMemory;
use pac_ops::Batch;
use std::sync::Wait;

impl<M: Loads, L: Lent> Guarded<M, L> {
    /// Loads a batch. Both twins show the machine then; where there is no memory it is closed.
    pub fn load(&mut self, pair: &Pair<M>, mine: &mut Twin<M>, batch: Batch) -> Result<(), NoMemory>
        requires pair { pair.now ≡ L.pair }
        requires mine { (all : M) × Tells M.job M.is_closed L.pair all false mine.old × (batch.first ≡ M.next_txn all) × AllByRecursion (TxnFitsTypes (M.params all) (M.tables all)) batch.txns }
        requires numbers { batch.first + length batch.txns < 2 ^ 64 }
        ensures { (all : M) → Tells M.job M.is_closed L.pair all false mine.old → OnOk result (TellsMore M.job M.is_closed M.with_batch M.next_txn M.params M.tables L.pair all batch mine.new) }
    {
        let Guarded {
            machine,
            twin,
            is_fed,
            ..
        } = self;
        pair.show(twin, mine, machine);
        let loaded = machine.load(batch);
        if loaded.is_err() {
            machine.close();
            *is_fed = false;
        }
        pair.show(twin, mine, machine);
        loaded
    }

    /// No more batches come. Both twins show the machine then.
    pub fn end(&mut self, pair: &Pair<M>, mine: &mut Twin<M>)
        requires pair { pair.now ≡ L.pair }
        requires mine { (all : M) × Tells M.job M.is_closed L.pair all false mine.old }
        ensures { (all : M) → Tells M.job M.is_closed L.pair all false mine.old → Tells M.job M.is_closed L.pair all true mine.new }
    {
        let Guarded {
            machine,
            twin,
            is_fed,
            ..
        } = self;
        machine.close();
        *is_fed = false;
        pair.show(twin, mine, machine);
    }
}

/// Loads all that a feed gives, one batch in each hold of the lock, and closes the machine at its end.
///
/// # Errors
///
/// [`NoMemory`] where a batch finds no room. Then the machine is closed too, and the feed isn't asked any more.
pub(crate) fn feed_all<M: Loads, L: Lent, F: Feed, H: Wait>(
    rt: &H,
    monitor: &Monitor<M, L>,
    pair: &Pair<M>,
    mine: &mut Twin<M>,
    feed: &mut F,
) -> Result<(), NoMemory>
    requires pair { pair.now ≡ L.pair }
    requires mine { (all : M) × Tells M.job M.is_closed L.pair all false mine.old × (F.next_txn feed.old ≡ M.next_txn all) × (F.params feed.old ≡ M.params all) × (F.tables feed.old ≡ M.tables all) }
    ensures given { (batches : List ABatch) × HasFed F.so_far F.gives feed.old batches feed.new }
    ensures fed { (all : M) → Tells M.job M.is_closed L.pair all false mine.old → OnOk result (IsFed (HasFed F.so_far F.gives) M.job M.is_closed M.with_batch L.pair all true feed.old feed.new mine.new) }
    ensures over { OnOk result (F.is_over feed.new ≡ true) }
    ensures types { (F.params feed.new ≡ F.params feed.old) × (F.tables feed.new ≡ F.tables feed.old) }
{
    feed.gives_none();
    while let Some(batch) = feed.next() {
        load_next(rt, monitor, pair, mine, batch)?;
    }
    end(rt, monitor, pair, mine);
    Ok(())
}

// Loads a batch, and wakes the workers that rest.
fn load_next<M: Loads, L: Lent, H: Wait>(
    rt: &H,
    monitor: &Monitor<M, L>,
    pair: &Pair<M>,
    mine: &mut Twin<M>,
    batch: Batch,
) -> Result<(), NoMemory>
    requires pair { pair.now ≡ L.pair }
    requires mine { (all : M) × Tells M.job M.is_closed L.pair all false mine.old × (batch.first ≡ M.next_txn all) × AllByRecursion (TxnFitsTypes (M.params all) (M.tables all)) batch.txns }
    requires numbers { batch.first + length batch.txns < 2 ^ 64 }
    ensures { (all : M) → Tells M.job M.is_closed L.pair all false mine.old → OnOk result (TellsMore M.job M.is_closed M.with_batch M.next_txn M.params M.tables L.pair all batch mine.new) }
{
    let loaded = monitor.guarded.lock(rt).load(pair, mine, batch);
    monitor.changed.notify_all();
    loaded
}

// No more batches come, and the workers that rest are woken.
fn end<M: Loads, L: Lent, H: Wait>(
    rt: &H,
    monitor: &Monitor<M, L>,
    pair: &Pair<M>,
    mine: &mut Twin<M>,
)
    requires pair { pair.now ≡ L.pair }
    requires mine { (all : M) × Tells M.job M.is_closed L.pair all false mine.old }
    ensures { (all : M) → Tells M.job M.is_closed L.pair all false mine.old → Tells M.job M.is_closed L.pair all true mine.new }
{
    monitor.guarded.lock(rt).end(pair, mine);
    monitor.changed.notify_all();
}
