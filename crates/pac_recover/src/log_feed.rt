// A feed of the batches of a log.
ghost use Rattle.std.specs.Prelude.{◌≡◌, ◌≢◌, ◌≤◌, ◌<◌, ◌+◌, ◌-◌, ◌^◌, ◌++◌, ◌∷◌, [], List, Option as AOption, Some as ASome, None as ANone, All, IfErr, IfOk, OnOk, length, map, is_some, true};
ghost use Rattle.pac_ops.specs.declared.batch.Batch.{Batch as ABatch};
ghost use Rattle.pac_outside.specs.Disk.{DiskHistory};
ghost use Rattle.pac_types.specs.Fits.{TxnFits, shape};
ghost use Rattle.pac_flat.specs.FlatForm.{program_of};
ghost use Rattle.pac_log.specs.declared.limits.TheConstants.{MAX_BASE};
ghost use Rattle.pac_log.specs.declared.position.NextGate.{NextGate as ANextGate};
ghost use Rattle.pac_log.specs.Bodies.{body_bytes};
ghost use Rattle.pac_recover.specs.declared.log_feed.FeedEnd.{FeedEnd as AFeedEnd};
ghost use Rattle.pac_recover.specs.FedLogs.{AreBodiesCounted, AreCounted, IsGivenOfLog, is_end, refusal_of};

use pac_log::{LogError, LogReader};
use pac_ops::Batch;
use pac_outside::Disk;
use pac_workers::{Feed, GhostList};

/// Why a feed of a log gives no more.
#[derive(Clone, Copy, Debug, PartialEq, Eq)]
pub enum FeedEnd {
    /// The bodies of what it gave are as long as its window.
    Window,
    /// The log ends.
    End,
    /// A batch couldn't be read.
    Refused(LogError),
}

/// Gives the batches of a log from the reader's gate on, until their bodies are as long as a window. The reader stands after
/// them. What was given is appended to a list that has no bytes.
#[derive(Drop)]
pub struct LogFeed<'r, 'd, 'l, D: Disk> {
    reader: &'r mut LogReader,
    disk: &'d mut D,
    /// How many bytes the bodies have that are missing until its window is full.
    missing: u64,
    end: Option<FeedEnd>,
    so_far: &'l mut GhostList<Batch>,
}

impl<'r, 'd, 'l, D: Disk> LogFeed<'r, 'd, 'l, D> {
    /// Nothing is given. It takes no memory.
    pub fn new(
        reader: &'r mut LogReader,
        disk: &'d mut D,
        so_far: &'l mut GhostList<Batch>,
        window: u64,
    ) -> LogFeed<'r, 'd, 'l, D>
        requires { 1 ≤ window }
        ensures reader { result.reader ≡ reader.entry }
        ensures disk { result.disk ≡ disk.entry }
        ensures missing { result.missing ≡ window }
        ensures end { result.end ≡ ANone }
        ensures so_far { result.so_far ≡ so_far.entry }
    {
        LogFeed {
            reader,
            disk,
            missing: window,
            end: None,
            so_far,
        }
    }

    /// Why no more came.
    pub fn end(&self) -> FeedEnd
        requires { is_some self.now.end ≡ true }
        ensures { self.now.end ≡ ASome result }
    {
        let Some(end) = self.end else { unreachable!() };
        end
    }

    /// Whether it ended because the log ends.
    pub(crate) fn is_at_end(&self) -> bool
        ensures { result ≡ is_end self.now.end }
    {
        matches!(self.end, Some(FeedEnd::End))
    }

    /// Why a batch couldn't be read, where that ended it.
    pub(crate) fn refusal(&self) -> Option<LogError>
        ensures { result ≡ refusal_of self.now.end }
    {
        match self.end {
            Some(FeedEnd::Refused(cause)) => Some(cause),
            _ => None,
        }
    }
}

impl<'r, 'd, 'l, D: Disk> Feed for LogFeed<'r, 'd, 'l, D> {
    ghost so_far = { λ feed. feed.so_far.now.items };

    ghost gives = { λ old given new. (new.reader.ghost_name ≡ old.reader.ghost_name) × (new.disk.ghost_name ≡ old.disk.ghost_name)
        × AreBodiesCounted old.missing new.missing given old.end new.end
        × (old.end ≡ ANone → AreCounted (D.faults old.disk.now) (D.faults new.disk.now) new.end)
        × IsGivenOfLog (D.known old.disk.now) (D.known new.disk.now) old.reader.now.gate new.reader.now.gate given old.end new.end };

    ghost is_over = { λ feed. is_some feed.end };

    ghost room = { λ feed. (MAX_BASE + 2 ^ 63) - feed.reader.now.gate.txns };

    ghost next_txn = { λ feed. feed.reader.now.gate.txns + 1 };

    ghost params = { λ feed. map (λ program. program.params) (map program_of feed.reader.now.gate.catalogue.procs) };

    ghost tables = { λ feed. map shape feed.reader.now.gate.catalogue.tables };

    fn next(&mut self) -> Option<Batch> {
        if self.end.is_some() {
            return None;
        }
        if self.missing == 0 {
            self.end = Some(FeedEnd::Window);
            return None;
        }
        let before = self.reader.gate().place();
        match read(self.reader, self.disk) {
            Ok(batch) => {
                let len = self.reader.gate().place().saturating_sub(before);
                self.missing = self.missing.saturating_sub(len.saturating_sub(1)); // but for the gate
                *self.so_far = self.so_far.with(&batch);
                Some(batch)
            }
            Err(end) => {
                self.end = Some(end);
                None
            }
        }
    }

    fn gives_none(&self) {}
}

// The next batch of a log, or why none comes.
fn read<D: Disk>(reader: &mut LogReader, disk: &mut D) -> Result<Batch, FeedEnd>
    ensures given { IfOk result (λ batch. (known : AOption DiskHistory) (from : ANextGate) (batches : List ABatch) (end : AOption AFeedEnd) → IsGivenOfLog known (D.known disk.old) from reader.old.gate batches end ANone
        → IsGivenOfLog known (D.known disk.new) from reader.new.gate (batches ++ batch ∷ []) end ANone) }
    ensures ends { IfErr result (λ cause. (known : AOption DiskHistory) (from : ANextGate) (batches : List ABatch) (end : AOption AFeedEnd) → IsGivenOfLog known (D.known disk.old) from reader.old.gate batches end ANone
        → IsGivenOfLog known (D.known disk.new) from reader.new.gate batches end (ASome cause)) }
    ensures other { IfErr result (λ cause. cause ≢ FeedEnd.Window) }
    ensures kept { OnOk result (D.faults disk.new ≡ D.faults disk.old) }
    ensures counted { IfErr result (λ cause. AreCounted (D.faults disk.old) (D.faults disk.new) (ASome cause)) }
    ensures catalogue { reader.new.gate.catalogue ≡ reader.old.gate.catalogue }
    ensures first { IfOk result (λ batch. batch.first ≡ reader.old.gate.txns + 1) }
    ensures next { IfOk result (λ batch. reader.new.gate.txns + 1 ≡ batch.first + length batch.txns) }
    ensures some { IfOk result (λ batch. 1 ≤ length batch.txns) }
    ensures place { IfOk result (λ batch. reader.new.gate.place ≡ reader.old.gate.place + (1 + length (body_bytes batch.txns))) }
    ensures few { IfOk result (λ batch. reader.new.gate.txns ≤ MAX_BASE + 2 ^ 63) }
    ensures fits { IfOk result (λ batch. All (TxnFits reader.old.gate.catalogue) batch.txns) }
{
    match reader.next_batch(disk) {
        Ok(Some(batch)) => {
            let _few = reader.gate().txns();
            Ok(batch)
        }
        Ok(None) => Err(FeedEnd::End),
        Err(cause) => Err(FeedEnd::Refused(cause)),
    }
}
