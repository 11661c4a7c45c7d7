// Cuts the transactions of a script into batches.
ghost use Rattle.std.specs.Prelude.{◌≡◌, ◌≤◌, ◌<◌, ◌+◌, ◌^◌, OnOk, IfOk};
ghost use Rattle.pac_script.specs.declared.step.ScriptStep.TheVariants.{Add};
ghost use Rattle.pac_script.specs.Cutting.{nothing_cut, added, flushed, next_txn, IsSmall};
ghost use Rattle.pac_script.specs.ScriptReading.{asked_cut, IsSmallAsked};

use crate::step::{ScriptStep, step_of};
use pac_entry::{BODY_HEAD_LEN, MAX_BODY_LEN, entry_len};
use pac_ops::{Batch, MAX_TXNS, Txn, Txns};
use pac_request::Request;
use std::alloc::{AllocError, Global};
use std::marker::Model;

/// The batches that are closed, and the one that is open.
#[derive(Drop)]
pub(crate) struct Batcher {
    closed: Vec<Batch>,
    // The number of the first transaction that is held.
    first: u64,
    held: Vec<Txn>,
    // How many bytes the body of those that are held has.
    len: usize,
}

impl Model for Batcher {
    ghost use Rattle.std.specs.Prelude.{◌≡◌, ◌≤◌, length};
    ghost use Rattle.pac_ops.specs.declared.limits.TheConstants.{MAX_TXNS};
    ghost use Rattle.pac_entry.specs.declared.limits.TheConstants.{MAX_BODY_LEN};
    ghost use Rattle.pac_script.specs.Batches.{body_len};
    ghost use Rattle.pac_script.specs.Cutting.{Cut};

    ghost Value = { Cut };

    ghost view = { λ c. record { closed = c.closed.items; first = c.first; held = c.held.items } };

    ghost invariant = { λ c. (c.len ≡ body_len c.held.items) × (c.len ≤ MAX_BODY_LEN) × (length c.held.items ≤ MAX_TXNS) };
}

impl Batcher {
    pub fn new(alloc: Global) -> Batcher
        ensures { result ≡ nothing_cut }
    {
        Batcher {
            closed: Vec::new(alloc),
            first: 1,
            held: Vec::new(alloc),
            len: BODY_HEAD_LEN,
        }
    }

    // Closes the open batch, if it holds anything.
    fn flush(&mut self, alloc: Global) -> Result<(), AllocError>
        requires { next_txn self.old < 2 ^ 64 }
        ensures { OnOk result (self.new ≡ flushed self.old) }
    {
        if self.held.is_empty() {
            return Ok(());
        }
        let held = std::mem::replace(&mut self.held, Vec::new(alloc));
        let first = self.first;
        self.first += held.len() as u64;
        self.len = BODY_HEAD_LEN;
        self.closed.push(Batch {
            first,
            txns: Txns::of(held),
        })?;
        Ok(())
    }

    fn add(&mut self, alloc: Global, txn: Txn) -> Result<(), AllocError>
        requires { next_txn self.old < 2 ^ 64 }
        ensures cut { OnOk result (self.new ≡ added txn self.old) }
        ensures small { OnOk result (IsSmall (Add txn)) }
    {
        let len = entry_len(&txn);
        if self.held.len() >= MAX_TXNS || self.len + len > MAX_BODY_LEN {
            self.flush(alloc)?;
        }
        self.held.push(txn)?;
        self.len += len;
        Ok(())
    }

    /// Takes what the next line asks.
    pub fn take(&mut self, alloc: Global, asked: Option<Request>) -> Result<(), AllocError>
        requires { next_txn self.old < 2 ^ 64 }
        ensures cut { OnOk result (self.new ≡ asked_cut asked self.old) }
        // A batch can hold each transaction.
        ensures small { OnOk result (IsSmallAsked asked) }
    {
        let Some(request) = asked else {
            return Ok(());
        };
        match step_of(request) {
            None => Ok(()),
            Some(ScriptStep::Add(txn)) => self.add(alloc, txn),
            Some(ScriptStep::Flush) => self.flush(alloc),
        }
    }

    /// All batches.
    pub fn end(mut self, alloc: Global) -> Result<Vec<Batch>, AllocError>
        requires { next_txn self < 2 ^ 64 }
        ensures { IfOk result (λ batches. batches.items ≡ (flushed self).closed) }
    {
        self.flush(alloc)?;
        let Batcher { closed, .. } = self;
        Ok(closed)
    }
}
