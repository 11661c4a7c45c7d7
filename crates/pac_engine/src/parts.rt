// What an engine holds, and the moves that call devices.
ghost use Rattle.std.specs.Prelude.{◌≡◌, ◌<◌, ◌≤◌, ℕ, List, All, [], true, length, IfOk, IsErrOf, MatchResult, OnErr, OnOk};
ghost use Rattle.pac_ops.specs.declared.limits.TheConstants.{MAX_TXNS};
ghost use Rattle.pac_ops.specs.declared.transaction.Txn.{Txn as ATxn};
ghost use Rattle.pac_outside.specs.Devices.{each, log_at, log_named, with_device};
ghost use Rattle.pac_outside.specs.Disk.{BothKnown, IfKnown};
ghost use Rattle.pac_types.specs.Fits.{FitTables, TxnFits};
ghost use Rattle.pac_entry.specs.declared.limits.TheConstants.{MAX_BODY_LEN};
ghost use Rattle.pac_log.specs.declared.header.Header.{Header as AHeader};
ghost use Rattle.pac_log.specs.declared.log.Stage.{Stage};
ghost use Rattle.pac_log.specs.Bodies.{body_bytes};
ghost use Rattle.pac_log.specs.Places.{IsAfter, LogEndsAt};
ghost use Rattle.pac_log.specs.Torn.{LogEndsAtEither};
ghost use Rattle.pac_check.specs.declared.limits.TheConstants.{MAX_SLOT_LEN};
ghost use Rattle.pac_check.specs.Checkpoints.{IsCheckpoint};
ghost use Rattle.pac_check.specs.Saved.{checkpoint_of};
ghost use Rattle.pac_check.specs.SlotStates.{active_of, by_slot, spare_of, with_ready};
ghost use Rattle.pac_session.specs.Groups.{saves_anew};
ghost use Rattle.pac_session.specs.Open.{rules_of, state_now};
ghost use Rattle.pac_engine.specs.Closing.{CountsFault, slot_len};
ghost use Rattle.pac_engine.specs.Committing.{HasAdded, HasRoomAt, IsCalledFor, IsOverFull, MayAdd, gate_past, with_batch};
ghost use Rattle.pac_engine.specs.Moves.{IsLive, IsUnmoved, IsWorking, committed_parts, saved_bytes, saved_head, saved_parts};
ghost use Rattle.pac_engine.specs.Standing.{HasDevices, KeepsMore, StandsForMore, durable_of, saved_of};

use crate::{EngineCause, commit};
use pac_check::{SaveError, Slots};
use pac_log::{Log, MAX_BASE};
use pac_ops::Txn;
use pac_outside::{Devices, Disk, LogName};
use pac_request::Replies;
use pac_session::Session;
use pac_store::write_checkpoint;
use std::alloc::Global;

/// What an engine is: a session, the log and the slots of its store, and whether it has ended.
#[derive(Drop)]
pub struct EngineParts {
    pub session: Session,
    pub log: Log,
    pub slots: Slots,
    pub ended: bool,
}

impl EngineParts {
    // Closes the open group: commits its transactions, and returns its replies.
    pub(crate) fn close<D: Disk>(
        &mut self,
        devices: &mut Devices<D>,
    ) -> Result<Replies, EngineCause>
        requires working { IsWorking self.old }
        requires ready { HasDevices D.known self.old devices.old }
        ensures given { IfOk result (λ given. given ≡ self.old.session.held) }
        ensures closed { OnOk result (self.new ≡ committed_parts self.old) }
        ensures unmoved { OnErr result (IsUnmoved self.old self.new) }
        ensures slot_a { devices.new.slot_a ≡ devices.old.slot_a }
        ensures slot_b { devices.new.slot_b ≡ devices.old.slot_b }
        ensures uncalled { ¬ IsErrOf result EngineCause.DiskFault → OnErr result ((devices.new ≡ devices.old) × HasDevices D.known self.new devices.new) }
        ensures torn { OnErr result (IfKnown (λ new. LogEndsAtEither self.old.log.gate (gate_past self.old.session.txns self.old.log.gate) new.now) (D.known (log_at (active_of self.old.slots) devices.new))) }
        ensures ready { OnOk result (HasDevices D.known self.new devices.new) }
        ensures keeps { KeepsMore D.known [] self.old self.new devices.old devices.new }
        ensures stands { OnOk result (StandsForMore D.known [] self.old self.new devices.old devices.new) }
        ensures full { (need : ℕ) → IsErrOf result (EngineCause.LogFull need) → IsOverFull self.old.log.gate.place self.old.session.txns need }
        ensures room { OnOk result (HasRoomAt self.old.log.gate.place self.old.session.txns) }
        ensures called { IsErrOf result EngineCause.DiskFault → IsCalledFor self.old.log.gate.place self.old.session.txns }
        ensures known { (bytes : ℕ) → ¬ IsErrOf result (EngineCause.TooLarge bytes) }
        ensures goes_on { ¬ IsErrOf result EngineCause.Ended }
        ensures faults { MatchResult result (λ _. each D.faults devices.new ≡ each D.faults devices.old) (λ cause. CountsFault cause (each D.faults devices.old) (each D.faults devices.new)) }
    {
        let _txns = self.log.gate().txns(); // so few that the numbers after them have 64 bits
        let (txns, replies) = self.session.close();
        let stored = commit_active(self.slots.active(), &mut self.log, devices, txns)?;
        self.session.reuse(stored);
        Ok(replies)
    }

    // Saves a checkpoint of the tables, after a group that was closed, and begins a segment of the log on the other device. Where the
    // newest slot has as many transactions, or too many came before, no device is called.
    pub(crate) fn save<D: Disk>(
        &mut self,
        alloc: Global,
        devices: &mut Devices<D>,
    ) -> Result<(), EngineCause>
        requires working { IsWorking self.old }
        requires none { self.old.session.txns ≡ [] }
        requires ready { HasDevices D.known self.old devices.old }
        ensures saved { OnOk result (self.new ≡ saved_parts self.old) }
        ensures unmoved { OnErr result (IsUnmoved self.old self.new) }
        ensures uncalled { ¬ IsErrOf result EngineCause.DiskFault → OnErr result ((self.new ≡ self.old) × (devices.new ≡ devices.old)) }
        ensures active { log_at (active_of self.old.slots) devices.new ≡ log_at (active_of self.old.slots) devices.old }
        ensures newest { by_slot (spare_of self.old.slots) (D.known devices.new.slot_b) (D.known devices.new.slot_a) ≡ by_slot (spare_of self.old.slots) (D.known devices.old.slot_b) (D.known devices.old.slot_a) }
        ensures ready { OnOk result (HasDevices D.known self.new devices.new) }
        ensures keeps { KeepsMore D.known [] self.old self.new devices.old devices.new }
        ensures stands { OnOk result (StandsForMore D.known [] self.old self.new devices.old devices.new) }
        ensures large { (bytes : ℕ) → IsErrOf result (EngineCause.TooLarge bytes) → (saves_anew (saved_of self.old) (durable_of self.old) ≡ true) × (bytes ≡ slot_len (rules_of self.old.session) (state_now self.old.session)) × (MAX_SLOT_LEN < bytes) }
        ensures writes { IsErrOf result EngineCause.DiskFault → saves_anew (saved_of self.old) (durable_of self.old) ≡ true }
        ensures small { saves_anew (saved_of self.old) (durable_of self.old) ≡ true → OnOk result (slot_len (rules_of self.old.session) (state_now self.old.session) ≤ MAX_SLOT_LEN) }
        ensures full { (need : ℕ) → ¬ IsErrOf result (EngineCause.LogFull need) }
        ensures goes_on { ¬ IsErrOf result EngineCause.Ended }
        ensures faults { MatchResult result (λ _. each D.faults devices.new ≡ each D.faults devices.old) (λ cause. CountsFault cause (each D.faults devices.old) (each D.faults devices.new)) }
    {
        let txns = self.log.gate().txns();
        if !self.saves_anew(txns) {
            return Ok(());
        }
        let _header = self.log.gate().header(); // its text has the catalogue, so there are few tables
        let segment = self.log.plan_next()?;
        self.prepare(alloc, txns)?;
        self.log = write_checkpoint(&mut self.slots, segment, devices)?;
        Ok(())
    }

    // Makes the checkpoint of the tables ready in memory, with the number that the log has.
    fn prepare(&mut self, alloc: Global, txns: u64) -> Result<(), EngineCause>
        requires working { IsWorking self.old }
        requires none { self.old.session.txns ≡ [] }
        requires txns { txns ≡ durable_of self.old }
        requires anew { saves_anew (saved_of self.old) (durable_of self.old) ≡ true }
        ensures ready { OnOk result (self.new ≡ record self.old { slots = with_ready (saved_head self.old) (saved_bytes self.old) self.old.slots }) }
        ensures form { OnOk result (IsCheckpoint self.old.session.catalogue.tables (checkpoint_of (length self.old.session.catalogue.tables) (saved_head self.old) self.old.session.tables)) }
        ensures fit { FitTables self.old.session.catalogue.tables self.old.session.tables }
        ensures refused { OnErr result (self.new ≡ self.old) }
        ensures large { (bytes : ℕ) → IsErrOf result (EngineCause.TooLarge bytes) → (bytes ≡ slot_len (rules_of self.old.session) (state_now self.old.session)) × (MAX_SLOT_LEN < bytes) }
        ensures small { OnOk result (slot_len (rules_of self.old.session) (state_now self.old.session) ≤ MAX_SLOT_LEN) }
        ensures no_fault { ¬ IsErrOf result EngineCause.DiskFault }
        ensures full { (need : ℕ) → ¬ IsErrOf result (EngineCause.LogFull need) }
        ensures goes_on { ¬ IsErrOf result EngineCause.Ended }
    {
        let place = self.log.next_place();
        match self.slots.prepare(
            alloc,
            self.session.catalogue(),
            self.session.rows(),
            txns,
            place,
        ) {
            Ok(()) => Ok(()),
            Err(SaveError::TooLarge { bytes }) => Err(EngineCause::TooLarge { bytes }),
            Err(SaveError::NoMemory) => Err(EngineCause::NoMemory),
            Err(SaveError::DiskFault) => unreachable!(),
        }
    }

    // Whether a save writes a checkpoint: the newest slot has fewer transactions, and the next segment may begin after so many.
    fn saves_anew(&self, txns: u64) -> bool
        requires { txns ≡ durable_of self.now }
        ensures { result ≡ saves_anew (saved_of self.now) (durable_of self.now) }
    {
        let is_saved = match self.slots.newest() {
            Some(info) => info.txns == txns,
            None => false,
        };
        !is_saved && txns <= MAX_BASE
    }
}

// Puts the transactions of a group after the others of the active segment, on its device, as `commit` does.
fn commit_active<D: Disk>(
    active: LogName,
    log: &mut Log,
    devices: &mut Devices<D>,
    txns: Vec<Txn>,
) -> Result<Vec<Txn>, EngineCause>
    requires waits { log.old.stage ≡ Stage.Waiting }
    requires ends { IfKnown (λ old. LogEndsAt log.old.gate old.now) (D.known (log_at active devices.old)) }
    requires few { length txns.items ≤ MAX_TXNS }
    requires fit { All (TxnFits log.old.gate.catalogue) txns.items }
    requires short { length (body_bytes txns.items) ≤ MAX_BODY_LEN }
    ensures moments { (header : AHeader) (batches : List (List ATxn)) → IsAfter header batches log.old.gate
        → BothKnown (MayAdd header log.old.gate.catalogue batches txns.items) (D.known (log_at active devices.old)) (D.known (log_at active devices.new)) }
    ensures added { OnOk result ((header : AHeader) (batches : List (List ATxn)) → IsAfter header batches log.old.gate
        → BothKnown (HasAdded header log.old.gate.catalogue batches txns.items) (D.known (log_at active devices.old)) (D.known (log_at active devices.new))) }
    ensures after { OnOk result ((header : AHeader) (batches : List (List ATxn)) → IsAfter header batches log.old.gate → IsAfter header (with_batch batches txns.items) log.new.gate) }
    ensures ends { OnOk result (IfKnown (λ new. LogEndsAt log.new.gate new.now) (D.known (log_at active devices.new))) }
    ensures gate { OnOk result (log.new.gate ≡ gate_past txns.items log.old.gate) }
    ensures kept { OnErr result (log.new.gate ≡ log.old.gate) }
    ensures waits { OnOk result (log.new.stage ≡ Stage.Waiting) }
    ensures others { devices.new ≡ with_device (log_named active) (log_at active devices.new) devices.old }
    ensures slot_a { devices.new.slot_a ≡ devices.old.slot_a }
    ensures slot_b { devices.new.slot_b ≡ devices.old.slot_b }
    ensures uncalled { ¬ IsErrOf result EngineCause.DiskFault → OnErr result (devices.new ≡ devices.old) }
    ensures torn { OnErr result (IfKnown (λ new. LogEndsAtEither log.old.gate (gate_past txns.items log.old.gate) new.now) (D.known (log_at active devices.new))) }
    ensures full { (need : ℕ) → IsErrOf result (EngineCause.LogFull need) → IsOverFull log.old.gate.place txns.items need }
    ensures room { OnOk result (HasRoomAt log.old.gate.place txns.items) }
    ensures called { IsErrOf result EngineCause.DiskFault → IsCalledFor log.old.gate.place txns.items }
    ensures known { (bytes : ℕ) → ¬ IsErrOf result (EngineCause.TooLarge bytes) }
    ensures goes_on { ¬ IsErrOf result EngineCause.Ended }
    ensures faults { MatchResult result (λ _. each D.faults devices.new ≡ each D.faults devices.old) (λ cause. CountsFault cause (each D.faults devices.old) (each D.faults devices.new)) }
{
    match active {
        LogName::Log => commit(log, &mut devices.log, txns),
        LogName::LogB => commit(log, &mut devices.log_b, txns),
    }
}
