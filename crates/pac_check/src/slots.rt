// Two slots.
ghost use Rattle.std.specs.Prelude.{◌≡◌, ◌<◌, ◌≤◌, ◌+◌, ◌∷◌, [], ℕ, List, length, IfOk, IsErrOf, OnErr, OnOk, None as NoInfo, None as NoReady, Some as HasInfo, true, false, Err};
ghost use Rattle.std.specs.FinMap as map;
ghost use Rattle.pac_outside.specs.Devices.{EitherFaulted};
ghost use Rattle.pac_outside.specs.Disk.{BothKnown, IsDurable, LeavesOnly, IfKnown};
ghost use Rattle.pac_outside.specs.GateByte.{IsOpen, IsShut, OneImage};
ghost use Rattle.pac_value.specs.State.{keys_of};
ghost use Rattle.pac_types.specs.Fits.{FitsCatalogue};
ghost use Rattle.pac_check.specs.declared.damage.SlotDamageKind.{SlotDamageKind as ADamageKind};
ghost use Rattle.pac_check.specs.declared.head.Head.{Head as AHead};
ghost use Rattle.pac_check.specs.declared.info.SlotName.{SlotName as ASlotName};
ghost use Rattle.pac_check.specs.declared.info.SlotInfo.{SlotInfo as ASlotInfo};
ghost use Rattle.pac_check.specs.declared.state.SlotState.{SlotState as AState};
ghost use Rattle.pac_check.specs.declared.limits.TheConstants.{MAX_SAVED_ROWS, MAX_SLOT_LEN};
ghost use Rattle.pac_check.specs.Checkpoints.{IsCheckpoint, checkpoint_bytes};
ghost use Rattle.pac_check.specs.Kinds.{slot_fault};
ghost use Rattle.pac_check.specs.Replacing.{BeginsAs, HasByte, IsOldOrShut, IsShutOrNew};
ghost use Rattle.pac_check.specs.Saved.{checkpoint_of};
ghost use Rattle.pac_check.specs.SlotStates.{HasAnyReady, HoldsInfo, IsAbove, IsSlotFront, HasReadyText, IsSlot, OpensExactly, active_in, active_of, by_slot, closed_slots, coming_head, front_read, info_of, newest_among, newest_of, published_slots, slot_read, spare_of, with_ready};

use crate::reading::{front_of, load_slot, look_at};
use crate::replacing::{close, open};
use crate::text::checkpoint_text;
use crate::{Head, SaveError, SlotError, SlotForm, SlotInfo, SlotName, SlotState};
use pac_base::{Listed, listed};
use pac_outside::{Disk, Failed, LogName};
use pac_tables::Rows;
use pac_types::Catalogue;
use std::alloc::Global;

/// What two slots begin with: which is the newest, and which segment that names. No catalogue is needed for it.
#[derive(Debug, Drop, PartialEq, Eq)]
pub struct SlotHeads {
    pub(crate) a: SlotState,
    pub(crate) b: SlotState,
}

impl SlotHeads {
    /// What two slots begin with. Of each 26 bytes are read at most, in one read.
    ///
    /// # Errors
    ///
    /// - [`SlotError::DiskFault`] where a call of a device failed, so only where its count of faults rose; no call comes after
    ///   it.
    /// - [`SlotError::Damaged`] where after an open gate no name, no numbers or no segment stand: the first fault, and slot a
    ///   before slot b. It comes only there, and there it does unless a device failed or there was no memory.
    /// - [`SlotError::NoMemory`] where there was no memory for what is read.
    pub fn attach<D: Disk>(alloc: Global, a: &mut D, b: &mut D) -> Result<SlotHeads, SlotError>
        ensures a { IfOk result (λ heads. IfKnown (λ old. IsSlotFront heads.a old.now.seen) (D.known a.old)) }
        ensures b { IfOk result (λ heads. IfKnown (λ old. IsSlotFront heads.b old.now.seen) (D.known b.old)) }

        // The first fault, of slot a before slot b.
        ensures damaged { (slot : ASlotName) (at : ℕ) (kind : ADamageKind) → IsErrOf result (SlotError.Damaged slot at kind) → IfKnown (λ old. front_read old.now.seen ≡ Err (slot_fault kind at)) (by_slot slot (D.known a.old) (D.known b.old)) }
        ensures first { (at : ℕ) (kind : ADamageKind) → IsErrOf result (SlotError.Damaged SlotName.B at kind) → IfKnown (λ old. (state : AState) × IsSlotFront state old.now.seen) (D.known a.old) }

        // Both are only read.
        ensures same_a { D.known a.new ≡ D.known a.old }
        ensures same_b { D.known b.new ≡ D.known b.old }
        ensures disk_fault { IsErrOf result SlotError.DiskFault → EitherFaulted (D.faults a.old) (D.faults a.new) (D.faults b.old) (D.faults b.new) }
        ensures quiet_a { ¬ IsErrOf result SlotError.DiskFault → D.faults a.new ≡ D.faults a.old }
        ensures quiet_b { ¬ IsErrOf result SlotError.DiskFault → D.faults b.new ≡ D.faults b.old }
    {
        let a = front_of(alloc, SlotName::A, a)?;
        let b = front_of(alloc, SlotName::B, b)?;
        Ok(SlotHeads { a, b })
    }

    /// The open slot with the greater number of transactions, slot a where they are equal. `None`: none is open. Takes no
    /// memory.
    pub fn newest(&self) -> Option<SlotInfo>
        ensures { result ≡ newest_among self.now.a self.now.b }
    {
        newest(&self.a, &self.b)
    }

    /// The segment that the newest slot names, and the log where none is open. Takes no memory.
    pub fn active(&self) -> LogName
        ensures { result ≡ active_in (newest_among self.now.a self.now.b) }
    {
        active(self.newest())
    }
}

// The open slot with the greater number of transactions.
fn newest(a: &SlotState, b: &SlotState) -> Option<SlotInfo>
    ensures { result ≡ newest_among a.now b.now }
{
    match (a.info(SlotName::A), b.info(SlotName::B)) {
        (None, b) => b,
        (Some(a), None) => Some(a),
        (Some(a), Some(b)) => Some(if a.txns < b.txns { b } else { a }),
    }
}

// The segment that the newest slot names.
fn active(newest: Option<SlotInfo>) -> LogName
    ensures { result ≡ active_in newest }
{
    match newest {
        None => LogName::Log,
        Some(info) => info.segment,
    }
}

/// A checkpoint in memory, which is to be put into a slot.
#[derive(Drop)]
pub struct ReadyText {
    pub(crate) head: Head,
    pub(crate) text: Listed<u8>,
}

/// Two slots, by what stands in each. There is no copy, so that a call that failed is not forgotten.
#[derive(Drop)]
pub struct Slots {
    pub(crate) a: SlotState,
    pub(crate) b: SlotState,
    /// Whether a call that writes failed. Nothing is written any more.
    pub(crate) has_failed: bool,
    pub(crate) ready: Option<ReadyText>,
}

impl Slots {
    /// What stands in two slots that begin so. Of one that is shut nothing is read. An open one is read up to the end of its
    /// checkpoint, in pieces of 262,144 bytes: it holds one of these at a time, and one row besides.
    ///
    /// # Errors
    ///
    /// - [`SlotError::DiskFault`] where a call of a device failed, so only where its count of faults rose; no call comes after
    ///   it.
    /// - [`SlotError::Damaged`] where an open gate isn't followed by a checkpoint of the catalogue: the first fault, and slot a
    ///   before slot b. It comes only there, and there it does unless a device failed or there was no memory.
    /// - [`SlotError::NoMemory`] where there was no memory for what is read.
    pub fn attach<D: Disk>(
        alloc: Global,
        heads: SlotHeads,
        cat: &Catalogue,
        a: &mut D,
        b: &mut D,
    ) -> Result<Slots, SlotError>
        requires heads_a { IfKnown (λ old. IsSlotFront heads.a old.now.seen) (D.known a.old) }
        requires heads_b { IfKnown (λ old. IsSlotFront heads.b old.now.seen) (D.known b.old) }

        // What stands in each: it is open where a checkpoint stands there, and nowhere else.
        ensures states { IfOk result (λ slots. (slots.a ≡ heads.a) × (slots.b ≡ heads.b)) }
        ensures a { IfOk result (λ slots. IfKnown (λ old. IsSlot cat.now.tables slots.a old.now.seen × OpensExactly cat.now.tables slots.a old.now.seen) (D.known a.old)) }
        ensures b { IfOk result (λ slots. IfKnown (λ old. IsSlot cat.now.tables slots.b old.now.seen × OpensExactly cat.now.tables slots.b old.now.seen) (D.known b.old)) }
        ensures works { IfOk result (λ slots. slots.has_failed ≡ false) }
        ensures none_ready { IfOk result (λ slots. slots.ready ≡ NoReady) }

        // The first fault, of slot a before slot b.
        ensures damaged { (slot : ASlotName) (at : ℕ) (kind : ADamageKind) → IsErrOf result (SlotError.Damaged slot at kind) → IfKnown (λ old. slot_read cat.now.tables old.now.seen ≡ Err (slot_fault kind at)) (by_slot slot (D.known a.old) (D.known b.old)) }
        ensures first { (at : ℕ) (kind : ADamageKind) → IsErrOf result (SlotError.Damaged SlotName.B at kind) → IfKnown (λ old. (state : AState) × IsSlot cat.now.tables state old.now.seen) (D.known a.old) }

        // Both are only read.
        ensures same_a { D.known a.new ≡ D.known a.old }
        ensures same_b { D.known b.new ≡ D.known b.old }
        ensures disk_fault { IsErrOf result SlotError.DiskFault → EitherFaulted (D.faults a.old) (D.faults a.new) (D.faults b.old) (D.faults b.new) }
        ensures quiet_a { ¬ IsErrOf result SlotError.DiskFault → D.faults a.new ≡ D.faults a.old }
        ensures quiet_b { ¬ IsErrOf result SlotError.DiskFault → D.faults b.new ≡ D.faults b.old }
    {
        look_at(alloc, cat, SlotName::A, heads.a, a)?;
        look_at(alloc, cat, SlotName::B, heads.b, b)?;
        Ok(Slots {
            a: heads.a,
            b: heads.b,
            has_failed: false,
            ready: None,
        })
    }

    /// What is known of a slot, where it is open. Takes no memory.
    pub fn info(&self, slot: SlotName) -> Option<SlotInfo>
        ensures { result ≡ info_of slot (by_slot slot self.now.a self.now.b) }
    {
        match slot {
            SlotName::A => self.a.info(slot),
            SlotName::B => self.b.info(slot),
        }
    }

    /// The open slot with the greater number of transactions, slot a where they are equal. `None`: none is open. Takes no
    /// memory.
    pub fn newest(&self) -> Option<SlotInfo>
        ensures { result ≡ newest_of self.now }
    {
        newest(&self.a, &self.b)
    }

    /// The segment that the newest slot names, and the log where none is open. Takes no memory.
    pub fn active(&self) -> LogName
        ensures { result ≡ active_of self.now }
    {
        active(self.newest())
    }

    // The slot that is written next: the one that isn't the newest, slot a where none is open.
    fn spare(&self) -> SlotName
        ensures { result ≡ spare_of self.now }
    {
        match self.newest() {
            Some(info) if info.slot == SlotName::A => SlotName::B,
            _ => SlotName::A,
        }
    }

    /// Reads the tables of the newest slot into tables without rows; where no slot is open they stay so. It holds a piece
    /// of the device, of 262,144 bytes, besides the rows. After an error what the tables hold isn't said.
    ///
    /// # Errors
    ///
    /// Those of [`Slots::attach`], and `Place` of the newest slot where its head isn't the one that was read before: something wrote it
    /// since. Where the devices' contents are known, no damage is found.
    pub fn load_newest<D: Disk, R: Rows>(
        &self,
        alloc: Global,
        cat: &Catalogue,
        a: &mut D,
        b: &mut D,
        rows: &mut R,
    ) -> Result<(), SlotError>
        requires empty { R.held rows.old ≡ map.empty }
        requires count { R.tables rows.old ≡ length cat.now.tables }
        requires holds_a { IfKnown (λ old. IsSlot cat.now.tables self.now.a old.now.seen) (D.known a.old) }
        requires holds_b { IfKnown (λ old. IsSlot cat.now.tables self.now.b old.now.seen) (D.known b.old) }

        // The tables are those of the checkpoint that stands in the newest slot.
        ensures fits { OnOk result (FitsCatalogue cat.now (R.tables rows.new) (R.held rows.new)) }
        ensures none { newest_of self.now ≡ NoInfo → OnOk result (R.held rows.new ≡ map.empty) }
        ensures loaded { (info : ASlotInfo) → newest_of self.now ≡ HasInfo info → OnOk result (IfKnown (λ old. HoldsInfo cat.now.tables info (R.held rows.new) old.now.seen) (by_slot info.slot (D.known a.old) (D.known b.old))) }
        ensures whole { (slot : ASlotName) (at : ℕ) (kind : ADamageKind) → IsErrOf result (SlotError.Damaged slot at kind) → IfKnown (λ old. ⊥) (by_slot slot (D.known a.old) (D.known b.old)) }

        // Both are only read.
        ensures same_a { D.known a.new ≡ D.known a.old }
        ensures same_b { D.known b.new ≡ D.known b.old }
        ensures disk_fault { IsErrOf result SlotError.DiskFault → EitherFaulted (D.faults a.old) (D.faults a.new) (D.faults b.old) (D.faults b.new) }
        ensures quiet_a { ¬ IsErrOf result SlotError.DiskFault → D.faults a.new ≡ D.faults a.old }
        ensures quiet_b { ¬ IsErrOf result SlotError.DiskFault → D.faults b.new ≡ D.faults b.old }
    {
        match self.newest() {
            None => Ok(()),
            Some(info) => match info.slot {
                SlotName::A => load_slot(alloc, cat, &info, a, rows),
                SlotName::B => load_slot(alloc, cat, &info, b, rows),
            },
        }
    }

    /// Makes the checkpoint of tables ready in memory: the tables after `txns` transactions, after which a gate stands at this
    /// offset of the segment that isn't active. It takes memory for the checkpoint's text, and calls no device.
    ///
    /// # Errors
    ///
    /// The slots are left as they were.
    ///
    /// - [`SaveError::TooLarge`] exactly where the slot would have more than 268,435,456 bytes, unless there was no memory.
    /// - [`SaveError::NoMemory`] where there was no memory for the text.
    pub fn prepare<R: Rows>(
        &mut self,
        alloc: Global,
        cat: &Catalogue,
        rows: &R,
        txns: u64,
        place: u64,
    ) -> Result<(), SaveError>
        requires fits { FitsCatalogue cat.now (R.tables rows.now) (R.held rows.now) }
        requires few { (table : ℕ) → table < R.tables rows.now → length (keys_of (R.held rows.now) table) ≤ MAX_SAVED_ROWS }
        requires above { IsAbove (newest_of self.old) txns }
        ensures ready { OnOk result (self.new ≡ with_ready (coming_head self.old txns place) (checkpoint_bytes (checkpoint_of (length cat.now.tables) (coming_head self.old txns place) (R.held rows.now))) self.old) }
        ensures form { OnOk result (IsCheckpoint cat.now.tables (checkpoint_of (length cat.now.tables) (coming_head self.old txns place) (R.held rows.now))) }
        ensures refused { OnErr result (self.new ≡ self.old) }

        // When each refusal comes.
        ensures too_large { (bytes : ℕ) → IsErrOf result (SaveError.TooLarge bytes) → (MAX_SLOT_LEN < bytes) × (bytes ≡ 1 + length (checkpoint_bytes (checkpoint_of (length cat.now.tables) (coming_head self.old txns place) (R.held rows.now)))) }
        ensures room { OnOk result (1 + length (checkpoint_bytes (checkpoint_of (length cat.now.tables) (coming_head self.old txns place) (R.held rows.now))) ≤ MAX_SLOT_LEN) }
        ensures only { ¬ IsErrOf result SaveError.DiskFault }
    {
        let form = SlotForm::Later {
            segment: self.active().other(),
        };
        let head = Head { txns, place, form };
        let text = checkpoint_text(alloc, cat, rows, head)?;
        let text = listed(text);
        self.ready = Some(ReadyText { head, text });
        Ok(())
    }

    /// ClosesSlot the slot that is to be used: where its gate is open, or its device has no byte, it writes 0 at offset 0 and syncs.
    /// At each moment a crash leaves the other slot as it is, and this one as it was, or closed. Takes no memory.
    ///
    /// # Errors
    ///
    /// [`Failed`] where a call of a device failed, so only where its count of faults rose; no call comes after it, and the slots
    /// have failed.
    pub fn close_older<D: Disk>(&mut self, a: &mut D, b: &mut D) -> Result<(), Failed>
        requires works { self.old.has_failed ≡ false }
        requires begins_a { IfKnown (λ old. OneImage (BeginsAs self.old.a) old.now) (D.known a.old) }
        requires begins_b { IfKnown (λ old. OneImage (BeginsAs self.old.b) old.now) (D.known b.old) }

        // At each moment the slot is as it was, or closed; of one that had no byte nothing is said.
        ensures any_moment { HasByte (by_slot (spare_of self.old) self.old.a self.old.b)
            → BothKnown (λ old new. LeavesOnly (IsOldOrShut old.now.seen) old new) (by_slot (spare_of self.old) (D.known a.old) (D.known b.old)) (by_slot (spare_of self.old) (D.known a.new) (D.known b.new)) }
        ensures other { by_slot (spare_of self.old) (D.known b.new) (D.known a.new) ≡ by_slot (spare_of self.old) (D.known b.old) (D.known a.old) }

        // Afterwards it is closed.
        ensures closed { OnOk result (BothKnown (λ old new. OneImage (IsShut []) new.now) (by_slot (spare_of self.old) (D.known a.old) (D.known b.old)) (by_slot (spare_of self.old) (D.known a.new) (D.known b.new))) }
        ensures slots { OnOk result (self.new ≡ closed_slots self.old) }
        ensures failed { OnErr result (self.new ≡ record self.old { has_failed = true }) }

        // No call of a device comes after one that failed.
        ensures disk_fault { OnErr result (EitherFaulted (D.faults a.old) (D.faults a.new) (D.faults b.old) (D.faults b.new)) }
        ensures quiet_a { OnOk result (D.faults a.new ≡ D.faults a.old) }
        ensures quiet_b { OnOk result (D.faults b.new ≡ D.faults b.old) }
    {
        match self.spare() {
            SlotName::A => close(a, &mut self.a, &mut self.has_failed),
            SlotName::B => close(b, &mut self.b, &mut self.has_failed),
        }
    }

    /// Puts the checkpoint that is ready into the closed slot that isn't the newest: it writes the text, syncs, opens the gate,
    /// and syncs. At each moment a crash leaves the other slot as it is, and this one closed, or with the whole checkpoint. From
    /// Ok on this slot is the newest, and the segment that it names is active. Takes no memory.
    ///
    /// # Errors
    ///
    /// [`Failed`], as of [`Slots::close_older`].
    pub fn publish<D: Disk>(&mut self, a: &mut D, b: &mut D) -> Result<(), Failed>
        requires works { self.old.has_failed ≡ false }
        requires ready { HasAnyReady self.old }
        requires closed { by_slot (spare_of self.old) self.old.a self.old.b ≡ SlotState.Closed }
        requires begins_a { IfKnown (λ old. OneImage (BeginsAs self.old.a) old.now) (D.known a.old) }
        requires begins_b { IfKnown (λ old. OneImage (BeginsAs self.old.b) old.now) (D.known b.old) }

        // At each moment the slot is closed, or has the whole checkpoint.
        ensures any_moment { (head : AHead) (text : List ℕ) → HasReadyText self.old head text
            → BothKnown (λ old new. LeavesOnly (IsShutOrNew text) old new) (by_slot (spare_of self.old) (D.known a.old) (D.known b.old)) (by_slot (spare_of self.old) (D.known a.new) (D.known b.new)) }
        ensures other { by_slot (spare_of self.old) (D.known b.new) (D.known a.new) ≡ by_slot (spare_of self.old) (D.known b.old) (D.known a.old) }

        // Afterwards it has the checkpoint, and nothing else was written.
        ensures published { OnOk result ((head : AHead) (text : List ℕ) → HasReadyText self.old head text
            → BothKnown (λ old new. OneImage (IsOpen [] text) new.now) (by_slot (spare_of self.old) (D.known a.old) (D.known b.old)) (by_slot (spare_of self.old) (D.known a.new) (D.known b.new))) }
        ensures durable { OnOk result ((head : AHead) (text : List ℕ) → HasReadyText self.old head text
            → BothKnown (IsDurable 0 (1 ∷ text)) (by_slot (spare_of self.old) (D.known a.old) (D.known b.old)) (by_slot (spare_of self.old) (D.known a.new) (D.known b.new))) }
        ensures slots { OnOk result ((head : AHead) (text : List ℕ) → HasReadyText self.old head text → self.new ≡ published_slots head self.old) }
        ensures failed { OnErr result ((self.new.a ≡ self.old.a) × (self.new.b ≡ self.old.b) × (self.new.has_failed ≡ true)) }

        // No call of a device comes after one that failed.
        ensures disk_fault { OnErr result (EitherFaulted (D.faults a.old) (D.faults a.new) (D.faults b.old) (D.faults b.new)) }
        ensures quiet_a { OnOk result (D.faults a.new ≡ D.faults a.old) }
        ensures quiet_b { OnOk result (D.faults b.new ≡ D.faults b.old) }
    {
        let spare = self.spare();
        let Some(ReadyText { head, text }) = self.ready.take() else {
            unreachable!();
        };
        match spare {
            SlotName::A => open(a, &mut self.a, &mut self.has_failed, head, text.as_slice()),
            SlotName::B => open(b, &mut self.b, &mut self.has_failed, head, text.as_slice()),
        }
    }
}
