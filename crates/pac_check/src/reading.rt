// Reads one slot from its device.
ghost use Rattle.std.specs.Prelude.{◌≡◌, [], ◌∷◌, ℕ, length, take, IfErr, IfOk, IsErrOf, MatchResult, OnErr, OnOk, Ok, Err};
ghost use Rattle.std.specs.FinMap as map;
ghost use Rattle.pac_outside.specs.Causes.{one_more};
ghost use Rattle.pac_outside.specs.Disk.{IfKnown};
ghost use Rattle.pac_types.specs.Fits.{FitsCatalogue};
ghost use Rattle.pac_check.specs.declared.damage.SlotDamageKind.{SlotDamageKind as ADamageKind};
ghost use Rattle.pac_check.specs.declared.head.Head.{Head as AHead};
ghost use Rattle.pac_check.specs.declared.info.SlotName.{SlotName as ASlotName};
ghost use Rattle.pac_check.specs.Kinds.{slot_fault};
ghost use Rattle.pac_check.specs.SlotStates.{HoldsRows, IsSlotFront, IsSlot, OpensExactly, front_read, info_with, slot_read};

use crate::damage::error_in;
use crate::descent::checkpoint_from;
use crate::head::{FRONT_LEN, Head, front_at};
use crate::pieces::Pieces;
use crate::taker::Passer;
use crate::{SlotDamageKind, SlotError, SlotFault, SlotInfo, SlotName, SlotState};
use pac_outside::{Disk, GATE_OPEN, read_piece};
use pac_tables::Rows;
use pac_types::Catalogue;
use std::alloc::Global;

// Where a checkpoint's number of transactions stands, after the gate and the name.
const TXNS_AT: u64 = 9;

/// What a slot begins with: of one that is shut no more than its gate byte is looked at, and of an open one what stands before the
/// number of tables.
///
/// # Errors
///
/// A fault of the device, the first damage among these bytes, or `NoMemory`.
pub(crate) fn front_of<D: Disk>(
    alloc: Global,
    slot: SlotName,
    disk: &mut D,
) -> Result<SlotState, SlotError>
    ensures state { IfOk result (λ state. IfKnown (λ old. IsSlotFront state old.now.seen) (D.known disk.old)) }
    ensures damaged { (name : ASlotName) (at : ℕ) (kind : ADamageKind) → IsErrOf result (SlotError.Damaged name at kind) → (name ≡ slot) × IfKnown (λ old. front_read old.now.seen ≡ Err (slot_fault kind at)) (D.known disk.old) }
    ensures same { D.known disk.new ≡ D.known disk.old }
    ensures counted { IsErrOf result SlotError.DiskFault → D.faults disk.new ≡ one_more (D.faults disk.old) }
    ensures quiet { ¬ IsErrOf result SlotError.DiskFault → D.faults disk.new ≡ D.faults disk.old }
{
    let bytes = read_piece(alloc, disk, 0, 1 + FRONT_LEN)?;
    match front_in(&bytes) {
        Ok(state) => Ok(state),
        Err(fault) => Err(SlotError::Damaged {
            slot,
            at: fault.at as u64,
            kind: fault.kind,
        }),
    }
}

// The same, of these bytes.
fn front_in(bytes: &[u8]) -> Result<SlotState, SlotFault>
    ensures { MatchResult result (λ state. front_read bytes.now ≡ Ok state) (λ fault. front_read bytes.now ≡ Err fault) }
{
    match bytes.first() {
        None => Ok(SlotState::Empty),
        Some(&GATE_OPEN) => {
            let (head, _) = front_at(bytes, 1)?;
            Ok(SlotState::Open(head))
        }
        Some(_) => Ok(SlotState::Closed),
    }
}

/// Whether what stands in a slot that begins so is whole. Of one that is shut nothing is read; an open one is read in pieces, up
/// to the end of its checkpoint, and no row is kept.
///
/// # Errors
///
/// A fault of the device, the first damage of this slot, or `NoMemory`.
pub(crate) fn look_at<D: Disk>(
    alloc: Global,
    cat: &Catalogue,
    slot: SlotName,
    state: SlotState,
    disk: &mut D,
) -> Result<(), SlotError>
    requires { IfKnown (λ old. IsSlotFront state old.now.seen) (D.known disk.old) }
    ensures state { OnOk result (IfKnown (λ old. IsSlot cat.now.tables state old.now.seen × OpensExactly cat.now.tables state old.now.seen) (D.known disk.old)) }
    ensures damaged { (name : ASlotName) (at : ℕ) (kind : ADamageKind) → IsErrOf result (SlotError.Damaged name at kind) → (name ≡ slot) × IfKnown (λ old. slot_read cat.now.tables old.now.seen ≡ Err (slot_fault kind at)) (D.known disk.old) }
    ensures same { D.known disk.new ≡ D.known disk.old }
    ensures counted { IsErrOf result SlotError.DiskFault → D.faults disk.new ≡ one_more (D.faults disk.old) }
    ensures quiet { ¬ IsErrOf result SlotError.DiskFault → D.faults disk.new ≡ D.faults disk.old }
{
    match state {
        SlotState::Empty | SlotState::Closed => Ok(()),
        SlotState::Open(_) => look_at_open(alloc, cat, slot, disk),
    }
}

// What stands in a slot whose gate is open.
fn look_at_open<D: Disk>(
    alloc: Global,
    cat: &Catalogue,
    slot: SlotName,
    disk: &mut D,
) -> Result<(), SlotError>
    requires { IfKnown (λ old. take 1 old.now.seen ≡ 1 ∷ []) (D.known disk.old) }
    ensures state { OnOk result (IfKnown (λ old. (head : AHead) × IsSlot cat.now.tables (SlotState.Open head) old.now.seen × OpensExactly cat.now.tables (SlotState.Open head) old.now.seen) (D.known disk.old)) }
    ensures damaged { (name : ASlotName) (at : ℕ) (kind : ADamageKind) → IsErrOf result (SlotError.Damaged name at kind) → (name ≡ slot) × IfKnown (λ old. slot_read cat.now.tables old.now.seen ≡ Err (slot_fault kind at)) (D.known disk.old) }
    ensures same { D.known disk.new ≡ D.known disk.old }
    ensures counted { IsErrOf result SlotError.DiskFault → D.faults disk.new ≡ one_more (D.faults disk.old) }
    ensures quiet { ¬ IsErrOf result SlotError.DiskFault → D.faults disk.new ≡ D.faults disk.old }
{
    let mut pieces = Pieces::open(alloc, disk, 1)?;
    match checkpoint_from(alloc, cat.tables(), &mut pieces, disk, &mut Passer) {
        Ok(_) => Ok(()),
        Err(stop) => Err(error_in(slot, stop)),
    }
}

/// Reads the tables of an open slot, of which this is known, into tables without rows.
///
/// # Errors
///
/// Those of [`look_at`], and `Place` where something else is known of what stands there now.
pub(crate) fn load_slot<D: Disk, R: Rows>(
    alloc: Global,
    cat: &Catalogue,
    info: &SlotInfo,
    disk: &mut D,
    rows: &mut R,
) -> Result<(), SlotError>
    requires empty { R.held rows.old ≡ map.empty }
    requires count { R.tables rows.old ≡ length cat.now.tables }
    ensures fits { OnOk result (FitsCatalogue cat.now (R.tables rows.new) (R.held rows.new)) }
    ensures loaded { OnOk result (IfKnown (λ old. (head : AHead) → IsSlot cat.now.tables (SlotState.Open head) old.now.seen → HoldsRows cat.now.tables head (R.held rows.new) old.now.seen) (D.known disk.old)) }
    ensures same_info { OnOk result (IfKnown (λ old. (head : AHead) → IsSlot cat.now.tables (SlotState.Open head) old.now.seen → info_with info.now.slot head ≡ info.now) (D.known disk.old)) }
    ensures damaged { (name : ASlotName) (at : ℕ) (kind : ADamageKind) → IsErrOf result (SlotError.Damaged name at kind) → (name ≡ info.now.slot) × IfKnown (λ old. (head : AHead) → info_with info.now.slot head ≡ info.now → ¬ IsSlot cat.now.tables (SlotState.Open head) old.now.seen) (D.known disk.old) }
    ensures same { D.known disk.new ≡ D.known disk.old }
    ensures counted { IsErrOf result SlotError.DiskFault → D.faults disk.new ≡ one_more (D.faults disk.old) }
    ensures quiet { ¬ IsErrOf result SlotError.DiskFault → D.faults disk.new ≡ D.faults disk.old }
{
    let mut pieces = Pieces::open(alloc, disk, 1)?;
    match checkpoint_from(alloc, cat.tables(), &mut pieces, disk, rows) {
        Ok(head) => test_info(info, &head),
        Err(stop) => Err(error_in(info.slot, stop)),
    }
}

// Refuses a head of which something else is known: it was written since.
fn test_info(info: &SlotInfo, head: &Head) -> Result<(), SlotError>
    ensures same { OnOk result (info_with info.now.slot head.now ≡ info.now) }
    ensures other { OnErr result (¬ (info_with info.now.slot head.now ≡ info.now)) }
    ensures cause { IfErr result (λ error. error ≡ SlotError.Damaged info.now.slot 9 SlotDamageKind.Place) }
{
    let read = SlotInfo {
        slot: info.slot,
        txns: head.txns,
        place: head.place,
        segment: head.form.segment(),
    };
    if read == *info {
        Ok(())
    } else {
        Err(SlotError::Damaged {
            slot: info.slot,
            at: TXNS_AT,
            kind: SlotDamageKind::Place,
        })
    }
}
