// The calls of a save that write, one after another.
ghost use Rattle.std.specs.Prelude.{◌≡◌, [], ℕ, List, false, true, IfOk, OnErr, OnOk};
ghost use Rattle.pac_value.specs.State.{Tables};
ghost use Rattle.pac_ops.specs.declared.transaction.Txn.{Txn as ATxn};
ghost use Rattle.pac_outside.specs.Devices.{OneFaulted, RunLeaves, WhileAllKnown, each, log_at, other_log};
ghost use Rattle.pac_outside.specs.Disk.{IfKnown};
ghost use Rattle.pac_outside.specs.GateByte.{IsOpen, OneImage};
ghost use Rattle.pac_types.specs.Typing.{CatalogueState};
ghost use Rattle.pac_log.specs.declared.header.HeaderForm.{HeaderForm as AForm};
ghost use Rattle.pac_log.specs.declared.header.HeaderForm.TheVariants.{Later};
ghost use Rattle.pac_log.specs.declared.log.Stage.{Stage};
ghost use Rattle.pac_log.specs.Logs.{header_with};
ghost use Rattle.pac_log.specs.Places.{LogEndsAt};
ghost use Rattle.pac_check.specs.declared.head.Head.{Head as AHead};
ghost use Rattle.pac_check.specs.Replacing.{BeginsAs};
ghost use Rattle.pac_check.specs.SlotStates.{HasAnyReady, HasReadyText, active_of, by_slot, closed_slots, newest_of, published_slots, spare_of};
ghost use Rattle.pac_store.specs.Saving.{StandsStill, closed_by, last_number, published_by, published_bytes, published_head};
ghost use Rattle.pac_store.specs.Writing.{CanPublish, KeepsEither, known_with};

use crate::steps::{begin_beside, close_spare, publish_ready};
use pac_check::Slots;
use pac_log::{Log, Segment};
use pac_outside::{Devices, Disk, Failed};

/// Writes a checkpoint that is ready, and the segment that it begins: it closes the slot that isn't the newest, begins the segment
/// on the device that isn't active, and publishes the checkpoint. At each moment, after an error too, a crash leaves images that
/// stand for the same history, by the one segment or by the next.
///
/// # Errors
///
/// [`Failed`] where a call of a device failed; no call of any comes after it.
pub fn write_checkpoint<D: Disk>(
    slots: &mut Slots,
    segment: Segment,
    devices: &mut Devices<D>,
) -> Result<Log, Failed>
    requires works { slots.old.has_failed ≡ false }
    requires ready { HasAnyReady slots.old }
    requires begins_a { IfKnown (λ old. OneImage (BeginsAs slots.old.a) old.now) (D.known devices.old.slot_a) }
    requires begins_b { IfKnown (λ old. OneImage (BeginsAs slots.old.b) old.now) (D.known devices.old.slot_b) }
    ensures keeps { (text : List ℕ) (c : CatalogueState) (h : List ATxn) (form : AForm) (batches : List (List ATxn)) (held : Tables) → CanPublish text c h (known_with slots.old form batches) held
        → HasReadyText slots.old (published_head text (known_with slots.old form batches)) (published_bytes text c held (known_with slots.old form batches))
        → segment.gate.header ≡ header_with (Later (last_number text (known_with slots.old form batches))) text → segment.gate.catalogue ≡ c
        → WhileAllKnown (StandsStill text c h (known_with slots.old form batches)) (RunLeaves (KeepsEither text c h (known_with slots.old form batches))) (each D.known devices.old) (each D.known devices.new) }
    ensures stands { IfOk result (λ log. (text : List ℕ) (c : CatalogueState) (h : List ATxn) (form : AForm) (batches : List (List ATxn)) (held : Tables) → CanPublish text c h (known_with slots.old form batches) held
        → HasReadyText slots.old (published_head text (known_with slots.old form batches)) (published_bytes text c held (known_with slots.old form batches))
        → segment.gate.header ≡ header_with (Later (last_number text (known_with slots.old form batches))) text → segment.gate.catalogue ≡ c
        → WhileAllKnown (StandsStill text c h (known_with slots.old form batches)) (λ old new. StandsStill text c h (published_by text (closed_by (known_with slots.old form batches))) new) (each D.known devices.old) (each D.known devices.new)) }
    ensures log { IfOk result (λ log. log ≡ record { gate = segment.gate; stage = Stage.Waiting }) }
    ensures log_ends { OnOk result (IfKnown (λ now. LogEndsAt segment.gate now.now) (D.known (log_at (other_log (active_of slots.old)) devices.new))) }

    // The segment that was active is only left, and so is the newest slot.
    ensures active { log_at (active_of slots.old) devices.new ≡ log_at (active_of slots.old) devices.old }
    ensures other { by_slot (spare_of slots.old) (D.known devices.new.slot_b) (D.known devices.new.slot_a) ≡ by_slot (spare_of slots.old) (D.known devices.old.slot_b) (D.known devices.old.slot_a) }
    ensures published { OnOk result ((head : AHead) (text : List ℕ) → HasReadyText slots.old head text → IfKnown (λ now. OneImage (IsOpen [] text) now.now) (by_slot (spare_of slots.old) (D.known devices.new.slot_a) (D.known devices.new.slot_b))) }
    ensures slots { OnOk result ((head : AHead) (text : List ℕ) → HasReadyText slots.old head text → slots.new ≡ published_slots head (closed_slots slots.old)) }
    ensures newest { OnErr result (newest_of slots.new ≡ newest_of slots.old) }

    // No call of a device comes after one that failed.
    ensures faulted { OnErr result (OneFaulted (each D.faults devices.old) (each D.faults devices.new)) }
    ensures quiet { OnOk result (each D.faults devices.new ≡ each D.faults devices.old) }
{
    close_spare(slots, devices)?;
    let log = begin_beside(slots.active(), segment, devices)?;
    publish_ready(slots, devices)?;
    Ok(log)
}
