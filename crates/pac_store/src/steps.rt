// The three calls of a save that write.
ghost use Rattle.std.specs.Prelude.{◌≡◌, [], ℕ, List, false, true, IfOk, OnErr, OnOk};
ghost use Rattle.pac_value.specs.State.{Tables};
ghost use Rattle.pac_ops.specs.declared.transaction.Txn.{Txn as ATxn};
ghost use Rattle.pac_outside.specs.Devices.{OneFaulted, RunLeaves, WhileAllKnown, each, log_at, other_log};
ghost use Rattle.pac_outside.specs.Disk.{IfKnown};
ghost use Rattle.pac_outside.specs.GateByte.{IsOpen, OneImage};
ghost use Rattle.pac_types.specs.Typing.{CatalogueState};
ghost use Rattle.pac_log.specs.declared.header.HeaderForm.{HeaderForm as AForm};
ghost use Rattle.pac_log.specs.declared.header.HeaderForm.TheVariants.{Later};
ghost use Rattle.pac_log.specs.declared.log.Stage.{Stage};
ghost use Rattle.pac_log.specs.Logs.{header_with};
ghost use Rattle.pac_log.specs.Places.{LogEndsAt};
ghost use Rattle.pac_check.specs.declared.head.Head.{Head as AHead};
ghost use Rattle.pac_check.specs.Replacing.{BeginsAs};
ghost use Rattle.pac_check.specs.SlotStates.{HasAnyReady, HasReadyText, active_of, by_slot, closed_slots, newest_of, published_slots, spare_of};
ghost use Rattle.pac_store.specs.Saving.{IsReadyFor, KeepsBy, KnownStore, StandsStill, SwitchesByGate, active_by, closed_by, last_number, published_by, published_bytes, published_head};
ghost use Rattle.pac_store.specs.Writing.{StandsBegun, known_with};

use pac_check::{SlotState, Slots};
use pac_log::{Log, Segment};
use pac_outside::{Devices, Disk, Failed, LogName};

/// Closes the slot that is to be used.
pub(crate) fn close_spare<D: Disk>(
    slots: &mut Slots,
    devices: &mut Devices<D>,
) -> Result<(), Failed>
    requires works { slots.old.has_failed ≡ false }
    requires begins_a { IfKnown (λ old. OneImage (BeginsAs slots.old.a) old.now) (D.known devices.old.slot_a) }
    requires begins_b { IfKnown (λ old. OneImage (BeginsAs slots.old.b) old.now) (D.known devices.old.slot_b) }
    ensures keeps { (text : List ℕ) (c : CatalogueState) (h : List ATxn) (form : AForm) (batches : List (List ATxn))
        → WhileAllKnown (StandsStill text c h (known_with slots.old form batches)) (RunLeaves (KeepsBy (active_of slots.old) text c h (known_with slots.old form batches))) (each D.known devices.old) (each D.known devices.new) }
    ensures stands { OnOk result ((text : List ℕ) (c : CatalogueState) (h : List ATxn) (form : AForm) (batches : List (List ATxn))
        → WhileAllKnown (StandsStill text c h (known_with slots.old form batches)) (λ old new. StandsStill text c h (closed_by (known_with slots.old form batches)) new) (each D.known devices.old) (each D.known devices.new)) }
    ensures slots { OnOk result (slots.new ≡ closed_slots slots.old) }
    ensures failed { OnErr result (slots.new ≡ record slots.old { has_failed = true }) }
    ensures begins_a { OnOk result (IfKnown (λ new. OneImage (BeginsAs slots.new.a) new.now) (D.known devices.new.slot_a)) }
    ensures begins_b { OnOk result (IfKnown (λ new. OneImage (BeginsAs slots.new.b) new.now) (D.known devices.new.slot_b)) }
    ensures newest { newest_of slots.new ≡ newest_of slots.old }
    ensures ready { slots.new.ready ≡ slots.old.ready }
    ensures other { by_slot (spare_of slots.old) (D.known devices.new.slot_b) (D.known devices.new.slot_a) ≡ by_slot (spare_of slots.old) (D.known devices.old.slot_b) (D.known devices.old.slot_a) }
    ensures log { devices.new.log ≡ devices.old.log }
    ensures log_b { devices.new.log_b ≡ devices.old.log_b }
    ensures faulted { OnErr result (OneFaulted (each D.faults devices.old) (each D.faults devices.new)) }
    ensures quiet { OnOk result (each D.faults devices.new ≡ each D.faults devices.old) }
{
    slots.close_older(&mut devices.slot_a, &mut devices.slot_b)
}

/// Begins the next segment on the log device that isn't active.
pub(crate) fn begin_beside<D: Disk>(
    active: LogName,
    segment: Segment,
    devices: &mut Devices<D>,
) -> Result<Log, Failed>
    ensures keeps { (text : List ℕ) (c : CatalogueState) (h : List ATxn) (known : KnownStore) → active ≡ active_by known
        → WhileAllKnown (StandsStill text c h known) (RunLeaves (KeepsBy active text c h known)) (each D.known devices.old) (each D.known devices.new) }
    ensures stands { OnOk result ((text : List ℕ) (c : CatalogueState) (h : List ATxn) (known : KnownStore) → active ≡ active_by known → segment.gate.header ≡ header_with (Later (last_number text known)) text → segment.gate.catalogue ≡ c
        → WhileAllKnown (StandsStill text c h known) (λ old new. StandsBegun text c h known new) (each D.known devices.old) (each D.known devices.new)) }
    ensures log { IfOk result (λ log. log ≡ record { gate = segment.gate; stage = Stage.Waiting }) }
    ensures log_ends { OnOk result (IfKnown (λ now. LogEndsAt segment.gate now.now) (D.known (log_at (other_log active) devices.new))) }
    ensures active { log_at active devices.new ≡ log_at active devices.old }
    ensures slot_a { devices.new.slot_a ≡ devices.old.slot_a }
    ensures slot_b { devices.new.slot_b ≡ devices.old.slot_b }
    ensures faulted { OnErr result (OneFaulted (each D.faults devices.old) (each D.faults devices.new)) }
    ensures quiet { OnOk result (each D.faults devices.new ≡ each D.faults devices.old) }
{
    match active {
        LogName::Log => segment.begin(&mut devices.log_b),
        LogName::LogB => segment.begin(&mut devices.log),
    }
}

/// Publishes the checkpoint that is ready.
pub(crate) fn publish_ready<D: Disk>(
    slots: &mut Slots,
    devices: &mut Devices<D>,
) -> Result<(), Failed>
    requires works { slots.old.has_failed ≡ false }
    requires ready { HasAnyReady slots.old }
    requires closed { by_slot (spare_of slots.old) slots.old.a slots.old.b ≡ SlotState.Closed }
    requires begins_a { IfKnown (λ old. OneImage (BeginsAs slots.old.a) old.now) (D.known devices.old.slot_a) }
    requires begins_b { IfKnown (λ old. OneImage (BeginsAs slots.old.b) old.now) (D.known devices.old.slot_b) }
    ensures keeps { (text : List ℕ) (c : CatalogueState) (h : List ATxn) (form : AForm) (batches : List (List ATxn)) (held : Tables) → IsReadyFor text c h (known_with slots.old form batches) held
        → HasReadyText slots.old (published_head text (known_with slots.old form batches)) (published_bytes text c held (known_with slots.old form batches))
        → WhileAllKnown (StandsBegun text c h (known_with slots.old form batches)) (RunLeaves (SwitchesByGate text c h held (known_with slots.old form batches))) (each D.known devices.old) (each D.known devices.new) }
    ensures stands { OnOk result ((text : List ℕ) (c : CatalogueState) (h : List ATxn) (form : AForm) (batches : List (List ATxn)) (held : Tables) → IsReadyFor text c h (known_with slots.old form batches) held
        → HasReadyText slots.old (published_head text (known_with slots.old form batches)) (published_bytes text c held (known_with slots.old form batches))
        → WhileAllKnown (StandsBegun text c h (known_with slots.old form batches)) (λ old new. StandsStill text c h (published_by text (known_with slots.old form batches)) new) (each D.known devices.old) (each D.known devices.new)) }
    ensures slots { OnOk result ((head : AHead) (text : List ℕ) → HasReadyText slots.old head text → slots.new ≡ published_slots head slots.old) }
    ensures published { OnOk result ((head : AHead) (text : List ℕ) → HasReadyText slots.old head text → IfKnown (λ now. OneImage (IsOpen [] text) now.now) (by_slot (spare_of slots.old) (D.known devices.new.slot_a) (D.known devices.new.slot_b))) }
    ensures other { by_slot (spare_of slots.old) (D.known devices.new.slot_b) (D.known devices.new.slot_a) ≡ by_slot (spare_of slots.old) (D.known devices.old.slot_b) (D.known devices.old.slot_a) }
    ensures failed { OnErr result ((slots.new.a ≡ slots.old.a) × (slots.new.b ≡ slots.old.b)) }
    ensures log { devices.new.log ≡ devices.old.log }
    ensures log_b { devices.new.log_b ≡ devices.old.log_b }
    ensures faulted { OnErr result (OneFaulted (each D.faults devices.old) (each D.faults devices.new)) }
    ensures quiet { OnOk result (each D.faults devices.new ≡ each D.faults devices.old) }
{
    slots.publish(&mut devices.slot_a, &mut devices.slot_b)
}
