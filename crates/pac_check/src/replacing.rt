// Replaces the text of one slot, in two steps.
ghost use Rattle.std.specs.Prelude.{◌≡◌, ◌≢◌, ◌∷◌, [], true, OnErr, OnOk};
ghost use Rattle.pac_outside.specs.Causes.{EndsAtFault, HasCause};
ghost use Rattle.pac_outside.specs.Disk.{BothKnown, IsDurable, IfKnown};
ghost use Rattle.pac_outside.specs.GateByte.{Opens, ShutOrOpen};
ghost use Rattle.pac_check.specs.Replacing.{BeginsAs, ClosesSlot, HasByte, IsClosed};

use crate::{Head, SlotState};
use pac_outside::{Disk, Failed, GATE_SHUT, open_after, write_and_sync};

/// ClosesSlot the gate of a slot in this state, and syncs, where it is open, or the device has no byte; notes that it is closed, or
/// that a call failed.
///
/// # Errors
///
/// [`Failed`] where a call of the device failed, so only where its count of faults rose; no call comes after it.
pub(crate) fn close<D: Disk>(
    disk: &mut D,
    state: &mut SlotState,
    has_failed: &mut bool,
) -> Result<(), Failed>
    requires { IfKnown (λ old. BeginsAs state.old old.now.seen) (D.known disk.old) }

    // At each moment a crash leaves the slot as it was, or closed; where it had no byte nothing is said.
    ensures any_moment { HasByte state.old → BothKnown (ClosesSlot state.old) (D.known disk.old) (D.known disk.new) }
    ensures closed { OnOk result (BothKnown (IsClosed state.old) (D.known disk.old) (D.known disk.new)) }
    ensures ok { OnOk result ((state.new ≡ SlotState.Closed) × (has_failed.new ≡ has_failed.old)) }
    ensures err { OnErr result ((state.new ≡ state.old) × (has_failed.new ≡ true)) }
    ensures once { EndsAtFault (D.faults disk.old) (D.faults disk.new) result }
{
    match *state {
        SlotState::Closed => Ok(()),
        SlotState::Empty | SlotState::Open(_) => close_gate(disk, state, has_failed),
    }
}

// The gate is open, or the device has no byte.
fn close_gate<D: Disk>(
    disk: &mut D,
    state: &mut SlotState,
    has_failed: &mut bool,
) -> Result<(), Failed>
    requires not_closed { state.old ≢ SlotState.Closed }
    ensures any_moment { HasByte state.old → BothKnown (ClosesSlot state.old) (D.known disk.old) (D.known disk.new) }
    ensures closed { OnOk result (BothKnown (IsClosed state.old) (D.known disk.old) (D.known disk.new)) }
    ensures ok { OnOk result ((state.new ≡ SlotState.Closed) × (has_failed.new ≡ has_failed.old)) }
    ensures err { OnErr result ((state.new ≡ state.old) × (has_failed.new ≡ true)) }
    ensures once { EndsAtFault (D.faults disk.old) (D.faults disk.new) result }
{
    match write_and_sync(disk, 0, &[GATE_SHUT]) {
        Ok(()) => {
            *state = SlotState::Closed;
            Ok(())
        }
        Err(failed) => {
            *has_failed = true;
            Err(failed)
        }
    }
}

/// Puts the text of the checkpoint with this head after the closed gate of a slot, syncs, opens the gate, and syncs; notes what
/// stands in the slot then, or that a call failed.
///
/// # Errors
///
/// [`Failed`], as of [`close`].
pub(crate) fn open<D: Disk>(
    disk: &mut D,
    state: &mut SlotState,
    has_failed: &mut bool,
    head: Head,
    text: &[u8],
) -> Result<(), Failed>
    requires { IfKnown (λ old. BeginsAs SlotState.Closed old.now.seen) (D.known disk.old) }
    ensures any_moment { BothKnown (ShutOrOpen [] text.now) (D.known disk.old) (D.known disk.new) }
    ensures opened { OnOk result (BothKnown (Opens [] text.now) (D.known disk.old) (D.known disk.new)) }
    ensures durable { OnOk result (BothKnown (IsDurable 0 (1 ∷ text.now)) (D.known disk.old) (D.known disk.new)) }
    ensures ok { OnOk result ((state.new ≡ SlotState.Open head) × (has_failed.new ≡ has_failed.old)) }
    ensures err { OnErr result ((state.new ≡ state.old) × (has_failed.new ≡ true)) }
    ensures once { EndsAtFault (D.faults disk.old) (D.faults disk.new) result }
{
    match open_after(disk, 0, text) {
        Ok(()) => {
            *state = SlotState::Open(head);
            Ok(())
        }
        Err(failed) => {
            *has_failed = true;
            Err(failed)
        }
    }
}
