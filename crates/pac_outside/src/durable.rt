// Writes that are synced before the next one begins.
ghost use Rattle.std.specs.Prelude.{◌≡◌, ◌<◌, ◌≤◌, ◌+◌, ◌^◌, ◌∷◌, ℕ, List, OnOk, length};
ghost use Rattle.pac_outside.specs.Causes.{EndsAtFault, HasCause};
ghost use Rattle.pac_outside.specs.Disk.{BothKnown, IsDurable, LeavesTorn, IfKnown};
ghost use Rattle.pac_outside.specs.GateByte.{Opens, ShutOrOpen};

use crate::{Disk, Failed, GATE_OPEN};

/// Writes the whole piece from offset `at` on, and syncs it. After Ok a crash leaves what a read gives, and that has the
/// piece. At each moment a crash leaves what it may leave of such a write.
///
/// # Errors
///
/// [`Failed`] where a call of the device failed, so only where its count of faults rose; no call comes after it.
pub fn write_and_sync<D: Disk>(disk: &mut D, at: u64, piece: &[u8]) -> Result<(), Failed>
    requires { IfKnown (λ old. at ≤ length old.now.seen) (D.known disk.old) }
    ensures durable { OnOk result (BothKnown (IsDurable at piece.now) (D.known disk.old) (D.known disk.new)) }
    ensures moments { BothKnown (LeavesTorn at piece.now) (D.known disk.old) (D.known disk.new) }

    // No call of the device comes after one that failed.
    ensures cause { HasCause (D.faults disk.old) (D.faults disk.new) result }
    ensures once { EndsAtFault (D.faults disk.old) (D.faults disk.new) result }
{
    disk.write_at(at, piece)?;
    disk.sync()
}

/// Writes a piece after the shut gate at an offset, syncs, opens the gate, and syncs. So the piece is there whole before
/// anyone can find it: at each moment a crash leaves the gate shut, or open with the whole piece after it.
///
/// # Errors
///
/// [`Failed`] where a call of the device failed, so only where its count of faults rose; no call comes after it.
pub fn open_after<D: Disk>(disk: &mut D, offset: u64, piece: &[u8]) -> Result<(), Failed>
    requires fits { offset + 1 < 2 ^ 64 }
    requires ready { IfKnown (λ old. offset < length old.now.seen) (D.known disk.old) }

    // Whatever prefix of the one image the gate stands after.
    ensures any_moment { (prefix : List ℕ) → offset ≡ length prefix → BothKnown (ShutOrOpen prefix piece.now) (D.known disk.old) (D.known disk.new) }
    ensures opened { OnOk result ((prefix : List ℕ) → offset ≡ length prefix → BothKnown (Opens prefix piece.now) (D.known disk.old) (D.known disk.new)) }

    // All else stays.
    ensures durable { OnOk result (BothKnown (IsDurable offset (1 ∷ piece.now)) (D.known disk.old) (D.known disk.new)) }

    // No call of the device comes after one that failed.
    ensures cause { HasCause (D.faults disk.old) (D.faults disk.new) result }
    ensures once { EndsAtFault (D.faults disk.old) (D.faults disk.new) result }
{
    write_and_sync(disk, offset + 1, piece)?;
    write_and_sync(disk, offset, &[GATE_OPEN])
}
