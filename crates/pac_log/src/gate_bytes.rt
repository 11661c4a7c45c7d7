// Reads the bytes from a gate of a log on.
ghost use Rattle.std.specs.Prelude.{◌≡◌, ◌<◌, ◌≤◌, ◌+◌, ◌^◌, ℕ, List, IfOk, IsErrOf, drop, length, take};
ghost use Rattle.pac_outside.specs.Causes.{Faulted, one_more};
ghost use Rattle.pac_outside.specs.Disk.{IfKnown};
ghost use Rattle.pac_types.specs.Typing.{CatalogueState};
ghost use Rattle.pac_log.specs.declared.limits.TheConstants.{MAX_ENTRIES_LEN};
ghost use Rattle.pac_log.specs.Looked.{IsLookedAt};
ghost use Rattle.pac_log.specs.Reading.{after_gate};

use crate::MAX_ENTRIES_LEN;
use pac_bytes::u32_at;
use pac_outside::{Disk, GATE_OPEN, ReadError, read_more, read_piece};
use std::alloc::Global;

// How many bytes a gate and the two numbers after it have.
const FRONT_LEN: usize = 9;

/// The bytes from a gate on, as far as they are looked at: up to the next gate where the gate is open, and else no more
/// than the two numbers. Each is read once, by two reads after a call for the length.
pub(crate) fn bytes_from<D: Disk>(
    alloc: Global,
    disk: &mut D,
    place: u64,
) -> Result<Vec<u8>, ReadError>
    ensures looked { IfOk result (λ bytes. IfKnown (λ old. IsLookedAt bytes.items (drop place old.now.seen)) (D.known disk.old)) }
    ensures inside { IfOk result (λ bytes. place + length bytes.items < 2 ^ 64) }
    ensures same { D.known disk.new ≡ D.known disk.old }
    ensures later { D.faults disk.old ≤ D.faults disk.new }
    ensures cause { IsErrOf result ReadError.Failed → Faulted (D.faults disk.old) (D.faults disk.new) }
    ensures counted { IsErrOf result ReadError.Failed → D.faults disk.new ≡ one_more (D.faults disk.old) }
    ensures kept { ¬ IsErrOf result ReadError.Failed → D.faults disk.new ≡ D.faults disk.old }
{
    let left = disk.len()?.saturating_sub(place);
    let mut bytes = read_piece(alloc, disk, place, left.min(FRONT_LEN as u64) as usize)?;
    let reach = reach_after(&bytes) as u64;
    if reach > 0 {
        let after = left - FRONT_LEN as u64;
        let count = after.min(reach) as usize;
        read_more(disk, place + FRONT_LEN as u64, count, &mut bytes)?;
    }
    Ok(bytes)
}

// How many bytes are looked at after a gate and the two numbers, by these.
fn reach_after(prefix: &[u8]) -> usize
    ensures enough { (catalogue : CatalogueState) (all : List ℕ) → prefix.now ≡ take FRONT_LEN all → after_gate catalogue (take (FRONT_LEN + result) all) ≡ after_gate catalogue all }
    ensures whole { 0 < result → FRONT_LEN ≤ length prefix.now }
    ensures few { result ≤ 1 + MAX_ENTRIES_LEN }
{
    if prefix.first() != Some(&GATE_OPEN) {
        return 0;
    }
    match u32_at(prefix, 5) {
        Ok((len, _)) if len as usize <= MAX_ENTRIES_LEN => len as usize + 1,
        _ => 0,
    }
}
