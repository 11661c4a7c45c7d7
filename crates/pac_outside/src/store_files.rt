// The files of a store.
ghost use Rattle.std.specs.Prelude.{◌≡◌};

use crate::{Devices, FileDisk, FileSystem};

/// The devices of the store in the current folder, whose files aren't opened yet. Their names stand here alone.
pub fn store_devices<S: FileSystem>(system: &S) -> Devices<FileDisk<'_, S>>
    ensures log { result.log.faults ≡ 0 }
    ensures log_b { result.log_b.faults ≡ 0 }
    ensures slot_a { result.slot_a.faults ≡ 0 }
    ensures slot_b { result.slot_b.faults ≡ 0 }
{
    Devices {
        log: FileDisk::new(system, "pacman.log"),
        log_b: FileDisk::new(system, "pacman.log2"),
        slot_a: FileDisk::new(system, "pacman.a"),
        slot_b: FileDisk::new(system, "pacman.b"),
    }
}
