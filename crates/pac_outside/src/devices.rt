// The devices of a store.
ghost use Rattle.std.specs.Prelude.{◌≡◌, OnOk, option_map};

use crate::{Disk, Failed};

/// One of the two log devices of a store.
#[derive(Clone, Copy, Debug, PartialEq, Eq)]
pub enum LogName {
    Log,
    LogB,
}

impl LogName {
    ghost use Rattle.pac_outside.specs.Devices.{other_log};

    /// The other one.
    pub fn other(&self) -> LogName
        ensures { result ≡ other_log self.now }
    {
        match self {
            LogName::Log => LogName::LogB,
            LogName::LogB => LogName::Log,
        }
    }
}

/// The devices of a store: two for the log's segments, and two slots for checkpoints.
#[derive(Drop)]
pub struct Devices<D> {
    pub log: D,
    pub log_b: D,
    pub slot_a: D,
    pub slot_b: D,
}

impl<D: Disk> Devices<D> {
    ghost use Rattle.pac_outside.specs.Devices.{EndsAtOneFault, RunsAsBefore, IfAllKnown, each};
    ghost use Rattle.pac_outside.specs.Disk.{after_sync};
    ghost use Rattle.pac_outside.specs.Parts.{known_reads};

    /// Syncs each device. After Ok a crash leaves of each what a read gives. At each moment a crash leaves images that it
    /// might have left before, and a read gives of each what it gave, whatever the answer.
    ///
    /// # Errors
    ///
    /// [`Failed`] where a call of a device failed, so only where the count of faults of one rose; no call of any device
    /// comes after it.
    pub fn sync(&mut self) -> Result<(), Failed>
        ensures log { OnOk result (D.known self.new.log ≡ option_map after_sync (D.known self.old.log)) }
        ensures log_b { OnOk result (D.known self.new.log_b ≡ option_map after_sync (D.known self.old.log_b)) }
        ensures slot_a { OnOk result (D.known self.new.slot_a ≡ option_map after_sync (D.known self.old.slot_a)) }
        ensures slot_b { OnOk result (D.known self.new.slot_b ≡ option_map after_sync (D.known self.old.slot_b)) }
        ensures moments { IfAllKnown RunsAsBefore (each D.known self.old) (each D.known self.new) }
        ensures seen { known_reads (each D.known self.new) ≡ known_reads (each D.known self.old) }

        // No call of a device comes after one that failed.
        ensures once { EndsAtOneFault (each D.faults self.old) (each D.faults self.new) result }
    {
        self.log.sync()?;
        self.log_b.sync()?;
        self.slot_a.sync()?;
        self.slot_b.sync()
    }
}
