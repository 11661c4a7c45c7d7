// Disks in memory whose calls are counted together and fail by number.
ghost use Rattle.std.specs.Prelude.{◌≡◌, IfOk, None, Ok};
ghost use Rattle.pac_outside.specs.Causes.{EndsAtFault, HasCause};

use crate::faults::Failing;
use pac_outside::{Disk, Failed, MemDisk};
use std::sync::atomic::{AtomicU64, Ordering};

/// Counts the calls of all disks together, and says which of them fail.
#[derive(Drop)]
pub struct Outage {
    made: AtomicU64,
    failing: Failing,
}

impl Outage {
    /// No call has been made yet.
    pub fn new(failing: Failing) -> Self {
        Outage {
            made: AtomicU64::new(0),
            failing,
        }
    }

    /// How many calls have been made.
    pub fn made(&self) -> u64 {
        self.made.load(Ordering::SeqCst)
    }

    // Counts a call. Returns whether it fails.
    fn strikes(&self) -> bool {
        let number = self.made.fetch_add(1, Ordering::SeqCst).wrapping_add(1);
        number == self.failing.call || self.failing.lasts && number > self.failing.call
    }
}

/// A borrowed disk in memory whose calls fail in an outage.
#[derive(Drop)]
pub struct LentDisk<'a> {
    disk: &'a mut MemDisk,
    outage: &'a Outage,
    faults: u64,
}

impl<'a> LentDisk<'a> {
    pub fn new(disk: &'a mut MemDisk, outage: &'a Outage) -> Self {
        LentDisk {
            disk,
            outage,
            faults: 0,
        }
    }

    // The answer of a call, or a counted fault if it failed or is to fail.
    fn pass<T: Drop>(&mut self, strikes: bool, answer: Result<T, Failed>) -> Result<T, Failed>
        ensures value { IfOk result (λ value. answer ≡ Ok value) }
        ensures cause { HasCause self.old.faults self.new.faults result }
        ensures counted { EndsAtFault self.old.faults self.new.faults result }
    {
        match answer {
            Ok(value) if !strikes => Ok(value),
            _ => {
                self.faults = self.faults.saturating_add(1);
                Err(Failed)
            }
        }
    }
}

impl<'a> Disk for LentDisk<'a> {
    ghost known = { λ _. None };

    ghost faults = { λ part. part.faults };

    ghost seen_is_image = { λ _. tt };

    ghost has_images = { λ _. tt };

    ghost seen_are_bytes = { λ _. tt };

    fn len(&mut self) -> Result<u64, Failed> {
        let strikes = self.outage.strikes();
        let answer = self.disk.len();
        self.pass(strikes, answer)
    }

    fn read(&mut self, at: u64, buf: &mut [u8]) -> Result<usize, Failed> {
        let strikes = self.outage.strikes();
        let answer = self.disk.read(at, buf);
        self.pass(strikes, answer)
    }

    // A failing call may have written its bytes.
    fn write_at(&mut self, at: u64, piece: &[u8]) -> Result<(), Failed> {
        let strikes = self.outage.strikes();
        let answer = match self.disk.len() {
            Ok(len) if at <= len => self.disk.write_at(at, piece),
            _ => Err(Failed),
        };
        self.pass(strikes, answer)
    }

    fn sync(&mut self) -> Result<(), Failed> {
        let strikes = self.outage.strikes();
        let answer = if strikes {
            Err(Failed)
        } else {
            self.disk.sync()
        };
        self.pass(strikes, answer)
    }
}
