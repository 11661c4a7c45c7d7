// The calls of an object in memory, some of which are to fail.
ghost use Rattle.std.specs.Prelude.{◌≡◌, ◌↔◌, ◌≤◌, IsErr, IsTrue, if◌then◌else◌};
ghost use Rattle.pac_outside.specs.Calls.{after_failed, after_passed, is_next_failing};
ghost use Rattle.pac_outside.specs.Causes.{one_more};

use crate::Failed;
use crate::faults::Faults;
use std::marker::Model;

/// How many calls there were, the numbers of those that are to fail, and how many failed. The number of a call stops
/// at the greatest `u64`.
#[derive(Drop)]
pub(crate) struct Calls {
    made: u64,
    failing: Vec<u64>,
    faults: Faults,
}

impl Model for Calls {
    ghost use Rattle.pac_outside.specs.Calls.{CallState};

    ghost Value = { CallState };

    ghost view = { λ calls. record { made = calls.made; failing = calls.failing.items; faults = calls.faults } };
}

impl Calls {
    /// No call yet; those with the numbers in `failing`, from 1 on, are to fail.
    pub fn new(failing: Vec<u64>) -> Self
        ensures { result ≡ record { made = 0; failing = failing.items; faults = 0 } }
    {
        Calls {
            made: 0,
            failing,
            faults: Faults::new(),
        }
    }

    /// Counts a call, and its fault where it is to fail.
    ///
    /// # Errors
    ///
    /// [`Failed`] exactly where the call is to fail.
    pub fn begin(&mut self) -> Result<(), Failed>
        ensures failed { IsErr result ↔ IsTrue (is_next_failing self.old) }
        ensures counted { self.new ≡ (if is_next_failing self.old then after_failed self.old else after_passed self.old) }
        ensures later { self.old.faults ≤ self.new.faults }
    {
        self.made = self.made.saturating_add(1);
        if self.failing.contains(&self.made) {
            return Err(self.fail());
        }
        Ok(())
    }

    /// Counts the fault of a call that began, and answers it.
    pub fn fail(&mut self) -> Failed
        ensures counted { self.new ≡ record self.old { faults = one_more self.old.faults } }
        ensures later { self.old.faults ≤ self.new.faults }
    {
        self.faults.fail()
    }
}
