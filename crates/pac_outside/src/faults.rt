// A count of faults.
ghost use Rattle.std.specs.Prelude.{◌≡◌, ◌≤◌, IfOk, Ok};
ghost use Rattle.pac_outside.specs.Causes.{EndsAtFault, HasCause, one_more};

use crate::Failed;
use std::io;
use std::marker::Model;

/// How many calls of an object failed. The count stops at the greatest `u64`.
#[derive(Drop)]
pub(crate) struct Faults {
    count: u64,
}

impl Model for Faults {
    ghost use Rattle.std.specs.Prelude.{ℕ};

    ghost Value = { ℕ };

    ghost view = { λ faults. faults.count };
}

impl Faults {
    /// No fault yet.
    pub fn new() -> Self
        ensures { result ≡ 0 }
    {
        Faults { count: 0 }
    }

    /// Counts a fault, and answers it.
    pub fn fail(&mut self) -> Failed
        ensures counted { self.new ≡ one_more self.old }
        ensures later { self.old ≤ self.new }
    {
        self.count = self.count.saturating_add(1);
        Failed
    }

    /// Hands on what a call of the system answered, and counts a fault where that is an error.
    pub fn pass<T>(&mut self, answer: io::Result<T>) -> Result<T, Failed>
        ensures value { IfOk result (λ value. answer ≡ Ok value) }
        ensures cause { HasCause self.old self.new result }
        ensures counted { EndsAtFault self.old self.new result }
    {
        match answer {
            Ok(value) => Ok(value),
            Err(_) => Err(self.fail()),
        }
    }
}
