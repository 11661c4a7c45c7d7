// A source and a sink of bytes.
ghost use Rattle.std.specs.Prelude.{ℕ, List, Option};
ghost use Rattle.std.specs.Io.{ReadsAtMost};
ghost use Rattle.pac_outside.specs.Causes.{HasCause};
ghost use Rattle.pac_outside.specs.Content.{IsRead, IsWrite};

use crate::Failed;

/// Where bytes come from.
pub trait Source {
    // What is left to read, where the source's bytes are known.
    ghost left: { Self → Option (List ℕ) };

    // How many calls failed.
    ghost faults: { Self → ℕ };

    /// Reads the next bytes into the start of `buf`, and answers how many: for a `buf` that isn't empty, 0 at the end
    /// of the input and otherwise 1 to `buf.len()`.
    ///
    /// # Errors
    ///
    /// [`Failed`] only where the count of faults rose. Then nothing was taken from what is left.
    fn read(&mut self, buf: &mut [u8]) -> Result<usize, Failed>
        ensures bound { ReadsAtMost result buf.new }
        ensures bytes { IsRead (left self.old) (left self.new) result buf.new }
        ensures cause { HasCause (faults self.old) (faults self.new) result };
}

/// Where bytes go to.
pub trait Sink {
    // What was taken so far, where the sink's bytes are known.
    ghost held: { Self → Option (List ℕ) };

    // How many calls failed.
    ghost faults: { Self → ℕ };

    /// Takes the first bytes of `piece`, and answers how many: 1 to `piece.len()` of one that isn't empty.
    ///
    /// # Errors
    ///
    /// [`Failed`] only where the count of faults rose. Then nothing was added to what is held.
    fn write(&mut self, piece: &[u8]) -> Result<usize, Failed>
        ensures bytes { IsWrite (held self.old) (held self.new) result piece.now }
        ensures cause { HasCause (faults self.old) (faults self.new) result };
}
