// What a worker passes before each piece of work.

/// A point where a worker may be held between taking a piece of work and running it, so that a test can choose which
/// of several pieces runs first.
pub trait Gate {
    /// Returns when the worker may run the piece of transaction `txn` in block `block`.
    fn enter(&self, worker: u32, txn: u64, block: u16);
}

/// A no-op gate: it never blocks.
#[derive(Clone, Copy, Debug)]
pub struct OpenGate;

impl Gate for OpenGate {
    fn enter(&self, _worker: u32, _txn: u64, _block: u16) {}
}
