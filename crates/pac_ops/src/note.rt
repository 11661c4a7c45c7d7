// What an abort leaves.
use crate::Reason;

/// An operation of a transaction that aborts, by their numbers, and why. Notes are ordered by transaction, then by
/// operation, then by reason.
#[derive(Clone, Copy, Debug, PartialEq, Eq, PartialOrd, Ord)]
pub struct Note {
    pub txn: u64,
    pub op: u16,
    pub reason: Reason,
}
