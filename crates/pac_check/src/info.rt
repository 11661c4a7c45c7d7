// What is known of slots.
use pac_outside::LogName;

/// One of the two slots.
#[derive(Clone, Copy, Debug, PartialEq, Eq)]
pub enum SlotName {
    A,
    B,
}

/// What is known of an open slot: how many transactions are in its tables, and at which offset, from 0, of which segment the
/// gate stands after these.
#[derive(Clone, Copy, Debug, PartialEq, Eq)]
pub struct SlotInfo {
    pub slot: SlotName,
    pub txns: u64,
    pub place: u64,
    pub segment: LogName,
}
