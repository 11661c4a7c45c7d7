// What stands in one slot.
ghost use Rattle.std.specs.Prelude.{◌≡◌};
ghost use Rattle.pac_check.specs.SlotStates.{info_of};

use crate::{Head, SlotInfo, SlotName};

/// What stands in a slot.
#[derive(Clone, Copy, Debug, PartialEq, Eq)]
pub enum SlotState {
    /// The device has no byte.
    Empty,
    /// Its gate byte isn't 1.
    Closed,
    /// Its gate byte is 1, and after it stands a checkpoint with this head.
    Open(Head),
}

impl SlotState {
    /// What is known of it, where it is open.
    pub(crate) fn info(&self, slot: SlotName) -> Option<SlotInfo>
        ensures { result ≡ info_of slot self.now }
    {
        match self {
            SlotState::Empty | SlotState::Closed => None,
            SlotState::Open(head) => Some(SlotInfo {
                slot,
                txns: head.txns,
                place: head.place,
                segment: head.form.segment(),
            }),
        }
    }
}
