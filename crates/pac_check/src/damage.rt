// Why bytes are no checkpoint.
ghost use Rattle.std.specs.Prelude.{◌≡◌};
ghost use Rattle.pac_base.specs.declared.refusal.Refusal.TheVariants.{Fault as AFault};
ghost use Rattle.pac_check.specs.declared.damage.CheckpointError.TheVariants.{DiskFault, NoMemory as NoRoom};
ghost use Rattle.pac_check.specs.Kinds.{as_slot_fault, as_checkpoint_error, in_slot, of_typed, of_values, slot_damage_name, slot_fault};

use crate::{SlotError, SlotName};
use pac_base::{NoMemory, Refusal};
use pac_bytes::{Short, TypedFault};
use pac_outside::{Failed, ReadError};
use std::fmt;
use thiserror::Error;

/// What is wrong at an offset of an open slot.
#[derive(Clone, Copy, Debug, PartialEq, Eq)]
pub enum SlotDamageKind {
    /// The eight bytes at this offset aren't the name of a checkpoint, or are fewer.
    Magic,
    /// The bytes end inside the field at this offset.
    Short,
    /// The number of tables at this offset isn't that of the catalogue.
    Range,
    /// The byte at this offset is no tag of a value.
    Tag,
    /// The key or the value at this offset has another type, or is a text that is too long or not printable.
    Row,
    /// The key at this offset isn't above the one before.
    Order,
    /// The number of transactions at this offset and the offset of the gate after it don't fit the log. Reported where the log
    /// is known too.
    Place,
}

impl SlotDamageKind {
    /// The kind as it is printed.
    pub fn name(&self) -> &'static str
        ensures { result.now ≡ slot_damage_name self.now }
    {
        match self {
            SlotDamageKind::Magic => "Magic",
            SlotDamageKind::Short => "Short",
            SlotDamageKind::Range => "Range",
            SlotDamageKind::Tag => "Tag",
            SlotDamageKind::Row => "Row",
            SlotDamageKind::Order => "Order",
            SlotDamageKind::Place => "Place",
        }
    }
}

impl fmt::Display for SlotDamageKind {
    ghost use Rattle.std.specs.Prelude.{Some};
    ghost use Rattle.pac_check.specs.Kinds.{slot_damage_name};

    ghost output = { λ kind. Some (slot_damage_name kind) };

    fn fmt<W: fmt::Write>(&self, f: &mut fmt::Formatter<W>) -> fmt::Result {
        f.write_str(self.name())
    }
}

/// The first fault of what stands after an open gate, at an offset, from 0.
#[derive(Clone, Copy, Debug, PartialEq, Eq, Error)]
#[error("{kind} at byte {at}")]
pub struct SlotFault {
    pub at: usize,
    pub kind: SlotDamageKind,
}

/// Why an item isn't read: the first fault of the bytes, or running out of memory.
pub(crate) type ItemError = Refusal<SlotFault>;

/// Why no checkpoint is read from a device.
#[derive(Clone, Copy, Debug, PartialEq, Eq)]
pub(crate) enum CheckpointError {
    /// The first fault of what stands after an open gate.
    Fault(SlotFault),
    /// A call of the device failed.
    DiskFault,
    /// There was no memory for a piece, or for a row.
    NoMemory,
}

impl From<Short> for SlotFault {
    ghost from_gives = { λ short fault. fault ≡ as_slot_fault short };

    fn from(short: Short) -> Self {
        SlotFault {
            at: short.at,
            kind: SlotDamageKind::Short,
        }
    }
}

impl From<TypedFault> for SlotFault {
    ghost from_gives = { λ typed fault. fault ≡ of_typed typed };

    fn from(fault: TypedFault) -> Self {
        match fault {
            TypedFault::Short { at } => SlotFault {
                at,
                kind: SlotDamageKind::Short,
            },
            TypedFault::Tag { at } => SlotFault {
                at,
                kind: SlotDamageKind::Tag,
            },
            TypedFault::Wrong { at } => SlotFault {
                at,
                kind: SlotDamageKind::Row,
            },
        }
    }
}

impl From<SlotFault> for ItemError {
    ghost from_gives = { λ fault error. error ≡ AFault fault };

    fn from(fault: SlotFault) -> Self {
        Refusal::Fault(fault)
    }
}

/// A fault of values, or their running out of memory, as one of a slot.
pub(crate) fn error_of(refusal: Refusal<TypedFault>) -> ItemError
    ensures { result ≡ of_values refusal }
{
    match refusal {
        Refusal::Fault(fault) => Refusal::Fault(SlotFault::from(fault)),
        Refusal::NoMemory => Refusal::NoMemory,
    }
}

/// A fault of this kind at this offset.
pub(crate) fn fault_at(kind: SlotDamageKind, at: usize) -> SlotFault
    ensures { result ≡ slot_fault kind at }
{
    SlotFault { at, kind }
}

impl From<Failed> for CheckpointError {
    ghost from_gives = { λ _ stop. stop ≡ DiskFault };

    fn from(_: Failed) -> Self {
        CheckpointError::DiskFault
    }
}

impl From<ReadError> for CheckpointError {
    ghost from_gives = { λ cause stop. stop ≡ as_checkpoint_error cause };

    fn from(error: ReadError) -> Self {
        match error {
            ReadError::Failed => CheckpointError::DiskFault,
            ReadError::NoMemory => CheckpointError::NoMemory,
        }
    }
}

impl From<NoMemory> for CheckpointError {
    ghost from_gives = { λ _ stop. stop ≡ NoRoom };

    fn from(_: NoMemory) -> Self {
        CheckpointError::NoMemory
    }
}

/// Why no checkpoint is read, as of this slot.
pub(crate) fn error_in(slot: SlotName, stop: CheckpointError) -> SlotError
    ensures { result ≡ in_slot slot stop }
{
    match stop {
        CheckpointError::Fault(fault) => SlotError::Damaged {
            slot,
            at: fault.at as u64,
            kind: fault.kind,
        },
        CheckpointError::DiskFault => SlotError::DiskFault,
        CheckpointError::NoMemory => SlotError::NoMemory,
    }
}
