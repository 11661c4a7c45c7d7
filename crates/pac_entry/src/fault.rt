// Why bytes are no entry.
ghost use Rattle.std.specs.Prelude.{◌≡◌};
ghost use Rattle.pac_base.specs.declared.refusal.Refusal.TheVariants.{Fault as AFault};
ghost use Rattle.pac_entry.specs.Kinds.{entry_kind_name, as_entry_fault, as_fault_of, as_error_of};

use pac_base::Refusal;
use pac_bytes::{Short, TypedFault};
use std::fmt;
use thiserror::Error;

/// What is wrong at an offset of some bytes.
#[derive(Clone, Copy, Debug, PartialEq, Eq)]
pub enum EntryFaultKind {
    /// The bytes end inside the field at this offset.
    Short,
    /// The byte at this offset is none of the tags that an entry, a record or a value may have there.
    Tag,
    /// No procedure has the number at this offset.
    UnknownProc,
    /// The number of arguments at this offset isn't that of the parameters; or the argument at this offset has another
    /// type than its parameter, or is a text that is too long or not printable.
    WrongArgs,
    /// No table has the number at this offset.
    UnknownTable,
    /// The number of values at this offset isn't that of the columns; or the key or the value at this offset has another
    /// type, or is a text that is too long or not printable.
    WrongRow,
    /// The number of records at this offset is 0 or above 64.
    TooMany,
}

impl EntryFaultKind {
    /// The kind as it is printed.
    pub fn name(&self) -> &'static str
        ensures { result.now ≡ entry_kind_name self.now }
    {
        match self {
            EntryFaultKind::Short => "Short",
            EntryFaultKind::Tag => "Tag",
            EntryFaultKind::UnknownProc => "UnknownProc",
            EntryFaultKind::WrongArgs => "WrongArgs",
            EntryFaultKind::UnknownTable => "UnknownTable",
            EntryFaultKind::WrongRow => "WrongRow",
            EntryFaultKind::TooMany => "TooMany",
        }
    }
}

impl fmt::Display for EntryFaultKind {
    ghost use Rattle.std.specs.Prelude.{Some};
    ghost use Rattle.pac_entry.specs.Kinds.{entry_kind_name};

    ghost output = { λ kind. Some (entry_kind_name kind) };

    fn fmt<W: fmt::Write>(&self, f: &mut fmt::Formatter<W>) -> fmt::Result {
        f.write_str(self.name())
    }
}

/// The first fault of some bytes from the left, at an offset, from 0.
#[derive(Clone, Copy, Debug, PartialEq, Eq, Error)]
#[error("{kind} at byte {at}")]
pub struct EntryFault {
    pub at: usize,
    pub kind: EntryFaultKind,
}

/// Why no entry is read: the first fault of the bytes, or running out of memory.
pub type EntryError = Refusal<EntryFault>;

impl From<Short> for EntryFault {
    ghost from_gives = { λ short fault. fault ≡ as_entry_fault short };

    fn from(short: Short) -> Self {
        EntryFault {
            at: short.at,
            kind: EntryFaultKind::Short,
        }
    }
}

impl From<EntryFault> for EntryError {
    ghost from_gives = { λ fault error. error ≡ AFault fault };

    fn from(fault: EntryFault) -> Self {
        Refusal::Fault(fault)
    }
}

/// A fault of a value as one of its entry, of this kind where another value is wanted.
pub(crate) fn fault_of(wrong: EntryFaultKind, fault: TypedFault) -> EntryFault
    ensures { result ≡ as_fault_of wrong fault }
{
    match fault {
        TypedFault::Short { at } => EntryFault {
            at,
            kind: EntryFaultKind::Short,
        },
        TypedFault::Tag { at } => EntryFault {
            at,
            kind: EntryFaultKind::Tag,
        },
        TypedFault::Wrong { at } => EntryFault { at, kind: wrong },
    }
}

/// The same of values, which may find no memory.
pub(crate) fn error_of(wrong: EntryFaultKind, refusal: Refusal<TypedFault>) -> EntryError
    ensures { result ≡ as_error_of wrong refusal }
{
    match refusal {
        Refusal::Fault(fault) => Refusal::Fault(fault_of(wrong, fault)),
        Refusal::NoMemory => Refusal::NoMemory,
    }
}
