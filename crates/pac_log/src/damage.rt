// Why bytes are no log.
ghost use Rattle.std.specs.Prelude.{◌≡◌};
ghost use Rattle.pac_base.specs.declared.refusal.Refusal.TheVariants.{Fault as AFault};
ghost use Rattle.pac_log.specs.Damages.{as_link_fault, damage_name, of_entry, out_of_range, short_from};

use pac_base::Refusal;
use pac_bytes::Short;
use pac_entry::{EntryFault, EntryFaultKind};
use std::fmt;
use thiserror::Error;

/// What is wrong at an offset of a log.
#[derive(Clone, Copy, Debug, PartialEq, Eq)]
pub enum DamageKind {
    /// The number at this offset is out of its range, or bytes are left from this offset on after the last entry.
    Range,
    /// What stands at this offset is no entry, or no number: the bytes end inside of it, or it is refused as an entry.
    Entry(EntryFaultKind),
}

impl DamageKind {
    /// The kind as it is printed.
    pub fn name(&self) -> &'static str
        ensures { result.now ≡ damage_name self.now }
    {
        match self {
            DamageKind::Range => "Range",
            DamageKind::Entry(kind) => kind.name(),
        }
    }
}

impl fmt::Display for DamageKind {
    ghost use Rattle.std.specs.Prelude.{Some};
    ghost use Rattle.pac_log.specs.Damages.{damage_name};

    ghost output = { λ kind. Some (damage_name kind) };

    fn fmt<W: fmt::Write>(&self, f: &mut fmt::Formatter<W>) -> fmt::Result {
        f.write_str(self.name())
    }
}

/// The first fault of what stands after an open gate, at an offset, from 0.
#[derive(Clone, Copy, Debug, PartialEq, Eq, Error)]
#[error("{kind} at byte {at}")]
pub struct LinkFault {
    pub at: usize,
    pub kind: DamageKind,
}

/// Why no body is read: the first fault of the bytes, or running out of memory.
pub type LinkError = Refusal<LinkFault>;

impl From<Short> for LinkFault {
    ghost from_gives = { λ short fault. fault ≡ as_link_fault short };

    fn from(short: Short) -> Self {
        short_at(short.at)
    }
}

impl From<EntryFault> for LinkFault {
    ghost from_gives = { λ entry fault. fault ≡ of_entry entry };

    fn from(fault: EntryFault) -> Self {
        LinkFault {
            at: fault.at,
            kind: DamageKind::Entry(fault.kind),
        }
    }
}

impl From<LinkFault> for LinkError {
    ghost from_gives = { λ fault error. error ≡ AFault fault };

    fn from(fault: LinkFault) -> Self {
        Refusal::Fault(fault)
    }
}

/// The bytes end inside what stands at this offset.
pub(crate) fn short_at(at: usize) -> LinkFault
    ensures { result ≡ short_from at }
{
    LinkFault {
        at,
        kind: DamageKind::Entry(EntryFaultKind::Short),
    }
}

/// A number is out of its range, or bytes are left over.
pub(crate) fn range_at(at: usize) -> LinkFault
    ensures { result ≡ out_of_range at }
{
    LinkFault {
        at,
        kind: DamageKind::Range,
    }
}
