// Why bytes are no after-images.
ghost use Rattle.std.specs.Prelude.{◌≡◌};
ghost use Rattle.pac_base.specs.declared.refusal.Refusal.TheVariants.{Fault as AFault};
ghost use Rattle.pac_tuple.specs.Kinds.{image_kind_name, as_short_image, as_image_kind, as_image_fault};

use pac_base::Refusal;
use pac_bytes::Short;
use pac_entry::{EntryFault, EntryFaultKind};
use std::fmt;
use thiserror::Error;

/// What is wrong at an offset of some bytes.
#[derive(Clone, Copy, Debug, PartialEq, Eq)]
pub enum ImageFaultKind {
    /// The bytes end inside the field at this offset.
    Short,
    /// The byte at this offset is none of the tags that a list, a record or a value may have there.
    Tag,
    /// No table has the number at this offset.
    UnknownTable,
    /// The number of values at this offset isn't that of the columns; or the key or the value at this offset has another
    /// type, or is a text that is too long or not printable.
    WrongRow,
    /// The number of images at this offset is above 256.
    TooMany,
    /// The cell whose key stands at this offset isn't above the one before.
    Order,
}

impl ImageFaultKind {
    /// The kind as it is printed.
    pub fn name(&self) -> &'static str
        ensures { result.now ≡ image_kind_name self.now }
    {
        match self {
            ImageFaultKind::Short => "Short",
            ImageFaultKind::Tag => "Tag",
            ImageFaultKind::UnknownTable => "UnknownTable",
            ImageFaultKind::WrongRow => "WrongRow",
            ImageFaultKind::TooMany => "TooMany",
            ImageFaultKind::Order => "Order",
        }
    }
}

impl fmt::Display for ImageFaultKind {
    ghost use Rattle.std.specs.Prelude.{Some};
    ghost use Rattle.pac_tuple.specs.Kinds.{image_kind_name};

    ghost output = { λ kind. Some (image_kind_name kind) };

    fn fmt<W: fmt::Write>(&self, f: &mut fmt::Formatter<W>) -> fmt::Result {
        f.write_str(self.name())
    }
}

/// The first fault of some bytes from the left, at an offset, from 0.
#[derive(Clone, Copy, Debug, PartialEq, Eq, Error)]
#[error("{kind} at byte {at}")]
pub struct ImageFault {
    pub at: usize,
    pub kind: ImageFaultKind,
}

/// Why no list is read: the first fault of the bytes, or running out of memory.
pub type ImageError = Refusal<ImageFault>;

impl From<Short> for ImageFault {
    ghost from_gives = { λ short fault. fault ≡ as_short_image short };

    fn from(short: Short) -> Self {
        ImageFault {
            at: short.at,
            kind: ImageFaultKind::Short,
        }
    }
}

impl From<ImageFault> for ImageError {
    ghost from_gives = { λ fault error. error ≡ AFault fault };

    fn from(fault: ImageFault) -> Self {
        Refusal::Fault(fault)
    }
}

// The kind of a record's fault. None of a record is of a call.
fn image_kind(kind: EntryFaultKind) -> ImageFaultKind
    ensures { result ≡ as_image_kind kind }
{
    match kind {
        EntryFaultKind::Short => ImageFaultKind::Short,
        EntryFaultKind::Tag => ImageFaultKind::Tag,
        EntryFaultKind::UnknownProc | EntryFaultKind::UnknownTable => ImageFaultKind::UnknownTable,
        EntryFaultKind::WrongArgs | EntryFaultKind::WrongRow => ImageFaultKind::WrongRow,
        EntryFaultKind::TooMany => ImageFaultKind::TooMany,
    }
}

/// A fault of a record, as one of after-images.
pub(crate) fn image_fault(fault: EntryFault) -> ImageFault
    ensures { result ≡ as_image_fault fault }
{
    ImageFault {
        at: fault.at,
        kind: image_kind(fault.kind),
    }
}
