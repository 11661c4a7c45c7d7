// Why a request line is refused.
ghost use Rattle.std.specs.Prelude.{◌≡◌};
ghost use Rattle.pac_base.specs.declared.refusal.Refusal.TheVariants.{Fault as AFault};
ghost use Rattle.pac_request.specs.LineKinds.{line_kind_name, as_line_kind, as_line_fault};

use pac_base::Refusal;
use pac_tokens::{Fault, FaultKind};
use std::fmt;
use thiserror::Error;

/// What is wrong at an offset of a request line.
#[derive(Clone, Copy, Debug, PartialEq, Eq)]
pub enum LineFaultKind {
    /// A byte that begins no token, or a text that isn't well formed.
    Token,
    /// The token can't follow here, or the line ends too early.
    Expected,
    /// A name, a text or the whole line is too long, or an int is outside 64 bits.
    TooLong,
    /// No procedure or no table has this name.
    UnknownName,
    /// The procedure or the table with this name has another number of parameters or columns.
    WrongCount,
    /// The literal has another type than its position wants.
    WrongType,
    /// A script can't ask for this.
    NotHere,
}

impl LineFaultKind {
    /// The kind as it is printed.
    pub fn name(&self) -> &'static str
        ensures { result.now ≡ line_kind_name self.now }
    {
        match self {
            LineFaultKind::Token => "Token",
            LineFaultKind::Expected => "Expected",
            LineFaultKind::TooLong => "TooLong",
            LineFaultKind::UnknownName => "UnknownName",
            LineFaultKind::WrongCount => "WrongCount",
            LineFaultKind::WrongType => "WrongType",
            LineFaultKind::NotHere => "NotHere",
        }
    }
}

impl fmt::Display for LineFaultKind {
    ghost use Rattle.std.specs.Prelude.{Some};
    ghost use Rattle.pac_request.specs.LineKinds.{line_kind_name};

    ghost output = { λ kind. Some (line_kind_name kind) };

    fn fmt<W: fmt::Write>(&self, f: &mut fmt::Formatter<W>) -> fmt::Result {
        f.write_str(self.name())
    }
}

/// The first fault of a request line, at an offset, a byte offset in the line.
#[derive(Clone, Copy, Debug, PartialEq, Eq, Error)]
#[error("{kind} at byte {at}")]
pub struct LineFault {
    pub at: usize,
    pub kind: LineFaultKind,
}

impl From<LineFault> for Refusal<LineFault> {
    ghost from_gives = { λ fault error. error ≡ AFault fault };

    fn from(fault: LineFault) -> Self {
        Refusal::Fault(fault)
    }
}

// A kind of fault of a token as one of its line.
fn line_kind(kind: FaultKind) -> LineFaultKind
    ensures { result ≡ as_line_kind kind }
{
    match kind {
        FaultKind::Token => LineFaultKind::Token,
        FaultKind::TooLong => LineFaultKind::TooLong,
        _ => LineFaultKind::Expected,
    }
}

/// A fault of a token as one of its line.
pub(crate) fn line_fault(fault: Fault) -> LineFault
    ensures { result ≡ as_line_fault fault }
{
    LineFault {
        at: fault.at,
        kind: line_kind(fault.kind),
    }
}
