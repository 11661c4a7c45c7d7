// Why a text is refused.
ghost use Rattle.std.specs.Prelude.{◌≡◌};
ghost use Rattle.pac_tokens.specs.Kinds.{kind_name};

use pac_base::Refusal;
use std::fmt;
use thiserror::Error;

/// What is wrong at an offset of a text.
#[derive(Clone, Copy, Debug, PartialEq, Eq)]
pub enum FaultKind {
    /// A byte that begins no token, or a text that isn't well formed.
    Token,
    /// The token can't follow here, or the text ends too early.
    Expected,
    /// A name, a literal or the whole text is too long.
    TooLong,
    /// Too many parentheses are open at once, or too many conditionals and loops stand one in another.
    TooDeep,
    /// There are too many of a kind.
    TooMany,
}

impl FaultKind {
    /// The kind as it is printed.
    pub fn name(&self) -> &'static str
        ensures { result.now ≡ kind_name self.now }
    {
        match self {
            FaultKind::Token => "Token",
            FaultKind::Expected => "Expected",
            FaultKind::TooLong => "TooLong",
            FaultKind::TooDeep => "TooDeep",
            FaultKind::TooMany => "TooMany",
        }
    }
}

impl fmt::Display for FaultKind {
    ghost use Rattle.std.specs.Prelude.{Some};
    ghost use Rattle.pac_tokens.specs.Kinds.{kind_name};

    ghost output = { λ kind. Some (kind_name kind) };

    fn fmt<W: fmt::Write>(&self, f: &mut fmt::Formatter<W>) -> fmt::Result {
        f.write_str(self.name())
    }
}

/// A fault at an offset of a text, a byte offset from 0.
#[derive(Clone, Copy, Debug, PartialEq, Eq, Error)]
#[error("{kind} at byte {at}")]
pub struct Fault {
    pub at: usize,
    pub kind: FaultKind,
}

/// Why a text isn't read: its first fault, or running out of memory.
pub type SyntaxError = Refusal<Fault>;
