// Why a tree has no catalogue.
ghost use Rattle.std.specs.Prelude.{◌≡◌};
ghost use Rattle.pac_types.specs.Kinds.{type_kind_name};
ghost use Rattle.pac_base.specs.declared.refusal.Refusal.TheVariants.{Fault as AFault};

use pac_base::Refusal;
use std::fmt;
use thiserror::Error;

/// What is wrong at an offset of a tree.
#[derive(Clone, Copy, Debug, PartialEq, Eq)]
pub enum TypeFaultKind {
    /// No table, column or variable of this name stands anywhere in its space.
    UnknownName,
    /// The name stands in its space before.
    Twice,
    /// An expression hasn't the type that its position wants.
    WrongType,
    /// A `put` has another number of values than its table has columns.
    WrongCount,
    /// The name is that of a variable of this procedure that isn't visible here.
    OutOfScope,
}

impl TypeFaultKind {
    /// The kind as it is printed.
    pub fn name(&self) -> &'static str
        ensures { result.now ≡ type_kind_name self.now }
    {
        match self {
            TypeFaultKind::UnknownName => "UnknownName",
            TypeFaultKind::Twice => "Twice",
            TypeFaultKind::WrongType => "WrongType",
            TypeFaultKind::WrongCount => "WrongCount",
            TypeFaultKind::OutOfScope => "OutOfScope",
        }
    }
}

impl fmt::Display for TypeFaultKind {
    ghost use Rattle.std.specs.Prelude.{Some};
    ghost use Rattle.pac_types.specs.Kinds.{type_kind_name};

    ghost output = { λ kind. Some (type_kind_name kind) };

    fn fmt<W: fmt::Write>(&self, f: &mut fmt::Formatter<W>) -> fmt::Result {
        f.write_str(self.name())
    }
}

/// A fault of names or types at an offset of a text, a byte offset from 0.
#[derive(Clone, Copy, Debug, PartialEq, Eq, Error)]
#[error("{kind} at byte {at}")]
pub struct TypeFault {
    pub at: usize,
    pub kind: TypeFaultKind,
}

/// Why a tree isn't typed: its first fault, or running out of memory.
pub type TypeError = Refusal<TypeFault>;

impl From<TypeFault> for TypeError {
    ghost from_gives = { λ fault error. error ≡ AFault fault };

    fn from(fault: TypeFault) -> Self {
        Refusal::Fault(fault)
    }
}
