// Why transactions abort.
ghost use Rattle.std.specs.Prelude.{◌≡◌};
ghost use Rattle.pac_ops.specs.Reasons.{reason_name};

use pac_value::Trap;

/// Why a transaction aborts. Reasons are ordered as they stand here.
#[derive(Clone, Copy, Debug, PartialEq, Eq, PartialOrd, Ord)]
pub enum Reason {
    /// A `set` names a row that is not there.
    Missing,
    /// The result is no int of 64 bits.
    Overflow,
    /// A divisor is zero.
    DivZero,
    /// The test of an `abort if` is true.
    Asked,
}

impl Reason {
    /// The reason as it is printed.
    pub fn name(&self) -> &'static str
        ensures { result.now ≡ reason_name self.now }
    {
        match self {
            Reason::Missing => "Missing",
            Reason::Overflow => "Overflow",
            Reason::DivZero => "DivZero",
            Reason::Asked => "Asked",
        }
    }
}

impl From<Trap> for Reason {
    ghost use Rattle.std.specs.Prelude.{◌≡◌};
    ghost use Rattle.pac_ops.specs.Reasons.{reason_of};

    ghost from_gives = { λ trap reason. reason ≡ reason_of trap };

    fn from(trap: Trap) -> Self {
        match trap {
            Trap::Overflow => Reason::Overflow,
            Trap::DivZero => Reason::DivZero,
        }
    }
}
