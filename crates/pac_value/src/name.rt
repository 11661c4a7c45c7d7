// The names of tables, columns, procedures and variables.
ghost use Rattle.std.specs.Prelude.{◌≡◌, ◌≤◌, ◌↔◌, IsSome, IfSome, length};

use crate::MAX_NAME;
use crate::padded::Padded;
use pac_base::{Exact, NoMemory, Same};
use std::alloc::Global;
use std::marker::Model;

/// A name of at most 32 bytes, which stand in the value itself. Names are ordered by their bytes, a proper prefix first.
#[derive(Clone, Copy, Debug, PartialEq, Eq, PartialOrd, Ord, Hash)]
pub struct Name {
    bytes: Padded<{ Name::MAX }>,
}

impl Model for Name {
    ghost use Rattle.std.specs.Prelude.{ℕ, List};

    ghost Value = { List ℕ };

    ghost view = { λ name. name.bytes };

    ghost inverse = { λ bytes. record { bytes = bytes } };
}

impl Name {
    /// The most bytes that a name may have.
    pub const MAX: usize = MAX_NAME;

    /// The name with these bytes. `None`: there are more than 32.
    pub fn from_bytes(bytes: &[u8]) -> Option<Name>
        ensures fits { IsSome result ↔ (length bytes.now ≤ MAX_NAME) }
        ensures value { IfSome result (λ name. name ≡ bytes.now) }
    {
        let bytes = Padded::from_bytes(bytes)?;
        Some(Name { bytes })
    }

    /// The bytes of the name, in order.
    pub fn bytes(&self) -> &[u8]
        ensures bytes { result.now ≡ self.now }
        ensures short { length self.now ≤ MAX_NAME }
    {
        self.bytes.bytes()
    }
}

impl Exact for Name {
    fn copy(&self, _: Global) -> Result<Name, NoMemory> {
        Ok(*self)
    }
}

impl Same for Name {
    fn same(&self, other: &Name) -> bool {
        *self == *other
    }
}
