// Types, values and keys.
ghost use Rattle.std.specs.Prelude.{◌≡◌, ◌↔◌, Some, IsTrue, IfOk};
ghost use Rattle.std.proofs.Common.{refl};
ghost use Rattle.pac_value.specs.Values.{type_of};

use crate::Text;
use pac_base::{Exact, NoMemory, Same};
use std::alloc::Global;
use std::cmp::Ordering;
use std::hash::{Hash, Hasher};

/// The type of a value.
#[derive(Clone, Copy, Debug, PartialEq, Eq)]
pub enum Ty {
    Int,
    Text,
    Bool,
}

/// A value of a variable or, where it is no bool, of a row's column.
#[derive(Clone, Copy, Debug, PartialEq, Eq)]
pub enum Value {
    Int(i64),
    Text(Text),
    Bool(bool),
}

impl Value {
    /// The type of the value.
    pub fn ty(&self) -> Ty
        ensures { result ≡ type_of self.now }
    {
        match self {
            Value::Int(_) => Ty::Int,
            Value::Text(_) => Ty::Text,
            Value::Bool(_) => Ty::Bool,
        }
    }
}

/// The key of a row. Ints are ordered by value and come before texts, texts are ordered by their bytes, a proper
/// prefix first.
#[derive(Clone, Copy, Debug, PartialEq, Eq)]
pub enum Key {
    Int(i64),
    Text(Text),
}

impl PartialOrd for Key {
    ghost use Rattle.std.specs.Prelude.{Some};
    ghost use Rattle.std.specs.Cmp.{po};
    ghost use Rattle.pac_value.specs.Keys.{key_cmp, keys_total, key_ties};

    ghost partial_cmp = { λ a b. Some (key_cmp a b) };

    ghost laws = { po keys_total key_ties };

    fn partial_cmp(&self, other: &Key) -> Option<Ordering> {
        Some(self.cmp(other))
    }
}

impl Ord for Key {
    ghost use Rattle.std.proofs.Common.{refl};
    ghost use Rattle.pac_value.specs.Keys.{key_cmp, keys_total, key_ties};

    ghost cmp = { key_cmp };

    ghost total = { keys_total };

    ghost matches_partial_cmp = { λ a b. refl };

    ghost matches_eq = { key_ties };

    fn cmp(&self, other: &Key) -> Ordering {
        match (self, other) {
            (Key::Int(a), Key::Int(b)) => a.cmp(b),
            (Key::Int(_), Key::Text(_)) => Ordering::Less,
            (Key::Text(_), Key::Int(_)) => Ordering::Greater,
            (Key::Text(a), Key::Text(b)) => a.cmp(b),
        }
    }
}

// The value alone, in one write: the keys of a table have one type.
impl Hash for Key {
    ghost use Rattle.pac_value.specs.Keys.{key_fed, key_feeds};

    ghost hash_input = { key_fed };

    ghost respects_eq = { key_feeds };

    fn hash<H: Hasher>(&self, state: &mut H) {
        match self {
            Key::Int(number) => number.hash(state),
            Key::Text(text) => text.hash(state),
        }
    }
}

impl Exact for Ty {
    fn copy(&self, _: Global) -> Result<Ty, NoMemory> {
        Ok(*self)
    }
}

impl Same for Ty {
    fn same(&self, other: &Ty) -> bool {
        *self == *other
    }
}

impl Exact for Value {
    fn copy(&self, _: Global) -> Result<Value, NoMemory> {
        Ok(*self)
    }
}

impl Same for Value {
    fn same(&self, other: &Value) -> bool {
        *self == *other
    }
}

impl Exact for Key {
    fn copy(&self, _: Global) -> Result<Key, NoMemory> {
        Ok(*self)
    }
}

impl Same for Key {
    fn same(&self, other: &Key) -> bool {
        *self == *other
    }
}
