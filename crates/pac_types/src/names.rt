// Names with numbers.
ghost use Rattle.std.specs.Prelude.{◌≡◌, ◌≤◌, ◌^◌, ◌<◌, ℕ, List, IfOk, IfSome, length, nat_eq, vec_len};
ghost use Rattle.std.specs.Cmp.Lexicographic.{pointwise};
ghost use Rattle.std.specs.HashMap.{get};
ghost use Rattle.pac_types.specs.Numbering.{number_of};
ghost use Rattle.pac_types.specs.Checking.{once};

use crate::type_error::{TypeFault, TypeFaultKind};
use pac_base::{Exact, NoMemory};
use pac_syntax::NameNode;
use pac_value::Name;
use std::alloc::{AllocError, Global};
use std::collections::HashMap;
use std::marker::Model;

/// So few names are looked at one after another, which is faster than a map that has to be made first.
const FEW: usize = 8;

/// Names, each with its first index as its number. Where they are more than few, a look-up goes by a map.
#[derive(Debug, Drop)]
pub(crate) struct Names {
    names: Vec<Name>,
    numbers: HashMap<Name, u16>,
}

impl Model for Names {
    ghost use Rattle.std.specs.Prelude.{ℕ, List};

    ghost Value = { List (List ℕ) };

    ghost use Rattle.pac_types.specs.NamesIndex.{IsIndex};

    ghost view = { λ names. names.names.items };

    ghost invariant = { λ names. IsIndex names.names.items names.numbers };
}

// The number of a name among these, which are looked at one after another.
fn scan(names: &[Name], name: &[u8]) -> Option<u16>
    requires { length names.now ≤ 2 ^ 16 }
    ensures { result ≡ number_of names.now name.now }
{
    for i in 0..names.len() {
        if name == names[i].bytes() {
            return Some(i as u16);
        }
    }
    None
}

// The map of the names' numbers. A name that stands again is met later, and gives way to its first index.
fn map_of(alloc: Global, names: &[Name]) -> Result<HashMap<Name, u16>, AllocError>
    requires { length names.now ≤ 2 ^ 16 }
    ensures { IfOk result (λ numbers. (name : List ℕ) → get (pointwise nat_eq) numbers name ≡ number_of names.now name) }
{
    let mut numbers = HashMap::with_capacity(alloc, names.len())?;
    for i in (0..names.len()).rev() {
        numbers.insert(names[i], i as u16)?;
    }
    Ok(numbers)
}

impl Names {
    /// Numbers the names by their indices.
    pub fn of(alloc: Global, names: Vec<Name>) -> Result<Names, AllocError>
        requires { vec_len names ≤ 2 ^ 16 }
        ensures { IfOk result (λ indexed. indexed ≡ names.items) }
    {
        let numbers = if names.len() <= FEW {
            HashMap::new(alloc)
        } else {
            map_of(alloc, names.as_slice())?
        };
        Ok(Names { names, numbers })
    }

    /// The number of a name. `None`: it is none of these.
    pub fn number(&self, name: &Name) -> Option<u16>
        ensures value { result ≡ number_of self.now name.now }
        ensures within { IfSome result (λ number. number < length self.now) }
    {
        self.look_up(name)
    }

    // The same, without the bound.
    fn look_up(&self, name: &Name) -> Option<u16>
        ensures { result ≡ number_of self.now name.now }
    {
        if self.names.len() <= FEW {
            scan(self.names.as_slice(), name.bytes())
        } else {
            self.numbers.get(name).copied()
        }
    }

    /// The number of the name with these bytes. `None`: it is none of these.
    pub fn number_of_bytes(&self, name: &[u8]) -> Option<u16>
        ensures { result ≡ number_of self.now name.now }
    {
        if self.names.len() > FEW {
            if let Some(name) = Name::from_bytes(name) {
                return self.look_up(&name);
            }
        }
        scan(self.names.as_slice(), name)
    }

    /// That the name at an index among these stands at none before it.
    ///
    /// # Errors
    ///
    /// Twice, where it does.
    pub fn once(&self, index: usize, node: &NameNode) -> Result<(), TypeFault>
        ensures { result ≡ once self.now index node.now }
    {
        match self.number(&node.name) {
            Some(number) if usize::from(number) < index => Err(TypeFault {
                at: node.at,
                kind: TypeFaultKind::Twice,
            }),
            _ => Ok(()),
        }
    }
}

impl Exact for Names {
    fn copy(&self, alloc: Global) -> Result<Names, NoMemory> {
        let names = Vec::from_slice(alloc, self.names.as_slice())?;
        Ok(Names::of(alloc, names)?)
    }
}
