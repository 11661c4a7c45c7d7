// Types that can be copied exactly, and types that can be compared exactly.
ghost use Rattle.std.specs.Prelude.{◌≡◌, ◌↔◌, IsTrue, IfOk};

use crate::NoMemory;
use std::alloc::Global;

/// A type whose copies are equal to what they copy. A copy costs what the value holds.
pub trait Exact: Drop {
    /// An equal value.
    ///
    /// # Errors
    ///
    /// [`NoMemory`] where an allocation is refused.
    fn copy(&self, alloc: Global) -> Result<Self, NoMemory>
    where
        Self: Sized,
        ensures { IfOk result (λ copy. copy ≡ self.now) };
}

/// A type whose values can be told apart.
pub trait Same {
    /// Whether the values are equal.
    fn same(&self, other: &Self) -> bool
        ensures { IsTrue result ↔ (self.now ≡ other.now) };
}

impl Exact for u16 {
    fn copy(&self, _: Global) -> Result<u16, NoMemory> {
        Ok(*self)
    }
}

impl Same for u16 {
    fn same(&self, other: &u16) -> bool {
        *self == *other
    }
}

impl Exact for u64 {
    fn copy(&self, _: Global) -> Result<u64, NoMemory> {
        Ok(*self)
    }
}

impl Same for u64 {
    fn same(&self, other: &u64) -> bool {
        *self == *other
    }
}

impl Exact for i64 {
    fn copy(&self, _: Global) -> Result<i64, NoMemory> {
        Ok(*self)
    }
}

impl Same for i64 {
    fn same(&self, other: &i64) -> bool {
        *self == *other
    }
}

impl Exact for bool {
    fn copy(&self, _: Global) -> Result<bool, NoMemory> {
        Ok(*self)
    }
}

impl Same for bool {
    fn same(&self, other: &bool) -> bool {
        *self == *other
    }
}

impl<A: Exact, B: Exact> Exact for (A, B) {
    fn copy(&self, alloc: Global) -> Result<(A, B), NoMemory> {
        let first = self.0.copy(alloc)?;
        let second = self.1.copy(alloc)?;
        Ok((first, second))
    }
}

impl<A: Same, B: Same> Same for (A, B) {
    fn same(&self, other: &(A, B)) -> bool {
        self.0.same(&other.0) && self.1.same(&other.1)
    }
}

impl<T: Exact> Exact for Option<T> {
    fn copy(&self, alloc: Global) -> Result<Option<T>, NoMemory> {
        match self {
            Some(value) => Ok(Some(value.copy(alloc)?)),
            None => Ok(None),
        }
    }
}

impl<T: Same> Same for Option<T> {
    fn same(&self, other: &Option<T>) -> bool {
        match (self, other) {
            (Some(a), Some(b)) => a.same(b),
            (None, None) => true,
            _ => false,
        }
    }
}
