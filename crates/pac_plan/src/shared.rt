// A value with several owners, which contracts see as the value.
ghost use Rattle.std.specs.Prelude.{◌≡◌, ◌↔◌, IsTrue, IfOk};
ghost use Rattle.std.specs.Arc.{arc_value};

use pac_base::{Exact, NoMemory, Same};
use std::alloc::Global;
use std::marker::Model;
use std::sync::Arc;

/// An `Arc` that contracts see as its value. A copy is one more owner, and takes no memory.
#[derive(Drop)]
pub struct Shared<T> {
    owner: Arc<T, Global>,
}

impl<T> Model for Shared<T> {
    ghost use Rattle.std.specs.Arc.{arc_value};

    ghost Value = { T };

    ghost coded = { T.code };

    ghost view = { λ shared. arc_value shared.owner };
}

impl<T> Shared<T> {
    /// The value.
    pub fn get(&self) -> &T
        ensures { result.now ≡ self.now }
    {
        &self.owner
    }
}

impl<T: Drop> Shared<T> {
    /// A value with one owner.
    ///
    /// # Errors
    ///
    /// [`NoMemory`] where an allocation is refused.
    pub fn new(alloc: Global, value: T) -> Result<Shared<T>, NoMemory>
        ensures { IfOk result (λ shared. shared ≡ value) }
    {
        let owner = Arc::new(alloc, value)?;
        Ok(Shared { owner })
    }
}

impl<T: Drop> Exact for Shared<T> {
    fn copy(&self, _: Global) -> Result<Shared<T>, NoMemory> {
        let owner = Arc::try_clone(&self.owner)?;
        Ok(Shared { owner })
    }
}

impl<T: Same> Same for Shared<T> {
    fn same(&self, other: &Shared<T>) -> bool {
        self.get().same(other.get())
    }
}
