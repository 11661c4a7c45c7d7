// Short lists.
ghost use Rattle.std.specs.Prelude.{◌≡◌, ◌++◌, ◌∷◌, [], OnOk};

use crate::{Exact, NoMemory, Same, are_same};
use smallvec::SmallVec;
use std::alloc::Global;
use std::default::MadeWith;
use std::marker::Model;

/// A list that stands in the value itself up to `N` items, and in an allocation where it is longer. Contracts see the list
/// of its items.
#[derive(Debug, Drop)]
pub struct ShortList<T, const N: usize> {
    items: SmallVec<T, N>,
}

impl<T, const N: usize> Model for ShortList<T, N> {
    ghost use Rattle.std.specs.Prelude.{List};
    ghost use Rattle.std.specs.Coded.{coded_list};

    ghost Value = { List T };

    ghost coded = { coded_list T.code };

    ghost view = { λ list. list.items.items };
}

impl<T: MadeWith<Global> + Drop, const N: usize> ShortList<T, N> {
    /// No items. Takes no memory.
    pub fn new(alloc: Global) -> Self
        ensures { result ≡ [] }
    {
        ShortList {
            items: SmallVec::new(alloc),
        }
    }

    /// Puts an item after the others.
    ///
    /// # Errors
    ///
    /// [`NoMemory`] where there are `N` items or more, and an allocation is refused.
    pub fn push(&mut self, item: T) -> Result<(), NoMemory>
        ensures { OnOk result (self.new ≡ self.old ++ item ∷ []) }
    {
        self.items.push(item)?;
        Ok(())
    }
}

impl<T, const N: usize> ShortList<T, N> {
    /// The items, in order.
    pub fn as_slice(&self) -> &[T]
        ensures { result.now ≡ self.now }
    {
        self.items.as_slice()
    }
}

impl<T: Exact + MadeWith<Global> + Drop, const N: usize> Exact for ShortList<T, N> {
    fn copy(&self, alloc: Global) -> Result<ShortList<T, N>, NoMemory> {
        let mut copy = ShortList::new(alloc);
        for item in self.as_slice() {
            copy.push(item.copy(alloc)?)?;
        }
        Ok(copy)
    }
}

impl<T: Same, const N: usize> Same for ShortList<T, N> {
    fn same(&self, other: &ShortList<T, N>) -> bool {
        are_same(self.as_slice(), other.as_slice())
    }
}
