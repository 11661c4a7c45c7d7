// Copies and comparisons of boxes and lists.
ghost use Rattle.std.specs.Prelude.{◌≡◌, ◌↔◌, ◌∷◌, ◌++◌, ◌+◌, [], vec_len, IsTrue, IfOk, OnOk, OnErr};

use crate::{Exact, NoMemory, Same};
use sqlite_items::{Boxed, Items};
use std::alloc::Global;

/// A vector that contracts see as the list of its items.
pub type Listed<T> = Items<T>;

/// The list of a vector's items. Takes no memory.
pub fn listed<T>(items: Vec<T>) -> Listed<T>
    ensures { result ≡ items.items }
{
    Items::from_vec(items)
}

/// Adds an item after all others, as `Vec::push` does. That hands an item back which finds no room, and copies it for this: where
/// the list has room and the item is large, this is cheaper.
///
/// # Errors
///
/// [`NoMemory`] where the list finds no more room. Then it is as it was.
pub fn push<T: Drop>(list: &mut Vec<T>, item: T) -> Result<(), NoMemory>
    ensures items { OnOk result (list.new.items ≡ list.old.items ++ item ∷ []) }
    ensures len { OnOk result (vec_len list.new ≡ vec_len list.old + 1) }
    ensures err { OnErr result (list.new.items ≡ list.old.items) }
{
    if list.len() < list.capacity() {
        list.push_reserved(item);
        return Ok(());
    }
    list.push(item)?;
    Ok(())
}

impl<T: Exact> Exact for Boxed<T> {
    fn copy(&self, alloc: Global) -> Result<Boxed<T>, NoMemory> {
        Ok(Boxed::new(alloc, self.get().copy(alloc)?)?)
    }
}

impl<T: Same> Same for Boxed<T> {
    fn same(&self, other: &Boxed<T>) -> bool {
        self.get().same(other.get())
    }
}

impl<T: Exact> Exact for Items<T> {
    fn copy(&self, alloc: Global) -> Result<Items<T>, NoMemory> {
        Ok(Items::from_vec(copy_of(alloc, self.as_slice())?))
    }
}

impl<T: Same> Same for Items<T> {
    fn same(&self, other: &Items<T>) -> bool {
        are_same(self.as_slice(), other.as_slice())
    }
}

/// A vector with copies of a slice's items.
///
/// # Errors
///
/// [`NoMemory`] where an allocation is refused.
pub fn copy_of<T: Exact>(alloc: Global, items: &[T]) -> Result<Vec<T>, NoMemory>
    ensures { IfOk result (λ copy. copy.items ≡ items.now) }
{
    let mut copy = Vec::with_capacity(alloc, items.len())?;
    for item in items {
        copy.push(item.copy(alloc)?)?;
    }
    Ok(copy)
}

/// Whether two slices have the same items in the same order.
pub fn are_same<T: Same>(a: &[T], b: &[T]) -> bool
    ensures { IsTrue result ↔ (a.now ≡ b.now) }
{
    if a.len() != b.len() {
        return false;
    }
    for i in 0..a.len() {
        if !a[i].same(&b[i]) {
            return false;
        }
    }
    true
}
