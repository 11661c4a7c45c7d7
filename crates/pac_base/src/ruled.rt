// Lists whose items keep a rule.
ghost use Rattle.std.specs.Prelude.{◌≡◌, ◌↔◌, IsTrue, IfOk};

use crate::{Exact, NoMemory, Same, are_same, copy_of};
use std::alloc::Global;
use std::marker::{Model, PhantomData};

/// What the items of a [`Ruled`] list keep.
pub trait Rule {
    type Item;

    ghost use Rattle.std.specs.Prelude.{List};

    ghost holds: { List Self.Item → Type 0 };
}

/// A list of items that keeps a rule by its type.
#[derive(Drop)]
pub struct Ruled<R: Rule> {
    items: Vec<R::Item>,
    rule: PhantomData<R>,
}

impl<R: Rule> Model for Ruled<R> {
    ghost use Rattle.std.specs.Prelude.{List};

    ghost Value = { List R.Item };

    ghost view = { λ list. list.items.items };

    ghost invariant = { λ list. R.holds list.items.items };
}

impl<R: Rule> Ruled<R> {
    /// The list of these items, which keep the rule. Takes no memory.
    pub fn of(items: Vec<R::Item>) -> Self
        requires { R.holds items.items }
        ensures { result ≡ items.items }
    {
        Ruled {
            items,
            rule: PhantomData,
        }
    }

    /// The items, which keep the rule.
    pub fn items(&self) -> &[R::Item]
        ensures value { result.now ≡ self.now }
        ensures rule { R.holds self.now }
    {
        &self.items
    }

    /// The items as a vector. Takes no memory.
    pub fn into_items(self) -> Vec<R::Item>
        ensures value { result.items ≡ self }
        ensures rule { R.holds self }
    {
        let Ruled { items, rule: _ } = self;
        items
    }
}

impl<R: Rule> Exact for Ruled<R>
where
    R::Item: Exact,
{
    fn copy(&self, alloc: Global) -> Result<Ruled<R>, NoMemory> {
        let items = copy_of(alloc, &self.items)?;
        Ok(Ruled {
            items,
            rule: PhantomData,
        })
    }
}

impl<R: Rule> Same for Ruled<R>
where
    R::Item: Same,
{
    fn same(&self, other: &Ruled<R>) -> bool {
        are_same(&self.items, &other.items)
    }
}
