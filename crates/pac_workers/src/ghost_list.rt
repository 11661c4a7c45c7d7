// A list that only clauses read.
ghost use Rattle.std.specs.Prelude.{◌≡◌, ◌++◌, ◌∷◌, [], List};
ghost use Rattle.std.specs.Coded.{coded_list};
ghost use base.Fml.{ftrue};

use std::marker::{Model, PhantomData};

/// What was given so far, for clauses alone: a list that has no bytes. Only the clauses of its calls tie it to anything.
pub struct GhostList<T> {
    marker: PhantomData<T>,
    // from the first to the last
    pub ghost items: { List T } by { coded_list T.code },
}

impl<T> Model for GhostList<T> {
    ghost also_owns = { λ _. ftrue };
}

impl<T> GhostList<T> {
    /// No items.
    pub fn new() -> GhostList<T>
        ensures { result.items ≡ [] }
    {
        GhostList {
            marker: PhantomData,
        }
    }

    /// The same items, and one more.
    pub fn with(&self, item: &T) -> GhostList<T>
        ensures { result.items ≡ self.now.items ++ item.now ∷ [] }
    {
        let _ = item;
        GhostList {
            marker: PhantomData,
        }
    }
}

impl<T> Drop for GhostList<T> {
    fn drop(self) {
        let Self { marker: _ } = self;
    }
}
