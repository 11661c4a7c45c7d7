// Twins: two tokens that show one value, in different hands.
//
// What is known of a value under a lock is known by its type alone. A twin that lies beside it there, while the other one is in
// the hands of the only one who changes the value, carries what that one knows of it: the twins show the same, and only who has
// both at hand can have them show something else. A twin has no bytes, and the value isn't kept: `Pair::show` compares and
// exchanges a word, which stays 0.
ghost use Rattle.std.specs.Prelude.{◌≡◌, ◌∷◌, [], IfOk};
ghost use Rattle.pac_workers.specs.Twins.{AreAlike, IsShown, AreTold, both_shown, first_shown, rest_shown};

use atomic_table::{Join, Play, Seat, Split, Table, TableRule};
use std::alloc::{AllocError, Global};
use std::collections::LinkedList;
use std::marker::Model;
use std::mem;

/// The rule of all twins of a pair: two values are shown, and they are the same.
pub struct Alike;

impl<T> TableRule<T, LinkedList<T>, T> for Alike {
    ghost holds = { λ _. AreAlike };

    ghost first = { both_shown };
}

/// One of two tokens that show the same value. It has no bytes.
pub type Twin<T> = Seat<T, LinkedList<T>>;

/// What two twins have in common. Contracts see what tells it from any other pair.
#[derive(Drop)]
pub struct Pair<T: Drop> {
    table: Table<T, LinkedList<T>, T, Alike, Global>,
}

impl<T: Drop> Model for Pair<T> {
    ghost use Rattle.std.specs.Prelude.{◌≡◌};
    ghost use Rattle.atomic_table.specs.Seated.{TableId, table_id_coded};

    ghost Value = { TableId };

    ghost coded = { table_id_coded };

    ghost view = { λ pair. pair.table.shared.table_id };

    ghost invariant = { λ pair. pair.table.shared.table_id.words ≡ 1 };
}

// One token shows the first of two values, and the other one the second.
struct Parted;

impl<T> Split<LinkedList<T>> for Parted {
    ghost left = { first_shown };

    ghost right = { rest_shown };
}

// One token shows what it showed, and the other one nothing.
struct Spared;

impl<T> Split<LinkedList<T>> for Spared {
    ghost left = { λ v. v };

    ghost right = { λ _. [] };
}

// One token shows what both showed.
struct Joined;

impl<T> Join<LinkedList<T>> for Joined {
    ghost use Rattle.std.specs.Prelude.{◌++◌};

    ghost both = { λ v w. v ++ w };

    ghost spent = { [] };
}

// A token that shows two values shows others.
struct Told;

impl<T> Play<T, LinkedList<T>> for Told {
    ghost then = { AreTold };
}

impl<T: Drop> Pair<T> {
    /// Two twins that show a value.
    ///
    /// # Errors
    ///
    /// [`AllocError`] where a word finds no room.
    pub fn new(alloc: Global, value: &T) -> Result<(Pair<T>, Twin<T>, Twin<T>), AllocError>
        ensures one { IfOk result (λ twins. IsShown twins.0 value.now twins.1) }
        ensures other { IfOk result (λ twins. IsShown twins.0 value.now twins.2) }
    {
        let (table, mut one) = Table::of_words(alloc, &[0], value)?;
        let other = table.shared.split_seat::<Parted>(&mut one);
        Ok((Pair { table }, one, other))
    }

    /// Has both twins show a value. What they showed was the same.
    pub fn show(&self, one: &mut Twin<T>, other: &mut Twin<T>, value: &T)
        requires one { (x : T) × IsShown self.now x one.old }
        requires other { (x : T) × IsShown self.now x other.old }
        ensures same { one.old.me ≡ other.old.me }
        ensures one { IsShown self.now value.now one.new }
        ensures other { IsShown self.now value.now other.new }
    {
        let spare = self.table.shared.split_seat::<Spared>(other);
        let theirs = mem::replace(other, spare);
        *other = self.tell(one, theirs, value);
    }

    // The same, of a twin that is given.
    fn tell(&self, one: &mut Twin<T>, other: Twin<T>, value: &T) -> Twin<T>
        requires one { (x : T) × IsShown self.now x one.old }
        requires other { (x : T) × IsShown self.now x other }
        ensures same { one.old.me ≡ other.me }
        ensures one { IsShown self.now value.now one.new }
        ensures other { IsShown self.now value.now result }
    {
        self.table.shared.join_seat::<Joined>(one, other);
        self.table
            .shared
            .compare_exchange_with::<Told>(one, 0, 0, 0, value);
        self.table.shared.split_seat::<Parted>(one)
    }
}
