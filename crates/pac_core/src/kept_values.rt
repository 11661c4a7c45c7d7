// The values that are kept of a transaction.
ghost use Rattle.std.specs.Prelude.{◌≡◌, ◌≤◌, ◌<◌, ◌+◌, T, IfErr, IfOk, OnErr, OnOk, length, vec_capacity, vec_len};
ghost use Rattle.std.specs.Option.{option_map};
ghost use Rattle.std.specs.Ordering.{nat_cmp};
ghost use Rattle.std.specs.FinMap as map;
ghost use Rattle.std.specs.FinMap.{from_sorted, is_sorted};
ghost use Rattle.pac_value.specs.Sorted.{IsGapFor, IsOffsetOf};
ghost use Rattle.pac_tables.specs.Written.{AreWithin, written};
ghost use Rattle.pac_core.specs.Values.{GivesTo};

use pac_base::NoMemory;
use pac_tables::{Rows, Writes};
use pac_undo::UndoRows;
use pac_value::{Env, Value};
use std::alloc::Global;
use std::marker::Model;

/// The values that are kept of a transaction: its arguments, and those of variables that cross a block, once a piece gave them.
///
/// They stand in a list by ascending number of their variables. What a piece gives is added in place, in room that is made
/// before anything is changed.
#[derive(Drop)]
pub(crate) struct KeptValues {
    values: Vec<(u16, Value)>,
}

impl Model for KeptValues {
    ghost use Rattle.std.specs.Prelude.{T};
    ghost use Rattle.std.specs.Ordering.{nat_cmp};
    ghost use Rattle.std.specs.FinMap as map;
    ghost use Rattle.std.specs.FinMap.{is_sorted};
    ghost use Rattle.pac_value.specs.declared.values.Value.{Value as AValue};
    ghost use Rattle.std.specs.Coded.{coded_ℕ};
    ghost use Rattle.pac_value.specs.contracts.values.Value as value_type;

    ghost Value = { map.FinMap nat_cmp AValue };

    ghost coded = { map.code coded_ℕ value_type.the_row.coded };

    ghost view = { λ kept. map.from_sorted kept.values.items };

    ghost invariant = { λ kept. T (is_sorted nat_cmp kept.values.items) };
}

// Where the value of a variable stands, or else where it would.
fn standing(values: &[(u16, Value)], var: u16) -> Result<usize, usize>
    requires { T (is_sorted nat_cmp values.now) }
    ensures found { IfOk result (IsOffsetOf values.now var) }
    ensures absent { IfErr result (IsGapFor nat_cmp values.now var) }
{
    let own = usize::from(var);
    if own < values.len() && values[own].0 == var {
        return Ok(own);
    }
    values.binary_search_by(|entry| entry.0.cmp(&var))
}

// A variable gets a value, in a list that has room for one more. Takes no memory.
fn put(values: &mut Vec<(u16, Value)>, var: u16, value: Value)
    requires sorted { T (is_sorted nat_cmp values.old.items) }
    requires room { vec_len values.old < vec_capacity values.old }
    ensures sorted { T (is_sorted nat_cmp values.new.items) }
    ensures value { from_sorted {R = nat_cmp} values.new.items ≡ map.insert (from_sorted values.old.items) var value }
    ensures len { vec_len values.new ≤ vec_len values.old + 1 }
    ensures capacity { vec_capacity values.old ≤ vec_capacity values.new }
{
    match standing(values, var) {
        Ok(at) => values[at].1 = value,
        Err(at) => match values.insert(at, (var, value)) {
            Ok(()) => {}
            Err(_) => unreachable!(),
        },
    }
}

// Variables get the values that a piece gave, in a list that has room for them. Takes no memory.
fn put_all(values: &mut Vec<(u16, Value)>, vars: &[u16], given: &Env)
    requires sorted { T (is_sorted nat_cmp values.old.items) }
    requires room { vec_len values.old + length vars.now ≤ vec_capacity values.old }
    ensures sorted { T (is_sorted nat_cmp values.new.items) }
    ensures gives { GivesTo vars.now given.now (from_sorted values.old.items) (from_sorted values.new.items) }
{
    for var in vars {
        if let Some(value) = given.get(*var) {
            put(values, *var, value);
        }
    }
}

impl KeptValues {
    /// None. Takes no memory.
    pub fn new(alloc: Global) -> KeptValues
        ensures { result ≡ map.empty }
    {
        KeptValues {
            values: Vec::new(alloc),
        }
    }

    /// The value that is kept of a variable. `None`: there is none.
    pub fn get(&self, var: u16) -> Option<Value>
        ensures { result ≡ map.get self.now var }
    {
        self.value_of(var).copied()
    }

    /// The same value, where it stands.
    pub fn value_of(&self, var: u16) -> Option<&Value>
        ensures { option_map (λ value. value.now) result ≡ map.get self.now var }
    {
        match standing(&self.values, var) {
            Ok(at) => Some(&self.values[at].1),
            Err(_) => None,
        }
    }

    /// The value of a variable is kept, instead of the one that it may have.
    ///
    /// # Errors
    ///
    /// [`NoMemory`] where it finds no room.
    pub fn keep(&mut self, var: u16, value: Value) -> Result<(), NoMemory>
        ensures ok { OnOk result (self.new ≡ map.insert self.old var value) }
    {
        self.values.reserve(1)?;
        put(&mut self.values, var, value);
        Ok(())
    }

    /// What a piece leaves: its writes are made in rows, and of these variables the values that it gave are kept. It takes
    /// time that grows with the number of these variables, not with that of all values.
    ///
    /// # Errors
    ///
    /// [`NoMemory`] with the writes, where they or the values find no room. Then nothing is changed.
    pub fn leave<R: Rows>(
        &mut self,
        vars: &[u16],
        given: &Env,
        rows: &mut UndoRows<R>,
        writes: Writes,
    ) -> Result<(), (Writes, NoMemory)>
        requires { AreWithin rows.old.tables writes }
        ensures gives { OnOk result (GivesTo vars.now given.now self.old self.new) }
        ensures made { OnOk result (rows.new ≡ record rows.old { current = written rows.old.current writes }) }
        ensures kept { OnErr result (self.new ≡ self.old) }
        ensures same { OnErr result (rows.new ≡ rows.old) }
        ensures writes { IfErr result (λ refused. refused.0 ≡ writes) }
    {
        let Ok(()) = self.values.reserve(vars.len()) else {
            return Err((writes, NoMemory));
        };
        match rows.apply(writes) {
            Ok(()) => {
                put_all(&mut self.values, vars, given);
                Ok(())
            }
            Err(refused) => Err(refused),
        }
    }
}
