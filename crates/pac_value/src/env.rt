// The values of variables.
ghost use Rattle.std.specs.Prelude.{◌≡◌, ◌↔◌, ◌≤◌, T, length, IsTrue, IfOk, IfErr, OnOk, OnErr};
ghost use Rattle.std.specs.List.{insert};
ghost use Rattle.std.specs.Option.{option_map};
ghost use Rattle.std.specs.Ordering.{nat_cmp};
ghost use Rattle.std.specs.FinMap as map;
ghost use Rattle.std.specs.FinMap.{is_sorted};
ghost use Rattle.pac_value.specs.Restricted.{HasOnly};
ghost use Rattle.pac_value.specs.Sorted.{IsOffsetOf, IsGapFor};

use crate::Value;
use pac_base::{Exact, NoMemory, Same, push};
use std::alloc::Global;
use std::marker::Model;

/// The values of variables, which have numbers.
///
/// They stand in a list by ascending number, so that an environment takes what it holds, whatever the numbers are. A value
/// is found in constant time where each variable with a lower number has one, and else by a binary search. A variable
/// with a higher number than all others is added in constant time; before others, these are moved.
#[derive(Debug, Drop)]
pub struct Env {
    values: Vec<(u16, Value)>,
}

impl Model for Env {
    ghost use Rattle.std.specs.Prelude.{T};
    ghost use Rattle.std.specs.Ordering.{nat_cmp};
    ghost use Rattle.std.specs.FinMap as map;
    ghost use Rattle.std.specs.FinMap.{is_sorted};
    ghost use Rattle.pac_value.specs.declared.values.Value.{Value as AValue};
    ghost use Rattle.std.specs.Coded.{coded_ℕ};
    ghost use Rattle.pac_value.specs.contracts.values.Value as value_type;

    ghost Value = { map.FinMap nat_cmp AValue };

    ghost coded = { map.code coded_ℕ value_type.the_row.coded };

    ghost view = { λ env. map.from_sorted env.values.items };

    ghost invariant = { λ env. T (is_sorted nat_cmp env.values.items) };
}

// Whether each variable that has a value has a lower number.
fn is_above_all(values: &[(u16, Value)], var: u16) -> bool
    requires { T (is_sorted nat_cmp values.now) }
    ensures { IsTrue result → IsGapFor nat_cmp values.now var (length values.now) }
{
    match values.last() {
        Some(last) => last.0 < var,
        None => true,
    }
}

// Where the value of a variable stands, or else where it would.
fn search(values: &[(u16, Value)], var: u16) -> Result<usize, usize>
    requires { T (is_sorted nat_cmp values.now) }
    ensures found { IfOk result (IsOffsetOf values.now var) }
    ensures absent { IfErr result (IsGapFor nat_cmp values.now var) }
{
    let own = usize::from(var);
    if own < values.len() && values[own].0 == var {
        return Ok(own);
    }
    if is_above_all(values, var) {
        return Err(values.len());
    }
    values.binary_search_by(|entry| entry.0.cmp(&var))
}

// Adds an entry at a place.
fn add(values: &mut Vec<(u16, Value)>, at: usize, entry: (u16, Value)) -> Result<(), NoMemory>
    requires { at ≤ length values.old.items }
    ensures ok { OnOk result (values.new.items ≡ insert values.old.items at entry) }
    ensures err { OnErr result (values.new.items ≡ values.old.items) }
{
    if at < values.len() {
        values.insert(at, entry)?;
    } else {
        push(values, entry)?;
    }
    Ok(())
}

// Whether the two are the same value, or both none.
fn is_same_value(one: Option<&Value>, other: Option<&Value>) -> bool
    ensures { IsTrue result ↔ (option_map (λ value. value.now) one.entry ≡ option_map (λ value. value.now) other.entry) }
{
    match (one, other) {
        (Some(one), Some(other)) => *one == *other,
        (None, None) => true,
        _ => false,
    }
}

impl Env {
    /// No variable has a value. Takes no memory.
    pub fn new(alloc: Global) -> Self
        ensures { result ≡ map.empty }
    {
        Env {
            values: Vec::new(alloc),
        }
    }

    /// Takes all values away, and keeps their room.
    pub fn clear(&mut self)
        ensures { self.new ≡ map.empty }
    {
        self.values.clear();
    }

    /// Whether it has the values that another has of these variables, and no others. It takes time that grows with the number of its
    /// values times that of the variables.
    pub fn has_only(&self, vars: &[u16], other: &Env) -> bool
        ensures { IsTrue result ↔ HasOnly vars.now other.now self.now }
    {
        for (var, _) in self.values.iter() {
            if !vars.contains(var) {
                return false;
            }
        }
        for var in vars {
            if !is_same_value(self.value_of(*var), other.value_of(*var)) {
                return false;
            }
        }
        true
    }

    /// The value of a variable. `None`: it has none.
    pub fn get(&self, var: u16) -> Option<Value>
        ensures { result ≡ map.get self.now var }
    {
        self.value_of(var).copied()
    }

    /// The same value, where it stands.
    pub(crate) fn value_of(&self, var: u16) -> Option<&Value>
        ensures { option_map (λ value. value.now) result ≡ map.get self.now var }
    {
        match search(&self.values, var) {
            Ok(at) => Some(&self.values[at].1),
            Err(_) => None,
        }
    }

    /// Gives a variable a value, instead of the one that it may have.
    ///
    /// # Errors
    ///
    /// `NoMemory` alone. Then nothing is changed.
    pub fn set(&mut self, var: u16, value: &Value) -> Result<(), NoMemory>
        ensures ok { OnOk result (self.new ≡ map.insert self.old var value.now) }
        ensures err { OnErr result (self.new ≡ self.old) }
    {
        match search(&self.values, var) {
            Ok(at) => {
                self.values[at].1 = *value;
                Ok(())
            }
            Err(at) => add(&mut self.values, at, (var, *value)),
        }
    }
}

impl Exact for Env {
    fn copy(&self, _: Global) -> Result<Env, NoMemory> {
        let values = self.values.clone()?;
        Ok(Env { values })
    }
}

impl Same for Env {
    fn same(&self, other: &Env) -> bool {
        self.values == other.values
    }
}
