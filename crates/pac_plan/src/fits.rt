// Whether transactions fit a plan.
ghost use Rattle.std.specs.Prelude.{◌≡◌, ◌↔◌, map, slice_get, IsTrue, IsSomeAnd};
ghost use Rattle.std.specs.List.{AllByRecursion};
ghost use Rattle.pac_value.specs.Values.{type_of, key_value};
ghost use Rattle.pac_ops.specs.Shapes.{KeyFits, RowFits, ChangeFits, RecordsFit};
ghost use Rattle.pac_plan.specs.Codes.{TxnFitsPlan};

use crate::Plan;
use pac_ops::{Call, Change, TableTypes, Txn};
use pac_value::{Key, Ty, Value};

impl Plan {
    /// Whether a transaction fits the plan: its procedure is one of the plan's and its arguments have the types of the parameters,
    /// or each of its records has the types of a table of the plan. Takes no memory.
    pub fn fits(&self, txn: &Txn) -> bool
        ensures { IsTrue result ↔ TxnFitsPlan self.now txn.now }
    {
        match txn {
            Txn::Call(call) => self.has_params(call),
            Txn::AdHoc { records } => all_fit(self.parts.tables.as_slice(), records.items()),
        }
    }

    /// Whether each of the transactions fits the plan. Takes no memory.
    pub fn fits_all(&self, txns: &[Txn]) -> bool
        ensures { IsTrue result ↔ AllByRecursion (TxnFitsPlan self.now) txns.now }
    {
        for txn in txns {
            if !self.fits(txn) {
                return false;
            }
        }
        true
    }

    /// Whether a key and values are those of a row of a table of the plan. Takes no memory.
    pub fn row_fits(&self, table: u16, key: &Key, row: &[Value]) -> bool
        ensures { IsTrue result ↔ RowFits self.now.tables (table, key.now) row.now }
    {
        row_fits(self.parts.tables.as_slice(), table, key, row)
    }

    // Whether a call is of a procedure with such parameters.
    fn has_params(&self, call: &Call) -> bool
        ensures { IsTrue result ↔ IsSomeAnd (slice_get (map (λ program. program.params) self.now.programs) call.now.proc) (λ types. map type_of call.now.args ≡ types) }
    {
        match self.parts.programs.as_slice().get(usize::from(call.proc)) {
            Some(program) => have_types(call.args.items(), program.params.as_slice()),
            None => false,
        }
    }
}

// Whether values have these types.
fn have_types(values: &[Value], types: &[Ty]) -> bool
    ensures { IsTrue result ↔ (map type_of values.now ≡ types.now) }
{
    if values.len() != types.len() {
        return false;
    }
    for i in 0..values.len() {
        if values[i].ty() != types[i] {
            return false;
        }
    }
    true
}

// Whether each change fits one of the tables.
fn all_fit(tables: &[TableTypes], changes: &[Change]) -> bool
    ensures { IsTrue result ↔ RecordsFit tables.now changes.now }
{
    for change in changes {
        if !change_fits(tables, change) {
            return false;
        }
    }
    true
}

// Whether a change fits one of the tables.
fn change_fits(tables: &[TableTypes], change: &Change) -> bool
    ensures { IsTrue result ↔ ChangeFits tables.now change.now }
{
    match change {
        Change::Put { table, key, row } => row_fits(tables, *table, key, row.items()),
        Change::Delete { table, key } => key_fits(tables, *table, key),
    }
}

// Whether a key and values are those of a row of a table.
fn row_fits(tables: &[TableTypes], table: u16, key: &Key, row: &[Value]) -> bool
    ensures { IsTrue result ↔ RowFits tables.now (table, key.now) row.now }
{
    match tables.get(usize::from(table)) {
        Some(types) => types.key == key_type(key) && have_types(row, types.columns.as_slice()),
        None => false,
    }
}

// Whether a key is one of a table.
fn key_fits(tables: &[TableTypes], table: u16, key: &Key) -> bool
    ensures { IsTrue result ↔ IsSomeAnd (slice_get tables.now table) (KeyFits key.now) }
{
    match tables.get(usize::from(table)) {
        Some(types) => types.key == key_type(key),
        None => false,
    }
}

// The type of a key.
fn key_type(key: &Key) -> Ty
    ensures { result ≡ type_of (key_value key.now) }
{
    match key {
        Key::Int(_) => Ty::Int,
        Key::Text(_) => Ty::Text,
    }
}
