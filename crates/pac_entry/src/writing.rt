// Writes entries.
ghost use Rattle.std.specs.Prelude.{◌≡◌, ◌≤◌, ◌++◌, length, OnOk, IsTrue};
ghost use Rattle.std.specs.List.{flat_map, list_all, All};
ghost use Rattle.pac_value.specs.declared.limits.TheConstants.{MAX_PARAMS};
ghost use Rattle.pac_value.specs.Growth.{Grew};
ghost use Rattle.pac_value.specs.Values.{is_stored};
ghost use Rattle.pac_bytes.specs.Typed.{values_bytes};
ghost use Rattle.pac_bytes.specs.Values.{HasBytes};
ghost use Rattle.pac_entry.specs.Entries.{counted_bytes, change_bytes, txn_bytes, ChangeHasBytes, TxnHasBytes};

use pac_base::NoMemory;
use pac_bytes::{put_key, put_u8, put_u16, put_value};
use pac_ops::{Change, Txn};
use pac_value::Value;

// The tags of entries.
pub(crate) const CALL: u8 = 1;

pub(crate) const AD_HOC: u8 = 2;

// The tags of records.
pub(crate) const PUT: u8 = 1;

pub(crate) const DELETE: u8 = 2;

/// Appends the entry of a transaction. It takes memory where there is no room for [`entry_len`](crate::entry_len) bytes.
///
/// # Errors
///
/// `NoMemory` alone.
pub fn write_entry(txn: &Txn, out: &mut Vec<u8>) -> Result<(), NoMemory>
    // After the old bytes stand those of the transaction.
    ensures bytes { OnOk result (Grew out.old.items out.new.items (txn_bytes txn.now)) }
    // It is one that is read again, where it fits the catalogue.
    ensures form { OnOk result (TxnHasBytes txn.now) }
{
    match txn {
        Txn::Call(call) => {
            let values = call.args.items();
            let [low, high] = call.proc.to_le_bytes();
            out.extend_from_slice(&[CALL, low, high, values.len() as u8])?;
            put_each(out, values)
        }
        Txn::AdHoc { records } => {
            let changes = records.items();
            put_u8(out, AD_HOC)?;
            put_u8(out, changes.len() as u8)?;
            put_changes(out, changes)
        }
    }
}

// The number of values, and they.
fn put_values(out: &mut Vec<u8>, values: &[Value]) -> Result<(), NoMemory>
    requires few { length values.now ≤ MAX_PARAMS }
    requires stored { IsTrue (list_all is_stored values.now) }
    ensures bytes { OnOk result (Grew out.old.items out.new.items (counted_bytes values.now)) }
    ensures form { OnOk result (All HasBytes values.now) }
{
    put_u8(out, values.len() as u8)?;
    put_each(out, values)
}

// One value after another.
fn put_each(out: &mut Vec<u8>, values: &[Value]) -> Result<(), NoMemory>
    requires stored { IsTrue (list_all is_stored values.now) }
    ensures bytes { OnOk result (Grew out.old.items out.new.items (values_bytes values.now)) }
    ensures form { OnOk result (All HasBytes values.now) }
{
    for value in values {
        put_value(out, value)?;
    }
    Ok(())
}

/// Appends a record: a change of one row, as it stands in the entry of an ad hoc transaction.
///
/// # Errors
///
/// `NoMemory` alone.
pub fn put_change(out: &mut Vec<u8>, change: &Change) -> Result<(), NoMemory>
    ensures bytes { OnOk result (Grew out.old.items out.new.items (change_bytes change.now)) }
    ensures form { OnOk result (ChangeHasBytes change.now) }
{
    match change {
        Change::Put { table, key, row } => {
            put_u8(out, PUT)?;
            put_u16(out, *table)?;
            put_key(out, key)?;
            put_values(out, row.items())
        }
        Change::Delete { table, key } => {
            put_u8(out, DELETE)?;
            put_u16(out, *table)?;
            put_key(out, key)
        }
    }
}

fn put_changes(out: &mut Vec<u8>, changes: &[Change]) -> Result<(), NoMemory>
    ensures bytes { OnOk result (Grew out.old.items out.new.items (flat_map change_bytes changes.now)) }
    ensures form { OnOk result (All ChangeHasBytes changes.now) }
{
    for change in changes {
        put_change(out, change)?;
    }
    Ok(())
}
