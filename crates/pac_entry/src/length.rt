// How many bytes entries have.
ghost use Rattle.std.specs.Prelude.{◌≡◌, ◌≤◌, ◌+◌, ◌*◌, length, IsTrue};
ghost use Rattle.std.specs.List.{flat_map, list_all};
ghost use Rattle.pac_value.specs.declared.limits.TheConstants.{MAX_PARAMS};
ghost use Rattle.pac_value.specs.Values.{is_stored};
ghost use Rattle.pac_ops.specs.declared.limits.TheConstants.{MAX_RECORDS};
ghost use Rattle.pac_bytes.specs.declared.values.TheConstants.{MAX_VALUE_LEN};
ghost use Rattle.pac_entry.specs.declared.length.TheConstants.{MAX_CHANGE_LEN, MAX_ENTRY_LEN};
ghost use Rattle.pac_entry.specs.Entries.{counted_bytes, change_bytes, txn_bytes};

use pac_bytes::{MAX_VALUE_LEN, key_len, value_len};
use pac_ops::{Change, MAX_RECORDS, Txn};
use pac_value::{MAX_COLUMNS, Value};

// The most bytes of a record: one that puts a row.
const MAX_CHANGE_LEN: usize = 4 + (1 + MAX_COLUMNS) * MAX_VALUE_LEN;

/// The most bytes of an entry: one of as many records as there may be.
pub const MAX_ENTRY_LEN: usize = 2 + MAX_RECORDS * MAX_CHANGE_LEN;

/// How many bytes the entry of a transaction has. Linear in its values; takes no memory.
pub fn entry_len(txn: &Txn) -> usize
    ensures exact { result ≡ length (txn_bytes txn.now) }
    ensures few { result ≤ MAX_ENTRY_LEN }
{
    match txn {
        Txn::Call(call) => 3 + values_len(call.args.items()),
        Txn::AdHoc { records } => 2 + changes_len(records.items()),
    }
}

// The number of values, and they.
fn values_len(values: &[Value]) -> usize
    requires few { length values.now ≤ MAX_PARAMS }
    requires stored { IsTrue (list_all is_stored values.now) }
    ensures exact { result ≡ length (counted_bytes values.now) }
    ensures few { result ≤ 1 + MAX_VALUE_LEN * length values.now }
{
    let mut len = 1;
    for value in values {
        len += value_len(value);
    }
    len
}

fn change_len(change: &Change) -> usize
    ensures exact { result ≡ length (change_bytes change.now) }
    ensures few { result ≤ MAX_CHANGE_LEN }
{
    match change {
        Change::Put { table: _, key, row } => 3 + key_len(key) + values_len(row.items()),
        Change::Delete { table: _, key } => 3 + key_len(key),
    }
}

fn changes_len(changes: &[Change]) -> usize
    requires { length changes.now ≤ MAX_RECORDS }
    ensures exact { result ≡ length (flat_map change_bytes changes.now) }
    ensures few { result ≤ MAX_CHANGE_LEN * length changes.now }
{
    let mut len = 0;
    for change in changes {
        len += change_len(change);
    }
    len
}
