// Writes the body of a batch.
ghost use Rattle.std.specs.Prelude.{◌≡◌, ◌≤◌, ◌+◌, ◌*◌, length, OnOk};
ghost use Rattle.std.specs.List.{All};
ghost use Rattle.pac_value.specs.Growth.{Grew};
ghost use Rattle.pac_ops.specs.declared.limits.TheConstants.{MAX_TXNS};
ghost use Rattle.pac_entry.specs.declared.length.TheConstants.{MAX_ENTRY_LEN};
ghost use Rattle.pac_entry.specs.Entries.{TxnHasBytes};
ghost use Rattle.pac_log.specs.Bodies.{body_bytes, entries_bytes};

use pac_base::NoMemory;
use pac_bytes::put_u32;
use pac_entry::{entry_len, write_entry};
use pac_ops::{Batch, Txn};

/// How many bytes the body of a batch has. Linear in its values; takes no memory.
pub fn body_len(batch: &Batch) -> u64
    ensures exact { result ≡ length (body_bytes batch.now.txns) }
    ensures few { result ≤ 8 + MAX_TXNS * MAX_ENTRY_LEN }
{
    8 + entries_len(batch.txns.items()) as u64
}

// How many bytes the entries of transactions have.
fn entries_len(txns: &[Txn]) -> usize
    requires { length txns.now ≤ MAX_TXNS }
    ensures exact { result ≡ length (entries_bytes txns.now) }
    ensures few { result ≤ MAX_ENTRY_LEN * length txns.now }
{
    let mut len = 0;
    for txn in txns {
        len += entry_len(txn);
    }
    len
}

/// Appends the body of a batch. It takes memory once, for the whole body.
///
/// # Errors
///
/// `NoMemory` alone.
pub fn write_body(batch: &Batch, out: &mut Vec<u8>) -> Result<(), NoMemory>
    // After the old bytes stands the body.
    ensures bytes { OnOk result (Grew out.old.items out.new.items (body_bytes batch.now.txns)) }
    // Its transactions are some that are read again, where they fit the catalogue.
    ensures form { OnOk result (All TxnHasBytes batch.now.txns) }
{
    write_measured(batch, entries_len(batch.txns.items()), out)
}

// The same of a batch whose entries have that many bytes.
pub(crate) fn write_measured(batch: &Batch, len: usize, out: &mut Vec<u8>) -> Result<(), NoMemory>
    requires exact { len ≡ length (entries_bytes batch.now.txns) }
    requires few { len ≤ MAX_TXNS * MAX_ENTRY_LEN }
    ensures bytes { OnOk result (Grew out.old.items out.new.items (body_bytes batch.now.txns)) }
    ensures form { OnOk result (All TxnHasBytes batch.now.txns) }
{
    let txns = batch.txns.items();
    out.reserve(8 + len)?;
    put_u32(out, txns.len() as u32)?;
    put_u32(out, len as u32)?;
    put_entries(out, txns)
}

fn put_entries(out: &mut Vec<u8>, txns: &[Txn]) -> Result<(), NoMemory>
    ensures bytes { OnOk result (Grew out.old.items out.new.items (entries_bytes txns.now)) }
    ensures form { OnOk result (All TxnHasBytes txns.now) }
{
    for txn in txns {
        write_entry(txn, out)?;
    }
    Ok(())
}
