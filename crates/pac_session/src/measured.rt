// Transactions whose entries are measured.
ghost use Rattle.std.specs.Prelude.{◌≡◌, ◌≤◌, length};
ghost use Rattle.pac_entry.specs.Entries.{txn_bytes};
ghost use Rattle.pac_entry.specs.declared.length.TheConstants.{MAX_ENTRY_LEN};

use pac_entry::entry_len;
use pac_ops::Txn;
use std::marker::Model;

/// A transaction with the length of its entry, which is measured once. Contracts see the transaction.
#[derive(Drop)]
pub struct Measured {
    txn: Txn,
    len: usize,
}

impl Model for Measured {
    ghost use Rattle.std.specs.Prelude.{◌≡◌, ◌≤◌, length};
    ghost use Rattle.pac_ops.specs.declared.transaction.Txn.{Txn};
    ghost use Rattle.pac_ops.specs.contracts.transaction.Txn as coding;
    ghost use Rattle.pac_entry.specs.Entries.{txn_bytes};
    ghost use Rattle.pac_entry.specs.declared.length.TheConstants.{MAX_ENTRY_LEN};

    ghost Value = { Txn };

    ghost coded = { coding.the_row.coded };

    ghost view = { λ measured. measured.txn };

    ghost invariant = { λ measured. (measured.len ≡ length (txn_bytes measured.txn)) × (measured.len ≤ MAX_ENTRY_LEN) };
}

impl Measured {
    /// Measures a transaction. Linear in its values; takes no memory.
    pub fn of(txn: Txn) -> Measured
        ensures { result ≡ txn }
    {
        let len = entry_len(&txn);
        Measured { txn, len }
    }

    /// The transaction.
    pub fn txn(&self) -> &Txn
        ensures { result.now ≡ self.now }
    {
        &self.txn
    }

    /// How many bytes its entry has.
    pub fn len(&self) -> usize
        ensures exact { result ≡ length (txn_bytes self.now) }
        ensures few { result ≤ MAX_ENTRY_LEN }
    {
        self.len
    }

    /// The transaction alone.
    pub fn into_txn(self) -> Txn
        ensures { result ≡ self }
    {
        self.txn
    }
}
