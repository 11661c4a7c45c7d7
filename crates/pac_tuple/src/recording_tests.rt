// The after-images of worked scripts.
ghost use Rattle.std.specs.Prelude.{IfSome};
ghost use Rattle.pac_types.specs.Fits.{FitsCatalogue};
ghost use Rattle.pac_types.specs.OperationLimits.{HasFewOperations};
ghost use Rattle.pac_script.specs.BatchFits.{BatchesFit, BatchesHaveNumbers};

use crate::{Images, ImagesError, images_of, write_images};
use pac_flat::test_operations;
use pac_script::{Script, read_script};
use pac_serial::no_rows;
use pac_tables::HashedRows;
use pac_types::Catalogue;
use std::alloc::Global;
use std::test::Fail;

// A row is read, and two are put.
const DEPOSIT: &[u8] = b"table Family(key int, spouse int);
table Current(key int, value int);
table Saving(key int, value int);
table Stats(key int, count int);
proc Deposit(name int, amount int, nation int) {
  read v = Current[name].value default 0;
  put Current[name] = (v + amount);
  if v + amount > 10000 {
    read s = Saving[name].value default 0;
    put Saving[name] = (s + v / 50);
  }
  read n = Stats[nation].count default 0;
  put Stats[nation] = (n + 1);
}
---
call Deposit(1, 100, 7)";

// The row (100) at key 1 of Current, and the row (1) at key 7 of Stats.
const DEPOSITED: &[u8] = &[
    3, 2, 0, //
    1, 1, 0, 1, 1, 0, 0, 0, 0, 0, 0, 0, 1, 1, 100, 0, 0, 0, 0, 0, 0, 0, //
    1, 3, 0, 1, 7, 0, 0, 0, 0, 0, 0, 0, 1, 1, 1, 0, 0, 0, 0, 0, 0, 0,
];

// Rows that are not there are deleted, one in a loop's second turn; and records name a cell twice.
const DELETES: &[u8] = b"table T(key int, v int);
proc Gone(k int) { for i in 0..2 { has there = T[k + i]; if !there { delete T[k + i]; } } }
---
call Gone(4)
adhoc put T[2] = (1); delete T[1]; put T[2] = (3)
call Gone(1)";

// No row at 4 and at 5; none at 1, and (3) at 2; none at 1.
const DELETED: &[u8] = &[
    3, 2, 0, //
    2, 0, 0, 1, 4, 0, 0, 0, 0, 0, 0, 0, //
    2, 0, 0, 1, 5, 0, 0, 0, 0, 0, 0, 0, //
    3, 2, 0, //
    2, 0, 0, 1, 1, 0, 0, 0, 0, 0, 0, 0, //
    1, 0, 0, 1, 2, 0, 0, 0, 0, 0, 0, 0, 1, 1, 3, 0, 0, 0, 0, 0, 0, 0, //
    3, 1, 0, //
    2, 0, 0, 1, 1, 0, 0, 0, 0, 0, 0, 0,
];

// The second transaction puts a row, and then aborts.
const ABORTS: &[u8] = b"table T(key int, v int);
proc Set(k int, n int) { put T[k] = (n); abort if n == 2; }
---
call Set(1, 1)
call Set(1, 2)
call Set(1, 3)";

// The row (1) at key 1.
const BEFORE: &[u8] = &[
    3, 1, 0, //
    1, 0, 0, 1, 1, 0, 0, 0, 0, 0, 0, 0, 1, 1, 1, 0, 0, 0, 0, 0, 0, 0,
];

// The script of a text, whose operations are few.
fn script_of(alloc: Global, text: &[u8]) -> Option<Script>
    ensures few { IfSome result (λ script. HasFewOperations script.catalogue.procs) }
    ensures fits { IfSome result (λ script. BatchesFit script.catalogue script.batches) }
    ensures numbers { IfSome result (λ script. BatchesHaveNumbers script.batches) }
{
    let script = read_script(alloc, text).ok()?;
    test_operations(&script.catalogue).ok()?;
    Some(script)
}

// No rows, for the tables of a catalogue.
fn rows_of(alloc: Global, cat: &Catalogue) -> Option<HashedRows>
    ensures { IfSome result (λ rows. FitsCatalogue cat.now rows.tables rows.rows) }
{
    no_rows(alloc, cat).ok()
}

// The after-images of the only batch of a script, and the number of the transaction that aborts.
fn listed(alloc: Global, text: &[u8]) -> Option<(Images, Option<u64>)> {
    let script = script_of(alloc, text)?;
    let mut rows = rows_of(alloc, &script.catalogue)?;
    let [batch] = script.batches.as_slice() else {
        return None;
    };
    match images_of(alloc, &script.catalogue, batch, &mut rows) {
        Ok(images) => Some((images, None)),
        Err(ImagesError::Abort { note, images }) => Some((images, Some(note.txn))),
        Err(ImagesError::NoMemory) => None,
    }
}

// Whether the after-images of a script have these bytes, and this transaction aborts, or none.
fn lists(alloc: Global, text: &[u8], wanted: &[u8], aborts: Option<u64>) -> Option<bool> {
    let (images, aborted) = listed(alloc, text)?;
    let mut bytes = Vec::new(alloc);
    for at in 0..images.len() {
        write_images(&images, at, &mut bytes).ok()?;
    }
    Some(*bytes == *wanted && aborted == aborts)
}

#[test]
fn a_deposit_lists_the_rows_that_it_leaves(rt: HostRuntime) -> Result<(), Fail> {
    let listed = lists(rt.alloc(), DEPOSIT, DEPOSITED, None);
    assert_eq!(rt; listed, Some(true));
    Ok(())
}

#[test]
fn each_cell_that_is_written_is_listed_once(rt: HostRuntime) -> Result<(), Fail> {
    let listed = lists(rt.alloc(), DELETES, DELETED, None);
    assert_eq!(rt; listed, Some(true));
    Ok(())
}

#[test]
fn a_transaction_that_aborts_lists_nothing(rt: HostRuntime) -> Result<(), Fail> {
    let listed = lists(rt.alloc(), ABORTS, BEFORE, Some(2));
    assert_eq!(rt; listed, Some(true));
    Ok(())
}
