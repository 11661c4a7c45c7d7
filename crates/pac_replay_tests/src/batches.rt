// Where the transactions of a script are cut into batches, and those of the stress test as a script.
use pac_base::Same;
use pac_ops::{Batch, Txn};
use pac_script::{Script, read_script, stress_txn};
use std::alloc::{AllocError, Global};
use std::test::Fail;

const FRONT: &str = "table T(key int, v int);
table W(key int, a int, b int, c int, d int, e int, f int, g int, h int);
---
";

// A line before a piece that stands so often in it, how often that line stands in the script, and of each batch its first
// transaction and how many it has.
type Row = (
    &'static str,
    (usize, &'static str),
    usize,
    &'static [(u64, usize)],
);

const ROWS: &[Row] = &[
    // A flush ends a batch, if it has a transaction.
    (
        "flush\nadhoc delete T[1]\nflush\n\nflush\nadhoc delete T[2]\nadhoc delete T[3]\nflush",
        (0, ""),
        1,
        &[(1, 1), (2, 2)],
    ),
    // A batch has at most 1,024 transactions.
    (
        "adhoc delete T[1]",
        (0, ""),
        1_025,
        &[(1, 1_024), (1_025, 1)],
    ),
    // A body has at most 4,194,304 bytes. An entry of 64 such records has 5,442: 2, and 85 for each. So 770 of them and 8
    // bytes are 4,190,348; one more would be 4,195,790.
    (
        "adhoc put W[1] = (1,1,1,1,1,1,1,1)",
        (63, "; put W[1] = (1,1,1,1,1,1,1,1)"),
        800,
        &[(1, 770), (771, 30)],
    ),
];

fn push_line(text: &mut Vec<u8>, row: &Row) -> Result<(), AllocError> {
    text.extend_from_slice(row.0.as_bytes())?;
    for _ in 0..row.1.0 {
        text.extend_from_slice(row.1.1.as_bytes())?;
    }
    text.push(b'\n')?;
    Ok(())
}

fn push_lines(text: &mut Vec<u8>, row: &Row) -> Result<(), AllocError> {
    for _ in 0..row.2 {
        push_line(text, row)?;
    }
    Ok(())
}

fn is_cut_so(batches: &[Batch], cuts: &[(u64, usize)]) -> bool {
    let mut rest = batches;
    for &(first, count) in cuts {
        match rest {
            [batch, after @ ..] if batch.first == first && batch.txns.items().len() == count => {
                rest = after;
            }
            _ => return false,
        }
    }
    rest.is_empty()
}

fn is_read_so(alloc: Global, text: &[u8], cuts: &[(u64, usize)]) -> bool {
    match read_script(alloc, text) {
        Ok(script) => is_cut_so(script.batches.as_slice(), cuts),
        Err(_) => false,
    }
}

fn cuts_so(alloc: Global, row: &Row) -> Result<bool, AllocError> {
    let mut text = FRONT.as_bytes().to_vec(alloc)?;
    push_lines(&mut text, row)?;
    Ok(is_read_so(alloc, &text, row.3))
}

#[test]
fn batches_end_where_they_are_full_or_flushed(rt: HostRuntime) -> Result<(), Fail> {
    for row in ROWS {
        assert!(rt; cuts_so(rt.alloc(), row)?, "{} lines {}", row.2, row.0);
    }
    Ok(())
}

// The bank's first table and its procedures, as far as lines see them, and the first eight transactions.
const EIGHT: &[u8] = b"table Family(key int, spouse int);
proc Transfer(src int, amount int) { }
proc Deposit(name int, amount int, nation int) { }
---
call Transfer(13, 318)
call Transfer(87, 621)
call Transfer(2, 939)
call Deposit(76, 242, 3)
call Deposit(53, 546, 2)
call Deposit(65, 863, 4)
call Deposit(42, 167, 4)
adhoc put Family[54] = (89)";

fn is_stress_txn(alloc: Global, number: u64, txn: &Txn) -> bool {
    match stress_txn(alloc, number) {
        Ok(made) => made.same(txn),
        Err(_) => false,
    }
}

// How many transactions, from the first on, are those of the stress test, numbered from 1.
fn count_same(alloc: Global, txns: &[Txn]) -> u64 {
    let mut count = 0u64;
    for txn in txns {
        if !is_stress_txn(alloc, count.saturating_add(1), txn) {
            break;
        }
        count = count.saturating_add(1);
    }
    count
}

fn count_in_script(alloc: Global, script: &Script) -> u64 {
    match script.batches.as_slice() {
        [batch] => count_same(alloc, batch.txns.items()),
        _ => 0,
    }
}

#[test]
fn the_first_eight_of_the_stress_test_are_as_worked(rt: HostRuntime) {
    let count = match read_script(rt.alloc(), EIGHT) {
        Ok(script) => count_in_script(rt.alloc(), &script),
        Err(_) => 0,
    };
    assert_eq!(rt; count, 8);
}
