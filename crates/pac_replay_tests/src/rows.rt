// Writes that are made together, copies of many rows, and tables of both forms side by side.
ghost use Rattle.std.specs.Prelude.{◌≡◌, IfOk};
ghost use Rattle.pac_tables.specs.Written.{AreWithin};

use pac_base::NoMemory;
use pac_tables::{HashedRows, OrderedRows, Rows, Write, Writes, apply_all};
use pac_value::{Key, Row, Value};
use std::alloc::Global;
use std::test::Fail;

pub(crate) fn row_of(alloc: Global, number: i64) -> Result<Row, NoMemory> {
    Ok(Row::of(vec![in alloc; Value::Int(number)]?))
}

// Puts its number at a key of the first table, if there is one.
fn put_number(alloc: Global, rows: &mut OrderedRows, key: i64) -> Result<(), NoMemory> {
    if rows.tables() == 0 {
        return Ok(());
    }
    rows.put(0, Key::Int(key), row_of(alloc, key)?)
}

// Puts their numbers at the keys from 1 on.
fn put_numbers(alloc: Global, rows: &mut OrderedRows, count: u32) -> Result<(), NoMemory> {
    for key in 0..count {
        put_number(alloc, rows, i64::from(key) + 1)?;
    }
    Ok(())
}

// How many rows the first table has, if there is one.
pub(crate) fn count_of<R: Rows>(rows: &R) -> u64 {
    if rows.tables() == 0 { 0 } else { rows.count(0) }
}

// The number at a key of the first table.
pub(crate) fn number_at<R: Rows>(rows: &R, key: i64) -> Option<i64> {
    if rows.tables() == 0 {
        return None;
    }
    match rows.get(0, &Key::Int(key))?.items() {
        [Value::Int(number)] => Some(*number),
        _ => None,
    }
}

// A put at the key 2 and a delete at the key 3.
fn put_and_delete(alloc: Global) -> Result<Writes, NoMemory>
    ensures { IfOk result (λ writes. AreWithin 1 writes) }
{
    let put = Write {
        table: 0,
        key: Key::Int(2),
        row: Some(row_of(alloc, 20)?),
    };
    let delete = Write {
        table: 0,
        key: Key::Int(3),
        row: None,
    };
    Ok(Writes::of(vec![in alloc; put, delete]?))
}

fn is_applied(alloc: Global, rows: &mut OrderedRows) -> Result<bool, NoMemory>
    requires { rows.old.tables ≡ 1 }
{
    let writes = put_and_delete(alloc)?;
    Ok(apply_all(alloc, rows, writes).is_ok())
}

// The keys 1 and 3 are there, and 2 and 3 are written.
fn applied(alloc: Global) -> Result<OrderedRows, NoMemory> {
    let mut rows = OrderedRows::new(alloc, 1)?;
    rows.put(0, Key::Int(1), row_of(alloc, 10)?)?;
    rows.put(0, Key::Int(3), row_of(alloc, 30)?)?;
    if is_applied(alloc, &mut rows)? {
        Ok(rows)
    } else {
        Err(NoMemory)
    }
}

#[test]
fn writes_are_made_together(rt: HostRuntime) -> Result<(), Fail> {
    let rows = applied(rt.alloc())?;
    let numbers = (
        number_at(&rows, 1),
        number_at(&rows, 2),
        number_at(&rows, 3),
    );
    assert_eq!(rt; (count_of(&rows), numbers), (2, (Some(10), Some(20), None)));
    Ok(())
}

// How many rows a copy of these has, and the number at the last key.
fn copied(rows: &OrderedRows, count: u32) -> Result<(u64, Option<i64>), NoMemory> {
    let copy = rows.copy()?;
    Ok((count_of(&copy), number_at(&copy, i64::from(count))))
}

fn copied_of(alloc: Global, count: u32) -> Result<(u64, Option<i64>), NoMemory> {
    let mut rows = OrderedRows::new(alloc, 1)?;
    put_numbers(alloc, &mut rows, count)?;
    copied(&rows, count)
}

#[test]
fn many_rows_are_copied(rt: HostRuntime) -> Result<(), Fail> {
    assert_eq!(rt; copied_of(rt.alloc(), 1_000)?, (1_000, Some(1_000)));
    Ok(())
}

// Puts a number at a key, deletes the key or does neither, and then reads the number there.
fn operate<R: Rows>(alloc: Global, rows: &mut R, step: u32) -> Result<Option<i64>, NoMemory> {
    if rows.tables() == 0 {
        return Ok(None);
    }
    let key = i64::from((step >> 8) % 500);
    match (step >> 20) % 3 {
        0 => rows.put(0, Key::Int(key), row_of(alloc, i64::from(step))?)?,
        1 => rows.delete(0, &Key::Int(key)),
        _ => {}
    }
    Ok(number_at(rows, key))
}

// The keys of the first table, if there is one.
fn keys_of<R: Rows>(alloc: Global, rows: &R) -> Result<Vec<Key>, NoMemory> {
    if rows.tables() == 0 {
        return Ok(Vec::new(alloc));
    }
    rows.sorted_keys(0)
}

// In how many of 10,000 operations over 500 keys the tables answer differently. They are made by the numbers by which the
// stress test makes its transactions.
fn differences(
    alloc: Global,
    ordered: &mut OrderedRows,
    hashed: &mut HashedRows,
) -> Result<usize, NoMemory> {
    let mut found: usize = 0;
    for number in 1..10_001u32 {
        let step = number.wrapping_mul(2_654_435_761);
        if operate(alloc, ordered, step)? != operate(alloc, hashed, step)? {
            found = found.wrapping_add(1);
        }
    }
    Ok(found)
}

// Operates on both tables, and then compares their keys: how many answers differed, whether over 100 keys are left, and
// whether both tables have the same.
fn compared(
    alloc: Global,
    ordered: &mut OrderedRows,
    hashed: &mut HashedRows,
) -> Result<(usize, bool, bool), NoMemory> {
    let found = differences(alloc, ordered, hashed)?;
    let keys = keys_of(alloc, ordered)?;
    Ok((found, keys.len() > 100, keys == keys_of(alloc, hashed)?))
}

fn compared_from_none(alloc: Global) -> Result<(usize, bool, bool), NoMemory> {
    let mut ordered = OrderedRows::new(alloc, 1)?;
    let mut hashed = HashedRows::new(alloc, 1)?;
    compared(alloc, &mut ordered, &mut hashed)
}

#[test]
fn both_forms_of_tables_answer_alike(rt: HostRuntime) -> Result<(), Fail> {
    assert_eq!(rt; compared_from_none(rt.alloc())?, (0, true, true));
    Ok(())
}
