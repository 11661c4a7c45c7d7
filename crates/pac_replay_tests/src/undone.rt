// Tables that are changed, and the opening that they keep, as worked by hand.
use crate::rows::{count_of, number_at, row_of};
use pac_base::NoMemory;
use pac_tables::{HashedRows, Rows, Write, Writes};
use pac_undo::UndoRows;
use pac_value::{Key, Row};
use std::alloc::Global;
use std::test::Fail;

// Keys of one table with their numbers.
type Numbers = &'static [(i64, i64)];

// The opening; the changes, one after another, each a key with its number from then on, or none; what stands then; and whether
// that is the opening again.
type Changed = (Numbers, &'static [(i64, Option<i64>)], Numbers, bool);

const ROWS: &[Changed] = &[
    // Cells are changed more than once, one is deleted, and one comes, goes and comes again.
    (
        &[(1, 10), (2, 20)],
        &[
            (1, Some(11)),
            (1, Some(12)),
            (2, None),
            (3, Some(30)),
            (3, None),
            (3, Some(31)),
        ],
        &[(1, 12), (3, 31)],
        false,
    ),
    // What was changed is as it was.
    (
        &[(1, 10)],
        &[(1, None), (2, Some(5)), (1, Some(10)), (2, None)],
        &[(1, 10)],
        true,
    ),
    // There are rows more, and none at first.
    (&[], &[(7, Some(70))], &[(7, 70)], false),
    // Nothing is changed.
    (&[(4, 40)], &[], &[(4, 40)], true),
];

fn row_at(alloc: Global, number: Option<i64>) -> Result<Option<Row>, NoMemory> {
    match number {
        Some(number) => Ok(Some(row_of(alloc, number)?)),
        None => Ok(None),
    }
}

// One write, in the first table if there is one.
fn change<R: Rows>(
    alloc: Global,
    tables: &mut UndoRows<R>,
    key: i64,
    number: Option<i64>,
) -> Result<(), NoMemory> {
    if tables.rows().tables() == 0 {
        return Ok(());
    }
    let write = Write {
        table: 0,
        key: Key::Int(key),
        row: row_at(alloc, number)?,
    };
    match tables.apply(Writes::of(vec![in alloc; write]?)) {
        Ok(()) => Ok(()),
        Err((_, NoMemory)) => Err(NoMemory),
    }
}

// The tables hold these numbers and no others.
fn hold<R: Rows>(rows: &R, numbers: &[(i64, i64)]) -> bool {
    for (key, number) in numbers {
        if number_at(rows, *key) != Some(*number) {
            return false;
        }
    }
    count_of(rows) == numbers.len() as u64
}

fn put<R: Rows>(alloc: Global, rows: &mut R, key: i64, number: i64) -> Result<(), NoMemory> {
    if rows.tables() == 0 {
        return Ok(());
    }
    rows.put(0, Key::Int(key), row_of(alloc, number)?)
}

fn tables_of(alloc: Global, numbers: &[(i64, i64)]) -> Result<HashedRows, NoMemory> {
    let mut rows = HashedRows::new(alloc, 1)?;
    for (key, number) in numbers {
        put(alloc, &mut rows, *key, *number)?;
    }
    Ok(rows)
}

fn opened(alloc: Global, row: &Changed) -> Result<UndoRows<HashedRows>, NoMemory> {
    let mut tables = UndoRows::new(alloc, tables_of(alloc, row.0)?);
    for (key, number) in row.1 {
        change(alloc, &mut tables, *key, *number)?;
    }
    Ok(tables)
}

fn opening_stands<R: Rows>(tables: &UndoRows<R>, row: &Changed) -> Result<bool, NoMemory> {
    let opening = tables.opening()?;
    Ok(
        hold(&opening, row.0)
            && tables.has_opening(&opening)?
            && tables.has_opening(tables.rows())? == row.3,
    )
}

fn row_goes(alloc: Global, row: &Changed) -> Result<bool, NoMemory> {
    let tables = opened(alloc, row)?;
    Ok(opening_stands(&tables, row)? && hold(&tables.into_rows(), row.2))
}

// Other tables, of which there is one more.
fn more_are_other(alloc: Global) -> Result<bool, NoMemory> {
    let tables = UndoRows::new(alloc, HashedRows::new(alloc, 1)?);
    let more = HashedRows::new(alloc, 2)?;
    Ok(!tables.has_opening(&more)?)
}

#[test]
fn an_opening_stands_through_changes(rt: HostRuntime) -> Result<(), Fail> {
    for (at, row) in ROWS.iter().enumerate() {
        assert!(rt; row_goes(rt.alloc(), row)?, "row {at}");
    }
    assert!(rt; more_are_other(rt.alloc())?);
    Ok(())
}
