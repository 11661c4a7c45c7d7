// The tables and the note with which a replay ends.
use pac_base::{NoMemory, Same};
use pac_core::{Core, Outcome};
use pac_tables::Rows;
use pac_value::{Key, Row, Value};

/// The rows of a table with whole numbers for keys and one column, by ascending keys.
pub(crate) type KeyedNumbers = &'static [(i64, i64)];

fn is_number(key: &Key, row: &Row, number: (i64, i64)) -> bool {
    *key == Key::Int(number.0) && row.items() == [Value::Int(number.1)].as_slice()
}

fn are_numbers(rows: &[(&Key, &Row)], numbers: &[(i64, i64)]) -> bool {
    let mut rest = numbers;
    for (key, row) in rows {
        match rest {
            [number, after @ ..] if is_number(key, row, *number) => rest = after,
            _ => return false,
        }
    }
    rest.is_empty()
}

// Whether a table holds these and no others, where there is one.
fn holds<R: Rows>(rows: &R, table: u16, numbers: &[(i64, i64)]) -> bool {
    if table >= rows.tables() {
        return false;
    }
    match rows.sorted_rows(table) {
        Ok(found) => are_numbers(&found, numbers),
        Err(_) => false,
    }
}

/// Whether the tables hold these and no others.
pub(crate) fn hold<R: Rows>(rows: &R, tables: &[KeyedNumbers]) -> bool {
    if usize::from(rows.tables()) != tables.len() {
        return false;
    }
    let mut table = 0u16;
    for numbers in tables {
        if !holds(rows, table, numbers) {
            return false;
        }
        table = table.saturating_add(1);
    }
    true
}

// Whether two rows are the same, at the same key.
fn is_same_row(row: (&Key, &Row), other: (&Key, &Row)) -> bool {
    row.0 == other.0 && row.1.same(other.1)
}

fn are_same(rows: &[(&Key, &Row)], others: &[(&Key, &Row)]) -> bool {
    if rows.len() != others.len() {
        return false;
    }
    for i in 0..rows.len() {
        if !is_same_row(rows[i], others[i]) {
            return false;
        }
    }
    true
}

// Whether two tables have the same rows, where there are both.
fn is_same_table<R: Rows, S: Rows>(rows: &R, others: &S, table: u16) -> Result<bool, NoMemory> {
    if table >= rows.tables() || table >= others.tables() {
        return Ok(false);
    }
    let found = rows.sorted_rows(table)?;
    let wanted = others.sorted_rows(table)?;
    Ok(are_same(&found, &wanted))
}

/// Whether they have the same rows.
pub(crate) fn are_same_rows<R: Rows, S: Rows>(rows: &R, others: &S) -> Result<bool, NoMemory> {
    if rows.tables() != others.tables() {
        return Ok(false);
    }
    for table in 0..rows.tables() {
        if !is_same_table(rows, others, table)? {
            return Ok(false);
        }
    }
    Ok(true)
}

/// What a core leaves that is closed and has finished each piece.
pub(crate) fn outcome_of<R: Rows>(core: Core<R>) -> Option<Outcome<R>> {
    if core.is_closed() && core.is_finished() {
        Some(core.outcome())
    } else {
        None
    }
}

/// What a closed core leaves, after the rest of it is run.
pub(crate) fn drained<R: Rows>(core: Core<R>) -> Option<Outcome<R>> {
    if !core.is_closed() {
        return None;
    }
    let mut core = core.reclaim();
    match core.drain() {
        Ok(_) => Some(core.outcome()),
        Err(_) => None,
    }
}
