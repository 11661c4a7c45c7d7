// Many new rows at once, and a plan of many blocks.
ghost use Rattle.std.specs.Prelude.{◌≡◌, IfOk, pos};
ghost use Rattle.pac_tables.specs.Written.{AreWithin};

use crate::rows::{count_of, number_at, row_of};
use pac_base::{Exact, NoMemory};
use pac_flat::flatten;
use pac_global::global;
use pac_plan::Plan;
use pac_tables::{OrderedRows, Write, Writes, apply_all};
use pac_types::{Catalogue, read_catalogue};
use pac_value::Key;
use std::alloc::{AllocError, Global};
use std::test::Fail;

// A put of a key's own number there, in the first table.
fn put_of(alloc: Global, key: u32) -> Result<Write, NoMemory>
    ensures table { IfOk result (λ write. write.table ≡ 0) }
    ensures key { IfOk result (λ write. write.key ≡ Key.Int (pos key)) }
{
    let key = i64::from(key);
    Ok(Write {
        table: 0,
        key: Key::Int(key),
        row: Some(row_of(alloc, key)?),
    })
}

// Such puts at the keys from 63 down to 0.
fn puts(alloc: Global) -> Result<Writes, NoMemory>
    ensures { IfOk result (λ writes. AreWithin 1 writes) }
{
    let mut writes = Vec::new(alloc);
    for key in 0..64u32 {
        writes.insert(0, put_of(alloc, key)?)?;
    }
    Ok(Writes::of(writes))
}

fn are_applied(alloc: Global, rows: &mut OrderedRows) -> Result<bool, NoMemory>
    requires { rows.old.tables ≡ 1 }
{
    let writes = puts(alloc)?;
    Ok(apply_all(alloc, rows, writes).is_ok())
}

// Tables without rows, after these writes.
fn applied(alloc: Global) -> Result<OrderedRows, NoMemory> {
    let mut rows = OrderedRows::new(alloc, 1)?;
    if are_applied(alloc, &mut rows)? {
        Ok(rows)
    } else {
        Err(NoMemory)
    }
}

#[test]
fn many_new_rows_are_written_together(rt: HostRuntime) -> Result<(), Fail> {
    let rows = applied(rt.alloc())?;
    let numbers = (number_at(&rows, 0), number_at(&rows, 63));
    assert_eq!(rt; (count_of(&rows), numbers), (64, (Some(0), Some(63))));
    Ok(())
}

// A word, a number and a word after it.
fn push_numbered(
    alloc: Global,
    text: &mut Vec<u8>,
    before: &str,
    number: u32,
    after: &str,
) -> Result<(), AllocError> {
    text.extend_from_slice(before.as_bytes())?;
    text.extend_from_slice(number.to_string(alloc)?.as_bytes())?;
    text.extend_from_slice(after.as_bytes())
}

fn push_tables(alloc: Global, text: &mut Vec<u8>) -> Result<(), AllocError> {
    for number in 0..64u32 {
        push_numbered(alloc, text, "table T", number, "(key int, v int);\n")?;
    }
    Ok(())
}

fn push_procs(alloc: Global, text: &mut Vec<u8>) -> Result<(), AllocError> {
    for number in 0..64u32 {
        push_numbered(alloc, text, "proc P", number, "(k int) { put T")?;
        push_numbered(alloc, text, "", number, "[k] = (1); }\n")?;
    }
    Ok(())
}

// A catalogue of 64 tables and 64 procedures, each of which puts a row into a table of its own.
fn catalogue_text(alloc: Global) -> Result<Vec<u8>, AllocError> {
    let mut text = Vec::new(alloc);
    push_tables(alloc, &mut text)?;
    push_procs(alloc, &mut text)?;
    Ok(text)
}

// Each table is a block with the one operation on it, and none waits for another.
fn has_a_block_each(plan: &Plan) -> bool {
    plan.blocks() == 64 && plan.procs() == 64 && plan.tables() == 64 && plan.edges().is_empty()
}

fn copy_has_a_block_each(alloc: Global, plan: &Plan) -> bool {
    match plan.copy(alloc) {
        Ok(copy) => has_a_block_each(&copy),
        Err(_) => false,
    }
}

fn plan_is_copied(alloc: Global, catalogue: &Catalogue) -> bool {
    let Ok(programs) = flatten(alloc, catalogue) else {
        return false;
    };
    let _procs = catalogue.procs(); // so few that they can be planned
    match global(alloc, catalogue, programs) {
        Ok(plan) => has_a_block_each(&plan) && copy_has_a_block_each(alloc, &plan),
        Err(_) => false,
    }
}

fn is_planned(alloc: Global, text: &[u8]) -> bool {
    match read_catalogue(alloc, text) {
        Ok(catalogue) => plan_is_copied(alloc, &catalogue),
        Err(_) => false,
    }
}

#[test]
fn a_plan_of_many_blocks_is_copied(rt: HostRuntime) -> Result<(), Fail> {
    let text = catalogue_text(rt.alloc())?;
    assert!(rt; is_planned(rt.alloc(), &text));
    Ok(())
}
