// Executing batches over a small plan.
ghost use Rattle.std.specs.Prelude.{◌≡◌, ◌≤◌, IfOk, length};

use pac_base::{NoMemory, listed};
use pac_core::execute;
use pac_ops::{Batch, Change, OpenGate, Records, TableTypes, Txn, Txns};
use pac_plan::{Plan, PlanParts};
use pac_tables::{OrderedRows, Rows};
use pac_value::{Key, Row, Ty, Value};
use std::alloc::Global;
use std::sync::Wait;
use std::thread::Threads;

// A plan of one table, and of no procedure.
pub fn one_table(alloc: Global) -> Result<Plan, NoMemory>
    ensures { IfOk result (λ plan. length plan.tables ≡ 1) }
{
    let columns = listed(vec![in alloc; Ty::Int]?);
    let table = TableTypes {
        key: Ty::Int,
        columns,
    };
    let tables = listed(vec![in alloc; table]?);
    let homes = listed(vec![in alloc; 0u16]?);
    Ok(Plan::new(PlanParts {
        programs: listed(Vec::new(alloc)),
        tables,
        block_of: listed(Vec::new(alloc)),
        homes,
        blocks: 1,
        edges: listed(Vec::new(alloc)),
    }))
}

// A transaction that puts a row.
fn put(alloc: Global, key: i64, value: i64) -> Result<Txn, NoMemory> {
    let row = Row::of(vec![in alloc; Value::Int(value)]?);
    let change = Change::Put {
        table: 0,
        key: Key::Int(key),
        row,
    };
    Ok(Txn::AdHoc {
        records: Records::of(vec![in alloc; change]?),
    })
}

// A batch of two transactions.
pub fn two_puts(
    alloc: Global,
    first: u64,
    one: (i64, i64),
    other: (i64, i64),
) -> Result<Batch, NoMemory>
    ensures first { IfOk result (λ batch. batch.first ≡ first) }
    ensures two { IfOk result (λ batch. length batch.txns ≡ 2) }
{
    let one = put(alloc, one.0, one.1)?;
    let other = put(alloc, other.0, other.1)?;
    let txns = Txns::of(vec![in alloc; one, other]?);
    Ok(Batch { first, txns })
}

// What a table's only column has at a key.
fn value_at(rows: &OrderedRows, key: i64) -> Option<Value>
    requires { 1 ≤ rows.now.tables }
{
    rows.get(0, &Key::Int(key))?.items().first().copied()
}

// Whether two batches, executed by `workers` workers, leave the rows that are put last.
pub fn leaves_the_last<H: Threads + Wait + Sync>(
    rt: &H,
    alloc: Global,
    workers: u32,
) -> Result<bool, NoMemory>
    requires { 1 ≤ workers }
{
    let plan = one_table(alloc)?;
    let first = two_puts(alloc, 1, (7, 1), (8, 2))?;
    let second = two_puts(alloc, 3, (7, 3), (9, 4))?;
    if !plan.fits_all(first.txns.items()) || !plan.fits_all(second.txns.items()) {
        return Ok(false);
    }
    let rows = OrderedRows::new(alloc, 1)?;
    let batches = listed(vec![in alloc; first, second]?);
    let executed = execute(rt, alloc, workers, plan, 1, rows, batches, &OpenGate)?;
    let tables = &executed.tables;
    Ok(
        executed.first_note.is_none()
            && executed.drained == 0
            && value_at(tables, 7) == Some(Value::Int(3))
            && value_at(tables, 8) == Some(Value::Int(2))
            && value_at(tables, 9) == Some(Value::Int(4)),
    )
}
