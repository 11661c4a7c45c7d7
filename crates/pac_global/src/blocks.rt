// The blocks of operations, out of the groups of all nodes.
ghost use Rattle.std.specs.Prelude.{◌≡◌, ℕ, ◌+◌, ◌<◌, ◌≤◌, length, slice_index, IfOk, map};
ghost use Rattle.pac_types.specs.Fits.{shape};
ghost use Rattle.pac_ops.specs.declared.limits.TheConstants.{MAX_ALL_OPS};
ghost use Rattle.pac_ops.specs.Programs.{count_ops};
ghost use Rattle.pac_global.specs.Drawing.{AreBlocksOf};

use pac_base::{NoMemory, listed};
use pac_ops::{Numbers, Program, TableTypes};
use pac_types::{Column, Table};
use pac_value::Ty;
use std::alloc::Global;

// For each program the blocks of its operations, which stand in a row among the numbers of all nodes.
pub(crate) fn blocks_of(
    alloc: Global,
    programs: &[Program],
    numbers: &[u16],
) -> Result<Vec<Numbers>, NoMemory>
    requires few { count_ops programs.now ≤ MAX_ALL_OPS }
    requires room { count_ops programs.now ≤ length numbers.now }
    ensures { IfOk result (λ blocks. AreBlocksOf programs.now numbers.now blocks.items) }
{
    let mut blocks = Vec::with_capacity(alloc, programs.len())?;
    let mut first = 0;
    for program in programs {
        let count = program.ops.as_slice().len();
        blocks.push(listed(row(alloc, numbers, first, count)?))?;
        first += count;
    }
    Ok(blocks)
}

// The numbers of nodes in a row.
pub(crate) fn row(
    alloc: Global,
    numbers: &[u16],
    first: usize,
    count: usize,
) -> Result<Vec<u16>, NoMemory>
    requires { first + count ≤ length numbers.now }
    ensures length { IfOk result (λ row. length row.items ≡ count) }
    ensures each { IfOk result (λ row. (i : ℕ) → i < count → slice_index row.items i ≡ slice_index numbers.now (first + i)) }
{
    let mut row = Vec::with_capacity(alloc, count)?;
    for i in 0..count {
        row.push(numbers[first + i])?;
    }
    Ok(row)
}

// The types of tables.
pub(crate) fn table_types(alloc: Global, tables: &[Table]) -> Result<Vec<TableTypes>, NoMemory>
    ensures { IfOk result (λ types. types.items ≡ map shape tables.now) }
{
    let mut types = Vec::with_capacity(alloc, tables.len())?;
    for table in tables {
        types.push(TableTypes {
            key: table.key,
            columns: listed(column_types(alloc, table.columns.as_slice())?),
        })?;
    }
    Ok(types)
}

// The types of columns.
fn column_types(alloc: Global, columns: &[Column]) -> Result<Vec<Ty>, NoMemory>
    ensures { IfOk result (λ types. types.items ≡ map (λ column. column.ty) columns.now) }
{
    let mut types = Vec::with_capacity(alloc, columns.len())?;
    for column in columns {
        types.push(column.ty)?;
    }
    Ok(types)
}
