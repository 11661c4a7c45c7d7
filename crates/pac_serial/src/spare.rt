// Rows that aren't needed any more, whose room new ones take.
ghost use Rattle.std.specs.Prelude.{◌≡◌, [], IfOk};

use pac_base::{Listed, NoMemory};
use pac_value::{Row, Value};
use std::alloc::Global;

/// An empty list for the values of a row, with the room of a spare row, or else with room for that many.
pub(crate) fn row_room(
    alloc: Global,
    spare: &mut Listed<Row>,
    count: usize,
) -> Result<Vec<Value>, NoMemory>
    ensures { IfOk result (λ room. room.items ≡ []) }
{
    let Some(row) = spare.pop() else {
        return Ok(Vec::with_capacity(alloc, count)?);
    };
    let mut room = row.into_items();
    room.clear();
    Ok(room)
}

/// A list of these values, in the same room.
pub(crate) fn values_copy(
    alloc: Global,
    spare: &mut Listed<Row>,
    values: &[Value],
) -> Result<Vec<Value>, NoMemory>
    ensures { IfOk result (λ copy. copy.items ≡ values.now) }
{
    let mut copy = row_room(alloc, spare, values.len())?;
    copy.extend_from_slice(values)?;
    Ok(copy)
}

/// An equal row, in the same room.
pub(crate) fn row_copy(alloc: Global, spare: &mut Listed<Row>, row: &Row) -> Result<Row, NoMemory>
    ensures { IfOk result (λ copy. copy ≡ row.now) }
{
    let values = values_copy(alloc, spare, row.items())?;
    Ok(Row::of(values))
}
