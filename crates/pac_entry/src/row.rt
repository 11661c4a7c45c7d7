// Reads the values of columns.
ghost use Rattle.std.specs.Prelude.{◌≡◌, ◌≤◌, length, IsTrue, IfOk};
ghost use Rattle.std.specs.List.{list_all};
ghost use Rattle.pac_base.specs.Refusals.{Reports};
ghost use Rattle.pac_value.specs.declared.limits.TheConstants.{MAX_COLUMNS, MAX_PARAMS};
ghost use Rattle.pac_value.specs.Values.{is_stored};
ghost use Rattle.pac_types.specs.WellFormed.{types};
ghost use Rattle.pac_bytes.specs.Reading.{from};
ghost use Rattle.pac_bytes.specs.Readers.{AnswersUnlessMemory, Finds, FindsSpelledUnlessMemory};
ghost use Rattle.pac_bytes.specs.Typed.{next_values, values_bytes, HaveTypes};

use pac_base::Refusal;
use pac_bytes::{TypedFault, typed_at};
use pac_ops::Args;
use pac_types::Column;
use pac_value::{Row, Value};
use std::alloc::Global;

// A value of each column's type, one after another, as reading gives them.
fn read_values(
    alloc: Global,
    columns: &[Column],
    bytes: &[u8],
    at: usize,
) -> Result<(Vec<Value>, usize), Refusal<TypedFault>>
    ensures { Reports (λ found. (found.0.items, from bytes.now found.1)) result (next_values (types columns.now) (from bytes.now at)) }
{
    let mut values = Vec::with_capacity(alloc, columns.len())?;
    let mut offset = at;
    for column in columns {
        let (value, end) = typed_at(bytes, offset, column.ty)?;
        values.push(value)?;
        offset = end;
    }
    Ok((values, offset))
}

// The same: they are as many as the columns, and none is a bool.
fn values_at(
    alloc: Global,
    columns: &[Column],
    bytes: &[u8],
    at: usize,
) -> Result<(Vec<Value>, usize), Refusal<TypedFault>>
    ensures exact { Reports (λ found. (found.0.items, from bytes.now found.1)) result (next_values (types columns.now) (from bytes.now at)) }
    ensures count { IfOk result (λ found. length found.0.items ≡ length columns.now) }
    ensures stored { IfOk result (λ found. IsTrue (list_all is_stored found.0.items)) }
{
    read_values(alloc, columns, bytes, at)
}

// The row of these columns, as reading gives it.
fn read_row(
    alloc: Global,
    columns: &[Column],
    bytes: &[u8],
    at: usize,
) -> Result<(Row, usize), Refusal<TypedFault>>
    requires some { 1 ≤ length columns.now }
    requires few { length columns.now ≤ MAX_COLUMNS }
    ensures { AnswersUnlessMemory bytes.now result (next_values (types columns.now) (from bytes.now at)) }
{
    let (values, end) = values_at(alloc, columns, bytes, at)?;
    Ok((Row::of(values), end))
}

// The arguments for these parameters, as reading gives them.
fn read_args(
    alloc: Global,
    params: &[Column],
    bytes: &[u8],
    at: usize,
) -> Result<(Args, usize), Refusal<TypedFault>>
    requires { length params.now ≤ MAX_PARAMS }
    ensures { AnswersUnlessMemory bytes.now result (next_values (types params.now) (from bytes.now at)) }
{
    let (values, end) = values_at(alloc, params, bytes, at)?;
    Ok((Args::of(values), end))
}

/// The row of these columns at an offset, and the offset after it: a value of each column's type, one after another. It
/// takes memory for the row alone.
///
/// # Errors
///
/// The first fault from the left, as [`typed_at`] reports it of each value; or `NoMemory`.
pub fn row_at(
    alloc: Global,
    columns: &[Column],
    bytes: &[u8],
    at: usize,
) -> Result<(Row, usize), Refusal<TypedFault>>
    requires some { 1 ≤ length columns.now }
    requires few { length columns.now ≤ MAX_COLUMNS }
    // It is what reading gives, or the first fault.
    ensures exact { AnswersUnlessMemory bytes.now result (next_values (types columns.now) (from bytes.now at)) }
    // What is found is written so, and has the types.
    ensures found { Finds (HaveTypes (types columns.now)) values_bytes bytes.now at result }
    // What has the types and is written so is found, whatever follows.
    ensures again { FindsSpelledUnlessMemory (HaveTypes (types columns.now)) values_bytes bytes.now at result }
{
    read_row(alloc, columns, bytes, at)
}

/// The arguments for these parameters at an offset, and the offset after them: a value of each parameter's type, one after
/// the other. It takes memory for the arguments alone.
///
/// # Errors
///
/// Those of [`row_at`].
pub fn args_at(
    alloc: Global,
    params: &[Column],
    bytes: &[u8],
    at: usize,
) -> Result<(Args, usize), Refusal<TypedFault>>
    requires { length params.now ≤ MAX_PARAMS }
    // It is what reading gives, or the first fault.
    ensures exact { AnswersUnlessMemory bytes.now result (next_values (types params.now) (from bytes.now at)) }
    // What is found is written so, and has the types.
    ensures found { Finds (HaveTypes (types params.now)) values_bytes bytes.now at result }
    // What has the types and is written so is found, whatever follows.
    ensures again { FindsSpelledUnlessMemory (HaveTypes (types params.now)) values_bytes bytes.now at result }
{
    read_args(alloc, params, bytes, at)
}
