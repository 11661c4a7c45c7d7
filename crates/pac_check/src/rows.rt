// Reads the rows of a checkpoint.
ghost use Rattle.std.specs.Prelude.{◌≡◌, IfOk};
ghost use Rattle.std.specs.Option.{option_map};
ghost use Rattle.pac_base.specs.declared.refusal.Refusal.TheVariants.{Fault as AFault};
ghost use Rattle.pac_bytes.specs.Reading.{from, reported_as};
ghost use Rattle.pac_bytes.specs.Readers.{Answers, AnswersUnlessMemory};
ghost use Rattle.pac_bytes.specs.Typed.{next_key};
ghost use Rattle.pac_types.specs.Typing.{IsWellFormedTable};
ghost use Rattle.pac_check.specs.Checkpoints.{IsRowAfter, is_above};
ghost use Rattle.pac_check.specs.CheckpointReading.{next_row};
ghost use Rattle.pac_check.specs.Kinds.{of_typed};

use crate::damage::{ItemError, error_of, fault_at};
use crate::{SlotDamageKind, SlotFault};
use pac_base::Refusal;
use pac_bytes::key_at;
use pac_entry::row_at;
use pac_types::Table;
use pac_value::{Key, Row, Ty};
use std::alloc::Global;

/// The row of a table at an offset, with its key, and the offset after it. It takes memory for the row alone.
///
/// # Errors
///
/// The first fault from the left, or `NoMemory`: `Short` and `Tag` as of a value, `Row` at a value of another type or a text
/// that isn't right, and `Order` at a key that isn't above the one before.
pub(crate) fn keyed_row_at(
    alloc: Global,
    table: &Table,
    before: Option<&Key>,
    bytes: &[u8],
    at: usize,
) -> Result<((Key, Row), usize), ItemError>
    requires { IsWellFormedTable table.now }
    ensures exact { AnswersUnlessMemory bytes.now result (next_row table.now (option_map (λ key. key.now) before.entry) (from bytes.now at)) }
    ensures row { IfOk result (λ found. IsRowAfter table.now (option_map (λ key. key.now) before.entry) (found.0.0, found.0.1)) }
{
    read_keyed_row(alloc, table, before, bytes, at)
}

// The same, as reading gives it.
#[tactic(auto, unfolding(crate::specs::CheckpointReading::next_row))]
fn read_keyed_row(
    alloc: Global,
    table: &Table,
    before: Option<&Key>,
    bytes: &[u8],
    at: usize,
) -> Result<((Key, Row), usize), ItemError>
    requires { IsWellFormedTable table.now }
    ensures { AnswersUnlessMemory bytes.now result (next_row table.now (option_map (λ key. key.now) before.entry) (from bytes.now at)) }
{
    let (key, after) = typed_key_at(table.key, bytes, at)?;
    if !comes_after(before, &key) {
        return Err(Refusal::Fault(fault_at(SlotDamageKind::Order, at)));
    }
    match row_at(alloc, table.columns.as_slice(), bytes, after) {
        Ok((row, end)) => Ok(((key, row), end)),
        Err(refusal) => Err(error_of(refusal)),
    }
}

fn typed_key_at(ty: Ty, bytes: &[u8], at: usize) -> Result<(Key, usize), SlotFault>
    ensures { Answers bytes.now result (reported_as of_typed (next_key ty (from bytes.now at))) }
{
    Ok(key_at(bytes, at, ty)?)
}

// Whether a key is above the one before, where there is one.
fn comes_after(before: Option<&Key>, key: &Key) -> bool
    ensures { result ≡ is_above (option_map (λ key. key.now) before.entry) key.now }
{
    match before {
        Some(before) => *before < *key,
        None => true,
    }
}
