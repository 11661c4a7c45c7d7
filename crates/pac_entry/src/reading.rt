// Reads entries.
ghost use Rattle.std.specs.Prelude.{◌≡◌, ◌≤◌, length, IfOk, All};
ghost use Rattle.pac_base.specs.declared.refusal.Refusal.TheVariants.{Fault as AFault};
ghost use Rattle.pac_base.specs.Refusals.{Reports};
ghost use Rattle.pac_value.specs.declared.limits.TheConstants.{MAX_PARAMS};
ghost use Rattle.pac_ops.specs.declared.limits.TheConstants.{MAX_RECORDS};
ghost use Rattle.pac_types.specs.Typing.{IsWellFormedTable};
ghost use Rattle.pac_bytes.specs.Reading.{from, reported_as, times};
ghost use Rattle.pac_bytes.specs.Readers.{Answers, AnswersUnlessMemory, Finds, FindsSpelledUnlessMemory};
ghost use Rattle.pac_bytes.specs.Typed.{next_key};
ghost use Rattle.pac_entry.specs.declared.fault.EntryFaultKind.TheVariants.{WrongRow};
ghost use Rattle.pac_entry.specs.Kinds.{fault_at, as_fault_of};
ghost use Rattle.pac_entry.specs.Entries.{change_bytes, txn_bytes, IsEntry, IsRecord};
ghost use Rattle.pac_entry.specs.EntryReading.{entry_byte, entry_number, next_call, next_put, next_delete, next_change, next_place, next_cell, next_records, next_entry};

use crate::fault::{error_of, fault_of};
use crate::writing::{AD_HOC, CALL, DELETE, PUT};
use crate::{EntryError, EntryFault, EntryFaultKind, args_at, row_at};
use pac_base::Refusal;
use pac_bytes::{key_at, u8_at, u16_at};
use pac_ops::{Call, Change, MAX_RECORDS, Records, Txn};
use pac_types::{Catalogue, Proc, Table};
use pac_value::{Key, Ty};
use std::alloc::Global;

/// The record at an offset, a change of a row of one of the catalogue's tables, and the offset after it.
///
/// # Errors
///
/// The first fault from the left, or `NoMemory`, as [`read_entry`] reports them of a record: `Short`, `Tag`,
/// `UnknownTable` or `WrongRow`.
pub fn change_at(
    alloc: Global,
    cat: &Catalogue,
    bytes: &[u8],
    at: usize,
) -> Result<(Change, usize), EntryError>
    // It is what reading gives, or the first fault.
    ensures exact { AnswersUnlessMemory bytes.now result (next_change cat.now.tables (from bytes.now at)) }
    // What is found is written so, and fits the tables.
    ensures found { Finds (IsRecord cat.now.tables) change_bytes bytes.now at result }
    // What fits the tables and is written so is found, whatever follows.
    ensures again { FindsSpelledUnlessMemory (IsRecord cat.now.tables) change_bytes bytes.now at result }
{
    let tables = cat.tables();
    one_change_at(alloc, tables, bytes, at)
}

/// The cell that the record at an offset changes, its table's number and its key, and the offset after the key. What
/// stands there is not looked at. Takes no memory.
///
/// # Errors
///
/// The first fault from the left, as [`change_at`] reports it, where it stands before the end of the key.
pub fn changed_cell_at(
    cat: &Catalogue,
    bytes: &[u8],
    at: usize,
) -> Result<((u16, Key), usize), EntryFault>
    ensures { Answers bytes.now result (next_cell cat.now.tables (from bytes.now at)) }
{
    let tables = cat.tables();
    cell_at(tables, bytes, at)
}

#[tactic(auto, unfolding(crate::specs::EntryReading::next_cell))]
fn cell_at(tables: &[Table], bytes: &[u8], at: usize) -> Result<((u16, Key), usize), EntryFault>
    ensures { Answers bytes.now result (next_cell tables.now (from bytes.now at)) }
{
    let (tag, after) = byte_at(bytes, at)?;
    match tag {
        PUT | DELETE => place_at(tables, bytes, after),
        _ => Err(EntryFault {
            at,
            kind: EntryFaultKind::Tag,
        }),
    }
}

// The table and the key of a record after its tag.
#[tactic(auto, unfolding(crate::specs::EntryReading::next_place))]
fn place_at(tables: &[Table], bytes: &[u8], at: usize) -> Result<((u16, Key), usize), EntryFault>
    ensures { Answers bytes.now result (next_place tables.now (from bytes.now at)) }
{
    let (table, after) = number_at(bytes, at)?;
    let Some(types) = tables.get(usize::from(table)) else {
        return Err(EntryFault {
            at,
            kind: EntryFaultKind::UnknownTable,
        });
    };
    let (key, end) = row_key_at(types.key, bytes, after)?;
    Ok(((table, key), end))
}

/// The transaction whose entry stands at an offset, and the offset after it. It fits the catalogue. Bytes after the entry
/// are not looked at. It takes no memory but for the transaction's own lists.
///
/// # Errors
///
/// The first fault from the left, or `NoMemory`:
///
/// - [`EntryFaultKind::Short`] at the field that is cut short. A text's length and its bytes are one field.
/// - [`EntryFaultKind::Tag`] at a first byte of an entry, a record or a value that is none of its tags.
/// - [`EntryFaultKind::UnknownProc`] and [`EntryFaultKind::UnknownTable`] at a number that is out of range.
/// - [`EntryFaultKind::WrongArgs`] and [`EntryFaultKind::WrongRow`] at a number of values that isn't that of the
///   parameters or columns, and at a value of another type, whatever is left after its tag; also at a text whose length
///   is above 64, whatever is left, or that is whole and not printable.
/// - [`EntryFaultKind::TooMany`] at a number of records that is 0 or above 64.
pub fn read_entry(
    alloc: Global,
    cat: &Catalogue,
    bytes: &[u8],
    at: usize,
) -> Result<(Txn, usize), EntryError>
    // It is what reading gives, or the first fault.
    ensures exact { AnswersUnlessMemory bytes.now result (next_entry cat.now (from bytes.now at)) }
    // What is found is written so, and fits the catalogue.
    ensures found { Finds (IsEntry cat.now) txn_bytes bytes.now at result }
    // What fits the catalogue and is written so is found, whatever follows.
    ensures again { FindsSpelledUnlessMemory (IsEntry cat.now) txn_bytes bytes.now at result }
    // The offset after it is no further than the end.
    ensures inside { IfOk result (λ found. found.1 ≤ length bytes.now) }
{
    let tables = cat.tables();
    let procs = cat.procs();
    entry_at(alloc, tables, procs, bytes, at)
}

// The entry at an offset, as reading gives it.
#[tactic(auto, unfolding(crate::specs::EntryReading::next_entry))]
fn entry_at(
    alloc: Global,
    tables: &[Table],
    procs: &[Proc],
    bytes: &[u8],
    at: usize,
) -> Result<(Txn, usize), EntryError>
    requires tables { All IsWellFormedTable tables.now }
    requires procs { All (λ proc. length proc.params ≤ MAX_PARAMS) procs.now }
    ensures { AnswersUnlessMemory bytes.now result (next_entry (record { tables = tables.now; procs = procs.now }) (from bytes.now at)) }
{
    let (tag, after) = byte_at(bytes, at)?;
    match tag {
        CALL => {
            let (call, end) = call_at(alloc, procs, bytes, after)?;
            Ok((Txn::Call(call), end))
        }
        AD_HOC => {
            let (records, end) = records_at(alloc, tables, bytes, after)?;
            Ok((Txn::AdHoc { records }, end))
        }
        _ => Err(refused(EntryFaultKind::Tag, at)),
    }
}

fn refused(kind: EntryFaultKind, at: usize) -> EntryError
    ensures { result ≡ AFault (fault_at kind at) }
{
    Refusal::Fault(EntryFault { at, kind })
}

fn byte_at(bytes: &[u8], at: usize) -> Result<(u8, usize), EntryFault>
    ensures { Answers bytes.now result (entry_byte (from bytes.now at)) }
{
    Ok(u8_at(bytes, at)?)
}

fn number_at(bytes: &[u8], at: usize) -> Result<(u16, usize), EntryFault>
    ensures { Answers bytes.now result (entry_number (from bytes.now at)) }
{
    Ok(u16_at(bytes, at)?)
}

// A call after its tag.
#[tactic(auto, unfolding(crate::specs::EntryReading::next_call, crate::specs::EntryReading::counted_values))]
fn call_at(
    alloc: Global,
    procs: &[Proc],
    bytes: &[u8],
    at: usize,
) -> Result<(Call, usize), EntryError>
    requires { All (λ proc. length proc.params ≤ MAX_PARAMS) procs.now }
    ensures { AnswersUnlessMemory bytes.now result (next_call procs.now (from bytes.now at)) }
{
    let (number, after) = number_at(bytes, at)?;
    let Some(proc) = procs.get(usize::from(number)) else {
        return Err(refused(EntryFaultKind::UnknownProc, at));
    };
    let params = proc.params.as_slice();
    let (count, first) = byte_at(bytes, after)?;
    if usize::from(count) != params.len() {
        return Err(refused(EntryFaultKind::WrongArgs, after));
    }
    match args_at(alloc, params, bytes, first) {
        Ok((args, end)) => Ok((Call { proc: number, args }, end)),
        Err(refusal) => Err(error_of(EntryFaultKind::WrongArgs, refusal)),
    }
}

// The number of records, and they.
#[tactic(auto, unfolding(crate::specs::EntryReading::next_records))]
fn records_at(
    alloc: Global,
    tables: &[Table],
    bytes: &[u8],
    at: usize,
) -> Result<(Records, usize), EntryError>
    requires { All IsWellFormedTable tables.now }
    ensures { AnswersUnlessMemory bytes.now result (next_records tables.now (from bytes.now at)) }
{
    let (count, after) = byte_at(bytes, at)?;
    let count = usize::from(count);
    if count == 0 || count > MAX_RECORDS {
        return Err(refused(EntryFaultKind::TooMany, at));
    }
    let (changes, end) = changes_at(alloc, tables, count, bytes, after)?;
    Ok((Records::of(changes), end))
}

// That many records.
fn changes_at(
    alloc: Global,
    tables: &[Table],
    count: usize,
    bytes: &[u8],
    at: usize,
) -> Result<(Vec<Change>, usize), EntryError>
    requires { All IsWellFormedTable tables.now }
    ensures exact { Reports (λ found. (found.0.items, from bytes.now found.1)) result (times (next_change tables.now) count (from bytes.now at)) }
    ensures count { IfOk result (λ found. length found.0.items ≡ count) }
{
    let mut changes = Vec::with_capacity(alloc, count)?;
    let mut offset = at;
    for _ in 0..count {
        let (change, end) = one_change_at(alloc, tables, bytes, offset)?;
        changes.push(change)?;
        offset = end;
    }
    Ok((changes, offset))
}

#[tactic(auto, unfolding(crate::specs::EntryReading::next_change))]
fn one_change_at(
    alloc: Global,
    tables: &[Table],
    bytes: &[u8],
    at: usize,
) -> Result<(Change, usize), EntryError>
    requires { All IsWellFormedTable tables.now }
    ensures { AnswersUnlessMemory bytes.now result (next_change tables.now (from bytes.now at)) }
{
    let (tag, after) = byte_at(bytes, at)?;
    match tag {
        PUT => put_at(alloc, tables, bytes, after),
        DELETE => Ok(delete_at(tables, bytes, after)?),
        _ => Err(refused(EntryFaultKind::Tag, at)),
    }
}

// A put after its tag.
#[tactic(auto, unfolding(crate::specs::EntryReading::next_put, crate::specs::EntryReading::counted_values))]
fn put_at(
    alloc: Global,
    tables: &[Table],
    bytes: &[u8],
    at: usize,
) -> Result<(Change, usize), EntryError>
    requires { All IsWellFormedTable tables.now }
    ensures { AnswersUnlessMemory bytes.now result (next_put tables.now (from bytes.now at)) }
{
    let (table, after) = number_at(bytes, at)?;
    let Some(types) = tables.get(usize::from(table)) else {
        return Err(refused(EntryFaultKind::UnknownTable, at));
    };
    let (key, after) = row_key_at(types.key, bytes, after)?;
    let columns = types.columns.as_slice();
    let (count, first) = byte_at(bytes, after)?;
    if usize::from(count) != columns.len() {
        return Err(refused(EntryFaultKind::WrongRow, after));
    }
    match row_at(alloc, columns, bytes, first) {
        Ok((row, end)) => Ok((Change::Put { table, key, row }, end)),
        Err(refusal) => Err(error_of(EntryFaultKind::WrongRow, refusal)),
    }
}

// A delete after its tag.
#[tactic(auto, unfolding(crate::specs::EntryReading::next_delete))]
fn delete_at(tables: &[Table], bytes: &[u8], at: usize) -> Result<(Change, usize), EntryFault>
    ensures { Answers bytes.now result (next_delete tables.now (from bytes.now at)) }
{
    let (table, after) = number_at(bytes, at)?;
    let Some(types) = tables.get(usize::from(table)) else {
        return Err(EntryFault {
            at,
            kind: EntryFaultKind::UnknownTable,
        });
    };
    let (key, end) = row_key_at(types.key, bytes, after)?;
    Ok((Change::Delete { table, key }, end))
}

// The key of a record, which has to be of this type.
fn row_key_at(ty: Ty, bytes: &[u8], at: usize) -> Result<(Key, usize), EntryFault>
    ensures { Answers bytes.now result (reported_as (as_fault_of WrongRow) (next_key ty (from bytes.now at))) }
{
    match key_at(bytes, at, ty) {
        Ok(found) => Ok(found),
        Err(fault) => Err(fault_of(EntryFaultKind::WrongRow, fault)),
    }
}
