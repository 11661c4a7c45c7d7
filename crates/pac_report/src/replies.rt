// The texts of replies.
ghost use Rattle.std.specs.Prelude.{◌≡◌, ◌++◌, codes, IfOk, OnOk};
ghost use Rattle.std.specs.Fmt.{decimal};
ghost use Rattle.pac_value.specs.Growth.{Grew};
ghost use Rattle.pac_value.specs.Literals.{key_text};
ghost use Rattle.pac_ops.specs.Reasons.{reason_name};
ghost use Rattle.pac_request.specs.LineKinds.{line_kind_name};
ghost use Rattle.pac_report.specs.Replies.{reply_text, reply_words, shown_row, table_name};

use crate::words::{push_number, push_word};
use pac_base::NoMemory;
use pac_ops::Reason;
use pac_request::{LineFault, Reply};
use pac_types::Catalogue;
use pac_value::{Key, Row, push_count, push_key, push_values};
use std::alloc::Global;

/// The line that reports a reply: `committed N`, `aborted OP REASON`, `aborted Full TABLE`, `T[KEY] = (V1, V2)`,
/// `T[KEY] absent`, `refused AT KIND` or `saved N`. A table that isn't in the catalogue has no name in it.
///
/// # Errors
///
/// [`NoMemory`] where the line finds no room.
pub fn reply_text(alloc: Global, cat: &Catalogue, reply: &Reply) -> Result<Vec<u8>, NoMemory>
    ensures { IfOk result (λ text. text.items ≡ reply_text cat.now reply.now) }
{
    let mut out = Vec::new(alloc);
    push_reply(&mut out, cat, reply)?;
    Ok(out)
}

/// Appends the line that reports a reply, as [`reply_text`] makes it.
///
/// # Errors
///
/// [`NoMemory`] where the line finds no room.
pub fn push_reply(out: &mut Vec<u8>, cat: &Catalogue, reply: &Reply) -> Result<(), NoMemory>
    ensures { OnOk result (Grew out.old.items out.new.items (reply_text cat.now reply.now)) }
{
    push_reply_words(out, cat, reply)?;
    out.extend_from_slice(b"\n")?;
    Ok(())
}

fn push_reply_words(out: &mut Vec<u8>, cat: &Catalogue, reply: &Reply) -> Result<(), NoMemory>
    ensures { OnOk result (Grew out.old.items out.new.items (reply_words cat.now reply.now)) }
{
    match reply {
        Reply::Committed { txn } => push_counted(out, b"committed ", *txn),
        Reply::Aborted { op, reason } => push_abort(out, *op, *reason),
        Reply::AbortedFull { table } => push_named(out, b"aborted Full ", cat, *table),
        Reply::Shown { table, key, row } => push_shown(out, cat, *table, key, row),
        Reply::Refused(fault) => push_refused(out, *fault),
        Reply::Saved { txns } => push_counted(out, b"saved ", *txns),
    }
}

fn push_counted(out: &mut Vec<u8>, word: &[u8], count: u64) -> Result<(), NoMemory>
    ensures { OnOk result (Grew out.old.items out.new.items (word.now ++ decimal count)) }
{
    out.extend_from_slice(word)?;
    push_count(out, count)
}

fn push_abort(out: &mut Vec<u8>, op: u16, reason: Reason) -> Result<(), NoMemory>
    ensures { OnOk result (Grew out.old.items out.new.items (codes "aborted " ++ decimal op ++ codes " " ++ reason_name reason)) }
{
    out.extend_from_slice(b"aborted")?;
    push_number(out, u64::from(op))?;
    push_word(out, reason.name().as_bytes())
}

// Words, and the name of a table.
fn push_named(out: &mut Vec<u8>, words: &[u8], cat: &Catalogue, table: u16) -> Result<(), NoMemory>
    ensures { OnOk result (Grew out.old.items out.new.items (words.now ++ table_name cat.now table)) }
{
    out.extend_from_slice(words)?;
    push_table(out, cat, table)
}

fn push_refused(out: &mut Vec<u8>, fault: LineFault) -> Result<(), NoMemory>
    ensures { OnOk result (Grew out.old.items out.new.items (codes "refused " ++ decimal fault.at ++ codes " " ++ line_kind_name fault.kind)) }
{
    out.extend_from_slice(b"refused")?;
    push_number(out, fault.at as u64)?;
    push_word(out, fault.kind.name().as_bytes())
}

fn push_shown(
    out: &mut Vec<u8>,
    cat: &Catalogue,
    table: u16,
    key: &Key,
    row: &Option<Row>,
) -> Result<(), NoMemory>
    ensures { OnOk result (Grew out.old.items out.new.items (table_name cat.now table ++ codes "[" ++ key_text key.now ++ codes "]" ++ shown_row row.now)) }
{
    push_table(out, cat, table)?;
    out.extend_from_slice(b"[")?;
    push_key(out, key)?;
    out.extend_from_slice(b"]")?;
    push_row(out, row)
}

// What stands at a cell, after its name.
fn push_row(out: &mut Vec<u8>, row: &Option<Row>) -> Result<(), NoMemory>
    ensures { OnOk result (Grew out.old.items out.new.items (shown_row row.now)) }
{
    match row {
        None => out.extend_from_slice(b" absent")?,
        Some(row) => {
            out.extend_from_slice(b" = (")?;
            push_values(out, row.items())?;
            out.extend_from_slice(b")")?;
        }
    }
    Ok(())
}

fn push_table(out: &mut Vec<u8>, cat: &Catalogue, table: u16) -> Result<(), NoMemory>
    ensures { OnOk result (Grew out.old.items out.new.items (table_name cat.now table)) }
{
    if let Some(table) = cat.tables().get(usize::from(table)) {
        out.extend_from_slice(table.name.bytes())?;
    }
    Ok(())
}
