// The text of the summary.
ghost use Rattle.std.specs.Prelude.{◌≡◌, length, IfOk, OnOk};
ghost use Rattle.pac_value.specs.Growth.{Grew};
ghost use Rattle.pac_stress.specs.Summary.{count_line, row_count_line, row_counts, summary};

use pac_base::NoMemory;
use pac_tables::Rows;
use pac_types::Catalogue;
use pac_value::{Name, push_count};
use std::alloc::Global;

fn push_count_line(out: &mut Vec<u8>, word: &[u8], count: u64) -> Result<(), NoMemory>
    ensures { OnOk result (Grew out.old.items out.new.items (count_line word.now count)) }
{
    out.extend_from_slice(word)?;
    out.extend_from_slice(b" ")?;
    push_count(out, count)?;
    out.extend_from_slice(b"\n")?;
    Ok(())
}

fn push_row_count(out: &mut Vec<u8>, name: Name, count: u64) -> Result<(), NoMemory>
    ensures { OnOk result (Grew out.old.items out.new.items (row_count_line name count)) }
{
    out.extend_from_slice(b"rows ")?;
    out.extend_from_slice(name.bytes())?;
    out.extend_from_slice(b" ")?;
    push_count(out, count)?;
    out.extend_from_slice(b"\n")?;
    Ok(())
}

// A line for each table.
fn push_row_counts<R: Rows>(out: &mut Vec<u8>, cat: &Catalogue, rows: &R) -> Result<(), NoMemory>
    requires { R.tables rows.now ≡ length cat.now.tables }
    ensures { OnOk result (Grew out.old.items out.new.items (row_counts (R.held rows.now) 0 cat.now.tables)) }
{
    for (i, table) in cat.tables().iter().enumerate() {
        push_row_count(out, table.name, rows.count(i as u16))?;
    }
    Ok(())
}

/// The summary of `txns` transactions with `pieces` pieces, after which these rows stand.
///
/// # Errors
///
/// [`NoMemory`] where the text finds no room.
pub(crate) fn summary_text<R: Rows>(
    alloc: Global,
    cat: &Catalogue,
    txns: u64,
    pieces: u64,
    rows: &R,
) -> Result<Vec<u8>, NoMemory>
    requires { R.tables rows.now ≡ length cat.now.tables }
    ensures { IfOk result (λ text. text.items ≡ summary txns pieces cat.now.tables (R.held rows.now)) }
{
    let mut out = Vec::new(alloc);
    push_count_line(&mut out, b"transactions", txns)?;
    push_count_line(&mut out, b"pieces", pieces)?;
    push_row_counts(&mut out, cat, rows)?;
    Ok(out)
}
