// The text of tables.
ghost use Rattle.std.specs.Prelude.{◌≡◌, ◌<◌, ◌++◌, codes, length, IfOk, OnOk};
ghost use Rattle.std.specs.Fmt.{decimal};
ghost use Rattle.pac_value.specs.Growth.{Grew};
ghost use Rattle.pac_value.specs.Literals.{key_text, values_text};
ghost use Rattle.pac_report.specs.Dump.{table_dump, tables_text};

use pac_base::NoMemory;
use pac_tables::Rows;
use pac_types::Catalogue;
use pac_value::{Key, Name, Row, push_count, push_key, push_values};
use std::alloc::Global;

fn push_row(out: &mut Vec<u8>, key: &Key, row: &Row) -> Result<(), NoMemory>
    ensures { OnOk result (Grew out.old.items out.new.items (key_text key.now ++ codes " (" ++ values_text row.now ++ codes ")\n")) }
{
    push_key(out, key)?;
    out.extend_from_slice(b" (")?;
    push_values(out, row.items())?;
    out.extend_from_slice(b")\n")?;
    Ok(())
}

fn push_head(out: &mut Vec<u8>, name: Name, count: u64) -> Result<(), NoMemory>
    ensures { OnOk result (Grew out.old.items out.new.items (codes "table " ++ name ++ codes " " ++ decimal count ++ codes "\n")) }
{
    out.extend_from_slice(b"table ")?;
    out.extend_from_slice(name.bytes())?;
    out.extend_from_slice(b" ")?;
    push_count(out, count)?;
    out.extend_from_slice(b"\n")?;
    Ok(())
}

// One table: its name, the number of its rows, and the rows.
fn push_table<R: Rows>(out: &mut Vec<u8>, rows: &R, table: u16, name: Name) -> Result<(), NoMemory>
    requires { table < R.tables rows.now }
    ensures { OnOk result (Grew out.old.items out.new.items (table_dump (R.held rows.now) table name)) }
{
    let found = rows.sorted_rows(table)?;
    push_head(out, name, found.len() as u64)?;
    for entry in &found {
        push_row(out, entry.0, entry.1)?;
    }
    Ok(())
}

/// The tables in the order of the catalogue: for each the line `table NAME COUNT`, and for each of its rows, in ascending
/// order of the keys, the line `KEY (V1, V2)`. It lists the rows of one table at a time, and looks none up.
///
/// # Errors
///
/// [`NoMemory`] where the text or a list of rows finds no room.
pub fn dump<R: Rows>(alloc: Global, cat: &Catalogue, rows: &R) -> Result<Vec<u8>, NoMemory>
    requires { R.tables rows.now ≡ length cat.now.tables }
    ensures { IfOk result (λ text. text.items ≡ tables_text (R.held rows.now) 0 cat.now.tables) }
{
    let mut out = Vec::new(alloc);
    for (i, table) in cat.tables().iter().enumerate() {
        push_table(&mut out, rows, i as u16, table.name)?;
    }
    Ok(out)
}
