// Writes trees as their canonical texts.
ghost use Rattle.std.specs.Prelude.{◌≡◌, ◌≤◌, length, flat_map, OnOk, IfOk};
ghost use Rattle.pac_value.specs.Growth.{Grew};
ghost use Rattle.pac_print.specs.Canonical.{type_text, column_text, further_column_text, params_text, table_text, proc_text, canonical};
ghost use Rattle.pac_print.specs.Unplaced.{without_offsets};
ghost use Rattle.pac_print.specs.Unplaced.{ReadsButForOffsets};
ghost use Rattle.pac_syntax.specs.Reading.{Reads, IsTree};
ghost use Rattle.pac_syntax.specs.declared.tree.Tree.{Tree as ATree};

use crate::statement::{deeper, push_name, push_stmts};
use pac_base::NoMemory;
use pac_syntax::{ColumnNode, MAX_CATALOGUE, ProcNode, TableNode, Tree};
use pac_value::Ty;
use std::alloc::Global;

fn push_type(out: &mut Vec<u8>, ty: Ty) -> Result<(), NoMemory>
    ensures { OnOk result (Grew out.old.items out.new.items (type_text ty)) }
{
    match ty {
        Ty::Int => out.extend_from_slice(b"int")?,
        Ty::Text => out.extend_from_slice(b"text")?,
        Ty::Bool => out.extend_from_slice(b"bool")?,
    }
    Ok(())
}

// A column or a parameter.
fn push_column(out: &mut Vec<u8>, column: &ColumnNode) -> Result<(), NoMemory>
    ensures { OnOk result (Grew out.old.items out.new.items (column_text column.now)) }
{
    push_name(out, &column.name)?;
    out.extend_from_slice(b" ")?;
    push_type(out, column.ty)
}

// Columns that others stand before.
fn push_further(out: &mut Vec<u8>, columns: &[ColumnNode]) -> Result<(), NoMemory>
    ensures { OnOk result (Grew out.old.items out.new.items (flat_map further_column_text columns.now)) }
{
    for column in columns {
        out.extend_from_slice(b", ")?;
        push_column(out, column)?;
    }
    Ok(())
}

fn push_table(out: &mut Vec<u8>, table: &TableNode) -> Result<(), NoMemory>
    ensures { OnOk result (Grew out.old.items out.new.items (table_text table.now)) }
{
    out.extend_from_slice(b"table ")?;
    push_name(out, &table.name)?;
    out.extend_from_slice(b"(key ")?;
    push_type(out, table.key)?;
    push_further(out, table.columns.as_slice())?;
    out.extend_from_slice(b");\n")?;
    Ok(())
}

fn push_params(out: &mut Vec<u8>, params: &[ColumnNode]) -> Result<(), NoMemory>
    ensures { OnOk result (Grew out.old.items out.new.items (params_text params.now)) }
{
    let Some((first, others)) = params.split_first() else {
        return Ok(());
    };
    push_column(out, first)?;
    push_further(out, others)
}

fn push_proc(alloc: Global, out: &mut Vec<u8>, proc: &ProcNode) -> Result<(), NoMemory>
    ensures { OnOk result (Grew out.old.items out.new.items (proc_text proc.now)) }
{
    let indent = deeper(alloc, b"")?;
    out.extend_from_slice(b"proc ")?;
    push_name(out, &proc.name)?;
    out.extend_from_slice(b"(")?;
    push_params(out, proc.params.as_slice())?;
    out.extend_from_slice(b") {\n")?;
    push_stmts(alloc, out, &indent, proc.body.as_slice())?;
    out.extend_from_slice(b"}\n")?;
    Ok(())
}

/// The canonical text of a tree, which doesn't depend on the offsets of its nodes. The text of a tree that was read reads as
/// that tree again but for the offsets, where it has at most 65,536 bytes. Linear in the text.
///
/// # Errors
///
/// `NoMemory` alone.
pub fn print(alloc: Global, tree: &Tree) -> Result<Vec<u8>, NoMemory>
    ensures text { IfOk result (λ text. text.items ≡ canonical tree.now) }
    ensures reads { IsTree tree.now → IfOk result (λ text. length text.items ≤ MAX_CATALOGUE → ReadsButForOffsets text.items tree.now) }
    ensures again { (other : ATree) → IsTree tree.now → IfOk result (λ text. Reads text.items other → text.items ≡ canonical other) }
    ensures offsets { (other : ATree) → without_offsets other ≡ without_offsets tree.now → IfOk result (λ text. text.items ≡ canonical other) }
{
    let mut out = Vec::new(alloc);
    for table in tree.tables.as_slice() {
        push_table(&mut out, table)?;
    }
    for proc in tree.procs.as_slice() {
        push_proc(alloc, &mut out, proc)?;
    }
    Ok(out)
}
