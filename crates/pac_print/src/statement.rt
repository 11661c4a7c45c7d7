// Writes statements.
ghost use Rattle.std.specs.Prelude.{◌≡◌, map, OnOk, IfOk};
ghost use Rattle.pac_value.specs.Growth.{Grew};
ghost use Rattle.pac_value.specs.Literals.{value_text};
ghost use Rattle.pac_value.specs.declared.values.Value.TheVariants as value;
ghost use Rattle.pac_print.specs.Canonical.{cell_text, field_text, bounds_text, loop_head, deeper, else_text, stmt_text, stmts_text};

use crate::expression::{push_expr, push_exprs};
use pac_base::NoMemory;
use pac_syntax::{ExprNode, LiteralNode, NameNode, StmtNode};
use pac_value::{Value, push_value};
use std::alloc::Global;

pub(crate) fn push_name(out: &mut Vec<u8>, name: &NameNode) -> Result<(), NoMemory>
    ensures { OnOk result (Grew out.old.items out.new.items name.now.name) }
{
    out.extend_from_slice(name.name.bytes())?;
    Ok(())
}

// `TABLE[KEY]`
fn push_cell(out: &mut Vec<u8>, table: &NameNode, key: &ExprNode) -> Result<(), NoMemory>
    ensures { OnOk result (Grew out.old.items out.new.items (cell_text table.now key.now)) }
{
    push_name(out, table)?;
    out.extend_from_slice(b"[")?;
    push_expr(out, key)?;
    out.extend_from_slice(b"]")?;
    Ok(())
}

// `TABLE[KEY].COLUMN`
fn push_field(
    out: &mut Vec<u8>,
    table: &NameNode,
    key: &ExprNode,
    column: &NameNode,
) -> Result<(), NoMemory>
    ensures { OnOk result (Grew out.old.items out.new.items (field_text table.now key.now column.now)) }
{
    push_cell(out, table, key)?;
    out.extend_from_slice(b".")?;
    push_name(out, column)
}

fn push_bound(out: &mut Vec<u8>, number: &i64) -> Result<(), NoMemory>
    ensures { OnOk result (Grew out.old.items out.new.items (value_text (value.Int number.now))) }
{
    push_value(out, &Value::Int(*number))
}

// `FROM..TO`
fn push_bounds(out: &mut Vec<u8>, from: &i64, to: &i64) -> Result<(), NoMemory>
    ensures { OnOk result (Grew out.old.items out.new.items (bounds_text from.now to.now)) }
{
    push_bound(out, from)?;
    out.extend_from_slice(b"..")?;
    push_bound(out, to)
}

// `for NAME in FROM..TO {`, and the end of the line
fn push_loop_head(out: &mut Vec<u8>, name: &NameNode, from: &i64, to: &i64) -> Result<(), NoMemory>
    ensures { OnOk result (Grew out.old.items out.new.items (loop_head name.now from.now to.now)) }
{
    out.extend_from_slice(b"for ")?;
    push_name(out, name)?;
    out.extend_from_slice(b" in ")?;
    push_bounds(out, from, to)?;
    out.extend_from_slice(b" {\n")?;
    Ok(())
}

/// The indent of what stands in a block.
pub(crate) fn deeper(alloc: Global, indent: &[u8]) -> Result<Vec<u8>, NoMemory>
    ensures { IfOk result (λ inner. inner.items ≡ deeper indent.now) }
{
    let mut inner = Vec::new(alloc);
    inner.extend_from_slice(indent)?;
    inner.extend_from_slice(b"  ")?;
    Ok(inner)
}

// A statement from its first word to its last symbol. Its further lines stand after the indent.
#[cycle(statement)]
fn push_stmt(
    alloc: Global,
    out: &mut Vec<u8>,
    indent: &[u8],
    stmt: &StmtNode,
) -> Result<(), NoMemory>
    ensures { OnOk result (Grew out.old.items out.new.items (stmt_text stmt.now indent.now)) }
{
    match stmt {
        StmtNode::Let { name, value } => {
            out.extend_from_slice(b"let ")?;
            push_name(out, name)?;
            out.extend_from_slice(b" = ")?;
            push_expr(out, value)?;
            out.extend_from_slice(b";")?;
        }
        StmtNode::Read {
            name,
            table,
            key,
            column,
            default,
        } => {
            out.extend_from_slice(b"read ")?;
            push_name(out, name)?;
            out.extend_from_slice(b" = ")?;
            push_field(out, table, key, column)?;
            out.extend_from_slice(b" default ")?;
            push_value(out, &default.value)?;
            out.extend_from_slice(b";")?;
        }
        StmtNode::Has { name, table, key } => {
            out.extend_from_slice(b"has ")?;
            push_name(out, name)?;
            out.extend_from_slice(b" = ")?;
            push_cell(out, table, key)?;
            out.extend_from_slice(b";")?;
        }
        StmtNode::Put { table, key, values } => {
            out.extend_from_slice(b"put ")?;
            push_cell(out, table, key)?;
            out.extend_from_slice(b" = (")?;
            push_exprs(out, values.as_slice())?;
            out.extend_from_slice(b");")?;
        }
        StmtNode::Set {
            table,
            key,
            column,
            value,
        } => {
            out.extend_from_slice(b"set ")?;
            push_field(out, table, key, column)?;
            out.extend_from_slice(b" = ")?;
            push_expr(out, value)?;
            out.extend_from_slice(b";")?;
        }
        StmtNode::Delete { table, key } => {
            out.extend_from_slice(b"delete ")?;
            push_cell(out, table, key)?;
            out.extend_from_slice(b";")?;
        }
        StmtNode::AbortIf { test } => {
            out.extend_from_slice(b"abort if ")?;
            push_expr(out, test)?;
            out.extend_from_slice(b";")?;
        }
        StmtNode::If {
            test,
            first,
            second,
        } => {
            let inner = deeper(alloc, indent)?;
            out.extend_from_slice(b"if ")?;
            push_expr(out, test)?;
            out.extend_from_slice(b" {\n")?;
            push_stmts(alloc, out, &inner, first.as_slice())?;
            push_else(alloc, out, indent, &inner, second.as_slice())?;
            out.extend_from_slice(indent)?;
            out.extend_from_slice(b"}")?;
        }
        StmtNode::For {
            name,
            from,
            to,
            body,
        } => {
            let inner = deeper(alloc, indent)?;
            push_loop_head(out, name, from, to)?;
            push_stmts(alloc, out, &inner, body.as_slice())?;
            out.extend_from_slice(indent)?;
            out.extend_from_slice(b"}")?;
        }
    }
    Ok(())
}

// The end of a block and the block of an `else`, where there are statements for it.
#[cycle(statement)]
fn push_else(
    alloc: Global,
    out: &mut Vec<u8>,
    indent: &[u8],
    inner: &[u8],
    stmts: &[StmtNode],
) -> Result<(), NoMemory>
    requires { inner.now ≡ deeper indent.now }
    ensures { OnOk result (Grew out.old.items out.new.items (else_text (map stmt_text stmts.now) indent.now)) }
{
    if stmts.is_empty() {
        return Ok(());
    }
    out.extend_from_slice(indent)?;
    out.extend_from_slice(b"} else {\n")?;
    push_stmts(alloc, out, inner, stmts)
}

/// Statements, each on a line after the indent.
#[cycle(statement)]
pub(crate) fn push_stmts(
    alloc: Global,
    out: &mut Vec<u8>,
    indent: &[u8],
    stmts: &[StmtNode],
) -> Result<(), NoMemory>
    ensures { OnOk result (Grew out.old.items out.new.items (stmts_text indent.now stmts.now)) }
{
    for stmt in stmts {
        out.extend_from_slice(indent)?;
        push_stmt(alloc, out, indent, stmt)?;
        out.extend_from_slice(b"\n")?;
    }
    Ok(())
}
