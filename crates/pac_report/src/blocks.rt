// The blocks of a plan.
ghost use Rattle.std.specs.Prelude.{◌≡◌, ℕ, ◌<◌, ◌+◌, ◌++◌, List, codes, length, IfOk, OnOk};
ghost use Rattle.std.specs.Fmt.{decimal};
ghost use Rattle.pac_value.specs.Growth.{Grew};
ghost use Rattle.pac_report.specs.Explain.{edge_line, block_members, blocks_text};
ghost use Rattle.pac_report.specs.GroupTexts.{Hold, listed_members, first_nodes, with_listed};

use crate::groups::{empty_texts, push_ends};
use pac_base::NoMemory;
use pac_plan::{Plan, is_plan};
use pac_types::Catalogue;
use pac_value::{Name, push_count};
use std::alloc::Global;

// A line for each block, and then one for each edge.
pub(crate) fn push_blocks(
    alloc: Global,
    out: &mut Vec<u8>,
    cat: &Catalogue,
    plan: &Plan,
) -> Result<(), NoMemory>
    requires procs { length cat.now.procs ≡ length plan.now.programs }
    requires tables { length cat.now.tables ≡ length plan.now.tables }
    ensures { OnOk result (Grew out.old.items out.new.items (blocks_text cat.now plan.now)) }
{
    let texts = block_texts(alloc, cat, plan)?;
    for block in 0..texts.len() {
        push_block(out, block, &texts[block])?;
    }
    for edge in plan.edges() {
        push_edge(out, *edge)?;
    }
    Ok(())
}

fn push_block(out: &mut Vec<u8>, block: usize, text: &[u8]) -> Result<(), NoMemory>
    ensures { OnOk result (Grew out.old.items out.new.items (codes "block " ++ decimal block ++ codes ": " ++ text.now ++ codes "\n")) }
{
    out.extend_from_slice(b"block ")?;
    push_count(out, block as u64)?;
    out.extend_from_slice(b": ")?;
    out.extend_from_slice(text)?;
    out.extend_from_slice(b"\n")?;
    Ok(())
}

fn push_edge(out: &mut Vec<u8>, edge: (u16, u16)) -> Result<(), NoMemory>
    ensures { OnOk result (Grew out.old.items out.new.items (edge_line (codes "edge") edge)) }
{
    out.extend_from_slice(b"edge")?;
    push_ends(out, edge)
}

// The members of each block.
fn block_texts(alloc: Global, cat: &Catalogue, plan: &Plan) -> Result<Vec<Vec<u8>>, NoMemory>
    requires procs { length cat.now.procs ≡ length plan.now.programs }
    requires tables { length cat.now.tables ≡ length plan.now.tables }
    ensures { IfOk result (λ texts. Hold texts.items (block_members cat.now plan.now) plan.now.blocks) }
{
    let mut texts = table_texts(alloc, cat, plan)?;
    for p in 0..cat.procs().len() {
        push_program(&mut texts, cat, plan, p as u16)?;
    }
    Ok(texts)
}

// The tables whose home each block is.
fn table_texts(alloc: Global, cat: &Catalogue, plan: &Plan) -> Result<Vec<Vec<u8>>, NoMemory>
    requires { length cat.now.tables ≡ length plan.now.tables }
    ensures { IfOk result (λ texts. Hold texts.items (listed_members cat.now plan.now (first_nodes plan.now 0)) plan.now.blocks) }
{
    is_plan(plan);
    let mut texts = empty_texts(alloc, usize::from(plan.blocks()))?;
    let tables = cat.tables();
    for t in 0..tables.len() {
        let home = plan.home_of(t as u16);
        push_table(&mut texts[usize::from(home)], tables[t].name)?;
    }
    Ok(texts)
}

// Adds the operations of a program to their blocks.
fn push_program(
    texts: &mut Vec<Vec<u8>>,
    cat: &Catalogue,
    plan: &Plan,
    p: u16,
) -> Result<(), NoMemory>
    requires proc { p < length cat.now.procs }
    requires procs { length cat.now.procs ≡ length plan.now.programs }
    requires hold { Hold texts.old.items (listed_members cat.now plan.now (first_nodes plan.now p)) plan.now.blocks }
    ensures { OnOk result (Hold texts.new.items (listed_members cat.now plan.now (first_nodes plan.now (p + 1))) plan.now.blocks) }
{
    is_plan(plan);
    let name = cat.procs()[usize::from(p)].name;
    for i in 0..plan.program(p).ops.as_slice().len() {
        let block = plan.block_of(p, i as u16);
        push_operation(&mut texts[usize::from(block)], name, i)?;
    }
    Ok(())
}

fn push_table(text: &mut Vec<u8>, name: Name) -> Result<(), NoMemory>
    ensures { OnOk result (text.new.items ≡ with_listed text.old.items (codes "table " ++ name)) }
{
    separate(text)?;
    text.extend_from_slice(b"table ")?;
    text.extend_from_slice(name.bytes())?;
    Ok(())
}

fn push_operation(text: &mut Vec<u8>, name: Name, op: usize) -> Result<(), NoMemory>
    ensures { OnOk result (text.new.items ≡ with_listed text.old.items (name ++ codes "." ++ decimal op)) }
{
    separate(text)?;
    text.extend_from_slice(name.bytes())?;
    text.extend_from_slice(b".")?;
    push_count(text, op as u64)
}

// A comma and a space after what stands there.
fn separate(text: &mut Vec<u8>) -> Result<(), NoMemory>
    ensures { OnOk result ((added : List ℕ) → text.new.items ++ added ≡ with_listed text.old.items added) }
{
    if !text.is_empty() {
        text.extend_from_slice(b", ")?;
    }
    Ok(())
}
