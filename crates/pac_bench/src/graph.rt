// The graph of a catalogue with the most operations.
use crate::part::{PartError, Shape};
use pac_base::NoMemory;
use pac_flat::flatten;
use pac_global::global;
use pac_ops::MAX_OPS;
use pac_plan::Plan;
use pac_slice::slices;
use pac_types::{Catalogue, read_catalogue};
use pac_value::push_count;
use std::alloc::Global;

// Puts at one table, or at each of 64: 64 procedures of 64 operations.
fn puts(alloc: Global, tables: u64) -> Result<Vec<u8>, NoMemory> {
    let mut text = Vec::new(alloc);
    for table in 0..tables {
        text.extend_from_slice(b"table T")?;
        push_count(&mut text, table)?;
        text.extend_from_slice(b"(key int,v int);")?;
    }
    for proc in 0..64 {
        begin(&mut text, proc)?;
        for op in 0..64 {
            text.extend_from_slice(b"put T")?;
            push_count(&mut text, if op < tables { op } else { 0 })?;
            text.extend_from_slice(b"[1]=(1);")?;
        }
        text.push(b'}')?;
    }
    Ok(text)
}

// Variables, each with the value of the one before: 16 procedures of 256 operations.
fn lets(alloc: Global) -> Result<Vec<u8>, NoMemory> {
    let mut text = Vec::new(alloc);
    for proc in 0..16 {
        begin(&mut text, proc)?;
        for op in 0..256u64 {
            text.extend_from_slice(b"let v")?;
            push_count(&mut text, op + 1)?;
            text.extend_from_slice(b"=v")?;
            push_count(&mut text, op)?;
            text.push(b';')?;
        }
        text.push(b'}')?;
    }
    Ok(text)
}

// The head of a procedure with one parameter.
fn begin(text: &mut Vec<u8>, proc: u64) -> Result<(), NoMemory> {
    text.extend_from_slice(b"proc P")?;
    push_count(text, proc)?;
    text.extend_from_slice(b"(v0 int){")?;
    Ok(())
}

// The plan of a catalogue, after the slices of its procedures.
fn plan_of(alloc: Global, cat: &Catalogue) -> Result<Plan, PartError> {
    let programs = flatten(alloc, cat)?;
    for program in &programs {
        if program.ops.as_slice().len() <= MAX_OPS {
            slices(alloc, program)?;
        }
    }
    let _procs = cat.procs(); // so few that they can be planned
    Ok(global(alloc, cat, programs)?)
}

/// Makes the slices and blocks of such a catalogue `rounds` times; returns how many blocks there were.
pub fn make(alloc: Global, shape: Shape, rounds: u32) -> Result<u64, PartError> {
    let text = match shape {
        Shape::OneTable => puts(alloc, 1)?,
        Shape::ManyTables => puts(alloc, 64)?,
        Shape::Chain => lets(alloc)?,
    };
    let cat = read_catalogue(alloc, &text)?;
    let mut total: u64 = 0;
    for _ in 0..rounds {
        let plan = plan_of(alloc, &cat)?;
        total = total.saturating_add(u64::from(plan.blocks()));
    }
    Ok(total)
}
