// A checkpoint on a device, of one table whose rows have eight texts of 64 bytes.
use crate::part::PartError;
use crate::rows::filled;
use pac_base::NoMemory;
use pac_check::{SlotHeads, Slots, can_be_saved};
use pac_outside::FileDisk;
use pac_types::read_catalogue;
use std::alloc::Global;
use std::fs::{File, Files};

const CATALOGUE: &[u8] =
    b"table T(key int, a text, b text, c text, d text, e text, f text, g text, h text);";

// A row of eight texts.
fn texts(alloc: Global) -> Result<Vec<u8>, NoMemory> {
    let mut values = Vec::with_capacity(alloc, 529)?;
    values.push(8)?;
    for _ in 0..8 {
        values.extend_from_slice(b"\x02\x40")?;
        values.extend_from_slice(&[b'x'; 64])?;
    }
    Ok(values)
}

/// Saves a checkpoint of that many rows to the first of two slots; the rows.
pub fn save<'a, R: Files<File = File>>(
    alloc: Global,
    a: &mut FileDisk<'a, R>,
    b: &mut FileDisk<'a, R>,
    count: u32,
) -> Result<u64, PartError> {
    let cat = read_catalogue(alloc, CATALOGUE)?;
    let rows = filled(alloc, &cat, &texts(alloc)?, count)?;
    if !can_be_saved(&rows) {
        return Err(PartError::Refused);
    }
    let heads = SlotHeads::attach(alloc, a, b)?;
    let mut slots = Slots::attach(alloc, heads, &cat, a, b)?;
    if slots.newest().is_some() {
        return Err(PartError::NotEmpty);
    }
    slots.prepare(alloc, &cat, &rows, 0, 0)?;
    slots.close_older(a, b)?;
    slots.publish(a, b)?;
    Ok(u64::from(count))
}
