// Reads after-images.
ghost use Rattle.std.specs.Prelude.{◌≡◌, ◌≤◌, ◌+◌, length, IfOk, None};
ghost use Rattle.pac_base.specs.declared.refusal.Refusal.TheVariants.{Fault as AFault};
ghost use Rattle.pac_base.specs.Refusals.{Reports};
ghost use Rattle.pac_bytes.specs.Reading.{from, reported_as};
ghost use Rattle.pac_bytes.specs.Readers.{Answers, AnswersUnlessMemory, Finds, FindsSpelledUnlessMemory};
ghost use Rattle.pac_entry.specs.EntryReading.{next_cell, next_change};
ghost use Rattle.pac_serial.specs.Writes.{image_cell};
ghost use Rattle.pac_tuple.specs.Images.{images_bytes, is_cell_above as stands_above, AscendAfter, AreTxnImagesOf};
ghost use Rattle.pac_tuple.specs.ImageReading.{image_byte, image_number, next_image, next_ascending, counted_images, next_images, ReadsOneList};
ghost use Rattle.pac_tuple.specs.Laying.{AreLaidWithin};
ghost use Rattle.pac_tuple.specs.Kinds.{image_fault_at, as_image_fault};

use crate::fault::image_fault;
use crate::images::{Images, MAX_IMAGES, TxnImages};
use crate::writing::IMAGES;
use crate::{ImageError, ImageFault, ImageFaultKind};
use pac_base::Refusal;
use pac_bytes::{u8_at, u16_at};
use pac_entry::{EntryFault, change_at, changed_cell_at};
use pac_ops::Change;
use pac_types::Catalogue;
use pac_value::Key;
use std::alloc::Global;
use std::cmp::Ordering;

/// Adds the list of after-images at an offset to lists, and returns the offset after it. It fits the catalogue. Bytes after
/// the list are not looked at.
///
/// # Errors
///
/// As of [`images_at`]. Then the lists are as they were.
pub fn read_images(
    alloc: Global,
    cat: &Catalogue,
    bytes: &[u8],
    at: usize,
    images: &mut Images,
) -> Result<usize, ImageError>
    ensures one { ReadsOneList cat.now.tables bytes.now at images.old images.new result }
    // It is in the tables of the catalogue.
    ensures within { AreLaidWithin (length cat.now.tables) images.old → AreLaidWithin (length cat.now.tables) images.new }
{
    let (list, end) = images_at(alloc, cat, bytes, at)?;
    images.push(list)?;
    Ok(end)
}

/// The list of after-images at an offset, and the offset after it.
///
/// # Errors
///
/// The first fault from the left, or `NoMemory`:
///
/// - [`ImageFaultKind::Short`] at the field that is cut short. A text's length and its bytes are one field.
/// - [`ImageFaultKind::Tag`] at a first byte of a list, a record or a value that is none of its tags.
/// - [`ImageFaultKind::UnknownTable`] at a number that is out of range.
/// - [`ImageFaultKind::WrongRow`] at a number of values that isn't that of the columns, and at a value of another type,
///   whatever is left after its tag; also at a text whose length is above 64, whatever is left, or that is whole and not
///   printable.
/// - [`ImageFaultKind::TooMany`] at a number of images above 256.
/// - [`ImageFaultKind::Order`] at a key whose cell isn't above the one before, whatever is left after the key.
pub fn images_at(
    alloc: Global,
    cat: &Catalogue,
    bytes: &[u8],
    at: usize,
) -> Result<(TxnImages, usize), ImageError>
    // It is what reading gives, or the first fault.
    ensures exact { AnswersUnlessMemory bytes.now result (next_images cat.now.tables (from bytes.now at)) }
    // What is found is written so, and fits the tables.
    ensures found { Finds (AreTxnImagesOf cat.now.tables) images_bytes bytes.now at result }
    // What fits the tables and is written so is found, whatever follows.
    ensures again { FindsSpelledUnlessMemory (AreTxnImagesOf cat.now.tables) images_bytes bytes.now at result }
{
    let _tables = cat.tables();
    list_at(alloc, cat, bytes, at)
}

// The list at an offset, as reading gives it.
#[tactic(auto, unfolding(crate::specs::ImageReading::next_images))]
fn list_at(
    alloc: Global,
    cat: &Catalogue,
    bytes: &[u8],
    at: usize,
) -> Result<(TxnImages, usize), ImageError>
    ensures { AnswersUnlessMemory bytes.now result (next_images cat.now.tables (from bytes.now at)) }
{
    let (tag, after) = byte_at(bytes, at)?;
    match tag {
        IMAGES => counted_at(alloc, cat, bytes, after),
        _ => Err(refused(ImageFaultKind::Tag, at)),
    }
}

fn refused(kind: ImageFaultKind, at: usize) -> ImageError
    ensures { result ≡ AFault (image_fault_at kind at) }
{
    Refusal::Fault(ImageFault { at, kind })
}

fn byte_at(bytes: &[u8], at: usize) -> Result<(u8, usize), ImageFault>
    ensures { Answers bytes.now result (image_byte (from bytes.now at)) }
{
    Ok(u8_at(bytes, at)?)
}

fn number_at(bytes: &[u8], at: usize) -> Result<(u16, usize), ImageFault>
    ensures { Answers bytes.now result (image_number (from bytes.now at)) }
{
    Ok(u16_at(bytes, at)?)
}

// The number of images, and they.
#[tactic(auto, unfolding(crate::specs::ImageReading::counted_images))]
fn counted_at(
    alloc: Global,
    cat: &Catalogue,
    bytes: &[u8],
    at: usize,
) -> Result<(TxnImages, usize), ImageError>
    ensures { AnswersUnlessMemory bytes.now result (counted_images cat.now.tables (from bytes.now at)) }
{
    let (count, after) = number_at(bytes, at)?;
    let count = usize::from(count);
    if count > MAX_IMAGES {
        return Err(refused(ImageFaultKind::TooMany, at));
    }
    let (images, end) = ascending_at(alloc, cat, count, bytes, after)?;
    Ok((TxnImages::of(images), end))
}

// That many images: they are as many, and ascend.
fn ascending_at(
    alloc: Global,
    cat: &Catalogue,
    count: usize,
    bytes: &[u8],
    at: usize,
) -> Result<(Vec<Change>, usize), ImageError>
    ensures exact { Reports (λ found. (found.0.items, from bytes.now found.1)) result (next_ascending cat.now.tables None count (from bytes.now at)) }
    ensures count { IfOk result (λ found. length found.0.items ≡ count) }
    ensures ascend { IfOk result (λ found. AscendAfter None found.0.items) }
{
    read_ascending(alloc, cat, count, bytes, at)
}

// The same, as reading gives them.
fn read_ascending(
    alloc: Global,
    cat: &Catalogue,
    count: usize,
    bytes: &[u8],
    at: usize,
) -> Result<(Vec<Change>, usize), ImageError>
    ensures { Reports (λ found. (found.0.items, from bytes.now found.1)) result (next_ascending cat.now.tables None count (from bytes.now at)) }
{
    let mut images = Vec::with_capacity(alloc, count)?;
    let mut offset = at;
    let mut last: Option<(u16, Key)> = None;
    for _ in 0..count {
        let (image, end) = image_at(alloc, cat, &last, bytes, offset)?;
        last = Some(cell_of(&image));
        images.push(image)?;
        offset = end;
    }
    Ok((images, offset))
}

/// Where an after-image stands.
pub(crate) fn cell_of(image: &Change) -> (u16, Key)
    ensures { result ≡ image_cell image.now }
{
    match image {
        Change::Put { table, key, row: _ } => (*table, *key),
        Change::Delete { table, key } => (*table, *key),
    }
}

// Whether the cell is above the last one, where there was one.
fn is_above(last: &Option<(u16, Key)>, cell: &(u16, Key)) -> bool
    ensures { result ≡ stands_above last.now cell.now }
{
    match last {
        None => true,
        Some(last) => last.cmp(cell) == Ordering::Less,
    }
}

// An image at a cell above the last one. The cell is compared before anything behind it is looked at.
#[tactic(auto, unfolding(crate::specs::ImageReading::next_image))]
fn image_at(
    alloc: Global,
    cat: &Catalogue,
    last: &Option<(u16, Key)>,
    bytes: &[u8],
    at: usize,
) -> Result<(Change, usize), ImageError>
    ensures { AnswersUnlessMemory bytes.now result (next_image cat.now.tables last.now (from bytes.now at)) }
{
    let (cell, _) = image_cell_at(cat, bytes, at)?;
    if !is_above(last, &cell) {
        return Err(refused(ImageFaultKind::Order, at + 3));
    }
    record_at(alloc, cat, bytes, at)
}

// The cell of the record at an offset, as one of images.
fn image_cell_at(
    cat: &Catalogue,
    bytes: &[u8],
    at: usize,
) -> Result<((u16, Key), usize), ImageFault>
    ensures exact { Answers bytes.now result (reported_as as_image_fault (next_cell cat.now.tables (from bytes.now at))) }
    ensures within { IfOk result (λ found. at + 3 ≤ length bytes.now) }
{
    match cell_at(cat, bytes, at) {
        Ok(found) => Ok(found),
        Err(fault) => Err(image_fault(fault)),
    }
}

// The cell of the record at an offset. Its key stands within the bytes, after the tag and the table's number.
fn cell_at(cat: &Catalogue, bytes: &[u8], at: usize) -> Result<((u16, Key), usize), EntryFault>
    ensures exact { Answers bytes.now result (next_cell cat.now.tables (from bytes.now at)) }
    ensures within { IfOk result (λ found. at + 3 ≤ length bytes.now) }
{
    changed_cell_at(cat, bytes, at)
}

// The record at an offset.
fn record_at(
    alloc: Global,
    cat: &Catalogue,
    bytes: &[u8],
    at: usize,
) -> Result<(Change, usize), ImageError>
    ensures { AnswersUnlessMemory bytes.now result (reported_as as_image_fault (next_change cat.now.tables (from bytes.now at))) }
{
    match change_at(alloc, cat, bytes, at) {
        Ok(found) => Ok(found),
        Err(Refusal::Fault(fault)) => Err(Refusal::Fault(image_fault(fault))),
        Err(Refusal::NoMemory) => Err(Refusal::NoMemory),
    }
}
