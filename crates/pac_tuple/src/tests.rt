// Worked lists, read, written and laid.
ghost use Rattle.std.specs.Prelude.{◌≡◌, ◌≤◌, ◌<◌, length, IfOk};
ghost use Rattle.pac_tuple.specs.Laying.{AreLaidWithin};

use crate::{ImageFaultKind, Images, images_at, lay, read_images, write_images};
use pac_base::{Listed, Refusal};
use pac_tables::{HashedRows, Rows};
use pac_types::{Catalogue, read_catalogue};
use pac_value::{Key, Row, Value};
use std::alloc::Global;
use std::test::Fail;
use std::thread::Threads;

const BANK_TABLES: &[u8] = b"table Family(key int, spouse int);
table Current(key int, value int);
table Saving(key int, value int);
table Stats(key int, count int);
";

// The row (100) at key 1 of Current, and the row (1) at key 7 of Stats.
const DEPOSITED: &[u8] = &[
    3, 2, 0, //
    1, 1, 0, 1, 1, 0, 0, 0, 0, 0, 0, 0, 1, 1, 100, 0, 0, 0, 0, 0, 0, 0, //
    1, 3, 0, 1, 7, 0, 0, 0, 0, 0, 0, 0, 1, 1, 1, 0, 0, 0, 0, 0, 0, 0,
];

// The same with its two records exchanged.
const EXCHANGED: &[u8] = &[
    3, 2, 0, //
    1, 3, 0, 1, 7, 0, 0, 0, 0, 0, 0, 0, 1, 1, 1, 0, 0, 0, 0, 0, 0, 0, //
    1, 1, 0, 1, 1, 0, 0, 0, 0, 0, 0, 0, 1, 1, 100, 0, 0, 0, 0, 0, 0, 0,
];

// A record twice.
const TWICE: &[u8] = &[
    3, 2, 0, //
    2, 1, 0, 1, 1, 0, 0, 0, 0, 0, 0, 0, //
    2, 1, 0, 1, 1, 0, 0, 0, 0, 0, 0, 0,
];

const NO_IMAGES: &[u8] = &[3, 0, 0];

const NO_RECORD: &[u8] = &[3, 1, 0, 3];

const TOO_MANY: &[u8] = &[3, 1, 1];

const NO_TABLE: &[u8] = &[3, 1, 0, 2, 4, 0];

const CUT: &[u8] = &[3, 1, 0, 2, 1, 0, 1, 1, 0, 0];

const TEXT_KEY: &[u8] = &[3, 1, 0, 2, 1, 0, 2, 1, 97];

const ONE_TABLE: &[u8] = b"table T(key int, v int);
";

// The row (5) at key 1; no row at key 1 and (3) at key 2; the row (7) at key 1.
const THREE_LISTS: &[u8] = &[
    3, 1, 0, //
    1, 0, 0, 1, 1, 0, 0, 0, 0, 0, 0, 0, 1, 1, 5, 0, 0, 0, 0, 0, 0, 0, //
    3, 2, 0, //
    2, 0, 0, 1, 1, 0, 0, 0, 0, 0, 0, 0, //
    1, 0, 0, 1, 2, 0, 0, 0, 0, 0, 0, 0, 1, 1, 3, 0, 0, 0, 0, 0, 0, 0, //
    3, 1, 0, //
    1, 0, 0, 1, 1, 0, 0, 0, 0, 0, 0, 0, 1, 1, 7, 0, 0, 0, 0, 0, 0, 0,
];

// The lists that the bytes are. They are in the tables.
fn lists_of(alloc: Global, cat: &Catalogue, bytes: &[u8]) -> Result<Images, Fail>
    ensures { IfOk result (λ images. AreLaidWithin (length cat.now.tables) images) }
{
    let mut images: Images = Listed::new(alloc);
    let mut at = 0;
    for _ in 0..bytes.len() {
        if at == bytes.len() {
            return Ok(images);
        }
        at = match read_images(alloc, cat, bytes, at, &mut images) {
            Ok(end) => end,
            Err(_) => return Ok(Listed::new(alloc)),
        };
    }
    Ok(images)
}

// Tables as many as the catalogue's, with the row (1) at key 2 of the first.
fn one_row(alloc: Global, cat: &Catalogue) -> Result<HashedRows, Fail>
    ensures { IfOk result (λ rows. rows.tables ≡ length cat.now.tables) }
{
    let tables = cat.tables();
    let mut rows = HashedRows::new(alloc, tables.len() as u16)?;
    if !tables.is_empty() {
        rows.put(0, Key::Int(2), Row::of(vec![in alloc; Value::Int(1)]?))?;
    }
    Ok(rows)
}

// Whether this value alone stands at a key of the first table.
fn stands<R: Rows>(rows: &R, key: i64, value: i64) -> bool {
    if rows.tables() == 0 {
        return false;
    }
    match rows.get(0, &Key::Int(key)) {
        Some(row) => row.items().first() == Some(&Value::Int(value)),
        None => false,
    }
}

// Whether so many workers lay the three lists as they are to be laid over the row (1) at key 2.
fn are_laid<H: Threads + Sync>(rt: &H, alloc: Global, workers: u32) -> Result<bool, Fail>
    requires some { 1 ≤ workers }
    requires few { workers ≤ 64 }
{
    let cat = read_catalogue(alloc, ONE_TABLE)?;
    let images = lists_of(alloc, &cat, THREE_LISTS)?;
    let rows = one_row(alloc, &cat)?;
    let laid = lay(rt, alloc, workers, rows, &images)?;
    Ok(images.len() == 3 && stands(&laid, 1, 7) && stands(&laid, 2, 3))
}

// Whether the bytes are one list, which is written as they are.
fn is_list(alloc: Global, bytes: &[u8]) -> Result<bool, Fail> {
    let cat = read_catalogue(alloc, BANK_TABLES)?;
    let mut images: Images = Listed::new(alloc);
    let end = match read_images(alloc, &cat, bytes, 0, &mut images) {
        Ok(end) => end,
        Err(_) => return Ok(false),
    };
    if images.len() != 1 {
        return Ok(false);
    }
    let mut written = Vec::new(alloc);
    write_images(&images, 0, &mut written)?;
    Ok(end == bytes.len() && *written == *bytes)
}

// Whether the first fault of the bytes is this one.
fn has_fault(
    alloc: Global,
    bytes: &[u8],
    wanted: usize,
    kind: ImageFaultKind,
) -> Result<bool, Fail> {
    let cat = read_catalogue(alloc, BANK_TABLES)?;
    match images_at(alloc, &cat, bytes, 0) {
        Err(Refusal::Fault(fault)) => Ok(fault.at == wanted && fault.kind == kind),
        _ => Ok(false),
    }
}

#[test]
fn a_worked_list_is_read_and_written(rt: HostRuntime) -> Result<(), Fail> {
    let whole = is_list(rt.alloc(), DEPOSITED)?;
    let none = is_list(rt.alloc(), NO_IMAGES)?;
    assert!(rt; whole && none);
    Ok(())
}

#[test]
fn the_first_fault_is_told_of_each_kind(rt: HostRuntime) -> Result<(), Fail> {
    let order = has_fault(rt.alloc(), EXCHANGED, 28, ImageFaultKind::Order)?;
    let same = has_fault(rt.alloc(), TWICE, 18, ImageFaultKind::Order)?;
    let tag = has_fault(rt.alloc(), NO_RECORD, 3, ImageFaultKind::Tag)?;
    let many = has_fault(rt.alloc(), TOO_MANY, 1, ImageFaultKind::TooMany)?;
    let table = has_fault(rt.alloc(), NO_TABLE, 4, ImageFaultKind::UnknownTable)?;
    let short = has_fault(rt.alloc(), CUT, 7, ImageFaultKind::Short)?;
    let key = has_fault(rt.alloc(), TEXT_KEY, 6, ImageFaultKind::WrongRow)?;
    assert!(rt; order && same && tag);
    assert!(rt; many && table && short && key);
    Ok(())
}

#[test]
fn lists_are_laid_by_any_number_of_workers(rt: HostRuntime) -> Result<(), Fail> {
    let one = are_laid(&rt, rt.alloc(), 1)?;
    let four = are_laid(&rt, rt.alloc(), 4)?;
    let sixteen = are_laid(&rt, rt.alloc(), 16)?;
    assert!(rt; one && four && sixteen);
    Ok(())
}
