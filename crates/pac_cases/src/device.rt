// Changes to the devices between steps, and checks of their contents.
use crate::report::{Location, compare};
use crate::runner::Runner;
use crate::text::{halves, number, push_number, push_text};
use std::alloc::{AllocError, Global};

// The index of the device with this name.
fn index_of(name: &str) -> usize {
    match name {
        "log" => 0,
        "log_b" => 1,
        "a" => 2,
        "b" => 3,
        _ => usize::MAX,
    }
}

/// Copies of the bytes of the devices.
pub fn copies_of(alloc: Global, devices: &[Vec<u8>]) -> Result<Vec<Vec<u8>>, AllocError> {
    let mut copies = Vec::new(alloc);
    for bytes in devices {
        copies.push(bytes.clone()?)?;
    }
    Ok(copies)
}

/// Runs a line such as `log cut 60` or `log has 60`. Returns whether it is possible.
pub fn do_device<'a>(
    alloc: Global,
    runner: &mut Runner<'a>,
    line: &str,
) -> Result<bool, AllocError> {
    let (name, rest) = halves(line);
    let (verb, value) = halves(rest);
    match verb {
        "has" | "at" | "holds" => look(alloc, runner, name, verb, value),
        _ => change(alloc, &mut runner.devices, line),
    }
}

/// Makes a change such as `log set 36 7`. Returns whether it is possible.
pub fn change(alloc: Global, devices: &mut [Vec<u8>], line: &str) -> Result<bool, AllocError> {
    let (name, rest) = halves(line);
    let (verb, value) = halves(rest);
    if verb == "copy" {
        return copy_device(devices, name, value);
    }
    match devices.get_mut(index_of(name)) {
        Some(bytes) => change_bytes(alloc, bytes, verb, value),
        None => Ok(false),
    }
}

// `b copy a`
fn copy_device(devices: &mut [Vec<u8>], name: &str, from: &str) -> Result<bool, AllocError> {
    match devices.get(index_of(from)) {
        Some(bytes) => {
            let copy = bytes.clone()?;
            Ok(replace(devices, name, copy))
        }
        None => Ok(false),
    }
}

fn replace(devices: &mut [Vec<u8>], name: &str, copy: Vec<u8>) -> bool {
    match devices.get_mut(index_of(name)) {
        Some(bytes) => {
            *bytes = copy;
            true
        }
        None => false,
    }
}

fn change_bytes(
    alloc: Global,
    bytes: &mut Vec<u8>,
    verb: &str,
    value: &str,
) -> Result<bool, AllocError> {
    match verb {
        "is" => {
            bytes.clear();
            push_text(bytes, value)?;
        }
        "add" => push_text(bytes, value)?,
        "set" => return Ok(set(bytes, value).is_some()),
        "cut" => return Ok(cut(bytes, value).is_some()),
        _ => return Ok(false),
    }
    Ok(true)
}

// `set 36 7`
fn set(bytes: &mut [u8], value: &str) -> Option<()> {
    let (offset, byte) = halves(value);
    let old = bytes.get_mut(number(offset)? as usize)?;
    *old = byte.parse::<u8>().ok()?;
    Some(())
}

// `cut 60`
fn cut(bytes: &mut Vec<u8>, value: &str) -> Option<()> {
    let len = number(value)? as usize;
    if len > bytes.len() {
        return None;
    }
    bytes.truncate(len);
    Some(())
}

fn look<'a>(
    alloc: Global,
    runner: &mut Runner<'a>,
    name: &str,
    verb: &str,
    value: &str,
) -> Result<bool, AllocError> {
    let location = runner.location();
    match runner.devices.get(index_of(name)) {
        Some(bytes) => look_at(alloc, &mut runner.report, location, bytes, verb, value),
        None => Ok(false),
    }
}

fn look_at(
    alloc: Global,
    report: &mut Vec<u8>,
    location: Location<'_>,
    bytes: &[u8],
    verb: &str,
    value: &str,
) -> Result<bool, AllocError> {
    match verb {
        "has" => compare_len(alloc, report, location, bytes.len() as u64, value),
        "at" => compare_at(alloc, report, location, bytes, value),
        _ => compare_bytes(alloc, report, location, bytes, value),
    }
}

// `has 70`
fn compare_len(
    alloc: Global,
    report: &mut Vec<u8>,
    location: Location<'_>,
    len: u64,
    value: &str,
) -> Result<bool, AllocError> {
    let mut found = Vec::new(alloc);
    push_number(alloc, &mut found, len)?;
    compare(alloc, report, location, "length", value.as_bytes(), &found)?;
    Ok(true)
}

// `holds BYTES`
fn compare_bytes(
    alloc: Global,
    report: &mut Vec<u8>,
    location: Location<'_>,
    bytes: &[u8],
    value: &str,
) -> Result<bool, AllocError> {
    let mut expected = Vec::new(alloc);
    push_text(&mut expected, value)?;
    compare(alloc, report, location, "bytes", &expected, bytes)?;
    Ok(true)
}

// `at 36 BYTES`
fn compare_at(
    alloc: Global,
    report: &mut Vec<u8>,
    location: Location<'_>,
    bytes: &[u8],
    value: &str,
) -> Result<bool, AllocError> {
    let (offset, value) = halves(value);
    let mut expected = Vec::new(alloc);
    push_text(&mut expected, value)?;
    match number(offset) {
        Some(offset) => {
            let found = range(bytes, offset as usize, expected.len());
            compare(alloc, report, location, "bytes", &expected, found)?;
            Ok(true)
        }
        None => Ok(false),
    }
}

// `len` bytes from an offset on, or as many as there are.
fn range(bytes: &[u8], offset: usize, len: usize) -> &[u8] {
    let rest = match bytes.get(offset..) {
        Some(rest) => rest,
        None => b"",
    };
    match rest.get(..len) {
        Some(range) => range,
        None => rest,
    }
}
