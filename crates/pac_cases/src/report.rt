// Reports of differences: file and line, what was expected and what was found.
use crate::call::Ending;
use crate::text::{push_number, push_shown};
use std::alloc::{AllocError, Global};

/// A line of a case file.
#[derive(Clone, Copy)]
pub struct Location<'a> {
    pub file: &'a str,
    pub line: u64,
}

/// Reports a problem with a line.
pub fn report_problem(
    alloc: Global,
    report: &mut Vec<u8>,
    location: Location<'_>,
    what: &str,
) -> Result<(), AllocError> {
    push_location(alloc, report, location)?;
    report.extend_from_slice(what.as_bytes())?;
    report.extend_from_slice(b"\n")
}

/// Begins a report with a file and line.
pub fn push_location(
    alloc: Global,
    report: &mut Vec<u8>,
    location: Location<'_>,
) -> Result<(), AllocError> {
    report.extend_from_slice(location.file.as_bytes())?;
    report.extend_from_slice(b":")?;
    push_number(alloc, report, location.line)?;
    report.extend_from_slice(b": ")
}

/// Adds both sides of a difference.
pub fn push_sides(report: &mut Vec<u8>, expected: &[u8], found: &[u8]) -> Result<(), AllocError> {
    report.extend_from_slice(b"  expected: ")?;
    push_shown(report, expected)?;
    report.extend_from_slice(b"\n  found:    ")?;
    push_shown(report, found)?;
    report.extend_from_slice(b"\n")
}

/// Reports a difference, if there is one. Returns whether both sides are equal.
pub fn compare(
    alloc: Global,
    report: &mut Vec<u8>,
    location: Location<'_>,
    what: &str,
    expected: &[u8],
    found: &[u8],
) -> Result<bool, AllocError> {
    if expected == found {
        return Ok(true);
    }
    report_problem(alloc, report, location, what)?;
    push_sides(report, expected, found)?;
    Ok(false)
}

/// The same for output: reports its first line that differs.
pub fn compare_lines(
    alloc: Global,
    report: &mut Vec<u8>,
    location: Location<'_>,
    expected: &[u8],
    found: &[u8],
) -> Result<bool, AllocError> {
    if expected == found {
        return Ok(true);
    }
    let difference = first_difference(expected, found);
    push_location(alloc, report, location)?;
    report.extend_from_slice(b"output line ")?;
    push_number(alloc, report, difference.number)?;
    report.extend_from_slice(b"\n")?;
    push_sides(report, difference.expected, difference.found)?;
    Ok(false)
}

/// Two lines with the same number that differ.
#[derive(Clone, Copy)]
struct Difference<'a> {
    number: u64,
    expected: &'a [u8],
    found: &'a [u8],
}

// The first lines that differ. If none do, one side ends early, and all of both is the difference.
fn first_difference<'a>(expected: &'a [u8], found: &'a [u8]) -> Difference<'a> {
    let mut number = 0u64;
    let is_end = |byte: &u8| *byte == b'\n';
    for (one, other) in expected.split(is_end).zip(found.split(is_end)) {
        number = number.saturating_add(1);
        if one != other {
            return Difference {
                number,
                expected: one,
                found: other,
            };
        }
    }
    Difference {
        number,
        expected,
        found,
    }
}

/// Appends the status and, after a blank, the line on standard error if there is one.
pub fn push_end(alloc: Global, bytes: &mut Vec<u8>, outcome: &Ending) -> Result<(), AllocError> {
    push_number(alloc, bytes, u64::from(outcome.status))?;
    match outcome.errors.split_last() {
        Some((b'\n', line)) => push_part(bytes, line),
        Some(_) => push_unended(bytes, &outcome.errors),
        None => Ok(()),
    }
}

/// Appends the same and, after a blank, the output if there is any.
pub fn push_whole(alloc: Global, bytes: &mut Vec<u8>, outcome: &Ending) -> Result<(), AllocError> {
    push_end(alloc, bytes, outcome)?;
    if outcome.output.is_empty() {
        return Ok(());
    }
    push_part(bytes, &outcome.output)
}

fn push_unended(bytes: &mut Vec<u8>, line: &[u8]) -> Result<(), AllocError> {
    push_part(bytes, line)?;
    bytes.extend_from_slice(b" (and no line feed)")
}

fn push_part(bytes: &mut Vec<u8>, part: &[u8]) -> Result<(), AllocError> {
    bytes.extend_from_slice(b" ")?;
    bytes.extend_from_slice(part)
}
