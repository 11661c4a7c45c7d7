// Rows of a table.
use crate::call::{Ending, call};
use crate::device::{change, copies_of};
use crate::report::{Location, compare, push_whole};
use crate::runner::Runner;
use crate::text::push_text;
use crate::workers::{arguments_of, calls_of};
use std::alloc::{AllocError, Global};
use std::sync::Wait;
use std::thread::Threads;

/// A row: the expected end, and how it differs from the table.
#[derive(Clone, Copy)]
struct Row<'a> {
    end: &'a str,
    arguments: &'a str,
    input: &'a str,
    changes: &'a str,
}

// `END < INPUT`, `END | CHANGE, CHANGE` or `END $ ARGUMENTS`
fn read_row<'a>(line: &'a str, arguments: &'a str) -> Option<Row<'a>> {
    if let Some((end, input)) = line.split_once(" < ") {
        return Some(Row {
            end,
            arguments,
            input,
            changes: "",
        });
    }
    if let Some((end, changes)) = line.split_once(" | ") {
        return Some(Row {
            end,
            arguments,
            input: "",
            changes,
        });
    }
    match line.split_once(" $ ") {
        Some((end, arguments)) => Some(Row {
            end,
            arguments,
            input: "",
            changes: "",
        }),
        None => None,
    }
}

/// Runs a row on copies of the devices, with each number of workers that it asks for. Returns whether it can be read and its changes
/// are possible.
pub fn run_row<'a, RT: Threads + Wait + Sync>(
    rt: &RT,
    alloc: Global,
    runner: &mut Runner<'a>,
    line: &str,
) -> Result<bool, AllocError> {
    let Some(row) = read_row(line, runner.arguments) else {
        return Ok(false);
    };
    let (shared, calls) = calls_of(row.arguments);
    let mut passed = true;
    for added in calls {
        let arguments = arguments_of(alloc, shared, added)?;
        let row = Row {
            arguments: &arguments,
            ..row
        };
        match run_copies(rt, alloc, runner, row)? {
            Some(is_as_expected) => passed = passed && is_as_expected,
            None => return Ok(false),
        }
    }
    runner.record(passed);
    Ok(true)
}

// Whether a row ended as expected. `None`: its changes aren't possible.
fn run_copies<'a, RT: Threads + Wait + Sync>(
    rt: &RT,
    alloc: Global,
    runner: &mut Runner<'a>,
    row: Row<'_>,
) -> Result<Option<bool>, AllocError> {
    let mut devices = copies_of(alloc, &runner.devices)?;
    run_on(rt, alloc, runner, row, &mut devices)
}

fn run_on<'a, RT: Threads + Wait + Sync>(
    rt: &RT,
    alloc: Global,
    runner: &mut Runner<'a>,
    row: Row<'_>,
    devices: &mut Vec<Vec<u8>>,
) -> Result<Option<bool>, AllocError> {
    if !change_all(alloc, devices, row.changes)? {
        return Ok(None);
    }
    call_row(rt, alloc, runner, row, devices)?;
    let location = runner.location();
    let passed = compare_end(
        alloc,
        &mut runner.report,
        location,
        row.end,
        &runner.outcome,
    )?;
    Ok(Some(passed))
}

fn call_row<'a, RT: Threads + Wait + Sync>(
    rt: &RT,
    alloc: Global,
    runner: &mut Runner<'a>,
    row: Row<'_>,
    devices: &mut Vec<Vec<u8>>,
) -> Result<(), AllocError> {
    let mut input = runner.input.clone()?;
    push_text(&mut input, row.input)?;
    let faults = runner.faults;
    call(
        rt,
        alloc,
        row.arguments,
        &input,
        devices,
        faults,
        &mut runner.outcome,
    )
}

fn compare_end(
    alloc: Global,
    report: &mut Vec<u8>,
    location: Location<'_>,
    end: &str,
    outcome: &Ending,
) -> Result<bool, AllocError> {
    let mut expected = Vec::new(alloc);
    push_text(&mut expected, end)?;
    compare_whole(alloc, report, location, &expected, outcome)
}

fn compare_whole(
    alloc: Global,
    report: &mut Vec<u8>,
    location: Location<'_>,
    expected: &[u8],
    outcome: &Ending,
) -> Result<bool, AllocError> {
    let mut found = Vec::new(alloc);
    push_whole(alloc, &mut found, outcome)?;
    compare(alloc, report, location, "row", expected, &found)
}

fn change_all(alloc: Global, devices: &mut [Vec<u8>], changes: &str) -> Result<bool, AllocError> {
    if changes.is_empty() {
        return Ok(true);
    }
    let mut done = true;
    for line in changes.split(", ") {
        done = change(alloc, devices, line)? && done;
    }
    Ok(done)
}
