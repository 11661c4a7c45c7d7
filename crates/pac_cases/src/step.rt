// A step: one call of the program.
use crate::call::{Ending, call};
use crate::report::{Location, compare, compare_lines, push_end};
use crate::runner::Runner;
use crate::workers::{arguments_of, calls_of};
use std::alloc::{AllocError, Global};
use std::sync::Wait;
use std::thread::Threads;

/// Runs the step that has been read, with each number of workers that it asks for. Returns whether it ended and wrote as expected.
pub fn run_step<'a, RT: Threads + Wait + Sync>(
    rt: &RT,
    alloc: Global,
    runner: &mut Runner<'a>,
) -> Result<bool, AllocError> {
    let (shared, calls) = calls_of(runner.arguments);
    let mut passed = true;
    for added in calls {
        let arguments = arguments_of(alloc, shared, added)?;
        passed = run_once(rt, alloc, runner, &arguments)? && passed;
    }
    Ok(passed)
}

fn run_once<'a, RT: Threads + Wait + Sync>(
    rt: &RT,
    alloc: Global,
    runner: &mut Runner<'a>,
    arguments: &str,
) -> Result<bool, AllocError> {
    call(
        rt,
        alloc,
        arguments,
        &runner.input,
        &mut runner.devices,
        runner.faults,
        &mut runner.outcome,
    )?;
    compare_step(alloc, runner)
}

fn compare_step<'a>(alloc: Global, runner: &mut Runner<'a>) -> Result<bool, AllocError> {
    let location = runner.step_location();
    let end = runner.expected_end;
    let ends = compare_end(alloc, &mut runner.report, location, end, &runner.outcome)?;
    let found = &runner.outcome.output;
    let writes = compare_lines(
        alloc,
        &mut runner.report,
        location,
        &runner.expected_output,
        found,
    )?;
    Ok(ends && writes)
}

fn compare_end(
    alloc: Global,
    report: &mut Vec<u8>,
    location: Location<'_>,
    expected: &str,
    outcome: &Ending,
) -> Result<bool, AllocError> {
    let mut found = Vec::new(alloc);
    push_end(alloc, &mut found, outcome)?;
    compare(alloc, report, location, "end", expected.as_bytes(), &found)
}
