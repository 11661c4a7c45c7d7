// A step that is repeated with a failure at each call of a kind.
use crate::call::{Ending, call};
use crate::device::copies_of;
use crate::faults::{Failing, StepFaults};
use crate::report::{compare_lines, push_location, push_sides, push_whole, report_problem};
use crate::runner::Runner;
use crate::text::push_number;
use pac_outside::Fill;
use std::alloc::{AllocError, Global};
use std::sync::Wait;
use std::thread::Threads;

/// Which calls fail.
#[derive(Clone, Copy)]
pub enum CallKind {
    /// A read of the input.
    Read,
    /// A write of the output.
    Write,
    /// A call of any device.
    Call,
}

impl CallKind {
    /// The calls with this name.
    pub fn of(name: &str) -> Option<CallKind> {
        match name {
            "read" => Some(CallKind::Read),
            "write" => Some(CallKind::Write),
            "call" => Some(CallKind::Call),
            _ => None,
        }
    }

    // How a case names such a failure.
    fn fail(self) -> &'static str {
        match self {
            CallKind::Read => "fail read ",
            CallKind::Write => "fail write ",
            CallKind::Call => "fail disk ",
        }
    }

    fn status(self) -> u8 {
        match self {
            CallKind::Read => 6,
            CallKind::Write => 7,
            CallKind::Call => 8,
        }
    }

    fn error(self) -> &'static str {
        match self {
            CallKind::Read => "input fault\n",
            CallKind::Write => "output fault\n",
            CallKind::Call => "disk fault\n",
        }
    }
}

/// One run of a sweep: the call that fails, and the image that a crash then leaves.
#[derive(Clone, Copy)]
struct Trial {
    target: CallKind,
    failing: Failing,
    fill: Fill,
    grown: bool,
}

impl Trial {
    // `way` is below `WAYS`.
    fn of(target: CallKind, call: u64, way: u64) -> Trial {
        Trial {
            target,
            failing: Failing {
                call,
                lasts: way % 2 == 0,
            },
            fill: fill_of(way / 4),
            grown: way / 2 % 2 == 0,
        }
    }

    fn faults(self) -> StepFaults {
        let mut faults = StepFaults::none();
        faults.fill = self.fill;
        faults.grown = self.grown;
        match self.target {
            CallKind::Read => faults.read = self.failing,
            CallKind::Write => faults.write = self.failing,
            CallKind::Call => faults.disk = self.failing,
        }
        faults
    }
}

// How many ways a call can fail: alone or with all later ones, and then with six fills and two lengths of the image.
const WAYS: u64 = 24;

fn fill_of(number: u64) -> Fill {
    match number {
        0 => Fill::Old,
        1 => Fill::New,
        2 => Fill::Byte(0),
        3 => Fill::Byte(1),
        4 => Fill::Byte(7),
        _ => Fill::Byte(255),
    }
}

/// How a trial went.
#[derive(Clone, Copy)]
enum Verdict {
    Right,
    Wrong,
    /// There is no such call: nothing failed, and everything was done.
    Past,
}

// The limit on the calls of one step.
const CALLS: u64 = 1000;

/// Repeats the step with a failure at each of these calls, alone and with all later ones, and recovers each image that a crash
/// then leaves, which must keep what the output acknowledged. Finally runs the step without a failure.
pub fn sweep<'a, RT: Threads + Wait + Sync>(
    rt: &RT,
    alloc: Global,
    runner: &mut Runner<'a>,
    target: CallKind,
) -> Result<bool, AllocError> {
    for way in 0..WAYS {
        if !try_calls(rt, alloc, runner, target, way)? {
            return Ok(false);
        }
    }
    run_whole(rt, alloc, runner)?;
    Ok(true)
}

fn run_whole<'a, RT: Threads + Wait + Sync>(
    rt: &RT,
    alloc: Global,
    runner: &mut Runner<'a>,
) -> Result<(), AllocError> {
    call(
        rt,
        alloc,
        runner.arguments,
        &runner.input,
        &mut runner.devices,
        StepFaults::none(),
        &mut runner.outcome,
    )
}

fn try_calls<'a, RT: Threads + Wait + Sync>(
    rt: &RT,
    alloc: Global,
    runner: &mut Runner<'a>,
    target: CallKind,
    way: u64,
) -> Result<bool, AllocError> {
    for call in 1..CALLS {
        match try_call(rt, alloc, runner, Trial::of(target, call, way))? {
            Verdict::Right => {}
            Verdict::Wrong => return Ok(false),
            Verdict::Past => return test_first(alloc, runner, call),
        }
    }
    let location = runner.step_location();
    report_problem(alloc, &mut runner.report, location, "too many calls")?;
    Ok(false)
}

// Returns whether the step makes any of the calls, given the first that it doesn't make.
fn test_first<'a>(
    alloc: Global,
    runner: &mut Runner<'a>,
    missing: u64,
) -> Result<bool, AllocError> {
    let location = runner.step_location();
    if missing == 1 {
        report_problem(alloc, &mut runner.report, location, "no such call is made")?;
    }
    Ok(missing != 1)
}

fn try_call<'a, RT: Threads + Wait + Sync>(
    rt: &RT,
    alloc: Global,
    runner: &mut Runner<'a>,
    trial: Trial,
) -> Result<Verdict, AllocError> {
    let mut devices = copies_of(alloc, &runner.devices)?;
    try_on(rt, alloc, runner, trial, &mut devices)
}

fn try_on<'a, RT: Threads + Wait + Sync>(
    rt: &RT,
    alloc: Global,
    runner: &mut Runner<'a>,
    trial: Trial,
    devices: &mut Vec<Vec<u8>>,
) -> Result<Verdict, AllocError> {
    let (arguments, outcome) = (runner.arguments, &mut runner.outcome);
    call(
        rt,
        alloc,
        arguments,
        &runner.input,
        devices,
        trial.faults(),
        outcome,
    )?;
    let verdict = verdict_of(&runner.outcome, &runner.expected_output, trial);
    if matches!(verdict, Verdict::Wrong) {
        report_end(alloc, runner, trial)?;
        return Ok(verdict);
    }
    if runner.dumps.is_empty() || recover(rt, alloc, runner, trial, devices)? {
        return Ok(verdict);
    }
    Ok(Verdict::Wrong)
}

fn verdict_of(outcome: &Ending, expected: &[u8], trial: Trial) -> Verdict {
    if is_past(outcome, expected, trial) {
        return Verdict::Past;
    }
    if is_right(outcome, expected, trial) {
        return Verdict::Right;
    }
    Verdict::Wrong
}

// How many calls of a kind were made.
fn calls_made(outcome: &Ending, target: CallKind) -> u64 {
    match target {
        CallKind::Read => outcome.reads,
        CallKind::Write => outcome.writes,
        CallKind::Call => outcome.disk_calls,
    }
}

// Whether nothing failed and everything was done.
fn is_past(outcome: &Ending, expected: &[u8], trial: Trial) -> bool {
    calls_made(outcome, trial.target) < trial.failing.call
        && outcome.status == 0
        && outcome.errors.is_empty()
        && outcome.output.as_slice() == expected
}

// Whether it ended at the failing call, with a prefix of the output.
fn is_right(outcome: &Ending, expected: &[u8], trial: Trial) -> bool {
    calls_made(outcome, trial.target) == trial.failing.call
        && outcome.status == trial.target.status()
        && outcome.errors.as_slice() == trial.target.error().as_bytes()
        && expected.starts_with(&outcome.output)
}

// Recovers the image. The result must be a dump after at least as many transactions as the output acknowledges.
fn recover<'a, RT: Threads + Wait + Sync>(
    rt: &RT,
    alloc: Global,
    runner: &mut Runner<'a>,
    trial: Trial,
    devices: &mut Vec<Vec<u8>>,
) -> Result<bool, AllocError> {
    let least = acknowledged(&runner.outcome.output);
    let outcome = &mut runner.outcome;
    call(
        rt,
        alloc,
        "recover",
        b"",
        devices,
        StepFaults::none(),
        outcome,
    )?;
    if runner.outcome.status == 0 && has_dump(&runner.dumps, least, &runner.outcome.output) {
        return Ok(true);
    }
    report_recovered(alloc, runner, trial, least as u64)?;
    Ok(false)
}

// How many transactions an output acknowledges.
fn acknowledged(output: &[u8]) -> usize {
    output
        .split(|byte| *byte == b'\n')
        .filter(|line| line.starts_with(b"committed "))
        .count()
}

fn has_dump(dumps: &[Vec<u8>], least: usize, output: &[u8]) -> bool {
    match dumps.get(least..) {
        Some(dumps) => dumps.iter().any(|dump| dump.as_slice() == output),
        None => false,
    }
}

// With status 0, either the output differs, or the failure went unnoticed.
fn report_end<'a>(alloc: Global, runner: &mut Runner<'a>, trial: Trial) -> Result<(), AllocError> {
    let location = runner.step_location();
    let found = &runner.outcome.output;
    let is_done = runner.outcome.status == 0;
    if is_done
        && !compare_lines(
            alloc,
            &mut runner.report,
            location,
            &runner.expected_output,
            found,
        )?
    {
        return Ok(());
    }
    push_trial(alloc, runner, trial)?;
    let expected = trial.target.error().as_bytes();
    report_found(alloc, &mut runner.report, expected, &runner.outcome)
}

fn report_recovered<'a>(
    alloc: Global,
    runner: &mut Runner<'a>,
    trial: Trial,
    least: u64,
) -> Result<(), AllocError> {
    push_trial(alloc, runner, trial)?;
    let mut expected = Vec::new(alloc);
    push_number(alloc, &mut expected, least)?;
    expected.extend_from_slice(b"> or a later dump")?;
    report_found(alloc, &mut runner.report, &expected, &runner.outcome)
}

fn report_found(
    alloc: Global,
    report: &mut Vec<u8>,
    expected: &[u8],
    outcome: &Ending,
) -> Result<(), AllocError> {
    let mut found = Vec::new(alloc);
    push_whole(alloc, &mut found, outcome)?;
    push_sides(report, expected, &found)
}

// Begins a report with the lines that reproduce the trial: `fail disk 13 on, crash 7 grown`.
fn push_trial<'a>(alloc: Global, runner: &mut Runner<'a>, trial: Trial) -> Result<(), AllocError> {
    let location = runner.step_location();
    let report = &mut runner.report;
    push_location(alloc, report, location)?;
    push_str(report, trial.target.fail())?;
    push_number(alloc, report, trial.failing.call)?;
    push_str(
        report,
        if trial.failing.lasts {
            " on, crash "
        } else {
            ", crash "
        },
    )?;
    push_fill(alloc, report, trial.fill)?;
    push_str(report, if trial.grown { " grown\n" } else { "\n" })
}

fn push_str(report: &mut Vec<u8>, text: &str) -> Result<(), AllocError> {
    report.extend_from_slice(text.as_bytes())
}

fn push_fill(alloc: Global, report: &mut Vec<u8>, fill: Fill) -> Result<(), AllocError> {
    match fill {
        Fill::Old => push_str(report, "old"),
        Fill::New => push_str(report, "new"),
        Fill::Byte(byte) => push_number(alloc, report, u64::from(byte)),
    }
}
