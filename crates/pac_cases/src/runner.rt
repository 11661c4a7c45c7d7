// Runs the lines of a case file one by one.
use crate::call::Ending;
use crate::device::do_device;
use crate::faults::StepFaults;
use crate::report::{Location, report_problem};
use crate::step::run_step;
use crate::sweep::{CallKind, sweep};
use crate::table::run_row;
use crate::text::{halves, number, push_copies, push_line, push_number, push_text};
use std::alloc::{AllocError, Global};
use std::sync::Wait;
use std::thread::Threads;

/// What a line is, by its first byte.
#[derive(Clone, Copy)]
enum Mark {
    Comment,
    Case,
    Step,
    Input,
    Output,
    End,
    Fault,
    Device,
    Row,
    Unknown,
}

fn mark_of(line: &str) -> Mark {
    match line.as_bytes().first() {
        None | Some(b'#') => Mark::Comment,
        Some(b'=') => Mark::Case,
        Some(b'$') => Mark::Step,
        Some(b'<') => Mark::Input,
        Some(b'>') => Mark::Output,
        Some(b'!') => Mark::End,
        Some(b'f' | b'o' | b'c') => Mark::Fault,
        Some(b'l' | b'a' | b'b') => Mark::Device,
        Some(b'0'..=b'9') => Mark::Row,
        _ => Mark::Unknown,
    }
}

// Whether the step before such a line is complete.
fn ends_step(mark: Mark) -> bool {
    matches!(mark, Mark::Case | Mark::Step | Mark::Fault | Mark::Device)
}

/// What the current lines belong to.
#[derive(Clone, Copy)]
pub enum Kind {
    Nothing,
    Step,
    /// A step that is repeated with a failure at each call of a kind.
    Sweep(CallKind),
    Table,
}

/// The state of a run through a case file: the step being read, and the devices before it.
#[derive(Drop)]
pub struct Runner<'a> {
    pub file: &'a str,
    pub line: u64,
    pub kind: Kind,
    /// The line on which the step or table begins.
    pub step_line: u64,
    pub arguments: &'a str,
    /// The expected status and line on standard error.
    pub expected_end: &'a str,
    pub faults: StepFaults,
    pub input: Vec<u8>,
    pub expected_output: Vec<u8>,
    /// For a sweep, the dump after each number of transactions.
    pub dumps: Vec<Vec<u8>>,
    pub devices: Vec<Vec<u8>>,
    /// How the last call ended.
    pub outcome: Ending,
    /// How many steps and rows went as expected.
    pub passed: u64,
    /// The differences.
    pub report: Vec<u8>,
}

impl<'a> Runner<'a> {
    fn new(alloc: Global, file: &'a str) -> Runner<'a> {
        Runner {
            file,
            line: 0,
            kind: Kind::Nothing,
            step_line: 0,
            arguments: "",
            expected_end: "0",
            faults: StepFaults::none(),
            input: Vec::new(alloc),
            expected_output: Vec::new(alloc),
            dumps: Vec::new(alloc),
            devices: Vec::new(alloc),
            outcome: Ending::new(alloc),
            passed: 0,
            report: Vec::new(alloc),
        }
    }

    /// The line being read.
    pub fn location(&self) -> Location<'a> {
        Location {
            file: self.file,
            line: self.line,
        }
    }

    /// The line on which the step begins.
    pub fn step_location(&self) -> Location<'a> {
        Location {
            file: self.file,
            line: self.step_line,
        }
    }

    /// Counts a step or row that went as expected.
    pub fn record(&mut self, passed: bool) {
        if passed {
            self.passed = self.passed.saturating_add(1);
        }
    }
}

/// Runs a case file. Appends its differences to `report`, and a line with the number of steps that went as expected to `summary`.
pub fn run_file<RT: Threads + Wait + Sync>(
    rt: &RT,
    alloc: Global,
    file: &str,
    text: &str,
    summary: &mut Vec<u8>,
    report: &mut Vec<u8>,
) -> Result<(), AllocError> {
    let mut runner = Runner::new(alloc, file);
    run_lines(rt, alloc, &mut runner, text)?;
    summarize(alloc, &runner, summary)?;
    report.extend_from_slice(&runner.report)
}

fn summarize<'a>(
    alloc: Global,
    runner: &Runner<'a>,
    summary: &mut Vec<u8>,
) -> Result<(), AllocError> {
    summary.extend_from_slice(runner.file.as_bytes())?;
    summary.extend_from_slice(b" ")?;
    push_number(alloc, summary, runner.passed)?;
    summary.extend_from_slice(b"\n")
}

fn run_lines<'a, RT: Threads + Wait + Sync>(
    rt: &RT,
    alloc: Global,
    runner: &mut Runner<'a>,
    text: &'a str,
) -> Result<(), AllocError> {
    for line in text.lines() {
        runner.line = runner.line.saturating_add(1);
        run_line(rt, alloc, runner, line)?;
    }
    finish(rt, alloc, runner)?;
    test_steps(alloc, runner)
}

// If nothing passed and nothing was reported, the file has no step.
fn test_steps<'a>(alloc: Global, runner: &mut Runner<'a>) -> Result<(), AllocError> {
    let location = runner.location();
    if runner.passed == 0 && runner.report.is_empty() {
        report_problem(alloc, &mut runner.report, location, "no step in this file")?;
    }
    Ok(())
}

fn run_line<'a, RT: Threads + Wait + Sync>(
    rt: &RT,
    alloc: Global,
    runner: &mut Runner<'a>,
    line: &'a str,
) -> Result<(), AllocError> {
    let mark = mark_of(line);
    if ends_step(mark) {
        finish(rt, alloc, runner)?;
    }
    let read = match mark {
        Mark::Row => read_row(rt, alloc, runner, line)?,
        _ => read_line(alloc, runner, mark, line)?,
    };
    if read {
        return Ok(());
    }
    let location = runner.location();
    report_problem(alloc, &mut runner.report, location, "not possible here")
}

// Returns whether such a line is possible here.
fn read_line<'a>(
    alloc: Global,
    runner: &mut Runner<'a>,
    mark: Mark,
    line: &'a str,
) -> Result<bool, AllocError> {
    let (word, rest) = halves(line);
    match mark {
        Mark::Comment => Ok(true),
        Mark::Case => begin_case(alloc, runner, word),
        Mark::Step => Ok(begin_step(runner, word, rest)),
        Mark::Input => push_input(alloc, runner, word, rest),
        Mark::Output => push_output(alloc, runner, word, rest),
        Mark::End => Ok(set_end(runner, word, rest)),
        Mark::Fault => Ok(runner.faults.add(word, rest).is_some()),
        Mark::Device => do_device(alloc, runner, line),
        Mark::Row | Mark::Unknown => Ok(false),
    }
}

// `== a name`
fn begin_case<'a>(alloc: Global, runner: &mut Runner<'a>, word: &str) -> Result<bool, AllocError> {
    runner.devices.clear();
    for _ in 0..4 {
        runner.devices.push(Vec::new(alloc))?;
    }
    Ok(word == "==" && !runner.faults.any)
}

// `$ run` or `$$ run`
fn begin_step<'a>(runner: &mut Runner<'a>, word: &str, rest: &'a str) -> bool {
    runner.step_line = runner.line;
    runner.arguments = rest;
    runner.kind = match word {
        "$" => Kind::Step,
        "$$" => Kind::Table,
        _ => return false,
    };
    match rest.split_once(" at each ") {
        Some((arguments, target)) => begin_sweep(runner, arguments, target),
        None => !runner.devices.is_empty(),
    }
}

// `$ run at each call`, which takes no other faults.
fn begin_sweep<'a>(runner: &mut Runner<'a>, arguments: &'a str, target: &str) -> bool {
    let is_step = matches!(runner.kind, Kind::Step);
    let Some(target) = CallKind::of(target) else {
        return false;
    };
    runner.arguments = arguments;
    runner.kind = Kind::Sweep(target);
    is_step && !runner.faults.any && !runner.devices.is_empty()
}

fn push_input<'a>(
    alloc: Global,
    runner: &mut Runner<'a>,
    word: &str,
    rest: &str,
) -> Result<bool, AllocError> {
    match runner.kind {
        Kind::Nothing => Ok(false),
        _ => push_piece(alloc, &mut runner.input, word.strip_prefix('<'), rest),
    }
}

fn push_output<'a>(
    alloc: Global,
    runner: &mut Runner<'a>,
    word: &str,
    rest: &str,
) -> Result<bool, AllocError> {
    match runner.kind {
        Kind::Step | Kind::Sweep(_) => push_piece(
            alloc,
            &mut runner.expected_output,
            word.strip_prefix('>'),
            rest,
        ),
        _ => Ok(false),
    }
}

// Appends a line of input or output. In its mark a star asks for copies, and a dash for no line feed.
fn push_piece(
    alloc: Global,
    bytes: &mut Vec<u8>,
    kind: Option<&str>,
    rest: &str,
) -> Result<bool, AllocError> {
    match kind {
        Some("") => push_line(bytes, rest)?,
        Some("-") => push_text(bytes, rest)?,
        Some("*") => return push_copies(alloc, bytes, rest, b"\n"),
        Some("*-") => return push_copies(alloc, bytes, rest, b""),
        _ => return Ok(false),
    }
    Ok(true)
}

// `! 3 damaged log 45 Short`
fn set_end<'a>(runner: &mut Runner<'a>, word: &str, rest: &'a str) -> bool {
    runner.expected_end = rest;
    matches!(runner.kind, Kind::Step) && word == "!"
}

// A row of a table, or a line of a dump in a sweep.
fn read_row<'a, RT: Threads + Wait + Sync>(
    rt: &RT,
    alloc: Global,
    runner: &mut Runner<'a>,
    line: &str,
) -> Result<bool, AllocError> {
    match runner.kind {
        Kind::Table => run_row(rt, alloc, runner, line),
        Kind::Sweep(_) => read_dump(alloc, &mut runner.dumps, line),
        _ => Ok(false),
    }
}

// `2> 1 (2)`
fn read_dump(alloc: Global, dumps: &mut Vec<Vec<u8>>, line: &str) -> Result<bool, AllocError> {
    let Some((count, text)) = line.split_once("> ") else {
        return Ok(false);
    };
    match number(count) {
        Some(count) => push_dump(alloc, dumps, count as usize, text),
        None => Ok(false),
    }
}

fn push_dump(
    alloc: Global,
    dumps: &mut Vec<Vec<u8>>,
    count: usize,
    text: &str,
) -> Result<bool, AllocError> {
    if dumps.len() == count {
        dumps.push(Vec::new(alloc))?;
    }
    match dumps.get_mut(count) {
        Some(dump) => push_line(dump, text)?,
        None => return Ok(false),
    }
    Ok(true)
}

// Runs the step that has been read, and clears it.
fn finish<'a, RT: Threads + Wait + Sync>(
    rt: &RT,
    alloc: Global,
    runner: &mut Runner<'a>,
) -> Result<(), AllocError> {
    let passed = match runner.kind {
        Kind::Nothing => return Ok(()),
        Kind::Step => run_step(rt, alloc, runner)?,
        Kind::Sweep(target) => sweep(rt, alloc, runner, target)?,
        Kind::Table => false,
    };
    runner.record(passed);
    forget(runner);
    Ok(())
}

fn forget<'a>(runner: &mut Runner<'a>) {
    runner.kind = Kind::Nothing;
    runner.expected_end = "0";
    runner.faults = StepFaults::none();
    runner.input.clear();
    runner.expected_output.clear();
    runner.dumps.clear();
}
