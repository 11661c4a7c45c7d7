// The calls of one command each, over sinks that take one byte a call.
use crate::streams::OneByte;
use pac_main::{ArgumentsError, explain_command, init_command, refuse_arguments, run_command};
use pac_outside::{Devices, Disk, MemDisk, MemSink, MemSource};
use std::alloc::{AllocError, Global};
use std::test::Fail;

/// What a command reads and writes.
#[derive(Drop)]
pub(crate) struct Streams {
    pub input: MemSource,
    pub output: OneByte,
    pub errors: OneByte,
}

fn sink_of(alloc: Global) -> OneByte {
    OneByte {
        inner: MemSink::new(Vec::new(alloc), Vec::new(alloc)),
    }
}

/// An input, and sinks that hold nothing.
pub(crate) fn streams_over(alloc: Global, input: Vec<u8>) -> Streams {
    Streams {
        input: MemSource::new(input, Vec::new(alloc)),
        output: sink_of(alloc),
        errors: sink_of(alloc),
    }
}

fn disk_of(alloc: Global) -> MemDisk {
    MemDisk::new(Vec::new(alloc), Vec::new(alloc))
}

fn empty_devices(alloc: Global) -> Devices<MemDisk> {
    Devices {
        log: disk_of(alloc),
        log_b: disk_of(alloc),
        slot_a: disk_of(alloc),
        slot_b: disk_of(alloc),
    }
}

/// This word alone.
pub(crate) fn arguments_of(alloc: Global, word: &str) -> Result<Vec<String>, AllocError> {
    let mut arguments = Vec::new(alloc);
    arguments.push(String::from_str(alloc, word)?)?;
    Ok(arguments)
}

// What the command of this one word answers.
fn status_of<D: Disk>(
    alloc: Global,
    arguments: &[String],
    streams: &mut Streams,
    devices: &mut Devices<D>,
) -> u8 {
    let Streams {
        input,
        output,
        errors,
    } = streams;
    match arguments.first() {
        Some(word) if word.as_str() == "init" => init_command(
            alloc, arguments, input, errors, devices,
        ),
        Some(word) if word.as_str() == "run" => {
            run_command(alloc, arguments, input, output, errors, devices)
        }
        _ => explain_command(alloc, arguments, input, output, errors),
    }
}

/// Whether these are the status, the output and the line on the error sink.
pub(crate) fn has_ended(status: u8, streams: &Streams, end: (u8, &str, &str)) -> bool {
    status == end.0
        && streams.output.inner.bytes() == end.1.as_bytes()
        && streams.errors.inner.bytes() == end.2.as_bytes()
}

// Whether the command ends with this status, output and line over the streams.
fn command_ends<D: Disk>(
    alloc: Global,
    word: &str,
    streams: &mut Streams,
    devices: &mut Devices<D>,
    end: (u8, &str, &str),
) -> Result<bool, AllocError> {
    let arguments = arguments_of(alloc, word)?;
    let status = status_of(alloc, &arguments, streams, devices);
    Ok(has_ended(status, streams, end))
}

/// Whether a command ends with this status, output and line over this input.
pub fn ends<D: Disk>(
    alloc: Global,
    word: &str,
    input: Vec<u8>,
    devices: &mut Devices<D>,
    end: (u8, &str, &str),
) -> Result<bool, AllocError> {
    let mut streams = streams_over(alloc, input);
    command_ends(alloc, word, &mut streams, devices, end)
}

const TABLE: &str = "table T(key int, v int);";

const LINES: &str = "adhoc put T[1] = (2)\nflush\nadhoc put T[3] = (4)\n";

// The command, the input, and how it ends on what the commands before it leave.
const STEPS: &[(&str, &str, (u8, &str, &str))] = &[
    ("init", TABLE, (0, "", "")),
    ("init", TABLE, (3, "", "not empty log 37\n")),
    ("run", LINES, (0, "committed 1\ncommitted 2\n", "")),
    ("run", "show T[3]\n", (0, "T[3] = (4)\n", "")),
    ("explain", TABLE, (0, "block 0: table T\n", "")),
];

fn step_ends(
    alloc: Global,
    devices: &mut Devices<MemDisk>,
    step: &(&str, &str, (u8, &str, &str)),
) -> Result<bool, AllocError> {
    let input = step.1.as_bytes().to_vec(alloc)?;
    ends(alloc, step.0, input, devices, step.2)
}

// How many steps end as expected before the first that doesn't.
fn count_right(alloc: Global, devices: &mut Devices<MemDisk>) -> Result<usize, AllocError> {
    let mut count = 0usize;
    for step in STEPS {
        if !step_ends(alloc, devices, step)? {
            return Ok(count);
        }
        count = count.saturating_add(1);
    }
    Ok(count)
}

fn count_on_new_devices(alloc: Global) -> Result<usize, AllocError> {
    let mut devices = empty_devices(alloc);
    count_right(alloc, &mut devices)
}

#[test]
fn three_commands_have_calls_of_their_own(rt: HostRuntime) -> Result<(), Fail> {
    assert_eq!(rt; count_on_new_devices(rt.alloc())?, STEPS.len());
    Ok(())
}

#[test]
fn an_error_of_arguments_is_refused(rt: HostRuntime) {
    let mut errors = sink_of(rt.alloc());
    let status = refuse_arguments(ArgumentsError::NoMemory, &mut errors);
    assert!(rt; status == 9 && errors.inner.bytes() == b"no memory\n".as_slice());
}
