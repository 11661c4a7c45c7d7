// One call of the program. Its streams and devices are plain bytes before and after the call.
ghost use Rattle.std.specs.Prelude.{Some};

use crate::disks::{LentDisk, Outage};
use crate::faults::{Failing, StepFaults};
use pac_main::pacman;
use pac_outside::{Devices, Failed, Gate, MemDisk, MemSink, MemSource, Sink, Source};
use std::alloc::{AllocError, Global};
use std::sync::Wait;
use std::sync::atomic::{AtomicU64, Ordering};
use std::thread::Threads;

/// How a call ended.
#[derive(Drop)]
pub struct Ending {
    pub status: u8,
    /// How many reads of the input it made, how many writes of the output, and how many device calls.
    pub reads: u64,
    pub writes: u64,
    pub disk_calls: u64,
    pub output: Vec<u8>,
    pub errors: Vec<u8>,
}

impl Ending {
    pub fn new(alloc: Global) -> Ending {
        Ending {
            status: 0,
            reads: 0,
            writes: 0,
            disk_calls: 0,
            output: Vec::new(alloc),
            errors: Vec::new(alloc),
        }
    }
}

/// A source that counts its reads.
#[derive(Drop)]
struct CountedSource {
    inner: MemSource,
    reads: u64,
}

impl Source for CountedSource {
    ghost left = { λ source. Some source.inner.left };

    ghost faults = { λ source. source.inner.calls.faults };

    fn read(&mut self, buf: &mut [u8]) -> Result<usize, Failed> {
        self.reads = self.reads.saturating_add(1);
        self.inner.read(buf)
    }
}

/// A sink that counts its writes.
#[derive(Drop)]
struct CountedSink {
    inner: MemSink,
    writes: u64,
}

impl Sink for CountedSink {
    ghost held = { λ sink. Some sink.inner.held };

    ghost faults = { λ sink. sink.inner.calls.faults };

    fn write(&mut self, piece: &[u8]) -> Result<usize, Failed> {
        self.writes = self.writes.saturating_add(1);
        self.inner.write(piece)
    }
}

#[derive(Drop)]
struct Streams {
    input: CountedSource,
    output: CountedSink,
    errors: MemSink,
}

// How many calls of a stream fail under `on`. No command makes more of them once one has failed.
const LASTING: u64 = 100;

// The numbers of the failing calls.
fn calls_of(alloc: Global, failing: Failing) -> Result<Vec<u64>, AllocError> {
    let count = if failing.lasts { LASTING } else { 1 };
    let mut calls = Vec::new(alloc);
    push_calls(&mut calls, failing.call, count)?;
    Ok(calls)
}

fn push_calls(calls: &mut Vec<u64>, first: u64, count: u64) -> Result<(), AllocError> {
    for number in 0..count {
        calls.extend_from_slice(&[first.saturating_add(number)])?;
    }
    Ok(())
}

fn source_of(alloc: Global, input: &[u8], failing: Failing) -> Result<MemSource, AllocError> {
    let bytes = input.to_vec(alloc)?;
    Ok(MemSource::new(bytes, calls_of(alloc, failing)?))
}

fn sink_of(alloc: Global, failing: Failing) -> Result<MemSink, AllocError> {
    Ok(MemSink::new(Vec::new(alloc), calls_of(alloc, failing)?))
}

fn streams_of(alloc: Global, input: &[u8], faults: StepFaults) -> Result<Streams, AllocError> {
    Ok(Streams {
        input: CountedSource {
            inner: source_of(alloc, input, faults.read)?,
            reads: 0,
        },
        output: CountedSink {
            inner: sink_of(alloc, faults.write)?,
            writes: 0,
        },
        errors: sink_of(alloc, faults.error)?,
    })
}

/// A gate that counts how often it is entered.
#[derive(Drop)]
struct CountingGate {
    entered: AtomicU64,
}

impl Gate for CountingGate {
    fn enter(&self, _worker: u32, _txn: u64, _block: u16) {
        self.entered.fetch_add(1, Ordering::SeqCst);
    }
}

// The arguments on a line; `-` stands for none.
fn arguments_of(alloc: Global, line: &str) -> Result<Vec<String>, AllocError> {
    let mut arguments = Vec::new(alloc);
    if line != "-" {
        push_arguments(alloc, &mut arguments, line)?;
    }
    Ok(arguments)
}

fn push_arguments(
    alloc: Global,
    arguments: &mut Vec<String>,
    line: &str,
) -> Result<(), AllocError> {
    for argument in line.split_whitespace() {
        arguments.push(String::from_str(alloc, argument)?)?;
    }
    Ok(())
}

fn disk_of(alloc: Global, bytes: &[u8]) -> Result<MemDisk, AllocError> {
    Ok(MemDisk::new(bytes.to_vec(alloc)?, Vec::new(alloc)))
}

fn disks_of(alloc: Global, devices: &[Vec<u8>]) -> Result<Vec<MemDisk>, AllocError> {
    let mut disks = Vec::new(alloc);
    for bytes in devices {
        disks.push(disk_of(alloc, bytes)?)?;
    }
    Ok(disks)
}

// Sets the bytes of the devices to the images of the disks.
fn set_images(
    devices: &mut Vec<Vec<u8>>,
    disks: &[MemDisk],
    faults: StepFaults,
) -> Result<(), AllocError> {
    devices.clear();
    for disk in disks {
        match disk.image(faults.fill, faults.grown) {
            Ok(image) => devices.push(image)?,
            Err(_) => return Err(AllocError),
        }
    }
    Ok(())
}

/// Calls the program with the arguments on a line, this input and these devices. The devices then have the image that the
/// faults ask for.
pub fn call<RT: Threads + Wait + Sync>(
    rt: &RT,
    alloc: Global,
    line: &str,
    input: &[u8],
    devices: &mut Vec<Vec<u8>>,
    faults: StepFaults,
    outcome: &mut Ending,
) -> Result<(), AllocError> {
    let mut streams = streams_of(alloc, input, faults)?;
    call_streams(rt, alloc, line, &mut streams, devices, faults, outcome)
}

fn call_streams<RT: Threads + Wait + Sync>(
    rt: &RT,
    alloc: Global,
    line: &str,
    streams: &mut Streams,
    devices: &mut Vec<Vec<u8>>,
    faults: StepFaults,
    outcome: &mut Ending,
) -> Result<(), AllocError> {
    let mut disks = disks_of(alloc, devices)?;
    call_disks(rt, alloc, line, streams, &mut disks, faults, outcome)?;
    set_images(devices, &disks, faults)?;
    take_streams(streams, outcome)
}

fn take_streams(streams: &Streams, outcome: &mut Ending) -> Result<(), AllocError> {
    outcome.reads = streams.input.reads;
    outcome.writes = streams.output.writes;
    set_bytes(&mut outcome.output, streams.output.inner.bytes())?;
    set_bytes(&mut outcome.errors, streams.errors.bytes())
}

fn set_bytes(bytes: &mut Vec<u8>, others: &[u8]) -> Result<(), AllocError> {
    bytes.clear();
    bytes.extend_from_slice(others)
}

fn call_disks<RT: Threads + Wait + Sync>(
    rt: &RT,
    alloc: Global,
    line: &str,
    streams: &mut Streams,
    disks: &mut [MemDisk],
    faults: StepFaults,
    outcome: &mut Ending,
) -> Result<(), AllocError> {
    let arguments = arguments_of(alloc, line)?;
    let outage = Outage::new(faults.disk);
    outcome.status = call_four(rt, alloc, &arguments, streams, disks, &outage);
    outcome.disk_calls = outage.made();
    Ok(())
}

// The status, or 255 if there aren't four disks.
fn call_four<RT: Threads + Wait + Sync>(
    rt: &RT,
    alloc: Global,
    arguments: &[String],
    streams: &mut Streams,
    disks: &mut [MemDisk],
    outage: &Outage,
) -> u8 {
    match disks {
        [log, log_b, slot_a, slot_b] => {
            let mut devices = Devices {
                log: LentDisk::new(log, outage),
                log_b: LentDisk::new(log_b, outage),
                slot_a: LentDisk::new(slot_a, outage),
                slot_b: LentDisk::new(slot_b, outage),
            };
            call_program(rt, alloc, arguments, streams, &mut devices)
        }
        _ => 255,
    }
}

// The status, or 254 if a command without workers entered the gate.
fn call_program<RT: Threads + Wait + Sync>(
    rt: &RT,
    alloc: Global,
    arguments: &[String],
    streams: &mut Streams,
    devices: &mut Devices<LentDisk<'_>>,
) -> u8 {
    let gate = CountingGate {
        entered: AtomicU64::new(0),
    };
    let status = pacman(
        rt,
        alloc,
        arguments,
        &mut streams.input,
        &mut streams.output,
        &mut streams.errors,
        devices,
        &gate,
    );
    if gate.entered.load(Ordering::SeqCst) == 0 || has_workers(arguments) {
        status
    } else {
        254
    }
}

// Whether the arguments are those of a command that executes transactions by workers.
fn has_workers(arguments: &[String]) -> bool {
    match arguments.first() {
        Some(word) => matches!(word.as_str(), "replay" | "recover" | "stress"),
        None => false,
    }
}
