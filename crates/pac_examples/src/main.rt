//! The examples that ship, run as a user runs them, over files. They lie in `data/`, where this runs.
//!
//! Each command stands in the output as in a shell, and after it is what it writes. The store is made in the current folder.
//! The first command whose status isn't 0 is the last, and its status is that of the program.
#![tactic(auto)]

use pac_main::pacman;
use pac_outside::{OpenGate, Sink, Stream, store_devices};
use std::fs::{self, File, Files};
use std::io;
use std::process::ExitCode;
use std::sync::Wait;
use std::thread::Threads;

// The arguments of each command, and the file that is its input.
const COMMANDS: &[(&str, &str)] = &[
    ("replay", "add.script"),
    ("replay", "fill.script"),
    ("explain", "bank.catalogue"),
    ("init", "bank.catalogue"),
    ("run --batch 1", "bank.lines"),
    ("recover", "/dev/null"),
    ("run", "saves.lines"),
    ("recover", "/dev/null"),
];

// Does what the arguments of a line say over this file, and returns the status.
fn run<RT: AllocGlobal + Files<File = File> + Threads + Wait + Sync, O: Sink, E: Sink>(
    rt: &RT,
    line: &str,
    input: &str,
    output: &mut O,
    errors: &mut E,
) -> io::Result<u8> {
    let mut arguments = Vec::new(rt.alloc());
    for word in line.split_whitespace() {
        arguments.push(String::from_str(rt.alloc(), word)?)?;
    }
    let mut input = Stream::new(fs::open(rt, input)?);
    let mut devices = store_devices(rt);
    Ok(pacman(
        rt,
        rt.alloc(),
        &arguments,
        &mut input,
        output,
        errors,
        &mut devices,
        &OpenGate,
    ))
}

fn main(rt: HostRuntime) -> io::Result<ExitCode> {
    let mut output = Stream::new(rt.stdout());
    let mut errors = Stream::new(rt.stderr());
    for (line, input) in COMMANDS {
        println!(rt; "$ pacman {line} < {input}")?;
        let status = run(&rt, line, input, &mut output, &mut errors)?;
        if status != 0 {
            return Ok(ExitCode::from(status));
        }
    }
    Ok(ExitCode::SUCCESS)
}
