//! Runs the case files in `data/`, which are transcripts of the program. `docs/CASES.md` says how to write one.
//!
//! `args` names the files. Standard output gets a line for each with the number of steps that went as expected. Differences go to
//! standard error, and the status is then 1.
#![tactic(auto)]

mod call;
mod device;
mod disks;
mod faults;
mod report;
mod runner;
mod step;
mod sweep;
mod table;
mod text;
mod workers;

use pac_outside::{Failed, Stream, write_all};
use runner::run_file;
use std::env::Env;
use std::fs::{self, Files};
use std::process::ExitCode;
use std::sync::Wait;
use std::thread::Threads;
use std::{env, io};

// The names of the case files.
fn names<R: Env + Alloc>(rt: &R) -> io::Result<Vec<String<R::A>, R::A>> {
    Ok(env::args(rt)?.skip(1).collect(rt.alloc())?)
}

// Runs the case file with this name.
fn run_named<RT: AllocGlobal + Files + Threads + Wait + Sync>(
    rt: &RT,
    name: &str,
    summary: &mut Vec<u8>,
    report: &mut Vec<u8>,
) -> io::Result<()> {
    let text = fs::read_to_string(rt, name)?;
    run_file(rt, rt.alloc(), name, &text, summary, report)?;
    Ok(())
}

fn run_all<RT: AllocGlobal + Env + Files + Threads + Wait + Sync>(
    rt: &RT,
    summary: &mut Vec<u8>,
    report: &mut Vec<u8>,
) -> io::Result<()> {
    for name in names(rt)? {
        run_named(rt, &name, summary, report)?;
    }
    Ok(())
}

fn write(rt: &HostRuntime, summary: &[u8], report: &[u8]) -> Result<(), Failed> {
    write_all(&mut Stream::new(rt.stdout()), summary)?;
    write_all(&mut Stream::new(rt.stderr()), report)
}

fn main(rt: HostRuntime) -> io::Result<ExitCode> {
    let mut summary = Vec::new(rt.alloc());
    let mut report = Vec::new(rt.alloc());
    run_all(&rt, &mut summary, &mut report)?;
    if write(&rt, &summary, &report).is_ok() && report.is_empty() {
        return Ok(ExitCode::SUCCESS);
    }
    Ok(ExitCode::FAILURE)
}
