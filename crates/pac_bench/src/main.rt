//! Micro-benchmarks of single parts of the database, for the figures of docs/COSTS.md. Each runs a part for a number of rounds,
//! so that it can be timed from outside, and prints how much was done.
//!
//! The arguments are a part and a number of rounds. In a round of `write`, `read` and `copy` a body of 1,024 calls is made of
//! its transactions, read into them, or copied as it stands, which is what the other two are compared with. In one of
//! `table`, `tables` and `chain` the graph is made of a catalogue with 4,096 operations: all on one table, on 64 tables,
//! or each with the value of the one before it.
//!
//! `commit`, `commits` and `fill` make a log in the file `pac_bench.log`, which must not be there, and a round commits a
//! batch of one, of 64, or of as many transactions and records as there may be. `scan` reads up to that many batches of it. `save`
//! saves a checkpoint of that many rows of eight texts of 64 bytes to the file `pac_bench.a`.
//!
//! A round of `few` and of `many` executes 1,000 transactions, each of which puts a row where one is, over a table of 10 and
//! of 100,000 rows; `few_limited` and `many_limited` test a limit of 1,000,000 rows after each.
//!
//! A round of `txns` makes 1,000 transactions of the stress test. `sets` makes the pieces of their batch too, `accesses` the
//! accesses of those whose inputs are arguments, and `pairs` the next pairs of these. A round of `queue` and of `long_queue`
//! makes the next pairs of 1,024 and of 2,048 pieces that modify one row; the pairs of a round are printed.
//! One of `hand_one` and of `hand_four` hands out 1,024 pieces over atomic words, to one and to four threads. `locked_one` and
//! `locked_four` have as many workers take 1,024 pieces under the lock of a core, each of which puts a row of its own.
//!
//! `replay` reads the script in standard input. A round executes its transactions one after another over hashed tables, and makes
//! the dump: what the command of this name does, without pieces and workers.
#![tactic(auto)]

mod body;
mod graph;
mod hand;
mod locked;
mod log;
mod part;
mod pieces;
mod rows;
mod serial;
mod slot;

use pac_outside::{FileDisk, Stream};
use part::{Part, PartError};
use std::env::Env;
use std::process::ExitCode;
use std::sync::Wait;
use std::thread::Threads;
use std::{env, io};

const USAGE: &str =
    "usage: pac_bench write|read|copy|table|tables|chain|commit|commits|fill|scan|save|few|few_limited|many|many_limited|txns|sets|accesses|pairs|queue|long_queue|hand_one|hand_four|locked_one|locked_four|replay ROUNDS";

// The part and the rounds that the arguments ask for.
fn asked(words: &[String]) -> Option<(Part, u32)> {
    let [part, rounds] = words else {
        return None;
    };
    Some((Part::named(part.as_str())?, rounds.parse::<u32>().ok()?))
}

// Runs a part for a number of rounds; returns how much was done.
fn make<H: Threads + Wait + Sync>(
    rt: &HostRuntime,
    threads: &H,
    part: Part,
    rounds: u32,
) -> Result<u64, PartError> {
    let alloc = rt.alloc();
    let mut disk = FileDisk::new(rt, "pac_bench.log"); // nothing is opened yet
    match part {
        Part::Write => body::write(alloc, rounds),
        Part::Read => body::read(alloc, rounds),
        Part::Copy => body::copy(alloc, rounds),
        Part::Graph(shape) => graph::make(alloc, shape, rounds),
        Part::Commit(load) => log::commit(alloc, &mut disk, load, rounds),
        Part::Scan => log::scan(alloc, &mut disk, rounds),
        Part::Save => slot::save(
            alloc,
            &mut FileDisk::new(rt, "pac_bench.a"),
            &mut FileDisk::new(rt, "pac_bench.b"),
            rounds,
        ),
        Part::Execute(held) => rows::execute(alloc, held, rounds),
        Part::Pieces(depth) => pieces::make(alloc, depth, rounds),
        Part::Queue { pieces } => pieces::queue(alloc, pieces, rounds),
        Part::HandToOne => hand::make(threads, alloc, 1, rounds),
        Part::HandToFour => hand::make(threads, alloc, 4, rounds),
        Part::LockedByOne => locked::make(threads, alloc, 1, rounds),
        Part::LockedByFour => locked::make(threads, alloc, 4, rounds),
        Part::Replay => serial::replay(alloc, &mut Stream::new(rt.stdin()), rounds),
    }
}

fn main(rt: HostRuntime) -> io::Result<ExitCode> {
    let words: Vec<String> = env::args(&rt)?.skip(1).collect(rt.alloc())?;
    let Some((part, rounds)) = asked(&words) else {
        eprintln!(rt; "{USAGE}")?;
        return Ok(ExitCode::FAILURE);
    };
    match make(&rt, &rt, part, rounds) {
        Ok(count) => {
            println!(rt; "{count} {}", part.unit())?;
            Ok(ExitCode::SUCCESS)
        }
        Err(error) => {
            eprintln!(rt; "{error}")?;
            Ok(ExitCode::FAILURE)
        }
    }
}
