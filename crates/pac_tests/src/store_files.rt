// What the files of a store are asked, call by call, over files that note it.
use crate::commands::ends;
use crate::recorder::{Recorder, Recording};
use pac_outside::store_devices;
use std::alloc::{AllocError, Global};
use std::test::Fail;

const TABLE: &str = "table T(key int, v int);";

const LINES: &str = "adhoc put T[1] = (2)\nsave\n";

const MORE_LINES: &str = "adhoc put T[1] = (2)\nsave\nadhoc put T[1] = (2)\nsave\n";

// A file is made and locked, and its folder synced, before it has a byte.
const INIT: &str = "open pacman.log Make
flock pacman.log
open . Read
fsync .
pwrite pacman.log 0 37
fdatasync pacman.log
open pacman.a Make
flock pacman.a
open . Read
fsync .
pwrite pacman.a 0 1
fdatasync pacman.a
open pacman.b Make
flock pacman.b
open . Read
fsync .
pwrite pacman.b 0 1
fdatasync pacman.b
";

// All is synced before it is read; then a commit, and then a save, which makes the file of the other segment.
const RUN: &str = "open pacman.log Write
flock pacman.log
open . Read
fsync .
fdatasync pacman.log
open pacman.a Write
flock pacman.a
open . Read
fsync .
fdatasync pacman.a
open pacman.b Write
flock pacman.b
open . Read
fsync .
fdatasync pacman.b
pwrite pacman.log 37 33
fdatasync pacman.log
pwrite pacman.log 36 1
fdatasync pacman.log
open pacman.log2 Make
flock pacman.log2
open . Read
fsync .
pwrite pacman.log2 0 45
fdatasync pacman.log2
pwrite pacman.a 1 53
fdatasync pacman.a
pwrite pacman.a 0 1
fdatasync pacman.a
";

// The next run, over four files. Its first save begins a segment in the first file again and opens slot b, and its second closes
// slot a before it begins a segment.
const SAVES: &str = "open pacman.log Write
flock pacman.log
open . Read
fsync .
fdatasync pacman.log
open pacman.log2 Write
flock pacman.log2
open . Read
fsync .
fdatasync pacman.log2
open pacman.a Write
flock pacman.a
open . Read
fsync .
fdatasync pacman.a
open pacman.b Write
flock pacman.b
open . Read
fsync .
fdatasync pacman.b
pwrite pacman.log2 45 33
fdatasync pacman.log2
pwrite pacman.log2 44 1
fdatasync pacman.log2
pwrite pacman.log 0 45
fdatasync pacman.log
pwrite pacman.b 1 53
fdatasync pacman.b
pwrite pacman.b 0 1
fdatasync pacman.b
pwrite pacman.log 45 33
fdatasync pacman.log
pwrite pacman.log 44 1
fdatasync pacman.log
pwrite pacman.a 0 1
fdatasync pacman.a
pwrite pacman.log2 0 45
fdatasync pacman.log2
pwrite pacman.a 1 53
fdatasync pacman.a
pwrite pacman.a 0 1
fdatasync pacman.a
";

// A command, its input, how it ends, and what it calls.
type Step = (
    &'static str,
    &'static str,
    (u8, &'static str, &'static str),
    &'static str,
);

const STEPS: &[Step] = &[
    ("run", LINES, (3, "", "no store\n"), ""),
    ("init", TABLE, (0, "", ""), INIT),
    ("run", LINES, (0, "committed 1\nsaved 1\n", ""), RUN),
    (
        "run",
        MORE_LINES,
        (0, "committed 2\nsaved 2\ncommitted 3\nsaved 3\n", ""),
        SAVES,
    ),
    (
        "init",
        TABLE,
        (3, "", "not empty log 78\n"),
        "open pacman.log Read\n",
    ),
];

fn step_ends(alloc: Global, recorder: &Recorder, step: &Step) -> Result<bool, AllocError> {
    let recording = Recording { recorder };
    let mut devices = store_devices(&recording);
    let input = step.1.as_bytes().to_vec(alloc)?;
    Ok(ends(alloc, step.0, input, &mut devices, step.2)? && recorder.has_called(step.3))
}

// How many steps end as expected before the first that doesn't.
fn count_right(alloc: Global, recorder: &Recorder) -> Result<usize, AllocError> {
    let mut count = 0usize;
    for step in STEPS {
        if !step_ends(alloc, recorder, step)? {
            return Ok(count);
        }
        count = count.saturating_add(1);
    }
    Ok(count)
}

#[test]
fn a_store_is_written_and_synced_in_this_order(rt: HostRuntime) -> Result<(), Fail> {
    let recorder = Recorder::new(rt.alloc(), usize::MAX, 0);
    assert_eq!(rt; count_right(rt.alloc(), &recorder)?, STEPS.len());
    Ok(())
}
