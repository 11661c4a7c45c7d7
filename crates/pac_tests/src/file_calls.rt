// What a disk over a file asks of its system, over files that note each call.
use crate::recorder::{Recorder, Recording};
use pac_outside::{Disk, Failed, FileDisk};
use std::test::Fail;

const LOG: &str = "log";

// A file that moves three bytes a call.
const SHORT: &str = "open log Make
flock log
open . Read
fsync .
pwrite log 0 3
pwrite log 3 3
pwrite log 6 1
fdatasync log
fdatasync log
";

fn is_written_on<D: Disk>(disk: &mut D) -> bool {
    let mut buf = [b'-'; 9];
    disk.sync() == Ok(())
        && disk.len() == Ok(0)
        && disk.write_at(0, b"abcdefg") == Ok(())
        && disk.sync() == Ok(())
        && disk.sync() == Ok(())
        && disk.read(1, &mut buf) == Ok(6)
        && buf.as_slice() == b"bcdefg---".as_slice()
}

fn writes_on(recording: &Recording<'_>) -> bool {
    let mut disk = FileDisk::new(recording, LOG);
    is_written_on(&mut disk)
}

#[test]
fn a_piece_is_written_and_read_by_as_many_calls_as_it_takes(rt: HostRuntime) {
    let recorder = Recorder::new(rt.alloc(), 3, 0);
    let recording = Recording {
        recorder: &recorder,
    };
    assert!(rt; writes_on(&recording));
    assert!(rt; recorder.has_called(SHORT));
}

// A second disk over the file reads, and neither writes nor syncs.
const LOCKED: &str = "open log Make
flock log
open . Read
fsync .
pwrite log 0 1
open log Read
open log Write
flock log
open log Write
flock log
";

// What comes once the first is dropped.
const FREED: &str = "open log Write
flock log
open . Read
fsync .
pwrite log 1 1
";

fn is_kept_out(recording: &Recording<'_>) -> bool {
    let mut disk = FileDisk::new(recording, LOG);
    disk.len() == Ok(1) && disk.write_at(0, b"x") == Err(Failed) && disk.sync() == Err(Failed)
}

fn keeps_out(recording: &Recording<'_>) -> bool {
    let mut disk = FileDisk::new(recording, LOG);
    disk.write_at(0, b"a") == Ok(()) && is_kept_out(recording)
}

fn goes_on(recording: &Recording<'_>) -> bool {
    let mut disk = FileDisk::new(recording, LOG);
    disk.write_at(1, b"b") == Ok(())
}

#[test]
fn one_disk_writes_a_file_at_a_time(rt: HostRuntime) {
    let recorder = Recorder::new(rt.alloc(), usize::MAX, 0);
    let recording = Recording {
        recorder: &recorder,
    };
    assert!(rt; keeps_out(&recording));
    assert!(rt; recorder.has_called(LOCKED));
    assert!(rt; goes_on(&recording));
    assert!(rt; recorder.has_called(FREED));
}

// The first saw an empty file, which the second wrote before the first came to it.
fn is_late(recording: &Recording<'_>) -> bool {
    let mut first = FileDisk::new(recording, LOG);
    first.len() == Ok(0) && goes_first(recording) && first.write_at(0, b"x") == Err(Failed)
}

fn goes_first(recording: &Recording<'_>) -> bool {
    let mut disk = FileDisk::new(recording, LOG);
    disk.write_at(0, b"a") == Ok(()) && disk.sync() == Ok(())
}

fn still_has_its_byte(recording: &Recording<'_>) -> bool {
    let mut buf = [0u8; 2];
    let mut disk = FileDisk::new(recording, LOG);
    disk.read(0, &mut buf) == Ok(1) && buf[0] == b'a'
}

#[test]
fn a_file_that_another_wrote_meanwhile_is_left_alone(rt: HostRuntime) {
    let recorder = Recorder::new(rt.alloc(), usize::MAX, 0);
    let recording = Recording {
        recorder: &recorder,
    };
    assert!(rt; is_late(&recording));
    assert!(rt; still_has_its_byte(&recording));
}

// The answers of a sync before the file is removed, of one after that, and of a disk that read the file before.
fn syncs_around_removal(
    recorder: &Recorder,
    recording: &Recording<'_>,
    is_exchanged: bool,
) -> [bool; 3] {
    let mut reader = FileDisk::new(recording, LOG);
    let mut disk = FileDisk::new(recording, LOG);
    let before = disk.write_at(0, b"a") == Ok(()) && disk.sync() == Ok(());
    let is_read = reader.len() == Ok(1) && recorder.remove(LOG, is_exchanged).is_ok();
    let after = disk.sync() == Ok(());
    [before && is_read, after, reader.sync() == Ok(())]
}

// Who syncs a file that stands no longer at its path would promise what nobody finds there.
#[test]
fn no_sync_succeeds_of_a_file_that_was_removed_or_exchanged(rt: HostRuntime) {
    for is_exchanged in [false, true] {
        let recorder = Recorder::new(rt.alloc(), usize::MAX, 0);
        let recording = Recording {
            recorder: &recorder,
        };
        let answers = syncs_around_removal(&recorder, &recording, is_exchanged);
        assert_eq!(rt; answers, [true, false, false]);
    }
}

// Whether a file is written, and how many of three syncs of it succeed.
fn write_and_three_syncs(recording: &Recording<'_>) -> (bool, u32) {
    let mut disk = FileDisk::new(recording, LOG);
    let is_written = disk.write_at(0, b"a") == Ok(());
    let mut count = 0u32;
    for _ in 0..3 {
        if disk.sync() == Ok(()) {
            count = count.saturating_add(1);
        }
    }
    (is_written, count)
}

// The folder's sync is the first.
#[test]
fn no_sync_succeeds_after_one_that_failed(rt: HostRuntime) {
    for (failing, end) in [
        (0, (true, 3)),
        (1, (false, 0)),
        (2, (true, 0)),
        (3, (true, 1)),
    ] {
        let recorder = Recorder::new(rt.alloc(), usize::MAX, failing);
        let recording = Recording {
            recorder: &recorder,
        };
        assert_eq!(rt; write_and_three_syncs(&recording), end);
    }
}
