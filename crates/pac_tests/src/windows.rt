// Windows of a log: how many batches each of them has, why it ends, and that all of them give the same tables.
ghost use Rattle.std.specs.Prelude.{◌≤◌};

use crate::recoveries::{THREE_LINES, is_stored};
use crate::replays::no_devices;
use pac_log::LogReader;
use pac_outside::{Devices, MemDisk, OpenGate};
use pac_recover::{FeedEnd, LogFeed, recover_by_windows};
use pac_report::dump;
use pac_workers::{Feed, GhostList};
use std::alloc::Global;
use std::sync::Wait;
use std::test::Fail;
use std::thread::Threads;

// How many batches the next window of `window` bytes has, and why it ends; `None` after eight of them.
fn next_window(reader: &mut LogReader, log: &mut MemDisk, window: u64) -> Option<(u64, FeedEnd)> {
    if window == 0 {
        return None;
    }
    let mut so_far = GhostList::new();
    let mut feed = LogFeed::new(reader, log, &mut so_far, window);
    for batches in 0..8 {
        if feed.next().is_none() {
            return Some((batches, feed.end()));
        }
    }
    None
}

// Whether the windows of a log are these, up to its end.
fn are_windows(alloc: Global, log: &mut MemDisk, window: u64, expected: &[(u64, FeedEnd)]) -> bool {
    let Ok(mut reader) = LogReader::attach(alloc, log) else {
        return false;
    };
    for one in expected {
        if next_window(&mut reader, log, window) != Some(*one) {
            return false;
        }
    }
    true
}

// The bodies of the bank's three batches have 39, 32 and 30 bytes.
const ROWS: &[(u64, &[(u64, FeedEnd)])] = &[
    (
        1,
        &[
            (1, FeedEnd::Window),
            (1, FeedEnd::Window),
            (1, FeedEnd::Window),
            (0, FeedEnd::End),
        ],
    ),
    (50, &[(2, FeedEnd::Window), (1, FeedEnd::End)]),
    (101, &[(3, FeedEnd::Window), (0, FeedEnd::End)]),
    (102, &[(3, FeedEnd::End)]),
];

#[test]
fn a_log_is_fed_window_by_window(rt: HostRuntime) -> Result<(), Fail> {
    let alloc = rt.alloc();
    let mut devices = no_devices(alloc);
    assert!(rt; is_stored(&rt, alloc, THREE_LINES.as_bytes(), &mut devices)?);
    for (window, expected) in ROWS {
        let is = are_windows(alloc, &mut devices.log, *window, expected);
        assert!(rt; is, "windows of {window} bytes");
    }
    Ok(())
}

// The dump of the tables that two workers recover by windows of `window` bytes. `None`: none are recovered.
fn recovered_text<H: Threads + Wait + Sync>(
    rt: &H,
    alloc: Global,
    window: u64,
    devices: &mut Devices<MemDisk>,
) -> Option<Vec<u8>>
    requires { 1 ≤ window }
{
    let Ok(found) = recover_by_windows(rt, alloc, 2, window, 1_000, devices, &OpenGate) else {
        return None;
    };
    dump(alloc, &found.catalogue, &found.tables).ok()
}

// Whether these tables are recovered by windows of `window` bytes.
fn is_recovered<H: Threads + Wait + Sync>(
    rt: &H,
    alloc: Global,
    window: u64,
    devices: &mut Devices<MemDisk>,
    expected: &str,
) -> bool {
    if window == 0 {
        return false;
    }
    match recovered_text(rt, alloc, window, devices) {
        Some(text) => text.as_slice() == expected.as_bytes(),
        None => false,
    }
}

const SIZES: &[u64] = &[1, 50, 101];

const THREE_TABLES: &str = "table Family 1
1 (2)
table Current 2
1 (60)
2 (40)
table Saving 1
1 (1)
table Stats 1
7 (1)
";

#[test]
fn windows_of_any_size_give_the_same_tables(rt: HostRuntime) -> Result<(), Fail> {
    let alloc = rt.alloc();
    let mut devices = no_devices(alloc);
    assert!(rt; is_stored(&rt, alloc, THREE_LINES.as_bytes(), &mut devices)?);
    for window in SIZES {
        let is = is_recovered(&rt, alloc, *window, &mut devices, THREE_TABLES);
        assert!(rt; is, "windows of {window} bytes");
    }
    Ok(())
}

// A checkpoint after ten calls, and five more in the log.
const TEN_SAVED: &str = "call Deposit(1, 1, 7)
call Deposit(1, 1, 7)
call Deposit(1, 1, 7)
call Deposit(1, 1, 7)
call Deposit(1, 1, 7)
call Deposit(1, 1, 7)
call Deposit(1, 1, 7)
call Deposit(1, 1, 7)
call Deposit(1, 1, 7)
call Deposit(1, 1, 7)
save
call Deposit(1, 1, 7)
call Deposit(1, 1, 7)
call Deposit(1, 1, 7)
call Deposit(1, 1, 7)
call Deposit(1, 1, 7)
stop
";

const FIFTEEN_TABLES: &str = "table Family 0
table Current 1
1 (15)
table Saving 0
table Stats 1
7 (15)
";

#[test]
fn windows_of_any_size_begin_at_the_checkpoint(rt: HostRuntime) -> Result<(), Fail> {
    let alloc = rt.alloc();
    let mut devices = no_devices(alloc);
    assert!(rt; is_stored(&rt, alloc, TEN_SAVED.as_bytes(), &mut devices)?);
    for window in SIZES {
        let is = is_recovered(&rt, alloc, *window, &mut devices, FIFTEEN_TABLES);
        assert!(rt; is, "windows of {window} bytes");
    }
    Ok(())
}
