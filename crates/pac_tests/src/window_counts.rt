// What workers count of the windows of a log.
ghost use Rattle.std.specs.Prelude.{◌≡◌, ◌≤◌, map};
ghost use Rattle.pac_flat.specs.FlatForm.{program_of};
ghost use Rattle.pac_types.specs.Fits.{FitsCatalogue, shape};

use crate::recoveries::{THREE_LINES, is_stored};
use crate::replays::no_devices;
use pac_base::{Exact, NoMemory};
use pac_core::Executed;
use pac_global::catalogue_plan;
use pac_in_order::execute_feed;
use pac_keys::PlanCode;
use pac_log::LogReader;
use pac_outside::{MemDisk, OpenGate};
use pac_plan::Shared;
use pac_recover::{FeedEnd, LogFeed};
use pac_serial::no_rows;
use pac_tables::HashedRows;
use pac_types::Catalogue;
use pac_workers::GhostList;
use std::alloc::Global;
use std::sync::Wait;
use std::test::Fail;
use std::thread::Threads;

// What workers left of a window: how many of them there were, how many pieces they count together, how many the caller ran, and why
// the window ends.
#[derive(Clone, Copy, Debug, PartialEq, Eq)]
struct Counted {
    tallies: usize,
    finished: u64,
    drained: u64,
    end: FeedEnd,
}

// What workers count of the reader's next window, by the plan of the log's catalogue and over these tables.
fn counted_over<H: Threads + Wait + Sync>(
    rt: &H,
    alloc: Global,
    workers: u32,
    window: u64,
    _cat: &Catalogue,
    plan: Shared<PlanCode>,
    tables: HashedRows,
    reader: &mut LogReader,
    log: &mut MemDisk,
) -> Result<Counted, NoMemory>
    requires workers { 1 ≤ workers }
    requires window { 1 ≤ window }
    requires programs { plan.programs ≡ map program_of _cat.now.procs }
    requires shapes { plan.tables ≡ map shape _cat.now.tables }
    requires same { reader.old.gate.catalogue ≡ _cat.now }
    requires fits { FitsCatalogue _cat.now tables.tables tables.rows }
{
    let first = reader.gate().txns() + 1;
    let mut so_far = GhostList::new();
    let mut feed = LogFeed::new(reader, log, &mut so_far, window);
    let executed = execute_feed(
        rt, alloc, workers, plan, first, tables, &mut feed, &OpenGate,
    )?;
    let Executed {
        tables: _,
        first_note: _,
        tallies,
        drained,
    } = executed;
    let finished = tallies
        .as_slice()
        .iter()
        .fold(0, |sum: u64, tally| sum.saturating_add(*tally));
    Ok(Counted {
        tallies: tallies.as_slice().len(),
        finished,
        drained,
        end: feed.end(),
    })
}

// The same from no rows on: how many pieces there are doesn't depend on rows.
fn counted_in<H: Threads + Wait + Sync>(
    rt: &H,
    alloc: Global,
    workers: u32,
    window: u64,
    reader: &mut LogReader,
    log: &mut MemDisk,
) -> Result<Counted, NoMemory>
    requires workers { 1 ≤ workers }
    requires window { 1 ≤ window }
{
    let cat = reader.gate().catalogue().copy(alloc)?;
    let plan = catalogue_plan(alloc, &cat)?;
    let code = Shared::new(alloc, PlanCode::new(alloc, plan)?)?;
    let rows = no_rows(alloc, &cat)?;
    counted_over(rt, alloc, workers, window, &cat, code, rows, reader, log)
}

// Whether workers count this of the next windows, one after another.
fn are_counts<H: Threads + Wait + Sync>(
    rt: &H,
    alloc: Global,
    workers: u32,
    window: u64,
    log: &mut MemDisk,
    expected: &[(u64, FeedEnd)],
) -> bool {
    let Ok(mut reader) = LogReader::attach(alloc, log) else {
        return false;
    };
    for (finished, end) in expected {
        if workers == 0 || window == 0 {
            return false;
        }
        let all = Counted {
            tallies: workers as usize,
            finished: *finished,
            drained: 0,
            end: *end,
        };
        if counted_in(rt, alloc, workers, window, &mut reader, log) != Ok(all) {
            return false;
        }
    }
    true
}

// The three batches have 4, 1 and 4 pieces, a deposit's, a record's and a transfer's; their bodies have 39, 32 and 30 bytes.
const ROWS: &[(u64, &[(u64, FeedEnd)])] = &[
    (
        1,
        &[
            (4, FeedEnd::Window),
            (1, FeedEnd::Window),
            (4, FeedEnd::Window),
            (0, FeedEnd::End),
        ],
    ),
    (50, &[(5, FeedEnd::Window), (4, FeedEnd::End)]),
    (101, &[(9, FeedEnd::Window), (0, FeedEnd::End)]),
];

#[test]
fn workers_count_each_piece_of_each_window_once(rt: HostRuntime) -> Result<(), Fail> {
    let alloc = rt.alloc();
    let mut devices = no_devices(alloc);
    assert!(rt; is_stored(&rt, alloc, THREE_LINES.as_bytes(), &mut devices)?);
    for workers in [1u32, 2, 4, 16] {
        for (window, expected) in ROWS {
            let are = are_counts(&rt, alloc, workers, *window, &mut devices.log, expected);
            assert!(rt; are, "{workers} workers, windows of {window} bytes");
        }
    }
    Ok(())
}
