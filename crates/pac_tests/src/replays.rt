// Replays and stress tests by workers, through the top call: who passes the gate.
use crate::streams::OneByte;
use pac_main::pacman;
use pac_outside::{Devices, Gate, MemDisk, MemSink, MemSource};
use pac_script::BANK;
use pac_worker_tests::gates::{Logging, Meeting};
use std::alloc::{AllocError, Global};
use std::sync::Wait;
use std::test::Fail;
use std::thread::Threads;

fn push_words(
    alloc: Global,
    arguments: &mut Vec<String>,
    words: &[&str],
) -> Result<(), AllocError> {
    for word in words {
        arguments.push(String::from_str(alloc, word)?)?;
    }
    Ok(())
}

fn arguments_of(alloc: Global, command: &[&str], workers: &str) -> Result<Vec<String>, AllocError> {
    let mut arguments = Vec::new(alloc);
    push_words(alloc, &mut arguments, command)?;
    push_words(alloc, &mut arguments, &["--workers", workers])?;
    Ok(arguments)
}

pub(crate) fn sink_of(alloc: Global) -> OneByte {
    OneByte {
        inner: MemSink::new(Vec::new(alloc), Vec::new(alloc)),
    }
}

fn disk_of(alloc: Global) -> MemDisk {
    MemDisk::new(Vec::new(alloc), Vec::new(alloc))
}

pub(crate) fn no_devices(alloc: Global) -> Devices<MemDisk> {
    Devices {
        log: disk_of(alloc),
        log_b: disk_of(alloc),
        slot_a: disk_of(alloc),
        slot_b: disk_of(alloc),
    }
}

// The status with which a command ends that executes by `workers` workers, each of which passes the gate.
fn executed<H: Threads + Wait + Sync, G: Gate + Sync>(
    rt: &H,
    alloc: Global,
    command: &[&str],
    workers: &str,
    script: Vec<u8>,
    gate: &G,
) -> Result<u8, AllocError> {
    let arguments = arguments_of(alloc, command, workers)?;
    let mut input = MemSource::new(script, Vec::new(alloc));
    let mut output = sink_of(alloc);
    let mut errors = sink_of(alloc);
    let mut devices = no_devices(alloc);
    Ok(pacman(
        rt,
        alloc,
        &arguments,
        &mut input,
        &mut output,
        &mut errors,
        &mut devices,
        gate,
    ))
}

// What follows the bank's catalogue in a script.
const THREE_BATCHES: &str = "---
call Deposit(1, 100, 7)
flush
adhoc put Family[1] = (2)
flush
call Transfer(1, 40)
";

/// The pieces of the bank's three batches, in the order in which one worker runs them.
pub(crate) const IN_ORDER: &[(u64, u16)] = &[
    (1, 2),
    (1, 3),
    (1, 4),
    (1, 5),
    (2, 0),
    (3, 0),
    (3, 1),
    (3, 2),
    (3, 4),
];

fn bank_script(alloc: Global) -> Result<Vec<u8>, AllocError> {
    let mut script = BANK.to_vec(alloc)?;
    script.extend_from_slice(THREE_BATCHES.as_bytes())?;
    Ok(script)
}

#[test]
fn one_worker_passes_in_order(rt: HostRuntime) -> Result<(), Fail> {
    let alloc = rt.alloc();
    let passed = Logging::new(alloc, 16)?;
    let status = executed(&rt, alloc, &["replay"], "1", bank_script(alloc)?, &passed)?;
    assert!(rt; status == 0 && passed.are(IN_ORDER), "status {status}");
    Ok(())
}

const ADD: &str = "table T(key int, v int);
proc Add(k int, n int) { read a = T[k].v default 0; put T[k] = (a + n); }
---
";

// A script with a call of each of the first `keys` keys.
fn many_keys(alloc: Global, keys: u64) -> Result<Vec<u8>, AllocError> {
    let mut script = ADD.as_bytes().to_vec(alloc)?;
    for key in 0..keys {
        let line = format!(in alloc; "call Add({key}, 1)\n")?;
        script.extend_from_slice(line.as_bytes())?;
    }
    Ok(script)
}

#[test]
fn two_workers_are_there_at_once(rt: HostRuntime) -> Result<(), Fail> {
    let alloc = rt.alloc();
    let held = Meeting::new();
    let status = executed(
        &rt,
        alloc,
        &["replay"],
        "2",
        many_keys(alloc, 1_024)?,
        &held,
    )?;
    assert!(rt; status == 0 && held.have_met(), "status {status}");
    Ok(())
}

// The blocks in which a transaction of the stress test has pieces: a put of `Family` in one, a call of `Transfer` or `Deposit` in
// four each.
fn blocks_of(txn: u64) -> &'static [u16] {
    match txn % 8 {
        0 => &[0],
        1..=3 => &[0, 1, 2, 4],
        _ => &[2, 3, 4, 5],
    }
}

// Whether a transaction has a piece in each of these blocks that passed once.
fn are_once(passed: &Logging, txn: u64, blocks: &[u16]) -> bool {
    for block in blocks {
        if passed.times(txn, *block) != 1 {
            return false;
        }
    }
    true
}

fn is_each_once(passed: &Logging, txns: u64) -> bool {
    for before in 0..txns {
        let txn = before.saturating_add(1);
        if !are_once(passed, txn, blocks_of(txn)) {
            return false;
        }
    }
    true
}

#[test]
fn one_worker_passes_with_each_piece_of_a_stress_test_once(rt: HostRuntime) -> Result<(), Fail> {
    let alloc = rt.alloc();
    let passed = Logging::new(alloc, 256)?;
    let status = executed(&rt, alloc, &["stress", "64"], "1", Vec::new(alloc), &passed)?;
    let count = passed.count();
    assert!(rt;
        status == 0 && count == 232 && is_each_once(&passed, 64),
        "status {status}"
    );
    Ok(())
}

#[test]
fn two_workers_are_there_at_once_in_a_stress_test(rt: HostRuntime) -> Result<(), Fail> {
    let alloc = rt.alloc();
    let held = Meeting::new();
    let status = executed(&rt, alloc, &["stress", "64"], "2", Vec::new(alloc), &held)?;
    assert!(rt; status == 0 && held.have_met(), "status {status}");
    Ok(())
}
