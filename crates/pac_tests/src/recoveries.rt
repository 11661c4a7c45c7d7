// Recoveries by workers, through the top call: who passes the gate, and what they write.
use crate::replays::{IN_ORDER, no_devices, sink_of};
use pac_main::pacman;
use pac_outside::{Devices, Gate, MemDisk, MemSource, OpenGate};
use pac_script::BANK;
use pac_worker_tests::gates::{Logging, Meeting};
use std::alloc::{AllocError, Global};
use std::sync::Wait;
use std::test::Fail;
use std::thread::Threads;

const ADD: &str = "table T(key int, v int);
proc Add(k int, n int) { read a = T[k].v default 0; put T[k] = (a + n); }
";

fn arguments_of(alloc: Global, words: &[&str]) -> Result<Vec<String>, AllocError> {
    let mut arguments = Vec::new(alloc);
    for word in words {
        arguments.push(String::from_str(alloc, word)?)?;
    }
    Ok(arguments)
}

// The status with which a command ends over these devices.
fn ended<H: Threads + Wait + Sync, G: Gate + Sync>(
    rt: &H,
    alloc: Global,
    words: &[&str],
    text: Vec<u8>,
    devices: &mut Devices<MemDisk>,
    gate: &G,
) -> Result<u8, AllocError> {
    let arguments = arguments_of(alloc, words)?;
    let mut input = MemSource::new(text, Vec::new(alloc));
    let mut output = sink_of(alloc);
    let mut errors = sink_of(alloc);
    Ok(pacman(
        rt,
        alloc,
        &arguments,
        &mut input,
        &mut output,
        &mut errors,
        devices,
        gate,
    ))
}

// A call of each of the first `keys` keys.
fn calls_of(alloc: Global, keys: u64) -> Result<Vec<u8>, AllocError> {
    let mut lines = Vec::new(alloc);
    for key in 0..keys {
        let line = format!(in alloc; "call Add({key}, 1)\n")?;
        lines.extend_from_slice(line.as_bytes())?;
    }
    Ok(lines)
}

// The status with which two workers recover a store whose log has a call of each of 1,024 keys.
fn recovered<H: Threads + Wait + Sync>(
    rt: &H,
    alloc: Global,
    devices: &mut Devices<MemDisk>,
    held: &Meeting,
) -> Result<u8, AllocError> {
    let made = ended(
        rt,
        alloc,
        &["init"],
        ADD.as_bytes().to_vec(alloc)?,
        devices,
        held,
    )?;
    let stored = ended(rt, alloc, &["run"], calls_of(alloc, 1_024)?, devices, held)?;
    if made != 0 || stored != 0 {
        return Ok(u8::MAX);
    }
    ended(
        rt,
        alloc,
        &["recover", "--workers", "2"],
        Vec::new(alloc),
        devices,
        held,
    )
}

#[test]
fn two_workers_recover_at_once(rt: HostRuntime) -> Result<(), Fail> {
    let alloc = rt.alloc();
    let held = Meeting::new();
    let mut devices = no_devices(alloc);
    let status = recovered(&rt, alloc, &mut devices, &held)?;
    assert!(rt; status == 0 && held.have_met(), "status {status}");
    Ok(())
}

/// The request lines of the bank's three batches.
pub(crate) const THREE_LINES: &str = "call Deposit(1, 100, 7)
flush
adhoc put Family[1] = (2)
flush
call Transfer(1, 40)
";

/// Makes the bank's store, and runs these lines. Whether both ended with 0.
pub(crate) fn is_stored<H: Threads + Wait + Sync>(
    rt: &H,
    alloc: Global,
    lines: &[u8],
    devices: &mut Devices<MemDisk>,
) -> Result<bool, AllocError> {
    let made = ended(
        rt,
        alloc,
        &["init"],
        BANK.to_vec(alloc)?,
        devices,
        &OpenGate,
    )?;
    let stored = ended(
        rt,
        alloc,
        &["run"],
        lines.to_vec(alloc)?,
        devices,
        &OpenGate,
    )?;
    Ok(made == 0 && stored == 0)
}

#[test]
fn one_worker_recovers_in_order(rt: HostRuntime) -> Result<(), Fail> {
    let alloc = rt.alloc();
    let passed = Logging::new(alloc, 16)?;
    let mut devices = no_devices(alloc);
    assert!(rt; is_stored(&rt, alloc, THREE_LINES.as_bytes(), &mut devices)?);
    let words = ["recover", "--workers", "1"];
    let status = ended(&rt, alloc, &words, Vec::new(alloc), &mut devices, &passed)?;
    assert!(rt; status == 0 && passed.are(IN_ORDER), "status {status}");
    Ok(())
}

// The request lines of the first `txns` transactions of the stress test.
fn stress_lines(alloc: Global, txns: u64) -> Result<Vec<u8>, AllocError> {
    let mut lines = Vec::new(alloc);
    for before in 0..txns {
        let line = stress_line(alloc, before.saturating_add(1))?;
        lines.extend_from_slice(line.as_bytes())?;
    }
    Ok(lines)
}

// The request line of a transaction of the stress test, by its number.
fn stress_line(alloc: Global, txn: u64) -> Result<String, AllocError> {
    let mixed = txn.wrapping_mul(2_654_435_761) % 4_294_967_296;
    let name = (mixed % 97).saturating_add(1);
    let rest = mixed / 97;
    let amount = (rest % 1_000).saturating_add(1);
    match txn % 8 {
        0 => {
            let spouse = (rest % 97).saturating_add(1);
            format!(in alloc; "adhoc put Family[{name}] = ({spouse})\n")
        }
        1..=3 => format!(in alloc; "call Transfer({name}, {amount})\n"),
        _ => {
            let nation = rest / 1_000 % 7;
            format!(in alloc; "call Deposit({name}, {amount}, {nation})\n")
        }
    }
}

// What a command by four workers writes over these devices. Empty where it doesn't end with 0.
fn written<H: Threads + Wait + Sync>(
    rt: &H,
    alloc: Global,
    command: &str,
    text: Vec<u8>,
    devices: &mut Devices<MemDisk>,
) -> Result<Vec<u8>, AllocError> {
    let arguments = arguments_of(alloc, &[command, "--workers", "4"])?;
    let mut input = MemSource::new(text, Vec::new(alloc));
    let mut output = sink_of(alloc);
    let mut errors = sink_of(alloc);
    let status = pacman(
        rt,
        alloc,
        &arguments,
        &mut input,
        &mut output,
        &mut errors,
        devices,
        &OpenGate,
    );
    if status != 0 {
        return Ok(Vec::new(alloc));
    }
    output.inner.bytes().to_vec(alloc)
}

// The script of the bank with these lines.
fn bank_script(alloc: Global, lines: &[u8]) -> Result<Vec<u8>, AllocError> {
    let mut script = BANK.to_vec(alloc)?;
    script.extend_from_slice(b"---\n")?;
    script.extend_from_slice(lines)?;
    Ok(script)
}

#[test]
fn a_recovery_writes_what_a_replay_writes(rt: HostRuntime) -> Result<(), Fail> {
    let alloc = rt.alloc();
    let mut devices = no_devices(alloc);
    let lines = stress_lines(alloc, 5_000)?;
    assert!(rt; is_stored(&rt, alloc, &lines, &mut devices)?);
    let recovered = written(&rt, alloc, "recover", Vec::new(alloc), &mut devices)?;
    let replayed = written(
        &rt,
        alloc,
        "replay",
        bank_script(alloc, &lines)?,
        &mut devices,
    )?;
    let is_same = recovered.as_slice() == replayed.as_slice();
    let len = recovered.len();
    assert!(rt; is_same && len > 1_000, "{len} bytes recovered");
    Ok(())
}
