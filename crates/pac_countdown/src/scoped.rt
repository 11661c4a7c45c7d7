// The workers as threads of a scope.
ghost use Rattle.std.specs.Prelude.{◌≡◌, IfOk, IfErr, All, vec_len};
ghost use Rattle.pac_countdown.specs.HandOut.{HasLaters, IsUnworked, IsWorkedOff};

use crate::countdown::Countdown;
use crate::work::work;
use crate::worker::Worker;
use pac_base::{Listed, NoMemory};
use std::alloc::Global;
use std::snapshot::Snapshot;
use std::sync::Wait;
use std::thread;
use std::thread::{Promise, PromisedHandle, Threads};

// What a thread promises: its worker has worked off what it was handed, or there was no memory.
#[derive(Drop)]
pub(crate) struct DoneOf(Snapshot<Countdown>);

impl Promise<Result<Worker, NoMemory>> for DoneOf {
    ghost kept_by = { λ p r. IfOk r (λ done. IsWorkedOff p.0.value done) };
}

// Runs a worker in a thread of its own, or here if none can be started.
fn start<'s, E>(
    scope: &'s thread::Scope<'s, E>,
    countdown: &'s Countdown,
    laters: &'s [Listed<u32>],
    worker: Worker,
) -> Result<PromisedHandle<Result<Worker, NoMemory>, DoneOf>, Result<Worker, NoMemory>>
    requires laters { HasLaters countdown.now laters.now }
    requires new { IsUnworked countdown.now worker }
    ensures started { IfOk result (λ handle. handle.promise.0.value ≡ countdown.now) }
    ensures here { IfErr result (λ done. IfOk done (IsWorkedOff countdown.now)) }
{
    match scope.spawn_with(
        DoneOf(Snapshot::of(countdown)),
        move || -> Result<Worker, NoMemory>
            requires { HasLaters countdown.now laters.now × IsUnworked countdown.now worker }
            ensures { IfOk result (λ done. IsWorkedOff countdown.entry.now done) }
        { work(countdown, laters, worker) },
    ) {
        Ok(handle) => Ok(handle),
        Err(refused) => {
            let run = refused.value;
            Err(run())
        }
    }
}

// Runs each worker in a thread of the scope, or here if none can be started.
fn run_in<'s, E, R: Threads + Wait>(
    rt: &R,
    alloc: Global,
    scope: &'s thread::Scope<'s, E>,
    countdown: &'s Countdown,
    laters: &'s [Listed<u32>],
    mut crew: Vec<Worker>,
) -> Result<Vec<Result<Worker, NoMemory>>, NoMemory>
    requires laters { HasLaters countdown.now laters.now }
    requires new { All (IsUnworked countdown.now) crew.items }
    ensures len { IfOk result (λ all. vec_len all ≡ vec_len crew) }
    ensures done { IfOk result (λ all. All (λ done. IfOk done (IsWorkedOff countdown.now)) all.items) }
{
    let mut handles = Vec::new(alloc);
    let mut all = Vec::new(alloc);
    while let Some(worker) = crew.pop() {
        match start(scope, countdown, laters, worker) {
            Ok(handle) => handles.push(handle)?,
            Err(done) => all.push(done)?,
        }
    }
    while let Some(handle) = handles.pop() {
        let done = handle.join(rt);
        all.push(done)?;
    }
    Ok(all)
}

// Runs each worker in a thread of its own, or in the caller's if none can be started.
pub(crate) fn run_scoped<R: Threads + Wait + Sync>(
    rt: &R,
    alloc: Global,
    countdown: &Countdown,
    laters: &[Listed<u32>],
    crew: Vec<Worker>,
) -> Result<Vec<Result<Worker, NoMemory>>, NoMemory>
    requires laters { HasLaters countdown.now laters.now }
    requires new { All (IsUnworked countdown.now) crew.items }
    ensures len { IfOk result (λ all. vec_len all ≡ vec_len crew) }
    ensures done { IfOk result (λ all. All (λ done. IfOk done (IsWorkedOff countdown.now)) all.items) }
{
    thread::scope(
        thread::scope_env(),
        rt,
        move |scope| -> Result<Vec<Result<Worker, NoMemory>>, NoMemory>
            requires { HasLaters countdown.now laters.now × All (IsUnworked countdown.now) crew.items }
            ensures len { IfOk result (λ all. vec_len all ≡ vec_len crew) }
            ensures done { IfOk result (λ all. All (λ done. IfOk done (IsWorkedOff countdown.entry.now)) all.items) }
        { run_in(rt, alloc, scope, countdown, laters, crew) },
    )
}
