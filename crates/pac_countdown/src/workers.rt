// The hand-out of all pieces of a set.
ghost use Rattle.std.specs.Prelude.{◌≡◌, ◌==◌, ◌<◌, ◌≤◌, ◌&&◌, ◌+◌, ℕ, List, [], IfOk, OnOk, All, vec_len, length, nat_lt, take, drop};
ghost use Rattle.pac_countdown.specs.Lists.{pair_times, one_if};
ghost use Rattle.pac_countdown.specs.Counted.{agenda_pairs};
ghost use Rattle.pac_countdown.specs.Steps.{first_deeds};
ghost use Rattle.pac_countdown.specs.Shares.{times_in_all, AreOrdered};
ghost use Rattle.pac_countdown.specs.HandOut.{IsUnworked, IsWorkedOff, opener_deeds, AreDistinctBelow, HasJoined};

use crate::countdown::Countdown;
use crate::laters::laters_of;
use crate::pass::Pass;
use crate::scoped::run_scoped;
use crate::worker::Worker;
use pac_base::{Listed, NoMemory, listed};
use pac_plan::Preds;
use std::alloc::Global;
use std::sync::Wait;
use std::thread::Threads;

/// The pieces that one worker was handed, in turn. Contracts see the list of their numbers.
pub type Share = Listed<u32>;

// Opens all pieces, and answers those that are handed out at once.
fn open_all(
    alloc: Global,
    countdown: &Countdown,
    pass: &mut Pass,
    pieces: u32,
) -> Result<Vec<u32>, NoMemory>
    requires of { pass.old.countdown ≡ countdown.now.id }
    requires first { pass.old.deeds ≡ first_deeds }
    requires pieces { pieces ≡ countdown.now.agenda.pieces }
    ensures of { OnOk result (pass.new.countdown ≡ countdown.now.id) }
    ensures did { IfOk result (λ ready. pass.new.deeds ≡ opener_deeds pieces ready.items 0) }
    ensures ready { IfOk result (λ ready. AreDistinctBelow pieces ready.items) }
{
    let mut ready = Vec::new(alloc);
    for piece in 0..pieces {
        if countdown.open_next(pass) {
            ready.push(piece)?;
        }
    }
    Ok(ready)
}

// So many pieces, from a place on.
fn part(alloc: Global, ready: &[u32], at: usize, count: usize) -> Result<Vec<u32>, NoMemory>
    requires { at + count ≤ length ready.now }
    ensures { IfOk result (λ part. part.items ≡ take count (drop at ready.now)) }
{
    let mut part = Vec::new(alloc);
    part.extend_from_slice(&ready[at..at + count])?;
    Ok(part)
}

// Lends the pieces that were handed out at once to so many workers.
fn deal(
    alloc: Global,
    countdown: &Countdown,
    pass: &mut Pass,
    ready: &[u32],
    workers: u32,
) -> Result<Vec<Worker>, NoMemory>
    requires of { pass.old.countdown ≡ countdown.now.id }
    requires ready { pass.old.deeds ≡ opener_deeds countdown.now.agenda.pieces ready.now 0 }
    requires differ { AreDistinctBelow countdown.now.agenda.pieces ready.now }
    requires workers { 0 < workers }
    ensures of { OnOk result (pass.new.countdown ≡ countdown.now.id) }
    ensures did { OnOk result (pass.new.deeds ≡ opener_deeds countdown.now.agenda.pieces [] workers) }
    ensures len { IfOk result (λ crew. vec_len crew ≡ workers) }
    ensures crew { IfOk result (λ crew. All (IsUnworked countdown.now) crew.items) }
{
    let mut crew = Vec::new(alloc);
    let mut at = 0;
    for worker in 0..workers {
        let count = (ready.len() - at) / (workers - worker) as usize;
        let pieces = part(alloc, ready, at, count)?;
        let lent = countdown.split(pass, &pieces);
        crew.push(Worker { pass: lent, pieces })?;
        at += count;
    }
    Ok(crew)
}

// Joins the passes of the workers.
fn join_all(
    alloc: Global,
    countdown: &Countdown,
    pass: &mut Pass,
    mut crew: Vec<Result<Worker, NoMemory>>,
) -> Result<Vec<Share>, NoMemory>
    requires of { pass.old.countdown ≡ countdown.now.id }
    requires all { pass.old.deeds ≡ opener_deeds countdown.now.agenda.pieces [] (vec_len crew) }
    requires crew { All (λ worker. IfOk worker (IsWorkedOff countdown.now)) crew.items }
    ensures of { OnOk result (pass.new.countdown ≡ countdown.now.id) }
    ensures joined { IfOk result (λ shares. HasJoined (agenda_pairs countdown.now.agenda) countdown.now.agenda.pieces 0 shares.items pass.new.deeds) }
    ensures len { IfOk result (λ shares. vec_len shares ≡ vec_len crew) }
{
    let mut shares = Vec::new(alloc);
    while let Some(worker) = crew.pop() {
        let Worker {
            pass: other,
            pieces,
        } = worker?;
        countdown.join(pass, other);
        shares.push(listed(pieces))?;
    }
    Ok(shares)
}

/// Hands all pieces out to so many workers: the list of each. Each piece stands once over all lists, and in each list after those that
/// it waits for. No pair may stand twice.
///
/// Each worker is a thread; one that can't be started is run by the caller. It costs each piece and each pair once.
///
/// # Errors
///
/// [`NoMemory`] where an allocation is refused.
pub fn hand_out<R: Threads + Wait + Sync>(
    rt: &R,
    alloc: Global,
    workers: u32,
    preds: &Preds,
    pieces: u32,
) -> Result<Vec<Share>, NoMemory>
    requires workers { (0 < workers) × (workers ≤ 64) }
    requires pieces { (0 < pieces) × (pieces ≤ 1024) }
    requires within { All (λ pair. pair.1 < pieces) preds.now }
    requires once { (q : ℕ × ℕ) → pair_times q preds.now ≤ 1 }
    ensures len { IfOk result (λ shares. vec_len shares ≡ workers) }
    ensures each { IfOk result (λ shares. (p : ℕ) → times_in_all p shares.items ≡ one_if (nat_lt p pieces)) }
    ensures order { IfOk result (λ shares. AreOrdered preds.now shares.items) }
{
    let laters = laters_of(alloc, preds.pairs(), pieces)?;
    let (countdown, mut pass) = Countdown::new(alloc, preds, pieces)?;
    let ready = open_all(alloc, &countdown, &mut pass, pieces)?;
    let crew = deal(alloc, &countdown, &mut pass, &ready, workers)?;
    let done = run_scoped(rt, alloc, &countdown, &laters, crew)?;
    let shares = join_all(alloc, &countdown, &mut pass, done)?;
    let _handed = countdown.end(pass);
    Ok(shares)
}
