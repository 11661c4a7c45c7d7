// Pieces that threads hand out to one another over atomic words.
ghost use Rattle.std.specs.Prelude.{◌≡◌, ◌<◌, ◌≤◌, ℕ, All, IfOk, length};
ghost use Rattle.pac_countdown.specs.Lists.{pair_times};

use pac_base::{NoMemory, listed};
use pac_batch::queue_preds;
use pac_countdown::{Share, hand_out};
use pac_plan::{Access, Preds, Touch};
use pac_value::Key;
use std::alloc::Global;
use std::sync::Wait;
use std::thread::Threads;

// The next pairs of pieces, as a hand-out takes them.
fn next_pairs(alloc: Global, accesses: &[Access]) -> Result<Preds, NoMemory>
    requires { length accesses.now ≤ 1024 }
    ensures within { IfOk result (λ preds. All (λ pair. pair.1 < length accesses.now) preds) }
    ensures once { IfOk result (λ preds. (q : ℕ × ℕ) → pair_times q preds ≤ 1) }
{
    let preds = queue_preds(alloc, accesses)?;
    Ok(preds)
}

// The access of a piece that touches the rows at some keys.
fn access(alloc: Global, keys: &[i64], is_write: bool) -> Result<Access, NoMemory> {
    let mut touches = Vec::new(alloc);
    for key in keys {
        touches.push(Touch {
            table: 0,
            key: Key::Int(*key),
            is_write,
        })?;
    }
    Ok(Access::Keys(listed(touches)))
}

// Where a piece stands: in which list, and at which place of it.
#[derive(Clone, Copy)]
struct Standing {
    list: usize,
    at: usize,
}

// Where each of so many pieces stands in the lists; none if one stands nowhere or twice, or there are others.
fn standings(
    alloc: Global,
    shares: &[Share],
    pieces: usize,
) -> Result<Option<Vec<Standing>>, NoMemory> {
    let nowhere = Standing {
        list: usize::MAX,
        at: 0,
    };
    let mut standings = vec![in alloc; nowhere; pieces]?;
    for list in 0..shares.len() {
        let share = shares[list].as_slice();
        for at in 0..share.len() {
            let Some(standing) = standings.get_mut(share[at] as usize) else {
                return Ok(None);
            };
            if standing.list != usize::MAX {
                return Ok(None);
            }
            *standing = Standing { list, at };
        }
    }
    if standings.iter().any(|standing| standing.list == usize::MAX) {
        return Ok(None);
    }
    Ok(Some(standings))
}

// Whether no piece stands in a list behind one that waits for it.
fn are_in_order(pairs: &[(u32, u32)], standings: &[Standing]) -> bool {
    for pair in pairs {
        let Some(earlier) = standings.get(pair.0 as usize) else {
            return false;
        };
        let Some(later) = standings.get(pair.1 as usize) else {
            return false;
        };
        if earlier.list == later.list && earlier.at >= later.at {
            return false;
        }
    }
    true
}

// How many pieces the longest list has, if each piece stands once and the lists are in order.
fn longest<H: Threads + Wait + Sync>(
    rt: &H,
    alloc: Global,
    workers: u32,
    accesses: &[Access],
) -> Result<Option<usize>, NoMemory>
    requires { (0 < workers) × (workers ≤ 64) }
{
    if accesses.is_empty() || accesses.len() > 1_024 {
        return Ok(None);
    }
    let preds = next_pairs(alloc, accesses)?;
    let shares = hand_out(rt, alloc, workers, &preds, accesses.len() as u32)?;
    let Some(standings) = standings(alloc, &shares, accesses.len())? else {
        return Ok(None);
    };
    if !are_in_order(preds.pairs(), &standings) {
        return Ok(None);
    }
    Ok(shares.iter().map(|share| share.len()).max())
}

// As many pieces as a batch has, each of which modifies the row of one key, or of a key of its own.
fn calls(alloc: Global, has_own: bool) -> Result<Vec<Access>, NoMemory> {
    let mut accesses = Vec::new(alloc);
    for call in 0..1_024u16 {
        let key = if has_own { i64::from(call) } else { 1 };
        accesses.push(access(alloc, &[key], true)?)?;
    }
    Ok(accesses)
}

#[test]
fn pieces_of_one_row_go_to_one_worker(rt: HostRuntime) -> Result<(), NoMemory> {
    let alloc: Global = rt.alloc();
    let accesses = calls(alloc, false)?;
    assert_eq!(rt; longest(&rt, alloc, 4, &accesses)?, Some(1_024));
    Ok(())
}

#[test]
fn pieces_of_a_row_each_are_handed_out_once(rt: HostRuntime) -> Result<(), NoMemory> {
    let alloc: Global = rt.alloc();
    let accesses = calls(alloc, true)?;
    assert!(rt; longest(&rt, alloc, 4, &accesses)?.is_some());
    Ok(())
}

// The next of numbers that look like chance.
fn random(seed: &mut u64) -> u64 {
    *seed = seed
        .wrapping_mul(6_364_136_223_846_793_005)
        .wrapping_add(1_442_695_040_888_963_407);
    *seed >> 33u32
}

// Up to 300 pieces, each of which touches two of 16 rows; half of them modify theirs.
fn random_accesses(alloc: Global, seed: &mut u64) -> Result<Vec<Access>, NoMemory> {
    let mut accesses = Vec::new(alloc);
    let pieces = 1 + random(seed) % 300;
    for _ in 0..pieces {
        let one = (random(seed) % 16) as i64;
        let other = (random(seed) % 16) as i64;
        let is_write = random(seed) % 2 == 0;
        accesses.push(access(alloc, &[one, other], is_write)?)?;
    }
    Ok(accesses)
}

#[test]
fn random_pieces_are_handed_out_once_and_in_order(rt: HostRuntime) -> Result<(), NoMemory> {
    let alloc: Global = rt.alloc();
    let mut seed = 1;
    for run in 0..200u32 {
        let accesses = random_accesses(alloc, &mut seed)?;
        let found = longest(&rt, alloc, 2 + run % 15, &accesses)?;
        assert!(rt; found.is_some(), "run {run}");
    }
    Ok(())
}
