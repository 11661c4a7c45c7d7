// Hand-outs over atomic words.
ghost use Rattle.std.specs.Prelude.{◌<◌, ◌≤◌};

use crate::part::PartError;
use pac_countdown::hand_out;
use pac_plan::Preds;
use std::alloc::Global;
use std::sync::Wait;
use std::thread::Threads;

/// Hands out 1,024 pieces that wait for none to this many workers, `rounds` times; returns how many pieces that were.
pub fn make<H: Threads + Wait + Sync>(
    rt: &H,
    alloc: Global,
    workers: u32,
    rounds: u32,
) -> Result<u64, PartError>
    requires { (0 < workers) × (workers ≤ 64) }
{
    let preds = Preds::new(Vec::new(alloc));
    let mut count: u64 = 0;
    for _ in 0..rounds {
        let shares = hand_out(rt, alloc, workers, &preds, 1_024)?;
        for share in &shares {
            count = count.saturating_add(share.len() as u64);
        }
    }
    Ok(count)
}
