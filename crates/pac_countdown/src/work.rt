// What a worker does.
ghost use Rattle.std.specs.Prelude.{◌≡◌, ◌<◌, ◌++◌, ℕ, List, IfOk, OnOk};
ghost use Rattle.pac_countdown.specs.Lists.{times_in, pair_times};
ghost use Rattle.pac_countdown.specs.Counted.{agenda_pairs};
ghost use Rattle.pac_countdown.specs.HandOut.{HasLaters, IsHeld, IsUnworked, IsWorkedOff, paired, pairs_from};

use crate::countdown::Countdown;
use crate::worker::Worker;
use pac_base::{Listed, NoMemory};

// Counts each pair of a piece that was handed to the worker, with these later ones.
fn count_from(
    countdown: &Countdown,
    laters: &[u32],
    worker: &mut Worker,
    from: u32,
) -> Result<(), NoMemory>
    requires laters { paired from laters.now ≡ pairs_from (agenda_pairs countdown.now.agenda) from }
    requires held { IsHeld countdown.now worker.old }
    requires from { 0 < times_in from worker.old.pieces.items }
    requires new { (t : ℕ) → pair_times (from, t) worker.old.pass.deeds.counted ≡ 0 }
    ensures held { OnOk result (IsHeld countdown.now worker.new) }
    ensures grows { OnOk result ((more : List ℕ) × (worker.new.pieces.items ≡ worker.old.pieces.items ++ more)) }
    ensures counted { OnOk result (worker.new.pass.deeds.counted ≡ worker.old.pass.deeds.counted ++ pairs_from (agenda_pairs countdown.now.agenda) from) }
{
    countdown.pairs_are_below();
    countdown.pairs_differ();
    for to in laters {
        if countdown.count(&mut worker.pass, from, *to) {
            worker.pieces.push(*to)?;
        }
    }
    Ok(())
}

// Counts each pair of the pieces that are handed to the worker.
pub(crate) fn work(
    countdown: &Countdown,
    laters: &[Listed<u32>],
    mut worker: Worker,
) -> Result<Worker, NoMemory>
    requires laters { HasLaters countdown.now laters.now }
    requires new { IsUnworked countdown.now worker }
    ensures { IfOk result (λ done. IsWorkedOff countdown.now done) }
{
    for at in 0..usize::MAX {
        if at >= worker.pieces.len() {
            countdown.learn(&mut worker.pass);
            return Ok(worker);
        }
        let from = worker.pieces[at];
        let list = laters[from as usize].as_slice();
        count_from(countdown, list, &mut worker, from)?;
    }
    unreachable!()
}
