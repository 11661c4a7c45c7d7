// All pairs that conflict.
ghost use Rattle.std.specs.Prelude.{◌≡◌, ◌<◌, ◌≤◌, ◌++◌, ◌+◌, length, OnOk, IfOk};
ghost use Rattle.pac_plan.specs.Pairs.{AreEarlierLater};
ghost use Rattle.pac_batch.specs.Conflicts.{numbers_between, conflict_pairs, pairs_with};

use crate::conflict::conflict;
use pac_base::NoMemory;
use pac_plan::{Access, Preds};
use std::alloc::Global;

/// The pairs of accesses that conflict, each once, by their positions. It compares each access with each later one.
///
/// # Errors
///
/// [`NoMemory`] where the pairs find no room.
pub fn preds(alloc: Global, accesses: &[Access]) -> Result<Preds, NoMemory>
    requires { length accesses.now ≤ 4294967295 }
    ensures { IfOk result (λ preds. preds ≡ conflict_pairs accesses.now) }
{
    let mut pairs = Vec::new(alloc);
    for i in 0..accesses.len() {
        add_later(accesses, i, &mut pairs)?;
    }
    Ok(Preds::new(pairs))
}

// Adds the pairs of one access and the later ones that conflict with it.
fn add_later(accesses: &[Access], i: usize, pairs: &mut Vec<(u32, u32)>) -> Result<(), NoMemory>
    requires few { length accesses.now ≤ 4294967295 }
    requires inside { i < length accesses.now }
    requires order { AreEarlierLater pairs.old.items }
    ensures pairs { OnOk result (pairs.new.items ≡ pairs.old.items ++ pairs_with accesses.now i (numbers_between (i + 1) (length accesses.now))) }
    ensures order { OnOk result (AreEarlierLater pairs.new.items) }
{
    for j in i + 1..accesses.len() {
        if conflict(&accesses[i], &accesses[j]) {
            pairs.push((i as u32, j as u32))?;
        }
    }
    Ok(())
}
