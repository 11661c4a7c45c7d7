// What a scheduler keeps of pieces in given states, with given pairs.
ghost use Rattle.std.specs.Prelude.{◌≡◌, ◌++◌, ◌&&◌, ◌==◌, ◌<◌, ◌^◌, ℕ, cond, not, true, false, length, count_by, slice_index, slice_index_or, slice_set, IfOk};
ghost use Rattle.pac_sched.specs.Schedules.{is_waiting, is_out, is_finished, moved_by};
ghost use Rattle.pac_sched.specs.Counts.{AreInside, passing, holds_up, waits_at};

use crate::PieceState;
use crate::ready_set::ReadySet;
use pac_base::NoMemory;
use std::alloc::Global;

// The old pairs, and after them the new ones, whose positions count from `len` on.
pub(crate) fn moved(
    alloc: Global,
    old: &[(usize, usize)],
    len: usize,
    new: &[(u32, u32)],
) -> Result<Vec<(usize, usize)>, NoMemory>
    requires { len < 2 ^ 62 }
    ensures { IfOk result (λ pairs. pairs.items ≡ old.now ++ moved_by len new.now) }
{
    let mut pairs = Vec::from_slice(alloc, old)?;
    pairs.reserve(new.len())?;
    for k in 0..new.len() {
        let (earlier, later) = new[k];
        pairs.push((len + earlier as usize, len + later as usize))?;
    }
    Ok(pairs)
}

// How many unfinished pieces each piece waits for.
pub(crate) fn number_waits(
    alloc: Global,
    states: &[PieceState],
    pairs: &[(usize, usize)],
) -> Result<Vec<usize>, NoMemory>
    requires { AreInside (length states.now) pairs.now }
    ensures len { IfOk result (λ waits. length waits.items ≡ length states.now) }
    ensures value { IfOk result (λ waits. (j : ℕ) → j < length states.now → slice_index waits.items j ≡ passing (holds_up states.now j) pairs.now (length pairs.now)) }
{
    let mut waits = vec![in alloc; 0; states.len()]?;
    for k in 0..pairs.len() {
        let (earlier, later) = pairs[k];
        waits[later] += one_unless(states[earlier].is_finished());
    }
    Ok(waits)
}

// One, or none where the test holds.
fn one_unless(test: bool) -> usize
    ensures { result ≡ cond (not test) 1 0 }
{
    if test { 0 } else { 1 }
}

// Which pieces are ready: those that wait, and for no other.
pub(crate) fn ready_set(
    alloc: Global,
    states: &[PieceState],
    waits: &[usize],
) -> Result<ReadySet, NoMemory>
    requires { length waits.now ≡ length states.now }
    ensures len { IfOk result (λ ready. length ready ≡ length states.now) }
    ensures value { IfOk result (λ ready. (j : ℕ) → j < length states.now → slice_index_or ready j false ≡ (waits_at states.now j && slice_index waits.now j == 0)) }
{
    let mut ready = ReadySet::new(alloc, states.len())?;
    for i in 0..states.len() {
        raise_if(is_free(states[i], waits[i]), &mut ready, i);
    }
    Ok(ready)
}

// Whether a piece waits, and for no other.
fn is_free(state: PieceState, waits: usize) -> bool
    ensures { result ≡ (is_waiting state && waits == 0) }
{
    state.is_waiting() && waits == 0
}

// Raises a flag that is not, where the test holds.
fn raise_if(test: bool, ready: &mut ReadySet, i: usize)
    requires inside { i < length ready.old }
    requires lowered { slice_index_or ready.old i true ≡ false }
    ensures { ready.new ≡ cond test (slice_set ready.old i true) ready.old }
{
    if test {
        ready.raise(i);
    }
}

// How many pieces are out.
pub(crate) fn count_out(states: &[PieceState]) -> usize
    ensures { result ≡ count_by is_out states.now }
{
    states.iter().filter(|state| state.is_out()).count()
}

// How many pieces are not finished.
pub(crate) fn count_unfinished(states: &[PieceState]) -> usize
    ensures { result ≡ count_by (λ state. not (is_finished state)) states.now }
{
    states.iter().filter(|state| !state.is_finished()).count()
}
