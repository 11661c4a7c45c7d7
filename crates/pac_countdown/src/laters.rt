// The pairs by their earlier piece.
ghost use Rattle.std.specs.Prelude.{◌≡◌, ◌<◌, [], All, IfOk, vec_len};
ghost use Rattle.pac_countdown.specs.HandOut.{AreLaters};

use pac_base::{Listed, NoMemory};
use std::alloc::Global;

// An empty list for each piece.
fn empty_lists(alloc: Global, pieces: u32) -> Result<Vec<Listed<u32>>, NoMemory>
    ensures len { IfOk result (λ lists. vec_len lists ≡ pieces) }
    ensures empty { IfOk result (λ lists. AreLaters [] pieces lists.items) }
{
    let mut lists = Vec::new(alloc);
    for _ in 0..pieces {
        lists.push(Listed::new(alloc))?;
    }
    Ok(lists)
}

// For each piece the later pieces of its pairs, in their order.
pub(crate) fn laters_of(
    alloc: Global,
    pairs: &[(u32, u32)],
    pieces: u32,
) -> Result<Vec<Listed<u32>>, NoMemory>
    requires within { All (λ pair. pair.0 < pieces) pairs.now }
    ensures len { IfOk result (λ laters. vec_len laters ≡ pieces) }
    ensures laters { IfOk result (λ laters. AreLaters pairs.now pieces laters.items) }
{
    let mut laters = empty_lists(alloc, pieces)?;
    for pair in pairs {
        laters[pair.0 as usize].push(pair.1)?;
    }
    Ok(laters)
}
