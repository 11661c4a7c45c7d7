// The steps of a countdown, one after another.
ghost use Rattle.std.specs.Prelude.{◌≡◌, ◌<◌, ◌≤◌, ℕ, IfOk, All};
ghost use Rattle.pac_countdown.specs.Lists.{pair_times};

use crate::Countdown;
use pac_base::NoMemory;
use pac_plan::Preds;
use std::alloc::Global;
use std::test::Fail;

// Two pieces before a third.
fn fork(alloc: Global) -> Result<Preds, NoMemory>
    ensures within { IfOk result (λ preds. All (λ pair. pair.1 < 3) preds) }
    ensures first { IfOk result (λ preds. pair_times (0, 2) preds ≡ 1) }
    ensures second { IfOk result (λ preds. pair_times (1, 2) preds ≡ 1) }
    ensures once { IfOk result (λ preds. (q : ℕ × ℕ) → pair_times q preds ≤ 1) }
{
    let mut pairs = Vec::new(alloc);
    pairs.push((0, 2))?;
    pairs.push((1, 2))?;
    Ok(Preds::new(pairs))
}

#[test]
fn the_last_to_count_is_handed_the_piece(rt: HostRuntime) -> Result<(), Fail> {
    let preds = fork(rt.alloc())?;
    let (countdown, mut pass) = Countdown::new(rt.alloc(), &preds, 3)?;
    let first = countdown.open_next(&mut pass);
    let second = countdown.open_next(&mut pass);
    let third = countdown.open_next(&mut pass);
    assert!(rt; first && second && !third);
    let left = countdown.left(&mut pass, 2);
    assert_eq!(rt; left, 2);
    let counted = countdown.count(&mut pass, 0, 2);
    assert!(rt; !counted);
    let mut lent = countdown.split(&mut pass, &[1]);
    let whole = countdown.is_whole(&pass);
    assert!(rt; !whole);
    let counted = countdown.count(&mut lent, 1, 2);
    assert!(rt; counted);
    countdown.join(&mut pass, lent);
    let whole = countdown.is_whole(&pass);
    assert!(rt; whole);
    let _handed = countdown.end(pass);
    Ok(())
}
