// Which batch may be loaded into a core.
use crate::cores::{core_of, plan_of, script_of};
use crate::takes::THREE;
use pac_core::Core;
use pac_ops::Batch;
use pac_plan::Plan;
use pac_script::BANK;
use pac_tables::Rows;
use std::alloc::Global;

// Whether each of these batches may be loaded now.
fn fit<R: Rows>(core: &Core<R>, batches: &[Batch]) -> (bool, bool) {
    match batches {
        [one, other] => (core.fits(one), core.fits(other)),
        _ => (false, false),
    }
}

// The same as long as more may come, and once none come.
fn fit_until_closed<R: Rows>(core: Core<R>, batches: &[Batch]) -> ((bool, bool), (bool, bool)) {
    let open = fit(&core, batches);
    let mut core = core;
    core.close();
    (open, fit(&core, batches))
}

// The same of the batches after the first, where that one is loaded.
fn fit_after_first(
    alloc: Global,
    plan: &Plan,
    batches: &[Batch],
) -> Option<((bool, bool), (bool, bool))> {
    if batches.is_empty() {
        return None;
    }
    let (first, rest) = batches.split_at(1);
    let core = core_of(alloc, plan, first)?;
    Some(fit_until_closed(core, rest))
}

fn fit_of_three(alloc: Global) -> Option<((bool, bool), (bool, bool))> {
    let script = script_of(alloc, BANK, THREE)?;
    let plan = plan_of(alloc, &script.catalogue)?;
    fit_after_first(alloc, &plan, script.batches.as_slice())
}

// The batch that comes next may be loaded, and no other one. Once the core is closed none may.
#[test]
fn the_next_batch_fits_until_the_core_is_closed(rt: HostRuntime) {
    assert_eq!(rt;
        fit_of_three(rt.alloc()),
        Some(((true, false), (false, false)))
    );
}
