// What the bank's pieces need of each other, and which of its piece-sets may be opened.
ghost use Rattle.std.specs.Prelude.{◌≡◌, IfSome, Some, T};
ghost use Rattle.std.specs.FinMap.{is_sorted};
ghost use Rattle.pac_sets.specs.SetOrder.{set_cmp};
ghost use Rattle.pac_sets.specs.Sets.{AreLeft};

use super::plan_code;
use pac_keys::PlanCode;
use pac_script::BANK;
use pac_sets::{Kept, SetId, Sets};
use pac_types::read_catalogue;
use std::alloc::Global;

// A procedure, a block, its inputs there, and its outputs. Parameters come first, and then the
// variables of the operations in their order, that of a condition too.
type Row = (u16, u16, &'static [u16], &'static [u16]);

const INTERFACES: &[Row] = &[
    (0, 0, &[0], &[2]),
    (0, 1, &[2], &[3]),
    (0, 2, &[0, 1, 2, 3], &[]),
    (0, 4, &[0, 3], &[]),
    (1, 2, &[0, 1], &[3]),
    (1, 3, &[1, 3], &[4]),
    (1, 4, &[0, 3, 4], &[]),
    (1, 5, &[2], &[]),
];

fn interface_is_so(code: &PlanCode, row: &Row) -> bool {
    let plan = code.plan();
    if row.0 >= plan.procs() || row.1 >= plan.blocks() {
        return false;
    }
    let interface = code.interface(row.0, row.1);
    interface.inputs.as_slice() == row.2 && interface.outputs.as_slice() == row.3
}

// A question for the first open set from an offset on, and its answer; or a set that is finished.
enum Step {
    First(usize, Option<usize>),
    Finish(usize),
}

// The sets of the bank's three batches stand at these offsets: (0, 2), (0, 3), (0, 4), (0, 5); (1, 0); (2, 0), (2, 1), (2, 2),
// (2, 4). Edges lead from block 0 to 1 and 2, from 1 to 2 and 4, from 2 to 3 and 4, and from 3 to 4.
const STEPS: &[Step] = &[
    Step::First(0, Some(0)),
    Step::First(1, Some(3)),
    Step::First(4, Some(4)),
    Step::First(5, None),
    Step::Finish(0),
    Step::First(0, Some(1)),
    Step::First(2, Some(3)),
    Step::Finish(4),
    Step::First(5, Some(5)),
    Step::Finish(5),
    Step::First(5, Some(6)),
    Step::Finish(6),
    Step::First(5, Some(7)),
    Step::Finish(7),
    Step::First(5, None),
    Step::Finish(1),
    Step::First(0, Some(2)),
    Step::Finish(2),
    Step::First(0, Some(3)),
    Step::First(4, Some(8)),
    Step::Finish(3),
    Step::Finish(8),
    Step::First(0, None),
];

fn finish(sets: &mut Sets<u8>, at: usize) -> bool {
    if sets.first_open(at) != Some(at) {
        return false;
    }
    sets.finish(at);
    true
}

fn goes(sets: &mut Sets<u8>, step: &Step) -> bool {
    match step {
        Step::First(from, found) => sets.first_open(*from) == *found,
        Step::Finish(at) => finish(sets, *at),
    }
}

fn all_go(sets: &mut Sets<u8>) -> bool {
    for step in STEPS {
        if !goes(sets, step) {
            return false;
        }
    }
    true
}

fn set(batch: u64, block: u16) -> Kept<u8>
    ensures { result ≡ (record { batch = batch; block = block }, Some 0) }
{
    (SetId { batch, block }, Some(0))
}

// The sets of the bank's three batches.
fn loaded(alloc: Global) -> Option<Vec<Kept<u8>>>
    ensures sorted { IfSome result (λ sets. T (is_sorted set_cmp sets.items)) }
    ensures left { IfSome result (λ sets. AreLeft 6 0 sets.items) }
{
    let sets = vec![in alloc;
        set(0, 2),
        set(0, 3),
        set(0, 4),
        set(0, 5),
        set(1, 0),
        set(2, 0),
        set(2, 1),
        set(2, 2),
        set(2, 4),
    ];
    sets.ok()
}

fn sets_go(alloc: Global, code: &PlanCode) -> bool {
    let Ok(mut sets) = Sets::new(alloc, code.plan()) else {
        return false;
    };
    if code.plan().blocks() != 6 {
        return false;
    }
    let Some(loaded) = loaded(alloc) else {
        return false;
    };
    match sets.add_all(loaded) {
        Ok(()) => all_go(&mut sets),
        Err(_) => false,
    }
}

fn bank_code(alloc: Global) -> Option<PlanCode> {
    match read_catalogue(alloc, BANK) {
        Ok(catalogue) => plan_code(alloc, &catalogue),
        Err(_) => None,
    }
}

fn bank_interfaces(alloc: Global) -> bool {
    match bank_code(alloc) {
        Some(code) => INTERFACES.iter().all(|row| interface_is_so(&code, row)),
        None => false,
    }
}

fn bank_sets(alloc: Global) -> bool {
    match bank_code(alloc) {
        Some(code) => sets_go(alloc, &code),
        None => false,
    }
}

#[test]
fn the_bank_has_its_interfaces(rt: HostRuntime) {
    assert!(rt; bank_interfaces(rt.alloc()));
}

#[test]
fn the_bank_opens_its_sets(rt: HostRuntime) {
    assert!(rt; bank_sets(rt.alloc()));
}
