// What depends on what in a procedure of the bank, and copies of a plan.
use pac_base::{Exact, Same};
use pac_flat::flatten;
use pac_global::global;
use pac_ops::{MAX_OPS, Program};
use pac_plan::Plan;
use pac_script::BANK;
use pac_slice::dependencies;
use pac_types::{Catalogue, read_catalogue};
use std::alloc::Global;

const FLOW: &[(u16, u16)] = &[(0, 1), (0, 2), (0, 4), (2, 3), (2, 4), (3, 4), (5, 6)];

const CONFLICT: &[(u16, u16)] = &[(0, 1), (3, 4), (5, 6)];

fn depends_so(alloc: Global, program: &Program) -> bool {
    if program.ops.as_slice().len() > MAX_OPS {
        return false;
    }
    match dependencies(alloc, program) {
        Ok(deps) => deps.flow.as_slice() == FLOW && deps.conflict.as_slice() == CONFLICT,
        Err(_) => false,
    }
}

fn copy_is_same(alloc: Global, program: &Program) -> bool {
    match program.copy(alloc) {
        Ok(copy) => copy.same(program),
        Err(_) => false,
    }
}

// Whether the second program has the dependencies of a deposit, and each is copied.
fn are_as_worked(alloc: Global, programs: &[Program]) -> bool {
    match programs {
        [transfer, deposit] => {
            depends_so(alloc, deposit)
                && copy_is_same(alloc, transfer)
                && copy_is_same(alloc, deposit)
        }
        _ => false,
    }
}

fn programs_are_as_worked(alloc: Global, catalogue: &Catalogue) -> bool {
    match flatten(alloc, catalogue) {
        Ok(programs) => are_as_worked(alloc, &programs),
        Err(_) => false,
    }
}

const EDGES: &[(u16, u16)] = &[(0, 1), (0, 2), (1, 2), (1, 4), (2, 3), (2, 4), (3, 4)];

fn is_as_worked(plan: &Plan) -> bool {
    plan.blocks() == 6
        && plan.procs() == 2
        && plan.tables() == 4
        && plan.edges() == EDGES
        && plan.has_edge(1, 4)
        && !plan.has_edge(0, 4)
        && !plan.has_edge(1, 0)
}

fn copy_is_as_worked(alloc: Global, plan: &Plan) -> bool {
    match plan.copy(alloc) {
        Ok(copy) => is_as_worked(&copy),
        Err(_) => false,
    }
}

fn plan_is_as_worked(alloc: Global, catalogue: &Catalogue) -> bool {
    let Ok(programs) = flatten(alloc, catalogue) else {
        return false;
    };
    let _procs = catalogue.procs(); // so few that they can be planned
    match global(alloc, catalogue, programs) {
        Ok(plan) => is_as_worked(&plan) && copy_is_as_worked(alloc, &plan),
        Err(_) => false,
    }
}

fn catalogue_is_as_worked(alloc: Global, catalogue: &Catalogue) -> bool {
    match catalogue.copy(alloc) {
        Ok(copy) => programs_are_as_worked(alloc, &copy) && plan_is_as_worked(alloc, &copy),
        Err(_) => false,
    }
}

#[test]
fn the_bank_depends_and_is_planned_as_worked(rt: HostRuntime) {
    let right = match read_catalogue(rt.alloc(), BANK) {
        Ok(catalogue) => catalogue_is_as_worked(rt.alloc(), &catalogue),
        Err(_) => false,
    };
    assert!(rt; right);
}
