// What workers hand to one another can be sent between threads. That a plan, a core, work and its result can is proved where
// `pac_workers` hands them over.
use pac_ops::Batch;
use pac_plan::{Access, Preds};
use pac_sched::Sched;
use pac_tables::{HashedRows, OrderedRows};
use pac_value::Env;
use std::test::Fail;

// Only a type that can be sent passes the check.
fn can_be_sent<T: Send>() -> bool {
    true
}

fn tables_can() -> bool {
    can_be_sent::<Batch>() && can_be_sent::<OrderedRows>() && can_be_sent::<HashedRows>()
}

fn accesses_can() -> bool {
    can_be_sent::<Access>() && can_be_sent::<Preds>() && can_be_sent::<Env>()
}

fn schedulers_can() -> bool {
    can_be_sent::<Sched>()
}

#[test]
fn what_workers_hand_over_can_be_sent(rt: HostRuntime) -> Result<(), Fail> {
    assert_eq!(rt;
        (tables_can(), accesses_can(), schedulers_can()),
        (true, true, true)
    );
    Ok(())
}
