// Copies of transactions and programs with each form that they have, and of what they are made of.
use pac_base::{Boxed, Exact, NoMemory, Rule, Ruled, Same, are_same, copy_of, listed};
use pac_flat::flatten;
use pac_ops::{Batch, PieceId, Program};
use pac_script::{Script, read_script};
use pac_value::{Env, Value};
use std::alloc::Global;
use std::test::Fail;

fn copies_same<T: Exact + Same>(alloc: Global, item: &T) -> bool {
    match item.copy(alloc) {
        Ok(copy) => copy.same(item),
        Err(NoMemory) => false,
    }
}

const SCRIPT: &[u8] = b"table T(key int, v int, w text); table U(key text, v int);
proc P(k int, t text) {
  has there = T[k];
  if there && !(t < \"b\") {
    read v = T[k].v default -1;
    put T[v] = (k + 1, t);
    set T[k].w = \"\";
  } else {
    let fresh = k * 2;
    abort if fresh == 4 || t != \"a\";
  }
  delete T[k];
}
---
call P(-5, \"a\\\"b\")
adhoc put U[\"a\"] = (7); delete T[-7]
";

fn batch_copies_same(alloc: Global, batches: &[Batch]) -> bool {
    match batches {
        [batch] => copies_same(alloc, batch),
        _ => false,
    }
}

fn programs_copy_same(alloc: Global, programs: &[Program]) -> bool {
    match programs {
        [program] => program.ops.as_slice().len() == 8 && copies_same(alloc, program),
        _ => false,
    }
}

fn script_copies_same(alloc: Global, script: &Script) -> bool {
    match flatten(alloc, &script.catalogue) {
        Ok(programs) => {
            programs_copy_same(alloc, &programs)
                && batch_copies_same(alloc, script.batches.as_slice())
        }
        Err(_) => false,
    }
}

#[test]
fn transactions_and_programs_are_copied(rt: HostRuntime) {
    let copied = match read_script(rt.alloc(), SCRIPT) {
        Ok(script) => script_copies_same(rt.alloc(), &script),
        Err(_) => false,
    };
    assert!(rt; copied);
}

// Every list of numbers keeps it.
struct AnyNumbers;

impl Rule for AnyNumbers {
    type Item = u64;

    ghost use Rattle.std.specs.Prelude.{◌≤◌, length};

    ghost holds = { λ items. 0 ≤ length items };
}

fn ruled_copies(alloc: Global) -> Result<bool, NoMemory> {
    let ruled: Ruled<AnyNumbers> = Ruled::of(vec![in alloc; 3, 1, 2]?);
    Ok(copies_same(alloc, &ruled) && ruled.items() == [3u64, 1, 2].as_slice())
}

fn boxed_copies(alloc: Global) -> Result<bool, NoMemory> {
    let boxed = Boxed::new(alloc, 7u64)?;
    Ok(copies_same(alloc, &boxed))
}

fn list_copies(alloc: Global) -> Result<bool, NoMemory> {
    let list = listed(vec![in alloc; Some((1u16, true)), None, Some((2, false))]?);
    Ok(copies_same(alloc, &list))
}

fn env_copies(alloc: Global) -> Result<bool, NoMemory> {
    let mut env = Env::new(alloc);
    env.set(3, &Value::Int(5))?;
    Ok(copies_same(alloc, &env) && env.get(3) == Some(Value::Int(5)) && env.get(4).is_none())
}

#[test]
fn what_they_are_made_of_is_copied(rt: HostRuntime) -> Result<(), Fail> {
    let alloc = rt.alloc();
    let copied = ruled_copies(alloc)?
        && boxed_copies(alloc)?
        && list_copies(alloc)?
        && env_copies(alloc)?;
    let piece = PieceId { txn: 2, block: 1 };
    assert!(rt; copied && copies_same(alloc, &piece));
    Ok(())
}

// A list, and whether it is 1, -2, 3.
const LISTS: &[(&[i64], bool)] = &[
    (&[1, -2, 3], true),
    (&[1, -2], false),
    (&[1, -2, 3, 4], false),
    (&[1, 3, -2], false),
];

fn is_copied(alloc: Global, items: &[i64], same: bool) -> bool {
    match copy_of(alloc, items) {
        Ok(copy) => are_same(&copy, &[1, -2, 3]) == same,
        Err(NoMemory) => false,
    }
}

#[test]
fn lists_that_differ_are_known_apart(rt: HostRuntime) {
    for &(items, same) in LISTS {
        assert!(rt; is_copied(rt.alloc(), items, same), "{}", items.len());
    }
}
