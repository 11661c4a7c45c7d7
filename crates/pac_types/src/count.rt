// How many operations statements are.
ghost use Rattle.std.specs.Prelude.{◌≡◌, ◌≤◌, ◌+◌, ◌*◌};
ghost use Rattle.pac_types.specs.Unrolled.{turns};
ghost use Rattle.pac_types.specs.Meaning.{stmt_operations, operations};
ghost use Rattle.pac_types.specs.OperationLimits.{told};

use crate::Stmt;

/// Operations are counted up to this number, which stands for all larger ones.
pub const MAX_COUNT: u32 = 1_000_000;

/// The number of operations: each statement is one, a conditional counts its test and what stands in its blocks, and a
/// loop its block once for each turn. Linear in the statements, however many turns there are.
#[cycle(count)]
pub fn count_operations(stmts: &[Stmt]) -> u32
    ensures { result ≡ told (operations stmts.now) }
{
    let mut total = 0u32;
    for stmt in stmts {
        total = sum(total, count_one(stmt));
    }
    total
}

#[cycle(count)]
fn count_one(stmt: &Stmt) -> u32
    ensures { result ≡ told (stmt_operations stmt.now) }
{
    match stmt {
        Stmt::If { first, second, .. } => {
            let blocks = sum(
                count_operations(first.as_slice()),
                count_operations(second.as_slice()),
            );
            sum(1, blocks)
        }
        Stmt::For { from, to, body, .. } => product(
            count_turns(*from, *to),
            count_operations(body.as_slice()),
        ),
        Stmt::Let { .. } => 1,
        Stmt::Read { .. } => 1,
        Stmt::Has { .. } => 1,
        Stmt::Put { .. } => 1,
        Stmt::Set { .. } => 1,
        Stmt::Delete { .. } => 1,
        Stmt::AbortIf { .. } => 1,
    }
}

// How many turns a loop has.
fn count_turns(from: i64, to: i64) -> u32
    ensures { result ≡ told (turns from to) }
{
    let count = i128::from(to) - i128::from(from);
    if count < 0 {
        0
    } else if count < i128::from(MAX_COUNT) {
        count as u32
    } else {
        MAX_COUNT
    }
}

fn sum(first: u32, second: u32) -> u32
    requires first { first ≤ MAX_COUNT }
    requires second { second ≤ MAX_COUNT }
    ensures { result ≡ told (first + second) }
{
    (first + second).min(MAX_COUNT)
}

fn product(first: u32, second: u32) -> u32
    requires first { first ≤ MAX_COUNT }
    requires second { second ≤ MAX_COUNT }
    ensures { result ≡ told (first * second) }
{
    (u64::from(first) * u64::from(second)).min(u64::from(MAX_COUNT)) as u32
}
