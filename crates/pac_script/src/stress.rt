// The transactions that the stress test makes.
ghost use Rattle.std.specs.Prelude.{◌≡◌, ◌<◌, ◌^◌, pos, IfOk};
ghost use Rattle.pac_value.specs.declared.values.Value.TheVariants as value;
ghost use Rattle.pac_script.specs.Stress.{mixed, family, transfer, deposit, stress_txn};

use pac_base::NoMemory;
use pac_ops::{Args, Call, Change, Records, Txn};
use pac_value::{Key, Row, Value};
use std::alloc::Global;

// What numbers of transactions are mixed by.
const FACTOR: u64 = 2_654_435_761;

const MODULUS: u64 = 4_294_967_296;

// How many accounts there are.
const ACCOUNTS: u64 = 97;

// The number of a transaction, mixed to one of 32 bits.
fn mixed(number: u64) -> u64
    ensures few { result < 2 ^ 32 }
    ensures exact { result ≡ mixed number }
{
    number % MODULUS * FACTOR % MODULUS
}

fn number(number: u64) -> Value
    requires { number < 2 ^ 32 }
    ensures { result ≡ value.Int (pos number) }
{
    Value::Int(number as i64)
}

fn family(alloc: Global, mixed: u64) -> Result<Txn, NoMemory>
    requires { mixed < 2 ^ 32 }
    ensures { IfOk result (λ txn. txn ≡ family mixed) }
{
    let row = Row::of(vec![in alloc; number(1 + mixed / ACCOUNTS % 97)]?);
    let key = Key::Int((1 + mixed % ACCOUNTS) as i64);
    let put = Change::Put { table: 0, key, row };
    let records = Records::of(vec![in alloc; put]?);
    Ok(Txn::AdHoc { records })
}

fn transfer(alloc: Global, mixed: u64) -> Result<Txn, NoMemory>
    requires { mixed < 2 ^ 32 }
    ensures { IfOk result (λ txn. txn ≡ transfer mixed) }
{
    let account = number(1 + mixed % ACCOUNTS);
    let amount = number(1 + mixed / ACCOUNTS % 1_000);
    let args = Args::of(vec![in alloc; account, amount]?);
    Ok(Txn::Call(Call { proc: 0, args }))
}

fn deposit(alloc: Global, mixed: u64) -> Result<Txn, NoMemory>
    requires { mixed < 2 ^ 32 }
    ensures { IfOk result (λ txn. txn ≡ deposit mixed) }
{
    let account = number(1 + mixed % ACCOUNTS);
    let amount = number(1 + mixed / ACCOUNTS % 1_000);
    let statistic = number(mixed / ACCOUNTS / 1_000 % 7);
    let args = Args::of(vec![in alloc; account, amount, statistic]?);
    Ok(Txn::Call(Call { proc: 1, args }))
}

/// The transaction with this number that the stress test makes, over the catalogue of the bank: a call of `Transfer` or
/// `Deposit`, its first and its second procedure, or a put of `Family`, its first table.
///
/// # Errors
///
/// `NoMemory` alone.
pub fn stress_txn(alloc: Global, i: u64) -> Result<Txn, NoMemory>
    ensures { IfOk result (λ txn. txn ≡ stress_txn i) }
{
    let mixed = mixed(i);
    match i % 8 {
        0 => family(alloc, mixed),
        1..=3 => transfer(alloc, mixed),
        _ => deposit(alloc, mixed),
    }
}
