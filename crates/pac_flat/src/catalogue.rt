// The flat form of a catalogue.
ghost use Rattle.std.specs.Prelude.{◌≡◌, ◌<◌, ◌≤◌, ◌^◌, All, map, length, IfOk, IsOk, IsErrOf, MatchResult};
ghost use Rattle.std.specs.List.{AllZip};
ghost use Rattle.pac_base.specs.Refusals.{OkUnlessMemory};
ghost use Rattle.pac_base.specs.declared.refusal.Refusal.TheVariants.{Fault as AFault};
ghost use Rattle.pac_ops.specs.Programs.{AreWellFormedPrograms, count_ops};
ghost use Rattle.pac_ops.specs.declared.limits.TheConstants.{MAX_OPS, MAX_ALL_OPS};
ghost use Rattle.pac_value.specs.declared.limits.TheConstants.{MAX_PARAMS};
ghost use Rattle.pac_types.specs.Fits.{shape};
ghost use Rattle.pac_types.specs.Meaning.{operations};
ghost use Rattle.pac_types.specs.OperationLimits.{HasFewOperations, IsFirstExcess};
ghost use Rattle.pac_flat.specs.Agreement.{MeansTheSame, ReplaysTheSame};
ghost use Rattle.pac_flat.specs.FlatForm.{program_of};
ghost use Rattle.pac_flat.specs.declared.catalogue.TooManyOps.{TooManyOps as Excess};

use crate::program::flat_program;
use pac_base::{NoMemory, Refusal};
use pac_ops::{MAX_ALL_OPS, MAX_OPS, Program};
use pac_types::{Catalogue, Proc, count_operations};
use std::alloc::Global;
use thiserror::Error;

/// The first procedure at which operations are too many, by its number, and how many: its own, where these are more than
/// 256, or else those up to its end, where these are more than 4,096. The operations of every turn of a loop count; a
/// million stands for all larger numbers.
#[derive(Clone, Copy, Debug, PartialEq, Eq, Error)]
#[error("{count} operations at procedure {proc}")]
pub struct TooManyOps {
    pub proc: u16,
    pub count: u32,
}

/// Why a catalogue has no flat form, or running out of memory.
pub type FlatError = Refusal<TooManyOps>;

impl From<TooManyOps> for FlatError {
    ghost from_gives = { λ fault error. error ≡ AFault fault };

    fn from(fault: TooManyOps) -> Self {
        Refusal::Fault(fault)
    }
}

/// The programs of a catalogue's procedures, in the order of their numbers. Loops are unrolled, once operations are
/// found to be few. Linear in the operations and their conditions, and in the turns of loops.
///
/// # Errors
///
/// `Fault` exactly where a procedure has more than 256 operations, or all together have more than 4,096: they are counted
/// first, without memory. `NoMemory` where a program finds no room.
pub fn flatten(alloc: Global, cat: &Catalogue) -> Result<Vec<Program>, FlatError>
    ensures programs { IfOk result (λ programs. programs.items ≡ map program_of cat.now.procs) }

    // Nothing is lost by it.
    ensures means { IfOk result (λ programs. AllZip MeansTheSame cat.now.procs programs.items) }
    ensures replays { IfOk result (λ programs. ReplaysTheSame cat.now.procs programs.items) }

    ensures well_formed { IfOk result (λ programs. AreWellFormedPrograms (map shape cat.now.tables) programs.items) }
    ensures few { IfOk result (λ _. HasFewOperations cat.now.procs) }
    ensures counted { IfOk result (λ programs. count_ops programs.items ≤ MAX_ALL_OPS) }
    ensures only { HasFewOperations cat.now.procs → OkUnlessMemory result (λ programs. programs.items ≡ map program_of cat.now.procs) }
    ensures fault { (fault : Excess) → IsErrOf result (AFault fault) → IsFirstExcess cat.now.procs fault.proc fault.count }
    ensures one { (fault other : Excess) → IsErrOf result (AFault fault) → IsFirstExcess cat.now.procs other.proc other.count → other ≡ fault }
{
    test_operations(cat)?;
    Ok(flat_programs(alloc, cat.procs())?)
}

/// That a catalogue's procedures have few operations enough: at most 256 each, and 4,096 in all. Takes no memory. Linear
/// in the statements, however many turns their loops have.
///
/// # Errors
///
/// [`TooManyOps`] exactly where a procedure has more than 256 operations, or all together have more than 4,096.
pub fn test_operations(cat: &Catalogue) -> Result<(), TooManyOps>
    ensures few { IfOk result (λ _. HasFewOperations cat.now.procs) }
    ensures only { HasFewOperations cat.now.procs → IsOk result }
    ensures fault { (fault : Excess) → IsErrOf result fault → IsFirstExcess cat.now.procs fault.proc fault.count }
    ensures one { (fault other : Excess) → IsErrOf result fault → IsFirstExcess cat.now.procs other.proc other.count → other ≡ fault }
{
    test_counts(cat.procs())
}

// The program of each procedure.
fn flat_programs(alloc: Global, procs: &[Proc]) -> Result<Vec<Program>, NoMemory>
    requires params { All (λ proc. length proc.params ≤ MAX_PARAMS) procs.now }
    requires few { All (λ proc. operations proc.body ≤ MAX_OPS) procs.now }
    ensures { IfOk result (λ programs. programs.items ≡ map program_of procs.now) }
{
    let mut programs = Vec::with_capacity(alloc, procs.len())?;
    for proc in procs {
        programs.push(flat_program(alloc, proc)?)?;
    }
    Ok(programs)
}

// That operations are not too many.
fn test_counts(procs: &[Proc]) -> Result<(), TooManyOps>
    requires few { length procs.now < 2 ^ 16 }
    ensures { MatchResult result (λ _. HasFewOperations procs.now) (λ fault. IsFirstExcess procs.now fault.proc fault.count) }
{
    let mut up_to = 0;
    for number in 0..procs.len() {
        let own = count_operations(procs[number].body.as_slice()) as usize;
        up_to += own;
        if own > MAX_OPS {
            return Err(too_many(number, own));
        }
        if up_to > MAX_ALL_OPS {
            return Err(too_many(number, up_to));
        }
    }
    Ok(())
}

fn too_many(number: usize, count: usize) -> TooManyOps
    requires number { number < 2 ^ 16 }
    requires count { count < 2 ^ 32 }
    ensures { result ≡ record { proc = number; count = count } }
{
    TooManyOps {
        proc: number as u16,
        count: count as u32,
    }
}
