// The plan of a catalogue alone.
ghost use Rattle.std.specs.Prelude.{◌≡◌, IfOk, map};
ghost use Rattle.pac_flat.specs.Agreement.{ReplaysTheSame};
ghost use Rattle.pac_flat.specs.FlatForm.{program_of};
ghost use Rattle.pac_plan.specs.Analysis.{IsAnalysis};
ghost use Rattle.pac_types.specs.Fits.{shape};
ghost use Rattle.pac_types.specs.OperationLimits.{HasFewOperations};

use crate::plan::global;
use pac_base::{NoMemory, Refusal};
use pac_flat::flatten;
use pac_plan::Plan;
use pac_types::Catalogue;
use std::alloc::Global;

/// The plan of a catalogue with few operations: the one of its procedures' programs, by which transactions replay as they
/// execute. It takes the time of [`flatten`] and [`global`].
///
/// # Errors
///
/// [`NoMemory`] where an allocation is refused.
pub fn catalogue_plan(alloc: Global, cat: &Catalogue) -> Result<Plan, NoMemory>
    requires { HasFewOperations cat.now.procs }
    ensures programs { IfOk result (λ plan. plan.programs ≡ map program_of cat.now.procs) }
    ensures shapes { IfOk result (λ plan. plan.tables ≡ map shape cat.now.tables) }
    ensures analysis { IfOk result (λ plan. IsAnalysis plan) }
    ensures replays { IfOk result (λ plan. ReplaysTheSame cat.now.procs plan.programs) }
{
    match flatten(alloc, cat) {
        Ok(programs) => {
            let _few = cat.procs();
            global(alloc, cat, programs)
        }
        Err(Refusal::Fault(_)) => unreachable!(),
        Err(Refusal::NoMemory) => Err(NoMemory),
    }
}
