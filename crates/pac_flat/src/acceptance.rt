// Which catalogues a database takes.
ghost use Rattle.std.specs.Prelude.{◌≡◌, IfOk, IsErrOf};
ghost use Rattle.pac_base.specs.Refusals.{Only};
ghost use Rattle.pac_base.specs.declared.refusal.Refusal.TheVariants as error;
ghost use Rattle.pac_types.specs.Accepted.{IsAccepted};
ghost use Rattle.pac_types.specs.OperationLimits.{IsFirstExcess};
ghost use Rattle.pac_types.specs.Typing.{CatalogueState};
ghost use Rattle.pac_flat.specs.Unaccepted.{IsExcessFault, IsUnaccepted};
ghost use Rattle.pac_flat.specs.declared.acceptance.AcceptFault.{AcceptFault as AFault};

use crate::catalogue::{TooManyOps, test_operations};
use pac_base::Refusal;
use pac_types::{Catalogue, CatalogueFault, read_catalogue};
use pac_value::Name;
use std::alloc::Global;
use thiserror::Error;

/// Why a text isn't accepted as a catalogue.
#[derive(Clone, Copy, Debug, PartialEq, Eq, Error)]
pub enum AcceptFault {
    /// It has no catalogue: its first fault, of its syntax or else of its names and types.
    #[error("{0}")]
    Catalogue(CatalogueFault),
    /// Its catalogue has too many operations: the first procedure at which these are more than 256, and how many it has; or
    /// else at which all up to its end are more than 4,096, and how many these are.
    #[error("{count} operations")]
    TooManyOps { proc: Name, count: u32 },
}

/// Why a text isn't accepted as a catalogue, or running out of memory.
pub type AcceptError = Refusal<AcceptFault>;

/// The catalogue of a text, where it has one of few operations: what stands before a script's mark, and what a store is made of.
/// Near linear in the text.
///
/// # Errors
///
/// [`AcceptFault::Catalogue`] exactly where the text has no catalogue, [`AcceptFault::TooManyOps`] exactly where it has one
/// with too many operations; or `NoMemory`.
pub fn accepted(alloc: Global, text: &[u8]) -> Result<Catalogue, AcceptError>
    ensures ok { IfOk result (IsAccepted text.now) }
    ensures fault { (fault : AFault) → IsErrOf result (error.Fault fault) → IsUnaccepted text.now fault }
    ensures only { (catalogue : CatalogueState) → IsAccepted text.now catalogue → Only result catalogue }
    ensures one { (fault other : AFault) → IsErrOf result (error.Fault fault) → IsUnaccepted text.now other → other ≡ fault }
{
    read_accepted(alloc, text)
}

// The same, without the law that it is one thing.
fn read_accepted(alloc: Global, text: &[u8]) -> Result<Catalogue, AcceptError>
    ensures ok { IfOk result (IsAccepted text.now) }
    ensures fault { (fault : AFault) → IsErrOf result (error.Fault fault) → IsUnaccepted text.now fault }
{
    match read_catalogue(alloc, text) {
        Ok(catalogue) => match test_operations(&catalogue) {
            Ok(()) => Ok(catalogue),
            Err(excess) => Err(Refusal::Fault(excess_fault(&catalogue, excess))),
        },
        Err(Refusal::Fault(fault)) => Err(Refusal::Fault(AcceptFault::Catalogue(fault))),
        Err(Refusal::NoMemory) => Err(Refusal::NoMemory),
    }
}

/// Too many operations of a catalogue, as they are reported: by the name of the first procedure at which they are too many, and
/// how many they are.
pub fn excess_fault(catalogue: &Catalogue, excess: TooManyOps) -> AcceptFault
    requires { IsFirstExcess catalogue.now.procs excess.proc excess.count }
    ensures { IsExcessFault catalogue.now result }
{
    AcceptFault::TooManyOps {
        proc: catalogue.procs()[usize::from(excess.proc)].name,
        count: excess.count,
    }
}
