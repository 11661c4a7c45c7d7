// The catalogue of the bank.
ghost use Rattle.std.specs.Prelude.{◌≡◌, IfOk};
ghost use Rattle.pac_types.specs.CatalogueText.{HasCatalogue};
ghost use Rattle.pac_types.specs.OperationLimits.{HasFewOperations};
ghost use Rattle.pac_script.specs.BankText.{bank_text};
ghost use Rattle.pac_stress.specs.BankCatalogue.{bank_catalogue};

use pac_base::{NoMemory, Refusal};
use pac_script::bank_text;
use pac_types::{Catalogue, read_catalogue};
use std::alloc::Global;

/// The catalogue of the bank.
///
/// # Errors
///
/// [`NoMemory`] where an allocation is refused.
pub fn bank_catalogue(alloc: Global) -> Result<Catalogue, NoMemory>
    ensures is { IfOk result (λ catalogue. catalogue ≡ bank_catalogue) }
    ensures text { HasCatalogue bank_text bank_catalogue }
    ensures operations { HasFewOperations bank_catalogue.procs }
{
    match read_catalogue(alloc, bank_text()) {
        Ok(catalogue) => Ok(catalogue),
        Err(Refusal::Fault(_)) => unreachable!(),
        Err(Refusal::NoMemory) => Err(NoMemory),
    }
}
