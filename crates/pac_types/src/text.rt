// The catalogue of a text.
ghost use Rattle.std.specs.Prelude.{◌≡◌, IfOk, IsErrOf};
ghost use Rattle.pac_base.specs.Refusals.{Only};
ghost use Rattle.pac_base.specs.declared.refusal.Refusal.TheVariants as error;
ghost use Rattle.pac_types.specs.CatalogueText.{HasCatalogue, IsCatalogueFault, fault_kind, fault_offset};
ghost use Rattle.pac_types.specs.Typing.{CatalogueState, Types};
ghost use Rattle.pac_types.specs.Faults.{IsFirstTypeFault};
ghost use Rattle.pac_types.specs.declared.text.CatalogueFault.{CatalogueFault as AFault};
ghost use Rattle.pac_types.specs.declared.type_error.TypeFault.{TypeFault as ATypeFault};
ghost use Rattle.pac_syntax.specs.Reading.{IsTree};

use crate::{Catalogue, TypeFault, check};
use pac_base::Refusal;
use pac_syntax::{Fault, Tree, parse_catalogue};
use std::alloc::Global;
use thiserror::Error;

/// Why a text has no catalogue: its first fault.
#[derive(Clone, Copy, Debug, PartialEq, Eq, Error)]
pub enum CatalogueFault {
    /// It isn't read.
    #[error("{0}")]
    Syntax(Fault),
    /// It is read, and has this fault of names or types.
    #[error("{0}")]
    Typing(TypeFault),
}

/// Why a text has no catalogue, or running out of memory.
pub type CatalogueError = Refusal<CatalogueFault>;

impl CatalogueFault {
    /// The offset of the fault in the text, from 0.
    pub fn at(&self) -> usize
        ensures { result ≡ fault_offset self.now }
    {
        match self {
            CatalogueFault::Syntax(fault) => fault.at,
            CatalogueFault::Typing(fault) => fault.at,
        }
    }

    /// The kind of the fault as it is printed.
    pub fn kind_name(&self) -> &'static str
        ensures { result.now ≡ fault_kind self.now }
    {
        match self {
            CatalogueFault::Syntax(fault) => fault.kind.name(),
            CatalogueFault::Typing(fault) => fault.kind.name(),
        }
    }
}

/// The catalogue of a text, which has at most 65,536 bytes. Near linear in the text.
///
/// # Errors
///
/// `Fault` only where the text has no catalogue: the first fault of the text, or where that is read, of its names and types.
/// `NoMemory` may come instead, and also where there is a catalogue.
pub fn read_catalogue(alloc: Global, text: &[u8]) -> Result<Catalogue, CatalogueError>
    ensures ok { IfOk result (HasCatalogue text.now) }
    ensures only { (catalogue : CatalogueState) → HasCatalogue text.now catalogue → Only result catalogue }
    ensures fault { (fault : AFault) → IsErrOf result (error.Fault fault) → IsCatalogueFault text.now fault }
    ensures one { (fault other : AFault) → IsErrOf result (error.Fault fault) → IsCatalogueFault text.now other → other ≡ fault }
{
    read_text(alloc, text)
}

// The same, without the laws of texts.
fn read_text(alloc: Global, text: &[u8]) -> Result<Catalogue, CatalogueError>
    ensures ok { IfOk result (λ read. HasCatalogue text.now read × ((other : CatalogueState) → HasCatalogue text.now other → read ≡ other)) }
    ensures fault { (fault : AFault) → IsErrOf result (error.Fault fault) → IsCatalogueFault text.now fault }
{
    match parse_catalogue(alloc, text) {
        Ok(tree) => typed(alloc, tree),
        Err(Refusal::Fault(fault)) => Err(Refusal::Fault(CatalogueFault::Syntax(fault))),
        Err(Refusal::NoMemory) => Err(Refusal::NoMemory),
    }
}

// The catalogue of a tree, or its first fault as that of a text.
fn typed(alloc: Global, tree: Tree) -> Result<Catalogue, CatalogueError>
    requires { IsTree tree }
    ensures ok { IfOk result (λ catalogue. Types tree catalogue × ((other : CatalogueState) → Types tree other → other ≡ catalogue)) }
    ensures fault { (fault : AFault) → IsErrOf result (error.Fault fault) → (of : ATypeFault) × (fault ≡ CatalogueFault.Typing of) × IsFirstTypeFault tree of }
{
    match check(alloc, tree) {
        Ok(catalogue) => Ok(catalogue),
        Err(Refusal::Fault(fault)) => Err(Refusal::Fault(CatalogueFault::Typing(fault))),
        Err(Refusal::NoMemory) => Err(Refusal::NoMemory),
    }
}
