// What `explain` writes of a catalogue's text.
ghost use Rattle.std.specs.Prelude.{◌≡◌, ℕ, [], ◌≤◌, length, map, slice_get, Some, IfOk, IsErrOf, if◌then◌else◌};
ghost use Rattle.pac_base.specs.declared.refusal.Refusal.TheVariants as error;
ghost use Rattle.pac_ops.specs.Programs.{AreWellFormedPrograms, count_ops};
ghost use Rattle.pac_ops.specs.declared.program.Program.{Program as AProgram};
ghost use Rattle.pac_ops.specs.declared.limits.TheConstants.{MAX_OPS, MAX_ALL_OPS};
ghost use Rattle.pac_flat.specs.FlatForm.{program_of};
ghost use Rattle.pac_print.specs.Canonical.{canonical};
ghost use Rattle.pac_syntax.specs.Reading.{IsTree};
ghost use Rattle.pac_types.specs.Fits.{shape};
ghost use Rattle.pac_types.specs.OperationLimits.{HasFewOperations};
ghost use Rattle.pac_main.specs.Explained.{AreSlicesOf, IsExplanation, IsGraphText, IsTreeExplanation, IsUnexplainedTree};
ghost use Rattle.pac_flat.specs.Unaccepted.{IsExcessFault, IsUnaccepted};
ghost use Rattle.pac_flat.specs.declared.acceptance.AcceptFault.{AcceptFault as AFault};

use pac_base::{NoMemory, Refusal};
use pac_flat::{AcceptError, AcceptFault, excess_fault, flatten};
use pac_global::global;
use pac_ops::Program;
use pac_plan::is_plan;
use pac_print::print;
use pac_report::explain_text;
use pac_slice::{LocalGraph, slices};
use pac_syntax::{Tree, parse_catalogue};
use pac_types::{Catalogue, CatalogueFault, check};
use std::alloc::Global;

/// The text of the graph of the catalogue that a text has, after its canonical text where that is wanted.
///
/// # Errors
///
/// `Fault` where the text has no catalogue, or one with too many operations.
pub fn explain(alloc: Global, with_text: bool, text: &[u8]) -> Result<Vec<u8>, AcceptError>
    ensures ok { IfOk result (λ written. IsExplanation with_text text.now written.items) }
    ensures fault { (fault : AFault) → IsErrOf result (error.Fault fault) → IsUnaccepted text.now fault }
{
    match parse_catalogue(alloc, text) {
        Ok(tree) => explain_tree(alloc, with_text, tree),
        Err(Refusal::Fault(fault)) => Err(Refusal::Fault(AcceptFault::Catalogue(
            CatalogueFault::Syntax(fault),
        ))),
        Err(Refusal::NoMemory) => Err(Refusal::NoMemory),
    }
}

// The same for a tree.
fn explain_tree(alloc: Global, with_text: bool, tree: Tree) -> Result<Vec<u8>, AcceptError>
    requires { IsTree tree }
    ensures ok { IfOk result (λ written. IsTreeExplanation with_text tree written.items) }
    ensures fault { (fault : AFault) → IsErrOf result (error.Fault fault) → IsUnexplainedTree tree fault }
{
    let mut out = leading_text(alloc, with_text, &tree)?;
    match check(alloc, tree) {
        Ok(catalogue) => {
            let graph = graph_text(alloc, &catalogue)?;
            out.extend_from_slice(&graph)?;
            Ok(out)
        }
        Err(Refusal::Fault(fault)) => Err(Refusal::Fault(AcceptFault::Catalogue(
            CatalogueFault::Typing(fault),
        ))),
        Err(Refusal::NoMemory) => Err(Refusal::NoMemory),
    }
}

// The canonical text, where that is wanted.
fn leading_text(alloc: Global, with_text: bool, tree: &Tree) -> Result<Vec<u8>, NoMemory>
    ensures { IfOk result (λ text. text.items ≡ (if with_text then canonical tree.now else [])) }
{
    if with_text {
        print(alloc, tree)
    } else {
        Ok(Vec::new(alloc))
    }
}

// The text of the graph, where operations are few enough for one.
fn graph_text(alloc: Global, catalogue: &Catalogue) -> Result<Vec<u8>, AcceptError>
    ensures ok { IfOk result (λ text. IsGraphText catalogue.now text.items) }
    ensures fault { (fault : AFault) → IsErrOf result (error.Fault fault) → IsExcessFault catalogue.now fault }
{
    match flatten(alloc, catalogue) {
        Ok(programs) => Ok(planned_text(alloc, catalogue, programs)?),
        Err(Refusal::Fault(excess)) => Err(Refusal::Fault(excess_fault(catalogue, excess))),
        Err(Refusal::NoMemory) => Err(Refusal::NoMemory),
    }
}

// The text of the graph of these programs.
fn planned_text(
    alloc: Global,
    catalogue: &Catalogue,
    programs: Vec<Program>,
) -> Result<Vec<u8>, NoMemory>
    requires few { HasFewOperations catalogue.now.procs }
    requires programs { programs.items ≡ map program_of catalogue.now.procs }
    requires well_formed { AreWellFormedPrograms (map shape catalogue.now.tables) programs.items }
    requires counted { count_ops programs.items ≤ MAX_ALL_OPS }
    ensures { IfOk result (λ text. IsGraphText catalogue.now text.items) }
{
    let graphs = graphs_of(alloc, &programs)?;
    let _procs = catalogue.procs();
    let plan = global(alloc, catalogue, programs)?;
    is_plan(&plan);
    explain_text(alloc, catalogue, &graphs, &plan)
}

// The slices of each program.
fn graphs_of(alloc: Global, programs: &[Program]) -> Result<Vec<LocalGraph>, NoMemory>
    requires { (p : ℕ) (program : AProgram) → slice_get programs.now p ≡ Some program → length program.ops ≤ MAX_OPS }
    ensures length { IfOk result (λ graphs. length graphs.items ≡ length programs.now) }
    ensures slices { IfOk result (λ graphs. AreSlicesOf programs.now graphs.items) }
{
    let mut graphs = Vec::with_capacity(alloc, programs.len())?;
    for program in programs {
        graphs.push(slices(alloc, program)?)?;
    }
    Ok(graphs)
}
