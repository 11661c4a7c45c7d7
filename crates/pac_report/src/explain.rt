// The text of the graph of a catalogue.
ghost use Rattle.std.specs.Prelude.{◌≡◌, length, IfOk};
ghost use Rattle.pac_report.specs.Explain.{explain_text};

use crate::blocks::push_blocks;
use crate::slices::push_slices;
use pac_base::NoMemory;
use pac_plan::Plan;
use pac_slice::LocalGraph;
use pac_types::Catalogue;
use std::alloc::Global;

/// The graph of a catalogue, of whose procedures these are the slices, and this the plan. For each procedure the line
/// `slice PROC S: ` with its operations for each slice, then `link PROC S1 S2` for each edge between slices. Then the
/// line `block B: ` for each block, with `table NAME` for the tables whose home it is and `PROC.OP` for its operations,
/// and `edge B1 B2` for each edge between blocks. Linear in the text.
///
/// # Errors
///
/// [`NoMemory`] where the text finds no room.
pub fn explain_text(
    alloc: Global,
    cat: &Catalogue,
    graphs: &[LocalGraph],
    plan: &Plan,
) -> Result<Vec<u8>, NoMemory>
    requires graphs { length graphs.now ≡ length cat.now.procs }
    requires procs { length cat.now.procs ≡ length plan.now.programs }
    requires tables { length cat.now.tables ≡ length plan.now.tables }
    ensures { IfOk result (λ text. text.items ≡ explain_text cat.now graphs.now plan.now) }
{
    let mut out = Vec::new(alloc);
    let procs = cat.procs();
    for p in 0..procs.len() {
        push_slices(alloc, &mut out, procs[p].name, &graphs[p])?;
    }
    push_blocks(alloc, &mut out, cat, plan)?;
    Ok(out)
}
