// A script that is executed one transaction after another.
ghost use Rattle.std.specs.Prelude.{◌≡◌, IfOk, length};
ghost use Rattle.pac_types.specs.OperationLimits.{HasFewOperations};
ghost use Rattle.pac_script.specs.BatchFits.{BatchesFit, BatchesHaveNumbers};

use crate::part::PartError;
use pac_ops::Batch;
use pac_outside::{Source, read_up_to};
use pac_report::dump;
use pac_script::{Script, read_script};
use pac_serial::{exec_all, no_rows};
use pac_tables::HashedRows;
use pac_types::Catalogue;
use std::alloc::Global;

// The longest script that is read, 64 MiB: that of the command `replay`.
const MAX_INPUT: usize = 67_108_864;

// The tables that the transactions of these batches leave, from no rows on.
fn executed(
    alloc: Global,
    catalogue: &Catalogue,
    batches: &[Batch],
) -> Result<HashedRows, PartError>
    requires operations { HasFewOperations catalogue.now.procs }
    requires fit { BatchesFit catalogue.now batches.now }
    requires numbers { BatchesHaveNumbers batches.now }
    ensures { IfOk result (λ rows. rows.tables ≡ length catalogue.now.tables) }
{
    let mut rows = no_rows(alloc, catalogue)?;
    for batch in batches {
        exec_all(alloc, catalogue, batch, &mut rows)?;
    }
    Ok(rows)
}

// The script that a source holds.
fn script_of<S: Source>(alloc: Global, input: &mut S) -> Result<Script, PartError>
    ensures operations { IfOk result (λ script. HasFewOperations script.catalogue.procs) }
    ensures fit { IfOk result (λ script. BatchesFit script.catalogue script.batches) }
    ensures numbers { IfOk result (λ script. BatchesHaveNumbers script.batches) }
{
    let text = read_up_to(alloc, input, MAX_INPUT)?;
    Ok(read_script(alloc, &text)?)
}

/// Reads the script that a source holds; then executes its transactions one after another, from no rows on, and makes the
/// dump of the tables, `rounds` times. Returns how many bytes the dumps have.
pub fn replay<S: Source>(alloc: Global, input: &mut S, rounds: u32) -> Result<u64, PartError> {
    let Script { catalogue, batches } = script_of(alloc, input)?;
    let mut bytes: u64 = 0;
    for _ in 0..rounds {
        let rows = executed(alloc, &catalogue, batches.as_slice())?;
        let dump = dump(alloc, &catalogue, &rows)?;
        bytes = bytes.saturating_add(dump.len() as u64);
    }
    Ok(bytes)
}
