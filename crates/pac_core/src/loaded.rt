// Batches that are loaded.
use crate::kept_values::KeptValues;
use pac_ops::Batch;

/// A batch, and of each of its transactions the values that pieces need of others: arguments, and those of variables that
/// cross a block. Values are kept until each set of the batch is finished.
#[derive(Drop)]
pub(crate) struct LoadedBatch {
    pub batch: Batch,
    pub kept: Vec<KeptValues>,
}
