// How large checkpoints may be, and how they are read.
use pac_bytes::MAX_VALUE_LEN;
use pac_value::MAX_COLUMNS;

/// The most bytes of a slot with a checkpoint, its gate byte included.
pub const MAX_SLOT_LEN: u64 = 268_435_456;

/// The most rows of a table that is saved.
pub const MAX_SAVED_ROWS: u64 = 10_000_000;

/// The most bytes of an item of a checkpoint: a row with its key.
pub(crate) const ITEM_LEN: usize = (1 + MAX_COLUMNS) * MAX_VALUE_LEN;

/// The most bytes of a slot that are held at a time, and read by one call of a device.
pub(crate) const PIECE_LEN: usize = 262_144;

// No test saves as much as these.
const _: () = prove!(MAX_SLOT_LEN == 1 << 28);

const _: () = prove!(MAX_SAVED_ROWS == 10 * 1_000 * 1_000);
