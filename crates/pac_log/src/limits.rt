// How long batches and logs may be.
use pac_entry::{BODY_HEAD_LEN, MAX_BODY_LEN};

/// The most bytes of the entries of a batch.
pub const MAX_ENTRIES_LEN: usize = MAX_BODY_LEN - BODY_HEAD_LEN;

/// The most bytes of a log.
pub const MAX_LOG_LEN: u64 = 268_435_456;

/// The most transactions that may have come before those of a log. With those that it has room for, their numbers are
/// numbers of 64 bits.
pub const MAX_BASE: u64 = 4_611_686_018_427_387_904;

// A test fills a log up to this, over a device that computes its bytes.
const _: () = prove!(MAX_LOG_LEN == 1 << 28);
