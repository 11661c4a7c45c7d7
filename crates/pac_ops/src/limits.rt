// How long lists may be.

/// The most records of an ad hoc transaction.
pub const MAX_RECORDS: usize = 64;

/// The most transactions of a batch.
pub const MAX_TXNS: usize = 1024;

/// The most operations of a procedure.
pub const MAX_OPS: usize = 256;

/// The most operations of all procedures together.
pub const MAX_ALL_OPS: usize = 4096;
