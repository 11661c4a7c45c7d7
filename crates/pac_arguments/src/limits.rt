// The numbers that arguments may say, and those that are taken where they say none. The least of each is 1.

/// The most replies of a group.
pub const MAX_GROUP_SIZE: u32 = 1_024;

/// The greatest limit on the rows of a table.
pub const MAX_ROWS: u32 = 10_000_000;

/// The most workers.
pub const MAX_WORKERS: u32 = 64;

/// The most transactions of the stress test.
pub const MAX_STRESS: u32 = 100_000;

/// The replies of a group, where the arguments don't say how many.
pub(crate) const DEFAULT_GROUP_SIZE: u32 = 64;

/// The limit on the rows of a table, where the arguments say none.
pub(crate) const DEFAULT_ROWS: u32 = 1_000_000;

/// The workers, where the arguments don't say how many.
pub(crate) const DEFAULT_WORKERS: u32 = 4;
