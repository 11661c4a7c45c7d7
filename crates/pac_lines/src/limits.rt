// How much is read at once.

/// How many bytes one read asks for at most.
pub const MAX_READ: usize = 4096;
