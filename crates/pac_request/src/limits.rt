// How long request lines may be.

/// The most bytes of a request line.
pub const MAX_LINE: usize = 4_096;
