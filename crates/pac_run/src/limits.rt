// How long an input may be.

/// The most bytes of an input of request lines or of a script.
pub const MAX_INPUT: u32 = 67_108_864;
