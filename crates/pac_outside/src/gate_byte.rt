// The bytes that a gate before a piece is.

/// The gate byte that lets the piece after it count.
pub const GATE_OPEN: u8 = 1;

/// The gate byte that is written before nothing. Every byte but [`GATE_OPEN`] is read as this one.
pub const GATE_SHUT: u8 = 0;
