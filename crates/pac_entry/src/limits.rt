// How long the entries of a batch are together.

/// The bytes of a batch's body before its entries: the number of its transactions, and how long the entries are.
pub const BODY_HEAD_LEN: usize = 8;

/// The most bytes of a batch's body.
pub const MAX_BODY_LEN: usize = 4_194_304;
