// How large a graph may be.

/// The most nodes of a graph: 64 words of 64 nodes, and one word more.
pub const MAX_NODES: usize = 4_160;
