//! The limits of graphs and messages, in one place.

/// The greatest number of levels that stand inside one another in a graph.
pub const LEVELS: u32 = 200;
/// The greatest number of nodes of a graph.
pub const NODES: usize = 65_536;
/// The greatest number of parts that a graph has in all. Parts are the fields of descriptions, the names of proxies' interfaces, the parts of
/// objects and their values, the elements of arrays of references, and the references among items and in annotations.
pub const PARTS: usize = 1_048_576;
/// The greatest number of bytes of a message.
pub const MESSAGE_BYTES: u64 = 16_777_216;
