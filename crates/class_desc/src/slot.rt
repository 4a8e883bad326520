//! References between the nodes of a graph, and the contents of annotations.

use sequence::{ByteList, Sequence};

/// A reference: null, or the number of a node.
#[derive(Clone, Copy, Debug, PartialEq, Eq)]
pub enum Slot {
    /// No node.
    Null,
    /// The node of this number.
    Node(u32),
}

/// One item of an annotation or of a whole stream: bytes of block data, or a reference.
#[derive(Debug, Drop)]
pub enum Item {
    /// Block data, whatever its partition into blocks.
    Bytes(ByteList),
    /// A reference.
    Ref(Slot),
}

/// A list of items.
pub type Items = Sequence<Item>;
/// A list of references.
pub type SlotList = Sequence<Slot>;
