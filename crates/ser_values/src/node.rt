//! The nodes of a graph.

use crate::value::{PartList, Values};
use class_desc::{ClassDesc, ProxyDesc};
use sequence::{Sequence, Units};

/// One thing that has a handle in a stream. It names other nodes by their numbers.
#[derive(Debug)]
pub enum Node {
    /// A string.
    Text(Units),
    /// The description of a class.
    Desc(ClassDesc),
    /// The description of a dynamic proxy class.
    Proxy(ProxyDesc),
    /// An object. It has one part for each description of its class's chain, the highest superclass
    /// first; an externalizable object has one part, with a note alone.
    Object {
        /// The description of the object's class.
        class: u32,
        /// The parts of the object.
        parts: PartList,
    },
    /// An array.
    Array {
        /// The description of the array's class.
        class: u32,
        /// The array's elements.
        values: Values,
    },
    /// A class as a value.
    Class {
        /// The description of the class.
        class: u32,
    },
    /// A constant of an enum.
    Enum {
        /// The description of the enum's class.
        class: u32,
        /// The text that names the constant.
        name: u32,
    },
}

// Written out, so that whoever owns one has one call at each exit, and not the drop of each variant.
impl Drop for Node {
    fn drop(self) {
        match self {
            Node::Text(text) => drop(text),
            Node::Desc(desc) => drop(desc),
            Node::Proxy(desc) => drop(desc),
            Node::Object { class: _, parts } => drop(parts),
            Node::Array { class: _, values } => drop(values),
            Node::Class { class: _ } => {},
            Node::Enum { class: _, name: _ } => {},
        }
    }
}

/// A list of nodes.
pub type NodeList = Sequence<Node>;
/// A list of nodes' numbers.
pub type NumberList = Sequence<u32>;

/// The handle of a stream's first node (Object Serialization 6.4.2, `baseWireHandle`); each further node has the next one.
pub const FIRST_HANDLE: u32 = 0x7E_0000;

/// The kind of place in a stream at which a reference stands.
#[derive(Clone, Copy, Debug, PartialEq, Eq)]
pub enum SlotPlace {
    /// As a value, an element or an item: any node and null may stand there.
    Reference,
    /// As the class of an object, an array, a class or an enum: a description.
    Class,
    /// As the superclass of a description: a description or null.
    Parent,
    /// As the type text of a field or as the name of an enum's constant: a text.
    Text,
}
