//! Copies of nodes and of what they hold.

use crate::node::Node;
use crate::value::{Part, Value, Values};
use sequence::TryCopy;
use std::alloc::{AllocError, Global};

impl TryCopy for Value {
    fn try_copy(&self, _alloc: Global) -> Result<Value, AllocError> {
        Ok(*self)
    }
}

impl TryCopy for Values {
    fn try_copy(&self, alloc: Global) -> Result<Values, AllocError> {
        match self {
            Values::Bytes(values) => Ok(Values::Bytes(values.copy(alloc)?)),
            Values::Chars(values) => Ok(Values::Chars(values.copy(alloc)?)),
            Values::Doubles(values) => Ok(Values::Doubles(values.copy(alloc)?)),
            Values::Floats(values) => Ok(Values::Floats(values.copy(alloc)?)),
            Values::Ints(values) => Ok(Values::Ints(values.copy(alloc)?)),
            Values::Longs(values) => Ok(Values::Longs(values.copy(alloc)?)),
            Values::Shorts(values) => Ok(Values::Shorts(values.copy(alloc)?)),
            Values::Bools(values) => Ok(Values::Bools(values.copy(alloc)?)),
            Values::Refs(values) => Ok(Values::Refs(values.copy(alloc)?)),
        }
    }
}

impl TryCopy for Part {
    fn try_copy(&self, alloc: Global) -> Result<Part, AllocError> {
        Ok(Part {
            values: self.values.copy(alloc)?,
            note: self.note.copy(alloc)?,
        })
    }
}

impl TryCopy for Node {
    fn try_copy(&self, alloc: Global) -> Result<Node, AllocError> {
        match self {
            Node::Text(text) => Ok(Node::Text(text.copy(alloc)?)),
            Node::Desc(desc) => Ok(Node::Desc(desc.try_copy(alloc)?)),
            Node::Proxy(desc) => Ok(Node::Proxy(desc.try_copy(alloc)?)),
            Node::Object { class, parts } => Ok(Node::Object {
                class: *class,
                parts: parts.copy(alloc)?,
            }),
            Node::Array { class, values } => Ok(Node::Array {
                class: *class,
                values: values.try_copy(alloc)?,
            }),
            Node::Class { class } => Ok(Node::Class { class: *class }),
            Node::Enum { class, name } => Ok(Node::Enum {
                class: *class,
                name: *name,
            }),
        }
    }
}
