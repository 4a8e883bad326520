//! Equality of nodes and of what they hold.

use crate::node::Node;
use crate::value::{Part, Value, Values};
use sequence::Same;

impl Same for Value {
    fn is_same(&self, other: &Value) -> bool {
        *self == *other
    }
}

impl Same for Values {
    fn is_same(&self, other: &Values) -> bool {
        match (self, other) {
            (Values::Bytes(values), Values::Bytes(others)) => values.is_same(others),
            (Values::Chars(values), Values::Chars(others)) => values.is_same(others),
            (Values::Doubles(values), Values::Doubles(others)) => values.is_same(others),
            (Values::Floats(values), Values::Floats(others)) => values.is_same(others),
            (Values::Ints(values), Values::Ints(others)) => values.is_same(others),
            (Values::Longs(values), Values::Longs(others)) => values.is_same(others),
            (Values::Shorts(values), Values::Shorts(others)) => values.is_same(others),
            (Values::Bools(values), Values::Bools(others)) => values.is_same(others),
            (Values::Refs(values), Values::Refs(others)) => values.is_same(others),
            _ => false,
        }
    }
}

impl Same for Part {
    fn is_same(&self, other: &Part) -> bool {
        self.values.is_same(&other.values) && self.note.is_same(&other.note)
    }
}

impl Same for Node {
    fn is_same(&self, other: &Node) -> bool {
        match (self, other) {
            (Node::Text(text), Node::Text(another)) => text.is_same(another),
            (Node::Desc(desc), Node::Desc(another)) => desc.is_same(another),
            (Node::Proxy(desc), Node::Proxy(another)) => desc.is_same(another),
            (
                Node::Object { class, parts },
                Node::Object {
                    class: another,
                    parts: others,
                },
            ) => *class == *another && parts.is_same(others),
            (
                Node::Array { class, values },
                Node::Array {
                    class: another,
                    values: others,
                },
            ) => *class == *another && values.is_same(others),
            (Node::Class { class }, Node::Class { class: another }) => *class == *another,
            (
                Node::Enum { class, name },
                Node::Enum {
                    class: another,
                    name: other_name,
                },
            ) => *class == *another && *name == *other_name,
            _ => false,
        }
    }
}
