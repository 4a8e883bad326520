//! Numbers are in the ranges of their types: a graph's definition asks it of them, and their types give it. To look at a
//! number is to know it, so these functions read each number and do nothing else.
ghost use Rattle.std.specs.Prelude.{All, ◌<◌, ◌^◌, FitsSigned};
ghost use Rattle.std.specs.Int.{w16, w32, w64};
ghost use Rattle.ser_values.specs.Ranges.{ValueFits, ElementsFit, ItemFits, PartFits, NameFits, DescFits, InRange};

use crate::node::Node;
use crate::value::{Part, Value, Values};
use class_desc::{ClassDesc, FieldDesc, Item};
use sequence::Sequence;

/// A value that has numbers.
pub(crate) trait Ranged {
    /// Each number is in the range of its type.
    ghost fits: { Self → Type 0 };

    /// Looks at each number.
    fn look(&self)
        ensures { fits self.now };
}

/// Looks at each number of several values.
pub(crate) fn look_at_each<T: Ranged>(values: &[T])
    ensures { All T.fits values.now }
{
    for value in values {
        value.look();
    }
}

impl<T: Ranged> Ranged for Sequence<T> {
    ghost fits = { All T.fits };

    fn look(&self) {
        look_at_each(self.as_slice());
    }
}

impl Ranged for u8 {
    ghost fits = { λ x. x < 2 ^ 8 };

    fn look(&self) {
        let _number = *self;
    }
}

impl Ranged for u16 {
    ghost fits = { λ x. x < 2 ^ 16 };

    fn look(&self) {
        let _number = *self;
    }
}

impl Ranged for u32 {
    ghost fits = { λ x. x < 2 ^ 32 };

    fn look(&self) {
        let _number = *self;
    }
}

impl Ranged for u64 {
    ghost fits = { λ x. x < 2 ^ 64 };

    fn look(&self) {
        let _number = *self;
    }
}

impl Ranged for i16 {
    ghost fits = { FitsSigned w16 };

    fn look(&self) {
        let _number = *self;
    }
}

impl Ranged for i32 {
    ghost fits = { FitsSigned w32 };

    fn look(&self) {
        let _number = *self;
    }
}

impl Ranged for i64 {
    ghost fits = { FitsSigned w64 };

    fn look(&self) {
        let _number = *self;
    }
}

impl Ranged for Value {
    ghost fits = { ValueFits };

    fn look(&self) {
        match self {
            Value::Byte(value) => value.look(),
            Value::Char(value) => value.look(),
            Value::Double(value) => value.look(),
            Value::Float(value) => value.look(),
            Value::Int(value) => value.look(),
            Value::Long(value) => value.look(),
            Value::Short(value) => value.look(),
            Value::Boolean(_) => {}
            Value::Ref(_) => {}
        }
    }
}

impl Ranged for Values {
    ghost fits = { ElementsFit };

    fn look(&self) {
        match self {
            Values::Bytes(values) => values.look(),
            Values::Chars(values) => values.look(),
            Values::Doubles(values) => values.look(),
            Values::Floats(values) => values.look(),
            Values::Ints(values) => values.look(),
            Values::Longs(values) => values.look(),
            Values::Shorts(values) => values.look(),
            Values::Bools(_) => {}
            Values::Refs(_) => {}
        }
    }
}

impl Ranged for Item {
    ghost fits = { ItemFits };

    fn look(&self) {
        match self {
            Item::Bytes(bytes) => bytes.look(),
            Item::Ref(_) => {}
        }
    }
}

impl Ranged for Part {
    ghost fits = { PartFits };

    fn look(&self) {
        self.values.look();
        self.note.look();
    }
}

impl Ranged for FieldDesc {
    ghost fits = { NameFits };

    fn look(&self) {
        self.name.look();
    }
}

impl Ranged for ClassDesc {
    ghost fits = { DescFits };

    fn look(&self) {
        self.suid.look();
        self.name.look();
        self.fields.look();
        self.note.look();
    }
}

impl Ranged for Node {
    ghost fits = { InRange };

    fn look(&self) {
        match self {
            Node::Text(text) => text.look(),
            Node::Desc(desc) => desc.look(),
            Node::Proxy(proxy) => {
                proxy.names.look();
                proxy.note.look();
            }
            Node::Object { parts, .. } => parts.look(),
            Node::Array { values, .. } => values.look(),
            Node::Class { .. } => {}
            Node::Enum { .. } => {}
        }
    }
}
