//! Values of fields and of arrays.
ghost use Rattle.std.specs.Prelude.{◌≡◌, ◌↔◌, IsTrue};
ghost use Rattle.ser_values.specs.Shape.{count_of};

use class_desc::{Items, Slot, SlotList};
use sequence::{
    BoolList, ByteList, I16List, I32List, I64List, Sequence, U16List, U32List, U64List,
};

/// The value of one field. A float or a double is carried as its bits, unread.
#[derive(Clone, Copy, Debug, PartialEq, Eq)]
pub enum Value {
    /// A `byte`, as its bits.
    Byte(u8),
    /// A `char`.
    Char(u16),
    /// The bits of a `double`.
    Double(u64),
    /// The bits of a `float`.
    Float(u32),
    /// An `int`.
    Int(i32),
    /// A `long`.
    Long(i64),
    /// A `short`.
    Short(i16),
    /// A `boolean`.
    Boolean(bool),
    /// A reference, of a field whose type is an array, a class or an interface.
    Ref(Slot),
}

/// The elements of an array. Floats and doubles are carried as their bits, unread.
#[derive(Debug)]
pub enum Values {
    /// Elements of `byte[]`, as their bits.
    Bytes(ByteList),
    /// Elements of `char[]`.
    Chars(U16List),
    /// The bits of the elements of `double[]`.
    Doubles(U64List),
    /// The bits of the elements of `float[]`.
    Floats(U32List),
    /// Elements of `int[]`.
    Ints(I32List),
    /// Elements of `long[]`.
    Longs(I64List),
    /// Elements of `short[]`.
    Shorts(I16List),
    /// Elements of `boolean[]`.
    Bools(BoolList),
    /// Elements of an array of references.
    Refs(SlotList),
}

// Written out, so that whoever owns one has one call at each exit, and not the drop of each variant.
impl Drop for Values {
    fn drop(self) {
        match self {
            Values::Bytes(values) => drop(values),
            Values::Chars(values) => drop(values),
            Values::Doubles(values) => drop(values),
            Values::Floats(values) => drop(values),
            Values::Ints(values) => drop(values),
            Values::Longs(values) => drop(values),
            Values::Shorts(values) => drop(values),
            Values::Bools(values) => drop(values),
            Values::Refs(values) => drop(values),
        }
    }
}

/// The values and the annotation that an object holds of one class of its chain.
#[derive(Debug)]
pub struct Part {
    /// The values of the class's fields, in their order.
    pub values: ValueList,
    /// The items that the class's own write method wrote.
    pub note: Items,
}

// Written out, so that whoever owns one has one call at each exit, and not the drop of each field.
impl Drop for Part {
    fn drop(self) {
        let Part { values, note } = self;
        drop(values);
        drop(note);
    }
}

/// A list of fields' values.
pub type ValueList = Sequence<Value>;
/// A list of parts.
pub type PartList = Sequence<Part>;

impl Values {
    /// The number of elements.
    pub fn len(&self) -> usize
        ensures { result ≡ count_of self.now }
    {
        match self {
            Values::Bytes(values) => values.len(),
            Values::Chars(values) => values.len(),
            Values::Doubles(values) => values.len(),
            Values::Floats(values) => values.len(),
            Values::Ints(values) => values.len(),
            Values::Longs(values) => values.len(),
            Values::Shorts(values) => values.len(),
            Values::Bools(values) => values.len(),
            Values::Refs(values) => values.len(),
        }
    }

    /// True where there are none.
    pub fn is_empty(&self) -> bool
        ensures { IsTrue result ↔ (count_of self.now ≡ 0) }
    {
        self.len() == 0
    }
}
