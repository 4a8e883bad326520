//! Words of lines: numbers, names, values, lists of them.
ghost use Rattle.std.specs.Prelude.{◌≡◌, ◌∷◌, ◌++◌, ℕ, List, codes, decimal, flat_map, OnOk};
ghost use Rattle.std.specs.Fmt.{signed_decimal};
ghost use Rattle.history.specs.Texts.{name_text};
ghost use Rattle.graph_text.specs.GraphText.{comma_list, hex, node_name, slot_text, item_text, signed_byte, truth_text, float_text, double_text, value_text, values_text, type_text, field_text};

use class_desc::{FieldDesc, Item, Slot, is_primitive};
use journal::put::{put_decimal, put_hex, put_signed, put_units};
use sequence::{ByteList, Units};
use ser_values::{Value, Values};
use std::alloc::AllocError;

/// A value that has a text of one word.
pub(crate) trait Shown {
    /// The text.
    ghost text: { Self → List ℕ };

    /// Appends the text.
    fn put(&self, out: &mut ByteList) -> Result<(), AllocError>
        ensures { OnOk result (out.new ≡ out.old ++ text self.now) };
}

/// Appends texts joined by commas, or `-` where there are none.
pub(crate) fn put_listed<T: Shown>(out: &mut ByteList, items: &[T]) -> Result<(), AllocError>
    ensures { OnOk result (out.new ≡ out.old ++ comma_list T.text items.now) }
{
    match items {
        [] => out.push(b'-'),
        [first, rest @ ..] => {
            first.put(out)?;
            put_further(out, rest)
        }
    }
}

/// Appends texts, each after a comma.
fn put_further<T: Shown>(out: &mut ByteList, items: &[T]) -> Result<(), AllocError>
    ensures { OnOk result (out.new ≡ out.old ++ flat_map (λ y. 44 ∷ T.text y) items.now) }
{
    for item in items {
        out.push(b',')?;
        item.put(out)?;
    }
    Ok(())
}

/// Appends the name of the node of a number.
pub(crate) fn put_node_name(out: &mut ByteList, number: u32) -> Result<(), AllocError>
    ensures { OnOk result (out.new ≡ out.old ++ node_name number) }
{
    out.push(b'#')?;
    put_decimal(out, u64::from(number))
}

/// Appends bytes as `x:` and two hexadecimal digits each.
fn put_bytes(out: &mut ByteList, bytes: &[u8]) -> Result<(), AllocError>
    ensures { OnOk result (out.new ≡ out.old ++ (codes "x:" ++ hex bytes.now)) }
{
    out.append(b"x:")?;
    put_hex(out, bytes)
}

impl Shown for u8 {
    ghost text = { signed_byte };

    fn put(&self, out: &mut ByteList) -> Result<(), AllocError> {
        if *self < 128 {
            put_decimal(out, u64::from(*self))
        } else {
            out.push(b'-')?;
            put_decimal(out, 256 - u64::from(*self))
        }
    }
}

impl Shown for u16 {
    ghost text = { decimal };

    fn put(&self, out: &mut ByteList) -> Result<(), AllocError> {
        put_decimal(out, u64::from(*self))
    }
}

/// The bits of a float.
impl Shown for u32 {
    ghost text = { float_text };

    fn put(&self, out: &mut ByteList) -> Result<(), AllocError> {
        put_bytes(out, &self.to_be_bytes())
    }
}

/// The bits of a double.
impl Shown for u64 {
    ghost text = { double_text };

    fn put(&self, out: &mut ByteList) -> Result<(), AllocError> {
        put_bytes(out, &self.to_be_bytes())
    }
}

impl Shown for i16 {
    ghost text = { signed_decimal };

    fn put(&self, out: &mut ByteList) -> Result<(), AllocError> {
        put_signed(out, i64::from(*self))
    }
}

impl Shown for i32 {
    ghost text = { signed_decimal };

    fn put(&self, out: &mut ByteList) -> Result<(), AllocError> {
        put_signed(out, i64::from(*self))
    }
}

impl Shown for i64 {
    ghost text = { signed_decimal };

    fn put(&self, out: &mut ByteList) -> Result<(), AllocError> {
        put_signed(out, *self)
    }
}

impl Shown for bool {
    ghost text = { truth_text };

    fn put(&self, out: &mut ByteList) -> Result<(), AllocError> {
        if *self {
            out.append(b"true")
        } else {
            out.append(b"false")
        }
    }
}

impl Shown for Slot {
    ghost text = { slot_text };

    fn put(&self, out: &mut ByteList) -> Result<(), AllocError> {
        match self {
            Slot::Null => out.append(b"null"),
            Slot::Node(number) => put_node_name(out, *number),
        }
    }
}

impl Shown for Item {
    ghost text = { item_text };

    fn put(&self, out: &mut ByteList) -> Result<(), AllocError> {
        match self {
            Item::Ref(slot) => slot.put(out),
            Item::Bytes(bytes) => put_bytes(out, bytes.as_slice()),
        }
    }
}

/// A text in quotation marks.
impl Shown for Units {
    ghost text = { name_text };

    fn put(&self, out: &mut ByteList) -> Result<(), AllocError> {
        out.push(b'"')?;
        put_units(out, self.as_slice())?;
        out.push(b'"')
    }
}

impl Shown for FieldDesc {
    ghost text = { field_text };

    fn put(&self, out: &mut ByteList) -> Result<(), AllocError> {
        out.push(self.code.letter())?;
        out.push(b':')?;
        self.name.put(out)?;
        put_type(out, self)
    }
}

/// Appends what tells a reference field's type.
fn put_type(out: &mut ByteList, field: &FieldDesc) -> Result<(), AllocError>
    ensures { OnOk result (out.new ≡ out.old ++ type_text field.now) }
{
    if is_primitive(field.code) {
        return Ok(());
    }
    out.push(b':')?;
    field.type_text.put(out)
}

impl Shown for Value {
    ghost text = { value_text };

    fn put(&self, out: &mut ByteList) -> Result<(), AllocError> {
        match self {
            Value::Byte(value) => value.put(out),
            Value::Char(value) => value.put(out),
            Value::Double(value) => value.put(out),
            Value::Float(value) => value.put(out),
            Value::Int(value) => value.put(out),
            Value::Long(value) => value.put(out),
            Value::Short(value) => value.put(out),
            Value::Boolean(value) => value.put(out),
            Value::Ref(slot) => slot.put(out),
        }
    }
}

/// Appends a value. A number is in decimals, a char is its number, and a truth value is `true` or `false`. A float or a double is `x:` and its bits in
/// hexadecimal. A reference is as in the lines of a graph.
pub fn put_value(out: &mut ByteList, value: &Value) -> Result<(), AllocError>
    ensures { OnOk result (out.new ≡ out.old ++ value_text value.now) }
{
    value.put(out)
}

impl Shown for Values {
    ghost text = { values_text };

    fn put(&self, out: &mut ByteList) -> Result<(), AllocError> {
        match self {
            Values::Bytes(values) => put_listed(out, values.as_slice()),
            Values::Chars(values) => put_listed(out, values.as_slice()),
            Values::Doubles(values) => put_listed(out, values.as_slice()),
            Values::Floats(values) => put_listed(out, values.as_slice()),
            Values::Ints(values) => put_listed(out, values.as_slice()),
            Values::Longs(values) => put_listed(out, values.as_slice()),
            Values::Shorts(values) => put_listed(out, values.as_slice()),
            Values::Bools(values) => put_listed(out, values.as_slice()),
            Values::Refs(values) => put_listed(out, values.as_slice()),
        }
    }
}
