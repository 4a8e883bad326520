//! The part of an object for one of its classes, found by the class's name.
ghost use Rattle.std.specs.Prelude.{◌≡◌, length, option_map, position, IfOk};
ghost use Rattle.class_desc.specs.declared.field.TypeCode.TheVariants as types;
ghost use Rattle.java_shapes.specs.Objects.{same_text, is_field, value_of, node_at, text_in, named_in, parent_in, held_within, held_in, own_in, own_at, as_slot, as_short, as_int, as_long, array_in, array_at, as_bytes, as_refs};

use class_desc::{ClassDesc, FieldDesc, Slot, SlotList, TypeCode};
use sequence::{ByteList, Units};
use ser_values::{Node, Part, Value, Values};
use std::alloc::{AllocError, Global};

/// The part of an object for one of its classes, with the class's description.
#[derive(Clone, Copy)]
pub(crate) struct ClassPart<'a> {
    /// The class's description.
    pub desc: &'a ClassDesc,
    /// The part of the object for the class.
    pub part: &'a Part,
}

/// A copy of a text, in memory of its own size.
pub(crate) fn copy_text(alloc: Global, text: &Units) -> Result<Units, AllocError>
    ensures { IfOk result (λ copy. copy ≡ text.now) }
{
    Units::from_slice(alloc, text.as_slice())
}

/// Returns whether a text is this one of ASCII characters. It compares all units, so that one step compares several
/// of them.
pub(crate) fn is_text(units: &Units, text: &str) -> bool
    ensures { result ≡ same_text units.now text.now }
{
    let units = units.as_slice();
    let bytes = text.as_bytes();
    if units.len() != bytes.len() {
        return false;
    }
    let mut same = true;
    let mut at = 0;
    while at < units.len() && at < bytes.len() {
        same = same & (units[at] == u16::from(bytes[at]));
        at += 1;
    }
    same
}

/// Returns whether a field has this type and this name.
fn is_field(field: &FieldDesc, code: TypeCode, name: &str) -> bool
    ensures { result ≡ is_field code name.now field.now }
{
    field.code.letter() == code.letter() && is_text(&field.name, name)
}

/// The node that a slot names, if it names one.
pub(crate) fn node_at<'a>(nodes: &'a [Node], slot: Slot) -> Option<&'a Node>
    ensures { option_map (λ node. node.now) result ≡ node_at nodes.now slot }
{
    match slot {
        Slot::Null => None,
        Slot::Node(number) => nodes.get(number as usize),
    }
}

/// The text that a node is.
pub(crate) fn text_in<'a>(node: Option<&'a Node>) -> Option<&'a Units>
    ensures { option_map (λ text. text.now) result
        ≡ text_in (option_map (λ node. node.now) node.entry) }
{
    match node {
        Some(Node::Text(text)) => Some(text),
        _ => None,
    }
}

/// The description of a class, where it has this name.
pub(crate) fn class_by_name<'a>(node: Option<&'a Node>, name: &str) -> Option<&'a ClassDesc>
    ensures { option_map (λ desc. desc.now) result
        ≡ named_in name.now (option_map (λ node. node.now) node.entry) }
{
    match node {
        Some(Node::Desc(desc)) => {
            if is_text(&desc.name, name) {
                Some(desc)
            } else {
                None
            }
        }
        _ => None,
    }
}

/// The superclass of a class, if there is a class.
pub(crate) fn parent_of(node: Option<&Node>) -> Option<Slot>
    ensures { result ≡ parent_in (option_map (λ node. node.now) node.entry) }
{
    match node {
        Some(Node::Desc(desc)) => Some(desc.parent),
        Some(Node::Proxy(proxy)) => Some(proxy.parent),
        _ => None,
    }
}

/// Returns the part for the first class of this name, from the class of a slot up.
fn held_by<'a>(
    nodes: &'a [Node],
    class: Slot,
    parts: &'a [Part],
    name: &str,
) -> Option<ClassPart<'a>>
    ensures { option_map (λ held. (held.desc.now, held.part.now)) result
        ≡ held_within nodes.now name.now parts.now (length parts.now) class }
{
    let mut slot = class;
    let mut left = parts.len();
    while left > 0 {
        left -= 1;
        let node = node_at(nodes, slot);
        match class_by_name(node, name) {
            Some(desc) => {
                return Some(ClassPart {
                    desc,
                    part: &parts[left],
                });
            }
            None => slot = parent_of(node)?,
        }
    }
    None
}

/// Returns the part of an object for the first of its classes that has this name. Its own class comes first. A node
/// that is no object has none.
pub(crate) fn held_in<'a>(
    nodes: &'a [Node],
    node: Option<&'a Node>,
    name: &str,
) -> Option<ClassPart<'a>>
    ensures { option_map (λ held. (held.desc.now, held.part.now)) result
        ≡ held_in nodes.now name.now (option_map (λ node. node.now) node.entry) }
{
    match node {
        Some(Node::Object { class, parts }) => {
            held_by(nodes, Slot::Node(*class), parts.as_slice(), name)
        }
        _ => None,
    }
}

/// Returns the part of an object for its own class, where that has this name. A node that is no object has none.
pub(crate) fn own_in<'a>(
    nodes: &'a [Node],
    node: Option<&'a Node>,
    name: &str,
) -> Option<ClassPart<'a>>
    ensures { option_map (λ held. (held.desc.now, held.part.now)) result
        ≡ own_in nodes.now name.now (option_map (λ node. node.now) node.entry) }
{
    match node {
        Some(Node::Object { class, parts }) => {
            let desc = class_by_name(nodes.get(*class as usize), name)?;
            let part = parts.last()?;
            Some(ClassPart { desc, part })
        }
        _ => None,
    }
}

/// The place of the field of this type and this name.
fn place_of(fields: &[FieldDesc], code: TypeCode, name: &str) -> Option<usize>
    ensures { result ≡ position (is_field code name.now) fields.now }
{
    fields.iter().position(|field| is_field(field, code, name))
}

impl<'a> ClassPart<'a> {
    /// The value of the class's field of this type and this name.
    #[tactic(auto, unfolding(crate::specs::Objects::value_of))]
    pub(crate) fn value(&self, code: TypeCode, name: &str) -> Option<Value>
        ensures { result ≡ value_of (self.now.desc.now, self.now.part.now) code name.now }
    {
        let at = place_of(self.desc.fields.as_slice(), code, name)?;
        self.part.values.get(at).copied()
    }

    /// The reference in the class's field of this type and this name.
    pub(crate) fn slot(&self, code: TypeCode, name: &str) -> Option<Slot>
        ensures { result ≡ as_slot (value_of (self.now.desc.now, self.now.part.now) code name.now) }
    {
        match self.value(code, name) {
            Some(Value::Ref(slot)) => Some(slot),
            _ => None,
        }
    }

    /// The number in the class's field of type `short` and this name.
    pub(crate) fn short(&self, name: &str) -> Option<i16>
        ensures { result
            ≡ as_short (value_of (self.now.desc.now, self.now.part.now) types.Short name.now) }
    {
        match self.value(TypeCode::Short, name) {
            Some(Value::Short(number)) => Some(number),
            _ => None,
        }
    }

    /// The number in the class's field of type `int` and this name.
    pub(crate) fn int(&self, name: &str) -> Option<i32>
        ensures { result
            ≡ as_int (value_of (self.now.desc.now, self.now.part.now) types.Int name.now) }
    {
        match self.value(TypeCode::Int, name) {
            Some(Value::Int(number)) => Some(number),
            _ => None,
        }
    }

    /// The number in the class's field of type `long` and this name.
    pub(crate) fn long(&self, name: &str) -> Option<i64>
        ensures { result
            ≡ as_long (value_of (self.now.desc.now, self.now.part.now) types.Long name.now) }
    {
        match self.value(TypeCode::Long, name) {
            Some(Value::Long(number)) => Some(number),
            _ => None,
        }
    }
}

/// Returns the part of a slot's object for its own class, where that has this name.
pub(crate) fn own_at<'a>(nodes: &'a [Node], slot: Slot, name: &str) -> Option<ClassPart<'a>>
    ensures { option_map (λ held. (held.desc.now, held.part.now)) result
        ≡ own_at nodes.now name.now slot }
{
    own_in(nodes, node_at(nodes, slot), name)
}

/// The elements of a node that is an array, whose class has this name.
fn array_in<'a>(nodes: &'a [Node], node: Option<&'a Node>, name: &str) -> Option<&'a Values>
    ensures { option_map (λ values. values.now) result
        ≡ array_in nodes.now name.now (option_map (λ node. node.now) node.entry) }
{
    match node {
        Some(Node::Array { class, values }) => match class_by_name(
            nodes.get(*class as usize),
            name,
        ) {
            Some(_desc) => Some(values),
            None => None,
        },
        _ => None,
    }
}

/// The bytes of the array of a slot, whose class has this name.
pub(crate) fn bytes_at<'a>(nodes: &'a [Node], slot: Slot, name: &str) -> Option<&'a ByteList>
    ensures { option_map (λ bytes. bytes.now) result ≡ as_bytes (array_at nodes.now name.now slot) }
{
    match array_in(nodes, node_at(nodes, slot), name) {
        Some(Values::Bytes(bytes)) => Some(bytes),
        _ => None,
    }
}

/// The references of the array of a slot, whose class has this name.
pub(crate) fn refs_at<'a>(nodes: &'a [Node], slot: Slot, name: &str) -> Option<&'a SlotList>
    ensures { option_map (λ slots. slots.now) result ≡ as_refs (array_at nodes.now name.now slot) }
{
    match array_in(nodes, node_at(nodes, slot), name) {
        Some(Values::Refs(slots)) => Some(slots),
        _ => None,
    }
}
