//! The rules on nodes.
ghost use Rattle.std.specs.Prelude.{◌≡◌, ◌<◌, ◌^◌, Bool, Option, Some, length, slice_get};
ghost use Rattle.class_desc.specs.declared.slot.Slot.{Slot};
ghost use Rattle.ser_values.specs.Loose.{elements_in};
ghost use Rattle.ser_values.specs.Node.{is_desc, is_text, admits, admits_null, takes};
ghost use Rattle.ser_values.specs.Shape.{is_short, are_short, joined_from, is_joined, fits_node, fits_type, are_typed, fits_value, fit_values, fits_part, fits_above, fits_next, or_above, fits_chain, is_external, fits_object, fit_elements, fits_array, is_enum, is_shaped};

use crate::loose::Loose;
use crate::node::{Node, SlotPlace};
use crate::value::{Part, Value, Values};
use class_desc::{
    BLOCK_DATA, ENUM, EXTERNALIZABLE, FieldDesc, Item, SERIALIZABLE, Slot, TypeCode, WRITE_METHOD,
    check_desc, check_type_text, has_flag, is_primitive, lacks_flag,
};
use mod_utf::utf::encoded_len;
use sequence::Units;

/// True where a node is a description, of a class or of a proxy class.
#[tactic(auto, unfolding(crate::specs::Node::is_desc))]
pub fn is_desc(node: &Node) -> bool
    ensures { result ≡ is_desc node.now }
{
    match node {
        Node::Desc(_) => true,
        Node::Proxy(_) => true,
        Node::Text(_) => false,
        Node::Object { .. } => false,
        Node::Array { .. } => false,
        Node::Class { .. } => false,
        Node::Enum { .. } => false,
    }
}

/// True where a node is a text.
#[tactic(auto, unfolding(crate::specs::Node::is_text))]
pub fn is_text(node: &Node) -> bool
    ensures { result ≡ is_text node.now }
{
    match node {
        Node::Text(_) => true,
        Node::Desc(_) => false,
        Node::Proxy(_) => false,
        Node::Object { .. } => false,
        Node::Array { .. } => false,
        Node::Class { .. } => false,
        Node::Enum { .. } => false,
    }
}

/// Returns whether a node may be written for the first time in a place.
#[tactic(auto, unfolding(crate::specs::Node::admits))]
pub(crate) fn admits(place: SlotPlace, node: &Node) -> bool
    ensures { result ≡ admits place node.now }
{
    match place {
        SlotPlace::Reference => true,
        SlotPlace::Class => is_desc(node),
        SlotPlace::Parent => is_desc(node),
        SlotPlace::Text => is_text(node),
    }
}

/// Returns whether a place takes null.
#[tactic(auto, unfolding(crate::specs::Node::admits_null))]
pub(crate) fn admits_null(place: SlotPlace) -> bool
    ensures { result ≡ admits_null place }
{
    match place {
        SlotPlace::Reference => true,
        SlotPlace::Class => false,
        SlotPlace::Parent => true,
        SlotPlace::Text => false,
    }
}

/// Returns whether a place may name a node that has a handle.
#[tactic(auto, unfolding(crate::specs::Node::takes))]
pub(crate) fn takes(place: SlotPlace, unread: bool, node: &Node) -> bool
    ensures { result ≡ takes place unread node.now }
{
    match place {
        SlotPlace::Reference => true,
        SlotPlace::Class => is_desc(node) && !unread,
        SlotPlace::Parent => is_desc(node) && !unread,
        SlotPlace::Text => is_text(node),
    }
}

/// Returns whether a text can be written with a length of 16 bits.
fn is_short(text: &Units) -> bool
    ensures { result ≡ is_short text.now }
{
    encoded_len(text) < 65536
}

/// Returns whether each of some texts can be written with a length of 16 bits.
#[tactic(auto, unfolding(crate::specs::Shape::are_short))]
fn are_short(names: &[Units]) -> bool
    ensures { result ≡ are_short names.now }
{
    for name in names {
        if !is_short(name) {
            return false;
        }
    }
    true
}

/// Returns whether no bytes among items are empty, and no two lie side by side.
#[tactic(auto, unfolding(crate::specs::Shape::joined_from))]
pub(crate) fn is_joined(items: &[Item]) -> bool
    ensures { result ≡ is_joined items.now }
{
    let mut after = false;
    for item in items {
        match item {
            Item::Bytes(bytes) => {
                if after || bytes.is_empty() {
                    return false;
                }
                after = true;
            }
            Item::Ref(_) => after = false,
        }
    }
    true
}

/// Returns whether a value has the type of a code.
pub fn fits_value(code: TypeCode, value: Value) -> bool
    ensures { result ≡ fits_value code value }
{
    match (code, value) {
        (TypeCode::Byte, Value::Byte(_)) => true,
        (TypeCode::Char, Value::Char(_)) => true,
        (TypeCode::Double, Value::Double(_)) => true,
        (TypeCode::Float, Value::Float(_)) => true,
        (TypeCode::Int, Value::Int(_)) => true,
        (TypeCode::Long, Value::Long(_)) => true,
        (TypeCode::Short, Value::Short(_)) => true,
        (TypeCode::Boolean, Value::Boolean(_)) => true,
        (TypeCode::Array, Value::Ref(_)) => true,
        (TypeCode::Object, Value::Ref(_)) => true,
        _ => false,
    }
}

/// Returns whether each field has a value of its type.
#[tactic(auto, unfolding(crate::specs::Shape::fit_values), using(crate::proofs::Shapes::fit_len))]
fn fit_values(fields: &[FieldDesc], values: &[Value]) -> bool
    ensures { result ≡ fit_values fields.now values.now }
{
    if fields.len() != values.len() {
        return false;
    }
    let mut i = 0;
    while i < fields.len() && i < values.len() {
        if !fits_value(fields[i].code, values[i]) {
            return false;
        }
        i += 1;
    }
    true
}

/// Returns whether a part fits a class with these fields. The class writes a note or none.
fn fits_part(fields: &[FieldDesc], writes: bool, part: &Part) -> bool
    ensures { result ≡ fits_part fields.now writes (Some part.now) }
{
    fit_values(fields, part.values.as_slice())
        && ((writes || part.note.is_empty()) && is_joined(part.note.as_slice()))
}

/// The superclass of a description that a part fits.
fn above(node: &Node, part: &Part) -> Option<Slot>
    ensures { (above : Slot → Bool) → fits_above above (Some part.now) (Some node.now)
        ≡ or_above above result }
{
    match node {
        Node::Desc(desc) => {
            let writes = has_flag(desc.flags, WRITE_METHOD);
            if has_flag(desc.flags, SERIALIZABLE)
                && fits_part(desc.fields.as_slice(), writes, part)
            {
                Some(desc.parent)
            } else {
                None
            }
        }
        Node::Proxy(proxy) => {
            if fits_part(&[], false, part) {
                Some(proxy.parent)
            } else {
                None
            }
        }
        _ => None,
    }
}

/// Returns whether an object has one part, with a note alone.
fn is_external(parts: &[Part]) -> bool
    ensures { result ≡ is_external parts.now }
{
    match parts {
        [part] => part.values.is_empty() && is_joined(part.note.as_slice()),
        _ => false,
    }
}

/// Returns whether elements have the type that a class's name says.
fn fit_elements(values: &Values, code: Option<TypeCode>) -> bool
    ensures { result ≡ fit_elements values.now code }
{
    let Some(code) = code else {
        return false;
    };
    match (values, code) {
        (Values::Bytes(_), TypeCode::Byte) => true,
        (Values::Chars(_), TypeCode::Char) => true,
        (Values::Doubles(_), TypeCode::Double) => true,
        (Values::Floats(_), TypeCode::Float) => true,
        (Values::Ints(_), TypeCode::Int) => true,
        (Values::Longs(_), TypeCode::Long) => true,
        (Values::Shorts(_), TypeCode::Short) => true,
        (Values::Bools(_), TypeCode::Boolean) => true,
        (Values::Refs(_), TypeCode::Array) => true,
        (Values::Refs(_), TypeCode::Object) => true,
        _ => false,
    }
}

/// True where a node is a text that names a type of a code. `elements` is what the node's text says of an array's elements.
pub fn fits_node(code: TypeCode, node: &Node, elements: Option<TypeCode>) -> bool
    requires { elements ≡ elements_in node.now }
    ensures { result ≡ fits_node code (Some node.now) }
{
    match node {
        Node::Text(text) => match code {
            TypeCode::Array => elements.is_some(),
            TypeCode::Object => check_type_text(code, text).is_ok(),
            _ => false,
        },
        _ => false,
    }
}

impl Loose<'_> {
    /// Returns whether a field of a code may have such a type text.
    fn fits_type(&self, code: TypeCode, slot: Slot) -> bool
        ensures { result ≡ fits_type self.now.nodes.now code slot }
    {
        match slot {
            Slot::Null => is_primitive(code),
            Slot::Node(number) => match self.node(number) {
                Some(node) => !is_primitive(code) && fits_node(code, node, self.elements(number)),
                None => false,
            },
        }
    }

    /// Returns whether fields have short names and type texts that fit.
    #[tactic(auto, unfolding(crate::specs::Shape::are_typed))]
    fn are_typed(&self, fields: &[FieldDesc]) -> bool
        ensures { result ≡ are_typed self.now.nodes.now fields.now }
    {
        for field in fields {
            if !(is_short(&field.name) && self.fits_type(field.code, field.type_text)) {
                return false;
            }
        }
        true
    }

    /// The superclass of a slot's description, where a part fits it.
    fn next(&self, part: &Part, slot: Slot) -> Option<Slot>
        ensures { (above : Slot → Bool) → fits_next self.now.nodes.now above (Some part.now) slot
            ≡ or_above above result }
    {
        match slot {
            Slot::Null => None,
            Slot::Node(number) => match self.node(number) {
                None => None,
                Some(node) => above(node, part),
            },
        }
    }

    /// Returns whether there is a part for each description of a class's chain, the highest superclass first.
    #[tactic(auto, unfolding(crate::specs::Shape::fits_chain))]
    fn fits_chain(&self, parts: &[Part], class: Slot) -> bool
        ensures { result ≡ fits_chain self.now.nodes.now parts.now (length parts.now) class }
    {
        let mut slot = class;
        let mut i = parts.len();
        while i > 0 {
            i -= 1;
            match self.next(&parts[i], slot) {
                None => return false,
                Some(parent) => slot = parent,
            }
        }
        slot == Slot::Null
    }

    /// Returns whether an object's class and parts fit each other.
    fn fits_object(&self, class: u32, parts: &[Part], chained: bool) -> bool
        ensures { result ≡ fits_object (slice_get self.now.nodes.now class) parts.now chained }
    {
        match self.node(class) {
            Some(Node::Desc(desc)) => {
                let flags = desc.flags;
                (lacks_flag(flags, ENUM) && self.elements(class).is_none())
                    && (chained
                        || ((has_flag(flags, EXTERNALIZABLE) && has_flag(flags, BLOCK_DATA))
                            && is_external(parts)))
            }
            Some(Node::Proxy(_)) => chained,
            _ => false,
        }
    }

    /// Returns whether an array's class and elements fit each other.
    fn fits_array(&self, class: u32, values: &Values) -> bool
        ensures { result ≡ fits_array (slice_get self.now.nodes.now class) values.now }
    {
        match self.node(class) {
            Some(Node::Desc(_)) => {
                fit_elements(values, self.elements(class)) && values.len() < 0x8000_0000
            }
            _ => false,
        }
    }

    /// Returns whether a node is the description of an enum's class.
    fn is_enum(&self, class: u32) -> bool
        ensures { result ≡ is_enum (slice_get self.now.nodes.now class) }
    {
        match self.node(class) {
            Some(Node::Desc(desc)) => has_flag(desc.flags, ENUM),
            _ => false,
        }
    }

    /// Returns whether a node keeps the rules for its kind.
    #[tactic(auto, unfolding(crate::specs::Shape::is_shaped))]
    pub(crate) fn is_shaped(&self, node: &Node) -> bool
        ensures { result ≡ is_shaped self.now.nodes.now node.now }
    {
        match node {
            Node::Text(text) => encoded_len(text) < 0x8000_0000_0000_0000,
            Node::Desc(desc) => {
                (is_short(&desc.name) && desc.fields.len() < 32768)
                    && (check_desc(desc).is_ok()
                        && (self.are_typed(desc.fields.as_slice())
                            && is_joined(desc.note.as_slice())))
            }
            Node::Proxy(proxy) => {
                (proxy.names.len() < 0x8000_0000 && are_short(proxy.names.as_slice()))
                    && is_joined(proxy.note.as_slice())
            }
            Node::Object { class, parts } => {
                let parts = parts.as_slice();
                let chained = self.fits_chain(parts, Slot::Node(*class));
                self.fits_object(*class, parts, chained)
            }
            Node::Array { class, values } => self.fits_array(*class, values),
            Node::Class { .. } => true,
            Node::Enum { class, .. } => self.is_enum(*class),
        }
    }
}
