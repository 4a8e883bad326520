//! The pieces in which a node is written.
ghost use Rattle.std.specs.Prelude.{◌≡◌, ◌∷◌, ◌++◌, OnErr, OnOk};
ghost use Rattle.ser_write.specs.Canonical.{Begins, code_of};
ghost use Rattle.ser_write.specs.Nodes.{class_of, element_bytes, behind_handle, own_title, slots_of};

use crate::numbers::{put_32, put_byte};
use crate::pieces::{code_of, put_counts, put_interfaces, put_primitives, put_text, put_title};
use class_desc::Slot;
use sequence::ByteList;
use ser_values::{Node, Values};
use std::alloc::AllocError;

/// Appends the code of a node, and a description's name and its number.
pub(crate) fn put_before_handle(out: &mut ByteList, node: &Node) -> Result<(), AllocError>
    ensures written { OnOk result (out.new ≡ out.old ++ code_of node.now ∷ own_title node.now) }
    ensures kept { OnErr result (Begins out.old out.new) }
{
    put_byte(out, code_of(node))?;
    match node {
        Node::Desc(desc) => put_title(out, desc),
        _ => Ok(()),
    }
}

/// The class that stands before a node's handle.
pub(crate) fn class_of(node: &Node) -> Option<u32>
    ensures { result ≡ class_of node.now }
{
    match node {
        Node::Text(_) => None,
        Node::Desc(_) => None,
        Node::Proxy(_) => None,
        Node::Object { class, .. } => Some(*class),
        Node::Array { class, .. } => Some(*class),
        Node::Class { class } => Some(*class),
        Node::Enum { class, .. } => Some(*class),
    }
}

/// Appends what stands in one piece behind a node's handle: a text, the counts of a description, the interfaces of a proxy, and of an
/// array the length and the primitive elements.
pub(crate) fn put_behind_handle(out: &mut ByteList, node: &Node) -> Result<(), AllocError>
    ensures written { OnOk result (out.new ≡ out.old ++ behind_handle node.now) }
    ensures kept { OnErr result (Begins out.old out.new) }
{
    match node {
        Node::Text(text) => put_text(out, text),
        Node::Desc(desc) => put_counts(out, desc.flags, desc.fields.len()),
        Node::Proxy(proxy) => put_interfaces(out, proxy.names.as_slice()),
        Node::Object { .. } => Ok(()),
        Node::Array { values, .. } => put_elements(out, values),
        Node::Class { .. } => Ok(()),
        Node::Enum { .. } => Ok(()),
    }
}

/// Appends the length of an array, and the elements of one of primitive values.
fn put_elements(out: &mut ByteList, values: &Values) -> Result<(), AllocError>
    ensures written { OnOk result (out.new ≡ out.old ++ element_bytes values.now) }
    ensures kept { OnErr result (Begins out.old out.new) }
{
    put_32(out, values.len())?;
    put_primitives(out, values)
}

/// The elements of an array of references; none of one of primitive values.
pub(crate) fn slots_of(values: &Values) -> &[Slot]
    ensures { result.now ≡ slots_of values.now }
{
    match values {
        Values::Refs(slots) => slots.as_slice(),
        _ => &[],
    }
}
