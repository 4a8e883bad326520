//! The bytes that are written of a node by itself.
ghost use Rattle.std.specs.Prelude.{◌≡◌, ◌∷◌, ◌++◌, ℕ, suc, IfOk, OnErr, OnOk, option_map, reverse, slice_get, take, drop};
ghost use Rattle.std.specs.Int.{w16, to_be_bytes};
ghost use Rattle.std.specs.List.{flat_map};
ghost use Rattle.stream_grammar.specs.Spelled.{writers};
ghost use Rattle.ser_write.specs.Canonical.{Begins, block_of, blocks, code_of, field_bytes, handle_bytes, interface_bytes, short_bytes, text_bytes, title_bytes, primitive_bytes, value_bytes, is_external_class, writers_by};

use crate::numbers::{Spelled, put_16, put_32, put_byte, put_each, put_long_text, put_short_text};
use class_desc::{ClassDesc, EXTERNALIZABLE, FieldDesc, Slot, WRITE_METHOD, has_flag};
use mod_utf::utf::encoded_len;
use sequence::{ByteList, Units};
use ser_values::{FIRST_HANDLE, Node, Value, Values};
use std::alloc::{AllocError, Global};

/// The greatest number of bytes in a block.
pub const BLOCK_BYTES: usize = 1024;

/// Appends a block.
fn put_block(out: &mut ByteList, bytes: &[u8]) -> Result<(), AllocError>
    ensures written { OnOk result (out.new ≡ out.old ++ block_of bytes.now) }
    ensures kept { OnErr result (Begins out.old out.new) }
{
    if bytes.len() < 256 {
        put_byte(out, 0x77)?;
        put_byte(out, bytes.len() as u8)?;
    } else {
        put_byte(out, 0x7A)?;
        put_32(out, bytes.len())?;
    }
    out.append(bytes)
}

/// Bytes in two: at most so many, and the rest.
fn cut(bytes: &[u8], at: usize) -> (&[u8], &[u8])
    ensures front { result.0.now ≡ take at bytes.now }
    ensures back { result.1.now ≡ drop at bytes.now }
{
    bytes.split_at(at.min(bytes.len()))
}

/// Appends bytes as block data.
pub(crate) fn put_blocks(out: &mut ByteList, bytes: &[u8]) -> Result<(), AllocError>
    ensures written { OnOk result (out.new ≡ out.old ++ blocks bytes.now) }
    ensures kept { OnErr result (Begins out.old out.new) }
{
    let mut rest = bytes;
    while !rest.is_empty() {
        let (piece, more) = cut(rest, BLOCK_BYTES);
        put_block(out, piece)?;
        rest = more;
    }
    Ok(())
}

/// Appends bytes as block data: blocks of 1,024 bytes and one shorter rest. It is refused only for want of memory, and then the list is
/// as it was.
pub fn write_blocks_onto(out: &mut ByteList, bytes: &[u8]) -> Result<(), AllocError>
    ensures written { OnOk result (out.new ≡ out.old ++ blocks bytes.now) }
    ensures err { OnErr result (out.new ≡ out.old) }
{
    let before = out.len();
    match put_blocks(out, bytes) {
        Ok(()) => Ok(()),
        Err(refusal) => {
            out.truncate(before);
            Err(refusal)
        }
    }
}

/// The code of a node.
pub(crate) fn code_of(node: &Node) -> u8
    ensures { result ≡ code_of node.now }
{
    match node {
        Node::Text(text) => {
            if encoded_len(text) < 65536 {
                0x74
            } else {
                0x7C
            }
        }
        Node::Desc(_) => 0x72,
        Node::Proxy(_) => 0x7D,
        Node::Object { .. } => 0x73,
        Node::Array { .. } => 0x75,
        Node::Class { .. } => 0x76,
        Node::Enum { .. } => 0x7E,
    }
}

/// Appends a text, with a length of 64 bits where 16 don't do.
pub(crate) fn put_text(out: &mut ByteList, text: &Units) -> Result<(), AllocError>
    ensures written { OnOk result (out.new ≡ out.old ++ text_bytes text.now) }
    ensures kept { OnErr result (Begins out.old out.new) }
{
    if encoded_len(text) < 65536 {
        put_short_text(out, text)
    } else {
        put_long_text(out, text)
    }
}

/// Appends the handle of a node.
pub(crate) fn put_handle(out: &mut ByteList, number: u32) -> Result<(), AllocError>
    ensures written { OnOk result (out.new ≡ out.old ++ handle_bytes number) }
    ensures kept { OnErr result (Begins out.old out.new) }
{
    put_byte(out, 0x71)?;
    put_32(out, FIRST_HANDLE as usize + number as usize)
}

/// Appends a description's name and its number.
pub(crate) fn put_title(out: &mut ByteList, desc: &ClassDesc) -> Result<(), AllocError>
    ensures written { OnOk result (out.new ≡ out.old ++ title_bytes desc.now) }
    ensures kept { OnErr result (Begins out.old out.new) }
{
    put_short_text(out, &desc.name)?;
    desc.suid.put(out)
}

/// Appends a description's flags and how many fields it has.
pub(crate) fn put_counts(out: &mut ByteList, flags: u8, fields: usize) -> Result<(), AllocError>
    ensures written { OnOk result (out.new ≡ out.old ++ flags ∷ to_be_bytes w16 fields) }
    ensures kept { OnErr result (Begins out.old out.new) }
{
    put_byte(out, flags)?;
    put_16(out, fields)
}

/// Appends a field's code and its name.
pub(crate) fn put_field(out: &mut ByteList, field: &FieldDesc) -> Result<(), AllocError>
    ensures written { OnOk result (out.new ≡ out.old ++ field_bytes field.now) }
    ensures kept { OnErr result (Begins out.old out.new) }
{
    put_byte(out, field.code.letter())?;
    put_short_text(out, &field.name)
}

/// Appends how many interfaces a proxy has, and their names.
pub(crate) fn put_interfaces(out: &mut ByteList, names: &[Units]) -> Result<(), AllocError>
    ensures written { OnOk result (out.new ≡ out.old ++ interface_bytes names.now) }
    ensures kept { OnErr result (Begins out.old out.new) }
{
    put_32(out, names.len())?;
    put_names(out, names)
}

/// Appends the names of a proxy's interfaces.
fn put_names(out: &mut ByteList, names: &[Units]) -> Result<(), AllocError>
    ensures written { OnOk result (out.new ≡ out.old ++ flat_map short_bytes names.now) }
    ensures kept { OnErr result (Begins out.old out.new) }
{
    for name in names {
        put_short_text(out, name)?;
    }
    Ok(())
}

/// Appends the elements of an array of primitive values.
pub(crate) fn put_primitives(out: &mut ByteList, values: &Values) -> Result<(), AllocError>
    ensures written { OnOk result (out.new ≡ out.old ++ primitive_bytes values.now) }
    ensures kept { OnErr result (Begins out.old out.new) }
{
    match values {
        Values::Bytes(values) => out.append(values.as_slice()),
        Values::Chars(values) => put_each(out, values.as_slice()),
        Values::Doubles(values) => put_each(out, values.as_slice()),
        Values::Floats(values) => put_each(out, values.as_slice()),
        Values::Ints(values) => put_each(out, values.as_slice()),
        Values::Longs(values) => put_each(out, values.as_slice()),
        Values::Shorts(values) => put_each(out, values.as_slice()),
        Values::Bools(values) => put_each(out, values.as_slice()),
        Values::Refs(_) => Ok(()),
    }
}

/// Appends a primitive value; nothing for a reference. It is refused only for want of memory, and then what stood in the list still begins it.
pub fn put_primitive(out: &mut ByteList, value: Value) -> Result<(), AllocError>
    ensures written { OnOk result (out.new ≡ out.old ++ value_bytes value) }
    ensures kept { OnErr result (Begins out.old out.new) }
{
    match value {
        Value::Byte(value) => out.push(value),
        Value::Char(value) => value.put(out),
        Value::Double(value) => value.put(out),
        Value::Float(value) => value.put(out),
        Value::Int(value) => value.put(out),
        Value::Long(value) => value.put(out),
        Value::Short(value) => value.put(out),
        Value::Boolean(value) => value.put(out),
        Value::Ref(_) => Ok(()),
    }
}

/// The node of a number.
pub(crate) fn node_at(nodes: &[Node], number: u32) -> Option<&Node>
    ensures { slice_get nodes.now number ≡ option_map (λ node. node.now) result }
{
    nodes.get(number as usize)
}

/// Returns whether a class is externalizable.
pub(crate) fn is_external_class(node: Option<&Node>) -> bool
    ensures { result ≡ is_external_class (option_map (λ n. n.now) node.entry) }
{
    match node {
        Some(Node::Desc(desc)) => has_flag(desc.flags, EXTERNALIZABLE),
        _ => false,
    }
}

/// Returns whether a slot's description has a write method, and its superclass.
#[tactic(auto, unfolding(stream_grammar::specs::Spelled::writers))]
fn writer_at(nodes: &[Node], slot: Slot) -> Option<(bool, Slot)>
    ensures { (n : ℕ) → writers nodes.now (suc n) slot ≡ writers_by (writers nodes.now n) result }
{
    match slot {
        Slot::Null => None,
        Slot::Node(number) => match nodes.get(number as usize) {
            Some(Node::Desc(desc)) => { Some((has_flag(desc.flags, WRITE_METHOD), desc.parent)) }
            Some(Node::Proxy(proxy)) => Some((false, proxy.parent)),
            _ => None,
        },
    }
}

/// Which descriptions of a class's chain have a write method, the class's own first.
fn writers_up(
    alloc: Global,
    nodes: &[Node],
    class: Slot,
    count: usize,
) -> Result<Vec<bool>, AllocError>
    ensures { IfOk result (λ up. reverse up.items ≡ writers nodes.now count class) }
{
    let mut up = Vec::new(alloc);
    let mut slot = class;
    let mut left = count;
    while left > 0 {
        match writer_at(nodes, slot) {
            None => return Ok(up),
            Some((writes, parent)) => {
                up.push(writes)?;
                slot = parent;
            }
        }
        left -= 1;
    }
    Ok(up)
}

/// Which descriptions of a class's chain have a write method, the highest superclass first.
pub(crate) fn writers_of(
    alloc: Global,
    nodes: &[Node],
    class: Slot,
    count: usize,
) -> Result<Vec<bool>, AllocError>
    ensures { IfOk result (λ down. down.items ≡ writers nodes.now count class) }
{
    let mut writers = writers_up(alloc, nodes, class, count)?;
    writers.reverse();
    Ok(writers)
}
