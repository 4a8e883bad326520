//! Nodes are written where they are first wanted.
ghost use Rattle.std.specs.Prelude.{◌≡◌, ◌++◌, IfOk, OnErr, OnOk, map, slice_get};
ghost use Rattle.stream_grammar.specs.Spelled.{field_tokens, value_token, reference, part_tokens, IsStream};
ghost use Rattle.ser_values.specs.Fronts.{put_block};
ghost use Rattle.ser_write.specs.Canonical.{write_items, write_all, ending_tokens, object_tokens, note_tokens, tokens_after, write_new, write_at, contents, canonical, front_bytes, after_front, SpellContents, SpellFully, AreOfNoOther, Adds};

use crate::node_pieces::{class_of, put_before_handle, put_behind_handle, slots_of};
use crate::numbers::put_byte;
use crate::pieces::{
    is_external_class, node_at, put_blocks, put_field, put_handle, put_primitive, writers_of,
};
use class_desc::{FieldDesc, Item, Slot, is_primitive};
use sequence::ByteList;
use ser_values::limits::LEVELS;
use ser_values::{Graph, Node, Part, Value};
use std::alloc::{AllocError, Global};

/// Writes a reference, at most so many levels deep: null, a handle, or a node whole. `next` nodes have handles; the answer
/// is how many have one afterwards.
#[cycle(writing)]
#[tactic(auto, unfolding(crate::specs::Canonical::write_one), using(crate::proofs::Writes::write_at_is))]
fn put_slot(
    alloc: Global,
    out: &mut ByteList,
    nodes: &[Node],
    next: u64,
    slot: Slot,
    left: u32,
) -> Result<u64, AllocError>
    ensures { Adds out.old out.new result (write_at left nodes.now next slot) }
{
    match slot {
        Slot::Null => {
            put_byte(out, 0x70)?;
            Ok(next)
        }
        Slot::Node(number) => {
            if u64::from(number) < next {
                put_handle(out, number)?;
                Ok(next)
            } else if left == 0 {
                Ok(next)
            } else {
                put_new(alloc, out, nodes, next, number, left - 1)
            }
        }
    }
}

/// Writes a node that has no handle.
#[cycle(writing)]
fn put_new(
    alloc: Global,
    out: &mut ByteList,
    nodes: &[Node],
    next: u64,
    number: u32,
    left: u32,
) -> Result<u64, AllocError>
    ensures { Adds out.old out.new result
        (write_new nodes.now (write_at left nodes.now) next number (slice_get nodes.now number)) }
{
    match node_at(nodes, number) {
        None => Ok(next),
        Some(node) => {
            put_before_handle(out, node)?;
            match class_of(node) {
                None => put_after(alloc, out, nodes, u64::from(number) + 1, node, left),
                Some(class) => {
                    let _before = put_slot(alloc, out, nodes, next, Slot::Node(class), left)?;
                    put_after(alloc, out, nodes, u64::from(number) + 1, node, left)
                }
            }
        }
    }
}

/// Writes what stands after a node's handle.
#[cycle(writing)]
fn put_after(
    alloc: Global,
    out: &mut ByteList,
    nodes: &[Node],
    next: u64,
    node: &Node,
    left: u32,
) -> Result<u64, AllocError>
    ensures { Adds out.old out.new result
        (write_all (write_at left nodes.now) next (tokens_after nodes.now node.now)) }
{
    put_behind_handle(out, node)?;
    match node {
        Node::Text(_) => Ok(next),
        Node::Desc(desc) => {
            let fields = desc.fields.as_slice();
            let note = desc.note.as_slice();
            put_class_parts(alloc, out, nodes, next, fields, note, desc.parent, left)
        }
        Node::Proxy(proxy) => {
            let note = proxy.note.as_slice();
            put_class_parts(alloc, out, nodes, next, &[], note, proxy.parent, left)
        }
        Node::Object { class, parts } => {
            put_object(alloc, out, nodes, next, *class, parts.as_slice(), left)
        }
        Node::Array { values, .. } => { put_slots(alloc, out, nodes, next, slots_of(values), left) }
        Node::Class { .. } => Ok(next),
        Node::Enum { name, .. } => put_slot(alloc, out, nodes, next, Slot::Node(*name), left),
    }
}

/// Writes fields, and what a description ends with: its annotation, and its superclass.
#[cycle(writing)]
fn put_class_parts(
    alloc: Global,
    out: &mut ByteList,
    nodes: &[Node],
    next: u64,
    fields: &[FieldDesc],
    annotation: &[Item],
    parent: Slot,
    left: u32,
) -> Result<u64, AllocError>
    ensures { Adds out.old out.new result
        (write_all (write_at left nodes.now) next
        (field_tokens fields.now ++ ending_tokens annotation.now parent)) }
{
    let next = put_fields(alloc, out, nodes, next, fields, left)?;
    let next = put_note(alloc, out, nodes, next, true, annotation, left)?;
    put_slot(alloc, out, nodes, next, parent, left)
}

/// Writes an object's parts, or the note of an externalizable one.
#[cycle(writing)]
#[tactic(auto, unfolding(crate::specs::Canonical::write_all))]
fn put_object(
    alloc: Global,
    out: &mut ByteList,
    nodes: &[Node],
    next: u64,
    class: u32,
    parts: &[Part],
    left: u32,
) -> Result<u64, AllocError>
    ensures { Adds out.old out.new result
        (write_all (write_at left nodes.now) next (object_tokens nodes.now class parts.now)) }
{
    if is_external_class(node_at(nodes, class)) {
        match parts {
            [] => Ok(next),
            [part, ..] => { put_note(alloc, out, nodes, next, true, part.note.as_slice(), left) }
        }
    } else {
        let writes = writers_of(alloc, nodes, Slot::Node(class), parts.len())?;
        put_parts(alloc, out, nodes, next, &writes, parts, left)
    }
}

/// Writes fields: each one's code and name, and a reference field's type text.
#[cycle(writing)]
#[tactic(auto, unfolding(crate::specs::Canonical::write_all))]
fn put_fields(
    alloc: Global,
    out: &mut ByteList,
    nodes: &[Node],
    next: u64,
    fields: &[FieldDesc],
    left: u32,
) -> Result<u64, AllocError>
    ensures { Adds out.old out.new result
        (write_all (write_at left nodes.now) next (field_tokens fields.now)) }
{
    let mut next = next;
    for field in fields {
        put_field(out, field)?;
        if !is_primitive(field.code) {
            next = put_slot(alloc, out, nodes, next, field.type_text, left)?;
        }
    }
    Ok(next)
}

/// Writes items.
#[cycle(writing)]
#[tactic(auto, unfolding(crate::specs::Canonical::write_items))]
fn put_items(
    alloc: Global,
    out: &mut ByteList,
    nodes: &[Node],
    next: u64,
    items: &[Item],
    left: u32,
) -> Result<u64, AllocError>
    ensures { Adds out.old out.new result (write_items (write_at left nodes.now) next items.now) }
{
    let mut next = next;
    for item in items {
        match item {
            Item::Bytes(bytes) => put_blocks(out, bytes.as_slice())?,
            Item::Ref(slot) => next = put_slot(alloc, out, nodes, next, *slot, left)?,
        }
    }
    Ok(next)
}

/// Writes values.
#[cycle(writing)]
#[tactic(auto, unfolding(crate::specs::Canonical::write_all))]
fn put_values(
    alloc: Global,
    out: &mut ByteList,
    nodes: &[Node],
    next: u64,
    values: &[Value],
    left: u32,
) -> Result<u64, AllocError>
    ensures { Adds out.old out.new result
        (write_all (write_at left nodes.now) next (map value_token values.now)) }
{
    let mut next = next;
    for value in values {
        match value {
            Value::Ref(slot) => next = put_slot(alloc, out, nodes, next, *slot, left)?,
            _ => put_primitive(out, *value)?,
        }
    }
    Ok(next)
}

/// Writes parts: the values of each, and its note where the class has a write method.
#[cycle(writing)]
#[tactic(auto, unfolding(crate::specs::Canonical::write_all, stream_grammar::specs::Spelled::part_tokens))]
fn put_parts(
    alloc: Global,
    out: &mut ByteList,
    nodes: &[Node],
    next: u64,
    writes: &[bool],
    parts: &[Part],
    left: u32,
) -> Result<u64, AllocError>
    ensures { Adds out.old out.new result
        (write_all (write_at left nodes.now) next (part_tokens writes.now parts.now)) }
{
    let mut next = next;
    let mut i = 0;
    while i < parts.len() && i < writes.len() {
        let part = &parts[i];
        next = put_values(alloc, out, nodes, next, part.values.as_slice(), left)?;
        next = put_note(
            alloc,
            out,
            nodes,
            next,
            writes[i],
            part.note.as_slice(),
            left,
        )?;
        i += 1;
    }
    Ok(next)
}

/// Writes a note, where there is one: items, and the mark of their end.
#[cycle(writing)]
#[tactic(auto, unfolding(crate::specs::Canonical::write_all))]
fn put_note(
    alloc: Global,
    out: &mut ByteList,
    nodes: &[Node],
    next: u64,
    writes: bool,
    note: &[Item],
    left: u32,
) -> Result<u64, AllocError>
    ensures { Adds out.old out.new result
        (write_all (write_at left nodes.now) next (note_tokens writes note.now)) }
{
    if writes {
        let next = put_items(alloc, out, nodes, next, note, left)?;
        put_byte(out, 0x78)?;
        Ok(next)
    } else {
        Ok(next)
    }
}

/// Writes references.
#[cycle(writing)]
#[tactic(auto, unfolding(crate::specs::Canonical::write_all))]
fn put_slots(
    alloc: Global,
    out: &mut ByteList,
    nodes: &[Node],
    next: u64,
    slots: &[Slot],
    left: u32,
) -> Result<u64, AllocError>
    ensures { Adds out.old out.new result
        (write_all (write_at left nodes.now) next (map reference slots.now)) }
{
    let mut next = next;
    for slot in slots {
        next = put_slot(alloc, out, nodes, next, *slot, left)?;
    }
    Ok(next)
}

/// Appends the bytes of a graph's items, as they stand in a stream after its head. Blocks have 1,024 bytes and one shorter
/// rest; a handle stands for each node that was written before. It is refused only for want of memory, and then the list is
/// as it was.
pub fn write_items_onto(alloc: Global, out: &mut ByteList, graph: &Graph) -> Result<(), AllocError>
    ensures written { OnOk result (out.new ≡ out.old ++ contents graph.now.nodes graph.now.items) }
    ensures spelled { OnOk result
        (SpellContents graph.now.nodes graph.now.items (contents graph.now.nodes graph.now.items)) }
    ensures err { OnErr result (out.new ≡ out.old) }
{
    let before = out.len();
    let nodes = graph.nodes().as_slice();
    let items = graph.items().as_slice();
    match put_items(alloc, out, nodes, 0, items, LEVELS) {
        Ok(_count) => Ok(()),
        Err(refusal) => {
            out.truncate(before);
            Err(refusal)
        }
    }
}

/// The bytes that items begin with, and the items after them.
fn split_front(items: &[Item]) -> (&[u8], &[Item])
    ensures bytes { result.0.now ≡ front_bytes items.now }
    ensures rest { result.1.now ≡ after_front items.now }
{
    match items {
        [Item::Bytes(bytes), rest @ ..] => (bytes.as_slice(), rest),
        _ => (&[], items),
    }
}

/// Writes bytes and then items. The bytes join those that the items begin with.
fn put_joined(
    alloc: Global,
    out: &mut ByteList,
    front: &[u8],
    nodes: &[Node],
    items: &[Item],
) -> Result<u64, AllocError>
    ensures { Adds out.old out.new result
        (write_items (write_at LEVELS nodes.now) 0 (put_block front.now items.now)) }
{
    let (bytes, rest) = split_front(items);
    let mut run = ByteList::from_slice(alloc, front)?;
    run.append(bytes)?;
    put_blocks(out, run.as_slice())?;
    put_items(alloc, out, nodes, 0, rest, LEVELS)
}

/// Appends bytes as block data and then the bytes of a graph's items, as `write_items_onto` writes them: the bytes and those that the
/// items begin with are one run. It is refused only for want of memory, and then the list is as it was.
pub fn write_items_after(
    alloc: Global,
    out: &mut ByteList,
    front: &[u8],
    graph: &Graph,
) -> Result<(), AllocError>
    ensures written { OnOk result (out.new ≡ out.old
        ++ contents graph.now.nodes (put_block front.now graph.now.items)) }
    ensures spelled { OnOk result
        (∥ SpellFully graph.now.nodes (put_block front.now graph.now.items)
        (contents graph.now.nodes (put_block front.now graph.now.items)) ∥₁) }
    ensures err { OnErr result (out.new ≡ out.old) }
{
    let start = out.len();
    let nodes = graph.nodes().as_slice();
    let items = graph.items().as_slice();
    match put_joined(alloc, out, front, nodes, items) {
        Ok(_count) => Ok(()),
        Err(refusal) => {
            out.truncate(start);
            Err(refusal)
        }
    }
}

/// The bytes of a graph: the stream's head, and its items, as `write_items_onto` writes them. Two graphs have the same bytes
/// only where they are equal. It is refused only for want of memory.
pub fn write_stream(alloc: Global, graph: &Graph) -> Result<ByteList, AllocError>
    ensures spelled { IfOk result (λ bytes. ∥ IsStream graph.now.nodes graph.now.items bytes ∥₁) }
    ensures canonical { IfOk result (λ bytes. bytes ≡ canonical graph.now.nodes graph.now.items) }
    ensures alone { IfOk result (AreOfNoOther graph.now.nodes graph.now.items) }
{
    let mut out = ByteList::from_slice(alloc, &[0xAC, 0xED, 0x00, 0x05])?;
    write_items_onto(alloc, &mut out, graph)?;
    Ok(out)
}
