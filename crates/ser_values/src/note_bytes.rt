//! Graphs in which one byte of an object's note is another.
ghost use Rattle.std.specs.Prelude.{◌≡◌, false, Some, IfSome, option_map, slice_get};
ghost use Rattle.ser_values.specs.Builder.{or_none, put};
ghost use Rattle.ser_values.specs.NoteBytes.{byte_to, item_to, note_to, object_to, with_note_byte};

use crate::graph::Graph;
use crate::node::{Node, NodeList};
use crate::value::{Part, PartList};
use class_desc::{Item, Items};
use sequence::ByteList;
use std::alloc::Global;
use std::mem;

/// The place of a byte in an object's note. Each number counts from 0.
#[derive(Clone, Copy, Debug, PartialEq, Eq)]
pub struct NotePlace {
    /// The object's node.
    pub node: u32,
    /// The object's part that has the note.
    pub part: usize,
    /// The note's item of block data.
    pub item: usize,
    /// The byte in it.
    pub offset: usize,
}

/// Writes over a byte. False where none stands there.
fn set_byte(bytes: &mut [u8], offset: usize, byte: u8) -> bool
    ensures done { put bytes.old offset (byte_to byte (slice_get bytes.old offset))
        ≡ or_none result (Some bytes.new) }
    ensures kept { result ≡ false → bytes.new ≡ bytes.old }
{
    if offset >= bytes.len() {
        return false;
    }
    bytes[offset] = byte;
    true
}

/// Writes over a byte of an item.
fn set_in_item(alloc: Global, item: &mut Item, offset: usize, byte: u8) -> bool
    ensures done { item_to offset byte (Some item.old) ≡ or_none result (Some item.new) }
    ensures kept { result ≡ false → item.new ≡ item.old }
{
    match item {
        Item::Bytes(bytes) => {
            let mut list = mem::replace(bytes, ByteList::new(alloc)).into_vec();
            let done = set_byte(&mut list, offset, byte);
            *bytes = ByteList::from_vec(list);
            done
        }
        Item::Ref(_) => false,
    }
}

/// Writes over a byte of one of several items.
fn set_in_items(alloc: Global, items: &mut [Item], item: usize, offset: usize, byte: u8) -> bool
    ensures done { put items.old item (item_to offset byte (slice_get items.old item))
        ≡ or_none result (Some items.new) }
    ensures kept { result ≡ false → items.new ≡ items.old }
{
    if item >= items.len() {
        return false;
    }
    set_in_item(alloc, &mut items[item], offset, byte)
}

/// Writes over a byte of a part's note.
fn set_in_part(alloc: Global, part: &mut Part, item: usize, offset: usize, byte: u8) -> bool
    ensures done { note_to item offset byte (Some part.old) ≡ or_none result (Some part.new) }
    ensures kept { result ≡ false → part.new ≡ part.old }
{
    let mut note = mem::replace(&mut part.note, Items::new(alloc)).into_vec();
    let done = set_in_items(alloc, &mut note, item, offset, byte);
    part.note = Items::from_vec(note);
    done
}

/// Writes over a byte of the note of one of several parts.
fn set_in_parts(alloc: Global, parts: &mut [Part], at: NotePlace, byte: u8) -> bool
    ensures done { put parts.old at.part
        (note_to at.item at.offset byte (slice_get parts.old at.part))
        ≡ or_none result (Some parts.new) }
    ensures kept { result ≡ false → parts.new ≡ parts.old }
{
    if at.part >= parts.len() {
        return false;
    }
    set_in_part(alloc, &mut parts[at.part], at.item, at.offset, byte)
}

/// Writes over a byte of an object's note.
fn set_in_node(alloc: Global, node: &mut Node, at: NotePlace, byte: u8) -> bool
    ensures done { object_to at.part at.item at.offset byte (Some node.old)
        ≡ or_none result (Some node.new) }
    ensures kept { result ≡ false → node.new ≡ node.old }
{
    match node {
        Node::Object { parts, .. } => {
            let mut list = mem::replace(parts, PartList::new(alloc)).into_vec();
            let done = set_in_parts(alloc, &mut list, at, byte);
            *parts = PartList::from_vec(list);
            done
        }
        _ => false,
    }
}

/// Writes over a byte of the note of one of several nodes.
fn set_in_nodes(alloc: Global, nodes: &mut [Node], at: NotePlace, byte: u8) -> bool
    ensures done { with_note_byte nodes.old at byte ≡ or_none result (Some nodes.new) }
    ensures kept { result ≡ false → nodes.new ≡ nodes.old }
{
    if at.node as usize >= nodes.len() {
        return false;
    }
    set_in_node(alloc, &mut nodes[at.node as usize], at, byte)
}

/// The nodes with a byte at a place of a note. None where no byte stands there.
fn nodes_with_byte(alloc: Global, nodes: NodeList, at: NotePlace, byte: u8) -> Option<NodeList>
    ensures { result ≡ with_note_byte nodes at byte }
{
    let mut nodes = nodes.into_vec();
    if set_in_nodes(alloc, nodes.as_mut_slice(), at, byte) {
        Some(NodeList::from_vec(nodes))
    } else {
        None
    }
}

impl Graph {
    /// The same graph with one byte of an object's note written over. None exactly where no byte of a note stands at the
    /// place. It takes no memory.
    pub fn with_note_byte(self, alloc: Global, at: NotePlace, byte: u8) -> Option<Graph>
        ensures nodes { option_map (λ graph. graph.nodes) result
            ≡ with_note_byte self.nodes at byte }
        ensures items { IfSome result (λ graph. graph.items ≡ self.items) }
    {
        let (nodes, items) = self.into_parts();
        match nodes_with_byte(alloc, nodes, at, byte) {
            Some(nodes) => Some(Graph::from_parts(nodes, items)),
            None => None,
        }
    }
}
