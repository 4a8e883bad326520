//! Graphs in which each reference says that it was made for a result.
ghost use Rattle.std.specs.Prelude.{◌≡◌, ◌++◌, Some, IfOk, IfSome, OnOk, option_map};
ghost use Rattle.class_desc.specs.declared.slot.Slot.{Slot};
ghost use Rattle.java_shapes.specs.LiveRefs.{live_ref_at};
ghost use Rattle.java_shapes.specs.Flags.{as_places, flag_at, flags_in, for_result, note_end, place_in, place_within, set_flags};

use crate::class_part::{class_by_name, node_at, parent_of};
use crate::fault::ShapeFault;
use crate::ref_views::{note_at, stub_ref_at};
use class_desc::Slot;
use ser_values::{Graph, Node, NotePlace};
use std::alloc::{AllocError, Global};

/// The byte of a reference that was made for a result.
const RESULT: u8 = 1;

/// Which of an object's parts is of the first class of this name, from the class of a slot up.
fn place_within(nodes: &[Node], class: Slot, count: usize, name: &str) -> Option<usize>
    ensures { result ≡ place_within nodes.now name.now count class }
{
    let mut slot = class;
    let mut left = count;
    while left > 0 {
        left -= 1;
        let node = node_at(nodes, slot);
        match class_by_name(node, name) {
            Some(_desc) => return Some(left),
            None => slot = parent_of(node)?,
        }
    }
    None
}

/// Which part of a node that is an object is of the first class of this name.
fn place_in(nodes: &[Node], node: Option<&Node>, name: &str) -> Option<usize>
    ensures { result ≡ place_in nodes.now name.now (option_map (λ node. node.now) node.entry) }
{
    match node {
        Some(Node::Object { class, parts }) => {
            place_within(nodes, Slot::Node(*class), parts.len(), name)
        }
        _ => None,
    }
}

/// The last byte of the note of a node's part of class `java.rmi.server.RemoteObject`.
#[tactic(auto, unfolding(crate::specs::Flags::note_end))]
fn note_end(nodes: &[Node], number: u32) -> Option<NotePlace>
    ensures { result ≡ note_end nodes.now number }
{
    let part = place_in(
        nodes,
        nodes.get(number as usize),
        "java.rmi.server.RemoteObject",
    )?;
    let bytes = note_at(nodes, Slot::Node(number))?;
    Some(NotePlace {
        node: number,
        part,
        item: 0,
        offset: bytes.len().saturating_sub(1),
    })
}

/// Where the flag of a node's own reference stands, if its note is one.
fn flag_at(alloc: Global, nodes: &[Node], number: u32) -> Result<Option<NotePlace>, AllocError>
    ensures { IfOk result (λ place. place ≡ flag_at nodes.now number) }
{
    match stub_ref_at(alloc, nodes, Slot::Node(number)) {
        Ok(_reference) => Ok(note_end(nodes, number)),
        Err(ShapeFault::WrongShape) => Ok(None),
        Err(ShapeFault::OutOfMemory) => Err(AllocError),
    }
}

/// Adds the place of the flag of a node's own reference, if its note is one.
fn add_flag(
    alloc: Global,
    places: &mut Vec<NotePlace>,
    nodes: &[Node],
    number: u32,
) -> Result<(), AllocError>
    ensures { OnOk result (places.new.items ≡ places.old.items
        ++ as_places (flag_at nodes.now number)) }
{
    if let Some(place) = flag_at(alloc, nodes, number)? {
        places.push(place)?;
    }
    Ok(())
}

/// The places of the flags of a graph's references.
fn flags_in(alloc: Global, graph: &Graph) -> Result<Vec<NotePlace>, AllocError>
    ensures { IfOk result (λ places. places.items ≡ flags_in graph.now.nodes) }
{
    let nodes = graph.nodes().as_slice();
    let mut places = Vec::new(alloc);
    for number in 0..graph.count() {
        add_flag(alloc, &mut places, nodes, number)?;
    }
    Ok(places)
}

/// The graph with the flag at each of these places. None where no byte stands at one of them.
fn set_flags(alloc: Global, graph: Graph, places: &[NotePlace]) -> Option<Graph>
    ensures nodes { option_map (λ graph. graph.nodes) result ≡ set_flags graph.nodes places.now }
    ensures items { IfSome result (λ flagged. flagged.items ≡ graph.items) }
{
    let mut graph = graph;
    for place in places {
        graph = graph.with_note_byte(alloc, *place, RESULT)?;
    }
    Some(graph)
}

/// The same graph, in which each reference to a remote object says that it was made for a result: the last byte of its note is 1.
/// A stub has the note itself, a proxy's is its handler's. It is refused only for want of memory.
pub fn with_result_flag(alloc: Global, graph: Graph) -> Result<Graph, AllocError>
    ensures nodes { IfOk result (λ flagged. set_flags graph.nodes (flags_in graph.nodes)
        ≡ Some flagged.nodes) }
    ensures items { IfOk result (λ flagged. flagged.items ≡ graph.items) }
    ensures viewed { IfOk result (λ flagged. (s : Slot) → live_ref_at flagged.nodes s
        ≡ option_map for_result (live_ref_at graph.nodes s)) }
{
    let places = flags_in(alloc, &graph)?;
    match set_flags(alloc, graph, &places) {
        Some(flagged) => Ok(flagged),
        None => unreachable!(),
    }
}
