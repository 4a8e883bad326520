//! The objects of a graph's references to one host and port.
ghost use Rattle.std.specs.Prelude.{◌≡◌, Some, IfOk, OnOk};
ghost use Rattle.class_desc.specs.declared.slot.Slot.TheVariants as slots;
ghost use Rattle.java_shapes.specs.LiveRefs.{live_ref_at};
ghost use Rattle.java_shapes.specs.LocalRefs.{add_once, is_local, local_ids, with_local};
ghost use Rattle.java_shapes.specs.Objects.{same_text};

use crate::fault::ShapeFault;
use crate::ref_views::{LiveRef, live_ref_in};
use class_desc::Slot;
use indexmap::IndexSet;
use object_ids::{ObjId, ObjIds};
use sequence::{Same, Units};
use ser_values::{Graph, Node};
use std::alloc::{AllocError, Global};

/// Returns whether two texts are equal.
fn same_text(text: &Units, other: &Units) -> bool
    ensures { result ≡ same_text text.now other.now }
{
    text.is_same(other)
}

/// True where a reference is of this host and port.
pub fn is_local(reference: &LiveRef, host: &Units, port: i32) -> bool
    ensures { result ≡ is_local host.now port reference.now }
{
    same_text(&reference.host, host) && reference.port == port
}

/// Adds an object, unless it is there.
fn add_once(ids: &mut IndexSet<ObjId>, id: ObjId) -> Result<(), AllocError>
    ensures { OnOk result (ids.new.keys ≡ add_once ids.old.keys id) }
{
    ids.insert(id)?;
    Ok(())
}

/// Adds the object of a reference, where it is of this host and port.
fn add_local(
    ids: &mut IndexSet<ObjId>,
    reference: &LiveRef,
    host: &Units,
    port: i32,
) -> Result<(), AllocError>
    ensures { OnOk result (ids.new.keys ≡ with_local ids.old.keys host.now port
        (Some reference.now)) }
{
    if is_local(reference, host, port) {
        add_once(ids, reference.id)
    } else {
        Ok(())
    }
}

/// Adds the object of the reference that a node is, if it is one of this host and port.
fn add_node(
    alloc: Global,
    ids: &mut IndexSet<ObjId>,
    nodes: &[Node],
    number: u32,
    host: &Units,
    port: i32,
) -> Result<(), AllocError>
    ensures { OnOk result (ids.new.keys ≡ with_local ids.old.keys host.now port
        (live_ref_at nodes.now (slots.Node number))) }
{
    match live_ref_in(alloc, nodes, Slot::Node(number)) {
        Ok(reference) => add_local(ids, &reference, host, port),
        Err(ShapeFault::WrongShape) => Ok(()),
        Err(ShapeFault::OutOfMemory) => Err(AllocError),
    }
}

/// The objects of the references of this host and port that a graph's nodes are.
fn local_set(
    alloc: Global,
    graph: &Graph,
    host: &Units,
    port: i32,
) -> Result<IndexSet<ObjId>, AllocError>
    ensures { IfOk result (λ ids. ids.keys ≡ local_ids graph.now.nodes host.now port) }
{
    let nodes = graph.nodes().as_slice();
    let mut ids = IndexSet::new(alloc);
    for number in 0..graph.count() {
        add_node(alloc, &mut ids, nodes, number, host, port)?;
    }
    Ok(ids)
}

/// The objects of the references of this host and port among a graph's nodes, each once, in the order of the nodes. A proxy is
/// such a reference, and so is its handler. It is refused only for want of memory.
pub fn local_refs(
    alloc: Global,
    graph: &Graph,
    host: &Units,
    port: i32,
) -> Result<ObjIds, AllocError>
    ensures { IfOk result (λ ids. ids ≡ local_ids graph.now.nodes host.now port) }
{
    let set = local_set(alloc, graph, host, port)?;
    let mut ids = ObjIds::new(alloc);
    ids.append(set.as_slice())?;
    Ok(ids)
}
