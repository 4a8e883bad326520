//! The graph of a reference to a remote object.
ghost use Rattle.std.specs.Prelude.{◌≡◌, ◌≤◌, ◌++◌, [], Some, length, IfOk, OnOk};
ghost use Rattle.class_desc.specs.declared.slot.Slot.TheVariants as slots;
ghost use Rattle.mod_utf.specs.Utf.{utf};
ghost use Rattle.java_shapes.specs.LiveRefs.{live_ref_at};
ghost use Rattle.java_shapes.specs.RefGraph.{handler_classes, handler_last, noted_nodes, proxy_first, ref_items, ref_nodes};

use crate::fault_graphs::{add_class, add_text, look};
use crate::lease_graphs::look_at_bytes;
use crate::live_refs::{handler_parts, proxy_parts, proxy_with, ref_note};
use crate::ref_views::LiveRef;
use class_desc::{Item, Items, KnownClass, Slot};
use mod_utf::utf::{encoded_len, units_of_ascii};
use sequence::{ByteList, Units};
use ser_values::{Graph, Node, NodeList};
use std::alloc::{AllocError, Global};

/// The number of nodes in the graph of a reference.
const NODES: usize = 7;

/// Adds a proxy of an interface with its classes, the first nodes; its handler is node 6.
fn add_proxy(alloc: Global, nodes: &mut NodeList, interface: &Units) -> Result<(), AllocError>
    requires { nodes.old ≡ [] }
    ensures { OnOk result (nodes.new ≡ proxy_first interface.now) }
{
    let desc = proxy_with(alloc, interface, Slot::Node(1))?;
    nodes.push(Node::Proxy(desc))?;
    add_class(
        alloc,
        nodes,
        KnownClass::Proxy,
        &[Slot::Node(2)],
        Slot::Null,
    )?;
    add_text(
        nodes,
        units_of_ascii(alloc, b"Ljava/lang/reflect/InvocationHandler;")?,
    )?;
    let parts = proxy_parts(alloc, Slot::Node(6))?;
    nodes.push(Node::Object { class: 0, parts })
}

/// Adds a handler's classes.
fn add_handler_classes(alloc: Global, nodes: &mut NodeList) -> Result<(), AllocError>
    ensures { OnOk result (nodes.new ≡ nodes.old ++ handler_classes) }
{
    add_class(alloc, nodes, KnownClass::RefHandler, &[], Slot::Node(5))?;
    add_class(alloc, nodes, KnownClass::RemoteObject, &[], Slot::Null)
}

/// Adds a handler with this note, after its classes.
fn add_handler(alloc: Global, nodes: &mut NodeList, note: ByteList) -> Result<(), AllocError>
    ensures { OnOk result (nodes.new ≡ nodes.old ++ handler_last note) }
{
    let parts = handler_parts(alloc, note)?;
    nodes.push(Node::Object { class: 4, parts })
}

/// The nodes of a proxy of an interface whose handler has this note.
#[tactic(auto, unfolding(crate::specs::RefGraph::noted_nodes))]
fn noted_nodes(alloc: Global, interface: &Units, note: ByteList) -> Result<NodeList, AllocError>
    ensures { IfOk result (λ nodes. nodes ≡ noted_nodes interface.now note) }
{
    let mut nodes = NodeList::new(alloc);
    nodes.reserve(NODES)?;
    add_proxy(alloc, &mut nodes, interface)?;
    add_handler_classes(alloc, &mut nodes)?;
    add_handler(alloc, &mut nodes, note)?;
    Ok(nodes)
}

/// A reference's one item.
fn ref_items(alloc: Global) -> Result<Items, AllocError>
    ensures { IfOk result (λ items. items ≡ ref_items) }
{
    let mut items = Items::new(alloc);
    items.push(Item::Ref(Slot::Node(3)))?;
    Ok(items)
}

/// Returns the graph whose one item is a reference to a remote object, as a dynamic proxy of the interface and `java.rmi.Remote`.
/// Its handler is a `java.rmi.server.RemoteObjectInvocationHandler` whose note is the reference, of class `UnicastRef`. It is
/// refused only for want of memory, which an interface of more than 65,535 bytes in modified UTF would want.
///
/// Whoever writes a reference may put its known bytes together without this graph. That `ref_nodes`, by which those bytes are told, are the nodes of a
/// graph, and that it is viewed as the reference, is shown here.
pub fn ref_graph(alloc: Global, interface: &Units, reference: &LiveRef) -> Result<Graph, AllocError>
    requires host { length (utf reference.now.host) ≤ 65535 }
    ensures nodes { IfOk result (λ graph. graph.nodes ≡ ref_nodes interface.now reference.now) }
    ensures items { IfOk result (λ graph. graph.items ≡ ref_items) }
    ensures viewed { IfOk result (λ graph. live_ref_at graph.nodes (slots.Node 3)
        ≡ Some reference.now) }
{
    if encoded_len(interface) > 65535 {
        return Err(AllocError);
    }
    look(interface.as_slice());
    let note = ref_note(alloc, reference)?;
    look_at_bytes(note.as_slice());
    let nodes = noted_nodes(alloc, interface, note)?;
    let items = ref_items(alloc)?;
    Ok(Graph::from_parts(nodes, items))
}
