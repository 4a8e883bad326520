//! The graph of a fault.
ghost use Rattle.std.specs.Prelude.{◌≡◌, ◌++◌, ◌∷◌, ◌<◌, ◌^◌, [], All, Some, IfOk, OnOk};
ghost use Rattle.class_desc.specs.declared.slot.Slot.TheVariants as slots;
ghost use Rattle.ser_values.specs.declared.node.Node.TheVariants as loose;
ghost use Rattle.java_shapes.specs.Fault.{class_node, fault_classes, fault_items, fault_nodes, fault_text};
ghost use Rattle.java_shapes.specs.Throwable.{fault_text_at};

use crate::class_part::copy_text;
use crate::classes::desc_of;
use crate::faults::fault_parts;
use class_desc::{Item, Items, KnownClass, Slot};
use mod_utf::utf::{encoded_len, units_of_ascii};
use sequence::Units;
use ser_values::{Graph, Node, NodeList};
use std::alloc::{AllocError, Global};

/// The number of nodes in the graph of a fault.
const NODES: usize = 8;

/// Adds the description of a known class.
pub(crate) fn add_class(
    alloc: Global,
    nodes: &mut NodeList,
    which: KnownClass,
    texts: &[Slot],
    parent: Slot,
) -> Result<(), AllocError>
    ensures { OnOk result (nodes.new ≡ nodes.old ++ class_node which texts.now parent ∷ []) }
{
    nodes.push(Node::Desc(desc_of(alloc, which, texts, parent)?))
}

/// Adds a text.
pub(crate) fn add_text(nodes: &mut NodeList, text: Units) -> Result<(), AllocError>
    ensures { OnOk result (nodes.new ≡ nodes.old ++ loose.Text text ∷ []) }
{
    nodes.push(Node::Text(text))
}

/// Adds the descriptions of a fault's classes, with their type texts.
fn add_classes(alloc: Global, nodes: &mut NodeList) -> Result<(), AllocError>
    requires { nodes.old ≡ [] }
    ensures { OnOk result (nodes.new ≡ fault_classes) }
{
    add_class(
        alloc,
        nodes,
        KnownClass::RemoteException,
        &[Slot::Node(1)],
        Slot::Node(2),
    )?;
    add_text(nodes, units_of_ascii(alloc, b"Ljava/lang/Throwable;")?)?;
    add_class(alloc, nodes, KnownClass::IoException, &[], Slot::Node(3))?;
    add_class(alloc, nodes, KnownClass::Exception, &[], Slot::Node(4))?;
    add_class(
        alloc,
        nodes,
        KnownClass::Throwable,
        &[Slot::Node(5)],
        Slot::Null,
    )?;
    add_text(nodes, units_of_ascii(alloc, b"Ljava/lang/String;")?)
}

/// Looks at the units of a text: each is in its type's range.
pub(crate) fn look(units: &[u16])
    ensures { All (λ unit. unit < 2 ^ 16) units.now }
{
    let _count = units.len();
}

/// The nodes of a fault with a message.
#[tactic(auto, unfolding(crate::specs::Fault::fault_nodes))]
fn fault_nodes(alloc: Global, message: &Units) -> Result<NodeList, AllocError>
    ensures { IfOk result (λ nodes. nodes ≡ fault_nodes message.now) }
{
    let mut nodes = NodeList::new(alloc);
    nodes.reserve(NODES)?;
    add_classes(alloc, &mut nodes)?;
    let parts = fault_parts(alloc, Slot::Node(7))?;
    nodes.push(Node::Object { class: 0, parts })?;
    add_text(&mut nodes, copy_text(alloc, message)?)?;
    Ok(nodes)
}

/// A fault's one item.
fn fault_items(alloc: Global) -> Result<Items, AllocError>
    ensures { IfOk result (λ items. items ≡ fault_items) }
{
    let mut items = Items::new(alloc);
    items.push(Item::Ref(Slot::Node(6)))?;
    Ok(items)
}

/// The graph whose one item is a `java.rmi.RemoteException` with a message and a null detail. It is refused only for want of
/// memory, which a message of 2^63 encoded bytes or more would want.
pub fn fault_graph(alloc: Global, message: &Units) -> Result<Graph, AllocError>
    ensures nodes { IfOk result (λ graph. graph.nodes ≡ fault_nodes message.now) }
    ensures items { IfOk result (λ graph. graph.items ≡ fault_items) }
    ensures viewed { IfOk result (λ graph. fault_text_at graph.nodes (slots.Node 6)
        ≡ Some (fault_text message.now)) }
{
    if encoded_len(message) >= 1 << 63 {
        return Err(AllocError);
    }
    look(message.as_slice());
    let nodes = fault_nodes(alloc, message)?;
    let items = fault_items(alloc)?;
    Ok(Graph::from_parts(nodes, items))
}
