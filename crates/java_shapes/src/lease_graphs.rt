//! The graph of a lease.
ghost use Rattle.std.specs.Prelude.{◌≡◌, ◌++◌, ◌<◌, ◌^◌, [], All, Some, IfOk, OnOk};
ghost use Rattle.class_desc.specs.declared.slot.Slot.TheVariants as slots;
ghost use Rattle.java_shapes.specs.Ids.{lease_at};
ghost use Rattle.java_shapes.specs.LeaseGraph.{lease_first, vmid_class, vmid_parts, vmid_next, addr_next, uid_last, lease_items, lease_nodes};

use crate::fault_graphs::{add_class, add_text};
use crate::leases::{lease_parts, one_part, uid_parts};
use class_desc::{Item, Items, KnownClass, Slot};
use mod_utf::utf::units_of_ascii;
use object_ids::{Uid, Vmid};
use sequence::ByteList;
use ser_values::{Graph, Node, NodeList, PartList, Value, Values};
use std::alloc::{AllocError, Global};

/// The number of nodes in the graph of a lease.
const NODES: usize = 11;

/// Adds the lease with its class, the first nodes; its client is node 6.
fn add_lease(alloc: Global, nodes: &mut NodeList, value: &i64) -> Result<(), AllocError>
    requires { nodes.old ≡ [] }
    ensures { OnOk result (nodes.new ≡ lease_first value.now) }
{
    add_class(
        alloc,
        nodes,
        KnownClass::Lease,
        &[Slot::Null, Slot::Node(1)],
        Slot::Null,
    )?;
    add_text(nodes, units_of_ascii(alloc, b"Ljava/rmi/dgc/VMID;")?)?;
    let parts = lease_parts(alloc, value, Slot::Node(6))?;
    nodes.push(Node::Object { class: 0, parts })
}

/// Adds the client's class.
fn add_vmid_class(alloc: Global, nodes: &mut NodeList) -> Result<(), AllocError>
    ensures { OnOk result (nodes.new ≡ nodes.old ++ vmid_class) }
{
    add_class(
        alloc,
        nodes,
        KnownClass::Vmid,
        &[Slot::Node(4), Slot::Node(5)],
        Slot::Null,
    )?;
    add_text(nodes, units_of_ascii(alloc, b"[B")?)
}

/// The part of a client whose address is node 8 and whose identifier is node 10.
fn vmid_parts(alloc: Global) -> Result<PartList, AllocError>
    ensures { IfOk result (λ parts. parts ≡ vmid_parts) }
{
    one_part(
        alloc,
        &[Value::Ref(Slot::Node(8)), Value::Ref(Slot::Node(10))],
    )
}

/// Adds the client, whose address is node 8 and whose identifier is node 10, after the last type text of its class.
fn add_vmid(alloc: Global, nodes: &mut NodeList) -> Result<(), AllocError>
    ensures { OnOk result (nodes.new ≡ nodes.old ++ vmid_next) }
{
    add_text(nodes, units_of_ascii(alloc, b"Ljava/rmi/server/UID;")?)?;
    let parts = vmid_parts(alloc)?;
    nodes.push(Node::Object { class: 3, parts })
}

/// Adds the client's address with its class.
fn add_addr(alloc: Global, nodes: &mut NodeList, addr: ByteList) -> Result<(), AllocError>
    ensures { OnOk result (nodes.new ≡ nodes.old ++ addr_next addr) }
{
    add_class(alloc, nodes, KnownClass::ByteArray, &[], Slot::Null)?;
    nodes.push(Node::Array {
        class: 7,
        values: Values::Bytes(addr),
    })
}

/// Adds the client's identifier with its class.
fn add_uid(alloc: Global, nodes: &mut NodeList, uid: &Uid) -> Result<(), AllocError>
    ensures { OnOk result (nodes.new ≡ nodes.old ++ uid_last uid.now) }
{
    add_class(
        alloc,
        nodes,
        KnownClass::Uid,
        &[Slot::Null, Slot::Null, Slot::Null],
        Slot::Null,
    )?;
    let parts = uid_parts(alloc, uid)?;
    nodes.push(Node::Object { class: 9, parts })
}

/// Looks at bytes: each is in its type's range.
pub(crate) fn look_at_bytes(bytes: &[u8])
    ensures { All (λ byte. byte < 2 ^ 8) bytes.now }
{
    let _count = bytes.len();
}

/// The nodes of a lease.
#[tactic(auto, unfolding(crate::specs::LeaseGraph::lease_nodes))]
fn lease_nodes(alloc: Global, value: &i64, vmid: &Vmid) -> Result<NodeList, AllocError>
    ensures { IfOk result (λ nodes. nodes ≡ lease_nodes value.now vmid.now) }
{
    let mut nodes = NodeList::new(alloc);
    nodes.reserve(NODES)?;
    add_lease(alloc, &mut nodes, value)?;
    add_vmid_class(alloc, &mut nodes)?;
    add_vmid(alloc, &mut nodes)?;
    add_addr(
        alloc,
        &mut nodes,
        ByteList::from_slice(alloc, vmid.addr().as_slice())?,
    )?;
    let uid = vmid.uid();
    add_uid(alloc, &mut nodes, &uid)?;
    Ok(nodes)
}

/// A lease's one item.
fn lease_items(alloc: Global) -> Result<Items, AllocError>
    ensures { IfOk result (λ items. items ≡ lease_items) }
{
    let mut items = Items::new(alloc);
    items.push(Item::Ref(Slot::Node(2)))?;
    Ok(items)
}

/// The graph whose one item is a `java.rmi.dgc.Lease` of a duration in milliseconds to a client. It is refused only for want of memory.
///
/// Whoever writes a lease may put its known bytes together without this graph. That `lease_nodes`, by which those bytes are told, are the nodes of a
/// graph, and that it is viewed as the lease, is shown here.
pub fn lease_graph(alloc: Global, value: i64, vmid: &Vmid) -> Result<Graph, AllocError>
    ensures nodes { IfOk result (λ graph. graph.nodes ≡ lease_nodes value vmid.now) }
    ensures items { IfOk result (λ graph. graph.items ≡ lease_items) }
    ensures viewed { IfOk result (λ graph. lease_at graph.nodes (slots.Node 2)
        ≡ Some (record { value = value; vmid = Some vmid.now })) }
{
    look_at_bytes(vmid.addr().as_slice());
    let uid = vmid.uid();
    let nodes = lease_nodes(alloc, &value, vmid)?;
    let items = lease_items(alloc)?;
    Ok(Graph::from_parts(nodes, items))
}
