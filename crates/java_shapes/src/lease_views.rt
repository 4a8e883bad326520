//! Clients and their leases, read from their shapes.
ghost use Rattle.std.specs.Prelude.{◌≡◌, option_map};
ghost use Rattle.java_shapes.specs.Ids.{vmid_parts, vmid_parts_at, vmid_at, vmid_or_null, lease_parts, lease_parts_at, lease_at, short_client};
ghost use Rattle.java_shapes.specs.ViewAnswers.{Views};

use crate::class_part::{ClassPart, bytes_at, own_at};
use crate::fault::ShapeFault;
use crate::id_views::uid_at;
use class_desc::{Slot, TypeCode};
use object_ids::{MAX_ADDRESS_BYTES, Uid, Vmid};
use sequence::ByteList;
use ser_values::{Graph, Node};
use std::alloc::Global;

/// A lease as an object of `java.rmi.dgc.Lease` has it.
#[derive(Debug)]
pub struct LeaseView {
    /// The duration that is asked for or granted, in milliseconds.
    pub value: i64,
    /// The client, if there is one.
    pub vmid: Option<Vmid>,
}

// Written out, so that whoever owns one has one call at each exit, and not the drop of each field.
impl Drop for LeaseView {
    fn drop(self) {
        let LeaseView { value: _, vmid } = self;
        drop(vmid);
    }
}

impl LeaseView {
    /// The client, if there is one. It takes no memory.
    pub fn into_vmid(self) -> Option<Vmid>
        ensures { result ≡ self.vmid }
    {
        let LeaseView { value: _, vmid } = self;
        vmid
    }
}

/// The client of an address and an identifier, where the address is short enough.
fn client_of(alloc: Global, addr: &ByteList, uid: Uid) -> Result<Vmid, ShapeFault>
    ensures { Views result (short_client addr.now uid) }
{
    if addr.len() > MAX_ADDRESS_BYTES {
        return Err(ShapeFault::WrongShape);
    }
    match Vmid::new(ByteList::from_slice(alloc, addr.as_slice())?, uid) {
        Some(vmid) => Ok(vmid),
        None => Err(ShapeFault::WrongShape),
    }
}

/// The address and the identifier in an object's fields.
#[tactic(auto, unfolding(crate::specs::Ids::vmid_parts))]
fn vmid_parts<'a>(nodes: &'a [Node], vmid: ClassPart) -> Option<(&'a ByteList, Uid)>
    ensures { option_map (λ parts. (parts.0.now, parts.1)) result
        ≡ vmid_parts nodes.now (vmid.entry.desc.now, vmid.entry.part.now) }
{
    let addr = vmid.slot(TypeCode::Array, "addr")?;
    let uid = vmid.slot(TypeCode::Object, "uid")?;
    let addr = bytes_at(nodes, addr, "[B")?;
    let uid = uid_at(nodes, uid)?;
    Some((addr, uid))
}

/// The address and the identifier of the client that a slot's object is.
fn vmid_parts_at<'a>(nodes: &'a [Node], slot: Slot) -> Option<(&'a ByteList, Uid)>
    ensures { option_map (λ parts. (parts.0.now, parts.1)) result ≡ vmid_parts_at nodes.now slot }
{
    vmid_parts(nodes, own_at(nodes, slot, "java.rmi.dgc.VMID")?)
}

/// The client that a slot's object is.
fn vmid_at(alloc: Global, nodes: &[Node], slot: Slot) -> Result<Vmid, ShapeFault>
    ensures { Views result (vmid_at nodes.now slot) }
{
    match vmid_parts_at(nodes, slot) {
        Some((addr, uid)) => client_of(alloc, addr, uid),
        None => Err(ShapeFault::WrongShape),
    }
}

/// The duration and the client's slot in an object's fields.
#[tactic(auto, unfolding(crate::specs::Ids::lease_parts))]
fn lease_parts(lease: ClassPart) -> Option<(i64, Slot)>
    ensures { result ≡ lease_parts (lease.entry.desc.now, lease.entry.part.now) }
{
    let value = lease.long("value")?;
    let vmid = lease.slot(TypeCode::Object, "vmid")?;
    Some((value, vmid))
}

/// The duration and the client's slot of the lease that a slot's object is.
fn lease_parts_at(nodes: &[Node], slot: Slot) -> Option<(i64, Slot)>
    ensures { result ≡ lease_parts_at nodes.now slot }
{
    lease_parts(own_at(nodes, slot, "java.rmi.dgc.Lease")?)
}

/// The client that a slot's object is, or none for null.
fn vmid_or_null(alloc: Global, nodes: &[Node], slot: Slot) -> Result<Option<Vmid>, ShapeFault>
    ensures { Views result (vmid_or_null nodes.now slot) }
{
    match slot {
        Slot::Null => Ok(None),
        Slot::Node(_) => Ok(Some(vmid_at(alloc, nodes, slot)?)),
    }
}

/// The lease that a slot's object is.
fn lease_at(alloc: Global, nodes: &[Node], slot: Slot) -> Result<LeaseView, ShapeFault>
    ensures { Views result (lease_at nodes.now slot) }
{
    match lease_parts_at(nodes, slot) {
        Some((value, vmid)) => Ok(LeaseView {
            value,
            vmid: vmid_or_null(alloc, nodes, vmid)?,
        }),
        None => Err(ShapeFault::WrongShape),
    }
}

/// The client of an object of `java.rmi.dgc.VMID`. WrongShape comes exactly where the slot is none, its address is no byte
/// array of at most 255 bytes, or its identifier is none.
pub fn as_vmid(alloc: Global, graph: &Graph, slot: Slot) -> Result<Vmid, ShapeFault>
    ensures { Views result (vmid_at graph.now.nodes slot) }
{
    vmid_at(alloc, graph.nodes().as_slice(), slot)
}

/// The lease of an object of `java.rmi.dgc.Lease`, whose client may be null. WrongShape comes exactly where the slot is none.
pub fn as_lease(alloc: Global, graph: &Graph, slot: Slot) -> Result<LeaseView, ShapeFault>
    ensures { Views result (lease_at graph.now.nodes slot) }
{
    lease_at(alloc, graph.nodes().as_slice(), slot)
}
