//! Clients and their leases among the loose nodes of a builder.
ghost use Rattle.std.specs.Prelude.{◌≡◌, ◌≤◌, ◌∷◌, [], Some, length, IfOk, IfErr, OnOk, OnErr};
ghost use Rattle.object_ids.specs.declared.limits.TheConstants.{MAX_ADDRESS_BYTES};
ghost use Rattle.ser_values.specs.declared.value.Value.TheVariants as values;
ghost use Rattle.java_shapes.specs.Ids.{vmid_at, lease_at};
ghost use Rattle.java_shapes.specs.Put.{Grows, IsPutRefusal, Puts};
ghost use Rattle.java_shapes.specs.Shapes.{BytesAt, LeaseAt, UidAt, VmidAt, one_part, uid_values};

use crate::classes::{put_array, put_class, put_object};
use class_desc::{Items, KnownClass, Slot};
use object_ids::{Uid, Vmid};
use sequence::ByteList;
use ser_values::{BuildFault, Builder, Part, PartList, Value, ValueList, Values};
use std::alloc::{AllocError, Global};

/// The one part of an object whose class has no superclass.
pub(crate) fn one_part(alloc: Global, values: &[Value]) -> Result<PartList, AllocError>
    ensures { IfOk result (λ parts. parts ≡ one_part values.now) }
{
    let mut parts = PartList::new(alloc);
    parts.push(Part {
        values: ValueList::from_slice(alloc, values)?,
        note: Items::new(alloc),
    })?;
    Ok(parts)
}

/// The part of an object of `java.rmi.server.UID`.
pub(crate) fn uid_parts(alloc: Global, uid: &Uid) -> Result<PartList, AllocError>
    ensures { IfOk result (λ parts. parts ≡ one_part (uid_values uid.now)) }
{
    let values = [
        Value::Short(uid.count),
        Value::Long(uid.time),
        Value::Int(uid.unique),
    ];
    one_part(alloc, &values)
}

/// Puts a byte array.
fn put_bytes(alloc: Global, b: &mut Builder, bytes: ByteList) -> Result<Slot, BuildFault>
    ensures { Puts 2 (λ nodes s. BytesAt nodes bytes s) b.old b.new result }
{
    let class = put_class(alloc, b, KnownClass::ByteArray, Slot::Null)?;
    put_array(b, class, Values::Bytes(bytes))
}

/// Puts an object of `java.rmi.server.UID`.
fn put_uid(alloc: Global, b: &mut Builder, uid: &Uid) -> Result<Slot, BuildFault>
    ensures { Puts 5 (λ nodes s. UidAt nodes uid.now s) b.old b.new result }
{
    let class = put_class(alloc, b, KnownClass::Uid, Slot::Null)?;
    let parts = uid_parts(alloc, uid)?;
    put_object(b, class, parts)
}

/// Puts a client, node by node.
fn put_client(alloc: Global, b: &mut Builder, addr: ByteList, uid: &Uid) -> Result<Slot, BuildFault>
    ensures { Puts 11 (λ nodes s. VmidAt nodes (record { addr = addr; uid = uid.now }) s) b.old
        b.new result }
{
    let addr = put_bytes(alloc, b, addr)?;
    let uid = put_uid(alloc, b, uid)?;
    let class = put_class(alloc, b, KnownClass::Vmid, Slot::Null)?;
    let parts = one_part(alloc, &[Value::Ref(addr), Value::Ref(uid)])?;
    put_object(b, class, parts)
}

/// Puts a client; a refusal may leave some of its nodes.
fn put_some_vmid(alloc: Global, b: &mut Builder, vmid: &Vmid) -> Result<Slot, BuildFault>
    ensures puts { Puts 11 (λ nodes s. VmidAt nodes vmid.now s) b.old b.new result }
    ensures short { length vmid.now.addr ≤ MAX_ADDRESS_BYTES }
{
    let addr = vmid.addr().copy(alloc)?;
    let uid = vmid.uid();
    put_client(alloc, b, addr, &uid)
}

/// The part of a lease.
pub(crate) fn lease_parts(alloc: Global, value: &i64, client: Slot) -> Result<PartList, AllocError>
    ensures { IfOk result (λ parts. parts
        ≡ one_part (values.Long value.now ∷ values.Ref client ∷ [])) }
{
    one_part(alloc, &[Value::Long(*value), Value::Ref(client)])
}

/// Puts a lease; a refusal may leave some of its nodes.
fn put_some_lease(
    alloc: Global,
    b: &mut Builder,
    value: &i64,
    vmid: &Vmid,
) -> Result<Slot, BuildFault>
    ensures puts { Puts 16 (λ nodes s. LeaseAt nodes value.now vmid.now s) b.old b.new result }
    ensures short { length vmid.now.addr ≤ MAX_ADDRESS_BYTES }
{
    let client = put_some_vmid(alloc, b, vmid)?;
    let class = put_class(alloc, b, KnownClass::Lease, Slot::Null)?;
    let parts = lease_parts(alloc, value, client)?;
    put_object(b, class, parts)
}

/// Puts an object of `java.rmi.dgc.VMID`. TooManyNodes comes only where the loose nodes before and at most 16 are more than
/// 65,536; else it is refused only for want of memory. After a refusal the builder is as it was.
pub fn put_vmid(alloc: Global, b: &mut Builder, vmid: &Vmid) -> Result<Slot, BuildFault>
    ensures ok { IfOk result (λ slot. VmidAt b.new vmid.now slot) }
    ensures grown { OnOk result (Grows 16 b.old b.new) }
    ensures viewed { IfOk result (λ slot. vmid_at b.new slot ≡ Some vmid.now) }
    ensures err { IfErr result (IsPutRefusal 16 b.old) }
    ensures unchanged { OnErr result (b.new ≡ b.old) }
{
    let before = b.len();
    match put_some_vmid(alloc, b, vmid) {
        Ok(slot) => Ok(slot),
        Err(fault) => {
            b.truncate(before);
            Err(fault)
        }
    }
}

/// Puts an object of `java.rmi.dgc.Lease` with a duration in milliseconds and a client. TooManyNodes comes only where the loose
/// nodes before and at most 16 are more than 65,536; else it is refused only for want of memory. After a refusal the builder
/// is as it was.
pub fn put_lease(
    alloc: Global,
    b: &mut Builder,
    value: i64,
    vmid: &Vmid,
) -> Result<Slot, BuildFault>
    ensures ok { IfOk result (λ slot. LeaseAt b.new value vmid.now slot) }
    ensures grown { OnOk result (Grows 16 b.old b.new) }
    ensures viewed { IfOk result (λ slot. lease_at b.new slot
        ≡ Some (record { value = value; vmid = Some vmid.now })) }
    ensures err { IfErr result (IsPutRefusal 16 b.old) }
    ensures unchanged { OnErr result (b.new ≡ b.old) }
{
    let before = b.len();
    match put_some_lease(alloc, b, &value, vmid) {
        Ok(slot) => Ok(slot),
        Err(fault) => {
            b.truncate(before);
            Err(fault)
        }
    }
}
