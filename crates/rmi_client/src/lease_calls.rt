//! The bytes of the lease calls that a client makes of the collector.
ghost use Rattle.std.specs.Prelude.{◌≡◌, ◌∷◌, ◌++◌, [], IfOk, OnOk};
ghost use Rattle.std.specs.Int.{w64};
ghost use Rattle.object_ids.specs.Bytes.{signed_bytes};
ghost use Rattle.class_desc.specs.declared.slot.Item.TheVariants as listed;
ghost use Rattle.method_hash.specs.System.{collector_number};
ghost use Rattle.java_shapes.specs.RefNotes.{truth_byte};
ghost use Rattle.rmi_client.specs.Leases.{collector_head, IsDirtyCall, IsCleanCall, IsPlanCall};

use crate::requests::built_call;
use class_desc::{Item, Items, Slot};
use dgc_client::Plan;
use java_shapes::{put_lease, put_objids, put_vmid};
use jrmp_frames::CallHead;
use method_hash::CollectorMethod;
use object_ids::{ObjIds, Vmid};
use sequence::ByteList;
use ser_values::{BuildFault, Builder};
use std::alloc::{AllocError, Global};
use system_ids::{COLLECTOR_ID, COLLECTOR_INTERFACE};

/// The operation number of a method of the collector.
fn collector_number(method: CollectorMethod) -> i32
    ensures { result ≡ collector_number method }
{
    match method {
        CollectorMethod::Clean => 0,
        CollectorMethod::Dirty => 1,
    }
}

/// The head of a call of the collector.
fn collector_head(method: CollectorMethod) -> CallHead
    ensures { result ≡ collector_head method }
{
    CallHead {
        id: COLLECTOR_ID,
        operation: collector_number(method),
        hash: COLLECTOR_INTERFACE,
    }
}

/// A reference, a number and another reference as the arguments of a call.
fn items_with(alloc: Global, first: Slot, number: &i64, second: Slot) -> Result<Items, AllocError>
    ensures { IfOk result (λ arguments. arguments ≡ listed.Ref first
        ∷ listed.Bytes (signed_bytes w64 number.now) ∷ listed.Ref second ∷ []) }
{
    let digits = ByteList::from_slice(alloc, &number.to_be_bytes())?;
    let mut arguments = Items::new(alloc);
    arguments.push(Item::Ref(first))?;
    arguments.push(Item::Bytes(digits))?;
    arguments.push(Item::Ref(second))?;
    Ok(arguments)
}

/// The dirty call of a number for objects, which asks for a lease of so many milliseconds.
fn dirty_call(
    alloc: Global,
    vmid: &Vmid,
    ids: &ObjIds,
    number: &i64,
    asked: &i64,
) -> Result<ByteList, BuildFault>
    ensures { IfOk result (IsDirtyCall vmid.now ids.now number.now asked.now) }
{
    let mut b = Builder::new(alloc);
    let objects = put_objids(alloc, &mut b, ids)?;
    let lease = put_lease(alloc, &mut b, *asked, vmid)?;
    let arguments = items_with(alloc, objects, number, lease)?;
    built_call(alloc, collector_head(CollectorMethod::Dirty), b, arguments)
}

/// Appends a truth value.
fn put_truth(alloc: Global, arguments: &mut Items, value: bool) -> Result<(), AllocError>
    ensures { OnOk result
        (arguments.new ≡ arguments.old ++ listed.Bytes (truth_byte value ∷ []) ∷ []) }
{
    let byte = ByteList::from_slice(alloc, &[u8::from(value)])?;
    arguments.push(Item::Bytes(byte))
}

/// The clean call of a number for objects.
fn clean_call(
    alloc: Global,
    vmid: &Vmid,
    ids: &ObjIds,
    number: &i64,
    strong: bool,
) -> Result<ByteList, BuildFault>
    ensures { IfOk result (IsCleanCall vmid.now ids.now number.now strong) }
{
    let mut b = Builder::new(alloc);
    let objects = put_objids(alloc, &mut b, ids)?;
    let client = put_vmid(alloc, &mut b, vmid)?;
    let mut arguments = items_with(alloc, objects, number, client)?;
    put_truth(alloc, &mut arguments, strong)?;
    built_call(alloc, collector_head(CollectorMethod::Clean), b, arguments)
}

/// The lease call of a plan, which asks for a lease of so many milliseconds where it is a dirty one.
pub(crate) fn plan_call(
    alloc: Global,
    vmid: &Vmid,
    plan: &Plan,
    asked: &i64,
) -> Result<ByteList, BuildFault>
    ensures { IfOk result (IsPlanCall vmid.now plan.now asked.now) }
{
    match plan {
        Plan::Dirty { number, ids } => dirty_call(alloc, vmid, ids, number, asked),
        Plan::Clean {
            number,
            ids,
            strong,
        } => clean_call(alloc, vmid, ids, number, *strong),
    }
}
