//! The answers of a client's table as text.

use dgc_client::{ClientFault, ClientRef, Plan};
use object_ids::{ObjId, ObjIds, Uid};
use sequence::ByteList;
use std::alloc::{AllocError, Global};

/// The object of a number.
pub(crate) fn numbered(number: i64) -> ObjId {
    ObjId {
        number,
        space: Uid {
            unique: 7,
            time: 9,
            count: 0,
        },
    }
}

/// Appends a blank and a number.
fn put_number(alloc: Global, text: &mut ByteList, number: i64) -> Result<(), AllocError> {
    let digits = format!(in alloc; " {number}")?;
    text.append(digits.as_bytes())
}

/// Appends a blank and a moment.
pub(crate) fn put_moment(
    alloc: Global,
    text: &mut ByteList,
    moment: u64,
) -> Result<(), AllocError> {
    let digits = format!(in alloc; " {moment}")?;
    text.append(digits.as_bytes())
}

/// Appends the numbers of objects.
fn put_objects(alloc: Global, text: &mut ByteList, ids: &ObjIds) -> Result<(), AllocError> {
    for id in ids {
        put_number(alloc, text, id.number)?;
    }
    Ok(())
}

/// Appends a truth value.
pub(crate) fn put_bool(text: &mut ByteList, value: bool) -> Result<(), AllocError> {
    text.append(if value { b" true" } else { b" false" })
}

/// Appends the name of a fault.
pub(crate) fn put_fault(text: &mut ByteList, fault: ClientFault) -> Result<(), AllocError> {
    match fault {
        ClientFault::NumbersSpent => text.append(b" spent"),
        ClientFault::FullRefs => text.append(b" full"),
        ClientFault::OutOfMemory => text.append(b" no memory"),
    }
}

/// Appends a plan: its kind, its number and the objects that it names.
fn put_plan(alloc: Global, text: &mut ByteList, plan: &Plan) -> Result<(), AllocError> {
    match plan {
        Plan::Dirty { number, ids } => {
            text.append(b" dirty")?;
            put_number(alloc, text, *number)?;
            put_objects(alloc, text, ids)
        }
        Plan::Clean {
            number,
            ids,
            strong,
        } => {
            text.append(if *strong { b" strong" } else { b" weak" })?;
            put_number(alloc, text, *number)?;
            put_objects(alloc, text, ids)
        }
    }
}

/// Appends the plan that a call gave, if it gave one, as its copy has it, or its fault.
pub(crate) fn put_planned(
    alloc: Global,
    text: &mut ByteList,
    planned: Result<Option<Plan>, ClientFault>,
) -> Result<(), AllocError> {
    match planned {
        Ok(Some(plan)) => put_plan(alloc, text, &plan.copy(alloc)?),
        Ok(None) => text.append(b" none"),
        Err(fault) => put_fault(text, fault),
    }
}

/// Appends a reference: its object, the number since which it is there, and whether it is sure and strong.
pub(crate) fn put_ref(
    alloc: Global,
    text: &mut ByteList,
    reference: &ClientRef,
) -> Result<(), AllocError> {
    text.append(b" /")?;
    put_number(alloc, text, reference.id.number)?;
    put_number(alloc, text, reference.since)?;
    text.append(if reference.sure { b" sure" } else { b" unsure" })?;
    text.append(if reference.strong {
        b" strong"
    } else {
        b" weak"
    })
}
