//! Faults among the loose nodes of a builder.
ghost use Rattle.std.specs.Prelude.{◌≡◌, Some, IfOk, IfErr, OnOk, OnErr};
ghost use Rattle.java_shapes.specs.Fault.{FaultAt, FaultClassAt, fault_parts, fault_text, reference, empty_part};
ghost use Rattle.java_shapes.specs.Put.{Grows, IsPutRefusal, Puts};
ghost use Rattle.java_shapes.specs.Throwable.{fault_text_at};

use crate::classes::{put_class, put_object, put_text};
use class_desc::{Items, KnownClass, Slot};
use sequence::Units;
use ser_values::{BuildFault, Builder, Part, PartList, Value, ValueList};
use std::alloc::{AllocError, Global};

/// A part of one reference.
pub(crate) fn reference(alloc: Global, slot: Slot) -> Result<Part, AllocError>
    ensures { IfOk result (λ part. part ≡ reference slot) }
{
    Ok(Part {
        values: ValueList::from_slice(alloc, &[Value::Ref(slot)])?,
        note: Items::new(alloc),
    })
}

/// A part of no fields.
pub(crate) fn empty_part(alloc: Global) -> Part
    ensures { result ≡ empty_part }
{
    Part {
        values: ValueList::new(alloc),
        note: Items::new(alloc),
    }
}

/// The parts of a fault with a message.
pub(crate) fn fault_parts(alloc: Global, text: Slot) -> Result<PartList, AllocError>
    ensures { IfOk result (λ parts. parts ≡ fault_parts text) }
{
    let mut parts = PartList::new(alloc);
    parts.push(reference(alloc, text)?)?;
    parts.push(empty_part(alloc))?;
    parts.push(empty_part(alloc))?;
    parts.push(reference(alloc, Slot::Null)?)?;
    Ok(parts)
}

/// Puts the description of a fault's class, with those of its superclasses before it.
fn put_classes(alloc: Global, b: &mut Builder) -> Result<Slot, BuildFault>
    ensures { Puts 6 (λ nodes s. FaultClassAt nodes s) b.old b.new result }
{
    let throwable = put_class(alloc, b, KnownClass::Throwable, Slot::Null)?;
    let exception = put_class(alloc, b, KnownClass::Exception, throwable)?;
    let io_exception = put_class(alloc, b, KnownClass::IoException, exception)?;
    put_class(alloc, b, KnownClass::RemoteException, io_exception)
}

/// Puts a fault, node by node.
fn put_all(alloc: Global, b: &mut Builder, message: Units) -> Result<Slot, BuildFault>
    ensures { Puts 16 (λ nodes s. FaultAt nodes message s) b.old b.new result }
{
    let text = put_text(b, message)?;
    let class = put_classes(alloc, b)?;
    let parts = fault_parts(alloc, text)?;
    put_object(b, class, parts)
}

/// Puts a `java.rmi.RemoteException` with a message and a null detail. TooManyNodes comes only where the loose nodes before
/// and at most 16 are more than 65,536; else it is refused only for want of memory. After a refusal the builder is as it was.
pub fn put_fault(alloc: Global, b: &mut Builder, message: &Units) -> Result<Slot, BuildFault>
    ensures ok { IfOk result (λ slot. FaultAt b.new message.now slot) }
    ensures grown { OnOk result (Grows 16 b.old b.new) }
    ensures viewed { IfOk result (λ slot. fault_text_at b.new slot
        ≡ Some (fault_text message.now)) }
    ensures err { IfErr result (IsPutRefusal 16 b.old) }
    ensures unchanged { OnErr result (b.new ≡ b.old) }
{
    let message = message.copy(alloc)?;
    let before = b.len();
    match put_all(alloc, b, message) {
        Ok(slot) => Ok(slot),
        Err(fault) => {
            b.truncate(before);
            Err(fault)
        }
    }
}
