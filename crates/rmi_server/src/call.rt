//! A call, as a service gets it.
ghost use Rattle.std.specs.Prelude.{◌≡◌};
ghost use Rattle.rmi_server.specs.Reading.{
  ReadsObject,
  ReadsPrimitive,
  ReadsReference,
  ReadsText,
  slot_at,
  shape_fault,
  value_at,
};
ghost use Rattle.ser_values.specs.declared.value.Value.TheVariants as values;
ghost use Rattle.rmi_server.specs.declared.fault.Wanted.TheVariants as wanted_kinds;

use crate::fault::{CallFault, Wanted};
use call_dispatch::Invocation;
use class_desc::Slot;
use java_shapes::{LiveRef, ShapeFault, as_live_ref, as_text};
use jrmp_frames::Arg;
use method_hash::Method;
use object_ids::ObjId;
use sequence::Units;
use ser_values::{BuildFault, Graph, Value};
use std::alloc::Global;

/// A call of a method of an object. Each of its arguments is read by its place, which is counted from 0.
#[derive(Drop)]
pub struct Call<'c> {
    /// Where memory comes from.
    pub alloc: Global,
    /// The object, its kind and method, and the arguments.
    pub invocation: &'c Invocation,
    /// The method, as the object's kind has it.
    pub method: &'c Method,
}

impl Call<'_> {
    /// The object whose method is called.
    pub fn object(&self) -> ObjId
        ensures { result ≡ self.now.invocation.now.object }
    {
        self.invocation.object
    }

    /// The number of the object's kind: its place in the list of kinds.
    pub fn kind(&self) -> u32
        ensures { result ≡ self.now.invocation.now.kind }
    {
        self.invocation.kind
    }

    /// The method's name, as `add`.
    pub fn name(&self) -> &[u8]
        ensures { result.now ≡ self.now.method.now.name }
    {
        self.method.name.as_slice()
    }

    /// The method's text, as `add(J)J`. It tells methods of one name apart.
    pub fn text(&self) -> &[u8]
        ensures { result.now ≡ self.now.method.now.text }
    {
        self.method.text.as_slice()
    }

    /// The number, character or truth value at a place.
    fn value(&self, place: usize) -> Option<Value>
        ensures { result ≡ value_at self.now.invocation.now.arguments.values place }
    {
        match self.invocation.arguments.values.as_slice().get(place) {
            Some(Arg::Prim(value)) => Some(*value),
            _ => None,
        }
    }

    /// The reference at a place.
    fn slot(&self, place: usize) -> Option<Slot>
        ensures { result ≡ slot_at self.now.invocation.now.arguments.values place }
    {
        match self.invocation.arguments.values.as_slice().get(place) {
            Some(Arg::Ref(slot)) => Some(*slot),
            _ => None,
        }
    }

    /// The `boolean` at a place. WrongArgument comes exactly where there is none.
    pub fn boolean(&self, place: usize) -> Result<bool, CallFault>
        ensures { ReadsPrimitive values.Boolean wanted_kinds.Boolean self.now.invocation.now place result }
    {
        match self.value(place) {
            Some(Value::Boolean(value)) => Ok(value),
            _ => Err(wrong(place, Wanted::Boolean)),
        }
    }

    /// The bits of the `byte` at a place. WrongArgument comes exactly where there is none.
    pub fn byte(&self, place: usize) -> Result<u8, CallFault>
        ensures { ReadsPrimitive values.Byte wanted_kinds.Byte self.now.invocation.now place result }
    {
        match self.value(place) {
            Some(Value::Byte(value)) => Ok(value),
            _ => Err(wrong(place, Wanted::Byte)),
        }
    }

    /// The `char` at a place. WrongArgument comes exactly where there is none.
    pub fn char(&self, place: usize) -> Result<u16, CallFault>
        ensures { ReadsPrimitive values.Char wanted_kinds.Char self.now.invocation.now place result }
    {
        match self.value(place) {
            Some(Value::Char(value)) => Ok(value),
            _ => Err(wrong(place, Wanted::Char)),
        }
    }

    /// The `short` at a place. WrongArgument comes exactly where there is none.
    pub fn short(&self, place: usize) -> Result<i16, CallFault>
        ensures { ReadsPrimitive values.Short wanted_kinds.Short self.now.invocation.now place result }
    {
        match self.value(place) {
            Some(Value::Short(value)) => Ok(value),
            _ => Err(wrong(place, Wanted::Short)),
        }
    }

    /// The `int` at a place. WrongArgument comes exactly where there is none.
    pub fn int(&self, place: usize) -> Result<i32, CallFault>
        ensures { ReadsPrimitive values.Int wanted_kinds.Int self.now.invocation.now place result }
    {
        match self.value(place) {
            Some(Value::Int(value)) => Ok(value),
            _ => Err(wrong(place, Wanted::Int)),
        }
    }

    /// The `long` at a place. WrongArgument comes exactly where there is none.
    pub fn long(&self, place: usize) -> Result<i64, CallFault>
        ensures { ReadsPrimitive values.Long wanted_kinds.Long self.now.invocation.now place result }
    {
        match self.value(place) {
            Some(Value::Long(value)) => Ok(value),
            _ => Err(wrong(place, Wanted::Long)),
        }
    }

    /// The `String` at a place. WrongArgument comes exactly where there is none, as where it is null.
    pub fn string(&self, place: usize) -> Result<Units, CallFault>
        ensures { ReadsText self.now.invocation.now place result }
    {
        let Some(slot) = self.slot(place) else {
            return Err(wrong(place, Wanted::Text));
        };
        match as_text(self.alloc, &self.invocation.arguments.graph, slot) {
            Ok(text) => Ok(text),
            Err(fault) => Err(shape_fault(fault, place, Wanted::Text)),
        }
    }

    /// The reference to a remote object at a place. WrongArgument comes exactly where there is none, as where it is null.
    pub fn reference(&self, place: usize) -> Result<LiveRef, CallFault>
        ensures { ReadsReference self.now.invocation.now place result }
    {
        let Some(slot) = self.slot(place) else {
            return Err(wrong(place, Wanted::Reference));
        };
        match as_live_ref(self.alloc, &self.invocation.arguments.graph, slot) {
            Ok(reference) => Ok(reference),
            Err(fault) => Err(shape_fault(fault, place, Wanted::Reference)),
        }
    }

    /// The object at a place, or null, with all that it refers to: a graph whose one item it is. WrongArgument comes where the argument is no
    /// reference, or where its part of the call's graph is no graph of its own.
    pub fn graph(&self, place: usize) -> Result<Graph, CallFault>
        ensures { ReadsObject self.now.invocation.now place result }
    {
        let Some(slot) = self.slot(place) else {
            return Err(wrong(place, Wanted::Object));
        };
        match self.invocation.arguments.graph.part(self.alloc, slot) {
            Ok(graph) => Ok(graph),
            Err(BuildFault::OutOfMemory) => Err(CallFault::OutOfMemory),
            Err(_) => Err(wrong(place, Wanted::Object)),
        }
    }
}

/// The fault of an argument that is of another type than this.
fn wrong(place: usize, wanted: Wanted) -> CallFault
    ensures { result ≡ CallFault.WrongArgument place wanted }
{
    CallFault::WrongArgument { place, wanted }
}

/// The fault of an argument that was not read as this type.
fn shape_fault(fault: ShapeFault, place: usize, wanted: Wanted) -> CallFault
    ensures { result ≡ shape_fault fault place wanted }
{
    match fault {
        ShapeFault::WrongShape => wrong(place, wanted),
        ShapeFault::OutOfMemory => CallFault::OutOfMemory,
    }
}
