//! The result of a call.
ghost use Rattle.std.specs.Prelude.{◌≡◌, ◌≢◌, Err, option_map, IfSome};
ghost use Rattle.java_shapes.specs.LiveRefs.{live_ref_at};
ghost use Rattle.java_shapes.specs.Objects.{text_at};
ghost use Rattle.rmi_caller.specs.Answers.{shape_error, Reads, ReadsAt, ReadsValue, nothing_in, value_in, nodes_in, slot_in};
ghost use Rattle.ser_values.specs.declared.value.Value.TheVariants as values;
ghost use Rattle.rmi_caller.specs.declared.error.Wanted.TheVariants as wanted_kinds;
ghost use Rattle.rmi_caller.specs.declared.error.CallError.TheVariants as errors;

use crate::error::{CallError, Wanted};
use class_desc::{Item, Slot};
use java_shapes::{LiveRef, ShapeFault, as_live_ref, as_text};
use jrmp_frames::Body;
use object_ids::Uid;
use sequence::Units;
use ser_values::{Graph, Value};
use std::alloc::Global;

/// The result of a call, as the server answered it. Each reader returns `WrongAnswer` exactly where the result is of another type.
#[derive(Debug)]
pub struct Answer {
    alloc: Global,
    heard: rmi_client::Answer,
}

// Written out, so that whoever owns one has one call at each exit, and not the drop of each field.
impl Drop for Answer {
    fn drop(self) {
        let Answer { alloc: _, heard } = self;
        drop(heard);
    }
}

/// A result, as an author reads it.
pub(crate) fn answer_of(alloc: Global, heard: rmi_client::Answer) -> Answer
    ensures { result.heard ≡ heard }
{
    Answer { alloc, heard }
}

/// The error of a result that is not of the type that is wanted.
fn wrong(wanted: Wanted) -> CallError
    ensures { result ≡ CallError.WrongAnswer wanted }
{
    CallError::WrongAnswer { wanted }
}

/// The error of a result that was not read as a shape.
fn shape_error(fault: ShapeFault, wanted: Wanted) -> CallError
    ensures is { result ≡ shape_error fault wanted }
    ensures apart { result ≢ CallError.DialFault }
{
    match fault {
        ShapeFault::WrongShape => wrong(wanted),
        ShapeFault::OutOfMemory => CallError::OutOfMemory,
    }
}

impl Answer {
    /// The identifier of the Return, by which its references are acknowledged.
    pub(crate) fn uid(&self) -> Uid
        ensures { result ≡ self.now.heard.uid }
    {
        self.heard.uid
    }

    /// The number, character or truth value that the result is.
    fn value(&self) -> Option<Value>
        ensures { result ≡ value_in self.now.heard.body }
    {
        match &self.heard.body {
            Body::Prim(value) => Some(*value),
            _ => None,
        }
    }

    /// The graph and the reference that the result is.
    fn slot(&self) -> Option<(&Graph, Slot)>
        ensures slot { option_map (λ found. found.1) result ≡ slot_in self.now.heard.body }
        ensures nodes { IfSome result (λ found. found.0.now.nodes ≡ nodes_in self.now.heard.body) }
    {
        match &self.heard.body {
            Body::Tree(graph) => match graph.items().as_slice() {
                [Item::Ref(slot)] => Some((graph, *slot)),
                _ => None,
            },
            _ => None,
        }
    }

    /// Reads that the method returned nothing.
    pub fn nothing(&self) -> Result<(), CallError>
        ensures { Reads wanted_kinds.Nothing (nothing_in self.now.heard.body) result }
    {
        match &self.heard.body {
            Body::Void => Ok(()),
            _ => Err(wrong(Wanted::Nothing)),
        }
    }

    /// The `boolean` that the result is.
    pub fn boolean(&self) -> Result<bool, CallError>
        ensures { ReadsValue values.Boolean wanted_kinds.Boolean (value_in self.now.heard.body) result }
    {
        match self.value() {
            Some(Value::Boolean(value)) => Ok(value),
            _ => Err(wrong(Wanted::Boolean)),
        }
    }

    /// The bits of the `byte` that the result is.
    pub fn byte(&self) -> Result<u8, CallError>
        ensures { ReadsValue values.Byte wanted_kinds.Byte (value_in self.now.heard.body) result }
    {
        match self.value() {
            Some(Value::Byte(value)) => Ok(value),
            _ => Err(wrong(Wanted::Byte)),
        }
    }

    /// The `char` that the result is.
    pub fn char(&self) -> Result<u16, CallError>
        ensures { ReadsValue values.Char wanted_kinds.Char (value_in self.now.heard.body) result }
    {
        match self.value() {
            Some(Value::Char(value)) => Ok(value),
            _ => Err(wrong(Wanted::Char)),
        }
    }

    /// The `short` that the result is.
    pub fn short(&self) -> Result<i16, CallError>
        ensures { ReadsValue values.Short wanted_kinds.Short (value_in self.now.heard.body) result }
    {
        match self.value() {
            Some(Value::Short(value)) => Ok(value),
            _ => Err(wrong(Wanted::Short)),
        }
    }

    /// The `int` that the result is.
    pub fn int(&self) -> Result<i32, CallError>
        ensures { ReadsValue values.Int wanted_kinds.Int (value_in self.now.heard.body) result }
    {
        match self.value() {
            Some(Value::Int(value)) => Ok(value),
            _ => Err(wrong(Wanted::Int)),
        }
    }

    /// The `long` that the result is.
    pub fn long(&self) -> Result<i64, CallError>
        ensures { ReadsValue values.Long wanted_kinds.Long (value_in self.now.heard.body) result }
    {
        match self.value() {
            Some(Value::Long(value)) => Ok(value),
            _ => Err(wrong(Wanted::Long)),
        }
    }

    /// The units of the `String` that the result is; null is none.
    pub fn units(&self) -> Result<Units, CallError>
        ensures { ReadsAt (text_at (nodes_in self.now.heard.body)) wanted_kinds.Text
            (slot_in self.now.heard.body) result }
    {
        let Some((graph, slot)) = self.slot() else {
            return Err(wrong(Wanted::Text));
        };
        match as_text(self.alloc, graph, slot) {
            Ok(text) => Ok(text),
            Err(fault) => Err(shape_error(fault, Wanted::Text)),
        }
    }

    /// The `String` that the result is; null is none. A unit that is half of a pair stands as U+FFFD.
    pub fn text(&self) -> Result<String, CallError> {
        let units = self.units()?;
        Ok(String::from_utf16_lossy(self.alloc, units.as_slice())?)
    }

    /// The reference to a remote object that the result is; null is none. [`crate::Remote::follow`] takes a lease on the object.
    pub fn reference(&self) -> Result<LiveRef, CallError>
        ensures apart { result ≢ Err errors.DialFault }
        ensures read { ReadsAt (live_ref_at (nodes_in self.now.heard.body)) wanted_kinds.Reference
            (slot_in self.now.heard.body) result }
    {
        let Some((graph, slot)) = self.slot() else {
            return Err(wrong(Wanted::Reference));
        };
        match as_live_ref(self.alloc, graph, slot) {
            Ok(reference) => Ok(reference),
            Err(fault) => Err(shape_error(fault, Wanted::Reference)),
        }
    }
}
