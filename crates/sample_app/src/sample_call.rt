//! The calls of sample objects.
ghost use Rattle.std.specs.Prelude.{◌≡◌};
ghost use Rattle.sample_app.specs.Does.{call_of, echo_of, add_of, get_of, make_of, same_slot};

use call_dispatch::Invocation;
use class_desc::{Item, Slot};
use jrmp_frames::{Arg, Arguments};
use ser_values::Value;

/// A call of a sample object.
#[derive(Clone, Copy, Debug, PartialEq, Eq)]
pub enum SampleCall {
    /// `echo`: give the argument back.
    Echo,
    /// `add`: add this number to the object's own, and give the sum.
    Add(i64),
    /// `get`: give the object's number.
    Get,
    /// `make`: give a new counter.
    Make,
}

/// Returns the call of a sample object that an invocation is. It is None where the method is none of the sample
/// kinds', or where the call doesn't have the method's arguments.
pub fn sample_call(call: &Invocation) -> Option<SampleCall>
    ensures { result ≡ call_of call.now }
{
    match (call.kind, call.method) {
        (0, 0) => echo_of(&call.arguments),
        (1, 0) => add_of(&call.arguments),
        (1, 1) => get_of(&call.arguments),
        (2, 0) => make_of(&call.arguments),
        _ => None,
    }
}

/// The call of `echo` with these arguments: one reference, which is all that their graph has.
fn echo_of(arguments: &Arguments) -> Option<SampleCall>
    ensures { result ≡ echo_of arguments.now }
{
    let [Arg::Ref(argument)] = arguments.values.as_slice() else {
        return None;
    };
    let [Item::Ref(item)] = arguments.graph.items().as_slice() else {
        return None;
    };
    if same_slot(*argument, *item) {
        Some(SampleCall::Echo)
    } else {
        None
    }
}

/// The call of `add` with these arguments: one number.
fn add_of(arguments: &Arguments) -> Option<SampleCall>
    ensures { result ≡ add_of arguments.now }
{
    match arguments.values.as_slice() {
        [Arg::Prim(Value::Long(number))] => Some(SampleCall::Add(*number)),
        _ => None,
    }
}

/// The call of `get` with these arguments, of which there are none.
fn get_of(arguments: &Arguments) -> Option<SampleCall>
    ensures { result ≡ get_of arguments.now }
{
    match arguments.values.as_slice() {
        [] => Some(SampleCall::Get),
        _ => None,
    }
}

/// The call of `make` with these arguments, of which there are none.
fn make_of(arguments: &Arguments) -> Option<SampleCall>
    ensures { result ≡ make_of arguments.now }
{
    match arguments.values.as_slice() {
        [] => Some(SampleCall::Make),
        _ => None,
    }
}

/// Returns whether two references name the same node, or both none.
fn same_slot(a: Slot, b: Slot) -> bool
    ensures { result ≡ same_slot a b }
{
    match (a, b) {
        (Slot::Null, Slot::Null) => true,
        (Slot::Node(node), Slot::Node(other)) => node == other,
        _ => false,
    }
}
