//! The calls that a client makes.
use crate::place::Place;
use class_desc::TypeCode;
use history::Name;
use object_ids::Vmid;
use ser_values::Graph;
use std::alloc::Global;

/// A client that calls remote objects, and how it asks their servers to keep them (Java RMI Specification, 9.1).
#[derive(Debug)]
pub struct Caller {
    /// The allocator, from which all memory of the call is taken.
    pub alloc: Global,
    /// The identifier of the client's virtual machine, which each lease call carries. A caller may take it from four
    /// random numbers. The low 32 bits of the first one, signed, are the unique number. The second one modulo 2^61 is the time. The count
    /// is 0, and the 8 bytes of the last one are the address.
    pub vmid: Vmid,
    /// The number of the first lease call; each later one has the next number. Where a client's machine makes no other calls, -2^63 leaves most room.
    pub first: i64,
    /// For how many milliseconds a lease is asked for. Java's clients ask for 600,000.
    pub asked: i64,
}

// Written out, so that whoever owns one has one call at each exit, and not the drop of each field.
impl Drop for Caller {
    fn drop(self) {
        let Caller {
            alloc: _,
            vmid,
            first: _,
            asked: _,
        } = self;
        drop(vmid);
    }
}

/// A method of a remote object, and what it is called with (Java RMI Specification, 10.3, CallData).
#[derive(Debug)]
pub struct MethodCall {
    /// The method's hash (Java RMI Specification, 8.3).
    pub hash: i64,
    /// The arguments, which are the items of this graph.
    pub arguments: Graph,
    /// The type of the method's result; None where it has none.
    pub result: Option<TypeCode>,
}

// Written out, so that whoever owns one has one call at each exit, and not the drop of each field.
impl Drop for MethodCall {
    fn drop(self) {
        let MethodCall {
            hash: _,
            arguments,
            result: _,
        } = self;
        drop(arguments);
    }
}

/// A call of a remote object that a name of a registry stands for.
#[derive(Debug)]
pub struct Request {
    /// The client that calls.
    pub caller: Caller,
    /// Where the registry is.
    pub place: Place,
    /// The name that stands for the object.
    pub name: Name,
    /// The method that is called.
    pub method: MethodCall,
}

// Written out, so that whoever owns one has one call at each exit, and not the drop of each field.
impl Drop for Request {
    fn drop(self) {
        let Request {
            caller,
            place,
            name,
            method,
        } = self;
        drop(caller);
        drop(place);
        drop(name);
        drop(method);
    }
}
