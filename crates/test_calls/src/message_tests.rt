//! Calls that are read and written, and returns that are written.
use crate::texts::{cut, must, null_graph, put, put_digits};
use jrmp_frames::{
    Body, CallHead, FrameFault, call_bytes, read_arguments, read_head, read_uid, return_bytes,
};
use method_hash::Method;
use object_ids::Uid;
use sequence::{ByteList, Kinds};
use ser_values::{Graph, Value};
use std::alloc::Global;
use std::process::Abort;
use wire_io::mem::MemSource;
use wire_io::pull::Pull;

/// The bytes of a call after its code and up to its head: the stream's magic number and version.
const MAGIC: &str = "ACED0005";

/// The head in the lines of tables, for which `H` stands: object 17 of a space, the operation -1 and a hash.
const HEAD: &str = "0000000000000011 00000007 0000000000000009 0000 FFFFFFFF 0102030405060708";

/// A method; what follows the stream's magic number; and what is written of the call that it is, or why it is none.
const CALLS: &str = "get()J : 77 22 H : 77 22 H
get()J : 7A 00000022 H : 77 22 H
get()J : 77 00 77 22 H : 77 22 H
get()J : 77 23 H 00 : bad stream block left at 40
get()J : 77 22 0000 : truncated at 8
get()J : 77 : truncated at 5
get()J : : truncated at 4
get()J : 70 : bad stream missing block at 4
get()J : 7B : bad stream inner exception at 4
get()J : 7A FFFFFFFF H : bad stream negative length at 5
add(J)J : 77 2A H 0000000000000005 : 77 2A H 0000000000000005
add(J)J : 77 22 H 77 03 000000 77 00 77 05 0000000005 : 77 2A H 0000000000000005
add(J)J : 77 22 H 77 03 000000 77 00 77 06 000000000500 : bad stream block left at 54
add(J)J : 77 22 H : truncated at 40
add(J)J : 77 22 H 70 : bad stream missing block at 40
add(J)J : 77 22 H 77 02 0000 70 : bad stream missing block at 44
add(J)J : 77 22 H 79 : bad stream reset at 40
add(J)J : 77 29 H 00000000000000 : truncated at 47
echo(LA;)LA; : 77 22 H 70 : 77 22 H 70
echo(LA;)LA; : 77 22 H 77 00 70 : 77 22 H 70
echo(LA;)LA; : 77 22 H 74 0001 61 : 77 22 H 74 0001 61
echo(LA;)LA; : 77 23 H 00 70 : bad stream block left at 40
echo(LA;)LA; : 77 22 H 77 01 00 70 : bad stream block left at 42
echo(LA;)LA; : 77 22 H 71 007E0000 : bad stream bad handle at 40
echo(LA;)LA; : 77 22 H 74 0002 61 : truncated at 44
m(ZLA;[BI)V : 77 23 H 02 74 0001 61 71 007E0000 77 04 00000007 : 77 23 H 02 74 0001 61 71 007E0000 77 04 00000007
m(BCSIFDZ)V : 77 38 H 01 0002 0003 00000004 00000005 0000000000000006 07 : 77 38 H 01 0002 0003 00000004 00000005 0000000000000006 07";

/// The bytes that hex digits spell, in which `H` once stands for the head, after these.
fn bytes_of(rt: &impl Abort, alloc: Global, front: &str, digits: &str) -> ByteList {
    let mut bytes = ByteList::new(alloc);
    put_digits(rt, &mut bytes, front);
    let (before, after) = cut(digits, 'H');
    put_digits(rt, &mut bytes, before);
    if digits.contains('H') {
        put_digits(rt, &mut bytes, HEAD);
    }
    put_digits(rt, &mut bytes, after);
    bytes
}

/// A source of the bytes that hex digits spell.
fn source_of(rt: &impl Abort, alloc: Global, front: &str, digits: &str) -> MemSource {
    MemSource::new(
        bytes_of(rt, alloc, front, digits),
        Kinds::new(alloc),
        Kinds::new(alloc),
    )
}

/// The wanted result of a call, as a line says it: its bytes, or the text of a fault, which begins with a small letter.
fn wanted_of(rt: &impl Abort, alloc: Global, wanted: &str) -> ByteList {
    match wanted.as_bytes().first() {
        Some(b'a'..=b'z') => {
            let mut text = ByteList::new(alloc);
            put(rt, &mut text, wanted.as_bytes());
            text
        }
        _ => bytes_of(rt, alloc, "50ACED0005", wanted),
    }
}

/// Appends the text of a fault.
fn put_fault(rt: &impl Abort, alloc: Global, out: &mut ByteList, fault: FrameFault) {
    match fault {
        FrameFault::Stream(fault) => {
            let text = format!(in alloc; "{fault}").expect(rt, "memory");
            put(rt, out, text.as_bytes());
        }
        _ => must(rt, false, "a fault of a stream"),
    }
}

/// Appends what is written of a call.
fn put_call(rt: &impl Abort, alloc: Global, out: &mut ByteList, head: CallHead, graph: &Graph) {
    let bytes = call_bytes(alloc, head, graph).expect(rt, "memory");
    put(rt, out, bytes.as_slice());
}

/// Appends what is written of a call that is read, or the text of its fault.
fn put_again(
    rt: &impl Abort,
    alloc: Global,
    out: &mut ByteList,
    pull: &mut Pull<'_, MemSource>,
    method: &Method,
) {
    match read_head(alloc, pull) {
        Ok((head, reader)) => match read_arguments(alloc, pull, reader, method) {
            Ok(arguments) => put_call(rt, alloc, out, head, &arguments.graph),
            Err(fault) => put_fault(rt, alloc, out, fault),
        },
        Err(fault) => put_fault(rt, alloc, out, fault),
    }
}

/// Reads the call that digits spell, of this method, and appends what is written of it.
fn put_rewritten(
    rt: &impl Abort,
    alloc: Global,
    out: &mut ByteList,
    digits: &str,
    method: &Method,
) {
    let mut source = source_of(rt, alloc, MAGIC, digits);
    let mut pull = Pull::new(&mut source);
    put_again(rt, alloc, out, &mut pull, method);
}

/// Returns the bytes that are written of the call that digits spell, of a method of this text.
fn rewrite(rt: &impl Abort, alloc: Global, digits: &str, text: &str) -> ByteList {
    let method = Method::parse(alloc, text.as_bytes()).expect(rt, text);
    let mut out = ByteList::new(alloc);
    put_rewritten(rt, alloc, &mut out, digits, &method);
    out
}

/// Looks whether reading a call answers what a line says.
fn check_call(rt: &impl Abort, alloc: Global, line: &str) {
    let (text, rest) = cut(line, ':');
    let (digits, wanted) = cut(rest, ':');
    let found = rewrite(rt, alloc, digits, text);
    let wanted = wanted_of(rt, alloc, wanted);
    must(rt, found.as_slice() == wanted.as_slice(), line);
}

#[test]
fn calls_are_read_and_written(rt: HostRuntime) {
    for line in CALLS.split('\n') {
        check_call(&rt, rt.alloc(), line);
    }
}

/// An identifier, and its bytes.
const UID: Uid = Uid {
    unique: 6,
    time: 6,
    count: -32768,
};

const UID_BYTES: &str = "00000006 0000000000000006 8000";

/// Returns the body of a return, by its name.
fn body_of(rt: &impl Abort, alloc: Global, name: &str) -> Body {
    match name {
        "void" => Body::Void,
        "five" => Body::Prim(Value::Long(5)),
        "truth" => Body::Prim(Value::Boolean(true)),
        _ => Body::Tree(null_graph(rt, alloc)),
    }
}

/// Rows of returns: the body, `normal` or another word, and the bytes before and after the identifier.
const RETURNS: &str = "void | normal | 77 0F 01 |
five | normal | 77 17 01 | 0000000000000005
truth | normal | 77 10 01 | 01
null | exceptional | 77 0F 02 | 70";

/// Returns the bytes that are written of a return of this name.
fn write_named(rt: &impl Abort, alloc: Global, normal: bool, name: &str) -> ByteList {
    let body = body_of(rt, alloc, name);
    return_bytes(alloc, normal, UID, &body).expect(rt, "memory")
}

/// Returns the wanted bytes of a return, from those before and after its identifier.
fn wanted_return(rt: &impl Abort, alloc: Global, front: &str, back: &str) -> ByteList {
    let mut wanted = bytes_of(rt, alloc, "51ACED0005", front);
    put_digits(rt, &mut wanted, UID_BYTES);
    put_digits(rt, &mut wanted, back);
    wanted
}

/// Looks at what is written of a return.
fn check_return(rt: &impl Abort, alloc: Global, line: &str) {
    let (name, rest) = cut(line, '|');
    let (kind, rest) = cut(rest, '|');
    let (front, back) = cut(rest, '|');
    let wanted = wanted_return(rt, alloc, front, back);
    let found = write_named(rt, alloc, kind == "normal", name);
    must(rt, found.as_slice() == wanted.as_slice(), line);
}

#[test]
fn returns_are_written(rt: HostRuntime) {
    for line in RETURNS.split('\n') {
        check_return(&rt, rt.alloc(), line);
    }
}

#[test]
fn identifiers_are_read(rt: HostRuntime) {
    let mut source = source_of(&rt, rt.alloc(), UID_BYTES, "0102");
    let mut pull = Pull::new(&mut source);
    must(&rt, read_uid(&mut pull) == Ok(UID), "an identifier");
    let short = FrameFault::Stream(ser_read::StreamFault::Truncated { at: 16 });
    must(&rt, read_uid(&mut pull) == Err(short), "the end");
}
