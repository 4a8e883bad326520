//! Returns that are read, and what a client's connection begins with.
use crate::texts::{cut, must, put, put_digits, units_of};
use class_desc::TypeCode;
use jrmp_frames::{
    Body, FrameFault, Protocol, endpoint_bytes, header_bytes, read_return, return_bytes,
};
use mod_utf::utf::encoded_len;
use object_ids::Uid;
use sequence::{ByteList, Kinds};
use ser_read::StreamFault;
use std::alloc::Global;
use std::process::Abort;
use wire_io::mem::MemSource;
use wire_io::pull::Pull;

/// The bytes of a return after its code: the stream's magic number and version.
const MAGIC: &str = "ACED0005";

/// The identifier in the lines of tables, for which `U` stands.
const UID_DIGITS: &str = "00000006 0000000000000006 8000";

/// The type of a method's result, `V` for none; what follows the stream's magic number; and what is written of the return that it is, or why
/// it is none.
const RETURNS: &str = "V : 77 0F 01 U : 77 0F 01 U
V : 7A 0000000F 01 U : 77 0F 01 U
V : 77 00 77 01 01 77 00 77 0E U : 77 0F 01 U
V : 77 0F 01 U 70 : 77 0F 01 U
V : 77 10 01 U 00 : bad stream block left at 21
V : 77 0F 00 U : bad kind 00 at 6
V : 77 0F 03 U : bad kind 03 at 6
V : 77 01 FF : bad kind ff at 6
V : 77 00 7A 00000001 51 : bad kind 51 at 11
V : 70 : bad stream missing block at 4
V : 7B : bad stream inner exception at 4
V : 77 01 01 70 : bad stream missing block at 7
J : 77 17 01 U 0000000000000005 : 77 17 01 U 0000000000000005
J : 77 0F 01 U 77 08 0000000000000005 : 77 17 01 U 0000000000000005
J : 77 18 01 U 000000000000000500 : bad stream block left at 29
J : 77 0F 01 U 70 : bad stream missing block at 21
Z : 77 10 01 U 05 : 77 10 01 U 01
Z : 77 10 01 U 00 : 77 10 01 U 00
L : 77 0F 01 U 70 : 77 0F 01 U 70
L : 77 0F 01 U 74 0001 61 : 77 0F 01 U 74 0001 61
L : 77 10 01 U 00 70 : bad stream block left at 21
L : 77 0F 01 U 71 007E0000 : bad stream bad handle at 21
V : 77 0F 02 U 70 : 77 0F 02 U 70
J : 77 0F 02 U 74 0001 61 : 77 0F 02 U 74 0001 61
J : 77 17 02 U 0000000000000005 : bad stream block left at 21
L : 77 0F 02 U 79 : bad stream reset at 21";

/// Whole returns, each front of which ends too early.
const WHOLE: &str = "V : 77 0F 01 U
J : 77 17 01 U 0000000000000005
L : 77 00 77 0F 01 U 74 0003 616263
J : 77 01 02 77 0E U 77 00 74 0001 61";

/// Appends the bytes that hex digits spell, in which `U` once stands for the identifier.
fn put_return(rt: &impl Abort, out: &mut ByteList, digits: &str) {
    let (before, after) = cut(digits, 'U');
    put_digits(rt, out, before);
    if digits.contains('U') {
        put_digits(rt, out, UID_DIGITS);
    }
    put_digits(rt, out, after);
}

/// The bytes of a return behind its code.
fn bytes_of(rt: &impl Abort, alloc: Global, digits: &str) -> ByteList {
    let mut bytes = ByteList::new(alloc);
    put_digits(rt, &mut bytes, MAGIC);
    put_return(rt, &mut bytes, digits);
    bytes
}

/// A source of bytes.
fn source_of(alloc: Global, bytes: ByteList) -> MemSource {
    MemSource::new(bytes, Kinds::new(alloc), Kinds::new(alloc))
}

/// The type that a letter names, or none.
fn type_of(letter: &str) -> Option<TypeCode> {
    match letter {
        "J" => Some(TypeCode::Long),
        "Z" => Some(TypeCode::Boolean),
        "L" => Some(TypeCode::Object),
        _ => None,
    }
}

/// Appends the text of a fault.
fn put_fault(rt: &impl Abort, alloc: Global, out: &mut ByteList, fault: FrameFault) {
    match fault {
        FrameFault::Stream(fault) => {
            let text = format!(in alloc; "{fault}").expect(rt, "memory");
            put(rt, out, text.as_bytes());
        }
        FrameFault::BadKind { byte, at } => {
            let text = format!(in alloc; "bad kind {byte:02x} at {at}").expect(rt, "memory");
            put(rt, out, text.as_bytes());
        }
        _ => must(rt, false, "a fault of a return"),
    }
}

/// Appends what is written of a return.
fn put_written(
    rt: &impl Abort,
    alloc: Global,
    out: &mut ByteList,
    normal: bool,
    uid: Uid,
    body: &Body,
) {
    let bytes = return_bytes(alloc, normal, uid, body).expect(rt, "memory");
    put(rt, out, bytes.as_slice());
}

/// Returns the bytes that are written of the return that digits spell, for a result of this type, or the text of the
/// fault.
fn rewrite(rt: &impl Abort, alloc: Global, letter: &str, digits: &str) -> ByteList {
    let mut out = ByteList::new(alloc);
    let mut source = source_of(alloc, bytes_of(rt, alloc, digits));
    let mut pull = Pull::new(&mut source);
    match read_return(alloc, &mut pull, type_of(letter)) {
        Ok((normal, uid, body)) => put_written(rt, alloc, &mut out, normal, uid, &body),
        Err(fault) => put_fault(rt, alloc, &mut out, fault),
    }
    out
}

/// The wanted result of a return, as a line says it: its bytes, or the text of a fault, which begins with a small
/// letter.
fn wanted_of(rt: &impl Abort, alloc: Global, wanted: &str) -> ByteList {
    let mut out = ByteList::new(alloc);
    match wanted.as_bytes().first() {
        Some(b'a'..=b'z') => put(rt, &mut out, wanted.as_bytes()),
        _ => {
            put_digits(rt, &mut out, "51ACED0005");
            put_return(rt, &mut out, wanted);
        }
    }
    out
}

/// Looks whether reading a return answers what a line says.
fn check_return(rt: &impl Abort, alloc: Global, line: &str) {
    let (letter, rest) = cut(line, ':');
    let (digits, wanted) = cut(rest, ':');
    let found = rewrite(rt, alloc, letter, digits);
    let wanted = wanted_of(rt, alloc, wanted);
    must(rt, found.as_slice() == wanted.as_slice(), line);
}

#[test]
fn returns_are_read(rt: HostRuntime) {
    for line in RETURNS.split('\n') {
        check_return(&rt, rt.alloc(), line);
    }
}

/// Returns whether reading a front of a return answers that it ends too early, at its length.
fn is_short(alloc: Global, letter: &str, front: ByteList) -> bool {
    let at = front.len() as u64;
    let mut source = source_of(alloc, front);
    let mut pull = Pull::new(&mut source);
    match read_return(alloc, &mut pull, type_of(letter)) {
        Ok(_whole) => false,
        Err(fault) => fault == FrameFault::Stream(StreamFault::Truncated { at }),
    }
}

/// Looks at each front of a whole return.
fn check_fronts(rt: &impl Abort, alloc: Global, line: &str) {
    let (letter, digits) = cut(line, ':');
    let whole = bytes_of(rt, alloc, digits);
    let mut front = ByteList::new(alloc);
    for byte in whole.as_slice() {
        let copy = front.copy(alloc).expect(rt, "memory");
        must(rt, is_short(alloc, letter, copy), line);
        put(rt, &mut front, &[*byte]);
    }
}

#[test]
fn fronts_of_returns_are_truncated(rt: HostRuntime) {
    for line in WHOLE.split('\n') {
        check_fronts(&rt, rt.alloc(), line);
    }
}

/// Looks whether these digits spell what a client sends of a host and a port.
fn check_endpoint(rt: &impl Abort, alloc: Global, host: &str, port: i32, digits: &str) {
    let host = units_of(rt, alloc, host);
    assert!(rt; encoded_len(&host) <= 255, "a short host");
    let found = endpoint_bytes(alloc, &host, port).expect(rt, "memory");
    let mut wanted = ByteList::new(alloc);
    put_digits(rt, &mut wanted, digits);
    must(rt, found.as_slice() == wanted.as_slice(), digits);
}

#[test]
fn client_begins_so(rt: HostRuntime) {
    let stream = [0x4A, 0x52, 0x4D, 0x49, 0, 2, 0x4B];
    let single_op = [0x4A, 0x52, 0x4D, 0x49, 0, 2, 0x4C];
    must(&rt, header_bytes(Protocol::Stream) == stream, "stream");
    must(
        &rt,
        header_bytes(Protocol::SingleOp) == single_op,
        "single-op",
    );
    let local = "0009 3132372E302E302E31 00000000";
    check_endpoint(&rt, rt.alloc(), "127.0.0.1", 0, local);
    check_endpoint(&rt, rt.alloc(), "", -2, "0000 FFFFFFFE");
}
