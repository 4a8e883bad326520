//! Bytes from text, and the texts of answers and ends. A test stops where there is no memory.
use history::Name;
use java_shapes::LiveRef;
use jrmp_frames::Body;
use mod_utf::utf::units_of_ascii;
use object_ids::Uid;
use rmi_client::{Answer, ClientEnd, ReplyKind};
use sequence::{ByteList, Units};
use ser_read::StreamFault;
use ser_values::Value;
use std::alloc::Global;
use std::process::Abort;
use test_support::texts;

/// Stops where this does not hold, and says what it is.
pub(crate) fn must(rt: &impl Abort, holds: bool, what: &str) {
    assert!(rt; holds, "{what}");
}

/// Appends a piece.
pub(crate) fn put(rt: &impl Abort, bytes: &mut ByteList, piece: &[u8]) {
    must(rt, bytes.append(piece).is_ok(), "memory");
}

/// The bytes that hex digits spell.
pub(crate) fn bytes_of(rt: &impl Abort, alloc: Global, digits: &str) -> ByteList {
    let mut bytes = ByteList::new(alloc);
    must(rt, texts::put_digits(&mut bytes, digits).is_ok(), "memory");
    bytes
}

/// A text.
pub(crate) fn units(rt: &impl Abort, alloc: Global, text: &[u8]) -> Units {
    units_of_ascii(alloc, text).expect(rt, "memory")
}

/// A name.
pub(crate) fn name(rt: &impl Abort, alloc: Global, text: &[u8]) -> Name {
    match Name::new(units(rt, alloc, text)) {
        Ok(name) => name,
        Err(_long) => panic!(rt; "a short name"),
    }
}

/// Appends a text of ASCII units.
pub(crate) fn put_units(rt: &impl Abort, out: &mut ByteList, units: &Units) {
    for unit in units {
        put(rt, out, &[(*unit % 128) as u8]);
    }
}

/// Appends a word and a position.
pub(crate) fn put_at(rt: &impl Abort, alloc: Global, out: &mut ByteList, word: &str, at: u64) {
    let text = format!(in alloc; "{word} {at}").expect(rt, "memory");
    put(rt, out, text.as_bytes());
}

/// Appends the text of a fault of a stream.
fn put_fault(rt: &impl Abort, alloc: Global, out: &mut ByteList, fault: StreamFault) {
    let text = format!(in alloc; "{fault}").expect(rt, "memory");
    put(rt, out, text.as_bytes());
}

/// Appends the text of bytes that are no reply.
fn put_kind(rt: &impl Abort, alloc: Global, out: &mut ByteList, kind: ReplyKind, at: u64) {
    match kind {
        ReplyKind::NotReturn => put_at(rt, alloc, out, "not return at", at),
        ReplyKind::BadReturnKind => put_at(rt, alloc, out, "bad kind at", at),
        ReplyKind::WrongShape => put_at(rt, alloc, out, "wrong shape at", at),
        ReplyKind::Stream(kind) => put_fault(rt, alloc, out, StreamFault::Bad { kind, at }),
    }
}

/// Appends the text of an end.
pub(crate) fn put_end(rt: &impl Abort, alloc: Global, out: &mut ByteList, end: &ClientEnd) {
    match end {
        ClientEnd::Nack => put(rt, out, b"nack"),
        ClientEnd::BadReply { kind, at } => put_kind(rt, alloc, out, *kind, *at),
        ClientEnd::TooLarge { what, at } => {
            put_fault(
                rt,
                alloc,
                out,
                StreamFault::TooLarge {
                    what: *what,
                    at: *at,
                },
            );
        }
        ClientEnd::Truncated { at } => put_at(rt, alloc, out, "truncated at", *at),
        ClientEnd::RemoteFault(text) => {
            put(rt, out, b"remote fault ");
            put_units(rt, out, text);
        }
        ClientEnd::ReadFault => put(rt, out, b"read fault"),
        ClientEnd::WriteFault { sent } => put_at(rt, alloc, out, "write fault after", *sent),
        ClientEnd::Over => put(rt, out, b"over"),
        ClientEnd::OutOfMemory => put(rt, out, b"out of memory"),
    }
}

/// Appends the text of an identifier.
fn put_uid(rt: &impl Abort, alloc: Global, out: &mut ByteList, uid: Uid) {
    let text = format!(in alloc; "{}/{}/{}", uid.unique, uid.time, uid.count).expect(rt, "memory");
    put(rt, out, text.as_bytes());
}

/// Appends the text of an answer: its identifier.
pub(crate) fn put_answer(rt: &impl Abort, alloc: Global, out: &mut ByteList, answer: &Answer) {
    put(rt, out, b"answer ");
    put_uid(rt, alloc, out, answer.uid);
}

/// Appends the text of a reference: its host, its port, its object, and whether it is to be acknowledged.
pub(crate) fn put_reference(rt: &impl Abort, alloc: Global, out: &mut ByteList, found: &LiveRef) {
    put_units(rt, out, &found.host);
    let text = format!(in alloc; " {} {}:", found.port, found.id.number).expect(rt, "memory");
    put(rt, out, text.as_bytes());
    put_uid(rt, alloc, out, found.id.space);
    if found.result {
        put(rt, out, b" flagged");
    }
}

/// Appends the text of a value.
fn put_value(rt: &impl Abort, alloc: Global, out: &mut ByteList, value: Value) {
    match value {
        Value::Long(number) => {
            let text = format!(in alloc; "number {number}").expect(rt, "memory");
            put(rt, out, text.as_bytes());
        }
        _ => put(rt, out, b"another value"),
    }
}

/// Appends the text of what a call answers: its result.
pub(crate) fn put_returned(rt: &impl Abort, alloc: Global, out: &mut ByteList, answer: &Answer) {
    match &answer.body {
        Body::Void => put(rt, out, b"void"),
        Body::Prim(value) => put_value(rt, alloc, out, *value),
        Body::Tree(_) => put(rt, out, b"tree"),
    }
}
