//! Messages that are read and written.
use crate::hosts::{cut_by, must, source_of};
use crate::texts::{bytes_of, cut, number_of};
use jrmp_frames::code::{Code, read_code};
use jrmp_frames::endpoint::{ack_bytes, skip_endpoint};
use jrmp_frames::fault::FrameFault;
use jrmp_frames::header::{Protocol, read_header};
use mod_utf::utf::encoded_len;
use sequence::Units;
use std::alloc::Global;
use std::process::Abort;
use wire_io::mem::MemSource;
use wire_io::pull::Pull;

/// Looks whether these words are the acknowledgement to a host of these units and a port.
fn check_ack(rt: &impl Abort, alloc: Global, units: &[u16], port: i32, words: &str) {
    let mut host = Units::new(alloc);
    must(rt, host.append(units).is_ok(), "memory");
    must(rt, is_ack(rt, alloc, &host, port, words), words);
}

/// Returns whether these words are the acknowledgement to a host and a port.
fn is_ack(rt: &impl Abort, alloc: Global, host: &Units, port: i32, words: &str) -> bool {
    assert!(rt; encoded_len(host) <= 255, "a short host");
    let found = ack_bytes(alloc, host, port).expect(rt, "memory");
    let wanted = bytes_of(rt, alloc, words);
    found.as_slice() == wanted.as_slice()
}

#[test]
fn acknowledgement_tells_host_and_port(rt: HostRuntime) {
    let named = "4E 0005 61 C3A9 C080 000004D2";
    check_ack(&rt, rt.alloc(), &[0x61, 0xE9, 0], 1234, named);
    check_ack(&rt, rt.alloc(), &[], -2, "4E 0000 FFFFFFFE");
}

/// Returns the result of reading a code: the code, or 0 at the end of input; and the position of a byte that is none.
fn told(code: Result<Option<Code>, FrameFault>) -> (u8, u64) {
    match code {
        Ok(Some(Code::Ping)) => (0x52, 0),
        Ok(Some(Code::DgcAck)) => (0x54, 0),
        Ok(Some(Code::Call)) => (0x50, 0),
        Ok(None) => (0, 0),
        Err(FrameFault::BadMessage { byte, at }) => (byte, at),
        Err(_) => (0xFF, 0),
    }
}

/// The codes that are read one after the other, where the first stands at 271.
const CODES: &str = "82 0|84 0|80 0|81 274|0 0";

/// Reads codes, one after the other.
fn check_codes(rt: &impl Abort, pull: &mut Pull<'_, MemSource>) {
    for row in CODES.split('|') {
        let (code, at) = cut(row, ' ');
        let found = told(read_code(pull));
        must(rt, u32::from(found.0) == number_of(rt, code), row);
        must(rt, found.1 == u64::from(number_of(rt, at)), row);
    }
}

/// A source of a header, an endpoint and codes.
fn parts(rt: &impl Abort, alloc: Global) -> MemSource {
    let bytes = bytes_of(rt, alloc, "header 4B 0102 258*FF 4*FF 52 54 50 51");
    source_of(rt, alloc, bytes.as_slice(), cut_by("-"))
}

#[test]
fn parts_are_read_in_turn(rt: HostRuntime) {
    let mut source = parts(&rt, rt.alloc());
    let mut pull = Pull::new(&mut source);
    let header = read_header(&mut pull);
    must(&rt, header == Ok(Protocol::Stream), "header");
    must(&rt, skip_endpoint(&mut pull).is_ok(), "endpoint");
    check_codes(&rt, &mut pull);
}
