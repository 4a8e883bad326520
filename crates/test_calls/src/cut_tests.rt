//! Calls that are cut short, and calls that are too large.
use crate::served_tests::{book, bytes_of, check_line, end_of, is_told};
use crate::texts::{bytes_from, cut, must, number_of};
use call_dispatch::{Book, ConnEnd};
use sequence::ByteList;
use std::alloc::Global;
use std::process::Abort;

/// A dirty, as a client in Java writes it, and a call of `add(J)J` whose argument stands in three blocks; and how many bytes there are before
/// the call is begun, where it is.
const CUT: &str =
    "collector dirty ids 00000001 id 0000000000000011 in_space number 8000000000000000 lease client_after | 1000
call add 77 03 000000 77 00 77 05 0000000005 | 54";

/// The number of bytes before the acknowledgement is written.
const ACKNOWLEDGED: usize = 7;

/// The number of bytes of an opening. A connection may end behind it.
const OPENING: usize = 13;

/// Looks whether a connection that sends so many bytes, and no more, ended so.
fn check_end(rt: &impl Abort, alloc: Global, len: usize, end: ConnEnd) {
    if len == OPENING {
        return must(rt, is_told(rt, alloc, end, "Ended"), "ended");
    }
    match format!(in alloc; "Truncated {{ at: {len} }}") {
        Ok(told) => must(rt, is_told(rt, alloc, end, told.as_str()), told.as_str()),
        Err(_) => must(rt, false, "memory"),
    }
}

/// Serves each front of these bytes, where a call is begun, and then given up, from this length on.
fn check_fronts(rt: &impl Abort, alloc: Global, whole: &[u8], ack: &[u8], begun: usize) {
    let book = book(rt, alloc);
    for len in 0..whole.len() {
        let front = whole.get(..len).unwrap_or(&[]);
        let output = if len < ACKNOWLEDGED { &[] } else { ack };
        let entries = if len < begun { "" } else { "begin abandon" };
        let end = end_of(rt, alloc, &book, front, output, entries);
        check_end(rt, alloc, len, end);
    }
}

#[test]
fn each_front_of_a_call_is_truncated(rt: HostRuntime) {
    for line in CUT.split('\n') {
        let (words, begun) = cut(line, '|');
        let whole = bytes_of(&rt, rt.alloc(), "opening", words);
        let ack = bytes_of(&rt, rt.alloc(), "ack", "");
        let begun = number_of(&rt, begun) as usize;
        check_fronts(&rt, rt.alloc(), whole.as_slice(), ack.as_slice(), begun);
    }
}

/// As in `served_tests`: a text of more bytes than a message has, an array of too many texts, and arrays that stand in one another too deep.
const TOO_LARGE: &str =
    "call echo 7C 0000000001000054 167773*=aaaaaaaaaaaaaaaaaaaaaaaaaaaaaaaaaaaaaaaaaaaaaaaaaaaaaaaaaaaaaaaaaaaaaaaaaaaaaaaaaaaaaaaaaaaaaaaaaaaa | null | | begin abandon | | TooLarge { what: Bytes, at: 16777229 }
call echo array 00010000 65536*740000 | null | | begin abandon | | TooLarge { what: Nodes, at: 196696 }
call echo array 00000001 200*7571007E000000000001 70 | null | | begin abandon | | TooLarge { what: Depth, at: 2084 }";

#[test]
fn a_call_that_is_too_large_is_given_up(rt: HostRuntime) {
    let book = book(&rt, rt.alloc());
    for line in TOO_LARGE.split('\n') {
        check_line(&rt, rt.alloc(), &book, line);
    }
}
