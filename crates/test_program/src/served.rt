//! Calls of the sample's objects, from their bytes to those that answer them.
use crate::hosts::{Runs, check, check_fronts, check_table, cut_by, put};
use crate::texts::{bytes_of, cut, number_of, push};
use sequence::ByteList;
use std::alloc::Global;
use std::process::Abort;

/// Calls of the sample with their answers: of `echo` on object 16, and of `add(J)J` and `get()J` on object 17. The last rows call no
/// method: `get()J` with another operation, and on the object of `echo`; a hash that no method has; an object of another space.
const CALLS: &str = "opening echo texts | ack reference first texts | 0 | 0 ended
opening echo itself | ack reference first itself | 0 | 0 ended
opening echo listed | ack reference first listed | 0 | 0 ended
opening echo 70 ping | ack reference first 70 pong | 0 | 0 ended
opening echo 71 007E0000 | ack | 0 | 2 bad stream bad handle at 54
opening add 77 03 000000 77 00 77 05 0000000005 | ack number first 0000000000000005 | 0 | 0 ended
opening add 77 03 000000 77 00 77 06 000000000500 | ack | 1 | 2 bad stream block left at 68
opening add 77 08 0000000000000005 add 77 08 FFFFFFFFFFFFFFF9 get | ack number first 0000000000000005 number second FFFFFFFFFFFFFFFE number third FFFFFFFFFFFFFFFE | 0 | 0 ended
opening add 77 08 7FFFFFFFFFFFFFFF add 77 08 0000000000000001 get | ack number first 7FFFFFFFFFFFFFFF exception second fault overflow number third 7FFFFFFFFFFFFFFF | 0 | 0 ended
opening get ping | ack number first 0000000000000000 pong | 0 | 0 ended
opening other_operation ping | ack exception first fault no_method | 1 | 7 no such method
opening head E2CA1A08EBC02A8D | ack exception first fault no_method | 0 | 7 no such method
opening counter 0000000000000000 ping | ack exception first fault no_method | 1 | 7 no such method
opening other_space | ack exception first fault no_object | 0 | 7 no such object";

#[test]
fn each_call_of_the_sample_is_answered(rt: HostRuntime) {
    check_table(&rt, rt.alloc(), "answer", "- 1 7", CALLS);
}

/// The opening and a call of `add(J)J`.
const ADDING: &str = "opening add 77 08 0000000000000005";

/// A call of `add(J)J` whose argument stands in three blocks.
const IN_BLOCKS: &str = "opening add 77 03 000000 77 00 77 05 0000000005";

#[test]
fn each_front_of_a_served_call_is_truncated(rt: HostRuntime) {
    for cut in "- 1".split(' ') {
        check_fronts(&rt, rt.alloc(), ADDING, 14, cut, "ack");
        check_fronts(&rt, rt.alloc(), IN_BLOCKS, 14, cut, "ack");
    }
}

/// The ends of connections in which the byte at one of these places is another, from a place to a last one. Each row has the output, but
/// for a number, and the status and the line.
const CHANGED: &str = "13 13 | ack | 2 bad message af at 13
14 14 | ack | 2 bad stream bad magic at 14
15 15 | ack | 2 bad stream bad magic at 15
16 16 | ack | 2 bad stream bad magic at 16
17 17 | ack | 2 bad stream bad magic at 17
18 18 | ack | 2 bad stream bad code at 18
19 19 | ack | 2 bad stream block left at 62
20 41 | ack exception first fault no_object | 7 no such object
42 53 | ack exception first fault no_method | 7 no such method
54 54 | ack | 2 bad stream bad code at 54
55 55 | ack | 2 bad stream block left at 64
56 63 | ack number first | 0 ended";

/// The opening and the call, where every bit of the byte at this place is turned.
fn changed(rt: &impl Abort, alloc: Global, at: usize) -> ByteList {
    let whole = bytes_of(rt, alloc, ADDING);
    let mut input = ByteList::new(alloc);
    for (place, byte) in whole.as_slice().iter().enumerate() {
        push(rt, &mut input, if place == at { !*byte } else { *byte });
    }
    input
}

/// Serves a changed call byte by byte. A changed number comes back.
fn check_changed(rt: &impl Runs, alloc: Global, input: &[u8], written: &str, told: &str) {
    let mut output = bytes_of(rt, alloc, written);
    if told == "0 ended" {
        put(rt, &mut output, input.get(56..).unwrap_or(&[]));
    }
    let outside = cut_by("1");
    let _left = check(rt, alloc, "answer", input, outside, output.as_slice(), told);
}

/// Serves the calls of a line, and answers the place after them, where they begin at this one.
fn check_places(rt: &impl Runs, alloc: Global, line: &str, from: u32) -> u32 {
    let (places, rest) = cut(line, '|');
    let (written, told) = cut(rest, '|');
    let (first, last) = cut(places, ' ');
    let end = number_of(rt, last).saturating_add(1);
    if number_of(rt, first) != from {
        return 0;
    }
    for at in from..end {
        let input = changed(rt, alloc, at as usize);
        check_changed(rt, alloc, input.as_slice(), written, told);
    }
    end
}

#[test]
fn each_changed_byte_has_its_end(rt: HostRuntime) {
    let mut at = 13;
    for line in CHANGED.split('\n') {
        at = check_places(&rt, rt.alloc(), line, at);
    }
    let whole = bytes_of(&rt, rt.alloc(), ADDING);
    crate::hosts::must(&rt, at as usize == whole.len(), "all places");
}
