//! Calls of objects that are not exported, from their bytes to those that answer them.
use crate::hosts::{check_fronts, check_table};

/// Rows of a connection's input, its answer, the number of bytes that are left, and the status and the line. The second call's head stands
/// in blocks of several sizes, an empty one among them.
const CALLS: &str =
    "opening absent 77 08 | ack exception first fault no_object | 2 | 7 no such object
opening ping split ping | ack pong exception first fault no_object | 1 | 7 no such object
opening 50 ACED0006 | ack | 0 | 2 bad stream bad magic at 17
opening 50 ACED0005 70 | ack | 0 | 2 bad stream missing block at 18
opening 50 ACED0005 79 | ack | 0 | 2 bad stream reset at 18
opening 50 ACED0005 80 00 | ack | 1 | 2 bad stream bad code at 18
opening 50 ACED0005 7A FFFFFFFF | ack | 0 | 2 bad stream negative length at 19
opening 50 ACED0005 77 04 00000000 | ack | 0 | 2 truncated at 24";

#[test]
fn each_call_is_answered(rt: HostRuntime) {
    check_table(&rt, rt.alloc(), "answer", "- 0 7", CALLS);
}

#[test]
fn each_front_of_a_call_is_truncated(rt: HostRuntime) {
    for cut in "- 1".split(' ') {
        check_fronts(&rt, rt.alloc(), "opening absent", 14, cut, "ack");
    }
}
