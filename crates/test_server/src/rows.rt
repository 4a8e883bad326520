//! Links that are served at once, and a listener that has too few.
use crate::histories::begins_so;
use crate::replies::check_replies;
use crate::servers::{ReportOf, served};
use crate::texts::{cut, must};
use conn_server::Stop;
use std::alloc::Global;
use std::process::Abort;
use std::sync::Wait;
use std::thread::Threads;

// A line is a link: for how many others it waits to be served before it sends anything; the peer's port; the moments of its clock; which of its reads
// or writes fails; what the client sends; what it gets; and the connection's end.

/// Two clients that add 1 to the same counter. Which is first is left open.
const ADDING: &str =
    "0 | 1234 | 500 | | opening add_one FF | ack number +5 first 00000000000000 ? | BadMessage { byte: 255, at: 62 }
0 | 1234 | 400 | | opening add_one | ack number +5 first 00000000000000 ? | Ended";

/// The last bytes that the two first links got.
fn last_bytes<'t, R: Wait + Sync>(report: &ReportOf<'t, R>) -> (u8, u8) {
    match report.links.as_slice() {
        [one, two] => (
            one.sink.bytes().last().copied().unwrap_or(0),
            two.sink.bytes().last().copied().unwrap_or(0),
        ),
        _ => (0, 0),
    }
}

#[test]
fn two_links_add_to_one_counter(rt: HostRuntime) {
    match served(&rt, rt.alloc(), 2, 1099, Stop::All, ADDING) {
        Some(report) => {
            let told = last_bytes(&report);
            must(&rt, told == (1, 2) || told == (2, 1), "one after the other");
            let first = "events 12 units 12 now 500\n";
            must(&rt, begins_so(rt.alloc(), &report.space, first), first);
        }
        None => must(&rt, false, "memory"),
    }
}

/// A client that sends nothing before the one that comes after it was served.
const AT_ONCE: &str =
    "1 | 1234 | 0 | | opening add_one ping | ack number +5 first 0000000000000002 pong | Ended
0 | 1234 | 0 | | opening add_one | ack number +5 first 0000000000000001 | Ended";

#[test]
fn a_silent_link_holds_up_no_other(rt: HostRuntime) {
    let told = served(&rt, rt.alloc(), 2, 1099, Stop::All, AT_ONCE);
    must(&rt, told.is_some(), "memory");
}

/// The links are those that there are, and end as ever.
const TOO_FEW: &str = "0 | 1234 | 0 | | opening ping ping | ack pong pong | Ended
1 | 1234 | 0 | | opening add_one 82 | ack number +5 first 0000000000000001 | BadMessage { byte: 130, at: 62 }";

#[test]
fn fewer_links_than_were_to_be(rt: HostRuntime) {
    match served(&rt, rt.alloc(), 3, 1099, Stop::AcceptFault, TOO_FEW) {
        Some(report) => {
            let first = "events 10 units 10 now 0\n";
            must(&rt, begins_so(rt.alloc(), &report.space, first), first);
        }
        None => must(&rt, false, "memory"),
    }
}

/// A link whose source fails inside its call, one whose sink fails when its call was done, and one that goes on.
const FAULTS: &str = "0 | 1234 | 0 | read 15 | opening add_one | ack | ReadFault
1 | 1234 | 0 | write 1 | opening add_one | ack | WriteFault { sent: 16 }
2 | 1234 | 0 | | opening add_one ping | ack number +5 first 0000000000000002 pong | Ended";

#[test]
fn a_link_that_fails_ends_alone(rt: HostRuntime) {
    let told = served(&rt, rt.alloc(), 3, 1099, Stop::All, FAULTS);
    must(&rt, told.is_some(), "memory");
}

/// A link whose sink fails at its first write, between two that are well; and these two without it.
const FIRST_WRITE: &str =
    "0 | 1234 | 0 | | opening add_one ping | ack number +5 first 0000000000000001 pong | Ended
1 | 1234 | 0 | write 0 | opening add_one | | WriteFault { sent: 0 }
2 | 1234 | 0 | | opening add_one ping | ack number +5 first 0000000000000002 pong | Ended";

const WELL: &str =
    "0 | 1234 | 0 | | opening add_one ping | ack number +5 first 0000000000000001 pong | Ended
1 | 1234 | 0 | | opening add_one ping | ack number +5 first 0000000000000002 pong | Ended";

#[test]
fn a_link_whose_first_write_fails_changes_no_other(rt: HostRuntime) {
    let told = served(&rt, rt.alloc(), 3, 1099, Stop::All, FIRST_WRITE);
    must(&rt, told.is_some(), "memory");
    let told = served(&rt, rt.alloc(), 2, 1099, Stop::All, WELL);
    must(&rt, told.is_some(), "memory");
}

/// A listener that fails once, and is asked again.
const FAILS_ONCE: &str = "0 | 1234 | 0 | | opening ping | ack pong | Ended
-
0 | 1234 | 0 | | opening ping | ack pong | Ended";

#[test]
fn a_link_is_served_after_a_failed_call_for_one(rt: HostRuntime) {
    let told = served(&rt, rt.alloc(), 2, 1099, Stop::All, FAILS_ONCE);
    must(&rt, told.is_some(), "memory");
}

/// A listener that fails often while its first link is served, which waits for the second one.
const FAILS_OFTEN: &str =
    "1 | 1234 | 0 | | opening add_one | ack number +5 first 0000000000000002 | Ended
-
-
-
-
-
-
-
-
-
-
0 | 1234 | 0 | | opening add_one | ack number +5 first 0000000000000001 | Ended";

#[test]
fn a_listener_is_asked_again_while_a_link_is_served(rt: HostRuntime) {
    let told = served(&rt, rt.alloc(), 2, 1099, Stop::All, FAILS_OFTEN);
    must(&rt, told.is_some(), "memory");
}

/// A listener that goes on failing when its first links have ended: the link that it would give at last is not served.
const GOES_ON: &str = "0 | 1234 | 0 | | opening ping | ack pong | Ended
-
-
0 | 1234 | 0 | | opening ping | ack pong | Ended
- 400
0 | 1234 | 0 | | opening ping | ack pong | Ended";

#[test]
fn no_link_is_served_after_lasting_failures(rt: HostRuntime) {
    let told = served(&rt, rt.alloc(), 3, 1099, Stop::AcceptFault, GOES_ON);
    must(&rt, told.is_some(), "memory");
}

/// A client that acknowledges what another one was returned, whereupon it is gone.
const FOR_ANOTHER: &str =
    "0 | 1234 | 0 | | opening make | ack return +5 first counter 0000000000000013 of_space | Ended
1 | 1234 | 0 | | opening acknowledge 00000006 first get_made | ack refused +5 first no_object | NoSuchObject { id: ObjId { number: 19, space: Uid { time: 9, unique: 7, count: 0 } } }";

#[test]
fn an_acknowledgement_counts_from_any_link(rt: HostRuntime) {
    let told = served(&rt, rt.alloc(), 2, 1099, Stop::All, FOR_ANOTHER);
    must(&rt, told.is_some(), "memory");
}

/// A client that holds the counter, and one that has a counter made.
const HOLDING: &str =
    "0 | 1234 | 0 | | opening dirty objects 0000000000000011 in_space 77 08 8000000000000000 lease client 00000008 0102030405060708 of_client | ack return +5 first lease holder 00000008 0102030405060708 of_holder | Ended
1 | 1234 | 0 | | opening make | ack return +5 first counter 0000000000000013 of_space | Ended";

/// Their turns, and what these are answered.
const HOLDING_TURNS: &str =
    "1 0 dirty 0102030405060708@3/4/5 -9223372036854775808 600000 17 > granted 600000
2 0 begin 18 > started 2
2 0 finish 18 1 - 7/6/-32768 > finished 19";

#[test]
fn a_dirty_is_granted_and_a_counter_is_made(rt: HostRuntime) {
    match served(&rt, rt.alloc(), 2, 1099, Stop::All, HOLDING) {
        Some(report) => {
            let links = report.links.as_slice();
            check_replies(&rt, rt.alloc(), links, &report.space, HOLDING_TURNS);
        }
        None => must(&rt, false, "memory"),
    }
}

/// Links, each with its turns and what these are answered: a lookup, by the hash of the registry's stub and by none, with the acknowledgement of
/// its Return; a dirty; and a call of `add(J)J` whose argument stands in three blocks, which is then one byte too long.
const TURNED: &str =
    "0 | 1234 | 0 | | opening registry 00000002 44154DC9D4E63BDF 74 0004 6563686F acknowledge 00000006 first | ack return 00000006 first echo 0000000000000010 of_space | Ended
1 0 lookup \"echo\" 6/6/-32768 > found 16 kind 0
1 0 ack 6/6/-32768 > done

0 | 1234 | 0 | | opening registry 00000002 0000000000000000 74 0004 6563686F acknowledge 00000006 first | ack return 00000006 first echo 0000000000000010 of_space | Ended
1 0 lookup \"echo\" 6/6/-32768 > found 16 kind 0
1 0 ack 6/6/-32768 > done

0 | 1234 | 0 | | opening dirty objects 0000000000000011 in_space 77 08 8000000000000000 lease client 00000008 0102030405060708 of_client | ack return 00000006 first lease holder 00000008 0102030405060708 of_holder | Ended
1 0 dirty 0102030405060708@3/4/5 -9223372036854775808 600000 17 > granted 600000

0 | 1234 | 0 | | opening add 77 03 000000 77 00 77 05 0000000005 | ack number 00000006 first 0000000000000005 | Ended
1 0 begin 17 > started 1
1 0 finish 17 - - 6/6/-32768 > finished

0 | 1234 | 0 | | opening add 77 03 000000 77 00 77 06 000000000500 | ack | BadStream { kind: BlockLeft, at: 68 }
1 0 begin 17 > started 1
1 0 abandon 17 > done";

/// Serves the link of a case, and looks at its turns, which stand in the lines after it.
fn check_turned<R: Threads + Wait + Abort + Sync>(rt: &R, alloc: Global, case: &str) {
    let (link, turns) = cut(case, '\n');
    match served(rt, alloc, 1, 1099, Stop::All, link) {
        Some(report) => check_replies(rt, alloc, report.links.as_slice(), &report.space, turns),
        None => must(rt, false, "memory"),
    }
}

#[test]
fn each_link_makes_its_turns(rt: HostRuntime) {
    for case in TURNED.split("\n\n") {
        check_turned(&rt, rt.alloc(), case);
    }
}
