//! Outcomes that are remote objects: what is written and asked.
use crate::served_tests::{book, check_line};

/// As in `served_tests`: a new object, and one that is exported, of the kind 0; of a kind that is no place in the book; and of methods that
/// answer a number or nothing.
const LINES: &str =
    "call echo 70 | new | return 0F 01 uid 8000 proxy 0003 612E42 handler 0000000000000011 of_space | begin made1 | 0 | Ended
call echo 70 | old | return 0F 01 uid 8000 proxy 0003 612E42 handler 0000000000000010 of_space | begin listed16 | 0 | Ended
call echo 70 | new7 | return 0F 02 uid 8000 exception wrong 78 70 | begin abandon | 0 | Ended
call echo 70 | old7 | return 0F 02 uid 8000 exception wrong 78 70 | begin abandon | 0 | Ended
call add 77 08 0000000000000005 | new | return 0F 02 uid 8000 exception wrong 78 70 | begin abandon | 1 | Ended
call done | old | return 0F 02 uid 8000 exception wrong 78 70 | begin abandon | 2 | Ended
call echo 70 call echo 70 | new old | return 0F 01 uid 8000 proxy 0003 612E42 handler 0000000000000011 of_space return 0F 01 uid 8001 proxy 0003 612E42 handler 0000000000000010 of_space | begin made1 begin listed16 | 0 0 | Ended";

#[test]
fn remote_outcomes_are_returned(rt: HostRuntime) {
    let book = book(&rt, rt.alloc());
    for line in LINES.split('\n') {
        check_line(&rt, rt.alloc(), &book, line);
    }
}
