//! The ends of `show` and `replay` where something is too large, or the outside fails.
use crate::hosts::check_table;

/// A stream of too many nodes, and one of arrays, each in the one before it.
const STREAMS: &str = "magic 65537*740000 | | | 6 too large nodes at 196612
magic objects 200*7571007E000000000001 70 | | | 6 too large depth at 2034";

/// A Finish of more new objects than an export table takes.
const JOURNALS: &str =
    "=space_600000_300000_7_9~0_0_open_1_pinned~1_0_begin_16~1_0_finish_16_1 65535*=,1 =_-_1/0/0~ | | | 6 refused";

#[test]
fn what_is_too_large_is_told(rt: HostRuntime) {
    check_table(&rt, rt.alloc(), "show", "-", STREAMS);
    check_table(&rt, rt.alloc(), "replay", "-", JOURNALS);
}

/// A read and a write that fail, by their indices.
const SHOWN: &str = "magic 74 0001 =a | | | 3 read fault | 2 |
magic 74 0001 =a | | | 4 write fault | | 0";

const REPLAYED: &str = "=space_1_1_0_0~0_0_tick~ | | | 3 read fault | 0 |
=space_1_1_0_0~0_0_tick~ | | | 4 write fault | | 0";

#[test]
fn failures_of_the_outside_are_told(rt: HostRuntime) {
    check_table(&rt, rt.alloc(), "show", "-", SHOWN);
    check_table(&rt, rt.alloc(), "replay", "-", REPLAYED);
}
