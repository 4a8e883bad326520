//! The output of `answer`, and the way in which it ends.
use crate::hosts::{
    MemHost, Runs, check_fronts, check_table, cut_by, host_of, is_line, must, run_line, sink_of,
};
use crate::texts::bytes_of;
use std::alloc::Global;
use std::process::Abort;

/// An input, what is written, how many bytes are left, and the status and the line.
const ENDS: &str = "opening ping | ack pong | 0 | 0 ended
opening 3*ping | ack 3*pong | 0 | 0 ended
opening | ack | 0 | 0 ended
4A524D4900 01 4B | | 1 | 2 bad header at 5
504F5354 | | 3 | 2 bad header at 0
4A524D 69 | | 0 | 2 bad header at 3
opening 50 | ack | 0 | 2 truncated at 14
opening ping 54 00 | ack pong | 0 | 2 truncated at 16
opening 54 00000005 0000000000000006 8000 ping | ack pong | 0 | 0 ended
opening 2*ping FF ping | ack 2*pong | 1 | 2 bad message ff at 15
opening 00 | ack | 0 | 2 bad message 00 at 13
header 4C 2*ping | pong | 1 | 0 ended
header 4C ping | pong | 0 | 0 ended
header 4C | | 0 | 0 ended
header 4C 54 00 | | 0 | 2 truncated at 9
header 4C 54 00000005 0000000000000006 8000 ping | | 1 | 0 ended
header 4C 50 | | 0 | 2 truncated at 8
header 4C 01 ping | | 1 | 2 bad message 01 at 7
header 4D | 4F | 0 | 2 unknown protocol 4d
header 4D ping | 4F | 1 | 2 unknown protocol 4d
header 00 | 4F | 0 | 2 unknown protocol 00";

#[test]
fn each_input_has_its_end(rt: HostRuntime) {
    check_table(&rt, rt.alloc(), "answer", "- 0 1 3", ENDS);
}

#[test]
fn each_prefix_of_the_opening_is_truncated(rt: HostRuntime) {
    for cut in "- 1".split(' ') {
        check_fronts(&rt, rt.alloc(), "header", 0, cut, "");
        check_fronts(&rt, rt.alloc(), "header 4B", 6, cut, "");
        check_fronts(&rt, rt.alloc(), "opening", 7, cut, "ack");
    }
}

/// Hosts of several lengths.
const HOSTS: &str = "header 4B 0000 00000000 ping | ack pong | 0 | 0 ended
header 4B 0001 FF 00000000 ping | ack pong | 0 | 0 ended
header 4B 00FF 255*FF 00000000 ping | ack pong | 0 | 0 ended
header 4B 0100 256*FF 00000000 ping | ack pong | 0 | 0 ended
header 4B FFFF 65535*FF 00000000 ping | ack pong | 0 | 0 ended";

#[test]
fn a_host_has_any_length(rt: HostRuntime) {
    check_table(&rt, rt.alloc(), "answer", "-", HOSTS);
}

/// Each read of single bytes that fails, by its index, which is that of its byte; one more finds the end.
const FAILING_READS: &str = "opening 2*ping | | | 3 read fault | 0 |
opening 2*ping | | | 3 read fault | 1 |
opening 2*ping | | | 3 read fault | 2 |
opening 2*ping | | | 3 read fault | 3 |
opening 2*ping | | | 3 read fault | 4 |
opening 2*ping | | | 3 read fault | 5 |
opening 2*ping | | | 3 read fault | 6 |
opening 2*ping | ack | | 3 read fault | 7 |
opening 2*ping | ack | | 3 read fault | 8 |
opening 2*ping | ack | | 3 read fault | 9 |
opening 2*ping | ack | | 3 read fault | 10 |
opening 2*ping | ack | | 3 read fault | 11 |
opening 2*ping | ack | | 3 read fault | 12 |
opening 2*ping | ack | | 3 read fault | 13 |
opening 2*ping | ack pong | | 3 read fault | 14 |
opening 2*ping | ack 2*pong | | 3 read fault | 15 |
opening 2*ping | ack 2*pong | | 0 ended | 16 |";

/// Each write that fails, by its index.
const FAILING_WRITES: &str = "opening 2*ping | | | 4 write fault | | 0
opening 2*ping | ack | | 4 write fault | | 1
opening 2*ping | ack pong | | 4 write fault | | 2";

#[test]
fn each_failing_read_and_write_ends_the_connection(rt: HostRuntime) {
    check_table(&rt, rt.alloc(), "answer", "1", FAILING_READS);
    check_table(&rt, rt.alloc(), "answer", "-", FAILING_WRITES);
}

/// A host of an opening.
fn opening_host<H>(rt: &impl Abort, alloc: Global) -> MemHost<H> {
    let input = bytes_of(rt, alloc, "opening");
    host_of(rt, alloc, input.as_slice(), cut_by("-"))
}

/// Runs words that are no command line.
fn check_usage(rt: &impl Runs, alloc: Global, line: &str) {
    let mut host = opening_host(rt, alloc);
    let status = run_line(rt, alloc, line, &mut host);
    must(rt, status == 1, line);
    must(rt, is_line(host.errors.bytes(), "usage"), line);
    must(rt, host.input.reads() == 0, line);
    must(rt, host.output.writes() == 0, line);
}

/// Words that ask for no drill.
const NO_DRILLS: &str = "drill
drill 1
drill 1 1 1
drill 01 5
drill 1 05
drill +1 5
drill 1 -5
drill 1 0
drill 1 1000001
drill 9223372036854775808 1
drill 18446744073709551617 1
drill  1
journal 1
journal 1 1000001
Drill 1 1";

#[test]
fn other_words_are_no_command_line(rt: HostRuntime) {
    for line in "|frob|Answer|answer |answer answer|list 127.0.0.1".split('|') {
        check_usage(&rt, rt.alloc(), line);
    }
    for line in NO_DRILLS.split('\n') {
        check_usage(&rt, rt.alloc(), line);
    }
}

/// Runs a word where the line on errors can't be written.
fn check_untold(rt: &impl Runs, alloc: Global, word: &str, wanted: u8) {
    let mut host = opening_host(rt, alloc);
    host.errors = sink_of(rt, alloc, "0");
    let status = run_line(rt, alloc, word, &mut host);
    must(rt, status == wanted, word);
    must(rt, host.errors.faults() == 1, word);
}

#[test]
fn a_line_that_cannot_be_written_changes_no_status(rt: HostRuntime) {
    check_untold(&rt, rt.alloc(), "answer", 0);
    check_untold(&rt, rt.alloc(), "frob", 1);
}
