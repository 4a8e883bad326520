//! The output of `replay`, and the way in which it ends.
use crate::hosts::{Runs, check, check_table, copied, cut_by, must, put};
use std::alloc::Global;

/// Journals, each with its outline: the lines after `=`.
const JOURNALS: &str = "space 1 1 0 0
=
events 0 units 0 now 0

space 600000 300000 7 9
0 0 open 1 pinned
=
events 1 units 1 now 0
object 16 kind 1 pinned running 0 awaiting 0 held 0 names 0

space 600000 300000 7 9
0 0 open 1 pinned
1 1 clean aa@3/4/5 9 strong 16
1 2 dirty aa@3/4/5 8 600000 16
=
events 3 units 5 now 2
object 16 kind 1 pinned running 0 awaiting 0 held 0 names 0
lease aa@3/4/5 until 600002

space 600000 300000 7 9
0 0 open 1 pinned
1 1 clean aa@3/4/5 9 strong 16
1 2 dirty aa@3/4/5 8 600000 16
1 3 dirty aa@3/4/5 10 600000 16
=
events 4 units 7 now 3
object 16 kind 1 pinned running 0 awaiting 0 held 1 names 0
lease aa@3/4/5 until 600003

space 600000 300000 7 9
0 0 open 1 pinned
1 1 clean aa@3/4/5 9 strong 16
1 2 dirty aa@3/4/5 8 600000 16
1 3 dirty aa@3/4/5 10 600000 16
1 4 clean aa@3/4/5 10 weak 16
=
events 5 units 9 now 4
object 16 kind 1 pinned running 0 awaiting 0 held 0 names 0
lease aa@3/4/5 until 600003

space 600000 300000 7 9
0 0 open 1 pinned
1 1 clean aa@3/4/5 9 strong 16
1 2 dirty aa@3/4/5 8 600000 16
1 3 dirty aa@3/4/5 10 600000 16
1 4 clean aa@3/4/5 7 weak 16
=
events 5 units 9 now 4
object 16 kind 1 pinned running 0 awaiting 0 held 1 names 0
lease aa@3/4/5 until 600003

space 600000 300000 7 9
0 0 open 1 pinned
1 0 dirty aa@3/4/5 1 1000 16
1 500 dirty aa@3/4/5 2 100 -
=
events 3 units 4 now 500
object 16 kind 1 pinned running 0 awaiting 0 held 1 names 0
lease aa@3/4/5 until 1000

space 600000 300000 7 9
0 0 open 1 pinned
1 0 dirty aa@3/4/5 1 1000 16
1 500 dirty aa@3/4/5 2 100 -
1 1000 tick
=
events 4 units 5 now 1000
object 16 kind 1 pinned running 0 awaiting 0 held 0 names 0

space 600000 300000 7 9
0 0 open 1 pinned
1 0 dirty aa@3/4/5 1 600001 16
1 0 dirty bb@3/4/5 1 -1 16
1 0 dirty cc@3/4/5 1 0 16
1 0 dirty dd@3/4/5 1 1 16
=
events 5 units 9 now 0
object 16 kind 1 pinned running 0 awaiting 0 held 4 names 0
lease aa@3/4/5 until 600000
lease bb@3/4/5 until 600000
lease cc@3/4/5 until 600000
lease dd@3/4/5 until 1

space 600000 300000 7 9
0 0 open 1 pinned
1 0 dirty aa@3/4/5 5 1000 16
1 900 dirty aa@3/4/5 6 200 -
1 1099 clean aa@3/4/5 4 weak 16
1 1100 dirty aa@3/4/5 7 50 -
=
events 5 units 7 now 1100
object 16 kind 1 pinned running 0 awaiting 0 held 0 names 0
lease aa@3/4/5 until 1150

space 10 5 1 1
0 0 open 4294967295 pinned
0 5 dirty 00ff@1/2/3 1 10 16
4294967295 15 tick
=
events 3 units 4 now 15
object 16 kind 4294967295 pinned running 0 awaiting 0 held 0 names 0

space 1099511627776 1099511627776 2147483647 9223372036854775807
0 4611686018427387903 dirty -@-2147483648/-9223372036854775808/-32768 0 0 -
=
events 1 units 1 now 4611686018427387903
lease -@-2147483648/-9223372036854775808/-32768 until 4611687117939015679

space 5 100 -1 -5
0 0 open 1 pinned
2 0 begin 16
2 0 finish 16 1,1 - 1/0/0
2 105 begin 17
2 226 finish 17 - 17 1/0/1
=
events 5 units 8 now 226
object 16 kind 1 pinned running 0 awaiting 0 held 0 names 0
object 17 kind 1 free running 0 awaiting 1 held 0 names 0
withdrawn 18 place 3

space 50 5 7 9
0 0 open 2 pinned
3 54 begin 16:7/9/1
=
events 2 units 2 now 54
object 16 kind 2 pinned running 0 awaiting 0 held 0 names 0

space 10 1000 -1 -5
1 12 open 2 pinned
1 1019 dirty aa@2/4/5 9223372036854775807 9223372036854775807 16,17
1 1019 clean aa@2/4/5 9223372036854775806 strong 16
=
events 3 units 6 now 1019
object 16 kind 2 pinned running 0 awaiting 0 held 1 names 0
lease aa@2/4/5 until 1029

space 2 50 7 9
0 0 open 2 pinned
1 4 begin 16
1 4 finish 16 - 16 1/0/0
=
events 3 units 4 now 4
object 16 kind 2 pinned running 0 awaiting 1 held 0 names 0

space 10 2 7 9
0 0 open 2 pinned
2 52 begin 16
1 82 finish 16 2 - 1/0/0
=
events 3 units 4 now 82
object 16 kind 2 pinned running 1 awaiting 0 held 0 names 0

space 1 50 7 9
3 353 tick
0 303 dirty -@3/4/5 5 1 16
=
events 2 units 3 now 353
lease -@3/4/5 until 354

space 2 10 -2147483648 -9223372036854775808
0 0 open 2 pinned
1 1 begin 16
1 1 finish 16 1,1 - 1/0/0
1 13 begin 17
1 25 open 2 free
=
events 5 units 7 now 25
object 16 kind 2 pinned running 0 awaiting 0 held 0 names 0
object 17 kind 1 free running 1 awaiting 0 held 0 names 0
withdrawn 18 place 3
withdrawn 19 place 4

space 1 5 -1 -5
0 0 open 2 pinned
3 1 clean aa@3/4/5 -1 strong 16
0 9 dirty aa@3/4/5 6 1 16
3 18 dirty aa@3/4/5 -9223372036854775808 1 16,17,16
=
events 4 units 9 now 18
object 16 kind 2 pinned running 0 awaiting 0 held 0 names 0
lease aa@3/4/5 until 19

space 10 5 -1 -5
1 31 dirty -@0/0/0 1 10 16,16
=
events 1 units 3 now 31
lease -@0/0/0 until 41

space 600000 300000 7 9
0 0 open 2 pinned
1 10 begin 16
1 11 finish 16 1 - 1/0/0
1 12 dirty aa@3/4/5 5 600000 17
1 13 ack 1/0/0
1 14 clean aa@3/4/5 6 weak 17
=
events 6 units 9 now 14
object 16 kind 2 pinned running 0 awaiting 0 held 0 names 0
lease aa@3/4/5 until 600012
withdrawn 17 place 5

space 600000 300000 7 9
0 0 open 2 pinned
1 10 begin 16
1 11 finish 16 1 - 1/0/0
1 12 dirty aa@3/4/5 5 600000 17
1 13 ack 1/0/0
1 600011 tick
=
events 6 units 8 now 600011
object 16 kind 2 pinned running 0 awaiting 0 held 0 names 0
object 17 kind 1 free running 0 awaiting 0 held 1 names 0
lease aa@3/4/5 until 600012

space 600000 300000 7 9
0 0 open 2 pinned
1 10 begin 16
1 11 finish 16 1 - 1/0/0
1 12 dirty aa@3/4/5 5 600000 17
1 13 ack 1/0/0
1 600012 tick
=
events 6 units 8 now 600012
object 16 kind 2 pinned running 0 awaiting 0 held 0 names 0
withdrawn 17 place 5

space 600000 300000 7 9
0 0 open 2 pinned
1 10 begin 16
1 11 finish 16 1 - 1/0/0
1 12 dirty aa@3/4/5 5 600000 17
1 12 dirty aa@3/4/5 5 600000 17
1 13 ack 1/0/0
=
events 6 units 9 now 13
object 16 kind 2 pinned running 0 awaiting 0 held 0 names 0
object 17 kind 1 free running 0 awaiting 0 held 1 names 0
lease aa@3/4/5 until 600012

space 600000 300000 7 9
0 0 open 2 pinned
1 10 begin 16
1 11 finish 16 1 - 1/0/0
1 12 dirty aa@3/4/5 5 600000 17
1 12 dirty aa@3/4/5 5 600000 17
1 13 ack 1/0/0
1 14 clean aa@3/4/5 6 weak 17
=
events 7 units 11 now 14
object 16 kind 2 pinned running 0 awaiting 0 held 0 names 0
lease aa@3/4/5 until 600012
withdrawn 17 place 6

space 600000 300000 7 9
0 0 open 2 pinned
1 5 dirty aa@3/4/5 5 600000 17
1 10 begin 16
1 11 finish 16 1 - 1/0/0
1 12 ack 1/0/0
=
events 5 units 7 now 12
object 16 kind 2 pinned running 0 awaiting 0 held 0 names 0
lease aa@3/4/5 until 600005
withdrawn 17 place 4

space 600000 300000 7 9
0 0 open 2 pinned
1 10 begin 16
1 11 finish 16 1 - 1/0/0
1 12 begin 17
1 13 ack 1/0/0
2 14 abandon 17
1 15 abandon 17
=
events 7 units 8 now 15
object 16 kind 2 pinned running 0 awaiting 0 held 0 names 0
withdrawn 17 place 6

space 10 5 -1 -5
0 0 open 2 pinned
1 10 begin 16
1 10 finish 16 1 - 1/0/0
1 11 ack 1/0/0
=
events 4 units 5 now 11
object 16 kind 2 pinned running 0 awaiting 0 held 0 names 0
withdrawn 17 place 3

space 600000 300000 7 9
0 0 open 2 free
=
events 1 units 1 now 0
withdrawn 16 place 0

space 600000 300000 7 9
0 0 open 2 pinned
0 0 open 3 free
1 0 begin 16
2 5 abandon 16
=
events 4 units 4 now 5
object 16 kind 2 pinned running 1 awaiting 0 held 0 names 0
withdrawn 17 place 1

space 600000 300000 7 9
0 10 open 2 pinned
1 0 begin 16
1 12 begin 16
1 11 abandon 16
1 11 ack 1/0/0
=
events 5 units 5 now 12
object 16 kind 2 pinned running 1 awaiting 0 held 0 names 0

space 600000 300000 7 9
0 0 open 2 pinned
1 0 begin 17
1 0 begin 16:7/9/1
1 0 abandon 17
=
events 4 units 4 now 0
object 16 kind 2 pinned running 0 awaiting 0 held 0 names 0

space 600000 300000 7 9
0 0 open 2 pinned
1 10 begin 16
1 11 finish 16 1 - 1/0/0
1 12 dirty aa@3/4/5 5 600000 17
1 13 clean aa@3/4/5 7 weak 17
1 14 dirty aa@3/4/5 6 600000 17
1 15 ack 1/0/0
=
events 7 units 11 now 15
object 16 kind 2 pinned running 0 awaiting 0 held 0 names 0
lease aa@3/4/5 until 600014
withdrawn 17 place 6

space 600000 300000 7 9
0 0 open 2 pinned
1 0 begin 16
1 0 finish 16 1 - 1/0/0
1 0 dirty aa@3/4/5 1 600000 17
1 1 ack 1/0/0
1 600000 dirty aa@3/4/5 2 600000 17
=
events 6 units 9 now 600000
object 16 kind 2 pinned running 0 awaiting 0 held 0 names 0
object 17 kind 1 free running 0 awaiting 0 held 1 names 0
lease aa@3/4/5 until 1200000

space 600000 300000 7 9
0 0 open 2 pinned
1 0 begin 16
1 0 finish 16 1 - 1/0/0
1 0 dirty aa@3/4/5 1 600000 17
1 1 ack 1/0/0
1 599999 dirty aa@3/4/5 2 600000 17
=
events 6 units 9 now 599999
object 16 kind 2 pinned running 0 awaiting 0 held 0 names 0
object 17 kind 1 free running 0 awaiting 0 held 1 names 0
lease aa@3/4/5 until 1199999

space 600000 300000 7 9
0 0 open 2 pinned
1 0 begin 16
1 0 finish 16 1 - 1/0/0
1 0 dirty aa@3/4/5 1 600000 17
1 1 ack 1/0/0
1 600000 dirty aa@3/4/5 2 600000 -
=
events 6 units 8 now 600000
object 16 kind 2 pinned running 0 awaiting 0 held 0 names 0
lease aa@3/4/5 until 1200000
withdrawn 17 place 5

space 600000 300000 7 9
0 0 open 2 pinned
1 0 begin 16
1 0 finish 16 1 - 1/0/0
1 299999 tick
=
events 4 units 5 now 299999
object 16 kind 2 pinned running 0 awaiting 0 held 0 names 0
object 17 kind 1 free running 0 awaiting 1 held 0 names 0

space 600000 300000 7 9
0 0 open 2 pinned
1 0 begin 16
1 0 finish 16 1 - 1/0/0
1 299999 tick
1 300000 tick
=
events 5 units 6 now 300000
object 16 kind 2 pinned running 0 awaiting 0 held 0 names 0
withdrawn 17 place 4

space 600000 300000 7 9
0 0 open 2 pinned
1 0 begin 16
1 0 finish 16 1 - 1/0/0
2 5 abandon 16
=
events 4 units 5 now 5
object 16 kind 2 pinned running 0 awaiting 0 held 0 names 0
object 17 kind 1 free running 0 awaiting 1 held 0 names 0

space 600000 300000 7 9
0 0 open 1 pinned
0 0 open 2 pinned
0 1 bind \"a\" 16
0 2 bind \"b\" 17
0 3 rebind \"a\" 17
0 4 unbind \"b\"
=
events 6 units 6 now 4
object 16 kind 1 pinned running 0 awaiting 0 held 0 names 0
object 17 kind 2 pinned running 0 awaiting 0 held 0 names 1
name \"a\" 17

space 20 30 -1 -5
0 0 open 1 pinned
4294967295 110 bind \"\\ud800\" 16
4294967295 161 bind \"\" 16
3 370 rebind \"\\ud800\" 16
=
events 4 units 4 now 370
object 16 kind 1 pinned running 0 awaiting 0 held 0 names 2
name \"\\ud800\" 16
name \"\" 16

space 2 1 7 9
2 3 dirty aa@3/4/7 2 2 18
4294967295 5 lookup \"\\u0000\" 1/0/0
=
events 2 units 3 now 5

space 600000 300000 7 9
0 0 open 1 pinned
1 0 begin 16
1 0 finish 16 2 - 1/0/0
1 1 bind \"a\" 17
1 2 ack 1/0/0
2 3 lookup \"a\" 2/0/0
1 4 unbind \"a\"
1 4 list
=
events 8 units 9 now 4
object 16 kind 1 pinned running 0 awaiting 0 held 0 names 0
object 17 kind 2 free running 0 awaiting 1 held 0 names 0

space 600000 300000 7 9
0 0 open 1 pinned
1 0 begin 16
1 0 finish 16 2 - 1/0/0
1 1 bind \"a\" 17
1 2 ack 1/0/0
2 3 lookup \"a\" 2/0/0
1 4 unbind \"a\"
2 5 ack 2/0/0
=
events 8 units 9 now 5
object 16 kind 1 pinned running 0 awaiting 0 held 0 names 0
withdrawn 17 place 7";

/// Runs a command over an input, whole and in pieces of 7 bytes, of which it prints this text, whose last LF was left out.
fn check_outline(rt: &impl Runs, alloc: Global, command: &str, input: &str, outline: &str) {
    let mut output = copied(rt, alloc, outline.as_bytes());
    put(rt, &mut output, b"\n");
    for cut in "- 7".split(' ') {
        let input = input.as_bytes();
        let outside = cut_by(cut);
        let _left = check(rt, alloc, command, input, outside, output.as_slice(), "0");
    }
}

/// Runs a command over each input of a table, whose outline stands after a line `=`.
pub(crate) fn check_outlines(rt: &impl Runs, alloc: Global, command: &str, table: &str) {
    for row in table.split("\n\n") {
        match row.split_once("=\n") {
            Some((input, outline)) => check_outline(rt, alloc, command, input, outline),
            None => must(rt, false, row),
        }
    }
}

#[test]
fn each_journal_has_its_outline(rt: HostRuntime) {
    check_outlines(&rt, rt.alloc(), "replay", JOURNALS);
}

/// Journals with a bad line, and what tells it. The first one is empty.
const BAD_LINES: &str = " | | | 2 bad line 1
=space_600000_300000_7_9 | | | 2 bad line 1
=space_0_300000_7_9~ | | | 2 bad line 1
=space_1_1099511627777_7_9~ | | | 2 bad line 1
=tick~ | | | 2 bad line 1
=space_1_1_7_9~0_0_tick | | | 2 bad line 2
=space_1_1_7_9~0_0_tick~0_0_open_1_free~0_0_tock~0_0_tack~ | | | 2 bad line 4
=space_1_1_7_9~0_0_tick~~ | | | 2 bad line 3
=space_1_1_7_9~0_4611686018427387904_tick~ | | | 2 bad line 2
=space_1_1_7_9~0_00_tick~ | | | 2 bad line 2
=space_1_1_7_9~0_0_list~0_0_list_16~ | | | 2 bad line 3
=space_1_1_7_9~0_0_lookup_a_1/0/0~ | | | 2 bad line 2";

#[test]
fn each_bad_line_has_its_number(rt: HostRuntime) {
    check_table(&rt, rt.alloc(), "replay", "- 7", BAD_LINES);
}

/// A turn that is refused before a bad line, and a bad line before it.
const REFUSED: &str =
    "=space_600000_300000_7_9~0_0_open_1_pinned~1_0_begin_16~1_0_finish_16_1 65535*=,1 =_-_1/0/0~0_0_tack~ | | | 6 refused
=space_600000_300000_7_9~0_0_open_1_pinned~1_0_begin_16~0_0_tack~1_0_finish_16_1 65535*=,1 =_-_1/0/0~ | | | 2 bad line 4";

#[test]
fn the_first_of_a_bad_line_and_a_refused_turn_is_told(rt: HostRuntime) {
    check_table(&rt, rt.alloc(), "replay", "-", REFUSED);
}
