//! The output of `world`, and the way in which it ends.
use crate::hosts::{check, check_table, copied, cut_by, must, put};
use crate::replays::check_outlines;
use sequence::ByteList;
use std::alloc::Global;
use std::process::Abort;

/// Scripts, each with its end: the lines after `=`. The first five are the files `examples/*.script`, in the order of `docs/JOURNAL.md`. `test_worlds` has
/// more, each also one step shorter and one step longer.
const SCRIPTS: &str = "world 100 50 1
make
register 0 17
due 0
at 20
fail 0
due 0
at 30
deliver 1
at 40
answer 1
at 100
tick
=
events 5 units 7 now 100
object 16 kind 2 pinned running 0 awaiting 0 held 0 names 0
object 17 kind 1 free running 0 awaiting 0 held 1 names 0
lease 00@0/0/0 until 130
client 0 until 120
ref 0 17 sure usable

world 100 50 2
make
make
register 0 17
due 0
register 1 18
due 1
at 10
deliver 0
answer 0
deliver 1
answer 1
at 60
due 1
deliver 2
answer 2
at 120
tick
=
events 9 units 13 now 120
object 16 kind 2 pinned running 0 awaiting 0 held 0 names 0
object 18 kind 1 free running 0 awaiting 0 held 1 names 0
lease 01@0/0/0 until 160
withdrawn 17 place 8
client 0 until 100
ref 0 17 sure lapsed
client 1 until 160
ref 1 18 sure usable

world 100 50 1
make
ask 0 40
register 0 17
due 0
at 10
deliver 0
ack 0
at 40
answer 0
due 0
at 45
deliver 1
answer 1
at 50
deliver 0
at 60
tick
=
events 8 units 12 now 60
object 16 kind 2 pinned running 0 awaiting 0 held 0 names 0
object 17 kind 1 free running 0 awaiting 0 held 1 names 0
lease 00@0/0/0 until 90
client 0 until 80
ref 0 17 sure usable

world 100 50 1
make
register 0 17
due 0
at 10
deliver 0
answer 0
at 20
drop 0 17
register 0 17
due 0
at 30
deliver 2
answer 2
at 40
deliver 1
at 60
tick
=
events 7 units 11 now 60
object 16 kind 2 pinned running 0 awaiting 0 held 0 names 0
object 17 kind 1 free running 0 awaiting 0 held 1 names 0
lease 00@0/0/0 until 130
client 0 until 120
ref 0 17 sure usable

world 100 50 1
make
register 0 17
due 0
at 50
tick
deliver 0
answer 0
=
events 5 units 7 now 50
object 16 kind 2 pinned running 0 awaiting 0 held 0 names 0
lease 00@0/0/0 until 150
withdrawn 17 place 3
client 0 until 100
ref 0 17 sure usable

world 1 1 2
=
events 1 units 1 now 0
object 16 kind 2 pinned running 0 awaiting 0 held 0 names 0
client 0 until 0
client 1 until 0

world 100 50 1
register 0 17
at 5
due 0
drop 0 17
=
events 1 units 1 now 0
object 16 kind 2 pinned running 0 awaiting 0 held 0 names 0
client 0 until 0";

#[test]
fn each_script_has_its_end(rt: HostRuntime) {
    check_outlines(&rt, rt.alloc(), "world", SCRIPTS);
}

/// Scripts with a line that is none, or whose step is none of their world; and reads and writes that fail, by their indices.
const FAULTS: &str = " | | 0 | 2 bad line 1
=world_100_50_1 | | 0 | 2 bad line 1
=world_0_50_1~ | | 0 | 2 bad line 1
=world_100_1099511627777_1~ | | 0 | 2 bad line 1
=world_100_50_0~ | | 0 | 2 bad line 1
=world_100_50_201~ | | 0 | 2 bad line 1
=world_100_50~ | | 0 | 2 bad line 1
=world_100_50_1~make | | 0 | 2 bad line 2
=world_100_50_1~~ | | 0 | 2 bad line 2
=world_100_50_1~make_1~ | | 0 | 2 bad line 2
=world_100_50_1~at_5~at_4~ | | 0 | 2 bad line 3
=world_100_50_1~at_4611686018427387904~ | | 0 | 2 bad line 2
=world_100_50_1~at_05~ | | 0 | 2 bad line 2
=world_100_50_1~ack_9223372036854775808~ | | 0 | 2 bad line 2
=world_100_50_1~register_1_17~ | | 0 | 2 bad line 2
=world_100_50_1~drop_1_17~ | | 0 | 2 bad line 2
=world_100_50_1~due_1~ | | 0 | 2 bad line 2
=world_100_50_1~deliver_0~ | | 0 | 2 bad line 2
=world_100_50_1~fail_0~ | | 0 | 2 bad line 2
=world_100_50_1~register_0_17~due_0~answer_0~ | | 0 | 2 bad line 4
=world_100_50_1~ask_0_1099511627777~ | | 0 | 2 bad line 2
=world_100_50_1~tick~nothing~ | | 0 | 2 bad line 3
=world_1_1_1~ | | | 3 read fault | 0 |
=world_1_1_1~ | | | 4 write fault | | 0";

#[test]
fn bad_lines_and_failures_of_worlds_are_told(rt: HostRuntime) {
    check_table(&rt, rt.alloc(), "world", "- 7", FAULTS);
}

/// Appends the line that registers an object at client 0.
fn put_register(rt: &impl Abort, alloc: Global, script: &mut ByteList, number: u32) {
    match format!(in alloc; "register 0 {number}\n") {
        Ok(line) => put(rt, script, line.as_bytes()),
        Err(_) => must(rt, false, "memory"),
    }
}

/// A script that registers one reference more than a client's table takes.
fn script_of_references(rt: &impl Abort, alloc: Global) -> ByteList {
    let mut script = copied(rt, alloc, b"world 100 50 1\n");
    for number in 0..16_385 {
        put_register(rt, alloc, &mut script, number);
    }
    script
}

#[test]
fn a_refused_step_comes_before_a_later_bad_line(rt: HostRuntime) {
    let mut script = script_of_references(&rt, rt.alloc());
    put(&rt, &mut script, b"nothing\n");
    let input = script.as_slice();
    let told = "6 refused";
    let _left = check(&rt, rt.alloc(), "world", input, cut_by("-"), &[], told);
}
