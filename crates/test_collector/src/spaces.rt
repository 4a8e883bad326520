//! Transcripts of spaces that were worked out by hand, and their journals and summaries.
use crate::definitions::defined;
use crate::scripts::must_be;
use crate::transcripts::transcript;
use history::limits::MAX_HISTORY_UNITS;

/// Openings, calls and returns.
const CALLS: [&str; 9] = [
    "space 2 10 7 9
0 0 open 2 free
> opened 16
> gone 16
1 1 open 3 pinned
> opened 17
0 2 open 1 free
> opened 18
> gone 18
?
events 3 units 3 now 2
object 17 kind 3 pinned running 0 awaiting 0 held 0 names 0
withdrawn 16 place 0
withdrawn 18 place 2
",
    // an object of another space
    "space 50 5 7 9
0 0 open 2 pinned
> opened 16
3 54 begin 16:7/9/1
> no object
?
events 2 units 2 now 54
object 16 kind 2 pinned running 0 awaiting 0 held 0 names 0
",
    // a call of another connection
    "space 10 2 7 9
0 0 open 2 pinned
> opened 16
2 52 begin 16
> started 2
1 82 abandon 16
> not running
?
events 3 units 3 now 82
object 16 kind 2 pinned running 1 awaiting 0 held 0 names 0
",
    "space 10 2 7 9
0 0 open 2 pinned
> opened 16
2 52 begin 16
> started 2
2 53 begin 16
> started 2
2 82 abandon 16
> done
2 83 ack 1/0/0
> done
?
events 5 units 5 now 83
object 16 kind 2 pinned running 1 awaiting 0 held 0 names 0
",
    // a call keeps an object beyond its return's time; the other one goes
    "space 5 100 -1 -5
0 0 open 1 pinned
> opened 16
2 0 begin 16
> started 1
2 0 finish 16 1,1 - 1/0/0
> finished 17,18
2 105 begin 17
> started 1
> gone 18
2 226 finish 17 - 17 1/0/1
> finished -
?
events 5 units 8 now 226
object 16 kind 1 pinned running 0 awaiting 0 held 0 names 0
object 17 kind 1 free running 0 awaiting 1 held 0 names 0
withdrawn 18 place 3
",
    "space 2 50 7 9
0 0 open 2 pinned
> opened 16
1 4 begin 16
> started 2
1 4 finish 16 - 16 1/0/0
> finished -
?
events 3 units 4 now 4
object 16 kind 2 pinned running 0 awaiting 1 held 0 names 0
",
    "space 10 2 7 9
0 0 open 2 pinned
> opened 16
2 52 begin 16
> started 2
1 82 finish 16 2 - 1/0/0
> not running
?
events 3 units 4 now 82
object 16 kind 2 pinned running 1 awaiting 0 held 0 names 0
",
    "space 2 10 -2147483648 -9223372036854775808
0 0 open 2 pinned
> opened 16
1 1 begin 16
> started 2
1 1 finish 16 1,1 - 1/0/0
> finished 17,18
1 13 begin 17
> started 1
> gone 18
1 25 open 2 free
> opened 19
> gone 19
?
events 5 units 7 now 25
object 16 kind 2 pinned running 0 awaiting 0 held 0 names 0
object 17 kind 1 free running 1 awaiting 0 held 0 names 0
withdrawn 18 place 3
withdrawn 19 place 4
",
    // an abandon withdraws; what it withdrew is told with it, and by the next turn once more
    "space 10 2 7 9
0 0 open 2 pinned
> opened 16
1 0 begin 16
> started 2
1 0 finish 16 1 - 1/0/0
> finished 17
1 1 begin 17
> started 1
1 5 tick
> done
1 6 abandon 17
> done
> gone 17
1 7 tick
> done
> gone 17
1 8 tick
> done
?
events 8 units 9 now 8
object 16 kind 2 pinned running 0 awaiting 0 held 0 names 0
withdrawn 17 place 5
",
];

/// Leases.
const LEASES: [&str; 8] = [
    "space 10 1000 -1 -5
1 12 open 2 pinned
> opened 16
1 1019 dirty aa@2/4/5 9223372036854775807 9223372036854775807 16,17
> granted 10
1 1019 clean aa@2/4/5 9223372036854775806 strong 16
> done
?
events 3 units 6 now 1019
object 16 kind 2 pinned running 0 awaiting 0 held 1 names 0
lease aa@2/4/5 until 1029
",
    // a clock that goes back
    "space 1 50 7 9
3 353 tick
> done
0 303 dirty -@3/4/5 5 1 16
> granted 1
?
events 2 units 3 now 353
lease -@3/4/5 until 354
",
    "space 1 5 -1 -5
0 0 open 2 pinned
> opened 16
3 1 clean aa@3/4/5 -1 strong 16
> done
0 9 dirty aa@3/4/5 6 1 16
> granted 1
3 18 dirty aa@3/4/5 -9223372036854775808 1 16,17,16
> granted 1
?
events 4 units 9 now 18
object 16 kind 2 pinned running 0 awaiting 0 held 0 names 0
lease aa@3/4/5 until 19
",
    "space 10 5 -1 -5
1 31 dirty -@0/0/0 1 10 16,16
> granted 10
?
events 1 units 3 now 31
lease -@0/0/0 until 41
",
    // the highest number decides, and of equal numbers a clean
    "space 600000 300000 7 9
0 0 open 1 pinned
> opened 16
1 1 clean aa@3/4/5 9 strong 16
> done
1 2 dirty aa@3/4/5 8 600000 16
> granted 600000
?
events 3 units 5 now 2
object 16 kind 1 pinned running 0 awaiting 0 held 0 names 0
lease aa@3/4/5 until 600002
1 3 dirty aa@3/4/5 10 600000 16
> granted 600000
?
events 4 units 7 now 3
object 16 kind 1 pinned running 0 awaiting 0 held 1 names 0
lease aa@3/4/5 until 600003
1 4 clean aa@3/4/5 10 weak 16
> done
?
events 5 units 9 now 4
object 16 kind 1 pinned running 0 awaiting 0 held 0 names 0
lease aa@3/4/5 until 600003
",
    "space 600000 300000 7 9
0 0 open 1 pinned
> opened 16
1 1 clean aa@3/4/5 9 strong 16
> done
1 2 dirty aa@3/4/5 8 600000 16
> granted 600000
1 3 dirty aa@3/4/5 10 600000 16
> granted 600000
1 4 clean aa@3/4/5 7 weak 16
> done
?
events 5 units 9 now 4
object 16 kind 1 pinned running 0 awaiting 0 held 1 names 0
lease aa@3/4/5 until 600003
",
    // a dirty that asks for less does not shorten the lease
    "space 600000 300000 7 9
0 0 open 1 pinned
> opened 16
1 0 dirty aa@3/4/5 1 1000 16
> granted 1000
1 500 dirty aa@3/4/5 2 100 -
> granted 100
?
events 3 units 4 now 500
object 16 kind 1 pinned running 0 awaiting 0 held 1 names 0
lease aa@3/4/5 until 1000
1 1000 tick
> done
?
events 4 units 5 now 1000
object 16 kind 1 pinned running 0 awaiting 0 held 0 names 0
",
    // what is granted is at most the configured lease; an object goes when the granted lease ends
    "space 600 300 7 9
0 0 open 1 pinned
> opened 16
1 0 begin 16
> started 1
1 0 finish 16 2 - 1/0/0
> finished 17
1 0 dirty aa@3/4/5 1 10 17
> granted 10
1 0 dirty bb@3/4/5 1 601 16
> granted 600
1 0 dirty cc@3/4/5 1 -1 16
> granted 600
1 0 ack 1/0/0
> done
1 9 tick
> done
1 10 tick
> done
> gone 17
?
events 9 units 13 now 10
object 16 kind 1 pinned running 0 awaiting 0 held 2 names 0
lease bb@3/4/5 until 600
lease cc@3/4/5 until 600
withdrawn 17 place 8
",
];

/// Scripts that tell what becomes of an object that a call returned.
const RETURNED: [&str; 9] = [
    // a dirty that was sent before a clean, and came after it
    "space 600000 300000 7 9
0 0 open 2 pinned
> opened 16
1 10 begin 16
> started 2
1 11 finish 16 1 - 1/0/0
> finished 17
1 12 dirty aa@3/4/5 5 600000 17
> granted 600000
1 13 clean aa@3/4/5 7 weak 17
> done
1 14 dirty aa@3/4/5 6 600000 17
> granted 600000
1 15 ack 1/0/0
> done
> gone 17
?
events 7 units 11 now 15
object 16 kind 2 pinned running 0 awaiting 0 held 0 names 0
lease aa@3/4/5 until 600014
withdrawn 17 place 6
",
    // a dirty at the moment at which the lease is over
    "space 600000 300000 7 9
0 0 open 2 pinned
> opened 16
1 0 begin 16
> started 2
1 0 finish 16 1 - 1/0/0
> finished 17
1 0 dirty aa@3/4/5 1 600000 17
> granted 600000
1 1 ack 1/0/0
> done
1 600000 dirty aa@3/4/5 2 600000 17
> granted 600000
?
events 6 units 9 now 600000
object 16 kind 2 pinned running 0 awaiting 0 held 0 names 0
object 17 kind 1 free running 0 awaiting 0 held 1 names 0
lease aa@3/4/5 until 1200000
",
    "space 600000 300000 7 9
0 0 open 2 pinned
> opened 16
1 0 begin 16
> started 2
1 0 finish 16 1 - 1/0/0
> finished 17
1 0 dirty aa@3/4/5 1 600000 17
> granted 600000
1 1 ack 1/0/0
> done
1 599999 dirty aa@3/4/5 2 600000 17
> granted 600000
?
events 6 units 9 now 599999
object 16 kind 2 pinned running 0 awaiting 0 held 0 names 0
object 17 kind 1 free running 0 awaiting 0 held 1 names 0
lease aa@3/4/5 until 1199999
",
    "space 600000 300000 7 9
0 0 open 2 pinned
> opened 16
1 0 begin 16
> started 2
1 0 finish 16 1 - 1/0/0
> finished 17
1 0 dirty aa@3/4/5 1 600000 17
> granted 600000
1 1 ack 1/0/0
> done
1 600000 dirty aa@3/4/5 2 600000 -
> granted 600000
> gone 17
?
events 6 units 8 now 600000
object 16 kind 2 pinned running 0 awaiting 0 held 0 names 0
lease aa@3/4/5 until 1200000
withdrawn 17 place 5
",
    // a return that nobody acknowledges
    "space 600000 300000 7 9
0 0 open 2 pinned
> opened 16
1 0 begin 16
> started 2
1 0 finish 16 1 - 1/0/0
> finished 17
1 299999 tick
> done
?
events 4 units 5 now 299999
object 16 kind 2 pinned running 0 awaiting 0 held 0 names 0
object 17 kind 1 free running 0 awaiting 1 held 0 names 0
1 300000 tick
> done
> gone 17
?
events 5 units 6 now 300000
object 16 kind 2 pinned running 0 awaiting 0 held 0 names 0
withdrawn 17 place 4
",
    // the client that holds it lets go of it
    "space 600000 300000 7 9
0 0 open 2 pinned
> opened 16
1 0 begin 16
> started 2
1 1 finish 16 1 - 1/0/0
> finished 17
2 2 dirty aa@3/4/5 1 600000 17
> granted 600000
1 3 ack 1/0/0
> done
?
events 5 units 7 now 3
object 16 kind 2 pinned running 0 awaiting 0 held 0 names 0
object 17 kind 1 free running 0 awaiting 0 held 1 names 0
lease aa@3/4/5 until 600002
2 4 clean aa@3/4/5 2 weak 17
> done
> gone 17
?
events 6 units 9 now 4
object 16 kind 2 pinned running 0 awaiting 0 held 0 names 0
lease aa@3/4/5 until 600002
withdrawn 17 place 5
",
    // the client that holds it is lost
    "space 600000 300000 7 9
0 0 open 2 pinned
> opened 16
1 0 begin 16
> started 2
1 1 finish 16 1 - 1/0/0
> finished 17
2 2 dirty aa@3/4/5 1 600000 17
> granted 600000
1 3 ack 1/0/0
> done
0 600001 tick
> done
?
events 6 units 8 now 600001
object 16 kind 2 pinned running 0 awaiting 0 held 0 names 0
object 17 kind 1 free running 0 awaiting 0 held 1 names 0
lease aa@3/4/5 until 600002
0 600002 tick
> done
> gone 17
?
events 7 units 9 now 600002
object 16 kind 2 pinned running 0 awaiting 0 held 0 names 0
withdrawn 17 place 6
",
    // a dirty that is delivered twice, and once more after the clean
    "space 600000 300000 7 9
0 0 open 2 pinned
> opened 16
1 0 begin 16
> started 2
1 1 finish 16 1 16 1/0/0
> finished 17
2 2 dirty aa@3/4/5 1 600000 16,17
> granted 600000
2 5 dirty aa@3/4/5 1 600000 16,17
> granted 600000
1 6 ack 1/0/0
> done
?
events 6 units 12 now 6
object 16 kind 2 pinned running 0 awaiting 0 held 1 names 0
object 17 kind 1 free running 0 awaiting 0 held 1 names 0
lease aa@3/4/5 until 600005
2 7 clean aa@3/4/5 2 weak 16,17
> done
> gone 17
2 8 dirty aa@3/4/5 1 600000 16,17
> granted 600000
?
events 8 units 18 now 8
object 16 kind 2 pinned running 0 awaiting 0 held 0 names 0
lease aa@3/4/5 until 600008
withdrawn 17 place 6
",
    // a dirty that names it before its export
    "space 600000 300000 7 9
0 0 open 2 pinned
> opened 16
1 1 begin 16
> started 2
2 2 dirty aa@3/4/5 1 600000 17
> granted 600000
1 3 finish 16 1 - 1/0/0
> finished 17
?
events 4 units 6 now 3
object 16 kind 2 pinned running 0 awaiting 0 held 0 names 0
object 17 kind 1 free running 0 awaiting 1 held 0 names 0
lease aa@3/4/5 until 600002
1 4 ack 1/0/0
> done
> gone 17
?
events 5 units 7 now 4
object 16 kind 2 pinned running 0 awaiting 0 held 0 names 0
lease aa@3/4/5 until 600002
withdrawn 17 place 4
",
];

#[test]
fn definitions_answer_as_worked_out(rt: HostRuntime) {
    for scripts in [&CALLS[..], &LEASES[..], &RETURNED[..]] {
        for script in scripts {
            let text = defined(&rt, rt.alloc(), MAX_HISTORY_UNITS, script);
            must_be(&rt, &text, script);
        }
    }
}

/// Calls that end by `abandon`.
const ABANDONS: [&str; 4] = [
    "space 10 2 7 9
0 0 open 2 pinned
> opened 16
2 52 begin 16
> started 2
2 53 begin 16
> started 2
! 2 82 abandon 16
2 83 ack 1/0/0
> done
?
events 5 units 5 now 83
object 16 kind 2 pinned running 1 awaiting 0 held 0 names 0
",
    "space 10 2 7 9
0 0 open 2 pinned
> opened 16
2 52 begin 16
> started 2
1 53 begin 16
> started 2
! 2 12 abandon 16
2 13 abandon 16
> not running
! 1 14 abandon 16
?
events 6 units 6 now 53
object 16 kind 2 pinned running 0 awaiting 0 held 0 names 0
",
    // a lease that is over then
    "space 10 2 7 9
0 0 open 2 pinned
> opened 16
2 5 begin 16
> started 2
1 6 dirty aa@3/4/5 1 10 16
> granted 10
! 2 16 abandon 16
?
events 4 units 5 now 16
object 16 kind 2 pinned running 0 awaiting 0 held 0 names 0
",
    // an object that the call alone kept; the next turn tells that it is gone
    "space 10 2 7 9
0 0 open 2 pinned
> opened 16
1 0 begin 16
> started 2
1 0 finish 16 1 - 1/0/0
> finished 17
1 1 begin 17
> started 1
1 5 tick
> done
! 1 6 abandon 17
?
events 6 units 7 now 6
object 16 kind 2 pinned running 0 awaiting 0 held 0 names 0
withdrawn 17 place 5
1 7 tick
> done
> gone 17
1 8 tick
> done
",
];

/// A script of requests about names, with their answers. A name keeps its object, and so does a lookup until it is acknowledged.
const NAMED: &str = "space 600000 300000 7 9
0 0 open 1 pinned
> opened 16
1 0 begin 16
> started 1
1 0 finish 16 2 - 1/0/0
> finished 17
0 1 bind \"b\" 17
> bound
0 1 bind \"b\" 99
> no object
0 1 bind \"b\" 16
> already bound
0 1 rebind \"a\" 99
> no object
0 1 rebind \"a\" 16
> bound
0 1 rebind \"b\" 17
> bound
0 1 list
> names \"b\" \"a\"
1 1 ack 1/0/0
> done
0 1 lookup \"c\" 2/0/0
> not bound
0 1 unbind \"c\"
> not bound
2 1 lookup \"b\" 2/0/0
> found 17 kind 2
0 1 unbind \"b\"
> unbound
?
events 15 units 16 now 1
object 16 kind 1 pinned running 0 awaiting 0 held 0 names 1
object 17 kind 2 free running 0 awaiting 1 held 0 names 0
name \"a\" 16
2 2 ack 2/0/0
> done
> gone 17
0 3 bind \"b\" 17
> no object
";

/// A return that makes more objects than can be exported, also where no call of its connection runs; one that makes one; one of more references
/// than can await. The refusals leave the space as it was.
const RETURNS: &str = "space 600000 300000 7 9
0 0 open 1 pinned
> opened 16
1 0 begin 16
> started 1
1 0 begin 16
> started 1
1 5 finish 16 1*65536 16 1/0/1
> exports full
2 5 finish 16 1*65536 16 1/0/1
> not running
1 5 finish 16 1 16 1/0/1
> finished 17
1 300004 finish 16 1*65534 16 1/0/2
> awaiting full
?
events 5 units 65544 now 5
object 16 kind 1 pinned running 1 awaiting 1 held 0 names 0
object 17 kind 1 free running 0 awaiting 1 held 0 names 0
";

/// Journals and summaries.
const SUMMARIES: [(&str, &str); 2] = [
    (
        "space 2 10 7 9
=
#",
        "space 2 10 7 9
=
space 2 10 7 9
#
events 0 units 0 now 0
objects 0 clients 0 pairs 0 awaiting 0 names 0 withdrawn 0
",
    ),
    (
        "space 10 1000 -1 -5
1 12 open 2 pinned
1 12 open 3 free
1 1019 dirty aa@2/4/5 7 10 16:-1/-5/0,17
0 1020 clean -@2/4/5 6 strong 16
1 1020 dirty aa@2/4/5 9223372036854775807 -10 -
0 1020 clean -@2/4/5 -9223372036854775808 weak -
0 1020 clean -@2/4/5 8 strong -
=
#",
        "space 10 1000 -1 -5
1 12 open 2 pinned
> opened 16
1 12 open 3 free
> opened 17
> gone 17
1 1019 dirty aa@2/4/5 7 10 16:-1/-5/0,17
> granted 10
0 1020 clean -@2/4/5 6 strong 16
> done
1 1020 dirty aa@2/4/5 9223372036854775807 -10 -
> granted 10
0 1020 clean -@2/4/5 -9223372036854775808 weak -
> done
0 1020 clean -@2/4/5 8 strong -
> done
=
space 10 1000 -1 -5
1 12 open 2 pinned
1 12 open 3 free
1 1019 dirty aa@2/4/5 7 10 16,17
0 1020 clean -@2/4/5 6 strong 16
1 1020 dirty aa@2/4/5 9223372036854775807 -10 -
0 1020 clean -@2/4/5 -9223372036854775808 weak -
0 1020 clean -@2/4/5 8 strong -
#
events 7 units 10 now 1020
objects 1 clients 1 pairs 2 awaiting 0 names 0 withdrawn 1
",
    ),
];

#[test]
fn journals_and_summaries(rt: HostRuntime) {
    for (script, wanted) in SUMMARIES {
        let text = transcript(&rt, rt.alloc(), script);
        must_be(&rt, &text, wanted);
    }
}

#[test]
fn spaces_answer_as_worked_out(rt: HostRuntime) {
    let others = [NAMED, RETURNS];
    for scripts in [
        &CALLS[..],
        &LEASES[..],
        &RETURNED[..],
        &ABANDONS[..],
        &others[..],
    ] {
        for script in scripts {
            let text = transcript(&rt, rt.alloc(), script);
            must_be(&rt, &text, script);
        }
    }
}
