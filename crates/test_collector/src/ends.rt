//! Whether a lease or a wait has ended since the newest event of a space, and whether withdrawals are still to be told.
use crate::scripts::{config_of, must};
use crate::transcripts::{abandon, spelled_event};
use space::Space;
use std::alloc::Global;
use std::process::Abort;
use test_support::spaces::SPACE;

/// Events, each with a moment behind it, and whether something has ended by then. A lease lasts 10 ms, a wait 2 ms. The lease that is renewed at 8
/// ends at 18.
const ENDS: &str = "0 1 open 3 pinned > 1000 no
1 5 dirty aa@1/0/0 1 10 16 > 14 no
1 5 tick > 15 yes
1 8 dirty aa@1/0/0 2 10 16 > 17 no
1 9 tick > 18 yes
1 20 tick > 1000 no
1 21 begin 16 > 1000 no
1 21 finish 16 4 16 1/0/1 > 22 no
1 22 tick > 23 yes
2 22 begin 17 > 24 yes
1 23 tick > 1000 no";

/// Takes the event of a line, and compares what the space says of the moment behind it.
fn take(rt: &impl Abort, alloc: Global, space: &mut Space, line: &str) {
    let (spelled, wanted) = line.split_once(" > ").expect(rt, line);
    let event = spelled_event(rt, alloc, SPACE, spelled);
    let answer = space.turn(event.by, event.moment, event.ask);
    must(rt, answer.is_ok(), spelled);
    let (moment, ended) = wanted.split_once(' ').expect(rt, line);
    let moment = moment.parse::<u64>().unwrap_or(0);
    must(rt, space.has_ended(moment) == (ended == "yes"), line);
}

#[test]
fn ends_are_seen(rt: HostRuntime) {
    let alloc = rt.alloc();
    let config = config_of(&rt, "space 10 2 7 9");
    let mut space = Space::fresh(alloc, &config);
    for line in ENDS.split('\n') {
        take(&rt, alloc, &mut space, line);
        must(&rt, !space.has_untold(), "told");
    }
    abandon(&rt, alloc, &mut space, SPACE, "! 2 30 abandon 17");
    must(&rt, space.has_untold(), "untold");
    take(&rt, alloc, &mut space, "1 31 tick > 1000 no");
    must(&rt, !space.has_untold(), "told by a tick");
}
