//! A server whose history is full: a Tick is refused, and told as such, and links are served.
use crate::gates::Gated;
use crate::servers::{CONFIG, SPACE, check_all, listener_of, plan_of, serve_over};
use crate::texts::must;
use conn_server::Stop;
use history::Refused;
use object_ids::{ObjId, ObjIds, Vmid};
use sample_app::{SampleCrew, sample_space};
use sequence::ByteList;
use space::{Ask, Asked, AskedEnd, Space};
use std::alloc::Global;
use std::process::Abort;
use std::sync::Wait;
use std::thread::Threads;

/// An object that is not exported.
const ABSENT: ObjId = ObjId {
    number: -1,
    space: SPACE,
};

/// A dirty of so many objects, which are not exported.
fn dirty_of(rt: &impl Abort, alloc: Global, count: u32) -> Ask {
    let objects = vec![in alloc; ABSENT; count as usize].expect(rt, "memory");
    Ask::Dirty {
        client: Vmid::new(ByteList::new(alloc), SPACE).expect(rt, "a client"),
        number: 1,
        asked: 600_000,
        objects: ObjIds::from_vec(objects),
    }
}

/// Makes a dirty of so many objects, which takes a unit more.
fn dirty(rt: &impl Abort, alloc: Global, space: &mut Space, count: u32) {
    let made = space.turn(0, 0, dirty_of(rt, alloc, count));
    must(rt, made.is_ok(), "dirty");
}

/// Fills the history of the sample's space, which has six events: 4,194,304 units are used then.
fn fill(rt: &impl Abort, alloc: Global, space: &mut Space) {
    for _ in 0..63 {
        dirty(rt, alloc, space, 65_536);
    }
    dirty(rt, alloc, space, 65_466);
}

/// A client that sends a Ping, and one whose call is refused, which ends its connection.
const LINKS: &str = "0 | 1234 | 0 | | opening ping | ack pong | Ended
1 | 1234 | 0 | | opening add_one ping | ack refused +5 first full_history | SpaceFull";

/// Returns whether two Ticks were refused since the history is full.
fn are_refused(ticks: &[Asked]) -> bool {
    match ticks {
        [one, two] => is_refused(one) && is_refused(two),
        _ => false,
    }
}

/// Returns whether an entry was refused since the history is full.
fn is_refused(entry: &Asked) -> bool {
    matches!(entry.end, AskedEnd::Refused(Refused::HistoryFull))
}

/// Serves the clients over a full space, and looks at what is told; None where there is no memory.
fn check_full<R: Threads + Wait + Abort + Sync>(
    rt: &R,
    alloc: Global,
    listener: &mut Gated,
) -> Option<()> {
    let crew = SampleCrew::new(rt, alloc).ok()?;
    let mut space = sample_space(alloc, &CONFIG).ok()?;
    fill(rt, alloc, &mut space);
    let plan = plan_of(rt, alloc, 2, 1099);
    let report = serve_over(rt, alloc, listener, &crew, space, &plan)?;
    check_all(rt, alloc, report.links.as_slice(), LINKS);
    must(rt, report.stop == Stop::All, "stop");
    must(rt, are_refused(report.ticks.as_slice()), "ticks");
    Some(())
}

#[test]
fn a_tick_for_which_there_is_no_room_is_told_as_refused(rt: HostRuntime) {
    match listener_of(&rt, rt.alloc(), LINKS) {
        Some(mut listener) => {
            let told = check_full(&rt, rt.alloc(), &mut listener);
            must(&rt, told.is_some(), "memory");
        }
        None => must(&rt, false, "memory"),
    }
}
