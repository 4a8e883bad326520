//! The sample served until its listener is told to stop.
ghost use Rattle.std.specs.Prelude.{◌≡◌};

use crate::gates::{Gated, GatedSink, GatedSource};
use crate::holding::{First, Holding, HoldingHand};
use crate::recording::Noting;
use crate::servers::{CONFIG, Cases, check_all, is_short, plan_of};
use crate::telling::{MADE, Recorders, space_with_made};
use crate::texts::{cut, moments_of, must, this_host};
use call_dispatch::{Crew, Recorded};
use conn_server::{
    DropsReports, HostBegin, Hosted, KeepsReports, LinkReport, MAX_LIVE, Server, Stop,
};
use sample_app::{sample_book, sample_space};
use sequence::Kinds;
use space::{Space, journal};
use std::alloc::Global;
use std::process::Abort;
use std::sync::Wait;
use std::thread::Threads;
use turn_lock::TurnLock;
use wire_io::MemClock;

/// The reports of links that were kept, and the lines of the events that were handed on.
type Kept<H> = Noting<KeepsReports<GatedSource, GatedSink, MemClock, H>>;

/// The result of a host whose reports were kept, and whose events were noted.
type HostedBy<H> = Hosted<GatedSource, GatedSink, MemClock, Kept<H>, H>;

/// The moments of the quiet seconds.
const SECONDS: &str = "299999 300000 300001";

/// The space that a host begins with, and the most links that are live at once.
#[derive(Drop)]
struct Begin {
    space: Space,
    most_live: usize,
}

/// Serves the links over a space until the listener is told to stop; None where there is no memory.
fn host_over<R: Threads + Wait + Abort + Sync, G: Crew>(
    rt: &R,
    alloc: Global,
    listener: &mut Gated,
    crew: &G,
    begin: Begin,
) -> Option<HostedBy<G::Hand>> {
    let Begin { space, most_live } = begin;
    let plan = plan_of(rt, alloc, 100_000, 1099);
    if !is_short(&plan.host) {
        return None;
    }
    let book = sample_book(alloc).ok()?;
    let ended = listener.ended()?;
    let mut ticks = MemClock::new(moments_of(rt, alloc, SECONDS));
    match TurnLock::recording(alloc, space) {
        Ok((lock, root)) => {
            let server = Server {
                rt,
                alloc,
                crew,
                book: &book,
            };
            let begin = HostBegin {
                root,
                taker: Noting::new(alloc, KeepsReports::new(alloc), ended),
                record: true,
                most_live,
            };
            Some(server.host(listener, &mut ticks, lock, begin, &plan))
        }
        Err(_space) => None,
    }
}

/// Three clients: the worker is inside the call of the first one, the second has sent nothing, and the third is inside a call, until the listener is
/// told to stop.
const LIVE: &str = "0 | 1234 | 0 | | opening add_one | ack number +5 first 00000000 +0 | Ended
500 | 1234 | 0 | |  |  | Truncated { at: 0 }
500 | 1234 | 0 | | opening 50 ACED0005 | ack | Truncated { at: 18 }";

/// Hosts the three clients, where so many may be live at once, and looks at what each got; None where there is no memory.
fn check_live<R: Threads + Wait + Abort + Sync>(
    rt: &R,
    alloc: Global,
    most_live: usize,
) -> Option<()> {
    let mut cases = Cases::new(alloc);
    for line in LIVE.split('\n') {
        cases.add(rt, alloc, line);
    }
    let mut listener = cases.hosted(alloc, Kinds::new(alloc), 3)?;
    let crew = Holding {
        ended: listener.ended()?,
    };
    let space = sample_space(alloc, &CONFIG).ok()?;
    let begin = Begin { space, most_live };
    let hosted = host_over(rt, alloc, &mut listener, &crew, begin)?;
    must(rt, hosted.stop == Stop::Told, "stop");
    check_noted(rt, alloc, &hosted, &sample_space(alloc, &CONFIG).ok()?);
    let links = hosted.taker.links.as_slice();
    must(
        rt,
        links.starts_with(&[1, 2, 3]) && links.len() == 6,
        "each begins and ends",
    );
    let taker = hosted.taker;
    let inner = taker.inner;
    let (links, ticks) = inner.in_order();
    check_all(rt, alloc, links.as_slice(), LIVE);
    must(rt, ticks.len() == 3, "a tick each");
    check_calls(rt, alloc, links.as_slice());
    Some(())
}

/// Looks whether the reports have the peer of each link, and the number of calls that it began: one of the first link, and none of the others.
fn check_calls(
    rt: &impl Abort,
    alloc: Global,
    links: &[LinkReport<GatedSource, GatedSink, MemClock, HoldingHand>],
) {
    let host = this_host(rt, alloc);
    for link in links {
        let calls = if link.by == 1 { 1 } else { 0 };
        must(rt, link.calls == calls, "calls");
        must(rt, link.peer_host.as_slice() == host.as_slice(), "peer");
        must(rt, link.peer_port == 1234, "port");
        must(rt, link.asked.kept().is_none(), "no entries");
    }
}

/// Looks whether the events that were handed on are those of the space after the opening's.
fn check_noted<H>(rt: &impl Abort, alloc: Global, hosted: &HostedBy<H>, opening: &Space) {
    must(rt, hosted.whole && hosted.taker.whole, "all events");
    if !opening.is_stored() || !hosted.space.is_stored() {
        must(rt, false, "stored events");
        return;
    }
    match (journal(alloc, opening), journal(alloc, &hosted.space)) {
        (Ok(first), Ok(all)) => {
            let rest = all.as_slice().strip_prefix(first.as_slice());
            must(rt, rest == Some(hosted.taker.text.as_slice()), "events");
        }
        _ => must(rt, false, "memory"),
    }
}

#[test]
fn live_links_are_served_to_their_ends(rt: HostRuntime) {
    must(
        &rt,
        check_live(&rt, rt.alloc(), MAX_LIVE).is_some(),
        "memory",
    );
}

#[test]
fn a_host_with_as_many_links_as_it_may_have_sees_its_stop(rt: HostRuntime) {
    must(&rt, check_live(&rt, rt.alloc(), 3).is_some(), "memory");
}

/// Hosts the three clients, where two may be live at once, until the second look whether to stop: the third client is not accepted. None where
/// there is no memory.
fn check_waiting<R: Threads + Wait + Abort + Sync>(rt: &R, alloc: Global) -> Option<()> {
    let mut cases = Cases::new(alloc);
    for line in LIVE.split('\n') {
        cases.add(rt, alloc, line);
    }
    let mut listener = cases.hosted(alloc, Kinds::new(alloc), 3)?;
    let crew = Holding {
        ended: listener.ended()?,
    };
    let begin = Begin {
        space: sample_space(alloc, &CONFIG).ok()?,
        most_live: 2,
    };
    let hosted = host_over(rt, alloc, &mut listener, &crew, begin)?;
    must(rt, hosted.stop == Stop::Told, "stop");
    let links = hosted.taker.links.as_slice();
    must(
        rt,
        links.starts_with(&[1, 2]) && links.len() == 4,
        "the third waits",
    );
    Some(())
}

#[test]
fn a_client_waits_while_as_many_links_are_live_as_may_be(rt: HostRuntime) {
    must(&rt, check_waiting(&rt, rt.alloc()).is_some(), "memory");
}

/// A client that waits until the listener is closed, and one for whose hand there is no memory.
const LOST: &str = "500 | 1234 | 0 | | opening ping | ack pong | Ended
0 | 1234 | 0 | | opening ping | | Ended";

/// Hosts the two clients. The listener is closed once there is no memory for the second, and so the first one ends. None where there is no memory.
fn check_lost<R: Threads + Wait + Abort + Sync>(rt: &R, alloc: Global) -> Option<()> {
    let mut cases = Cases::new(alloc);
    for line in LOST.split('\n') {
        cases.add(rt, alloc, line);
    }
    let mut listener = cases.hosted(alloc, Kinds::new(alloc), 100)?;
    let crew = First {
        crew: Holding {
            ended: listener.ended()?,
        },
    };
    let space = sample_space(alloc, &CONFIG).ok()?;
    let begin = Begin {
        space,
        most_live: MAX_LIVE,
    };
    let hosted = host_over(rt, alloc, &mut listener, &crew, begin)?;
    must(rt, hosted.stop == Stop::OutOfMemory, "stop");
    must(rt, hosted.lost.is_some(), "a lost link");
    let taker = hosted.taker;
    let inner = taker.inner;
    let (links, _ticks) = inner.in_order();
    let (first, _rest) = cut(LOST, '\n');
    check_all(rt, alloc, links.as_slice(), first);
    Some(())
}

#[test]
fn a_host_without_memory_for_a_link_closes_its_port(rt: HostRuntime) {
    must(&rt, check_lost(&rt, rt.alloc()).is_some(), "memory");
}

/// Hosts no client for three seconds, over a space in which a counter was made that awaits its acknowledgement until the moment 300,000. So a Tick is made
/// in the second of these seconds alone. None where there is no memory.
fn check_quiet<R: Threads + Wait + Abort + Sync>(rt: &R, alloc: Global) -> Option<()> {
    let mut quiet = Kinds::new(alloc);
    quiet.push(0).ok()?;
    quiet.push(1).ok()?;
    quiet.push(2).ok()?;
    let mut listener = Cases::new(alloc).hosted(alloc, quiet, 3)?;
    let begin = Begin {
        space: space_with_made(alloc)?,
        most_live: MAX_LIVE,
    };
    let hosted = host_over(rt, alloc, &mut listener, &Recorders { alloc }, begin)?;
    must(rt, hosted.stop == Stop::Told, "stop");
    check_noted(rt, alloc, &hosted, &space_with_made(alloc)?);
    must(
        rt,
        hosted.taker.early && !hosted.tick_missed,
        "an event before the stop",
    );
    match &hosted.hand {
        Some(hand) => must(rt, is_told_once(hand.records()), "told once"),
        None => must(rt, false, "a hand"),
    }
    let taker = hosted.taker;
    let inner = taker.inner;
    let (links, ticks) = inner.in_order();
    must(rt, links.is_empty() && ticks.len() == 1, "one tick");
    Some(())
}

/// Returns whether a hand was told that the counter is gone, and of nothing else.
fn is_told_once(recorded: &[Recorded]) -> bool {
    match recorded {
        [Recorded::Unreferenced(gone)] => gone.number == MADE.number,
        _ => false,
    }
}

#[test]
fn a_lease_ends_in_a_quiet_second(rt: HostRuntime) {
    must(&rt, check_quiet(&rt, rt.alloc()).is_some(), "memory");
}

/// Hosts no client until the listener is told to stop at once: no event is handed on. None where there is no memory.
fn check_idle<R: Threads + Wait + Abort + Sync>(rt: &R, alloc: Global) -> Option<()> {
    let mut listener = Cases::new(alloc).hosted(alloc, Kinds::new(alloc), 0)?;
    let begin = Begin {
        space: sample_space(alloc, &CONFIG).ok()?,
        most_live: MAX_LIVE,
    };
    let hosted = host_over(rt, alloc, &mut listener, &Recorders { alloc }, begin)?;
    must(rt, hosted.stop == Stop::Told, "stop");
    must(rt, hosted.taker.text.is_empty(), "no event");
    check_noted(rt, alloc, &hosted, &sample_space(alloc, &CONFIG).ok()?);
    Some(())
}

#[test]
fn nothing_happened(rt: HostRuntime) {
    must(&rt, check_idle(&rt, rt.alloc()).is_some(), "memory");
}

/// Hosts no client, with reports that are dropped, until the listener is told to stop at once; None where there is no memory.
fn check_none<R: Threads + Wait + Abort + Sync>(rt: &R, alloc: Global) -> Option<()> {
    let mut listener = Cases::new(alloc).hosted(alloc, Kinds::new(alloc), 0)?;
    let space = sample_space(alloc, &CONFIG).ok()?;
    let plan = plan_of(rt, alloc, 100_000, 1099);
    if !is_short(&plan.host) {
        return None;
    }
    let crew = Recorders { alloc };
    let book = sample_book(alloc).ok()?;
    let mut ticks = MemClock::new(moments_of(rt, alloc, SECONDS));
    match TurnLock::around(alloc, space) {
        Ok((lock, root)) => {
            let server = Server {
                rt,
                alloc,
                crew: &crew,
                book: &book,
            };
            let begin = HostBegin {
                root,
                taker: DropsReports::new(),
                record: false,
                most_live: MAX_LIVE,
            };
            let hosted = server.host(&mut listener, &mut ticks, lock, begin, &plan);
            must(rt, hosted.stop == Stop::Told, "stop");
            must(
                rt,
                hosted.hand.is_none() && !hosted.whole,
                "no hand, no events",
            );
            Some(())
        }
        Err(_space) => None,
    }
}

#[test]
fn a_host_is_told_to_stop_at_once(rt: HostRuntime) {
    must(&rt, check_none(&rt, rt.alloc()).is_some(), "memory");
}
