//! Many links at once, whose clients make objects, hold them and let go of them.
ghost use Rattle.std.specs.Prelude.{◌≤◌};

use crate::defined::Prefix;
use crate::histories::{
    check_answers, check_own, check_plain, check_replayed, events_of, is_defined, is_outlined,
    lose_acks, take_all,
};
use crate::servers::{Cases, LinkOf, ReportOf, is_told, plan_of, serve_links};
use crate::texts::{bytes_of, must};
use conn_server::Stop;
use history::{Event, Turn};
use space::journal;
use std::alloc::Global;
use std::process::Abort;
use std::str;
use std::sync::Wait;
use std::thread::Threads;

/// The number of links.
const LINKS: u32 = 200;

/// The number of links where `history_model` alone answers too.
const FEW_LINKS: u32 = 4;

/// The lines that the clients follow by turns. Each client holds an object that another one may have made, and that may not be made yet.
/// Each acknowledges its own object.
const CLIENTS: &str =
    "0 | 1234 | 7 | | opening make acknowledge +5 first dirty objects 00000000 +18 in_space 77 08 0000000000000001 lease client 00000004 +0 of_client clean objects 00000000 +18 in_space 77 08 0000000000000002 client 00000004 +0 of_client weak
0 | 1234 | 5 6 7 8 9 | | opening dirty objects 00000000 +17 in_space 77 08 0000000000000001 lease client 00000004 +0 of_client make acknowledge +5 first add_one
0 | 1234 | 3 | | opening make make dirty objects 00000000 +18 in_space 77 08 0000000000000001 lease client 00000004 +0 of_client ping
0 | 1234 | 9 2 9 2 | | opening clean objects 00000000 +16 in_space 77 08 0000000000000002 client 00000004 +0 of_client strong add_one make acknowledge +5 first dirty objects 00000000 +16 in_space 77 08 0000000000000001 lease client 00000004 +0 of_client";

/// The line of the client with this number.
fn client_of(by: u32) -> &'static str {
    for (place, line) in CLIENTS.split('\n').enumerate() {
        if place == (by % 4) as usize {
            return line;
        }
    }
    ""
}

/// Serves so many clients and returns their report; None where there is no memory.
fn served_many<'t, R: Threads + Wait + Abort + Sync>(
    rt: &'t R,
    alloc: Global,
    count: u32,
) -> Option<ReportOf<'t, R>>
    requires few { count ≤ 65535 }
{
    let mut cases = Cases::new(alloc);
    for by in 0..count {
        cases.add(rt, alloc, client_of(by));
    }
    let mut listener = cases.listener(alloc)?;
    let plan = plan_of(rt, alloc, count, 1099);
    serve_links(rt, alloc, &mut listener, &plan)
}

/// Looks at a link: it was served to its end, and its events in a journal are its own.
fn check_link<'t, R: Wait + Sync>(
    rt: &impl Abort,
    alloc: Global,
    link: &LinkOf<'t, R>,
    text: &str,
) {
    let front = bytes_of(rt, alloc, "ack number", link.by);
    must(rt, link.sink.bytes().len() > front.len(), "written");
    must(rt, is_told(alloc, link.end, "Ended"), "ended");
    match link.asked.kept() {
        Some(entries) => check_own(rt, alloc, link.by, entries, text),
        None => must(rt, false, "kept entries"),
    }
}

/// Looks at all links, and whether the space is the one that the events of the history make, one after another.
fn check_all<'t, R: Wait + Sync>(
    rt: &impl Abort,
    alloc: Global,
    report: &ReportOf<'t, R>,
    text: &str,
) {
    for link in report.links.as_slice() {
        check_link(rt, alloc, link, text);
    }
    check_replayed(rt, alloc, &report.space, text);
}

/// Looks whether each link, and the server's own Ticks, were answered so.
fn check_turns<'t, R: Wait + Sync>(rt: &impl Abort, report: &ReportOf<'t, R>, turns: &[Turn]) {
    for link in report.links.as_slice() {
        match link.asked.kept() {
            Some(entries) => check_answers(rt, entries, turns),
            None => must(rt, false, "kept entries"),
        }
    }
    for tick in report.ticks.as_slice() {
        must(rt, is_defined(tick, turns), "a tick");
    }
}

/// Looks whether all answers and the outline of the space are what the definitions say of the events of the history.
fn check_defined<'t, R: Wait + Sync>(
    rt: &impl Abort,
    alloc: Global,
    report: &ReportOf<'t, R>,
    events: &[Event],
) {
    let mut prefix = Prefix::new(alloc);
    let turns = take_all(rt, alloc, &mut prefix, events);
    check_turns(rt, report, turns.as_slice());
    must(
        rt,
        is_outlined(alloc, &report.space, &prefix.defined),
        "outline by the definitions",
    );
    if report.links.len() == FEW_LINKS as usize {
        check_plain(rt, alloc, events, &report.space, turns.as_slice());
    }
}

/// Looks whether the definitions say something else of events that aren't those of the history.
fn check_others<'t, R: Wait + Sync>(
    rt: &impl Abort,
    alloc: Global,
    report: &ReportOf<'t, R>,
    events: &[Event],
) {
    let mut prefix = Prefix::new(alloc);
    let _turns = take_all(rt, alloc, &mut prefix, events);
    must(
        rt,
        !is_outlined(alloc, &report.space, &prefix.defined),
        "another outline",
    );
}

/// Looks at what is told of links, by the text of the history that they left.
fn check_history<'t, R: Wait + Sync>(
    rt: &impl Abort,
    alloc: Global,
    report: &ReportOf<'t, R>,
    text: &str,
) {
    check_all(rt, alloc, report, text);
    let mut events = events_of(rt, alloc, text);
    check_defined(rt, alloc, report, events.as_slice());
    lose_acks(events.as_mut_slice());
    check_others(rt, alloc, report, events.as_slice());
}

/// Serves so many links, and looks at what is told of them.
fn check_many(rt: &(impl Threads + Wait + Abort + Sync), alloc: Global, count: u32)
    requires few { count ≤ 65535 }
{
    match served_many(rt, alloc, count) {
        Some(report) => {
            must(rt, report.stop == Stop::All, "stop");
            must(rt, report.links.len() == count as usize, "all links");
            if !report.space.is_stored() {
                must(rt, false, "stored events");
                return;
            }
            match journal(alloc, &report.space) {
                Ok(told) => match str::from_utf8(told.as_slice()) {
                    Ok(text) => check_history(rt, alloc, &report, text),
                    Err(_) => must(rt, false, "a text"),
                },
                Err(_) => must(rt, false, "memory"),
            }
        }
        None => must(rt, false, "memory"),
    }
}

#[test]
fn many_links_leave_one_history(rt: HostRuntime) {
    check_many(&rt, rt.alloc(), LINKS);
}

#[test]
fn few_links_are_answered_by_the_definitions(rt: HostRuntime) {
    check_many(&rt, rt.alloc(), FEW_LINKS);
}
