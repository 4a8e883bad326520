//! Listeners in memory that are told to stop at the end of an input.
ghost use Rattle.std.specs.List.{AllByRecursion};
ghost use Rattle.wire_io.specs.Links.{IsNew};

use crate::must;
use input_end::{InputEnd, MemInputEnd, StoppedByInput};
use sequence::{ByteList, Kinds, MomentList, Units};
use std::alloc::Global;
use std::process::Abort;
use wire_io::{
    Failed, Link, Listener, MemClock, MemLink, MemLinks, MemListener, MemSink, MemSource, Waited,
};

/// A link to a peer without a name, of this port, which sends nothing.
fn link_of(alloc: Global, port: i32) -> MemLink
    ensures { IsNew result }
{
    Link {
        source: MemSource::new(ByteList::new(alloc), Kinds::new(alloc), Kinds::new(alloc)),
        sink: MemSink::new(alloc, Kinds::new(alloc)),
        clock: MemClock::new(MomentList::new(alloc)),
        host: Units::new(alloc),
        port,
    }
}

/// Two links.
fn two_links(rt: &impl Abort, alloc: Global) -> MemLinks
    ensures { AllByRecursion IsNew result }
{
    let mut links = MemLinks::new(alloc);
    let first = links.push(link_of(alloc, 7));
    must(rt, first.is_ok(), "memory");
    let second = links.push(link_of(alloc, 9));
    must(rt, second.is_ok(), "memory");
    links
}

/// The word of what a listener answers that waits: the port of a link, or what else it is.
fn word_of(waited: Result<Waited<MemLink>, Failed>) -> i32 {
    match waited {
        Ok(Waited::Came(link)) => link.port,
        Ok(Waited::Quiet) => -1,
        Ok(Waited::Told) => -2,
        Err(_) => -3,
    }
}

/// The fifth look sees the end. No link is given from then on, though one is left.
#[test]
fn a_listener_stops_at_the_end_of_its_input(rt: HostRuntime) {
    let mut quiet = Kinds::new(rt.alloc());
    for index in [0, 2, 3] {
        must(&rt, quiet.push(index).is_ok(), "memory");
    }
    let inside = MemListener::with_script(rt.alloc(), two_links(&rt, rt.alloc()), quiet, None);
    let mut listener = StoppedByInput::new(inside, MemInputEnd::new(Some(4)));
    must(&rt, listener.listen("here", 1099).is_ok(), "a port");
    for word in [-1, 7, -1, -1, -2, -2] {
        must(&rt, word_of(listener.wait()) == word, "a wait");
    }
    must(&rt, listener.accept().is_err(), "no link");
    must(
        &rt,
        listener.listener().accepted_count() == 1,
        "one was given",
    );
    must(&rt, listener.listener().ports().len() == 1, "one port");
    must(&rt, listener.listener().faults() == 0, "none inside");
    must(&rt, listener.input().was_seen(), "the end");
    must(&rt, listener.input().looks() == 6, "a look each wait");
}

/// The input never ends: the listener inside gives links, fails and is told to stop by itself. An `accept` does not look.
#[test]
fn a_listener_goes_on_while_its_input_does(rt: HostRuntime) {
    let links = two_links(&rt, rt.alloc());
    let inside = MemListener::with_script(rt.alloc(), links, Kinds::new(rt.alloc()), Some(2));
    let mut listener = StoppedByInput::new(inside, MemInputEnd::new(None));
    must(&rt, listener.accept().is_ok(), "a link");
    must(&rt, listener.input().looks() == 0, "no look");
    for word in [9, -3, -2, -2] {
        must(&rt, word_of(listener.wait()) == word, "a wait");
    }
    must(&rt, !listener.input().was_seen(), "no end");
}
