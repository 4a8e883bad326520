//! Links in memory: a dialer's, and a listener's that waits.
ghost use Rattle.std.specs.List.{AllByRecursion};
ghost use Rattle.wire_io.specs.Links.{IsNew};

use crate::must;
use sequence::{ByteList, Kinds, MomentList, Units};
use std::alloc::Global;
use std::process::Abort;
use wire_io::{
    Dialer, Failed, Link, Listener, MemClock, MemDialer, MemLink, MemLinks, MemListener, MemSink,
    MemSource, Sink, Source, Waited,
};

/// A link to a peer without a name, of this port, which sends these bytes.
fn link_of(rt: &impl Abort, alloc: Global, bytes: &[u8], port: i32) -> MemLink
    ensures { IsNew result }
{
    let mut sent = ByteList::new(alloc);
    must(rt, sent.append(bytes).is_ok(), "memory");
    Link {
        source: MemSource::new(sent, Kinds::new(alloc), Kinds::new(alloc)),
        sink: MemSink::new(alloc, Kinds::new(alloc)),
        clock: MemClock::new(MomentList::new(alloc)),
        host: Units::new(alloc),
        port,
    }
}

/// Two links.
fn two_links(rt: &impl Abort, alloc: Global) -> MemLinks
    ensures { AllByRecursion IsNew result }
{
    let mut links = MemLinks::new(alloc);
    let first = links.push(link_of(rt, alloc, b"abc", 7));
    must(rt, first.is_ok(), "memory");
    let second = links.push(link_of(rt, alloc, b"", 9));
    must(rt, second.is_ok(), "memory");
    links
}

/// Dials a link, and looks at its port.
fn check_dial(rt: &impl Abort, dialer: &mut MemDialer, host: &Units, port: i32) {
    match dialer.dial(host, 1099) {
        Ok(link) => must(rt, link.port == port, "port"),
        Err(_) => must(rt, false, "a link"),
    }
}

#[test]
fn dialed_links_come_in_order_and_then_none(rt: HostRuntime) {
    let mut dialer = MemDialer::new(rt.alloc(), two_links(&rt, rt.alloc()));
    let host = Units::new(rt.alloc());
    check_dial(&rt, &mut dialer, &host, 7);
    check_dial(&rt, &mut dialer, &host, 9);
    must(&rt, dialer.dial(&host, 1099).is_err(), "no third link");
    must(&rt, dialer.dialed_count() == 2, "dialed");
    must(&rt, dialer.faults() == 1, "a fault");
}

/// The word of what a listener answers that waits: the port of a link, or what else it is.
fn word_of(waited: Result<Waited<MemLink>, Failed>) -> i32 {
    match waited {
        Ok(Waited::Came(link)) => link.port,
        Ok(Waited::Quiet) => -1,
        Ok(Waited::Told) => -2,
        Err(_) => -3,
    }
}

/// The first wait and the third are quiet, and the listener is told to stop at the sixth.
#[test]
fn a_listener_is_quiet_and_is_told_to_stop(rt: HostRuntime) {
    let mut quiet = Kinds::new(rt.alloc());
    must(&rt, quiet.push(0).is_ok(), "memory");
    must(&rt, quiet.push(2).is_ok(), "memory");
    let links = two_links(&rt, rt.alloc());
    let mut listener = MemListener::with_script(rt.alloc(), links, quiet, Some(5));
    for word in [-1, 7, -1, 9, -3, -2, -2] {
        must(&rt, word_of(listener.wait()) == word, "a wait");
    }
    must(&rt, listener.faults() == 1, "a fault");
}

/// A listener that was told to stop gives no link more, though it has one.
#[test]
fn a_listener_that_was_told_gives_no_link(rt: HostRuntime) {
    let links = two_links(&rt, rt.alloc());
    let mut listener = MemListener::with_script(rt.alloc(), links, Kinds::new(rt.alloc()), Some(1));
    for word in [7, -2, -2] {
        must(&rt, word_of(listener.wait()) == word, "a wait");
    }
    must(&rt, listener.accept().is_err(), "no link");
    must(&rt, listener.accepted_count() == 1, "one was given");
}

/// A half in memory goes on after it was shut, as contracts say.
#[test]
fn halves_that_were_shut_go_on(rt: HostRuntime) {
    let mut link = link_of(&rt, rt.alloc(), b"abc", 7);
    link.source.shut();
    link.sink.shut();
    let mut buf = [0; 2];
    must(&rt, link.source.read(&mut buf) == Ok(2), "two bytes");
    link.source.shut();
    must(&rt, link.source.rest() == b"c".as_slice(), "one is left");
    must(&rt, link.sink.write(b"de") == Ok(2), "a write");
    link.sink.shut();
    must(&rt, link.sink.bytes() == b"de".as_slice(), "it is held");
    must(&rt, link.source.faults() == 0, "no fault");
}
