//! A listener over links in memory.
ghost use Rattle.std.specs.List.{AllByRecursion};
ghost use Rattle.std.specs.Prelude.{◌≤◌, length};
ghost use Rattle.mod_utf.specs.Utf.{utf};
ghost use Rattle.wire_io.specs.Links.{IsNew};

use crate::texts::{bytes_from, must, units_of};
use mod_utf::utf::encoded_len;
use sequence::{Kinds, MomentList, Units};
use std::alloc::Global;
use std::process::Abort;
use wire_io::link::Link;
use wire_io::listener::{Listener, MemLink, MemLinks, MemListener};
use wire_io::mem::{MemClock, MemSink, MemSource};
use wire_io::source::Source;

/// The text `127.0.0.1`, which has few enough bytes for a host.
fn peer_host(rt: &impl Abort, alloc: Global) -> Units
    ensures { length (utf result) ≤ 255 }
{
    let host = units_of(rt, alloc, "127.0.0.1");
    assert!(rt; encoded_len(&host) <= 255, "a short host");
    host
}

/// A link to a peer of this port, which sends these bytes.
fn link_of(rt: &impl Abort, alloc: Global, bytes: &[u8], port: i32) -> MemLink
    ensures { IsNew result }
{
    let bytes = bytes_from(rt, alloc, bytes);
    Link {
        source: MemSource::new(bytes, Kinds::new(alloc), Kinds::new(alloc)),
        sink: MemSink::new(alloc, Kinds::new(alloc)),
        clock: MemClock::new(MomentList::new(alloc)),
        host: peer_host(rt, alloc),
        port,
    }
}

/// Two links.
fn two_links(rt: &impl Abort, alloc: Global) -> MemLinks
    ensures { AllByRecursion IsNew result }
{
    let mut links = MemLinks::new(alloc);
    let first = links.push(link_of(rt, alloc, b"abc", 7));
    must(rt, first.is_ok(), "memory");
    let second = links.push(link_of(rt, alloc, b"", 9));
    must(rt, second.is_ok(), "memory");
    links
}

/// Accepts a link, and looks at the port and at how many bytes it has left.
fn check_accept(rt: &impl Abort, listener: &mut MemListener, port: i32, left: usize) {
    let mut link = listener.accept().expect(rt, "a link");
    link.source.shut();
    must(rt, link.port == port, "port");
    must(rt, link.source.rest().len() == left, "left");
}

/// Looks at what a listener listened on, and how many links and faults it gave.
fn check_counts(rt: &impl Abort, listener: &MemListener) {
    let [(address, port)] = listener.ports() else {
        return must(rt, false, "one port");
    };
    must(rt, address.as_slice() == b"127.0.0.1".as_slice(), "address");
    must(rt, *port == 1099, "port");
    must(rt, listener.accepted_count() == 2, "accepted");
    must(rt, listener.faults() == 2, "faults");
}

#[test]
fn links_come_in_order_and_then_none(rt: HostRuntime) {
    let mut listener = MemListener::new(rt.alloc(), two_links(&rt, rt.alloc()));
    must(&rt, listener.listen("127.0.0.1", 1099).is_ok(), "listen");
    check_accept(&rt, &mut listener, 7, 3);
    check_accept(&rt, &mut listener, 9, 0);
    must(&rt, listener.accept().is_err(), "no third link");
    must(&rt, listener.accept().is_err(), "and none later");
    check_counts(&rt, &listener);
}
