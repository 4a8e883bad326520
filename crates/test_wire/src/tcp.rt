//! One connection: what either end writes, the other one reads, and each direction is shut by itself.
use crate::must;
use sequence::Units;
use std::alloc::Global;
use std::io::{Read, Write};
use std::net::{Net, Shutdown, SocketAddr, TcpListener, TcpStream};
use std::process::Abort;
use std::sync::Arc;
use std::sync::atomic::{AtomicBool, Ordering};
use std::time::{Clock, Duration};
use wire_io::{
    Dialer, Failed, Listener, Sink, Source, TcpDial, TcpListen, TcpSink, TcpSource, Waited,
};

/// The most ports that are tried.
const TRIES: u32 = 20;

/// This machine, at a port.
fn here(port: u16) -> SocketAddr {
    SocketAddr::from(([127, 0, 0, 1], port))
}

/// A port that no other program listens on now.
fn free_port<R: Net<Listener = TcpListener, Stream = TcpStream>>(rt: &R) -> Option<u16> {
    let listener = TcpListener::bind(rt, here(0)).ok()?;
    Some(listener.local_addr().ok()?.port())
}

/// Has a listener listen at a free port, and answers it.
fn listen<R: Net<Listener = TcpListener, Stream = TcpStream>, L: Listener>(
    rt: &R,
    listener: &mut L,
) -> Option<u16> {
    for _ in 0..TRIES {
        if let Some(port) = free_port(rt) {
            if listener.listen("127.0.0.1", port).is_ok() {
                return Some(port);
            }
        }
    }
    None
}

/// Returns the rest of these bytes after a read, if that gave a front of them.
fn after_read<'b>(source: &mut TcpSource, left: &'b [u8]) -> Option<&'b [u8]> {
    let mut buf = [0; 16];
    let count = source.read(&mut buf).ok()?;
    let front = left.get(..count)?;
    if count > 0 && buf.get(..count)? == front {
        left.get(count..)
    } else {
        None
    }
}

/// Returns whether a source gives these bytes next, in pieces of any length.
fn gives(source: &mut TcpSource, wanted: &[u8]) -> bool {
    let mut left = Some(wanted);
    for _ in wanted {
        if let Some(some) = left {
            if !some.is_empty() {
                left = after_read(source, some);
            }
        }
    }
    match left {
        Some(left) => left.is_empty(),
        None => false,
    }
}

/// Looks at the direction from the peer: its bytes, their end, and a read after the source is shut.
fn check_source(rt: &impl Abort, source: &mut TcpSource, peer: &mut TcpStream) {
    must(
        rt,
        peer.write_all(b"from the peer").is_ok(),
        "the peer writes",
    );
    must(rt, gives(source, b"from the peer"), "the source gives it");
    must(rt, peer.shutdown(Shutdown::Write).is_ok(), "the peer shuts");
    let mut buf = [0; 1];
    must(rt, source.read(&mut buf) == Ok(0), "the end");
    must(rt, source.faults() == 0, "no fault");
    source.shut();
    must(rt, source.read(&mut buf).is_err(), "a read afterwards");
    must(rt, source.faults() == 1, "a fault");
}

/// Looks at the direction to the peer: what is written, its end, and a write after the sink is shut.
fn check_sink(rt: &impl Abort, sink: &mut TcpSink, peer: &mut TcpStream) {
    must(
        rt,
        sink.write(b"to the peer") == Ok(11),
        "the sink takes it",
    );
    must(rt, sink.faults() == 0, "no fault");
    sink.shut();
    must(rt, sink.write(b"more").is_err(), "a write afterwards");
    must(rt, sink.faults() == 1, "a fault");
    let mut buf = [0; 11];
    must(rt, peer.read_exact(&mut buf).is_ok(), "the peer reads");
    must(rt, buf == *b"to the peer", "what was written");
    must(rt, peer.read(&mut buf).ok() == Some(0), "and its end");
}

/// Returns whether a text is `127.0.0.1`.
fn is_here(host: &Units) -> bool {
    let mut left = host.as_slice();
    for byte in b"127.0.0.1" {
        match left {
            [unit, rest @ ..] if *unit == u16::from(*byte) => left = rest,
            _ => return false,
        }
    }
    left.is_empty()
}

/// Looks at a connection that a listener accepts.
fn check_link<R, L>(rt: &R, abort: &impl Abort, listener: &mut L, port: u16)
where
    R: Net<Listener = TcpListener, Stream = TcpStream>,
    L: Listener<In = TcpSource, Out = TcpSink>,
{
    match (TcpStream::connect(rt, here(port)), listener.accept()) {
        (Ok(mut peer), Ok(mut link)) => {
            must(abort, is_here(&link.host), "the peer's host");
            let told = peer.local_addr().ok().map(|it| i32::from(it.port()));
            must(abort, told == Some(link.port), "the peer's port");
            check_sink(abort, &mut link.sink, &mut peer);
            check_source(abort, &mut link.source, &mut peer);
        }
        _ => must(abort, false, "a connection"),
    }
}

/// Looks at a listener, before and after it listens.
fn check<R>(rt: &R, alloc: Global)
where
    R: Net<Listener = TcpListener, Stream = TcpStream> + Clock + Abort + Sync,
{
    let mut listener = TcpListen::new(alloc, rt);
    must(rt, listener.accept().is_err(), "no link before it listens");
    must(rt, listener.faults() == 1, "a fault");
    match listen(rt, &mut listener) {
        Some(port) => check_link(rt, rt, &mut listener, port),
        None => must(rt, false, "a port"),
    }
}

#[test]
fn a_connection_carries_bytes_both_ways(rt: HostRuntime) {
    check(&rt, rt.alloc());
}

/// The text `127.0.0.1`.
fn host_here(rt: &impl Abort, alloc: Global) -> Units {
    let mut host = Units::new(alloc);
    for byte in b"127.0.0.1" {
        must(rt, host.push(u16::from(*byte)).is_ok(), "memory");
    }
    host
}

/// The word of what a listener answers that waits.
fn word_of<L: Drop>(waited: Result<Waited<L>, Failed>) -> &'static str {
    match waited {
        Ok(Waited::Came(_link)) => "link",
        Ok(Waited::Quiet) => "quiet",
        Ok(Waited::Told) => "told",
        Err(_) => "fault",
    }
}

/// Looks at waits of a listener: one without a link, one with a link that is dialled, and two after its flag is set. Then no client connects.
fn check_waits<R>(rt: &R, alloc: Global) -> Option<()>
where
    R: Net<Listener = TcpListener, Stream = TcpStream> + Clock + Abort + Sync,
{
    let flag = Arc::new(alloc, AtomicBool::new(false)).ok()?;
    let mut listener = TcpListen::with_flag(alloc, rt, Arc::try_clone(&flag).ok()?);
    let port = listen(rt, &mut listener)?;
    must(rt, word_of(listener.wait()) == "quiet", "no link");
    check_dialed(rt, alloc, &mut listener, port)?;
    flag.store(true, Ordering::SeqCst);
    must(rt, word_of(listener.wait()) == "told", "the flag");
    must(rt, word_of(listener.wait()) == "told", "and again");
    must(rt, listener.faults() == 0, "no fault");
    must(rt, listener.accept().is_err(), "no link from then on");
    let refused = TcpStream::connect(rt, here(port)).is_err();
    must(rt, refused, "no client from then on");
    Some(())
}

/// Looks at a link from both ends: the dialled one names this end, and its read takes as long as its dialer lets it.
fn check_dialed<R, L>(rt: &R, alloc: Global, listener: &mut L, port: u16) -> Option<()>
where
    R: Net<Listener = TcpListener, Stream = TcpStream> + Clock + Abort + Sync,
    L: Listener,
{
    let mut dialer = TcpDial::with_reply_limit(alloc, rt, 1);
    let mut dialed = dialer.dial(&host_here(rt, alloc), i32::from(port)).ok()?;
    must(rt, is_here(&dialed.host), "the host of this end");
    match listener.wait() {
        Ok(Waited::Came(link)) => {
            must(rt, link.port == dialed.port, "the port of this end");
            let mut buf = [0; 1];
            must(rt, dialed.source.read(&mut buf).is_err(), "no reply");
            must(rt, dialed.source.faults() == 1, "a fault");
        }
        _ => must(rt, false, "a link"),
    }
    Some(())
}

#[test]
fn a_listener_waits_for_what_is_dialled(rt: HostRuntime) {
    must(&rt, check_waits(&rt, rt.alloc()).is_some(), "a listener");
}

/// Looks at a link whose listener is told to stop: nothing more is read, as if the peer sent no more, and what is written still goes out.
fn check_told<R>(rt: &R, alloc: Global) -> Option<()>
where
    R: Net<Listener = TcpListener, Stream = TcpStream> + Clock + Abort + Sync,
{
    let flag = Arc::new(alloc, AtomicBool::new(false)).ok()?;
    let mut listener = TcpListen::with_flag(alloc, rt, Arc::try_clone(&flag).ok()?);
    let port = listen(rt, &mut listener)?;
    let mut peer = TcpStream::connect(rt, here(port)).ok()?;
    let mut link = listener.accept().ok()?;
    must(rt, peer.write_all(b"a").is_ok(), "the peer writes");
    must(rt, gives(&mut link.source, b"a"), "the source gives it");
    flag.store(true, Ordering::SeqCst);
    let mut buf = [0; 1];
    must(rt, link.source.read(&mut buf) == Ok(0), "nothing more");
    must(rt, link.source.faults() == 0, "no fault");
    check_sink(rt, &mut link.sink, &mut peer);
    Some(())
}

#[test]
fn a_link_ends_where_its_listener_is_told_to_stop(rt: HostRuntime) {
    must(&rt, check_told(&rt, rt.alloc()).is_some(), "a connection");
}

/// Looks at the limits of time of a connection's halves, before and after the first byte.
fn check_limits<R>(rt: &R, alloc: Global) -> Option<()>
where
    R: Net<Listener = TcpListener, Stream = TcpStream> + Abort,
{
    let listener = TcpListener::bind(rt, here(0)).ok()?;
    let mut peer = TcpStream::connect(rt, listener.local_addr().ok()?).ok()?;
    let (stream, _peer) = listener.accept().ok()?;
    let options = stream.try_clone().ok()?;
    let _sink = TcpSink::new(stream.try_clone().ok()?);
    let mut source = TcpSource::new(alloc, stream).ok()?;
    let minute = Some(Duration::from_secs(60));
    must(rt, options.write_timeout().ok()? == minute, "a write");
    must(rt, options.read_timeout().ok()? == minute, "a first byte");
    must(rt, peer.write_all(b"a").is_ok(), "the peer writes");
    must(rt, gives(&mut source, b"a"), "the source gives it");
    let hours = Some(Duration::from_secs(7200));
    must(rt, options.read_timeout().ok()? == hours, "a later byte");
    Some(())
}

#[test]
fn reads_and_writes_have_limits_of_time(rt: HostRuntime) {
    must(&rt, check_limits(&rt, rt.alloc()).is_some(), "a connection");
}

/// A dial to a port that nobody listens on fails, and is counted.
#[test]
fn a_dial_that_nobody_answers_is_a_fault(rt: HostRuntime) {
    let mut dialer = TcpDial::new(rt.alloc(), &rt);
    let host = host_here(&rt, rt.alloc());
    let port = free_port(&rt).unwrap_or(1);
    must(
        &rt,
        dialer.dial(&host, i32::from(port)).is_err(),
        "no connection",
    );
    must(&rt, dialer.faults() == 1, "a fault");
    must(&rt, dialer.dial(&host, 65536).is_err(), "no such port");
    must(&rt, dialer.faults() == 2, "another fault");
}
