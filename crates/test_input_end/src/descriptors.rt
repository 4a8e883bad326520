//! Descriptors of the system: one of a socket, which it can wait for, and one for which it can't.
use crate::must;
use input_end::{InputEnd, descriptor_end};
use std::alloc::Global;
use std::io;
use std::io::{Read, Write};
use std::net::{Net, Shutdown, SocketAddr, TcpListener, TcpStream};
use std::os::fd::{AsRawFd, RawFd};
use std::process::Abort;
use std::thread::yield_now;

/// The most looks for an end that comes.
const LOOKS: u32 = 10_000_000;

/// Returns true once a look sees the end.
fn is_seen_soon<E: InputEnd>(end: &mut E) -> bool {
    for _ in 0..LOOKS {
        if end.look() {
            return true;
        }
        yield_now();
    }
    false
}

/// Looks at a socket before its peer shuts it, and after that.
fn check_socket<R>(rt: &R, alloc: Global) -> Option<()>
where
    R: Net<Listener = TcpListener, Stream = TcpStream> + Abort,
{
    let listener = TcpListener::bind(rt, SocketAddr::from(([127, 0, 0, 1], 0))).ok()?;
    let mut peer = TcpStream::connect(rt, listener.local_addr().ok()?).ok()?;
    let (stream, _peer) = listener.accept().ok()?;
    let mut end = descriptor_end(alloc, rt, stream).ok()?;
    must(rt, !end.look(), "nothing came");
    must(rt, peer.write(b"abc").ok()? == 3, "three bytes");
    must(rt, !end.look(), "no end");
    peer.shutdown(Shutdown::Write).ok()?;
    must(rt, is_seen_soon(&mut end), "the end");
    must(rt, end.was_seen(), "it was seen");
    Some(())
}

#[test]
fn the_end_of_a_socket_is_seen(rt: HostRuntime) {
    must(&rt, check_socket(&rt, rt.alloc()).is_some(), "a socket");
}

/// An input at its end whose descriptor is none.
#[derive(Drop)]
struct Nowhere;

impl Read for Nowhere {
    fn read(&mut self, _buf: &mut [u8]) -> io::Result<usize> {
        Ok(0)
    }
}

impl AsRawFd for Nowhere {
    fn as_raw_fd(&self) -> RawFd {
        -1
    }
}

/// No look sees the end of an input that the system cannot watch.
#[test]
fn what_cannot_be_waited_for_never_ends(rt: HostRuntime) {
    match descriptor_end(rt.alloc(), &rt, Nowhere) {
        Ok(mut end) => {
            must(&rt, !end.look(), "no end");
            must(&rt, !end.look(), "and none later");
        }
        Err(_) => must(&rt, false, "memory"),
    }
}
