//! A port over TCP that is given back at the end of an input.
use crate::must;
use input_end::{MemInputEnd, StoppedByInput};
use std::alloc::Global;
use std::net::{Net, SocketAddr, TcpListener, TcpStream};
use std::process::Abort;
use std::time::Clock;
use wire_io::{Listener, TcpListen, Waited};

/// The most ports that are tried.
const TRIES: u32 = 20;

/// Returns this machine's address, at a port.
fn here(port: u16) -> SocketAddr {
    SocketAddr::from(([127, 0, 0, 1], port))
}

/// Returns a port that no other program listens on now.
fn free_port<R: Net<Listener = TcpListener, Stream = TcpStream>>(rt: &R) -> Option<u16> {
    let listener = TcpListener::bind(rt, here(0)).ok()?;
    Some(listener.local_addr().ok()?.port())
}

/// Has a listener listen at a free port, and returns that.
fn listen<R: Net<Listener = TcpListener, Stream = TcpStream>, L: Listener>(
    rt: &R,
    listener: &mut L,
) -> Option<u16> {
    for _ in 0..TRIES {
        if let Some(port) = free_port(rt) {
            if listener.listen("127.0.0.1", port).is_ok() {
                return Some(port);
            }
        }
    }
    None
}

/// Connects while the input goes on, and once its second look has seen the end.
fn check_port<R>(rt: &R, alloc: Global) -> Option<()>
where
    R: Net<Listener = TcpListener, Stream = TcpStream> + Clock + Abort + Sync,
{
    let inside = TcpListen::new(alloc, rt);
    let mut listener = StoppedByInput::new(inside, MemInputEnd::new(Some(1)));
    let port = listen(rt, &mut listener)?;
    let _client = TcpStream::connect(rt, here(port)).ok()?;
    match listener.wait() {
        Ok(Waited::Came(_link)) => {}
        _ => must(rt, false, "a link"),
    }
    match listener.wait() {
        Ok(Waited::Told) => {}
        _ => must(rt, false, "the end"),
    }
    let refused = TcpStream::connect(rt, here(port)).is_err();
    must(rt, refused, "no client from then on");
    Some(())
}

#[test]
fn the_port_is_given_back_at_the_end(rt: HostRuntime) {
    must(&rt, check_port(&rt, rt.alloc()).is_some(), "a port");
}
