//! Links over TCP: both halves of a connection, and the host and port of an end.
ghost use Rattle.std.specs.Prelude.{◌≡◌, ◌≤◌, length, false, IfOk};
ghost use Rattle.mod_utf.specs.Utf.{utf};
ghost use Rattle.wire_io.specs.Wire.{untold_read, untold_write};
ghost use Rattle.wire_io.specs.declared.limits.TheConstants.{MAX_HOST_BYTES};

use crate::limits::MAX_HOST_BYTES;
use crate::link::Link;
use crate::std_io::StdClock;
use crate::tcp::sink::TcpSink;
use crate::tcp::socket::Handle;
use crate::tcp::source::{ReadRules, TcpSource};
use mod_utf::utf::{encoded_len, units_of_ascii};
use sequence::Units;
use std::alloc::Global;
use std::io;
use std::net::{SocketAddr, TcpStream};
use std::sync::Arc;

/// A link over TCP, whose clock is the time of day.
pub type TcpLink<R> = Link<TcpSource, TcpSink, StdClock<R>>;

/// The link of a connection that this peer made, whose halves share its one handle. It fails where there is no memory.
pub fn tcp_link<R>(
    alloc: Global,
    rt: R,
    stream: TcpStream,
    peer: SocketAddr,
) -> io::Result<TcpLink<R>>
where
    R: Drop,
    ensures source { IfOk result (λ link. link.source ≡ untold_read 0 false) }
    ensures sink { IfOk result (λ link. link.sink ≡ untold_write 0 false) }
{
    link_by_rules(alloc, rt, stream, peer, ReadRules::for_accepted(None))
}

/// The link of a connection, which names this address and is read by these rules.
pub(crate) fn link_by_rules<R>(
    alloc: Global,
    rt: R,
    stream: TcpStream,
    address: SocketAddr,
    rules: ReadRules,
) -> io::Result<TcpLink<R>>
where
    R: Drop,
    ensures source { IfOk result (λ link. link.source ≡ untold_read 0 false) }
    ensures sink { IfOk result (λ link. link.sink ≡ untold_write 0 false) }
{
    let host = host_of(alloc, address)?;
    let shared = Arc::new(alloc, stream)?;
    let sink = TcpSink::over(Handle::Shared(Arc::try_clone(&shared)?));
    let source = TcpSource::over(alloc, Handle::Shared(shared), rules)?;
    Ok(Link {
        source,
        sink,
        clock: StdClock::new(rt),
        host,
        port: i32::from(address.port()),
    })
}

/// The numbers of an address as a text.
fn host_of(alloc: Global, address: SocketAddr) -> io::Result<Units>
    ensures { IfOk result (λ host. length (utf host) ≤ MAX_HOST_BYTES) }
{
    let text = address.ip().to_string(alloc)?;
    let host = units_of_ascii(alloc, text.as_bytes())?;
    if encoded_len(&host) > MAX_HOST_BYTES {
        return Err(io::Error::from(io::ErrorKind::InvalidInput));
    }
    Ok(host)
}
