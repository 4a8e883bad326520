//! A dialer over TCP.
ghost use Rattle.std.specs.Prelude.{◌≡◌, None, false, IfOk, OnErr};
ghost use Rattle.wire_io.specs.Links.{accepted_as, Dials, untold_dialer};
ghost use Rattle.wire_io.specs.Wire.{AreNewHalves, next_count, untold_read, untold_write};

use crate::dialer::Dialer;
use crate::limits::{DIAL_SECONDS, REPLY_SECONDS};
use crate::source::Failed;
use crate::std_io::StdClock;
use crate::tcp::link::{TcpLink, link_by_rules};
use crate::tcp::sink::TcpSink;
use crate::tcp::source::{ReadRules, TcpSource};
use mod_utf::utf::encode;
use sequence::Units;
use std::alloc::Global;
use std::marker::Model;
use std::net::{Net, TcpListener, TcpStream, ToSocketAddrs};
use std::time::Duration;
use std::{io, str, time};

/// Dials connections over TCP.
///
/// The addresses of a name are tried in their order, each for [`DIAL_SECONDS`] at most. Where none answers, that is a fault, and so is each other
/// error of the system, and a port below 0 or above 65,535. A link's host and port are those that this end has of the system.
#[derive(Drop)]
pub struct TcpDial<R> {
    rt: R,
    alloc: Global,
    reply_seconds: u64,
    faults: u64,
}

impl<R> Model for TcpDial<R> {
    ghost use Rattle.wire_io.specs.Links.{Dialing, untold_dialer};

    ghost Value = { Dialing };

    ghost view = { λ d. untold_dialer d.faults };
}

impl<R> TcpDial<R> {
    /// The dialer over this runtime's sockets, with no call so far. Each read of its links takes [`REPLY_SECONDS`] at most. It takes no memory.
    pub fn new(alloc: Global, rt: R) -> TcpDial<R>
        ensures { result ≡ untold_dialer 0 }
    {
        TcpDial::with_reply_limit(alloc, rt, REPLY_SECONDS)
    }

    /// The dialer over this runtime's sockets, with no call so far. Each read of its links takes so many seconds at most, and as long as it
    /// wants where that is 0. It takes no memory.
    pub fn with_reply_limit(alloc: Global, rt: R, reply_seconds: u64) -> TcpDial<R>
        ensures { result ≡ untold_dialer 0 }
    {
        TcpDial {
            rt,
            alloc,
            reply_seconds,
            faults: 0,
        }
    }

    /// Returns the number of times that the dialer failed.
    pub fn faults(&self) -> u64
        ensures { result ≡ self.now.faults }
    {
        self.faults
    }
}

/// A connection to a port of the first address of a host that answers.
fn dialed_stream<R>(rt: &R, host: &str, port: u16) -> io::Result<TcpStream>
where
    R: Net<Listener = TcpListener, Stream = TcpStream>,
{
    let mut last = io::Error::from(io::ErrorKind::NotFound);
    for address in (host, port).to_socket_addrs(rt)? {
        match TcpStream::connect_timeout(rt, &address, Duration::from_secs(DIAL_SECONDS)) {
            Ok(stream) => return Ok(stream),
            Err(error) => last = error,
        }
    }
    Err(last)
}

/// A link to a port of a host, each of whose reads takes so many seconds at most. It fails where there is no such port, and where the host's
/// bytes as modified UTF are no text to the system, too.
fn dialed_link<R>(
    alloc: Global,
    rt: &R,
    host: &Units,
    port: i32,
    reply_seconds: u64,
) -> io::Result<TcpLink<R>>
where
    R: Net<Listener = TcpListener, Stream = TcpStream> + Copy + Drop,
    ensures source { IfOk result (λ link. link.source ≡ untold_read 0 false) }
    ensures sink { IfOk result (λ link. link.sink ≡ untold_write 0 false) }
{
    let Ok(port) = u16::try_from(port) else {
        return Err(io::Error::from(io::ErrorKind::InvalidInput));
    };
    let bytes = encode(alloc, host)?;
    let Ok(name) = str::from_utf8(bytes.as_slice()) else {
        return Err(io::Error::from(io::ErrorKind::InvalidInput));
    };
    let stream = dialed_stream(rt, name, port)?;
    let own = stream.local_addr()?;
    let rules = ReadRules {
        first: reply_seconds,
        next: reply_seconds,
        stop: None,
    };
    link_by_rules(alloc, *rt, stream, own, rules)
}

impl<R> Dialer for TcpDial<R>
where
    R: Net<Listener = TcpListener, Stream = TcpStream> + time::Clock + Copy + Send + Drop,
{
    type In = TcpSource;

    type Out = TcpSink;

    type Ticks = StdClock<R>;

    ghost dialing = { λ d. d };

    fn dial(&mut self, host: &Units, port: i32) -> Result<TcpLink<R>, Failed>
        ensures dials { Dials (accepted_as (λ s. s) (λ s. s) (λ _. None)) self.old self.new
            host.now port result }
        ensures halves { IfOk result (λ link. AreNewHalves link.source link.sink) }
        ensures counted { OnErr result
            (self.new ≡ record self.old { faults = next_count self.old.faults }) }
    {
        match dialed_link(self.alloc, &self.rt, host, port, self.reply_seconds) {
            Ok(link) => Ok(link),
            Err(_) => {
                self.faults = self.faults.saturating_add(1);
                Err(Failed)
            }
        }
    }
}
