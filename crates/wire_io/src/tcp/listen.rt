//! A listener over TCP.
ghost use Rattle.std.specs.Prelude.{◌≡◌, None, false, true, IfOk, IfSome, OnOk, OnErr};
ghost use Rattle.wire_io.specs.Links.{accepted_as, Listens, Accepts, Waits, Looks, IfCame, untold_listener};
ghost use Rattle.wire_io.specs.Wire.{AreNewHalves, next_count, untold_read, untold_write};

use crate::limits::{LOOK_SECONDS, WAIT_SECONDS};
use crate::listener::{Listener, Waited, quiets_after};
use crate::source::Failed;
use crate::std_io::StdClock;
use crate::tcp::link::{TcpLink, link_by_rules};
use crate::tcp::sink::TcpSink;
use crate::tcp::source::{ReadRules, TcpSource};
use std::alloc::Global;
use std::marker::Model;
use std::net::{Net, SocketAddr, TcpListener, TcpStream};
use std::os::fd::OwnedFd;
use std::sync::Arc;
use std::sync::atomic::{AtomicBool, Ordering};
use std::time::Duration;
use std::{io, time};

/// The most times that one call waits anew, where no connection came within [`WAIT_SECONDS`] or its peer gave it up.
/// Where none comes, they last for 136 years.
const MAX_ACCEPT_WAITS: u32 = u32::MAX;

/// Accepts connections over TCP.
///
/// Each error of the system is a fault, and so is an `accept` or a `wait` before `listen`. A connection that its peer gave up while it waited is
/// passed over. It is told to stop where someone sets its flag and the next `wait` or `is_told` sees it, which gives the socket back to the system. From then on
/// nothing more is read of the links that it gave: a read ends within [`LOOK_SECONDS`], as if the peer sent nothing more.
#[derive(Drop)]
pub struct TcpListen<R> {
    rt: R,
    alloc: Global,
    listener: Option<TcpListener>,
    flag: Option<Arc<AtomicBool>>,
    told: bool,
    faults: u64,
    quiets: u64,
    closed: bool,
    accepts: u64,
}

impl<R> Model for TcpListen<R> {
    ghost use Rattle.wire_io.specs.Links.{Listening, untold_listener};

    ghost Value = { Listening };

    ghost view = { λ l. untold_listener l.faults l.told l.quiets l.closed l.accepts };
}

impl<R> TcpListen<R> {
    /// The listener over this runtime's sockets, which does not listen yet. It is never told to stop. It takes no memory.
    pub fn new(alloc: Global, rt: R) -> TcpListen<R>
        ensures { result ≡ untold_listener 0 false 0 false 0 }
    {
        TcpListen {
            rt,
            alloc,
            listener: None,
            flag: None,
            told: false,
            faults: 0,
            quiets: 0,
            closed: false,
            accepts: 0,
        }
    }

    /// The listener over this runtime's sockets, which does not listen yet. It is told to stop where this flag is set. It takes no memory.
    pub fn with_flag(alloc: Global, rt: R, flag: Arc<AtomicBool>) -> TcpListen<R>
        ensures { result ≡ untold_listener 0 false 0 false 0 }
    {
        TcpListen {
            rt,
            alloc,
            listener: None,
            flag: Some(flag),
            told: false,
            faults: 0,
            quiets: 0,
            closed: false,
            accepts: 0,
        }
    }

    /// Returns the number of times that the listener failed.
    pub fn faults(&self) -> u64
        ensures { result ≡ self.now.faults }
    {
        self.faults
    }
}

/// Returns whether this flag is set, if there is one.
fn is_set(flag: &Option<Arc<AtomicBool>>) -> bool {
    match flag {
        Some(flag) => flag.load(Ordering::SeqCst),
        None => false,
    }
}

/// Sets this flag, if there is one.
fn set(flag: &Option<Arc<AtomicBool>>) {
    match flag {
        Some(flag) => flag.store(true, Ordering::SeqCst),
        None => {}
    }
}

/// Listens on a port of the first address of a name that the system gives.
fn listen_at<R: Net<Listener = TcpListener, Stream = TcpStream>>(
    rt: &R,
    address: &str,
    port: u16,
) -> io::Result<TcpListener> {
    limited_listener(TcpListener::bind(rt, (address, port))?)
}

/// The listener, each of whose calls that accept a connection takes [`WAIT_SECONDS`] at most.
///
/// The system knows that limit as the one of reads, and the kit sets that of a stream alone: so the socket is taken for a stream's while it
/// is set.
fn limited_listener(listener: TcpListener) -> io::Result<TcpListener> {
    let socket = TcpStream::from(OwnedFd::from(listener));
    socket.set_read_timeout(Some(Duration::from_secs(WAIT_SECONDS)))?;
    Ok(TcpListener::from(OwnedFd::from(socket)))
}

impl<R: Copy + Drop> TcpListen<R> {
    /// Drops the socket, and sets the flag, if there is one.
    fn give_back(&mut self)
        ensures { self.new ≡ self.old }
    {
        self.listener = None;
        set(&self.flag);
    }

    /// Returns whether the listener is told to stop: the flag is set, or was seen before. Then the socket is dropped.
    fn sees_flag(&mut self) -> bool
        ensures told { self.new ≡ record self.old { told = result } }
        ensures again { self.old.told ≡ true → result ≡ true }
    {
        if self.told || is_set(&self.flag) {
            self.told = true;
            self.give_back();
        }
        self.told
    }

    /// The listener's socket, if it listens.
    fn socket(&self) -> io::Result<&TcpListener> {
        match &self.listener {
            Some(listener) => Ok(listener),
            None => Err(io::Error::from(io::ErrorKind::NotConnected)),
        }
    }

    /// The link of a connection that this peer made. Where the flag is set, nothing more is read of it.
    fn link_of(&self, stream: TcpStream, peer: SocketAddr) -> io::Result<TcpLink<R>>
        ensures source { IfOk result (λ link. link.source ≡ untold_read 0 false) }
        ensures sink { IfOk result (λ link. link.sink ≡ untold_write 0 false) }
    {
        let rules = ReadRules::for_accepted(shared_flag(&self.flag)?);
        link_by_rules(self.alloc, self.rt, stream, peer, rules)
    }

    /// The link of the next connection, if it listens.
    fn next_link(&self) -> io::Result<TcpLink<R>>
        ensures source { IfOk result (λ link. link.source ≡ untold_read 0 false) }
        ensures sink { IfOk result (λ link. link.sink ≡ untold_write 0 false) }
    {
        let (stream, peer) = next_stream(self.socket()?)?;
        self.link_of(stream, peer)
    }

    /// The link of the next connection, if it listens and one comes within [`WAIT_SECONDS`].
    fn next_link_soon(&self) -> io::Result<Option<TcpLink<R>>>
        ensures source { IfOk result
            (λ came. IfSome came (λ link. link.source ≡ untold_read 0 false)) }
        ensures sink { IfOk result
            (λ came. IfSome came (λ link. link.sink ≡ untold_write 0 false)) }
    {
        match next_stream_soon(self.socket()?)? {
            Some((stream, peer)) => Ok(Some(self.link_of(stream, peer)?)),
            None => Ok(None),
        }
    }
}

/// The same flag once more, if there is one.
fn shared_flag(flag: &Option<Arc<AtomicBool>>) -> io::Result<Option<Arc<AtomicBool>>> {
    match flag {
        Some(flag) => Ok(Some(Arc::try_clone(flag)?)),
        None => Ok(None),
    }
}

/// The next connection that its peer hasn't given up while it waited. Each other error of the system comes at once.
fn next_stream(listener: &TcpListener) -> io::Result<(TcpStream, SocketAddr)> {
    for _ in 0..MAX_ACCEPT_WAITS {
        if let Some(accepted) = next_stream_soon(listener)? {
            return Ok(accepted);
        }
    }
    Err(io::Error::from(io::ErrorKind::TimedOut))
}

/// The next connection, if one comes within [`WAIT_SECONDS`] and its peer hasn't given it up. The system is asked once.
fn next_stream_soon(listener: &TcpListener) -> io::Result<Option<(TcpStream, SocketAddr)>> {
    match listener.accept() {
        Ok(accepted) => Ok(Some(accepted)),
        Err(error) if gives_none(error.kind()) => Ok(None),
        Err(error) => Err(error),
    }
}

/// Returns whether an error of this kind says that no connection came in time, or that its peer gave it up. Such an
/// error says nothing of the listener or the process.
fn gives_none(kind: io::ErrorKind) -> bool {
    match kind {
        io::ErrorKind::WouldBlock => true,
        io::ErrorKind::ConnectionAborted => true,
        io::ErrorKind::ConnectionReset => true,
        io::ErrorKind::Interrupted => true,
        _ => false,
    }
}

impl<R> Listener for TcpListen<R>
where
    R: Net<Listener = TcpListener, Stream = TcpStream> + time::Clock + Copy + Send + Drop,
{
    type In = TcpSource;

    type Out = TcpSink;

    type Ticks = StdClock<R>;

    ghost listening = { λ l. l };

    /// An earlier port is no longer listened on. Of the addresses of a name the first one that can be had is listened on.
    fn listen(&mut self, address: &str, port: u16) -> Result<(), Failed>
        ensures listens { Listens self.old self.new address.now port result }
        ensures accepted { self.new.accepted ≡ self.old.accepted }
        ensures told { self.new.told ≡ self.old.told }
        ensures counted { OnErr result
            (self.new ≡ record self.old { faults = next_count self.old.faults }) }
    {
        match listen_at(&self.rt, address, port) {
            Ok(listener) => {
                self.listener = Some(listener);
                Ok(())
            }
            Err(_) => {
                self.faults = self.faults.saturating_add(1);
                Err(Failed)
            }
        }
    }

    fn accept(&mut self) -> Result<TcpLink<R>, Failed>
        ensures accepts { Accepts (accepted_as (λ s. s) (λ s. s) (λ _. None))
            self.old self.new result }
        ensures halves { IfOk result (λ link. AreNewHalves link.source link.sink) }
        ensures ports { self.new.ports ≡ self.old.ports }
        ensures told { self.new.told ≡ self.old.told }
        ensures untold { OnOk result (self.old.told ≡ false) }
        ensures counted { OnErr result (self.new ≡ record self.old {
          faults = next_count self.old.faults;
          accepts = next_count self.old.accepts;
        }) }
    {
        self.accepts = self.accepts.saturating_add(1);
        if !self.told {
            if let Ok(link) = self.next_link() {
                return Ok(link);
            }
        }
        self.faults = self.faults.saturating_add(1);
        Err(Failed)
    }

    /// It waits for [`WAIT_SECONDS`] at most, and gives no link where the one that came in this time was given up by its peer.
    fn wait(&mut self) -> Result<Waited<TcpLink<R>>, Failed>
        ensures waits { Waits (accepted_as (λ s. s) (λ s. s) (λ _. None)) self.old self.new result }
        ensures halves { IfOk result (λ waited. IfCame waited
            (λ link. AreNewHalves link.source link.sink)) }
        ensures ports { self.new.ports ≡ self.old.ports }
        ensures counted { OnErr result
            (self.new ≡ record self.old { faults = next_count self.old.faults }) }
    {
        if self.sees_flag() {
            return Ok(Waited::Told);
        }
        match self.next_link_soon() {
            Ok(Some(link)) => Ok(Waited::Came(link)),
            Ok(None) => {
                self.quiets = self.quiets.saturating_add(1);
                Ok(Waited::Quiet)
            }
            Err(_) => {
                self.faults = self.faults.saturating_add(1);
                Err(Failed)
            }
        }
    }

    /// Looks at the flag. Where it is set the socket is dropped.
    fn is_told(&mut self) -> bool
        ensures looks { Looks self.old self.new result }
    {
        let told = self.sees_flag();
        self.quiets = quiets_after(self.quiets, told);
        told
    }

    /// Drops the socket, and sets the flag, if there is one: so nothing more is read of the links that it gave. Without a flag an `accept` or a `wait`
    /// from then on is a fault, unless the listener listens anew.
    fn close(&mut self)
        ensures closed { self.new ≡ record self.old { closed = true } }
    {
        self.give_back();
        self.closed = true;
    }
}
