//! Where connections come from.
ghost use Rattle.std.specs.Prelude.{◌≡◌, ◌≤◌, ℕ, List, [], ◌∷◌, ◌++◌, length, None, Option, Some, false, true, IfOk, IsSomeAnd, IfSome, IsTrue, OnOk, OnErr, Ok, Contains, ◌↔◌, ◌<◌};
ghost use Rattle.std.specs.List.{AllByRecursion};
ghost use Rattle.wire_io.specs.Links.{Listening, IsClosedLike, accepted_as, Listens, Accepts, Waits, Looks, IfCame, IfNoneCame, IsNew, accepted_in_memory, listening_in_memory, quiets_after};
ghost use Rattle.wire_io.specs.Mem.{source_half, sink_half};
ghost use Rattle.wire_io.specs.declared.listener.Waited.{Waited};
ghost use Rattle.wire_io.specs.Wire.{AreNewHalves, next_count};

use crate::clock::Clock;
use crate::link::Link;
use crate::mem::{MemClock, MemSink, MemSource, stands_in};
use crate::sink::Sink;
use crate::source::{Failed, Source};
use sequence::{ByteList, Kinds, Sequence};
use std::alloc::{AllocError, Global};
use std::marker::Model;
use std::snapshot::Snapshot;
use std::vec;

/// The answer of a listener that waits for a link for a while.
#[derive(Drop)]
pub enum Waited<L> {
    /// This link came.
    Came(L),
    /// No link came.
    Quiet,
    /// The listener was told to stop. Each later wait answers this again.
    Told,
}

/// Accepts connections.
pub trait Listener {
    /// The half of an accepted connection that is read from.
    type In: Source + Send + Drop;

    /// The half of an accepted connection that is written to.
    type Out: Sink + Send + Drop;

    /// The clock of an accepted connection.
    type Ticks: Clock + Send + Drop;

    // The addresses and ports that it was told to listen on and the links that it gave, each as it was then, in their order, where the
    // listener tells them, how often it failed, whether it was told to stop, how often it answered that no link came or that it was
    // not told to stop, whether it was closed, and how often it was asked to accept a link. The counts never fall, and stand still at
    // the greatest u64.
    ghost listening: { Self → Listening };

    /// Listens on a port of an address from now on. The address is a name or the numbers of one, as `127.0.0.1`.
    ///
    /// `Failed` comes only where the count of faults rose.
    fn listen(&mut self, address: &str, port: u16) -> Result<(), Failed>
        ensures listens { Listens (listening self.old) (listening self.new) address.now port
            result }
        ensures accepted { (listening self.new).accepted ≡ (listening self.old).accepted }
        ensures told { (listening self.new).told ≡ (listening self.old).told };

    /// The next connection, however long that takes. Neither of its halves failed or was shut yet.
    ///
    /// `Failed` comes only where the count of faults rose. A listener that was told to stop fails.
    fn accept(&mut self) -> Result<Link<Self::In, Self::Out, Self::Ticks>, Failed>
        ensures accepts { Accepts (accepted_as Self.In.half Self.Out.half Self.Ticks.given)
            (listening self.old) (listening self.new) result }
        ensures halves { IfOk result
            (λ link. AreNewHalves (Self.In.half link.source) (Self.Out.half link.sink)) }
        ensures ports { (listening self.new).ports ≡ (listening self.old).ports }
        ensures told { (listening self.new).told ≡ (listening self.old).told }
        ensures untold { OnOk result ((listening self.old).told ≡ false) };

    /// Waits for the next connection for a second at most. Neither of its halves failed or was shut yet.
    ///
    /// `Told` comes where the listener was told to stop, and then at each further call. `Failed` comes only where the count of faults rose.
    fn wait(&mut self) -> Result<Waited<Link<Self::In, Self::Out, Self::Ticks>>, Failed>
        ensures waits { Waits (accepted_as Self.In.half Self.Out.half Self.Ticks.given)
            (listening self.old) (listening self.new) result }
        ensures halves { IfOk result (λ waited. IfCame waited
            (λ link. AreNewHalves (Self.In.half link.source) (Self.Out.half link.sink))) }
        ensures ports { (listening self.new).ports ≡ (listening self.old).ports };

    /// Looks whether the listener was told to stop. It accepts no link and does not wait.
    ///
    /// Once it answered true, each further call does, and each further wait answers `Told`.
    fn is_told(&mut self) -> bool
        ensures looks { Looks (listening self.old) (listening self.new) result };

    /// Gives the port that is listened on back to the system, if the listener holds one. The system then refuses the clients that wait there. A
    /// listener whose links can be told to end tells them.
    ///
    /// A listener over another one calls it when it is told to stop and the one inside is not, and a server where it accepts no more links. What it
    /// does with the system no contract sees, only that it was called.
    fn close(&mut self)
        ensures closed { IsClosedLike (listening self.old) (listening self.new) };
}

/// A link in memory.
pub type MemLink = Link<MemSource, MemSink, MemClock>;
/// A list of links in memory.
pub type MemLinks = Sequence<MemLink>;

/// A listener that gives the links of a list, one at each call, and then fails.
///
/// It tells the addresses and ports that it was told to listen on and the links that it gave. A call that finds no memory to note that
/// fails too, and so does an `accept` after it was told to stop. What it notes of a link is a snapshot, which takes no bytes and is known to contracts alone.
///
/// Its waits are counted from 0, up to `u64::MAX`, where the count stands still, and a look counts as one. It is told to stop at the wait whose
/// index is `stop`, and at those after it. A wait before that whose index stands in `quiet` gives no link, and any other does what `accept` does.
pub struct MemListener {
    alloc: Global,
    links: vec::IntoIter<MemLink>,
    accepted: Vec<Snapshot<MemLink>>,
    ports: Vec<(ByteList, u16)>,
    faults: u64,
    quiet: Kinds,
    stop: Option<u64>,
    waits: u64,
    told: bool,
    quiets: u64,
    closed: bool,
    accepts: u64,
}

// Written out, so that whoever owns one has one call at each exit, and not the drop of each field.
impl Drop for MemListener {
    fn drop(self) {
        let MemListener {
            alloc: _,
            links,
            accepted,
            ports,
            faults: _,
            quiet,
            stop: _,
            waits: _,
            told: _,
            quiets: _,
            closed: _,
            accepts: _,
        } = self;
        drop(links);
        drop(accepted);
        drop(ports);
        drop(quiet);
    }
}

impl Model for MemListener {
    ghost use Rattle.std.specs.Prelude.{◌≡◌, ◌≤◌, true, map, IsSomeAnd};
    ghost use Rattle.std.specs.List.{AllByRecursion};
    ghost use Rattle.std.specs.Vec.Iter.{into_iter_items};
    ghost use Rattle.wire_io.specs.Links.{ListenerState, IsNew};

    ghost Value = { ListenerState };

    ghost view = { λ l. record {
      links = into_iter_items l.links;
      accepted = map (λ s. s.value) l.accepted.items;
      ports = l.ports.items;
      faults = l.faults;
      quiet = l.quiet;
      stop = l.stop;
      waits = l.waits;
      told = l.told;
      quiets = l.quiets;
      closed = l.closed;
      accepts = l.accepts;
    } };

    ghost invariant = { λ l. AllByRecursion IsNew (into_iter_items l.links)
        × (l.told ≡ true → IsSomeAnd l.stop (λ first. first ≤ l.waits)) };
}

impl MemListener {
    /// The listener of these links, with no call so far. No half of them failed or was shut yet. Each wait does what `accept` does, and
    /// the listener is never told to stop. It takes no memory.
    pub fn new(alloc: Global, links: MemLinks) -> MemListener
        requires { AllByRecursion IsNew links }
        ensures links { result.links ≡ links }
        ensures accepted { result.accepted ≡ [] }
        ensures ports { result.ports ≡ [] }
        ensures faults { result.faults ≡ 0 }
        ensures quiet { result.quiet ≡ [] }
        ensures stop { result.stop ≡ None }
        ensures waits { result.waits ≡ 0 }
        ensures told { result.told ≡ false }
        ensures quiets { result.quiets ≡ 0 }
        ensures closed { result.closed ≡ false }
        ensures accepts { result.accepts ≡ 0 }
    {
        MemListener::with_script(alloc, links, Kinds::new(alloc), None)
    }

    /// The listener of these links, with no call so far, whose waits of these indices give no link, and which is told to stop at the
    /// wait of the index `stop`. No half of the links failed or was shut yet. It takes no memory.
    pub fn with_script(
        alloc: Global,
        links: MemLinks,
        quiet: Kinds,
        stop: Option<u64>,
    ) -> MemListener
        requires { AllByRecursion IsNew links }
        ensures links { result.links ≡ links }
        ensures accepted { result.accepted ≡ [] }
        ensures ports { result.ports ≡ [] }
        ensures faults { result.faults ≡ 0 }
        ensures quiet { result.quiet ≡ quiet }
        ensures stop { result.stop ≡ stop }
        ensures waits { result.waits ≡ 0 }
        ensures told { result.told ≡ false }
        ensures quiets { result.quiets ≡ 0 }
        ensures closed { result.closed ≡ false }
        ensures accepts { result.accepts ≡ 0 }
    {
        MemListener {
            alloc,
            links: links.into_vec().into_iter(),
            accepted: Vec::new(alloc),
            ports: Vec::new(alloc),
            faults: 0,
            quiet,
            stop,
            waits: 0,
            told: false,
            quiets: 0,
            closed: false,
            accepts: 0,
        }
    }

    /// The addresses and ports that it was told to listen on, in their order.
    pub fn ports(&self) -> &[(ByteList, u16)]
        ensures { result.now ≡ self.now.ports }
    {
        self.ports.as_slice()
    }

    /// Returns the number of links that the listener gave.
    pub fn accepted_count(&self) -> usize
        ensures { result ≡ length self.now.accepted }
    {
        self.accepted.len()
    }

    /// Returns the number of times that the listener failed.
    pub fn faults(&self) -> u64
        ensures { result ≡ self.now.faults }
    {
        self.faults
    }

    /// Returns whether the listener was closed.
    pub fn is_closed(&self) -> bool
        ensures { result ≡ self.now.closed }
    {
        self.closed
    }

    /// Gives the link at the front of the list. It fails where none is left, where no memory is found, and after the listener was told to stop.
    fn take_link(&mut self) -> Result<MemLink, Failed>
        ensures halves { IfOk result
            (λ link. AreNewHalves (source_half link.source) (sink_half link.sink)) }
        ensures untold { OnOk result (self.old.told ≡ false) }
        ensures next { IfOk result (λ link. self.old.links ≡ link ∷ self.new.links) }
        ensures gave { IfOk result (λ link. self.new ≡ record self.old {
          links = self.new.links;
          accepted = self.old.accepted ++ link ∷ [];
        }) }
        ensures failed { OnErr result
            (self.new ≡ record self.old { faults = next_count self.old.faults }) }
    {
        if self.told || self.accepted.reserve(1).is_err() {
            self.faults = self.faults.saturating_add(1);
            return Err(Failed);
        }
        match self.links.next() {
            Some(link) => {
                self.accepted.push_reserved(Snapshot::of(&link));
                Ok(link)
            }
            None => {
                self.faults = self.faults.saturating_add(1);
                Err(Failed)
            }
        }
    }
}

/// Notes an address and a port behind those that were noted. Where there is no memory, these stay as they are.
fn note_port(
    alloc: Global,
    ports: &mut Vec<(ByteList, u16)>,
    address: &[u8],
    port: u16,
) -> Result<(), AllocError>
    ensures ok { OnOk result (ports.new.items ≡ ports.old.items ++ (address.now, port) ∷ []) }
    ensures err { OnErr result (ports.new.items ≡ ports.old.items) }
{
    ports.reserve(1)?;
    let mut noted = ByteList::new(alloc);
    noted.append(address)?;
    ports.push_reserved((noted, port));
    Ok(())
}

/// Returns whether the wait of this index has to stop. The first one that has to is `stop`.
fn is_stopped(stop: Option<u64>, index: u64) -> bool
    ensures { IsTrue result ↔ IsSomeAnd stop (λ first. first ≤ index) }
{
    match stop {
        Some(first) => first <= index,
        None => false,
    }
}

/// Returns the count of answers without a link and without a stop after a look with this answer.
pub(crate) fn quiets_after(quiets: u64, told: bool) -> u64
    ensures { result ≡ quiets_after quiets told }
{
    if told {
        quiets
    } else {
        quiets.saturating_add(1)
    }
}

impl Listener for MemListener {
    type In = MemSource;

    type Out = MemSink;

    type Ticks = MemClock;

    ghost listening = { listening_in_memory };

    fn listen(&mut self, address: &str, port: u16) -> Result<(), Failed>
        ensures listens { Listens
            (listening_in_memory self.old) (listening_in_memory self.new) address.now port result }
        ensures accepted { self.new.accepted ≡ self.old.accepted }
        ensures told { self.new.told ≡ self.old.told }
        ensures links { self.new.links ≡ self.old.links }
        ensures waits { self.new.waits ≡ self.old.waits }
        ensures script { (self.new.quiet ≡ self.old.quiet) × (self.new.stop ≡ self.old.stop) }
        ensures counted { OnErr result (self.new.faults ≡ next_count self.old.faults) }
    {
        if note_port(self.alloc, &mut self.ports, address.as_bytes(), port).is_err() {
            self.faults = self.faults.saturating_add(1);
            return Err(Failed);
        }
        Ok(())
    }

    /// A link comes from the front of the list. It fails where none is left, where no memory is found, and after it was told to stop.
    fn accept(&mut self) -> Result<MemLink, Failed>
        ensures accepts { Accepts accepted_in_memory
            (listening_in_memory self.old) (listening_in_memory self.new) result }
        ensures halves { IfOk result
            (λ link. AreNewHalves (source_half link.source) (sink_half link.sink)) }
        ensures ports { self.new.ports ≡ self.old.ports }
        ensures told { self.new.told ≡ self.old.told }
        ensures untold { OnOk result (self.old.told ≡ false) }
        ensures waits { self.new.waits ≡ self.old.waits }
        ensures script { (self.new.quiet ≡ self.old.quiet) × (self.new.stop ≡ self.old.stop) }
        ensures next { IfOk result (λ link. self.old.links ≡ link ∷ self.new.links) }
        ensures gave { IfOk result (λ link. self.new.accepted ≡ self.old.accepted ++ link ∷ []) }
        ensures kept { OnErr result (self.new.links ≡ self.old.links) }
        ensures counted { OnErr result (self.new.faults ≡ next_count self.old.faults) }
    {
        self.accepts = self.accepts.saturating_add(1);
        self.take_link()
    }

    /// It is told to stop, gives no link or does what `accept` does, by the wait's index.
    fn wait(&mut self) -> Result<Waited<MemLink>, Failed>
        ensures waits { Waits accepted_in_memory
            (listening_in_memory self.old) (listening_in_memory self.new) result }
        ensures halves { IfOk result (λ waited. IfCame waited
            (λ link. AreNewHalves (source_half link.source) (sink_half link.sink))) }
        ensures ports { self.new.ports ≡ self.old.ports }
        ensures stops { (result ≡ Ok Waited.Told)
            ↔ IsSomeAnd self.old.stop (λ first. first ≤ self.old.waits) }
        ensures quiet { (result ≡ Ok Waited.Quiet)
            ↔ (IfSome self.old.stop (λ first. self.old.waits < first)
            × Contains self.old.quiet self.old.waits) }
        ensures count { self.new.waits ≡ next_count self.old.waits }
        ensures script { (self.new.quiet ≡ self.old.quiet) × (self.new.stop ≡ self.old.stop) }
        ensures next { IfOk result (λ waited. IfCame waited
            (λ link. self.old.links ≡ link ∷ self.new.links)) }
        ensures gave { IfOk result (λ waited. IfCame waited
            (λ link. self.new.accepted ≡ self.old.accepted ++ link ∷ [])) }
        ensures kept { IfNoneCame result (self.new.links ≡ self.old.links) }
        ensures counted { OnErr result (self.new.faults ≡ next_count self.old.faults) }
    {
        let index = self.waits;
        self.waits = index.saturating_add(1);
        if is_stopped(self.stop, index) {
            self.told = true;
            return Ok(Waited::Told);
        }
        if stands_in(self.quiet.as_slice(), index) {
            self.quiets = self.quiets.saturating_add(1);
            return Ok(Waited::Quiet);
        }
        match self.take_link() {
            Ok(link) => Ok(Waited::Came(link)),
            Err(failed) => Err(failed),
        }
    }

    /// A look counts as a wait: it is told to stop by its index.
    fn is_told(&mut self) -> bool
        ensures looks { Looks
            (listening_in_memory self.old) (listening_in_memory self.new) result }
        ensures stops { IsTrue result ↔ IsSomeAnd self.old.stop (λ first. first ≤ self.old.waits) }
        ensures count { self.new.waits ≡ next_count self.old.waits }
        ensures script { (self.new.quiet ≡ self.old.quiet) × (self.new.stop ≡ self.old.stop) }
        ensures links { self.new.links ≡ self.old.links }
    {
        let index = self.waits;
        self.waits = index.saturating_add(1);
        self.told = is_stopped(self.stop, index);
        self.quiets = quiets_after(self.quiets, self.told);
        self.told
    }

    /// Notes that it was closed. It gives its links as before.
    fn close(&mut self)
        ensures closed { self.new ≡ record self.old { closed = true } }
    {
        self.closed = true;
    }
}
