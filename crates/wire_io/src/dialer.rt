//! Links to servers, which are dialled.
ghost use Rattle.std.specs.Prelude.{◌≡◌, [], ◌∷◌, ◌++◌, length, IfOk, OnErr};
ghost use Rattle.std.specs.List.{AllByRecursion};
ghost use Rattle.wire_io.specs.Links.{Dialing, accepted_as, Dials, IsNew, accepted_in_memory, dialing_in_memory};
ghost use Rattle.wire_io.specs.Mem.{source_half, sink_half};
ghost use Rattle.wire_io.specs.Wire.{AreNewHalves, next_count};

use crate::clock::Clock;
use crate::link::Link;
use crate::listener::{MemLink, MemLinks};
use crate::mem::{MemClock, MemSink, MemSource};
use crate::sink::Sink;
use crate::source::{Failed, Source};
use sequence::{Sequence, Units};
use std::alloc::Global;
use std::marker::Model;
use std::snapshot::Snapshot;
use std::vec;

/// Makes connections to servers.
pub trait Dialer {
    /// The half of a dialled connection that is read from.
    type In: Source + Send + Drop;

    /// The half of a dialled connection that is written to.
    type Out: Sink + Send + Drop;

    /// The clock of a dialled connection.
    type Ticks: Clock + Drop;

    // The links that it gave, each as it was then and with what was asked for, in their order, where the dialer tells them, and how often
    // it failed. The count never falls, and stands still at the greatest u64.
    ghost dialing: { Self → Dialing };

    /// A connection to a port of a host. The host is a name or the numbers of an address. The link's host and port are those of this end.
    /// Neither half failed or was shut yet.
    ///
    /// `Failed` comes only where the count of faults rose. A number that is no port is a fault where the system is asked.
    fn dial(
        &mut self,
        host: &Units,
        port: i32,
    ) -> Result<Link<Self::In, Self::Out, Self::Ticks>, Failed>
        ensures dials { Dials (accepted_as Self.In.half Self.Out.half Self.Ticks.given)
            (dialing self.old) (dialing self.new) host.now port result }
        ensures halves { IfOk result
            (λ link. AreNewHalves (Self.In.half link.source) (Self.Out.half link.sink)) };
}

/// The two halves of a link, after it was used.
#[derive(Drop)]
pub struct Halves<I, O> {
    /// The half that was read from.
    pub source: I,
    /// The half that was written to.
    pub sink: O,
}

/// A list of the halves of links.
pub type HalvesList<I, O> = Sequence<Halves<I, O>>;

/// A link that was given, the host and the port that were asked for. The first two take no bytes and are known to contracts alone.
type Noted = (Snapshot<MemLink>, Snapshot<Units>, i32);

/// A dialer that gives the links of a list, one at each call, and then fails.
///
/// It tells the links that it gave, with the hosts and ports asked for. A call that finds no memory to note that fails too.
pub struct MemDialer {
    links: vec::IntoIter<MemLink>,
    dialed: Vec<Noted>,
    faults: u64,
}

// Written out, so that whoever owns one has one call at each exit, and not the drop of each field.
impl Drop for MemDialer {
    fn drop(self) {
        let MemDialer {
            links,
            dialed,
            faults: _,
        } = self;
        drop(links);
        drop(dialed);
    }
}

impl Model for MemDialer {
    ghost use Rattle.std.specs.Prelude.{map};
    ghost use Rattle.std.specs.List.{AllByRecursion};
    ghost use Rattle.std.specs.Vec.Iter.{into_iter_items};
    ghost use Rattle.wire_io.specs.Links.{DialerState, IsNew};

    ghost Value = { DialerState };

    ghost view = { λ d. record {
      links = into_iter_items d.links;
      dialed = map (λ n. (n.0.value, n.1.value, n.2)) d.dialed.items;
      faults = d.faults;
    } };

    ghost invariant = { λ d. AllByRecursion IsNew (into_iter_items d.links) };
}

impl MemDialer {
    /// The dialer of these links, with no call so far. No half of them failed or was shut yet. It takes no memory.
    pub fn new(alloc: Global, links: MemLinks) -> MemDialer
        requires { AllByRecursion IsNew links }
        ensures links { result.links ≡ links }
        ensures dialed { result.dialed ≡ [] }
        ensures faults { result.faults ≡ 0 }
    {
        MemDialer {
            links: links.into_vec().into_iter(),
            dialed: Vec::new(alloc),
            faults: 0,
        }
    }

    /// Returns the number of links that the dialer gave.
    pub fn dialed_count(&self) -> usize
        ensures { result ≡ length self.now.dialed }
    {
        self.dialed.len()
    }

    /// Returns the number of times that the dialer failed.
    pub fn faults(&self) -> u64
        ensures { result ≡ self.now.faults }
    {
        self.faults
    }
}

impl Dialer for MemDialer {
    type In = MemSource;

    type Out = MemSink;

    type Ticks = MemClock;

    ghost dialing = { dialing_in_memory };

    /// A link comes from the front of the list. It fails where none is left, or where no memory is found.
    fn dial(&mut self, host: &Units, port: i32) -> Result<MemLink, Failed>
        ensures dials { Dials accepted_in_memory
            (dialing_in_memory self.old) (dialing_in_memory self.new) host.now port result }
        ensures halves { IfOk result
            (λ link. AreNewHalves (source_half link.source) (sink_half link.sink)) }
        ensures next { IfOk result (λ link. self.old.links ≡ link ∷ self.new.links) }
        ensures gave { IfOk result
            (λ link. self.new.dialed ≡ self.old.dialed ++ (link, host.now, port) ∷ []) }
        ensures kept { OnErr result (self.new.links ≡ self.old.links) }
        ensures counted { OnErr result (self.new.faults ≡ next_count self.old.faults) }
    {
        if self.dialed.reserve(1).is_err() {
            self.faults = self.faults.saturating_add(1);
            return Err(Failed);
        }
        match self.links.next() {
            Some(link) => {
                self.dialed
                    .push_reserved((Snapshot::of(&link), Snapshot::of(host), port));
                Ok(link)
            }
            None => {
                self.faults = self.faults.saturating_add(1);
                Err(Failed)
            }
        }
    }
}
