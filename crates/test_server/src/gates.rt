//! Links in memory that wait for one another.
ghost use Rattle.std.specs.Prelude.{◌≡◌, IfSome, false};
ghost use Rattle.wire_io.specs.Links.{IsNew};
ghost use Rattle.wire_io.specs.Mem.{sink_half};
ghost use Rattle.wire_io.specs.Wire.{AreNewHalves, untold_read};

use sequence::Kinds;
use std::alloc::Global;
use std::sync::Arc;
use std::sync::atomic::{AtomicU64, Ordering};
use std::thread::yield_now;
use wire_io::{
    Failed, Link, Listener, MemClock, MemListener, MemSink, MemSource, Sink, Source, Waited,
};

/// The most looks of a source that waits.
const LOOKS: u32 = 10_000_000;

/// The number of halves that count as shut once the listener was told to stop, so that all links go on.
const TOLD: u64 = 1_000_000;

/// The number of halves of links that were shut: two of each link that was served to its end. Many more count as shut once the listener was
/// told to stop or closed.
pub(crate) type Ended = Arc<AtomicU64, Global>;

/// Waits until so many halves are shut, and returns whether they were.
pub(crate) fn are_ended(ended: &Ended, wanted: u64) -> bool {
    for _ in 0..LOOKS {
        if ended.load(Ordering::SeqCst) >= wanted {
            return true;
        }
        yield_now();
    }
    false
}

/// Returns whether the listener was told to stop.
pub(crate) fn is_told_to_stop(ended: &Ended) -> bool {
    ended.load(Ordering::SeqCst) >= TOLD
}

/// A source that gives its bytes once so many halves of other links were shut, and notes when it is shut. It waits for at most `LOOKS` looks, and then
/// gives none.
#[derive(Drop)]
pub(crate) struct GatedSource {
    source: MemSource,
    ended: Ended,
    wanted: u64,
    is_shut: bool,
}

impl Source for GatedSource {
    ghost use Rattle.wire_io.specs.Wire.{untold_read};

    ghost half = { λ s. untold_read s.source.faults s.is_shut };

    fn read(&mut self, buf: &mut [u8]) -> Result<usize, Failed> {
        if !are_ended(&self.ended, self.wanted) {
            return Ok(0);
        }
        match self.source.read(buf) {
            Ok(count) => Ok(count),
            Err(failed) => Err(failed),
        }
    }

    fn shut(&mut self) {
        self.source.shut();
        self.is_shut = true;
        let _before = self.ended.fetch_add(1, Ordering::SeqCst);
    }
}

/// A sink that notes when it is shut.
#[derive(Drop)]
pub(crate) struct GatedSink {
    sink: MemSink,
    ended: Ended,
}

impl GatedSink {
    /// The bytes that it took.
    pub(crate) fn bytes(&self) -> &[u8] {
        self.sink.bytes()
    }
}

impl Sink for GatedSink {
    ghost use Rattle.wire_io.specs.Links.{IsNew};
    ghost use Rattle.wire_io.specs.Mem.{sink_half};

    ghost half = { λ s. sink_half s.sink };

    fn write(&mut self, piece: &[u8]) -> Result<usize, Failed> {
        self.sink.write(piece)
    }

    fn shut(&mut self) {
        self.sink.shut();
        let _before = self.ended.fetch_add(1, Ordering::SeqCst);
    }
}

/// A listener over links in memory, each of which waits until so many others were served. It fails at chosen calls, counted from 0, and then goes on.
#[derive(Drop)]
pub(crate) struct Gated {
    links: MemListener,
    wanted: Kinds,
    failing: Kinds,
    ended: Ended,
    calls: u32,
    faults: u64,
    accepts: u64,
}

impl Gated {
    /// The listener of these links, which wait for so many others each, that fails at these calls; None where there is no memory.
    pub(crate) fn new(
        alloc: Global,
        links: MemListener,
        wanted: Kinds,
        failing: Kinds,
    ) -> Option<Gated> {
        let ended = Arc::new(alloc, AtomicU64::new(0)).ok()?;
        Some(Gated {
            links,
            wanted,
            failing,
            ended,
            calls: 0,
            faults: 0,
            accepts: 0,
        })
    }

    /// The count of the halves that were shut, to be looked at from elsewhere; None where there is no memory.
    pub(crate) fn ended(&self) -> Option<Ended> {
        Arc::try_clone(&self.ended).ok()
    }

    /// Returns whether this call for a link fails, and counts the call.
    fn fails(&mut self) -> bool
        ensures faults { self.new.faults ≡ self.old.faults }
        ensures accepts { self.new.accepts ≡ self.old.accepts }
        ensures links { self.new.links ≡ self.old.links }
    {
        let call = self.calls;
        self.calls = call.saturating_add(1);
        self.failing.as_slice().iter().any(|index| *index == call)
    }

    /// For how many halves of others the next link waits: two of each.
    fn next_wanted(&self) -> u64 {
        match self.wanted.as_slice().get(self.links.accepted_count()) {
            Some(wanted) => 2 * u64::from(*wanted),
            None => 0,
        }
    }

    /// The next link, if this call does not fail and there is one, and memory for it.
    fn next(&mut self) -> Option<Link<GatedSource, GatedSink, MemClock>>
        ensures halves { IfSome result (λ link. AreNewHalves (untold_read link.source.source.faults link.source.is_shut) (sink_half link.sink.sink)) }
        ensures faults { self.new.faults ≡ self.old.faults }
        ensures told { self.new.links.told ≡ self.old.links.told }
        ensures quiets { self.new.links.quiets ≡ self.old.links.quiets }
        ensures closed { self.new.links.closed ≡ self.old.links.closed }
        ensures accepts { self.new.accepts ≡ self.old.accepts }
        ensures untold { IfSome result (λ link. self.old.links.told ≡ false) }
    {
        if self.fails() {
            return None;
        }
        let wanted = self.next_wanted();
        let link = self.links.accept().ok()?;
        self.gate(link, wanted)
    }

    /// The link, once it waits until so many halves were shut; None where there is no memory.
    fn gate(
        &self,
        link: Link<MemSource, MemSink, MemClock>,
        wanted: u64,
    ) -> Option<Link<GatedSource, GatedSink, MemClock>>
        requires halves { IsNew link }
        ensures halves { IfSome result (λ link. AreNewHalves (untold_read link.source.source.faults link.source.is_shut) (sink_half link.sink.sink)) }
    {
        let there = Arc::try_clone(&self.ended).ok()?;
        let here = Arc::try_clone(&self.ended).ok()?;
        let Link {
            source,
            sink,
            clock,
            host,
            port,
        } = link;
        Some(Link {
            source: GatedSource {
                source,
                ended: there,
                wanted,
                is_shut: false,
            },
            sink: GatedSink { sink, ended: here },
            clock,
            host,
            port,
        })
    }
}

impl Listener for Gated {
    ghost use Rattle.std.specs.Prelude.{false};
    ghost use Rattle.wire_io.specs.Links.{untold_listener};

    type In = GatedSource;

    type Out = GatedSink;

    type Ticks = MemClock;

    ghost listening = { λ g. untold_listener g.faults g.links.told g.links.quiets g.links.closed g.accepts };

    fn listen(&mut self, _address: &str, _port: u16) -> Result<(), Failed> {
        Ok(())
    }

    fn accept(&mut self) -> Result<Link<GatedSource, GatedSink, MemClock>, Failed> {
        self.accepts = self.accepts.saturating_add(1);
        match self.next() {
            Some(link) => Ok(link),
            None => {
                self.faults = self.faults.saturating_add(1);
                Err(Failed)
            }
        }
    }

    fn wait(&mut self) -> Result<Waited<Link<GatedSource, GatedSink, MemClock>>, Failed> {
        let wanted = self.next_wanted();
        match self.links.wait() {
            Ok(Waited::Came(link)) => match self.gate(link, wanted) {
                Some(link) => Ok(Waited::Came(link)),
                None => {
                    self.faults = self.faults.saturating_add(1);
                    Err(Failed)
                }
            },
            Ok(Waited::Quiet) => Ok(Waited::Quiet),
            Ok(Waited::Told) => {
                let _before = self.ended.fetch_add(TOLD, Ordering::SeqCst);
                Ok(Waited::Told)
            }
            Err(_failed) => {
                self.faults = self.faults.saturating_add(1);
                Err(Failed)
            }
        }
    }

    fn is_told(&mut self) -> bool {
        if !self.links.is_told() {
            return false;
        }
        let _before = self.ended.fetch_add(TOLD, Ordering::SeqCst);
        true
    }

    /// All links go on from then.
    fn close(&mut self) {
        let _before = self.ended.fetch_add(TOLD, Ordering::SeqCst);
        self.links.close();
    }
}
