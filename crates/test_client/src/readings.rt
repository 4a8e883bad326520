//! The readings of the clock by `call`: before each lease call is planned, after the Return of each dirty call, and at
//! no other time.
ghost use Rattle.std.specs.Prelude.{None};
ghost use Rattle.wire_io.specs.Links.{untold_dialer};
ghost use Rattle.wire_io.specs.Mem.{source_half, sink_half};
ghost use Rattle.wire_io.specs.Wire.{AreNewHalves};

use crate::calls::request;
use crate::texts::must;
use crate::words::wire_of;
use client_talk::call;
use sequence::{ByteList, Kinds, MomentList, Units};
use std::alloc::Global;
use std::process::Abort;
use std::sync::atomic::{AtomicU64, Ordering};
use test_support::texts::cut;
use wire_io::{Clock, Dialer, Failed, Link, MemClock, MemSink, MemSource, Sink, Source};

/// A method; what the servers send on the two links, which `/` parts; and what is sent and received, which `/` parts, before the first reading of the clock, between each two, which `;`
/// parts, and after the last one.
const READINGS: &str =
    "touch : ACK NORMAL ECHO PROXY LIVE 01 78 / ACK NORMAL LEASE 00000000000927C0 HOLDER NORMAL NORMAL : HEAD 0000 00000000 REG 00000002 NAMING 74 =echo HEAD 0000 00000000 / ACK NORMAL ECHO PROXY LIVE 01 78 ACK ; DGC 00000001 LEASING HELD 77 08 8000000000000000 LEASE 00000000000927C0 CALLER / NORMAL LEASE 00000000000927C0 HOLDER ; 54 UID0 TOUCH / NORMAL ; DGC 00000000 LEASING HELD 77 08 8000000000000001 CALLER 77 01 00 / NORMAL
make : ACK NORMAL ECHO PROXY LIVE 01 78 / ACK NORMAL LEASE 00000000000927C0 HOLDER NORMAL ECHO PROXY MADE 01 78 NORMAL LEASE 00000000000927C0 HOLDER NORMAL NORMAL : HEAD 0000 00000000 REG 00000002 NAMING 74 =echo HEAD 0000 00000000 / ACK NORMAL ECHO PROXY LIVE 01 78 ACK ; DGC 00000001 LEASING HELD 77 08 8000000000000000 LEASE 00000000000927C0 CALLER / NORMAL LEASE 00000000000927C0 HOLDER ; 54 UID0 TOUCH / NORMAL ECHO PROXY MADE 01 78 ; DGC 00000001 LEASING OBJECTS 77 08 8000000000000001 LEASE 00000000000927C0 CALLER / NORMAL LEASE 00000000000927C0 HOLDER ; 54 UID0 / ; DGC 00000000 LEASING HELD 77 08 8000000000000002 CALLER 77 01 00 / NORMAL ; DGC 00000000 LEASING OBJECTS 77 08 8000000000000003 CALLER 77 01 00 / NORMAL";

/// The numbers of bytes that were sent and received since the clock was read.
#[derive(Drop)]
struct Passed {
    sent: AtomicU64,
    received: AtomicU64,
}

/// A source in memory that counts the bytes that it gives.
#[derive(Drop)]
struct CountingSource<'a> {
    source: MemSource,
    passed: &'a Passed,
}

impl Source for CountingSource<'_> {
    ghost half = { λ s. source_half s.source };

    fn read(&mut self, buf: &mut [u8]) -> Result<usize, Failed> {
        let count = self.source.read(buf)?;
        let _before = self
            .passed
            .received
            .fetch_add(count as u64, Ordering::SeqCst);
        Ok(count)
    }

    fn shut(&mut self) {
        self.source.shut();
    }
}

/// A sink in memory that counts the bytes that it takes.
#[derive(Drop)]
struct CountingSink<'a> {
    sink: MemSink,
    passed: &'a Passed,
}

impl Sink for CountingSink<'_> {
    ghost half = { λ s. sink_half s.sink };

    fn write(&mut self, piece: &[u8]) -> Result<usize, Failed> {
        let count = self.sink.write(piece)?;
        let _before = self.passed.sent.fetch_add(count as u64, Ordering::SeqCst);
        Ok(count)
    }

    fn shut(&mut self) {
        self.sink.shut();
    }
}

/// A clock that notes at each reading what passed since the last one.
#[derive(Drop)]
struct NotingClock<'a> {
    passed: &'a Passed,
    noted: MomentList,
}

/// Notes what passed, and counts anew. Where there is no memory for that, it is not noted.
fn note(noted: &mut MomentList, passed: &Passed) {
    let _kept = noted.push(passed.sent.swap(0, Ordering::SeqCst));
    let _kept = noted.push(passed.received.swap(0, Ordering::SeqCst));
}

impl Clock for NotingClock<'_> {
    ghost given = { λ _. None };

    fn now(&mut self) -> u64 {
        note(&mut self.noted, self.passed);
        0
    }
}

/// A dialer of servers that send these bytes, the first one's last.
#[derive(Drop)]
struct CountingDialer<'a> {
    alloc: Global,
    servers: Vec<ByteList>,
    passed: &'a Passed,
    faults: u64,
}

/// A link of such halves.
type CountedLink<'a> = Link<CountingSource<'a>, CountingSink<'a>, MemClock>;

/// A link to a server that sends these bytes.
fn counted_link(alloc: Global, server: ByteList, passed: &Passed) -> CountedLink<'_>
    ensures { AreNewHalves (source_half result.source.source) (sink_half result.sink.sink) }
{
    Link {
        source: CountingSource {
            source: MemSource::new(server, Kinds::new(alloc), Kinds::new(alloc)),
            passed,
        },
        sink: CountingSink {
            sink: MemSink::new(alloc, Kinds::new(alloc)),
            passed,
        },
        clock: MemClock::new(MomentList::new(alloc)),
        host: Units::new(alloc),
        port: 40_000,
    }
}

impl<'a> Dialer for CountingDialer<'a> {
    type In = CountingSource<'a>;

    type Out = CountingSink<'a>;

    type Ticks = MemClock;

    ghost dialing = { λ d. untold_dialer d.faults };

    fn dial(&mut self, _host: &Units, _port: i32) -> Result<CountedLink<'a>, Failed> {
        match self.servers.pop() {
            Some(server) => Ok(counted_link(self.alloc, server, self.passed)),
            None => {
                self.faults = self.faults.saturating_add(1);
                Err(Failed)
            }
        }
    }
}

/// The dialer of servers that send these words, which `/` parts.
fn dialer_of<'a>(
    rt: &impl Abort,
    alloc: Global,
    servers: &str,
    passed: &'a Passed,
) -> CountingDialer<'a> {
    let (first, second) = cut(servers, '/');
    let mut servers = Vec::new(alloc);
    must(
        rt,
        servers.push(wire_of(rt, alloc, second)).is_ok(),
        "memory",
    );
    must(
        rt,
        servers.push(wire_of(rt, alloc, first)).is_ok(),
        "memory",
    );
    CountingDialer {
        alloc,
        servers,
        passed,
        faults: 0,
    }
}

/// Calls a method; gives what passed before the first reading of the clock, between each two, and after the last one.
fn noted_of(rt: &impl Abort, alloc: Global, word: &str, servers: &str) -> MomentList {
    let passed = Passed {
        sent: AtomicU64::new(0),
        received: AtomicU64::new(0),
    };
    let mut dialer = dialer_of(rt, alloc, servers, &passed);
    let mut ticks = NotingClock {
        passed: &passed,
        noted: MomentList::new(alloc),
    };
    let mut talked = Vec::new(alloc);
    let request = request(rt, alloc, word);
    let called = call(&mut dialer, &mut ticks, &mut talked, &request);
    must(rt, called.is_ok(), "an answer");
    let NotingClock { passed: _, noted } = ticks;
    let mut noted = noted;
    note(&mut noted, &passed);
    noted
}

/// Returns the number of bytes that these words spell.
fn length_of(rt: &impl Abort, alloc: Global, words: &str) -> u64 {
    wire_of(rt, alloc, words).len() as u64
}

/// The numbers of bytes that are to be noted.
fn wanted_of(rt: &impl Abort, alloc: Global, passed: &str) -> MomentList {
    let mut wanted = MomentList::new(alloc);
    for step in passed.split(';') {
        let (sent, received) = cut(step, '/');
        must(
            rt,
            wanted.push(length_of(rt, alloc, sent)).is_ok(),
            "memory",
        );
        must(
            rt,
            wanted.push(length_of(rt, alloc, received)).is_ok(),
            "memory",
        );
    }
    wanted
}

#[test]
fn the_clock_is_read_around_lease_calls(rt: HostRuntime) {
    for row in READINGS.split('\n') {
        let (word, rest) = cut(row, ':');
        let (servers, passed) = cut(rest, ':');
        let noted = noted_of(&rt, rt.alloc(), word, servers);
        let wanted = wanted_of(&rt, rt.alloc(), passed);
        assert!(rt; noted.as_slice() == wanted.as_slice(), "{row}");
    }
}
