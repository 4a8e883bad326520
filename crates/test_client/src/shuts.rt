//! Where a client's commands dial, and that they shut both halves of the link.
ghost use Rattle.wire_io.specs.Links.{untold_dialer};
ghost use Rattle.wire_io.specs.Mem.{source_half, sink_half};
ghost use Rattle.wire_io.specs.Wire.{AreNewHalves};

use crate::talks::{binding, server_place};
use crate::texts::{must, name, units};
use crate::words::wire_of;
use client_talk::{bind, list, look_up, unbind};
use sequence::{ByteList, Kinds, MomentList, Units};
use std::alloc::Global;
use std::process::Abort;
use test_support::texts::cut;
use wire_io::{Dialer, Failed, Halves, Link, MemClock, MemSink, MemSource, Sink, Source};

/// A command, and what the server sends, in which it finds its answer.
const ANSWERED: &str = "list : ACK NORMAL STRINGS 00000000
lookup : ACK NORMAL ECHO PROXY LIVE 01 78
lookup : ACK NORMAL ECHO PROXY LIVE 00 78
bind : ACK NORMAL ECHO PROXY LIVE 01 78 NORMAL
unbind : ACK NORMAL";

/// A command, and what the server sends, in which it finds none.
const UNANSWERED: &str = "list : 4F
list :
list : ACK 53
lookup : ACK NORMAL 70
lookup : ACK NORMAL ECHO PROXY LIVE 01
bind : ACK NORMAL ECHO PROXY LIVE 01 78
bind : ACK THROWN FAULT 74 =hi 78 70
unbind : ACK 51
unbind : 4E";

/// A source in memory that counts how often it is shut.
#[derive(Drop)]
struct CountedSource {
    source: MemSource,
    shuts: u32,
}

impl Source for CountedSource {
    ghost half = { λ s. source_half s.source };

    fn read(&mut self, buf: &mut [u8]) -> Result<usize, Failed> {
        self.source.read(buf)
    }

    fn shut(&mut self) {
        self.source.shut();
        self.shuts = self.shuts.saturating_add(1);
    }
}

/// A sink in memory that counts how often it is shut.
#[derive(Drop)]
struct CountedSink {
    sink: MemSink,
    shuts: u32,
}

impl Sink for CountedSink {
    ghost half = { λ s. sink_half s.sink };

    fn write(&mut self, piece: &[u8]) -> Result<usize, Failed> {
        self.sink.write(piece)
    }

    fn shut(&mut self) {
        self.sink.shut();
        self.shuts = self.shuts.saturating_add(1);
    }
}

/// A link of such halves.
type CountedLink = Link<CountedSource, CountedSink, MemClock>;

/// A dialer of one host, at port 1099, where a server sends these bytes over each link.
#[derive(Drop)]
struct OneServer {
    alloc: Global,
    host: Units,
    server: ByteList,
    faults: u64,
}

/// A link over which a server sends these bytes.
fn counted_link(alloc: Global, server: ByteList) -> CountedLink
    ensures { AreNewHalves (source_half result.source.source) (sink_half result.sink.sink) }
{
    Link {
        source: CountedSource {
            source: MemSource::new(server, Kinds::new(alloc), Kinds::new(alloc)),
            shuts: 0,
        },
        sink: CountedSink {
            sink: MemSink::new(alloc, Kinds::new(alloc)),
            shuts: 0,
        },
        clock: MemClock::new(MomentList::new(alloc)),
        host: Units::new(alloc),
        port: 40_000,
    }
}

impl Dialer for OneServer {
    type In = CountedSource;

    type Out = CountedSink;

    type Ticks = MemClock;

    ghost dialing = { λ d. untold_dialer d.faults };

    fn dial(&mut self, host: &Units, port: i32) -> Result<CountedLink, Failed> {
        if port == 1099 && host.as_slice() == self.host.as_slice() {
            if let Ok(server) = self.server.copy(self.alloc) {
                return Ok(counted_link(self.alloc, server));
            }
        }
        self.faults = self.faults.saturating_add(1);
        Err(Failed)
    }
}

/// Runs a command, and tells whether it answers other than an end.
fn is_answered(
    rt: &impl Abort,
    alloc: Global,
    dialer: &mut OneServer,
    talked: &mut Vec<Halves<CountedSource, CountedSink>>,
    command: &str,
) -> bool {
    let place = server_place(rt, alloc);
    match command {
        "list" => list(alloc, dialer, talked, &place).is_ok(),
        "lookup" => look_up(alloc, dialer, talked, &place, &name(rt, alloc, b"echo")).is_ok(),
        "bind" => bind(alloc, dialer, talked, &place, &binding(rt, alloc)).is_ok(),
        _ => unbind(alloc, dialer, talked, &place, &name(rt, alloc, b"echo")).is_ok(),
    }
}

/// Runs the command of a row, and stops where it leaves other than one link, whose halves were shut once.
fn check_row(rt: &impl Abort, alloc: Global, row: &str, answered: bool) {
    let (command, server) = cut(row, ':');
    let mut dialer = OneServer {
        alloc,
        host: units(rt, alloc, b"127.0.0.1"),
        server: wire_of(rt, alloc, server),
        faults: 0,
    };
    let mut talked = Vec::new(alloc);
    must(
        rt,
        is_answered(rt, alloc, &mut dialer, &mut talked, command) == answered,
        row,
    );
    must(rt, talked.len() == 1 && dialer.faults == 0, row);
    for halves in &talked {
        must(rt, halves.source.shuts == 1 && halves.sink.shuts == 1, row);
    }
}

#[test]
fn halves_are_shut_once(rt: HostRuntime) {
    for row in ANSWERED.split('\n') {
        check_row(&rt, rt.alloc(), row, true);
    }
    for row in UNANSWERED.split('\n') {
        check_row(&rt, rt.alloc(), row, false);
    }
}
