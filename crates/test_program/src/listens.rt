//! A port on which the program can't listen.
use crate::hosts::{Runs, SEED, cut_by, is_line, must, sink_of, source_of, unlinked, words_of};
use rmi_cli::{Host, run};
use sequence::MomentList;
use std::alloc::Global;
use wire_io::mem::{MemClock, MemSink, MemSource};
use wire_io::source::Failed;
use wire_io::{Link, Listener, Waited};

/// A listener that fails at each call.
#[derive(Drop)]
struct Deaf {
    faults: u64,
    quiets: u64,
    closed: bool,
    accepts: u64,
}

impl Listener for Deaf {
    ghost use Rattle.std.specs.Prelude.{false};
    ghost use Rattle.wire_io.specs.Links.{untold_listener};

    type In = MemSource;

    type Out = MemSink;

    type Ticks = MemClock;

    ghost listening = { λ d. untold_listener d.faults false d.quiets d.closed d.accepts };

    fn listen(&mut self, _address: &str, _port: u16) -> Result<(), Failed> {
        self.faults = self.faults.saturating_add(1);
        Err(Failed)
    }

    fn accept(&mut self) -> Result<Link<MemSource, MemSink, MemClock>, Failed> {
        self.accepts = self.accepts.saturating_add(1);
        self.faults = self.faults.saturating_add(1);
        Err(Failed)
    }

    fn wait(&mut self) -> Result<Waited<Link<MemSource, MemSink, MemClock>>, Failed> {
        self.faults = self.faults.saturating_add(1);
        Err(Failed)
    }

    fn is_told(&mut self) -> bool {
        self.quiets = self.quiets.saturating_add(1);
        false
    }

    fn close(&mut self) {
        self.closed = true;
    }
}

/// Runs a server where the program can't listen: nothing is served or printed, and no connection is waited for.
fn check_deaf(rt: &impl Runs, alloc: Global, line: &str) {
    let words = words_of(rt, alloc, line);
    let mut host = Host {
        input: source_of(rt, alloc, b"", cut_by("-")),
        output: sink_of(rt, alloc, ""),
        errors: sink_of(rt, alloc, ""),
        ticks: MemClock::new(MomentList::new(alloc)),
        listener: Deaf {
            faults: 0,
            quiets: 0,
            closed: false,
            accepts: 0,
        },
        dialer: unlinked(alloc),
        seed: SEED,
        served: None,
        talked: Vec::new(alloc),
    };
    let status = run(rt, alloc, &words, &mut host);
    must(rt, status == 3, line);
    must(rt, is_line(host.errors.bytes(), "listen fault"), line);
    must(rt, host.output.writes() == 0, line);
    must(rt, host.listener.faults == 1, line);
    must(rt, host.served.is_none(), line);
}

#[test]
fn a_port_on_which_it_cannot_listen_is_told(rt: HostRuntime) {
    for line in "serve 1099 1|serve 1099 2 closed|serve 65535 3 open 5 6|host 0.0.0.0 h 1099".split(
        '|',
    ) {
        check_deaf(&rt, rt.alloc(), line);
    }
}
