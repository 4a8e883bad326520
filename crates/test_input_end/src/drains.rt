//! Sources in memory that are read and dropped.
ghost use Rattle.std.specs.Prelude.{true};

use crate::must;
use input_end::{DrainedSource, InputEnd, MAX_PIECES, Readiness, Watch};
use sequence::{ByteList, Kinds};
use std::alloc::Global;
use std::process::Abort;
use wire_io::MemSource;

/// A watch that says so many times that a read would wait, and then always the same.
#[derive(Drop)]
struct Watching {
    waits: u32,
    then: Readiness,
    last: Readiness,
}

impl Watch for Watching {
    ghost answered = { λ w. w.last };

    ghost watches = { λ _. true };

    fn readiness(&mut self) -> Readiness {
        self.last = if self.waits == 0 {
            self.then
        } else {
            Readiness::WouldWait
        };
        self.waits = self.waits.saturating_sub(1);
        self.last
    }
}

/// The watch that says so many times that a read would wait, and then this.
fn watch_of(waits: u32, then: Readiness) -> Watching {
    Watching {
        waits,
        then,
        last: Readiness::WouldWait,
    }
}

/// A watch that says so many times that a read returns at once, and then that it would wait.
#[derive(Drop)]
struct Lasting {
    answers: u32,
    last: Readiness,
}

impl Watch for Lasting {
    ghost answered = { λ w. w.last };

    ghost watches = { λ _. true };

    fn readiness(&mut self) -> Readiness {
        self.last = if self.answers == 0 {
            Readiness::WouldWait
        } else {
            Readiness::WouldAnswer
        };
        self.answers = self.answers.saturating_sub(1);
        self.last
    }
}

/// A source of so many bytes, which gives one at each read, and fails at the read of this index.
fn source_of(rt: &impl Abort, alloc: Global, count: u32, failing: u32) -> MemSource {
    let mut bytes = ByteList::new(alloc);
    let mut cuts = Kinds::new(alloc);
    for _ in 0..count {
        must(rt, bytes.push(b'x').is_ok(), "memory");
        must(rt, cuts.push(1).is_ok(), "memory");
    }
    let mut fails = Kinds::new(alloc);
    must(rt, fails.push(failing).is_ok(), "memory");
    MemSource::new(bytes, cuts, fails)
}

/// Bytes are read and dropped until the end, where a read answers at once.
#[test]
fn what_comes_is_dropped(rt: HostRuntime) {
    let source = source_of(&rt, rt.alloc(), 3, 1000);
    let mut end = DrainedSource::new(watch_of(2, Readiness::WouldAnswer), source);
    must(&rt, !end.look(), "it would wait");
    must(&rt, !end.look(), "it would wait again");
    must(&rt, end.source().reads() == 0, "no read");
    must(&rt, end.look() && end.was_seen(), "the end");
    must(&rt, end.source().reads() == 4, "three bytes and the end");
    must(&rt, end.look(), "the end again");
    must(&rt, end.source().reads() == 4, "no read more");
}

/// A read that fails is no end. The next look reads on.
#[test]
fn a_fault_is_no_end(rt: HostRuntime) {
    let source = source_of(&rt, rt.alloc(), 3, 2);
    let mut end = DrainedSource::new(watch_of(0, Readiness::WouldAnswer), source);
    must(&rt, !end.look(), "a fault");
    must(&rt, end.source().rest().len() == 1, "two are dropped");
    must(&rt, end.look(), "the end");
}

/// A peer that is gone is the end, without a read.
#[test]
fn a_hang_up_is_the_end(rt: HostRuntime) {
    let source = source_of(&rt, rt.alloc(), 1, 1000);
    let mut end = DrainedSource::new(watch_of(1, Readiness::HungUp), source);
    must(&rt, !end.look(), "it would wait");
    must(&rt, end.look(), "the end");
    must(&rt, end.source().reads() == 0, "no read");
}

/// One look reads a bounded number of pieces.
#[test]
fn a_look_reads_so_many_pieces(rt: HostRuntime) {
    let source = source_of(&rt, rt.alloc(), MAX_PIECES, 1000);
    let mut end = DrainedSource::new(watch_of(0, Readiness::WouldAnswer), source);
    must(&rt, !end.look(), "not yet");
    must(&rt, end.source().reads() == 256, "so many");
    must(&rt, end.look(), "the end");
}

/// A look asks its watch before each read. It stops where the watch says that the next read would wait.
#[test]
fn each_read_is_asked_for(rt: HostRuntime) {
    let watch = Lasting {
        answers: 2,
        last: Readiness::WouldWait,
    };
    let source = source_of(&rt, rt.alloc(), 3, 1000);
    let mut end = DrainedSource::new(watch, source);
    must(&rt, !end.look(), "no end");
    must(&rt, end.source().reads() == 2, "two reads");
    must(&rt, !end.look(), "it would wait");
    must(&rt, end.source().reads() == 2, "no read more");
}
