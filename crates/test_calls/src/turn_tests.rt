//! The moments at which a connection makes its turns: before the answer is written that tells of them, and at the
//! moment that the clock has then.
ghost use Rattle.std.specs.Prelude.{◌≡◌, None, true};
ghost use Rattle.wire_io.specs.Wire.{untold_write};

use crate::seen::are_events;
use crate::served_tests::{book, bytes_of, outcomes_of, setup};
use crate::spaces::space_of;
use crate::texts::{cut, must};
use call_dispatch::{Invocation, Outcome, RecordingWorker, Worker, serve_connection};
use history::{Ask, Refused, Turn};
use object_ids::ObjId;
use ports::{Port, SpacePort};
use sequence::{ByteList, Kinds};
use space::Space;
use std::alloc::Global;
use std::cell::Cell;
use std::process::Abort;
use test_support::texts::numbers_of;
use wire_io::limits::LAST_MOMENT;
use wire_io::mem::MemSource;
use wire_io::{Clock, Failed, Sink};

/// The milliseconds that an invocation takes: as long as a reference awaits its acknowledgement.
const INVOCATION_MS: u64 = 300_000;

/// Lines of: the space beforehand; the bytes after a connection's opening; the outcomes of its invocations; the number of turns asked for when each answer
/// was written, the acknowledgement first; and, in some lines, the events of the space, separated by `;`. Here calls are given up: one that comes out
/// as a fault; one whose outcome doesn't fit its method; one of a method that its object doesn't have; and one whose end is refused, since no further
/// object can be exported.
const GIVEN_UP: &str = "closed | call done ping | fault | 0 2 2
closed | call echo 70 ping | 6 | 0 2 2
closed | call FFFFFFFF 0000000000000001 70 | null | 0 2
exports | call echo 70 ping | new | 0 3 3";

/// Calls that take so long that their new objects would be gone if they were made at the moment when the calls were begun. The last one is of a new
/// object.
const SLOW: &str =
    "closed | call done | void | 0 2 | 1 0 begin 16; 1 300000 finish 16 - - 2/2/-32768
closed | call done | fault | 0 2 | 1 0 begin 16; 1 300000 abandon 16
closed | call echo 70 other FFFFFFFF E29AC7B351872259 | new void | 0 2 4 | 1 0 begin 16; 1 300000 finish 16 0 - 2/2/-32768; 1 300000 begin 17; 1 600000 finish 17 - - 2/2/-32767";

/// A port that counts the turns that it is asked for, and the calls that it ends without an answer.
#[derive(Drop)]
struct CountingPort<'a, P> {
    port: P,
    turns: &'a Cell<u32>,
}

/// Counts one more.
fn count(turns: &Cell<u32>) {
    turns.set(turns.get().saturating_add(1));
}

impl<P: Port> Port for CountingPort<'_, P> {
    ghost shown = { λ p. P.shown p.port };

    ghost ready = { λ p. P.ready p.port };

    ghost leads = { λ p q. P.leads p.port q.port };

    fn turn(&mut self, moment: u64, ask: Ask) -> Result<Turn, Refused> {
        count(self.turns);
        self.port.turn(moment, ask)
    }

    fn abandon(&mut self, moment: u64, object: ObjId) {
        count(self.turns);
        self.port.abandon(moment, object);
    }

    fn room(&self) -> u64 {
        self.port.room()
    }

    ghost stays = { λ p. P.stays p.port };

    ghost goes_on = { λ p q r a b. P.goes_on p.port q.port r.port a b };
}

/// A sink that notes at each write how many turns were asked for.
#[derive(Drop)]
struct NotingSink<'a> {
    turns: &'a Cell<u32>,
    noted: Kinds,
}

impl Sink for NotingSink<'_> {
    ghost half = { λ _. untold_write 0 true };

    fn write(&mut self, piece: &[u8]) -> Result<usize, Failed> {
        let _kept = self.noted.push(self.turns.get());
        Ok(piece.len())
    }

    fn shut(&mut self) {}
}

/// A clock whose moment stands in a cell.
#[derive(Drop)]
struct CellClock<'a> {
    moment: &'a Cell<u64>,
}

impl Clock for CellClock<'_> {
    ghost given = { λ _. None };

    fn now(&mut self) -> u64 {
        self.moment.get().min(LAST_MOMENT)
    }
}

/// A worker whose invocations take their time.
#[derive(Drop)]
struct SlowWorker<'a, W> {
    worker: W,
    moment: &'a Cell<u64>,
}

impl<W: Worker> Worker for SlowWorker<'_, W> {
    ghost shown = { λ w. W.shown w.worker };

    ghost may = { W.may };

    ghost moves = { W.moves };

    fn invoke(&mut self, call: Invocation) -> Outcome {
        self.moment
            .set(self.moment.get().saturating_add(INVOCATION_MS));
        self.worker.invoke(call)
    }

    fn unreferenced(&mut self, object: ObjId) {
        self.worker.unreferenced(object);
    }
}

/// Serves a connection that sends these bytes from the moment 0 on, and looks whether so many turns were asked for at each write.
fn serve(
    rt: &impl Abort,
    alloc: Global,
    space: &mut Space,
    input: ByteList,
    worker: RecordingWorker,
    wanted: &[u32],
)
    requires calls { worker.calls ≡ 0 }
{
    let turns = Cell::new(0);
    let moment = Cell::new(0);
    let mut source = MemSource::new(input, Kinds::new(alloc), Kinds::new(alloc));
    let mut sink = NotingSink {
        turns: &turns,
        noted: Kinds::new(alloc),
    };
    let mut clock = CellClock { moment: &moment };
    let mut port = CountingPort {
        port: SpacePort::new_told(space, 1),
        turns: &turns,
    };
    let mut worker = SlowWorker {
        worker,
        moment: &moment,
    };
    let book = book(rt, alloc);
    let mut setup = setup(rt, alloc, false);
    let _end = serve_connection(
        alloc,
        &mut source,
        &mut sink,
        &mut clock,
        &mut port,
        &mut worker,
        &book,
        &mut setup,
    );
    must(rt, sink.noted.as_slice() == wanted, "turns");
}

/// Serves what a line says, and looks at the turns.
fn check_line(rt: &impl Abort, alloc: Global, line: &str) {
    let (ground, rest) = cut(line, '|');
    let (input, rest) = cut(rest, '|');
    let (outcomes, rest) = cut(rest, '|');
    let (turns, events) = cut(rest, '|');
    let mut space = space_of(rt, alloc, ground);
    let input = bytes_of(rt, alloc, "opening", input);
    let worker = RecordingWorker::new(alloc, outcomes_of(rt, alloc, outcomes));
    let wanted = numbers_of(alloc, turns).expect(rt, turns);
    serve(rt, alloc, &mut space, input, worker, wanted.as_slice());
    must(rt, are_events(rt, alloc, &space, events), line);
}

#[test]
fn a_call_is_given_up_before_its_return_is_written(rt: HostRuntime) {
    for line in GIVEN_UP.split('\n') {
        check_line(&rt, rt.alloc(), line);
    }
}

#[test]
fn a_call_ends_at_the_moment_after_its_invocation(rt: HostRuntime) {
    for line in SLOW.split('\n') {
        check_line(&rt, rt.alloc(), line);
    }
}
