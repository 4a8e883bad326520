//! A hand is told what a turn withdrew before its client's next byte is asked for, not at its next call or at its connection's end.
ghost use Rattle.std.specs.Prelude.{◌≡◌, ◌≤◌, IfSome};
ghost use Rattle.wire_io.specs.Mem.{sink_half};
ghost use Rattle.wire_io.specs.Wire.{AreNewHalves, untold_read};

use crate::gates::{Gated, GatedSink, GatedSource};
use crate::servers::{is_short, is_told, listener_of, plan_of};
use crate::telling::space_with_made;
use crate::texts::{bytes_of, cut, must, number_of};
use call_dispatch::{Crew, Invocation, Outcome, Worker};
use conn_server::{Report, ServePlan, Server, Stop};
use object_ids::ObjId;
use sample_app::sample_book;
use sequence::{ByteList, Kinds};
use std::alloc::{AllocError, Global};
use std::process::Abort;
use std::str;
use std::sync::atomic::{AtomicU64, Ordering};
use std::sync::{Arc, Wait};
use std::thread::Threads;
use turn_lock::TurnLock;
use wire_io::{Failed, Link, Listener, MemClock, Source, Waited};

/// The moments of the turns: of the Tick before the connection, at which the counter that was made beforehand is gone; of twelve more; and of the last
/// acknowledgement, at which the wait for two more counters has ended.
const MOMENTS: &str =
    "300000 300000 300000 300000 300000 300000 300000 300000 300000 300000 300000 300000 300000 600000";

/// The messages of a connection, each with how many objects the hand was told as gone when it was taken. A counter is made and acknowledged; one is
/// made, held, acknowledged and cleaned; and two are made, for whose acknowledgements the time is over when that of another identifier comes.
const MESSAGES: &str = "opening | 1
make | 1
acknowledge +5 first | 2
make | 2
dirty objects 0000000000000015 in_space 77 08 0000000000000001 lease client 00000004 +0 of_client | 2
acknowledge +5 0000000000000006 8001 | 2
clean objects 0000000000000015 in_space 77 08 0000000000000002 client 00000004 +0 of_client weak | 3
make make | 3
ping | 3
acknowledge +9 first | 5
ping | 5";

/// The number of objects that hands were told as gone.
type Gone = Arc<AtomicU64, Global>;

/// A hand that counts what it is told as gone, and makes a counter at each call.
#[derive(Drop)]
struct CountingHand {
    gone: Gone,
    by: u32,
    calls: u64,
}

impl Worker for CountingHand {
    ghost use Rattle.std.specs.Prelude.{None};

    ghost shown = { λ hand. record { calls = hand.calls; seen = None; state = None; number = hand.by } };

    ghost may = { λ call outcome. Unit {0} };

    ghost moves = { λ before call after. Unit {0} };

    fn invoke(&mut self, _call: Invocation) -> Outcome {
        self.calls += 1;
        Outcome::NewRemote(1)
    }

    fn unreferenced(&mut self, _object: ObjId) {
        let _before = self.gone.fetch_add(1, Ordering::SeqCst);
    }
}

/// Has hands that count together.
#[derive(Drop)]
struct Counting {
    gone: Gone,
}

impl Crew for Counting {
    type Hand = CountingHand;

    fn hand(&self, by: u32) -> Result<CountingHand, AllocError> {
        let gone = Arc::try_clone(&self.gone)?;
        Ok(CountingHand { gone, by, calls: 0 })
    }
}

/// A source that gives one byte a read, and notes at each how many objects hands were told as gone.
#[derive(Drop)]
struct NotingSource {
    source: GatedSource,
    gone: Gone,
    noted: Kinds,
    is_shut: bool,
}

impl Source for NotingSource {
    ghost use Rattle.wire_io.specs.Wire.{untold_read};

    ghost half = { λ s. untold_read 0 s.is_shut };

    fn read(&mut self, buf: &mut [u8]) -> Result<usize, Failed> {
        let told = self.gone.load(Ordering::SeqCst);
        let _put = self.noted.push(u32::try_from(told).unwrap_or(0));
        let mut byte = [0u8];
        match (self.source.read(&mut byte), buf.first_mut()) {
            (Ok(1), Some(place)) => {
                *place = byte[0];
                Ok(1)
            }
            _ => Ok(0),
        }
    }

    fn shut(&mut self) {
        self.source.shut();
        self.is_shut = true;
    }
}

/// A listener whose links' sources note how many objects hands were told as gone.
#[derive(Drop)]
struct Noting {
    links: Gated,
    alloc: Global,
    gone: Gone,
    faults: u64,
    quiets: u64,
    accepts: u64,
}

impl Noting {
    /// The next link, if there is one, and memory for it.
    fn next(&mut self) -> Option<Link<NotingSource, GatedSink, MemClock>>
        ensures halves { IfSome result (λ link. AreNewHalves (untold_read 0 link.source.is_shut) (sink_half link.sink.sink)) }
        ensures faults { self.new.faults ≡ self.old.faults }
        ensures quiets { self.new.quiets ≡ self.old.quiets }
        ensures closed { self.new.links.links.closed ≡ self.old.links.links.closed }
        ensures accepts { self.new.accepts ≡ self.old.accepts }
    {
        let gone = Arc::try_clone(&self.gone).ok()?;
        let Link {
            source,
            sink,
            clock,
            host,
            port,
        } = self.links.accept().ok()?;
        let noted = Kinds::new(self.alloc);
        Some(Link {
            source: NotingSource {
                source,
                gone,
                noted,
                is_shut: false,
            },
            sink,
            clock,
            host,
            port,
        })
    }
}

impl Listener for Noting {
    ghost use Rattle.std.specs.Prelude.{false};
    ghost use Rattle.wire_io.specs.Links.{untold_listener};

    type In = NotingSource;

    type Out = GatedSink;

    type Ticks = MemClock;

    ghost listening = { λ g. untold_listener g.faults false g.quiets g.links.links.closed g.accepts };

    fn listen(&mut self, _address: &str, _port: u16) -> Result<(), Failed> {
        Ok(())
    }

    fn accept(&mut self) -> Result<Link<NotingSource, GatedSink, MemClock>, Failed> {
        self.accepts = self.accepts.saturating_add(1);
        match self.next() {
            Some(link) => Ok(link),
            None => {
                self.faults = self.faults.saturating_add(1);
                Err(Failed)
            }
        }
    }

    fn wait(&mut self) -> Result<Waited<Link<NotingSource, GatedSink, MemClock>>, Failed> {
        match self.next() {
            Some(link) => Ok(Waited::Came(link)),
            None => {
                self.faults = self.faults.saturating_add(1);
                Err(Failed)
            }
        }
    }

    fn is_told(&mut self) -> bool {
        self.quiets = self.quiets.saturating_add(1);
        false
    }

    fn close(&mut self) {
        self.links.close();
    }
}

/// A report of all links.
type Noted = Report<NotingSource, GatedSink, MemClock, CountingHand>;

/// The line of the connection, as those of `rows`.
fn line_of(rt: &impl Abort, alloc: Global) -> ByteList {
    let mut line = ByteList::new(alloc);
    for piece in ["0 | 1234 | ", MOMENTS, " | | "] {
        must(rt, line.append(piece.as_bytes()).is_ok(), "memory");
    }
    for message in MESSAGES.split('\n') {
        let (words, _told) = cut(message, '|');
        must(rt, line.append(words.as_bytes()).is_ok(), "memory");
        must(rt, line.push(b' ').is_ok(), "memory");
    }
    line
}

/// The listener of that connection; None where there is no memory.
fn noting_of(rt: &impl Abort, alloc: Global, gone: &Gone) -> Option<Noting> {
    let line = line_of(rt, alloc);
    let links = listener_of(rt, alloc, str::from_utf8(line.as_slice()).ok()?)?;
    let gone = Arc::try_clone(gone).ok()?;
    Some(Noting {
        links,
        alloc,
        gone,
        faults: 0,
        quiets: 0,
        accepts: 0,
    })
}

/// Serves the connection with a hand that counts, after a counter was made; None where there is no memory.
fn serve_noted<R: Threads + Wait + Sync>(
    rt: &R,
    alloc: Global,
    listener: &mut Noting,
    crew: &Counting,
    plan: &ServePlan,
) -> Option<Noted>
    requires few { plan.now.count ≤ 65535 }
{
    if !is_short(&plan.host) {
        return None;
    }
    let book = sample_book(alloc).ok()?;
    match TurnLock::around(alloc, space_with_made(alloc)?) {
        Ok((lock, root)) => {
            let server = Server {
                rt,
                alloc,
                crew,
                book: &book,
            };
            Some(server.serve(listener, lock, root, plan))
        }
        Err(_space) => None,
    }
}

/// Serves the connection; None where there is no memory.
fn noted<R: Threads + Wait + Abort + Sync>(rt: &R, alloc: Global) -> Option<Noted> {
    let gone = Arc::new(alloc, AtomicU64::new(0)).ok()?;
    let mut listener = noting_of(rt, alloc, &gone)?;
    let plan = plan_of(rt, alloc, 1, 1099);
    serve_noted(rt, alloc, &mut listener, &Counting { gone }, &plan)
}

/// Appends a number so many times.
fn put_due(rt: &impl Abort, due: &mut Kinds, count: usize, told: u32) {
    for _ in 0..count {
        must(rt, due.push(told).is_ok(), "memory");
    }
}

/// Returns the numbers of objects that the hand must have been told as gone: one when each byte is asked for, and one when the end is.
fn due_of(rt: &impl Abort, alloc: Global) -> Kinds {
    let mut due = Kinds::new(alloc);
    let mut told = 1;
    for message in MESSAGES.split('\n') {
        let (words, after) = cut(message, '|');
        put_due(rt, &mut due, bytes_of(rt, alloc, words, 1).len(), told);
        told = number_of(rt, after);
    }
    put_due(rt, &mut due, 1, told);
    due
}

#[test]
fn a_hand_is_told_before_the_next_byte_is_asked_for(rt: HostRuntime) {
    match noted(&rt, rt.alloc()) {
        Some(report) => match report.links.as_slice() {
            [link] => {
                let due = due_of(&rt, rt.alloc());
                must(&rt, is_told(rt.alloc(), link.end, "Ended"), "ended");
                must(&rt, link.source.noted.as_slice() == due.as_slice(), "told");
                must(&rt, report.stop == Stop::All, "stop");
            }
            _ => must(&rt, false, "one link"),
        },
        None => must(&rt, false, "memory"),
    }
}
