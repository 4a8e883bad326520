//! The task that a connection's thread is given, and the result that it gives back.
ghost use Rattle.std.specs.Prelude.{◌≡◌};
ghost use Rattle.wire_io.specs.Wire.{ShutsRead, ShutsWrite};
ghost use Rattle.conn_server.specs.Serves.{IsLinkTask, Serves};
ghost use Rattle.conn_server.specs.Talks.{TalksOver, TellsOf};

use crate::link_entries::LinkEntries;
use call_dispatch::{Book, ConnEnd, Setup, Worker, serve_connection};
use sequence::Units;
use space::Asked;
use std::alloc::Global;
use std::snapshot::Snapshot;
use std::sync::Wait;
use std::thread::Promise;
use turn_lock::{Pass, PassPort, SeatPort, TurnLock};
use wire_io::{Clock, Link, Sink, Source};

/// The peer of a link.
#[derive(Drop)]
pub struct Peer {
    /// Its host.
    pub host: Units,
    /// Its port.
    pub port: i32,
}

/// A link that was admitted: its halves and its clock, its hand, and what its connection is told beforehand.
#[derive(Drop)]
pub struct AdmittedLink<I, O, T, H> {
    pub source: I,
    pub sink: O,
    pub clock: T,
    /// The peer, as the link was accepted with it.
    pub peer: Peer,
    pub setup: Setup,
    pub hand: H,
    /// The link as it was accepted.
    pub first: Snapshot<Link<I, O, T>>,
    /// The entry of the server's own turn before the link.
    pub tick: Snapshot<Asked>,
}

/// A link that is to be served as connection `by`, with the pass of its turns.
#[derive(Drop)]
pub struct LinkTask<I, O, T, H> {
    pub by: u32,
    pub pass: Pass,
    /// True where the report is to have the entries of its turns at run time, too.
    pub keeps: bool,
    pub admitted: AdmittedLink<I, O, T, H>,
}

/// A report of a connection that was served.
#[derive(Drop)]
pub struct LinkReport<I, O, T, H> {
    /// Its number, from 1 in the order of accepting.
    pub by: u32,
    /// The peer's host, as the link was accepted with it.
    pub peer_host: Units,
    /// The peer's port, likewise.
    pub peer_port: i32,
    /// The number of calls that it began, where a word of 64 bits holds it.
    pub calls: u64,
    /// The way in which it ended.
    pub end: ConnEnd,
    /// Its source, with what was not taken.
    pub source: I,
    /// Its sink.
    pub sink: O,
    /// Its clock.
    pub clock: T,
    /// The entries of its turns, in their order.
    pub asked: LinkEntries,
    /// Its hand.
    pub hand: H,
}

/// A connection that was served, with the pass of its turns.
#[derive(Drop)]
pub struct LinkDone<I, O, T, H> {
    pub pass: Pass,
    pub report: LinkReport<I, O, T, H>,
}

/// The promise of a connection's thread: it serves this task at this lock, with this book.
#[derive(Drop)]
pub struct TaskPromise<I, O, T, H> {
    pub lock: Snapshot<TurnLock>,
    pub book: Snapshot<Book>,
    /// What is known of the task, so that the promise can be made again.
    pub task: Snapshot<Snapshot<LinkTask<I, O, T, H>>>,
}

impl<I: Source, O: Sink, T: Clock, H: Worker> Promise<LinkDone<I, O, T, H>>
    for TaskPromise<I, O, T, H> {
    ghost kept_by = { λ p r. Serves
        (TalksOver I.half O.half T.given H.shown H.may H.moves p.book.value)
        p.lock.value p.task.value.value r };
}

/// The report of a link whose connection ended so, with these entries of its turns. Both its halves are shut.
fn report_of<I: Source, O: Sink, T: Clock, H: Worker>(
    by: u32,
    end: ConnEnd,
    link: AdmittedLink<I, O, T, H>,
    asked: LinkEntries,
) -> LinkReport<I, O, T, H>
    ensures by { result.by ≡ by }
    ensures end { result.end ≡ end }
    ensures source { ShutsRead (I.half link.source) (I.half result.source) }
    ensures sink { ShutsWrite (O.half link.sink) (O.half result.sink) }
    ensures clock { result.clock ≡ link.clock }
    ensures hand { result.hand ≡ link.hand }
    ensures asked { result.asked ≡ asked }
    ensures tells { TellsOf link result }
{
    let AdmittedLink {
        mut source,
        mut sink,
        clock,
        peer,
        setup: _setup,
        hand,
        first: _first,
        tick: _tick,
    } = link;
    let Peer {
        host: peer_host,
        port: peer_port,
    } = peer;
    source.shut();
    sink.shut();
    LinkReport {
        by,
        peer_host,
        peer_port,
        calls: asked.calls(),
        end,
        source,
        sink,
        clock,
        asked,
        hand,
    }
}

/// Serves a link to its connection's end, and shuts both its halves. The entries of its turns are kept.
fn serve_keeping<R: Wait, I: Source, O: Sink, T: Clock, H: Worker>(
    rt: &R,
    alloc: Global,
    lock: &TurnLock,
    book: &Book,
    task: LinkTask<I, O, T, H>,
) -> LinkDone<I, O, T, H>
    requires { IsLinkTask H.shown lock.now task }
    ensures { Serves
        (TalksOver I.half O.half T.given H.shown H.may H.moves book.now)
        lock.now task result }
{
    let LinkTask {
        by,
        mut pass,
        keeps: _,
        admitted: mut link,
    } = task;
    let mut port = SeatPort::new(rt, alloc, lock, &mut pass);
    let end = serve_connection(
        alloc,
        &mut link.source,
        &mut link.sink,
        &mut link.clock,
        &mut port,
        &mut link.hand,
        book,
        &mut link.setup,
    );
    let asked = LinkEntries::of_kept(port.into_asked());
    let report = report_of(by, end, link, asked);
    LinkDone { pass, report }
}

/// Serves a link as `serve_keeping` does. The entries of its turns exist in proofs alone.
fn serve_telling<R: Wait, I: Source, O: Sink, T: Clock, H: Worker>(
    rt: &R,
    alloc: Global,
    lock: &TurnLock,
    book: &Book,
    task: LinkTask<I, O, T, H>,
) -> LinkDone<I, O, T, H>
    requires { IsLinkTask H.shown lock.now task }
    ensures { Serves
        (TalksOver I.half O.half T.given H.shown H.may H.moves book.now)
        lock.now task result }
{
    let LinkTask {
        by,
        mut pass,
        keeps: _,
        admitted: mut link,
    } = task;
    let mut port = PassPort::new_told(rt, lock, &mut pass);
    let end = serve_connection(
        alloc,
        &mut link.source,
        &mut link.sink,
        &mut link.clock,
        &mut port,
        &mut link.hand,
        book,
        &mut link.setup,
    );
    let asked = LinkEntries::of_told(port.into_told());
    let report = report_of(by, end, link, asked);
    LinkDone { pass, report }
}

/// Serves a link to its connection's end, and shuts both its halves.
pub fn serve_task<R: Wait, I: Source, O: Sink, T: Clock, H: Worker>(
    rt: &R,
    alloc: Global,
    lock: &TurnLock,
    book: &Book,
    task: LinkTask<I, O, T, H>,
) -> LinkDone<I, O, T, H>
    requires { IsLinkTask H.shown lock.now task }
    ensures { Serves
        (TalksOver I.half O.half T.given H.shown H.may H.moves book.now)
        lock.now task result }
{
    if task.keeps {
        serve_keeping(rt, alloc, lock, book, task)
    } else {
        serve_telling(rt, alloc, lock, book, task)
    }
}
