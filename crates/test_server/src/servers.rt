//! The sample served over links in memory, and what is looked at afterwards.
ghost use Rattle.std.specs.Prelude.{◌≡◌, ◌≤◌, length, IsTrue};
ghost use Rattle.mod_utf.specs.Utf.{utf};

use crate::gates::{Gated, GatedSink, GatedSource};
use crate::texts::{bytes_of, cut, moments_of, must, number_of, this_host};
use call_dispatch::{ConnEnd, Crew};
use conn_server::{LinkReport, Report, ServePlan, Server, Stop};
use mod_utf::utf::encoded_len;
use sample_app::{SampleCrew, SampleHand, sample_book, sample_space};
use sequence::{Kinds, Units};
use space::Space;
use std::alloc::Global;
use std::marker::Model;
use std::process::Abort;
use std::sync::Wait;
use std::thread::Threads;
pub(crate) use test_support::spaces::{CONFIG, SPACE};
use turn_lock::TurnLock;
use wire_io::{Link, MemClock, MemLinks, MemListener, MemSink, MemSource};

/// A report of one link.
pub(crate) type LinkOf<'t, R> = LinkReport<GatedSource, GatedSink, MemClock, SampleHand<'t, R>>;

/// A report of all links.
pub(crate) type ReportOf<'t, R> = Report<GatedSource, GatedSink, MemClock, SampleHand<'t, R>>;

/// Returns whether a host has at most 255 bytes.
pub(crate) fn is_short(host: &Units) -> bool
    ensures { IsTrue result → length (utf host.now) ≤ 255 }
{
    encoded_len(host) <= 255
}

/// Links, of which no half failed yet; for how many others each of them waits; and which calls of the listener for a link fail.
#[derive(Drop)]
pub(crate) struct Cases {
    links: MemLinks,
    wanted: Kinds,
    failing: Kinds,
}

impl Model for Cases {
    ghost use Rattle.std.specs.Prelude.{ℕ, List};
    ghost use Rattle.std.specs.List.{AllByRecursion};
    ghost use Rattle.wire_io.specs.Links.{IsNew};

    ghost Value = { List ℕ };

    ghost view = { λ c. c.wanted };

    ghost invariant = { λ c. AllByRecursion IsNew c.links };
}

impl Cases {
    /// No links.
    pub(crate) fn new(alloc: Global) -> Cases {
        Cases {
            links: MemLinks::new(alloc),
            wanted: Kinds::new(alloc),
            failing: Kinds::new(alloc),
        }
    }

    /// Adds a call for a link that fails, before the next link.
    fn add_failed(&mut self, rt: &impl Abort) {
        let calls = self.links.len().wrapping_add(self.failing.len());
        let noted = self.failing.push(u32::try_from(calls).unwrap_or(0));
        must(rt, noted.is_ok(), "memory");
    }

    /// Adds so many calls for a link that fail.
    fn add_all_failed(&mut self, rt: &impl Abort, count: u32) {
        for _ in 0..count {
            self.add_failed(rt);
        }
    }

    /// Adds the link that a line tells: for how many others it waits, the peer's port, the moments of its clock, which of its reads or writes fails,
    /// and the words of its input.
    pub(crate) fn add(&mut self, rt: &impl Abort, alloc: Global, line: &str) {
        let (wanted, rest) = cut(line, '|');
        let (port, rest) = cut(rest, '|');
        let (moments, rest) = cut(rest, '|');
        let (fault, rest) = cut(rest, '|');
        let (input, _told) = cut(rest, '|');
        let by = u32::try_from(self.links.len()).unwrap_or(0).wrapping_add(1);
        let host = this_host(rt, alloc);
        if !is_short(&host) {
            return;
        }
        let bytes = bytes_of(rt, alloc, input, by);
        let added = self.links.push(Link {
            source: MemSource::new(
                bytes,
                Kinds::new(alloc),
                failing_of(rt, alloc, fault, "read "),
            ),
            sink: MemSink::new(alloc, failing_of(rt, alloc, fault, "write ")),
            clock: MemClock::new(moments_of(rt, alloc, moments)),
            host,
            port: number_of(rt, port).cast_signed(),
        });
        must(rt, added.is_ok(), "memory");
        let noted = self.wanted.push(number_of(rt, wanted));
        must(rt, noted.is_ok(), "memory");
    }

    /// The listener of these links, whose waits of the indices `quiet` give no link, and which is told to stop at the wait of the index `stop`; None where
    /// there is no memory.
    pub(crate) fn hosted(self, alloc: Global, quiet: Kinds, stop: u64) -> Option<Gated> {
        let Cases {
            links,
            wanted,
            failing,
        } = self;
        let listener = MemListener::with_script(alloc, links, quiet, Some(stop));
        Gated::new(alloc, listener, wanted, failing)
    }

    /// The listener of these links; None where there is no memory.
    pub(crate) fn listener(self, alloc: Global) -> Option<Gated> {
        let Cases {
            links,
            wanted,
            failing,
        } = self;
        Gated::new(alloc, MemListener::new(alloc, links), wanted, failing)
    }
}

/// The one read or write that fails, where a line tells one of this kind.
fn failing_of(rt: &impl Abort, alloc: Global, fault: &str, kind: &str) -> Kinds {
    let mut failing = Kinds::new(alloc);
    if let Some(index) = fault.strip_prefix(kind) {
        must(rt, failing.push(number_of(rt, index)).is_ok(), "memory");
    }
    failing
}

/// The listener of the links that lines tell. The line `-` is a call for a link that fails, and `- N` are so many.
pub(crate) fn listener_of(rt: &impl Abort, alloc: Global, lines: &str) -> Option<Gated> {
    let mut cases = Cases::new(alloc);
    for line in lines.split('\n') {
        if line == "-" {
            cases.add_failed(rt);
        } else if let Some(count) = line.strip_prefix("- ") {
            cases.add_all_failed(rt, number_of(rt, count));
        } else {
            cases.add(rt, alloc, line);
        }
    }
    cases.listener(alloc)
}

/// Serves these links with a crew over a space, whose names may be bound; None where there is no memory.
pub(crate) fn serve_over<R: Threads + Wait + Sync, G: Crew>(
    rt: &R,
    alloc: Global,
    listener: &mut Gated,
    crew: &G,
    space: Space,
    plan: &ServePlan,
) -> Option<Report<GatedSource, GatedSink, MemClock, G::Hand>>
    requires few { plan.now.count ≤ 65535 }
{
    if !is_short(&plan.host) {
        return None;
    }
    let book = sample_book(alloc).ok()?;
    match TurnLock::around(alloc, space) {
        Ok((lock, root)) => {
            let server = Server {
                rt,
                alloc,
                crew,
                book: &book,
            };
            Some(server.serve(listener, lock, root, plan))
        }
        Err(_space) => None,
    }
}

/// Serves these links with the sample; None where there is no memory.
pub(crate) fn serve_links<'t, R: Threads + Wait + Sync>(
    rt: &'t R,
    alloc: Global,
    listener: &mut Gated,
    plan: &ServePlan,
) -> Option<ReportOf<'t, R>>
    requires few { plan.now.count ≤ 65535 }
{
    let crew = SampleCrew::new(rt, alloc).ok()?;
    let space = sample_space(alloc, &CONFIG).ok()?;
    serve_over(rt, alloc, listener, &crew, space, plan)
}

/// Returns the plan of a server, with the number of links that it serves and its port.
pub(crate) fn plan_of(rt: &impl Abort, alloc: Global, count: u32, port: i32) -> ServePlan
    ensures { result.count ≡ count }
{
    ServePlan {
        count,
        host: this_host(rt, alloc),
        port,
        binding: true,
        seed: [5, 6, 7, 9],
    }
}

/// Returns whether a connection ended as this text says.
pub(crate) fn is_told(alloc: Global, end: ConnEnd, text: &str) -> bool {
    match format!(in alloc; "{end:?}") {
        Ok(told) => told.as_str() == text,
        Err(_) => false,
    }
}

/// Returns whether these bytes were written. Where the words end with `?`, the last byte may be any.
fn is_written(held: &[u8], wanted: &[u8], is_open: bool) -> bool {
    if is_open {
        match held.split_last() {
            Some((_last, front)) => front == wanted,
            None => false,
        }
    } else {
        held == wanted
    }
}

/// Looks at what was written to a link and how its connection ended, of which a line tells after the input.
fn check_link<H>(
    rt: &impl Abort,
    alloc: Global,
    link: &LinkReport<GatedSource, GatedSink, MemClock, H>,
    line: &str,
) {
    let (_wanted, rest) = cut(line, '|');
    let (_port, rest) = cut(rest, '|');
    let (_moments, rest) = cut(rest, '|');
    let (_fault, rest) = cut(rest, '|');
    let (_input, rest) = cut(rest, '|');
    let (output, end) = cut(rest, '|');
    let words = output.strip_suffix(" ?").unwrap_or(output);
    let wanted = bytes_of(rt, alloc, words, link.by);
    let is_open = words.len() < output.len();
    must(
        rt,
        is_written(link.sink.bytes(), wanted.as_slice(), is_open),
        line,
    );
    must(rt, is_told(alloc, link.end, end), line);
}

/// The lines before the first one that tells of many calls for a link that fail, behind which no link is served.
fn served_lines(lines: &str) -> &str {
    match lines.split_once("\n- ") {
        Some((front, _left)) => front,
        None => lines,
    }
}

/// Looks at the links that lines tell, in the order of accepting.
pub(crate) fn check_all<H>(
    rt: &impl Abort,
    alloc: Global,
    links: &[LinkReport<GatedSource, GatedSink, MemClock, H>],
    lines: &str,
) {
    let mut place = 0usize;
    for line in served_lines(lines).split('\n') {
        if line != "-" {
            match links.get(place) {
                Some(link) => check_link(rt, alloc, link, line),
                None => must(rt, false, line),
            }
            place = place.wrapping_add(1);
        }
    }
    must(rt, place == links.len(), "as many links");
}

/// Serves the links that lines tell, as a server at this port that is to serve so many, and looks at what each got, how each ended, and how the
/// accepting stopped. None where there is no memory.
pub(crate) fn served<'t, R: Threads + Wait + Abort + Sync>(
    rt: &'t R,
    alloc: Global,
    count: u32,
    port: i32,
    stop: Stop,
    lines: &str,
) -> Option<ReportOf<'t, R>>
    requires few { count ≤ 65535 }
{
    let mut listener = listener_of(rt, alloc, lines)?;
    let plan = plan_of(rt, alloc, count, port);
    let report = serve_links(rt, alloc, &mut listener, &plan)?;
    check_all(rt, alloc, report.links.as_slice(), lines);
    must(rt, report.stop == stop, "stop");
    must(rt, report.ticks.len() == report.links.len(), "a tick each");
    Some(report)
}
