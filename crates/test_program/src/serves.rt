//! Connections in memory that the program serves.
ghost use Rattle.std.specs.Prelude.{◌≤◌, length, IsTrue};
ghost use Rattle.mod_utf.specs.Utf.{utf};

use crate::hosts::{MemHost, Runs, cut_by, host_of, is_line, must, put, run_line, sink_of};
use crate::texts::{bytes_of, cut, moments_of, number_of, numbers_of};
use mod_utf::utf::{encoded_len, units_of_ascii};
use sequence::{ByteList, Kinds, Units};
use std::alloc::Global;
use std::marker::Model;
use std::process::Abort;
use wire_io::mem::{MemClock, MemSink, MemSource};
use wire_io::{Link, MemDialer, MemLinks, MemListener};

// A line is a run: the program's words; which of the output's writes fail; what each connection sends, between commas; how many connections are
// taken; the status and the line on the errors' sink; the first line of the outline, where one is printed; the line of an object that was made; and
// what each connection that was served got, between commas.

/// One connection, well or with bytes that are no message; two, of which one has a counter made and never tells that it came, beside one that is well and
/// one that is not; fewer than were to be served; and an output that fails.
const RUNS: &str = "serve 1099 1 | | opening ping | 1 | 0 | events 7 units 7 now 0 | | ack pong
serve 1099 1 open 5 6 | | opening FF | 1 | 0 | events 7 units 7 now 0 | | ack
serve 1099 2 | | opening make, opening ping | 2 | 0 | events 10 units 11 now 0 | object 19 kind 1 free running 0 awaiting 1 held 0 names 0 | ack reference first made, ack pong
serve 1099 2 | | opening FF, opening make | 2 | 0 | events 10 units 11 now 0 | object 19 kind 1 free running 0 awaiting 1 held 0 names 0 | ack, ack reference 00000007 0000000000000006 8000 made
serve 1099 1 | | opening ping, opening ping | 1 | 0 | events 7 units 7 now 0 | | ack pong
serve 1099 3 closed | | opening ping, opening ping | 2 | 3 accept fault | events 8 units 8 now 0 | | ack pong, ack pong
serve 1099 1 | 0 | opening ping | 1 | 4 write fault | | | ack pong";

/// The outline's lines of the sample's objects.
const OBJECTS: &[u8] = b"object 16 kind 0 pinned running 0 awaiting 0 held 0 names 1
object 17 kind 1 pinned running 0 awaiting 0 held 0 names 1
object 18 kind 2 pinned running 0 awaiting 0 held 0 names 1
";

/// The outline's lines of the sample's names.
const NAMES: &[u8] = b"name \"echo\" 16
name \"counter\" 17
name \"maker\" 18
";

/// Appends a line, where it isn't empty.
fn put_line(rt: &impl Abort, bytes: &mut ByteList, line: &str) {
    if !line.is_empty() {
        put(rt, bytes, line.as_bytes());
        put(rt, bytes, b"\n");
    }
}

/// Returns the printed text, by the outline's first line and the line of an object that was made.
pub(crate) fn outline_of(rt: &impl Abort, alloc: Global, first: &str, made: &str) -> ByteList {
    let mut bytes = ByteList::new(alloc);
    if !first.is_empty() {
        put_line(rt, &mut bytes, first);
        put(rt, &mut bytes, OBJECTS);
        put_line(rt, &mut bytes, made);
        put(rt, &mut bytes, NAMES);
    }
    bytes
}

/// Returns whether a host has at most 255 bytes.
fn is_short(host: &Units) -> bool
    ensures { IsTrue result → length (utf host.now) ≤ 255 }
{
    encoded_len(host) <= 255
}

/// What a connection sends, which of its reads and writes fail, and the moments of its clock.
#[derive(Clone, Copy)]
struct Sent<'a> {
    words: &'a str,
    failing_reads: &'a str,
    failing_writes: &'a str,
    moments: &'a str,
}

/// Connections of which no half failed yet.
#[derive(Drop)]
pub(crate) struct Network {
    links: MemLinks,
}

impl Model for Network {
    ghost use Rattle.std.specs.Prelude.{ℕ, length};
    ghost use Rattle.std.specs.List.{AllByRecursion};
    ghost use Rattle.wire_io.specs.Links.{IsNew};

    ghost Value = { ℕ };

    ghost view = { λ n. length n.links };

    ghost invariant = { λ n. AllByRecursion IsNew n.links };
}

impl Network {
    /// No connections.
    pub(crate) fn new(alloc: Global) -> Network {
        let links = MemLinks::new(alloc);
        Network { links }
    }

    /// Adds a connection that sends these bytes.
    pub(crate) fn add(&mut self, rt: &impl Abort, alloc: Global, words: &str) {
        self.add_failing(rt, alloc, words, "", "");
    }

    /// Adds a connection that sends these bytes, and whose clock gives these moments.
    pub(crate) fn add_at(&mut self, rt: &impl Abort, alloc: Global, words: &str, moments: &str) {
        let sent = Sent {
            words,
            failing_reads: "",
            failing_writes: "",
            moments,
        };
        self.add_sent(rt, alloc, sent);
    }

    /// Adds a connection that sends these bytes, of which the reads and the writes of these indices fail.
    pub(crate) fn add_failing(
        &mut self,
        rt: &impl Abort,
        alloc: Global,
        words: &str,
        failing_reads: &str,
        failing_writes: &str,
    ) {
        let sent = Sent {
            words,
            failing_reads,
            failing_writes,
            moments: "",
        };
        self.add_sent(rt, alloc, sent);
    }

    /// Adds a connection.
    fn add_sent(&mut self, rt: &impl Abort, alloc: Global, sent: Sent) {
        let Ok(host) = units_of_ascii(alloc, b"127.0.0.1") else {
            return must(rt, false, "memory");
        };
        if !is_short(&host) {
            return;
        }
        let added = self.links.push(Link {
            source: MemSource::new(
                bytes_of(rt, alloc, sent.words),
                Kinds::new(alloc),
                numbers_of(rt, alloc, sent.failing_reads),
            ),
            sink: MemSink::new(alloc, numbers_of(rt, alloc, sent.failing_writes)),
            clock: MemClock::new(moments_of(rt, alloc, sent.moments)),
            host,
            port: 1234,
        });
        must(rt, added.is_ok(), "memory");
    }

    /// The listener that gives these connections.
    pub(crate) fn listener(self, alloc: Global) -> MemListener {
        let Network { links } = self;
        MemListener::new(alloc, links)
    }

    /// The listener that gives these connections, none of them at the waits of these indices, and that is told to stop at the wait of the index `stop`.
    pub(crate) fn scripted_listener(
        self,
        alloc: Global,
        quiet: Kinds,
        stop: Option<u64>,
    ) -> MemListener {
        let Network { links } = self;
        MemListener::with_script(alloc, links, quiet, stop)
    }

    /// The dialer that gives these connections.
    pub(crate) fn dialer(self, alloc: Global) -> MemDialer {
        let Network { links } = self;
        MemDialer::new(alloc, links)
    }
}

/// The listener that gives the connections of a line.
fn listener_of(rt: &impl Abort, alloc: Global, inputs: &str) -> MemListener {
    let mut network = Network::new(alloc);
    for input in inputs.split(',') {
        network.add(rt, alloc, input);
    }
    network.listener(alloc)
}

/// Looks at what a host holds after a run.
fn check_after<H>(rt: &impl Abort, host: &MemHost<H>, taken: u32, told: &str, output: &[u8]) {
    must(rt, is_line(host.errors.bytes(), told), told);
    must(rt, host.output.bytes() == output, "output");
    must(
        rt,
        host.listener.accepted_count() == taken as usize,
        "accepted",
    );
    let [(address, port)] = host.listener.ports() else {
        return must(rt, false, "one port");
    };
    must(rt, address.as_slice() == b"127.0.0.1".as_slice(), "address");
    must(rt, *port == 1099, "port");
}

/// Looks whether the host tells of the connection of this index that it got these bytes.
pub(crate) fn check_one<H>(
    rt: &impl Abort,
    alloc: Global,
    host: &MemHost<H>,
    index: usize,
    got: &str,
) {
    let Some(report) = &host.served else {
        return must(rt, false, "served");
    };
    let bytes = bytes_of(rt, alloc, got);
    match report.links.get(index) {
        Some(link) => must(rt, link.sink.bytes() == bytes.as_slice(), got),
        None => must(rt, false, got),
    }
}

/// Looks whether the host tells of each connection that was served that it got these bytes, between commas.
fn check_served<H>(rt: &impl Abort, alloc: Global, host: &MemHost<H>, got: &str) {
    let Some(report) = &host.served else {
        return must(rt, false, "served");
    };
    let mut count: usize = 0;
    for wanted in got.split(',') {
        let bytes = bytes_of(rt, alloc, wanted);
        match report.links.get(count) {
            Some(link) => must(rt, link.sink.bytes() == bytes.as_slice(), wanted),
            None => must(rt, false, wanted),
        }
        count = count.saturating_add(1);
    }
    must(rt, report.links.len() == count, got);
}

/// Runs a line.
fn check_run(rt: &impl Runs, alloc: Global, line: &str) {
    let (words, rest) = cut(line, '|');
    let (failing, rest) = cut(rest, '|');
    let (inputs, rest) = cut(rest, '|');
    let (taken, rest) = cut(rest, '|');
    let (told, rest) = cut(rest, '|');
    let (first, rest) = cut(rest, '|');
    let (made, got) = cut(rest, '|');
    let (status, told) = cut(told, ' ');
    let mut host = host_of(rt, alloc, b"", cut_by("-"));
    host.output = sink_of(rt, alloc, failing);
    host.listener = listener_of(rt, alloc, inputs);
    let ended = run_line(rt, alloc, words, &mut host);
    must(rt, u32::from(ended) == number_of(rt, status), line);
    let output = outline_of(rt, alloc, first, made);
    check_after(rt, &host, number_of(rt, taken), told, output.as_slice());
    check_served(rt, alloc, &host, got);
}

#[test]
fn connections_are_served_and_the_outline_is_printed(rt: HostRuntime) {
    for line in RUNS.split('\n') {
        check_run(&rt, rt.alloc(), line);
    }
}

/// Two connections that each add 5 to one counter, and then get what it has counted.
const ADDING: &str =
    "opening add 77 08 0000000000000005 get, opening add 77 08 0000000000000005 get";

/// The last bytes that the two connections got, where two were served.
fn last_bytes<H>(host: &MemHost<H>) -> (u8, u8) {
    let Some(report) = &host.served else {
        return (0, 0);
    };
    match report.links.as_slice() {
        [one, two] => (
            one.sink.bytes().last().copied().unwrap_or(0),
            two.sink.bytes().last().copied().unwrap_or(0),
        ),
        _ => (0, 0),
    }
}

/// Serves the two connections, and looks at what each got last: the one that came second saw what the other added.
fn check_adding(rt: &impl Runs, alloc: Global) {
    let mut host = host_of(rt, alloc, b"", cut_by("-"));
    host.listener = listener_of(rt, alloc, ADDING);
    let ended = run_line(rt, alloc, "serve 1099 2", &mut host);
    must(rt, ended == 0, "ended");
    let told = last_bytes(&host);
    let is_shared = told == (5, 10) || told == (10, 5) || told == (10, 10);
    must(rt, is_shared, "one counter");
}

#[test]
fn connections_count_together(rt: HostRuntime) {
    check_adding(&rt, rt.alloc());
}
