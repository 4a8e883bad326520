//! Connections in memory that `host` serves until it is told to stop.
use crate::hosts::{MemHost, Runs, cut_by, host_of, must, put, run_line, sink_of};
use crate::serves::{Network, outline_of};
use crate::texts::{cut, number_of, numbers_of};
use sequence::ByteList;
use std::alloc::Global;
use std::process::Abort;
use wire_io::MemListener;

// A line is a run: the program's words; which of the output's writes fail; which waits give no connection; the wait at which the listener is told to
// stop, or `-`; what each connection sends, between commas; how many connections are taken; the status and the end's line on the errors' sink; the
// first line of what stands, where that is printed; the line of an object that was made; and the ends and the calls of the connections, between commas.

/// Told to stop at once; after a connection; after two seconds without one; after two connections, of which one has a counter made and never tells that
/// it came; never, where the network fails; and an output that fails.
const RUNS: &str = "host 0.0.0.0 h 1099 | | | 0 | - | 0 | 0 | events 6 units 6 now 0 | |
host 0.0.0.0 h 1099 | | | 1 | opening ping | 1 | 0 | events 7 units 7 now 0 | | ended calls 0
host 0.0.0.0 h 1099 open 5 6 | | | 1 | opening FF | 1 | 0 | events 7 units 7 now 0 | | bad message ff at 13 calls 0
host 0.0.0.0 h 1099 open 5 6 silent | | | 1 | opening FF | 1 | 0 | events 7 units 7 now 0 | | bad message ff at 13 calls 0
host 0.0.0.0 h 1099 | | | 1 | opening get get | 1 | 0 | events 11 units 11 now 0 | | ended calls 2
host 0.0.0.0 h 1099 | | 0 1 | 2 | opening ping | 0 | 0 | events 6 units 6 now 0 | |
host 0.0.0.0 h 1099 | | 1 | 3 | opening ping, opening ping | 2 | 0 | events 8 units 8 now 0 | | ended calls 0, ended calls 0
host 0.0.0.0 h 1099 | | | 2 | opening make, opening ping | 2 | 0 | events 10 units 11 now 0 | object 19 kind 1 free running 0 awaiting 1 held 0 names 0 | ended calls 1, ended calls 0
host 0.0.0.0 h 1099 | | | - | opening ping | 1 | 3 accept fault | events 7 units 7 now 0 | | ended calls 0
host 0.0.0.0 h 1099 | 0 | | 0 | - | 0 | 4 write fault | | |";

/// The first line on the errors' sink.
const FIRST: &[u8] = b"listening 0.0.0.0 1099\n";

/// The listener of a line.
pub(crate) fn listener_of(
    rt: &impl Abort,
    alloc: Global,
    quiet: &str,
    stop: &str,
    inputs: &str,
) -> MemListener {
    let mut network = Network::new(alloc);
    if inputs != "-" {
        for input in inputs.split(',') {
            network.add(rt, alloc, input);
        }
    }
    let stop = if stop == "-" {
        None
    } else {
        Some(u64::from(number_of(rt, stop)))
    };
    network.scripted_listener(alloc, numbers_of(rt, alloc, quiet), stop)
}

/// Returns the lines on the errors' sink after a run, by the ends and the calls of its connections.
pub(crate) fn lines_of(rt: &impl Abort, alloc: Global, links: &str, told: &str) -> ByteList {
    let mut lines = ByteList::new(alloc);
    put(rt, &mut lines, FIRST);
    let mut number: u32 = 0;
    if !links.is_empty() {
        for link in links.split(',') {
            number = number.saturating_add(1);
            let link = link.trim();
            let line = format!(in alloc; "link {number} 127.0.0.1 1234 {link} ms 0\n");
            put(rt, &mut lines, line.expect(rt, "memory").as_bytes());
        }
    }
    put(rt, &mut lines, last_line(rt, alloc, told).as_slice());
    lines
}

/// Returns the line that tells the end, or nothing where none does.
fn last_line(rt: &impl Abort, alloc: Global, told: &str) -> ByteList {
    let mut line = ByteList::new(alloc);
    if !told.is_empty() {
        put(rt, &mut line, told.as_bytes());
        put(rt, &mut line, b"\n");
    }
    line
}

/// Returns whether two texts have the same lines, which may stand in another order.
pub(crate) fn have_same_lines(one: &[u8], other: &[u8]) -> bool {
    let has = |lines: &[u8], line: &[u8]| lines.split(|b| *b == b'\n').any(|l| l == line);
    one.len() == other.len()
        && one.split(|b| *b == b'\n').all(|line| has(other, line))
        && other.split(|b| *b == b'\n').all(|line| has(one, line))
}

/// Returns whether these are the lines of a run. Those of links stand behind the first line and before the last one. They stand in the order in which
/// the links ended, which may be any, since each link has a thread.
fn are_lines(lines: &[u8], wanted: &[u8], last: &[u8]) -> bool {
    lines.starts_with(FIRST) && lines.ends_with(last) && have_same_lines(lines, wanted)
}

/// Looks at what a host holds after a run.
fn check_after<H>(rt: &impl Abort, host: &MemHost<H>, taken: u32, output: &[u8]) {
    must(rt, host.output.bytes() == output, "output");
    must(
        rt,
        host.listener.accepted_count() == taken as usize,
        "accepted",
    );
    must(rt, host.served.is_none(), "no reports");
    let [(address, port)] = host.listener.ports() else {
        return must(rt, false, "one port");
    };
    must(rt, address.as_slice() == b"0.0.0.0".as_slice(), "address");
    must(rt, *port == 1099, "port");
}

/// Runs a line.
fn check_run(rt: &impl Runs, alloc: Global, line: &str) {
    let (words, rest) = cut(line, '|');
    let (failing, rest) = cut(rest, '|');
    let (quiet, rest) = cut(rest, '|');
    let (stop, rest) = cut(rest, '|');
    let (inputs, rest) = cut(rest, '|');
    let (taken, rest) = cut(rest, '|');
    let (told, rest) = cut(rest, '|');
    let (first, rest) = cut(rest, '|');
    let (made, links) = cut(rest, '|');
    let (status, told) = cut(told, ' ');
    let mut host = host_of(rt, alloc, b"left", cut_by("-"));
    host.output = sink_of(rt, alloc, failing);
    host.listener = listener_of(rt, alloc, quiet, stop, inputs);
    let ended = run_line(rt, alloc, words, &mut host);
    must(rt, u32::from(ended) == number_of(rt, status), line);
    must(
        rt,
        host.input.rest() == b"left".as_slice(),
        "nothing is read",
    );
    let lines = lines_of(rt, alloc, links, told);
    let last = last_line(rt, alloc, told);
    let are = are_lines(host.errors.bytes(), lines.as_slice(), last.as_slice());
    must(rt, are, line);
    let output = outline_of(rt, alloc, first, made);
    check_after(rt, &host, number_of(rt, taken), output.as_slice());
}

#[test]
fn host_serves_until_it_is_told_to_stop(rt: HostRuntime) {
    for line in RUNS.split('\n') {
        check_run(&rt, rt.alloc(), line);
    }
}
