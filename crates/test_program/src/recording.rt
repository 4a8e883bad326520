//! Connections in memory that `host` serves, and the journal that it prints meanwhile.
use crate::hosting::{have_same_lines, lines_of, listener_of};
use crate::hosts::{MemHost, Runs, cut_by, host_of, must, run_line, sink_of};
use crate::serves::{Network, outline_of};
use crate::texts::{cut, number_of, numbers_of};
use sample_app::SampleHand;
use sequence::{ByteList, Kinds};
use std::alloc::Global;
use std::process::Abort;

/// The words of a host that prints a journal.
const JOURNAL: &str = "host 0.0.0.0 h 1099 closed 600000 300000 journal";

/// The journal of the space as it is opened.
const OPENING: &str = "space 600000 300000 7 9
0 0 open 0 pinned
0 0 open 1 pinned
0 0 open 2 pinned
0 0 bind \"echo\" 16
0 0 bind \"counter\" 17
0 0 bind \"maker\" 18
";

// A line is a run of one connection, or of none: what it sends, or `-`; the first line of what stands, and the line of an object that was made; and the
// lines of the journal behind the opening's, between commas.

/// No connection; one without a call; one that calls; and one that has a counter made, which it never tells that it came.
const RUNS: &str = "- | events 6 units 6 now 0 | |
opening ping | events 7 units 7 now 0 | | 0 0 tick
opening get | events 9 units 9 now 0 | | 0 0 tick, 1 0 begin 17, 1 0 finish 17 - - 6/6/-32768
opening make | events 9 units 10 now 0 | object 19 kind 1 free running 0 awaiting 1 held 0 names 0 | 0 0 tick, 1 0 begin 18, 1 0 finish 18 1 - 6/6/-32768";

/// Runs the program with these words over a host that serves this connection, or none.
fn run_host<'t, R: Runs>(
    rt: &'t R,
    alloc: Global,
    words: &str,
    input: &str,
    host: &mut MemHost<SampleHand<'t, R>>,
) -> u8 {
    let stop = if input == "-" { "0" } else { "1" };
    host.listener = listener_of(rt, alloc, "", stop, input);
    run_line(rt, alloc, words, host)
}

/// Looks whether a journal is the opening's and these lines, between commas.
fn check_journal(rt: &impl Abort, alloc: Global, journal: &[u8], lines: &str) {
    let mut text = String::new(alloc);
    must(rt, text.push_str(OPENING).is_ok(), "memory");
    if !lines.is_empty() {
        for line in lines.split(", ") {
            must(rt, text.push_str(line).is_ok(), "memory");
            must(rt, text.push_str("\n").is_ok(), "memory");
        }
    }
    must(rt, journal == text.as_bytes(), "journal");
}

/// Replays a journal, and looks at the outline of its history.
fn check_replay(rt: &impl Runs, alloc: Global, journal: &[u8], outline: &[u8]) {
    let mut host = host_of(rt, alloc, journal, cut_by("-"));
    must(
        rt,
        run_line(rt, alloc, "replay", &mut host) == 0,
        "replayed",
    );
    must(rt, host.output.bytes() == outline, "outline");
}

/// Runs a line, with a journal and without.
fn check_run(rt: &impl Runs, alloc: Global, line: &str) {
    let (input, rest) = cut(line, '|');
    let (first, rest) = cut(rest, '|');
    let (made, lines) = cut(rest, '|');
    let outline = outline_of(rt, alloc, first, made);
    let mut silent = host_of(rt, alloc, b"", cut_by("-"));
    let ended = run_host(rt, alloc, "host 0.0.0.0 h 1099", input, &mut silent);
    must(rt, ended == 0, line);
    must(rt, silent.output.bytes() == outline.as_slice(), "standing");
    let mut host = host_of(rt, alloc, b"", cut_by("-"));
    let ended = run_host(rt, alloc, JOURNAL, input, &mut host);
    must(rt, ended == 0, line);
    check_journal(rt, alloc, host.output.bytes(), lines);
    check_replay(rt, alloc, host.output.bytes(), outline.as_slice());
}

#[test]
fn a_journal_replays_to_what_stands(rt: HostRuntime) {
    for line in RUNS.split('\n') {
        check_run(&rt, rt.alloc(), line);
    }
}

/// Runs a host whose output fails at a write, and looks at what it wrote before.
fn check_output_fails(rt: &impl Runs, alloc: Global, write: &str, wrote: &str) {
    let mut host = host_of(rt, alloc, b"", cut_by("-"));
    host.output = sink_of(rt, alloc, write);
    let ended = run_host(rt, alloc, JOURNAL, "opening get", &mut host);
    must(rt, ended == 4, "the output failed");
    must(rt, host.output.bytes() == wrote.as_bytes(), "a beginning");
    let lines = lines_of(rt, alloc, "ended calls 1", "write fault");
    must(rt, host.errors.bytes() == lines.as_slice(), "lines");
}

#[test]
fn a_journal_ends_at_the_first_write_that_fails(rt: HostRuntime) {
    check_output_fails(&rt, rt.alloc(), "0", "");
    check_output_fails(&rt, rt.alloc(), "1", OPENING);
}

/// Runs a host whose errors' sink fails at a write, and looks at what it wrote before.
fn check_errors_fail(rt: &impl Runs, alloc: Global, write: &str, wrote: &str) {
    let mut host = host_of(rt, alloc, b"", cut_by("-"));
    host.errors = sink_of(rt, alloc, write);
    let ended = run_host(rt, alloc, "host 0.0.0.0 h 1099", "opening get", &mut host);
    must(rt, ended == 0, "all the same");
    must(rt, host.errors.bytes() == wrote.as_bytes(), "a beginning");
}

#[test]
fn lines_end_at_the_first_write_that_fails(rt: HostRuntime) {
    check_errors_fail(&rt, rt.alloc(), "0", "");
    check_errors_fail(&rt, rt.alloc(), "1", "listening 0.0.0.0 1099\n");
}

/// Runs a host with one connection whose clock gives these moments, and looks at its line.
fn check_moments(rt: &impl Runs, alloc: Global, moments: &str, wanted: &str) {
    let mut network = Network::new(alloc);
    network.add_at(rt, alloc, "opening get", moments);
    let mut host = host_of(rt, alloc, b"", cut_by("-"));
    host.listener = network.scripted_listener(alloc, Kinds::new(alloc), Some(1));
    let ended = run_line(rt, alloc, "host 0.0.0.0 h 1099", &mut host);
    must(rt, ended == 0, moments);
    must(rt, host.errors.bytes() == wanted.as_bytes(), wanted);
}

#[test]
fn a_link_takes_the_time_of_its_own_clock(rt: HostRuntime) {
    let alloc = rt.alloc();
    check_moments(
        &rt,
        alloc,
        "100 200 300 450",
        "listening 0.0.0.0 1099\nlink 1 127.0.0.1 1234 ended calls 1 ms 350\n",
    );
    check_moments(
        &rt,
        alloc,
        "100 200 300 40",
        "listening 0.0.0.0 1099\nlink 1 127.0.0.1 1234 ended calls 1 ms 0\n",
    );
}

#[test]
fn each_link_takes_its_own_time(rt: HostRuntime) {
    let alloc = rt.alloc();
    let mut network = Network::new(alloc);
    network.add_at(&rt, alloc, "opening get", "100 200 300 450");
    network.add_at(&rt, alloc, "opening get", "1000 1100 1200 1210");
    let mut host = host_of(&rt, alloc, b"", cut_by("-"));
    host.listener = network.scripted_listener(alloc, Kinds::new(alloc), Some(2));
    let ended = run_line(&rt, alloc, "host 0.0.0.0 h 1099", &mut host);
    must(&rt, ended == 0, "two links");
    let wanted = b"listening 0.0.0.0 1099
link 1 127.0.0.1 1234 ended calls 1 ms 350
link 2 127.0.0.1 1234 ended calls 1 ms 210
";
    must(
        &rt,
        have_same_lines(host.errors.bytes(), wanted.as_slice()),
        "the links' lines",
    );
}
