//! The hosts on which the tests run the program. A test stops where there is no memory: no helper answers an error, and none has an early
//! end.
use crate::texts::{bytes_of, cut, moments_of, number_of, numbers_of};
use rmi_cli::{Host, Words, run};
use sample_app::SampleHand;
use sequence::{ByteList, Kinds};
use std::alloc::Global;
use std::process::Abort;
use std::sync::Wait;
use std::thread::Threads;
use wire_io::MemDialer;
use wire_io::listener::{MemLinks, MemListener};
use wire_io::mem::{MemClock, MemSink, MemSource};

/// A host over streams in memory.
pub(crate) type MemHost<H> = Host<MemSource, MemSink, MemSink, MemClock, MemListener, MemDialer, H>;

/// A runtime that the program runs on: it may start threads and wait, and a test may stop.
pub(crate) trait Runs: Abort + Threads + Wait + Sync {}

impl<R: Abort + Threads + Wait + Sync> Runs for R {}

/// A network that gives no connections.
pub(crate) fn silent(alloc: Global) -> MemListener {
    MemListener::new(alloc, MemLinks::new(alloc))
}

/// A network in which nobody is reached.
pub(crate) fn unlinked(alloc: Global) -> MemDialer {
    MemDialer::new(alloc, MemLinks::new(alloc))
}

/// The seed of the tests' hosts.
pub(crate) const SEED: [u64; 4] = [5, 6, 7, 9];

/// Stops where this does not hold, and says what it is.
pub(crate) fn must(rt: &impl Abort, holds: bool, what: &str) {
    assert!(rt; holds, "{what}");
}

/// Appends a piece.
pub(crate) fn put(rt: &impl Abort, bytes: &mut ByteList, piece: &[u8]) {
    must(rt, bytes.append(piece).is_ok(), "memory");
}

/// A list of these bytes.
pub(crate) fn copied(rt: &impl Abort, alloc: Global, piece: &[u8]) -> ByteList {
    let mut bytes = ByteList::new(alloc);
    put(rt, &mut bytes, piece);
    bytes
}

/// The pieces into which a source is cut, as a length or `-`. Then the indices of its reads and of the sink's writes that fail, and the
/// moments of the clock, all 0 where none is told.
#[derive(Clone, Copy)]
pub(crate) struct Outside<'a> {
    pub cut: &'a str,
    pub failing_reads: &'a str,
    pub failing_writes: &'a str,
    pub moments: &'a str,
}

/// Nothing fails, and pieces have this length, or any.
pub(crate) fn cut_by(cut: &str) -> Outside<'_> {
    Outside {
        cut,
        failing_reads: "",
        failing_writes: "",
        moments: "",
    }
}

/// The lengths of so many pieces.
fn cuts_of(rt: &impl Abort, alloc: Global, cut: &str, count: usize) -> Kinds {
    let mut cuts = Kinds::new(alloc);
    if cut != "-" {
        let len = number_of(rt, cut);
        for _ in 0..count {
            must(rt, cuts.push(len).is_ok(), "memory");
        }
    }
    cuts
}

/// A source of these bytes.
pub(crate) fn source_of(
    rt: &impl Abort,
    alloc: Global,
    input: &[u8],
    outside: Outside,
) -> MemSource {
    let count = input.len().saturating_add(1);
    MemSource::new(
        copied(rt, alloc, input),
        cuts_of(rt, alloc, outside.cut, count),
        numbers_of(rt, alloc, outside.failing_reads),
    )
}

/// A sink whose writes of these indices fail.
pub(crate) fn sink_of(rt: &impl Abort, alloc: Global, failing: &str) -> MemSink {
    MemSink::new(alloc, numbers_of(rt, alloc, failing))
}

/// A host over this input and this output, with the moments that words spell.
pub(crate) fn host_over<I, O, H>(
    rt: &impl Abort,
    alloc: Global,
    input: I,
    output: O,
    moments: &str,
) -> Host<I, O, MemSink, MemClock, MemListener, MemDialer, H> {
    Host {
        input,
        output,
        errors: sink_of(rt, alloc, ""),
        ticks: MemClock::new(moments_of(rt, alloc, moments)),
        listener: silent(alloc),
        dialer: unlinked(alloc),
        seed: SEED,
        served: None,
        talked: Vec::new(alloc),
    }
}

/// A host of this input.
pub(crate) fn host_of<H>(
    rt: &impl Abort,
    alloc: Global,
    input: &[u8],
    outside: Outside,
) -> MemHost<H> {
    let input = source_of(rt, alloc, input, outside);
    let output = sink_of(rt, alloc, outside.failing_writes);
    host_over(rt, alloc, input, output, outside.moments)
}

/// Appends a word.
fn put_word(rt: &impl Abort, alloc: Global, words: &mut Vec<String>, word: &str) {
    match word.to_string(alloc) {
        Ok(word) => must(rt, words.push(word).is_ok(), "memory"),
        Err(_) => must(rt, false, "memory"),
    }
}

/// The words of a command line, between blanks.
pub(crate) fn words_of(rt: &impl Abort, alloc: Global, line: &str) -> Words {
    let mut words = Vec::new(alloc);
    if !line.is_empty() {
        for word in line.split(' ') {
            put_word(rt, alloc, &mut words, word);
        }
    }
    Words::from_vec(words)
}

/// Runs the program with the words of a line over this host, and answers its status.
pub(crate) fn run_line<'t, R: Runs>(
    rt: &'t R,
    alloc: Global,
    line: &str,
    host: &mut MemHost<SampleHand<'t, R>>,
) -> u8 {
    let words = words_of(rt, alloc, line);
    run(rt, alloc, &words, host)
}

/// Returns whether these bytes are a line, or nothing where the line is empty.
pub(crate) fn is_line(bytes: &[u8], line: &str) -> bool {
    match bytes.strip_suffix(b"\n") {
        Some(front) => front == line.as_bytes(),
        None => bytes.is_empty() && line.is_empty(),
    }
}

/// Looks whether a host got this output and this line of errors.
fn check_host<H>(rt: &impl Abort, host: &MemHost<H>, output: &[u8], line: &str) {
    must(rt, host.output.bytes() == output, "output");
    must(rt, is_line(host.errors.bytes(), line), line);
}

/// Runs the program with one word over this input, and looks whether it wrote this output and ended as told, by a status and a line.
/// It answers how many bytes are left.
pub(crate) fn check(
    rt: &impl Runs,
    alloc: Global,
    command: &str,
    input: &[u8],
    outside: Outside,
    output: &[u8],
    told: &str,
) -> usize {
    let (status, line) = cut(told, ' ');
    let mut host = host_of(rt, alloc, input, outside);
    let ended = run_line(rt, alloc, command, &mut host);
    must(rt, u32::from(ended) == number_of(rt, status), line);
    check_host(rt, &host, output, line);
    host.input.rest().len()
}

/// Looks whether so many bytes are left, where a text says how many.
fn check_left(rt: &impl Abort, left: usize, wanted: &str) {
    if !wanted.is_empty() {
        must(rt, left == number_of(rt, wanted) as usize, "left");
    }
}

/// Runs a line of a table, cut in one way: the input; the output; how many bytes are left, where that is told; the status and the line on
/// the errors' sink; the indices of the reads and of the writes that fail; and the moments of the turns.
fn check_line(rt: &impl Runs, alloc: Global, command: &str, pieces: &str, line: &str) {
    let (input, rest) = cut(line, '|');
    let (output, rest) = cut(rest, '|');
    let (left, rest) = cut(rest, '|');
    let (told, rest) = cut(rest, '|');
    let (failing_reads, rest) = cut(rest, '|');
    let (failing_writes, moments) = cut(rest, '|');
    let outside = Outside {
        cut: pieces,
        failing_reads,
        failing_writes,
        moments,
    };
    let found = check_words(rt, alloc, command, input, outside, output, told);
    check_left(rt, found, left);
}

/// Runs the program over the bytes that words spell.
pub(crate) fn check_words(
    rt: &impl Runs,
    alloc: Global,
    command: &str,
    input: &str,
    outside: Outside,
    output: &str,
    told: &str,
) -> usize {
    let input = bytes_of(rt, alloc, input);
    let output = bytes_of(rt, alloc, output);
    check(
        rt,
        alloc,
        command,
        input.as_slice(),
        outside,
        output.as_slice(),
        told,
    )
}

/// Runs each line of a table, cut in each of these ways.
pub(crate) fn check_table(rt: &impl Runs, alloc: Global, command: &str, cuts: &str, table: &str) {
    for line in table.split('\n') {
        for pieces in cuts.split(' ') {
            check_line(rt, alloc, command, pieces, line);
        }
    }
}

/// Runs `answer` over the first so many bytes, which is cut short.
fn check_front(rt: &impl Runs, alloc: Global, front: &[u8], cut: &str, output: &[u8]) {
    let len = front.len();
    match format!(in alloc; "2 truncated at {len}") {
        Ok(told) => {
            let outside = cut_by(cut);
            let _left = check(rt, alloc, "answer", front, outside, output, told.as_str());
        }
        Err(_) => must(rt, false, "memory"),
    }
}

/// Runs `answer` over each front of some words, from a length on, which is cut short.
pub(crate) fn check_fronts(
    rt: &impl Runs,
    alloc: Global,
    words: &str,
    from: usize,
    cut: &str,
    output: &str,
) {
    let whole = bytes_of(rt, alloc, words);
    let output = bytes_of(rt, alloc, output);
    for len in from..whole.len() {
        let front = whole.as_slice().get(..len).unwrap_or(&[]);
        check_front(rt, alloc, front, cut, output.as_slice());
    }
}
