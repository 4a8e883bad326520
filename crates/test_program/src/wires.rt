//! Tests of facts that no contract states: calls succeed where there is memory, how much a call asks for at once, and what the adapters do
//! over a reader, a writer and a clock.
ghost use Rattle.std.specs.Prelude.{true};
ghost use Rattle.wire_io.specs.Wire.{untold_read, untold_write};

use crate::hosts::{copied, must, sink_of};
use crate::texts::{bytes_of, cut, number_of, numbers_of, push};
use sequence::{ByteList, MomentList};
use std::alloc::Global;
use std::cell::Cell;
use std::io::{Error, ErrorKind, Read, Write};
use std::process::Abort;
use std::time::Duration;
use std::{io, time};
use wire_io::clock::Clock;
use wire_io::mem::{MemClock, MemSink, MemSource};
use wire_io::pull::{Pull, PullEnd};
use wire_io::put::put_all;
use wire_io::sink::Sink;
use wire_io::source::{Failed, Source};
use wire_io::std_io::{StdClock, StdSink, StdSource};
use wire_io::whole::take_whole;

/// A source of these bytes, cut as said, whose reads of these indices fail.
fn source_of(rt: &impl Abort, alloc: Global, bytes: &[u8], cuts: &str, failing: &str) -> MemSource {
    MemSource::new(
        copied(rt, alloc, bytes),
        numbers_of(rt, alloc, cuts),
        numbers_of(rt, alloc, failing),
    )
}

/// Returns the answer of a read or a write as a number: 99 stands for a failure.
fn count_of(answer: Result<usize, Failed>) -> usize {
    match answer {
        Ok(count) => count,
        Err(_) => 99,
    }
}

/// Reads into a buffer of 1 byte through the trait, once, and returns the answer.
fn read_one<S: Source>(source: &mut S) -> usize {
    let mut buf = [0; 1];
    count_of(source.read(&mut buf))
}

/// Reads into a buffer of 4 bytes through the trait, once, and returns the answer.
fn read_four<S: Source>(source: &mut S) -> usize {
    let mut buf = [0; 4];
    count_of(source.read(&mut buf))
}

/// The answers of reads into buffers of 4 bytes, one after the other, and the number of bytes that are left after each.
const READS: &str = "2 6|99 6|1 5|4 1|1 0|0 0";

/// Looks at one read.
fn check_read(rt: &impl Abort, source: &mut MemSource, row: &str) {
    let (count, left) = cut(row, ' ');
    let found = read_four(source);
    must(rt, found == number_of(rt, count) as usize, row);
    must(rt, source.rest().len() == number_of(rt, left) as usize, row);
}

/// Looks at all reads.
fn check_reads(rt: &impl Abort, source: &mut MemSource) {
    for row in READS.split('|') {
        check_read(rt, source, row);
    }
    source.shut();
}

#[test]
fn reads_are_cut_and_fail_as_told(rt: HostRuntime) {
    let mut source = source_of(&rt, rt.alloc(), b"abcdefgh", "2 3 0 9", "1");
    check_reads(&rt, &mut source);
    must(&rt, source.reads() == 6, "reads");
    must(&rt, source.faults() == 1, "faults");
}

/// Writes a piece, whole or with one call, and answers how many bytes were taken.
fn write<K: Sink>(sink: &mut K, piece: &[u8], whole: bool) -> usize {
    if !whole {
        return count_of(sink.write(piece));
    }
    match put_all(sink, piece) {
        Ok(()) => piece.len(),
        Err(fault) => fault.sent,
    }
}

/// Pieces, whether they are put whole, and how many bytes that sends: 99 where it fails.
fn write_three(rt: &impl Abort, sink: &mut MemSink) {
    must(rt, write(sink, b"abc", false) == 3, "write");
    must(rt, write(sink, b"def", false) == 99, "write");
    must(rt, write(sink, b"ghi", true) == 3, "put");
    sink.shut();
}

#[test]
fn writes_are_kept_and_fail_as_told(rt: HostRuntime) {
    let mut sink = sink_of(&rt, rt.alloc(), "1");
    write_three(&rt, &mut sink);
    must(&rt, sink.bytes() == b"abcghi".as_slice(), "held");
    must(&rt, sink.writes() == 3, "writes");
    must(&rt, sink.faults() == 1, "faults");
}

/// Reads a clock once for each of these moments.
fn check_clock(rt: &impl Abort, clock: &mut MemClock, wanted: &[u64]) {
    for moment in wanted {
        must(rt, clock.now() == *moment, "moment");
    }
    must(rt, clock.calls() == wanted.len() as u64, "calls");
}

/// No moment is past the greatest one, and the last one is repeated; without one there is 0.
#[test]
fn moments_are_capped_and_the_last_repeated(rt: HostRuntime) {
    let mut moments = MomentList::new(rt.alloc());
    must(&rt, moments.append(&[7, 1 << 62, 3]).is_ok(), "memory");
    let mut clock = MemClock::new(moments);
    check_clock(&rt, &mut clock, &[7, (1 << 62) - 1, 3, 3]);
    let mut clock = MemClock::new(MomentList::new(rt.alloc()));
    check_clock(&rt, &mut clock, &[0, 0]);
}

/// Takes so many bytes, and answers whether they are these, and whether memory was taken for just as many.
fn is_taken<S: Source>(alloc: Global, pull: &mut Pull<'_, S>, count: u32, bytes: &[u8]) -> bool {
    match pull.take(alloc, count) {
        Ok(taken) => taken.as_slice() == bytes && taken.into_vec().capacity() == bytes.len(),
        Err(_) => false,
    }
}

/// So many bytes, which count up.
fn counted(rt: &impl Abort, alloc: Global, count: u32) -> ByteList {
    let mut bytes = ByteList::new(alloc);
    for i in 0..count {
        push(rt, &mut bytes, (i & 0xff) as u8);
    }
    bytes
}

/// Takes all of 10,000 bytes, which come in pieces whose first ones have these lengths.
fn check_taken(rt: &impl Abort, alloc: Global, bytes: &[u8], cuts: &str) {
    let mut source = source_of(rt, alloc, bytes, cuts, "");
    let mut pull = Pull::new(&mut source);
    must(rt, is_taken(alloc, &mut pull, 10_000, bytes), cuts);
    must(rt, pull.at() == 10_000, cuts);
}

#[test]
fn many_bytes_are_taken_however_they_are_cut(rt: HostRuntime) {
    let bytes = counted(&rt, rt.alloc(), 10_000);
    for cuts in "9999 9999 9999|4096 4096 1|0 1 2|4095 4097 1".split('|') {
        check_taken(&rt, rt.alloc(), bytes.as_slice(), cuts);
    }
}

/// The limit, how many bytes are wanted, how many are taken, or where there was an end or the limit; the position then, and how many bytes
/// are left.
const ENDS: &str = "9 5 | took 5 | 5 0
5 5 | took 5 | 5 0
5 6 | end 5 | 5 0
9 6 | end 5 | 5 0
4 5 | limit 4 | 4 0
2 5 | limit 2 | 2 2
0 1 | limit 0 | 0 4
0 0 | took 0 | 0 5";

/// Takes so many bytes, and returns whether the answer is what a text tells.
fn is_told(
    rt: &impl Abort,
    alloc: Global,
    pull: &mut Pull<'_, MemSource>,
    wanted: u32,
    told: &str,
) -> bool {
    let (word, number) = cut(told, ' ');
    let number = u64::from(number_of(rt, number));
    match pull.take(alloc, wanted) {
        Ok(bytes) => word == "took" && bytes.len() as u64 == number,
        Err(PullEnd::End { at }) => word == "end" && at == number,
        Err(PullEnd::Limit { at }) => word == "limit" && at == number,
        Err(_) => false,
    }
}

/// Takes bytes as a line says.
fn check_end(rt: &impl Abort, alloc: Global, line: &str) {
    let (asked, rest) = cut(line, '|');
    let (told, places) = cut(rest, '|');
    let (limit, wanted) = cut(asked, ' ');
    let (at, left) = cut(places, ' ');
    let mut source = source_of(rt, alloc, b"abcde", "2", "");
    let mut pull = Pull::new(&mut source);
    pull.mark(u64::from(number_of(rt, limit)));
    let wanted = number_of(rt, wanted);
    must(rt, is_told(rt, alloc, &mut pull, wanted, told), line);
    must(rt, pull.at() == u64::from(number_of(rt, at)), line);
    must(
        rt,
        source.rest().len() == number_of(rt, left) as usize,
        line,
    );
}

#[test]
fn ends_come_where_they_stand(rt: HostRuntime) {
    for line in ENDS.split('\n') {
        check_end(&rt, rt.alloc(), line);
    }
}

/// Returns the answer of reading a byte, in a word.
fn word_of(byte: Result<u8, PullEnd>) -> &'static str {
    match byte {
        Ok(b'a') => "a",
        Ok(b'b') => "b",
        Ok(_) => "byte",
        Err(PullEnd::ReadFault) => "fault",
        Err(PullEnd::Limit { at }) => if at == 1 << 62 {
            "limit"
        } else {
            "other limit"
        },
        Err(PullEnd::End { at }) => if at == 1 << 62 { "end" } else { "other end" },
        Err(_) => "memory",
    }
}

/// The first byte stands two before the last position.
#[test]
fn bytes_come_one_after_the_other(rt: HostRuntime) {
    let mut source = source_of(&rt, rt.alloc(), b"abcd", "", "1");
    let mut pull = Pull::resume(&mut source, (1 << 62) - 2);
    for word in "a fault b limit limit end".split(' ') {
        must(&rt, word_of(pull.byte()) == word, word);
    }
}

/// A source without end, which keeps the length of the longest buffer that it was handed.
#[derive(Drop)]
struct Asked {
    most: usize,
}

impl Source for Asked {
    ghost half = { λ _. untold_read 0 true };

    fn read(&mut self, buf: &mut [u8]) -> Result<usize, Failed> {
        self.most = self.most.max(buf.len());
        Ok(buf.len())
    }

    fn shut(&mut self) {}
}

/// The longest buffer that is asked for where so many bytes are wanted, up to a limit.
fn most_asked(alloc: Global, limit: u64, wanted: u32) -> usize {
    let mut source = Asked { most: 0 };
    let mut pull = Pull::new(&mut source);
    pull.mark(limit);
    let _taken = pull.take(alloc, wanted);
    source.most
}

/// Looks at the longest buffer that is asked for.
fn check_most(rt: &impl Abort, alloc: Global, limit: u64, row: &str) {
    let (wanted, most) = cut(row, ' ');
    let found = most_asked(alloc, limit, number_of(rt, wanted));
    must(rt, found == number_of(rt, most) as usize, row);
}

/// The limit, how many bytes are wanted, and the longest buffer.
#[test]
fn no_more_is_asked_for_than_is_wanted(rt: HostRuntime) {
    check_most(&rt, rt.alloc(), 9, "1 1");
    check_most(&rt, rt.alloc(), 1 << 62, "4096 4096");
    check_most(&rt, rt.alloc(), 1 << 62, "100000 4096");
    check_most(&rt, rt.alloc(), 9, "100 9");
    check_most(&rt, rt.alloc(), 0, "100 1");
}

/// A sink that takes two bytes at each write, and fails at the third.
#[derive(Drop)]
struct Slow {
    writes: u64,
    faults: u64,
}

impl Sink for Slow {
    ghost half = { λ s. untold_write s.faults true };

    fn write(&mut self, piece: &[u8]) -> Result<usize, Failed> {
        self.writes = self.writes.saturating_add(1);
        if self.writes == 3 {
            self.faults = self.faults.saturating_add(1);
            return Err(Failed);
        }
        Ok(piece.len().min(2))
    }

    fn shut(&mut self) {}
}

/// Puts a piece, of which so many bytes are sent in so many writes.
fn check_put(rt: &impl Abort, piece: &[u8], sent: usize, writes: u64) {
    let mut sink = Slow {
        writes: 0,
        faults: 0,
    };
    must(rt, write(&mut sink, piece, true) == sent, "put");
    must(rt, sink.writes == writes, "writes");
}

#[test]
fn what_was_sent_is_told(rt: HostRuntime) {
    check_put(&rt, b"", 0, 0);
    check_put(&rt, b"abc", 3, 2);
    check_put(&rt, b"abcde", 4, 3);
}

/// A reader of so many zeros, which fails at its second call, and counts its calls.
#[derive(Drop)]
struct Zeros<'a> {
    left: usize,
    calls: &'a Cell<u32>,
}

impl Read for Zeros<'_> {
    fn read(&mut self, buf: &mut [u8]) -> io::Result<usize> {
        let calls = self.calls.get();
        self.calls.set(calls.saturating_add(1));
        if calls == 1 {
            return Err(Error::from(ErrorKind::Interrupted));
        }
        let count = self.left.min(buf.len());
        self.left -= count;
        Ok(count)
    }
}

/// Returns the number of bytes that come of 10,000 reads and two more of single bytes, and the number of faults.
fn read_ahead(alloc: Global, calls: &Cell<u32>) -> (u32, u64) {
    let zeros = Zeros {
        left: 10_000,
        calls,
    };
    let Ok(mut source) = StdSource::new(alloc, zeros) else {
        return (0, 0);
    };
    let mut given = 0u32;
    for _ in 0..10_002 {
        if read_one(&mut source) == 1 {
            given = given.saturating_add(1);
        }
    }
    source.shut();
    (given, source.faults())
}

#[test]
fn a_reader_is_read_ahead(rt: HostRuntime) {
    let calls = Cell::new(0);
    let (given, faults) = read_ahead(rt.alloc(), &calls);
    must(&rt, given == 10_000, "given");
    must(&rt, faults == 1, "faults");
    must(&rt, calls.get() == 7, "calls");
}

/// A writer that takes two bytes, then none, and then fails.
#[derive(Drop)]
struct Grudging {
    calls: u32,
}

impl Write for Grudging {
    fn write(&mut self, piece: &[u8]) -> io::Result<usize> {
        self.calls = self.calls.saturating_add(1);
        match self.calls {
            1 => Ok(piece.len().min(2)),
            2 => Ok(0),
            _ => Err(Error::from(ErrorKind::BrokenPipe)),
        }
    }

    fn flush(&mut self) -> io::Result<()> {
        Ok(())
    }
}

/// Writes three bytes, of which so many are taken, with so many faults then.
fn check_grudging(rt: &impl Abort, sink: &mut StdSink<Grudging>, count: usize, faults: u64) {
    must(rt, write(sink, b"abc", false) == count, "write");
    must(rt, sink.faults() == faults, "faults");
}

#[test]
fn a_write_of_nothing_is_a_fault(rt: HostRuntime) {
    let mut sink = StdSink::new(Grudging { calls: 0 });
    check_grudging(&rt, &mut sink, 2, 0);
    check_grudging(&rt, &mut sink, 99, 1);
    check_grudging(&rt, &mut sink, 99, 2);
    sink.shut();
    let mut sink = StdSink::new(Vec::new(rt.alloc()));
    must(&rt, write(&mut sink, b"", false) == 0, "nothing");
}

/// A clock that reads 5.007 seconds, then fails, and then reads a time past every moment.
#[derive(Drop)]
struct Moody {
    calls: Cell<u32>,
}

impl time::Clock for Moody {
    fn monotonic(&self) -> io::Result<Duration> {
        Ok(Duration::ZERO)
    }

    fn since_1970(&self) -> io::Result<Duration> {
        let calls = self.calls.get();
        self.calls.set(calls.saturating_add(1));
        match calls {
            0 => Ok(Duration::from_millis(5007)),
            1 => Err(Error::from(ErrorKind::Other)),
            _ => Ok(Duration::MAX),
        }
    }
}

/// Reads a clock, which gives this moment, with so many faults then.
fn check_moody(rt: &impl Abort, clock: &mut StdClock<Moody>, moment: u64, faults: u64) {
    must(rt, clock.now() == moment, "moment");
    must(rt, clock.faults() == faults, "faults");
}

#[test]
fn a_clock_that_fails_gives_its_last_moment(rt: HostRuntime) {
    let mut clock = StdClock::new(Moody {
        calls: Cell::new(0),
    });
    check_moody(&rt, &mut clock, 5007, 0);
    check_moody(&rt, &mut clock, 5007, 1);
    check_moody(&rt, &mut clock, (1 << 62) - 1, 1);
    let start_of_2020 = 1_577_836_800_000;
    must(&rt, StdClock::new(&rt).now() > start_of_2020, "clock");
}

/// Returns the number of bytes that are taken of these up to a limit: 99,999 where they pass it.
fn taken_of(rt: &impl Abort, alloc: Global, bytes: &[u8], limit: u16) -> usize {
    let mut source = source_of(rt, alloc, bytes, "3 0 4096", "");
    match take_whole(alloc, &mut source, usize::from(limit)) {
        Ok(taken) => taken.len(),
        Err(_) => 99_999,
    }
}

/// Takes the bytes that words spell, up to a limit.
fn check_whole(rt: &impl Abort, alloc: Global, words: &str, limit: u16, wanted: usize) {
    let bytes = bytes_of(rt, alloc, words);
    let found = taken_of(rt, alloc, bytes.as_slice(), limit);
    must(rt, found == wanted, words);
}

#[test]
fn takes_all_or_passes_the_limit(rt: HostRuntime) {
    check_whole(&rt, rt.alloc(), "", 0, 0);
    check_whole(&rt, rt.alloc(), "07", 0, 99_999);
    check_whole(&rt, rt.alloc(), "5000*07", 5000, 5000);
    check_whole(&rt, rt.alloc(), "5001*07", 5000, 99_999);
}
