//! Each answer is written before the next byte is asked for.
ghost use Rattle.std.specs.Prelude.{true};
ghost use Rattle.wire_io.specs.Wire.{untold_read, untold_write};

use crate::hosts::{Runs, host_over, must, words_of};
use crate::texts::{bytes_of, cut, put_words};
use rmi_cli::run;
use sequence::{ByteList, Kinds};
use std::alloc::Global;
use std::cell::Cell;
use std::process::Abort;
use wire_io::sink::Sink;
use wire_io::source::{Failed, Source};

/// The messages of a connection, each with what is written before the first byte after it is asked for: a header and an endpoint, a Ping, a call of
/// `get()J`, a lookup, its dirty and its acknowledgement, a lookup of a name that is missing, and a Ping.
const MESSAGES: &str = "header 4B | ack
0000 00000000 |
ping | pong
get | number first 0000000000000000
registry 00000002 44154DC9D4E63BDF 74 0007 =counter | reference second proxy 000E =sample.Counter handler 0000000000000011 of_space
dirty_made 0000000000000001 asks_lease | reference third grants_lease
54 second |
registry 00000002 44154DC9D4E63BDF 74 0001 =a | exception fourth fault 001D =java.rmi.NotBoundException:_a 78 70
ping | pong";

/// A header and an endpoint, and two Pings.
const PINGS: &str = "header 4B | ack
0000 00000000 |
ping | pong
ping | pong";

/// A source that gives one byte a read. A read fails that comes where another number of bytes was written than is due at that place.
#[derive(Drop)]
struct Asking<'a> {
    input: &'a [u8],
    due: &'a [u32],
    at: usize,
    written: &'a Cell<usize>,
    faults: u64,
}

/// Returns whether so many bytes are due before the byte at a place is asked for.
fn is_due(due: &[u32], at: usize, written: usize) -> bool {
    match due.get(at) {
        Some(count) => *count as usize == written,
        None => false,
    }
}

impl Source for Asking<'_> {
    ghost half = { λ a. untold_read a.faults true };

    fn read(&mut self, buf: &mut [u8]) -> Result<usize, Failed> {
        if !is_due(self.due, self.at, self.written.get()) {
            self.faults = self.faults.saturating_add(1);
            return Err(Failed);
        }
        match (self.input.get(self.at), buf.first_mut()) {
            (Some(byte), Some(place)) => {
                *place = *byte;
                self.at = self.at.saturating_add(1);
                Ok(1)
            }
            _ => Ok(0),
        }
    }

    fn shut(&mut self) {}
}

/// A sink that counts the bytes that it took, and its writes.
#[derive(Drop)]
struct Counting<'a> {
    written: &'a Cell<usize>,
    writes: usize,
}

impl Sink for Counting<'_> {
    ghost half = { λ _. untold_write 0 true };

    fn write(&mut self, piece: &[u8]) -> Result<usize, Failed> {
        self.written
            .set(self.written.get().saturating_add(piece.len()));
        self.writes = self.writes.saturating_add(1);
        Ok(piece.len())
    }

    fn shut(&mut self) {}
}

/// Returns the bytes that these messages send.
fn input_of(rt: &impl Abort, alloc: Global, messages: &str) -> ByteList {
    let mut input = ByteList::new(alloc);
    for line in messages.split('\n') {
        let (message, _answer) = cut(line, '|');
        put_words(rt, alloc, &mut input, message);
    }
    input
}

/// Appends a number so many times.
fn put_due(rt: &impl Abort, due: &mut Kinds, count: usize, written: usize) {
    let written = written.min(0xFFFF_FFFF) as u32;
    for _ in 0..count {
        must(rt, due.push(written).is_ok(), "memory");
    }
}

/// Returns the number of bytes that are written when a line's message is taken, where so many were before. Before each byte of the message,
/// the earlier number is due, and is appended.
fn put_line(rt: &impl Abort, alloc: Global, due: &mut Kinds, before: usize, line: &str) -> usize {
    let (message, answer) = cut(line, '|');
    let message = bytes_of(rt, alloc, message);
    put_due(rt, due, message.len(), before);
    if answer.is_empty() {
        return before;
    }
    before.saturating_add(bytes_of(rt, alloc, answer).len())
}

/// Returns the numbers of bytes that are written before each byte of these messages is asked for, and before the end is.
fn due_of(rt: &impl Abort, alloc: Global, messages: &str) -> Kinds {
    let mut due = Kinds::new(alloc);
    let mut written = 0;
    for line in messages.split('\n') {
        written = put_line(rt, alloc, &mut due, written, line);
    }
    put_due(rt, &mut due, 1, written);
    due
}

/// Serves the input, and answers the status, how many bytes were read, and how many writes there were.
fn serve(
    rt: &impl Runs,
    alloc: Global,
    input: Asking<'_>,
    written: &Cell<usize>,
) -> (u8, usize, usize) {
    let words = words_of(rt, alloc, "answer");
    let output = Counting { written, writes: 0 };
    let mut host = host_over(rt, alloc, input, output, "");
    let status = run(rt, alloc, &words, &mut host);
    must(
        rt,
        host.input.faults == 0,
        "reads where another number was due",
    );
    (status, host.input.at, host.output.writes)
}

/// Serves these messages, and looks whether each answer was written in time, by one write.
fn check(rt: &impl Runs, alloc: Global, messages: &str, answers: usize) {
    let written = Cell::new(0);
    let input = input_of(rt, alloc, messages);
    let due = due_of(rt, alloc, messages);
    let asking = Asking {
        input: input.as_slice(),
        due: due.as_slice(),
        at: 0,
        written: &written,
        faults: 0,
    };
    let (status, read, writes) = serve(rt, alloc, asking, &written);
    must(rt, status == 0, "the status");
    must(rt, read == input.len(), "all was read");
    must(rt, writes == answers, "one write for each answer");
}

#[test]
fn prompt_replies(rt: HostRuntime) {
    check(&rt, rt.alloc(), PINGS, 3);
    check(&rt, rt.alloc(), MESSAGES, 7);
}
