//! Connections that are served without the program: how they end, what workers are asked, and what turns calls make.
ghost use Rattle.std.specs.Prelude.{◌≡◌};

use crate::hosts::{Outside, cut_by, must};
use crate::setups::{Numbers, Wires, setup, wires_of};
use crate::texts::{bytes_of, cut, number_of, put_words};
use call_dispatch::{
    Book, ConnEnd, Kind, KindList, OutcomeList, Recorded, RecordingWorker, serve_connection,
};
use method_hash::{Method, MethodList};
use mod_utf::utf::encoded_len;
use ports::DirectPort;
use sequence::Units;
use space::{Ask, Asked, AskedEnd, Space};
use std::alloc::Global;
use std::process::Abort;
use test_support::spaces::CONFIG;
use wire_io::mem::MemSink;

/// The numbers in the setup of every connection.
const NUMBERS: Numbers = Numbers {
    by: 1,
    port: 1099,
    peer_port: 1234,
    binding: false,
};

/// The outcome of a connection: its end, the number of calls that the worker was asked for, the numbers of arguments and nodes of the first
/// one, and the entries of the port.
#[derive(Clone, Copy)]
struct Seen {
    end: ConnEnd,
    calls: usize,
    values: usize,
    nodes: u32,
    port: Entries,
}

/// The number of entries that a port has. It also tells whether the last of two gives a call up.
#[derive(Clone, Copy)]
struct Entries {
    count: usize,
    given_up: bool,
}

/// The space of one object, which is pinned.
fn space_of_one(rt: &impl Abort, alloc: Global) -> Space {
    let mut space = Space::fresh(alloc, &CONFIG);
    let pinned = true;
    let opened = space.turn(0, 0, Ask::Open { kind: 0, pinned });
    must(rt, opened.is_ok(), "opened");
    space
}

/// The book of one kind.
fn book_of(rt: &impl Abort, alloc: Global, kind: Kind) -> Book {
    assert!(rt; kind.methods.len() <= 1000, "few methods");
    assert!(rt; encoded_len(&kind.interface) <= 255, "a short name");
    let mut kinds = KindList::new(alloc);
    must(rt, kinds.push(kind).is_ok(), "memory");
    Book::new(alloc, kinds).expect(rt, "a book")
}

/// Methods of this text, so many times.
fn methods_of(rt: &impl Abort, alloc: Global, text: &[u8], count: u32) -> MethodList {
    let mut methods = MethodList::new(alloc);
    for _ in 0..count {
        let method = Method::parse(alloc, text).expect(rt, "a method");
        must(rt, methods.push(method).is_ok(), "memory");
    }
    methods
}

/// The kind that has a method of a text, which words spell, so many times.
fn kind_of(rt: &impl Abort, alloc: Global, words: &str, count: u32) -> Kind {
    let text = bytes_of(rt, alloc, words);
    Kind {
        interface: Units::new(alloc),
        methods: methods_of(rt, alloc, text.as_slice(), count),
    }
}

/// Returns the entries of a port.
fn entries_of(rt: &impl Abort, alloc: Global, port: DirectPort<'_>) -> Entries {
    let asked = port.into_asked().to_list(alloc).expect(rt, "memory");
    Entries {
        count: asked.len(),
        given_up: is_given_up(asked.as_slice()),
    }
}

/// Serves the client at 127.0.0.1, port 1234, over a space and a worker that was asked nothing yet.
fn serve_at(
    rt: &impl Abort,
    alloc: Global,
    book: &Book,
    wires: &mut Wires,
    space: &mut Space,
    worker: &mut RecordingWorker,
) -> (ConnEnd, Entries)
    requires calls { worker.old.calls ≡ 0 }
{
    let mut setup = setup(rt, alloc, NUMBERS);
    let mut port = DirectPort::new(alloc, space, 1);
    let end = serve_connection(
        alloc,
        &mut wires.source,
        &mut wires.sink,
        &mut wires.clock,
        &mut port,
        worker,
        book,
        &mut setup,
    );
    (end, entries_of(rt, alloc, port))
}

/// Serves a client over a space of one object.
fn serve(rt: &impl Abort, alloc: Global, book: &Book, wires: &mut Wires) -> Seen {
    let mut space = space_of_one(rt, alloc);
    let mut worker = RecordingWorker::new(alloc, OutcomeList::new(alloc));
    let (end, port) = serve_at(rt, alloc, book, wires, &mut space, &mut worker);
    let (values, nodes) = first_of(worker.records());
    Seen {
        end,
        calls: worker.records().len(),
        values,
        nodes,
        port,
    }
}

/// Returns the numbers of arguments and nodes with which a worker was asked first. No call has 1000 arguments. That number stands for
/// another method than the first.
fn first_of(recorded: &[Recorded]) -> (usize, u32) {
    match recorded.first() {
        Some(Recorded::Invoked(call, _)) => {
            if call.method == 0 {
                (call.arguments.values.len(), call.arguments.graph.count())
            } else {
                (1000, 0)
            }
        }
        _ => (0, 0),
    }
}

/// Returns whether there are two entries, the second of which gives a call up.
fn is_given_up(asked: &[Asked]) -> bool {
    match asked {
        [_, last] => matches!(last.end, AskedEnd::Abandoned(_)),
        _ => false,
    }
}

/// Serves the client that calls a method of object 16, from its hash on.
fn serve_call(rt: &impl Abort, alloc: Global, book: &Book, call: &str) -> Seen {
    let mut input = bytes_of(rt, alloc, "opening head");
    put_words(rt, alloc, &mut input, call);
    let mut wires = wires_of(rt, alloc, input.as_slice(), cut_by("-"));
    serve(rt, alloc, book, &mut wires)
}

/// The input, the output, in how many writes, the indices of the reads and of the writes that fail, and the end.
const ENDS: &str = "opening 3*ping | ack 3*pong | 4 | | | Ended
opening 3*ping | ack pong | 2 | 14 | | ReadFault
header 4C 2*ping | pong | 1 | | | Ended
header 4D | 4F | 1 | | | UnknownProtocol { byte: 77 }
opening 3*ping | | 1 | | 0 | WriteFault { sent: 0 }
opening 3*ping | ack | 2 | | 1 | WriteFault { sent: 16 }
opening 3*ping | ack pong | 3 | | 2 | WriteFault { sent: 17 }
header 4C ping | | 1 | | 0 | WriteFault { sent: 0 }
header 4D | | 1 | | 0 | WriteFault { sent: 0 }";

/// Returns whether an end has this text.
fn is_told(rt: &impl Abort, alloc: Global, end: ConnEnd, text: &str) -> bool {
    let told = format!(in alloc; "{end:?}").expect(rt, "memory");
    told.as_str() == text
}

/// Returns the wires of a client that sends the bytes that words spell.
fn wires_of_words(rt: &impl Abort, alloc: Global, input: &str, outside: Outside) -> Wires {
    let input = bytes_of(rt, alloc, input);
    wires_of(rt, alloc, input.as_slice(), outside)
}

/// Returns whether a sink holds the bytes that words spell.
fn is_written(rt: &impl Abort, alloc: Global, sink: &MemSink, output: &str) -> bool {
    let output = bytes_of(rt, alloc, output);
    sink.bytes() == output.as_slice()
}

/// Serves what a line says, byte by byte.
fn check_end(rt: &impl Abort, alloc: Global, book: &Book, line: &str) {
    let (input, rest) = cut(line, '|');
    let (output, rest) = cut(rest, '|');
    let (writes, rest) = cut(rest, '|');
    let (failing_reads, rest) = cut(rest, '|');
    let (failing_writes, end) = cut(rest, '|');
    let outside = Outside {
        cut: "1",
        failing_reads,
        failing_writes,
        moments: "",
    };
    let mut wires = wires_of_words(rt, alloc, input, outside);
    let seen = serve(rt, alloc, book, &mut wires);
    must(rt, is_told(rt, alloc, seen.end, end), line);
    must(rt, is_written(rt, alloc, &wires.sink, output), line);
    let wanted = u64::from(number_of(rt, writes));
    must(rt, wires.sink.writes() == wanted, line);
    must(rt, seen.port.count == 0, line);
}

#[test]
fn each_connection_has_its_end(rt: HostRuntime) {
    let kind = kind_of(&rt, rt.alloc(), "=f()V", 1);
    let book = book_of(&rt, rt.alloc(), kind);
    for line in ENDS.split('\n') {
        check_end(&rt, rt.alloc(), &book, line);
    }
}

/// A method, how many such methods the kind has, the input from the call's hash on; how many calls the worker was asked for, how many
/// arguments and nodes the first one has, and `given up` where the call is.
const CALLS: &str = "=f()V | 2 | 552628DB9DDC2BA3 | 1 | 0 | 0 |
=f( 255*=J =)V | 1 | 34191640B234FE3B 255*77080000000000000001 | 1 | 255 | 0 |
=f(Ljava/lang/Object;Ljava/lang/Object;)V | 1 | AD6D4356D895A036 74 0001 61 71 007E0000 | 1 | 2 | 1 |
=f(Ljava/lang/Object;)V | 1 | 0940C60D0261351E texts | 1 | 1 | 3 |
=f(Ljava/lang/Object;)V | 1 | 0940C60D0261351E itself | 1 | 1 | 3 |
=f(J)V | 1 | 6F47B52B010DA183 77 09 000000000000000000 | 0 | 0 | 0 | given up
=f(J)V | 1 | 6F47B52B010DA183 77 07 00000000000000 71 | 0 | 0 | 0 | given up
=f()J | 1 | EB125F3A3BC7C039 | 1 | 0 | 0 | given up";

/// Looks whether a connection made two turns, and called its worker as told.
fn check_seen(rt: &impl Abort, seen: Seen, told: &str) {
    let (calls, rest) = cut(told, '|');
    let (values, rest) = cut(rest, '|');
    let (nodes, given_up) = cut(rest, '|');
    must(rt, seen.calls == number_of(rt, calls) as usize, told);
    must(rt, seen.values == number_of(rt, values) as usize, told);
    must(rt, seen.nodes == number_of(rt, nodes), told);
    must(rt, seen.port.given_up == (given_up == "given up"), told);
    must(rt, seen.port.count == 2, told);
}

/// Serves the call of a line, in a book with its method.
fn check_call(rt: &impl Abort, alloc: Global, line: &str) {
    let (text, rest) = cut(line, '|');
    let (count, rest) = cut(rest, '|');
    let (call, told) = cut(rest, '|');
    let kind = kind_of(rt, alloc, text, number_of(rt, count));
    let book = book_of(rt, alloc, kind);
    check_seen(rt, serve_call(rt, alloc, &book, call), told);
}

#[test]
fn each_call_reaches_its_worker(rt: HostRuntime) {
    for line in CALLS.split('\n') {
        check_call(&rt, rt.alloc(), line);
    }
}
