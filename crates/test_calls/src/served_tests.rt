//! Calls of an exported object: what is written, what the space is asked, what is invoked, and how the connection ends.
ghost use Rattle.std.specs.Prelude.{◌≡◌, ◌≤◌, pos, length};
ghost use Rattle.mod_utf.specs.Utf.{utf};

use crate::seen::{are_entries, are_events, are_invoked};
use crate::spaces::{FIRST, space_of};
use crate::texts::{
    bytes_from, cut, moments_of, must, null_graph, number_of, put, put_digits, units_of,
};
use call_dispatch::{
    Book, ConnEnd, Kind, KindList, Outcome, OutcomeList, RecordingWorker, Setup, serve_connection,
};
use method_hash::{Method, MethodList};
use mod_utf::utf::encoded_len;
use object_ids::UidDraw;
use ports::DirectPort;
use sequence::{ByteList, Kinds, Units};
use ser_read::read_to_end;
use ser_values::{Graph, Value};
use space::Space;
use std::alloc::Global;
use std::process::Abort;
use wire_io::Pull;
use wire_io::mem::{MemClock, MemSink, MemSource};

/// The methods of the kind.
const METHODS: &str = "echo(Ljava/lang/Object;)Ljava/lang/Object;
add(J)J
done()V";

/// The meanings of the words of the tables: a Ping and its answer; an array of objects up to its length; a call's front
/// up to the object, and the rest of its head for each method; a Return's front, its identifier without the count, an
/// exception up to its message, and messages; pieces of references; heads of calls of the registry and of the
/// collector, and of a new object; their methods; references of other servers; identifiers of objects, leases and
/// clients.
const WORDS: &str = "opening 4A524D49 0002 4B 0000 00000000
ack 4E 0009 3132372E302E302E31 000004D2
ping 52
pong 53
magic ACED0005
array 75 72 0013 5B4C6A6176612E6C616E672E4F626A6563743B 90CE589F1073296C 02 0000 78 70
call 50 ACED0005 77 22 0000000000000010 00000007 0000000000000009 0000
echo FFFFFFFF 90BEF25F467880C4
add FFFFFFFF DE3EC51A3025A10E
done FFFFFFFF E29AC7B351872259
return 51 ACED0005 77
uid 00000002 0000000000000002
exception 73 72 0018 6A6176612E726D692E52656D6F7465457863657074696F6E B88C9D4EDEE47A22 02 0001 4C 0006 64657461696C 74 0015 4C6A6176612F6C616E672F5468726F7761626C653B 70 78 72 0013 6A6176612E696F2E494F457863657074696F6E 6C8073646525F0AB 02 0000 70 78 72 0013 6A6176612E6C616E672E457863657074696F6E D0FD1F3E1A3B1CC4 02 0000 70 78 72 0013 6A6176612E6C616E672E5468726F7761626C65 D5C635273977B8CB 03 0001 4C 000D 64657461696C4D657373616765 74 0012 4C6A6176612F6C616E672F537472696E673B 70 78 70 74
wrong 0027 6A6176612E726D692E536572766572457863657074696F6E3A2077726F6E67206F7574636F6D65
absent 002B 6A6176612E726D692E556E6D61727368616C457863657074696F6E3A206E6F2073756368206D6574686F64
proxy 73 7D 00000002 000F 6A6176612E726D692E52656D6F7465
handler 70 78 72 0017 6A6176612E6C616E672E7265666C6563742E50726F7879 E127DA20CC1043CB 02 0001 4C 0001 68 74 0025 4C6A6176612F6C616E672F7265666C6563742F496E766F636174696F6E48616E646C65723B 70 78 70 73 72 002D 6A6176612E726D692E7365727665722E52656D6F74654F626A656374496E766F636174696F6E48616E646C6572 0000000000000002 02 0000 70 78 72 001C 6A6176612E726D692E7365727665722E52656D6F74654F626A656374 D361B4910C61331E 03 0000 70 78 70 77 32 000A 556E6963617374526566 0009 3132372E302E302E31 0000044B
of_space 00000007 0000000000000009 0000 01 78
registry 50 ACED0005 77 22 0000000000000000 00000000 0000000000000000 0000
collector 50 ACED0005 77 22 0000000000000002 00000000 0000000000000000 0000
other 50 ACED0005 77 22 0000000000000011 00000007 0000000000000009 0000
bind 00000000 44154DC9D4E63BDF
list 00000001 44154DC9D4E63BDF
lookup 00000002 44154DC9D4E63BDF
rebind 00000003 44154DC9D4E63BDF
unbind 00000004 44154DC9D4E63BDF
clean 00000000 F6B6898D8BF28643
dirty 00000001 F6B6898D8BF28643
name_a 74 0001 61
texts 75 72 0013 5B4C6A6176612E6C616E672E537472696E673B ADD256E7E91D7B47 02 0000 70 78 70
here 73 7D 00000002 000F 6A6176612E726D692E52656D6F7465 0003 612E42 70 78 72 0017 6A6176612E6C616E672E7265666C6563742E50726F7879 E127DA20CC1043CB 02 0001 4C 0001 68 74 0025 4C6A6176612F6C616E672F7265666C6563742F496E766F636174696F6E48616E646C65723B 70 78 70 73 72 002D 6A6176612E726D692E7365727665722E52656D6F74654F626A656374496E766F636174696F6E48616E646C6572 0000000000000002 02 0000 70 78 72 001C 6A6176612E726D692E7365727665722E52656D6F74654F626A656374 D361B4910C61331E 03 0000 70 78 70 77 32 000A 556E6963617374526566 0009 3132372E302E302E31 0000044B
there 73 7D 00000002 000F 6A6176612E726D692E52656D6F7465 0003 612E42 70 78 72 0017 6A6176612E6C616E672E7265666C6563742E50726F7879 E127DA20CC1043CB 02 0001 4C 0001 68 74 0025 4C6A6176612F6C616E672F7265666C6563742F496E766F636174696F6E48616E646C65723B 70 78 70 73 72 002D 6A6176612E726D692E7365727665722E52656D6F74654F626A656374496E766F636174696F6E48616E646C6572 0000000000000002 02 0000 70 78 72 001C 6A6176612E726D692E7365727665722E52656D6F74654F626A656374 D361B4910C61331E 03 0000 70 78 70 77 32 000A 556E6963617374526566 0009 3132372E302E302E31 0000044C
elsewhere 73 7D 00000002 000F 6A6176612E726D692E52656D6F7465 0003 612E42 70 78 72 0017 6A6176612E6C616E672E7265666C6563742E50726F7879 E127DA20CC1043CB 02 0001 4C 0001 68 74 0025 4C6A6176612F6C616E672F7265666C6563742F496E766F636174696F6E48616E646C65723B 70 78 70 73 72 002D 6A6176612E726D692E7365727665722E52656D6F74654F626A656374496E766F636174696F6E48616E646C6572 0000000000000002 02 0000 70 78 72 001C 6A6176612E726D692E7365727665722E52656D6F74654F626A656374 D361B4910C61331E 03 0000 70 78 70 77 32 000A 556E6963617374526566 0009 3132372E302E302E32 0000044B
first 0000000000000010 00000007 0000000000000009 0000 01 78
second 0000000000000011 00000007 0000000000000009 0000 01 78
ids 75 72 0018 5B4C6A6176612E726D692E7365727665722E4F626A49443B 871300B8D02C647E 02 0000 70 78 70
id 73 72 0015 6A6176612E726D692E7365727665722E4F626A4944 A75EFA128DDCE55C 02 0002 4A 0006 6F626A4E756D 4C 0005 7370616365 74 0015 4C6A6176612F726D692F7365727665722F5549443B 70 78 70
id_again 71 007E0004
id_next 73 71 007E0002
space_next 73 71 007E0005
in_space 73 72 0013 6A6176612E726D692E7365727665722E554944 0F12700DBF364F12 02 0003 53 0005 636F756E74 4A 0004 74696D65 49 0006 756E69717565 70 78 70 0000 0000000000000009 00000007
number 77 08
ack_first 54 00000002 0000000000000002 8000
ack_unknown 54 00000009 0000000000000009 8000
asks 73 72 0012 6A6176612E726D692E6467632E4C65617365 B0B5E2660C4ADC34 02 0002 4A 0005 76616C7565 4C 0004 766D6964 74 0013 4C6A6176612F726D692F6467632F564D49443B 70 78 70
lease 73 72 0012 6A6176612E726D692E6467632E4C65617365 B0B5E2660C4ADC34 02 0002 4A 0005 76616C7565 4C 0004 766D6964 74 0013 4C6A6176612F726D692F6467632F564D49443B 70 78 70 00000000000927C0
client_after 73 72 0011 6A6176612E726D692E6467632E564D4944 F8865BAFA4A56DB6 02 0002 5B 0004 61646472 74 0002 5B42 4C 0003 756964 71 007E0003 70 78 70 75 72 0002 5B42 ACF317F8060854E0 02 0000 70 78 70 00000008 0102030405060708 73 71 007E0005 0005 0000000000000004 00000003
client 73 72 0011 6A6176612E726D692E6467632E564D4944 F8865BAFA4A56DB6 02 0002 5B 0004 61646472 74 0002 5B42 4C 0003 756964 74 0015 4C6A6176612F726D692F7365727665722F5549443B 70 78 70 75 72 0002 5B42 ACF317F8060854E0 02 0000 70 78 70 00000008
identifier 73 72 0013 6A6176612E726D692E7365727665722E554944 0F12700DBF364F12 02 0003 53 0005 636F756E74 4A 0004 74696D65 49 0006 756E69717565 70 78 70";

/// Rows of connections. Each has the bytes that a connection gets after its opening, the outcomes of its invocations,
/// and the bytes that it is answered after the acknowledgement. Then come the requests to the space, the methods that
/// are invoked, by their places, and the end.
const LINES: &str = "call echo 70 | null | return 0F 01 uid 8000 70 | begin finish | 0 | Ended
call add 77 08 0000000000000005 | 6 | return 17 01 uid 8000 0000000000000006 | begin finish | 1 | Ended
call done | void | return 0F 01 uid 8000 | begin finish | 2 | Ended
call done | fault | return 0F 02 uid 8000 exception 0001 78 78 70 | begin abandon | 2 | Ended
call echo 70 | 6 | return 0F 02 uid 8000 exception wrong 78 70 | begin abandon | 0 | Ended
call add 77 08 0000000000000005 call done | void void | return 0F 02 uid 8000 exception wrong 78 70 return 0F 01 uid 8001 | begin abandon begin finish | 1 2 | Ended
call FFFFFFFF 0000000000000001 70 | null | return 0F 02 uid 8000 exception absent 78 70 | begin abandon | | NoSuchMethod { operation: -1, hash: 1 }
call 00000000 0000000000000001 70 | null | return 0F 02 uid 8000 exception absent 78 70 | begin abandon | | NoSuchMethod { operation: 0, hash: 1 }
call done | memory | | begin abandon | 2 | OutOfMemory
call echo | null | | begin abandon | | Truncated { at: 54 }
call add 77 04 00000000 | 6 | | begin abandon | | Truncated { at: 60 }
call add 70 | 6 | | begin abandon | | BadStream { kind: MissingBlock, at: 54 }
call done call echo 70 ping | void null | return 0F 01 uid 8000 return 0F 01 uid 8001 70 pong | begin finish begin finish | 2 0 | Ended
call done ping call done | fault void | return 0F 02 uid 8000 exception 0001 78 78 70 pong return 0F 01 uid 8001 | begin abandon begin finish | 2 2 | Ended
call add 77 08 0000000000000005 call add 77 08 0000000000000005 call done | 6 7 | return 17 01 uid 8000 0000000000000006 return 17 01 uid 8001 0000000000000007 return 0F 01 uid 8002 | begin finish begin finish begin finish | 1 1 2 | Ended";

/// A reference of the object, as a client writes it.
const OWN: &str = "here 0000000000000010 00000007 0000000000000009 0000 00 78";

/// Appends the bytes of a word, or of hex digits.
fn put_word(rt: &impl Abort, bytes: &mut ByteList, word: &str) {
    put_digits(rt, bytes, word);
    for line in WORDS.split('\n') {
        let (name, digits) = cut(line, ' ');
        if name == word {
            put_digits(rt, bytes, digits);
        }
    }
}

/// Appends the bytes of a text after `=`, in which `_` is a blank, or of a word.
fn put_part(rt: &impl Abort, bytes: &mut ByteList, part: &str) {
    match part.strip_prefix('=') {
        Some(text) => put_text(rt, bytes, text),
        None => put_word(rt, bytes, part),
    }
}

/// Appends the bytes of a part; of one after a number and `*`, so many times.
fn put_any(rt: &impl Abort, alloc: Global, bytes: &mut ByteList, word: &str) {
    match word.split_once('*') {
        Some((count, part)) => put_times(rt, alloc, bytes, part, number_of(rt, count)),
        None => put_part(rt, bytes, word),
    }
}

/// Appends the bytes of a text, in which `_` is a blank.
fn put_text(rt: &impl Abort, bytes: &mut ByteList, text: &str) {
    for byte in text.as_bytes() {
        put(rt, bytes, &[if *byte == b'_' { b' ' } else { *byte }]);
    }
}

/// Appends the bytes of a part so many times.
fn put_times(rt: &impl Abort, alloc: Global, bytes: &mut ByteList, part: &str, count: u32) {
    let mut piece = ByteList::new(alloc);
    put_part(rt, &mut piece, part);
    for _ in 0..count {
        put(rt, bytes, piece.as_slice());
    }
}

/// The bytes of words, after those of one.
pub(crate) fn bytes_of(rt: &impl Abort, alloc: Global, front: &str, words: &str) -> ByteList {
    let mut bytes = ByteList::new(alloc);
    put_word(rt, &mut bytes, front);
    for word in words.split(' ') {
        put_any(rt, alloc, &mut bytes, word);
    }
    bytes
}

/// The graph of a reference of the object, as a client wrote it.
fn reference(rt: &impl Abort, alloc: Global) -> Graph {
    let bytes = bytes_of(rt, alloc, "magic", OWN);
    let mut source = MemSource::new(bytes, Kinds::new(alloc), Kinds::new(alloc));
    let mut pull = Pull::new(&mut source);
    read_to_end(alloc, &mut pull).expect(rt, "a reference")
}

/// The outcome of an invocation. A word that names none is a number.
fn outcome_of(rt: &impl Abort, alloc: Global, word: &str) -> Outcome {
    match word {
        "void" => Outcome::Void,
        "null" => Outcome::Tree(null_graph(rt, alloc)),
        "own" => Outcome::Tree(reference(rt, alloc)),
        "new" => Outcome::NewRemote(0),
        "new7" => Outcome::NewRemote(7),
        "old" => Outcome::OldRemote(FIRST, 0),
        "old7" => Outcome::OldRemote(FIRST, 7),
        "fault" => Outcome::Fault(units_of(rt, alloc, "x")),
        "memory" => Outcome::OutOfMemory,
        _ => Outcome::Prim(Value::Long(word.parse::<i64>().expect(rt, word))),
    }
}

/// The outcomes of invocations.
pub(crate) fn outcomes_of(rt: &impl Abort, alloc: Global, words: &str) -> OutcomeList {
    let mut outcomes = OutcomeList::new(alloc);
    for word in words.split(' ') {
        if !word.is_empty() {
            let outcome = outcome_of(rt, alloc, word);
            must(rt, outcomes.push(outcome).is_ok(), "memory");
        }
    }
    outcomes
}

/// The methods of the kind.
fn methods(rt: &impl Abort, alloc: Global) -> MethodList {
    let mut methods = MethodList::new(alloc);
    for line in METHODS.split('\n') {
        let method = Method::parse(alloc, line.as_bytes()).expect(rt, line);
        must(rt, methods.push(method).is_ok(), "memory");
    }
    methods
}

/// The kind of the object.
fn kind(rt: &impl Abort, alloc: Global) -> Kind {
    Kind {
        interface: units_of(rt, alloc, "a.B"),
        methods: methods(rt, alloc),
    }
}

/// The book of the one kind.
pub(crate) fn book(rt: &impl Abort, alloc: Global) -> Book {
    let kind = kind(rt, alloc);
    assert!(rt; kind.methods.len() == 3, "the methods");
    assert!(rt; encoded_len(&kind.interface) <= 255, "a short name");
    let mut kinds = KindList::new(alloc);
    must(rt, kinds.push(kind).is_ok(), "memory");
    Book::new(alloc, kinds).expect(rt, "a book")
}

/// The text `127.0.0.1`, which has few enough bytes for a host.
fn this_host(rt: &impl Abort, alloc: Global) -> Units
    ensures { length (utf result) ≤ 255 }
{
    let host = units_of(rt, alloc, "127.0.0.1");
    assert!(rt; encoded_len(&host) <= 255, "a short host");
    host
}

/// The settings of a connection.
pub(crate) fn setup(rt: &impl Abort, alloc: Global, binding: bool) -> Setup
    ensures draw { result.draw ≡ record { unique = pos 2; time = pos 2; drawn = 0 } }
    ensures peer_host { length (utf result.peer_host) ≤ 255 }
    ensures host { length (utf result.host) ≤ 255 }
{
    Setup {
        by: 1,
        peer_host: this_host(rt, alloc),
        peer_port: 1234,
        host: this_host(rt, alloc),
        port: 1099,
        binding,
        draw: UidDraw::new(2, 2),
        mark: [0xFA, 0xFB, 0xFC, 0xFD, 0xFE, 0xFF, 0, 1],
    }
}

/// The contents of a row of connections: the state of the space beforehand, and the moments of its turns; the bytes
/// that are written, the requests to the space, and the calls of the worker; and the events that the space has then.
#[derive(Clone, Copy)]
struct Wanted<'a> {
    ground: &'a str,
    moments: &'a str,
    output: &'a [u8],
    entries: &'a str,
    places: &'a str,
    events: &'a str,
}

/// The streams and the clock that serve a connection.
#[derive(Drop)]
struct Wires {
    source: MemSource,
    sink: MemSink,
    clock: MemClock,
}

/// The streams of a client that sends these bytes, and a clock of these moments.
fn wires_of(rt: &impl Abort, alloc: Global, input: &[u8], moments: &str) -> Wires {
    let bytes = bytes_from(rt, alloc, input);
    Wires {
        source: MemSource::new(bytes, Kinds::new(alloc), Kinds::new(alloc)),
        sink: MemSink::new(alloc, Kinds::new(alloc)),
        clock: MemClock::new(moments_of(rt, alloc, moments)),
    }
}

/// Returns whether these words tell a port's entries.
fn are_asked(rt: &impl Abort, alloc: Global, port: DirectPort<'_>, entries: &str) -> bool {
    let asked = port.into_asked().to_list(alloc).expect(rt, "memory");
    are_entries(asked.as_slice(), entries)
}

/// Serves a connection, and answers how it ended, where the space is asked what it should be.
fn serve_at(
    rt: &impl Abort,
    alloc: Global,
    book: &Book,
    setup: &mut Setup,
    wires: &mut Wires,
    space: &mut Space,
    worker: &mut RecordingWorker,
    entries: &str,
) -> ConnEnd
    requires peer_host { length (utf setup.old.peer_host) ≤ 255 }
    requires host { length (utf setup.old.host) ≤ 255 }
    requires draw { setup.old.draw ≡ record { unique = pos 2; time = pos 2; drawn = 0 } }
    requires calls { worker.old.calls ≡ 0 }
{
    let mut port = DirectPort::new(alloc, space, 1);
    let end = serve_connection(
        alloc,
        &mut wires.source,
        &mut wires.sink,
        &mut wires.clock,
        &mut port,
        worker,
        book,
        setup,
    );
    must(rt, are_asked(rt, alloc, port, entries), "asked");
    end
}

/// Serves a connection that sends these bytes, and answers how it ended, where what is written and asked is as it is wanted.
fn serve_over(
    rt: &impl Abort,
    alloc: Global,
    book: &Book,
    input: &[u8],
    wanted: Wanted,
    space: &mut Space,
    worker: &mut RecordingWorker,
) -> ConnEnd
    requires calls { worker.old.calls ≡ 0 }
{
    let mut setup = setup(rt, alloc, wanted.ground != "closed");
    let mut wires = wires_of(rt, alloc, input, wanted.moments);
    let entries = wanted.entries;
    let end = serve_at(
        rt, alloc, book, &mut setup, &mut wires, space, worker, entries,
    );
    must(rt, wires.sink.bytes() == wanted.output, "written");
    end
}

/// Serves a connection that sends these bytes, and answers how it ended, where all else is as it is wanted.
fn serve(
    rt: &impl Abort,
    alloc: Global,
    book: &Book,
    input: &[u8],
    outcomes: OutcomeList,
    wanted: Wanted,
) -> ConnEnd {
    let mut worker = RecordingWorker::new(alloc, outcomes);
    let mut space = space_of(rt, alloc, wanted.ground);
    let end = serve_over(rt, alloc, book, input, wanted, &mut space, &mut worker);
    must(rt, are_invoked(worker.records(), wanted.places), "invoked");
    must(rt, are_events(rt, alloc, &space, wanted.events), "events");
    end
}

/// Serves a connection that sends these bytes, over a space of one object in which no name can be bound, and answers how it ended, where this is
/// written, this is asked, and nothing is invoked.
pub(crate) fn end_of(
    rt: &impl Abort,
    alloc: Global,
    book: &Book,
    input: &[u8],
    output: &[u8],
    entries: &str,
) -> ConnEnd {
    let wanted = Wanted {
        ground: "closed",
        moments: "",
        output,
        entries,
        places: "",
        events: "",
    };
    serve(rt, alloc, book, input, OutcomeList::new(alloc), wanted)
}

/// Returns whether an end is told by this text.
pub(crate) fn is_told(rt: &impl Abort, alloc: Global, end: ConnEnd, text: &str) -> bool {
    let told = format!(in alloc; "{end:?}").expect(rt, "memory");
    told.as_str() == text
}

/// Serves what a line says, over a space of one object in which no name can be bound, at the moment 0, and checks the rest of it.
pub(crate) fn check_line(rt: &impl Abort, alloc: Global, book: &Book, line: &str) {
    check_rest(rt, alloc, book, ("closed", ""), line);
}

/// Serves what a line says that begins with the space and the moments, and checks the rest of it.
pub(crate) fn check_over(rt: &impl Abort, alloc: Global, book: &Book, line: &str) {
    let (ground, rest) = cut(line, '|');
    let (moments, rest) = cut(rest, '|');
    check_rest(rt, alloc, book, (ground, moments), rest);
}

/// Serves what a line says over this space, at these moments, and checks the rest of it.
fn check_rest(rt: &impl Abort, alloc: Global, book: &Book, over: (&str, &str), line: &str) {
    let (ground, moments) = over;
    let (input, rest) = cut(line, '|');
    let (outcomes, rest) = cut(rest, '|');
    let (output, rest) = cut(rest, '|');
    let (entries, rest) = cut(rest, '|');
    let (places, rest) = cut(rest, '|');
    let (end, events) = cut(rest, '|');
    let input = bytes_of(rt, alloc, "opening", input);
    let output = bytes_of(rt, alloc, "ack", output);
    let outcomes = outcomes_of(rt, alloc, outcomes);
    let wanted = Wanted {
        ground,
        moments,
        output: output.as_slice(),
        entries,
        places,
        events,
    };
    let found = serve(rt, alloc, book, input.as_slice(), outcomes, wanted);
    must(rt, is_told(rt, alloc, found, end), line);
}

#[test]
fn calls_are_served(rt: HostRuntime) {
    let book = book(&rt, rt.alloc());
    for line in LINES.split('\n') {
        check_line(&rt, rt.alloc(), &book, line);
    }
}
