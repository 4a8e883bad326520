//! The bytes that a client sends over a link in memory, and the answers of its calls there.
use crate::texts::{
    must, name, put, put_answer, put_at, put_end, put_reference, put_returned, put_units, units,
};
use crate::words::wire_of;
use class_desc::{Items, TypeCode};
use dgc_client::Plan;
use java_shapes::LiveRef;
use jrmp_frames::CallHead;
use mod_utf::utf::encoded_len;
use object_ids::{ObjId, ObjIds, Uid, Vmid};
use rmi_client::{ClientEnd, Session};
use sequence::{ByteList, Kinds, Units};
use ser_values::{Builder, Graph};
use std::alloc::Global;
use std::process::Abort;
use test_support::texts::{cut, numbers_of};
use wire_io::{MemSink, MemSource};

/// The calls of a session, in order; the indices of the writes that fail; what the server sends; what the client sends; and what its calls answer,
/// the beginning among them.
const TALKS: &str = " : : 4E 0000 00000000 : 4A524D49 0002 4B 0001 68 00000000 : begun
 : : 4F : 4A524D49 0002 4B : nack
 : : 51 : 4A524D49 0002 4B : not return at 0
 : : : 4A524D49 0002 4B : truncated at 0
 : : 4E 00 : 4A524D49 0002 4B : truncated at 2
 : 0 : 4E 0000 00000000 : : write fault after 0
 : 1 : 4E 0000 00000000 : 4A524D49 0002 4B : write fault after 7
ping ping : : 4E 0000 00000000 53 : 4A524D49 0002 4B 0001 68 00000000 52 52 : begun ok truncated at 8
ping ping : : 4E 0000 00000000 51 : 4A524D49 0002 4B 0001 68 00000000 52 : begun not return at 7 over
ping ack : 2 : 4E 0000 00000000 53 : 4A524D49 0002 4B 0001 68 00000000 : begun write fault after 0 over
ack ping : : 4E 0000 00000000 53 : 4A524D49 0002 4B 0001 68 00000000 54 00000001 0000000000000002 0003 52 : begun ok ok
call ack : : 4E 0000 00000000 51 ACED0005 77 0F 01 00000006 0000000000000006 8000 : 4A524D49 0002 4B 0001 68 00000000 50 ACED0005 77 22 0000000000000010 00000007 0000000000000009 0000 FFFFFFFF 0000000000000005 54 00000001 0000000000000002 0003 : begun answer 6/6/-32768 void ok
unbind call : : 4E 0000 00000000 51 ACED0005 77 0F 02 00000006 0000000000000006 8000 70 : 4A524D49 0002 4B 0001 68 00000000 50 ACED0005 77 22 0000000000000000 00000000 0000000000000000 0000 00000004 44154DC9D4E63BDF 74 0004 6563686F : begun wrong shape at 30 over
unbind : : 4E 0000 00000000 51 ACED0005 77 0F 01 00000006 0000000000000006 8000 : 4A524D49 0002 4B 0001 68 00000000 50 ACED0005 77 22 0000000000000000 00000000 0000000000000000 0000 00000004 44154DC9D4E63BDF 74 0004 6563686F : begun ok
lookup ping : : 4E 0000 00000000 51 ACED0005 77 0F 01 00000006 0000000000000006 8000 70 : 4A524D49 0002 4B 0001 68 00000000 50 ACED0005 77 22 0000000000000000 00000000 0000000000000000 0000 00000002 44154DC9D4E63BDF 74 0004 6563686F : begun wrong shape at 30 over
lookup ping : : 4E 0000 00000000 51 ACED0005 77 0F 02 00000006 0000000000000006 8000 73 72 0013 6A6176612E6C616E672E5468726F7761626C65 D5C635273977B8CB 03 0001 4C 000D 64657461696C4D657373616765 74 0012 4C6A6176612F6C616E672F537472696E673B 70 78 70 74 0002 6869 78 53 : 4A524D49 0002 4B 0001 68 00000000 50 ACED0005 77 22 0000000000000000 00000000 0000000000000000 0000 00000002 44154DC9D4E63BDF 74 0004 6563686F 52 : begun remote fault java.lang.Throwable: hi ok
list : : 4E 0000 00000000 51 ACED0005 77 0F 01 00000006 0000000000000006 8000 75 72 0013 5B4C6A6176612E6C616E672E537472696E673B ADD256E7E91D7B47 02 0000 70 78 70 00000002 74 0004 6563686F 71 007E0002 : 4A524D49 0002 4B 0001 68 00000000 50 ACED0005 77 22 0000000000000000 00000000 0000000000000000 0000 00000001 44154DC9D4E63BDF : begun 2 names echo
lookup ack : : ACK NORMAL ECHO PROXY LIVE 01 78 : HEAD 0001 68 00000000 REG 00000002 NAMING 74 =echo 54 00000001 0000000000000002 0003 : begun 127.0.0.1 1099 16:7/9/0 flagged ok
lookup ping : : ACK NORMAL REMOTE PROXY LIVE 00 78 53 : HEAD 0001 68 00000000 REG 00000002 NAMING 74 =echo 52 : begun 127.0.0.1 1099 16:7/9/0 ok
lookup ping : 2 : ACK NORMAL ECHO PROXY LIVE 01 78 : HEAD 0001 68 00000000 : begun write fault after 0 over
bind : : ACK NORMAL : HEAD 0001 68 00000000 REG 00000000 NAMING 74 =echo REMOTE PROXY LIVE 00 78 : begun ok
bind ping : : ACK THROWN FAULT 74 =hi 78 70 53 : HEAD 0001 68 00000000 REG 00000000 NAMING 74 =echo REMOTE PROXY LIVE 00 78 52 : begun remote fault java.rmi.RemoteException: hi ok
bind unbind : 2 : ACK NORMAL : HEAD 0001 68 00000000 : begun write fault after 0 over
unbind bind : 3 : ACK NORMAL NORMAL : HEAD 0001 68 00000000 REG 00000004 NAMING 74 =echo : begun ok write fault after 0
dirty : : ACK NORMAL LEASE 00000000000927C0 HOLDER : HEAD 0001 68 00000000 DGC 00000001 LEASING OBJECTS 77 08 8000000000000000 LEASE 00000000000927C0 CALLER : begun granted 600000
clean : : ACK NORMAL : HEAD 0001 68 00000000 DGC 00000000 LEASING OBJECTS 77 08 8000000000000000 CALLER 77 01 00 : begun granted 0
strong dirty : 3 : ACK NORMAL : HEAD 0001 68 00000000 DGC 00000000 LEASING OBJECTS 77 08 8000000000000000 CALLER 77 01 01 : begun granted 0 write fault after 0
dirty clean : : ACK NORMAL 70 : HEAD 0001 68 00000000 DGC 00000001 LEASING OBJECTS 77 08 8000000000000000 LEASE 00000000000927C0 CALLER : begun wrong shape at 39 over
clean clean : 2 : ACK NORMAL NORMAL : HEAD 0001 68 00000000 : begun write fault after 0 over";

/// The duration of a lease that a server grants, and the one that is taken, in milliseconds.
const GRANTS: &str = "0000000000000000 : 0
0000000000000001 : 1
000000FFFFFFFFFF : 1099511627775
0000010000000000 : 1099511627776
0000010000000001 : 1099511627776
7FFFFFFFFFFFFFFF : 1099511627776
FFFFFFFFFFFFFFFF : 0
8000000000000000 : 0";

/// A call, and what the server sends until the call is answered.
const WHOLES: &str = "lookup : ACK NORMAL ECHO PROXY LIVE 01 78
lookup : ACK THROWN FAULT 74 =hi 78 70
list : ACK NORMAL STRINGS 00000002 74 =echo 71 007E0002
bind : ACK NORMAL
bind : ACK THROWN FAULT 74 =hi 78 70
unbind : ACK NORMAL
call : ACK NORMAL
call : ACK THROWN FAULT 74 =hi 78 70
number : ACK LONG 000000000000000C
object : ACK NORMAL ECHO PROXY LIVE 01 78
ping : ACK 53
dirty : ACK NORMAL LEASE 00000000000927C0 HOLDER
clean : ACK NORMAL";

/// A call, what the server sends, and what is answered: lists of as many texts as make 65,536 nodes with the array and its class, and of one more; arrays in one another, 200 levels
/// deep and 201.
const LARGE: &str = "list : ACK NORMAL STRINGS 0000FFFE 65534*740000 : begun 65534 names
list : ACK NORMAL STRINGS 0000FFFF 65535*740000 : begun too large nodes at 196681
object : ACK NORMAL NESTED 00000001 199*7571007E000000000001 70 : begun answer 6/6/-32768 tree
object : ACK NORMAL NESTED 00000001 200*7571007E000000000001 70 : begun too large depth at 2069
lookup ping : ACK NORMAL NESTED 00000001 200*7571007E000000000001 70 : begun too large depth at 2069 over
bind ping : ACK THROWN NESTED 00000001 200*7571007E000000000001 70 : begun too large depth at 2069 over";

/// The session of a test.
type Tested = Session<MemSource, MemSink>;

/// Appends a blank and what a call without a result answers.
fn put_done(rt: &impl Abort, alloc: Global, out: &mut ByteList, done: &Result<(), ClientEnd>) {
    put(rt, out, b" ");
    match done {
        Ok(()) => put(rt, out, b"ok"),
        Err(end) => put_end(rt, alloc, out, end),
    }
}

/// The graph of no arguments.
pub(crate) fn no_arguments(rt: &impl Abort, alloc: Global) -> Graph {
    match Builder::new(alloc).finish(Items::new(alloc)) {
        Ok(graph) => graph,
        Err(_fault) => panic!(rt; "no arguments"),
    }
}

/// The object of this number in the server's space.
fn object(number: i64) -> ObjId {
    ObjId {
        number,
        space: Uid {
            unique: 7,
            time: 9,
            count: 0,
        },
    }
}

/// Calls a method without parameters, with a result of this type or without one.
fn put_call(
    rt: &impl Abort,
    alloc: Global,
    out: &mut ByteList,
    session: &mut Tested,
    want: Option<TypeCode>,
) {
    let head = CallHead {
        id: object(16),
        operation: -1,
        hash: 5,
    };
    let arguments = no_arguments(rt, alloc);
    put(rt, out, b" ");
    match session.call(&head, &arguments, want) {
        Ok(answer) => {
            put_answer(rt, alloc, out, &answer);
            put(rt, out, b" ");
            put_returned(rt, alloc, out, &answer);
        }
        Err(end) => put_end(rt, alloc, out, &end),
    }
}

/// Looks the name up.
fn put_lookup(rt: &impl Abort, alloc: Global, out: &mut ByteList, session: &mut Tested) {
    put(rt, out, b" ");
    match session.lookup(&name(rt, alloc, b"echo")) {
        Ok((_uid, found)) => put_reference(rt, alloc, out, &found),
        Err(end) => put_end(rt, alloc, out, &end),
    }
}

/// Appends how many names there are, and the first one, unless it is empty.
fn put_names(rt: &impl Abort, alloc: Global, out: &mut ByteList, names: &[Units]) {
    let text = format!(in alloc; " {} names", names.len()).expect(rt, "memory");
    put(rt, out, text.as_bytes());
    match names {
        [first, ..] if !first.is_empty() => {
            put(rt, out, b" ");
            put_units(rt, out, first);
        }
        _ => {}
    }
}

/// Lists the names.
fn put_list(rt: &impl Abort, alloc: Global, out: &mut ByteList, session: &mut Tested) {
    match session.list() {
        Ok(names) => put_names(rt, alloc, out, names.as_slice()),
        Err(end) => {
            put(rt, out, b" ");
            put_end(rt, alloc, out, &end);
        }
    }
}

/// Binds the name to object 16 of a server on this host.
fn put_bind(rt: &impl Abort, alloc: Global, out: &mut ByteList, session: &mut Tested) {
    let reference = LiveRef {
        host: units(rt, alloc, b"127.0.0.1"),
        port: 1099,
        id: object(16),
        result: true,
    };
    assert!(rt; encoded_len(&reference.host) <= 255, "a short host");
    put_done(
        rt,
        alloc,
        out,
        &session.bind(&name(rt, alloc, b"echo"), &reference),
    );
}

/// The client of lease calls.
pub(crate) fn caller(rt: &impl Abort, alloc: Global) -> Vmid {
    let mut addr = ByteList::new(alloc);
    put(rt, &mut addr, &[1, 2, 3, 4, 5, 6, 7, 8]);
    let uid = Uid {
        unique: 3,
        time: 4,
        count: 5,
    };
    Vmid::new(addr, uid).expect(rt, "a short address")
}

/// The objects of lease calls: 17.
fn lease_objects(rt: &impl Abort, alloc: Global) -> ObjIds {
    let mut ids = ObjIds::new(alloc);
    must(rt, ids.push(object(17)).is_ok(), "memory");
    ids
}

/// Sends a lease call, which asks for 600,000 milliseconds.
fn put_renew(
    rt: &impl Abort,
    alloc: Global,
    out: &mut ByteList,
    session: &mut Tested,
    plan: &Plan,
) {
    put(rt, out, b" ");
    match session.renew(&caller(rt, alloc), plan, 600_000) {
        Ok(granted) => put_at(rt, alloc, out, "granted", granted),
        Err(end) => put_end(rt, alloc, out, &end),
    }
}

/// Sends the first dirty call.
fn put_dirty(rt: &impl Abort, alloc: Global, out: &mut ByteList, session: &mut Tested) {
    let plan = Plan::Dirty {
        number: i64::MIN,
        ids: lease_objects(rt, alloc),
    };
    put_renew(rt, alloc, out, session, &plan);
}

/// Sends a clean call.
fn put_clean(
    rt: &impl Abort,
    alloc: Global,
    out: &mut ByteList,
    session: &mut Tested,
    strong: bool,
) {
    let plan = Plan::Clean {
        number: i64::MIN,
        ids: lease_objects(rt, alloc),
        strong,
    };
    put_renew(rt, alloc, out, session, &plan);
}

/// Makes the call of this name, and appends what it answers.
fn put_talk(rt: &impl Abort, alloc: Global, out: &mut ByteList, session: &mut Tested, call: &str) {
    let uid = Uid {
        unique: 1,
        time: 2,
        count: 3,
    };
    match call {
        "" => {}
        "ping" => put_done(rt, alloc, out, &session.ping()),
        "ack" => put_done(rt, alloc, out, &session.ack(uid)),
        "call" => put_call(rt, alloc, out, session, None),
        "number" => put_call(rt, alloc, out, session, Some(TypeCode::Long)),
        "object" => put_call(rt, alloc, out, session, Some(TypeCode::Object)),
        "lookup" => put_lookup(rt, alloc, out, session),
        "list" => put_list(rt, alloc, out, session),
        "bind" => put_bind(rt, alloc, out, session),
        "dirty" => put_dirty(rt, alloc, out, session),
        "clean" => put_clean(rt, alloc, out, session, false),
        "strong" => put_clean(rt, alloc, out, session, true),
        "unbind" => put_done(rt, alloc, out, &session.unbind(&name(rt, alloc, b"echo"))),
        _ => must(rt, false, call),
    }
}

/// Begins a session, makes these calls, and appends what each answers; gives what the client sent.
fn talk(
    rt: &impl Abort,
    alloc: Global,
    out: &mut ByteList,
    halves: (MemSource, MemSink),
    calls: &str,
) -> MemSink {
    let host = units(rt, alloc, b"h");
    assert!(rt; encoded_len(&host) <= 255, "a short host");
    let (source, sink) = halves;
    match Session::begin(alloc, source, sink, &host) {
        Ok(session) => {
            let mut session = session;
            put(rt, out, b"begun");
            for call in calls.split(' ') {
                put_talk(rt, alloc, out, &mut session, call);
            }
            session.close().sink
        }
        Err(refusal) => {
            let (end, halves) = refusal.into_parts();
            put_end(rt, alloc, out, &end);
            halves.sink
        }
    }
}

/// The halves of a link over which a server sends these bytes.
fn halves_of(rt: &impl Abort, alloc: Global, server: &[u8], failing: &str) -> (MemSource, MemSink) {
    let mut bytes = ByteList::new(alloc);
    put(rt, &mut bytes, server);
    let source = MemSource::new(bytes, Kinds::new(alloc), Kinds::new(alloc));
    let failing = numbers_of(alloc, failing).expect(rt, "numbers");
    (source, MemSink::new(alloc, failing))
}

#[test]
fn sessions_talk(rt: HostRuntime) {
    for line in TALKS.split('\n') {
        let (calls, rest) = cut(line, ':');
        let (failing, rest) = cut(rest, ':');
        let (server, rest) = cut(rest, ':');
        let (sent, wanted) = cut(rest, ':');
        let server = wire_of(&rt, rt.alloc(), server);
        let halves = halves_of(&rt, rt.alloc(), server.as_slice(), failing);
        let mut out = ByteList::new(rt.alloc());
        let sink = talk(&rt, rt.alloc(), &mut out, halves, calls);
        let found = out.as_slice();
        assert!(rt; found == wanted.as_bytes(), "{line}");
        let digits = wire_of(&rt, rt.alloc(), sent);
        assert!(rt; sink.bytes() == digits.as_slice(), "{line}");
    }
}

/// The text of what these calls answer over a session that is begun for them, where a server sends these bytes.
pub(crate) fn text_of_talk(rt: &impl Abort, alloc: Global, calls: &str, server: &[u8]) -> ByteList {
    let mut out = ByteList::new(alloc);
    let halves = halves_of(rt, alloc, server, "");
    drop(talk(rt, alloc, &mut out, halves, calls));
    out
}

/// The text of what the client takes where a server grants a lease of this duration.
fn text_of_grant(rt: &impl Abort, alloc: Global, value: &str) -> ByteList {
    let mut server = wire_of(rt, alloc, "ACK NORMAL LEASE");
    put(rt, &mut server, wire_of(rt, alloc, value).as_slice());
    put(rt, &mut server, &[0x70]);
    text_of_talk(rt, alloc, "dirty", server.as_slice())
}

/// The lease has no client: it is taken all the same.
#[test]
fn granted_durations_are_bounded(rt: HostRuntime) {
    for line in GRANTS.split('\n') {
        let (value, taken) = cut(line, ':');
        let out = text_of_grant(&rt, rt.alloc(), value);
        let text = out.as_slice();
        assert!(rt;
            text.strip_prefix(b"begun granted ") == Some(taken.as_bytes()),
            "{line}"
        );
    }
}

#[test]
fn answers_that_are_too_large_are_refused(rt: HostRuntime) {
    for line in LARGE.split('\n') {
        let (calls, rest) = cut(line, ':');
        let (server, wanted) = cut(rest, ':');
        let server = wire_of(&rt, rt.alloc(), server);
        let out = text_of_talk(&rt, rt.alloc(), calls, server.as_slice());
        let found = out.as_slice();
        assert!(rt; found == wanted.as_bytes(), "{line}");
    }
}

/// Makes a call whose answer is cut short behind these bytes.
fn check_cut(rt: &impl Abort, alloc: Global, call: &str, server: &[u8]) {
    let mut wanted = ByteList::new(alloc);
    let word = if server.len() < 16 {
        "truncated at"
    } else {
        "begun truncated at"
    };
    put_at(rt, alloc, &mut wanted, word, server.len() as u64);
    let out = text_of_talk(rt, alloc, call, server);
    must(rt, out.as_slice() == wanted.as_slice(), call);
}

/// Makes a call once for each proper prefix of what the server sends.
fn check_cuts(rt: &impl Abort, alloc: Global, call: &str, server: &[u8]) {
    for end in 0..server.len() {
        check_cut(rt, alloc, call, &server[..end]);
    }
}

#[test]
fn answers_cut_short_are_truncated_at_their_end(rt: HostRuntime) {
    for line in WHOLES.split('\n') {
        let (call, server) = cut(line, ':');
        let server = wire_of(&rt, rt.alloc(), server);
        check_cuts(&rt, rt.alloc(), call, server.as_slice());
    }
}
