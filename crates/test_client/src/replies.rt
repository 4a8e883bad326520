//! The bytes that a server sends, and the answers of reading them as a reply.
ghost use Rattle.std.specs.Prelude.{◌≤◌};
ghost use Rattle.wire_io.specs.declared.limits.TheConstants.{LAST_POSITION};

use crate::texts::{bytes_of, must, put, put_answer, put_at, put_end};
use class_desc::TypeCode;
use rmi_client::{ClientEnd, hear_ack, hear_answer, hear_ping};
use sequence::{ByteList, Kinds};
use std::alloc::Global;
use std::process::Abort;
use test_support::texts::cut;
use wire_io::MemSource;

/// The reply that is read (an acknowledgement, that of a Ping, or the Return of a method without a result, with a `long` or with an object),
/// what the server sends, and the answer or the end, with the position that is reached.
const REPLIES: &str = "ack : 4E 0000 00000000 : ok, at 7
ack : 4E 0009 3132372E302E302E31 0000CAFE : ok, at 16
ack : 4E 0002 FFFF 00000000 51 : ok, at 9
ack : 4F : nack, at 1
ack : 4D : not return at 0, at 1
ack : 51 : not return at 0, at 1
ack : : truncated at 0, at 0
ack : 4E : truncated at 1, at 1
ack : 4E 00 : truncated at 2, at 2
ack : 4E 0000 000000 : truncated at 6, at 6
ack : 4E 0002 FF 00000000 : truncated at 8, at 8
ping : 53 : ok, at 1
ping : 53 51 : ok, at 1
ping : 51 : not return at 0, at 1
ping : : truncated at 0, at 0
void : 51 ACED0005 77 0F 01 00000006 0000000000000006 8000 : answer 6/6/-32768, at 22
void : 52 : not return at 0, at 1
void : : truncated at 0, at 0
void : 51 ACED0105 : bad stream bad magic at 3, at 4
void : 51 ACED0005 77 0F 03 00000006 0000000000000006 8000 : bad kind at 7, at 8
void : 51 ACED0005 77 10 01 00000006 0000000000000006 8000 00 : bad stream block left at 22, at 22
void : 51 ACED0005 70 : bad stream missing block at 5, at 6
void : 51 ACED0005 7B : bad stream inner exception at 5, at 6
void : 51 ACED0005 77 0F 02 00000006 0000000000000006 8000 70 : wrong shape at 23, at 23
long : 51 ACED0005 77 17 01 00000006 0000000000000006 8000 0000000000000005 : answer 6/6/-32768, at 30
long : 51 ACED0005 77 0F 01 00000006 0000000000000006 8000 70 : bad stream missing block at 22, at 23
object : 51 ACED0005 77 0F 01 00000006 0000000000000006 8000 70 : answer 6/6/-32768, at 23
object : 51 ACED0005 77 0F 01 00000006 0000000000000006 8000 71 007E0000 : bad stream bad handle at 22, at 27
object : 51 ACED0005 77 0F 01 00000006 0000000000000006 8000 79 : bad stream reset at 22, at 23
object : 51 ACED0005 77 0F 01 00000006 0000000000000006 8000 74 FFFF 61 : truncated at 26, at 26
object : 51 ACED0005 77 0F 02 00000006 0000000000000006 8000 73 72 0013 6A6176612E6C616E672E5468726F7761626C65 D5C635273977B8CB 03 0001 4C 000D 64657461696C4D657373616765 74 0012 4C6A6176612F6C616E672F537472696E673B 70 78 70 74 0002 6869 78 : remote fault java.lang.Throwable: hi, at 102";

/// Appends what a reply without a result answers.
fn put_done(rt: &impl Abort, alloc: Global, out: &mut ByteList, done: &Result<(), ClientEnd>) {
    match done {
        Ok(()) => put(rt, out, b"ok"),
        Err(end) => put_end(rt, alloc, out, end),
    }
}

/// The bytes that a server sends, and the number of them that were read.
#[derive(Drop)]
struct Input {
    source: MemSource,
    at: u64,
}

/// Appends what the Return of a method of this result type answers.
fn put_return(
    rt: &impl Abort,
    alloc: Global,
    out: &mut ByteList,
    input: &mut Input,
    want: Option<TypeCode>,
)
    requires { input.old.at ≤ LAST_POSITION }
{
    match hear_answer(alloc, &mut input.source, &mut input.at, want) {
        Ok(answer) => put_answer(rt, alloc, out, &answer),
        Err(end) => put_end(rt, alloc, out, &end),
    }
}

/// Appends what reading a reply of this name answers.
fn put_reply(rt: &impl Abort, alloc: Global, out: &mut ByteList, input: &mut Input, name: &str)
    requires { input.old.at ≤ LAST_POSITION }
{
    match name {
        "ack" => {
            let done = hear_ack(&mut input.source, &mut input.at);
            put_done(rt, alloc, out, &done);
        }
        "ping" => {
            let done = hear_ping(&mut input.source, &mut input.at);
            put_done(rt, alloc, out, &done);
        }
        "void" => put_return(rt, alloc, out, input, None),
        "long" => put_return(rt, alloc, out, input, Some(TypeCode::Long)),
        "object" => put_return(rt, alloc, out, input, Some(TypeCode::Object)),
        _ => must(rt, false, name),
    }
}

/// The text of what reading a reply of this name answers, and of the position that is reached.
fn hear_named(rt: &impl Abort, alloc: Global, sent: ByteList, name: &str) -> ByteList {
    let mut input = Input {
        source: MemSource::new(sent, Kinds::new(alloc), Kinds::new(alloc)),
        at: 0,
    };
    let mut out = ByteList::new(alloc);
    put_reply(rt, alloc, &mut out, &mut input, name);
    put_at(rt, alloc, &mut out, ", at", input.at);
    out
}

#[test]
fn replies_are_read(rt: HostRuntime) {
    for line in REPLIES.split('\n') {
        let (name, rest) = cut(line, ':');
        let (digits, wanted) = cut(rest, ':');
        let found = hear_named(&rt, rt.alloc(), bytes_of(&rt, rt.alloc(), digits), name);
        let text = found.as_slice();
        assert!(rt; text == wanted.as_bytes(), "{line}");
    }
}
