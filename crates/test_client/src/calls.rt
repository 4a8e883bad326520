//! The bytes that `call` sends over the two links that it dials, its readings of the clock, its answer, and the state
//! that it leaves.
ghost use Rattle.std.specs.List.{AllByRecursion};
ghost use Rattle.wire_io.specs.Links.{IsNew};

use crate::sessions::{caller, no_arguments};
use crate::talks::{Wires, check_left, put_command_end, put_link, server_place};
use crate::texts::{must, name, put, put_returned};
use class_desc::{Item, Items, TypeCode};
use client_talk::{Caller, CommandEnd, MethodCall, Request, call};
use rmi_client::Answer;
use sequence::ByteList;
use ser_values::{Builder, Graph};
use std::alloc::Global;
use std::process::Abort;
use test_support::texts::{cut, moments_of};
use wire_io::{MemClock, MemDialer, MemLinks};

/// The method that is called; the indices of the writes that fail on each link, which `/` parts; the moments that the clock gives; what the servers
/// send on the two links, which `/` parts, or `none` where no link is left; what the client sends on each; and how often it reads the clock and what it
/// answers. `add` has the argument 5 and answers a number, `make` answers a reference, and `touch` nothing. `late` is `touch` of a client that has no number
/// left for a lease call, and `last` is that of one that has one left.
const CALLS: &str =
    "add : : 0 : ACK NORMAL ECHO PROXY LIVE 01 78 / ACK NORMAL LEASE 00000000000927C0 HOLDER LONG 000000000000000C NORMAL : HEAD OWN REG 00000002 NAMING 74 =echo 54 UID0 / HEAD OWN DGC 00000001 LEASING HELD 77 08 8000000000000000 LEASE 00000000000927C0 CALLER ADD DGC 00000000 LEASING HELD 77 08 8000000000000001 CALLER 77 01 00 : 3 number 12
add : : 0 : ACK NORMAL ECHO PROXY LIVE 00 78 / ACK NORMAL LEASE 00000000000927C0 HOLDER LONG 000000000000000C NORMAL : HEAD OWN REG 00000002 NAMING 74 =echo / HEAD OWN DGC 00000001 LEASING HELD 77 08 8000000000000000 LEASE 00000000000927C0 CALLER ADD DGC 00000000 LEASING HELD 77 08 8000000000000001 CALLER 77 01 00 : 3 number 12
touch : : 0 : ACK NORMAL ECHO PROXY LIVE 01 78 / ACK NORMAL LEASE 00000000000927C0 HOLDER NORMAL NORMAL : HEAD OWN REG 00000002 NAMING 74 =echo 54 UID0 / HEAD OWN DGC 00000001 LEASING HELD 77 08 8000000000000000 LEASE 00000000000927C0 CALLER TOUCH DGC 00000000 LEASING HELD 77 08 8000000000000001 CALLER 77 01 00 : 3 void
make : : 0 : ACK NORMAL ECHO PROXY LIVE 01 78 / ACK NORMAL LEASE 00000000000927C0 HOLDER NORMAL ECHO PROXY MADE 01 78 NORMAL LEASE 00000000000927C0 HOLDER NORMAL NORMAL : HEAD OWN REG 00000002 NAMING 74 =echo 54 UID0 / HEAD OWN DGC 00000001 LEASING HELD 77 08 8000000000000000 LEASE 00000000000927C0 CALLER TOUCH DGC 00000001 LEASING OBJECTS 77 08 8000000000000001 LEASE 00000000000927C0 CALLER 54 UID0 DGC 00000000 LEASING HELD 77 08 8000000000000002 CALLER 77 01 00 DGC 00000000 LEASING OBJECTS 77 08 8000000000000003 CALLER 77 01 00 : 6 tree
make : : 0 599999 : ACK NORMAL ECHO PROXY LIVE 01 78 / ACK NORMAL LEASE 00000000000927C0 HOLDER NORMAL ECHO PROXY MADE 01 78 NORMAL LEASE 00000000000927C0 HOLDER NORMAL NORMAL : HEAD OWN REG 00000002 NAMING 74 =echo 54 UID0 / HEAD OWN DGC 00000001 LEASING HELD 77 08 8000000000000000 LEASE 00000000000927C0 CALLER TOUCH DGC 00000001 LEASING OBJECTS 77 08 8000000000000001 LEASE 00000000000927C0 CALLER 54 UID0 DGC 00000000 LEASING HELD 77 08 8000000000000002 CALLER 77 01 00 DGC 00000000 LEASING OBJECTS 77 08 8000000000000003 CALLER 77 01 00 : 6 tree
make : : 0 600000 : ACK NORMAL ECHO PROXY LIVE 01 78 / ACK NORMAL LEASE 00000000000927C0 HOLDER NORMAL ECHO PROXY MADE 01 78 NORMAL LEASE 00000000000927C0 HOLDER NORMAL NORMAL : HEAD OWN REG 00000002 NAMING 74 =echo 54 UID0 / HEAD OWN DGC 00000001 LEASING HELD 77 08 8000000000000000 LEASE 00000000000927C0 CALLER TOUCH DGC 00000001 LEASING BOTH 77 08 8000000000000001 LEASE 00000000000927C0 CALLER 54 UID0 DGC 00000000 LEASING HELD 77 08 8000000000000002 CALLER 77 01 00 DGC 00000000 LEASING OBJECTS 77 08 8000000000000003 CALLER 77 01 00 : 6 tree
make : : 0 599999 600000 : ACK NORMAL ECHO PROXY LIVE 01 78 / ACK NORMAL LEASE 00000000000927C0 HOLDER NORMAL ECHO PROXY MADE 01 78 NORMAL LEASE 00000000000927C0 HOLDER NORMAL NORMAL : HEAD OWN REG 00000002 NAMING 74 =echo 54 UID0 / HEAD OWN DGC 00000001 LEASING HELD 77 08 8000000000000000 LEASE 00000000000927C0 CALLER TOUCH DGC 00000001 LEASING BOTH 77 08 8000000000000001 LEASE 00000000000927C0 CALLER 54 UID0 DGC 00000000 LEASING HELD 77 08 8000000000000002 CALLER 77 01 00 DGC 00000000 LEASING OBJECTS 77 08 8000000000000003 CALLER 77 01 00 : 6 tree
make : : 0 : ACK NORMAL ECHO PROXY LIVE 01 78 / ACK NORMAL LEASE 0000000000000000 HOLDER NORMAL ECHO PROXY MADE 01 78 NORMAL LEASE 00000000000927C0 HOLDER NORMAL NORMAL : HEAD OWN REG 00000002 NAMING 74 =echo 54 UID0 / HEAD OWN DGC 00000001 LEASING HELD 77 08 8000000000000000 LEASE 00000000000927C0 CALLER TOUCH DGC 00000001 LEASING BOTH 77 08 8000000000000001 LEASE 00000000000927C0 CALLER 54 UID0 DGC 00000000 LEASING HELD 77 08 8000000000000002 CALLER 77 01 00 DGC 00000000 LEASING OBJECTS 77 08 8000000000000003 CALLER 77 01 00 : 6 tree
make : : 0 : ACK NORMAL ECHO PROXY LIVE 01 78 / ACK NORMAL LEASE 00000000000927C0 HOLDER NORMAL ECHO PROXY AFAR 01 78 NORMAL : HEAD OWN REG 00000002 NAMING 74 =echo 54 UID0 / HEAD OWN DGC 00000001 LEASING HELD 77 08 8000000000000000 LEASE 00000000000927C0 CALLER TOUCH 54 UID0 DGC 00000000 LEASING HELD 77 08 8000000000000001 CALLER 77 01 00 : 3 tree
make : : 0 : ACK NORMAL ECHO PROXY LIVE 01 78 / ACK NORMAL LEASE 00000000000927C0 HOLDER NORMAL ECHO PROXY AFAR 00 78 NORMAL : HEAD OWN REG 00000002 NAMING 74 =echo 54 UID0 / HEAD OWN DGC 00000001 LEASING HELD 77 08 8000000000000000 LEASE 00000000000927C0 CALLER TOUCH DGC 00000000 LEASING HELD 77 08 8000000000000001 CALLER 77 01 00 : 3 tree
make : : 0 : ACK NORMAL ECHO PROXY LIVE 01 78 / ACK NORMAL LEASE 00000000000927C0 HOLDER NORMAL ECHO PROXY LIVE 01 78 NORMAL : HEAD OWN REG 00000002 NAMING 74 =echo 54 UID0 / HEAD OWN DGC 00000001 LEASING HELD 77 08 8000000000000000 LEASE 00000000000927C0 CALLER TOUCH 54 UID0 DGC 00000000 LEASING HELD 77 08 8000000000000001 CALLER 77 01 00 : 3 tree
make : : 0 : ACK NORMAL ECHO PROXY LIVE 01 78 / ACK NORMAL LEASE 00000000000927C0 HOLDER NORMAL 70 NORMAL : HEAD OWN REG 00000002 NAMING 74 =echo 54 UID0 / HEAD OWN DGC 00000001 LEASING HELD 77 08 8000000000000000 LEASE 00000000000927C0 CALLER TOUCH DGC 00000000 LEASING HELD 77 08 8000000000000001 CALLER 77 01 00 : 3 tree
make : / 4 : 0 : ACK NORMAL ECHO PROXY LIVE 01 78 / ACK NORMAL LEASE 00000000000927C0 HOLDER NORMAL ECHO PROXY AFAR 01 78 NORMAL : HEAD OWN REG 00000002 NAMING 74 =echo 54 UID0 / HEAD OWN DGC 00000001 LEASING HELD 77 08 8000000000000000 LEASE 00000000000927C0 CALLER TOUCH : 2 write fault after 0
touch : : 0 : none / none : : 0 dial fault
touch : : 0 : 4F : HEAD : 0 nack
touch : : 0 : ACK THROWN FAULT 74 =hi 78 70 : HEAD OWN REG 00000002 NAMING 74 =echo : 0 remote fault java.rmi.RemoteException: hi
touch : : 0 : ACK NORMAL ECHO PROXY LIVE 01 78 / none : HEAD OWN REG 00000002 NAMING 74 =echo : 0 dial fault
touch : : 0 : ACK NORMAL ECHO PROXY LIVE 01 78 / 4F : HEAD OWN REG 00000002 NAMING 74 =echo / HEAD : 0 nack
touch : : 0 : ACK NORMAL ECHO PROXY LIVE 01 78 / ACK : HEAD OWN REG 00000002 NAMING 74 =echo / HEAD OWN DGC 00000001 LEASING HELD 77 08 8000000000000000 LEASE 00000000000927C0 CALLER : 1 truncated at 16
touch : : 0 : ACK NORMAL ECHO PROXY LIVE 01 78 / ACK NORMAL 70 : HEAD OWN REG 00000002 NAMING 74 =echo / HEAD OWN DGC 00000001 LEASING HELD 77 08 8000000000000000 LEASE 00000000000927C0 CALLER : 1 wrong shape at 39
touch : : 0 : ACK NORMAL ECHO PROXY LIVE 01 78 / ACK THROWN FAULT 74 =hi 78 70 : HEAD OWN REG 00000002 NAMING 74 =echo / HEAD OWN DGC 00000001 LEASING HELD 77 08 8000000000000000 LEASE 00000000000927C0 CALLER : 1 remote fault java.rmi.RemoteException: hi
touch : : 0 : ACK NORMAL ECHO PROXY LIVE 01 78 / ACK NORMAL LEASE 00000000000927C0 HOLDER THROWN FAULT 74 =hi 78 70 : HEAD OWN REG 00000002 NAMING 74 =echo 54 UID0 / HEAD OWN DGC 00000001 LEASING HELD 77 08 8000000000000000 LEASE 00000000000927C0 CALLER TOUCH : 2 remote fault java.rmi.RemoteException: hi
touch : 3 / : 0 : ACK NORMAL ECHO PROXY LIVE 01 78 / ACK NORMAL LEASE 00000000000927C0 HOLDER NORMAL NORMAL : HEAD OWN REG 00000002 NAMING 74 =echo / HEAD OWN DGC 00000001 LEASING HELD 77 08 8000000000000000 LEASE 00000000000927C0 CALLER : 2 write fault after 0
touch : / 3 : 0 : ACK NORMAL ECHO PROXY LIVE 01 78 / ACK NORMAL LEASE 00000000000927C0 HOLDER NORMAL NORMAL : HEAD OWN REG 00000002 NAMING 74 =echo 54 UID0 / HEAD OWN DGC 00000001 LEASING HELD 77 08 8000000000000000 LEASE 00000000000927C0 CALLER : 2 write fault after 0
touch : / 4 : 0 : ACK NORMAL ECHO PROXY LIVE 01 78 / ACK NORMAL LEASE 00000000000927C0 HOLDER NORMAL NORMAL : HEAD OWN REG 00000002 NAMING 74 =echo 54 UID0 / HEAD OWN DGC 00000001 LEASING HELD 77 08 8000000000000000 LEASE 00000000000927C0 CALLER TOUCH : 3 write fault after 0
late : : 0 : ACK NORMAL ECHO PROXY LIVE 01 78 / ACK NORMAL LEASE 00000000000927C0 HOLDER NORMAL NORMAL : HEAD OWN REG 00000002 NAMING 74 =echo / HEAD OWN : 1 table no numbers are left
last : : 0 : ACK NORMAL ECHO PROXY LIVE 01 78 / ACK NORMAL LEASE 00000000000927C0 HOLDER NORMAL NORMAL : HEAD OWN REG 00000002 NAMING 74 =echo 54 UID0 / HEAD OWN DGC 00000001 LEASING HELD 77 08 7FFFFFFFFFFFFFFE LEASE 00000000000927C0 CALLER TOUCH : 3 table no numbers are left";

/// The graph of one number of 64 bits.
fn one_number(rt: &impl Abort, alloc: Global, number: i64) -> Graph {
    let mut digits = ByteList::new(alloc);
    put(rt, &mut digits, &number.to_be_bytes());
    let mut items = Items::new(alloc);
    must(rt, items.push(Item::Bytes(digits)).is_ok(), "memory");
    match Builder::new(alloc).finish(items) {
        Ok(graph) => graph,
        Err(_fault) => panic!(rt; "a number"),
    }
}

/// The method of this name.
fn method(rt: &impl Abort, alloc: Global, word: &str) -> MethodCall {
    match word {
        "add" => MethodCall {
            hash: 5,
            arguments: one_number(rt, alloc, 5),
            result: Some(TypeCode::Long),
        },
        "make" => MethodCall {
            hash: 5,
            arguments: no_arguments(rt, alloc),
            result: Some(TypeCode::Object),
        },
        _ => MethodCall {
            hash: 5,
            arguments: no_arguments(rt, alloc),
            result: None,
        },
    }
}

/// The number of the first lease call.
fn first_number(word: &str) -> i64 {
    match word {
        "late" => i64::MAX,
        "last" => i64::MAX - 1,
        _ => i64::MIN,
    }
}

/// The call of this method of what `echo` stands for.
pub(crate) fn request(rt: &impl Abort, alloc: Global, word: &str) -> Request {
    Request {
        caller: Caller {
            alloc,
            vmid: caller(rt, alloc),
            first: first_number(word),
            asked: 600_000,
        },
        place: server_place(rt, alloc),
        name: name(rt, alloc, b"echo"),
        method: method(rt, alloc, word),
    }
}

/// Appends how often the clock was read, and what is answered.
fn put_called(
    rt: &impl Abort,
    alloc: Global,
    out: &mut ByteList,
    reads: u64,
    called: &Result<Answer, CommandEnd>,
) {
    let text = format!(in alloc; "{reads} ").expect(rt, "memory");
    put(rt, out, text.as_bytes());
    match called {
        Ok(answer) => put_returned(rt, alloc, out, answer),
        Err(end) => put_command_end(rt, alloc, out, end),
    }
}

/// Calls the method of this name at these moments; gives how often the clock was read, and what is answered.
pub(crate) fn text_of_call(
    rt: &impl Abort,
    alloc: Global,
    wires: &mut Wires,
    word: &str,
    moments: &str,
) -> ByteList {
    let moments = moments_of(alloc, moments).expect(rt, "moments");
    let mut ticks = MemClock::new(moments);
    let request = request(rt, alloc, word);
    let called = call(&mut wires.dialer, &mut ticks, &mut wires.talked, &request);
    let mut out = ByteList::new(alloc);
    put_called(rt, alloc, &mut out, ticks.calls(), &called);
    out
}

/// The links to two servers that send these bytes, on each of which these writes fail.
fn links_between(rt: &impl Abort, alloc: Global, servers: &str, failing: &str) -> MemLinks
    ensures { AllByRecursion IsNew result }
{
    let (first, second) = cut(servers, '/');
    let (failing, later) = cut(failing, '/');
    let mut links = MemLinks::new(alloc);
    put_link(rt, alloc, &mut links, first, failing);
    put_link(rt, alloc, &mut links, second, later);
    links
}

#[test]
fn calls_talk_over_two_links(rt: HostRuntime) {
    for line in CALLS.split('\n') {
        let (word, rest) = cut(line, ':');
        let (failing, rest) = cut(rest, ':');
        let (moments, rest) = cut(rest, ':');
        let (servers, rest) = cut(rest, ':');
        let (sent, wanted) = cut(rest, ':');
        let links = links_between(&rt, rt.alloc(), servers, failing);
        let mut wires = Wires {
            dialer: MemDialer::new(rt.alloc(), links),
            talked: Vec::new(rt.alloc()),
        };
        let out = text_of_call(&rt, rt.alloc(), &mut wires, word, moments);
        let found = out.as_slice();
        assert!(rt; found == wanted.as_bytes(), "{line}");
        check_left(&rt, rt.alloc(), &wires, sent);
    }
}
