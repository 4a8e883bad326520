//! Each read and each write of a client's command fails in turn: it ends the command, and the half is not asked again.
ghost use Rattle.std.specs.List.{AllByRecursion};
ghost use Rattle.wire_io.specs.Links.{IsNew};

use crate::calls::text_of_call;
use crate::talks::{Failing, Wires, put_command, put_failing};
use crate::texts::must;
use sequence::{ByteList, Kinds};
use std::alloc::Global;
use std::process::Abort;
use test_support::texts::cut;
use wire_io::{Halves, MemDialer, MemLinks, MemSink, MemSource};

/// A command, and what the servers of its links send until it is answered. A second link is dialled by `touch` and `make` alone.
const ANSWERED: &str = "list : ACK NORMAL STRINGS 00000001 74 =echo
lookup : ACK NORMAL ECHO PROXY LIVE 01 78
bind : ACK NORMAL ECHO PROXY LIVE 01 78 NORMAL
unbind : ACK NORMAL
touch : ACK NORMAL ECHO PROXY LIVE 01 78 / ACK NORMAL LEASE 00000000000927C0 HOLDER NORMAL NORMAL
make : ACK NORMAL ECHO PROXY LIVE 01 78 / ACK NORMAL LEASE 00000000000927C0 HOLDER NORMAL ECHO PROXY MADE 01 78 NORMAL LEASE 00000000000927C0 HOLDER NORMAL NORMAL";

/// More reads or writes than a link of these has.
const MOST: u32 = 10_000;

/// A read or a write that fails: of which link, of which half, and how many there are before it.
#[derive(Clone, Copy)]
struct Fault {
    link: usize,
    is_read: bool,
    index: u32,
}

/// Returns the reads and writes that fail on a link.
fn failing_on(rt: &impl Abort, alloc: Global, fault: &Fault, link: usize) -> Failing {
    let mut reads = Kinds::new(alloc);
    let mut writes = Kinds::new(alloc);
    if fault.link == link {
        let list = if fault.is_read {
            &mut reads
        } else {
            &mut writes
        };
        must(rt, list.push(fault.index).is_ok(), "memory");
    }
    Failing { reads, writes }
}

/// The links to two servers that send these bytes, with this fault.
fn links_with(rt: &impl Abort, alloc: Global, servers: &str, fault: &Fault) -> MemLinks
    ensures { AllByRecursion IsNew result }
{
    let (first, second) = cut(servers, '/');
    let mut links = MemLinks::new(alloc);
    put_failing(
        rt,
        alloc,
        &mut links,
        first,
        failing_on(rt, alloc, fault, 0),
    );
    put_failing(
        rt,
        alloc,
        &mut links,
        second,
        failing_on(rt, alloc, fault, 1),
    );
    links
}

/// Runs a command; gives what it answers.
fn text_of(rt: &impl Abort, alloc: Global, wires: &mut Wires, command: &str) -> ByteList {
    match command {
        "touch" | "make" => text_of_call(rt, alloc, wires, command, ""),
        _ => {
            let mut out = ByteList::new(alloc);
            put_command(rt, alloc, &mut out, wires, command);
            out
        }
    }
}

/// Returns whether a half failed. It stops the test where the half failed twice, or was asked again afterwards.
fn has_failed(rt: &impl Abort, asked: u64, faults: u64, index: u32) -> bool {
    must(
        rt,
        faults == 0 || faults == 1 && asked == u64::from(index) + 1,
        "asked again",
    );
    faults == 1
}

/// Returns whether the fault came on its link, whose halves were left so.
fn came(rt: &impl Abort, left: &Halves<MemSource, MemSink>, fault: &Fault) -> bool {
    if fault.is_read {
        has_failed(rt, left.source.reads(), left.source.faults(), fault.index)
    } else {
        has_failed(rt, left.sink.writes(), left.sink.faults(), fault.index)
    }
}

/// Returns whether a command answers the end of a fault.
fn is_told(answered: &[u8], fault: &Fault) -> bool {
    if fault.is_read {
        answered.ends_with(b"read fault")
    } else {
        answered.ends_with(b"write fault after 0") || answered.ends_with(b"write fault after 7")
    }
}

/// Runs a command with this fault, and tells whether it came. Stops where the command's end is another than the fault's.
fn is_noticed(rt: &impl Abort, alloc: Global, command: &str, servers: &str, fault: &Fault) -> bool {
    let links = links_with(rt, alloc, servers, fault);
    let mut wires = Wires {
        dialer: MemDialer::new(alloc, links),
        talked: Vec::new(alloc),
    };
    let answered = text_of(rt, alloc, &mut wires, command);
    must(
        rt,
        wires.talked.len() == wires.dialer.dialed_count(),
        "halves of each link",
    );
    let came = match wires.talked.get(fault.link) {
        Some(left) => came(rt, left, fault),
        None => false,
    };
    must(rt, is_told(answered.as_slice(), fault) == came, command);
    came
}

/// Has each read or each write of a link fail in turn, up to the first one that the command doesn't make; gives how many it makes.
fn check_half(rt: &impl Abort, alloc: Global, row: &str, link: usize, is_read: bool) -> u32 {
    let (command, servers) = cut(row, ':');
    for index in 0..MOST {
        let fault = Fault {
            link,
            is_read,
            index,
        };
        if !is_noticed(rt, alloc, command, servers, &fault) {
            return index;
        }
    }
    MOST
}

/// Has each read and each write of a link fail in turn, and looks that there are some.
fn check_link(rt: &impl Abort, alloc: Global, row: &str, link: usize) {
    let reads = check_half(rt, alloc, row, link, true);
    must(rt, 0 < reads && reads < MOST, "reads");
    let writes = check_half(rt, alloc, row, link, false);
    must(rt, 0 < writes && writes < MOST, "writes");
}

#[test]
fn a_half_that_failed_is_not_asked_again(rt: HostRuntime) {
    for row in ANSWERED.split('\n') {
        check_link(&rt, rt.alloc(), row, 0);
        if row.contains('/') {
            check_link(&rt, rt.alloc(), row, 1);
        }
    }
}
