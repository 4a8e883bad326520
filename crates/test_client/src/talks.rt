//! The bytes that a client's commands send over links that they dial, their answers, and the state that they leave.
ghost use Rattle.std.specs.List.{AllByRecursion};
ghost use Rattle.wire_io.specs.Links.{IsNew};

use crate::texts::{must, name, put, put_end, put_reference, put_units, units};
use crate::words::wire_of;
use client_talk::{Binding, CommandEnd, Place, bind, list, look_up, unbind};
use java_shapes::LiveRef;
use mod_utf::utf::encoded_len;
use sequence::{ByteList, Kinds, MomentList, NameList};
use std::alloc::Global;
use std::process::Abort;
use test_support::texts::{cut, numbers_of};
use wire_io::{Halves, Link, MemClock, MemDialer, MemLink, MemLinks, MemSink, MemSource};

/// The commands, each of which dials; the indices of the writes that fail on each link; what the server sends on the links, which `/` parts, or
/// `none` where no link is left; what the client sends on each; and what the commands answer.
const COMMANDS: &str =
    "list : : ACK NORMAL STRINGS 00000003 74 =echo 74 =counter 74 =maker : HEAD OWN REG 00000001 NAMING : names echo counter maker
list : : ACK NORMAL STRINGS 00000000 : HEAD OWN REG 00000001 NAMING : names
list : : none : : dial fault
list : : : HEAD : truncated at 0
list : : 4F : HEAD : nack
list : : 4E 0009 3132 : HEAD : truncated at 5
list : : ACK : HEAD OWN REG 00000001 NAMING : truncated at 16
list : : ACK NORMAL 75 : HEAD OWN REG 00000001 NAMING : truncated at 39
list : : ACK NORMAL 70 : HEAD OWN REG 00000001 NAMING : wrong shape at 39
list : : ACK 53 : HEAD OWN REG 00000001 NAMING : not return at 16
list : : ACK THROWN FAULT 74 =hi 78 70 : HEAD OWN REG 00000001 NAMING : remote fault java.rmi.RemoteException: hi
list : 0 : ACK NORMAL STRINGS 00000000 : : write fault after 0
list : 1 : ACK NORMAL STRINGS 00000000 : HEAD : write fault after 7
list : 2 : ACK NORMAL STRINGS 00000000 : HEAD OWN : write fault after 0
lookup : : ACK NORMAL ECHO PROXY LIVE 01 78 : HEAD OWN REG 00000002 NAMING 74 =echo 54 UID0 : 127.0.0.1 1099 16:7/9/0 flagged
lookup : : ACK NORMAL ECHO PROXY LIVE 00 78 : HEAD OWN REG 00000002 NAMING 74 =echo : 127.0.0.1 1099 16:7/9/0
lookup : : none : : dial fault
lookup : : 4F : HEAD : nack
lookup : : ACK 51 ACED0005 77 0F 01 00000006 : HEAD OWN REG 00000002 NAMING 74 =echo : truncated at 28
lookup : : ACK NORMAL 74 =hi : HEAD OWN REG 00000002 NAMING 74 =echo : wrong shape at 43
lookup : : ACK THROWN FAULT 74 =hi 78 70 : HEAD OWN REG 00000002 NAMING 74 =echo : remote fault java.rmi.RemoteException: hi
lookup : 0 : ACK NORMAL ECHO PROXY LIVE 01 78 : : write fault after 0
lookup : 1 : ACK NORMAL ECHO PROXY LIVE 01 78 : HEAD : write fault after 7
lookup : 2 : ACK NORMAL ECHO PROXY LIVE 01 78 : HEAD OWN : write fault after 0
lookup : 3 : ACK NORMAL ECHO PROXY LIVE 01 78 : HEAD OWN REG 00000002 NAMING 74 =echo : write fault after 0
lookup : 3 : ACK NORMAL ECHO PROXY LIVE 00 78 : HEAD OWN REG 00000002 NAMING 74 =echo : 127.0.0.1 1099 16:7/9/0
lookup : : ACK NORMAL ECHO PROXY LIVE 01 : HEAD OWN REG 00000002 NAMING 74 =echo : truncated at 319
unbind : : ACK NORMAL : HEAD OWN REG 00000004 NAMING 74 =echo : ok
unbind : : none : : dial fault
unbind : : 4F : HEAD : nack
unbind : : ACK 51 ACED0005 : HEAD OWN REG 00000004 NAMING 74 =echo : truncated at 21
unbind : : ACK THROWN FAULT 74 =hi 78 70 : HEAD OWN REG 00000004 NAMING 74 =echo : remote fault java.rmi.RemoteException: hi
unbind : 2 : ACK NORMAL : HEAD OWN : write fault after 0
bind : : ACK NORMAL ECHO PROXY LIVE 01 78 51 ACED0005 : HEAD OWN REG 00000002 NAMING 74 =echo 54 UID0 REG 00000000 NAMING 74 =other REMOTE PROXY LIVE 00 78 : truncated at 325
bind : : ACK NORMAL ECHO PROXY LIVE 01 78 : HEAD OWN REG 00000002 NAMING 74 =echo 54 UID0 REG 00000000 NAMING 74 =other REMOTE PROXY LIVE 00 78 : truncated at 320
bind : : ACK NORMAL ECHO PROXY LIVE 01 78 NORMAL : HEAD OWN REG 00000002 NAMING 74 =echo 54 UID0 REG 00000000 NAMING 74 =other REMOTE PROXY LIVE 00 78 : ok
bind : : ACK NORMAL ECHO PROXY LIVE 00 78 NORMAL : HEAD OWN REG 00000002 NAMING 74 =echo REG 00000000 NAMING 74 =other REMOTE PROXY LIVE 00 78 : ok
bind : : none : : dial fault
bind : : 4F : HEAD : nack
bind : : ACK NORMAL 70 NORMAL : HEAD OWN REG 00000002 NAMING 74 =echo : wrong shape at 39
bind : : ACK THROWN FAULT 74 =hi 78 70 NORMAL : HEAD OWN REG 00000002 NAMING 74 =echo : remote fault java.rmi.RemoteException: hi
bind : : ACK NORMAL ECHO PROXY LIVE 01 78 THROWN FAULT 74 =hi 78 70 : HEAD OWN REG 00000002 NAMING 74 =echo 54 UID0 REG 00000000 NAMING 74 =other REMOTE PROXY LIVE 00 78 : remote fault java.rmi.RemoteException: hi
bind : : ACK 52 : HEAD OWN REG 00000002 NAMING 74 =echo : not return at 16
bind : 2 : ACK NORMAL ECHO PROXY LIVE 01 78 NORMAL : HEAD OWN : write fault after 0
bind : 3 : ACK NORMAL ECHO PROXY LIVE 01 78 NORMAL : HEAD OWN REG 00000002 NAMING 74 =echo : write fault after 0
bind : 4 : ACK NORMAL ECHO PROXY LIVE 01 78 NORMAL : HEAD OWN REG 00000002 NAMING 74 =echo 54 UID0 : write fault after 0
bind : 3 : ACK NORMAL ECHO PROXY LIVE 00 78 NORMAL : HEAD OWN REG 00000002 NAMING 74 =echo : write fault after 0
list unbind : : ACK NORMAL STRINGS 00000001 74 =echo / ACK NORMAL : HEAD OWN REG 00000001 NAMING / HEAD OWN REG 00000004 NAMING 74 =echo : names echo, ok
unbind list : : 4F / ACK NORMAL STRINGS 00000001 74 =echo : HEAD / HEAD OWN REG 00000001 NAMING : nack, names echo
unbind list : : ACK NORMAL / none : HEAD OWN REG 00000004 NAMING 74 =echo : ok, dial fault";

/// A dialer, and the halves of the links that commands left.
#[derive(Drop)]
pub(crate) struct Wires {
    pub(crate) dialer: MemDialer,
    pub(crate) talked: Vec<Halves<MemSource, MemSink>>,
}

/// The indices of the reads and of the writes that fail on a link.
#[derive(Drop)]
pub(crate) struct Failing {
    pub(crate) reads: Kinds,
    pub(crate) writes: Kinds,
}

/// A link whose end is at this host, to a server that sends these bytes.
fn link_of(rt: &impl Abort, alloc: Global, server: &str, failing: Failing) -> MemLink
    ensures { IsNew result }
{
    let host = units(rt, alloc, b"127.0.0.1");
    assert!(rt; encoded_len(&host) <= 255, "a short host");
    let Failing { reads, writes } = failing;
    Link {
        source: MemSource::new(wire_of(rt, alloc, server), Kinds::new(alloc), reads),
        sink: MemSink::new(alloc, writes),
        clock: MemClock::new(MomentList::new(alloc)),
        host,
        port: 40_000,
    }
}

/// Appends a link to a server that sends these bytes, on which these reads and writes fail, where it is not `none`.
pub(crate) fn put_failing(
    rt: &impl Abort,
    alloc: Global,
    links: &mut MemLinks,
    server: &str,
    failing: Failing,
)
    requires { AllByRecursion IsNew links.old }
    ensures { AllByRecursion IsNew links.new }
{
    if server != "none" {
        let pushed = links.push(link_of(rt, alloc, server, failing));
        must(rt, pushed.is_ok(), "memory");
    }
}

/// Appends a link to a server that sends these bytes, on which these writes fail, where it is not `none`.
pub(crate) fn put_link(
    rt: &impl Abort,
    alloc: Global,
    links: &mut MemLinks,
    server: &str,
    failing: &str,
)
    requires { AllByRecursion IsNew links.old }
    ensures { AllByRecursion IsNew links.new }
{
    let failing = Failing {
        reads: Kinds::new(alloc),
        writes: numbers_of(alloc, failing).expect(rt, "numbers"),
    };
    put_failing(rt, alloc, links, server, failing);
}

/// The links to two servers that send these bytes.
fn links_of(rt: &impl Abort, alloc: Global, servers: &str, failing: &str) -> MemLinks
    ensures { AllByRecursion IsNew result }
{
    let (first, second) = cut(servers, '/');
    let mut links = MemLinks::new(alloc);
    put_link(rt, alloc, &mut links, first, failing);
    if !second.is_empty() {
        put_link(rt, alloc, &mut links, second, failing);
    }
    links
}

/// Appends the text of the end of a command.
pub(crate) fn put_command_end(
    rt: &impl Abort,
    alloc: Global,
    out: &mut ByteList,
    end: &CommandEnd,
) {
    match end {
        CommandEnd::DialFault => put(rt, out, b"dial fault"),
        CommandEnd::Session(end) => put_end(rt, alloc, out, end),
        CommandEnd::Table(fault) => {
            let text = format!(in alloc; "table {fault}").expect(rt, "memory");
            put(rt, out, text.as_bytes());
        }
    }
}

/// Appends what a list answers.
fn put_listed(
    rt: &impl Abort,
    alloc: Global,
    out: &mut ByteList,
    listed: &Result<NameList, CommandEnd>,
) {
    match listed {
        Ok(names) => {
            put(rt, out, b"names");
            for name in names.iter() {
                put(rt, out, b" ");
                put_units(rt, out, name);
            }
        }
        Err(end) => put_command_end(rt, alloc, out, end),
    }
}

/// Appends what a lookup answers.
fn put_found(
    rt: &impl Abort,
    alloc: Global,
    out: &mut ByteList,
    found: &Result<LiveRef, CommandEnd>,
) {
    match found {
        Ok(reference) => put_reference(rt, alloc, out, reference),
        Err(end) => put_command_end(rt, alloc, out, end),
    }
}

/// Appends what a command without a result answers.
fn put_done(rt: &impl Abort, alloc: Global, out: &mut ByteList, done: &Result<(), CommandEnd>) {
    match done {
        Ok(()) => put(rt, out, b"ok"),
        Err(end) => put_command_end(rt, alloc, out, end),
    }
}

/// The place of the server.
pub(crate) fn server_place(rt: &impl Abort, alloc: Global) -> Place {
    Place {
        host: units(rt, alloc, b"127.0.0.1"),
        port: 1099,
    }
}

/// Lists the names.
fn put_list(rt: &impl Abort, alloc: Global, out: &mut ByteList, wires: &mut Wires, place: &Place) {
    let listed = list(alloc, &mut wires.dialer, &mut wires.talked, place);
    put_listed(rt, alloc, out, &listed);
}

/// Looks `echo` up.
fn put_lookup(
    rt: &impl Abort,
    alloc: Global,
    out: &mut ByteList,
    wires: &mut Wires,
    place: &Place,
) {
    let sought = name(rt, alloc, b"echo");
    let found = look_up(alloc, &mut wires.dialer, &mut wires.talked, place, &sought);
    put_found(rt, alloc, out, &found);
}

/// The name `other`, which is to stand for what `echo` stands for.
pub(crate) fn binding(rt: &impl Abort, alloc: Global) -> Binding {
    Binding {
        name: name(rt, alloc, b"other"),
        from: name(rt, alloc, b"echo"),
    }
}

/// Binds `other` to what `echo` stands for.
fn put_bind(rt: &impl Abort, alloc: Global, out: &mut ByteList, wires: &mut Wires, place: &Place) {
    let binding = binding(rt, alloc);
    let done = bind(alloc, &mut wires.dialer, &mut wires.talked, place, &binding);
    put_done(rt, alloc, out, &done);
}

/// Unbinds `echo`.
fn put_unbind(
    rt: &impl Abort,
    alloc: Global,
    out: &mut ByteList,
    wires: &mut Wires,
    place: &Place,
) {
    let bound = name(rt, alloc, b"echo");
    let done = unbind(alloc, &mut wires.dialer, &mut wires.talked, place, &bound);
    put_done(rt, alloc, out, &done);
}

/// Runs a command, and appends what it answers.
pub(crate) fn put_command(
    rt: &impl Abort,
    alloc: Global,
    out: &mut ByteList,
    wires: &mut Wires,
    command: &str,
) {
    let place = server_place(rt, alloc);
    match command {
        "list" => put_list(rt, alloc, out, wires, &place),
        "lookup" => put_lookup(rt, alloc, out, wires, &place),
        "bind" => put_bind(rt, alloc, out, wires, &place),
        "unbind" => put_unbind(rt, alloc, out, wires, &place),
        _ => must(rt, false, command),
    }
}

/// Runs two commands, or one, and appends what they answer.
fn put_commands(
    rt: &impl Abort,
    alloc: Global,
    out: &mut ByteList,
    wires: &mut Wires,
    commands: &str,
) {
    let (first, second) = cut(commands, ' ');
    put_command(rt, alloc, out, wires, first);
    if !second.is_empty() {
        put(rt, out, b", ");
        put_command(rt, alloc, out, wires, second);
    }
}

/// Stops where the client did not send these bytes on the links, one after the other.
fn check_sent(rt: &impl Abort, alloc: Global, talked: &[Halves<MemSource, MemSink>], sent: &str) {
    let mut rest = sent;
    for halves in talked {
        let (digits, others) = cut(rest, '/');
        let wanted = wire_of(rt, alloc, digits);
        must(rt, halves.sink.bytes() == wanted.as_slice(), digits);
        rest = others;
    }
    must(rt, rest.is_empty(), rest);
}

/// Stops where the halves of a link that was dialled were not left, or the dialer was asked again after it failed.
pub(crate) fn check_left(rt: &impl Abort, alloc: Global, wires: &Wires, sent: &str) {
    must(
        rt,
        wires.talked.len() == wires.dialer.dialed_count(),
        "halves of each link",
    );
    must(rt, wires.dialer.faults() <= 1, "dialled again");
    check_sent(rt, alloc, &wires.talked, sent);
}

#[test]
fn commands_talk(rt: HostRuntime) {
    for line in COMMANDS.split('\n') {
        let (commands, rest) = cut(line, ':');
        let (failing, rest) = cut(rest, ':');
        let (servers, rest) = cut(rest, ':');
        let (sent, wanted) = cut(rest, ':');
        let links = links_of(&rt, rt.alloc(), servers, failing);
        let mut wires = Wires {
            dialer: MemDialer::new(rt.alloc(), links),
            talked: Vec::new(rt.alloc()),
        };
        let mut out = ByteList::new(rt.alloc());
        put_commands(&rt, rt.alloc(), &mut out, &mut wires, commands);
        let found = out.as_slice();
        assert!(rt; found == wanted.as_bytes(), "{line}");
        check_left(&rt, rt.alloc(), &wires, sent);
    }
}
