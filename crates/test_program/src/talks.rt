//! Tests of the commands that ask a server, over links in memory: the bytes that they send and read, what they print and what they leave.
use crate::hosts::{MemHost, Runs, cut_by, host_of, is_line, must, run_line, sink_of};
use crate::serves::Network;
use crate::texts::{bytes_of, cut, number_of};
use std::alloc::Global;
use std::process::Abort;
use wire_io::MemDialer;

/// The words; what the server sends on the link, or `none` where nobody is reached; what the client sends; what is printed; the status and the line; and
/// the indices of the link's reads, of its writes, and of the output's writes that fail.
const TALKS: &str =
    "list 127.0.0.1 1099 | ack reference first strings 70 78 70 00000003 74 0004 =echo 74 0007 =counter 74 0005 =maker | client registry 00000001 naming | =echo~counter~maker~ | 0
list 127.0.0.1 1099 | ack reference first strings 70 78 70 00000002 74 0003 EDA080 74 0008 61 EDA0BD EDB880 62 | client registry 00000001 naming | EFBFBD =~a F09F9880 =b~ | 0
list 127.0.0.1 1099 | ack reference first strings 70 78 70 00000000 | client registry 00000001 naming | | 0
list 127.0.0.1 1099 | none | | | 3 dial fault
list 127.0.0.1 1099 | 4F | 4A524D4900024B | | 2 nack
list 127.0.0.1 1099 | | 4A524D4900024B | | 2 truncated at 0
list 127.0.0.1 1099 | ack | client registry 00000001 naming | | 2 truncated at 16
list 127.0.0.1 1099 | ack 53 | client registry 00000001 naming | | 2 bad reply at 16
list 127.0.0.1 1099 | ack reference first 74 0001 61 | client registry 00000001 naming | | 2 bad reply at 42
list 127.0.0.1 1099 | ack exception first fault no_object | client registry 00000001 naming | | 7 remote fault java.rmi.RemoteException: java.rmi.NoSuchObjectException: no such object
list 127.0.0.1 1099 | ack | 4A524D4900024B | | 3 read fault | 0
list 127.0.0.1 1099 | ack | client | | 4 write fault | | 2
list 127.0.0.1 1099 | ack reference first strings 70 78 70 00000001 74 0004 =echo | client registry 00000001 naming | | 4 write fault | | | 0
lookup 127.0.0.1 1099 echo | ack reference first proxy 000B =sample.Echo handler 0000000000000010 of_space | client registry 00000002 naming 74 0004 =echo 54 first | =127.0.0.1_1099_16:7/9/0~ | 0
lookup 127.0.0.1 1099 a | ack exception first fault 001D =java.rmi.NotBoundException:_a 78 70 | client registry 00000002 naming 74 0001 61 | | 7 remote fault java.rmi.RemoteException: java.rmi.NotBoundException: a
lookup 127.0.0.1 1099 echo | ack reference first proxy 000B =sample.Echo handler 0000000000000010 of_space | client registry 00000002 naming 74 0004 =echo | | 4 write fault | | 3
lookup 127.0.0.1 1099 echo | none | | | 3 dial fault
bind 127.0.0.1 1099 copy echo | ack reference first proxy 000B =sample.Echo handler 0000000000000010 of_space 51 ACED0005 77 0F 01 second | client registry 00000002 naming 74 0004 =echo 54 first registry 00000000 naming 74 0004 =copy remote handler 0000000000000010 00000007 0000000000000009 0000 00 78 | =ok~ | 0
bind 127.0.0.1 1099 echo echo | ack reference first proxy 000B =sample.Echo handler 0000000000000010 of_space exception second fault 0024 =java.rmi.AlreadyBoundException:_echo 78 70 | client registry 00000002 naming 74 0004 =echo 54 first registry 00000000 naming 74 0004 =echo remote handler 0000000000000010 00000007 0000000000000009 0000 00 78 | | 7 remote fault java.rmi.RemoteException: java.rmi.AlreadyBoundException: echo
bind 127.0.0.1 1099 copy echo | none | | | 3 dial fault
unbind 127.0.0.1 1099 maker | ack 51 ACED0005 77 0F 01 first | client registry 00000004 naming 74 0005 =maker | =ok~ | 0
unbind 127.0.0.1 1099 maker | 4F | 4A524D4900024B | | 2 nack";

/// The dialer that reaches a server, which sends these bytes, or nobody.
fn dialer_to(
    rt: &impl Abort,
    alloc: Global,
    server: &str,
    failing_reads: &str,
    failing_writes: &str,
) -> MemDialer {
    let mut network = Network::new(alloc);
    if server != "none" {
        network.add_failing(rt, alloc, server, failing_reads, failing_writes);
    }
    network.dialer(alloc)
}

/// Looks whether the link that was dialled was left, with these bytes sent.
fn check_left<H>(rt: &impl Abort, alloc: Global, host: &MemHost<H>, server: &str, sent: &str) {
    let sent = bytes_of(rt, alloc, sent);
    match host.talked.as_slice() {
        [halves] => must(rt, halves.sink.bytes() == sent.as_slice(), "sent"),
        [] => must(rt, server == "none", "a link"),
        _ => must(rt, false, "one link"),
    }
    must(
        rt,
        host.talked.len() == host.dialer.dialed_count(),
        "halves",
    );
}

/// Looks whether our own server answers what was sent with these bytes, where the client took all of them.
fn check_answered(rt: &impl Runs, alloc: Global, server: &str, sent: &str) {
    let sent = bytes_of(rt, alloc, sent);
    let server = bytes_of(rt, alloc, server);
    let mut host = host_of(rt, alloc, sent.as_slice(), cut_by("-"));
    let _status = run_line(rt, alloc, "answer open", &mut host);
    must(rt, host.output.bytes() == server.as_slice(), "answered");
}

/// Looks at what a run printed and told.
fn check_told<H>(rt: &impl Abort, alloc: Global, host: &MemHost<H>, printed: &str, line: &str) {
    let printed = bytes_of(rt, alloc, printed);
    must(rt, host.output.bytes() == printed.as_slice(), "printed");
    must(rt, is_line(host.errors.bytes(), line), line);
}

/// Runs a line.
fn check_talk(rt: &impl Runs, alloc: Global, row: &str) {
    let (words, rest) = cut(row, '|');
    let (server, rest) = cut(rest, '|');
    let (sent, rest) = cut(rest, '|');
    let (printed, rest) = cut(rest, '|');
    let (told, rest) = cut(rest, '|');
    let (failing_reads, rest) = cut(rest, '|');
    let (failing_writes, failing_prints) = cut(rest, '|');
    let (status, line) = cut(told, ' ');
    let mut host = host_of(rt, alloc, b"", cut_by("-"));
    host.output = sink_of(rt, alloc, failing_prints);
    host.dialer = dialer_to(rt, alloc, server, failing_reads, failing_writes);
    let ended = run_line(rt, alloc, words, &mut host);
    must(rt, u32::from(ended) == number_of(rt, status), row);
    check_told(rt, alloc, &host, printed, line);
    check_left(rt, alloc, &host, server, sent);
}

#[test]
fn commands_ask_a_server(rt: HostRuntime) {
    for row in TALKS.split('\n') {
        check_talk(&rt, rt.alloc(), row);
    }
}

/// The rows in which a server that has the sample's objects answers so, by what the client asks.
const BOTH_ENDS: &str =
    "client registry 00000001 naming | ack reference first strings 70 78 70 00000003 74 0004 =echo 74 0007 =counter 74 0005 =maker
client registry 00000002 naming 74 0004 =echo 54 first | ack reference first proxy 000B =sample.Echo handler 0000000000000010 of_space
client registry 00000002 naming 74 0001 61 | ack exception first fault 001D =java.rmi.NotBoundException:_a 78 70
client registry 00000002 naming 74 0004 =echo 54 first registry 00000000 naming 74 0004 =copy remote handler 0000000000000010 00000007 0000000000000009 0000 00 78 | ack reference first proxy 000B =sample.Echo handler 0000000000000010 of_space 51 ACED0005 77 0F 01 second
client registry 00000004 naming 74 0005 =maker | ack 51 ACED0005 77 0F 01 first";

#[test]
fn the_server_answers_what_the_commands_read(rt: HostRuntime) {
    for row in BOTH_ENDS.split('\n') {
        let (sent, server) = cut(row, '|');
        check_answered(&rt, rt.alloc(), server, sent);
    }
}
