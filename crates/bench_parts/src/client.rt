//! Calls of one session.
use class_desc::{Items, TypeCode};
use client_talk::{Place, look_up};
use history::Name;
use java_shapes::LiveRef;
use jrmp_frames::CallHead;
use method_hash::{Method, hash};
use mod_utf::utf::units_of_ascii;
use rmi_client::Session;
use ser_values::{Builder, Graph};
use std::alloc::Global;
use std::fs::read_to_string;
use std::io;
use std::net::{Net, TcpListener, TcpStream};
use std::process::ExitCode;
use std::rt::Files;
use std::time::{Clock, Instant};
use wire_io::{Dialer, Link, Sink, Source, TcpDial};

/// The method that is called, which changes nothing.
const GET: &[u8] = b"get()J";

/// The most calls.
const MOST_CALLS: u64 = 100_000_000;

/// A registry, and how many calls of its counter are made.
#[derive(Clone, Copy)]
struct Target<'w> {
    host: &'w str,
    port: u16,
    calls: u64,
}

/// The server that the words name, and the number of calls; none where they name none.
fn target_of(words: &[String]) -> Option<Target<'_>> {
    let [host, port, calls] = words else {
        return None;
    };
    let calls = calls.parse::<u64>().ok()?;
    if calls > MOST_CALLS {
        return None;
    }
    Some(Target {
        host: host.as_str(),
        port: port.parse::<u16>().ok()?,
        calls,
    })
}

/// The reference that the name `counter` stands for.
fn counter_of<D: Dialer>(alloc: Global, dialer: &mut D, target: &Target<'_>) -> Option<LiveRef> {
    let place = Place {
        host: units_of_ascii(alloc, target.host.as_bytes()).ok()?,
        port: i32::from(target.port),
    };
    let name = Name::new(units_of_ascii(alloc, b"counter").ok()?).ok()?;
    let mut talked = Vec::new(alloc);
    look_up(alloc, dialer, &mut talked, &place, &name).ok()
}

/// A session with the server of a reference.
fn session_of<D: Dialer>(
    alloc: Global,
    dialer: &mut D,
    counter: &LiveRef,
) -> Option<Session<D::In, D::Out>> {
    let link = dialer.dial(&counter.host, counter.port).ok()?;
    let Link {
        source,
        sink,
        clock: _,
        host,
        port: _,
    } = link;
    Session::begin(alloc, source, sink, &host).ok()
}

/// The head of the calls of a reference.
fn head_of(alloc: Global, counter: &LiveRef) -> Option<CallHead> {
    Some(CallHead {
        id: counter.id,
        operation: -1,
        hash: hash(&Method::parse(alloc, GET).ok()?),
    })
}

/// Makes so many calls, and gives whether all were answered.
fn make_calls<S: Source, K: Sink>(
    session: &mut Session<S, K>,
    head: &CallHead,
    arguments: &Graph,
    count: u64,
) -> bool {
    for _ in 0..count {
        if session.call(head, arguments, Some(TypeCode::Long)).is_err() {
            return false;
        }
    }
    true
}

/// The most memory that this process has had so far, in kB, as the system tells it.
fn peak_memory<R: Files + AllocGlobal>(rt: &R) -> io::Result<u64> {
    let status = read_to_string(rt, "/proc/self/status")?;
    for line in status.lines() {
        if let Some(rest) = line.strip_prefix("VmHWM:") {
            return Ok(
                rest.trim_end_matches("kB")
                    .trim()
                    .parse::<u64>()
                    .unwrap_or(0),
            );
        }
    }
    Ok(0)
}

/// The cost of a run of calls.
#[derive(Clone, Copy)]
struct Cost {
    /// The microseconds that they took.
    micros: u128,
    /// The most memory up to a tenth of them, in kB.
    early_kb: u64,
    /// The most memory up to their end, in kB.
    late_kb: u64,
}

/// Makes so many calls, and returns their cost; none where one is not answered.
fn measure<R: Clock + Files + AllocGlobal, S: Source, K: Sink>(
    rt: &R,
    session: &mut Session<S, K>,
    head: &CallHead,
    arguments: &Graph,
    count: u64,
) -> io::Result<Option<Cost>> {
    let early = count / 10;
    let start = Instant::now(rt)?;
    if !make_calls(session, head, arguments, early) {
        return Ok(None);
    }
    let early_kb = peak_memory(rt)?;
    if !make_calls(session, head, arguments, count - early) {
        return Ok(None);
    }
    let micros = start.elapsed(rt)?.as_micros();
    let late_kb = peak_memory(rt)?;
    Ok(Some(Cost {
        micros,
        early_kb,
        late_kb,
    }))
}

/// Says that a server does not answer.
fn unanswered(rt: &impl Eprint) -> io::Result<ExitCode> {
    eprintln!(rt; "there is no answer")?;
    Ok(ExitCode::from(3))
}

/// Makes so many calls of a counter in one session, and prints what they took.
fn time_calls<R: Print + Eprint + Clock + Files + AllocGlobal, D: Dialer>(
    rt: &R,
    alloc: Global,
    dialer: &mut D,
    counter: &LiveRef,
    count: u64,
) -> io::Result<ExitCode> {
    let Some(mut session) = session_of(alloc, dialer, counter) else {
        return unanswered(rt);
    };
    let Some(head) = head_of(alloc, counter) else {
        return unanswered(rt);
    };
    let Ok(arguments) = Builder::new(alloc).finish(Items::new(alloc)) else {
        return unanswered(rt);
    };
    let Some(taken) = measure(rt, &mut session, &head, &arguments, count)? else {
        return unanswered(rt);
    };
    let rate = u128::from(count) * 1_000_000 / taken.micros.max(1);
    println!(rt; "{rate} {} {}", taken.early_kb, taken.late_kb)?;
    Ok(ExitCode::from(0))
}

/// Looks up the counter of the registry at the host and the port that the first two words say, and calls it as often as the third word says, in one
/// session. Standard output has how many calls it made in a second, and the most memory that the process had after a tenth of them and at
/// their end, in kB.
pub(crate) fn time_client<R>(rt: &R, alloc: Global, words: &[String]) -> io::Result<ExitCode>
where
    R: Print
        + Eprint
        + Clock
        + Files
        + AllocGlobal
        + Sync
        + Net<Listener = TcpListener, Stream = TcpStream>,
{
    let Some(target) = target_of(words) else {
        eprintln!(rt; "usage: bench_parts client HOST PORT CALLS, at most {MOST_CALLS}")?;
        return Ok(ExitCode::from(1));
    };
    let mut dialer = TcpDial::new(alloc, rt);
    match counter_of(alloc, &mut dialer, &target) {
        Some(counter) => time_calls(rt, alloc, &mut dialer, &counter, target.calls),
        None => unanswered(rt),
    }
}
