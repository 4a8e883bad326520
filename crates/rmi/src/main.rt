// SPDX-License-Identifier: Apache-2.0 OR MIT
//! The program `rmi`: `main` makes the real host and calls `run` of `rmi_cli`. `docs/GUIDE.md`
//! explains the commands.
//!
//! The host has standard input, output and error, TCP, the system's clock, and random words. `host`
//! looks for the end of standard input by a second handle, over the kit's `mio`.
//!
//! The status is that of `run`. It is 5 if there is no memory for the words or the input's buffer,
//! or if the system gives no random numbers. It is 1 if a word is no UTF-8. Then nothing is read or
//! written but the line that says so.
#![tactic(auto)]

use conn_server::random_seed;
use input_end::{DescriptorEnd, FlaggedEnd, StoppedByInput, descriptor_end};
use rmi_cli::{Host, RunEnd, Words, run};
use std::alloc::Global;
use std::io::{ErrorKind, Read, Stderr, Stdin, Stdout, Write};
use std::net::{Net, TcpListener, TcpStream};
use std::os::fd::AsRawFd;
use std::process::ExitCode;
use std::random::RandomSource;
use std::sync::atomic::AtomicBool;
use std::sync::{Arc, Wait};
use std::thread::Threads;
use std::time::Clock;
use std::{env, io};
use wire_io::put::put_all;
use wire_io::std_io::{StdClock, StdSink, StdSource};
use wire_io::tcp::{TcpDial, TcpListen};

/// Returns the program's words. One that is no UTF-8 is `InvalidData`.
fn words_of(rt: &HostRuntime) -> io::Result<Vec<String>> {
    Ok(env::args(rt)?.skip(1).collect(rt.alloc())?)
}

/// Returns true if the first word is `host`. No other command looks at the end of the input.
fn is_host(words: &[String]) -> bool {
    match words.first() {
        Some(word) => word.as_str() == "host",
        None => false,
    }
}

/// The standard streams. Commands read the input. `host` looks for the end of `watched`, which is the input once more.
#[derive(Drop)]
struct Streams<I, O, E> {
    input: I,
    watched: Option<I>,
    output: O,
    errors: E,
}

/// A listener over TCP that is told to stop at the end of an input, if there is one. Its links then give no more bytes.
type Listen<'r, R, I> = StoppedByInput<TcpListen<&'r R>, Option<FlaggedEnd<DescriptorEnd<I>>>>;

/// Makes the listener that is told to stop at the end of this input, if there is one. It fails where there is no memory.
fn listener_until<R, I>(rt: &R, alloc: Global, input: Option<I>) -> io::Result<Listen<'_, R, I>>
where
    R: Net<Listener = TcpListener, Stream = TcpStream> + Clock + Sync,
    I: Read + AsRawFd + Drop,
{
    let Some(input) = input else {
        return Ok(StoppedByInput::new(TcpListen::new(alloc, rt), None));
    };
    let flag = Arc::new(alloc, AtomicBool::new(false))?;
    let listener = TcpListen::with_flag(alloc, rt, Arc::try_clone(&flag)?);
    let end = FlaggedEnd::new(descriptor_end(alloc, rt, input)?, flag);
    Ok(StoppedByInput::new(listener, Some(end)))
}

/// Runs the program on these streams and over TCP, and answers its status.
fn run_process<R, I, O, E>(rt: &R, words: &Words, streams: Streams<I, O, E>) -> io::Result<u8>
where
    R: Threads
        + Wait
        + Sync
        + AllocGlobal
        + RandomSource
        + Clock
        + Net<Listener = TcpListener, Stream = TcpStream>,
    I: Read + AsRawFd + Drop,
    O: Write + Drop,
    E: Write + Drop,
{
    let alloc = rt.alloc();
    let seed = random_seed(rt)?;
    let Streams {
        input,
        watched,
        output,
        errors,
    } = streams;
    let mut host = Host {
        input: StdSource::new(alloc, input)?,
        output: StdSink::new(output),
        errors: StdSink::new(errors),
        ticks: StdClock::new(rt),
        listener: listener_until(rt, alloc, watched)?,
        dialer: TcpDial::new(alloc, rt),
        seed,
        served: None,
        talked: Vec::new(alloc),
    };
    Ok(run(rt, alloc, words, &mut host))
}

/// Returns the process's own streams. The input is watched if `is_watched`, which takes a descriptor.
fn streams_of(rt: &HostRuntime, is_watched: bool) -> Streams<Stdin, Stdout, Stderr> {
    let watched = if is_watched { Some(rt.stdin()) } else { None };
    Streams {
        input: rt.stdin(),
        watched,
        output: rt.stdout(),
        errors: rt.stderr(),
    }
}

/// The status is that of `run`. Where there is no memory for the words or for the input's buffer, or the system gives no words by chance,
/// it is 5, and where a word is no UTF-8, 1; nothing is read or written then but the line that says so.
fn main(rt: HostRuntime) -> ExitCode {
    let ran = match words_of(&rt) {
        Ok(words) => {
            let streams = streams_of(&rt, is_host(words.as_slice()));
            run_process(&rt, &Words::from_vec(words), streams)
        }
        Err(e) if e.kind() == ErrorKind::InvalidData => {
            let _ = put_all(&mut StdSink::new(rt.stderr()), b"usage\n");
            return ExitCode::from(RunEnd::Usage.status());
        }
        Err(e) => Err(e),
    };
    match ran {
        Ok(status) => ExitCode::from(status),
        Err(_) => {
            let _ = put_all(&mut StdSink::new(rt.stderr()), b"out of memory\n");
            ExitCode::from(RunEnd::OutOfMemory.status())
        }
    }
}
