//! The end of an input that the system knows by a descriptor, as standard input.
ghost use Rattle.std.specs.Prelude.{◌≡◌, false, IfOk};
ghost use Rattle.input_end.specs.Ends.{readiness_of};
ghost use Rattle.input_end.specs.declared.watch.Readiness.TheVariants.{WouldWait};
ghost use Rattle.wire_io.specs.Wire.{untold_read};

use crate::drained::DrainedSource;
use crate::watch::{Readiness, Watch};
use mio::event::Event;
use mio::unix::SourceFd;
use mio::{Events, Interest, Poll, Token};
use std::alloc::{AllocError, Global};
use std::io;
use std::io::Read;
use std::marker::Model;
use std::net::Net;
use std::os::fd::{AsRawFd, RawFd};
use std::time::Duration;
use wire_io::StdSource;

/// The name of the descriptor in the system's events.
const WATCHED: Token = Token(0);

/// A watch over a descriptor, by epoll.
///
/// The system watches pipes, sockets and terminals. It does not watch files, `/dev/null` or a closed descriptor: of these the watch
/// always says that a read would wait. The watch changes no mode of the descriptor, because other programs may share it.
#[derive(Drop)]
pub struct DescriptorWatch {
    poll: Option<Poll>,
    events: Events,
    descriptor: RawFd,
    answered: Readiness,
}

impl Model for DescriptorWatch {
    ghost use Rattle.std.specs.Prelude.{is_some};
    ghost use Rattle.input_end.specs.Ends.{WatchState};

    ghost Value = { WatchState };

    ghost view = { λ w. record { is_watched = is_some w.poll; answered = w.answered } };
}

impl DescriptorWatch {
    /// Makes a watch over the descriptor of this input. It takes memory for one event.
    pub fn new<N: Net, I: AsRawFd>(
        alloc: Global,
        net: &N,
        input: &I,
    ) -> Result<DescriptorWatch, AllocError>
        ensures { IfOk result (λ watch. watch.answered ≡ WouldWait) }
    {
        let descriptor = input.as_raw_fd();
        Ok(DescriptorWatch {
            events: Events::with_capacity(alloc, 1)?,
            poll: register(net, descriptor).ok(),
            descriptor,
            answered: Readiness::WouldWait,
        })
    }

    /// Returns true if the system watches the descriptor.
    pub fn is_watched(&self) -> bool
        ensures { result ≡ self.now.is_watched }
    {
        self.poll.is_some()
    }
}

/// Makes an epoll set with this descriptor alone. The system refuses a descriptor that it cannot watch.
fn register<N: Net>(net: &N, descriptor: RawFd) -> io::Result<Poll> {
    let poll = Poll::new(net)?;
    poll.registry()
        .register(&mut SourceFd(&descriptor), WATCHED, Interest::READABLE)?;
    Ok(poll)
}

/// Asks the system about a read of this descriptor. The descriptor is registered anew each time, since the system reports each change
/// only once.
fn ask(poll: &mut Poll, events: &mut Events, descriptor: RawFd) -> io::Result<Readiness> {
    poll.registry()
        .reregister(&mut SourceFd(&descriptor), WATCHED, Interest::READABLE)?;
    poll.poll(events, Some(Duration::ZERO))?;
    match events.iter().next() {
        Some(event) => Ok(readiness_of(event)),
        None => Ok(Readiness::WouldWait),
    }
}

/// Returns what an event says of a read.
fn readiness_of(event: &Event) -> Readiness
    ensures { result ≡ readiness_of event.now }
{
    if event.is_readable() {
        Readiness::WouldAnswer
    } else if event.is_read_closed() {
        Readiness::HungUp
    } else {
        Readiness::WouldWait
    }
}

impl Watch for DescriptorWatch {
    ghost answered = { λ w. w.answered };

    ghost watches = { λ w. w.is_watched };

    /// Asks the system. Where that fails, or the system does not watch the descriptor, the answer is that a read would wait.
    fn readiness(&mut self) -> Readiness
        ensures answered { result ≡ self.new.answered }
        ensures watches { self.new.is_watched ≡ self.old.is_watched }
        ensures unwatched { self.old.is_watched ≡ false → result ≡ WouldWait }
    {
        let asked = match &mut self.poll {
            Some(poll) => ask(poll, &mut self.events, self.descriptor),
            None => Ok(Readiness::WouldWait),
        };
        self.answered = asked.unwrap_or(Readiness::WouldWait);
        self.answered
    }
}

/// The end of an input that has a descriptor, as standard input.
pub type DescriptorEnd<I> = DrainedSource<DescriptorWatch, StdSource<I>>;

/// Makes the end of this input. No look was made yet. It takes memory for one event and for the source's buffer.
///
/// Where the system cannot watch the input, no look sees the end. No other program should read the input at the same time: where one takes
/// the bytes between the watch's answer and the read, the read waits for more.
pub fn descriptor_end<N: Net, I: Read + AsRawFd + Drop>(
    alloc: Global,
    net: &N,
    input: I,
) -> Result<DescriptorEnd<I>, AllocError>
    ensures watch { IfOk result (λ end. end.watch.answered ≡ WouldWait) }
    ensures source { IfOk result (λ end. end.source ≡ untold_read 0 false) }
    ensures seen { IfOk result (λ end. end.is_seen ≡ false) }
{
    let watch = DescriptorWatch::new(alloc, net, &input)?;
    Ok(DrainedSource::new(watch, StdSource::new(alloc, input)?))
}
