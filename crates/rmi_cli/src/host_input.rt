//! `host` over the program's listener, clock, output and errors' sink.
ghost use Rattle.std.specs.Prelude.{◌≡◌, ◌≢◌, ◌≤◌, ◌∷◌, [], ℕ, List, IfOk, true};
ghost use Rattle.space.specs.Standing.{standing};
ghost use Rattle.conn_server.specs.Hosts.{ClosedLast};
ghost use Rattle.rmi_cli.specs.Desk.{recorded_lines, told_lines};
ghost use Rattle.rmi_cli.specs.Hosted.{AreHostTimed, ArePartsOf, AreReady, ClosesLast, HostsFrom, HostsTelling, IsClosed, after_ticks, end_of_record, host_side, is_recorded};
ghost use Rattle.rmi_cli.specs.Line.{status_of_run};
ghost use Rattle.rmi_cli.specs.LinkLine.{listening_line};
ghost use Rattle.rmi_cli.specs.ServedLinks.{PrintedOn, end_after};
ghost use Rattle.rmi_cli.specs.Sinks.{Goes, joined};
ghost use Rattle.rmi_cli.specs.declared.sink_state.SinkState.TheVariants.{Whole};
ghost use Rattle.rmi_cli.specs.Told.{ListenerFailed, WriteFailed};

use crate::end::RunEnd;
use crate::host::Host;
use crate::host_desk::{Desk, DeskLeft, DeskSinks, Given, SinkStates};
use crate::host_parts::HostParts;
use crate::link_line::listening_line;
use crate::serve_input::end_after;
use crate::sink_state::{SinkState, write_made, write_text};
use conn_server::{HostBegin, Hosted, LinkReport, MAX_LIVE, Server, Stop};
use rmi_words::{HostWords, Record};
use sample_app::SampleHand;
use space::{Space, standing};
use std::alloc::{AllocError, Global};
use std::sync::Wait;
use std::thread::Threads;
use wire_io::Dialer;
use wire_io::clock::Clock;
use wire_io::listener::Listener;
use wire_io::put::put_all;
use wire_io::sink::Sink;
use wire_io::source::Source;

/// The end of a run of `host`, and the state in which it leaves the errors' sink.
#[derive(Drop)]
pub(crate) struct HostEnd {
    pub(crate) end: RunEnd,
    pub(crate) told: SinkState,
}

/// The outcome of serving links whose reports and events a desk was given.
type SampleHosted<'t, R, I, O, T> = Hosted<
    I,
    O,
    T,
    Given<LinkReport<I, O, T, SampleHand<'t, R>>>,
    SampleHand<'t, R>,
>;

/// The outcome of serving links with a desk over the output and the errors' sink.
type DeskHosted<'s, 't, R, K, E, I, O, T> = Hosted<
    I,
    O,
    T,
    Desk<'s, K, E, LinkReport<I, O, T, SampleHand<'t, R>>>,
    SampleHand<'t, R>,
>;

/// The remains of a host that served links: what was served, and the states of its sinks.
#[derive(Drop)]
pub(crate) struct HostLeft<'t, R: Wait + Sync, I, O, T> {
    pub(crate) hosted: SampleHosted<'t, R, I, O, T>,
    pub(crate) states: SinkStates,
}

/// The arguments for serving links: the runtime, the parts of the server, and the states of the sinks after the first text and line.
#[derive(Drop)]
pub(crate) struct HostBegun<'t, R: Wait + Sync> {
    pub(crate) rt: &'t R,
    pub(crate) parts: HostParts<'t, R>,
    pub(crate) first: SinkStates,
}

/// Listens on the port of the address, serves links until the listener is told to stop, and prints what the words say. Where there was no memory to
/// begin with, nothing is done.
pub(crate) fn host_input<
    't,
    R: Threads + Wait + Sync,
    I: Source,
    O: Sink,
    E: Sink,
    T: Clock,
    L: Listener,
    D: Dialer,
>(
    rt: &'t R,
    host: &mut Host<I, O, E, T, L, D, SampleHand<'t, R>>,
    parts: Result<HostParts<'t, R>, AllocError>,
) -> HostEnd
    requires { IfOk parts AreReady }
    ensures hosts { (seed : List ℕ) (asked : HostWords) → IfOk parts.entry (ArePartsOf seed asked)
        → HostsTelling R L.In.half L.Out.half L.Ticks.given seed asked
        (host_side (L.listening host.old.listener) (T.given host.old.ticks)
        (O.half host.old.output))
        (host_side (L.listening host.new.listener) (T.given host.new.ticks)
        (O.half host.new.output))
        (E.half host.old.errors) (E.half host.new.errors) result.told result.end }
    ensures closes { ClosesLast L.listening host.old.listener host.new.listener }
    ensures known { status_of_run result.end ≢ 1 }
    ensures fault { status_of_run result.end ≡ 3
        → ListenerFailed L.listening host.old.listener host.new.listener }
    ensures write_fault { status_of_run result.end ≡ 4
        → WriteFailed O.half host.old.output host.new.output }
    ensures open { (O.half host.new.output).shut ≡ (O.half host.old.output).shut }
    ensures errors_open { (E.half host.new.errors).shut ≡ (E.half host.old.errors).shut }
    ensures rest { (host.new.input ≡ host.old.input) × (host.new.dialer ≡ host.old.dialer)
        × (host.new.talked ≡ host.old.talked) × (host.new.seed ≡ host.old.seed)
        × (host.new.served ≡ host.old.served) }
{
    match parts {
        Ok(parts) => host_on(rt, host, parts),
        Err(_refused) => HostEnd {
            end: RunEnd::OutOfMemory,
            told: SinkState::Whole,
        },
    }
}

/// Listens on the port, serves the links, and prints.
fn host_on<
    't,
    R: Threads + Wait + Sync,
    I: Source,
    O: Sink,
    E: Sink,
    T: Clock,
    L: Listener,
    D: Dialer,
>(
    rt: &'t R,
    host: &mut Host<I, O, E, T, L, D, SampleHand<'t, R>>,
    parts: HostParts<'t, R>,
) -> HostEnd
    requires { AreReady parts }
    ensures hosts { (seed : List ℕ) (asked : HostWords) → ArePartsOf seed asked parts.entry
        → HostsTelling R L.In.half L.Out.half L.Ticks.given seed asked
        (host_side (L.listening host.old.listener) (T.given host.old.ticks)
        (O.half host.old.output))
        (host_side (L.listening host.new.listener) (T.given host.new.ticks)
        (O.half host.new.output))
        (E.half host.old.errors) (E.half host.new.errors) result.told result.end }
    ensures closes { ClosesLast L.listening host.old.listener host.new.listener }
    ensures known { status_of_run result.end ≢ 1 }
    ensures fault { status_of_run result.end ≡ 3
        → ListenerFailed L.listening host.old.listener host.new.listener }
    ensures write_fault { status_of_run result.end ≡ 4
        → WriteFailed O.half host.old.output host.new.output }
    ensures open { (O.half host.new.output).shut ≡ (O.half host.old.output).shut }
    ensures errors_open { (E.half host.new.errors).shut ≡ (E.half host.old.errors).shut }
    ensures rest { (host.new.input ≡ host.old.input) × (host.new.dialer ≡ host.old.dialer)
        × (host.new.talked ≡ host.old.talked) × (host.new.seed ≡ host.old.seed)
        × (host.new.served ≡ host.old.served) }
{
    if host
        .listener
        .listen(parts.address.as_str(), parts.port)
        .is_err()
    {
        return HostEnd {
            end: RunEnd::ListenFault,
            told: SinkState::Whole,
        };
    }
    let alloc = parts.alloc;
    let recording = parts.recording;
    let first = open_sinks(&mut host.output, &mut host.errors, &parts);
    let HostLeft { hosted, states } = host_links(rt, host, first, parts);
    close_output(alloc, &mut host.output, recording, states, hosted)
}

/// Writes the line that tells where the server listens, and the text that the output begins with.
fn open_sinks<'t, R: Wait + Sync, K: Sink, E: Sink>(
    output: &mut K,
    errors: &mut E,
    parts: &HostParts<'t, R>,
) -> SinkStates
    ensures told { Goes (E.half errors.old) (E.half errors.new)
        (listening_line parts.now.address parts.now.port ∷ []) Whole result.told }
    ensures printed { (pieces : List (List ℕ)) → parts.now.first ≡ joined pieces
        → Goes (K.half output.old) (K.half output.new) pieces Whole result.printed }
{
    let line = listening_line(parts.alloc, parts.address.as_str(), parts.port);
    let told = write_made(errors, SinkState::Whole, line);
    let printed = write_text(output, SinkState::Whole, parts.first.as_slice());
    SinkStates { printed, told }
}

/// Serves the links that the listener gives, and writes the lines of events and of links that have ended.
fn host_links<
    't,
    R: Threads + Wait + Sync,
    I: Source,
    O: Sink,
    E: Sink,
    T: Clock,
    L: Listener,
    D: Dialer,
>(
    rt: &'t R,
    host: &mut Host<I, O, E, T, L, D, SampleHand<'t, R>>,
    first: SinkStates,
    parts: HostParts<'t, R>,
) -> HostLeft<'t, R, L::In, L::Out, L::Ticks>
    requires { AreReady parts }
    ensures links { (seed : List ℕ) (asked : HostWords) → ArePartsOf seed asked parts.entry
        → HostsFrom L.In.half L.Out.half L.Ticks.given seed asked
        (L.listening host.old.listener) (L.listening host.new.listener)
        (T.given host.old.ticks) (T.given host.new.ticks) result.hosted }
    ensures printed { Goes (O.half host.old.output) (O.half host.new.output)
        (recorded_lines parts.entry.recording parts.entry.space result.hosted.taker.events)
        first.printed result.states.printed }
    ensures told { Goes (E.half host.old.errors) (E.half host.new.errors)
        (told_lines result.hosted.taker.reports) first.told result.states.told }
    ensures times { AreHostTimed L.Ticks.given result.hosted }
    ensures recorded { result.hosted.recorded ≡ is_recorded parts.entry.recording }
    ensures ports { (L.listening host.new.listener).ports ≡ (L.listening host.old.listener).ports }
    ensures closed_last { ClosedLast L.listening (L.listening host.old.listener)
        (L.listening host.new.listener) }
    ensures fault { result.hosted.stop ≡ Stop.AcceptFault
        → ListenerFailed L.listening host.old.listener host.new.listener }
    ensures faults { (L.listening host.old.listener).faults
        ≤ (L.listening host.new.listener).faults }
    ensures rest { (host.new.input ≡ host.old.input) × (host.new.dialer ≡ host.old.dialer)
        × (host.new.talked ≡ host.old.talked) × (host.new.seed ≡ host.old.seed)
        × (host.new.served ≡ host.old.served) }
{
    let begun = HostBegun { rt, parts, first };
    let (output, errors, left) = serve_at_desk(
        &mut host.listener,
        &mut host.ticks,
        &mut host.output,
        &mut host.errors,
        begun,
    );
    let _ = output;
    let _ = errors;
    left
}

/// Serves the links that the listener gives. A desk over the output and the errors' sink, which are handed back, writes the lines of events and of links
/// that have ended.
fn serve_at_desk<'s, 't, R: Threads + Wait + Sync, K: Sink, E: Sink, T: Clock, L: Listener>(
    listener: &mut L,
    ticks: &mut T,
    output: &'s mut K,
    errors: &'s mut E,
    begun: HostBegun<'t, R>,
) -> (
    &'s mut K,
    &'s mut E,
    HostLeft<'t, R, L::In, L::Out, L::Ticks>,
)
    requires { AreReady begun.parts }
    ensures same_output { result.0.ghost_name ≡ output.entry.ghost_name }
    ensures same_errors { result.1.ghost_name ≡ errors.entry.ghost_name }
    ensures printed { Goes (K.half output.old) (K.half result.0.now)
        (recorded_lines begun.entry.parts.recording begun.entry.parts.space
        result.2.hosted.taker.events)
        begun.entry.first.printed result.2.states.printed }
    ensures told { Goes (E.half errors.old) (E.half result.1.now)
        (told_lines result.2.hosted.taker.reports) begun.entry.first.told result.2.states.told }
    ensures links { (seed : List ℕ) (asked : HostWords) → ArePartsOf seed asked begun.entry.parts
        → HostsFrom L.In.half L.Out.half L.Ticks.given seed asked
        (L.listening listener.old) (L.listening listener.new)
        (T.given ticks.old) (T.given ticks.new) result.2.hosted }
    ensures times { AreHostTimed L.Ticks.given result.2.hosted }
    ensures recorded { result.2.hosted.recorded ≡ is_recorded begun.entry.parts.recording }
    ensures ports { (L.listening listener.new).ports ≡ (L.listening listener.old).ports }
    ensures closed_last { ClosedLast L.listening (L.listening listener.old)
        (L.listening listener.new) }
    ensures fault { result.2.hosted.stop ≡ Stop.AcceptFault
        → ListenerFailed L.listening listener.old listener.new }
    ensures faults { (L.listening listener.old).faults ≤ (L.listening listener.new).faults }
{
    let HostBegun {
        rt,
        parts,
        first: states,
    } = begun;
    let HostParts {
        alloc,
        crew,
        book,
        plan,
        lock,
        root,
        address,
        port: _,
        recording,
        space,
        first,
    } = parts;
    drop(address);
    drop(first);
    let sinks = DeskSinks {
        output,
        errors,
        states,
    };
    let server = Server {
        rt,
        alloc,
        crew: &crew,
        book: &book,
    };
    let begin = HostBegin {
        root,
        taker: sinks.into_desk(alloc, recording, space),
        record: is_recorded(recording),
        most_live: MAX_LIVE,
    };
    let served = server.host(listener, ticks, lock, begin, &plan);
    take_apart(served)
}

/// Returns whether events are printed as they are made.
fn is_recorded(recording: Record) -> bool
    ensures { result ≡ is_recorded recording }
{
    match recording {
        Record::Silent => false,
        Record::Journal => true,
    }
}

/// Takes the desk of a host apart. Returns its sinks, and what is left of the host.
fn take_apart<'s, 't, R: Wait + Sync, K, E, I, O, T>(
    served: DeskHosted<'s, 't, R, K, E, I, O, T>,
) -> (&'s mut K, &'s mut E, HostLeft<'t, R, I, O, T>)
    ensures same_output { result.0.ghost_name ≡ served.entry.taker.output.ghost_name }
    ensures same_errors { result.1.ghost_name ≡ served.entry.taker.errors.ghost_name }
    ensures output { result.0.now ≡ served.entry.taker.output.now }
    ensures errors { result.1.now ≡ served.entry.taker.errors.now }
    ensures printed { result.2.states.printed ≡ served.entry.taker.printed }
    ensures told { result.2.states.told ≡ served.entry.taker.told }
    ensures given { result.2.hosted.taker ≡ served.entry.taker.given }
    ensures rest { (result.2.hosted.stop ≡ served.entry.stop)
        × (result.2.hosted.lost ≡ served.entry.lost)
        × (result.2.hosted.space ≡ served.entry.space)
        × (result.2.hosted.whole ≡ served.entry.whole)
        × (result.2.hosted.hand ≡ served.entry.hand)
        × (result.2.hosted.tick_missed ≡ served.entry.tick_missed)
        × (result.2.hosted.ticks_missed ≡ served.entry.ticks_missed)
        × (result.2.hosted.recorded ≡ served.entry.recorded) }
{
    let Hosted {
        taker,
        stop,
        lost,
        space,
        whole,
        recorded,
        hand,
        tick_missed,
        ticks_missed,
    } = served;
    let (output, errors, DeskLeft { given, states }) = taker.into_parts();
    let hosted = Hosted {
        taker: given,
        stop,
        lost,
        space,
        whole,
        recorded,
        hand,
        tick_missed,
        ticks_missed,
    };
    (output, errors, HostLeft { hosted, states })
}

/// Prints what stands of the space that is left, where events were not recorded, and answers how the run ends.
fn close_output<K: Sink, I: Drop, O: Drop, T: Drop, G, H: Drop>(
    alloc: Global,
    sink: &mut K,
    recording: Record,
    states: SinkStates,
    hosted: Hosted<I, O, T, Given<G>, H>,
) -> HostEnd
    ensures ends { IsClosed recording (K.half sink.old) (K.half sink.new) states.printed hosted
        result.end }
    ensures told { result.told ≡ states.told }
    ensures open { (K.half sink.new).shut ≡ (K.half sink.old).shut }
{
    let printed = match recording {
        Record::Silent => print_standing(alloc, sink, &hosted.space),
        Record::Journal => end_of_record(states.printed, hosted.whole),
    };
    HostEnd {
        end: end_after(hosted.stop, after_ticks(hosted.tick_missed, printed)),
        told: states.told,
    }
}

/// Returns the end of a run by how its output ends: where all was printed, and the server missed a Tick for want of memory, that want is told.
fn after_ticks(missed: bool, printed: RunEnd) -> RunEnd
    ensures { result ≡ after_ticks missed printed }
{
    if missed {
        end_with_missed_tick(printed)
    } else {
        printed
    }
}

/// Returns the end of a run by how its output ends, where the server missed a Tick for want of memory.
fn end_with_missed_tick(printed: RunEnd) -> RunEnd
    ensures { result ≡ after_ticks true printed }
{
    if printed.is_silent() {
        RunEnd::OutOfMemory
    } else {
        printed
    }
}

/// Returns the end of a run whose output has this state, where all events were recorded or not.
fn end_of_record(state: SinkState, whole: bool) -> RunEnd
    ensures { result ≡ end_of_record state whole }
{
    match state {
        SinkState::Whole => {
            if whole {
                RunEnd::Done
            } else {
                RunEnd::OutOfMemory
            }
        }
        SinkState::Failed => RunEnd::WriteFault,
        SinkState::Lost => RunEnd::OutOfMemory,
    }
}

/// Writes what stands of the space that is left, and answers how that ended.
fn print_standing<K: Sink>(alloc: Global, sink: &mut K, space: &Space) -> RunEnd
    ensures printed { PrintedOn K.half sink.old sink.new
        (standing space.now.configuration space.now.events) result }
    ensures open { (K.half sink.new).shut ≡ (K.half sink.old).shut }
{
    match standing(alloc, space) {
        Ok(text) => match put_all(sink, text.as_slice()) {
            Ok(()) => RunEnd::Done,
            Err(_) => RunEnd::WriteFault,
        },
        Err(_refused) => RunEnd::OutOfMemory,
    }
}
