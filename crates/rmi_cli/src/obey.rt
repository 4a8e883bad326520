//! Does what the words ask for: each command, over the parts of the host that it needs.
ghost use Rattle.std.specs.Prelude.{◌≡◌, ◌≢◌, ◌≤◌, ℕ, List, Option, length, map};
ghost use Rattle.wire_io.specs.Wire.{wires};
ghost use Rattle.rmi_cli.specs.Answer.{Answers, AnswersExactly};
ghost use Rattle.rmi_words.specs.HostWords.{IsHostInRange};
ghost use Rattle.rmi_words.specs.Options.{IsInRange, IsServeInRange};
ghost use Rattle.rmi_cli.specs.Drilled.{Drills, DrillsExactly};
ghost use Rattle.rmi_cli.specs.Helped.{Helps};
ghost use Rattle.rmi_cli.specs.Hosted.{ClosesLast, Hosting, host_side};
ghost use Rattle.rmi_cli.specs.Limits.{IsInLimits};
ghost use Rattle.rmi_cli.specs.Printing.{PrintsClass, PrintsExactly};
ghost use Rattle.rmi_cli.specs.Replayed.{ReplaysInput, ReplaysExactly};
ghost use Rattle.conn_server.specs.Stops.{IsLostLink};
ghost use Rattle.rmi_cli.specs.ServedLinks.{IsSampleLink, Serving, serve_plan};
ghost use Rattle.rmi_cli.specs.Shown.{ShowsInput, ShowsExactly};
ghost use Rattle.rmi_cli.specs.Called.{CallsObject};
ghost use Rattle.client_talk.specs.Sessions.{ended_as};
ghost use Rattle.rmi_cli.specs.Talked.{AsksServer, LinkFailed, SinkFailed, side};
ghost use Rattle.rmi_cli.specs.Told.{ListenerFailed, ReadFailed, StayOpen, WriteFailed, failures, told_by};
ghost use Rattle.rmi_cli.specs.Worlds.{MakesWorld, MakesWorldExactly};
ghost use Rattle.rmi_words.specs.declared.client.ClientCommand.{ClientCommand as ClientCommands};
ghost use Rattle.rmi_words.specs.declared.command.ClassOutput.{ClassOutput as ClassOutputs};
ghost use Rattle.rmi_words.specs.declared.command.DrillText.{DrillText as DrillTexts};
ghost use Rattle.rmi_words.specs.declared.command.HelpTopic.{HelpTopic as Topics};

use crate::answer_input::answer_input;
use crate::call_output::call_object;
use crate::call_request::request_of;
use crate::class_input::print_class;
use crate::client_output::ask_server;
use crate::drill_output::write_drill;
use crate::end::RunEnd;
use crate::help_output::write_help;
use crate::host::Host;
use crate::host_input::host_input;
use crate::host_parts::host_parts;
use crate::journal_input::replay_input;
use crate::report::{report_end, report_host};
use crate::serve_input::serve_input;
use crate::stream_input::show_input;
use crate::world_input::print_world;
use rmi_words::{CallWords, ClientCommand, Command, HostWords, LeaseOptions, ServeWords};
use sample_app::SampleHand;
use std::alloc::Global;
use std::sync::Wait;
use std::thread::Threads;
use wire_io::Dialer;
use wire_io::clock::Clock;
use wire_io::listener::Listener;
use wire_io::sink::Sink;
use wire_io::source::Source;

/// Does what a command says, and answers the status of the process, with the clauses of `run`.
#[tactic(auto, using(crate::proofs::Telling::took))]
pub(crate) fn obey<
    't,
    R: Threads + Wait + Sync,
    I: Source,
    O: Sink,
    E: Sink,
    T: Clock,
    L: Listener,
    D: Dialer,
>(
    rt: &'t R,
    alloc: Global,
    command: Command,
    host: &mut Host<I, O, E, T, L, D, SampleHand<'t, R>>,
) -> u8
    requires limits { IsInLimits command }
    ensures known { result ≢ 1 }
    ensures answer { (options : LeaseOptions) → command ≡ Command.Answer options
        → Answers host.old.seed options
        (wires I.half O.half host.old.input host.old.output)
        (wires I.half O.half host.new.input host.new.output)
        (failures I.half O.half host.old.input host.old.output)
        (failures I.half O.half host.new.input host.new.output)
        (T.given host.old.ticks) (T.given host.new.ticks)
        (told_by E.half host.old.errors host.new.errors result) }
    ensures exact { (options : LeaseOptions) → command ≡ Command.Answer options
        → AnswersExactly host.old.seed options
        (wires I.half O.half host.old.input host.old.output)
        (wires I.half O.half host.new.input host.new.output)
        (told_by E.half host.old.errors host.new.errors result) }
    ensures serves { (serve : ServeWords) → command ≡ Command.Serve serve → Serving
        (IsSampleLink L.In.half L.Out.half L.Ticks.given (serve_plan host.old.seed serve))
        (IsLostLink L.In.half L.Out.half L.Ticks.given)
        host.old.seed serve host.new.served (L.listening host.old.listener)
        (L.listening host.new.listener)
        (wires I.half O.half host.old.input host.old.output)
        (wires I.half O.half host.new.input host.new.output)
        (O.half host.old.output).faults (O.half host.new.output).faults
        (told_by E.half host.old.errors host.new.errors result) }
    ensures hosts { (asked : HostWords) → command ≡ Command.Host asked
        → Hosting R L.In.half L.Out.half L.Ticks.given host.old.seed asked
        (host_side (L.listening host.old.listener) (T.given host.old.ticks)
        (O.half host.old.output))
        (host_side (L.listening host.new.listener) (T.given host.new.ticks)
        (O.half host.new.output))
        (told_by E.half host.old.errors host.new.errors result) }
    ensures host_unread { (asked : HostWords) → command ≡ Command.Host asked
        → host.new.input ≡ host.old.input }
    ensures host_closes { (asked : HostWords) → command ≡ Command.Host asked
        → ClosesLast L.listening host.old.listener host.new.listener }
    ensures asks { (asked : ClientCommands) (given : Option (List ℕ)) → command
        ≡ Command.Client asked → AsksServer asked
        (side (D.dialing host.old.dialer)
        (map (ended_as D.In.half D.Out.half) host.old.talked.items) (O.half host.old.output))
        (side (D.dialing host.new.dialer)
        (map (ended_as D.In.half D.Out.half) host.new.talked.items) (O.half host.new.output))
        given given
        (told_by E.half host.old.errors host.new.errors result) }
    ensures calls { (call : CallWords) → command ≡ Command.Call call
        → CallsObject host.old.seed call
        (side (D.dialing host.old.dialer)
        (map (ended_as D.In.half D.Out.half) host.old.talked.items)
        (O.half host.old.output))
        (side (D.dialing host.new.dialer)
        (map (ended_as D.In.half D.Out.half) host.new.talked.items)
        (O.half host.new.output))
        (T.given host.old.ticks) (T.given host.new.ticks)
        (told_by E.half host.old.errors host.new.errors result) }
    ensures replay { command ≡ Command.Replay → ReplaysInput
        (wires I.half O.half host.old.input host.old.output)
        (wires I.half O.half host.new.input host.new.output)
        (failures I.half O.half host.old.input host.old.output)
        (failures I.half O.half host.new.input host.new.output)
        (told_by E.half host.old.errors host.new.errors result) }
    ensures replay_exact { command ≡ Command.Replay → ReplaysExactly
        (wires I.half O.half host.old.input host.old.output)
        (wires I.half O.half host.new.input host.new.output)
        (told_by E.half host.old.errors host.new.errors result) }
    ensures show { command ≡ Command.Show → ShowsInput
        (wires I.half O.half host.old.input host.old.output)
        (wires I.half O.half host.new.input host.new.output)
        (failures I.half O.half host.old.input host.old.output)
        (failures I.half O.half host.new.input host.new.output)
        (told_by E.half host.old.errors host.new.errors result) }
    ensures show_exact { command ≡ Command.Show → ShowsExactly
        (wires I.half O.half host.old.input host.old.output)
        (wires I.half O.half host.new.input host.new.output)
        (told_by E.half host.old.errors host.new.errors result) }
    ensures drill { (text : DrillTexts) (seed rounds : ℕ) → command ≡ Command.Drill text seed rounds
        → Drills text seed rounds
        (wires I.half O.half host.old.input host.old.output)
        (wires I.half O.half host.new.input host.new.output)
        (failures I.half O.half host.old.input host.old.output)
        (failures I.half O.half host.new.input host.new.output)
        (told_by E.half host.old.errors host.new.errors result) }
    ensures drill_exact { (text : DrillTexts) (seed rounds : ℕ) → command
        ≡ Command.Drill text seed rounds → DrillsExactly text seed rounds
        (wires I.half O.half host.old.input host.old.output)
        (wires I.half O.half host.new.input host.new.output)
        (told_by E.half host.old.errors host.new.errors result) }
    ensures world { command ≡ Command.World → MakesWorld
        (wires I.half O.half host.old.input host.old.output)
        (wires I.half O.half host.new.input host.new.output)
        (failures I.half O.half host.old.input host.old.output)
        (failures I.half O.half host.new.input host.new.output)
        (told_by E.half host.old.errors host.new.errors result) }
    ensures world_exact { command ≡ Command.World → MakesWorldExactly
        (wires I.half O.half host.old.input host.old.output)
        (wires I.half O.half host.new.input host.new.output)
        (told_by E.half host.old.errors host.new.errors result) }
    ensures class { (output : ClassOutputs) → command ≡ Command.Class output → PrintsClass output
        (wires I.half O.half host.old.input host.old.output)
        (wires I.half O.half host.new.input host.new.output)
        (O.half host.old.output).faults (O.half host.new.output).faults
        (told_by E.half host.old.errors host.new.errors result) }
    ensures class_exact { (output : ClassOutputs) → command ≡ Command.Class output
        → PrintsExactly output
        (wires I.half O.half host.old.input host.old.output)
        (wires I.half O.half host.new.input host.new.output)
        (told_by E.half host.old.errors host.new.errors result) }
    ensures help { (topic : Topics) → command ≡ Command.Help topic → Helps topic
        (wires I.half O.half host.old.input host.old.output)
        (wires I.half O.half host.new.input host.new.output)
        (O.half host.old.output).faults (O.half host.new.output).faults
        (told_by E.half host.old.errors host.new.errors result) }
    ensures clock { ((options : LeaseOptions) → command ≡ Command.Answer options → ⊥)
        → ((call : CallWords) → command ≡ Command.Call call → ⊥)
        → ((asked : HostWords) → command ≡ Command.Host asked → ⊥)
        → T.given host.new.ticks ≡ T.given host.old.ticks }
    ensures network { ((serve : ServeWords) → command ≡ Command.Serve serve → ⊥)
        → ((asked : HostWords) → command ≡ Command.Host asked → ⊥)
        → host.new.listener ≡ host.old.listener }
    ensures served { ((serve : ServeWords) → command ≡ Command.Serve serve → ⊥) → host.new.served
        ≡ host.old.served }
    ensures seed { host.new.seed ≡ host.old.seed }
    ensures dialing { ((asked : ClientCommands) → command ≡ Command.Client asked → ⊥)
        → ((call : CallWords) → command ≡ Command.Call call → ⊥)
        → (host.new.dialer ≡ host.old.dialer) × (host.new.talked ≡ host.old.talked) }
    ensures unread { (asked : ClientCommands) → command ≡ Command.Client asked → host.new.input
        ≡ host.old.input }
    ensures call_unread { (call : CallWords) → command ≡ Command.Call call → host.new.input
        ≡ host.old.input }
    ensures read_fault { ((serve : ServeWords) → command ≡ Command.Serve serve → ⊥)
        → ((asked : HostWords) → command ≡ Command.Host asked → ⊥)
        → ((asked : ClientCommands) → command ≡ Command.Client asked → ⊥)
        → ((call : CallWords) → command ≡ Command.Call call → ⊥)
        → result ≡ 3 → ReadFailed I.half host.old.input host.new.input }
    ensures network_fault { (serve : ServeWords) → command ≡ Command.Serve serve → result ≡ 3
        → ListenerFailed L.listening host.old.listener host.new.listener }
    ensures host_fault { (asked : HostWords) → command ≡ Command.Host asked → result ≡ 3
        → ListenerFailed L.listening host.old.listener host.new.listener }
    ensures write_fault { ((asked : ClientCommands) → command ≡ Command.Client asked → ⊥)
        → ((call : CallWords) → command ≡ Command.Call call → ⊥)
        → result ≡ 4 → WriteFailed O.half host.old.output host.new.output }
    ensures link_fault { (asked : ClientCommands) → command ≡ Command.Client asked → result ≡ 3
        → LinkFailed
        (side (D.dialing host.old.dialer)
        (map (ended_as D.In.half D.Out.half) host.old.talked.items) (O.half host.old.output))
        (side (D.dialing host.new.dialer)
        (map (ended_as D.In.half D.Out.half) host.new.talked.items) (O.half host.new.output)) }
    ensures sink_fault { (asked : ClientCommands) → command ≡ Command.Client asked → result ≡ 4
        → SinkFailed
        (side (D.dialing host.old.dialer)
        (map (ended_as D.In.half D.Out.half) host.old.talked.items) (O.half host.old.output))
        (side (D.dialing host.new.dialer)
        (map (ended_as D.In.half D.Out.half) host.new.talked.items) (O.half host.new.output)) }
    ensures call_link_fault { (call : CallWords) → command ≡ Command.Call call → result ≡ 3
        → LinkFailed
        (side (D.dialing host.old.dialer)
        (map (ended_as D.In.half D.Out.half) host.old.talked.items)
        (O.half host.old.output))
        (side (D.dialing host.new.dialer)
        (map (ended_as D.In.half D.Out.half) host.new.talked.items)
        (O.half host.new.output)) }
    ensures call_sink_fault { (call : CallWords) → command ≡ Command.Call call → result ≡ 4
        → SinkFailed
        (side (D.dialing host.old.dialer)
        (map (ended_as D.In.half D.Out.half) host.old.talked.items)
        (O.half host.old.output))
        (side (D.dialing host.new.dialer)
        (map (ended_as D.In.half D.Out.half) host.new.talked.items)
        (O.half host.new.output)) }
    ensures open { StayOpen I.half O.half host.old.input host.old.output host.new.input
        host.new.output }
    ensures errors_open { (E.half host.new.errors).shut ≡ (E.half host.old.errors).shut }
{
    match command {
        Command::Answer(options) => obey_answer(alloc, host, options),
        Command::Serve(serve) => obey_serve(rt, alloc, host, &serve),
        Command::Host(asked) => obey_host(rt, alloc, host, &asked),
        Command::Client(asked) => obey_client(alloc, host, asked),
        Command::Call(call) => obey_call(alloc, host, &call),
        Command::Replay => {
            let end = replay_input(alloc, &mut host.input, &mut host.output);
            report_end(alloc, &mut host.errors, end)
        }
        Command::Show => {
            let end = show_input(alloc, &mut host.input, &mut host.output);
            report_end(alloc, &mut host.errors, end)
        }
        Command::Drill { text, seed, rounds } => {
            let end = write_drill(alloc, &mut host.output, text, seed, rounds);
            report_end(alloc, &mut host.errors, end)
        }
        Command::World => {
            let end = print_world(alloc, &mut host.input, &mut host.output);
            report_end(alloc, &mut host.errors, end)
        }
        Command::Class(output) => {
            let end = print_class(alloc, &mut host.input, &mut host.output, output);
            report_end(alloc, &mut host.errors, end)
        }
        Command::Help(topic) => {
            let end = write_help(alloc, &mut host.output, topic);
            report_end(alloc, &mut host.errors, end)
        }
    }
}

/// Serves the input and the output as one connection, and tells the end.
fn obey_answer<I: Source, O: Sink, E: Sink, T: Clock, L: Listener, D: Dialer, H>(
    alloc: Global,
    host: &mut Host<I, O, E, T, L, D, H>,
    options: LeaseOptions,
) -> u8
    requires { IsInRange options }
    ensures known { result ≢ 1 }
    ensures answers { Answers host.old.seed options
        (wires I.half O.half host.old.input host.old.output)
        (wires I.half O.half host.new.input host.new.output)
        (failures I.half O.half host.old.input host.old.output)
        (failures I.half O.half host.new.input host.new.output)
        (T.given host.old.ticks) (T.given host.new.ticks)
        (told_by E.half host.old.errors host.new.errors result) }
    ensures exact { AnswersExactly host.old.seed options
        (wires I.half O.half host.old.input host.old.output)
        (wires I.half O.half host.new.input host.new.output)
        (told_by E.half host.old.errors host.new.errors result) }
    ensures read_fault { result ≡ 3 → ReadFailed I.half host.old.input host.new.input }
    ensures write_fault { result ≡ 4 → WriteFailed O.half host.old.output host.new.output }
    ensures open { StayOpen I.half O.half host.old.input host.old.output host.new.input
        host.new.output }
    ensures errors_open { (E.half host.new.errors).shut ≡ (E.half host.old.errors).shut }
    ensures rest { (host.new.listener ≡ host.old.listener) × (host.new.dialer ≡ host.old.dialer)
        × (host.new.talked ≡ host.old.talked) × (host.new.seed ≡ host.old.seed)
        × (host.new.served ≡ host.old.served) }
{
    let end = answer_input(
        alloc,
        &mut host.input,
        &mut host.output,
        &mut host.ticks,
        &host.seed,
        options,
    );
    report_end(alloc, &mut host.errors, RunEnd::Answered(end))
}

/// Serves links, leaves their report in the host, writes the outline, and tells the end.
fn obey_serve<
    't,
    R: Threads + Wait + Sync,
    I: Source,
    O: Sink,
    E: Sink,
    T: Clock,
    L: Listener,
    D: Dialer,
>(
    rt: &'t R,
    alloc: Global,
    host: &mut Host<I, O, E, T, L, D, SampleHand<'t, R>>,
    serve: &ServeWords,
) -> u8
    requires { IsServeInRange serve.now }
    ensures known { result ≢ 1 }
    ensures serves { Serving
        (IsSampleLink L.In.half L.Out.half L.Ticks.given (serve_plan host.old.seed serve.now))
        (IsLostLink L.In.half L.Out.half L.Ticks.given)
        host.old.seed serve.now host.new.served (L.listening host.old.listener)
        (L.listening host.new.listener)
        (wires I.half O.half host.old.input host.old.output)
        (wires I.half O.half host.new.input host.new.output)
        (O.half host.old.output).faults (O.half host.new.output).faults
        (told_by E.half host.old.errors host.new.errors result) }
    ensures network_fault { result ≡ 3
        → ListenerFailed L.listening host.old.listener host.new.listener }
    ensures write_fault { result ≡ 4 → WriteFailed O.half host.old.output host.new.output }
    ensures open { StayOpen I.half O.half host.old.input host.old.output host.new.input
        host.new.output }
    ensures errors_open { (E.half host.new.errors).shut ≡ (E.half host.old.errors).shut }
    ensures rest { (host.new.input ≡ host.old.input) × (host.new.ticks ≡ host.old.ticks)
        × (host.new.dialer ≡ host.old.dialer) × (host.new.talked ≡ host.old.talked)
        × (host.new.seed ≡ host.old.seed) }
{
    let served = serve_input(
        rt,
        alloc,
        &mut host.listener,
        &mut host.output,
        &host.seed,
        serve,
    );
    host.served = served.report;
    report_end(alloc, &mut host.errors, served.end)
}

/// Serves links until the listener is told to stop, and tells the end behind the lines of the links.
fn obey_host<
    't,
    R: Threads + Wait + Sync,
    I: Source,
    O: Sink,
    E: Sink,
    T: Clock,
    L: Listener,
    D: Dialer,
>(
    rt: &'t R,
    alloc: Global,
    host: &mut Host<I, O, E, T, L, D, SampleHand<'t, R>>,
    asked: &HostWords,
) -> u8
    requires { IsHostInRange asked.now }
    ensures known { result ≢ 1 }
    ensures hosts { Hosting R L.In.half L.Out.half L.Ticks.given host.old.seed asked.now
        (host_side (L.listening host.old.listener) (T.given host.old.ticks)
        (O.half host.old.output))
        (host_side (L.listening host.new.listener) (T.given host.new.ticks)
        (O.half host.new.output))
        (told_by E.half host.old.errors host.new.errors result) }
    ensures host_closes { ClosesLast L.listening host.old.listener host.new.listener }
    ensures host_fault { result ≡ 3
        → ListenerFailed L.listening host.old.listener host.new.listener }
    ensures write_fault { result ≡ 4 → WriteFailed O.half host.old.output host.new.output }
    ensures open { StayOpen I.half O.half host.old.input host.old.output host.new.input
        host.new.output }
    ensures errors_open { (E.half host.new.errors).shut ≡ (E.half host.old.errors).shut }
    ensures rest { (host.new.input ≡ host.old.input) × (host.new.dialer ≡ host.old.dialer)
        × (host.new.talked ≡ host.old.talked) × (host.new.seed ≡ host.old.seed)
        × (host.new.served ≡ host.old.served) }
{
    let parts = host_parts(rt, alloc, &host.seed, asked);
    let ended = host_input(rt, host, parts);
    report_host(alloc, &mut host.errors, ended)
}

/// Asks a server, prints its answer, and tells the end.
fn obey_client<I: Source, O: Sink, E: Sink, T: Clock, L: Listener, D: Dialer, H>(
    alloc: Global,
    host: &mut Host<I, O, E, T, L, D, H>,
    asked: ClientCommand,
) -> u8
    ensures known { result ≢ 1 }
    ensures asks { (given : Option (List ℕ)) → AsksServer asked
        (side (D.dialing host.old.dialer)
        (map (ended_as D.In.half D.Out.half) host.old.talked.items) (O.half host.old.output))
        (side (D.dialing host.new.dialer)
        (map (ended_as D.In.half D.Out.half) host.new.talked.items) (O.half host.new.output))
        given given
        (told_by E.half host.old.errors host.new.errors result) }
    ensures link_fault { result ≡ 3 → LinkFailed
        (side (D.dialing host.old.dialer)
        (map (ended_as D.In.half D.Out.half) host.old.talked.items) (O.half host.old.output))
        (side (D.dialing host.new.dialer)
        (map (ended_as D.In.half D.Out.half) host.new.talked.items) (O.half host.new.output)) }
    ensures sink_fault { result ≡ 4 → SinkFailed
        (side (D.dialing host.old.dialer)
        (map (ended_as D.In.half D.Out.half) host.old.talked.items) (O.half host.old.output))
        (side (D.dialing host.new.dialer)
        (map (ended_as D.In.half D.Out.half) host.new.talked.items) (O.half host.new.output)) }
    ensures open { StayOpen I.half O.half host.old.input host.old.output host.new.input
        host.new.output }
    ensures errors_open { (E.half host.new.errors).shut ≡ (E.half host.old.errors).shut }
    ensures rest { (host.new.input ≡ host.old.input) × (host.new.ticks ≡ host.old.ticks)
        × (host.new.listener ≡ host.old.listener) × (host.new.seed ≡ host.old.seed)
        × (host.new.served ≡ host.old.served) }
{
    let end = ask_server(
        alloc,
        &mut host.dialer,
        &mut host.talked,
        &mut host.output,
        asked,
    );
    report_end(alloc, &mut host.errors, end)
}

/// Calls an object, prints what that returns, and tells the end.
fn obey_call<I: Source, O: Sink, E: Sink, T: Clock, L: Listener, D: Dialer, H>(
    alloc: Global,
    host: &mut Host<I, O, E, T, L, D, H>,
    call: &CallWords,
) -> u8
    requires { length call.now.arguments ≤ 255 }
    ensures known { result ≢ 1 }
    ensures calls { CallsObject host.old.seed call.now
        (side (D.dialing host.old.dialer)
        (map (ended_as D.In.half D.Out.half) host.old.talked.items) (O.half host.old.output))
        (side (D.dialing host.new.dialer)
        (map (ended_as D.In.half D.Out.half) host.new.talked.items) (O.half host.new.output))
        (T.given host.old.ticks) (T.given host.new.ticks)
        (told_by E.half host.old.errors host.new.errors result) }
    ensures link_fault { result ≡ 3 → LinkFailed
        (side (D.dialing host.old.dialer)
        (map (ended_as D.In.half D.Out.half) host.old.talked.items) (O.half host.old.output))
        (side (D.dialing host.new.dialer)
        (map (ended_as D.In.half D.Out.half) host.new.talked.items) (O.half host.new.output)) }
    ensures sink_fault { result ≡ 4 → SinkFailed
        (side (D.dialing host.old.dialer)
        (map (ended_as D.In.half D.Out.half) host.old.talked.items) (O.half host.old.output))
        (side (D.dialing host.new.dialer)
        (map (ended_as D.In.half D.Out.half) host.new.talked.items) (O.half host.new.output)) }
    ensures open { StayOpen I.half O.half host.old.input host.old.output host.new.input
        host.new.output }
    ensures errors_open { (E.half host.new.errors).shut ≡ (E.half host.old.errors).shut }
    ensures rest { (host.new.input ≡ host.old.input) × (host.new.listener ≡ host.old.listener)
        × (host.new.seed ≡ host.old.seed) × (host.new.served ≡ host.old.served) }
{
    let request = request_of(alloc, &host.seed, call);
    let end = call_object(
        &mut host.dialer,
        &mut host.ticks,
        &mut host.talked,
        &mut host.output,
        request,
    );
    report_end(alloc, &mut host.errors, end)
}
