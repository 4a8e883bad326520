//! All that the program does, as the contract of `run`. The module `obey` does the command, and `report` writes the line that tells the end.
ghost use Rattle.std.specs.Prelude.{◌≡◌, ◌⊎◌, ℕ, List, Option, None, map};
ghost use Rattle.wire_io.specs.Wire.{wires};
ghost use Rattle.rmi_cli.specs.Answer.{Answers, AnswersExactly};
ghost use Rattle.rmi_words.specs.Command.{AskFor, AskForNothing};
ghost use Rattle.rmi_cli.specs.Drilled.{Drills, DrillsExactly};
ghost use Rattle.rmi_cli.specs.Helped.{Helps};
ghost use Rattle.rmi_cli.specs.Hosted.{ClosesLast, Hosting, host_side};
ghost use Rattle.rmi_cli.specs.Journals.{PrintsJournal};
ghost use Rattle.rmi_cli.specs.Printing.{PrintsClass, PrintsExactly};
ghost use Rattle.rmi_cli.specs.Replayed.{ReplaysInput, ReplaysExactly};
ghost use Rattle.conn_server.specs.Stops.{IsLostLink};
ghost use Rattle.rmi_cli.specs.ServedLinks.{IsSampleLink, Serving, serve_plan};
ghost use Rattle.rmi_cli.specs.Shown.{ShowsInput, ShowsExactly};
ghost use Rattle.rmi_cli.specs.Called.{AskNoClock, AskNoHost, AskNoServe, AskNoServer, AsksAServer, CallsObject};
ghost use Rattle.client_talk.specs.Sessions.{ended_as};
ghost use Rattle.rmi_cli.specs.Talked.{AsksServer, LinkFailed, SinkFailed, side};
ghost use Rattle.rmi_cli.specs.Told.{ListenerFailed, ReadFailed, StayOpen, TellsNoCommand, WriteFailed, failures, told_by};
ghost use Rattle.rmi_cli.specs.Worlds.{MakesWorld, MakesWorldExactly, PrintsKeptWorld};
ghost use Rattle.rmi_words.specs.declared.client.ClientCommand.{ClientCommand as ClientCommands};
ghost use Rattle.rmi_words.specs.declared.command.ClassOutput.{ClassOutput as ClassOutputs};
ghost use Rattle.rmi_words.specs.declared.command.Command.{Command as Commands};
ghost use Rattle.rmi_words.specs.declared.command.DrillText.{DrillText as DrillTexts};
ghost use Rattle.rmi_words.specs.declared.command.HelpTopic.{HelpTopic as Topics};

use crate::host::Host;
use crate::obey::obey;
use crate::report::report_words;
use rmi_words::{CallWords, Command, HostWords, LeaseOptions, Record, ServeWords, Words};
use sample_app::SampleHand;
use std::alloc::Global;
use std::sync::Wait;
use std::thread::Threads;
use wire_io::Dialer;
use wire_io::clock::Clock;
use wire_io::listener::Listener;
use wire_io::sink::Sink;
use wire_io::source::Source;

/// Does what the words say, and answers the status of the process:
///
/// | status | comes |
/// |---|---|
/// | 0 | the command ended well |
/// | 1 | only where the words are no command line; it, or 5, comes wherever they are none, and nothing is read or written then |
/// | 2 | the input, or what a server answers, is not what the command reads |
/// | 3 | only where reading the input failed, at `serve` and `host` the listener, or at a client's command the dialer or a source of its links |
/// | 4 | only where writing the output failed, or at a client's command a sink of its links |
/// | 5 | for want of memory |
/// | 6 | at a limit |
/// | 7 | an object or a method is not there, or a server answers an exception |
///
/// One line on the errors' sink tells the end, but that all was done, which no line tells. Lines of `host` on links that have ended stand before it.
/// That it could not be written changes nothing.
/// Where there is no memory for the line, the status is 5, and the line is that of want of memory.
#[tactic(auto, using(crate::proofs::Telling::took))]
pub fn run<
    't,
    R: Threads + Wait + Sync,
    I: Source,
    O: Sink,
    E: Sink,
    T: Clock,
    L: Listener,
    D: Dialer,
>(
    rt: &'t R,
    alloc: Global,
    words: &Words,
    host: &mut Host<I, O, E, T, L, D, SampleHand<'t, R>>,
) -> u8
    // Words that ask for nothing are no command line: that is told, with the status 1, or want of memory to read them, with the status 5.
    ensures usage { result ≡ 1 → AskForNothing words.now }
    ensures no_command { AskForNothing words.now
        → TellsNoCommand (told_by E.half host.old.errors host.new.errors result) }
    ensures untouched { AskForNothing words.now
        → ((I.half host.new.input).left ≡ (I.half host.old.input).left)
        × ((O.half host.new.output).held ≡ (O.half host.old.output).held) }

    // `answer` serves one connection over a space of its own, on the options that the words give: what was taken, done and written is a dialogue, whose
    // end is told.
    ensures answer { (options : LeaseOptions) → AskFor words.now (Command.Answer options)
        → Answers host.old.seed options
        (wires I.half O.half host.old.input host.old.output)
        (wires I.half O.half host.new.input host.new.output)
        (failures I.half O.half host.old.input host.old.output)
        (failures I.half O.half host.new.input host.new.output)
        (T.given host.old.ticks) (T.given host.new.ticks)
        (told_by E.half host.old.errors host.new.errors result) }
    ensures exact { (options : LeaseOptions) → AskFor words.now (Command.Answer options)
        → AnswersExactly host.old.seed options
        (wires I.half O.half host.old.input host.old.output)
        (wires I.half O.half host.new.input host.new.output)
        (told_by E.half host.old.errors host.new.errors result) }

    // `serve` serves the links that are accepted at its port, and at no other, each in a thread, over one space of its own. However these take
    // turns, the one history that is left is legal and goes on from the opening; at each of its events the collector kept what there was a reason to
    // keep, and withdrew the rest; each link has a report of a dialogue over its own bytes, whose turns stand at their places in that history; and no
    // event is of anybody else. The host has these reports, with the links' sources and sinks as they are left. The outline of that history is written,
    // and the end is told. Nothing is read.
    ensures serves { (serve : ServeWords) → AskFor words.now (Command.Serve serve) → Serving
        (IsSampleLink L.In.half L.Out.half L.Ticks.given (serve_plan host.old.seed serve))
        (IsLostLink L.In.half L.Out.half L.Ticks.given)
        host.old.seed serve host.new.served (L.listening host.old.listener)
        (L.listening host.new.listener)
        (wires I.half O.half host.old.input host.old.output)
        (wires I.half O.half host.new.input host.new.output)
        (O.half host.old.output).faults (O.half host.new.output).faults
        (told_by E.half host.old.errors host.new.errors result) }

    // `host` serves the links that are accepted at its port of its address, and at no other, over one space of its own, until the listener is told to
    // stop. The space does not keep its events. It is as with `serve`, but that each link's report is told in a line and dropped once the link has ended,
    // and that the program's clock gives the moments of further Ticks. Printed is what stands of the space that is left, or a journal of all events as
    // they are made. The errors' sink gets a line where the port is listened on, one for each link that has ended, and the end's. Nothing is read.
    ensures hosts { (asked : HostWords) → AskFor words.now (Command.Host asked)
        → Hosting R L.In.half L.Out.half L.Ticks.given host.old.seed asked
        (host_side (L.listening host.old.listener) (T.given host.old.ticks)
        (O.half host.old.output))
        (host_side (L.listening host.new.listener) (T.given host.new.ticks)
        (O.half host.new.output))
        (told_by E.half host.old.errors host.new.errors result) }
    ensures host_unread { (asked : HostWords) → AskFor words.now (Command.Host asked)
        → host.new.input ≡ host.old.input }
    // Its listener is closed last: so a stop that it was told was not its own close.
    ensures host_closes { (asked : HostWords) → AskFor words.now (Command.Host asked)
        → ClosesLast L.listening host.old.listener host.new.listener }
    // Where it records events and ends well, all of the journal was printed, and what `replay` prints of that is what stands, and then the withdrawals.
    ensures host_journal { (asked : HostWords) → AskFor words.now (Command.Host asked)
        → asked.output ≡ Record.Journal → result ≡ 0
        → PrintsJournal host.old.seed asked (O.half host.old.output) (O.half host.new.output) }

    // `list`, `lookup`, `bind` and `unbind` dial a server and talk to it as their scripts say: what was sent and read on the link, and how it ended, is
    // one talk, the only one of the bytes that the server answers, where the link tells them, unless something outside failed or memory lacked. Nothing is
    // sent after the first end. The names, the reference or `ok` are printed where it ended well, and the end is told. The link's halves are left, shut.
    ensures asks { (asked : ClientCommands) (given : Option (List ℕ))
        → AskFor words.now (Command.Client asked) → AsksServer asked
        (side (D.dialing host.old.dialer)
        (map (ended_as D.In.half D.Out.half) host.old.talked.items) (O.half host.old.output))
        (side (D.dialing host.new.dialer)
        (map (ended_as D.In.half D.Out.half) host.new.talked.items) (O.half host.new.output))
        given given
        (told_by E.half host.old.errors host.new.errors result) }

    // `call` looks a name up at a registry, dials the server of the reference that it finds, holds the reference there, and calls a method of it, as its
    // script says, by the client that the seed gives: what was sent and read on both links, the moments that were read, and how it ended, is one talk, the
    // only one of the bytes that the servers answer and of these moments, unless something outside failed or memory lacked. Nothing is sent after the first
    // end. What the method returned is printed where the talk ended well, once it ended, and the end is told. The links' halves are left, shut. Where there
    // is no memory for the request, nothing is done.
    ensures calls { (call : CallWords) → AskFor words.now (Command.Call call)
        → CallsObject host.old.seed call
        (side (D.dialing host.old.dialer)
        (map (ended_as D.In.half D.Out.half) host.old.talked.items)
        (O.half host.old.output))
        (side (D.dialing host.new.dialer)
        (map (ended_as D.In.half D.Out.half) host.new.talked.items)
        (O.half host.new.output))
        (T.given host.old.ticks) (T.given host.new.ticks)
        (told_by E.half host.old.errors host.new.errors result) }

    // `replay` takes the whole input as a journal, and writes the outline of the history that it spells, or says why it has none.
    ensures replay { AskFor words.now Command.Replay → ReplaysInput
        (wires I.half O.half host.old.input host.old.output)
        (wires I.half O.half host.new.input host.new.output)
        (failures I.half O.half host.old.input host.old.output)
        (failures I.half O.half host.new.input host.new.output)
        (told_by E.half host.old.errors host.new.errors result) }
    ensures replay_exact { AskFor words.now Command.Replay → ReplaysExactly
        (wires I.half O.half host.old.input host.old.output)
        (wires I.half O.half host.new.input host.new.output)
        (told_by E.half host.old.errors host.new.errors result) }

    // `show` takes the whole input as a stream, and writes the text of its graph, or says at which fault reading it stops.
    ensures show { AskFor words.now Command.Show → ShowsInput
        (wires I.half O.half host.old.input host.old.output)
        (wires I.half O.half host.new.input host.new.output)
        (failures I.half O.half host.old.input host.old.output)
        (failures I.half O.half host.new.input host.new.output)
        (told_by E.half host.old.errors host.new.errors result) }
    ensures show_exact { AskFor words.now Command.Show → ShowsExactly
        (wires I.half O.half host.old.input host.old.output)
        (wires I.half O.half host.new.input host.new.output)
        (told_by E.half host.old.errors host.new.errors result) }

    // `drill` writes the summary of the space that takes the events of a drill, and `journal` its journal, or says that an event is refused.
    // They read nothing.
    ensures drill { (text : DrillTexts) (seed rounds : ℕ)
        → AskFor words.now (Command.Drill text seed rounds) → Drills text seed rounds
        (wires I.half O.half host.old.input host.old.output)
        (wires I.half O.half host.new.input host.new.output)
        (failures I.half O.half host.old.input host.old.output)
        (failures I.half O.half host.new.input host.new.output)
        (told_by E.half host.old.errors host.new.errors result) }
    ensures drill_exact { (text : DrillTexts) (seed rounds : ℕ)
        → AskFor words.now (Command.Drill text seed rounds) → DrillsExactly text seed rounds
        (wires I.half O.half host.old.input host.old.output)
        (wires I.half O.half host.new.input host.new.output)
        (told_by E.half host.old.errors host.new.errors result) }

    // `world` takes the whole input as a script, and writes the end of the world that its steps make, or says which line is bad, or that a step is
    // refused.
    ensures world { AskFor words.now Command.World → MakesWorld
        (wires I.half O.half host.old.input host.old.output)
        (wires I.half O.half host.new.input host.new.output)
        (failures I.half O.half host.old.input host.old.output)
        (failures I.half O.half host.new.input host.new.output)
        (told_by E.half host.old.errors host.new.errors result) }
    ensures world_exact { AskFor words.now Command.World → MakesWorldExactly
        (wires I.half O.half host.old.input host.old.output)
        (wires I.half O.half host.new.input host.new.output)
        (told_by E.half host.old.errors host.new.errors result) }
    // Where it ends well, each object that is promised to a client is exported in the world that is printed. This is `world` and a law of all worlds,
    // `lease_world::laws::what_is_promised_is_exported`: it says no more of the program.
    ensures promise { AskFor words.now Command.World → result ≡ 0 → PrintsKeptWorld
        (wires I.half O.half host.old.input host.old.output)
        (wires I.half O.half host.new.input host.new.output) }

    // `suid`, `suidtext` and `describe` take the whole input as a class outline, and write the class's number, the text of which it is the hash, or its
    // description, or say which line is bad, or that there are too many fields.
    ensures class { (output : ClassOutputs) → AskFor words.now (Command.Class output)
        → PrintsClass output
        (wires I.half O.half host.old.input host.old.output)
        (wires I.half O.half host.new.input host.new.output)
        (O.half host.old.output).faults (O.half host.new.output).faults
        (told_by E.half host.old.errors host.new.errors result) }
    ensures class_exact { (output : ClassOutputs) → AskFor words.now (Command.Class output)
        → PrintsExactly output
        (wires I.half O.half host.old.input host.old.output)
        (wires I.half O.half host.new.input host.new.output)
        (told_by E.half host.old.errors host.new.errors result) }

    // `help` writes the text of the table of commands, and reads nothing.
    ensures help { (topic : Topics) → AskFor words.now (Command.Help topic) → Helps topic
        (wires I.half O.half host.old.input host.old.output)
        (wires I.half O.half host.new.input host.new.output)
        (O.half host.old.output).faults (O.half host.new.output).faults
        (told_by E.half host.old.errors host.new.errors result) }

    // None but `answer`, `call` and `host` asks the clock. None but `serve` and `host` asks the listener, and none but `serve` leaves anything as served.
    // None but a command that asks a server dials, or leaves halves of links, and these take nothing of the input. None changes the seed.
    ensures clock { AskNoClock words.now → T.given host.new.ticks ≡ T.given host.old.ticks }
    ensures network { AskNoServe words.now
        → AskNoHost words.now
        → host.new.listener ≡ host.old.listener }
    ensures served { AskNoServe words.now → host.new.served ≡ None }
    ensures seed { host.new.seed ≡ host.old.seed }
    ensures dialing { AskNoServer words.now
        → (host.new.dialer ≡ host.old.dialer) × (host.new.talked ≡ host.old.talked) }
    ensures unread { (command : Commands) → AskFor words.now command → AsksAServer command
        → host.new.input ≡ host.old.input }

    // The outside's failures.
    ensures read_fault { AskNoServe words.now
        → AskNoHost words.now
        → AskNoServer words.now
        → result ≡ 3 → ReadFailed I.half host.old.input host.new.input }
    ensures network_fault { (serve : ServeWords) → AskFor words.now (Command.Serve serve) → result
        ≡ 3 → ListenerFailed L.listening host.old.listener host.new.listener }
    ensures host_fault { (asked : HostWords) → AskFor words.now (Command.Host asked) → result ≡ 3
        → ListenerFailed L.listening host.old.listener host.new.listener }
    ensures write_fault { AskNoServer words.now
        → result ≡ 4 → WriteFailed O.half host.old.output host.new.output }
    ensures link_fault { (command : Commands) → AskFor words.now command → AsksAServer command
        → result ≡ 3 → LinkFailed
        (side (D.dialing host.old.dialer)
        (map (ended_as D.In.half D.Out.half) host.old.talked.items) (O.half host.old.output))
        (side (D.dialing host.new.dialer)
        (map (ended_as D.In.half D.Out.half) host.new.talked.items) (O.half host.new.output)) }
    ensures sink_fault { (command : Commands) → AskFor words.now command → AsksAServer command
        → result ≡ 4 → SinkFailed
        (side (D.dialing host.old.dialer)
        (map (ended_as D.In.half D.Out.half) host.old.talked.items) (O.half host.old.output))
        (side (D.dialing host.new.dialer)
        (map (ended_as D.In.half D.Out.half) host.new.talked.items) (O.half host.new.output)) }

    // Where the listener and the output did not fail, `serve` and `host` end well, or memory lacked: however their links ended.
    ensures settled { (serve : ServeWords) → AskFor words.now (Command.Serve serve)
        → ¬ ListenerFailed L.listening host.old.listener host.new.listener
        → ¬ WriteFailed O.half host.old.output host.new.output
        → (result ≡ 0) ⊎ (result ≡ 5) }

    ensures host_settled { (asked : HostWords) → AskFor words.now (Command.Host asked)
        → ¬ ListenerFailed L.listening host.old.listener host.new.listener
        → ¬ WriteFailed O.half host.old.output host.new.output
        → (result ≡ 0) ⊎ (result ≡ 5) }

    // Neither the input, nor the output, nor the errors' sink is shut.
    ensures open { StayOpen I.half O.half host.old.input host.old.output host.new.input
        host.new.output }
    ensures errors_open { (E.half host.new.errors).shut ≡ (E.half host.old.errors).shut }
{
    host.served = None;
    match words.command(alloc) {
        Ok(command) => obey(rt, alloc, command, host),
        Err(fault) => report_words(&mut host.errors, fault),
    }
}
