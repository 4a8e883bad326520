//! `list`, `lookup`, `bind` and `unbind` over the program's dialer and output.
ghost use Rattle.std.specs.Prelude.{◌≡◌, ℕ, List, Option, IfOk, map};
ghost use Rattle.client_talk.specs.Sessions.{ended_as};
ghost use Rattle.rmi_cli.specs.ServedLinks.{PrintedOn};
ghost use Rattle.rmi_cli.specs.Talked.{AsksBy, PrintsAnswer, names_text, ok_text, place_of, reference_text, side};

use crate::end::RunEnd;
use crate::talk_text::{names_text, reference_text};
use client_talk::{Binding, CommandEnd, Place, bind, list, look_up, unbind};
use java_shapes::LiveRef;
use rmi_words::{ClientCommand, ServerAddress};
use sequence::{ByteList, NameList};
use std::alloc::{AllocError, Global};
use wire_io::put::put_all;
use wire_io::sink::Sink;
use wire_io::{Dialer, Halves};

/// Asks a server for what a command says, over a link that is dialled, and prints the answer. The link's halves are left in `talked`, shut.
///
/// The end is that of the talk, or of printing. Nothing is sent after the talk's first end, and nothing is printed of a talk that did not end well.
pub fn ask_server<D: Dialer, K: Sink>(
    alloc: Global,
    dialer: &mut D,
    talked: &mut Vec<Halves<D::In, D::Out>>,
    sink: &mut K,
    command: ClientCommand,
) -> RunEnd
    ensures asks { (given : Option (List ℕ)) → AsksBy command
        (side (D.dialing dialer.old) (map (ended_as D.In.half D.Out.half) talked.old.items)
        (K.half sink.old))
        (side (D.dialing dialer.new) (map (ended_as D.In.half D.Out.half) talked.new.items)
        (K.half sink.new))
        given given result }
    ensures open { (K.half sink.new).shut ≡ (K.half sink.old).shut }
{
    match command {
        ClientCommand::List { server } => {
            let names = list(alloc, dialer, talked, &place_of(server));
            print_names(alloc, sink, names)
        }
        ClientCommand::Lookup { server, name } => {
            let reference = look_up(alloc, dialer, talked, &place_of(server), &name);
            print_reference(alloc, sink, reference)
        }
        ClientCommand::Bind { server, name, from } => {
            let binding = Binding { name, from };
            let bound = bind(alloc, dialer, talked, &place_of(server), &binding);
            print_ok(sink, bound)
        }
        ClientCommand::Unbind { server, name } => {
            let unbound = unbind(alloc, dialer, talked, &place_of(server), &name);
            print_ok(sink, unbound)
        }
    }
}

/// Returns where a server is dialled.
fn place_of(server: ServerAddress) -> Place
    ensures { result ≡ place_of server }
{
    let ServerAddress { host, port } = server;
    Place {
        host,
        port: i32::from(port),
    }
}

/// Writes the names that a talk answered, and answers how the run ends.
fn print_names<K: Sink>(alloc: Global, sink: &mut K, answer: Result<NameList, CommandEnd>) -> RunEnd
    ensures prints { PrintsAnswer names_text (K.half sink.old) (K.half sink.new) answer result }
    ensures open { (K.half sink.new).shut ≡ (K.half sink.old).shut }
{
    match answer {
        Ok(names) => print_text(sink, names_text(alloc, &names)),
        Err(end) => RunEnd::Talked(end),
    }
}

/// Writes the reference that a talk answered, and answers how the run ends.
fn print_reference<K: Sink>(
    alloc: Global,
    sink: &mut K,
    answer: Result<LiveRef, CommandEnd>,
) -> RunEnd
    ensures prints { PrintsAnswer reference_text (K.half sink.old) (K.half sink.new) answer result }
    ensures open { (K.half sink.new).shut ≡ (K.half sink.old).shut }
{
    match answer {
        Ok(reference) => print_text(sink, reference_text(alloc, &reference)),
        Err(end) => RunEnd::Talked(end),
    }
}

/// Writes that a talk was done, and answers how the run ends.
fn print_ok<K: Sink>(sink: &mut K, answer: Result<(), CommandEnd>) -> RunEnd
    ensures prints { PrintsAnswer ok_text (K.half sink.old) (K.half sink.new) answer result }
    ensures open { (K.half sink.new).shut ≡ (K.half sink.old).shut }
{
    match answer {
        Ok(()) => print_bytes(sink, b"ok\n"),
        Err(end) => RunEnd::Talked(end),
    }
}

/// Writes a text, where there was memory for it.
pub(crate) fn print_text<K: Sink>(sink: &mut K, text: Result<ByteList, AllocError>) -> RunEnd
    ensures printed { (bytes : List ℕ) → IfOk text (λ written. written ≡ bytes)
        → PrintedOn K.half sink.old sink.new bytes result }
    ensures open { (K.half sink.new).shut ≡ (K.half sink.old).shut }
{
    match text {
        Ok(text) => print_bytes(sink, text.as_slice()),
        Err(_) => RunEnd::OutOfMemory,
    }
}

/// Writes bytes.
fn print_bytes<K: Sink>(sink: &mut K, bytes: &[u8]) -> RunEnd
    ensures printed { PrintedOn K.half sink.old sink.new bytes.now result }
    ensures open { (K.half sink.new).shut ≡ (K.half sink.old).shut }
{
    match put_all(sink, bytes) {
        Ok(()) => RunEnd::Done,
        Err(_) => RunEnd::WriteFault,
    }
}
