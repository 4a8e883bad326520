//! `call` over the program's dialer, clock and output.
ghost use Rattle.std.specs.Prelude.{◌≡◌, ℕ, List, IfOk, map};
ghost use Rattle.client_talk.specs.Calling.{call_script};
ghost use Rattle.client_talk.specs.Contents.{with_content};
ghost use Rattle.client_talk.specs.Sessions.{ended_as};
ghost use Rattle.rmi_cli.specs.Called.{Calls, IsRequestOf, answer_text};
ghost use Rattle.rmi_cli.specs.Talked.{Asks, PrintsAnswer, side};
ghost use Rattle.rmi_words.specs.declared.call_words.CallWords.{CallWords};

use crate::call_text::answer_text;
use crate::client_output::print_text;
use crate::end::RunEnd;
use client_talk::{CommandEnd, Request, call};
use rmi_client::Answer;
use std::alloc::{AllocError, Global};
use wire_io::clock::Clock;
use wire_io::sink::Sink;
use wire_io::{Dialer, Halves};

/// Makes a call over links that are dialled, and prints what it returns. The links' halves are left in `talked`, shut, in order.
///
/// The end is that of the talk, or of printing. Nothing is sent after the talk's first end, and nothing is printed of a talk that did not end well.
/// Where there was no memory for the request, nothing is done.
pub fn call_object<D: Dialer, T: Clock, K: Sink>(
    dialer: &mut D,
    ticks: &mut T,
    talked: &mut Vec<Halves<D::In, D::Out>>,
    sink: &mut K,
    request: Result<Request, AllocError>,
) -> RunEnd
    ensures calls { (seed : List ℕ) (call : CallWords) → IfOk request (IsRequestOf seed call)
        → Calls seed call
        (side (D.dialing dialer.old) (map (ended_as D.In.half D.Out.half) talked.old.items)
        (K.half sink.old))
        (side (D.dialing dialer.new) (map (ended_as D.In.half D.Out.half) talked.new.items)
        (K.half sink.new))
        (T.given ticks.old) (T.given ticks.new) result }
    ensures open { (K.half sink.new).shut ≡ (K.half sink.old).shut }
{
    match request {
        Ok(request) => ask_object(dialer, ticks, talked, sink, &request),
        Err(_) => RunEnd::OutOfMemory,
    }
}

/// Makes a call for which there is memory.
fn ask_object<D: Dialer, T: Clock, K: Sink>(
    dialer: &mut D,
    ticks: &mut T,
    talked: &mut Vec<Halves<D::In, D::Out>>,
    sink: &mut K,
    request: &Request,
) -> RunEnd
    ensures asks { Asks (call_script request.now) answer_text
        (side (D.dialing dialer.old) (map (ended_as D.In.half D.Out.half) talked.old.items)
        (K.half sink.old))
        (side (D.dialing dialer.new) (map (ended_as D.In.half D.Out.half) talked.new.items)
        (K.half sink.new))
        (T.given ticks.old) (T.given ticks.new) result }
    ensures open { (K.half sink.new).shut ≡ (K.half sink.old).shut }
{
    let answer = call(dialer, ticks, talked, request);
    print_answer(request.caller.alloc, sink, answer)
}

/// Writes what a call returned, and answers how the run ends.
fn print_answer<K: Sink>(alloc: Global, sink: &mut K, answer: Result<Answer, CommandEnd>) -> RunEnd
    ensures prints { PrintsAnswer answer_text (K.half sink.old) (K.half sink.new)
        (with_content answer) result }
    ensures open { (K.half sink.new).shut ≡ (K.half sink.old).shut }
{
    match answer {
        Ok(answer) => print_text(sink, answer_text(alloc, &answer)),
        Err(end) => RunEnd::Talked(end),
    }
}
