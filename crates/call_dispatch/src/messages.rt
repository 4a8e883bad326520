//! The messages of a connection, after its opening.
ghost use Rattle.std.specs.Prelude.{◌≡◌, ◌<◌, ◌≤◌, ◌+◌, ◌^◌, length, max, IfOk, OnOk};
ghost use Rattle.ser_values.specs.declared.limits.TheConstants.{MESSAGE_BYTES};
ghost use Rattle.ports.specs.Balance.{Balanced};
ghost use Rattle.jrmp_frames.specs.declared.header.Protocol.TheVariants.{Stream, SingleOp};
ghost use Rattle.call_dispatch.specs.Conditions.{CanGoOn, CanServeMessage, CanServeRest, LastTurns, RestOfMessage, OneMessage, IsOver, one_turn};
ghost use Rattle.call_dispatch.specs.Faults.{counts_of, Blames, BlamesIn, KeepsShut};
ghost use Rattle.wire_io.specs.Pulled.{pull_state};
ghost use Rattle.call_dispatch.specs.ConnectionState.{state_of_connection, observed_of, terms_in};
ghost use Rattle.call_dispatch.specs.Progress.{FinishesDialogue, Steps, ServesCall};
ghost use Rattle.call_dispatch.specs.Serving.{Sends, Notes, Acknowledges};
ghost use Rattle.system_objects.specs.declared.returns.TheConstants.{RETURN_BYTES};
ghost use Rattle.call_dispatch.specs.declared.messages.TheConstants.{MAX_MESSAGES, MAX_BYTES};

use crate::answer::write_answer;
use crate::connection::Connection;
use crate::dispatch::dispatch_call;
use crate::end::{ConnEnd, end_of};
use crate::opening::Opened;
use crate::returns::Answer;
use crate::turns::take_turn;
use crate::worker::Worker;
use history::{Ask, Refused};
use jrmp_frames::{Code, Protocol, read_code, read_head, read_uid};
use object_ids::Uid;
use ports::Port;
use ser_values::limits::MESSAGE_BYTES;
use std::alloc::Global;
use wire_io::{Clock, Sink, Source};

// The most bytes of a message, and the most messages of a connection, are those of the README.
const _: () = prove!(MESSAGE_BYTES == 16_777_216);

const _: () = prove!(MAX_MESSAGES == 72_057_594_037_927_936);

/// The most messages of a connection: at 100,000 a second they last for 22,000 years.
pub const MAX_MESSAGES: u64 = 1 << 56;

/// The most bytes that were taken, and that were sent, before a Call: at a billion a second they last for 36 years. A Call behind more of them
/// ends the connection as one for which there is no memory.
const MAX_BYTES: u64 = 1 << 60;

/// Serves the messages after an opening, until the connection ends.
pub fn serve_messages<S: Source, K: Sink, C: Clock, P: Port, W: Worker>(
    alloc: Global,
    connection: &mut Connection<S, K, C, P, W>,
    opened: Opened,
) -> ConnEnd
    requires at { connection.old.pull.at < 2 ^ 17 }
    requires sent { opened.sent < 2 ^ 17 }
    requires can { CanGoOn P.ready P.shown W.shown connection.old }
    ensures goes_on { FinishesDialogue W.may W.moves (terms_in connection.old) opened.protocol
        (state_of_connection S.half K.half C.given P.shown W.shown connection.old)
        (state_of_connection S.half K.half C.given P.shown W.shown connection.new)
        connection.old.pull.at opened.sent result }
    ensures frame { IsOver P.ready P.shown P.leads connection.old connection.new }
    ensures blames { Blames (counts_of S.half K.half connection.old)
        (counts_of S.half K.half connection.new) result }
    ensures shut { KeepsShut S.half K.half connection.old connection.new }
{
    match opened.protocol {
        Protocol::Stream => serve_many(alloc, connection, opened.sent),
        Protocol::SingleOp => serve_one(alloc, connection, opened.sent),
    }
}

/// Serves one message, if there is one. So many bytes were sent before.
fn serve_one<S: Source, K: Sink, C: Clock, P: Port, W: Worker>(
    alloc: Global,
    connection: &mut Connection<S, K, C, P, W>,
    before: u64,
) -> ConnEnd
    requires at { connection.old.pull.at < 2 ^ 17 }
    requires sent { before < 2 ^ 17 }
    requires can { CanGoOn P.ready P.shown W.shown connection.old }
    ensures goes_on { FinishesDialogue W.may W.moves (terms_in connection.old) SingleOp
        (state_of_connection S.half K.half C.given P.shown W.shown connection.old)
        (state_of_connection S.half K.half C.given P.shown W.shown connection.new)
        connection.old.pull.at before result }
    ensures frame { IsOver P.ready P.shown P.leads connection.old connection.new }
    ensures blames { Blames (counts_of S.half K.half connection.old)
        (counts_of S.half K.half connection.new) result }
    ensures shut { KeepsShut S.half K.half connection.old connection.new }
{
    match serve_message(alloc, connection, 0, before) {
        Ok(_sent) => ConnEnd::Ended,
        Err(end) => end,
    }
}

/// Serves messages until the connection ends. So many bytes were sent before.
fn serve_many<S: Source, K: Sink, C: Clock, P: Port, W: Worker>(
    alloc: Global,
    connection: &mut Connection<S, K, C, P, W>,
    before: u64,
) -> ConnEnd
    requires at { connection.old.pull.at < 2 ^ 17 }
    requires sent { before < 2 ^ 17 }
    requires can { CanGoOn P.ready P.shown W.shown connection.old }
    ensures goes_on { FinishesDialogue W.may W.moves (terms_in connection.old) Stream
        (state_of_connection S.half K.half C.given P.shown W.shown connection.old)
        (state_of_connection S.half K.half C.given P.shown W.shown connection.new)
        connection.old.pull.at before result }
    ensures frame { IsOver P.ready P.shown P.leads connection.old connection.new }
    ensures blames { Blames (counts_of S.half K.half connection.old)
        (counts_of S.half K.half connection.new) result }
    ensures shut { KeepsShut S.half K.half connection.old connection.new }
{
    let mut sent = before;
    let mut served: u64 = 0;
    loop {
        match serve_message(alloc, connection, served, sent) {
            Ok(after) => sent = after,
            Err(end) => return end,
        }
        served += 1;
    }
}

/// Serves the next message, where so many were served and so many bytes sent before. It answers how many bytes were sent
/// by then, or the end of the connection.
fn serve_message<S: Source, K: Sink, C: Clock, P: Port, W: Worker>(
    alloc: Global,
    connection: &mut Connection<S, K, C, P, W>,
    served: u64,
    sent: u64,
) -> Result<u64, ConnEnd>
    requires at { connection.old.pull.at < 2 ^ 61 }
    requires sent { sent < 2 ^ 61 }
    requires served { served ≤ MAX_MESSAGES }
    requires can { CanServeMessage P.ready P.shown W.shown connection.old }
    ensures steps { Steps W.may W.moves (terms_in connection.old)
        (state_of_connection S.half K.half C.given P.shown W.shown connection.old)
        (state_of_connection S.half K.half C.given P.shown W.shown connection.new)
        connection.old.pull.at sent served connection.new.pull.at result }
    ensures going { OnOk result (served < MAX_MESSAGES) }
    ensures most { IfOk result
        (λ after. (after ≤ max (sent + 1) (MAX_BYTES + RETURN_BYTES)) ×
        (connection.new.pull.at ≤ max (connection.old.pull.at + 15) (MAX_BYTES + MESSAGE_BYTES))) }
    ensures frame { OneMessage P.ready P.shown P.leads W.shown connection.old connection.new }
    ensures blames { BlamesIn (counts_of S.half K.half connection.old)
        (counts_of S.half K.half connection.new) result }
    ensures shut { KeepsShut S.half K.half connection.old connection.new }
{
    connection.pull.mark(MESSAGE_BYTES);
    let code = match read_code(&mut connection.pull) {
        Ok(Some(code)) => code,
        Ok(None) => return Err(ConnEnd::Ended),
        Err(fault) => return Err(end_of(fault)),
    };
    if served == MAX_MESSAGES {
        return Err(ConnEnd::MessageLimit);
    }
    match code {
        Code::Ping => write_answer(connection.sink, &[0x53], sent),
        Code::Call => serve_call(alloc, connection, sent),
        Code::DgcAck => acknowledge(connection, sent),
    }
}

/// Notes that the Return with an identifier arrived; it is passed over where the space's history is full. So many bytes were sent before.
fn note<S: Source, K: Sink, C: Clock, P: Port, W: Worker>(
    connection: &mut Connection<S, K, C, P, W>,
    uid: Uid,
    sent: u64,
) -> Result<u64, ConnEnd>
    requires can { CanServeRest P.ready P.shown W.shown Balanced one_turn connection.old }
    ensures notes { Notes W.may W.moves uid
        (observed_of C.given P.shown W.shown connection.old)
        (observed_of C.given P.shown W.shown connection.new) sent result }
    ensures frame { LastTurns P.ready P.shown P.leads W.shown 1 connection.old connection.new }
{
    match take_turn(connection, Ask::Ack { uid }) {
        Ok(_turn) => Ok(sent),
        Err(Refused::HistoryFull) => Ok(sent),
        Err(Refused::Full(_kind)) => unreachable!(),
        Err(Refused::OutOfMemory) => Err(ConnEnd::OutOfMemory),
    }
}

/// Serves an acknowledgement, whose code was just taken, and so many bytes were sent before. It is not answered.
fn acknowledge<S: Source, K: Sink, C: Clock, P: Port, W: Worker>(
    connection: &mut Connection<S, K, C, P, W>,
    sent: u64,
) -> Result<u64, ConnEnd>
    requires can { CanServeRest P.ready P.shown W.shown Balanced one_turn connection.old }
    ensures acknowledges { Acknowledges W.may W.moves
        (pull_state S.half connection.old.pull) (pull_state S.half connection.new.pull)
        (observed_of C.given P.shown W.shown connection.old)
        (observed_of C.given P.shown W.shown connection.new) sent result }
    ensures setup { connection.new.setup ≡ connection.old.setup }
    ensures frame { RestOfMessage P.ready P.shown P.leads W.shown one_turn
        connection.old connection.new }
{
    match read_uid(&mut connection.pull) {
        Ok(uid) => note(connection, uid, sent),
        Err(fault) => Err(end_of(fault)),
    }
}

/// Serves a Call, whose code was just taken, and so many bytes were sent before. It answers how many bytes were sent by then, or the end
/// of the connection.
fn serve_call<S: Source, K: Sink, C: Clock, P: Port, W: Worker>(
    alloc: Global,
    connection: &mut Connection<S, K, C, P, W>,
    sent: u64,
) -> Result<u64, ConnEnd>
    requires sent { sent < 2 ^ 61 }
    requires can { CanServeMessage P.ready P.shown W.shown connection.old }
    ensures serves { ServesCall W.may W.moves (terms_in connection.old)
        (state_of_connection S.half K.half C.given P.shown W.shown connection.old)
        (state_of_connection S.half K.half C.given P.shown W.shown connection.new)
        connection.old.pull.at connection.old.pull.stop sent connection.new.pull.at result }
    ensures most { IfOk result
        (λ after. (after ≤ sent + RETURN_BYTES)
        × (connection.new.pull.at ≤ connection.old.pull.stop)) }
    ensures early { IfOk result
        (λ after. (sent ≤ MAX_BYTES) × (connection.old.pull.at ≤ MAX_BYTES)) }
    ensures frame { OneMessage P.ready P.shown P.leads W.shown connection.old connection.new }
    ensures blames { BlamesIn (counts_of S.half K.half connection.old)
        (counts_of S.half K.half connection.new) result }
    ensures shut { KeepsShut S.half K.half connection.old connection.new }
{
    if sent > MAX_BYTES || connection.pull.at > MAX_BYTES {
        return Err(ConnEnd::OutOfMemory);
    }
    match read_head(alloc, &mut connection.pull) {
        Ok((head, reader)) => {
            let answer = dispatch_call(alloc, connection, head, reader)?;
            send(connection.sink, answer, sent)
        }
        Err(fault) => Err(end_of(fault)),
    }
}

/// Sends an answer, where so many bytes were sent before. It answers how many were sent by then, or the end of the connection.
fn send<K: Sink>(sink: &mut K, answer: Answer, sent: u64) -> Result<u64, ConnEnd>
    requires sent { sent < 2 ^ 61 }
    requires short { length answer.bytes ≤ RETURN_BYTES }
    ensures sends { Sends (K.half sink.old).held (K.half sink.new).held (K.half sink.old).faults
        (K.half sink.new).faults sent answer result }
    ensures sink_shut { (K.half sink.new).shut ≡ (K.half sink.old).shut }
    ensures most { IfOk result (λ after. after ≤ sent + RETURN_BYTES) }
{
    let after = write_answer(sink, answer.bytes.as_slice(), sent)?;
    match answer.close {
        Some(end) => Err(end),
        None => Ok(after),
    }
}
