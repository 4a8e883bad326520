//! Calls by their object: the registry and the collector, which every server has of itself, or an exported object.
ghost use Rattle.std.specs.Prelude.{◌≡◌, ◌≢◌, ◌≤◌, length, true, false, Err, IfOk};
ghost use Rattle.mod_utf.specs.Utf.{utf};
ghost use Rattle.wire_io.specs.Pulled.{PullState, pull_state};
ghost use Rattle.wire_io.specs.declared.limits.TheConstants.{MAX_HOST_BYTES};
ghost use Rattle.history.specs.declared.replies.Refused.TheVariants.{OutOfMemory};
ghost use Rattle.ports.specs.Balance.{Balanced};
ghost use Rattle.jrmp_frames.specs.Calls.{ReadsHead, HasHead};
ghost use Rattle.system_objects.specs.SystemRequests.{kept_of, IsQuiet};
ghost use Rattle.call_dispatch.specs.Conditions.{CanServeMessage, CanServeRest, LastTurns, RestOfMessage, OneMessage, one_turn, system_call};
ghost use Rattle.call_dispatch.specs.ServingSystem.{AsksTurn, AnswersMethod, AnswersSystem, AnswersAny};
ghost use Rattle.call_dispatch.specs.ConnectionState.{observed_of, terms_in};
ghost use Rattle.system_ids.specs.SystemIds.{is_system};
ghost use Rattle.system_ids.specs.SystemMethods.{params_of};
ghost use Rattle.system_objects.specs.declared.returns.TheConstants.{RETURN_BYTES};

use crate::calls::{call_object, fault_answer, no_such_method, refuse};
use crate::connection::Connection;
use crate::end::{ConnEnd, end_of};
use crate::returns::{Answer, next_uid};
use crate::turns::take_turn;
use crate::worker::Worker;
use history::{Ask, Refused, Turn};
use jrmp_frames::{Arguments, CallHead, read_parameters};
use object_ids::Uid;
use ports::Port;
use ser_read::Reader;
use std::alloc::Global;
use system_ids::{SystemMethod, is_system, params_of};
use system_objects::faults::{NO_SUCH_METHOD, rejection_message};
use system_objects::request::{ReplyContext, SystemRequest, request_for};
use system_objects::system_return::system_return;
use wire_io::{Clock, Sink, Source};

/// Returns whether there was no memory for a turn.
fn is_lost(answer: &Result<Turn, Refused>) -> bool
    ensures lost { result ≡ true → answer.now ≡ Err OutOfMemory }
    ensures other { result ≡ false → answer.now ≢ Err OutOfMemory }
{
    match answer {
        Ok(_turn) => false,
        Err(refused) => match refused {
            Refused::HistoryFull => false,
            Refused::Full(_kind) => false,
            Refused::OutOfMemory => true,
        },
    }
}

/// Asks the space this in one turn, and prepares the Return.
fn turn_and_return<S: Source, K: Sink, C: Clock, P: Port, W: Worker>(
    alloc: Global,
    connection: &mut Connection<S, K, C, P, W>,
    uid: Uid,
    ask: Ask,
    kept: ReplyContext,
) -> Result<Answer, ConnEnd>
    requires host { length (utf connection.old.setup.now.host) ≤ MAX_HOST_BYTES }
    requires can { CanServeRest P.ready P.shown W.shown Balanced one_turn connection.old }
    requires quiet { IsQuiet ask }
    requires kept { kept ≡ kept_of ask }
    ensures asks { AsksTurn W.may W.moves (terms_in connection.old) uid ask
        (observed_of C.given P.shown W.shown connection.old)
        (observed_of C.given P.shown W.shown connection.new) result }
    ensures short { IfOk result (λ answer. length answer.bytes ≤ RETURN_BYTES) }
    ensures frame { LastTurns P.ready P.shown P.leads W.shown 1 connection.old connection.new }
{
    let answer = take_turn(connection, ask);
    if is_lost(&answer) {
        return Err(ConnEnd::OutOfMemory);
    }
    let bytes = system_return(
        alloc,
        connection.setup,
        connection.book,
        uid,
        &kept,
        &answer,
    )?;
    Ok(Answer { bytes, close: None })
}

/// Serves a call whose arguments were read. Where a client is made for it, the first identifier that is drawn is the client's, and the second the
/// Return's; else the first is the Return's.
fn answer_method<S: Source, K: Sink, C: Clock, P: Port, W: Worker>(
    alloc: Global,
    connection: &mut Connection<S, K, C, P, W>,
    method: SystemMethod,
    arguments: Arguments,
) -> Result<Answer, ConnEnd>
    requires host { length (utf connection.old.setup.now.host) ≤ MAX_HOST_BYTES }
    requires can { CanServeRest P.ready P.shown W.shown Balanced system_call connection.old }
    ensures answers { AnswersMethod W.may W.moves (terms_in connection.old) method arguments
        (observed_of C.given P.shown W.shown connection.old)
        (observed_of C.given P.shown W.shown connection.new)
        connection.old.setup.now.draw.drawn connection.new.setup.now.draw.drawn result }
    ensures short { IfOk result (λ answer. length answer.bytes ≤ RETURN_BYTES) }
    ensures pull { connection.new.pull ≡ connection.old.pull }
    ensures frame { RestOfMessage P.ready P.shown P.leads W.shown system_call
        connection.old connection.new }
{
    let first = next_uid(connection.setup);
    match request_for(alloc, connection.setup, method, &arguments, first, first) {
        Ok(SystemRequest::Rejected(rejection)) => fault_answer(
            alloc,
            first,
            rejection_message(rejection),
            None,
        ),
        Ok(SystemRequest::Asks(ask, kept)) => turn_and_return(alloc, connection, first, ask, kept),
        Ok(SystemRequest::AsksForNew(ask, kept)) => {
            let uid = next_uid(connection.setup);
            turn_and_return(alloc, connection, uid, ask, kept)
        }
        Err(_) => Err(ConnEnd::OutOfMemory),
    }
}

/// Serves a call of the registry or the collector whose head was read.
fn call_system_object<S: Source, K: Sink, C: Clock, P: Port, W: Worker>(
    alloc: Global,
    connection: &mut Connection<S, K, C, P, W>,
    head: CallHead,
    reader: Reader,
) -> Result<Answer, ConnEnd>
    requires head { HasHead reader }
    requires own { is_system head.id ≡ true }
    requires host { length (utf connection.old.setup.now.host) ≤ MAX_HOST_BYTES }
    requires can { CanServeRest P.ready P.shown W.shown Balanced system_call connection.old }
    ensures answers { (first : PullState)
        → ReadsHead first (pull_state S.half connection.old.pull) head reader.stand
        → AnswersSystem W.may W.moves (terms_in connection.old) head first
        (pull_state S.half connection.new.pull) (observed_of C.given P.shown W.shown connection.old)
        (observed_of C.given P.shown W.shown connection.new) connection.old.setup.now.draw.drawn
        connection.new.setup.now.draw.drawn result }
    ensures short { IfOk result (λ answer. length answer.bytes ≤ RETURN_BYTES) }
    ensures frame { RestOfMessage P.ready P.shown P.leads W.shown system_call
        connection.old connection.new }
{
    let Some(method) = connection.book.system_method(&head) else {
        return refuse(
            alloc,
            connection.setup,
            NO_SUCH_METHOD,
            no_such_method(&head),
        );
    };
    match read_parameters(alloc, &mut connection.pull, reader, params_of(method)) {
        Ok(arguments) => answer_method(alloc, connection, method, arguments),
        Err(fault) => Err(end_of(fault)),
    }
}

/// Serves a Call whose head was read: one of the registry or the collector, or any other.
pub fn dispatch_call<S: Source, K: Sink, C: Clock, P: Port, W: Worker>(
    alloc: Global,
    connection: &mut Connection<S, K, C, P, W>,
    head: CallHead,
    reader: Reader,
) -> Result<Answer, ConnEnd>
    requires head { HasHead reader }
    requires can { CanServeMessage P.ready P.shown W.shown connection.old }
    ensures answers { (first : PullState)
        → ReadsHead first (pull_state S.half connection.old.pull) head reader.stand
        → AnswersAny W.may W.moves (terms_in connection.old) head first
        (pull_state S.half connection.new.pull) (observed_of C.given P.shown W.shown connection.old)
        (observed_of C.given P.shown W.shown connection.new) connection.old.setup.now.draw.drawn
        connection.new.setup.now.draw.drawn result }
    ensures short { IfOk result (λ answer. length answer.bytes ≤ RETURN_BYTES) }
    ensures frame { OneMessage P.ready P.shown P.leads W.shown connection.old connection.new }
    ensures sink { connection.new.sink ≡ connection.old.sink }
{
    if is_system(head.id) {
        call_system_object(alloc, connection, head, reader)
    } else {
        call_object(alloc, connection, head, reader)
    }
}
