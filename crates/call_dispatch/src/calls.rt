//! The answers to Calls.
ghost use Rattle.std.specs.Prelude.{◌≡◌, ◌≤◌, ◌<◌, ◌+◌, ◌^◌, ◌∷◌, pos, ◌<ℤ◌, List, length, IfOk, IfSome, IfNone, OnOk, None, Some, []};
ghost use Rattle.history.specs.declared.replies.Reply.TheVariants.{Finished};
ghost use Rattle.wire_io.specs.Pulled.{PullState, pull_state};
ghost use Rattle.ports.specs.Balance.{Balanced};
ghost use Rattle.jrmp_frames.specs.Calls.{ReadsHead, HasHead};
ghost use Rattle.call_dispatch.specs.Conditions.{CanServeRest, LastTurns, RestOfMessage, object_call, running_call, invoked_call, prepared_call};
ghost use Rattle.call_dispatch.specs.ConnectionState.{observed_of, terms_in};
ghost use Rattle.system_objects.specs.declared.book.Kind.{Kind};
ghost use Rattle.call_dispatch.specs.declared.outcome.Outcome.{Outcome};
ghost use Rattle.call_dispatch.specs.Results.{normal_return};
ghost use Rattle.system_objects.specs.ReturnBytes.{fault_return};
ghost use Rattle.call_dispatch.specs.Served.{IsMethodOf, HasNoMethod};
ghost use Rattle.call_dispatch.specs.Serving.{next_of, RunsOne, IsReady, IsReadyFor, MakesOne, IsSent, IsPending, Finishes, Concludes, IsDenied, IsPrepared, RunsOn, Answers, next_in};
ghost use Rattle.system_objects.specs.Terms.{terms_of};
ghost use Rattle.system_objects.specs.declared.returns.TheConstants.{RETURN_BYTES};
ghost use Rattle.system_objects.specs.declared.setup.TheConstants.{DRAWS_BEGIN_BELOW};

use crate::connection::Connection;
use crate::end::{ConnEnd, end_of};
use crate::outcome::{Invocation, Outcome};
use crate::results::{Pending, Sent};
use crate::returns::{Answer, Prepared, next_uid, prepare};
use crate::turns::{give_up, take_turn};
use crate::worker::Worker;
use class_desc::TypeCode;
use history::{Ask, Refused, Reply};
use jrmp_frames::{CallHead, read_arguments};
use object_ids::{ObjId, Uid};
use ports::Port;
use ser_read::Reader;
use std::alloc::Global;
use system_objects::faults::{HISTORY_FULL, NO_SUCH_METHOD, NO_SUCH_OBJECT, full_message};
use system_objects::returns::{exceptional_ascii, own_return};
use system_objects::{Book, Setup};
use wire_io::{Clock, Sink, Source};

/// An exceptional Return with a message in ASCII, after which the connection ends so, or goes on.
pub fn fault_answer(
    alloc: Global,
    uid: Uid,
    message: &[u8],
    close: Option<ConnEnd>,
) -> Result<Answer, ConnEnd>
    ensures prepared { IsPrepared (fault_return uid message.now) close result }
    ensures short { IfOk result (λ answer. length answer.bytes ≤ RETURN_BYTES) }
{
    let bytes = exceptional_ascii(alloc, uid, message)?;
    Ok(Answer { bytes, close })
}

/// Returns the answer to a call whose Finish was refused.
fn denial_answer(alloc: Global, uid: Uid, refused: Refused) -> Result<Answer, ConnEnd>
    ensures denied { IsDenied uid refused result }
    ensures short { IfOk result (λ answer. length answer.bytes ≤ RETURN_BYTES) }
{
    match refused {
        Refused::HistoryFull => fault_answer(alloc, uid, HISTORY_FULL, None),
        Refused::Full(kind) => fault_answer(alloc, uid, full_message(kind), None),
        Refused::OutOfMemory => Err(ConnEnd::OutOfMemory),
    }
}

/// Returns the answer to a Call that ends the connection. The answer takes the next identifier of the draw.
pub fn refuse(
    alloc: Global,
    setup: &mut Setup,
    message: &[u8],
    end: ConnEnd,
) -> Result<Answer, ConnEnd>
    requires time { setup.old.draw.time <ℤ pos DRAWS_BEGIN_BELOW }
    requires drawn { setup.old.draw.drawn < 2 ^ 65 }
    ensures prepared { IsPrepared
        (fault_return (next_of (terms_of [] setup.old) setup.old.draw.drawn) message.now) (Some end)
        result }
    ensures short { IfOk result (λ answer. length answer.bytes ≤ RETURN_BYTES) }
    ensures drawn { setup.new ≡ record setup.old
        { draw = record setup.old.draw { drawn = setup.old.draw.drawn + 1 } } }
{
    let uid = next_uid(setup);
    fault_answer(alloc, uid, message, Some(end))
}

/// The answer to a call that was finished with this reply. There is no memory for the Return of a new object that is too long.
fn finish_answer(
    alloc: Global,
    setup: &Setup,
    uid: Uid,
    sent: Sent,
    reply: &Reply,
) -> Result<Answer, ConnEnd>
    requires ready { IsReadyFor reply.now sent }
    ensures sends { (kinds : List Kind) (outcome : Outcome)
        → IsSent (terms_of kinds setup.now) uid outcome sent
        → IsPrepared (normal_return (terms_of kinds setup.now) uid outcome reply.now) None result }
    ensures short { IfOk result (λ answer. length answer.bytes ≤ RETURN_BYTES) }
{
    match sent {
        Sent::Whole(bytes) => Ok(Answer { bytes, close: None }),
        Sent::New(interface) => {
            let object = object_made(reply);
            match own_return(alloc, setup, uid, &interface, object) {
                Ok(bytes) => Ok(Answer { bytes, close: None }),
                Err(_) => Err(ConnEnd::OutOfMemory),
            }
        }
    }
}

/// The one new object of a reply to a Finish.
fn object_made(reply: &Reply) -> ObjId
    requires { MakesOne reply.now }
    ensures { reply.now ≡ Finished (result ∷ []) }
{
    let Reply::Finished(objects) = reply else {
        unreachable!()
    };
    match objects.as_slice() {
        [object] => *object,
        _ => unreachable!(),
    }
}

/// Finishes a call that runs, and answers it with what is pending.
fn finish<S: Source, K: Sink, C: Clock, P: Port, W: Worker>(
    alloc: Global,
    connection: &mut Connection<S, K, C, P, W>,
    object: ObjId,
    uid: Uid,
    pending: Pending,
) -> Result<Answer, ConnEnd>
    requires can { CanServeRest P.ready P.shown W.shown (RunsOne object) prepared_call
        connection.old }
    requires pending { IsReady pending }
    ensures finishes { (outcome : Outcome)
        → IsPending (terms_in connection.old) uid outcome pending
        → Finishes W.may W.moves (terms_in connection.old) object uid outcome
        (observed_of C.given P.shown W.shown connection.old)
        (observed_of C.given P.shown W.shown connection.new) result }
    ensures short { IfOk result (λ answer. length answer.bytes ≤ RETURN_BYTES) }
    ensures frame { LastTurns P.ready P.shown P.leads W.shown 2 connection.old connection.new }
{
    let Pending { made, listed, sent } = pending;
    let ask = Ask::Finish {
        object,
        made,
        listed,
        uid,
    };
    match take_turn(connection, ask) {
        Ok(turn) => finish_answer(alloc, connection.setup, uid, sent, &turn.reply),
        Err(refused) => {
            give_up(connection, object);
            denial_answer(alloc, uid, refused)
        }
    }
}

/// Concludes a call that runs, whose worker answered so.
fn conclude<S: Source, K: Sink, C: Clock, P: Port, W: Worker>(
    alloc: Global,
    connection: &mut Connection<S, K, C, P, W>,
    object: ObjId,
    result_type: Option<TypeCode>,
    outcome: Outcome,
) -> Result<Answer, ConnEnd>
    requires can { CanServeRest P.ready P.shown W.shown (RunsOne object) invoked_call
        connection.old }
    ensures concludes { Concludes W.may W.moves (terms_in connection.old) object
        (next_in connection.old) result_type outcome
        (observed_of C.given P.shown W.shown connection.old)
        (observed_of C.given P.shown W.shown connection.new) result }
    ensures short { IfOk result (λ answer. length answer.bytes ≤ RETURN_BYTES) }
    ensures pull { connection.new.pull ≡ connection.old.pull }
    ensures drew { connection.new.setup.now.draw.drawn ≡ connection.old.setup.now.draw.drawn + 1 }
    ensures frame { RestOfMessage P.ready P.shown P.leads W.shown invoked_call
        connection.old connection.new }
{
    let uid = next_uid(connection.setup);
    match prepare(
        alloc,
        connection.setup,
        connection.book,
        uid,
        result_type,
        outcome,
    ) {
        Ok(Prepared::Normal(pending)) => finish(alloc, connection, object, uid, pending),
        Ok(Prepared::Exceptional(bytes)) => {
            give_up(connection, object);
            Ok(Answer { bytes, close: None })
        }
        Err(_) => {
            give_up(connection, object);
            Err(ConnEnd::OutOfMemory)
        }
    }
}

/// The place of the method that a head names among those of a kind.
fn method_of(book: &Book, kind: u32, head: &CallHead) -> Option<u32>
    ensures some { IfSome result (IsMethodOf book.now kind head.now) }
    ensures none { IfNone result (HasNoMethod book.now kind head.now) }
{
    if head.operation != -1 {
        return None;
    }
    book.find(kind, head.hash)
}

/// The end where an object's kind doesn't have the method that a head names.
pub fn no_such_method(head: &CallHead) -> ConnEnd
    ensures { result ≡ ConnEnd.NoSuchMethod head.now.operation head.now.hash }
{
    ConnEnd::NoSuchMethod {
        operation: head.operation,
        hash: head.hash,
    }
}

/// Serves a call that runs, whose head was read.
fn run_call<S: Source, K: Sink, C: Clock, P: Port, W: Worker>(
    alloc: Global,
    connection: &mut Connection<S, K, C, P, W>,
    head: CallHead,
    reader: Reader,
    kind: u32,
) -> Result<Answer, ConnEnd>
    requires head { HasHead reader }
    requires can { CanServeRest P.ready P.shown W.shown (RunsOne head.id) running_call
        connection.old }
    ensures runs_on { (first : PullState)
        → ReadsHead first (pull_state S.half connection.old.pull) head reader.stand
        → RunsOn W.may W.moves (terms_in connection.old) (next_in connection.old) head kind first
        (pull_state S.half connection.new.pull) (observed_of C.given P.shown W.shown connection.old)
        (observed_of C.given P.shown W.shown connection.new) connection.old.setup.now.draw.drawn
        connection.new.setup.now.draw.drawn result }
    ensures short { IfOk result (λ answer. length answer.bytes ≤ RETURN_BYTES) }
    ensures drew { OnOk result
        (connection.new.setup.now.draw.drawn ≡ connection.old.setup.now.draw.drawn + 1) }
    ensures frame { RestOfMessage P.ready P.shown P.leads W.shown running_call
        connection.old connection.new }
{
    let book = connection.book;
    let Some(method_place) = method_of(book, kind, &head) else {
        give_up(connection, head.id);
        return refuse(
            alloc,
            connection.setup,
            NO_SUCH_METHOD,
            no_such_method(&head),
        );
    };
    let Some(method) = book.method(kind, method_place) else {
        unreachable!()
    };
    match read_arguments(alloc, &mut connection.pull, reader, method) {
        Ok(arguments) => {
            let outcome = connection.worker.invoke(Invocation {
                object: head.id,
                kind,
                method: method_place,
                arguments,
            });
            conclude(alloc, connection, head.id, method.result, outcome)
        }
        Err(fault) => {
            give_up(connection, head.id);
            Err(end_of(fault))
        }
    }
}

/// Serves a Call whose head was read.
pub fn call_object<S: Source, K: Sink, C: Clock, P: Port, W: Worker>(
    alloc: Global,
    connection: &mut Connection<S, K, C, P, W>,
    head: CallHead,
    reader: Reader,
) -> Result<Answer, ConnEnd>
    requires head { HasHead reader }
    requires can { CanServeRest P.ready P.shown W.shown Balanced object_call connection.old }
    ensures answers { (first : PullState)
        → ReadsHead first (pull_state S.half connection.old.pull) head reader.stand
        → Answers W.may W.moves (terms_in connection.old) (next_in connection.old) head first
        (pull_state S.half connection.new.pull) (observed_of C.given P.shown W.shown connection.old)
        (observed_of C.given P.shown W.shown connection.new) connection.old.setup.now.draw.drawn
        connection.new.setup.now.draw.drawn result }
    ensures short { IfOk result (λ answer. length answer.bytes ≤ RETURN_BYTES) }
    ensures drew { OnOk result
        (connection.new.setup.now.draw.drawn ≡ connection.old.setup.now.draw.drawn + 1) }
    ensures frame { RestOfMessage P.ready P.shown P.leads W.shown object_call
        connection.old connection.new }
{
    match take_turn(connection, Ask::Begin { object: head.id }) {
        Ok(turn) => match turn.reply {
            Reply::Started(kind) => run_call(alloc, connection, head, reader, kind),
            Reply::NoObject => {
                let end = ConnEnd::NoSuchObject { id: head.id };
                refuse(alloc, connection.setup, NO_SUCH_OBJECT, end)
            }
            _ => unreachable!(),
        },
        Err(Refused::HistoryFull) => {
            refuse(alloc, connection.setup, HISTORY_FULL, ConnEnd::SpaceFull)
        }
        Err(Refused::Full(_kind)) => unreachable!(),
        Err(Refused::OutOfMemory) => Err(ConnEnd::OutOfMemory),
    }
}
