//! The replies that a server sends to a client, as the client reads them.
ghost use Rattle.std.specs.Prelude.{◌≡◌, option_map};
ghost use Rattle.wire_io.specs.Pulled.{pull_state};
ghost use Rattle.java_shapes.specs.Throwable.{fault_text_at};
ghost use Rattle.java_shapes.specs.ViewAnswers.{Views};
ghost use Rattle.rmi_client.specs.Replies.{TakesFirst, TakesEndpoint, HearsAck, HearsPing, HearsAnswer, HearsReturn, reference_of, viewed, IsExceptionEnd};

use crate::end::{ClientEnd, ReplyKind, end_of, not_return};
use class_desc::{Item, Slot, TypeCode};
use java_shapes::{ShapeFault, as_fault_text};
use jrmp_frames::{Body, FrameFault, read_return, skip_endpoint};
use object_ids::Uid;
use sequence::Units;
use ser_values::Graph;
use std::alloc::Global;
use wire_io::{Pull, Source};

/// A server's answer to a Call.
#[derive(Debug)]
pub struct Answer {
    /// The identifier of the Return, by which its references are acknowledged.
    pub uid: Uid,
    /// The result.
    pub body: Body,
}

// Written out, so that whoever owns one has one call at each exit, and not the drop of each field.
impl Drop for Answer {
    fn drop(self) {
        let Answer { uid: _, body } = self;
        drop(body);
    }
}

/// Takes the first byte of a reply, whatever it is.
fn take_code<S: Source>(pull: &mut Pull<'_, S>) -> Result<u8, ClientEnd>
    ensures takes { TakesFirst (pull_state S.half pull.old) (pull_state S.half pull.new) result }
    ensures lent { pull.new.source.ghost_name ≡ pull.old.source.ghost_name }
{
    match pull.byte() {
        Ok(byte) => Ok(byte),
        Err(end) => Err(end_of(end.into())),
    }
}

/// Reads the acknowledgement of the stream protocol: `4E`, and the client's host and port as the server sees them.
pub(crate) fn read_ack<S: Source>(pull: &mut Pull<'_, S>) -> Result<(), ClientEnd>
    ensures hears { HearsAck (pull_state S.half pull.old) (pull_state S.half pull.new) result }
    ensures lent { pull.new.source.ghost_name ≡ pull.old.source.ghost_name }
{
    let at = pull.at;
    match take_code(pull) {
        Ok(code) => match code {
            0x4E => read_own_endpoint(pull),
            0x4F => Err(ClientEnd::Nack),
            _ => Err(not_return(at)),
        },
        Err(end) => Err(end),
    }
}

/// Takes the client's endpoint, as the server sees it.
fn read_own_endpoint<S: Source>(pull: &mut Pull<'_, S>) -> Result<(), ClientEnd>
    ensures gives { TakesEndpoint (pull_state S.half pull.old) (pull_state S.half pull.new) result }
    ensures lent { pull.new.source.ghost_name ≡ pull.old.source.ghost_name }
{
    match skip_endpoint(pull) {
        Ok(()) => Ok(()),
        Err(fault) => match fault {
            FrameFault::Stream(inside) => Err(end_of(inside)),
            _ => unreachable!(),
        },
    }
}

/// Reads the answer to a Ping, `53`.
pub(crate) fn read_ping_ack<S: Source>(pull: &mut Pull<'_, S>) -> Result<(), ClientEnd>
    ensures hears { HearsPing (pull_state S.half pull.old) (pull_state S.half pull.new) result }
    ensures lent { pull.new.source.ghost_name ≡ pull.old.source.ghost_name }
{
    let at = pull.at;
    match take_code(pull) {
        Ok(code) => {
            if code == 0x53 {
                Ok(())
            } else {
                Err(not_return(at))
            }
        }
        Err(end) => Err(end),
    }
}

/// The graph that a body is, and its one reference.
pub(crate) fn reference_of(body: &Body) -> Option<(&Graph, Slot)>
    ensures { option_map (λ found. (found.0.now.nodes, found.1)) result ≡ reference_of body.now }
{
    match body {
        Body::Tree(graph) => match graph.items().as_slice() {
            [Item::Ref(slot)] => Some((graph, *slot)),
            _ => None,
        },
        _ => None,
    }
}

/// The text of an exception.
fn fault_text(alloc: Global, body: &Body) -> Result<Units, ShapeFault>
    ensures { Views result (viewed fault_text_at (reference_of body.now)) }
{
    match reference_of(body) {
        Some((graph, slot)) => as_fault_text(alloc, graph, slot),
        None => Err(ShapeFault::WrongShape),
    }
}

/// The end for an exception, whose Return ends at this position.
fn exception_end(alloc: Global, body: &Body, at: u64) -> ClientEnd
    ensures { IsExceptionEnd at (viewed fault_text_at (reference_of body.now)) result }
{
    match fault_text(alloc, body) {
        Ok(text) => ClientEnd::RemoteFault(text),
        Err(ShapeFault::WrongShape) => ClientEnd::BadReply {
            kind: ReplyKind::WrongShape,
            at,
        },
        Err(ShapeFault::OutOfMemory) => ClientEnd::OutOfMemory,
    }
}

/// Reads a Return, for a method whose result has this type, or that has none.
pub(crate) fn read_answer<S: Source>(
    alloc: Global,
    pull: &mut Pull<'_, S>,
    want: Option<TypeCode>,
) -> Result<Answer, ClientEnd>
    ensures hears { HearsAnswer (pull_state S.half pull.old) (pull_state S.half pull.new) want
        result }
    ensures lent { pull.new.source.ghost_name ≡ pull.old.source.ghost_name }
{
    let at = pull.at;
    match take_code(pull) {
        Ok(code) => {
            if code == 0x51 {
                read_behind(alloc, pull, want)
            } else {
                Err(not_return(at))
            }
        }
        Err(end) => Err(end),
    }
}

/// Reads what follows the code of a Return.
fn read_behind<S: Source>(
    alloc: Global,
    pull: &mut Pull<'_, S>,
    want: Option<TypeCode>,
) -> Result<Answer, ClientEnd>
    ensures hears { HearsReturn (pull_state S.half pull.old) (pull_state S.half pull.new) want
        result }
    ensures lent { pull.new.source.ghost_name ≡ pull.old.source.ghost_name }
{
    match read_return(alloc, pull, want) {
        Ok(read) => {
            let (normal, uid, body) = read;
            if normal {
                Ok(Answer { uid, body })
            } else {
                Err(exception_end(alloc, &body, pull.at))
            }
        }
        Err(fault) => match fault {
            FrameFault::BadKind { byte: _, at } => Err(ClientEnd::BadReply {
                kind: ReplyKind::BadReturnKind,
                at,
            }),
            FrameFault::Stream(inside) => Err(end_of(inside)),
            _ => unreachable!(),
        },
    }
}
