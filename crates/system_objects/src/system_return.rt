//! The Returns to calls of the registry and the collector.
ghost use Rattle.std.specs.Prelude.{◌≡◌, ◌≤◌, length, [], Some, slice_get, IfOk};
ghost use Rattle.mod_utf.specs.Utf.{utf};
ghost use Rattle.wire_io.specs.declared.limits.TheConstants.{MAX_HOST_BYTES};
ghost use Rattle.history.specs.declared.asks.Ask.{Ask};
ghost use Rattle.java_shapes.specs.TextsGraph.{texts_items, texts_nodes};
ghost use Rattle.system_objects.specs.SystemRequests.{kept_of};
ghost use Rattle.system_objects.specs.ReturnBytes.{fault_return, full, graph_return};
ghost use Rattle.system_objects.specs.SystemReturns.{answer_written, bound_return, found_return, kept_return, lease_return, named_fault, reply_return, unbound_return, void_return};
ghost use Rattle.system_objects.specs.Terms.{terms_of};
ghost use Rattle.system_objects.specs.declared.returns.TheConstants.{RETURN_BYTES};

use crate::book::{Book, Kind};
use crate::faults::{
    ALREADY_BOUND, HISTORY_FULL, NO_SUCH_OBJECT, NOT_BOUND, WRONG_OUTCOME, full_message,
};
use crate::fixed_returns::{lease_bytes, reference_bytes};
use crate::request::ReplyContext;
use crate::returns::{RETURN_BYTES, exceptional, exceptional_ascii, graph_return};
use crate::setup::Setup;
use history::{Name, Refused, Reply, Turn};
use java_shapes::texts_graph;
use jrmp_frames::{Body, return_bytes};
use mod_utf::utf::units_of_ascii;
use object_ids::{ObjId, Uid};
use sequence::{ByteList, NameList};
use std::alloc::{AllocError, Global};

// ---- exceptional Returns

/// The exceptional Return with a message in ASCII that goes on with a name.
fn named_fault(alloc: Global, uid: Uid, front: &[u8], name: &Name) -> Result<ByteList, AllocError>
    ensures { IfOk result (λ bytes. bytes ≡ named_fault uid front.now name.now) }
{
    let mut message = units_of_ascii(alloc, front)?;
    message.append(name.units().as_slice())?;
    exceptional(alloc, uid, &message)
}

/// The Return that a name is bound already.
fn bound_return(alloc: Global, uid: Uid, kept: &ReplyContext) -> Result<ByteList, AllocError>
    ensures { IfOk result (λ bytes. bytes ≡ bound_return uid kept.now) }
{
    match kept {
        ReplyContext::Name(name) => named_fault(alloc, uid, ALREADY_BOUND, name),
        _ => Err(AllocError),
    }
}

/// The Return that a name is not bound.
fn unbound_return(alloc: Global, uid: Uid, kept: &ReplyContext) -> Result<ByteList, AllocError>
    ensures { IfOk result (λ bytes. bytes ≡ unbound_return uid kept.now) }
{
    match kept {
        ReplyContext::Name(name) => named_fault(alloc, uid, NOT_BOUND, name),
        _ => Err(AllocError),
    }
}

/// The Return where a turn is refused.
fn refused_return(alloc: Global, uid: Uid, refused: Refused) -> Result<ByteList, AllocError>
    ensures { IfOk result (λ bytes. bytes ≡ fault_return uid (full refused)) }
{
    match refused {
        Refused::Full(kind) => exceptional_ascii(alloc, uid, full_message(kind)),
        Refused::HistoryFull => exceptional_ascii(alloc, uid, HISTORY_FULL),
        Refused::OutOfMemory => Err(AllocError),
    }
}

// ---- normal Returns

/// The Return of nothing.
#[tactic(auto, unfolding(crate::specs::SystemReturns::void_return))]
fn void_return(alloc: Global, uid: Uid) -> Result<ByteList, AllocError>
    ensures { IfOk result (λ bytes. bytes ≡ void_return uid) }
{
    return_bytes(alloc, true, uid, &Body::Void)
}

/// The Return of a lease of this many milliseconds to the client that is kept.
fn lease_return(
    alloc: Global,
    uid: Uid,
    duration: u64,
    kept: &ReplyContext,
) -> Result<ByteList, AllocError>
    ensures { IfOk result (λ bytes. bytes ≡ lease_return uid duration kept.now) }
{
    let Ok(duration) = i64::try_from(duration) else {
        return Err(AllocError);
    };
    match kept {
        ReplyContext::Client(client) => lease_bytes(alloc, uid, &duration, client),
        _ => Err(AllocError),
    }
}

/// The Return of a list of names.
fn names_return(alloc: Global, uid: Uid, names: &NameList) -> Result<ByteList, AllocError>
    ensures { IfOk result (λ bytes. bytes ≡ graph_return uid (texts_nodes names.now) texts_items) }
{
    graph_return(alloc, uid, texts_graph(alloc, names)?)
}

/// The Return of an object of a kind.
fn object_return(
    alloc: Global,
    setup: &Setup,
    uid: Uid,
    object: ObjId,
    kind: &Kind,
) -> Result<ByteList, AllocError>
    requires { length (utf setup.now.host) ≤ MAX_HOST_BYTES }
    ensures { IfOk result
        (λ bytes. bytes ≡ found_return (terms_of [] setup.now) uid object (Some kind.now)) }
{
    reference_bytes(alloc, setup, uid, &kind.interface, object)
}

/// The Return of an object that was found, of a kind of the book.
fn found_return(
    alloc: Global,
    setup: &Setup,
    book: &Book,
    uid: Uid,
    object: ObjId,
    kind: u32,
) -> Result<ByteList, AllocError>
    requires { length (utf setup.now.host) ≤ MAX_HOST_BYTES }
    ensures { IfOk result (λ bytes.
        bytes ≡ found_return (terms_of book.now setup.now) uid object (slice_get book.now kind)) }
{
    match book.kind(kind) {
        Some(kind) => object_return(alloc, setup, uid, object, kind),
        None => exceptional_ascii(alloc, uid, WRONG_OUTCOME),
    }
}

// ---- any Return

/// The Return of a reply. It is refused for want of memory, and where the reply answers no such call.
fn reply_return(
    alloc: Global,
    setup: &Setup,
    book: &Book,
    uid: Uid,
    kept: &ReplyContext,
    reply: &Reply,
) -> Result<ByteList, AllocError>
    requires { length (utf setup.now.host) ≤ MAX_HOST_BYTES }
    ensures { IfOk result
        (λ bytes. bytes ≡ reply_return (terms_of book.now setup.now) uid kept.now reply.now) }
{
    match reply {
        Reply::Granted(duration) => lease_return(alloc, uid, *duration, kept),
        Reply::Done => void_return(alloc, uid),
        Reply::Bound => void_return(alloc, uid),
        Reply::Unbound => void_return(alloc, uid),
        Reply::Found(object, kind) => found_return(alloc, setup, book, uid, *object, *kind),
        Reply::Names(names) => names_return(alloc, uid, names),
        Reply::AlreadyBound => bound_return(alloc, uid, kept),
        Reply::NotBound => unbound_return(alloc, uid, kept),
        Reply::NoObject => exceptional_ascii(alloc, uid, NO_SUCH_OBJECT),
        _ => Err(AllocError),
    }
}

/// The Return of a turn's answer, of which so much was kept of what was asked.
fn kept_return(
    alloc: Global,
    setup: &Setup,
    book: &Book,
    uid: Uid,
    kept: &ReplyContext,
    answer: &Result<Turn, Refused>,
) -> Result<ByteList, AllocError>
    requires { length (utf setup.now.host) ≤ MAX_HOST_BYTES }
    ensures { IfOk result
        (λ bytes. bytes ≡ kept_return (terms_of book.now setup.now) uid kept.now answer.now) }
{
    match answer {
        Ok(turn) => reply_return(alloc, setup, book, uid, kept, &turn.reply),
        Err(refused) => refused_return(alloc, uid, *refused),
    }
}

/// The Return of what was asked in a turn and is answered so, where this was kept of it. There is no memory for one of more than
/// 2^30 bytes. It is refused, too, where the answer is none of a call of the registry or the collector.
#[tactic(auto, unfolding(crate::specs::SystemReturns::answer_written))]
pub fn system_return(
    alloc: Global,
    setup: &Setup,
    book: &Book,
    uid: Uid,
    kept: &ReplyContext,
    answer: &Result<Turn, Refused>,
) -> Result<ByteList, AllocError>
    requires host { length (utf setup.now.host) ≤ MAX_HOST_BYTES }
    ensures written { (ask : Ask) → kept.now ≡ kept_of ask
        → IfOk result
        (λ bytes. bytes ≡ answer_written (terms_of book.now setup.now) uid ask answer.now) }
    ensures short { IfOk result (λ bytes. length bytes ≤ RETURN_BYTES) }
{
    let bytes = kept_return(alloc, setup, book, uid, kept, answer)?;
    if bytes.len() > RETURN_BYTES {
        return Err(AllocError);
    }
    Ok(bytes)
}
