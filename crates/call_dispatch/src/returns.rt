//! The Returns that answer calls.
ghost use Rattle.std.specs.Prelude.{◌≡◌, ◌+◌, ◌<◌, ◌^◌, pos, ◌<ℤ◌, true, false, List, Option, codes, IfOk};
ghost use Rattle.object_ids.specs.Draw.{uid_drawn};
ghost use Rattle.class_desc.specs.declared.field.TypeCode.{TypeCode};
ghost use Rattle.jrmp_frames.specs.Messages.{return_message};
ghost use Rattle.system_objects.specs.declared.book.Kind.{Kind};
ghost use Rattle.system_objects.specs.declared.setup.Setup.{Setup};
ghost use Rattle.system_objects.specs.ReturnBytes.{fault_return};
ghost use Rattle.call_dispatch.specs.Serving.{IsPlain, Prepares, PreparesGraph, PreparesPlain, IsReadyReturn};
ghost use Rattle.system_objects.specs.Terms.{Terms, terms_of};
ghost use Rattle.system_objects.specs.declared.returns.TheConstants.{RETURN_BYTES};
ghost use Rattle.system_objects.specs.declared.setup.TheConstants.{DRAWS_BEGIN_BELOW};

use crate::end::ConnEnd;
use crate::outcome::Outcome;
use crate::results::{Pending, Sent, interface_for, tree_return};
use crate::suitable::{returns_graph, returns_nothing, returns_value};
use class_desc::TypeCode;
use java_shapes::local_refs;
use jrmp_frames::{Body, return_bytes};
use object_ids::{ObjId, ObjIds, Uid};
use sequence::{ByteList, Kinds, Units};
use ser_values::{Graph, Value};
use std::alloc::{AllocError, Global};
use system_objects::faults::WRONG_OUTCOME;
use system_objects::returns::{RETURN_BYTES, exceptional, exceptional_ascii, own_return};
use system_objects::{Book, Setup};

/// An answer that is yet to be written.
pub struct Answer {
    /// Its bytes.
    pub bytes: ByteList,
    /// The end of the connection, where it ends with this answer.
    pub close: Option<ConnEnd>,
}

// Written out, so that whoever owns one has one call at each exit, and not the drop of each field.
impl Drop for Answer {
    fn drop(self) {
        let Answer { bytes, close: _ } = self;
        drop(bytes);
    }
}

/// A Return that is yet to be sent.
#[derive(Drop)]
pub enum Prepared {
    /// The normal Return of an outcome, which is sent once the call was finished.
    Normal(Pending),
    /// An exceptional Return: the call is given up.
    Exceptional(ByteList),
}

/// The next identifier of the draw.
pub fn next_uid(setup: &mut Setup) -> Uid
    requires time { setup.old.draw.time <ℤ pos DRAWS_BEGIN_BELOW }
    requires drawn { setup.old.draw.drawn < 2 ^ 65 }
    ensures uid { result ≡ uid_drawn setup.old.draw.unique setup.old.draw.time
        setup.old.draw.drawn }
    ensures drawn { setup.new
        ≡ record setup.old { draw = record setup.old.draw { drawn = setup.old.draw.drawn + 1 } } }
{
    match setup.draw.next() {
        Some(uid) => uid,
        None => unreachable!(),
    }
}

/// The exceptional Return where an outcome is none of its method.
fn wrong_outcome(alloc: Global, uid: Uid) -> Result<Prepared, AllocError>
    ensures prepared { IfOk result (λ prepared. prepared ≡ Prepared.Exceptional
        (fault_return uid (codes "java.rmi.ServerException: wrong outcome"))) }
    ensures ready { IfOk result IsReadyReturn }
{
    let bytes = exceptional_ascii(alloc, uid, WRONG_OUTCOME)?;
    Ok(Prepared::Exceptional(bytes))
}

/// A normal Return with these bytes, which makes no object and refers to none.
fn plain(alloc: Global, bytes: ByteList) -> Prepared
    ensures { IsPlain bytes result }
{
    Prepared::Normal(Pending {
        made: Kinds::new(alloc),
        listed: ObjIds::new(alloc),
        sent: Sent::Whole(bytes),
    })
}

/// The Return of a method's result that is no reference, where it suits the method and can be sent.
fn prepare_body(alloc: Global, uid: Uid, suits: bool, body: &Body) -> Result<Prepared, AllocError>
    ensures prepares { PreparesPlain uid suits (return_message true uid body.now) result }
    ensures ready { IfOk result IsReadyReturn }
{
    if !suits {
        return wrong_outcome(alloc, uid);
    }
    let bytes = return_bytes(alloc, true, uid, body)?;
    if bytes.len() > RETURN_BYTES {
        return wrong_outcome(alloc, uid);
    }
    Ok(plain(alloc, bytes))
}

/// The Return of a method without a result.
fn prepare_void(
    alloc: Global,
    uid: Uid,
    result_type: Option<TypeCode>,
) -> Result<Prepared, AllocError>
    ensures prepares { (terms : Terms) → Prepares terms uid result_type Outcome.Void result }
    ensures ready { IfOk result IsReadyReturn }
{
    prepare_body(alloc, uid, returns_nothing(result_type), &Body::Void)
}

/// The Return of a method's result that is a number, a character or a truth value.
fn prepare_value(
    alloc: Global,
    uid: Uid,
    result_type: Option<TypeCode>,
    value: Value,
) -> Result<Prepared, AllocError>
    ensures prepares { (terms : Terms)
        → Prepares terms uid result_type (Outcome.Prim value) result }
    ensures ready { IfOk result IsReadyReturn }
{
    let suits = returns_value(result_type, value);
    prepare_body(alloc, uid, suits, &Body::Prim(value))
}

/// The Return of a graph, which refers to these objects of the server, where it can be sent.
fn prepare_graph(
    alloc: Global,
    uid: Uid,
    graph: Graph,
    listed: ObjIds,
) -> Result<Prepared, AllocError>
    ensures prepares { PreparesGraph uid graph listed result }
    ensures ready { IfOk result IsReadyReturn }
{
    let bytes = tree_return(alloc, uid, graph)?;
    if bytes.len() > RETURN_BYTES {
        return wrong_outcome(alloc, uid);
    }
    Ok(Prepared::Normal(Pending {
        made: Kinds::new(alloc),
        listed,
        sent: Sent::Whole(bytes),
    }))
}

/// The Return of a method's result that is a graph, where it suits the method and can be sent.
fn prepare_tree(
    alloc: Global,
    setup: &Setup,
    uid: Uid,
    result_type: Option<TypeCode>,
    graph: Graph,
) -> Result<Prepared, AllocError>
    ensures prepares { (kinds : List Kind)
        → Prepares (terms_of kinds setup.now) uid result_type (Outcome.Tree graph) result }
    ensures ready { IfOk result IsReadyReturn }
{
    if !returns_graph(result_type, &graph) {
        return wrong_outcome(alloc, uid);
    }
    let listed = local_refs(alloc, &graph, &setup.host, setup.port)?;
    prepare_graph(alloc, uid, graph, listed)
}

/// The Return of a reference to a new object of a kind, where that suits the method.
fn prepare_new(
    alloc: Global,
    book: &Book,
    uid: Uid,
    result_type: Option<TypeCode>,
    kind: u32,
) -> Result<Prepared, AllocError>
    ensures prepares { (setup : Setup)
        → Prepares (terms_of book.now setup) uid result_type (Outcome.NewRemote kind) result }
    ensures ready { IfOk result IsReadyReturn }
{
    let Some(interface) = interface_for(book, result_type, kind) else {
        return wrong_outcome(alloc, uid);
    };
    let interface = interface.copy(alloc)?;
    Ok(Prepared::Normal(Pending {
        made: Kinds::from_slice(alloc, &[kind])?,
        listed: ObjIds::new(alloc),
        sent: Sent::New(interface),
    }))
}

/// The Return of a reference to an object of a kind, where that suits the method.
fn prepare_old(
    alloc: Global,
    setup: &Setup,
    book: &Book,
    uid: Uid,
    result_type: Option<TypeCode>,
    object: ObjId,
    kind: u32,
) -> Result<Prepared, AllocError>
    ensures prepares { Prepares (terms_of book.now setup.now) uid result_type
        (Outcome.OldRemote object kind) result }
    ensures ready { IfOk result IsReadyReturn }
{
    let Some(interface) = interface_for(book, result_type, kind) else {
        return wrong_outcome(alloc, uid);
    };
    let bytes = own_return(alloc, setup, uid, interface, object)?;
    Ok(Prepared::Normal(Pending {
        made: Kinds::new(alloc),
        listed: ObjIds::from_slice(alloc, &[object])?,
        sent: Sent::Whole(bytes),
    }))
}

/// The exceptional Return of a worker's own message, where it can be sent.
fn prepare_fault(alloc: Global, uid: Uid, message: &Units) -> Result<Prepared, AllocError>
    ensures prepares { (terms : Terms) (result_type : Option TypeCode)
        → Prepares terms uid result_type (Outcome.Fault message.now) result }
    ensures ready { IfOk result IsReadyReturn }
{
    let bytes = exceptional(alloc, uid, message)?;
    if bytes.len() > RETURN_BYTES {
        return wrong_outcome(alloc, uid);
    }
    Ok(Prepared::Exceptional(bytes))
}

/// Prepares the Return for an outcome of a method with this result, and the objects that its Finish lists. It fails
/// where there is no memory, and where the worker had none.
pub fn prepare(
    alloc: Global,
    setup: &Setup,
    book: &Book,
    uid: Uid,
    result_type: Option<TypeCode>,
    outcome: Outcome,
) -> Result<Prepared, AllocError>
    ensures prepares { Prepares (terms_of book.now setup.now) uid result_type outcome result }
    ensures ready { IfOk result IsReadyReturn }
{
    match outcome {
        Outcome::Void => prepare_void(alloc, uid, result_type),
        Outcome::Prim(value) => prepare_value(alloc, uid, result_type, value),
        Outcome::Tree(graph) => prepare_tree(alloc, setup, uid, result_type, graph),
        Outcome::NewRemote(kind) => prepare_new(alloc, book, uid, result_type, kind),
        Outcome::OldRemote(object, kind) => {
            prepare_old(alloc, setup, book, uid, result_type, object, kind)
        }
        Outcome::Fault(message) => prepare_fault(alloc, uid, &message),
        Outcome::OutOfMemory => Err(AllocError),
    }
}
