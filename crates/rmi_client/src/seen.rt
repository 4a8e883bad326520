//! The contents of the registry's Returns.
ghost use Rattle.std.specs.Prelude.{◌≡◌, ◌⊎◌, option_map, None, Some};
ghost use Rattle.java_shapes.specs.Ids.{texts_at};
ghost use Rattle.java_shapes.specs.LiveRefs.{live_ref_at};
ghost use Rattle.java_shapes.specs.ViewAnswers.{Views};
ghost use Rattle.rmi_client.specs.Replies.{reference_of, viewed};
ghost use Rattle.rmi_client.specs.Requests.{Sees, found_in, names_in, shape_end};

use crate::end::{ClientEnd, ReplyKind};
use crate::reply::{Answer, reference_of};
use java_shapes::{LiveRef, ShapeFault, as_live_ref, as_texts};
use jrmp_frames::Body;
use object_ids::Uid;
use sequence::NameList;
use std::alloc::Global;

/// The end where a Return that ends at this position has not the shape that is read.
pub(crate) fn shape_end(fault: ShapeFault, at: u64) -> ClientEnd
    ensures { result ≡ shape_end fault at }
{
    match fault {
        ShapeFault::WrongShape => ClientEnd::BadReply {
            kind: ReplyKind::WrongShape,
            at,
        },
        ShapeFault::OutOfMemory => ClientEnd::OutOfMemory,
    }
}

/// The reference that a body is.
fn live_ref_of(alloc: Global, body: &Body) -> Result<LiveRef, ShapeFault>
    ensures { Views result (viewed live_ref_at (reference_of body.now)) }
{
    match reference_of(body) {
        Some((graph, slot)) => as_live_ref(alloc, graph, slot),
        None => Err(ShapeFault::WrongShape),
    }
}

/// The reference of a lookup's Return, which ends at this position, and the Return's identifier.
pub(crate) fn found_in(alloc: Global, answer: &Answer, at: u64) -> Result<(Uid, LiveRef), ClientEnd>
    ensures { Sees at (found_in answer.now) result }
{
    match live_ref_of(alloc, &answer.body) {
        Ok(reference) => Ok((answer.uid, reference)),
        Err(fault) => Err(shape_end(fault, at)),
    }
}

/// The texts that a body is.
fn texts_of(alloc: Global, body: &Body) -> Result<NameList, ShapeFault>
    ensures { Views result (viewed texts_at (reference_of body.now)) }
{
    match reference_of(body) {
        Some((graph, slot)) => as_texts(alloc, graph, slot),
        None => Err(ShapeFault::WrongShape),
    }
}

/// The names of a list's Return, which ends at this position.
pub(crate) fn names_in(alloc: Global, answer: &Answer, at: u64) -> Result<NameList, ClientEnd>
    ensures { Sees at (names_in answer.now) result }
{
    match texts_of(alloc, &answer.body) {
        Ok(names) => Ok(names),
        Err(fault) => Err(shape_end(fault, at)),
    }
}
