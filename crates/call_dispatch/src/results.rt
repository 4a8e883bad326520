//! Results that are remote objects, and results that refer to some.
ghost use Rattle.std.specs.Prelude.{◌≡◌, [], true, false, IfOk, IfSome, IfNone};
ghost use Rattle.call_dispatch.specs.Results.{with_flags, interface_of};
ghost use Rattle.system_objects.specs.ReturnBytes.{graph_return};
ghost use Rattle.call_dispatch.specs.Returns.{returns_place};

use class_desc::{TypeCode, is_primitive};
use java_shapes::with_result_flag;
use object_ids::{ObjIds, Uid};
use sequence::{ByteList, Kinds, Units};
use ser_values::Graph;
use std::alloc::{AllocError, Global};
use system_objects::Book;
use system_objects::returns::graph_return;

/// The Return that is sent once a call was finished.
#[derive(Drop)]
pub enum Sent {
    /// The normal Return with these bytes.
    Whole(ByteList),
    /// The normal Return of a reference to the new object, whose interface has this name.
    New(Units),
}

/// The work that is left for an outcome that fits its method.
#[derive(Drop)]
pub struct Pending {
    /// The kinds of the objects that the Return makes.
    pub made: Kinds,
    /// The server's own objects to which the Return refers.
    pub listed: ObjIds,
    /// The Return that is sent.
    pub sent: Sent,
}

/// The interface of a kind's objects, where a method with this result can return one of them.
pub fn interface_for(book: &Book, result_type: Option<TypeCode>, kind: u32) -> Option<&Units>
    ensures some { IfSome result (λ interface. (returns_place book.now result_type kind ≡ true)
        × (interface.now ≡ interface_of book.now kind)) }
    ensures none { IfNone result (returns_place book.now result_type kind ≡ false) }
{
    let code = result_type?;
    if is_primitive(code) {
        return None;
    }
    let found = book.kind(kind)?;
    Some(&found.interface)
}

/// The normal Return of a graph, in which each reference says that it was made for a result.
pub fn tree_return(alloc: Global, uid: Uid, graph: Graph) -> Result<ByteList, AllocError>
    ensures { IfOk result (λ bytes. bytes ≡ graph_return uid (with_flags graph.nodes) graph.items) }
{
    graph_return(alloc, uid, with_result_flag(alloc, graph)?)
}
