//! The Returns of graphs and of references to the server's own objects, and exceptional ones.
ghost use Rattle.std.specs.Prelude.{◌≡◌, ◌≤◌, [], true, false, length, IfOk};
ghost use Rattle.system_objects.specs.ReturnBytes.{fault_return, graph_return, own_return};
ghost use Rattle.system_objects.specs.Terms.{terms_of};
ghost use Rattle.system_objects.specs.declared.returns.TheConstants.{RETURN_BYTES};

use crate::fixed_returns::reference_bytes;
use crate::setup::Setup;
use java_shapes::fault_graph;
use jrmp_frames::{Body, return_bytes};
use mod_utf::utf::units_of_ascii;
use object_ids::{FullKind, ObjId, Uid};
use sequence::{ByteList, Units};
use ser_values::Graph;
use std::alloc::{AllocError, Global};

/// The most bytes of a Return.
pub const RETURN_BYTES: usize = 1 << 30;

// ---- normal Returns

/// The normal Return of a graph.
pub fn graph_return(alloc: Global, uid: Uid, graph: Graph) -> Result<ByteList, AllocError>
    ensures { IfOk result (λ bytes. bytes ≡ graph_return uid graph.nodes graph.items) }
{
    return_bytes(alloc, true, uid, &Body::Tree(graph))
}

/// The normal Return of a reference to an object of the server, whose interface has this name. There is no memory for one whose host has more
/// than 65,535 bytes as modified UTF, or which has more than 2^30 bytes itself.
pub fn own_return(
    alloc: Global,
    setup: &Setup,
    uid: Uid,
    interface: &Units,
    object: ObjId,
) -> Result<ByteList, AllocError>
    ensures written { IfOk result
        (λ bytes. bytes ≡ own_return (terms_of [] setup.now) uid interface.now object) }
    ensures short { IfOk result (λ bytes. length bytes ≤ RETURN_BYTES) }
{
    let bytes = reference_bytes(alloc, setup, uid, interface, object)?;
    if bytes.len() > RETURN_BYTES {
        return Err(AllocError);
    }
    Ok(bytes)
}

// ---- exceptional Returns

/// The exceptional Return with a message.
pub fn exceptional(alloc: Global, uid: Uid, message: &Units) -> Result<ByteList, AllocError>
    ensures { IfOk result (λ bytes. bytes ≡ fault_return uid message.now) }
{
    let graph = fault_graph(alloc, message)?;
    return_bytes(alloc, false, uid, &Body::Tree(graph))
}

/// The exceptional Return with a message in ASCII. There is no memory for one of more than 2^30 bytes.
pub fn exceptional_ascii(alloc: Global, uid: Uid, message: &[u8]) -> Result<ByteList, AllocError>
    ensures written { IfOk result (λ bytes. bytes ≡ fault_return uid message.now) }
    ensures short { IfOk result (λ bytes. length bytes ≤ RETURN_BYTES) }
{
    let message = units_of_ascii(alloc, message)?;
    let bytes = exceptional(alloc, uid, &message)?;
    if bytes.len() > RETURN_BYTES {
        return Err(AllocError);
    }
    Ok(bytes)
}
