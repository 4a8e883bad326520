//! Identifiers of objects, read from their shapes.
ghost use Rattle.std.specs.Prelude.{◌≡◌};
ghost use Rattle.java_shapes.specs.Ids.{uid_of, uid_at, objid_of, objid_at, objids_at};
ghost use Rattle.java_shapes.specs.Objects.{each};
ghost use Rattle.java_shapes.specs.ViewAnswers.{Views};

use crate::class_part::{ClassPart, own_at, refs_at};
use crate::fault::ShapeFault;
use class_desc::{Slot, TypeCode};
use object_ids::{ObjId, ObjIds, Uid};
use ser_values::{Graph, Node};
use std::alloc::Global;

/// The identifier in an object's fields.
#[tactic(auto, unfolding(crate::specs::Ids::uid_of))]
fn uid_of(uid: ClassPart) -> Option<Uid>
    ensures { result ≡ uid_of (uid.entry.desc.now, uid.entry.part.now) }
{
    Some(Uid {
        count: uid.short("count")?,
        time: uid.long("time")?,
        unique: uid.int("unique")?,
    })
}

/// The identifier that a slot's object is.
pub(crate) fn uid_at(nodes: &[Node], slot: Slot) -> Option<Uid>
    ensures { result ≡ uid_at nodes.now slot }
{
    uid_of(own_at(nodes, slot, "java.rmi.server.UID")?)
}

/// The object's identifier in an object's fields.
#[tactic(auto, unfolding(crate::specs::Ids::objid_of))]
fn objid_of(nodes: &[Node], id: ClassPart) -> Option<ObjId>
    ensures { result ≡ objid_of nodes.now (id.entry.desc.now, id.entry.part.now) }
{
    let number = id.long("objNum")?;
    let slot = id.slot(TypeCode::Object, "space")?;
    let space = uid_at(nodes, slot)?;
    Some(ObjId { number, space })
}

/// The object's identifier that a slot's object is.
fn objid_at(nodes: &[Node], slot: Slot) -> Option<ObjId>
    ensures { result ≡ objid_at nodes.now slot }
{
    objid_of(nodes, own_at(nodes, slot, "java.rmi.server.ObjID")?)
}

/// The objects' identifiers that slots' objects are.
fn each_objid(alloc: Global, nodes: &[Node], slots: &[Slot]) -> Result<ObjIds, ShapeFault>
    ensures { Views result (each (objid_at nodes.now) slots.now) }
{
    let mut ids = ObjIds::new(alloc);
    for slot in slots {
        let Some(id) = objid_at(nodes, *slot) else {
            return Err(ShapeFault::WrongShape);
        };
        ids.push(id)?;
    }
    Ok(ids)
}

/// The identifiers of an `ObjID[]`. WrongShape comes exactly where the slot is none, or an element or its space is null or of
/// another shape.
#[tactic(auto, unfolding(crate::specs::Ids::objids_at))]
pub fn as_objids(alloc: Global, graph: &Graph, slot: Slot) -> Result<ObjIds, ShapeFault>
    ensures { Views result (objids_at graph.now.nodes slot) }
{
    let nodes = graph.nodes().as_slice();
    match refs_at(nodes, slot, "[Ljava.rmi.server.ObjID;") {
        Some(slots) => each_objid(alloc, nodes, slots.as_slice()),
        None => Err(ShapeFault::WrongShape),
    }
}
