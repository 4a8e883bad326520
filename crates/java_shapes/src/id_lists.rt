//! Lists of objects' identifiers among the loose nodes of a builder.
ghost use Rattle.std.specs.Prelude.{◌≡◌, ◌+◌, ◌*◌, ◌∷◌, [], Some, length, IfOk, IfErr, OnOk, OnErr};
ghost use Rattle.ser_values.specs.declared.value.Value.TheVariants as values;
ghost use Rattle.java_shapes.specs.Ids.{objids_at};
ghost use Rattle.java_shapes.specs.ListClasses.{AreListClasses};
ghost use Rattle.java_shapes.specs.Put.{Grows, IsPutRefusal, Puts};
ghost use Rattle.java_shapes.specs.Shapes.{AreIds, ObjIdAt, ObjIdsAt, one_part};

use crate::classes::{put_array, put_class, put_object};
use crate::leases::{one_part, uid_parts};
use class_desc::{KnownClass, Slot, SlotList};
use object_ids::{ObjId, ObjIds};
use ser_values::{BuildFault, Builder, PartList, Value, Values};
use std::alloc::{AllocError, Global};

/// The part of an object's identifier.
fn id_parts(alloc: Global, number: &i64, space: Slot) -> Result<PartList, AllocError>
    ensures { IfOk result (λ parts. parts
        ≡ one_part (values.Long number.now ∷ values.Ref space ∷ [])) }
{
    one_part(alloc, &[Value::Long(*number), Value::Ref(space)])
}

/// Puts an object's identifier, of these classes.
fn put_objid(
    alloc: Global,
    b: &mut Builder,
    id_class: Slot,
    uid_class: Slot,
    id: &ObjId,
) -> Result<Slot, BuildFault>
    ensures { Puts 2 (λ nodes s. ObjIdAt nodes id_class uid_class id.now s) b.old b.new result }
{
    let uid = uid_parts(alloc, &id.space)?;
    let space = put_object(b, uid_class, uid)?;
    let parts = id_parts(alloc, &id.number, space)?;
    put_object(b, id_class, parts)
}

/// Puts objects' identifiers, of these classes.
fn put_each(
    alloc: Global,
    b: &mut Builder,
    id_class: Slot,
    uid_class: Slot,
    ids: &[ObjId],
) -> Result<SlotList, BuildFault>
    ensures { Puts (2 * length ids.now)
        (λ nodes slots. AreIds nodes id_class uid_class ids.now slots) b.old b.new result }
{
    let mut objects = SlotList::new(alloc);
    for id in ids {
        objects.push(put_objid(alloc, b, id_class, uid_class, id)?)?;
    }
    Ok(objects)
}

/// The descriptions that a list of identifiers wants: of the list's class, of an identifier's, and of the class of its unique part.
#[derive(Clone, Copy)]
struct ListClasses {
    list: Slot,
    id: Slot,
    uid: Slot,
}

/// Puts the descriptions that a list of identifiers wants.
fn put_classes(alloc: Global, b: &mut Builder) -> Result<ListClasses, BuildFault>
    ensures { Puts 8 AreListClasses b.old b.new result }
{
    let list = put_class(alloc, b, KnownClass::ObjIdArray, Slot::Null)?;
    let id = put_class(alloc, b, KnownClass::ObjId, Slot::Null)?;
    let uid = put_class(alloc, b, KnownClass::Uid, Slot::Null)?;
    Ok(ListClasses { list, id, uid })
}

/// Puts a list of identifiers; a refusal may leave some of its nodes.
fn put_some_objids(alloc: Global, b: &mut Builder, ids: &[ObjId]) -> Result<Slot, BuildFault>
    ensures { Puts (16 + 2 * length ids.now) (λ nodes s. ObjIdsAt nodes ids.now s) b.old b.new
        result }
{
    let classes = put_classes(alloc, b)?;
    let objects = put_each(alloc, b, classes.id, classes.uid, ids)?;
    put_array(b, classes.list, Values::Refs(objects))
}

/// Puts an `ObjID[]`. TooManyNodes comes only where the loose nodes before, at most 16 and two for each identifier are more than
/// 65,536; else it is refused only for want of memory. After a refusal the builder is as it was.
pub fn put_objids(alloc: Global, b: &mut Builder, ids: &ObjIds) -> Result<Slot, BuildFault>
    ensures ok { IfOk result (λ slot. ObjIdsAt b.new ids.now slot) }
    ensures grown { OnOk result (Grows (16 + 2 * length ids.now) b.old b.new) }
    ensures viewed { IfOk result (λ slot. objids_at b.new slot ≡ Some ids.now) }
    ensures err { IfErr result (IsPutRefusal (16 + 2 * length ids.now) b.old) }
    ensures unchanged { OnErr result (b.new ≡ b.old) }
{
    let ids = ids.as_slice();
    let before = b.len();
    match put_some_objids(alloc, b, ids) {
        Ok(slot) => Ok(slot),
        Err(fault) => {
            b.truncate(before);
            Err(fault)
        }
    }
}
