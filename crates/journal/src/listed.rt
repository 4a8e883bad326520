//! Writing lists. After a refusal, which comes only for want of memory, a front of the text stands appended.
ghost use Rattle.std.specs.Prelude.{◌≡◌, ◌++◌, decimal, flat_map, OnOk, OnErr};
ghost use Rattle.journal.specs.Putting.{AppendsFront};
ghost use Rattle.journal.specs.Written.{list_text, objects_text, further_kind, further_object, IsObject, AreKinds, AreObjects};

use crate::put::{put_decimal, put_object};
use object_ids::{ObjId, Uid};
use sequence::ByteList;
use std::alloc::AllocError;

/// The byte between two items of a list.
const SEPARATOR: u8 = b',';

/// Appends kinds, joined by commas, or `-` where there are none.
pub(crate) fn put_kinds(out: &mut ByteList, kinds: &[u32]) -> Result<(), AllocError>
    ensures ok { OnOk result (out.new ≡ out.old ++ list_text decimal kinds.now) }
    ensures err { OnErr result (AppendsFront out.old (list_text decimal kinds.now) out.new) }
    ensures fits { OnOk result (AreKinds kinds.now) }
{
    let Some((first, others)) = kinds.split_first() else {
        return out.push(b'-');
    };
    put_decimal(out, u64::from(*first))?;
    put_further_kinds(out, others)
}

/// Appends kinds, each after a comma.
fn put_further_kinds(out: &mut ByteList, kinds: &[u32]) -> Result<(), AllocError>
    ensures ok { OnOk result (out.new ≡ out.old ++ flat_map further_kind kinds.now) }
    ensures err { OnErr result (AppendsFront out.old (flat_map further_kind kinds.now) out.new) }
    ensures fits { OnOk result (AreKinds kinds.now) }
{
    for kind in kinds {
        put_further_kind(out, *kind)?;
    }
    Ok(())
}

/// Appends a kind after a comma.
fn put_further_kind(out: &mut ByteList, kind: u32) -> Result<(), AllocError>
    ensures ok { OnOk result (out.new ≡ out.old ++ further_kind kind) }
    ensures err { OnErr result (AppendsFront out.old (further_kind kind) out.new) }
{
    out.push(SEPARATOR)?;
    put_decimal(out, u64::from(kind))
}

/// Appends objects, joined by commas, or `-` where there are none.
pub(crate) fn put_objects(
    out: &mut ByteList,
    space: Uid,
    objects: &[ObjId],
) -> Result<(), AllocError>
    ensures ok { OnOk result (out.new ≡ out.old ++ objects_text space objects.now) }
    ensures err { OnErr result (AppendsFront out.old (objects_text space objects.now) out.new) }
    ensures fits { OnOk result (AreObjects objects.now) }
{
    let Some((first, others)) = objects.split_first() else {
        return out.push(b'-');
    };
    put_object(out, space, *first)?;
    put_further_objects(out, space, others)
}

/// Appends objects, each after a comma.
fn put_further_objects(out: &mut ByteList, space: Uid, objects: &[ObjId]) -> Result<(), AllocError>
    ensures ok { OnOk result (out.new ≡ out.old ++ flat_map (further_object space) objects.now) }
    ensures err { OnErr result
        (AppendsFront out.old (flat_map (further_object space) objects.now) out.new) }
    ensures fits { OnOk result (AreObjects objects.now) }
{
    for object in objects {
        put_further_object(out, space, *object)?;
    }
    Ok(())
}

/// Appends an object after a comma.
fn put_further_object(out: &mut ByteList, space: Uid, object: ObjId) -> Result<(), AllocError>
    ensures ok { OnOk result (out.new ≡ out.old ++ further_object space object) }
    ensures err { OnErr result (AppendsFront out.old (further_object space object) out.new) }
    ensures fits { OnOk result (IsObject object) }
{
    out.push(SEPARATOR)?;
    put_object(out, space, object)
}
