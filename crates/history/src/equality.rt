//! Equality of identifiers, as the definitions test it.
ghost use Rattle.std.specs.Prelude.{◌≡◌};
ghost use Rattle.object_ids.specs.Same.{same_id, same_uid};

use object_ids::{ObjId, Uid};

/// Returns whether two identifiers are equal.
pub fn equal_uids(a: Uid, b: Uid) -> bool
    ensures { result ≡ same_uid a b }
{
    a.unique == b.unique && a.time == b.time && a.count == b.count
}

/// Returns whether two objects are equal.
pub fn equal_ids(a: ObjId, b: ObjId) -> bool
    ensures { result ≡ same_id a b }
{
    a.number == b.number && equal_uids(a.space, b.space)
}
