//! The identifiers of the two objects that every server has of itself (Java RMI Specification, 6.1 and 9.1).
ghost use Rattle.std.specs.Prelude.{◌≡◌};
ghost use Rattle.object_ids.specs.Same.{same_id};
ghost use Rattle.system_ids.specs.SystemIds.{registry_id, is_system};

use object_ids::{ObjId, Uid};

/// The space of the objects that are known to all.
const KNOWN_SPACE: Uid = Uid {
    unique: 0,
    time: 0,
    count: 0,
};

/// The registry.
pub const REGISTRY_ID: ObjId = ObjId {
    number: 0,
    space: KNOWN_SPACE,
};

/// The collector.
pub const COLLECTOR_ID: ObjId = ObjId {
    number: 2,
    space: KNOWN_SPACE,
};

/// Returns whether two identifiers are the same.
fn same(id: ObjId, other: ObjId) -> bool
    ensures { result ≡ same_id id other }
{
    id.number == other.number
        && id.space.unique == other.space.unique
        && id.space.time == other.space.time
        && id.space.count == other.space.count
}

/// Returns whether an object is the registry.
pub fn is_registry(id: ObjId) -> bool
    ensures { result ≡ same_id id registry_id }
{
    same(id, REGISTRY_ID)
}

/// Returns whether an object is the registry or the collector.
pub fn is_system(id: ObjId) -> bool
    ensures { result ≡ is_system id }
{
    is_registry(id) || same(id, COLLECTOR_ID)
}
