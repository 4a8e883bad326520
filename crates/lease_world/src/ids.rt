//! The identifiers of a world.
ghost use Rattle.std.specs.Prelude.{◌≡◌, ◌≤◌, ◌<◌, ◌^◌, MatchOption, IfOk};
ghost use Rattle.lease_world.specs.World.{uid, object, client};

use object_ids::{ObjId, Uid, Vmid};
use sequence::ByteList;
use std::alloc::{AllocError, Global};

/// The identifier 0/N/0. It is None exactly where N is 2^63 or above.
pub(crate) fn uid_of(number: u64) -> Option<Uid>
    ensures { MatchOption result (2 ^ 63 ≤ number) (λ u. (u ≡ uid number) × (number < 2 ^ 63)) }
{
    match i64::try_from(number) {
        Ok(time) => Some(Uid {
            unique: 0,
            time,
            count: 0,
        }),
        Err(_) => None,
    }
}

/// The object of a number at the server.
pub(crate) fn object_of(number: i64) -> ObjId
    ensures { result ≡ object number }
{
    ObjId {
        number,
        space: Uid {
            unique: 0,
            time: 0,
            count: 0,
        },
    }
}

/// The client of a number.
pub(crate) fn client_of(alloc: Global, number: u8) -> Result<Vmid, AllocError>
    ensures { IfOk result (λ vmid. vmid ≡ client number) }
{
    let addr = ByteList::from_slice(alloc, &[number])?;
    let uid = Uid {
        unique: 0,
        time: 0,
        count: 0,
    };
    match Vmid::new(addr, uid) {
        Some(vmid) => Ok(vmid),
        None => unreachable!(),
    }
}
