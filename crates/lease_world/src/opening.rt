//! The beginning of a world.
ghost use Rattle.std.specs.Prelude.{◌≡◌, ◌≤◌, ◌∷◌, [], ℕ, pos, length, Some, IfOk, IfErr, OnOk};
ghost use Rattle.dgc_client.specs.StandsForLog.{StandsFor};
ghost use Rattle.history.specs.Table.{places, table};
ghost use Rattle.history.specs.declared.limits.TheConstants.{MAX_DURATION_MS};
ghost use Rattle.lease_world.specs.World.{config_of, client, nth, first_events};
ghost use Rattle.lease_world.specs.declared.fault.WorldFault.TheVariants.{OutOfMemory};
ghost use Rattle.lease_world.specs.declared.member.Member.{Member};
ghost use Rattle.lease_world.specs.Stands.{AreFresh};

use crate::fault::WorldFault;
use crate::ids::client_of;
use crate::member::Member;
use dgc_client::ClientTable;
use history::{Ask, SpaceConfig};
use object_ids::Uid;
use space::Space;
use std::alloc::{AllocError, Global};

/// The configuration of the server's space.
fn config_of(lease_ms: u64, ack_ms: u64) -> SpaceConfig
    ensures { result ≡ config_of lease_ms ack_ms }
{
    SpaceConfig {
        lease_ms,
        ack_ms,
        uid: Uid {
            unique: 0,
            time: 0,
            count: 0,
        },
        stored: true,
    }
}

/// The server's space, which has exported the object whose calls make the others. It is refused only for want of memory.
pub(crate) fn open_space(alloc: Global, lease_ms: u64, ack_ms: u64) -> Result<Space, WorldFault>
    requires some_lease { 1 ≤ lease_ms }
    requires short_lease { lease_ms ≤ MAX_DURATION_MS }
    requires some_ack { 1 ≤ ack_ms }
    requires short_ack { ack_ms ≤ MAX_DURATION_MS }
    ensures config { IfOk result (λ space. space.configuration ≡ config_of lease_ms ack_ms) }
    ensures events { IfOk result (λ space. space.events ≡ first_events) }
    ensures rows { IfOk result (λ space.
        space.rows ≡ table space.configuration (places space.configuration space.events)) }
    ensures err { IfErr result (λ fault. fault ≡ OutOfMemory) }
{
    let mut space = Space::fresh(alloc, &config_of(lease_ms, ack_ms));
    let ask = Ask::Open {
        kind: 2,
        pinned: true,
    };
    let _turn = space.turn(0, 0, ask)?;
    let _count = space.len();
    Ok(space)
}

/// So many clients without references, which ask for the configured lease.
pub(crate) fn members_of(
    alloc: Global,
    lease_ms: u64,
    clients: u8,
) -> Result<Vec<Member>, AllocError>
    requires { lease_ms ≤ MAX_DURATION_MS }
    ensures { IfOk result (λ members. AreFresh lease_ms clients members.items) }
{
    let mut members = Vec::new(alloc);
    for number in 0..clients {
        let table = ClientTable::new(alloc, client_of(alloc, number)?, 0);
        members.push(Member {
            asked: lease_ms as i64,
            table,
        })?;
    }
    Ok(members)
}
