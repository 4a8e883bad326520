//! The space of the sample.
ghost use Rattle.std.specs.Prelude.{◌≡◌, ◌≤◌, ◌++◌, ◌∷◌, [], None, length, IfOk, IfErr, OnOk};
ghost use Rattle.history.specs.declared.replies.Refused.TheVariants.{OutOfMemory};
ghost use Rattle.history.specs.Limits.{limits, refusal};
ghost use Rattle.history.specs.Table.{places};
ghost use Rattle.history.specs.declared.limits.TheConstants.{MAX_DURATION_MS, MAX_NAME_UNITS};
ghost use Rattle.space.specs.Built.{open_event, space_of};
ghost use Rattle.sample_app.specs.Opened.{bind_event, sample_events};

use history::{Ask, Name, Refused, SpaceConfig};
use mod_utf::utf::units_of_ascii;
use object_ids::ObjId;
use space::Space;
use std::alloc::{AllocError, Global};

/// A space that has one object of each sample kind, opened by connection 0 at the moment 0 and pinned, with a name bound to it:
///
/// | object | kind | name |
/// |---|---|---|
/// | 16 | 0 | `echo` |
/// | 17 | 1 | `counter` |
/// | 18 | 2 | `maker` |
///
/// It is refused only for want of memory.
pub fn sample_space(alloc: Global, config: &SpaceConfig) -> Result<Space, Refused>
    requires some_lease { 1 ≤ config.now.lease_ms }
    requires short_lease { config.now.lease_ms ≤ MAX_DURATION_MS }
    requires some_ack { 1 ≤ config.now.ack_ms }
    requires short_ack { config.now.ack_ms ≤ MAX_DURATION_MS }
    ensures ok { IfOk result (λ space. space ≡ space_of config.now (sample_events config.now)) }
    ensures err { IfErr result (λ refused. refused ≡ OutOfMemory) }
{
    let mut space = Space::fresh(alloc, config);
    match furnish(alloc, &mut space, config) {
        Ok(()) => Ok(space),
        Err(refused) => Err(refused),
    }
}

/// Opens the sample's objects in a space without events, and binds their names. It is refused only for want of memory.
fn furnish(alloc: Global, space: &mut Space, config: &SpaceConfig) -> Result<(), Refused>
    requires fresh { space.old ≡ record { configuration = config.now; events = []; rows = [] } }
    ensures ok { OnOk result (space.new ≡ space_of config.now (sample_events config.now)) }
    ensures err { IfErr result (λ refused. refused ≡ OutOfMemory) }
{
    open(space, 0)?;
    open(space, 1)?;
    open(space, 2)?;
    bind(alloc, space, config, b"echo", 16)?;
    bind(alloc, space, config, b"counter", 17)?;
    bind(alloc, space, config, b"maker", 18)
}

/// Opens an object of a kind, which is kept for good. It is refused only for want of memory, where no limit is met.
fn open(space: &mut Space, kind: u32) -> Result<(), Refused>
    requires free { refusal (limits space.old.configuration) space.old.configuration
        (places space.old.configuration space.old.events) (open_event kind) ≡ None }
    ensures ok { OnOk result
        (space.new ≡ space_of space.old.configuration (space.old.events ++ open_event kind ∷ [])) }
    ensures err { IfErr result (λ refused. refused ≡ OutOfMemory) }
{
    let ask = Ask::Open { kind, pinned: true };
    let answer = space.turn(0, 0, ask);
    match answer {
        Ok(_turn) => {
            let _len = space.len();
            Ok(())
        }
        Err(refused) => Err(refused),
    }
}

/// A name of at most 255 characters in ASCII.
fn name_of(alloc: Global, name: &[u8]) -> Result<Name, AllocError>
    requires { length name.now ≤ MAX_NAME_UNITS }
    ensures { IfOk result (λ named. named ≡ name.now) }
{
    match Name::new(units_of_ascii(alloc, name)?) {
        Ok(named) => Ok(named),
        Err(_too_long) => unreachable!(),
    }
}

/// Returns the request that binds a name to the object of the space with this number.
fn bind_request(
    alloc: Global,
    config: &SpaceConfig,
    name: &[u8],
    number: i64,
) -> Result<Ask, AllocError>
    requires { length name.now ≤ MAX_NAME_UNITS }
    ensures { IfOk result (λ ask. ask ≡ (bind_event config.now name.now number).ask) }
{
    Ok(Ask::Bind {
        name: name_of(alloc, name)?,
        object: ObjId {
            number,
            space: config.uid,
        },
    })
}

/// Binds a name to the object with this number. It is refused only for want of memory, where no limit is met.
fn bind(
    alloc: Global,
    space: &mut Space,
    config: &SpaceConfig,
    name: &[u8],
    number: i64,
) -> Result<(), Refused>
    requires short { length name.now ≤ MAX_NAME_UNITS }
    requires free { refusal (limits space.old.configuration) space.old.configuration
        (places space.old.configuration space.old.events) (bind_event config.now name.now number)
        ≡ None }
    ensures ok { OnOk result
        (space.new
        ≡ space_of space.old.configuration
        (space.old.events ++ bind_event config.now name.now number ∷ [])) }
    ensures err { IfErr result (λ refused. refused ≡ OutOfMemory) }
{
    let ask = bind_request(alloc, config, name, number)?;
    let answer = space.turn(0, 0, ask);
    match answer {
        Ok(_turn) => {
            let _len = space.len();
            Ok(())
        }
        Err(refused) => Err(refused),
    }
}
