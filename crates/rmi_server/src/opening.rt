//! The space in which a server's first objects are exported.
ghost use Rattle.std.specs.Prelude.{◌≡◌, ◌≤◌, ◌++◌, ◌∷◌, [], length, IfOk, IfErr, OnOk};
ghost use Rattle.history.specs.declared.limits.TheConstants.{MAX_NAME_UNITS};
ghost use Rattle.space.specs.Built.{open_event};
ghost use Rattle.rmi_server.specs.Begun.{IsBegun, OpensFurther, RefusesFurther};
ghost use Rattle.rmi_server.specs.Opens.{bind_event, next_object};
ghost use Rattle.rmi_server.specs.SiteFaults.{
  AreSoundNames,
  IsBound,
  RefusesBind,
  RefusesEvent,
  RefusesName,
  RefusesNames,
  RefusesSite,
};
ghost use Rattle.rmi_server.specs.Served.{IsOpening};

use crate::serving::ServeFault;
use crate::site::{Named, Site};
use history::{Ask, Name, Reply};
use mod_utf::utf::units_of_ascii;
use object_ids::ObjId;
use space::Space;
use std::alloc::Global;

/// Exports a new object of a kind for good. Connection 0 is the server's own.
fn open(space: &mut Space, kind: u32) -> Result<ObjId, ServeFault>
    ensures opens { OnOk result (space.new.events ≡ space.old.events ++ open_event kind ∷ []) }
    ensures object { IfOk result (λ object. object ≡ next_object space.old) }
    ensures config { space.new.configuration ≡ space.old.configuration }
    ensures causes { IfErr result (RefusesEvent space.old (open_event kind)) }
{
    let ask = Ask::Open { kind, pinned: true };
    match space.turn(0, 0, ask) {
        Ok(turn) => match turn.reply {
            Reply::Opened(object) => Ok(object),
            _ => unreachable!(),
        },
        Err(refused) => Err(ServeFault::from(refused)),
    }
}

/// A name of at most 255 characters, in ASCII. NameTooLong comes where it has more.
fn name_of(alloc: Global, name: &str) -> Result<Name, ServeFault>
    ensures ok { IfOk result (λ named. named ≡ name.now) }
    ensures short { OnOk result (length name.now ≤ MAX_NAME_UNITS) }
    ensures causes { IfErr result (RefusesName name.now) }
{
    match Name::new(units_of_ascii(alloc, name.as_bytes())?) {
        Ok(named) => Ok(named),
        Err(_too_long) => Err(ServeFault::NameTooLong),
    }
}

/// Binds a name to an object. NameTooLong comes where the name has more than 255 characters, and NameTaken where the binding has no effect.
fn bind(alloc: Global, space: &mut Space, name: &str, object: ObjId) -> Result<(), ServeFault>
    ensures binds { OnOk result
        (space.new.events ≡ space.old.events ++ bind_event name.now object ∷ []) }
    ensures bound { OnOk result (IsBound space.old name.now object) }
    ensures config { space.new.configuration ≡ space.old.configuration }
    ensures causes { IfErr result (RefusesBind space.old name.now object) }
{
    let ask = Ask::Bind {
        name: name_of(alloc, name)?,
        object,
    };
    match space.turn(0, 0, ask) {
        Ok(turn) => match turn.reply {
            Reply::Bound => Ok(()),
            _ => Err(ServeFault::NameTaken),
        },
        Err(refused) => Err(ServeFault::from(refused)),
    }
}

/// Exports an object that is there from the start, and binds its name.
fn add(alloc: Global, space: &mut Space, named: &Named<'_>) -> Result<(), ServeFault>
    ensures opens { OnOk result (OpensFurther space.old named.now space.new) }
    ensures config { space.new.configuration ≡ space.old.configuration }
    ensures causes { IfErr result (RefusesFurther space.old named.now) }
{
    match open(space, named.kind) {
        Ok(object) => bind(alloc, space, named.name, object),
        Err(fault) => Err(fault),
    }
}

/// Exports the objects that are there from the start, and binds their names.
fn furnish(alloc: Global, space: &mut Space, names: &[Named<'_>]) -> Result<(), ServeFault>
    requires { space.old.events ≡ [] }
    ensures opens { OnOk result (IsBegun space.old.configuration names.now space.new.events) }
    ensures config { space.new.configuration ≡ space.old.configuration }
    ensures causes { IfErr result (RefusesNames names.now) }
{
    for named in names {
        add(alloc, space, named)?;
    }
    Ok(())
}

/// Returns the space with the objects of a site, under their names. `stored` says whether it keeps all that happens.
pub(crate) fn opened_space(
    alloc: Global,
    site: &Site<'_>,
    stored: bool,
) -> Result<Space, ServeFault>
    ensures opens { IfOk result (IsOpening site.now stored) }
    ensures names { OnOk result (AreSoundNames site.now.names.now) }
    ensures causes { IfErr result (RefusesSite site.now) }
{
    let mut space = Space::fresh(alloc, &site.config(stored));
    match furnish(alloc, &mut space, site.names) {
        Ok(()) => Ok(space),
        Err(fault) => Err(fault),
    }
}
