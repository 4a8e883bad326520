//! Names to their limit, and references that await by lookups of a name.
use crate::{numbered, object, open, show, turn};
use history::{Ask, Name, Refused};
use sequence::Units;
use space::Space;
use std::alloc::Global;
use std::io;
use std::io::Write;

/// The name of one unit.
fn name(alloc: Global, unit: u16) -> Result<Name, Refused> {
    let mut units = Units::new(alloc);
    if units.push(unit).is_err() {
        return Err(Refused::OutOfMemory);
    }
    match Name::new(units) {
        Ok(name) => Ok(name),
        Err(_too_long) => Err(Refused::OutOfMemory),
    }
}

/// Binds a name that stands for nothing to the first object.
fn bind(alloc: Global, space: &mut Space, unit: u16) -> Result<(), Refused> {
    let name = name(alloc, unit)?;
    let object = object(0);
    turn(space, 4, Ask::Bind { name, object })
}

/// Binds a name to the first object, whatever it stood for.
fn rebind(alloc: Global, space: &mut Space, unit: u16) -> Result<(), Refused> {
    let name = name(alloc, unit)?;
    let object = object(0);
    turn(space, 4, Ask::Rebind { name, object })
}

/// Unbinds a name.
fn unbind(alloc: Global, space: &mut Space, unit: u16) -> Result<(), Refused> {
    let name = name(alloc, unit)?;
    turn(space, 4, Ask::Unbind { name })
}

/// Looks a name up, in a return of this number.
fn look_up(alloc: Global, space: &mut Space, unit: u16, unique: i32) -> Result<(), Refused> {
    let name = name(alloc, unit)?;
    let uid = numbered(unique);
    turn(space, 4, Ask::Lookup { name, uid })
}

/// Acknowledges the return of this number.
fn acknowledge(space: &mut Space, unique: i32) -> Result<(), Refused> {
    let uid = numbered(unique);
    turn(space, 4, Ask::Ack { uid })
}

/// Opens a pinned object in a space without events, and binds 4,095 names to it.
pub(crate) fn nearly_name(alloc: Global, space: &mut Space) -> Result<(), Refused> {
    open(space)?;
    for unit in 0..4_095 {
        bind(alloc, space, unit)?;
    }
    Ok(())
}

/// The last name, one more of a Bind and of a Rebind, one that is bound, and one in another's place.
pub(crate) fn names<W: Write>(alloc: Global, out: &mut W, space: &mut Space) -> io::Result<()> {
    show(out, "Names 4096", bind(alloc, space, 4_095))?;
    show(out, "Names 4097", bind(alloc, space, 4_096))?;
    show(out, "Names 4097", rebind(alloc, space, 4_096))?;
    show(out, "Names 4096", rebind(alloc, space, 0))?;
    show(out, "Names 4095", unbind(alloc, space, 0))?;
    show(out, "Names 4096", bind(alloc, space, 4_096))?;
    show(out, "Names 4097", bind(alloc, space, 0))
}

/// Binds a name to a pinned object in a space without events, and looks it up in 65,535 returns.
pub(crate) fn nearly_look_up(alloc: Global, space: &mut Space) -> Result<(), Refused> {
    open(space)?;
    bind(alloc, space, 0)?;
    for unique in 0..65_535 {
        look_up(alloc, space, 0, unique)?;
    }
    Ok(())
}

/// The last reference that awaits, one more, one that awaits already, a name that stands for nothing, and one in another's place.
pub(crate) fn lookups<W: Write>(alloc: Global, out: &mut W, space: &mut Space) -> io::Result<()> {
    show(out, "Awaiting 65536", look_up(alloc, space, 0, 65_535))?;
    show(out, "Awaiting 65537", look_up(alloc, space, 0, 65_536))?;
    show(out, "Awaiting 65536", look_up(alloc, space, 0, 0))?;
    show(out, "Awaiting 65536", look_up(alloc, space, 1, 65_536))?;
    show(out, "Awaiting 65535", acknowledge(space, 0))?;
    show(out, "Awaiting 65536", look_up(alloc, space, 0, 65_536))?;
    show(out, "Awaiting 65537", look_up(alloc, space, 0, 0))
}
