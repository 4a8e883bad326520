//! Many pairs: four clients hold 65,536 objects each, while time passes a thousand times.
use crate::outlined;
use history::{Ask, Refused};
use object_ids::{ObjId, ObjIds, Uid, Vmid};
use sequence::{ByteList, Kinds};
use space::Space;
use std::alloc::Global;
use std::io::Write;
use std::{io, str};
use test_support::spaces::{CONFIG, SPACE};

/// The number of objects.
const OBJECTS: u32 = 65_536;

/// The identifier of the return that has the new objects.
const RETURNED: Uid = Uid {
    unique: 1,
    time: 0,
    count: 0,
};

/// The k-th object, from 0.
fn object(k: u32) -> ObjId {
    ObjId {
        number: 16 + i64::from(k),
        space: SPACE,
    }
}

/// Makes a turn, whose answer counts for nothing unless it is refused.
fn take(space: &mut Space, ask: Ask) -> Result<(), Refused> {
    let _turn = space.turn(1, 0, ask)?;
    Ok(())
}

/// The return of the first object's call with all objects but that one.
fn finish(alloc: Global) -> Result<Ask, Refused> {
    match vec![in alloc; 1; (OBJECTS - 1) as usize] {
        Ok(made) => Ok(Ask::Finish {
            object: object(0),
            made: Kinds::from_vec(made),
            listed: ObjIds::new(alloc),
            uid: RETURNED,
        }),
        Err(_) => Err(Refused::OutOfMemory),
    }
}

/// A dirty call of a client that names so many objects, from the first on.
fn dirty(alloc: Global, client: u8, count: u32) -> Result<Ask, Refused> {
    let mut objects = ObjIds::new(alloc);
    let mut addr = ByteList::new(alloc);
    if addr.push(client).is_err() {
        return Err(Refused::OutOfMemory);
    }
    for k in 0..count {
        if objects.push(object(k)).is_err() {
            return Err(Refused::OutOfMemory);
        }
    }
    match Vmid::new(addr, RETURNED) {
        Some(client) => Ok(Ask::Dirty {
            client,
            number: 1,
            asked: 600_000,
            objects,
        }),
        None => Err(Refused::OutOfMemory),
    }
}

/// Has the objects made, held by four clients each and acknowledged, and makes 1,000 Ticks.
fn fill(alloc: Global, space: &mut Space) -> Result<(), Refused> {
    let pinned = true;
    take(space, Ask::Open { kind: 2, pinned })?;
    take(space, Ask::Begin { object: object(0) })?;
    take(space, finish(alloc)?)?;
    for client in 0..4 {
        take(space, dirty(alloc, client, OBJECTS)?)?;
    }
    take(space, Ask::Ack { uid: RETURNED })?;
    for _ in 0..1_000 {
        take(space, Ask::Tick)?;
    }
    Ok(())
}

/// Prints the first line of an outline, how many objects have four holders, no name and nothing that awaits, and how many lines are neither of
/// these nor leases.
fn show<W: Write>(out: &mut W, text: &str) -> io::Result<()> {
    let mut held: u64 = 0;
    let mut others: u64 = 0;
    for line in text.split('\n').skip(1) {
        if line.starts_with("object ") && line.ends_with(" awaiting 0 held 4 names 0") {
            held = held.saturating_add(1);
        } else if !line.starts_with("lease ") && !line.is_empty() {
            others = others.saturating_add(1);
        }
    }
    if let Some((first, _rest)) = text.split_once('\n') {
        writeln!(out, "{first}")?;
    }
    writeln!(out, "objects with 4 holders: {held}, other lines: {others}")
}

/// Prints the outline's counts, and what a fifth client's dirty is answered.
fn tell<W: Write>(alloc: Global, out: &mut W, space: &mut Space) -> io::Result<()> {
    let text = outlined(alloc, space)?;
    match str::from_utf8(text.as_slice()) {
        Ok(text) => show(out, text)?,
        Err(_) => writeln!(out, "no text")?,
    }
    let refused = match dirty(alloc, 4, 1) {
        Ok(ask) => space.turn(1, 0, ask).err(),
        Err(refused) => Some(refused),
    };
    writeln!(out, "Pairs 262145 {refused:?}")
}

/// Fills a space, and prints what it is then.
pub(crate) fn many_pairs<W: Write>(alloc: Global, out: &mut W) -> io::Result<()> {
    let mut space = Space::fresh(alloc, &CONFIG);
    match fill(alloc, &mut space) {
        Ok(()) => tell(alloc, out, &mut space),
        Err(refused) => writeln!(out, "many pairs {refused:?}"),
    }
}
