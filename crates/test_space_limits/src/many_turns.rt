//! Many turns: time passes, a client renews its lease and a call runs 50,000 times, while 65,536 objects are exported.
ghost use Rattle.std.specs.Prelude.{◌<◌};
ghost use Rattle.history.specs.declared.limits.TheConstants.{END_OF_TIME};

use crate::{first_objects, numbered, object, open, outlined};
use history::{Ask, Refused};
use object_ids::{ObjIds, Vmid};
use sequence::{ByteList, Kinds};
use space::Space;
use std::alloc::{AllocError, Global};
use std::io::Write;
use std::{io, str};

/// The number of objects.
const OBJECTS: u32 = 65_536;

/// The number of rounds of four turns.
const ROUNDS: u32 = 50_000;

/// Makes a turn, whose answer counts for nothing unless it is refused.
fn take(space: &mut Space, moment: u64, ask: Ask) -> Result<(), Refused>
    requires { moment < END_OF_TIME }
{
    let _turn = space.turn(1, moment, ask)?;
    Ok(())
}

/// A return of the first object's call with so many new objects.
fn finish(alloc: Global, made: u32) -> Result<Ask, AllocError> {
    let made = vec![in alloc; 1; made as usize]?;
    Ok(Ask::Finish {
        object: object(0),
        made: Kinds::from_vec(made),
        listed: ObjIds::new(alloc),
        uid: numbered(1),
    })
}

/// A dirty call of the one client.
fn dirty(alloc: Global, number: i64, objects: ObjIds) -> Ask {
    let client = Vmid::new(ByteList::new(alloc), numbered(1)).unwrap();
    Ask::Dirty {
        client,
        number,
        asked: 600_000,
        objects,
    }
}

/// The client's dirty call of the k-th round, from 0, which names the k-th object.
fn renewal(alloc: Global, k: u32) -> Result<Ask, AllocError> {
    let mut objects = ObjIds::new(alloc);
    objects.push(object(k))?;
    Ok(dirty(alloc, 1 + i64::from(k), objects))
}

/// Has the objects made, held by one client and acknowledged.
fn fill(alloc: Global, space: &mut Space) -> Result<(), Refused> {
    open(space)?;
    take(space, 0, Ask::Begin { object: object(0) })?;
    take(space, 0, finish(alloc, OBJECTS - 1)?)?;
    let objects = first_objects(alloc, OBJECTS)?;
    take(space, 0, dirty(alloc, 0, objects))?;
    let uid = numbered(1);
    take(space, 0, Ask::Ack { uid })
}

/// Notes that time has passed, has the client name an object, and runs a call: four turns.
fn round(alloc: Global, space: &mut Space, k: u32) -> Result<(), Refused> {
    let moment = u64::from(k);
    take(space, moment, Ask::Tick)?;
    take(space, moment, renewal(alloc, k)?)?;
    take(space, moment, Ask::Begin { object: object(0) })?;
    take(space, moment, finish(alloc, 0)?)
}

/// Fills a space without events, and makes the rounds.
fn pass(alloc: Global, space: &mut Space) -> Result<(), Refused> {
    fill(alloc, space)?;
    for k in 0..ROUNDS {
        round(alloc, space, k)?;
    }
    Ok(())
}

/// Prints the first line of an outline, how many objects have one holder, no running call and nothing that awaits, and how many lines are
/// neither of these nor leases.
fn tell<W: Write>(out: &mut W, text: &str) -> io::Result<()> {
    let mut held: u64 = 0;
    let mut others: u64 = 0;
    for line in text.split('\n').skip(1) {
        if line.starts_with("object ") && line.ends_with(" running 0 awaiting 0 held 1 names 0") {
            held = held.saturating_add(1);
        } else if !line.starts_with("lease ") && !line.is_empty() {
            others = others.saturating_add(1);
        }
    }
    if let Some((first, _rest)) = text.split_once('\n') {
        writeln!(out, "{first}")?;
    }
    writeln!(out, "objects with 1 holder: {held}, other lines: {others}")
}

/// Makes many turns in a space, and prints what it is then.
pub(crate) fn many_turns<W: Write>(
    alloc: Global,
    out: &mut W,
    space: &mut Space,
) -> io::Result<()> {
    if let Err(refused) = pass(alloc, space) {
        return writeln!(out, "many turns {refused:?}");
    }
    let text = outlined(alloc, space)?;
    match str::from_utf8(text.as_slice()) {
        Ok(text) => tell(out, text),
        Err(_) => writeln!(out, "no text"),
    }
}
