//! Spaces before a connection: of one object, and at their limits.
use crate::texts::{must, number_of};
use history::Name;
use object_ids::{ObjId, ObjIds, Uid, Vmid};
use sequence::{ByteList, Kinds, Units};
use space::{Ask, Space};
use std::alloc::Global;
use std::process::Abort;
pub(crate) use test_support::spaces::FIRST;
use test_support::spaces::{CONFIG, SPACE};

/// An object that is not exported.
const ABSENT: ObjId = ObjId {
    number: -1,
    space: SPACE,
};

/// The space of one object, which is pinned.
fn space_of_one(rt: &impl Abort, alloc: Global) -> Space {
    let mut space = Space::fresh(alloc, &CONFIG);
    open(rt, &mut space);
    space
}

/// The space that a text tells: `open` and `closed`, of one object; `exports`, `awaiting`, `clients`, `pairs` and `names`, in which that table is
/// full; or how many units its history has left.
pub(crate) fn space_of(rt: &impl Abort, alloc: Global, ground: &str) -> Space {
    let mut space = space_of_one(rt, alloc);
    match ground {
        "open" | "closed" => {}
        "exports" => answer_call(rt, alloc, &mut space, 65_535, 0, 0),
        "awaiting" => await_returns(rt, alloc, &mut space),
        "clients" => lease_clients(rt, alloc, &mut space),
        "pairs" => pair_clients(rt, alloc, &mut space),
        "names" => bind_names(rt, alloc, &mut space),
        left => fill(rt, alloc, &mut space, number_of(rt, left)),
    }
    space
}

/// A name of one unit.
fn name_of(rt: &impl Abort, alloc: Global, unit: u16) -> Name {
    let mut units = Units::new(alloc);
    must(rt, units.push(unit).is_ok(), "memory");
    Name::new(units).expect(rt, "a name")
}

/// Binds a name of one unit to the object.
fn bind(rt: &impl Abort, alloc: Global, space: &mut Space, unit: u16) {
    let name = name_of(rt, alloc, unit);
    let object = FIRST;
    let bound = space.turn(0, 0, Ask::Bind { name, object });
    must(rt, bound.is_ok(), "bound");
}

/// Binds 4,096 names.
fn bind_names(rt: &impl Abort, alloc: Global, space: &mut Space) {
    for unit in 256..4_352 {
        bind(rt, alloc, space, unit);
    }
}

/// So many identifiers of an object that is not exported.
fn ids_of(rt: &impl Abort, alloc: Global, count: u32) -> ObjIds {
    let mut objects = ObjIds::new(alloc);
    for _ in 0..count {
        must(rt, objects.push(ABSENT).is_ok(), "memory");
    }
    objects
}

/// A dirty of these objects by the client of this number.
fn dirty_of(rt: &impl Abort, alloc: Global, client: i32, objects: &ObjIds) -> Ask {
    let uid = uid_with(client);
    Ask::Dirty {
        client: Vmid::new(ByteList::new(alloc), uid).expect(rt, "a client"),
        number: 1,
        asked: 600_000,
        objects: objects.copy(alloc).expect(rt, "memory"),
    }
}

/// Makes a dirty of these objects, which takes a unit more than there are of them.
fn dirty(rt: &impl Abort, alloc: Global, space: &mut Space, client: i32, objects: &ObjIds) {
    let made = space.turn(0, 0, dirty_of(rt, alloc, client, objects));
    must(rt, made.is_ok(), "dirty");
}

/// Fills the history of a space of one event until so many of its 4,194,304 units are left.
fn fill(rt: &impl Abort, alloc: Global, space: &mut Space, left: u32) {
    let objects = ids_of(rt, alloc, 65_536);
    for _ in 0..63 {
        dirty(rt, alloc, space, 7, &objects);
    }
    let objects = ids_of(rt, alloc, 65_471_u32.saturating_sub(left));
    dirty(rt, alloc, space, 7, &objects);
}

/// An identifier of this number, of a client or of a return.
fn uid_with(unique: i32) -> Uid {
    Uid {
        unique,
        time: 9,
        count: 0,
    }
}

/// Opens a pinned object.
fn open(rt: &impl Abort, space: &mut Space) {
    let pinned = true;
    let opened = space.turn(0, 0, Ask::Open { kind: 0, pinned });
    must(rt, opened.is_ok(), "opened");
}

/// The end of a call of the object with so many new objects, which lists the object so many times.
fn finish_of(rt: &impl Abort, alloc: Global, made: u32, listed: u32, unique: i32) -> Ask {
    let made = vec![in alloc; 0; made as usize].expect(rt, "memory");
    let listed = vec![in alloc; FIRST; listed as usize].expect(rt, "memory");
    Ask::Finish {
        object: FIRST,
        made: Kinds::from_vec(made),
        listed: ObjIds::from_vec(listed),
        uid: uid_with(unique),
    }
}

/// A call of the object, whose return of this number has so many new objects and lists the object so many times.
fn answer_call(
    rt: &impl Abort,
    alloc: Global,
    space: &mut Space,
    made: u32,
    listed: u32,
    unique: i32,
) {
    let begun = space.turn(0, 0, Ask::Begin { object: FIRST });
    must(rt, begun.is_ok(), "begun");
    let finished = space.turn(0, 0, finish_of(rt, alloc, made, listed, unique));
    must(rt, finished.is_ok(), "finished");
}

/// Has 65,536 references await, the last two to the object, which has the name `a`; one more object could be exported.
fn await_returns(rt: &impl Abort, alloc: Global, space: &mut Space) {
    bind(rt, alloc, space, 0x61);
    answer_call(rt, alloc, space, 65_534, 1, 0);
    answer_call(rt, alloc, space, 0, 1, 1);
}

/// Has 65,536 clients have time left.
fn lease_clients(rt: &impl Abort, alloc: Global, space: &mut Space) {
    let objects = ObjIds::new(alloc);
    for client in 0..65_536 {
        dirty(rt, alloc, space, client, &objects);
    }
}

/// Has 512 clients hold 512 objects each: 262,144 pairs.
fn pair_clients(rt: &impl Abort, alloc: Global, space: &mut Space) {
    let mut objects = ObjIds::new(alloc);
    for number in 16..528 {
        let object = ObjId {
            number,
            space: SPACE,
        };
        must(rt, objects.push(object).is_ok(), "memory");
    }
    for _ in 1..512 {
        open(rt, space);
    }
    for client in 0..512 {
        dirty(rt, alloc, space, client, &objects);
    }
}
