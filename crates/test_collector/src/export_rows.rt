//! Export tables: what keeps an object, and when it is withdrawn.
ghost use Rattle.std.specs.Prelude.{◌<◌};
ghost use Rattle.history.specs.declared.limits.TheConstants.{END_OF_TIME};

use crate::scripts::{MEMORY, must};
use dgc_server::Leases;
use export_table::{ExportFault, Exports};
use object_ids::{ObjId, ObjIds, Uid, Vmid};
use sequence::ByteList;
use std::alloc::{AllocError, Global};
use std::process::Abort;

const SPACE: Uid = Uid {
    unique: 7,
    time: 11,
    count: 0,
};

const RETURN: Uid = Uid {
    unique: 7,
    time: 11,
    count: 1,
};

fn numbered(number: i64) -> ObjId {
    ObjId {
        number,
        space: SPACE,
    }
}

/// Returns the number of objects that a withdrawal at a moment takes away.
fn withdrawn(
    alloc: Global,
    exports: &mut Exports,
    leases: &mut Leases,
    now: u64,
) -> Result<usize, AllocError> {
    let mut gone = Vec::with_capacity(alloc, exports.count() as usize)?;
    exports.withdraw(now, leases, &mut gone);
    Ok(gone.len())
}

/// Lists an object in a return, if it is exported.
fn list(exports: &mut Exports, id: ObjId, uid: Uid, now: u64) -> Result<(), ExportFault>
    requires { now < END_OF_TIME }
{
    match exports.find(id) {
        Some(_kind) => exports.wait_for(id, uid, now),
        None => Ok(()),
    }
}

/// A table of the objects with the numbers from 16 on, of which the first is pinned.
fn exported(rt: &impl Abort, alloc: Global) -> Result<Exports, ExportFault> {
    let mut exports = Exports::fresh(alloc, SPACE, 100);
    exports.reserve(4, 3).expect(rt, MEMORY);
    exports.add(5, true)?;
    exports.add(5, false)?;
    exports.add(5, false)?;
    exports.add(6, false)?;
    Ok(exports)
}

/// A table of leases by which a client holds the second of them from 10 to 110.
fn leased(rt: &impl Abort, alloc: Global) -> Leases {
    let mut leases = Leases::fresh(alloc, 100);
    let client = Vmid::new(ByteList::new(alloc), RETURN).expect(rt, "a client");
    let held = ObjIds::from_slice(alloc, &[numbered(17)]).expect(rt, MEMORY);
    must(
        rt,
        leases.dirty(&client, 1, 100, &held, 10).is_ok(),
        "granted",
    );
    leases
}

/// A moment, how many references await then, how many objects are withdrawn, and how many are left.
const MOMENTS: [(u64, u32, usize, usize); 4] = [
    (109, 2, 0, 4),
    (110, 1, 2, 2),
    (119, 1, 0, 2),
    (120, 0, 1, 1),
];

/// Returns whether a moment leaves a table as the row tells.
fn is_left(
    rt: &impl Abort,
    alloc: Global,
    exports: &mut Exports,
    leases: &mut Leases,
    row: (u64, u32, usize, usize),
) -> bool {
    let (now, waiting, gone, left) = row;
    let awaited = exports.waiting_count(now) == waiting;
    let taken = withdrawn(alloc, exports, leases, now).expect(rt, MEMORY);
    let rows = exports.rows(alloc, now).expect(rt, MEMORY);
    awaited && taken == gone && rows.len() == left
}

#[test]
fn an_object_is_withdrawn_once_nothing_keeps_it(rt: HostRuntime) {
    let alloc = rt.alloc();
    let mut exports = exported(&rt, alloc).expect(&rt, "objects");
    let mut leases = leased(&rt, alloc);
    for (number, now) in [(18, 10), (19, 10), (19, 20)] {
        let listed = list(&mut exports, numbered(number), RETURN, now);
        must(&rt, listed == Ok(()), "listed");
    }
    for row in MOMENTS {
        must(
            &rt,
            is_left(&rt, alloc, &mut exports, &mut leases, row),
            "a moment",
        );
    }
    must(&rt, exports.find(numbered(16)) == Some(5), "pinned");
}

/// A table of an object that was pinned, whose call runs.
fn begun(rt: &impl Abort, alloc: Global) -> Exports {
    let mut exports = Exports::fresh(alloc, SPACE, 100);
    let id = exports.add(5, false).expect(rt, "added");
    exports.pin(id);
    must(rt, exports.begin(id), "begun");
    exports.unpin(id);
    exports
}

#[test]
fn calls_and_pins_keep_an_object(rt: HostRuntime) {
    let mut leases = Leases::fresh(rt.alloc(), 100);
    let mut exports = begun(&rt, rt.alloc());
    let gone = withdrawn(rt.alloc(), &mut exports, &mut leases, 1).expect(&rt, MEMORY);
    must(&rt, gone == 0, "kept");
    must(
        &rt,
        list(&mut exports, numbered(16), RETURN, 1) == Ok(()),
        "listed",
    );
    exports.ack(RETURN);
    must(
        &rt,
        !exports.is_waiting(numbered(16), RETURN, 1),
        "acknowledged",
    );
}

/// The identifier of a return.
fn returned(time: u32) -> Uid {
    Uid {
        unique: 7,
        time: i64::from(time),
        count: 1,
    }
}

/// Waits of 100 milliseconds, line by line: `list OBJECT RETURN MOMENT`, `ack RETURN`, and `forget MOMENT`, at which those that ended are forgotten.
/// A line `at MOMENT WAITING ENDED..` says how many await at a moment, and of which objects waits have ended; and `of RETURN OBJECTS..` which objects'
/// references in a return await. An empty line begins a new table.
const WAITS: &str = "\
list 16 1 10
list 17 2 20
list 18 3 30
list 19 4 40
at 109 4
at 110 3 16
at 119 3 16
at 120 2 16 17
forget 110
at 110 3
forget 120
at 120 2
ack 3
at 129 1
at 130 1
at 139 1
at 140 0 19
list 16 5 130
forget 140
at 140 1
at 229 1
at 230 0 16
forget 230
at 230 0

list 16 1 50
list 17 2 10
list 18 3 30
at 109 3
at 110 2 17
at 130 1 17 18
at 150 0 16 17 18
forget 110
at 110 2
at 130 1 18
forget 130
at 130 1
list 16 1 20
at 149 1
at 150 0 16
forget 150
at 150 0

list 16 1 10
list 17 1 10
list 18 2 10
of 1 16 17
of 2 18
of 3
list 16 1 20
at 110 1 17 18
ack 2
of 1 17 16
of 2
ack 1
of 1
at 110 0";

/// The numbers that words spell.
fn spelled(rt: &impl Abort, alloc: Global, words: &str) -> Vec<u32> {
    let mut numbers = Vec::new(alloc);
    for word in words.split(' ') {
        let number = word.parse::<u32>().expect(rt, "a number");
        numbers.push(number).expect(rt, MEMORY);
    }
    numbers
}

/// Returns whether objects have these numbers, in this order.
fn are_numbered(objects: &[ObjId], numbers: &[u32]) -> bool {
    let all = objects
        .iter()
        .zip(numbers.iter())
        .all(|(id, number)| id.number == i64::from(*number));
    all && objects.len() == numbers.len()
}

/// Returns whether the references in a return that await are of these objects.
fn returns_so(
    rt: &impl Abort,
    alloc: Global,
    exports: &Exports,
    time: u32,
    numbers: &[u32],
) -> bool {
    let awaited = exports.of_return(alloc, returned(time)).expect(rt, MEMORY);
    are_numbered(awaited.as_slice(), numbers)
}

/// Returns whether at a moment so many references await, and the waits of these objects have ended.
fn waits_so(
    rt: &impl Abort,
    alloc: Global,
    exports: &Exports,
    moment: u64,
    waiting: u32,
    numbers: &[u32],
) -> bool {
    let ended = exports.ended_objects(alloc, moment).expect(rt, MEMORY);
    let known = exports.has_ended(moment) != numbers.is_empty();
    exports.waiting_count(moment) == waiting && known && are_numbered(ended.as_slice(), numbers)
}

/// Does what a line says to a table.
fn take_line(
    rt: &impl Abort,
    alloc: Global,
    exports: &mut Exports,
    leases: &mut Leases,
    line: &str,
) {
    if let Some(words) = line.strip_prefix("list ") {
        match *spelled(rt, alloc, words) {
            [number, uid, now] => {
                let id = numbered(i64::from(number));
                let listed = list(exports, id, returned(uid), u64::from(now));
                must(rt, listed == Ok(()), line);
            }
            _ => must(rt, false, line),
        }
    } else if let Some(words) = line.strip_prefix("ack ") {
        exports.ack(returned(words.parse::<u32>().expect(rt, "a return")));
    } else if let Some(words) = line.strip_prefix("forget ") {
        let now = words.parse::<u64>().expect(rt, "a moment");
        let _taken = withdrawn(alloc, exports, leases, now).expect(rt, MEMORY);
    } else if let Some(words) = line.strip_prefix("of ") {
        match *spelled(rt, alloc, words) {
            [uid, ref numbers @ ..] => {
                must(rt, returns_so(rt, alloc, exports, uid, numbers), line);
            }
            _ => must(rt, false, line),
        }
    } else if let Some(words) = line.strip_prefix("at ") {
        match *spelled(rt, alloc, words) {
            [moment, waiting, ref numbers @ ..] => must(
                rt,
                waits_so(rt, alloc, exports, u64::from(moment), waiting, numbers),
                line,
            ),
            _ => must(rt, false, line),
        }
    }
}

/// A table of pinned objects with the numbers from 16 to 19.
fn pinned(alloc: Global) -> Result<Exports, ExportFault> {
    let mut exports = Exports::fresh(alloc, SPACE, 100);
    exports.add(5, true)?;
    exports.add(5, true)?;
    exports.add(5, true)?;
    exports.add(5, true)?;
    Ok(exports)
}

#[test]
fn waits_end_one_after_the_other(rt: HostRuntime) {
    let alloc = rt.alloc();
    let mut leases = Leases::fresh(alloc, 100);
    let mut exports = pinned(alloc).expect(&rt, "objects");
    for line in WAITS.split('\n') {
        if line.is_empty() {
            exports = pinned(alloc).expect(&rt, "objects");
        } else {
            take_line(&rt, alloc, &mut exports, &mut leases, line);
        }
    }
}
