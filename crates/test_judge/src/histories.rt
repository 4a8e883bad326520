//! Random histories of few clients, connections and returns, with leases of a few milliseconds, so that calls meet. Each begins with the opening of a
//! pinned object, a call of it, and a return of two new objects. What is asked next most often names objects that are exported then.
ghost use Rattle.std.specs.Prelude.{◌≤◌};
ghost use Rattle.history.specs.declared.limits.TheConstants.{MAX_DURATION_MS};
ghost use Rattle.test_judge.specs.declared.histories.TheConstants.{LATEST};

use crate::course::Course;
use crate::draws::Draws;
use history::{Ask, Event, Exported, Name, SpaceConfig, grant};
use history_model::running::running_calls_by;
use object_ids::{ObjId, ObjIds, Uid, Vmid};
use sequence::{ByteList, Kinds, Units};
use std::alloc::{AllocError, Global};

/// The number of connections.
pub(crate) const CONNECTIONS: u64 = 2;
/// The longest duration of one half of the draws, in milliseconds.
const LONGEST: u64 = 6;
/// The longest duration of the other half.
const LONGER: u64 = 30;
/// The most times that a running call is looked for.
const TRIES: u64 = 6;
/// The number of the first object.
const FIRST: i64 = 16;
/// The last moment, in milliseconds.
const LATEST: u64 = 1_000_000;

/// An identifier of few.
pub(crate) fn numbered(unique: i32) -> Uid {
    Uid {
        unique,
        time: 0,
        count: 0,
    }
}

/// A duration, in milliseconds.
fn duration(draws: &mut Draws) -> u64
    ensures some { 1 ≤ result }
    ensures short { result ≤ MAX_DURATION_MS }
{
    match draws.below(2) {
        0 => 1 + draws.below(LONGEST),
        _ => 1 + draws.below(LONGER),
    }
}

/// A random configuration.
pub(crate) fn configuration(draws: &mut Draws) -> SpaceConfig
    ensures lease { (1 ≤ result.lease_ms) × (result.lease_ms ≤ MAX_DURATION_MS) }
    ensures ack { (1 ≤ result.ack_ms) × (result.ack_ms ≤ MAX_DURATION_MS) }
{
    SpaceConfig {
        lease_ms: duration(draws),
        ack_ms: duration(draws),
        uid: numbered(7),
        stored: draws.below(2) == 0,
    }
}

/// The moments on which the next one depends, in milliseconds.
#[derive(Debug, Drop)]
struct Clock {
    /// The greatest moment.
    now: u64,
    /// The end of what the last dirty was granted.
    lease_end: u64,
    /// The end of the last wait.
    wait_end: u64,
}

impl Clock {
    /// The next moment: often the greatest one or one near an end, sometimes one that goes back.
    fn next(&mut self, draws: &mut Draws) -> u64
        ensures { result ≤ LATEST }
    {
        let moment = match draws.below(16) {
            0 | 1 => self.now.saturating_add(1),
            2 => self.now.saturating_add(draws.below(2 * LONGEST)),
            3 => self.now.saturating_sub(1 + draws.below(LONGEST)),
            4 => self.lease_end.saturating_sub(1),
            5 => self.lease_end,
            6 => self.wait_end.saturating_sub(1),
            7 => self.wait_end,
            _ => self.now,
        };
        let moment = moment.min(LATEST);
        self.now = self.now.max(moment);
        moment
    }

    /// Notes the end of the lease or of the wait that a request is granted now.
    fn note(&mut self, config: &SpaceConfig, ask: &Ask) {
        match ask {
            Ask::Dirty {
                client: _,
                number: _,
                asked,
                objects: _,
            } => {
                self.lease_end = self.now.saturating_add(grant(config.lease_ms, *asked));
            }
            Ask::Finish {
                object: _,
                made: _,
                listed: _,
                uid: _,
            } => self.wait_end = self.now.saturating_add(config.ack_ms),
            Ask::Lookup { name: _, uid: _ } => {
                self.wait_end = self.now.saturating_add(config.ack_ms)
            }
            _ => {}
        }
    }
}

/// The course of so many random events, after a return of two objects.
pub(crate) fn course(
    alloc: Global,
    config: &SpaceConfig,
    draws: &mut Draws,
    count: u64,
) -> Result<Course, AllocError> {
    let mut course = Course::new(alloc);
    begin(alloc, config, &mut course)?;
    let mut clock = Clock {
        now: 0,
        lease_end: config.lease_ms,
        wait_end: config.ack_ms,
    };
    for _ in 0..count {
        let moment = clock.next(draws);
        let by = draws.below(CONNECTIONS) as u32;
        let ask = ask(alloc, config, &course, by, draws)?;
        clock.note(config, &ask);
        course.take(alloc, config, Event { by, moment, ask })?;
    }
    Ok(course)
}

/// Takes the opening of a pinned object, a call of it, and a return of two new objects.
fn begin(alloc: Global, config: &SpaceConfig, course: &mut Course) -> Result<(), AllocError> {
    let object = ObjId {
        number: FIRST,
        space: config.uid,
    };
    let pinned = true;
    take_at_first(alloc, config, course, Ask::Open { kind: 2, pinned })?;
    take_at_first(alloc, config, course, Ask::Begin { object })?;
    let made = Kinds::from_slice(alloc, &[1, 3])?;
    let listed = ObjIds::new(alloc);
    let uid = numbered(0);
    let finish = Ask::Finish {
        object,
        made,
        listed,
        uid,
    };
    take_at_first(alloc, config, course, finish)
}

/// Takes a request of the first connection at the first moment.
fn take_at_first(
    alloc: Global,
    config: &SpaceConfig,
    course: &mut Course,
    ask: Ask,
) -> Result<(), AllocError> {
    let event = Event {
        by: 0,
        moment: 0,
        ask,
    };
    course.take(alloc, config, event)
}

/// A random request of a connection: one in five speaks of names.
fn ask(
    alloc: Global,
    config: &SpaceConfig,
    course: &Course,
    by: u32,
    draws: &mut Draws,
) -> Result<Ask, AllocError> {
    match draws.below(26) {
        0..=1 => Ok(Ask::Open {
            kind: draws.below(3) as u32,
            pinned: draws.below(8) == 0,
        }),
        2..=6 => Ok(Ask::Begin {
            object: object(config.uid, course, draws),
        }),
        7..=10 => finish(alloc, config.uid, course, by, draws),
        11 => Ok(Ask::Abandon {
            object: called(config.uid, course, by, draws),
        }),
        12..=14 => dirty(alloc, config, course, draws),
        15..=17 => clean(alloc, config.uid, course, draws),
        18 => Ok(Ask::Ack {
            uid: numbered(draws.below(3) as i32),
        }),
        19..=20 => Ok(Ask::Tick),
        _ => of_names(alloc, config.uid, course, draws),
    }
}

/// A random request that speaks of names.
fn of_names(
    alloc: Global,
    space: Uid,
    course: &Course,
    draws: &mut Draws,
) -> Result<Ask, AllocError> {
    let name = name(alloc, draws)?;
    match draws.below(8) {
        0..=1 => Ok(Ask::Bind {
            name,
            object: object(space, course, draws),
        }),
        2..=3 => Ok(Ask::Rebind {
            name,
            object: object(space, course, draws),
        }),
        4 => Ok(Ask::Unbind { name }),
        5..=6 => Ok(Ask::Lookup {
            name,
            uid: numbered(draws.below(3) as i32),
        }),
        _ => Ok(Ask::List),
    }
}

/// A name: one of three.
fn name(alloc: Global, draws: &mut Draws) -> Result<Name, AllocError> {
    let unit = 0x61 + draws.below(3) as u16;
    match Name::new(Units::from_slice(alloc, &[unit])?) {
        Ok(name) => Ok(name),
        Err(_long) => Err(AllocError),
    }
}

/// An object: most often one of the table, else one of the first four, at times of another space.
fn object(space: Uid, course: &Course, draws: &mut Draws) -> ObjId {
    match draws.below(16) {
        0 => ObjId {
            number: FIRST + draws.below(4) as i64,
            space: numbered(8),
        },
        1..=3 => ObjId {
            number: FIRST + draws.below(4) as i64,
            space,
        },
        _ => in_table(space, course.table.as_slice(), draws),
    }
}

/// An object of a table, or the first where the table is empty.
fn in_table(space: Uid, table: &[Exported], draws: &mut Draws) -> ObjId {
    let first = ObjId {
        number: FIRST,
        space,
    };
    let count = table.len() as u64;
    if count == 0 {
        return first;
    }
    match table.get(draws.below(count) as usize) {
        Some(x) => x.id,
        None => first,
    }
}

/// An object, most often one of which this connection runs a call, where there is one.
fn called(space: Uid, course: &Course, by: u32, draws: &mut Draws) -> ObjId {
    for _ in 0..TRIES {
        let drawn = object(space, course, draws);
        if running_calls_by(course.places.as_slice(), by, drawn) > 0 {
            return drawn;
        }
    }
    object(space, course, draws)
}

/// A list of up to two such objects.
fn objects(
    alloc: Global,
    space: Uid,
    course: &Course,
    draws: &mut Draws,
) -> Result<ObjIds, AllocError> {
    let mut ids = ObjIds::new(alloc);
    for _ in 0..draws.below(3) {
        ids.push(object(space, course, draws))?;
    }
    Ok(ids)
}

fn finish(
    alloc: Global,
    space: Uid,
    course: &Course,
    by: u32,
    draws: &mut Draws,
) -> Result<Ask, AllocError> {
    let mut made = Kinds::new(alloc);
    for _ in 0..draws.below(4) {
        made.push(1)?;
    }
    Ok(Ask::Finish {
        object: called(space, course, by, draws),
        made,
        listed: objects(alloc, space, course, draws)?,
        uid: numbered(draws.below(3) as i32),
    })
}

/// A client of few.
fn client(alloc: Global, draws: &mut Draws) -> Result<Vmid, AllocError> {
    let (address, unique): (&[u8], i32) = match draws.below(8) {
        0..=3 => (&[0xAA], 1),
        4..=5 => (&[0xAA, 0], 1),
        6 => (&[], 1),
        _ => (&[0xAA], -1),
    };
    let address = ByteList::from_slice(alloc, address)?;
    match Vmid::new(address, numbered(unique)) {
        Some(client) => Ok(client),
        None => Err(AllocError),
    }
}

/// The number of a lease call, which most often rises with the length of a course.
fn number(course: &Course, draws: &mut Draws) -> i64 {
    match draws.below(64) {
        0 => i64::MIN,
        1 => i64::MAX,
        2..=15 => draws.below(4) as i64,
        _ => (course.places.len().min(1_000) as i64 / 4).saturating_add(draws.below(3) as i64),
    }
}

/// The duration for which a dirty asks: often less than the configured lease, at times as much, more, nothing, or less than nothing.
fn asked(config: &SpaceConfig, draws: &mut Draws) -> i64 {
    let lease = config.lease_ms.min(LONGER) as i64;
    match draws.below(16) {
        0 => 0,
        1 => -(draws.below(LONGER) as i64) - 1,
        2 => i64::MIN,
        3 => i64::MAX,
        4 => lease + 1,
        5..=8 => lease,
        _ => 1 + draws.below(LONGER) as i64,
    }
}

fn dirty(
    alloc: Global,
    config: &SpaceConfig,
    course: &Course,
    draws: &mut Draws,
) -> Result<Ask, AllocError> {
    Ok(Ask::Dirty {
        client: client(alloc, draws)?,
        number: number(course, draws),
        asked: asked(config, draws),
        objects: objects(alloc, config.uid, course, draws)?,
    })
}

fn clean(alloc: Global, space: Uid, course: &Course, draws: &mut Draws) -> Result<Ask, AllocError> {
    Ok(Ask::Clean {
        client: client(alloc, draws)?,
        number: number(course, draws),
        objects: objects(alloc, space, course, draws)?,
        strong: draws.below(3) == 0,
    })
}
