//! A history as the definitions go through it, event by event. A function of `history_model` goes through the whole history anew for each answer; a
//! course keeps the places and the table from event to event, and asks the model what is left to ask. So histories can be long. Short
//! histories are judged by `history_model::turns::answers` too.
use history::asks::is_abandon;
use history::{
    Ask, Event, EventList, Exported, ExportedList, Place, Refused, Reply, SpaceConfig, Turn, grant,
};
use history_model::names::{name_in, names};
use history_model::places::{has, ids, kind_of, known_objects, now};
use history_model::running::running_calls_by;
use history_model::table::{exports, is_kept, returned_objects, stands};
use object_ids::{ObjId, ObjIds};
use sequence::NameList;
use std::alloc::{AllocError, Global};

/// A history, and what the definitions say of it.
pub(crate) struct Course {
    /// Its events.
    pub(crate) events: EventList,
    /// Its places, the newest first.
    pub(crate) places: Vec<Place>,
    /// The answers to its events. None is refused, since it is far from each limit.
    pub(crate) answers: Vec<Result<Turn, Refused>>,
    /// The objects of its table.
    pub(crate) table: Vec<Exported>,
    /// The objects withdrawn that are still to be told as gone.
    untold: Vec<ObjId>,
    /// The number of objects that were told as gone by a later turn than that of the Abandon that withdrew them.
    pub(crate) told_later: u64,
}

// Written out, so that whoever owns one has one call at each exit, and not the drop of each field.
impl Drop for Course {
    fn drop(self) {
        let Course {
            events,
            places,
            answers,
            table,
            untold,
            told_later: _,
        } = self;
        drop(events);
        drop(places);
        drop(answers);
        drop(table);
        drop(untold);
    }
}

impl Course {
    /// The course of the empty history.
    pub(crate) fn new(alloc: Global) -> Course {
        Course {
            events: EventList::new(alloc),
            places: Vec::new(alloc),
            answers: Vec::new(alloc),
            table: Vec::new(alloc),
            untold: Vec::new(alloc),
            told_later: 0,
        }
    }

    /// Goes on by one event.
    pub(crate) fn take(
        &mut self,
        alloc: Global,
        config: &SpaceConfig,
        event: Event,
    ) -> Result<(), AllocError> {
        let turn = self.turn(alloc, config, &event)?;
        self.answers.push(Ok(turn))?;
        self.events.push(event)
    }

    /// The turn of an event, whose place is the newest then.
    fn turn(
        &mut self,
        alloc: Global,
        config: &SpaceConfig,
        event: &Event,
    ) -> Result<Turn, AllocError> {
        let p = self.place_of(alloc, config, event)?;
        let place = p.index;
        let reply = reply_to(alloc, config, self, &p)?;
        self.put(alloc, config, p)?;
        let gone = self.told(alloc, &event.ask)?;
        Ok(Turn { place, reply, gone })
    }

    /// Has a place be the newest, and withdraws what isn't kept then.
    fn put(&mut self, alloc: Global, config: &SpaceConfig, p: Place) -> Result<(), AllocError> {
        self.count_untold(&p.event.ask);
        self.table.extend_from_slice(p.exported_here.as_slice())?;
        self.places.insert(0, p)?;
        self.withdraw(alloc, config)
    }

    /// The place of an event.
    fn place_of(
        &self,
        alloc: Global,
        config: &SpaceConfig,
        event: &Event,
    ) -> Result<Place, AllocError> {
        let places = self.places.as_slice();
        let table = self.table.as_slice();
        let effective = is_effective(places, table, event);
        let exported_here = exported(alloc, config, places, effective, &event.ask)?;
        let new = exported_here.as_slice();
        let returned_here = returned(alloc, config, self, effective, new, &event.ask)?;
        Ok(Place {
            index: places.len() as u64,
            moment: event.moment.max(now(places)),
            event: event.copy(alloc)?,
            effective,
            table_before: ExportedList::from_slice(alloc, table)?,
            name_stood_for: stood(places, &event.ask),
            exported_here,
            returned_here,
        })
    }

    /// Counts the objects that the turn of a request tells as gone though it does not withdraw them.
    fn count_untold(&mut self, ask: &Ask) {
        if !is_abandon(ask) {
            self.told_later = self.told_later.saturating_add(self.untold.len() as u64);
        }
    }

    /// Withdraws what isn't kept at the newest place.
    fn withdraw(&mut self, alloc: Global, config: &SpaceConfig) -> Result<(), AllocError> {
        let mut kept = Vec::new(alloc);
        for x in self.table.as_slice() {
            if is_kept(alloc, config, self.places.as_slice(), x)? {
                kept.push(*x)?;
            } else {
                self.untold.push(x.id)?;
            }
        }
        self.table = kept;
        Ok(())
    }

    /// The objects that the turn of a request tells as gone. An Abandon leaves them to the next turn too.
    fn told(&mut self, alloc: Global, ask: &Ask) -> Result<ObjIds, AllocError> {
        let gone = ObjIds::from_slice(alloc, self.untold.as_slice())?;
        if !is_abandon(ask) {
            self.untold = Vec::new(alloc);
        }
        Ok(gone)
    }
}

/// Returns whether an event is effective after these places, which leave this table.
fn is_effective(places: &[Place], table: &[Exported], event: &Event) -> bool {
    match &event.ask {
        Ask::Begin { object } => has(table, *object),
        Ask::Finish {
            object,
            made: _,
            listed: _,
            uid: _,
        } => running_calls_by(places, event.by, *object) > 0,
        Ask::Abandon { object } => running_calls_by(places, event.by, *object) > 0,
        Ask::Bind { name, object } => has(table, *object) && stands(places, name).is_none(),
        Ask::Rebind { name: _, object } => has(table, *object),
        Ask::Unbind { name } => stands(places, name).is_some(),
        Ask::Lookup { name, uid: _ } => stands(places, name).is_some(),
        _ => true,
    }
}

/// Returns the object that the name in a request stands for. It is none where the request has no name.
fn stood(places: &[Place], ask: &Ask) -> Option<ObjId> {
    match name_in(ask) {
        Some(name) => stands(places, name),
        None => None,
    }
}

/// The objects that a request exports.
fn exported(
    alloc: Global,
    config: &SpaceConfig,
    places: &[Place],
    effective: bool,
    ask: &Ask,
) -> Result<ExportedList, AllocError> {
    if effective {
        let new = exports(alloc, config, places, ask)?;
        Ok(ExportedList::from_vec(new))
    } else {
        Ok(ExportedList::new(alloc))
    }
}

/// The objects to which a request that exports these new ones returns references.
fn returned(
    alloc: Global,
    config: &SpaceConfig,
    course: &Course,
    effective: bool,
    new: &[Exported],
    ask: &Ask,
) -> Result<ObjIds, AllocError> {
    if !effective {
        return Ok(ObjIds::new(alloc));
    }
    match ask {
        Ask::Finish {
            object: _,
            made: _,
            listed,
            uid: _,
        } => {
            let mut all = ids(alloc, new)?;
            let mut old = known_objects(alloc, course.table.as_slice(), listed.as_slice())?;
            all.append(&mut old)?;
            Ok(ObjIds::from_vec(all))
        }
        _ => {
            let all = returned_objects(alloc, config, course.places.as_slice(), ask)?;
            Ok(ObjIds::from_vec(all))
        }
    }
}

/// Returns the reply to the event of a place after this course.
fn reply_to(
    alloc: Global,
    config: &SpaceConfig,
    course: &Course,
    p: &Place,
) -> Result<Reply, AllocError> {
    match &p.event.ask {
        Ask::Finish {
            object: _,
            made: _,
            listed: _,
            uid: _,
        } => finished(alloc, p),
        Ask::List => {
            let all = names(alloc, course.places.as_slice())?;
            Ok(Reply::Names(NameList::from_vec(all)))
        }
        _ => Ok(reply_without_list(config, course.table.as_slice(), p)),
    }
}

fn finished(alloc: Global, p: &Place) -> Result<Reply, AllocError> {
    if p.effective {
        let new = ids(alloc, p.exported_here.as_slice())?;
        Ok(Reply::Finished(ObjIds::from_vec(new)))
    } else {
        Ok(Reply::NotRunning)
    }
}

/// Returns the reply to the event of a place, which is neither a Finish nor a List. The table before it is this one.
fn reply_without_list(config: &SpaceConfig, table: &[Exported], p: &Place) -> Reply {
    match &p.event.ask {
        Ask::Open { kind: _, pinned: _ } => opened(p.exported_here.as_slice()),
        Ask::Begin { object } => either(
            p.effective,
            Reply::Started(kind_of(table, *object)),
            Reply::NoObject,
        ),
        Ask::Abandon { object: _ } => either(p.effective, Reply::Done, Reply::NotRunning),
        Ask::Dirty {
            client: _,
            number: _,
            asked,
            objects: _,
        } => Reply::Granted(grant(config.lease_ms, *asked)),
        Ask::Bind { name: _, object } => {
            let is_bound = has(table, *object);
            let else_reply = either(is_bound, Reply::AlreadyBound, Reply::NoObject);
            either(p.effective, Reply::Bound, else_reply)
        }
        Ask::Rebind { name: _, object: _ } => either(p.effective, Reply::Bound, Reply::NoObject),
        Ask::Unbind { name: _ } => either(p.effective, Reply::Unbound, Reply::NotBound),
        Ask::Lookup { name: _, uid: _ } => found(table, p.name_stood_for),
        // a Clean, an Ack, a Tick
        _ => Reply::Done,
    }
}

/// The first reply where the test holds, else the second.
fn either(test: bool, one: Reply, other: Reply) -> Reply {
    if test { one } else { other }
}

fn opened(new: &[Exported]) -> Reply {
    match new {
        [x, ..] => Reply::Opened(x.id),
        [] => Reply::NoObject,
    }
}

fn found(table: &[Exported], stood: Option<ObjId>) -> Reply {
    match stood {
        Some(object) => Reply::Found(object, kind_of(table, object)),
        None => Reply::NotBound,
    }
}
