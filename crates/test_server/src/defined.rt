//! The answers of the definitions for a history, computed from prefix to prefix.
//!
//! `history_model` computes each definition from the whole list of events, and so computes again, at each prefix, all that the prefix before had. Here
//! the table after an event is made of the table before it, as the record `Collects` has it: of the objects that were in the table or are exported by
//! the event, those that are kept are the table afterwards, and the others are withdrawn. What one walk over a history decides is asked of `history_model`.
use crate::servers::CONFIG;
use history::asks::is_abandon;
use history::places::id_at;
use history::{
    Ask, Call, Event, Exported, ExportedList, Place, Reply, Returned, Turn, Withdrawal, grant,
};
use history_model::awaiting::returned_references;
use history_model::leases::{counting_calls, has_time_left, highest_is_dirty};
use history_model::names::{name_in, names, stands_for};
use history_model::places::{ever_exported, exported_count, has, ids, kind_of, known_objects, now};
use history_model::running::{is_running, running_calls_by};
use history_model::table::{call_with, exports, places, returned_objects, stands, table};
use history_model::turns::withdrawals;
use object_ids::{ObjId, ObjIds};
use sequence::{NameList, Same};
use std::alloc::{AllocError, Global};

/// The answers of the definitions for a history.
pub(crate) struct Defined {
    /// Its places, the newest first.
    pub(crate) places: Vec<Place>,
    /// Its table.
    pub(crate) table: Vec<Exported>,
    /// Its withdrawals, in order.
    pub(crate) withdrawn: Vec<Withdrawal>,
}

// Written out, so that whoever owns one has one call at each exit, and not the drop of each field.
impl Drop for Defined {
    fn drop(self) {
        let Defined {
            places,
            table,
            withdrawn,
        } = self;
        drop(places);
        drop(table);
        drop(withdrawn);
    }
}

impl Defined {
    /// The same by `history_model` alone, for a short history.
    pub(crate) fn plainly(alloc: Global, events: &[Event]) -> Result<Defined, AllocError> {
        let places = places(alloc, &CONFIG, events)?;
        let table = table(alloc, &CONFIG, places.as_slice())?;
        let withdrawn = withdrawals(alloc, &CONFIG, places.as_slice())?;
        Ok(Defined {
            places,
            table,
            withdrawn,
        })
    }
}

/// A returned reference that was not acknowledged, and the moment until which it awaits that.
#[derive(Clone, Copy)]
struct Waiting {
    reference: Returned,
    until: u128,
}

/// The lease calls of a client, the newest first, and those objects that it names for which its highest call is a dirty: it holds these while
/// it has time left.
struct Own {
    calls: Vec<Call>,
    wanted: Vec<ObjId>,
}

// Written out, so that whoever owns one has one call at each exit, and not the drop of each field.
impl Drop for Own {
    fn drop(self) {
        let Own { calls, wanted } = self;
        drop(calls);
        drop(wanted);
    }
}

/// The state that is kept from prefix to prefix of a history.
pub(crate) struct Prefix {
    /// The answers of the definitions for the prefix.
    pub(crate) defined: Defined,
    /// The lease calls of each client.
    owns: Vec<Own>,
    /// The objects for which names stand.
    named: Vec<ObjId>,
    /// The references that were returned and not acknowledged.
    waits: Vec<Waiting>,
    /// The objects that are still to be told as gone.
    told: Vec<ObjId>,
}

// Written out, so that whoever owns one has one call at each exit, and not the drop of each field.
impl Drop for Prefix {
    fn drop(self) {
        let Prefix {
            defined,
            owns,
            named,
            waits,
            told,
        } = self;
        drop(defined);
        drop(owns);
        drop(named);
        drop(waits);
        drop(told);
    }
}

impl Prefix {
    /// The prefix without an event.
    pub(crate) fn new(alloc: Global) -> Prefix {
        Prefix {
            defined: Defined {
                places: Vec::new(alloc),
                table: Vec::new(alloc),
                withdrawn: Vec::new(alloc),
            },
            owns: Vec::new(alloc),
            named: Vec::new(alloc),
            waits: Vec::new(alloc),
            told: Vec::new(alloc),
        }
    }

    /// Goes on by an event that is not refused, and answers what it is answered.
    pub(crate) fn take(&mut self, alloc: Global, event: &Event) -> Result<Turn, AllocError> {
        self.add_place(alloc, event)?;
        self.add_call(alloc)?;
        self.add_waits(alloc)?;
        self.add_named(alloc)?;
        self.let_go(alloc)?;
        self.turn(alloc)
    }

    /// Adds the place of an event.
    fn add_place(&mut self, alloc: Global, event: &Event) -> Result<(), AllocError> {
        let places = self.defined.places.as_slice();
        let place = place_of(alloc, places, self.defined.table.as_slice(), event)?;
        self.defined.places.insert(0, place)?;
        Ok(())
    }

    /// Adds the lease call of the newest place, if there is one.
    fn add_call(&mut self, alloc: Global) -> Result<(), AllocError> {
        match self.defined.places.as_slice() {
            [] => Ok(()),
            [p, before @ ..] => match call_of(alloc, p, before)? {
                Some(call) => put_call(alloc, &mut self.owns, call),
                None => Ok(()),
            },
        }
    }

    /// Adds the references that the newest place returns, without those that it acknowledges.
    fn add_waits(&mut self, alloc: Global) -> Result<(), AllocError> {
        match self.defined.places.as_slice() {
            [] => Ok(()),
            [p, ..] => {
                self.waits = waits_after(alloc, p, self.waits.as_slice())?;
                Ok(())
            }
        }
    }

    /// Looks again for which objects names stand, where the newest place may change that.
    fn add_named(&mut self, alloc: Global) -> Result<(), AllocError> {
        match self.defined.places.as_slice() {
            [] => Ok(()),
            [p, ..] => {
                if name_in(&p.event.ask).is_some() {
                    self.named = named(alloc, self.defined.places.as_slice())?;
                }
                Ok(())
            }
        }
    }

    /// Makes the table of the one before, and notes what is withdrawn.
    fn let_go(&mut self, alloc: Global) -> Result<(), AllocError> {
        let needed = self.needed(alloc)?;
        let objects = candidates(alloc, self.defined.places.as_slice())?;
        self.defined.table.truncate(0);
        for x in objects.as_slice() {
            self.keep_or_note(needed.as_slice(), *x)?;
        }
        Ok(())
    }

    /// Keeps an object, or notes that it is withdrawn at the newest place.
    fn keep_or_note(&mut self, needed: &[ObjId], x: Exported) -> Result<(), AllocError> {
        let places = self.defined.places.as_slice();
        if x.pinned || is_among(x.id, needed) || is_running(places, x.id) {
            self.defined.table.push(x)?;
        } else {
            let withdrawal = Withdrawal {
                object: x.id,
                place: (places.len() as u64).saturating_sub(1),
            };
            self.defined.withdrawn.push(withdrawal)?;
            self.told.push(x.id)?;
        }
        Ok(())
    }

    /// The objects for which names stand, to which references await, or which clients hold.
    fn needed(&self, alloc: Global) -> Result<Vec<ObjId>, AllocError> {
        let places = self.defined.places.as_slice();
        let at = now(places);
        let mut needed = Vec::from_slice(alloc, self.named.as_slice())?;
        put_awaited(at, self.waits.as_slice(), &mut needed)?;
        put_held(at, self.owns.as_slice(), &mut needed)?;
        Ok(needed)
    }

    /// The turn of the event at the newest place.
    fn turn(&mut self, alloc: Global) -> Result<Turn, AllocError> {
        match self.defined.places.as_slice() {
            [] => Err(AllocError),
            [p, before @ ..] => {
                let gone = ObjIds::from_slice(alloc, self.told.as_slice())?;
                if !is_abandon(&p.event.ask) {
                    self.told.truncate(0);
                }
                let reply = reply_of(alloc, p, before)?;
                Ok(Turn {
                    place: before.len() as u64,
                    reply,
                    gone,
                })
            }
        }
    }
}

// ---- places

/// Returns whether an ask of a connection is effective after places with this table.
fn is_effective(places: &[Place], table: &[Exported], by: u32, ask: &Ask) -> bool {
    match ask {
        Ask::Begin { object } => has(table, *object),
        Ask::Finish { object, .. } => 0 < running_calls_by(places, by, *object),
        Ask::Abandon { object } => 0 < running_calls_by(places, by, *object),
        Ask::Bind { name, object } => has(table, *object) && stands(places, name).is_none(),
        Ask::Rebind { object, .. } => has(table, *object),
        Ask::Unbind { name } => stands(places, name).is_some(),
        Ask::Lookup { name, .. } => stands(places, name).is_some(),
        _ => true,
    }
}

/// The objects to which an effective ask returns references after places with this table.
fn lists_over(
    alloc: Global,
    places: &[Place],
    table: &[Exported],
    ask: &Ask,
) -> Result<Vec<ObjId>, AllocError> {
    match ask {
        Ask::Finish { listed, .. } => {
            let new = exports(alloc, &CONFIG, places, ask)?;
            let mut all = ids(alloc, new.as_slice())?;
            let mut known = known_objects(alloc, table, listed.as_slice())?;
            all.append(&mut known)?;
            Ok(all)
        }
        _ => returned_objects(alloc, &CONFIG, places, ask),
    }
}

/// Returns the objects that an ask exports, and those to which it returns references.
fn effects(
    alloc: Global,
    places: &[Place],
    table: &[Exported],
    effective: bool,
    ask: &Ask,
) -> Result<(ExportedList, ObjIds), AllocError> {
    if !effective {
        return Ok((ExportedList::new(alloc), ObjIds::new(alloc)));
    }
    let adds = exports(alloc, &CONFIG, places, ask)?;
    let listed = lists_over(alloc, places, table, ask)?;
    Ok((ExportedList::from_vec(adds), ObjIds::from_vec(listed)))
}

/// Returns the object that the name in an ask stands for.
fn stood(places: &[Place], ask: &Ask) -> Option<ObjId> {
    match name_in(ask) {
        Some(name) => stands(places, name),
        None => None,
    }
}

/// The place of an event after places with this table.
fn place_of(
    alloc: Global,
    places: &[Place],
    table: &[Exported],
    event: &Event,
) -> Result<Place, AllocError> {
    let effective = is_effective(places, table, event.by, &event.ask);
    let (adds, listed) = effects(alloc, places, table, effective, &event.ask)?;
    let before = ExportedList::from_slice(alloc, table)?;
    let copy = event.copy(alloc)?;
    Ok(Place {
        index: places.len() as u64,
        moment: event.moment.max(now(places)),
        event: copy,
        effective,
        table_before: before,
        name_stood_for: stood(places, &event.ask),
        exported_here: adds,
        returned_here: listed,
    })
}

// ---- why objects are kept

/// The objects of the table before the newest place, and those that it exports.
fn candidates(alloc: Global, places: &[Place]) -> Result<Vec<Exported>, AllocError> {
    match places {
        [] => Ok(Vec::new(alloc)),
        [p, ..] => {
            let mut objects = Vec::from_slice(alloc, p.table_before.as_slice())?;
            objects.extend_from_slice(p.exported_here.as_slice())?;
            Ok(objects)
        }
    }
}

fn is_among(object: ObjId, objects: &[ObjId]) -> bool {
    objects.iter().any(|other| other.is_same(&object))
}

/// The objects for which names stand.
fn named(alloc: Global, places: &[Place]) -> Result<Vec<ObjId>, AllocError> {
    let mut objects = Vec::new(alloc);
    let all = names(alloc, places)?;
    for name in all.as_slice() {
        if let Some(object) = stands_for(places, name.as_slice()) {
            objects.push(object)?;
        }
    }
    Ok(objects)
}

/// Appends the objects to which references await at a moment.
fn put_awaited(at: u64, waits: &[Waiting], objects: &mut Vec<ObjId>) -> Result<(), AllocError> {
    for wait in waits {
        if u128::from(at) < wait.until {
            objects.push(wait.reference.object)?;
        }
    }
    Ok(())
}

/// Appends the objects that clients hold at a moment.
fn put_held(at: u64, owns: &[Own], objects: &mut Vec<ObjId>) -> Result<(), AllocError> {
    for own in owns {
        if has_time_left(CONFIG.lease_ms, at, own.calls.as_slice()) {
            objects.extend_from_slice(own.wanted.as_slice())?;
        }
    }
    Ok(())
}

/// The lease call of a place after others, if it is one.
fn call_of(alloc: Global, p: &Place, before: &[Place]) -> Result<Option<Call>, AllocError> {
    match &p.event.ask {
        Ask::Dirty { .. } | Ask::Clean { .. } => {
            let exported = ever_exported(alloc, before)?;
            call_with(alloc, exported.as_slice(), p.moment, &p.event.ask)
        }
        _ => Ok(None),
    }
}

/// At which place the calls of a call's client stand, if there are some.
fn own_at(owns: &[Own], call: &Call) -> Option<usize> {
    owns.iter().position(|own| match own.calls.as_slice() {
        [] => false,
        [x, ..] => x.client.is_same(&call.client),
    })
}

/// Puts a call before those of its client.
fn put_call(alloc: Global, owns: &mut Vec<Own>, call: Call) -> Result<(), AllocError> {
    let place = match own_at(owns.as_slice(), &call) {
        Some(place) => place,
        None => {
            owns.push(Own {
                calls: Vec::new(alloc),
                wanted: Vec::new(alloc),
            })?;
            owns.len().saturating_sub(1)
        }
    };
    match owns.get_mut(place) {
        Some(own) => {
            own.calls.insert(0, call)?;
            own.wanted = wanted(alloc, own.calls.as_slice())?;
        }
        None => (),
    }
    Ok(())
}

/// Those objects that the calls of a client name for which its highest call is a dirty.
fn wanted(alloc: Global, own: &[Call]) -> Result<Vec<ObjId>, AllocError> {
    let mut objects = Vec::new(alloc);
    for call in own {
        put_wanted(alloc, own, call.objects.as_slice(), &mut objects)?;
    }
    Ok(objects)
}

/// Appends those of some objects for which the highest of a client's calls is a dirty.
fn put_wanted(
    alloc: Global,
    own: &[Call],
    named: &[ObjId],
    objects: &mut Vec<ObjId>,
) -> Result<(), AllocError> {
    for object in named {
        let calls = counting_calls(alloc, CONFIG.lease_ms, own, *object)?;
        if highest_is_dirty(calls.as_slice()) {
            objects.push(*object)?;
        }
    }
    Ok(())
}

/// Returns whether a place returns a reference again, or acknowledges its return.
fn ends_wait(p: &Place, new: &[Returned], wait: &Waiting) -> bool {
    match &p.event.ask {
        Ask::Ack { uid } => uid.is_same(&wait.reference.uid),
        _ => new
            .iter()
            .any(|reference| reference.is_same(&wait.reference)),
    }
}

/// The references that await after a place.
fn waits_after(alloc: Global, p: &Place, before: &[Waiting]) -> Result<Vec<Waiting>, AllocError> {
    let new = returned_references(alloc, p)?;
    let mut after = Vec::new(alloc);
    for wait in before {
        if !ends_wait(p, new.as_slice(), wait) {
            after.push(*wait)?;
        }
    }
    put_new(p.moment, new.as_slice(), &mut after)?;
    Ok(after)
}

/// Appends references that are returned at a moment.
fn put_new(moment: u64, new: &[Returned], waits: &mut Vec<Waiting>) -> Result<(), AllocError> {
    for reference in new {
        waits.push(Waiting {
            reference: *reference,
            until: u128::from(moment) + u128::from(CONFIG.ack_ms),
        })?;
    }
    Ok(())
}

// ---- replies

/// Returns the reply to the event of a place after others.
fn reply_of(alloc: Global, p: &Place, before: &[Place]) -> Result<Reply, AllocError> {
    match &p.event.ask {
        Ask::Open { .. } => Ok(Reply::Opened(id_at(CONFIG.uid, exported_count(alloc, before)?))),
        Ask::Finish { .. } => finished(alloc, p),
        Ask::List => Ok(Reply::Names(NameList::from_vec(names(alloc, before)?))),
        ask => Ok(short_reply(p, before, ask)),
    }
}

fn finished(alloc: Global, p: &Place) -> Result<Reply, AllocError> {
    if p.effective {
        let new = ids(alloc, p.exported_here.as_slice())?;
        Ok(Reply::Finished(ObjIds::from_vec(new)))
    } else {
        Ok(Reply::NotRunning)
    }
}

/// The reply to an ask that takes no memory.
fn short_reply(p: &Place, before: &[Place], ask: &Ask) -> Reply {
    let table = p.table_before.as_slice();
    match ask {
        Ask::Begin { object } => chosen(
            p,
            Reply::Started(kind_of(table, *object)),
            Reply::NoObject,
        ),
        Ask::Abandon { .. } => chosen(p, Reply::Done, Reply::NotRunning),
        Ask::Dirty { asked, .. } => Reply::Granted(grant(CONFIG.lease_ms, *asked)),
        Ask::Bind { object, .. } => {
            if has(table, *object) {
                chosen(p, Reply::Bound, Reply::AlreadyBound)
            } else {
                Reply::NoObject
            }
        }
        Ask::Rebind { .. } => chosen(p, Reply::Bound, Reply::NoObject),
        Ask::Unbind { .. } => chosen(p, Reply::Unbound, Reply::NotBound),
        Ask::Lookup { name, .. } => match stands(before, name) {
            Some(object) => Reply::Found(object, kind_of(table, object)),
            None => Reply::NotBound,
        },
        _ => Reply::Done,
    }
}

/// One reply where the place's event is effective, and else the other.
fn chosen(p: &Place, effective: Reply, other: Reply) -> Reply {
    if p.effective { effective } else { other }
}
