//! The collector's table, and the places of a list of events.
ghost use Rattle.std.specs.Prelude.{◌≡◌, ◌+◌, ◌++◌, ◌∷◌, filter, not, option_to_list, option_and_then, if◌then◌else◌, [], IfOk};
ghost use Rattle.history.specs.LeaseCalls as call_words;
ghost use Rattle.history.specs.Names as name_words;
ghost use Rattle.history.specs.Places as place_words;
ghost use Rattle.history.specs.Table as words;

use crate::awaiting::is_awaited;
use crate::leases::is_held;
use crate::names::{is_named, name_in, stands_for};
use crate::places::{ever_exported, exported_count, exported_from, has, ids, known_objects, now};
use crate::running::{is_running, running_calls_by};
use history::{Ask, Call, CallKind, Event, Exported, ExportedList, Name, Place, SpaceConfig};
use object_ids::{ObjId, ObjIds};
use sequence::Sequence;
use std::alloc::{AllocError, Global};

// ---- lease calls

/// The lease call of a request, with those of its objects that are among the exported ones.
pub fn call_with(
    alloc: Global,
    exported: &[Exported],
    moment: u64,
    ask: &Ask,
) -> Result<Option<Call>, AllocError>
    ensures { IfOk result (λ call.
        option_to_list call ≡ call_words.call_with (place_words.has exported.now) moment ask.now) }
{
    match ask {
        Ask::Dirty {
            client,
            number,
            asked,
            objects,
        } => Ok(Some(Call {
            moment,
            client: client.copy(alloc)?,
            number: *number,
            objects: ObjIds::from_vec(known_objects(alloc, exported, objects.as_slice())?),
            kind: CallKind::Dirty,
            asked: *asked,
        })),
        Ask::Clean {
            client,
            number,
            objects,
            strong,
        } => Ok(Some(Call {
            moment,
            client: client.copy(alloc)?,
            number: *number,
            objects: ObjIds::from_vec(known_objects(alloc, exported, objects.as_slice())?),
            kind: if *strong {
                CallKind::Strong
            } else {
                CallKind::Weak
            },
            asked: 0,
        })),
        _ => Ok(None),
    }
}

/// Calls with one in front, if there is one.
fn in_front(call: Option<Call>, calls: Vec<Call>) -> Result<Vec<Call>, AllocError>
    ensures { IfOk result (λ more. more.items ≡ option_to_list call ++ calls.items) }
{
    let mut more = calls;
    if let Some(call) = call {
        more.insert(0, call)?;
    }
    Ok(more)
}

/// The lease call of a place, if its request is one.
fn call_at(alloc: Global, p: &Place, before: &[Place]) -> Result<Option<Call>, AllocError>
    ensures { IfOk result (λ call. option_to_list call
        ≡ call_words.call_with (place_words.has (place_words.ever_exported before.now)) p.now.moment
        p.now.event.ask) }
{
    let exported = ever_exported(alloc, before)?;
    call_with(alloc, exported.as_slice(), p.moment, &p.event.ask)
}

/// The lease calls of a history.
#[tactic(auto, unfolding(history::specs::LeaseCalls::lease_calls))]
pub fn lease_calls(alloc: Global, places: &[Place]) -> Result<Vec<Call>, AllocError>
    ensures { IfOk result (λ calls. calls.items ≡ call_words.lease_calls places.now) }
{
    match places {
        [] => Ok(Vec::new(alloc)),
        [p, before @ ..] => {
            let calls = lease_calls(alloc, before)?;
            let call = call_at(alloc, p, before)?;
            in_front(call, calls)
        }
    }
}

// ---- the table

/// Returns whether an object is kept locally: it was opened pinned, a name stands for it, or some connection runs a
/// call of it.
#[tactic(auto, unfolding(history::specs::Table::is_kept_locally))]
pub fn is_kept_locally(alloc: Global, places: &[Place], x: &Exported) -> Result<bool, AllocError>
    ensures { IfOk result (λ pinned. pinned ≡ words.is_kept_locally places.now x.now) }
{
    let named = is_named(alloc, places, x.id)?;
    Ok(x.pinned || named || is_running(places, x.id))
}

/// Returns whether an object is kept at the end of a history.
#[tactic(auto, unfolding(history::specs::Table::is_kept))]
pub fn is_kept(
    alloc: Global,
    config: &SpaceConfig,
    places: &[Place],
    x: &Exported,
) -> Result<bool, AllocError>
    ensures { IfOk result (λ kept. kept ≡ words.is_kept config.now places.now x.now) }
{
    let time = now(places);
    let kept_locally = is_kept_locally(alloc, places, x)?;
    let waits = is_awaited(alloc, config.ack_ms, time, places, x.id)?;
    let calls = lease_calls(alloc, places)?;
    let held = is_held(alloc, config.lease_ms, time, calls.as_slice(), x.id)?;
    Ok(kept_locally || waits || held)
}

fn kept_of(
    alloc: Global,
    config: &SpaceConfig,
    places: &[Place],
    objects: &[Exported],
) -> Result<Vec<Exported>, AllocError>
    ensures { IfOk result
        (λ kept. kept.items ≡ filter (words.is_kept config.now places.now) objects.now) }
{
    match objects {
        [] => Ok(Vec::new(alloc)),
        [x, rest @ ..] => {
            let stays = is_kept(alloc, config, places, x)?;
            let mut kept = kept_of(alloc, config, places, rest)?;
            if stays {
                kept.insert(0, *x)?;
            }
            Ok(kept)
        }
    }
}

/// The table: those objects of the table before the newest place, and of those that this place exports, that are kept now.
#[tactic(auto, unfolding(history::specs::Table::table))]
pub fn table(
    alloc: Global,
    config: &SpaceConfig,
    places: &[Place],
) -> Result<Vec<Exported>, AllocError>
    ensures { IfOk result (λ objects. objects.items ≡ words.table config.now places.now) }
{
    match places {
        [] => Ok(Vec::new(alloc)),
        [p, before @ ..] => {
            let mut objects = table(alloc, config, before)?;
            objects.extend_from_slice(p.exported_here.as_slice())?;
            kept_of(alloc, config, places, objects.as_slice())
        }
    }
}

// ---- what an event does

/// Returns the object that a name stands for after a history, or none.
pub fn stands(places: &[Place], name: &Name) -> Option<ObjId>
    ensures { result ≡ name_words.stands_for places.now name.now }
{
    stands_for(places, name.units().as_slice())
}

/// Returns whether a connection's request is effective after a history.
#[tactic(auto, unfolding(history::specs::Table::is_effective))]
pub fn is_effective(
    alloc: Global,
    config: &SpaceConfig,
    places: &[Place],
    by: u32,
    ask: &Ask,
) -> Result<bool, AllocError>
    ensures { IfOk result
        (λ effective. effective ≡ words.is_effective config.now places.now by ask.now) }
{
    let objects = table(alloc, config, places)?;
    Ok(match ask {
        Ask::Begin { object } => has(objects.as_slice(), *object),
        Ask::Finish {
            object,
            made: _,
            listed: _,
            uid: _,
        } => 0 < running_calls_by(places, by, *object),
        Ask::Abandon { object } => 0 < running_calls_by(places, by, *object),
        Ask::Bind { name, object } => {
            has(objects.as_slice(), *object) && stands(places, name).is_none()
        }
        Ask::Rebind { name: _, object } => has(objects.as_slice(), *object),
        Ask::Unbind { name } => stands(places, name).is_some(),
        Ask::Lookup { name, uid: _ } => stands(places, name).is_some(),
        _ => true,
    })
}

/// The objects that an effective request exports after a history.
#[tactic(auto, unfolding(history::specs::Table::exports))]
pub fn exports(
    alloc: Global,
    config: &SpaceConfig,
    places: &[Place],
    ask: &Ask,
) -> Result<Vec<Exported>, AllocError>
    ensures { IfOk result (λ objects. objects.items ≡ words.exports config.now places.now ask.now) }
{
    let k = exported_count(alloc, places)?;
    match ask {
        Ask::Open { kind, pinned } => { exported_from(alloc, config.uid, k, *pinned, &[*kind]) }
        Ask::Finish {
            object: _,
            made,
            listed: _,
            uid: _,
        } => exported_from(alloc, config.uid, k, false, made.as_slice()),
        _ => Ok(Vec::new(alloc)),
    }
}

/// The objects to which an effective request returns references after a history.
#[tactic(auto, unfolding(history::specs::Table::returned_objects))]
pub fn returned_objects(
    alloc: Global,
    config: &SpaceConfig,
    places: &[Place],
    ask: &Ask,
) -> Result<Vec<ObjId>, AllocError>
    ensures { IfOk result
        (λ objects. objects.items ≡ words.returned_objects config.now places.now ask.now) }
{
    match ask {
        Ask::Finish {
            object: _,
            made: _,
            listed,
            uid: _,
        } => {
            let new = exports(alloc, config, places, ask)?;
            let objects = table(alloc, config, places)?;
            let mut all = ids(alloc, new.as_slice())?;
            let mut known = known_objects(alloc, objects.as_slice(), listed.as_slice())?;
            all.append(&mut known)?;
            Ok(all)
        }
        Ask::Lookup { name, uid: _ } => {
            let mut all = Vec::new(alloc);
            if let Some(object) = stands(places, name) {
                all.push(object)?;
            }
            Ok(all)
        }
        _ => Ok(Vec::new(alloc)),
    }
}

/// Returns the object that the name in a request stands for after a history. It is none where the request has no name.
fn object_named(places: &[Place], ask: &Ask) -> Option<ObjId>
    ensures { result ≡ option_and_then (name_words.stands_for places.now)
        (name_words.name_in ask.now) }
{
    match name_in(ask) {
        Some(name) => stands(places, name),
        None => None,
    }
}

/// Returns the objects that a request exports, and those to which it returns references. Both lists are empty where it
/// is not effective.
fn effects_of(
    alloc: Global,
    config: &SpaceConfig,
    places: &[Place],
    effective: bool,
    ask: &Ask,
) -> Result<(ExportedList, ObjIds), AllocError>
    ensures adds { IfOk result
        (λ both. both.0 ≡ (if effective then words.exports config.now places.now ask.now else [])) }
    ensures lists { IfOk result (λ both.
        both.1 ≡ (if effective then words.returned_objects config.now places.now ask.now else [])) }
{
    if !effective {
        let none = Sequence::from_vec(Vec::new(alloc));
        return Ok((none, Sequence::from_vec(Vec::new(alloc))));
    }
    let adds = exports(alloc, config, places, ask)?;
    let listed = returned_objects(alloc, config, places, ask)?;
    Ok((Sequence::from_vec(adds), Sequence::from_vec(listed)))
}

/// The table before an event, and a copy of the event.
fn table_and_event(
    alloc: Global,
    config: &SpaceConfig,
    places: &[Place],
    event: &Event,
) -> Result<(ExportedList, Event), AllocError>
    ensures table { IfOk result (λ both. both.0 ≡ words.table config.now places.now) }
    ensures event { IfOk result (λ both. both.1 ≡ event.now) }
{
    let objects = table(alloc, config, places)?;
    let copy = event.copy(alloc)?;
    Ok((ExportedList::from_vec(objects), copy))
}

/// The place of an event after a history.
#[tactic(auto, unfolding(history::specs::Table::place_of))]
pub fn place_of(
    alloc: Global,
    config: &SpaceConfig,
    places: &[Place],
    event: &Event,
) -> Result<Place, AllocError>
    ensures { IfOk result (λ p. p ≡ words.place_of config.now places.now event.now) }
{
    let effective = is_effective(alloc, config, places, event.by, &event.ask)?;
    let stood = object_named(places, &event.ask);
    let moment = event.moment.max(now(places));
    let (adds, lists) = effects_of(alloc, config, places, effective, &event.ask)?;
    let (before, event) = table_and_event(alloc, config, places, event)?;
    Ok(Place {
        index: places.len() as u64,
        moment,
        event,
        effective,
        table_before: before,
        name_stood_for: stood,
        exported_here: adds,
        returned_here: lists,
    })
}

/// The places of a history, the newest first. Its events are given oldest first.
pub fn places(
    alloc: Global,
    config: &SpaceConfig,
    events: &[Event],
) -> Result<Vec<Place>, AllocError>
    ensures { IfOk result (λ places. places.items ≡ words.places config.now events.now) }
{
    let mut places = Vec::new(alloc);
    for event in events {
        let place = place_of(alloc, config, places.as_slice(), event)?;
        places.insert(0, place)?;
    }
    Ok(places)
}

// ---- withdrawals

fn is_let_go(
    alloc: Global,
    config: &SpaceConfig,
    places: &[Place],
    x: &Exported,
) -> Result<bool, AllocError>
    ensures { IfOk result (λ gone. gone ≡ not (words.is_kept config.now places.now x.now)) }
{
    let kept = is_kept(alloc, config, places, x)?;
    Ok(!kept)
}

fn before_all(x: Exported, objects: Vec<Exported>) -> Result<Vec<Exported>, AllocError>
    ensures { IfOk result (λ more. more.items ≡ x ∷ objects.items) }
{
    let mut more = objects;
    more.insert(0, x)?;
    Ok(more)
}

fn objects_let_go(
    alloc: Global,
    config: &SpaceConfig,
    places: &[Place],
    objects: &[Exported],
) -> Result<Vec<Exported>, AllocError>
    ensures { IfOk result (λ gone.
        gone.items ≡ filter (λ x. not (words.is_kept config.now places.now x)) objects.now) }
{
    match objects {
        [] => Ok(Vec::new(alloc)),
        [x, rest @ ..] => {
            let gone = objects_let_go(alloc, config, places, rest)?;
            if is_let_go(alloc, config, places, x)? {
                before_all(*x, gone)
            } else {
                Ok(gone)
            }
        }
    }
}

/// The objects that a history withdraws at its newest place.
#[tactic(auto, unfolding(history::specs::Table::withdrawn_objects))]
pub fn withdrawn_objects(
    alloc: Global,
    config: &SpaceConfig,
    places: &[Place],
) -> Result<Vec<Exported>, AllocError>
    ensures { IfOk result (λ gone. gone.items ≡ words.withdrawn_objects config.now places.now) }
{
    match places {
        [] => Ok(Vec::new(alloc)),
        [p, ..] => {
            let mut objects = Vec::from_slice(alloc, p.table_before.as_slice())?;
            objects.extend_from_slice(p.exported_here.as_slice())?;
            objects_let_go(alloc, config, places, objects.as_slice())
        }
    }
}
