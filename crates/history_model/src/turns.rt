//! Replies, refusals and whole runs.
ghost use Rattle.std.specs.Prelude.{◌≡◌, ◌∷◌, ◌++◌, map, if◌then◌else◌, IfOk};
ghost use Rattle.history.specs.Limits.{refusal as cause_of};
ghost use Rattle.history.specs.Names as name_words;
ghost use Rattle.history.specs.Places as place_words;
ghost use Rattle.history.specs.Replies as reply_words;
ghost use Rattle.history.specs.Steps.{turn_of, answer_to, history_after, answers as all_answers};
ghost use Rattle.history.specs.Table as table_words;

use crate::limits::refusal;
use crate::names::names;
use crate::places::{exported_count, has, ids, kind_of};
use crate::table::{place_of, places, stands, table, withdrawn_objects};
use history::asks::is_abandon;
use history::places::id_at;
use history::{
    Ask, Event, Exported, Limits, Place, Refused, Reply, SpaceConfig, Turn, Withdrawal, grant,
};
use object_ids::{ObjId, ObjIds};
use sequence::NameList;
use std::alloc::{AllocError, Global};

// ---- replies

/// Returns the reply to an event after a history.
#[tactic(auto, unfolding(history::specs::Replies::reply))]
pub fn reply(
    alloc: Global,
    config: &SpaceConfig,
    places: &[Place],
    event: &Event,
) -> Result<Reply, AllocError>
    ensures { IfOk result (λ reply. reply ≡ reply_words.reply config.now places.now event.now) }
{
    let p = place_of(alloc, config, places, event)?;
    let answer = reply_at(alloc, config, places, &p, &event.ask)?;
    Ok(answer)
}

/// Returns the reply to the event of this place.
fn reply_at(
    alloc: Global,
    config: &SpaceConfig,
    places: &[Place],
    p: &Place,
    ask: &Ask,
) -> Result<Reply, AllocError>
    ensures { IfOk result
        (λ reply. reply ≡ reply_words.reply_to config.now places.now p.now ask.now) }
{
    let objects = table(alloc, config, places)?;
    let answer = reply_to(alloc, config, places, p, objects.as_slice(), ask)?;
    Ok(answer)
}

fn reply_to(
    alloc: Global,
    config: &SpaceConfig,
    places: &[Place],
    p: &Place,
    objects: &[Exported],
    ask: &Ask,
) -> Result<Reply, AllocError>
    requires { objects.now ≡ table_words.table config.now places.now }
    ensures { IfOk result
        (λ reply. reply ≡ reply_words.reply_to config.now places.now p.now ask.now) }
{
    match ask {
        Ask::Open { kind: _, pinned: _ } => reply_to_open(alloc, config, places),
        Ask::Begin { object } => Ok(reply_to_begin(objects, p.effective, *object)),
        Ask::Finish {
            object: _,
            made: _,
            listed: _,
            uid: _,
        } => reply_to_finish(alloc, p),
        Ask::Abandon { object: _ } => Ok(reply_to_abandon(p.effective)),
        Ask::Dirty {
            client: _,
            number: _,
            asked,
            objects: _,
        } => Ok(Reply::Granted(grant(config.lease_ms, *asked))),
        Ask::Bind { name: _, object } => Ok(reply_to_bind(objects, p.effective, *object)),
        Ask::Rebind { name: _, object: _ } => Ok(reply_to_rebind(p.effective)),
        Ask::Unbind { name: _ } => Ok(reply_to_unbind(p.effective)),
        Ask::Lookup { name, uid: _ } => Ok(reply_to_lookup(objects, stands(places, name))),
        Ask::List => reply_to_list(alloc, places),
        // a Clean, an Ack, a Tick
        _ => Ok(Reply::Done),
    }
}

fn reply_to_open(alloc: Global, config: &SpaceConfig, places: &[Place]) -> Result<Reply, AllocError>
    ensures { IfOk result (λ reply. reply ≡ Reply.Opened
        (place_words.id_at config.now.uid (place_words.exported_count places.now))) }
{
    let new = id_at(config.uid, exported_count(alloc, places)?);
    Ok(Reply::Opened(new))
}

fn reply_to_finish(alloc: Global, p: &Place) -> Result<Reply, AllocError>
    ensures { IfOk result (λ reply. reply
        ≡ (if p.now.effective then Reply.Finished (reply_words.ids p.now.exported_here) else
        Reply.NotRunning)) }
{
    if p.effective {
        let new = ids(alloc, p.exported_here.as_slice())?;
        Ok(Reply::Finished(ObjIds::from_vec(new)))
    } else {
        Ok(Reply::NotRunning)
    }
}

fn reply_to_list(alloc: Global, places: &[Place]) -> Result<Reply, AllocError>
    ensures { IfOk result (λ reply. reply ≡ Reply.Names (name_words.names places.now)) }
{
    let all = names(alloc, places)?;
    Ok(Reply::Names(NameList::from_vec(all)))
}

fn reply_to_begin(objects: &[Exported], effective: bool, object: ObjId) -> Reply
    ensures { result
        ≡ (if effective then Reply.Started (place_words.kind_of objects.now object) else
        Reply.NoObject) }
{
    if effective {
        Reply::Started(kind_of(objects, object))
    } else {
        Reply::NoObject
    }
}

fn reply_to_abandon(effective: bool) -> Reply
    ensures { result ≡ (if effective then Reply.Done else Reply.NotRunning) }
{
    if effective {
        Reply::Done
    } else {
        Reply::NotRunning
    }
}

fn reply_to_bind(objects: &[Exported], effective: bool, object: ObjId) -> Reply
    ensures { result
        ≡ (if effective then Reply.Bound else if place_words.has objects.now object then
        Reply.AlreadyBound else Reply.NoObject) }
{
    if effective {
        Reply::Bound
    } else if has(objects, object) {
        Reply::AlreadyBound
    } else {
        Reply::NoObject
    }
}

fn reply_to_rebind(effective: bool) -> Reply
    ensures { result ≡ (if effective then Reply.Bound else Reply.NoObject) }
{
    if effective {
        Reply::Bound
    } else {
        Reply::NoObject
    }
}

fn reply_to_unbind(effective: bool) -> Reply
    ensures { result ≡ (if effective then Reply.Unbound else Reply.NotBound) }
{
    if effective {
        Reply::Unbound
    } else {
        Reply::NotBound
    }
}

fn reply_to_lookup(objects: &[Exported], stood: Option<ObjId>) -> Reply
    ensures { result ≡ reply_words.reply_found objects.now stood }
{
    match stood {
        Some(object) => Reply::Found(object, kind_of(objects, object)),
        None => Reply::NotBound,
    }
}

// ---- withdrawals

fn withdrawals_at(
    alloc: Global,
    place: u64,
    objects: &[Exported],
) -> Result<Vec<Withdrawal>, AllocError>
    ensures { IfOk result
        (λ all. all.items ≡ map (λ x. record { object = x.id; place = place }) objects.now) }
{
    match objects {
        [] => Ok(Vec::new(alloc)),
        [x, rest @ ..] => {
            let mut all = withdrawals_at(alloc, place, rest)?;
            let first = Withdrawal {
                object: x.id,
                place,
            };
            all.insert(0, first)?;
            Ok(all)
        }
    }
}

/// The withdrawals of a history at its newest place.
fn withdrawals_at_end(
    alloc: Global,
    config: &SpaceConfig,
    places: &[Place],
) -> Result<Vec<Withdrawal>, AllocError>
    ensures { IfOk result
        (λ all. all.items ≡ table_words.withdrawals_at_end config.now places.now) }
{
    match places {
        [] => Ok(Vec::new(alloc)),
        [p, ..] => {
            let gone = withdrawn_objects(alloc, config, places)?;
            withdrawals_at(alloc, p.index, gone.as_slice())
        }
    }
}

/// All withdrawals of a history, in order.
#[tactic(auto, unfolding(history::specs::Table::withdrawals))]
pub fn withdrawals(
    alloc: Global,
    config: &SpaceConfig,
    places: &[Place],
) -> Result<Vec<Withdrawal>, AllocError>
    ensures { IfOk result (λ all. all.items ≡ table_words.withdrawals config.now places.now) }
{
    match places {
        [] => Ok(Vec::new(alloc)),
        [_, before @ ..] => {
            let mut all = withdrawals(alloc, config, before)?;
            let mut last = withdrawals_at_end(alloc, config, places)?;
            all.append(&mut last)?;
            Ok(all)
        }
    }
}

/// The objects that a history has still to report as gone.
#[tactic(auto, unfolding(history::specs::Replies::unreported_objects))]
fn unreported_objects(
    alloc: Global,
    config: &SpaceConfig,
    places: &[Place],
) -> Result<Vec<ObjId>, AllocError>
    ensures { IfOk result
        (λ gone. gone.items ≡ reply_words.unreported_objects config.now places.now) }
{
    match places {
        [] => Ok(Vec::new(alloc)),
        [p, before @ ..] => {
            if is_abandon(&p.event.ask) {
                let told = unreported_objects(alloc, config, before)?;
                with_withdrawn(alloc, config, places, told)
            } else {
                Ok(Vec::new(alloc))
            }
        }
    }
}

/// Objects, and those that a history withdraws at its newest place.
fn with_withdrawn(
    alloc: Global,
    config: &SpaceConfig,
    places: &[Place],
    objects: Vec<ObjId>,
) -> Result<Vec<ObjId>, AllocError>
    ensures { IfOk result (λ more. more.items
        ≡ objects.items ++ reply_words.ids (table_words.withdrawn_objects config.now places.now)) }
{
    let mut more = objects;
    let gone = withdrawn_objects(alloc, config, places)?;
    let mut gone = ids(alloc, gone.as_slice())?;
    more.append(&mut gone)?;
    Ok(more)
}

/// The places of a history with that of one more event.
fn with_place(
    alloc: Global,
    config: &SpaceConfig,
    places: Vec<Place>,
    event: &Event,
) -> Result<Vec<Place>, AllocError>
    ensures { IfOk result (λ more.
        more.items ≡ table_words.place_of config.now places.items event.now ∷ places.items) }
{
    let p = place_of(alloc, config, places.as_slice(), event)?;
    let mut more = places;
    more.insert(0, p)?;
    Ok(more)
}

/// The objects that an event tells as gone after a history.
#[tactic(auto, unfolding(history::specs::Replies::gone_objects))]
fn gone_objects(
    alloc: Global,
    config: &SpaceConfig,
    places: Vec<Place>,
    event: &Event,
) -> Result<ObjIds, AllocError>
    ensures { IfOk result
        (λ objects. objects ≡ reply_words.gone_objects config.now places.items event.now) }
{
    let told = unreported_objects(alloc, config, places.as_slice())?;
    let after = with_place(alloc, config, places, event)?;
    let all = with_withdrawn(alloc, config, after.as_slice(), told)?;
    Ok(ObjIds::from_vec(all))
}

// ---- turns

/// The turn of an event that is taken after these events.
pub fn turn(
    alloc: Global,
    config: &SpaceConfig,
    events: &[Event],
    event: &Event,
) -> Result<Turn, AllocError>
    ensures { IfOk result (λ turn. turn ≡ turn_of config.now events.now event.now) }
{
    let history = places(alloc, config, events)?;
    let reply = reply(alloc, config, history.as_slice(), event)?;
    let gone = gone_objects(alloc, config, history, event)?;
    Ok(Turn {
        place: events.len() as u64,
        reply,
        gone,
    })
}

/// Returns why an event is refused after these events, or none where it is not.
fn refusal_after(
    alloc: Global,
    limits: &Limits,
    config: &SpaceConfig,
    events: &[Event],
    event: &Event,
) -> Result<Option<Refused>, AllocError>
    ensures { IfOk result (λ cause. cause ≡ cause_of limits.now config.now
        (table_words.places config.now events.now) event.now) }
{
    let history = places(alloc, config, events)?;
    let cause = refusal(alloc, limits, config, history.as_slice(), event)?;
    Ok(cause)
}

/// Events with a copy of one more.
fn with_copy(alloc: Global, events: Vec<Event>, event: &Event) -> Result<Vec<Event>, AllocError>
    ensures { IfOk result (λ more. more.items ≡ table_words.with_event events.items event.now) }
{
    let copy = event.copy(alloc)?;
    let mut more = events;
    more.push(copy)?;
    Ok(more)
}

/// The answer to an event after these events, and the events that stand after it.
pub fn step(
    alloc: Global,
    limits: &Limits,
    config: &SpaceConfig,
    events: Vec<Event>,
    event: &Event,
) -> Result<(Result<Turn, Refused>, Vec<Event>), AllocError>
    ensures answer { IfOk result
        (λ step. step.0 ≡ answer_to limits.now config.now events.items event.now) }
    ensures after { IfOk result
        (λ step. step.1.items ≡ history_after limits.now config.now events.items event.now) }
{
    match refusal_after(alloc, limits, config, events.as_slice(), event)? {
        Some(refused) => Ok((Err(refused), events)),
        None => {
            let turn = turn(alloc, config, events.as_slice(), event)?;
            let after = with_copy(alloc, events, event)?;
            Ok((Ok(turn), after))
        }
    }
}

/// The answers to events that are asked one after another after others.
#[tactic(auto, unfolding(history::specs::Steps::answers))]
pub fn answers(
    alloc: Global,
    limits: &Limits,
    config: &SpaceConfig,
    before: Vec<Event>,
    events: &[Event],
) -> Result<Vec<Result<Turn, Refused>>, AllocError>
    ensures { IfOk result
        (λ all. all.items ≡ all_answers limits.now config.now before.items events.now) }
{
    match events {
        [] => Ok(Vec::new(alloc)),
        [event, rest @ ..] => {
            let (answer, after) = step(alloc, limits, config, before, event)?;
            let mut all = answers(alloc, limits, config, after, rest)?;
            all.insert(0, answer)?;
            Ok(all)
        }
    }
}
