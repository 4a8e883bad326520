//! The effects of requests on the exported objects.
ghost use Rattle.std.specs.Prelude.{◌≡◌, ◌⊎◌, ◌≤◌, ◌<◌, ◌+◌, ◌^◌, ◌++◌, ◌∷◌, [], ℕ, List, true, Some, length, vec_capacity};
ghost use Rattle.std.specs.List.{AllByRecursion};
ghost use Rattle.object_ids.specs.declared.ids.ObjId.{ObjId};
ghost use Rattle.object_ids.specs.declared.ids.Uid.{Uid};
ghost use Rattle.history.specs.declared.limits.TheConstants.{MAX_EXPORTS, MAX_AWAITING, END_OF_OBJECT_COUNT, END_OF_TIME};
ghost use Rattle.history.specs.declared.asks.Ask.TheVariants.{Abandon, Finish, Lookup};
ghost use Rattle.history.specs.Names.{object_bound};
ghost use Rattle.event_log.specs.Rows.{IsPlain};
ghost use Rattle.history.specs.Places.{id_at};
ghost use Rattle.export_table.specs.ExportRows.{is_exported, running_of, pins_of, new_row, with_row_changed, pinned_once, with_pin_removed};
ghost use Rattle.space.specs.Acts.{acted_exports, awaiting_with, new_rows, opens, returned_by, returned_from};
ghost use Rattle.export_table.specs.StandsForHistory.{waits_once, reference_of};
ghost use Rattle.export_table.specs.Waits.{with_each_listed};

use crate::prepared::Admitted;
use event_log::SpaceEvents;
use export_table::Exports;
use history::{Ask, Event};
use object_ids::{ObjId, ObjIds, Uid};
use std::alloc::Global;

/// Does what an admitted ask does to the exported objects at a moment, but for the withdrawals. There is room for what it adds, and it returns
/// references to the objects `returned`.
pub(crate) fn act(
    exports: &mut Exports,
    admitted: Admitted,
    now: u64,
    returned: &[ObjId],
    ask: &Ask,
)
    requires few { (o : ObjId) → running_of exports.old.rows o < 2 ^ 31 }
    requires runs { (o : ObjId) → admitted.effective ≡ true → ask.now ≡ Abandon o
        → 0 < running_of exports.old.rows o }
    requires returns { (o : ObjId) (made : List ℕ) (listed : List ObjId) (u : Uid)
        → admitted.effective ≡ true → ask.now ≡ Finish o made listed u
        → 0 < running_of exports.old.rows o }
    requires countable { exports.old.added + opens admitted.effective ask.now
        < END_OF_OBJECT_COUNT }
    requires within { length exports.old.rows + opens admitted.effective ask.now ≤ MAX_EXPORTS }
    requires early { now < END_OF_TIME }
    requires some { 1 ≤ exports.old.ack }
    requires once { waits_once reference_of exports.old.waits }
    requires returned { returned.now
        ≡ returned_by exports.old.space exports.old.added exports.old.rows
        admitted.stood admitted.effective ask.now }
    requires stands { (o : ObjId) → admitted.stood ≡ Some o
        → (is_exported exports.old.rows o ≡ true) × 0 < pins_of exports.old.rows o }
    requires few_pins { (o : ObjId) → pins_of exports.old.rows o < 2 ^ 31 }
    requires bound { (o : ObjId) → admitted.effective ≡ true → object_bound ask.now ≡ Some o
        → is_exported exports.old.rows o ≡ true }
    requires looks { (n : List ℕ) (u : Uid) → ask.now ≡ Lookup n u
        → awaiting_with now u returned.now exports.old.waits ≤ MAX_AWAITING }
    requires awaiting { (o : ObjId) (made : List ℕ) (listed : List ObjId) (u : Uid)
        → admitted.effective ≡ true → ask.now ≡ Finish o made listed u
        → awaiting_with now u returned.now exports.old.waits ≤ MAX_AWAITING }
    requires objects_room { opens admitted.effective ask.now ≤ exports.old.room.exports }
    requires waits_room { length returned.now ≤ exports.old.room.waits }
    ensures { exports.new
        ≡ record (acted_exports admitted.stood admitted.effective now ask.now exports.old)
        { room = exports.new.room } }
{
    let Admitted { stood, effective } = admitted;
    match ask {
        Ask::Open { kind, pinned } => add(exports, *kind, *pinned),
        Ask::Begin { object } if effective => {
            let _exported = exports.begin(*object);
        }
        Ask::Finish {
            object,
            made,
            listed: _,
            uid,
        } if effective => {
            let end = Return {
                made: made.as_slice(),
                listed: returned,
                uid: *uid,
            };
            end_with(exports, now, object, &end)
        }
        Ask::Abandon { object } if effective => exports.end(*object),
        Ask::Ack { uid } => exports.ack(*uid),
        Ask::Bind { name: _, object } if effective => pin_for_name(exports, object, stood),
        Ask::Rebind { name: _, object } if effective => pin_for_name(exports, object, stood),
        Ask::Unbind { name: _ } if effective => unpin(exports, stood),
        Ask::Lookup { name: _, uid } => await_all(exports, now, returned, uid),
        _ => {}
    }
}

/// Pins the object to which a name is bound, and takes a pin off the one for which the name stood before, if it stood for one.
fn pin_for_name(exports: &mut Exports, object: &ObjId, before: Option<ObjId>)
    requires exported { is_exported exports.old.rows object.now ≡ true }
    requires few { pins_of exports.old.rows object.now < 2 ^ 31 }
    requires stands { (o : ObjId) → before ≡ Some o
        → (is_exported exports.old.rows o ≡ true) × 0 < pins_of exports.old.rows o }
    ensures { exports.new
        ≡ record exports.old {
          rows = with_pin_removed before
              (with_row_changed pinned_once object.now exports.old.rows);
        } }
{
    exports.pin(*object);
    unpin(exports, before);
}

/// Takes a pin off this object, if there is one.
fn unpin(exports: &mut Exports, stood: Option<ObjId>)
    requires { (o : ObjId) → stood ≡ Some o
        → (is_exported exports.old.rows o ≡ true) × 0 < pins_of exports.old.rows o }
    ensures { exports.new ≡ record exports.old { rows = with_pin_removed stood exports.old.rows } }
{
    if let Some(object) = stood {
        exports.unpin(object);
    }
}

/// A return of a call.
#[derive(Clone, Copy)]
struct Return<'a> {
    /// The kinds of the objects that it exports.
    made: &'a [u32],
    /// The objects to which it has references.
    listed: &'a [ObjId],
    /// Its identifier.
    uid: Uid,
}

/// Ends a call of an object with its return at a moment: adds the objects that it exports, and has references to those that it lists,
/// each of which is then exported, await. There is room for them.
fn end_with(exports: &mut Exports, now: u64, object: &ObjId, returned: &Return<'_>)
    requires runs { 0 < running_of exports.old.rows object.now }
    requires countable { exports.old.added + length returned.now.made.now < END_OF_OBJECT_COUNT }
    requires within { length exports.old.rows + length returned.now.made.now ≤ MAX_EXPORTS }
    requires early { now < END_OF_TIME }
    requires some { 1 ≤ exports.old.ack }
    requires once { waits_once reference_of exports.old.waits }
    requires exported { AllByRecursion (λ o. is_exported
        (exports.old.rows ++ new_rows exports.old.space exports.old.added returned.now.made.now) o
        ≡ true) returned.now.listed.now }
    requires awaiting { awaiting_with now returned.now.uid returned.now.listed.now exports.old.waits
        ≤ MAX_AWAITING }
    requires objects_room { length returned.now.made.now ≤ exports.old.room.exports }
    requires waits_room { length returned.now.listed.now ≤ exports.old.room.waits }
    ensures { exports.new
        ≡ record (returned_from now object.now returned.now.made.now returned.now.listed.now
        returned.now.uid exports.old) { room = exports.new.room } }
{
    exports.end(*object);
    add_all(exports, returned.made);
    await_all(exports, now, returned.listed, &returned.uid);
}

/// Adds an object, for which there is room.
fn add(exports: &mut Exports, kind: u32, pinned: bool)
    requires countable { exports.old.added < END_OF_OBJECT_COUNT }
    requires room { 1 ≤ exports.old.room.exports }
    requires within { length exports.old.rows < MAX_EXPORTS }
    ensures value { let rows = exports.old.rows
        ++ new_row (id_at exports.old.space exports.old.added) kind pinned ∷ [] in
        exports.new
        ≡ record exports.old
        { added = exports.old.added + 1; rows = rows; room = exports.new.room } }
    ensures objects_room { exports.old.room.exports ≤ exports.new.room.exports + 1 }
    ensures waits_room { exports.new.room.waits ≡ exports.old.room.waits }
{
    match exports.add(kind, pinned) {
        Ok(_id) => {}
        Err(_refused) => {}
    }
}

/// Adds objects of these kinds, for which there is room.
fn add_all(exports: &mut Exports, made: &[u32])
    requires countable { exports.old.added + length made.now < END_OF_OBJECT_COUNT }
    requires room { length made.now ≤ exports.old.room.exports }
    requires within { length exports.old.rows + length made.now ≤ MAX_EXPORTS }
    ensures value { let rows = exports.old.rows
        ++ new_rows exports.old.space exports.old.added made.now in
        exports.new
        ≡ record exports.old
        { added = exports.old.added + length made.now; rows = rows; room = exports.new.room } }
    ensures waits_room { exports.new.room.waits ≡ exports.old.room.waits }
{
    for kind in made {
        add(exports, *kind, false);
    }
}

/// Has references to exported objects await, as listed in a return at a moment. There is room for them.
fn await_all(exports: &mut Exports, now: u64, objects: &[ObjId], uid: &Uid)
    requires exported { AllByRecursion (λ o. is_exported exports.old.rows o ≡ true) objects.now }
    requires early { now < END_OF_TIME }
    requires some { 1 ≤ exports.old.ack }
    requires once { waits_once reference_of exports.old.waits }
    requires awaiting { awaiting_with now uid.now objects.now exports.old.waits ≤ MAX_AWAITING }
    requires room { length objects.now ≤ exports.old.room.waits }
    ensures { exports.new
        ≡ record exports.old {
          waits = with_each_listed exports.old.ack now uid.now objects.now exports.old.waits;
          room = exports.new.room;
        } }
{
    for object in objects {
        match exports.wait_for(*object, *uid, now) {
            Ok(()) => {}
            Err(_refused) => {}
        }
    }
}

/// The objects that a turn tells as gone. Where there are none, the memory that was ready for them is given back.
pub(crate) fn gone_ids(alloc: Global, gone: Vec<ObjId>) -> ObjIds
    ensures { result ≡ gone.items }
{
    if gone.is_empty() {
        ObjIds::new(alloc)
    } else {
        ObjIds::from_vec(gone)
    }
}

/// A list of objects, in memory of its own length, which is none where there are none. Where there is no such memory, it is in that which has
/// room for it.
pub(crate) fn fit_list(alloc: Global, room: Vec<ObjId>, objects: &ObjIds) -> ObjIds
    requires { length objects.now ≤ vec_capacity room }
    ensures { result ≡ objects.now }
{
    if objects.is_empty() {
        return ObjIds::new(alloc);
    }
    match objects.copy(alloc) {
        Ok(list) => list,
        Err(_refused) => fill_list(room, objects),
    }
}

/// A list of objects, in memory that has room for it. What was there is dropped.
pub(crate) fn fill_list(mut room: Vec<ObjId>, objects: &ObjIds) -> ObjIds
    requires { length objects.now ≤ vec_capacity room }
    ensures { result ≡ objects.now }
{
    room.clear();
    if objects.is_empty() {
        return ObjIds::from_vec(room);
    }
    match room.extend_from_slice(objects.as_slice()) {
        Ok(()) => {}
        Err(_refused) => {}
    }
    ObjIds::from_vec(room)
}

/// Appends an event, for which there is room.
pub(crate) fn put_event(events: &mut SpaceEvents, event: Event)
    requires room { length events.old.items < events.old.capacity }
    requires spare { IsPlain events.old.space event.ask ⊎ (events.old.spare ≡ true) }
    ensures items { events.new.items ≡ events.old.items ++ event ∷ [] }
    ensures capacity { events.old.capacity ≤ events.new.capacity }
    ensures stored { events.new.stored ≡ events.old.stored }
{
    events.push_reserved(event);
}
