//! The steps of one seat.
ghost use Rattle.std.specs.Prelude.{◌≡◌, ◌≢◌, ℕ, ◌<◌, ◌∷◌, ◌++◌, [], length, Err, None, Some, IfOk, IfSome};
ghost use Rattle.history.specs.Running.{running_calls_by};
ghost use Rattle.history.specs.Table.{places};
ghost use Rattle.history.specs.declared.limits.TheConstants.{END_OF_TIME};
ghost use Rattle.space.specs.Entries.{entry_of};
ghost use Rattle.space.specs.TurnAnswers.{IsAnswerTo};
ghost use Rattle.turn_lock.specs.declared.view.SeatState.TheVariants.{Idle, Drawn, Called};
ghost use Rattle.turn_lock.specs.Recent.{IsRest};
ghost use Rattle.turn_lock.specs.Rule.{EndedBy, Events, MayComeTo, SeesMore, TurnedAt, TurnedBy, answer_of, events_answered, holding, in_state, space_with, seat_after_answer};

use crate::desk::DeskBox;
use crate::table::{
    Advance, Draw, LENGTH, LockSeat, Look, Naming, PassOver, Publish, SERVING, SharedTable, TICKET,
};
use crate::waiting::{approach, pause, wake};
use history::{Ask, Event, EventList, Refused, Turn};
use object_ids::ObjId;
use space::Asked;
use std::alloc::AllocError;
use std::marker::Brand;
use std::snapshot::Snapshot;
use std::sync::Wait;

/// Draws a ticket, and answers its word.
fn draw(shared: &SharedTable, seat: &mut LockSeat) -> u64
    requires table { (seat.old.table_id ≡ shared.now.table_id) × (shared.now.table_id.words ≡ 3)
        × (shared.now.table_id.slots ≡ 1) }
    requires idle { (seat.old.me.0.state ≡ Idle) × (seat.old.me.1 ≡ [])
        × (0 < seat.old.me.0.parts) }
    ensures seat { (seat.new.table_id ≡ seat.old.table_id) × (seat.new.id ≡ seat.old.id) }
    ensures view { seat.new.me ≡ (in_state seat.old.me.0 (Drawn result), []) }
{
    shared.fetch_add::<Draw>(seat, TICKET, 1)
}

/// Waits until the ticket of this word is served. Then the seat has the slot.
fn wait<R: Wait>(rt: &R, shared: &SharedTable, seat: &mut LockSeat, ticket: u64)
    requires table { (seat.old.table_id ≡ shared.now.table_id) × (shared.now.table_id.words ≡ 3)
        × (shared.now.table_id.slots ≡ 1) }
    requires drawn { (seat.old.me.0.state ≡ Drawn ticket) × (seat.old.me.1 ≡ [])
        × (0 < seat.old.me.0.parts) }
    ensures seat { (seat.new.table_id ≡ seat.old.table_id) × (seat.new.id ≡ seat.old.id) }
    ensures view { (h : Events)
        × (seat.new.me
        ≡ (in_state seat.old.me.0 (Called ticket h), holding (space_with seat.old.me.0.config h)))
        × MayComeTo seat.old.me.0 h }
{
    let mut looks = 0u32;
    for _ in rt.forever() {
        let served = shared.load::<Look>(seat, SERVING);
        if served == ticket {
            return;
        }
        pause(rt, shared, SERVING, served, looks);
        looks = looks.saturating_add(1);
    }
    unreachable!()
}

/// Waits for its turn, and takes the space out of the slot.
pub(crate) fn enter<R: Wait>(rt: &R, shared: &SharedTable, seat: &mut LockSeat) -> DeskBox
    requires table { (seat.old.table_id ≡ shared.now.table_id) × (shared.now.table_id.words ≡ 3)
        × (shared.now.table_id.slots ≡ 1) }
    requires idle { (seat.old.me.0.state ≡ Idle) × (seat.old.me.1 ≡ [])
        × (0 < seat.old.me.0.parts) }
    ensures seat { (seat.new.table_id ≡ seat.old.table_id) × (seat.new.id ≡ seat.old.id) }
    ensures entered { (t : ℕ) × (h : Events) × MayComeTo seat.old.me.0 h
        × (result ≡ space_with seat.old.me.0.config h)
        × (seat.new.me ≡ (in_state seat.old.me.0 (Called t h), (0, None) ∷ [])) }
{
    approach(rt, shared);
    let ticket = draw(shared, seat);
    wait(rt, shared, seat, ticket);
    shared.exchange(seat, 0, None).unwrap()
}

/// Publishes the length of the history with an event, which the history in hand has from now on.
fn publish<N: Naming>(
    shared: &SharedTable,
    seat: &mut LockSeat,
    event: &Snapshot<Event>,
    desk: &DeskBox,
)
    requires table { (seat.old.table_id ≡ shared.now.table_id) × (shared.now.table_id.words ≡ 3)
        × (shared.now.table_id.slots ≡ 1) }
    requires named { event.now.value ≡ N.event }
    requires called { (t : ℕ) × (h : Events) × (seat.old.me.0.state ≡ Called t h)
        × (0 < seat.old.me.0.parts) × (event.now.value.by ≡ seat.old.me.0.number)
        × (desk.now ≡ space_with seat.old.me.0.config (h ++ event.now.value ∷ [])) }
    ensures seat { (seat.new.table_id ≡ seat.old.table_id) × (seat.new.id ≡ seat.old.id) }
    ensures view { (t : ℕ) (h : Events) → seat.old.me.0.state ≡ Called t h
        → seat.new.me
        ≡ (
          record seat.old.me.0 {
            seen = h ++ event.now.value ∷ [];
            own = seat.old.me.0.own ++ event.now.value ∷ [];
            state = Called t (h ++ event.now.value ∷ []);
          },
          seat.old.me.1,
        ) }
{
    shared.store::<Publish<N>>(seat, LENGTH, desk.len());
}

/// Publishes the length of the history in hand, which was seen, without an event.
pub(crate) fn pass_over(shared: &SharedTable, seat: &mut LockSeat, desk: &DeskBox)
    requires table { (seat.old.table_id ≡ shared.now.table_id) × (shared.now.table_id.words ≡ 3)
        × (shared.now.table_id.slots ≡ 1) }
    requires called { (t : ℕ) × (h : Events) × (seat.old.me.0.state ≡ Called t h)
        × (0 < seat.old.me.0.parts) × (desk.now ≡ space_with seat.old.me.0.config h) }
    ensures seat { (seat.new.table_id ≡ seat.old.table_id) × (seat.new.id ≡ seat.old.id) }
    ensures view { (t : ℕ) (h : Events) → seat.old.me.0.state ≡ Called t h
        → seat.new.me ≡ (record seat.old.me.0 { seen = h; state = Called t h }, seat.old.me.1) }
{
    shared.store::<PassOver>(seat, LENGTH, desk.len());
}

/// Publishes what the answer to an event says of it.
fn publish_answer(
    shared: &SharedTable,
    seat: &mut LockSeat,
    event: &Snapshot<Event>,
    desk: &DeskBox,
    answer: &Result<Turn, Refused>,
)
    requires table { (seat.old.table_id ≡ shared.now.table_id) × (shared.now.table_id.words ≡ 3)
        × (shared.now.table_id.slots ≡ 1) }
    requires called { (t : ℕ) × (h : Events) × (seat.old.me.0.state ≡ Called t h)
        × (0 < seat.old.me.0.parts) × (event.now.value.by ≡ seat.old.me.0.number)
        × (desk.now ≡ space_with seat.old.me.0.config
        (events_answered h event.now.value answer.now)) }
    ensures seat { (seat.new.table_id ≡ seat.old.table_id) × (seat.new.id ≡ seat.old.id) }
    ensures view { (t : ℕ) (h : Events) → seat.old.me.0.state ≡ Called t h
        → seat.new.me
        ≡ (seat_after_answer seat.old.me.0 t h event.now.value answer.now, seat.old.me.1) }
{
    match answer {
        Ok(_turn) => publish::<Brand>(shared, seat, event, desk),
        Err(_refused) => pass_over(shared, seat, desk),
    }
}

/// Publishes what a turn with its entry says of its event.
fn publish_noted(
    shared: &SharedTable,
    seat: &mut LockSeat,
    event: &Snapshot<Event>,
    desk: &DeskBox,
    noted: &Result<(Result<Turn, Refused>, Asked), AllocError>,
)
    requires table { (seat.old.table_id ≡ shared.now.table_id) × (shared.now.table_id.words ≡ 3)
        × (shared.now.table_id.slots ≡ 1) }
    requires called { (t : ℕ) × (h : Events) × (seat.old.me.0.state ≡ Called t h)
        × (0 < seat.old.me.0.parts) × (event.now.value.by ≡ seat.old.me.0.number)
        × (desk.now ≡ space_with seat.old.me.0.config
        (events_answered h event.now.value (answer_of noted.now))) }
    ensures seat { (seat.new.table_id ≡ seat.old.table_id) × (seat.new.id ≡ seat.old.id) }
    ensures view { (t : ℕ) (h : Events) → seat.old.me.0.state ≡ Called t h
        → seat.new.me
        ≡ (
          seat_after_answer seat.old.me.0 t h event.now.value (answer_of noted.now),
          seat.old.me.1,
        ) }
{
    match noted {
        Ok((answer, _entry)) => publish_answer(shared, seat, event, desk, answer),
        Err(_refused) => pass_over(shared, seat, desk),
    }
}

/// Gives the space back, and lets the next ticket be served.
pub(crate) fn leave(shared: &SharedTable, seat: &mut LockSeat, desk: DeskBox)
    requires table { (seat.old.table_id ≡ shared.now.table_id) × (shared.now.table_id.words ≡ 3)
        × (shared.now.table_id.slots ≡ 1) }
    requires called { (t : ℕ) × (h : Events) × (seat.old.me.0.state ≡ Called t h)
        × (0 < seat.old.me.0.parts) × (seat.old.me.1 ≡ (0, None) ∷ [])
        × (desk ≡ space_with seat.old.me.0.config h) }
    ensures seat { (seat.new.table_id ≡ seat.old.table_id) × (seat.new.id ≡ seat.old.id) }
    ensures view { seat.new.me ≡ (in_state seat.old.me.0 Idle, []) }
{
    drop(shared.exchange(seat, 0, Some(desk)));
    let served = shared.fetch_add::<Advance>(seat, SERVING, 1);
    wake(shared, served.wrapping_add(1));
}

/// One turn of the pass whose number the event has.
pub(crate) fn turn<R: Wait>(
    rt: &R,
    shared: &SharedTable,
    seat: &mut LockSeat,
    event: Event,
) -> Result<Turn, Refused>
    requires table { (seat.old.table_id ≡ shared.now.table_id) × (shared.now.table_id.words ≡ 3)
        × (shared.now.table_id.slots ≡ 1) }
    requires idle { (seat.old.me.0.state ≡ Idle) × (seat.old.me.1 ≡ [])
        × (0 < seat.old.me.0.parts) }
    requires number { event.by ≡ seat.old.me.0.number }
    requires moment { event.moment < END_OF_TIME }
    ensures seat { (seat.new.table_id ≡ seat.old.table_id) × (seat.new.id ≡ seat.old.id)
        × (seat.new.me.1 ≡ []) }
    ensures turned { TurnedBy seat.old.me.0 event.by event.moment event.ask result seat.new.me.0 }
{
    let mut desk = enter(rt, shared, seat);
    let taken = Snapshot::of(&event);
    let Event { by, moment, ask } = event;
    let answer = desk.kept.turn(by, moment, ask);
    publish_answer(shared, seat, &taken, &desk, &answer);
    leave(shared, seat, desk);
    answer
}

/// The same with its entry. Where there is no memory for the entry, the event is refused.
pub(crate) fn turn_noted<R: Wait>(
    rt: &R,
    shared: &SharedTable,
    seat: &mut LockSeat,
    event: Event,
) -> Result<(Result<Turn, Refused>, Asked), AllocError>
    requires table { (seat.old.table_id ≡ shared.now.table_id) × (shared.now.table_id.words ≡ 3)
        × (shared.now.table_id.slots ≡ 1) }
    requires idle { (seat.old.me.0.state ≡ Idle) × (seat.old.me.1 ≡ [])
        × (0 < seat.old.me.0.parts) }
    requires number { event.by ≡ seat.old.me.0.number }
    requires moment { event.moment < END_OF_TIME }
    ensures seat { (seat.new.table_id ≡ seat.old.table_id) × (seat.new.id ≡ seat.old.id)
        × (seat.new.me.1 ≡ []) }
    ensures turned { (before : Events)
        × TurnedAt seat.old.me.0 before event (answer_of result) seat.new.me.0
        × IfOk result (λ x. IsAnswerTo
        (λ o. 0 < running_calls_by (places seat.old.me.0.config before) event.by o) event.ask x.0) }
    ensures noted { IfOk result (λ x. x.1 ≡ entry_of event.moment event.ask x.0) }
    ensures known { IfOk result (λ x. x.0 ≢ Err Refused.OutOfMemory) }
{
    let mut desk = enter(rt, shared, seat);
    let taken = Snapshot::of(&event);
    let Event { by, moment, ask } = event;
    let noted = desk.kept.turn_noted(by, moment, ask);
    publish_noted(shared, seat, &taken, &desk, &noted);
    leave(shared, seat, desk);
    noted
}

/// One turn that ends a call which the pass runs, without an answer. It takes no memory, and answers the place of the event.
pub(crate) fn abandon<R: Wait>(
    rt: &R,
    shared: &SharedTable,
    seat: &mut LockSeat,
    by: u32,
    moment: u64,
    object: ObjId,
) -> u64
    requires table { (seat.old.table_id ≡ shared.now.table_id) × (shared.now.table_id.words ≡ 3)
        × (shared.now.table_id.slots ≡ 1) }
    requires idle { (seat.old.me.0.state ≡ Idle) × (seat.old.me.1 ≡ [])
        × (0 < seat.old.me.0.parts) }
    requires number { by ≡ seat.old.me.0.number }
    requires moment { moment < END_OF_TIME }
    requires runs { 0 < running_calls_by (places seat.old.me.0.config seat.old.me.0.seen) by
        object }
    ensures seat { (seat.new.table_id ≡ seat.old.table_id) × (seat.new.id ≡ seat.old.id)
        × (seat.new.me.1 ≡ []) }
    ensures turned { EndedBy seat.old.me.0 by moment object result seat.new.me.0 }
{
    let mut desk = enter(rt, shared, seat);
    let place = desk.len();
    desk.kept.abandon(by, moment, object);
    let taken = Snapshot::of(&Event {
        by,
        moment,
        ask: Ask::Abandon { object },
    });
    publish::<Brand>(shared, seat, &taken, &desk);
    leave(shared, seat, desk);
    place
}

/// Hands out the recent events from this place on, with the place at which they end, and makes no turn.
pub(crate) fn take_recent<R: Wait>(
    rt: &R,
    shared: &SharedTable,
    seat: &mut LockSeat,
    from: u64,
) -> Option<(EventList, u64)>
    requires table { (seat.old.table_id ≡ shared.now.table_id) × (shared.now.table_id.words ≡ 3)
        × (shared.now.table_id.slots ≡ 1) }
    requires idle { (seat.old.me.0.state ≡ Idle) × (seat.old.me.1 ≡ [])
        × (0 < seat.old.me.0.parts) }
    ensures seat { (seat.new.table_id ≡ seat.old.table_id) × (seat.new.id ≡ seat.old.id)
        × (seat.new.me.1 ≡ []) }
    ensures sees { SeesMore seat.old.me.0 seat.new.me.0 }
    ensures recent { IfSome result (λ x. IsRest from seat.new.me.0.seen x.0) }
    ensures end { IfSome result (λ x. x.1 ≡ length seat.new.me.0.seen) }
{
    let mut desk = enter(rt, shared, seat);
    let part = desk.kept.take_recent(from);
    let end = desk.len();
    pass_over(shared, seat, &desk);
    leave(shared, seat, desk);
    with_end(part, end)
}

/// Returns the events, if there are any, with the place at which they end.
fn with_end(part: Option<EventList>, end: u64) -> Option<(EventList, u64)>
    ensures { IfSome result (λ x. (part ≡ Some x.0) × (x.1 ≡ end)) }
{
    match part {
        Some(events) => Some((events, end)),
        None => None,
    }
}
