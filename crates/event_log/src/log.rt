//! A list of events in few bytes.
ghost use Rattle.std.specs.Prelude.{◌≡◌, ◌⊎◌, ◌≤◌, ◌<◌, ◌+◌, ◌^◌, ◌++◌, ◌∷◌, [], ◌↔◌, true, length, slice_get, Some, IsTrue, IfOk, OnOk, OnErr};
ghost use Rattle.event_log.specs.Rows.{IsPlain};
ghost use Rattle.event_log.specs.Views.{event_viewed};

use crate::numbered::{Clients, Names};
use crate::rows::{Row, is_plain, plain_row, row_of, view_of};
use crate::view::EventView;
use history::{Ask, Event};
use object_ids::Uid;
use std::alloc::{AllocError, Global};
use std::fmt;
use std::marker::Model;

/// The events of a space, oldest first. A plain event takes a row of 48 bytes: an Open, a Begin, an Abandon, an Ack, a List, a Tick, or a Finish
/// of one of the space's own objects that makes and lists nothing. So does a Dirty or a Clean of none or one of its own objects, and a Lookup; the
/// client or the name is kept beside, mostly once for all its calls. Each other event takes a box beside its row. Contracts see a log as an
/// `EventRecord`: its space, the list of its events, how many of them it has room for, whether it has a box and room for a client and a name
/// to spare, and that it is stored.
#[derive(Drop)]
pub struct EventLog {
    alloc: Global,
    space: Uid,
    clients: Clients,
    names: Names,
    rows: Vec<Row>,
    spare: Option<Box<Event>>,
}

impl Model for EventLog {
    ghost use Rattle.std.specs.Prelude.{◌≡◌, ◌<◌, true, length, map, vec_capacity, is_some};
    ghost use Rattle.std.specs.List.{AllByRecursion};
    ghost use Rattle.event_log.specs.Log.{EventRecord};
    ghost use Rattle.event_log.specs.Rows.{IsKnown, event_of};

    ghost Value = { EventRecord };

    ghost view = { λ l. record {
      space = l.space;
      items = map (event_of l.space l.clients.list.items l.names.list.items) l.rows.items;
      capacity = vec_capacity l.rows;
      spare = is_some l.spare;
      stored = true;
    } };

    ghost invariant = { λ l. AllByRecursion
        (IsKnown (length l.clients.list.items) (length l.names.list.items)) l.rows.items
        × (is_some l.spare ≡ true → length l.clients.list.items < vec_capacity l.clients.list)
        × (is_some l.spare ≡ true → length l.names.list.items < vec_capacity l.names.list) };
}

impl fmt::Debug for EventLog {
    fn fmt<W: fmt::Write>(&self, f: &mut fmt::Formatter<W>) -> fmt::Result {
        f.debug_struct("EventLog")
            .field("len", &self.rows.len())
            .finish_non_exhaustive()
    }
}

/// A box with room for an event.
fn room(alloc: Global) -> Result<Box<Event>, AllocError> {
    let event = Event {
        by: 0,
        moment: 0,
        ask: Ask::Tick,
    };
    Ok(Box::new(alloc, event)?)
}

impl EventLog {
    /// The empty list of the events of a space with this identifier. It takes no memory.
    pub fn new(alloc: Global, space: Uid) -> EventLog
        ensures space { result.space ≡ space }
        ensures items { result.items ≡ [] }
        ensures stored { result.stored ≡ true }
    {
        EventLog {
            alloc,
            space,
            clients: Clients::new(alloc),
            names: Names::new(alloc),
            rows: Vec::new(alloc),
            spare: None,
        }
    }

    /// Returns the number of events.
    pub fn len(&self) -> usize
        ensures { result ≡ length self.now.items }
    {
        self.rows.len()
    }

    /// Returns whether there are no events.
    pub fn is_empty(&self) -> bool
        ensures { IsTrue result ↔ (self.now.items ≡ []) }
    {
        self.rows.is_empty()
    }

    /// The event at a place, counted from 0, where there is one. It is refused only for want of memory.
    pub fn event(&self, place: usize) -> Result<EventView<'_>, AllocError>
        requires { place < length self.now.items }
        ensures { IfOk result (λ view. slice_get self.now.items place ≡ Some (event_viewed view)) }
    {
        view_of(
            self.alloc,
            self.space,
            self.clients.list.as_slice(),
            self.names.list.as_slice(),
            &self.rows[place],
        )
    }

    /// Makes room for `more` further events, and for one of them that isn't plain. After a refusal no room is lost.
    pub fn reserve(&mut self, more: usize) -> Result<(), AllocError>
        ensures space { self.new.space ≡ self.old.space }
        ensures items { self.new.items ≡ self.old.items }
        ensures room { OnOk result (length self.new.items + more ≤ self.new.capacity) }
        ensures spare { OnOk result (self.new.spare ≡ true) }
        ensures grow { self.old.capacity ≤ self.new.capacity }
        ensures kept { self.old.spare ≡ true → self.new.spare ≡ true }
        ensures stored { self.new.stored ≡ self.old.stored }
        ensures refused { OnErr result
            ((self.old.stored ≡ true) ⊎ (2 ^ 64 ≤ length self.old.items + more)) }
    {
        self.rows.reserve(more)?;
        self.clients.reserve(self.alloc)?;
        self.names.reserve(self.alloc)?;
        if self.spare.is_none() {
            self.spare = Some(room(self.alloc)?);
        }
        Ok(())
    }

    /// Appends an event, for which there is room. It takes no memory; an event that is plain leaves what is to spare.
    pub fn push_reserved(&mut self, event: Event)
        requires room { length self.old.items < self.old.capacity }
        requires spare { IsPlain self.old.space event.ask ⊎ (self.old.spare ≡ true) }
        ensures space { self.new.space ≡ self.old.space }
        ensures items { self.new.items ≡ self.old.items ++ event ∷ [] }
        ensures capacity { self.old.capacity ≤ self.new.capacity }
        ensures kept { IsPlain self.old.space event.ask → self.new.spare ≡ self.old.spare }
        ensures stored { self.new.stored ≡ self.old.stored }
    {
        if is_plain(&self.space, &event.ask) {
            let row = plain_row(&self.space, event);
            self.rows.push_reserved(row);
        } else {
            let row = row_of(
                &mut self.clients,
                &mut self.names,
                &mut self.spare,
                &self.space,
                event,
            );
            self.rows.push_reserved(row);
        }
    }

    /// Appends an event. After a refusal, which comes only for want of memory, the list is as it was, and the event is dropped.
    pub fn push(&mut self, event: Event) -> Result<(), AllocError>
        ensures space { self.new.space ≡ self.old.space }
        ensures ok { OnOk result (self.new.items ≡ self.old.items ++ event ∷ []) }
        ensures err { OnErr result (self.new.items ≡ self.old.items) }
        ensures grow { self.old.capacity ≤ self.new.capacity }
    {
        self.reserve(1)?;
        self.push_reserved(event);
        Ok(())
    }
}
