//! The events of a space that were not handed out.
ghost use Rattle.std.specs.Prelude.{◌≡◌, ◌<◌, ◌∷◌, ◌++◌, [], true, length, vec_capacity, IfOk, IfNone, IfSome, OnOk};
ghost use Rattle.history.specs.Table.{with_event};
ghost use Rattle.space.specs.Acts.{event_of};
ghost use Rattle.turn_lock.specs.Recent.{IsRest};
ghost use Rattle.turn_lock.specs.Rule.{answer_of, events_answered};

use history::{Ask, Event, EventList, Refused, Reply, Turn};
use space::Asked;
use std::alloc::{AllocError, Global};
use std::mem;

/// The events of a space from a place on.
pub struct Recent {
    alloc: Global,
    /// The place of the first of them.
    from: u64,
    events: Vec<Event>,
    /// How many calls run that began here. There is room for the event that ends each of them.
    running: usize,
}

// Written out, so that whoever owns one has one call at each exit, and not the drop of each field.
impl Drop for Recent {
    fn drop(self) {
        let Recent {
            alloc: _,
            from: _,
            events,
            running: _,
        } = self;
        drop(events);
    }
}

impl Recent {
    /// No events, from this place on. It takes no memory.
    pub(crate) fn new(alloc: Global, from: u64) -> Recent
        ensures { (result.from ≡ from) × (result.events.items ≡ []) }
    {
        Recent {
            alloc,
            from,
            events: Vec::new(alloc),
            running: 0,
        }
    }

    /// A copy of an event for which there is room, beside room for the ends of all calls that run, with one that the event may begin.
    pub(crate) fn prepare(&mut self, by: u32, moment: u64, ask: &Ask) -> Result<Event, AllocError>
        ensures same { (self.new.from ≡ self.old.from)
            × (self.new.events.items ≡ self.old.events.items) }
        ensures copy { IfOk result (λ event. event ≡ event_of by moment ask.now) }
        ensures room { OnOk result (length self.new.events.items < vec_capacity self.new.events) }
    {
        self.events.reserve(self.running.saturating_add(2))?;
        let ask = ask.copy(self.alloc)?;
        Ok(Event { by, moment, ask })
    }

    /// Keeps an event that was answered so, for which there is room, where it was taken.
    pub(crate) fn put_answered(&mut self, event: Event, answer: &Result<Turn, Refused>)
        requires room { length self.old.events.items < vec_capacity self.old.events }
        ensures from { self.new.from ≡ self.old.from }
        ensures events { self.new.events.items
            ≡ events_answered self.old.events.items event answer.now }
    {
        match answer {
            Ok(turn) => {
                self.running = running_after(self.running, &event.ask, &turn.reply);
                self.events.push_reserved(event);
            }
            Err(_refused) => drop(event),
        }
    }

    /// Keeps an event whose turn came to this, for which there is room, where it was taken.
    pub(crate) fn put_noted(
        &mut self,
        event: Event,
        noted: &Result<(Result<Turn, Refused>, Asked), AllocError>,
    )
        requires room { length self.old.events.items < vec_capacity self.old.events }
        ensures from { self.new.from ≡ self.old.from }
        ensures events { self.new.events.items
            ≡ events_answered self.old.events.items event (answer_of noted.now) }
    {
        match noted {
            Ok((answer, _entry)) => self.put_answered(event, answer),
            Err(_refused) => drop(event),
        }
    }

    /// Keeps the event that ends a call without an answer, where there is room for it, and says whether there was.
    pub(crate) fn put_end(&mut self, event: Event) -> bool
        ensures from { self.new.from ≡ self.old.from }
        ensures events { result ≡ true
            → self.new.events.items ≡ with_event self.old.events.items event }
    {
        self.running = self.running.saturating_sub(1);
        if self.events.len() == self.events.capacity() {
            drop(event);
            return false;
        }
        self.events.push_reserved(event);
        true
    }

    /// Hands out the events of a history that ends here, if they begin at this place and there is memory for the next ones.
    pub(crate) fn take(&mut self, from: u64, end: u64) -> Option<EventList>
        ensures part { IfSome result (λ part. (self.old.from ≡ from)
            × (part ≡ self.old.events.items) × (self.new.from ≡ end)
            × (self.new.events.items ≡ [])) }
        ensures none { IfNone result
            ((self.new.from ≡ self.old.from) × (self.new.events.items ≡ self.old.events.items)) }
    {
        if self.from != from {
            return None;
        }
        match Vec::with_capacity(self.alloc, self.running) {
            Ok(next) => {
                let part = mem::replace(&mut self.events, next);
                self.from = end;
                Some(EventList::from_vec(part))
            }
            Err(_) => None,
        }
    }

    /// The events, if they begin at this place.
    pub(crate) fn into_part(self, from: u64) -> Option<EventList>
        ensures { IfSome result (λ part. (self.from ≡ from) × (part ≡ self.events.items)) }
    {
        let Recent {
            alloc: _,
            from: first,
            events,
            running: _,
        } = self;
        if first == from {
            Some(EventList::from_vec(events))
        } else {
            drop(events);
            None
        }
    }
}

/// Returns the number of running calls after an event that was answered so.
fn running_after(running: usize, ask: &Ask, reply: &Reply) -> usize {
    match (ask, reply) {
        (Ask::Begin { .. }, Reply::Started(_)) => running.saturating_add(1),
        (Ask::Finish { .. }, Reply::Finished(_)) | (Ask::Abandon { .. }, Reply::Done) => {
            running.saturating_sub(1)
        }
        _ => running,
    }
}
