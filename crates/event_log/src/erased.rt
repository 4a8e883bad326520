//! A list of events in no bytes.
ghost use Rattle.std.specs.Prelude.{◌≡◌, ◌⊎◌, ◌≤◌, ◌<◌, ◌+◌, ◌^◌, ◌++◌, ◌∷◌, [], ◌↔◌, true, false, length, IsTrue, OnOk, OnErr};
ghost use Rattle.event_log.specs.Rows.{IsPlain};

use history::Event;
use http_server::Log;
use object_ids::Uid;
use std::alloc::AllocError;
use std::fmt;
use std::marker::Model;

/// The events of a space, oldest first. They exist in proofs alone; a program has their number. Contracts see a log as an `EventRecord` that
/// has room for 2^64 - 1 events, and isn't stored.
#[derive(Drop)]
pub struct ErasedLog {
    space: Uid,
    count: usize,
    events: Log<Event, ()>,
}

impl Model for ErasedLog {
    ghost use Rattle.std.specs.Prelude.{◌≡◌, ◌^◌, ◌-◌, true, false, length, map};
    ghost use Rattle.event_log.specs.Log.{EventRecord};

    ghost Value = { EventRecord };

    ghost view = { λ l. record {
      space = l.space;
      items = map (λ entry. entry.0) l.events.items;
      capacity = 2 ^ 64 - 1;
      spare = true;
      stored = false;
    } };

    ghost invariant = { λ l. l.count ≡ length l.events.items };
}

impl fmt::Debug for ErasedLog {
    fn fmt<W: fmt::Write>(&self, f: &mut fmt::Formatter<W>) -> fmt::Result {
        f.debug_struct("ErasedLog")
            .field("len", &self.count)
            .finish_non_exhaustive()
    }
}

impl ErasedLog {
    /// The empty list of the events of a space with this identifier.
    pub fn new(space: Uid) -> ErasedLog
        ensures space { result.space ≡ space }
        ensures items { result.items ≡ [] }
        ensures stored { result.stored ≡ false }
    {
        ErasedLog {
            space,
            count: 0,
            events: Log::new(),
        }
    }

    /// Returns the number of events.
    pub fn len(&self) -> usize
        ensures { result ≡ length self.now.items }
    {
        self.count
    }

    /// Returns whether there are no events.
    pub fn is_empty(&self) -> bool
        ensures { IsTrue result ↔ (self.now.items ≡ []) }
    {
        self.count == 0
    }

    /// Makes room for `more` further events. It takes no memory, and is refused only where 2^64 events or more would be counted.
    pub fn reserve(&mut self, more: usize) -> Result<(), AllocError>
        ensures space { self.new.space ≡ self.old.space }
        ensures items { self.new.items ≡ self.old.items }
        ensures room { OnOk result (length self.new.items + more ≤ self.new.capacity) }
        ensures spare { OnOk result (self.new.spare ≡ true) }
        ensures grow { self.old.capacity ≤ self.new.capacity }
        ensures kept { self.old.spare ≡ true → self.new.spare ≡ true }
        ensures stored { self.new.stored ≡ self.old.stored }
        ensures refused { OnErr result
            ((self.old.stored ≡ true) ⊎ (2 ^ 64 ≤ length self.old.items + more)) }
    {
        if more > usize::MAX - self.count {
            return Err(AllocError);
        }
        Ok(())
    }

    /// Appends an event, for which there is room, and drops it. It takes no memory.
    pub fn push_reserved(&mut self, event: Event)
        requires room { length self.old.items < self.old.capacity }
        requires spare { IsPlain self.old.space event.ask ⊎ (self.old.spare ≡ true) }
        ensures space { self.new.space ≡ self.old.space }
        ensures items { self.new.items ≡ self.old.items ++ event ∷ [] }
        ensures capacity { self.old.capacity ≤ self.new.capacity }
        ensures kept { IsPlain self.old.space event.ask → self.new.spare ≡ self.old.spare }
        ensures stored { self.new.stored ≡ self.old.stored }
    {
        self.events = self.events.and(&event, &());
        self.count += 1;
    }
}
