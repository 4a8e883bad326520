//! The events of a space, which are stored or exist in proofs alone.
ghost use Rattle.std.specs.Prelude.{◌≡◌, ◌⊎◌, ◌≤◌, ◌<◌, ◌+◌, ◌^◌, ◌++◌, ◌∷◌, [], ◌↔◌, true, length, slice_get, Some, IsTrue, IfOk, OnOk, OnErr};
ghost use Rattle.event_log.specs.Rows.{IsPlain};
ghost use Rattle.event_log.specs.Views.{event_viewed};

use crate::erased::ErasedLog;
use crate::log::EventLog;
use crate::view::EventView;
use history::Event;
use object_ids::Uid;
use std::alloc::{AllocError, Global};
use std::fmt;
use std::marker::Model;

/// A log of either kind.
#[derive(Drop)]
enum Kept {
    Stored(EventLog),
    Erased(ErasedLog),
}

/// The events of a space, oldest first, which are stored or exist in proofs alone. Contracts see them as an `EventRecord`.
pub struct SpaceEvents {
    kept: Kept,
}

/// Written out: a function that owns one then calls this at each of its exits.
impl Drop for SpaceEvents {
    fn drop(self) {
        let SpaceEvents { kept } = self;
        drop(kept);
    }
}

impl Model for SpaceEvents {
    ghost use Rattle.event_log.specs.Either.{record_of};
    ghost use Rattle.event_log.specs.Log.{EventRecord};

    ghost Value = { EventRecord };

    ghost view = { λ e. record_of e.kept };
}

impl fmt::Debug for SpaceEvents {
    fn fmt<W: fmt::Write>(&self, f: &mut fmt::Formatter<W>) -> fmt::Result {
        f.debug_struct("SpaceEvents")
            .field("len", &self.len())
            .finish_non_exhaustive()
    }
}

impl SpaceEvents {
    /// The empty list of the events of a space with this identifier. It takes no memory.
    pub fn new(alloc: Global, space: Uid, stored: bool) -> SpaceEvents
        ensures space { result.space ≡ space }
        ensures items { result.items ≡ [] }
        ensures stored { result.stored ≡ stored }
    {
        let kept = if stored {
            Kept::Stored(EventLog::new(alloc, space))
        } else {
            Kept::Erased(ErasedLog::new(space))
        };
        SpaceEvents { kept }
    }

    /// Returns the number of events.
    pub fn len(&self) -> usize
        ensures { result ≡ length self.now.items }
    {
        match &self.kept {
            Kept::Stored(log) => log.len(),
            Kept::Erased(log) => log.len(),
        }
    }

    /// Returns whether there are no events.
    pub fn is_empty(&self) -> bool
        ensures { IsTrue result ↔ (self.now.items ≡ []) }
    {
        match &self.kept {
            Kept::Stored(log) => log.is_empty(),
            Kept::Erased(log) => log.is_empty(),
        }
    }

    /// The event at a place, counted from 0, where there is one and the events are stored. It is refused only for want of memory.
    pub fn event(&self, place: usize) -> Result<EventView<'_>, AllocError>
        requires stored { self.now.stored ≡ true }
        requires place { place < length self.now.items }
        ensures { IfOk result (λ view. slice_get self.now.items place ≡ Some (event_viewed view)) }
    {
        match &self.kept {
            Kept::Stored(log) => log.event(place),
            Kept::Erased(_) => Err(AllocError),
        }
    }

    /// Makes room for `more` further events, and for one of them that isn't plain. After a refusal no room is lost. Events that exist in
    /// proofs alone take no memory.
    pub fn reserve(&mut self, more: usize) -> Result<(), AllocError>
        ensures space { self.new.space ≡ self.old.space }
        ensures items { self.new.items ≡ self.old.items }
        ensures room { OnOk result (length self.new.items + more ≤ self.new.capacity) }
        ensures spare { OnOk result (self.new.spare ≡ true) }
        ensures grow { self.old.capacity ≤ self.new.capacity }
        ensures kept { self.old.spare ≡ true → self.new.spare ≡ true }
        ensures stored { self.new.stored ≡ self.old.stored }
        ensures refused { OnErr result
            ((self.old.stored ≡ true) ⊎ (2 ^ 64 ≤ length self.old.items + more)) }
    {
        match &mut self.kept {
            Kept::Stored(log) => log.reserve(more),
            Kept::Erased(log) => log.reserve(more),
        }
    }

    /// Appends an event, for which there is room. It takes no memory; an event that is plain leaves what is to spare.
    pub fn push_reserved(&mut self, event: Event)
        requires room { length self.old.items < self.old.capacity }
        requires spare { IsPlain self.old.space event.ask ⊎ (self.old.spare ≡ true) }
        ensures space { self.new.space ≡ self.old.space }
        ensures items { self.new.items ≡ self.old.items ++ event ∷ [] }
        ensures capacity { self.old.capacity ≤ self.new.capacity }
        ensures kept { IsPlain self.old.space event.ask → self.new.spare ≡ self.old.spare }
        ensures stored { self.new.stored ≡ self.old.stored }
    {
        match &mut self.kept {
            Kept::Stored(log) => log.push_reserved(event),
            Kept::Erased(log) => log.push_reserved(event),
        }
    }
}
