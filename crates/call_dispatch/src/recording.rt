//! A worker that keeps its calls.
ghost use Rattle.std.specs.Prelude.{◌≡◌, ◌⊎◌, ◌+◌, ◌<◌, ◌^◌, [], ◌∷◌, drop, map, true, false, None, Some, if◌then◌else◌};
ghost use Rattle.call_dispatch.specs.Acts.{invokes, TellsMore};
ghost use Rattle.call_dispatch.specs.Recording.{call_of, head_or};

use crate::outcome::{Invocation, Outcome, OutcomeList};
use crate::worker::Worker;
use object_ids::ObjId;
use sequence::TryCopy;
use std::alloc::Global;

/// A call of a worker, as it is kept.
#[derive(Debug, Drop)]
pub enum Recorded {
    /// An invocation, and how it came out.
    Invoked(Invocation, Outcome),
    /// The worker was told that nobody refers to this object any more.
    Unreferenced(ObjId),
}

/// A worker that gives outcomes one after the other, `Void` past their end, and keeps its calls ([`RecordingWorker::answer`]). Where there is no
/// memory to keep one, an invocation comes out as `OutOfMemory`, and from then on the worker tells nothing.
pub struct RecordingWorker {
    alloc: Global,
    /// The outcomes that are left, the next one first.
    outcomes: Vec<Outcome>,
    recorded: Vec<Recorded>,
    /// True where every call was kept.
    whole: bool,
    /// The number of invocations that the worker was given.
    pub calls: u64,
    /// The number of the connection that it was made for, 0 where for none.
    number: u32,
}

// Written out, so that whoever owns one has one call at each exit, and not the drop of each field.
impl Drop for RecordingWorker {
    fn drop(self) {
        let RecordingWorker {
            alloc: _,
            outcomes,
            recorded,
            whole: _,
            calls: _,
            number: _,
        } = self;
        drop(outcomes);
        drop(recorded);
    }
}

impl RecordingWorker {
    /// The worker that gives the i-th outcome to the i-th invocation. It was given none yet. It takes no memory.
    pub fn new(alloc: Global, outcomes: OutcomeList) -> RecordingWorker
        ensures calls { result.calls ≡ 0 }
        ensures whole { result.whole ≡ true }
        ensures recorded { result.recorded.items ≡ [] }
        ensures outcomes { result.outcomes.items ≡ outcomes }
    {
        RecordingWorker::of_connection(alloc, outcomes, 0)
    }

    /// The same, made for connection `by`.
    pub fn of_connection(alloc: Global, outcomes: OutcomeList, by: u32) -> RecordingWorker
        ensures calls { result.calls ≡ 0 }
        ensures whole { result.whole ≡ true }
        ensures recorded { result.recorded.items ≡ [] }
        ensures outcomes { result.outcomes.items ≡ outcomes }
        ensures number { result.number ≡ by }
    {
        RecordingWorker {
            alloc,
            outcomes: outcomes.into_vec(),
            recorded: Vec::new(alloc),
            whole: true,
            calls: 0,
            number: by,
        }
    }

    /// The next outcome.
    fn next_outcome(&mut self) -> Outcome
        ensures calls { self.new.calls ≡ self.old.calls }
        ensures number { self.new.number ≡ self.old.number }
        ensures whole { self.new.whole ≡ self.old.whole }
        ensures recorded { self.new.recorded ≡ self.old.recorded }
        ensures next { result ≡ head_or Outcome.Void self.old.outcomes.items }
        ensures rest { self.new.outcomes.items ≡ drop 1 self.old.outcomes.items }
    {
        if self.outcomes.is_empty() {
            Outcome::Void
        } else {
            self.outcomes.remove(0)
        }
    }

    /// Returns the next outcome, or `Void` past their end, and keeps the call with it. Where there is no memory to
    /// keep both, it returns `OutOfMemory`. In either case the outcome is used up.
    pub fn answer(&mut self, call: Invocation) -> Outcome
        requires few { self.old.calls < 2 ^ 62 }
        ensures next { (result ≡ head_or Outcome.Void self.old.outcomes.items)
            ⊎ ((result ≡ Outcome.OutOfMemory) × (self.new.whole ≡ false)) }
        ensures rest { self.new.outcomes.items ≡ drop 1 self.old.outcomes.items }
        ensures calls { self.new.calls ≡ self.old.calls + 1 }
        ensures number { self.new.number ≡ self.old.number }
        ensures kept { TellsMore
            (if self.old.whole then Some (map call_of self.old.recorded.items) else None)
            (invokes call result ∷ [])
            (if self.new.whole then Some (map call_of self.new.recorded.items) else None) }
    {
        self.calls += 1;
        let outcome = self.next_outcome();
        let Ok(copy) = outcome.try_copy(self.alloc) else {
            self.whole = false;
            return Outcome::OutOfMemory;
        };
        if self.recorded.push(Recorded::Invoked(call, copy)).is_err() {
            self.whole = false;
            return Outcome::OutOfMemory;
        }
        outcome
    }

    /// Returns the calls that were kept, in their order.
    pub fn records(&self) -> &[Recorded]
        ensures { result.now ≡ self.now.recorded.items }
    {
        self.recorded.as_slice()
    }
}

impl Worker for RecordingWorker {
    ghost shown = { λ w. record {
      calls = w.calls;
      seen = if w.whole then Some (map call_of w.recorded.items) else None;
      state = None;
      number = w.number;
    } };

    ghost may = { λ call outcome. Unit {0} };

    ghost moves = { λ before call after. Unit {0} };

    fn invoke(&mut self, call: Invocation) -> Outcome {
        self.answer(call)
    }

    fn unreferenced(&mut self, object: ObjId) {
        if self.recorded.push(Recorded::Unreferenced(object)).is_err() {
            self.whole = false;
        }
    }
}
