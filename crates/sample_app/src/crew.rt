//! The hands of the sample's connections.
ghost use Rattle.std.specs.Prelude.{◌≡◌, ◌<◌, ◌+◌, ◌^◌, None};
ghost use Rattle.call_dispatch.specs.Acts.{invokes, unreferenced};
ghost use Rattle.sample_app.specs.Changes.{IsLastChange};
ghost use Rattle.sample_app.specs.Does.{May, Moves};

use crate::worker::{CountersChange, SampleWorker};
use call_dispatch::{Crew, Invocation, Outcome, Worker};
use object_ids::ObjId;
use std::alloc::{AllocError, Global};
use std::sync::{Arc, Mutex, Wait};

/// Has hands that do the calls of sample objects. All share one table of what the objects have counted, behind a lock of its own.
#[derive(Drop)]
pub struct SampleCrew<'t, R: Wait + Sync> {
    rt: &'t R,
    shared: Arc<Mutex<SampleWorker>>,
}

/// Does the calls of sample objects for one connection, as a `SampleWorker` does, whose numbers it shares with the other hands of its crew. So the
/// numbers are not its own to tell: other hands change them between two of its calls. It tells how many invocations it was given, and how its last
/// call changed the numbers that it found. Each of its calls waits until no other hand is at the numbers.
#[derive(Drop)]
pub struct SampleHand<'t, R: Wait + Sync> {
    rt: &'t R,
    shared: Arc<Mutex<SampleWorker>>,
    /// The number of its connection.
    pub by: u32,
    /// The number of invocations that the hand was given.
    pub calls: u64,
    /// The change that its last call made to the shared numbers. It is None before the first call.
    pub last: Option<CountersChange>,
}

impl<'t, R: Wait + Sync> SampleCrew<'t, R> {
    /// The crew whose objects have counted nothing. It is refused only for want of memory.
    pub fn new(rt: &'t R, alloc: Global) -> Result<SampleCrew<'t, R>, AllocError> {
        Ok(SampleCrew {
            rt,
            shared: Arc::new(alloc, Mutex::new(SampleWorker::new(alloc)))?,
        })
    }
}

impl<'t, R: Wait + Sync> Crew for SampleCrew<'t, R> {
    type Hand = SampleHand<'t, R>;

    fn hand(&self, by: u32) -> Result<SampleHand<'t, R>, AllocError> {
        Ok(SampleHand {
            rt: self.rt,
            shared: Arc::try_clone(&self.shared)?,
            by,
            calls: 0,
            last: None,
        })
    }
}

impl<'t, R: Wait + Sync> Worker for SampleHand<'t, R> {
    ghost shown = { λ hand.
        record { calls = hand.calls; seen = None; state = None; number = hand.by } };

    ghost may = { May };

    ghost moves = { Moves };

    /// Does what a call asks for at the shared numbers, as the call of a `SampleWorker` changes them.
    fn invoke(&mut self, call: Invocation) -> Outcome
        requires { self.old.calls < 2 ^ 62 }
        ensures calls { self.new.calls ≡ self.old.calls + 1 }
        ensures number { self.new.by ≡ self.old.by }
        ensures may { May call result }
        ensures last { IsLastChange self.new.last (invokes call result) }
    {
        self.calls += 1;
        let (outcome, change) = perform(self.rt, &self.shared, call);
        self.last = Some(change);
        outcome
    }

    /// Forgets what the object has counted at the shared numbers.
    fn unreferenced(&mut self, object: ObjId)
        ensures calls { self.new.calls ≡ self.old.calls }
        ensures number { self.new.by ≡ self.old.by }
        ensures last { IsLastChange self.new.last (unreferenced object) }
    {
        self.last = Some(forget(self.rt, &self.shared, object));
    }
}

/// Does what a call asks for, once no other hand is at the numbers.
fn perform<R: Wait>(
    rt: &R,
    shared: &Mutex<SampleWorker>,
    call: Invocation,
) -> (Outcome, CountersChange)
    ensures may { May call result.0 }
    ensures moves { Moves result.1.before.value (invokes call result.0) result.1.after.value }
{
    shared.lock(rt).perform_told(call)
}

/// Forgets what an object has counted, once no other hand is at the numbers.
fn forget<R: Wait>(rt: &R, shared: &Mutex<SampleWorker>, object: ObjId) -> CountersChange
    ensures { Moves result.before.value (unreferenced object) result.after.value }
{
    shared.lock(rt).forget_told(object)
}
