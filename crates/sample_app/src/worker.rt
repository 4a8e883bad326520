//! Who does the calls of sample objects.
ghost use Rattle.std.specs.Prelude.{◌≡◌, ◌≢◌, pos, [], ◌⊎◌, Some, None};
ghost use Rattle.call_dispatch.specs.Acts.{invokes, unreferenced};
ghost use Rattle.call_dispatch.specs.declared.outcome.Outcome.TheVariants.{OutOfMemory};
ghost use Rattle.sample_app.specs.Does.{Adds, May, Moves, overflow};

use crate::counters::Counters;
use crate::sample_call::{SampleCall, sample_call};
use call_dispatch::{Invocation, Outcome, Worker};
use mod_utf::utf::units_of_ascii;
use object_ids::ObjId;
use ser_values::{Graph, Value};
use std::alloc::Global;
use std::snapshot::Snapshot;

/// The place of the kind that counts.
const COUNTER_KIND: u32 = 1;

/// Does the calls of sample objects: an echo gives its argument back, counters count, each from 0 on, and a maker gives a new counter. A counter
/// past the ends of its type stays, and the call ends in an `ArithmeticException`. A call that is none of theirs comes out as `Void`. What an object
/// has counted is forgotten when it is no longer exported.
#[derive(Drop)]
pub struct SampleWorker {
    alloc: Global,
    counters: Counters,
    /// The number of invocations that the worker was given.
    pub calls: u64,
}

/// The counts of a worker's objects before a call of it, and after it. Only contracts see them.
#[derive(Drop)]
pub struct CountersChange {
    /// The counts before the call.
    pub before: Snapshot<Counters>,
    /// The counts after the call.
    pub after: Snapshot<Counters>,
}

impl SampleWorker {
    /// The worker that was given no invocation yet, and has counted nothing. It takes no memory.
    pub fn new(alloc: Global) -> SampleWorker
        ensures calls { result.calls ≡ 0 }
        ensures counters { result.counters ≡ [] }
    {
        SampleWorker {
            alloc,
            counters: Counters::new(alloc),
            calls: 0,
        }
    }

    /// Does what a call asks for, and counts no invocation.
    pub fn perform(&mut self, call: Invocation) -> Outcome
        ensures may { May call result }
        ensures moves { Moves self.old.counters (invokes call result) self.new.counters }
        ensures calls { self.new.calls ≡ self.old.calls }
    {
        match sample_call(&call) {
            Some(SampleCall::Echo) => Outcome::Tree(graph_of(call)),
            Some(SampleCall::Add(number)) => self.add(call.object, number),
            Some(SampleCall::Get) => Outcome::Prim(Value::Long(self.counters.count(&call.object))),
            Some(SampleCall::Make) => Outcome::NewRemote(COUNTER_KIND),
            None => Outcome::Void,
        }
    }

    /// Forgets what an object has counted. It takes no memory.
    pub fn forget(&mut self, object: ObjId)
        ensures moves { Moves self.old.counters (unreferenced object) self.new.counters }
        ensures calls { self.new.calls ≡ self.old.calls }
    {
        self.counters.forget(&object);
    }

    /// Does what a call asks for as `perform` does, and tells how that changed what was counted.
    pub fn perform_told(&mut self, call: Invocation) -> (Outcome, CountersChange)
        ensures may { May call result.0 }
        ensures moves { Moves result.1.before.value (invokes call result.0) result.1.after.value }
        ensures before { result.1.before.value ≡ self.old.counters }
        ensures after { result.1.after.value ≡ self.new.counters }
    {
        let before = Snapshot::of(&self.counters);
        let outcome = self.perform(call);
        let after = Snapshot::of(&self.counters);
        (outcome, CountersChange { before, after })
    }

    /// Forgets what an object has counted, and tells how that changed what was counted.
    pub fn forget_told(&mut self, object: ObjId) -> CountersChange
        ensures moves { Moves result.before.value (unreferenced object) result.after.value }
        ensures before { result.before.value ≡ self.old.counters }
        ensures after { result.after.value ≡ self.new.counters }
    {
        let before = Snapshot::of(&self.counters);
        self.forget(object);
        let after = Snapshot::of(&self.counters);
        CountersChange { before, after }
    }

    /// Adds a number to an object's own, and gives the sum; or the fault where that is past the ends of its type.
    fn add(&mut self, object: ObjId, number: i64) -> Outcome
        ensures adds { ((result ≡ OutOfMemory) × (self.new.counters ≡ self.old.counters))
            ⊎ Adds self.old.counters object number result self.new.counters }
        ensures fault { result ≡ overflow → number ≢ pos 0 }
        ensures calls { self.new.calls ≡ self.old.calls }
    {
        let count = self.counters.count(&object);
        let Some(sum) = count.checked_add(number) else {
            return overflow(self.alloc);
        };
        match self.counters.put(object, sum) {
            Ok(()) => Outcome::Prim(Value::Long(sum)),
            Err(_refused) => Outcome::OutOfMemory,
        }
    }
}

/// The fault of a sum past the ends of its type.
fn overflow(alloc: Global) -> Outcome
    ensures { (result ≡ OutOfMemory) ⊎ (result ≡ overflow) }
{
    match units_of_ascii(alloc, b"java.lang.ArithmeticException: overflow") {
        Ok(message) => Outcome::Fault(message),
        Err(_refused) => Outcome::OutOfMemory,
    }
}

/// The graph of a call's arguments.
fn graph_of(call: Invocation) -> Graph
    ensures { result ≡ call.arguments.graph }
{
    call.into_arguments().into_graph()
}

impl Worker for SampleWorker {
    ghost shown = { λ w.
        record { calls = w.calls; seen = None; state = Some w.counters; number = 0 } };

    ghost may = { May };

    ghost moves = { Moves };

    fn invoke(&mut self, call: Invocation) -> Outcome {
        self.calls += 1;
        self.perform(call)
    }

    fn unreferenced(&mut self, object: ObjId) {
        self.forget(object);
    }
}
