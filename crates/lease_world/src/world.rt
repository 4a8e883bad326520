//! A world, step by step.
ghost use Rattle.std.specs.Prelude.{◌≡◌, ◌≤◌, ◌<◌, ◌⊎◌, ◌++◌, ◌∷◌, [], length, true, IfOk, IfErr, OnOk, OnErr, IsOk};
ghost use Rattle.history.specs.declared.limits.TheConstants.{MAX_DURATION_MS};
ghost use Rattle.lease_world.specs.World.{world, rows_of, fault_of, KeepsPromise};
ghost use Rattle.lease_world.specs.Stands.{StandsForCourse, ForEachCourse, IsCause, IsTaken, IsLeft, IsStep, no_deeds};
ghost use Rattle.lease_world.specs.declared.fault.WorldFault.TheVariants as faults;

use crate::fault::WorldFault;
use crate::letter::Letter;
use crate::member::Member;
use crate::opening::{members_of, open_space};
use crate::step::Step;
use space::Space;
use std::alloc::Global;
use std::fmt;
use std::marker::Model;

/// A world: one server's space, many clients' tables, and every lease call that was ever sent. Contracts see it as `WorldParts`; what its steps
/// leave is said by the courses for which it stands.
pub struct World {
    /// Where it takes memory.
    pub(crate) alloc: Global,
    /// The present moment, in milliseconds.
    pub(crate) moment: u64,
    /// The number of new objects that the server returned.
    pub(crate) made: u64,
    /// The server's space.
    pub(crate) space: Space,
    /// The clients, by their numbers.
    pub(crate) members: Vec<Member>,
    /// Every lease call that was sent, in the order of sending.
    pub(crate) letters: Vec<Letter>,
}

/// Written out, so that whoever owns one has one call at each exit, and not the drop of each field.
impl Drop for World {
    fn drop(self) {
        let World {
            alloc: _,
            moment: _,
            made: _,
            space,
            members,
            letters,
        } = self;
        drop(space);
        drop(members);
        drop(letters);
    }
}

impl fmt::Debug for World {
    fn fmt<W: fmt::Write>(&self, f: &mut fmt::Formatter<W>) -> fmt::Result {
        f.debug_struct("World")
            .field("moment", &self.moment)
            .finish_non_exhaustive()
    }
}

impl Model for World {
    ghost use Rattle.std.specs.Prelude.{◌≡◌, ◌<◌, true};
    ghost use Rattle.history.specs.declared.limits.TheConstants.{END_OF_TIME};
    ghost use Rattle.lease_world.specs.Stands.{WorldParts};

    ghost Value = { WorldParts };

    ghost view = { λ a. record {
      moment = a.moment;
      made = a.made;
      space = a.space;
      members = a.members.items;
      letters = a.letters.items;
    } };

    ghost invariant = { λ a. (a.moment < END_OF_TIME) × (a.space.configuration.stored ≡ true) };
}

impl World {
    /// The world of so many clients, in which no step was taken: the server has exported object 16 of kind 2, pinned. Its leases and its times to
    /// acknowledge last from 1 to 2^40 milliseconds. It is refused only for want of memory.
    pub fn fresh(
        alloc: Global,
        lease_ms: u64,
        ack_ms: u64,
        clients: u8,
    ) -> Result<World, WorldFault>
        requires some_lease { 1 ≤ lease_ms }
        requires short_lease { lease_ms ≤ MAX_DURATION_MS }
        requires some_ack { 1 ≤ ack_ms }
        requires short_ack { ack_ms ≤ MAX_DURATION_MS }
        ensures ok { IfOk result
            (λ fresh. StandsForCourse fresh (no_deeds lease_ms ack_ms clients)) }
        ensures err { IfErr result (λ fault. fault ≡ faults.OutOfMemory) }

        // The server exports what its history exports, and nothing else.
        ensures table { IfOk result (λ fresh. ForEachCourse fresh
            (λ course. fresh.space.rows ≡ rows_of (world course))) }
    {
        let space = open_space(alloc, lease_ms, ack_ms)?;
        let members = members_of(alloc, lease_ms, clients)?;
        Ok(World {
            alloc,
            moment: 0,
            made: 0,
            space,
            members,
            letters: Vec::new(alloc),
        })
    }

    /// Takes a step. BadStep comes exactly where the step names no client, no sent call, or no moment or number that it may name; SpaceRefused and
    /// ClientRefused exactly where the server's space or the client's table refuses its call for another cause than memory. OutOfMemory may come in
    /// place of any other answer. A refused step changes nothing, except that a `Make` whose return is refused has begun its call and ended it
    /// without an answer.
    pub fn step(&mut self, step: Step) -> Result<(), WorldFault>
        ensures ok { OnOk result (ForEachCourse self.old (IsTaken self.old step self.new)) }
        ensures refused { IfErr result (λ fault. ForEachCourse self.old
            (λ course. IsCause fault (fault_of (world course) step))) }
        ensures left { IfErr result (λ fault. IsLeft self.old step fault self.new) }

        // The server exports what its history exports, and nothing else.
        ensures table { ForEachCourse self.new
            (λ course. self.new.space.rows ≡ rows_of (world course)) }

        // Whatever is lost, late or repeated: an object that a client may use, and that was exported at some delivery of the dirty call which made
        // the client's reference sure, be it the first one or a later one, before the answer or after it, is exported.
        ensures promise { ForEachCourse self.new
            (λ course. KeepsPromise (world course) self.new.space.rows) }
    {
        let result = self.take(step);
        let _count = self.space.len();
        result
    }

    /// Takes a step.
    fn take(&mut self, step: Step) -> Result<(), WorldFault>
        ensures { IsStep self.old step result self.new }
    {
        match step {
            Step::At { moment } => self.pass(moment),
            Step::Make => self.make(),
            Step::Ack { make } => self.acknowledge(make),
            Step::Register { client, number } => self.register(client, number),
            Step::Release { client, number } => self.release(client, number),
            Step::Due { client } => self.send_due(client),
            Step::Deliver { call } => self.deliver(call),
            Step::Answer { call } => self.answer(call),
            Step::Fail { call } => self.fail(call),
            Step::Tick => self.tick(),
            Step::Ask { client, asked } => self.set_asked(client, asked),
        }
    }
}
